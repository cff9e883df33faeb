//! Look-ups: what each finds, each refusal, and targets and methods that lead to none.

/// After `requests`, of which the refs are `A-1` to `A-5`. Both of its shifts are closed.
pub(crate) fn looks() -> &'static str {
    "\
Each
> Closed 1388534430
GET /health HTTP/1.1~Host: d~~
200 OK, 67 = {'format':4,'last_moment':1590926520,'last_write':'done','sales':5}
> Closed 1388534430
GET /meters/12345678903 HTTP/1.1~Host: d~~
200 OK, 72 = {'base':2014,'meter':'12345678903','sale':5,'tariff':'block','tenths':1}
> Closed 1590926520
GET /meters/12345678903 HTTP/1.1~Host: d~~
200 OK, 73 = {'base':2014,'meter':'12345678903','sale':5,'tariff':'block','tenths':10}
> Closed 1591012800
GET /meters/12345678903 HTTP/1.1~Host: d~~
200 OK, 74 = {'base':2014,'meter':'12345678903','sale':5,'tariff':'block','tenths':505}
> Closed 1593561600
GET /meters/12345678903 HTTP/1.1~Host: d~~
200 OK, 72 = {'base':2014,'meter':'12345678903','sale':5,'tariff':'block','tenths':0}
> Closed 1732479359
GET /meters/10000000009 HTTP/1.1~Host: d~~
200 OK, 72 = {'base':1993,'meter':'10000000009','sale':2,'tariff':'flat','tenths':10}
> Closed 1388534430
GET /meters/79927398713 HTTP/1.1~Host: d~~
200 OK, 75 = {'base':2035,'meter':'79927398713','sale':null,'tariff':'night','tenths':0}
> Closed 1388534430
GET /meters/00000000000 HTTP/1.1~Host: d~~
404 Not Found, 31 = {'error':'NoMeter','refusal':4}
> Closed 1388534430
GET /meters/12345678903/last HTTP/1.1~Host: d~~
200 OK, 120 = SALE 5|METER 12345678903|TIME 2020-05-31T12:02:00Z|KWH 1.0|PRICE 100|TENDER 100|CHANG\
    E 0|TOKEN 0037 4781 9472 1604 8422|
> Closed 1388534430
GET /meters/10000000009/last HTTP/1.1~Host: d~~
200 OK, 120 = SALE 2|METER 10000000009|TIME 2024-11-24T20:15:59Z|KWH 1.0|PRICE 100|TENDER 100|CHANG\
    E 0|TOKEN 0021 6172 7778 1952 6542|
> Closed 1388534430
GET /meters/79927398713/last HTTP/1.1~Host: d~~
404 Not Found, 31 = {'error':'NoSale','refusal':12}
> Closed 1388534430
GET /meters/00000000000/last HTTP/1.1~Host: d~~
404 Not Found, 31 = {'error':'NoMeter','refusal':4}
> Closed 1591012800
GET /meters/12345678903/quote?tender=100 HTTP/1.1~Host: d~~
200 OK, 87 = {'change':0,'meter':'12345678903','price':100,'tariff':'block','tender':100,'tenths':5}
> Closed 1591012800
GET /meters/12345678903/quote?tender=119 HTTP/1.1~Host: d~~
200 OK, 88 = {'change':19,'meter':'12345678903','price':100,'tariff':'block','tender':119,'tenths':\
    5}
> Closed 1591012800
GET /meters/12345678903/quote?tender=20 HTTP/1.1~Host: d~~
200 OK, 85 = {'change':0,'meter':'12345678903','price':20,'tariff':'block','tender':20,'tenths':1}
> Closed 1591012800
GET /meters/12345678903/quote?tender=19 HTTP/1.1~Host: d~~
422 Unprocessable Entity, 34 = {'error':'TooLittle','refusal':10}
> Closed 1590926580
GET /meters/12345678903/quote?tender=100 HTTP/1.1~Host: d~~
200 OK, 88 = {'change':0,'meter':'12345678903','price':100,'tariff':'block','tender':100,'tenths':1\
    0}
> Closed 1590926520
GET /meters/12345678903/quote?tender=100 HTTP/1.1~Host: d~~
409 Conflict, 39 = {'error':'IdentifierAhead','refusal':9}
> Closed 1732479359
GET /meters/10000000009/quote?tender=100 HTTP/1.1~Host: d~~
409 Conflict, 40 = {'error':'IdentifiersSpent','refusal':8}
> Closed 1388534430
GET /meters/79927398713/quote?tender=100 HTTP/1.1~Host: d~~
409 Conflict, 34 = {'error':'BeforeBase','refusal':7}
> Closed 1388534430
GET /meters/00000000000/quote?tender=100 HTTP/1.1~Host: d~~
404 Not Found, 31 = {'error':'NoMeter','refusal':4}
> Closed 1388534430
GET /operators/ann/sales/A-1 HTTP/1.1~Host: d~~
200 OK, 189 = {'base':2014,'change':0,'meter':'12345678903','moment':1388534430,'number':1,'operato\
    r':'ann','price':10,'ref':'A-1','shift':1,'tender':10,'tenths':1,'tid':2,'token':'0007205760262\
    7981690'}
> Closed 1388534430
GET /operators/ann/sales/A-6 HTTP/1.1~Host: d~~
404 Not Found, 31 = {'error':'NoSale','refusal':12}
> Closed 1388534430
GET /operators/bob/sales/A-1 HTTP/1.1~Host: d~~
404 Not Found, 31 = {'error':'NoSale','refusal':12}
> Closed 1388534430
GET /shifts/1/totals HTTP/1.1~Host: d~~
200 OK, 46 = {'cash':5310,'sales':5,'shift':1,'tenths':526}
> Closed 1388534430
GET /shifts/2/totals HTTP/1.1~Host: d~~
200 OK, 41 = {'cash':0,'sales':0,'shift':2,'tenths':0}
> Closed 1388534430
GET /shifts/3/totals HTTP/1.1~Host: d~~
404 Not Found, 36 = {'error':'NoSuchShift','refusal':13}
> Closed 1388534430
GET /health HTTP/1.1~Host: d~Content-Length: 1~~{
200 OK, 67 = {'format':4,'last_moment':1590926520,'last_write':'done','sales':5}
> Closed 725846399
GET /health HTTP/1.1~Host: d~~
503 Service Unavailable, 17 = {'error':'Clock'}
> Closed 1388534430 1591012800
GET /health HTTP/1.1~Host: d~~GET /meters/12345678903 HTTP/1.1~Host: d~~GET /meters HTTP/1.1~Host: \
    d~~GET /sales/1/receipt HTTP/1.1~Host: d~~GET /meters/12345678903/last HTTP/1.1~Host: d~~
200 OK, 67 = {'format':4,'last_moment':1590926520,'last_write':'done','sales':5}
200 OK, 74 = {'base':2014,'meter':'12345678903','sale':5,'tariff':'block','tenths':505}
405 Method Not Allowed, 18, Allow: POST~ = {'error':'Method'}
200 OK, 118 = SALE 1|METER 12345678903|TIME 2014-01-01T00:00:30Z|KWH 0.1|PRICE 10|TENDER 10|CHANGE \
    0|TOKEN 0007 2057 6026 2798 1690|
200 OK, 120 = SALE 5|METER 12345678903|TIME 2020-05-31T12:02:00Z|KWH 1.0|PRICE 100|TENDER 100|CHANG\
    E 0|TOKEN 0037 4781 9472 1604 8422|
> Closed 1388534430
HEAD /sales/1/receipt HTTP/1.1~Host: d~~GET http://d/health HTTP/1.1~Host: d~~
200 OK, 118 =\u{20}
200 OK, 67 = {'format':4,'last_moment':1590926520,'last_write':'done','sales':5}
> Closed 1388534430
GET /health HTTP/1.0~Host: d~~
200 OK, 67, Connection: close~ = {'format':4,'last_moment':1590926520,'last_write':'done','sales':5}
> Closed 1388534430
POST /health HTTP/1.1~Host: d~~
405 Method Not Allowed, 18, Allow: GET, HEAD~ = {'error':'Method'}
> Closed 1388534430
POST /meters/12345678903 HTTP/1.1~Host: d~~
405 Method Not Allowed, 18, Allow: GET, HEAD~ = {'error':'Method'}
> Closed 1388534430
POST /meters/12345678903/last HTTP/1.1~Host: d~~
405 Method Not Allowed, 18, Allow: GET, HEAD~ = {'error':'Method'}
> Closed 1388534430
POST /meters/12345678903/quote?tender=100 HTTP/1.1~Host: d~~
405 Method Not Allowed, 18, Allow: GET, HEAD~ = {'error':'Method'}
> Closed 1388534430
POST /operators/ann/sales/A-1 HTTP/1.1~Host: d~~
405 Method Not Allowed, 18, Allow: GET, HEAD~ = {'error':'Method'}
> Closed 1388534430
POST /shifts/1/totals HTTP/1.1~Host: d~~
405 Method Not Allowed, 18, Allow: GET, HEAD~ = {'error':'Method'}
> Closed 1388534430
GET /meters/12345678904 HTTP/1.1~Host: d~~
404 Not Found, 19 = {'error':'NoRoute'}
> Closed 1388534430
GET /meters/12345678904/last HTTP/1.1~Host: d~~
404 Not Found, 19 = {'error':'NoRoute'}
> Closed 1388534430
GET /meters/12345678903/quote?tender=0 HTTP/1.1~Host: d~~
404 Not Found, 19 = {'error':'NoRoute'}
> Closed 1388534430
GET /meters/12345678903/quote HTTP/1.1~Host: d~~
404 Not Found, 19 = {'error':'NoRoute'}
> Closed 1388534430
GET /operators/a-b/sales/A-1 HTTP/1.1~Host: d~~
404 Not Found, 19 = {'error':'NoRoute'}
> Closed 1388534430
GET /operators/ann/sales/A_1 HTTP/1.1~Host: d~~
404 Not Found, 19 = {'error':'NoRoute'}
> Closed 1388534430
GET /shifts/01/totals HTTP/1.1~Host: d~~
404 Not Found, 19 = {'error':'NoRoute'}
> Closed 1388534430
GET /health? HTTP/1.1~Host: d~~
404 Not Found, 19 = {'error':'NoRoute'}
> Closed 1388534430
GET /tariffs?after= HTTP/1.1~Host: d~~
200 OK, 148 = {'tariffs':[{'later':[],'name':'block','steps':'500:100;:200'},{'later':[],'name':'fl\
    at','steps':':100'},{'later':[],'name':'night','steps':':50'}]}
> Closed 1388534430
GET /tariffs?after=block HTTP/1.1~Host: d~~
200 OK, 97 = {'tariffs':[{'later':[],'name':'flat','steps':':100'},{'later':[],'name':'night','step\
    s':':50'}]}
> Closed 1388534430
GET /tariffs?after=c HTTP/1.1~Host: d~~
200 OK, 97 = {'tariffs':[{'later':[],'name':'flat','steps':':100'},{'later':[],'name':'night','step\
    s':':50'}]}
> Closed 1388534430
GET /tariffs?after=night HTTP/1.1~Host: d~~
200 OK, 14 = {'tariffs':[]}
> Closed 1388534430
GET /meters?after= HTTP/1.1~Host: d~~
200 OK, 170 = {'meters':[{'base':1993,'meter':'10000000009','tariff':'flat'},{'base':2014,'meter':'\
    12345678903','tariff':'block'},{'base':2035,'meter':'79927398713','tariff':'night'}]}
> Closed 1388534430
GET /meters?after=12345678903 HTTP/1.1~Host: d~~
200 OK, 65 = {'meters':[{'base':2035,'meter':'79927398713','tariff':'night'}]}
> Closed 1388534430
GET /meters?after=00000000000 HTTP/1.1~Host: d~~
200 OK, 170 = {'meters':[{'base':1993,'meter':'10000000009','tariff':'flat'},{'base':2014,'meter':'\
    12345678903','tariff':'block'},{'base':2035,'meter':'79927398713','tariff':'night'}]}
> Closed 1388534430
GET /meters?after=79927398713 HTTP/1.1~Host: d~~
200 OK, 13 = {'meters':[]}
> Closed 1388534430
GET /shifts?after=0 HTTP/1.1~Host: d~~
200 OK, 217 = {'shifts':[{'cash':5310,'closed':1388534430,'number':1,'opened':1388534430,'operator'\
    :'ann','sales':5,'tenths':526},{'cash':0,'closed':1388534430,'number':2,'opened':1388534430,'op\
    erator':'bob','sales':0,'tenths':0}]}
> Closed 1388534430
GET /shifts?after=1 HTTP/1.1~Host: d~~
200 OK, 112 = {'shifts':[{'cash':0,'closed':1388534430,'number':2,'opened':1388534430,'operator':'b\
    ob','sales':0,'tenths':0}]}
> Closed 1388534430
GET /shifts?after=1000000000 HTTP/1.1~Host: d~~
200 OK, 13 = {'shifts':[]}
> Closed 1388534430
GET /sales?after=3 HTTP/1.1~Host: d~~
200 OK, 412 = {'sales':[{'base':2014,'change':0,'meter':'12345678903','moment':1591009200,'number':\
    4,'operator':'ann','price':5000,'ref':'A-4','shift':1,'tender':5000,'tenths':495,'tid':3374641,\
    'token':'00302724348914924311'},{'base':2014,'change':0,'meter':'12345678903','moment':15909265\
    20,'number':5,'operator':'ann','price':100,'ref':'A-5','shift':1,'tender':100,'tenths':10,'tid'\
    :3374642,'token':'00374781947216048422'}]}
> Closed 1388534430
GET /sales?after=5 HTTP/1.1~Host: d~~
200 OK, 12 = {'sales':[]}
> Closed 725846399
GET /tariffs?after= HTTP/1.1~Host: d~~
503 Service Unavailable, 17 = {'error':'Clock'}
> Closed 1388534430
POST /tariffs?after= HTTP/1.1~Host: d~~
405 Method Not Allowed, 18, Allow: GET, HEAD~ = {'error':'Method'}
> Closed 1388534430
POST /tariffs?after=flat HTTP/1.1~Host: d~~
405 Method Not Allowed, 18, Allow: GET, HEAD~ = {'error':'Method'}
> Closed 1388534430
POST /meters?after= HTTP/1.1~Host: d~~
405 Method Not Allowed, 18, Allow: GET, HEAD~ = {'error':'Method'}
> Closed 1388534430
POST /meters?after=12345678903 HTTP/1.1~Host: d~~
405 Method Not Allowed, 18, Allow: GET, HEAD~ = {'error':'Method'}
> Closed 1388534430
POST /shifts?after=0 HTTP/1.1~Host: d~~
405 Method Not Allowed, 18, Allow: GET, HEAD~ = {'error':'Method'}
> Closed 1388534430
POST /sales?after=0 HTTP/1.1~Host: d~~
405 Method Not Allowed, 18, Allow: GET, HEAD~ = {'error':'Method'}
> Closed 1388534430
GET /tariffs HTTP/1.1~Host: d~~
405 Method Not Allowed, 18, Allow: POST~ = {'error':'Method'}
> Closed 1388534430
GET /sales HTTP/1.1~Host: d~~
405 Method Not Allowed, 18, Allow: POST~ = {'error':'Method'}
> Closed 1388534430
GET /tariffs?after=a_b HTTP/1.1~Host: d~~
404 Not Found, 19 = {'error':'NoRoute'}
> Closed 1388534430
GET /meters?after=12345678904 HTTP/1.1~Host: d~~
404 Not Found, 19 = {'error':'NoRoute'}
> Closed 1388534430
GET /shifts?after= HTTP/1.1~Host: d~~
404 Not Found, 19 = {'error':'NoRoute'}
> Closed 1388534430
GET /shifts?after=01 HTTP/1.1~Host: d~~
404 Not Found, 19 = {'error':'NoRoute'}
> Closed 1388534430
GET /sales?after=1000000001 HTTP/1.1~Host: d~~
404 Not Found, 19 = {'error':'NoRoute'}
"
}

/// After `later` and `again`: a meter that was moved to a later base date, and dated steps.
pub(crate) fn looks_later() -> &'static str {
    "\
Each
> Closed 1388534430
GET /health HTTP/1.1~Host: d~~
200 OK, 67 = {'format':4,'last_moment':1732479359,'last_write':'done','sales':6}
> Closed 1732479359
GET /meters/10000000009 HTTP/1.1~Host: d~~
200 OK, 72 = {'base':2014,'meter':'10000000009','sale':6,'tariff':'flat','tenths':25}
> Closed 1732479359
GET /meters/10000000009/last HTTP/1.1~Host: d~~
200 OK, 120 = SALE 6|METER 10000000009|TIME 2024-11-24T20:15:59Z|KWH 0.5|PRICE 100|TENDER 100|CHANG\
    E 0|TOKEN 0045 6966 1034 7501 9191|
> Closed 1391212799
GET /meters/12345678903 HTTP/1.1~Host: d~~
200 OK, 72 = {'base':2014,'meter':'12345678903','sale':5,'tariff':'flat','tenths':10}
> Closed 1391212800
GET /meters/12345678903 HTTP/1.1~Host: d~~
200 OK, 72 = {'base':2014,'meter':'12345678903','sale':5,'tariff':'flat','tenths':10}
> Closed 1393632000
GET /meters/12345678903 HTTP/1.1~Host: d~~
200 OK, 71 = {'base':2014,'meter':'12345678903','sale':5,'tariff':'flat','tenths':0}
> Closed 1391212799
GET /meters/12345678903/quote?tender=100 HTTP/1.1~Host: d~~
200 OK, 87 = {'change':0,'meter':'12345678903','price':100,'tariff':'flat','tender':100,'tenths':10}
> Closed 1391212800
GET /meters/12345678903/quote?tender=119 HTTP/1.1~Host: d~~
200 OK, 87 = {'change':19,'meter':'12345678903','price':100,'tariff':'flat','tender':119,'tenths':5}
> Closed 1388534430
GET /operators/ann/sales/B-2 HTTP/1.1~Host: d~~
200 OK, 195 = {'base':2014,'change':0,'meter':'12345678903','moment':1391212800,'number':4,'operato\
    r':'ann','price':100,'ref':'B-2','shift':1,'tender':100,'tenths':5,'tid':44640,'token':'0028842\
    2103492162042'}
> Closed 1388534430
GET /shifts/1/totals HTTP/1.1~Host: d~~
200 OK, 44 = {'cash':600,'sales':6,'shift':1,'tenths':45}
> Closed 1388534430
GET /tariffs?after= HTTP/1.1~Host: d~~
200 OK, 136 = {'tariffs':[{'later':[{'from':'2014-02-01','steps':':200'},{'from':'2099-12-31','step\
    s':'1:1;:1000000'}],'name':'flat','steps':':100'}]}
> Closed 1391212799
GET /tariffs?after= HTTP/1.1~Host: d~~
200 OK, 136 = {'tariffs':[{'later':[{'from':'2014-02-01','steps':':200'},{'from':'2099-12-31','step\
    s':'1:1;:1000000'}],'name':'flat','steps':':100'}]}
> Closed 1391212800
GET /tariffs?after= HTTP/1.1~Host: d~~
200 OK, 99 = {'tariffs':[{'later':[{'from':'2099-12-31','steps':'1:1;:1000000'}],'name':'flat','ste\
    ps':':200'}]}
> Closed 4102358399
GET /tariffs?after= HTTP/1.1~Host: d~~
200 OK, 99 = {'tariffs':[{'later':[{'from':'2099-12-31','steps':'1:1;:1000000'}],'name':'flat','ste\
    ps':':200'}]}
> Closed 4102358400
GET /tariffs?after= HTTP/1.1~Host: d~~
200 OK, 63 = {'tariffs':[{'later':[],'name':'flat','steps':'1:1;:1000000'}]}
> Closed 1388534430
GET /meters?after= HTTP/1.1~Host: d~~
200 OK, 116 = {'meters':[{'base':2014,'meter':'10000000009','tariff':'flat'},{'base':2014,'meter':'\
    12345678903','tariff':'flat'}]}
> Closed 1388534430
GET /meters?after=10000000009 HTTP/1.1~Host: d~~
200 OK, 64 = {'meters':[{'base':2014,'meter':'12345678903','tariff':'flat'}]}
> Closed 1388534430
GET /shifts?after=0 HTTP/1.1~Host: d~~
200 OK, 109 = {'shifts':[{'cash':600,'closed':null,'number':1,'opened':1388534430,'operator':'ann',\
    'sales':6,'tenths':45}]}
> Closed 1388534430
GET /sales?after=5 HTTP/1.1~Host: d~~
200 OK, 209 = {'sales':[{'base':2014,'change':0,'meter':'10000000009','moment':1732479359,'number':\
    6,'operator':'ann','price':100,'ref':'A-3','shift':1,'tender':100,'tenths':5,'tid':5732416,'tok\
    en':'00456966103475019191'}]}
"
}
