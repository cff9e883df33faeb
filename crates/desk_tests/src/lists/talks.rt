//! Conversations by their bytes.

/// After `requests`: what it left of the first sale and of the first shift, each fault of the desk,
/// messages that are refused, and files that are no imports.
pub(crate) fn after_requests() -> &'static str {
    "\
Each
> Closed 1388534430
GET /sales/1 HTTP/1.1~Host: d~~GET /sales/1/receipt HTTP/1.1~Host: d~~GET /shifts/1 HTTP/1.1~\
    Host: d~~
200 OK, 189 = {'base':2014,'change':0,'meter':'12345678903','moment':1388534430,'number':1,\
    'operator':'ann','price':10,'ref':'A-1','shift':1,'tender':10,'tenths':1,'tid':2,\
    'token':'00072057602627981690'}
200 OK, 118 = SALE 1|METER 12345678903|TIME 2014-01-01T00:00:30Z|KWH 0.1|PRICE 10|TENDER 10|\
    CHANGE 0|TOKEN 0007 2057 6026 2798 1690|
200 OK, 407 = SHIFT 1 ann|OPENED 2014-01-01T00:00:30Z|CLOSED 2014-01-01T00:00:30Z|         1 1234\
    5678903        1        10        10         0|         2 10000000009       10       10\
    0       100         0|         3 12345678903       10       100       100         0|         \
    4 12345678903      495      5000      5000         0|         5 12345678903       10       10\
    0       100         0|SALES 5|TENTHS 526|CASH 5310|
> Closed 1388534430
GET /nowhere HTTP/1.1~Host: d~~
404 Not Found, 19 = {'error':'NoRoute'}
> Closed 1388534430
GET /sales/0 HTTP/1.1~Host: d~~
404 Not Found, 19 = {'error':'NoRoute'}
> Closed 1388534430
GET /sales HTTP/1.1~Host: d~~
405 Method Not Allowed, 18, Allow: POST~ = {'error':'Method'}
> Closed 1388534430
POST /sales/1 HTTP/1.1~Host: d~~
405 Method Not Allowed, 18, Allow: GET, HEAD~ = {'error':'Method'}
> Closed 1388534430
GET /meters/12345678903/base HTTP/1.1~Host: d~~
405 Method Not Allowed, 18, Allow: POST~ = {'error':'Method'}
> Closed 1388534430
GET /tariffs/flat/steps HTTP/1.1~Host: d~~
405 Method Not Allowed, 18, Allow: POST~ = {'error':'Method'}
> Closed 725846399
GET /sales/1 HTTP/1.1~Host: d~~
503 Service Unavailable, 17 = {'error':'Clock'}
> Closed 4102444800
POST /sales HTTP/1.1~Host: d~Content-Length: 2~~{}
503 Service Unavailable, 17 = {'error':'Clock'}
> Closed 1388534430
POST /sales HTTP/1.1~Host: d~Content-Length: 2~~{}
422 Unprocessable Entity, 16 = {'error':'Body'}
> Closed 1388534430
POST /imports/meters HTTP/1.1~Host: d~~
422 Unprocessable Entity, 59 = {'cause':'Header','error':'ImportRow','refusal':14,'row':0}
> Closed 1388534430
POST /imports/tariffs HTTP/1.1~Host: d~Content-Length: 15~~name,steps|day|
422 Unprocessable Entity, 60 = {'cause':'Columns','error':'ImportRow','refusal':14,'row':1}
> Closed 1388534430
POST /imports/tariffs HTTP/1.1~Host: d~Content-Length: 18~~name,steps|day,60|
422 Unprocessable Entity, 60 = {'cause':'Field 2','error':'ImportRow','refusal':14,'row':1}
> Closed 1388534430
GET /sales/6 HTTP/1.0~~GET /sales/1 HTTP/1.0~~
404 Not Found, 31, Connection: close~ = {'error':'NoSale','refusal':12}
> BadMessage 1388534430
GET /sales/1 HTTP/1.1~~
400 Bad Request, 16, Connection: close~ = {'error':'Host'}
> Closed 1388534430

"
}

/// Of a new office: clocks outside the calendar, methods, texts, and a clock of several answers.
/// Each whole message takes the next one.
pub(crate) fn with_clocks() -> &'static str {
    "\
Each
> Closed 725846399
GET /sales/1 HTTP/1.1~Host: d~~
503 Service Unavailable, 17 = {'error':'Clock'}
> Closed 4102444800
GET /sales/1 HTTP/1.1~Host: d~~
503 Service Unavailable, 17 = {'error':'Clock'}
> Closed 0
GET /sales HTTP/1.0~~GET
405 Method Not Allowed, 18, Allow: POST~Connection: close~ = {'error':'Method'}
> BadMessage 0
POST /sales HTTP/1.1~Host: d~Content-Length: 1048577~~
413 Payload Too Large, 16, Connection: close~ = {'error':'Body'}
> Closed 1388534430
POST /shifts HTTP/1.1~Host: d~Content-Length: 18~~{'operator':'ann'}GET /shifts/1 HTTP/1.0~~
200 OK, 11 = {'shift':1}
200 OK, 73, Connection: close~ = SHIFT 1 ann|OPENED 2014-01-01T00:00:30Z|CLOSED -|SALES 0|\
    TENTHS 0|CASH 0|
> Closed 1388534430
POST /tariffs HTTP/1.1~Host: d~Content-Length: 30~~{'name':'flat',\
    'steps':':100'}POST /meters HTTP/1.1~Host: d~Content-Length: 76~~{'base':2014,\
    'key':'0000000000000000','meter':'12345678903','tariff':'flat'}
200 OK, 13 = {'done':true}
200 OK, 13 = {'done':true}
> Closed 1388534430 1388534430 1391212799 1391212799 1391212800
POST /imports/tariffs HTTP/1.1~Host: d~Content-Length: 37~~name,steps,from|flat,:200,2014-02-01|\
    GET /nowhere HTTP/1.1~Host: d~~POST /sales HTTP/1.1~Host: d~Content-Length: 64~~\
    {'meter':'12345678903','operator':'ann','ref':'A-1','tender':10}GET /sales HTTP/1.1~Host: d~~\
    POST /sales HTTP/1.1~Host: d~Content-Length: 64~~{'meter':'12345678903','operator':'ann',\
    'ref':'A-2','tender':20}
200 OK, 11 = {'added':1}
404 Not Found, 19 = {'error':'NoRoute'}
200 OK, 193 = {'base':2014,'change':0,'meter':'12345678903','moment':1391212799,'number':1,\
    'operator':'ann','price':10,'ref':'A-1','shift':1,'tender':10,'tenths':1,'tid':44639,\
    'token':'00072249317083179979'}
405 Method Not Allowed, 18, Allow: POST~ = {'error':'Method'}
200 OK, 193 = {'base':2014,'change':0,'meter':'12345678903','moment':1391212800,'number':2,\
    'operator':'ann','price':20,'ref':'A-2','shift':1,'tender':20,'tenths':1,'tid':44640,\
    'token':'00144306915416069371'}
"
}
