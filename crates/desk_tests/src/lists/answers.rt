//! Each route and each status once, with no request beside them.

/// Of a new office; the last message ends the conversation.
pub(crate) fn answers() -> &'static str {
    "\
BadMessage
> 1388534430
POST /tariffs = {'name':'flat','steps':':100'}
200 OK, 13 = {'done':true}
> 1388534430
POST /meters = {'base':2014,'key':'0000000000000000','meter':'12345678903','tariff':'flat'}
200 OK, 13 = {'done':true}
> 1388534430
POST /shifts = {'operator':'ann'}
200 OK, 11 = {'shift':1}
> 1388534430
POST /shifts = {'operator':'ann'}
409 Conflict, 33 = {'error':'ShiftOpen','refusal':3}
> 1388534430
POST /sales = {'meter':'12345678903','operator':'ann','ref':'A-1','tender':10}
200 OK, 189 = {'base':2014,'change':0,'meter':'12345678903','moment':1388534430,'number':1,\
    'operator':'ann','price':10,'ref':'A-1','shift':1,'tender':10,'tenths':1,'tid':2,\
    'token':'00072057602627981690'}
> 1388534430
POST /sales = {'meter':'12345678903','operator':'ann','ref':'A-1','tender':10}
200 OK, 189 = {'base':2014,'change':0,'meter':'12345678903','moment':1388534430,'number':1,\
    'operator':'ann','price':10,'ref':'A-1','shift':1,'tender':10,'tenths':1,'tid':2,\
    'token':'00072057602627981690'}
> 1388534430
GET /sales/1
200 OK, 189 = {'base':2014,'change':0,'meter':'12345678903','moment':1388534430,'number':1,\
    'operator':'ann','price':10,'ref':'A-1','shift':1,'tender':10,'tenths':1,'tid':2,\
    'token':'00072057602627981690'}
> 1388534430
GET /sales/2
404 Not Found, 31 = {'error':'NoSale','refusal':12}
> 1388534430
POST /meters/12345678903/tariff = {'tariff':'flat'}
200 OK, 13 = {'done':true}
> 1388534430
POST /meters/12345678903/base = {'base':2014}
200 OK, 13 = {'done':true}
> 1388534430
POST /meters/12345678903/base = {'base':1993}
409 Conflict, 33 = {'error':'NotLater','refusal':18}
> 1388534430
POST /meters/12345678903/base = {'base':2035}
409 Conflict, 34 = {'error':'BeforeBase','refusal':7}
> 1388534430
POST /meters/12345678903/base = {'base':2015}
422 Unprocessable Entity, 16 = {'error':'Body'}
> 1388534430
POST /meters = {'base':1993,'key':'0000000000000000','meter':'79927398713','tariff':'flat'}
200 OK, 13 = {'done':true}
> 1388534430
POST /meters/79927398713/base = {'base':2014}
200 OK, 13 = {'done':true}
> 1388534430
POST /meters = {'base':1993,'key':'0000000000000000','meter':'79927398713','tariff':'flat'}
409 Conflict, 31 = {'error':'Differs','refusal':6}
> 1388534430
POST /meters/00000000000/base = {'base':2014}
404 Not Found, 31 = {'error':'NoMeter','refusal':4}
> 1388534430
POST /meters/12345678904/base = {'base':2014}
404 Not Found, 19 = {'error':'NoRoute'}
> 1388534430
POST /tariffs/flat/steps = {'from':'2014-01-02','steps':':200'}
200 OK, 13 = {'done':true}
> 1388534430
POST /tariffs/flat/steps = {'from':'2014-01-02','steps':':200'}
200 OK, 13 = {'done':true}
> 1388534430
POST /tariffs/flat/steps = {'from':'2014-01-02','steps':':300'}
409 Conflict, 31 = {'error':'Differs','refusal':6}
> 1388534430
POST /tariffs/flat/steps = {'from':'2013-12-31','steps':':300'}
409 Conflict, 32 = {'error':'DayPast','refusal':19}
> 1388534430
POST /tariffs/flat/steps = {'from':'2014-01-01','steps':':200'}
409 Conflict, 32 = {'error':'DayPast','refusal':19}
> 1388534430
POST /tariffs/none/steps = {'from':'2014-01-02','steps':':200'}
404 Not Found, 32 = {'error':'NoTariff','refusal':5}
> 1388534430
POST /tariffs/flat/steps = {'from':'2014-02-30','steps':':200'}
422 Unprocessable Entity, 16 = {'error':'Body'}
> 1388534430
POST /tariffs/flat_1/steps = {'from':'2014-01-02','steps':':200'}
404 Not Found, 19 = {'error':'NoRoute'}
> 1388534430
POST /shifts/close = {'operator':'ann'}
200 OK, 11 = {'shift':1}
> 1388534430
POST /imports/tariffs = name,steps|night,:50|
200 OK, 11 = {'added':1}
> 1388534430
POST /imports/meters = meter,base,tariff,key|10000000009,2014,flat,0000000000000000|
200 OK, 11 = {'added':1}
> 1388534430
POST /imports/meters = meter,base,tariff,key|12345678904,2014,flat,0000000000000000|
422 Unprocessable Entity, 60 = {'cause':'Field 1','error':'ImportRow','refusal':14,'row':1}
> 1388534430
POST /sales = {}
422 Unprocessable Entity, 16 = {'error':'Body'}
> 1388534430
GET /sales/01
404 Not Found, 19 = {'error':'NoRoute'}
> 1388534430
GET /sales/1/token
404 Not Found, 19 = {'error':'NoRoute'}
> 1388534430
GET /shifts/2
404 Not Found, 36 = {'error':'NoSuchShift','refusal':13}
> 1388534430
POST /shifts = {'operator':'a b'}
422 Unprocessable Entity, 16 = {'error':'Body'}
> 1388534430
PUT /shifts
501 Not Implemented, 18, Connection: close~ = {'error':'Method'}
"
}
