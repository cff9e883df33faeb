//! Each kind of request, and each refusal that an office of a few sales can give.

/// Of a new office. Only `OfficeFull` is left out, which takes a thousand million sales.
pub(crate) fn requests() -> &'static str {
    "\
Closed
> 1388534430 add-tariff flat :100
  done
POST /tariffs = {'name':'flat','steps':':100'}
200 OK, 13 = {'done':true}
> 1388534430 add-tariff flat :100
  done
POST /tariffs = {'name':'flat','steps':':100'}
200 OK, 13 = {'done':true}
> 1388534430 add-tariff flat :101
  refused 6 Differs
POST /tariffs = {'name':'flat','steps':':101'}
409 Conflict, 31 = {'error':'Differs','refusal':6}
> 1388534430 add-tariff block 500:100;:200
  done
POST /tariffs = {'name':'block','steps':'500:100;:200'}
200 OK, 13 = {'done':true}
> 1388534430 add-meter 12345678903 2014 flat 0000000000000000
  done
POST /meters = {'base':2014,'key':'0000000000000000','meter':'12345678903','tariff':'flat'}
200 OK, 13 = {'done':true}
> 1388534430 add-meter 12345678903 1993 flat 0000000000000000
  refused 6 Differs
POST /meters = {'base':1993,'key':'0000000000000000','meter':'12345678903','tariff':'flat'}
409 Conflict, 31 = {'error':'Differs','refusal':6}
> 1388534430 add-meter 12345678911 2014 none 0000000000000000
  refused 5 NoTariff
POST /meters = {'base':2014,'key':'0000000000000000','meter':'12345678911','tariff':'none'}
404 Not Found, 32 = {'error':'NoTariff','refusal':5}
> 1388534430 import t,night,:50 t,flat,:100
  imported 1
POST /imports/tariffs = name,steps|night,:50|flat,:100|
200 OK, 11 = {'added':1}
> 1388534430 import t,night,:50 t,flat,:100
  imported 0
POST /imports/tariffs = name,steps|night,:50|flat,:100|
200 OK, 11 = {'added':0}
> 1388534430 import t,day,:60 t,night,:51
  refused 14 ImportRow 2 Differs
POST /imports/tariffs = name,steps|day,:60|night,:51|
422 Unprocessable Entity, 60 = {'cause':'Differs','error':'ImportRow','refusal':14,'row':2}
> 1388534430 import m,10000000009,1993,flat,0000000000000000 m,79927398713,2035,night,\
    0000000000000000
  imported 2
POST /imports/meters = meter,base,tariff,key|10000000009,1993,flat,0000000000000000|79927398713,\
    2035,night,0000000000000000|
200 OK, 11 = {'added':2}
> 1388534430 import m,10000000009,1993,flat,0000000000000000 m,79927398713,2035,night,\
    0000000000000000
  imported 0
POST /imports/meters = meter,base,tariff,key|10000000009,1993,flat,0000000000000000|79927398713,\
    2035,night,0000000000000000|
200 OK, 11 = {'added':0}
> 1388534430 import m,12345678911,2014,day,0000000000000000 m,12345678903,2014,flat,\
    0000000000000000
  refused 14 ImportRow 1 NoTariff
POST /imports/meters = meter,base,tariff,key|12345678911,2014,day,0000000000000000|12345678903,\
    2014,flat,0000000000000000|
422 Unprocessable Entity, 61 = {'cause':'NoTariff','error':'ImportRow','refusal':14,'row':1}
> 1388534430 set-tariff 12345678903 block
  done
POST /meters/12345678903/tariff = {'tariff':'block'}
200 OK, 13 = {'done':true}
> 1388534430 set-tariff 00000000000 block
  refused 4 NoMeter
POST /meters/00000000000/tariff = {'tariff':'block'}
404 Not Found, 31 = {'error':'NoMeter','refusal':4}
> 1388534430 set-tariff 12345678903 none
  refused 5 NoTariff
POST /meters/12345678903/tariff = {'tariff':'none'}
404 Not Found, 32 = {'error':'NoTariff','refusal':5}
> 1388534430 close-shift ann
  refused 2 NoShift
POST /shifts/close = {'operator':'ann'}
409 Conflict, 31 = {'error':'NoShift','refusal':2}
> 1388534430 sell ann A-1 12345678903 10
  refused 2 NoShift
POST /sales = {'meter':'12345678903','operator':'ann','ref':'A-1','tender':10}
409 Conflict, 31 = {'error':'NoShift','refusal':2}
> 1388534430 open-shift ann
  opened 1
POST /shifts = {'operator':'ann'}
200 OK, 11 = {'shift':1}
> 1388534430 open-shift ann
  refused 3 ShiftOpen
POST /shifts = {'operator':'ann'}
409 Conflict, 33 = {'error':'ShiftOpen','refusal':3}
> 1388534430 reprint 1
  refused 12 NoSale
GET /sales/1
404 Not Found, 31 = {'error':'NoSale','refusal':12}
> 1388534430 sell ann A-1 12345678903 10
  sold 1 1388534430 1 ann A-1 12345678903 2014 2 1 1 10 10 00072057602627981690
POST /sales = {'meter':'12345678903','operator':'ann','ref':'A-1','tender':10}
200 OK, 189 = {'base':2014,'change':0,'meter':'12345678903','moment':1388534430,'number':1,\
    'operator':'ann','price':10,'ref':'A-1','shift':1,'tender':10,'tenths':1,'tid':2,\
    'token':'00072057602627981690'}
> 1388534430 sell ann A-1 12345678903 10
  sold 1 1388534430 1 ann A-1 12345678903 2014 2 1 1 10 10 00072057602627981690
POST /sales = {'meter':'12345678903','operator':'ann','ref':'A-1','tender':10}
200 OK, 189 = {'base':2014,'change':0,'meter':'12345678903','moment':1388534430,'number':1,\
    'operator':'ann','price':10,'ref':'A-1','shift':1,'tender':10,'tenths':1,'tid':2,\
    'token':'00072057602627981690'}
> 1388534430 sell ann A-1 12345678903 11
  refused 1 RefReused
POST /sales = {'meter':'12345678903','operator':'ann','ref':'A-1','tender':11}
409 Conflict, 33 = {'error':'RefReused','refusal':1}
> 1388534430 sell ann A-1 10000000009 10
  refused 1 RefReused
POST /sales = {'meter':'10000000009','operator':'ann','ref':'A-1','tender':10}
409 Conflict, 33 = {'error':'RefReused','refusal':1}
> 1388534430 sell ann A-2 00000000000 10
  refused 4 NoMeter
POST /sales = {'meter':'00000000000','operator':'ann','ref':'A-2','tender':10}
404 Not Found, 31 = {'error':'NoMeter','refusal':4}
> 1388534430 sell ann A-2 12345678903 9
  refused 10 TooLittle
POST /sales = {'meter':'12345678903','operator':'ann','ref':'A-2','tender':9}
422 Unprocessable Entity, 34 = {'error':'TooLittle','refusal':10}
> 1732479359 sell ann A-2 10000000009 100
  sold 2 1732479359 1 ann A-2 10000000009 1993 16777215 2 10 100 100 00216172777819526542
POST /sales = {'meter':'10000000009','operator':'ann','ref':'A-2','tender':100}
200 OK, 199 = {'base':1993,'change':0,'meter':'10000000009','moment':1732479359,'number':2,\
    'operator':'ann','price':100,'ref':'A-2','shift':1,'tender':100,'tenths':10,'tid':16777215,\
    'token':'00216172777819526542'}
> 1732479359 sell ann A-3 10000000009 100
  refused 8 IdentifiersSpent
POST /sales = {'meter':'10000000009','operator':'ann','ref':'A-3','tender':100}
409 Conflict, 40 = {'error':'IdentifiersSpent','refusal':8}
> 1732479359 sell ann A-3 79927398713 100
  refused 7 BeforeBase
POST /sales = {'meter':'79927398713','operator':'ann','ref':'A-3','tender':100}
409 Conflict, 34 = {'error':'BeforeBase','refusal':7}
> 1591012800 sell ann A-3 12345678903 100
  sold 3 1591012800 1 ann A-3 12345678903 2014 3374640 3 10 100 100 00230666750550218631
POST /sales = {'meter':'12345678903','operator':'ann','ref':'A-3','tender':100}
200 OK, 198 = {'base':2014,'change':0,'meter':'12345678903','moment':1591012800,'number':3,\
    'operator':'ann','price':100,'ref':'A-3','shift':1,'tender':100,'tenths':10,'tid':3374640,\
    'token':'00230666750550218631'}
> 1591009200 sell ann A-4 12345678903 5000
  sold 4 1591009200 1 ann A-4 12345678903 2014 3374641 4 495 5000 5000 00302724348914924311
POST /sales = {'meter':'12345678903','operator':'ann','ref':'A-4','tender':5000}
200 OK, 201 = {'base':2014,'change':0,'meter':'12345678903','moment':1591009200,'number':4,\
    'operator':'ann','price':5000,'ref':'A-4','shift':1,'tender':5000,'tenths':495,'tid':3374641,\
    'token':'00302724348914924311'}
> 1590926460 sell ann A-5 12345678903 100
  refused 9 IdentifierAhead
POST /sales = {'meter':'12345678903','operator':'ann','ref':'A-5','tender':100}
409 Conflict, 39 = {'error':'IdentifierAhead','refusal':9}
> 1590926520 sell ann A-5 12345678903 100
  sold 5 1590926520 1 ann A-5 12345678903 2014 3374642 5 10 100 100 00374781947216048422
POST /sales = {'meter':'12345678903','operator':'ann','ref':'A-5','tender':100}
200 OK, 198 = {'base':2014,'change':0,'meter':'12345678903','moment':1590926520,'number':5,\
    'operator':'ann','price':100,'ref':'A-5','shift':1,'tender':100,'tenths':10,'tid':3374642,\
    'token':'00374781947216048422'}
> 1388534430 reprint 2
  reprinted 2 1732479359 1 ann A-2 10000000009 1993 16777215 2 10 100 100 00216172777819526542
GET /sales/2
200 OK, 199 = {'base':1993,'change':0,'meter':'10000000009','moment':1732479359,'number':2,\
    'operator':'ann','price':100,'ref':'A-2','shift':1,'tender':100,'tenths':10,'tid':16777215,\
    'token':'00216172777819526542'}
> 1388534430 reprint 1
  reprinted 1 1388534430 1 ann A-1 12345678903 2014 2 1 1 10 10 00072057602627981690
GET /sales/1/receipt
200 OK, 118 = SALE 1|METER 12345678903|TIME 2014-01-01T00:00:30Z|KWH 0.1|PRICE 10|TENDER 10|\
    CHANGE 0|TOKEN 0007 2057 6026 2798 1690|
> 1388534430 reprint 6
  refused 12 NoSale
GET /sales/6
404 Not Found, 31 = {'error':'NoSale','refusal':12}
> 1388534430 reprint 6
  refused 12 NoSale
GET /sales/6/receipt
404 Not Found, 31 = {'error':'NoSale','refusal':12}
> 1388534430 report 2
  refused 13 NoSuchShift
GET /shifts/2
404 Not Found, 36 = {'error':'NoSuchShift','refusal':13}
> 1388534430 report 1
  report 1 ann 1388534430 - 5 526 5310 1,2,3,4,5
GET /shifts/1
200 OK, 388 = SHIFT 1 ann|OPENED 2014-01-01T00:00:30Z|\
    CLOSED -|         1 12345678903        1        10        10         0|         2 1000000000\
    9       10       100       100         0|         3 12345678903       10       100       10\
    0         0|         4 12345678903      495      5000      5000         0|         5 12345678\
    903       10       100       100         0|SALES 5|TENTHS 526|CASH 5310|
> 1388534430 close-shift ann
  closed 1
POST /shifts/close = {'operator':'ann'}
200 OK, 11 = {'shift':1}
> 1388534430 report 1
  report 1 ann 1388534430 1388534430 5 526 5310 1,2,3,4,5
GET /shifts/1
200 OK, 407 = SHIFT 1 ann|OPENED 2014-01-01T00:00:30Z|CLOSED 2014-01-01T00:00:30Z|         1 1234\
    5678903        1        10        10         0|         2 10000000009       10       10\
    0       100         0|         3 12345678903       10       100       100         0|         \
    4 12345678903      495      5000      5000         0|         5 12345678903       10       10\
    0       100         0|SALES 5|TENTHS 526|CASH 5310|
> 1388534430 open-shift bob
  opened 2
POST /shifts = {'operator':'bob'}
200 OK, 11 = {'shift':2}
> 1388534430 report 2
  report 2 bob 1388534430 - 0 0 0 -
GET /shifts/2
200 OK, 73 = SHIFT 2 bob|OPENED 2014-01-01T00:00:30Z|CLOSED -|SALES 0|TENTHS 0|CASH 0|
> 1388534430 close-shift bob
  closed 2
POST /shifts/close = {'operator':'bob'}
200 OK, 11 = {'shift':2}
"
}
