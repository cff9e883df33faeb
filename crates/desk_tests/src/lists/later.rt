//! Later base dates and dated steps, and what takes a mistake back.

/// Of a new office.
pub(crate) fn later() -> &'static str {
    "\
Closed
> 1388534430 add-tariff flat :100
  done
POST /tariffs = {'name':'flat','steps':':100'}
200 OK, 13 = {'done':true}
> 1388534430 add-meter 10000000009 1993 flat 0000000000000000
  done
POST /meters = {'base':1993,'key':'0000000000000000','meter':'10000000009','tariff':'flat'}
200 OK, 13 = {'done':true}
> 1388534430 add-meter 12345678903 2014 flat 0000000000000000
  done
POST /meters = {'base':2014,'key':'0000000000000000','meter':'12345678903','tariff':'flat'}
200 OK, 13 = {'done':true}
> 1388534430 open-shift ann
  opened 1
POST /shifts = {'operator':'ann'}
200 OK, 11 = {'shift':1}
> 1388534430 move-base 00000000000 2014
  refused 4 NoMeter
POST /meters/00000000000/base = {'base':2014}
404 Not Found, 31 = {'error':'NoMeter','refusal':4}
> 1732479359 sell ann A-1 10000000009 100
  sold 1 1732479359 1 ann A-1 10000000009 1993 16777215 1 10 100 100 00144115183781602958
POST /sales = {'meter':'10000000009','operator':'ann','ref':'A-1','tender':100}
200 OK, 199 = {'base':1993,'change':0,'meter':'10000000009','moment':1732479359,'number':1,\
    'operator':'ann','price':100,'ref':'A-1','shift':1,'tender':100,'tenths':10,'tid':16777215,\
    'token':'00144115183781602958'}
> 1732479359 sell ann A-2 10000000009 100
  refused 8 IdentifiersSpent
POST /sales = {'meter':'10000000009','operator':'ann','ref':'A-2','tender':100}
409 Conflict, 40 = {'error':'IdentifiersSpent','refusal':8}
> 1732479359 move-base 10000000009 2014
  done
POST /meters/10000000009/base = {'base':2014}
200 OK, 13 = {'done':true}
> 1732479359 sell ann A-2 10000000009 100
  sold 2 1732479359 1 ann A-2 10000000009 2014 5732415 2 10 100 100 00168735723028645319
POST /sales = {'meter':'10000000009','operator':'ann','ref':'A-2','tender':100}
200 OK, 198 = {'base':2014,'change':0,'meter':'10000000009','moment':1732479359,'number':2,\
    'operator':'ann','price':100,'ref':'A-2','shift':1,'tender':100,'tenths':10,'tid':5732415,\
    'token':'00168735723028645319'}
> 1732479359 move-base 10000000009 2014
  done
POST /meters/10000000009/base = {'base':2014}
200 OK, 13 = {'done':true}
> 1732479359 move-base 10000000009 1993
  refused 18 NotLater
POST /meters/10000000009/base = {'base':1993}
409 Conflict, 33 = {'error':'NotLater','refusal':18}
> 1732479359 move-base 10000000009 2035
  refused 7 BeforeBase
POST /meters/10000000009/base = {'base':2035}
409 Conflict, 34 = {'error':'BeforeBase','refusal':7}
> 1732479359 reprint 1
  reprinted 1 1732479359 1 ann A-1 10000000009 1993 16777215 1 10 100 100 00144115183781602958
GET /sales/1
200 OK, 199 = {'base':1993,'change':0,'meter':'10000000009','moment':1732479359,'number':1,\
    'operator':'ann','price':100,'ref':'A-1','shift':1,'tender':100,'tenths':10,'tid':16777215,\
    'token':'00144115183781602958'}
> 1388534430 set-key 00000000000 0123456789abcdef
  refused 4 NoMeter
POST /meters/00000000000/key = {'key':'0123456789abcdef'}
404 Not Found, 31 = {'error':'NoMeter','refusal':4}
> 1388534430 set-key 12345678903 0123456789abcdef
  done
POST /meters/12345678903/key = {'key':'0123456789abcdef'}
200 OK, 13 = {'done':true}
> 1388534430 set-key 12345678903 0000000000000000
  done
POST /meters/12345678903/key = {'key':'0000000000000000'}
200 OK, 13 = {'done':true}
> 1388534430 set-key 10000000009 0000000000000000
  done
POST /meters/10000000009/key = {'key':'0000000000000000'}
200 OK, 13 = {'done':true}
> 1388534430 set-key 10000000009 0123456789abcdef
  refused 20 HasSales
POST /meters/10000000009/key = {'key':'0123456789abcdef'}
409 Conflict, 33 = {'error':'HasSales','refusal':20}
> 1388534430 withdraw-steps none 2014-02-01
  refused 5 NoTariff
DELETE /tariffs/none/steps/2014-02-01
404 Not Found, 32 = {'error':'NoTariff','refusal':5}
> 1388534430 withdraw-steps flat 2014-02-01
  withdrawn 0
DELETE /tariffs/flat/steps/2014-02-01
200 OK, 15 = {'withdrawn':0}
> 1388534430 add-steps none 2014-02-01 :200
  refused 5 NoTariff
POST /tariffs/none/steps = {'from':'2014-02-01','steps':':200'}
404 Not Found, 32 = {'error':'NoTariff','refusal':5}
> 1388534430 add-steps flat 2014-01-01 :200
  refused 19 DayPast
POST /tariffs/flat/steps = {'from':'2014-01-01','steps':':200'}
409 Conflict, 32 = {'error':'DayPast','refusal':19}
> 1388534430 add-steps flat 2014-02-01 :200
  done
POST /tariffs/flat/steps = {'from':'2014-02-01','steps':':200'}
200 OK, 13 = {'done':true}
> 1388534430 withdraw-steps flat 2014-02-01
  refused 19 DayPast
DELETE /tariffs/flat/steps/2014-02-01
409 Conflict, 32 = {'error':'DayPast','refusal':19}
> 1391212799 sell ann B-1 12345678903 100
  sold 3 1391212799 1 ann B-1 12345678903 2014 44639 3 10 100 100 00216364505159618187
POST /sales = {'meter':'12345678903','operator':'ann','ref':'B-1','tender':100}
200 OK, 196 = {'base':2014,'change':0,'meter':'12345678903','moment':1391212799,'number':3,\
    'operator':'ann','price':100,'ref':'B-1','shift':1,'tender':100,'tenths':10,'tid':44639,\
    'token':'00216364505159618187'}
> 1391212800 sell ann B-2 12345678903 100
  sold 4 1391212800 1 ann B-2 12345678903 2014 44640 4 5 100 100 00288422103492162042
POST /sales = {'meter':'12345678903','operator':'ann','ref':'B-2','tender':100}
200 OK, 195 = {'base':2014,'change':0,'meter':'12345678903','moment':1391212800,'number':4,\
    'operator':'ann','price':100,'ref':'B-2','shift':1,'tender':100,'tenths':5,'tid':44640,\
    'token':'00288422103492162042'}
> 1391212800 add-steps flat 2014-02-01 :200
  done
POST /tariffs/flat/steps = {'from':'2014-02-01','steps':':200'}
200 OK, 13 = {'done':true}
> 1391212800 add-steps flat 2014-02-01 :300
  refused 6 Differs
POST /tariffs/flat/steps = {'from':'2014-02-01','steps':':300'}
409 Conflict, 31 = {'error':'Differs','refusal':6}
> 1391212800 add-steps flat 2014-01-31 :300
  refused 19 DayPast
POST /tariffs/flat/steps = {'from':'2014-01-31','steps':':300'}
409 Conflict, 32 = {'error':'DayPast','refusal':19}
> 1391212800 add-steps flat 2099-12-31 1:1;:1000000
  done
POST /tariffs/flat/steps = {'from':'2099-12-31','steps':'1:1;:1000000'}
200 OK, 13 = {'done':true}
> 1391212800 withdraw-steps flat 2099-12-31
  withdrawn 1
DELETE /tariffs/flat/steps/2099-12-31
200 OK, 15 = {'withdrawn':1}
> 1391212800 withdraw-steps flat 2099-12-31
  withdrawn 0
DELETE /tariffs/flat/steps/2099-12-31
200 OK, 15 = {'withdrawn':0}
> 1391212800 add-steps flat 2099-12-31 1:1;:1000000
  done
POST /tariffs/flat/steps = {'from':'2099-12-31','steps':'1:1;:1000000'}
200 OK, 13 = {'done':true}
> 1391212800 add-tariff flat :100
  done
POST /tariffs = {'name':'flat','steps':':100'}
200 OK, 13 = {'done':true}
> 1391212800 add-meter 10000000009 1993 flat 0000000000000000
  refused 6 Differs
POST /meters = {'base':1993,'key':'0000000000000000','meter':'10000000009','tariff':'flat'}
409 Conflict, 31 = {'error':'Differs','refusal':6}
> 1391212800 add-meter 10000000009 2014 flat 0000000000000000
  done
POST /meters = {'base':2014,'key':'0000000000000000','meter':'10000000009','tariff':'flat'}
200 OK, 13 = {'done':true}
"
}

/// What is asked after it, of an office that was opened again or not. The minute after the last
/// identifier is reserved.
pub(crate) fn again() -> &'static str {
    "\
Closed
> 1391212800 add-steps flat 2014-02-01 :200
  done
POST /tariffs/flat/steps = {'from':'2014-02-01','steps':':200'}
200 OK, 13 = {'done':true}
> 1391212800 add-steps flat 2014-02-01 :300
  refused 6 Differs
POST /tariffs/flat/steps = {'from':'2014-02-01','steps':':300'}
409 Conflict, 31 = {'error':'Differs','refusal':6}
> 1391212800 move-base 10000000009 2014
  done
POST /meters/10000000009/base = {'base':2014}
200 OK, 13 = {'done':true}
> 1391212800 move-base 10000000009 1993
  refused 18 NotLater
POST /meters/10000000009/base = {'base':1993}
409 Conflict, 33 = {'error':'NotLater','refusal':18}
> 1391212800 sell ann B-3 12345678903 100
  sold 5 1391212800 1 ann B-3 12345678903 2014 44642 5 5 100 100 00360479706120020058
POST /sales = {'meter':'12345678903','operator':'ann','ref':'B-3','tender':100}
200 OK, 195 = {'base':2014,'change':0,'meter':'12345678903','moment':1391212800,'number':5,\
    'operator':'ann','price':100,'ref':'B-3','shift':1,'tender':100,'tenths':5,'tid':44642,\
    'token':'00360479706120020058'}
> 1732479359 sell ann A-3 10000000009 100
  sold 6 1732479359 1 ann A-3 10000000009 2014 5732416 6 5 100 100 00456966103475019191
POST /sales = {'meter':'10000000009','operator':'ann','ref':'A-3','tender':100}
200 OK, 197 = {'base':2014,'change':0,'meter':'10000000009','moment':1732479359,'number':6,\
    'operator':'ann','price':100,'ref':'A-3','shift':1,'tender':100,'tenths':5,'tid':5732416,\
    'token':'00456966103475019191'}
> 1732479359 reprint 1
  reprinted 1 1732479359 1 ann A-1 10000000009 1993 16777215 1 10 100 100 00144115183781602958
GET /sales/1/receipt
200 OK, 120 = SALE 1|METER 10000000009|TIME 2024-11-24T20:15:59Z|KWH 1.0|PRICE 100|TENDER 100|\
    CHANGE 0|TOKEN 0014 4115 1837 8160 2958|
"
}
