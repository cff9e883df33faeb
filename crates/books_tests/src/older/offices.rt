//! Files of older formats, each with the office that it stands for.

use crate::older::tables::{FIRST_TABLES, SECOND_TABLES, THIRD_TABLES};

/// A file of an older format.
#[derive(Clone, Copy)]
pub(crate) struct Older {
    /// The statements that make the file.
    pub(crate) parts: &'static [&'static str],
    /// The requests that make its office of an empty one.
    pub(crate) asked: &'static str,
    /// The export of its sales.
    pub(crate) export: &'static str,
    /// What the rows of its tables are once it was opened.
    pub(crate) opened: &'static str,
    /// Requests that come then, with their replies.
    pub(crate) later: &'static str,
}

const SHOP_ROWS: &str = "INSERT INTO about VALUES (1, 1); INSERT INTO tariffs VALUES ('flat'); \
    INSERT INTO tariff_steps VALUES ('flat', 0, NULL, 100); \
    INSERT INTO meters VALUES ('12345678903', 2014, 'flat', '0000000000000000'), \
    ('10000000009', 2014, 'flat', '0000000000000000'); \
    INSERT INTO shifts VALUES (1, 'ann', 1388534430, NULL); \
    INSERT INTO sales VALUES (1, 1388534430, 252, 1, 'ann', 'A-1', '12345678903', 2014, 2, 1, 1, \
    10, 10, '00072057602627981690')";

const SHOP_TOTALS: &str = "UPDATE about SET format = 2; \
    INSERT INTO last_ids VALUES ('12345678903', 2014, 2); \
    INSERT INTO month_tenths VALUES ('12345678903', 252, 1); \
    INSERT INTO shift_totals VALUES (1, 1, 1, 10)";

const SHOP_ASKED: &str = "1388534430 add-tariff flat :100
1388534430 import m,12345678903,2014,flat,0000000000000000 m,10000000009,2014,flat,0000000000000000
1388534430 open-shift ann
1388534430 sell ann A-1 12345678903 10";

const SHOP_EXPORT: &str = "\
number,moment,shift,operator,ref,meter,base,tid,tenths,price,tender,change,token
1,1388534430,1,ann,A-1,12345678903,2014,2,1,10,10,0,00072057602627981690
";

const SHOP_OPENED: &str = "\
about 1 4
tariff flat
step flat 0 - 100
meter 10000000009 2014 flat 0000000000000000
meter 12345678903 2014 flat 0000000000000000
shift 1 ann 1388534430 -
sale 1 1388534430 252 1 ann A-1 12345678903 2014 2 1 1 10 10 00072057602627981690
last 12345678903 2014 2
month 12345678903 252 1
totals 1 1 1 10
base 10000000009 2014
base 12345678903 2014
";

const SHOP_LATER: &str = "
> 1388534430 sell ann A-1 12345678903 10
  sold 1 1388534430 1 ann A-1 12345678903 2014 2 1 1 10 10 00072057602627981690
> 1388534430 sell ann A-2 12345678903 10
  sold 2 1388534430 1 ann A-2 12345678903 2014 3 2 1 10 10 00144115200960832043
> 1388534430 sell ann A-1 12345678903 20
  refused 1 RefReused
> 1388534430 import m,12345678903,2014,flat,0000000000000000 m,10000000009,2014,flat,0000000000000000
  imported 0
> 1388534430 add-tariff flat :100
  done
> 1388534430 move-base 10000000009 1993
  refused 18 NotLater
> 1388534430 add-steps flat 2014-02-01 :200
  done
> 1388534430 withdraw-steps flat 2014-02-01
  withdrawn 1
> 1388534430 set-key 10000000009 0123456789abcdef
  done
> 1388534430 set-key 12345678903 0123456789abcdef
  refused 20 HasSales
> 1388534430 report 1
  report 1 ann 1388534430 - 2 2 20 1,2
";

// The meter was moved when its identifiers from 1993 on were spent.
const MOVED_ROWS: &str = "INSERT INTO about VALUES (1, 3); INSERT INTO tariffs VALUES ('flat'); \
    INSERT INTO tariff_steps VALUES ('flat', 0, NULL, 100); \
    INSERT INTO meters VALUES ('12345678903', 2014, 'flat', '0000000000000000'); \
    INSERT INTO meter_bases VALUES ('12345678903', 1993), ('12345678903', 2014); \
    INSERT INTO shifts VALUES (1, 'ann', 1388534430, NULL); \
    INSERT INTO sales VALUES (1, 1732479359, 382, 1, 'ann', 'A-1', '12345678903', 1993, 16777215, \
    1, 10, 100, 100, '00144115183781602958'), (2, 1732479359, 382, 1, 'ann', 'A-2', '12345678903', \
    2014, 5732415, 2, 10, 100, 100, '00168735723028645319'); \
    INSERT INTO last_ids VALUES ('12345678903', 1993, 16777215), ('12345678903', 2014, 5732415); \
    INSERT INTO month_tenths VALUES ('12345678903', 382, 20); \
    INSERT INTO shift_totals VALUES (1, 2, 20, 200)";

const MOVED_ASKED: &str = "1388534430 add-tariff flat :100
1388534430 add-meter 12345678903 1993 flat 0000000000000000
1388534430 open-shift ann
1732479359 sell ann A-1 12345678903 100
1732479359 move-base 12345678903 2014
1732479359 sell ann A-2 12345678903 100";

const MOVED_EXPORT: &str = "\
number,moment,shift,operator,ref,meter,base,tid,tenths,price,tender,change,token
1,1732479359,1,ann,A-1,12345678903,1993,16777215,10,100,100,0,00144115183781602958
2,1732479359,1,ann,A-2,12345678903,2014,5732415,10,100,100,0,00168735723028645319
";

const MOVED_OPENED: &str = "\
about 1 4
tariff flat
step flat 0 - 100
meter 12345678903 2014 flat 0000000000000000
shift 1 ann 1388534430 -
sale 1 1732479359 382 1 ann A-1 12345678903 1993 16777215 1 10 100 100 00144115183781602958
sale 2 1732479359 382 1 ann A-2 12345678903 2014 5732415 2 10 100 100 00168735723028645319
last 12345678903 1993 16777215
last 12345678903 2014 5732415
month 12345678903 382 20
totals 1 2 20 200
base 12345678903 1993
base 12345678903 2014
";

const MOVED_LATER: &str = "
> 1732479359 sell ann A-1 12345678903 100
  sold 1 1732479359 1 ann A-1 12345678903 1993 16777215 1 10 100 100 00144115183781602958
> 1732479359 sell ann A-2 12345678903 100
  sold 2 1732479359 1 ann A-2 12345678903 2014 5732415 2 10 100 100 00168735723028645319
> 1732479359 sell ann A-3 12345678903 100
  sold 3 1732479359 1 ann A-3 12345678903 2014 5732416 3 10 100 100 00240793321361542391
> 1732479359 move-base 12345678903 2014
  done
> 1732479359 move-base 12345678903 1993
  refused 18 NotLater
> 1732479359 move-base 12345678903 2035
  refused 7 BeforeBase
> 1732479359 add-steps flat 2024-11-25 :200
  done
> 1732479359 withdraw-steps flat 2024-11-25
  withdrawn 1
> 1732479359 set-key 12345678903 0123456789abcdef
  refused 20 HasSales
> 1732479359 reprint 1
  reprinted 1 1732479359 1 ann A-1 12345678903 1993 16777215 1 10 100 100 00144115183781602958
> 1732479359 report 1
  report 1 ann 1388534430 - 3 30 300 1,2,3
";

const SHOP: Older = Older {
    parts: &[FIRST_TABLES, SHOP_ROWS],
    asked: SHOP_ASKED,
    export: SHOP_EXPORT,
    opened: SHOP_OPENED,
    later: SHOP_LATER,
};

static OFFICES: [Older; 3] = [
    SHOP,
    Older {
        parts: &[FIRST_TABLES, SECOND_TABLES, SHOP_ROWS, SHOP_TOTALS],
        ..SHOP
    },
    Older {
        parts: &[FIRST_TABLES, SECOND_TABLES, THIRD_TABLES, MOVED_ROWS],
        asked: MOVED_ASKED,
        export: MOVED_EXPORT,
        opened: MOVED_OPENED,
        later: MOVED_LATER,
    },
];

/// One of each of the formats 1, 2 and 3.
///
/// It has no clause, so that no proof reads them.
pub(crate) fn older_offices() -> &'static [Older] {
    &OFFICES
}
