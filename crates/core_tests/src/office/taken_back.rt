//! Mistakes that are taken back: steps before their day, and the key of a meter without a sale.

use office_lines::plain::answer;
use std::alloc::Global;
use std::test::Fail;
use sts_token::Plain;
use vend_core::Lists;

// On 2014-01-01, around the first second of 2014-01-03, on which something is sold, and then on the
// day before, to which the clock is set back. The replies are those of `tools/oracle`.
fn rows() -> &'static str {
    "\
1388534430 add-tariff flat :100 = done
1388534430 add-tariff other :500 = done
1388534430 add-steps flat 2014-01-03 :200 = done
1388534430 add-steps flat 2014-01-05 :300 = done
1388534430 add-steps other 2014-01-05 :600 = done
1388534430 withdraw-steps none 2014-01-03 = refused 5 NoTariff
1388534430 withdraw-steps flat 2014-01-02 = withdrawn 0
1388534430 withdraw-steps flat 2013-12-31 = withdrawn 0
1388534430 withdraw-steps flat 2014-01-05 = withdrawn 1
1388534430 withdraw-steps flat 2014-01-05 = withdrawn 0
1388534430 add-steps other 2014-01-05 :601 = refused 6 Differs
1388534430 add-steps flat 2014-01-03 :201 = refused 6 Differs
1388534430 add-steps flat 2014-01-05 :301 = done
1388707199 withdraw-steps flat 2014-01-05 = withdrawn 1
1388707200 withdraw-steps flat 2014-01-03 = refused 19 DayPast
1388707200 withdraw-steps flat 2014-01-05 = withdrawn 0
1388707200 add-meter 12345678903 1993 flat 0000000000000001 = done
1388707200 set-key 00000000000 0000000000000002 = refused 4 NoMeter
1388707200 set-key 12345678903 0000000000000002 = done
1388707200 set-key 12345678903 0000000000000002 = done
1388707200 add-meter 12345678903 1993 flat 0000000000000001 = refused 6 Differs
1388707200 add-meter 12345678903 1993 flat 0000000000000002 = done
1388707200 add-meter 10000000009 1993 flat 0000000000000001 = done
1388707200 open-shift ann = opened 1
1388707200 sell ann A-1 12345678903 1000 = sold 1 1388707200 1 ann A-1 12345678903 1993 11047680 1 50 1000 1000 00119507018337917143
1388707200 set-key 12345678903 0000000000000002 = done
1388707200 set-key 12345678903 0000000000000003 = refused 20 HasSales
1388707200 move-base 12345678903 2014 = done
1388707200 set-key 12345678903 0000000000000003 = refused 20 HasSales
1388707200 set-key 10000000009 0000000000000003 = done
1388620800 withdraw-steps flat 2014-01-03 = refused 19 DayPast
1388620800 add-steps other 2014-01-03 :700 = done
1388620800 withdraw-steps other 2014-01-03 = refused 19 DayPast
1388620800 add-steps flat 2014-01-04 :400 = done
1388620800 withdraw-steps flat 2014-01-04 = withdrawn 1
"
}

// The first of these requests that is answered otherwise, and how.
fn first_wrong(alloc: Global, lists: &mut Lists<Plain>, rows: &str) -> Result<String, Fail> {
    for row in rows.lines() {
        let (line, reply) = row.split_once(" = ").ok_or("no reply")?;
        let told = answer(alloc, lists, line)?;
        if told.as_str() != reply {
            return Ok(format!(in alloc; "{line}: {told}")?);
        }
    }
    Ok(String::new(alloc))
}

#[test]
fn taken_back_until_something_is_sold(rt: HostRuntime) -> Result<(), Fail> {
    let alloc = rt.alloc();
    let mut lists = Lists::new(alloc, Plain);
    let wrong = first_wrong(alloc, &mut lists, rows())?;
    assert_eq!(rt; wrong.as_str(), "");
    Ok(())
}
