//! A long report.

use office_lines::plain::{answer, ask_all};
use office_lines::values::FIRST_DAY;
use std::test::Fail;
use sts_token::Plain;
use vend_core::Lists;

const OFFICE: &str = "\
1388534430 add-tariff flat :100
1388534430 add-meter 12345678903 2014 flat 0000000000000000
1388534430 add-meter 10000000009 2014 flat 0000000000000000
1388534430 open-shift ann
1388534430 open-shift bob";

// Two shifts that sell in turn: the report on the first has its own sales and no others.
#[test]
fn a_long_report(rt: HostRuntime) -> Result<(), Fail> {
    let alloc = rt.alloc();
    let mut lists = Lists::new(alloc, Plain);
    let mut numbers = String::new(alloc);
    ask_all(alloc, &mut lists, OFFICE)?;
    for place in 0..1_003_u32 {
        // a minute later each time: a meter has one identifier for a minute
        let moment = FIRST_DAY + 60 * i64::from(place);
        let anns = format!(in alloc; "{moment} sell ann A-{place} 12345678903 10")?;
        let bobs = format!(in alloc; "{moment} sell bob A-{place} 10000000009 10")?;
        let _ = answer(alloc, &mut lists, anns.as_str())?;
        let _ = answer(alloc, &mut lists, bobs.as_str())?;
        let between = if place == 0 { "" } else { "," };
        let number = format!(in alloc; "{between}{}", 2 * place + 1)?;
        numbers.push_str(number.as_str())?;
    }
    let report = answer(alloc, &mut lists, "1388534430 report 1")?;
    let wanted = format!(in alloc; "report 1 ann 1388534430 - 1003 1003 10030 {numbers}")?;
    assert_eq!(rt; report.as_str(), wanted.as_str());
    Ok(())
}
