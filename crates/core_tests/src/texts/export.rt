//! The sales export.
use crate::texts::examples::first_sale;
use crate::texts::printed::put_export;
use office_rules::Sale;
use std::alloc::Global;
use std::process::Abort;
use std::test::Fail;

fn header() -> &'static str {
    "number,moment,shift,operator,ref,meter,base,tid,tenths,price,tender,change,token\n"
}

fn record() -> &'static str {
    "1,1388534430,1,ann,A-1,12345678903,2014,2,1,10,10,0,00072057602627981690\n"
}

// So many sales, which are the same.
fn sales(alloc: Global, count: usize) -> Result<Vec<Sale>, Fail> {
    Ok(vec![in alloc; first_sale()?; count]?)
}

// Their export, behind the header or without it.
fn has_export(rt: &(impl Abort + AllocGlobal), count: usize, has_header: bool) -> Result<(), Fail> {
    let mut out = Vec::new(rt.alloc());
    let sales = sales(rt.alloc(), count)?;
    assert_eq!(rt;
        put_export(rt.alloc(), &sales, has_header, &mut out),
        Ok(())
    );
    let mut text = Vec::new(rt.alloc());
    if has_header {
        text.extend_from_slice(header().as_bytes())?;
    }
    for _ in 0..count {
        text.extend_from_slice(record().as_bytes())?;
    }
    assert!(rt; out == text, "{count}");
    Ok(())
}

#[test]
fn exports(rt: HostRuntime) -> Result<(), Fail> {
    for count in [0, 1, 2003] {
        has_export(&rt, count, true)?;
        has_export(&rt, count, false)?;
    }
    Ok(())
}

// What it prints `tools/check_export` has Python read.
#[test]
fn an_export_for_others(rt: HostRuntime) -> Result<(), Fail> {
    let mut sales = Vec::new(rt.alloc());
    for number in 1..=2003u32 {
        sales.push(Sale {
            number,
            ..first_sale()?
        })?;
    }
    assert_eq!(rt;
        put_export(rt.alloc(), &sales, true, &mut rt.stdout()),
        Ok(())
    );
    Ok(())
}
