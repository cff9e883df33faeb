//! The sales and the shift of the examples of `docs/TEXTS.md`.
use office_rules::{MeterNo, Operator, Ref, Sale, Shift, Tender};
use std::test::Fail;
use sts_fields::{Amount, Base, Moment};

// The first sale of the examples: a tenth of a kWh for ten cents.
pub(crate) fn first_sale() -> Result<Sale, Fail> {
    Ok(Sale {
        number: 1,
        moment: Moment::of_secs(1_388_534_430).ok_or("a moment")?,
        shift: 1,
        operator: Operator::read(b"ann").ok_or("an operator")?,
        order_ref: Ref::read(b"A-1").ok_or("a ref")?,
        meter: MeterNo::read(b"12345678903").ok_or("a meter")?,
        base: Base::Y2014,
        tid: 2,
        rnd: 1,
        tenths: Amount::of_tenths(1).ok_or("an amount")?,
        price: 10,
        tender: Tender::read(10).ok_or("a tender")?,
        digits: *b"00072057602627981690",
    })
}

// Another one: 16384 tenths at 100 cents a kWh, with change.
pub(crate) fn large_sale() -> Result<Sale, Fail> {
    Ok(Sale {
        number: 1_000_000_000,
        tenths: Amount::of_tenths(16_384).ok_or("an amount")?,
        price: 163_840,
        tender: Tender::read(163_880).ok_or("a tender")?,
        ..first_sale()?
    })
}

// The first shift of the examples, closed at a moment or open.
pub(crate) fn first_shift(closed: Option<Moment>) -> Result<Shift, Fail> {
    Ok(Shift {
        number: 1,
        operator: Operator::read(b"ann").ok_or("an operator")?,
        opened: Moment::of_secs(1_388_563_200).ok_or("a moment")?,
        closed,
    })
}
