use crate::name::{MeterNo, Operator, Ref};
use sts_fields::{Amount, Base, Moment};
use tariff::Tender;

/// A sale, as it was made.
#[derive(Clone, Copy, Debug, PartialEq, Eq)]
pub struct Sale {
    /// From 1 on, without a gap.
    pub number: u32,
    pub moment: Moment,
    /// The number of the shift that it was sold in.
    pub shift: u32,
    pub operator: Operator,
    pub order_ref: Ref,
    pub meter: MeterNo,
    pub base: Base,
    /// The token identifier.
    pub tid: u32,
    /// The nibble of the token, below 16.
    pub rnd: u8,
    pub tenths: Amount,
    /// In whole cents.
    pub price: u32,
    pub tender: Tender,
    /// The token.
    pub digits: [u8; 20],
}
