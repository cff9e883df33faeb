use crate::name::Operator;
use sts_fields::Moment;

/// A shift of an operator.
#[derive(Clone, Copy, Debug, PartialEq, Eq)]
pub struct Shift {
    /// From 1 on, without a gap.
    pub number: u32,
    pub operator: Operator,
    pub opened: Moment,
    /// `None` while it is open.
    pub closed: Option<Moment>,
}
