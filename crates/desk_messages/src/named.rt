use arrayvec::ArrayVec;
use asks::{AskKind, Value};

/// What a target names: a kind of ask, and the values of its slots.
#[derive(Debug, PartialEq, Eq, Drop)]
pub struct Named {
    pub kind: AskKind,
    pub values: ArrayVec<Value, 2>,
}
