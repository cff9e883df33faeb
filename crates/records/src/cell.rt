/// What stands in a record under a name.
#[derive(Clone, Copy, Debug, PartialEq, Eq)]
pub enum Cell<'a> {
    /// A whole number.
    Number(u64),
    /// A text. A record tells it as it is, so it must need no escape.
    Text(&'a [u8]),
    /// That there is none: `null`.
    Nothing,
}
