/// What is there at a path, for a command that makes no file.
#[derive(Drop)]
pub(crate) enum Met<T> {
    /// No file.
    Nothing,
    /// A file that has none of the office's tables. It was let go as it was found.
    NoOffice,
    /// This.
    There(T),
}
