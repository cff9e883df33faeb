//! Whether the store failed.

ghost use Rattle.std.specs.Prelude.{◌≡◌};

use super::Books;
use sqlite::Alter;
use sts_token::BlockTransform;

impl<S: Alter, T: BlockTransform> Books<S, T> {
    /// Whether the books are stopped: every request is then answered `Stopped`, until the office is
    /// opened again. They are so from a `Store` on, and never before.
    ///
    /// It takes no memory.
    pub fn is_stopped(&self) -> bool
        ensures { result ≡ self.now.stopped }
    {
        self.stopped
    }
}
