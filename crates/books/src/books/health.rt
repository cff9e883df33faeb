//! What the books know of their office without a read of the store.

ghost use Rattle.std.specs.Prelude.{◌≡◌};
ghost use Rattle.vend_core.specs.Law.Life.{Life};
ghost use Rattle.books.specs.Keeps.{Represents, health_of, seen};

use super::Books;
use book_states::Health;
use sqlite::Alter;
use sts_token::BlockTransform;

impl<S: Alter, T: BlockTransform> Books<S, T> {
    /// How many sales there are, the moment of the last one, and whether the last write failed.
    /// After a failure of the store a sale may be missing.
    pub fn health(&self) -> Health
        ensures { result ≡ health_of (seen self.now) }
    {
        Health {
            sales: self.next_number.saturating_sub(1),
            last_moment: self.last_moment,
            write_failed: self.write_failed,
        }
    }

    /// Whether the last change that was to be written was answered `Store`, and none was committed
    /// since. A read that fails stops the books too, and leaves this as it was.
    pub fn write_failed(&self) -> bool
        ensures { result ≡ self.now.write_failed }
    {
        self.write_failed
    }
}

impl<S: Alter, T: BlockTransform + Drop> Books<S, T> {
    /// The same books, of which this is known of the last write: that of books that stopped, where
    /// these opened their office again.
    pub fn with_write_failed(mut self, write_failed: bool) -> Books<S, T>
        ensures same { result ≡ record self { write_failed = write_failed } }
        ensures keeps { (life : Life) → Represents life (seen self)
            → Represents life (seen result) }
    {
        self.write_failed = write_failed;
        self
    }
}
