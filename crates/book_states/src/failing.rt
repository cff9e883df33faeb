//! What is answered where the store fails.

ghost use Rattle.std.specs.Prelude.{◌≡◌, ◌↔◌, ◌⊎◌, Err, IsTrue};
ghost use Rattle.book_states.specs.Failing.{refusal_for};

use book_tables::TableError;
use office_rules::Refusal;
use sqlite::{Error, ErrorCode};

/// What a request is answered where its tables gave this error before a commit: the store failed,
/// unless it only found no memory.
pub fn refusal_of(error: TableError) -> Refusal
    ensures value { result ≡ refusal_for error }
    ensures either { (result ≡ Refusal.Memory) ⊎ (result ≡ Refusal.Store) }
{
    match error {
        TableError::Database(Error::SqliteFailure(ErrorCode::OutOfMemory)) => Refusal::Memory,
        _ => Refusal::Store,
    }
}

/// Whether the store failed.
pub fn has_failed<X>(answer: &Result<X, Refusal>) -> bool
    ensures { IsTrue result ↔ (answer.now ≡ Err Refusal.Store) }
{
    matches!(answer, Err(Refusal::Store))
}
