//! Who is told how far an audit is.

/// The parts of an audit, in their order.
#[derive(Clone, Copy, Debug, PartialEq, Eq)]
pub enum Part {
    /// The rows of all tables are read, each is an office's by itself.
    Rows,
    /// They keep the rules between rows, and the totals are those of the sales.
    Ties,
    /// Requests may have led to them.
    Requests,
}

/// Who is told how far an audit is: only what is true (`TellsPassed`). What becomes of it, the
/// follower says.
pub trait Follows {
    ghost use Rattle.audit.specs.declared.following.Part.{Part};

    // What a follower becomes that is told of a part.
    ghost told: { Self → Part → Self → Type 0 };

    /// This part has passed.
    fn passed(&mut self, part: Part)
        ensures { told self.old part self.new };
}

/// Nobody is told.
#[derive(Drop)]
pub(crate) struct Unfollowed;

impl Follows for Unfollowed {
    ghost use Rattle.std.specs.Prelude.{⊤};

    ghost told = { λ _ _ _. ⊤ };

    fn passed(&mut self, _part: Part) {}
}
