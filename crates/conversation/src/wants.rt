ghost use Rattle.std.specs.Prelude.{◌≡◌, IfSome};
ghost use Rattle.conversation.specs.Wants.{StaysAwaited, count_of, told_of};

/// What is awaited of an input, and how many bytes of it may be asked for.
#[derive(Clone, Copy, Debug, PartialEq, Eq)]
pub(crate) enum Wants {
    /// A head: so many bytes are left of the longest one.
    Head(usize),
    /// A body: it lacks so many bytes, and an interim reply was written for it, or none.
    Body { missing: usize, told: bool },
}

impl Wants {
    // How many bytes may be asked for.
    pub(crate) fn count(self) -> usize
        ensures { result ≡ count_of self }
    {
        match self {
            Wants::Head(count) => count,
            Wants::Body { missing, .. } => missing,
        }
    }

    // Whether an interim reply was written for what is awaited.
    pub(crate) fn told(self) -> bool
        ensures { result ≡ told_of self }
    {
        match self {
            Wants::Head(_) => false,
            Wants::Body { told, .. } => told,
        }
    }

    // What is awaited of a body where so many bytes of it came and more are missing. To know it
    // takes no look at them, nor at the head again.
    pub(crate) fn after(self, count: usize) -> Option<Wants>
        ensures stays { StaysAwaited self count result }
        ensures told { IfSome result (λ left. told_of left ≡ told_of self) }
    {
        match self {
            Wants::Body { missing, told } if count < missing => Some(Wants::Body {
                missing: missing - count,
                told,
            }),
            _ => None,
        }
    }
}
