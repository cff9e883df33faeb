ghost use Rattle.std.specs.Prelude.{◌≡◌};
ghost use Rattle.vend_ports.specs.Status.{exit_status_of};

/// How a command ended.
#[derive(Clone, Copy, Debug, PartialEq, Eq)]
pub enum CommandEnd {
    /// It did what was asked.
    Done,
    /// It was refused, or something failed, as its output may.
    Refused,
    /// The words were not those of a command, or a value of theirs is outside its rule.
    BadWords,
}

impl CommandEnd {
    /// The exit status.
    pub fn status(self) -> u8
        ensures { result ≡ exit_status_of self }
    {
        match self {
            CommandEnd::Done => 0,
            CommandEnd::Refused => 1,
            CommandEnd::BadWords => 2,
        }
    }
}
