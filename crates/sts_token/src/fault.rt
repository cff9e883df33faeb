ghost use Rattle.std.specs.Prelude.{◌≡◌};
ghost use Rattle.sts_token.specs.TokenFault.{token_fault_name, token_fault_number};

use thiserror::Error;

/// Why a text is not read as a token.
#[derive(Clone, Copy, Debug, PartialEq, Eq, Hash, Error)]
pub enum TokenFault {
    #[error("a token is twenty digits")]
    NotTwentyDigits,
    #[error("the number of the digits is too large for a token")]
    TooLarge,
    #[error("the token is of another class than 0")]
    WrongClass,
    #[error("the check of the token is wrong")]
    BadCheck,
    #[error("the token is of another subclass than 0")]
    WrongSubclass,
}

impl TokenFault {
    /// The fault's number, from 1 to 5, in the order of the variants.
    pub fn number(self) -> u8
        ensures { result ≡ token_fault_number self }
    {
        match self {
            TokenFault::NotTwentyDigits => 1,
            TokenFault::TooLarge => 2,
            TokenFault::WrongClass => 3,
            TokenFault::BadCheck => 4,
            TokenFault::WrongSubclass => 5,
        }
    }

    /// The fault's name, as it is printed.
    pub fn name(self) -> &'static str
        ensures { result.now ≡ token_fault_name self }
    {
        match self {
            TokenFault::NotTwentyDigits => "NotTwentyDigits",
            TokenFault::TooLarge => "TooLarge",
            TokenFault::WrongClass => "WrongClass",
            TokenFault::BadCheck => "BadCheck",
            TokenFault::WrongSubclass => "WrongSubclass",
        }
    }
}
