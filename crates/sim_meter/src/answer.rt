use sts_fields::Amount;
use sts_token::TokenFault;

/// What a meter answers to a text that is entered.
#[derive(Clone, Copy, Debug, PartialEq, Eq, Hash)]
pub enum Answer {
    /// The token is taken, and its amount added to the credit.
    Accepted(Amount),
    /// The token's identifier is 0, or was accepted since the start or the last clearing, and it is
    /// not `Old`.
    Used,
    /// At least fifty of the identifiers accepted since the start or the last clearing are greater.
    Old,
    /// The text cannot be read as a token.
    Refused(TokenFault),
}
