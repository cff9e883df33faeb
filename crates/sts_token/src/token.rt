ghost use Rattle.std.specs.Prelude.{◌≡◌, ◌<◌, ◌^◌, ℕ};
ghost use Rattle.sts_token.specs.Fields.{AreFields, TokenFields};
ghost use Rattle.sts_token.specs.Token.{IsToken, KeepsRange, BlockFunction, token_of};
ghost use Rattle.sts_fields.specs.Text.{Text};

use crate::block::{block, number};
use crate::digits::digits;
use crate::fields::Fields;
use crate::transform::BlockTransform;
use sts_fields::amount_law;

/// The token of some fields: twenty decimal digits.
pub fn write<T: BlockTransform>(transform: &T, key: u64, fields: Fields) -> [u8; 20]
    ensures token { IsToken (T.forwards transform.now) key fields result }
    ensures value { result ≡ token_of (T.forwards transform.now) key fields }
{
    digits(10, number(transform.forward(key, block(fields))))
}

/// What a token means: under a transform and a key, fields that a token can carry have one text.
pub fn token_law()
    ensures has_text { (forward : BlockFunction) (key : ℕ) (f : TokenFields)
        → KeepsRange forward → key < 2 ^ 64 → AreFields f
        → IsToken forward key f (token_of forward key f) }
    ensures one_text { (forward : BlockFunction) (key : ℕ) (f : TokenFields) (a b : Text)
        → IsToken forward key f a → IsToken forward key f b → a ≡ b }
{
    amount_law();
}
