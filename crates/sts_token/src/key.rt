ghost use Rattle.std.specs.Prelude.{◌≡◌, ◌<◌, ◌^◌, ◌↔◌, ℕ, is_some, IsSome, IfSome};
ghost use Rattle.std.specs.Char.{digit_value};
ghost use Rattle.sts_fields.specs.Text.{Text};
ghost use Rattle.sts_token.specs.Key.{AreKeyDigits, IsKeyText, is_lower_hexdigit};

use crate::digits::digits;

/// The key that sixteen lower-case hexadecimal digits stand for, or `None` exactly where the text
/// is not that.
pub fn read_key(text: &[u8]) -> Option<u64>
    ensures digits { IsSome result ↔ AreKeyDigits text.now }
    ensures value { IfSome result (λ key. IsKeyText key text.now) }
{
    if text.len() != 16 {
        return None;
    }
    let mut key = 0u64;
    for digit in text {
        key = key * 16 + u64::from(hexdigit(*digit)?);
    }
    Some(key)
}

/// The sixteen lower-case hexadecimal digits of a key.
pub fn key_text(key: u64) -> [u8; 16]
    ensures { IsKeyText key result }
{
    digits(16, u128::from(key))
}

/// What a key's text means: each key has one, and each text is of one key.
pub fn key_law()
    ensures one_text { (key : ℕ) (a b : Text) → IsKeyText key a → IsKeyText key b → a ≡ b }
    ensures one_key { (j k : ℕ) (text : Text) → IsKeyText j text → IsKeyText k text → j ≡ k }
    ensures within { (key : ℕ) (text : Text) → IsKeyText key text → key < 2 ^ 64 }
{}

// The value of a lower-case hexadecimal digit.
fn hexdigit(digit: u8) -> Option<u8>
    ensures known { is_some result ≡ is_lower_hexdigit digit }
    ensures value { IfSome result (λ value. (value < 16) × (digit_value digit ≡ value)) }
{
    match digit {
        b'0'..=b'9' => Some(digit - b'0'),
        b'a'..=b'f' => Some(digit - b'a' + 10),
        _ => None,
    }
}
