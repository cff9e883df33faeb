ghost use Rattle.std.specs.Prelude.{◌≡◌, ◌≢◌, ◌/◌, ◌<◌, ◌≤◌, ◌^◌, ◌==◌, ◌↔◌, ℕ, Option, Result};
ghost use Rattle.std.specs.Prelude.{not, if◌then◌else◌, nat_le};
ghost use Rattle.sts_token.specs.Fields.{AreFields, TokenFields};
ghost use Rattle.sts_token.specs.Reading.{Carries, IsOfClassZero, Reads, block_numbered};
ghost use Rattle.sts_token.specs.Reading.{block_reading, class_of, is_twenty_digits, number_in};
ghost use Rattle.sts_token.specs.Reading.{reading_of};
ghost use Rattle.sts_token.specs.Token.{AreTwentyDigits, IsToken, BlockFunction, token_of};
ghost use Rattle.sts_fields.specs.Text.{Text};
ghost use Rattle.sts_token.specs.Transform.{IsTransform};
ghost use Rattle.sts_token.specs.declared.fault.TokenFault.{TokenFault};

use crate::check::check16;
use crate::fault::TokenFault;
use crate::fields::Fields;
use crate::transform::BlockTransform;
use sts_fields::{Amount, amount_law};

/// The fields of the token that a text is, or its first fault (`docs/PROFILE.md`, "Reading").
pub fn read<T: BlockTransform>(transform: &T, key: u64, text: &[u8]) -> Result<Fields, TokenFault>
    ensures reading { Reads (T.forwards transform.now) (T.inverses transform.now) key text.now
        result }
    ensures value { result ≡ reading_of (T.inverses transform.now) key text.now }

    // Some fields exactly where the text is their token, and each fault exactly where no test
    // before it fails.
    ensures token { (f : TokenFields) → AreFields f
        → ((result ≡ Ok f) ↔ IsToken (T.forwards transform.now) key f text.now) }
    ensures not_twenty_digits { (result ≡ Err TokenFault.NotTwentyDigits)
        ↔ ¬ AreTwentyDigits text.now }
    ensures too_large { (result ≡ Err TokenFault.TooLarge)
        ↔ (AreTwentyDigits text.now × (2 ^ 66 ≤ number_in text.now)) }
    ensures wrong_class { (result ≡ Err TokenFault.WrongClass)
        ↔ (AreTwentyDigits text.now × (number_in text.now < 2 ^ 66)
        × (class_of (number_in text.now) ≢ 0)) }
    ensures bad_check { (result ≡ Err TokenFault.BadCheck)
        ↔ (IsOfClassZero text.now
        × ((subclass : ℕ) (f : TokenFields)
        → ¬ Carries (T.inverses transform.now) key text.now subclass f)) }
    ensures wrong_subclass { (result ≡ Err TokenFault.WrongSubclass)
        ↔ (IsOfClassZero text.now
        × (subclass : ℕ) × (f : TokenFields)
        × Carries (T.inverses transform.now) key text.now subclass f × (subclass ≢ 0)) }
{
    // Its clauses say what the steps below come to.
    read_law();
    decimal(text)
        .ok_or(TokenFault::NotTwentyDigits)
        .and_then(block_with_number)
        .and_then(
            |block| -> Result<Fields, TokenFault>
                ensures { result ≡ block_reading (T.inverses transform.entry.now key block) }
            { fields_of(transform.inverse(key, block)) },
        )
}

/// What reading means, whatever the transform and the key: a text has one reading, and the texts
/// that read as some fields are the one token that is written of them.
pub fn read_law()
    ensures computed { (forward inverse : BlockFunction) (key : ℕ) (text : Text)
        → IsTransform forward inverse → key < 2 ^ 64
        → Reads forward inverse key text (reading_of inverse key text) }
    ensures one_reading { (forward inverse : BlockFunction) (key : ℕ) (text : Text)
        (r s : Result TokenFields TokenFault)
        → IsTransform forward inverse → key < 2 ^ 64
        → Reads forward inverse key text r → Reads forward inverse key text s → r ≡ s }
    ensures written { (forward inverse : BlockFunction) (key : ℕ) (f : TokenFields)
        → IsTransform forward inverse → key < 2 ^ 64 → AreFields f
        → Reads forward inverse key (token_of forward key f) (Ok f) }
    ensures one_text { (forward inverse : BlockFunction) (key : ℕ) (f : TokenFields) (text : Text)
        → IsTransform forward inverse → key < 2 ^ 64
        → Reads forward inverse key text (Ok f) → text ≡ token_of forward key f }
{
    amount_law();
}

// The number that twenty digits make.
fn decimal(text: &[u8]) -> Option<u128>
    ensures { result ≡ (if is_twenty_digits text.now then Some (number_in text.now) else None) }
{
    if text.len() != 20 {
        return None;
    }
    let mut number = 0u128;
    for digit in text {
        if !digit.is_ascii_digit() {
            return None;
        }
        number = number * 10 + u128::from(*digit - b'0');
    }
    Some(number)
}

// The transformed block that a token of class 0 writes as this number.
fn block_with_number(number: u128) -> Result<u64, TokenFault>
    ensures { result ≡ (if nat_le (2 ^ 66) number then Err TokenFault.TooLarge
        else (if not (class_of number == 0) then Err TokenFault.WrongClass
        else Ok (block_numbered number))) }
{
    if number >> 66 != 0 {
        return Err(TokenFault::TooLarge);
    }
    if number >> 27 & 3 != 0 {
        return Err(TokenFault::WrongClass);
    }
    let high = number >> 29 & 0x7_FFFF_FFFF;
    let moved = number >> 64;
    let low = number & 0x7FF_FFFF;
    Ok((high << 29 | moved << 27 | low) as u64)
}

// The fields of a block of subclass 0 with a good check.
fn fields_of(block: u64) -> Result<Fields, TokenFault>
    ensures { result ≡ block_reading block }
{
    let payload = block >> 16;
    let [_, a, b, c, d, e, f, g] = payload.to_be_bytes();
    if u64::from(check16(&[a, b, c, d, e, f, g])) != block & 0xFFFF {
        return Err(TokenFault::BadCheck);
    }
    if block >> 60 != 0 {
        return Err(TokenFault::WrongSubclass);
    }
    Ok(Fields {
        rnd: (block >> 56 & 0xF) as u8,
        tid: (block >> 32 & 0xFF_FFFF) as u32,
        amount: Amount::of_code((block >> 16 & 0xFFFF) as u16),
    })
}
