ghost use Rattle.std.specs.Prelude.{◌≡◌, ◌++◌, IfOk, OnOk, decimal, string_bytes};
ghost use Rattle.papers.specs.Text.{change_of, line};

use office_rules::Sale;
use std::alloc::{AllocError, Global};

// Adds a line to a text: a word, a space and its value.
pub(crate) fn put_line(text: &mut Vec<u8>, word: &str, value: &[u8]) -> Result<(), AllocError>
    ensures { OnOk result (text.new.items ≡ text.old.items ++ line word.now value.now) }
{
    text.extend_from_slice(word.as_bytes())?;
    text.extend_from_slice(b" ")?;
    text.extend_from_slice(value)?;
    text.extend_from_slice(b"\n")
}

// Adds the line of a word and a number.
pub(crate) fn put_number(
    alloc: Global,
    text: &mut Vec<u8>,
    word: &str,
    number: u128,
) -> Result<(), AllocError>
    ensures { OnOk result (text.new.items ≡ text.old.items ++ line word.now (decimal number)) }
{
    let digits = decimal(alloc, number)?;
    put_line(text, word, digits.as_bytes())
}

// A number in decimal digits.
pub(crate) fn decimal(alloc: Global, number: u128) -> Result<String, AllocError>
    ensures { IfOk result (λ text. string_bytes text ≡ decimal number) }
{
    format!(in alloc; "{number}")
}

// What a customer gets back of the tender; a price is at most its tender, so nothing is cut off.
pub(crate) fn change(sale: &Sale) -> u32
    ensures { result ≡ change_of sale.now }
{
    sale.tender.cents().saturating_sub(sale.price)
}
