//! The tables of each format of the file.

ghost use Rattle.std.specs.Prelude.{◌≡◌, ◌≤◌, drop, map, take};
ghost use Rattle.book_tables.specs.Kept.{kept, kept_names, kept_texts, later, upto};
ghost use Rattle.book_tables.specs.row.Rows.{present_format};

use crate::texts::{NAMES, TABLES};

/// The format of the tables that are made.
pub const PRESENT_FORMAT: u32 = 4;

/// Tables by their names, and the texts that make them.
#[derive(Clone, Copy)]
pub(crate) struct Parts {
    pub(crate) names: &'static [&'static str],
    pub(crate) texts: &'static [&'static str],
}

// How many of the tables, in their order, a format has.
fn count_of(format: u32) -> usize
    ensures within { result ≤ 11 }
    ensures names { format ≤ present_format → take result (kept_names kept)
        ≡ kept_names (upto format) }
    ensures texts { format ≤ present_format → take result (kept_texts kept)
        ≡ kept_texts (upto format) }
    ensures later_names { format ≤ present_format
        → drop result (kept_names kept) ≡ kept_names (later format) }
    ensures later_texts { format ≤ present_format
        → drop result (kept_texts kept) ≡ kept_texts (later format) }
{
    match format {
        0 => 0,
        1 => 6,
        2 => 9,
        3 => 10,
        _ => 11,
    }
}

/// The tables that a format has. Format 0 has none.
pub(crate) fn tables_upto(format: u32) -> Parts
    requires { format ≤ present_format }
    ensures names { map (λ n. n.now) result.names.now ≡ kept_names (upto format) }
    ensures texts { map (λ t. t.now) result.texts.now ≡ kept_texts (upto format) }
{
    let count = count_of(format);
    let (names, _) = NAMES.split_at(count);
    let (texts, _) = TABLES.split_at(count);
    Parts { names, texts }
}

/// The tables that came after a format.
pub(crate) fn tables_after(format: u32) -> Parts
    requires { format ≤ present_format }
    ensures names { map (λ n. n.now) result.names.now ≡ kept_names (later format) }
    ensures texts { map (λ t. t.now) result.texts.now ≡ kept_texts (later format) }
{
    let count = count_of(format);
    let (_, names) = NAMES.split_at(count);
    let (_, texts) = TABLES.split_at(count);
    Parts { names, texts }
}
