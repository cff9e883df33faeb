ghost use Rattle.std.specs.Prelude.{◌≡◌, ◌↔◌, [], IsTrue};
ghost use Rattle.std.specs.List.{list_all};
ghost use Rattle.csv.specs.Reading.{strip_bom};
ghost use Rattle.papers.specs.File.{AreFileRecords, is_line_end};

// A byte order mark.
const MARK: [u8; 3] = [0xEF, 0xBB, 0xBF];

// Whether a file has no record. It is found without room, where `csv` may want some to read none.
pub(crate) fn is_blank(bytes: &[u8]) -> bool
    ensures { IsTrue result ↔ AreFileRecords bytes.now [] }
{
    are_line_ends(without_mark(bytes))
}

// What stands behind a byte order mark, or all where there is none.
fn without_mark(bytes: &[u8]) -> &[u8]
    ensures { result.now ≡ strip_bom bytes.now }
{
    match bytes.strip_prefix(&MARK) {
        Some(text) => text,
        None => bytes,
    }
}

// Whether there is nothing but ends of lines.
fn are_line_ends(text: &[u8]) -> bool
    ensures { result ≡ list_all is_line_end text.now }
{
    text.iter().all(|byte| is_line_end(*byte))
}

// Whether a byte ends a line.
fn is_line_end(byte: u8) -> bool
    ensures { result ≡ is_line_end byte }
{
    byte == b'\r' || byte == b'\n'
}
