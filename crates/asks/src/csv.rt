ghost use Rattle.std.specs.Prelude.{◌≡◌};

use std::marker::Model;

/// The bytes of a file of rows.
///
/// Contracts see the bytes.
#[derive(Debug, Drop)]
pub struct Csv<'a> {
    bytes: &'a [u8],
}

impl<'a> Model for Csv<'a> {
    ghost use Rattle.std.specs.Prelude.{ℕ, List};

    ghost Value = { List ℕ };

    ghost view = { λ c. c.bytes.now };
}

impl<'a> Csv<'a> {
    /// A file of these bytes.
    pub fn new(bytes: &'a [u8]) -> Csv<'a>
        ensures { result ≡ bytes.now }
    {
        Csv { bytes }
    }

    /// Its bytes.
    pub fn bytes(&self) -> &'a [u8]
        ensures { result.now ≡ self.now }
    {
        self.bytes
    }
}
