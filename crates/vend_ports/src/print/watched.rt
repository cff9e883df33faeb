ghost use Rattle.std.specs.Prelude.{◌≡◌, false};
ghost use Rattle.vend_ports.specs.print.Sink.{Sink, writer};
ghost use Rattle.vend_ports.specs.print.Told.{Takes};

use papers::write_whole;
use std::io::Write;
use std::marker::Model;

/// A writer that remembers whether a write to it has failed. From then on it is given nothing more.
/// In contracts it is what the writer holds, whether a write has failed, and which one it is.
#[derive(Drop)]
pub struct Watched<'a, W: Write> {
    inner: &'a mut W,
    failed: bool,
}

impl<'a, W: Write> Model for Watched<'a, W> {
    ghost Value = { Sink };

    ghost view = { λ w. writer (W.contents w.inner.now) w.failed w.inner.ghost_name };
}

impl<'a, W: Write> Watched<'a, W> {
    pub fn new(inner: &'a mut W) -> Watched<'a, W>
        ensures { result ≡ writer (W.contents inner.old) false inner.entry.ghost_name }
    {
        Watched {
            inner,
            failed: false,
        }
    }

    /// Hands a whole text to the writer.
    pub fn put(&mut self, text: &[u8])
        ensures { Takes self.old self.new text.now }
    {
        if self.failed {
            return;
        }
        self.failed = write_whole(text, self.inner).is_err();
    }

    /// Whether a write has failed.
    pub fn has_failed(&self) -> bool
        ensures { result ≡ self.now.failed }
    {
        self.failed
    }

    /// Ends the watch and gives the writer back, with all that was put there. Whether a write has
    /// failed is lost: ask `has_failed` first.
    pub fn into_inner(self) -> &'a mut W
        ensures held { W.contents result.now ≡ self.entry.held }
        ensures same_reference { result.ghost_name ≡ self.entry.name }
    {
        self.inner
    }
}
