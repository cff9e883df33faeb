ghost use Rattle.std.specs.Prelude.{◌≡◌, [], ◌∷◌, ◌++◌, take};
ghost use Rattle.sts_fields.specs.Text.{Text};

use arrayvec::ArrayVec;

// More than any line has that there is advice for.
const LINE_ROOM: usize = 128;

/// The last line of a text: its first 128 bytes, and whether it has its end.
#[derive(Drop)]
pub(crate) struct LastLine {
    pub(crate) bytes: ArrayVec<u8, LINE_ROOM>,
    pub(crate) ended: bool,
}

impl LastLine {
    ghost use Rattle.terminal_advice.specs.LastLine.{IsKept, Line, begun, last_line};
    ghost use Rattle.terminal_advice.specs.LastLine.{line_after, line_along};

    /// That of no text.
    pub(crate) fn new() -> LastLine
        ensures { IsKept (last_line []) result }
    {
        LastLine {
            bytes: ArrayVec::new(),
            ended: false,
        }
    }

    /// Goes on with these bytes.
    pub(crate) fn pass(&mut self, text: &[u8])
        ensures { (line : Line) → IsKept line self.old → IsKept (line_along line text.now) self.new }
    {
        match text {
            [] => {}
            [byte, rest @ ..] => {
                self.pass_byte(*byte);
                self.pass(rest);
            }
        }
    }

    // Goes on with this byte.
    fn pass_byte(&mut self, byte: u8)
        ensures { (line : Line) → IsKept line self.old → IsKept (line_after line byte) self.new }
    {
        self.begin();
        self.ended = byte == b'\n';
        if !self.ended {
            add(byte, &mut self.bytes);
        }
    }

    // Leaves a line that has its end.
    fn begin(&mut self)
        ensures { (line : Line) → IsKept line self.old
            → self.new.bytes.items ≡ take 128 (begun line) }
    {
        if self.ended {
            self.bytes.clear();
        }
    }
}

// Adds a byte to a line, unless it is too long for any advice.
fn add(byte: u8, line: &mut ArrayVec<u8, LINE_ROOM>)
    ensures { (whole : Text) → line.old.items ≡ take 128 whole
        → line.new.items ≡ take 128 (whole ++ byte ∷ []) }
{
    if line.len() < LINE_ROOM {
        line.push(byte);
    }
}
