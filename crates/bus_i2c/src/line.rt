// The line list: what goes wrong in each transfer.
ghost use Rattle.std.specs.Prelude.{◌≡◌, ◌+◌, ◌^◌, ◌<◌, length, not};
ghost use Rattle.bus_i2c_wire.specs.Frames.{is_good};
ghost use Rattle.bus_i2c_laws.specs.I2cs.{first_mark, draw, new_line};

use std::marker::Model;

/// The line list: the marks that are not used yet, one for each transfer to come, and how many
/// transfers failed so far. A mark is the byte that is not acknowledged, counted from 1; one that
/// names no byte of its transfer means that all goes well (docs/RULES.md, section 8).
#[derive(Drop)]
pub struct Line<'a> {
    marks: &'a [u8],
    failed: u64,
}

impl<'a> Model for Line<'a> {
    ghost use Rattle.std.specs.Prelude.{◌+◌, ◌^◌, ◌<◌, length};
    ghost use Rattle.bus_i2c_laws.specs.I2cs.{Line as LineModel};

    ghost Value = { LineModel };

    ghost view = { λ l. record { marks = l.marks.now; failed = l.failed } };

    // only a transfer that uses a mark can fail, so the count never runs over
    ghost invariant = { λ l. l.failed + length l.marks.now < 2 ^ 64 };
}

// Whether a mark makes a transfer of so many bytes fail: it names one of them, counted from 1.
fn fails(mark: u8, bytes: usize) -> bool
    ensures { result ≡ not (is_good mark bytes) }
{
    mark != 0 && usize::from(mark) <= bytes
}

impl<'a> Line<'a> {
    /// These marks, of which none is used yet; no transfer failed (docs/RULES.md, section 8).
    pub fn new(marks: &'a [u8]) -> Line<'a>
        ensures { result ≡ new_line marks.now }
    {
        Line { marks, failed: 0 }
    }

    /// Takes the mark of a transfer in which the target must acknowledge so many bytes. If it names
    /// one of them the transfer fails, which is counted here. Once all marks are used it is 0
    /// (docs/RULES.md, section 8).
    pub fn draw(&mut self, bytes: usize) -> u8
        ensures value { result ≡ first_mark self.old.marks }
        ensures line { self.new ≡ draw bytes self.old }
    {
        let Some((&mark, rest)) = self.marks.split_first() else {
            return 0;
        };
        self.marks = rest;
        if fails(mark, bytes) {
            self.failed += 1;
        }
        mark
    }

    /// How many transfers failed (docs/RULES.md, sections 7 and 8).
    pub fn failed(&self) -> u64
        ensures value { result ≡ self.now.failed }
        ensures counted { self.now.failed + length self.now.marks < 2 ^ 64 }
    {
        self.failed
    }
}
