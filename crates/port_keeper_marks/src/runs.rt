// The runs in which owed words are sent.
ghost use Rattle.std.specs.Prelude.{◌≡◌, ◌+◌, ◌≤◌, length, take};
ghost use Rattle.std.specs.List.{position, prefix_len};
ghost use Rattle.std.specs.Iterator.{YieldsFirst, item_count};

use std::marker::Model;
use std::ops::Range;

// The most registers in one run.
const LIMIT: usize = 16;

/// Consecutive registers, as they are sent in one call: the number of the first, and how many.
/// Among the runs of marks it has 1 to 16 (docs/RULES.md, section 15).
#[derive(Debug, Clone, Copy, PartialEq, Eq)]
pub struct Run {
    /// The number of its first register.
    pub first: u16,
    /// How many registers it has.
    pub count: u16,
}

impl Run {
    /// The numbers of its registers, as a range of indices. It is empty where the count is 0
    /// (docs/RULES.md, section 15).
    pub fn registers(self) -> Range<usize>
        ensures start { result.start ≡ self.first }
        ensures end { result.end ≡ self.first + self.count }
    {
        let first = usize::from(self.first);
        first..first + usize::from(self.count)
    }
}

// The first mark that is set.
fn first_owed(marks: &[bool]) -> Option<usize>
    ensures { result ≡ position (λ b. b) marks.now }
{
    marks.iter().position(|owed| *owed)
}

// How many of the first marks are set, up to one that is not, as far as a run may go.
fn owed_ahead(marks: &[bool]) -> usize
    ensures value { result ≡ prefix_len (λ b. b) (take 16 marks.now) }
    ensures within { result ≤ length marks.now }
{
    marks.iter().take(LIMIT).take_while(|owed| **owed).count()
}

/// The runs of a slice of marks, ascending (docs/RULES.md, section 15). It is made by
/// `Marks::runs`, and goes on behind each run that it gave.
#[derive(Debug, Drop)]
pub struct Runs<'a> {
    // the number of the slice's first mark
    pub(crate) from: usize,
    pub(crate) marks: &'a [bool],
}

impl<'a> Model for Runs<'a> {
    ghost use Rattle.std.specs.Prelude.{◌+◌, ◌≤◌, List, length};
    ghost use Rattle.port_keeper_marks.specs.declared.runs.Run.{Run};

    ghost Value = { List Run };

    ghost use Rattle.port_keeper_marks.specs.Runs.{runs_from};

    ghost view = { λ r. runs_from r.from 0 r.marks.now };

    ghost invariant = { λ r. r.from + length r.marks.now ≤ 128 };
}

impl<'a> Iterator for Runs<'a> {
    type Item = Run;

    ghost next_gives = { YieldsFirst (λ s. s) };

    ghost remaining = { item_count (λ s. s) };

    #[tactic(auto, using(crate::proofs::Running::no_run, crate::proofs::Running::next_run))]
    fn next(&mut self) -> Option<Run> {
        let gap = first_owed(self.marks)?;
        let rest = &self.marks[gap..];
        let count = owed_ahead(rest);
        let first = self.from + gap;
        self.from = first + count;
        self.marks = &rest[count..];
        Some(Run {
            first: first as u16,
            count: count as u16,
        })
    }
}
