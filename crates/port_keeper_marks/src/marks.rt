// Which settings a keeper owes to what it stands on.
ghost use Rattle.std.specs.Prelude.{◌≡◌, false, length, replicate, sum_by, slice_set};
ghost use Rattle.port_keeper_marks.specs.Runs.{is_marked, runs, AreRuns, tally, which_reply};
ghost use Rattle.port_keeper_marks.specs.Runs.{SomeOwed, clear, Clears, differing, Differ};

use crate::runs::{Run, Runs};
use chart::Chart;
use std::marker::Model;

/// How many registers have a mark, by their numbers from 0: all that a chart can name
/// (docs/RULES.md, sections 3 and 15).
pub const REGISTERS: usize = 128;

/// A mark for each of the registers 0 to 127, whether it is owed (docs/RULES.md, section 15).
#[derive(Debug, Clone, Copy, PartialEq, Eq)]
pub struct Marks {
    marks: [bool; REGISTERS],
}

impl Model for Marks {
    ghost use Rattle.std.specs.Prelude.{Bool, List};

    ghost Value = { List Bool };

    ghost view = { λ m. m.marks };

    ghost inverse = { λ bs. record { marks = bs } };
}

impl Marks {
    /// Nothing is owed, as in a new keeper (docs/RULES.md, section 15).
    pub fn none() -> Marks
        ensures { result ≡ replicate 128 false }
    {
        Marks {
            marks: [false; REGISTERS],
        }
    }

    /// Owed is each register whose word is not the one that the chip wakes with, and no other: what
    /// a keeper owes once a port that forgets is down (docs/RULES.md, section 15).
    #[tactic(auto, using(crate::proofs::Marking::by_words))]
    pub fn differing<C: Chart>(words: &[u16; REGISTERS]) -> Marks
        ensures value { result ≡ differing C.Chart.resets words.now }
        ensures law { Differ C.Chart.resets words.now result }
    {
        let mut marks = [false; REGISTERS];
        for (register, word) in words.iter().enumerate() {
            marks[register] = *word != C::reset(register as u16);
        }
        Marks { marks }
    }

    /// Whether a register is owed. A number from 128 up has no mark, and is not
    /// (docs/RULES.md, section 15).
    pub fn is_owed(&self, register: u16) -> bool
        ensures { result ≡ is_marked self.now register }
    {
        self.marks
            .get(usize::from(register))
            .copied()
            .unwrap_or(false)
    }

    // By index, since nothing is known of the other marks once what `get_mut` lends is given back.
    fn put(&mut self, register: usize, owed: bool)
        ensures { self.new ≡ slice_set self.old register owed }
    {
        if register < REGISTERS {
            self.marks[register] = owed;
        }
    }

    /// Marks a register as owed or not, and leaves every other mark. A number from 128 up has no
    /// mark, and is passed over (docs/RULES.md, section 15).
    pub fn set(&mut self, register: u16, owed: bool)
        ensures { self.new ≡ slice_set self.old register owed }
    {
        self.put(usize::from(register), owed);
    }

    /// The registers of a run are owed no longer, and every other mark stands: what is left once a
    /// run was accepted (docs/RULES.md, section 15).
    #[tactic(auto, using(crate::proofs::Marking::taken_away))]
    pub fn clear(&mut self, run: Run)
        ensures value { self.new ≡ clear run self.old }
        ensures law { Clears run self.old self.new }
    {
        for register in run.registers() {
            self.put(register, false);
        }
    }

    /// How many registers are owed, and in how many runs they are sent: the tally of a keeper
    /// (docs/RULES.md, section 15). Neither is above 128.
    #[tactic(auto, using(crate::proofs::Running::few_runs, crate::proofs::Running::counts_are))]
    pub fn tally(&self) -> (usize, usize)
        ensures value { result ≡ tally self.now }
        ensures law { AreRuns (is_marked self.now) 0 (runs self.now) }
        ensures sum { sum_by (λ r. r.count) (runs self.now) ≡ result.0 }
        ensures runs { length (runs self.now) ≡ result.1 }
        ensures size { length self.now ≡ 128 }
    {
        let owed = self.marks.iter().filter(|owed| **owed).count();
        (owed, self.runs().count())
    }

    /// Some register that is owed, by its number, or `None` if nothing is. Which one is left open
    /// (docs/RULES.md, section 15).
    #[tactic(auto, using(crate::proofs::Running::by_first_run))]
    pub fn any(&self) -> Option<u16>
        ensures { SomeOwed self.now (which_reply result) }
    {
        self.runs().next().map(|run| run.first)
    }

    /// All that is owed, as runs from the lowest number up, each of 1 to 16 registers
    /// (docs/RULES.md, section 15).
    #[tactic(auto, using(crate::proofs::Running::runs_are))]
    pub fn runs(&self) -> Runs<'_>
        ensures value { result ≡ runs self.now }
        ensures law { AreRuns (is_marked self.now) 0 (runs self.now) }
        ensures size { length self.now ≡ 128 }
    {
        Runs {
            from: 0,
            marks: &self.marks,
        }
    }
}
