//! Which settings a reading was made under.
ghost use Rattle.std.specs.Prelude.{◌≡◌, ◌&&◌, ℕ, Some, slice_index};
ghost use Rattle.std.proofs.Common.{refl};
ghost use Rattle.refusal.specs.Replies.{fault_values};
ghost use Rattle.bench_run.specs.Performed.{answer_reply};
ghost use Rattle.bench_text.specs.Under.{DuesModel, dues_model, new_dues, reading_is, with_due};
ghost use Rattle.bench_text.specs.Under.{dues_after_call, dues_after, due_line, differs};
ghost use Rattle.bench_text.specs.Under.{none_text};

use crate::notes::Notes;
use bench_call::{PileCall, PortCall, Word};
use bench_run::Answer;
use chart::{Chart, Class};
use chip::memory;
use patch::Patch;
use refusal::Fault;
use std::fmt;
use std::marker::PhantomData;

// How many registers a chart can have.
const REGISTERS: usize = 128;

/// The words that the settings of a pile are due, by the calls so far: each its reset word at
/// first, and then as every accepted update made it.
///
/// Under a reading, that is an answered read of a live register, it prints those that are no reset
/// words. It prints nothing under any other call, and never on a pile that does not keep
/// (docs/RULES.md, sections 12 and 17).
#[derive_where(Clone, Copy)]
pub struct Dues<H> {
    words: [u16; REGISTERS],
    keeps: bool,
    reading: bool,
    chart: PhantomData<H>,
}

impl<H: Chart> Dues<H> {
    /// Those of a new pile, which keeps or does not (docs/RULES.md, section 17).
    pub fn new(keeps: bool) -> Dues<H>
        ensures { dues_model result ≡ new_dues H.Chart.resets keeps }
    {
        let mut words = [0; REGISTERS];
        memory::reset::<H>(&mut words);
        Dues {
            words,
            keeps,
            reading: false,
            chart: PhantomData,
        }
    }

    fn word(&self, register: u16) -> u16
        ensures { result ≡ slice_index self.now.words register }
    {
        self.words.get(usize::from(register)).copied().unwrap_or(0)
    }

    // Whether a number is a setting whose word is another than its reset word.
    fn differs(&self, register: u16) -> bool
        ensures { let due = slice_index self.now.words in
            result ≡ differs H.Chart.classed H.Chart.resets due register }
    {
        H::class(register) == Class::Setting && self.word(register) != H::reset(register)
    }

    // Whether there is a line under the last call.
    fn tells(&self) -> bool
        ensures { result ≡ (self.now.keeps && self.now.reading) }
    {
        self.keeps && self.reading
    }

    fn change(&mut self, register: u16, patch: Patch)
        ensures { dues_model self.new ≡ with_due register patch (dues_model self.old) }
    {
        let word = patch.act(self.word(register));
        memory::set_register(&mut self.words, register, word);
    }

    // Takes an accepted call of the port.
    fn accept(&mut self, call: PortCall)
        ensures { dues_model self.new ≡ dues_after_call H.Chart.classed call (dues_model self.old) }
    {
        self.reading = false;
        match call {
            PortCall::Read { register } => {
                self.reading = H::class(register) == Class::Live;
            }
            PortCall::Update {
                register,
                mask,
                bits,
            } => self.change(register, Patch { mask, bits }),
            PortCall::Sync | PortCall::Measure { .. } | PortCall::Down | PortCall::Up => {}
        }
    }
}

// What is said where no setting differs from its reset word.
fn none(any: bool) -> &'static str
    ensures { result.now ≡ none_text any }
{
    if any { "" } else { " reset settings" }
}

impl<H: Chart> fmt::Display for Dues<H> {
    ghost output = { λ d. let chart = H.Chart in
        Some (due_line chart.counted chart.classed chart.resets (dues_model d)) };

    fn fmt<W: fmt::Write>(&self, f: &mut fmt::Formatter<W>) -> fmt::Result {
        if !self.tells() {
            return Ok(());
        }
        write!(f, "  under")?;
        let mut any = false;
        for register in 0..H::count() {
            if self.differs(register) {
                let word = Word(self.word(register));
                write!(f, " {register}={word}")?;
                any = true;
            }
        }
        let none = none(any);
        writeln!(f, "{none}")
    }
}

impl<H: Chart> Notes<PileCall, Fault> for Dues<H> {
    ghost State = { DuesModel };

    ghost state = { dues_model };

    ghost next = { dues_after H.Chart.classed };

    ghost told = { due_line H.Chart.counted H.Chart.classed H.Chart.resets };

    ghost prints = { λ x. refl };

    fn next(mut self, call: &PileCall, answer: Answer<Fault>) -> Dues<H>
        ensures { let reply = answer_reply fault_values answer in
            dues_model result ≡ dues_after H.Chart.classed (dues_model self) call.now reply }
    {
        match (call, answer) {
            (PileCall::Port(call), Ok(_)) => self.accept(*call),
            _ => self.reading = false,
        }
        self
    }
}
