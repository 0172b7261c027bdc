// Reads a bench sheet into typed values, or names its first mistake by its line. Nothing is
// performed here.
//
// Each line holds one statement, or none. What follows a `#` is passed over. Spaces, tabs and
// carriage returns part the words. Numbers up to 65535 are written in decimal digits, or with the
// prefix `0x` in hexadecimal ones; marks go up to 255.
//
//     bus i2c ADDRESS | bus window          once, before the first call
//     chart head | chart valve              at most once; `head` where it is left out
//     marks N ..                            on i2c only; several such lines make one list
//     pile paging LAYER ..                  at most once; where left out, calls are on the bus
//
//     get RAW                               on a bus
//     put RAW WORD ..
//     read REGISTER                         on a pile
//     update REGISTER MASK BITS
//     sync
//     suspend                               each has its resume further down, before the next one
//     resume
//     measure REGISTER WORD                 on either
//     down
//     up
//
// The first four open a sheet, in any order, and come before the first call. The layers of a pile
// are named from the bottom up, at most three of them, each `keeper` or `deferral`.
//
// Of the mistakes of one line the one that is told is the first of: an unknown statement or a call
// of the other kind, the number of its words, its words from left to right, and its place in the
// sheet. The make of a bus comes before the number of its words, which it decides.
#![tactic(auto)]

ghost use Rattle.std.specs.Prelude.{◌≡◌};
ghost use Rattle.bench_sheet.specs.Sheets.{job_of, no_calls, at_line, sheet_of, Reads};
ghost use Rattle.bench_sheet.specs.declared.LineError.TheVariants.{Memory, Wrong};

pub use bench_call::{Call, LayerKind, PileCall, PortCall};
use cut::Lines;
pub use digits::number;
use draft::Draft;
pub use layers::Layers;
use std::alloc::{AllocError, AllocFailed, Global};
use thiserror::Error;

mod cut;
mod digits;
mod draft;
mod layers;
mod line;

/// How the chip is reached (docs/RULES.md, section 11).
#[derive(Clone, Copy, Debug, PartialEq, Eq)]
pub enum Make {
    /// Over I2C, at this address, any number of 16 bits: whether a target may have it is looked at
    /// when the bus is made.
    I2c(u16),
    /// Through a window of memory.
    Window,
}

/// Which chart a sheet's numbers are of (docs/RULES.md, sections 3 and 11).
#[derive(Clone, Copy, Debug, PartialEq, Eq)]
pub enum ChartName {
    /// The teat sensor head.
    Head,
    /// The valve block.
    Valve,
}

/// The calls of a sheet in order, by what they are performed on (docs/RULES.md, section 11).
#[derive(Debug, PartialEq, Eq, Drop)]
pub enum Calls {
    /// The bus alone.
    Bus(Vec<Call>),
    /// Paging over the bus, with these layers on it.
    Pile {
        /// The layers, from the bottom up.
        layers: Layers,
        /// What is to be called on the pile.
        calls: Vec<PileCall>,
    },
}

impl Calls {
    fn is_empty(&self) -> bool
        ensures { result ≡ no_calls (job_of self.now) }
    {
        match self {
            Calls::Bus(calls) => calls.is_empty(),
            Calls::Pile { calls, .. } => calls.is_empty(),
        }
    }
}

/// What is wrong with a line, or with a sheet that ends before it; each prints as its text
/// (docs/RULES.md, section 11).
#[derive(Clone, Copy, Debug, PartialEq, Eq, Error)]
pub enum Mistake {
    #[error("unknown statement")]
    UnknownStatement,
    #[error("wrong number of words")]
    WordCount,
    #[error("not a number from 0 to 65535")]
    NotANumber,
    #[error("a mark above 255")]
    NotAMark,
    #[error("unknown make of bus")]
    UnknownBus,
    #[error("unknown chart")]
    UnknownChart,
    #[error("a pile that does not begin with paging")]
    UnknownPile,
    #[error("unknown layer")]
    UnknownLayer,
    #[error("a second bus line")]
    SecondBus,
    #[error("a second chart line")]
    SecondChart,
    #[error("a second pile line")]
    SecondPile,
    #[error("an opening line after the first call")]
    LateOpening,
    #[error("no bus line before this")]
    NoBus,
    #[error("no pile line before this")]
    NoPile,
    #[error("a call on the bus under a pile")]
    UnderPile,
    #[error("marks together with a window")]
    MarksOnWindow,
    #[error("a second suspend before a resume")]
    SecondSuspend,
    #[error("no suspend before this")]
    NoSuspend,
    #[error("a suspend that no resume ends")]
    NoResume,
}

/// What a sheet asks for (docs/RULES.md, section 11).
#[derive(Debug, PartialEq, Eq, Drop)]
pub struct Sheet {
    /// The bus that is to be made.
    pub make: Make,
    /// Its chart; the head's where the sheet names none.
    pub chart: ChartName,
    /// The line list, of all `marks` lines together.
    pub marks: Vec<u8>,
    /// What is to be called.
    pub calls: Calls,
}

/// Why a sheet is not taken: there is no memory, or its first mistake with the line, counted from
/// 1, that it is told of (docs/RULES.md, section 11).
#[derive(Debug, PartialEq, Eq, Drop, Error)]
pub enum SheetError {
    /// There is no memory for what the sheet says.
    #[error("out of memory")]
    Memory,
    /// The first mistake, and the line that it is told of.
    #[error("line {line}: {mistake}")]
    Wrong { line: usize, mistake: Mistake },
}

// Why a line is not taken: it is wrong, or there is no memory for it. Its `From` is by hand, since
// a derived one does not say which variant `?` makes.
#[derive(Drop)]
enum LineError {
    Memory,
    Wrong(Mistake),
}

impl From<Mistake> for LineError {
    ghost from_gives = { λ m r. r ≡ Wrong m };

    fn from(m: Mistake) -> LineError {
        LineError::Wrong(m)
    }
}

impl From<AllocError> for LineError {
    ghost from_gives = { λ _ r. r ≡ Memory };

    fn from(_e: AllocError) -> LineError {
        LineError::Memory
    }
}

impl<T: Drop> From<AllocFailed<T>> for LineError {
    ghost from_gives = { λ _ r. r ≡ Memory };

    fn from(_e: AllocFailed<T>) -> LineError {
        LineError::Memory
    }
}

impl LineError {
    fn at(self, line: usize) -> SheetError
        ensures { result ≡ at_line line self }
    {
        match self {
            LineError::Memory => SheetError::Memory,
            LineError::Wrong(mistake) => SheetError::Wrong { line, mistake },
        }
    }
}

/// Reads a sheet line by line, up to its first mistake, which it tells by its line. A mistake of
/// the sheet as a whole is told at the line after its last. Nothing is performed
/// (docs/RULES.md, section 11).
#[tactic(auto, using(crate::proofs::Cutting::few_lines))]
pub fn read(heap: Global, text: &[u8]) -> Result<Sheet, SheetError>
    ensures { Reads result (sheet_of text.now) }
{
    let mut draft = Draft::new(heap);
    for (i, line) in Lines(text).enumerate() {
        draft.line(line).map_err(|error| error.at(i + 1))?;
    }
    // What the sheet lacks as a whole is told of the line after its last.
    draft.finish(Lines(text).count() + 1)
}
