// The calls that a sheet can ask for, and how it writes them.
#![tactic(auto)]

ghost use Rattle.std.specs.Prelude.{ℕ, List, ◌≡◌, Some};
ghost use Rattle.std.proofs.Common.{refl};
ghost use Rattle.bench_call.specs.Asked.{asked};
ghost use Rattle.bench_call.specs.Texts.{word_text, call_text, port_call_text, pile_call_text};

use std::fmt;

/// What always prints one text, which clauses can name: a call, as a sheet writes it
/// (docs/RULES.md, section 12).
pub trait Prints: fmt::Display {
    ghost text: { Self → List ℕ };

    ghost prints: { (x : Self) → Self.output x ≡ Some (text x) };
}

/// A call on a bus, as a sheet asks for it, of numbers and words of 16 bits, also such as the bus
/// will refuse (docs/RULES.md, sections 7 and 11).
// Clauses see it through `asked`, since an enum cannot have a model yet.
#[derive(Debug, PartialEq, Eq, Drop)]
pub enum Call {
    /// `get` of the word at a raw address.
    Get { raw: u16 },
    /// `put` of words from a raw address on.
    Put { raw: u16, words: Vec<u16> },
    /// `measure` of a word, into a register by its chart number.
    Measure { register: u16, word: u16 },
    /// The supply goes.
    Down,
    /// The supply comes.
    Up,
}

/// A call on the port on top of a pile, as a sheet asks for it, also such as the port will refuse
/// (docs/RULES.md, sections 11 and 13).
#[derive(Clone, Copy, Debug, PartialEq, Eq)]
pub enum PortCall {
    /// `read` of a register by its chart number.
    Read { register: u16 },
    /// `update` of a register under a mask.
    Update { register: u16, mask: u16, bits: u16 },
    /// `sync`: the chip gets every setting as it is shown.
    Sync,
    /// `measure` of a word, into a register by its chart number.
    Measure { register: u16, word: u16 },
    /// The supply goes.
    Down,
    /// The supply comes.
    Up,
}

/// A call on a pile, as a sheet asks for it: one of those of its port, or the beginning or the end
/// of a rest (docs/RULES.md, sections 11 and 18).
#[derive(Clone, Copy, Debug, PartialEq, Eq)]
pub enum PileCall {
    /// A call on its port.
    Port(PortCall),
    /// A rest begins: the supply goes, for a ticket.
    Suspend,
    /// The rest ends: the supply comes, and then a sync, for that ticket.
    Resume,
}

/// A layer of a pile: a port that stands on another port (docs/RULES.md, sections 15 and 16).
#[derive(Clone, Copy, Debug, PartialEq, Eq)]
pub enum LayerKind {
    /// It holds the settings itself, so that they outlive the supply.
    Keeper,
    /// It lets updates wait, and sends them in bursts.
    Deferral,
}

/// A register's word, which prints as `0x` and four digits in upper case
/// (docs/RULES.md, section 12).
#[derive(Clone, Copy, Debug, PartialEq, Eq)]
pub struct Word(pub u16);

impl fmt::Display for Word {
    ghost output = { λ w. Some (word_text w.0) };

    #[tactic(auto, using(crate::proofs::Hexing::word_written))]
    fn fmt<W: fmt::Write>(&self, f: &mut fmt::Formatter<W>) -> fmt::Result {
        let word = self.0;
        write!(f, "0x{word:04X}")
    }
}

/// Prints the call as a sheet writes it, each word after its blank (docs/RULES.md, section 12).
impl fmt::Display for Call {
    ghost output = { λ c. Some (call_text (asked c)) };

    #[tactic(auto, using(std::proofs::lemmas::Grind::common_steps))]
    fn fmt<W: fmt::Write>(&self, f: &mut fmt::Formatter<W>) -> fmt::Result {
        match self {
            Call::Get { raw } => write!(f, "get {raw}"),
            Call::Put { raw, words } => {
                write!(f, "put {raw}")?;
                for word in words {
                    let word = Word(*word);
                    write!(f, " {word}")?;
                }
                Ok(())
            }
            Call::Measure { register, word } => {
                let word = Word(*word);
                write!(f, "measure {register} {word}")
            }
            Call::Down => write!(f, "down"),
            Call::Up => write!(f, "up"),
        }
    }
}

impl Prints for Call {
    ghost text = { λ c. call_text (asked c) };

    ghost prints = { λ c. refl };
}

/// Prints the call as a sheet writes it; mask and bits as words are (docs/RULES.md, section 12).
impl fmt::Display for PortCall {
    ghost output = { λ c. Some (port_call_text c) };

    #[tactic(auto, using(std::proofs::lemmas::Grind::common_steps))]
    fn fmt<W: fmt::Write>(&self, f: &mut fmt::Formatter<W>) -> fmt::Result {
        match *self {
            PortCall::Read { register } => write!(f, "read {register}"),
            PortCall::Update {
                register,
                mask,
                bits,
            } => {
                let mask = Word(mask);
                let bits = Word(bits);
                write!(f, "update {register} {mask} {bits}")
            }
            PortCall::Sync => write!(f, "sync"),
            PortCall::Measure { register, word } => {
                let word = Word(word);
                write!(f, "measure {register} {word}")
            }
            PortCall::Down => write!(f, "down"),
            PortCall::Up => write!(f, "up"),
        }
    }
}

impl Prints for PortCall {
    ghost text = { port_call_text };

    ghost prints = { λ c. refl };
}

/// Prints the call as a sheet writes it (docs/RULES.md, section 12).
impl fmt::Display for PileCall {
    ghost output = { λ c. Some (pile_call_text c) };

    fn fmt<W: fmt::Write>(&self, f: &mut fmt::Formatter<W>) -> fmt::Result {
        match *self {
            PileCall::Port(call) => write!(f, "{call}"),
            PileCall::Suspend => write!(f, "suspend"),
            PileCall::Resume => write!(f, "resume"),
        }
    }
}

impl Prints for PileCall {
    ghost text = { pile_call_text };

    ghost prints = { λ c. refl };
}
