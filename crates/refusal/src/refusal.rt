// How a call says no: eight refusals, each with its number.
ghost use Rattle.std.specs.Prelude.{◌≡◌, ℕ, List, [], Some};
ghost use Rattle.refusal.specs.Replies.{reply_of, cause_number, errand_number, failure_values};
ghost use Rattle.refusal.specs.Replies.{fault_values};
ghost use Rattle.refusal.specs.Names.{refusal_name, failure_text, refusal_text};
ghost use Rattle.std.proofs.Common.{refl};

use std::fmt;

/// What a failed transfer tells: as numbers, which are the values of its refusal, and in text,
/// which is what `Display` prints (docs/RULES.md, sections 4 and 12).
pub trait Tells: fmt::Display {
    ghost values: { Self → List ℕ };

    ghost prints: { (f : Self) → Self.output f ≡ Some (failure_text (values f)) };
}

/// Why a call was not done, the first reason by number where several fit. `F` is what a failed
/// transfer tells: on a bus a `Failure`, on a port a `Fault` (docs/RULES.md, section 4).
#[derive(Debug, Clone, Copy, PartialEq, Eq)]
pub enum Refusal<F> {
    /// 1: any number of words but 1 to 16, in a burst or a run.
    Length,
    /// 2: no register has this number, or a raw address, or the end of a burst, lies above 63.
    Register,
    /// 3: a live register where a setting is written.
    Live,
    /// 4: a setting where the chip would measure.
    Setting,
    /// 5: the supply is off.
    Asleep,
    /// 6: a transfer failed.
    Line(F),
    /// 7: an I2C address outside 8 to 127.
    Address,
    /// 8: window memory that has not exactly 129 words.
    Memory,
}

impl<F> Refusal<F> {
    /// Its number, from 1 to 8 (docs/RULES.md, section 4).
    // A `match`, since an enum with a value in a variant has no numbers of its own.
    pub fn number(&self) -> u8
        ensures { result ≡ (reply_of (λ _. []) self.now).number }
    {
        match self {
            Refusal::Length => 1,
            Refusal::Register => 2,
            Refusal::Live => 3,
            Refusal::Setting => 4,
            Refusal::Asleep => 5,
            Refusal::Line(_) => 6,
            Refusal::Address => 7,
            Refusal::Memory => 8,
        }
    }

    /// Its name, one word (docs/RULES.md, section 4).
    pub fn name(&self) -> &'static str
        ensures { result.now ≡ refusal_name (reply_of (λ _. []) self.now).number }
    {
        match self {
            Refusal::Length => "length",
            Refusal::Register => "register",
            Refusal::Live => "live",
            Refusal::Setting => "setting",
            Refusal::Asleep => "asleep",
            Refusal::Line(_) => "line",
            Refusal::Address => "address",
            Refusal::Memory => "memory",
        }
    }
}

/// Prints a refusal by its number and its name, and then what a failed transfer tells
/// (docs/RULES.md, section 12).
impl<F: Tells> fmt::Display for Refusal<F> {
    ghost output = { λ e. Some (refusal_text (reply_of F.Tells.values e)) };

    fn fmt<W: fmt::Write>(&self, f: &mut fmt::Formatter<W>) -> fmt::Result {
        let number = self.number();
        let name = self.name();
        match self {
            Refusal::Line(told) => write!(f, "refused {number} {name}, {told}"),
            _ => write!(f, "refused {number} {name}"),
        }
    }
}

/// Why a transfer failed: which kind of byte was not acknowledged (docs/RULES.md, section 8).
#[derive(Debug, Clone, Copy, PartialEq, Eq)]
pub enum Cause {
    /// An address byte: the first of a put or a get, or the third of a get.
    Address = 1,
    /// Any other byte.
    Data = 2,
}

impl Cause {
    /// The number that it is told with, 1 or 2 (docs/RULES.md, section 8).
    pub fn number(self) -> u8
        ensures { result ≡ cause_number self }
    {
        self as u8
    }
}

/// What a failed transfer on a bus tells (docs/RULES.md, sections 4 and 7).
#[derive(Debug, Clone, Copy, PartialEq, Eq)]
pub struct Failure {
    /// Why it failed.
    pub cause: Cause,
    /// How many words of a put the chip took before; 0 of a get.
    pub stored: u8,
}

impl Tells for Failure {
    ghost values = { failure_values };

    ghost prints = { λ f. refl };
}

/// Prints the cause and the number of words that were stored (docs/RULES.md, section 12).
impl fmt::Display for Failure {
    ghost output = { λ x. Some (failure_text (failure_values x)) };

    fn fmt<W: fmt::Write>(&self, f: &mut fmt::Formatter<W>) -> fmt::Result {
        let cause = self.cause.number();
        let stored = self.stored;
        write!(f, "cause {cause}, stored {stored}")
    }
}

/// On whose behalf a port was sending when a transfer failed (docs/RULES.md, section 13).
#[derive(Debug, Clone, Copy, PartialEq, Eq)]
pub enum Errand {
    /// What the call asked for.
    Asked = 0,
    /// What a port owed from before.
    Owed = 1,
}

impl Errand {
    /// The number that it is told with, 0 or 1 (docs/RULES.md, section 13).
    pub fn number(self) -> u8
        ensures { result ≡ errand_number self }
    {
        self as u8
    }
}

/// What a failed transfer on a port tells (docs/RULES.md, sections 4 and 13).
#[derive(Debug, Clone, Copy, PartialEq, Eq)]
pub struct Fault {
    /// Why it failed.
    pub cause: Cause,
    /// The register that it did not reach, by its chart number.
    pub register: u16,
    /// On whose behalf it was sent.
    pub errand: Errand,
}

impl Tells for Fault {
    ghost values = { fault_values };

    ghost prints = { λ f. refl };
}

/// Prints the cause, the register and the errand (docs/RULES.md, section 12).
impl fmt::Display for Fault {
    ghost output = { λ x. Some (failure_text (fault_values x)) };

    fn fmt<W: fmt::Write>(&self, f: &mut fmt::Formatter<W>) -> fmt::Result {
        let cause = self.cause.number();
        let register = self.register;
        let errand = self.errand.number();
        write!(f, "cause {cause}, register {register}, errand {errand}")
    }
}
