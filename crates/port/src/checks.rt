// What a call on a port is refused for before anything is sent, in the order in which refusals win.
ghost use Rattle.std.specs.Prelude.{◌≡◌, ◌-◌, ◌||◌};
ghost use Rattle.refusal.specs.Replies.{fault_values};
ghost use Rattle.bus.specs.Checks.{check_reply};
ghost use Rattle.port.specs.Checks.{read_check, update_check, run_check, worse, worst};

use bus::{check_awake, check_length};
use chart::{Chart, Class};
use refusal::{Fault, Refusal};
use std::ops::Range;

/// What a port can reach now (docs/RULES.md, section 13).
#[derive(Debug, Clone, Copy, PartialEq, Eq)]
pub struct Access {
    /// Whether the port knows its settings by itself.
    pub keeps: bool,
    /// Whether the supply is on.
    pub supply: bool,
}

impl Access {
    /// What a read is refused for before anything is sent, by the class of its register: by 2
    /// (register) an absent one, and by 5 (asleep) a setting that is not at hand, and a live
    /// register with the supply off. A setting is at hand where the port keeps or the supply is on;
    /// a live register is the chip's alone (docs/RULES.md, section 13).
    pub fn check_read(self, class: Class) -> Result<(), Refusal<Fault>>
        ensures { check_reply fault_values result ≡ read_check self.keeps class self.supply }
    {
        match class {
            Class::Absent => Err(Refusal::Register),
            Class::Setting => check_awake(self.keeps || self.supply),
            Class::Live => check_awake(self.supply),
        }
    }

    /// What an update is refused for before anything is sent, by the class of its register: by 2
    /// (register) an absent one, by 3 (live) a live one, and by 5 (asleep) a setting that is not at
    /// hand (docs/RULES.md, section 13).
    pub fn check_update(self, class: Class) -> Result<(), Refusal<Fault>>
        ensures { check_reply fault_values result ≡ update_check self.keeps class self.supply }
    {
        match class {
            Class::Absent => Err(Refusal::Register),
            Class::Setting => check_awake(self.keeps || self.supply),
            Class::Live => Err(Refusal::Live),
        }
    }

    /// What a run of `count` words is refused for before anything is sent: by 1 (length) any number
    /// but 1 to 16, and else as an update of its worst register, where an absent one is worse than
    /// a live one and that worse than a setting (docs/RULES.md, section 13).
    pub fn check_run<C: Chart>(self, first: u16, count: usize) -> Result<(), Refusal<Fault>>
        ensures { check_reply fault_values result
            ≡ run_check self.keeps C.Chart.classed first count self.supply }
    {
        check_length(count)?;
        let first = usize::from(first);
        self.check_update(worst_class::<C>(first..first + count))
    }
}

// What no 16-bit number can be is absent.
fn class_of<C: Chart>(register: usize) -> Class
    ensures { result ≡ C.Chart.classed register }
{
    // A closure, since `C::class` alone, a method of a bound, is not yet covered as an argument.
    u16::try_from(register).map_or(Class::Absent, |register| C::class(register))
}

// Of two classes the one whose refusal wins.
fn worse_of(a: Class, b: Class) -> Class
    ensures { result ≡ worse a b }
{
    match (a, b) {
        (Class::Absent, _) | (_, Class::Absent) => Class::Absent,
        (Class::Live, _) | (_, Class::Live) => Class::Live,
        (Class::Setting, Class::Setting) => Class::Setting,
    }
}

fn worst_class<C: Chart>(registers: Range<usize>) -> Class
    ensures { result ≡ worst C.Chart.classed registers.start (registers.end - registers.start) }
{
    // A closure, since `class_of::<C>` alone, a function over a bound, is not yet covered as an
    // argument.
    registers
        .map(|register| class_of::<C>(register))
        .fold(Class::Setting, worse_of)
}
