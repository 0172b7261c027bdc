// A port offers a chip's registers by their chart numbers.
ghost use Rattle.std.specs.Prelude.{◌≡◌, Bool, None, length};
ghost use Rattle.refusal.specs.Replies.{port_reply, word_value, no_value};
ghost use Rattle.port.specs.Checks.{run_check};
ghost use Rattle.port.specs.OneByOne.{update_each, InOrder};
ghost use Rattle.port.specs.Meaning.{PortMachine, PortMeaning, supply};

use crate::checks::Access;
use bus::Bus;
use chart::Chart;
use patch::Patch;
use refusal::{Fault, Refusal};

/// The registers of a chip by their chart numbers, over a bus or over another port. Each call is
/// what the port's machine says, on every input, and the machine has the meaning of a port. Where
/// several refusals fit, the one with the smallest number is given. 1 to 5 are decided before
/// anything is sent, and change nothing; 6 raises the count of failed transfers by one, and live
/// words and the supply stand (docs/RULES.md, sections 4 and 13).
pub trait Port {
    /// The chart of the chip, taken from below (docs/RULES.md, section 13).
    type Chart: Chart;

    /// The bus at the bottom (docs/RULES.md, section 13).
    type Bus: Bus<Chart = Self::Chart>;

    /// Whether it keeps: knows its settings by itself, so that they outlive the supply
    /// (docs/RULES.md, section 13).
    const KEEPS: bool;

    ghost KEEPS: { Bool };

    // what each call does, and what is known of the port
    ghost machine: { PortMachine Self };

    /// The bus at the bottom, for looking (docs/RULES.md, section 13).
    fn bus(&self) -> &Self::Bus
        ensures chip { Self.Bus.Bus.machine.chip result.now ≡ machine.chip self.now }
        ensures trace { Self.Bus.Bus.machine.trace result.now ≡ machine.trace self.now };

    /// Whether the supply is on (docs/RULES.md, section 13).
    fn supply(&self) -> bool
        ensures { result ≡ supply machine self.now };

    /// What it can reach now, by which its calls are checked: whether it keeps, and whether the
    /// supply is on (docs/RULES.md, section 13).
    fn access(&self) -> Access
        ensures keeps { result.keeps ≡ KEEPS }
        ensures supply { result.supply ≡ supply machine self.now }
    {
        Access {
            keeps: Self::KEEPS,
            supply: self.supply(),
        }
    }

    /// A setting as it is shown; or a live word as the chip has it, and by then the chip has every
    /// setting as it is shown too. Refuses by 2 (register) a number that names no register, by 5
    /// (asleep) with the supply off a live register, and a setting too on a port that forgets its
    /// settings, and by 6 (line) if a transfer failed. The settings are shown as before in any case
    /// (docs/RULES.md, section 13).
    fn read(&mut self, register: u16) -> Result<u16, Refusal<Fault>>
        ensures { (port_reply word_value result, self.new) ≡ machine.read self.old register };

    /// Changes a setting under a mask. Refuses by 2 (register) a number that names no register, by
    /// 3 (live) a live register, by 5 (asleep) with the supply off on a port that forgets them,
    /// and by 6 (line) if a transfer failed; the settings are then shown as before
    /// (docs/RULES.md, sections 5 and 13).
    fn update(&mut self, register: u16, patch: Patch) -> Result<(), Refusal<Fault>>
        ensures { (port_reply no_value result, self.new) ≡ machine.update self.old register patch };

    /// Sets `first` and the settings after it each to its own word: for a port that stands on this
    /// one. Refuses by 1 (length) any number of words but 1 to 16, by 2 (register) if one of the
    /// numbers names no register, by 3 (live) if one is live, and by 5 (asleep) and 6 (line) as an
    /// update; refused by 6, each of them is shown as before or as given, and every other setting
    /// as before (docs/RULES.md, section 13).
    fn run(&mut self, first: u16, words: &[u16]) -> Result<(), Refusal<Fault>>
        ensures { (port_reply no_value result, self.new) ≡ machine.run self.old first words.now };

    /// A run by updates, for a port that has no shorter way to take one. Refuses by 1, 2, 3 and 5
    /// as a run, before the first word; then each word is an update under a full mask, up to the
    /// first that is refused, whose refusal it answers (docs/RULES.md, section 13).
    fn update_each(&mut self, first: u16, words: &[u16]) -> Result<(), Refusal<Fault>>
        ensures value { let class = Self.Chart.Chart.classed in
            (port_reply no_value result, self.new)
            ≡ update_each KEEPS class (supply machine) machine.update self.old first words.now }
        ensures order { let class = Self.Chart.Chart.classed in
            run_check KEEPS class first (length words.now) (supply machine self.old) ≡ None
            → let reply = port_reply no_value result in
            InOrder machine.update first words.now self.old reply self.new }
    {
        self.access().check_run::<Self::Chart>(first, words.len())?;
        for (register, word) in (first..).zip(words) {
            self.update(register, Patch::setting_to(*word))?;
        }
        Ok(())
    }

    /// Sends what the chip has not got yet, so that it then has every setting as it is shown.
    /// Refuses by 5 (asleep) with the supply off, and by 6 (line) if a transfer failed. The
    /// settings are shown as before in any case (docs/RULES.md, section 13).
    fn sync(&mut self) -> Result<(), Refusal<Fault>>
        ensures { (port_reply no_value result, self.new) ≡ machine.sync self.old };

    /// The chip measures: with the supply on the word goes into a live register, and nowhere else;
    /// with the supply off nothing happens, and that is no refusal. Refuses by 2 (register) a
    /// number that names no register, and by 4 (setting) a setting
    /// (docs/RULES.md, sections 7 and 13).
    fn measure(&mut self, register: u16, word: u16) -> Result<(), Refusal<Fault>>
        ensures { (port_reply no_value result, self.new) ≡ machine.measure self.old register word };

    /// The supply goes, and the chip forgets all; a port that forgets them then shows reset words.
    /// Never refused (docs/RULES.md, section 13).
    fn down(&mut self)
        ensures { self.new ≡ machine.down self.old };

    /// The supply comes, and every word stands. Never refused (docs/RULES.md, section 13).
    fn up(&mut self)
        ensures { self.new ≡ machine.up self.old };

    // what each `impl` must prove
    ghost meaning: { PortMeaning KEEPS Self.Chart.Chart.classed Self.Chart.Chart.resets machine };
}
