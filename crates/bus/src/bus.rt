// A bus reaches one chip by raw addresses.
ghost use Rattle.std.specs.Prelude.{◌≡◌};
ghost use Rattle.refusal.specs.Replies.{bus_reply, word_value, no_value};
ghost use Rattle.bus.specs.Meaning.{BusMachine, BusMeaning};

use chart::Chart;
use refusal::{Failure, Refusal};
use trace::Event;

/// A bus to one chip, whose words it reaches by raw addresses from 0 to 63. Each call is what the
/// bus's machine says, on every input, and the machine has the meaning of a bus. Where several
/// refusals fit, the one with the smallest number is given. 1 to 5 are decided before anything is
/// sent, and change nothing; 6 raises the count of failed transfers by one
/// (docs/RULES.md, sections 4, 6 and 7).
pub trait Bus {
    /// The chart of its chip.
    type Chart: Chart;

    // what each call does, and what is known of the bus
    ghost machine: { BusMachine Self };

    /// The word at a raw address. Refuses by 2 (register) an address above 63, by 5 (asleep) with
    /// the supply off, and by 6 (line) if the transfer failed; nothing is stored in any case
    /// (docs/RULES.md, section 7).
    fn get(&mut self, raw: u16) -> Result<u16, Refusal<Failure>>
        ensures { (bus_reply word_value result, self.new) ≡ machine.get self.old raw };

    /// Stores words in order at this raw address and those after it, whatever the class of their
    /// registers. Refuses by 1 (length) any number of words but 1 to 16, by 2 (register) if one
    /// would lie above raw 63, by 5 (asleep) with the supply off, and by 6 (line) if the transfer
    /// failed: then the first words are stored, as many as are told, fewer than there are, and no
    /// others (docs/RULES.md, section 7).
    fn put(&mut self, raw: u16, words: &[u16]) -> Result<(), Refusal<Failure>>
        ensures { (bus_reply no_value result, self.new) ≡ machine.put self.old raw words.now };

    /// The chip measures: with the supply on the word goes into a live register, by its chart
    /// number; with the supply off nothing happens, and that is no refusal. Refuses by 2 (register)
    /// a number that names no register, and by 4 (setting) a setting (docs/RULES.md, section 7).
    fn measure(&mut self, register: u16, word: u16) -> Result<(), Refusal<Failure>>
        ensures { (bus_reply no_value result, self.new) ≡ machine.measure self.old register word };

    /// The supply goes: every word is its reset word then, the selector is 0. Never refused
    /// (docs/RULES.md, section 7).
    fn down(&mut self)
        ensures { self.new ≡ machine.down self.old };

    /// The supply comes, and the words stand. Never refused (docs/RULES.md, section 7).
    fn up(&mut self)
        ensures { self.new ≡ machine.up self.old };

    /// Whether the supply is on.
    fn supply(&self) -> bool
        ensures { result ≡ (machine.chip self.now).supply };

    /// How many transfers failed since the bus was made.
    fn failed(&self) -> u64
        ensures { result ≡ (machine.chip self.now).failed };

    /// The events that passed on the wire so far, in order, as far as there was room. A bus that
    /// has no wire has none (docs/RULES.md, section 10).
    // This and `lost` are methods apart, since such a bus has no `Trace` that could be lent for
    // both.
    fn events(&self) -> &[Event]
        ensures { result.now ≡ (machine.trace self.now).events };

    /// How many events found no room (docs/RULES.md, section 10).
    fn lost(&self) -> usize
        ensures { result ≡ (machine.trace self.now).lost };

    // what each `impl` must prove
    ghost meaning: { BusMeaning Self.Chart.Chart.classed Self.Chart.Chart.resets machine };
}
