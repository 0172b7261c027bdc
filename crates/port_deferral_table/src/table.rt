// The updates that wait, ascending by register, one for each.
ghost use Rattle.std.specs.Prelude.{◌≡◌, ◌≤◌, ◌↔◌, true, [], drop, length, ◌==◌};
ghost use Rattle.port_deferral_table.specs.Entries.{IsTable, waiting_patch, takes, FindsPlace};
ghost use Rattle.port_deferral_table.specs.Entries.{enter};
ghost use Rattle.port_deferral_table.specs.Entries.{Enters, bursts, first_burst, AreBursts};
ghost use Rattle.port_deferral_table.specs.Places.{first_patch, links};

use crate::entry::Entry;
use crate::slots::{MOST_ENTRIES, Slots};
use arrayvec::ArrayVec;
use patch::Patch;
use std::marker::Model;

// What waits for a register among entries.
#[tactic(auto, unfolding(crate::specs::Places::first_patch))]
fn patch_of(entries: &[Entry], register: u16) -> Option<Patch>
    ensures { result ≡ first_patch register entries.now }
{
    entries
        .iter()
        .find(|entry| entry.register == register)
        .map(|entry| entry.patch)
}

// How many entries lead to the one behind them, up to one that does not.
fn links(entries: &[Entry], behind: &[Entry]) -> usize
    ensures value { result ≡ links entries.now behind.now }
    ensures within { result ≤ length behind.now }
{
    entries
        .iter()
        .zip(behind)
        .take_while(|(entry, next)| entry.leads_to(next))
        .count()
}

// How many entries at the head go as one burst.
#[tactic(auto, using(crate::proofs::Cutting::length_first, crate::proofs::Cutting::length_none))]
fn burst_len(entries: &[Entry]) -> usize
    ensures { result ≡ length (first_burst entries.now) }
{
    match entries.split_first() {
        Some((_, behind)) => links(entries, behind) + 1,
        None => 0,
    }
}

/// The updates that wait (docs/RULES.md, section 16): at most 16 entries, one for a register,
/// ascending by register; none has mask 0, and none a bit outside its mask.
#[derive(Debug, Drop)]
pub struct Table {
    slots: Slots,
}

impl Model for Table {
    ghost use Rattle.std.specs.Prelude.{List};
    ghost use Rattle.port_deferral_table.specs.Entries.{IsTable};
    ghost use Rattle.port_deferral_table.specs.declared.entry.Entry.{Entry};

    ghost Value = { List Entry };

    ghost view = { λ t. t.slots.entries.items };

    ghost invariant = { λ t. IsTable t.slots.entries.items };
}

impl Table {
    /// A table in which nothing waits. Never refused (docs/RULES.md, section 16).
    pub fn new() -> Table
        ensures { result ≡ [] }
    {
        Table {
            slots: Slots {
                entries: ArrayVec::new(),
            },
        }
    }

    /// Whether nothing waits (docs/RULES.md, section 16).
    pub fn is_empty(&self) -> bool
        ensures { result ≡ (length self.now == 0) }
    {
        self.slots.entries.is_empty()
    }

    /// What waits for a register, any number, if something does (docs/RULES.md, section 16).
    #[tactic(auto, using(crate::proofs::Inserting::found_is))]
    pub fn find(&self, register: u16) -> Option<Patch>
        ensures { result ≡ waiting_patch register self.now }
    {
        patch_of(&self.slots.entries, register)
    }

    /// Whether an update, of any register and with any patch, finds a place: its mask is 0, or its
    /// register has an entry, or fewer than 16 wait (docs/RULES.md, section 16).
    pub fn takes(&self, register: u16, patch: Patch) -> bool
        ensures value { result ≡ takes register patch self.now }
        ensures law { (result ≡ true) ↔ FindsPlace register patch self.now }
    {
        patch.is_idle() || self.find(register).is_some() || self.slots.entries.len() < MOST_ENTRIES
    }

    /// An update waits from now on, joined to what waits for its register. One whose mask is 0, or
    /// that finds no place, leaves the table as it is (docs/RULES.md, section 16).
    #[tactic(auto, using(crate::proofs::Placing::entering))]
    pub fn enter(&mut self, register: u16, patch: Patch)
        ensures value { self.new ≡ enter register patch self.old }
        ensures law { takes register patch self.old ≡ true
            → Enters register patch self.old self.new }
        ensures table { IsTable self.new }
    {
        if self.takes(register, patch) && !patch.is_idle() {
            self.slots.place(register, patch);
        }
    }

    /// The entries that go first, as one burst: from the lowest register up, as many as follow each
    /// other; at most 16, and none where nothing waits (docs/RULES.md, section 16).
    #[tactic(auto, using(crate::proofs::Cutting::cutting))]
    pub fn burst(&self) -> &[Entry]
        ensures value { result.now ≡ first_burst self.now }
        ensures law { AreBursts self.now (bursts self.now) }
        ensures few { length result.now ≤ 16 }
    {
        &self.slots.entries[..burst_len(&self.slots.entries)]
    }

    /// So many of the first entries leave, or all where there are fewer: those of a burst that was
    /// accepted. Never refused (docs/RULES.md, section 16).
    #[tactic(auto, using(crate::proofs::Placing::entries_rest, crate::proofs::Placing::few_rest))]
    pub fn leave(&mut self, count: usize)
        ensures { self.new ≡ drop count self.old }
    {
        self.slots
            .entries
            .drain(..count.min(self.slots.entries.len()));
    }

    /// All entries leave. Never refused (docs/RULES.md, section 16).
    pub fn clear(&mut self)
        ensures { self.new ≡ [] }
    {
        self.slots.entries.clear();
    }
}
