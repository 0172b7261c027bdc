// The entries of a table as they lie, whatever is in them: it lends one.
ghost use Rattle.std.specs.Prelude.{◌≡◌, ◌<◌, ◌≤◌, ◌↔◌, IsSome, IfSome, length, slice_index_or};
ghost use Rattle.std.specs.Borrow.{sem};
ghost use Rattle.port_deferral_table.specs.Entries.{entries_with};
ghost use Rattle.port_deferral_table.specs.Places.{place};
ghost use Rattle.port_deferral_table.specs.Lending.{LendsEntry};

use crate::entry::Entry;
use arrayvec::ArrayVec;
use patch::Patch;

/// The most entries of a table, and so of a burst: as many words as a run may have
/// (docs/RULES.md, sections 13 and 16).
pub const MOST_ENTRIES: usize = 16;

/// The entries of a table, ascending by register, one for each (docs/RULES.md, section 16).
#[derive(Debug, Drop)]
pub struct Slots {
    /// As they lie: `Table` sees to their order.
    pub entries: ArrayVec<Entry, MOST_ENTRIES>,
}

// How many entries lie before the place of a register.
fn place_of(entries: &[Entry], register: u16) -> usize
    ensures value { result ≡ place register entries.now }
    ensures within { result ≤ length entries.now }
{
    entries
        .iter()
        .take_while(|entry| entry.register < register)
        .count()
}

impl Slots {
    /// Lends the entry at an index, from 0 on, so that it is changed where it lies. There is none
    /// at an index from the count of entries on (docs/RULES.md, section 16).
    pub fn entry(&mut self, at: usize) -> Option<&mut Entry>
        ensures* writes_back { sem 𝓛 (LendsEntry self.entry at result) }
        ensures variant { IsSome result ↔ (at < length self.old.entries.items) }
        ensures value { IfSome result (λ e.
            e.now ≡ slice_index_or self.old.entries.items at e.now) }
    {
        self.entries.get_mut(at)
    }

    // An update is joined to the entry of its register, which is changed where it lies, or is
    // inserted in its order.
    #[tactic(auto, using(crate::proofs::Inserting::placing))]
    pub(crate) fn place(&mut self, register: u16, patch: Patch)
        requires { length (entries_with register patch self.old.entries.items) ≤ 16 }
        ensures { self.new.entries.items ≡ entries_with register patch self.old.entries.items }
    {
        let at = place_of(&self.entries, register);
        match self.entry(at) {
            Some(entry) if entry.register == register => entry.join(patch),
            Some(_) => self.entries.insert(at, Entry::new(register, patch)),
            None => self.entries.push(Entry::new(register, patch)),
        }
    }
}
