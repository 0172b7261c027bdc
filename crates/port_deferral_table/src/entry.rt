// One update that waits.
ghost use Rattle.std.specs.Prelude.{◌≡◌, ◌↔◌, true};
ghost use Rattle.port_deferral_table.specs.Entries.{entry_of, joined_entry, leads_to, Follows};

use patch::Patch;

/// A register by its number, and what its word below is still to become (docs/RULES.md,
/// section 16). By default it changes nothing of register 0; a table never holds such an entry.
#[derive(Debug, Default, Clone, Copy, PartialEq, Eq)]
pub struct Entry {
    /// The register, by its chart number.
    pub register: u16,
    /// The mask and the bits that wait for it.
    pub patch: Patch,
}

impl Entry {
    /// An update of a register, any number and any patch, as it is kept: the bits outside the mask
    /// count for nothing, and are 0 in it. Never refused (docs/RULES.md, section 16).
    pub fn new(register: u16, patch: Patch) -> Entry
        ensures { result ≡ entry_of register patch }
    {
        Entry {
            register,
            patch: Patch {
                mask: patch.mask,
                bits: patch.bits & patch.mask,
            },
        }
    }

    /// Joins a later update of the same register to this one, with the later bits on top. Never
    /// refused (docs/RULES.md, sections 5 and 16).
    pub fn join(&mut self, later: Patch)
        ensures { self.new ≡ joined_entry self.old later }
    {
        self.patch = self.patch.join(later);
    }

    /// Whether the other entry can follow this one in a burst: both masks are full, and its
    /// register is the next number (docs/RULES.md, section 16).
    #[tactic(auto, using(crate::proofs::Cutting::leads))]
    pub fn leads_to(&self, next: &Entry) -> bool
        ensures value { result ≡ leads_to self.now next.now }
        ensures law { (result ≡ true) ↔ Follows self.now next.now }
    {
        self.patch.is_complete()
            && next.patch.is_complete()
            && u32::from(next.register) == u32::from(self.register) + 1
    }
}
