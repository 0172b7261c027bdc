// A masked update of a 16-bit word: the bits under the mask are replaced, the others stand.
ghost use Rattle.std.specs.Prelude.{◌≡◌};
ghost use Rattle.patch.specs.Patch.{word_after, join_of, is_idle, is_complete, setting_to};
ghost use Rattle.patch.specs.Patch.{ActsByBits};
ghost use Rattle.patch.specs.Patch.{JoinsByBits, JoinActs, Idles, Completes, Sets};

/// A masked update: under the mask a word gets these bits, and its other bits stand. Bits outside
/// the mask count for nothing. The default changes nothing (docs/RULES.md, section 5).
#[derive(Debug, Default, Clone, Copy, PartialEq, Eq)]
pub struct Patch {
    /// Which bits are replaced.
    pub mask: u16,
    /// What they are replaced with.
    pub bits: u16,
}

impl Patch {
    /// The patch that makes every word this one (docs/RULES.md, section 5).
    #[tactic(auto, using(crate::proofs::Masked::sets))]
    pub fn setting_to(word: u16) -> Patch
        ensures value { result ≡ setting_to word }
        ensures law { Sets result word }
    {
        Patch {
            mask: u16::MAX,
            bits: word,
        }
    }

    /// What the word becomes (docs/RULES.md, section 5). Two patches that differ only in bits
    /// outside their mask act alike.
    #[tactic(auto, using(crate::proofs::Masked::acts_by_bits))]
    pub fn act(self, word: u16) -> u16
        ensures value { result ≡ word_after self word }
        ensures bits { ActsByBits self word result }
    {
        (word & !self.mask) | (self.bits & self.mask)
    }

    /// The one patch that does to every word what `self` and then `later` do: the later bits lie on
    /// top where both masks reach (docs/RULES.md, section 5).
    #[tactic(auto, using(crate::proofs::Masked::joins_by_bits, crate::proofs::Masked::join_acts))]
    pub fn join(self, later: Patch) -> Patch
        ensures value { result ≡ join_of self later }
        ensures bits { JoinsByBits self later result }
        ensures law { JoinActs self later result }
    {
        Patch {
            mask: self.mask | later.mask,
            bits: later.act(self.bits),
        }
    }

    /// Whether the mask is 0, so that it leaves every word as it is (docs/RULES.md, section 5).
    #[tactic(auto, using(crate::proofs::Masked::idles))]
    pub fn is_idle(self) -> bool
        ensures value { result ≡ is_idle self }
        ensures law { Idles self result }
    {
        self.mask == 0
    }

    /// Whether the mask is 0xFFFF, so that it makes the same word of every word, and the old one
    /// need not be known (docs/RULES.md, section 5).
    #[tactic(auto, using(crate::proofs::Masked::completes))]
    pub fn is_complete(self) -> bool
        ensures value { result ≡ is_complete self }
        ensures law { Completes self result }
    {
        self.mask == u16::MAX
    }
}
