#![tactic(auto)]

/// The words of a chip, as they lie in memory (docs/RULES.md, section 6).
pub mod memory;
