// What is answered where no bus was made.
use refusal::{Failure, Refusal};

/// No bus was made (docs/RULES.md, section 4).
#[derive(Drop)]
pub struct Unmade<T> {
    /// Why: 7 (address) or 8 (memory).
    pub refusal: Refusal<Failure>,
    /// What the bus was to be made of, as it was handed over.
    pub given: T,
}
