//! What is told under the frames of a call.
ghost use Rattle.std.specs.Prelude.{◌≡◌, ℕ, List, [], Some};
ghost use Rattle.std.proofs.Common.{refl};
ghost use Rattle.refusal.specs.Replies.{Reply};
ghost use Rattle.bench_run.specs.Performed.{answer_reply};
ghost use Rattle.bench_text.specs.Noting.{nothing_next, nothing_text};

use bench_run::Answer;
use refusal::Tells;
use std::fmt;

/// What is known of the calls so far, and printed under the last of them
/// (docs/RULES.md, section 12).
pub trait Notes<C, F: Tells + Copy>: fmt::Display + Copy {
    ghost State: { Type 0 };

    ghost state: { Self → State };

    ghost next: { State → C → Reply → State };

    /// What is printed.
    ghost told: { State → List ℕ };

    /// After one more call, by what it answered. Never refused (docs/RULES.md, section 12).
    fn next(self, call: &C, answer: Answer<F>) -> Self
        ensures { state result ≡ next (state self) call.now (answer_reply F.Tells.values answer) };

    ghost prints: { (x : Self) → Self.output x ≡ Some (told (state x)) };
}

/// Nothing is told, as on a bus (docs/RULES.md, section 12).
#[derive(Clone, Copy, Debug)]
pub struct Nothing;

impl fmt::Display for Nothing {
    ghost output = { λ x. Some [] };

    fn fmt<W: fmt::Write>(&self, _f: &mut fmt::Formatter<W>) -> fmt::Result {
        Ok(())
    }
}

impl<C, F: Tells + Copy> Notes<C, F> for Nothing {
    ghost State = { Unit {0} };

    ghost state = { λ x. tt };

    ghost next = { nothing_next };

    ghost told = { nothing_text };

    ghost prints = { λ x. refl };

    fn next(self, _call: &C, _answer: Answer<F>) -> Nothing
        ensures { result ≡ self }
    {
        self
    }
}
