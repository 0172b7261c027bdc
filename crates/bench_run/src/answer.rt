// Performs the calls of a sheet, on a bus or on a pile.
ghost use Rattle.std.specs.Prelude.{◌≡◌, map, length, IfOk, MatchResult};
ghost use Rattle.refusal.specs.Replies.{Reply};
ghost use Rattle.trace.specs.Traces.{Traced};
ghost use Rattle.bench_run.specs.Performed.{answer_reply, seen_of, walk, AllPassedAtLast};

use refusal::{Refusal, Tells};
use std::alloc::{AllocError, Global};

/// What a call answered: a word, or nothing more than yes, or why not (docs/RULES.md, section 4).
pub type Answer<F> = Result<Option<u16>, Refusal<F>>;

/// A call that can be performed on an `S`: on a bus, on a port, or on a bench, which is a pile with
/// the ticket of its rest (docs/RULES.md, section 11).
pub trait CallOn<S> {
    /// What a failed transfer tells there.
    type Told: Tells;

    // what the call acts on: a bus or a port itself, and of a bench the port of its pile
    ghost Model: { Type 0 };

    ghost model: { S → Model };

    // what the call does there
    ghost effect: { Self → Model → Reply × Model };

    // what passed on the wire so far
    ghost trace: { Model → Traced };

    /// Makes the call, once. It is refused where the bus or the port refuses it, and leaves then
    /// what that refusal leaves.
    fn perform(&self, on: &mut S) -> Answer<Self::Told>
        ensures { (answer_reply Self.Told.Tells.values result, model on.new)
            ≡ effect self.now (model on.old) };

    /// How many events have passed on the wire, of those that the trace had room for.
    fn passed(on: &S) -> usize
        ensures { result ≡ length (trace (model on.now)).events };
}

/// What a call answered, and how many events had passed on the wire when it was over, of those that
/// the trace had room for.
// A count, since the bus that has the events is lent to be changed until the last call is done.
#[derive(Debug, Clone, Copy, PartialEq, Eq)]
pub struct Outcome<F> {
    pub answer: Answer<F>,
    pub passed: usize,
}

/// Performs calls in order, each on what the one before it left, also where that was refused
/// (docs/RULES.md, section 11). The places for their outcomes are reserved first: where there is no
/// memory for them it fails, and no call is performed.
pub fn perform_all<S, C: CallOn<S>>(
    heap: Global,
    on: &mut S,
    calls: &[C],
) -> Result<Vec<Outcome<C::Told>>, AllocError>
    ensures value { let old = C.model on.old in
        let new = C.model on.new in
        MatchResult result
        (λ v. (map (seen_of C.Told.Tells.values) v.items, new)
        ≡ walk C.effect C.trace calls.now old)
        (λ _. new ≡ old) }
    ensures passed { let seen = map (seen_of C.Told.Tells.values) in
        IfOk result (λ v. AllPassedAtLast (seen v.items) (C.trace (C.model on.new))) }
{
    let mut outcomes = Vec::with_capacity(heap, calls.len())?;
    for call in calls {
        let answer = call.perform(on);
        let passed = C::passed(on);
        outcomes.push_reserved(Outcome { answer, passed });
    }
    Ok(outcomes)
}
