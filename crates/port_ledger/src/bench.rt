// A run by the calls of a sheet: on a pile that may be put to rest between them.
ghost use Rattle.std.specs.Prelude.{◌≡◌, map, true, IfOk, MatchResult};
ghost use Rattle.refusal.specs.Replies.{fault_values};
ghost use Rattle.bench_call.specs.Rests.{calls_of, port_calls};
ghost use Rattle.bench_run.specs.Performed.{pile_call, seen_of, walk};
ghost use Rattle.port_ledger.specs.Audited.{Audited};
ghost use Rattle.port_ledger.specs.Fits.{CallsFit};
ghost use Rattle.port_ledger.specs.Rested.{call_replies};
ghost use Rattle.port_ledger.specs.Runs.{moments, after};
ghost use Rattle.port_ledger.specs.Records.{pile_reply};

use bench_call::PileCall;
use bench_run::{Outcome, perform_all};
use port::Port;
use port_rest::Bench;
use refusal::Fault;
use std::alloc::{AllocError, Global};

// What its type says of a call, for proofs: its numbers are of 16 bits.
fn pile_call_fits(call: PileCall)
    ensures { CallsFit (calls_of call) }
{}

/// What their type says of the calls of a sheet, for proofs: their numbers are of 16 bits
/// (docs/RULES.md, section 11). It changes nothing.
pub fn pile_calls_fit(calls: &[PileCall])
    ensures { CallsFit (port_calls calls.now) }
{
    for call in calls {
        pile_call_fits(*call);
    }
}

/// Performs the calls of a sheet in order, each on the pile as the one before left it, also where
/// that was refused (docs/RULES.md, sections 17 and 18). The places for their outcomes are reserved
/// first: where there is no memory for them it fails, nothing is performed, and the pile is as it
/// was.
pub fn perform_on_bench<P: Port>(
    heap: Global,
    bench: &mut Bench<P>,
    calls: &[PileCall],
) -> Result<Vec<Outcome<Fault>>, AllocError>
    ensures outcomes { let old = bench.old.pile.port in
        let new = bench.new.pile.port in
        MatchResult result
        (λ v. (map (seen_of fault_values) v.items, new)
        ≡ walk (pile_call P.machine) P.machine.trace calls.now old)
        (λ _. new ≡ old) }
    // Each call has the reply of its moment, and the pile is what they all lead to.
    ensures replies { let done = moments P.machine (port_calls calls.now) bench.old.pile.port in
        IfOk result (λ v. map (λ o. pile_reply o.answer) v.items ≡ call_replies calls.now done) }
    ensures pile { let last = after P.machine (port_calls calls.now) bench.old.pile.port in
        IfOk result (λ _. bench.new.pile.port ≡ last) }
    // Of a pile that keeps and is new, the moments are an audited run, from the chip as it was to
    // the chip as it is.
    ensures audited { let class = P.Chart.classed in
        let chip = P.machine.chip in
        let old = bench.old.pile.port in
        let new = bench.new.pile.port in
        let done = moments P.machine (port_calls calls.now) old in
        P.KEEPS ≡ true → P.machine.New old
        → IfOk result (λ _. Audited class P.Chart.resets (chip old) done (chip new)) }
{
    pile_calls_fit(calls);
    perform_all(heap, bench, calls)
}
