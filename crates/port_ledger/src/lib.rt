// Lists of calls on a pile, and what an auditor is promised of them.
#![tactic(auto)]

ghost use Rattle.std.specs.Prelude.{◌≡◌, map, true};
ghost use Rattle.port_ledger.specs.Audited.{Audited};
ghost use Rattle.port_ledger.specs.Planted.{NoneAudited};
ghost use Rattle.port_ledger.specs.Worked.{WorkedAudited, WorkedDue};
ghost use Rattle.port_ledger.specs.Fits.{CallFits};
ghost use Rattle.port_ledger.specs.Runs.{moments, after};
ghost use Rattle.port_ledger.specs.Records.{record_exchange, moment_exchange, call_of};

mod bench;

pub use bench::{perform_on_bench, pile_calls_fit};
use bench_call::PortCall;
use bench_run::{Answer, CallOn};
use port::Port;
use refusal::Fault;

/// One call of a run, and the place for its reply (docs/RULES.md, section 17).
#[derive(Debug, Clone, Copy, PartialEq, Eq)]
pub struct Record {
    pub call: PortCall,
    pub reply: Answer<Fault>,
}

// What its type says of a call, for proofs: its numbers are of 16 bits.
fn call_fits(call: PortCall)
    ensures { CallFits call }
{}

/// Performs the calls of a run in order, each on the pile as the one before left it, and puts each
/// reply into its record. A call that the pile refuses leaves it as that call says, and the next
/// one is performed all the same. Nothing is allocated, so there is no list of calls that it
/// refuses (docs/RULES.md, section 17).
pub fn perform_run<P: Port>(pile: &mut P, run: &mut [Record])
    // The calls stand, and each has the reply of its moment.
    ensures replies { let done = moments P.machine (map call_of run.old) pile.old in
        map record_exchange run.new ≡ map moment_exchange done }
    ensures pile { pile.new ≡ after P.machine (map call_of run.old) pile.old }

    // Of a pile that keeps and is new, the moments are an audited run, from the chip as it was to
    // the chip as it is.
    ensures audited { let chip = P.machine.chip in
        let done = moments P.machine (map call_of run.old) pile.old in
        P.KEEPS ≡ true → P.machine.New pile.old
        → Audited P.Chart.classed P.Chart.resets (chip pile.old) done (chip pile.new) }
{
    for record in run {
        let call = record.call;
        call_fits(call);
        record.reply = call.perform(pile);
    }
}

/// Runs that would be wrong, each in its own way: none of them is audited (docs/RULES.md,
/// section 17). It does nothing.
pub fn wrong_runs()
    ensures { NoneAudited }
{}

/// A run as it is to be, which is audited, and the word that its setting is due at the end
/// (docs/RULES.md, section 17). It does nothing.
pub fn worked_run()
    ensures audited { WorkedAudited }
    ensures due { WorkedDue }
{}
