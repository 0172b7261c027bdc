// The transcript of calls, or why there is none.
ghost use Rattle.std.specs.Prelude.{◌≡◌, ◌≢◌, ◌+◌, ◌^◌, ◌<◌, map, length, IfErr, IfOk};
ghost use Rattle.std.specs.Prelude.{string_bytes};
ghost use Rattle.bench_run.specs.Performed.{seen_of};
ghost use Rattle.bench_text.specs.Noting.{call_entries};
ghost use Rattle.bench_text.specs.Texts.{transcript_text};
ghost use Rattle.bench_play.specs.Wanting.{wanted_room};
ghost use Rattle.bench_play.specs.declared.unfinished.Unfinished.TheVariants.{Memory};

use bench_call::Prints;
use bench_run::Outcome;
use bench_text::{Notes, transcript_text};
use bus::Bus;
use refusal::Tells;
use std::alloc::{AllocError, Global};

/// Why calls have no transcript.
#[derive(Debug, Drop)]
pub enum Unfinished {
    /// There is no memory for it.
    Memory(AllocError),
    /// Their trace was too small: it wants room for so many events.
    Room(usize),
}

impl From<AllocError> for Unfinished {
    ghost from_gives = { λ e r. r ≡ Memory e };

    fn from(error: AllocError) -> Unfinished {
        Unfinished::Memory(error)
    }
}

/// The text of what was performed on a bus, as [`transcript_text`] gives it, where no event was left
/// out.
pub fn whole_text<B: Bus, C: Prints, F: Tells + Copy, N: Notes<C, F>>(
    heap: Global,
    bus: &B,
    calls: &[C],
    outcomes: &[Outcome<F>],
    notes: N,
) -> Result<String, Unfinished>
    ensures whole { let seen = map (seen_of F.Tells.values) outcomes.now in
        let lines = call_entries C.text N.next N.told (N.state notes) calls.now seen in
        let trace = B.machine.trace bus.now in
        let failed = (B.machine.chip bus.now).failed in
        IfOk result
        (λ t. (trace.lost ≡ 0) × (string_bytes t ≡ transcript_text trace failed lines)) }
    // Where one was, the room that is asked for is exactly that of all events.
    ensures room { let trace = B.machine.trace bus.now in
        let all = length trace.events + trace.lost in
        trace.lost ≢ 0 → all < 2 ^ 64 → IfErr result (λ e. wanted_room e ≡ all) }
    // Where none was, no room is asked for.
    ensures memory { let trace = B.machine.trace bus.now in
        trace.lost ≡ 0 → IfErr result (λ e. wanted_room e ≡ 0) }
{
    let lost = bus.lost();
    if lost > 0 {
        return Err(Unfinished::Room(bus.events().len().saturating_add(lost)));
    }
    Ok(transcript_text(heap, bus, calls, outcomes, notes)?)
}
