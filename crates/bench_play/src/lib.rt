// Performs a bench sheet on a simulated chip, and writes down what each call answered and what
// passed on the wire.
#![tactic(auto)]

ghost use Rattle.std.specs.Prelude.{◌≡◌, ◌≤◌, map, [], IfOk, MatchResult, string_bytes};
ghost use Rattle.refusal.specs.Replies.{reply_of, failure_values};
ghost use Rattle.bench_call.specs.Asked.{asked};
ghost use Rattle.bench_sheet.specs.Sheets.{on_bus, job_of, whole};
ghost use Rattle.bench_text.specs.Texts.{unmade_text};
ghost use Rattle.bench_play.specs.Audits.{JobAudited, JobFits, SheetAudited};
ghost use Rattle.bench_play.specs.Told.{JobTells, I2cTells, MakeTells, SheetTells};

use bench_run::perform_all;
use bench_sheet::{Call, Calls, ChartName, Make, Sheet};
use bench_text::{Nothing, unmade_text};
use bus::{Bus, Unmade};
use bus_i2c::I2c;
use bus_window::Window;
use chart::{Chart, Head, Valve};
use chip::memory;
use pile::play_on_pile;
use port_ledger::pile_calls_fit;
use std::alloc::{AllocError, Global};
use trace::Trace;
use unfinished::{Unfinished, whole_text};

mod pile;
mod unfinished;

// Room for so many events a call is tried first: a get makes as many, and so does a put of two
// words.
const EVENTS_OF_A_CALL: usize = 8;

// How many calls there are.
fn count_of(calls: &Calls) -> usize {
    match calls {
        Calls::Bus(calls) => calls.len(),
        Calls::Pile { calls, .. } => calls.len(),
    }
}

// Performs calls on a bus, and tells what came of them.
fn play_on_bus<B: Bus + Drop>(
    heap: Global,
    mut bus: B,
    calls: &[Call],
) -> Result<String, Unfinished>
    ensures { let chart = B.Chart.Chart in
        let job = on_bus (map asked calls.now) in
        IfOk result (λ t. JobTells chart.counted chart.classed chart.resets B.machine job bus
        (string_bytes t)) }
{
    let outcomes = perform_all(heap, &mut bus, calls)?;
    whole_text(heap, &bus, calls, outcomes.as_slice(), Nothing)
}

// Performs calls over a bus, where one was made.
fn play<B: Bus + Drop, T: Drop>(
    heap: Global,
    made: Result<B, Unmade<T>>,
    calls: &Calls,
) -> Result<String, Unfinished>
    ensures { let chart = B.Chart.Chart in
        let job = job_of calls.now in
        IfOk result (λ t. MatchResult made
        (λ bus. JobTells chart.counted chart.classed chart.resets B.machine job bus
        (string_bytes t))
        (λ e. string_bytes t ≡ unmade_text (reply_of failure_values e.refusal))) }
{
    match (made, calls) {
        (Ok(bus), Calls::Bus(calls)) => play_on_bus(heap, bus, calls.as_slice()),
        (Ok(bus), Calls::Pile { layers, calls }) => {
            play_on_pile(heap, bus, layers, calls.as_slice())
        }
        (Err(Unmade { refusal, .. }), _) => Ok(unmade_text(heap, refusal)?),
    }
}

// What their types say of the calls of a sheet, for proofs.
fn job_fits(calls: &Calls)
    ensures { JobFits (job_of calls.now) }
{
    if let Calls::Pile { calls, .. } = calls {
        pile_calls_fit(calls.as_slice());
    }
}

// Performs a sheet on a new I2C bus, with a trace of this room.
fn play_i2c<C: Chart>(
    heap: Global,
    address: u16,
    sheet: &Sheet,
    room: usize,
) -> Result<String, Unfinished>
    ensures { let chart = C.Chart in
        let job = job_of sheet.now.calls in
        IfOk result (λ t. I2cTells chart.counted chart.classed chart.resets address
        sheet.now.marks.items job (string_bytes t)) }
{
    let trace = Trace::new(heap, room)?;
    let made = I2c::<C>::new(address, sheet.marks.as_slice(), trace);
    play(heap, made, &sheet.calls)
}

// The same, a second time with room for as many events as passed the first time, if there was too
// little. That this is enough rests on what passes being the same whatever the room.
fn play_in_room<C: Chart>(heap: Global, address: u16, sheet: &Sheet) -> Result<String, Unfinished>
    ensures { let chart = C.Chart in
        let job = job_of sheet.now.calls in
        IfOk result (λ t. I2cTells chart.counted chart.classed chart.resets address
        sheet.now.marks.items job (string_bytes t)) }
{
    let room = count_of(&sheet.calls).saturating_mul(EVENTS_OF_A_CALL);
    match play_i2c::<C>(heap, address, sheet, room) {
        Err(Unfinished::Room(room)) => play_i2c::<C>(heap, address, sheet, room),
        finished => finished,
    }
}

// Performs a sheet on a new chip of one chart.
fn play_chart<C: Chart>(heap: Global, sheet: &Sheet) -> Result<String, Unfinished>
    ensures { let chart = C.Chart in
        let job = job_of sheet.now.calls in
        IfOk result (λ t. MakeTells chart.counted chart.classed chart.resets sheet.now.make
        sheet.now.marks.items job (string_bytes t)) }
{
    match sheet.make {
        Make::I2c(address) => play_in_room::<C>(heap, address, sheet),
        Make::Window => {
            let mut words = [0; memory::WORDS];
            play(heap, Window::<C>::new(&mut words), &sheet.calls)
        }
    }
}

// The same, as an auditor may rely on it.
fn audited_chart<C: Chart>(heap: Global, sheet: &Sheet) -> Result<String, Unfinished>
    ensures tells { let chart = C.Chart in
        let job = job_of sheet.now.calls in
        IfOk result (λ t. MakeTells chart.counted chart.classed chart.resets sheet.now.make
        sheet.now.marks.items job (string_bytes t)) }
    ensures audited { let chart = C.Chart in
        let job = job_of sheet.now.calls in
        IfOk result (λ t. JobAudited chart.counted chart.classed chart.resets sheet.now.make
        sheet.now.marks.items job (string_bytes t)) }
{
    job_fits(&sheet.calls);
    play_chart::<C>(heap, sheet)
}

// The same on the chart that a sheet names.
fn play_sheet(heap: Global, sheet: &Sheet) -> Result<String, Unfinished>
    ensures tells { IfOk result (λ t. SheetTells (whole sheet.now) (string_bytes t)) }
    ensures audited { IfOk result (λ t. SheetAudited (whole sheet.now) (string_bytes t)) }
{
    match sheet.chart {
        ChartName::Head => audited_chart::<Head>(heap, sheet),
        ChartName::Valve => audited_chart::<Valve>(heap, sheet),
    }
}

/// The transcript of a whole sheet: what each call answered, what passed on the wire for it, and
/// under a reading the settings that it was made under (docs/RULES.md, section 12). Nothing that
/// passed is left out. An error says that there is no memory for it.
pub fn transcript(heap: Global, sheet: &Sheet) -> Result<String, AllocError>
    ensures tells { IfOk result (λ t. SheetTells (whole sheet.now) (string_bytes t)) }
    // On a pile that keeps it is the transcript of an audited run: each reply is that of its
    // moment, and under a reading stand the words that settings are due then, which the chip has.
    // On one that does not keep nothing stands under a call.
    ensures audited { IfOk result (λ t. SheetAudited (whole sheet.now) (string_bytes t)) }
{
    match play_sheet(heap, sheet) {
        Ok(text) => Ok(text),
        Err(_) => Err(AllocError),
    }
}
