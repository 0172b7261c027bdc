// Calls on a pile: a port, and new layers over it.
ghost use Rattle.std.specs.Prelude.{ℕ, ◌+◌, ◌≤◌, length, [], ◌∷◌, IfOk, string_bytes};
ghost use Rattle.bench_call.specs.declared.LayerKind.TheVariants as layer;
ghost use Rattle.bench_sheet.specs.Sheets.{on_pile, layer_list};
ghost use Rattle.bench_play.specs.Told.{PileTells, JobTells};

use crate::unfinished::{Unfinished, whole_text};
use bench_sheet::{LayerKind, Layers, PileCall};
use bench_text::Dues;
use bus::Bus;
use port::Port;
use port_deferral::Deferral;
use port_keeper::Keeper;
use port_ledger::perform_on_bench;
use port_paging::Paging;
use port_rest::Bench;
use std::alloc::Global;
use std::marker::PhantomData;

// Performs calls on a bench, and tells what came of them.
#[tactic(auto, unfolding(crate::specs::Told::PileTells))]
fn tell<P: Port>(
    heap: Global,
    bench: &mut Bench<P>,
    calls: &[PileCall],
) -> Result<String, Unfinished>
    ensures { let chart = P.Chart.Chart in
        let port = bench.old.pile.port in
        IfOk result (λ t. PileTells chart.counted chart.classed chart.resets [] P.KEEPS P.machine
        calls.now port (string_bytes t)) }
{
    let outcomes = perform_on_bench(heap, bench, calls)?;
    let dues = Dues::<P::Chart>::new(P::KEEPS);
    whole_text(
        heap,
        bench.pile.port.bus(),
        calls,
        outcomes.as_slice(),
        dues,
    )
}

// The same on a port.
fn play_on_port<P: Port + Drop>(
    heap: Global,
    port: P,
    calls: &[PileCall],
) -> Result<String, Unfinished>
    ensures { let chart = P.Chart.Chart in
        IfOk result (λ t. PileTells chart.counted chart.classed chart.resets [] P.KEEPS P.machine
        calls.now port (string_bytes t)) }
{
    let mut bench = Bench::new(port);
    let text = tell(heap, &mut bench, calls);
    bench.finish();
    text
}

// How many layers a pile may have. Each number is a type, which performs calls by that of one layer
// fewer: a layer is a port of another type than what it stands on, so no one function goes through
// them.
trait Height {
    ghost most: { ℕ };

    // Performs calls on new layers over a port, and tells what came of them.
    fn play<P: Port + Drop>(
        heap: Global,
        port: P,
        layers: &[LayerKind],
        calls: &[PileCall],
    ) -> Result<String, Unfinished>
        requires { length layers.now ≤ most }
        ensures { let chart = P.Chart.Chart in
            IfOk result (λ t. PileTells chart.counted chart.classed chart.resets layers.now P.KEEPS
            P.machine calls.now port (string_bytes t)) };
}

// No layer.
struct Flat;

impl Height for Flat {
    ghost most = { 0 };

    fn play<P: Port + Drop>(
        heap: Global,
        port: P,
        _layers: &[LayerKind],
        calls: &[PileCall],
    ) -> Result<String, Unfinished> {
        play_on_port(heap, port, calls)
    }
}

// Calls on a new keeper over a port, and on new layers over that.
fn play_over_keeper<H: Height, P: Port + Drop>(
    heap: Global,
    port: P,
    over: &[LayerKind],
    calls: &[PileCall],
) -> Result<String, Unfinished>
    requires { length over.now ≤ H.most }
    ensures { let chart = P.Chart.Chart in
        let layers = layer.Keeper ∷ over.now in
        IfOk result (λ t. PileTells chart.counted chart.classed chart.resets layers P.KEEPS
        P.machine calls.now port (string_bytes t)) }
{
    H::play(heap, Keeper::new(port), over, calls)
}

// Calls on a new deferral over a port, and on new layers over that.
fn play_over_deferral<H: Height, P: Port + Drop>(
    heap: Global,
    port: P,
    over: &[LayerKind],
    calls: &[PileCall],
) -> Result<String, Unfinished>
    requires { length over.now ≤ H.most }
    ensures { let chart = P.Chart.Chart in
        let layers = layer.Deferral ∷ over.now in
        IfOk result (λ t. PileTells chart.counted chart.classed chart.resets layers P.KEEPS
        P.machine calls.now port (string_bytes t)) }
{
    H::play(heap, Deferral::new(port), over, calls)
}

// One layer more.
struct Higher<H>(PhantomData<H>);

impl<H: Height> Height for Higher<H> {
    ghost most = { H.most + 1 };

    fn play<P: Port + Drop>(
        heap: Global,
        port: P,
        layers: &[LayerKind],
        calls: &[PileCall],
    ) -> Result<String, Unfinished> {
        match layers {
            [] => play_on_port(heap, port, calls),
            [LayerKind::Keeper, over @ ..] => play_over_keeper::<H, P>(heap, port, over, calls),
            [LayerKind::Deferral, over @ ..] => play_over_deferral::<H, P>(heap, port, over, calls),
        }
    }
}

// As many layers as a sheet may ask for.
type Highest = Higher<Higher<Higher<Flat>>>;

/// Performs calls on a pile over a bus: new paging, and layers over it, and tells what came of them
/// (docs/RULES.md, section 12).
pub fn play_on_pile<B: Bus + Drop>(
    heap: Global,
    bus: B,
    layers: &Layers,
    calls: &[PileCall],
) -> Result<String, Unfinished>
    ensures { let chart = B.Chart.Chart in
        let job = on_pile (layer_list layers.now) calls.now in
        IfOk result (λ t. JobTells chart.counted chart.classed chart.resets B.machine job bus
        (string_bytes t)) }
{
    Highest::play(heap, Paging::new(bus), layers.as_slice(), calls)
}
