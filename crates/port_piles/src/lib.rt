// Piles of any layers over any bus, and what an auditor is promised of them.
#![tactic(auto)]

ghost use Rattle.std.specs.Prelude.{◌≡◌, List, [], ◌∷◌, map};
ghost use Rattle.port_paging_laws.specs.Machine.{new_paging};
ghost use Rattle.port_keeper_laws.specs.Machine.{new_keeper};
ghost use Rattle.port_deferral_laws.specs.Machine.{new_deferral};
ghost use Rattle.bench_call.specs.declared.LayerKind.{LayerKind};
ghost use Rattle.bench_call.specs.declared.LayerKind.TheVariants as layer;
ghost use Rattle.bench_call.specs.declared.PortCall.{PortCall};
ghost use Rattle.port_ledger.specs.Audited.{Audited};
ghost use Rattle.port_ledger.specs.Records.{record_exchange, moment_exchange, call_of};
ghost use Rattle.port_piles.specs.Piles.{pile_run, bus_run, EveryPileAudited, EveryPileMeaning};

use bus::Bus;
use port::Port;
use port_deferral::Deferral;
use port_keeper::Keeper;
use port_ledger::{Record, perform_run};
use port_paging::Paging;

/// What is so of every pile over a bus, whatever its chart: paging, and layers over it, as many as
/// one likes and in any order (docs/RULES.md, section 17). It does nothing, and its clauses are the
/// theorem.
pub fn every_pile<B: Bus>()
    // With a keeper among the layers, every run on a new pile over a new bus is an audited one.
    ensures audited { EveryPileAudited B.Chart.classed B.Chart.resets B.machine }
    // Over a new bus its top is a new port, which keeps exactly if there is a keeper, and its calls
    // have the laws of such a port.
    ensures meaning { EveryPileMeaning B.Chart.classed B.Chart.resets B.machine }
{}

/// The bottom of such a pile is paging as the code makes it. It does nothing.
pub fn bottom_is_paging<B: Bus>()
    ensures { let class = B.Chart.classed in
        let reset = B.Chart.resets in
        let port = ⟦<Paging<B> as Port>⟧ in
        (ls : List LayerKind) (cs : List PortCall) (m : B)
        → bus_run class reset B.machine ls cs m
        ≡ pile_run class reset ls port.KEEPS port.machine cs (new_paging m) }
{}

/// A layer of its list, over any port, is the layer that the code makes over that port. It does
/// nothing.
#[tactic(auto, unfolding(crate::specs::Piles::pile_run))]
pub fn layers_are_ports<P: Port>()
    ensures keeper { let class = P.Chart.classed in
        let reset = P.Chart.resets in
        let top = ⟦<Keeper<P> as Port>⟧ in
        (ls : List LayerKind) (cs : List PortCall) (m : P)
        → pile_run class reset (layer.Keeper ∷ ls) P.KEEPS P.machine cs m
        ≡ pile_run class reset ls top.KEEPS top.machine cs (new_keeper reset m) }
    ensures deferral { let class = P.Chart.classed in
        let reset = P.Chart.resets in
        let top = ⟦<Deferral<P> as Port>⟧ in
        (ls : List LayerKind) (cs : List PortCall) (m : P)
        → pile_run class reset (layer.Deferral ∷ ls) P.KEEPS P.machine cs m
        ≡ pile_run class reset ls top.KEEPS top.machine cs (new_deferral m) }
{}

/// A list of calls on the smallest pile that keeps: a new keeper over new paging over a bus. Each
/// record gets the reply of its call; no call of the list stops those after it
/// (docs/RULES.md, section 17).
pub fn run_on_keeper<B: Bus + Drop>(bus: B, run: &mut [Record])
    ensures replies { let calls = map call_of run.old in
        let ls = layer.Keeper ∷ [] in
        let done = bus_run B.Chart.classed B.Chart.resets B.machine ls calls bus in
        map record_exchange run.new ≡ map moment_exchange done.moments }
    // Over a new bus it is an audited run.
    ensures audited { let class = B.Chart.classed in
        let reset = B.Chart.resets in
        let done = bus_run class reset B.machine (layer.Keeper ∷ []) (map call_of run.old) bus in
        B.machine.New bus
        → Audited class reset (B.machine.chip bus) done.moments done.last }
{
    let mut pile = Keeper::new(Paging::new(bus));
    perform_run(&mut pile, run);
}
