// Each kind of call, on what it is for: a bus, a port, or a bench.
ghost use Rattle.std.specs.Prelude.{◌≡◌};
ghost use Rattle.bench_call.specs.Asked.{asked};
ghost use Rattle.bench_run.specs.Performed.{bus_call, port_call, pile_call};

use crate::answer::{Answer, CallOn};
use bench_call::{Call, PileCall, PortCall};
use bus::Bus;
use patch::Patch;
use port::Port;
use port_rest::Bench;
use refusal::{Failure, Fault};

impl<B: Bus> CallOn<B> for Call {
    type Told = Failure;

    ghost Model = { B };

    ghost model = { λ bus. bus };

    ghost effect = { λ call. bus_call B.machine (asked call) };

    ghost trace = { B.machine.trace };

    fn perform(&self, bus: &mut B) -> Answer<Failure> {
        match self {
            Call::Get { raw } => Ok(Some(bus.get(*raw)?)),
            Call::Put { raw, words } => {
                bus.put(*raw, words.as_slice())?;
                Ok(None)
            }
            Call::Measure { register, word } => {
                bus.measure(*register, *word)?;
                Ok(None)
            }
            Call::Down => {
                bus.down();
                Ok(None)
            }
            Call::Up => {
                bus.up();
                Ok(None)
            }
        }
    }

    fn passed(bus: &B) -> usize {
        bus.events().len()
    }
}

impl<P: Port> CallOn<P> for PortCall {
    type Told = Fault;

    ghost Model = { P };

    ghost model = { λ port. port };

    ghost effect = { port_call P.machine };

    ghost trace = { P.machine.trace };

    fn perform(&self, port: &mut P) -> Answer<Fault> {
        match *self {
            PortCall::Read { register } => Ok(Some(port.read(register)?)),
            PortCall::Update {
                register,
                mask,
                bits,
            } => {
                port.update(register, Patch { mask, bits })?;
                Ok(None)
            }
            PortCall::Sync => {
                port.sync()?;
                Ok(None)
            }
            PortCall::Measure { register, word } => {
                port.measure(register, word)?;
                Ok(None)
            }
            PortCall::Down => {
                port.down();
                Ok(None)
            }
            PortCall::Up => {
                port.up();
                Ok(None)
            }
        }
    }

    fn passed(port: &P) -> usize {
        port.bus().events().len()
    }
}

impl<P: Port> CallOn<Bench<P>> for PileCall {
    type Told = Fault;

    ghost Model = { P };

    ghost model = { λ bench. bench.pile.port };

    ghost effect = { pile_call P.machine };

    ghost trace = { P.machine.trace };

    fn perform(&self, bench: &mut Bench<P>) -> Answer<Fault> {
        match *self {
            PileCall::Port(call) => call.perform(&mut bench.pile.port),
            PileCall::Suspend => {
                bench.suspend();
                Ok(None)
            }
            PileCall::Resume => {
                bench.resume()?;
                Ok(None)
            }
        }
    }

    fn passed(bench: &Bench<P>) -> usize {
        bench.pile.port.bus().events().len()
    }
}
