// Every register by its number, over any bus: a page is selected where it is not believed to be.
ghost use Rattle.std.specs.Prelude.{◌≡◌, ◌+◌, ◌<◌, ◌≤◌, false, length};
ghost use Rattle.refusal.specs.Replies.{reply_of, failure_values, fault_values};
ghost use Rattle.refusal.specs.Replies.{port_reply, word_value, no_value};
ghost use Rattle.port_paging_laws.specs.Machine.{PagingNew, new_paging, reply_at, reach_outcome};
ghost use Rattle.port_paging_laws.specs.Machine.{fetch_outcome, piece_outcome, update_outcome};
ghost use Rattle.port_paging_laws.specs.Machine.{run_outcome, paging_machine};
ghost use Rattle.port_paging_laws.specs.Laws.{PagingLaws};
ghost use Rattle.port_paging_laws.proofs.PagingMeaning.{paging_meaning};

use bus::{Bus, check_awake, check_measure};
use chart::Chart;
use patch::Patch;
use port::Port;
use port_paging_laws::{Place, room_of};
use refusal::{Errand, Failure, Fault, Refusal};
use std::marker::Model;

/// The port that stands on a bus (docs/RULES.md, section 14). It offers every register by its
/// number, and selects a register's page on the bus unless it believes that page to be selected. It
/// does not keep, shows what the chip has, and owes nothing, so that the errand of its faults is 0.
#[derive(Drop)]
pub struct Paging<B> {
    bus: B,
    // the page that is believed to be selected, if any is
    page: Option<u16>,
}

impl<B> Model for Paging<B> {
    ghost use Rattle.port_paging_laws.specs.Machine.{PagingModel, paging_of};

    ghost Value = { PagingModel B };

    ghost view = { λ p. paging_of p.bus p.page };
}

// A register by its number, which lies below 128 in every chart.
#[derive(Clone, Copy)]
struct Register {
    number: u16,
    ghost small: { number < 128 },
}

impl Register {
    // A refusal of the bus, a fault told by the first register that was not stored.
    fn locate(self, refusal: Refusal<Failure>) -> Refusal<Fault>
        ensures { reply_of fault_values result
            ≡ reply_at self.number (reply_of failure_values refusal) }
    {
        match refusal {
            Refusal::Length => Refusal::Length,
            Refusal::Register => Refusal::Register,
            Refusal::Live => Refusal::Live,
            Refusal::Setting => Refusal::Setting,
            Refusal::Asleep => Refusal::Asleep,
            Refusal::Line(failure) => Refusal::Line(Fault {
                cause: failure.cause,
                register: self.number + u16::from(failure.stored),
                errand: Errand::Asked,
            }),
            Refusal::Address => Refusal::Address,
            Refusal::Memory => Refusal::Memory,
        }
    }
}

impl<B: Bus> Paging<B> {
    /// Paging over a bus, which believes page 0 to be selected. Over a new bus this is a new port.
    /// Whatever the bus, its calls keep to the rules of paging (docs/RULES.md, section 14). Never
    /// refused.
    pub fn new(bus: B) -> Paging<B>
        ensures value { result ≡ new_paging bus }
        ensures new { B.machine.New bus → PagingNew B.machine result }
        ensures laws { PagingLaws B.machine B.Chart.classed }
    {
        Paging { bus, page: Some(0) }
    }

    // Selects the page of a register, unless it is believed to be selected. While that may fail, no
    // page is.
    fn reach(&mut self, register: Register) -> Result<(), Refusal<Fault>>
        ensures { (port_reply no_value result, self.new)
            ≡ reach_outcome B.machine self.old register.number }
    {
        let page = Place::of(register.number).page;
        if register.number < 32 || self.page == Some(page) {
            return Ok(());
        }
        self.page = None;
        self.bus
            .put(0, &[page])
            .map_err(|refusal| register.locate(refusal))?;
        self.page = Some(page);
        Ok(())
    }

    // A get of one register.
    fn fetch(&mut self, register: Register) -> Result<u16, Refusal<Fault>>
        ensures { (port_reply word_value result, self.new)
            ≡ fetch_outcome B.machine self.old register.number }
    {
        self.reach(register)?;
        self.bus
            .get(Place::of(register.number).raw)
            .map_err(|refusal| register.locate(refusal))
    }

    // One put, to registers of one page.
    fn send(&mut self, first: Register, words: &[u16]) -> Result<(), Refusal<Fault>>
        ensures { (port_reply no_value result, self.new)
            ≡ piece_outcome B.machine self.old first.number words.now }
    {
        self.reach(first)?;
        self.bus
            .put(Place::of(first.number).raw, words)
            .map_err(|refusal| first.locate(refusal))
    }

    // Nothing for a patch that is idle, one put for one that is complete, else a get, and then a
    // put where the word differs.
    fn send_update(&mut self, register: Register, patch: Patch) -> Result<(), Refusal<Fault>>
        ensures { (port_reply no_value result, self.new)
            ≡ update_outcome B.machine self.old register.number patch }
    {
        if patch.is_idle() {
            return Ok(());
        }
        if patch.is_complete() {
            return self.send(register, &[patch.act(0)]);
        }
        let old = self.fetch(register)?;
        let new = patch.act(old);
        if new == old {
            return Ok(());
        }
        self.send(register, &[new])
    }

    // A run of at most 16 words meets at most one multiple of 32, where it is cut.
    fn send_run(&mut self, first: Register, words: &[u16]) -> Result<(), Refusal<Fault>>
        requires { first.number + length words.now ≤ 128 }
        ensures { (port_reply no_value result, self.new)
            ≡ run_outcome B.machine self.old first.number words.now }
    {
        let room = room_of(first.number);
        if words.len() <= usize::from(room) {
            return self.send(first, words);
        }
        let (front, back) = words.split_at(usize::from(room));
        self.send(first, front)?;
        let next = Register {
            number: first.number + room,
        };
        self.send(next, back)
    }
}

/// A port that keeps no settings (docs/RULES.md, sections 13 and 14). Ahead of a get or a put it
/// selects the register's page, unless that is believed to be selected.
impl<B: Bus> Port for Paging<B> {
    type Chart = B::Chart;

    type Bus = B;

    const KEEPS: bool = false;

    ghost KEEPS = { false };

    ghost machine = { paging_machine B.machine B.Chart.classed };

    ghost meaning = { paging_meaning B.Chart.rules B.machine B.meaning };

    fn bus(&self) -> &B {
        &self.bus
    }

    fn supply(&self) -> bool {
        self.bus.supply()
    }

    /// The word as the chip has it, by one get.
    fn read(&mut self, register: u16) -> Result<u16, Refusal<Fault>> {
        self.access().check_read(B::Chart::class(register))?;
        self.fetch(Register { number: register })
    }

    /// Sends nothing under mask 0, and one put under mask 0xFFFF; under any other one get, and then
    /// one put if the word differs.
    fn update(&mut self, register: u16, patch: Patch) -> Result<(), Refusal<Fault>> {
        self.access().check_update(B::Chart::class(register))?;
        self.send_update(Register { number: register }, patch)
    }

    /// One put, or two where the run goes over a multiple of 32. If the second fails, the words of
    /// the first have got through.
    fn run(&mut self, first: u16, words: &[u16]) -> Result<(), Refusal<Fault>> {
        self.access().check_run::<B::Chart>(first, words.len())?;
        self.send_run(Register { number: first }, words)
    }

    /// Sends nothing, since the chip has every setting as it is shown already. It refuses by 5 with
    /// the supply off.
    fn sync(&mut self) -> Result<(), Refusal<Fault>> {
        check_awake(self.bus.supply())
    }

    /// The chip's own act: it needs neither a transfer nor a page.
    fn measure(&mut self, register: u16, word: u16) -> Result<(), Refusal<Fault>> {
        check_measure(B::Chart::class(register))?;
        let register = Register { number: register };
        self.bus
            .measure(register.number, word)
            .map_err(|refusal| register.locate(refusal))
    }

    /// Page 0 is believed to be selected from then on, as in a new chip.
    fn down(&mut self) {
        self.bus.down();
        self.page = Some(0);
    }

    fn up(&mut self) {
        self.bus.up();
    }
}
