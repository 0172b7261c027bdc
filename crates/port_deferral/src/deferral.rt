// Updates that go out in bursts, over any port: each waits in a table until that is full, a live
// register is read, or a sync is called.
ghost use Rattle.std.specs.Prelude.{◌≡◌, ◌<◌, ◌≤◌, length};
ghost use Rattle.refusal.specs.Replies.{port_reply, word_value, no_value};
ghost use Rattle.port.specs.Checks.{onward};
ghost use Rattle.port_layer.specs.Layer.{send_piece, send_all};
ghost use Rattle.port_deferral_table.specs.Entries.{first_burst, words_of};
ghost use Rattle.port_deferral_laws.specs.Machine.{new_deferral, send_burst, deferral_sending};
ghost use Rattle.port_deferral_laws.specs.Machine.{make_place, read_setting, deferral_machine};
ghost use Rattle.port_deferral_laws.specs.Laws.{DeferralLaws};
ghost use Rattle.port_deferral_laws.proofs.DeferralMeaning.{deferral_meaning};

use arrayvec::ArrayVec;
use bus::check_awake;
use chart::{Chart, Class};
use patch::Patch;
use port::Port;
use port_deferral_table::{Entry, MOST_ENTRIES, Table};
use port_layer::on_owed;
use refusal::{Fault, Refusal};
use std::marker::Model;

/// A port that lets updates of settings wait, and sends them in bursts to the port below, which is
/// any port (docs/RULES.md, section 16). It has the chart of that port, and keeps its settings if
/// that port does. At most one update waits for a register, joined of all that came for it, and for
/// at most 16 registers; a setting is shown as what waits for it makes of the word below.
#[derive(Drop)]
pub struct Deferral<P> {
    below: P,
    table: Table,
}

impl<P> Model for Deferral<P> {
    ghost use Rattle.std.specs.Prelude.{List};
    ghost use Rattle.port_layer.specs.Layer.{Over, over};
    ghost use Rattle.port_deferral_table.specs.declared.entry.Entry.{Entry};

    ghost Value = { Over (List Entry) P };

    ghost view = { λ d. over d.table d.below };
}

// The words of a run: what each entry makes of any word.
fn words_of(burst: &[Entry]) -> ArrayVec<u16, MOST_ENTRIES>
    requires { length burst.now ≤ 16 }
    ensures { result.items ≡ words_of burst.now }
{
    let mut words = ArrayVec::new();
    for entry in burst {
        words.push(entry.patch.act(0));
    }
    words
}

// A burst goes below: one entry as the update that it is, more of them as a run of their words.
fn send_burst<P: Port>(below: &mut P, burst: &[Entry]) -> Result<(), Refusal<Fault>>
    requires { length burst.now ≤ 16 }
    ensures { (port_reply no_value result, below.new)
        ≡ send_burst P.machine below.old burst.now }
{
    match burst {
        [] => Ok(()),
        [entry] => below.update(entry.register, entry.patch),
        [first, ..] => below.run(first.register, &words_of(burst)),
    }
}

impl<P: Port> Deferral<P> {
    /// A deferral over this port, in which nothing waits; over a new port it is a new port. Its
    /// calls keep to the rules of deferrals (docs/RULES.md, section 16). Never refused.
    pub fn new(below: P) -> Deferral<P>
        ensures value { result ≡ new_deferral below }
        ensures new { let deferral = ⟦<Deferral<P> as Port>⟧.machine in
            P.machine.New below → deferral.New result }
        ensures laws { let deferral = ⟦<Deferral<P> as Port>⟧.machine in
            DeferralLaws P.machine P.KEEPS P.Chart.classed deferral }
    {
        Deferral {
            below,
            table: Table::new(),
        }
    }

    // The lowest burst goes below; its entries leave once it is accepted. All that waits is sent
    // so, one burst after the other.
    fn send_lowest(&mut self) -> Result<(), Refusal<Fault>>
        ensures { (port_reply no_value result, self.new)
            ≡ send_piece (deferral_sending P.machine) self.old (first_burst self.old.own) }
    {
        let burst = self.table.burst();
        let count = burst.len();
        send_burst(&mut self.below, burst).map_err(|refusal| on_owed(refusal))?;
        self.table.leave(count);
        Ok(())
    }

    // All that waits goes below, burst by burst, up to the first that is refused.
    fn send_entries(&mut self) -> Result<(), Refusal<Fault>>
        ensures { (port_reply no_value result, self.new)
            ≡ send_all (deferral_sending P.machine) self.old }
    {
        while !self.table.is_empty() {
            self.send_lowest()?;
        }
        Ok(())
    }

    // An update that finds no place has all others sent first.
    fn make_place(&mut self, register: u16, patch: Patch) -> Result<(), Refusal<Fault>>
        ensures { (port_reply no_value result, self.new)
            ≡ make_place P.machine self.old register patch }
    {
        if self.table.takes(register, patch) {
            return Ok(());
        }
        self.send_entries()
    }

    // What waits for a setting lies on the word below, which need not be read where nothing of it
    // would be left.
    fn read_setting(&mut self, register: u16) -> Result<u16, Refusal<Fault>>
        ensures { (port_reply word_value result, self.new)
            ≡ read_setting P.machine self.old register }
    {
        match self.table.find(register) {
            None => self.below.read(register),
            Some(patch) if patch.is_complete() => Ok(patch.act(0)),
            Some(patch) => Ok(patch.act(self.below.read(register)?)),
        }
    }
}

/// A port that keeps if the port below does (docs/RULES.md, sections 13 and 16). A fault met in
/// sending what waits is told with errand 1; every other refusal passes up as it comes.
impl<P: Port> Port for Deferral<P> {
    type Chart = P::Chart;

    type Bus = P::Bus;

    const KEEPS: bool = P::KEEPS;

    ghost KEEPS = { P.KEEPS };

    ghost machine = { deferral_machine P.machine P.KEEPS P.Chart.classed };

    ghost meaning = { deferral_meaning P.KEEPS P.machine P.meaning };

    fn bus(&self) -> &P::Bus {
        self.below.bus()
    }

    fn supply(&self) -> bool {
        self.below.supply()
    }

    /// A setting as what waits for it makes of the word below, which is not read where the mask is
    /// 0xFFFF. A live register is read below once nothing waits; if a burst was refused, the read
    /// ends with that refusal.
    fn read(&mut self, register: u16) -> Result<u16, Refusal<Fault>> {
        let class = P::Chart::class(register);
        self.access().check_read(class)?;
        match class {
            Class::Setting => self.read_setting(register),
            Class::Live | Class::Absent => {
                self.send_entries()?;
                self.below.read(register)
            }
        }
    }

    /// An update waits in the table from now on; under mask 0 nothing does. If it finds no place,
    /// all that waits is sent first; if that is refused, so is the update, and it does not wait.
    fn update(&mut self, register: u16, patch: Patch) -> Result<(), Refusal<Fault>> {
        self.access().check_update(P::Chart::class(register))?;
        self.make_place(register, patch)?;
        self.table.enter(register, patch);
        Ok(())
    }

    /// Looked at as a whole first; then each word is an update of its own.
    fn run(&mut self, first: u16, words: &[u16]) -> Result<(), Refusal<Fault>> {
        self.update_each(first, words)
    }

    /// What waits goes below, and then a sync. It refuses by 5 with the supply off; if a burst was
    /// refused, it ends with that refusal, and nothing more goes below.
    fn sync(&mut self) -> Result<(), Refusal<Fault>> {
        check_awake(self.below.supply())?;
        self.send_entries()?;
        self.below.sync()
    }

    fn measure(&mut self, register: u16, word: u16) -> Result<(), Refusal<Fault>> {
        self.below.measure(register, word)
    }

    /// What waits is lost with the settings of a port that forgets.
    fn down(&mut self) {
        self.below.down();
        if !P::KEEPS {
            self.table.clear();
        }
    }

    fn up(&mut self) {
        self.below.up();
    }
}
