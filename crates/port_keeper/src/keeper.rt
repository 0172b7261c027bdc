// Settings that outlive the supply, over any port: each is held here, and what the port below lost
// is owed to it until the next live read or sync.
ghost use Rattle.std.specs.Prelude.{◌≡◌, ℕ, ◌+◌, ◌≤◌, true, length, sum_by, slice_range};
ghost use Rattle.refusal.specs.Replies.{port_reply, no_value};
ghost use Rattle.port_layer.specs.Layer.{send_piece, send_pieces, send_all};
ghost use Rattle.port_keeper_marks.specs.Runs.{is_marked, runs, AreRuns, tally};
ghost use Rattle.port_keeper_marks.specs.Runs.{which_reply, SomeOwed};
ghost use Rattle.port_keeper_laws.specs.Machine.{new_keeper, held_at, hold_setting};
ghost use Rattle.port_keeper_laws.specs.Machine.{send_setting, change_setting};
ghost use Rattle.port_keeper_laws.specs.Machine.{keeper_sending, keeper_machine};
ghost use Rattle.port_keeper_laws.specs.Laws.{KeeperLaws};
ghost use Rattle.port_keeper_laws.proofs.KeeperMeaning.{keeper_meaning};

use bus::check_awake;
use chart::{Chart, Class};
use chip::memory;
use patch::Patch;
use port::Port;
use port_keeper_marks::{Marks, REGISTERS, Run};
use port_layer::on_owed;
use refusal::{Fault, Refusal};
use std::marker::Model;

/// The layer that holds every setting itself, so that they outlive the supply, and owes to the port
/// below what that has lost (docs/RULES.md, section 15). It stands on any port, and keeps.
#[derive(Drop)]
pub struct Keeper<P> {
    below: P,
    // by number; what is no setting stays at its reset word
    held: [u16; REGISTERS],
    owed: Marks,
}

impl<P> Model for Keeper<P> {
    ghost use Rattle.port_layer.specs.Layer.{Over, over};
    ghost use Rattle.port_keeper_laws.specs.Machine.{Own, own_of};

    ghost Value = { Over Own P };

    ghost view = { λ k. over (own_of k.held k.owed) k.below };
}

// Some of the held words go below as a run. A function of its own, since part of a field cannot yet
// be lent beside another field.
fn pass<P: Port>(below: &mut P, held: &[u16; REGISTERS], run: Run) -> Result<(), Refusal<Fault>>
    requires { run.first + run.count ≤ 128 }
    ensures { let words = slice_range held.now run.first (run.first + run.count) in
        (port_reply no_value result, below.new) ≡ P.machine.run below.old run.first words }
{
    below.run(run.first, &held[run.registers()])
}

impl<P: Port> Keeper<P> {
    /// A keeper over a port, with every setting at its reset word and nothing owed (docs/RULES.md,
    /// section 15). Over a new port it is a new port. It sends nothing, and cannot fail.
    pub fn new(below: P) -> Keeper<P>
        ensures value { result ≡ new_keeper P.Chart.resets below }
        ensures new { P.machine.New below → ⟦<Keeper<P> as Port>⟧.machine.New result }
        // A keeper's calls are held to its machine, and this keeps to the keeper's rules.
        ensures laws { let keeper = ⟦<Keeper<P> as Port>⟧.machine in
            KeeperLaws P.machine P.KEEPS P.Chart.classed P.Chart.resets keeper }
    {
        let mut held = [0; REGISTERS];
        memory::reset::<P::Chart>(&mut held);
        Keeper {
            below,
            held,
            owed: Marks::none(),
        }
    }

    /// How many settings are owed, and in how many runs they would go if no transfer failed.
    /// Neither is above 128. It changes nothing, and is never refused (docs/RULES.md, section 15).
    pub fn tally(&self) -> (usize, usize)
        ensures value { result ≡ tally self.now.own.owed }
        ensures law { AreRuns (is_marked self.now.own.owed) 0 (runs self.now.own.owed) }
        ensures sum { sum_by (λ r. r.count) (runs self.now.own.owed) ≡ result.0 }
        ensures runs { length (runs self.now.own.owed) ≡ result.1 }
    {
        self.owed.tally()
    }

    /// Some setting that is owed, by its number, or `None` if nothing is. Which one is left open.
    /// It changes nothing, and is never refused (docs/RULES.md, section 15).
    pub fn any_owed(&self) -> Option<u16>
        ensures { SomeOwed self.now.own.owed (which_reply result) }
    {
        self.owed.any()
    }

    fn word(&self, register: u16) -> u16
        ensures { result ≡ held_at self.now register }
    {
        self.held.get(usize::from(register)).copied().unwrap_or(0)
    }

    fn hold(&mut self, register: u16, word: u16, owed: bool)
        ensures { self.new ≡ hold_setting register word owed self.old }
    {
        memory::set_register(&mut self.held, register, word);
        self.owed.set(register, owed);
    }

    // A setting goes below, and is held once that is accepted.
    fn send(&mut self, register: u16, word: u16) -> Result<(), Refusal<Fault>>
        ensures { (port_reply no_value result, self.new)
            ≡ send_setting P.machine self.old register word }
    {
        self.below.update(register, Patch::setting_to(word))?;
        self.hold(register, word, false);
        Ok(())
    }

    // A setting becomes a word. With no supply and no port below that keeps, it can only be held;
    // it is owed unless the chip wakes with it.
    fn change(&mut self, register: u16, word: u16) -> Result<(), Refusal<Fault>>
        ensures { (port_reply no_value result, self.new)
            ≡ change_setting P.machine P.KEEPS P.Chart.resets self.old register word }
    {
        if !(P::KEEPS || self.below.supply()) {
            self.hold(register, word, word != P::Chart::reset(register));
            return Ok(());
        }
        if word == self.word(register) && !self.owed.is_owed(register) {
            return Ok(());
        }
        self.send(register, word)
    }

    // A run of owed settings goes below; its marks go once it is accepted. A closure, since a
    // function that its crate re-exports is not yet covered as an argument.
    fn send_run(&mut self, run: Run) -> Result<(), Refusal<Fault>>
        requires { run.first + run.count ≤ 128 }
        ensures { (port_reply no_value result, self.new)
            ≡ send_piece (keeper_sending P.machine) self.old run }
    {
        pass(&mut self.below, &self.held, run).map_err(|refusal| on_owed(refusal))?;
        self.owed.clear(run);
        Ok(())
    }

    // The runs of these marks, in order, up to the first that is refused.
    #[tactic(auto, using(port_keeper_marks::proofs::Running::runs_within))]
    fn send_runs(&mut self, marks: Marks) -> Result<(), Refusal<Fault>>
        ensures { (port_reply no_value result, self.new)
            ≡ send_pieces (keeper_sending P.machine) (runs marks) self.old }
    {
        for run in marks.runs() {
            self.send_run(run)?;
        }
        Ok(())
    }

    // All that is owed goes below.
    fn send_owed(&mut self) -> Result<(), Refusal<Fault>>
        ensures { (port_reply no_value result, self.new)
            ≡ send_all (keeper_sending P.machine) self.old }
    {
        self.send_runs(self.owed)
    }
}

/// A port that keeps (docs/RULES.md, sections 13 and 15). A fault met in sending what is owed is
/// told with errand 1; every other refusal passes up as it comes.
impl<P: Port> Port for Keeper<P> {
    type Chart = P::Chart;

    type Bus = P::Bus;

    const KEEPS: bool = true;

    ghost KEEPS = { true };

    ghost machine = { keeper_machine P.machine P.KEEPS P.Chart.classed P.Chart.resets };

    ghost meaning = { keeper_meaning P.Chart.rules P.KEEPS P.machine P.meaning };

    fn bus(&self) -> &P::Bus {
        self.below.bus()
    }

    fn supply(&self) -> bool {
        self.below.supply()
    }

    /// A setting as it is held, with no transfer. A live register is read below once nothing is
    /// owed; if what is owed was refused, the read ends with that refusal.
    fn read(&mut self, register: u16) -> Result<u16, Refusal<Fault>> {
        let class = P::Chart::class(register);
        self.access().check_read(class)?;
        match class {
            Class::Setting => Ok(self.word(register)),
            Class::Live | Class::Absent => {
                self.send_owed()?;
                self.below.read(register)
            }
        }
    }

    /// A setting as an update makes it of the held word.
    fn update(&mut self, register: u16, patch: Patch) -> Result<(), Refusal<Fault>> {
        self.access().check_update(P::Chart::class(register))?;
        self.change(register, patch.act(self.word(register)))
    }

    /// Looked at as a whole first; then each word is an update of its own.
    fn run(&mut self, first: u16, words: &[u16]) -> Result<(), Refusal<Fault>> {
        self.update_each(first, words)
    }

    /// What is owed goes below, and then a sync. It refuses by 5 with the supply off; if what is
    /// owed was refused, it ends with that refusal, and nothing more goes below.
    fn sync(&mut self) -> Result<(), Refusal<Fault>> {
        check_awake(self.below.supply())?;
        self.send_owed()?;
        self.below.sync()
    }

    fn measure(&mut self, register: u16, word: u16) -> Result<(), Refusal<Fault>> {
        self.below.measure(register, word)
    }

    /// What the port below forgets is owed to it.
    fn down(&mut self) {
        self.below.down();
        if !P::KEEPS {
            self.owed = Marks::differing::<P::Chart>(&self.held);
        }
    }

    fn up(&mut self) {
        self.below.up();
    }
}
