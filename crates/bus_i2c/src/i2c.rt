// A chip behind I2C: the controller, the wire and the target of one address, with a line list that
// says which transfers go wrong.
ghost use Rattle.std.specs.Prelude.{◌≡◌, ◌<◌, ◌≤◌, length};
ghost use Rattle.std.specs.Option.{SomeIff};
ghost use Rattle.refusal.specs.Replies.{bus_reply, word_value, no_value};
ghost use Rattle.bus_i2c_laws.specs.I2cs.{Addressable, I2cMade, i2c_get, i2c_put, i2c_machine};
ghost use Rattle.bus_i2c_laws.proofs.I2cMeaning.{i2c_meaning};

use crate::line::Line;
use bus::{Bus, Unmade, check_get, check_measure, check_put};
use bus_i2c_wire::Wire;
use chart::Chart;
use refusal::{Failure, Refusal};
use std::marker::{Model, PhantomData};
use trace::{Event, Trace};

/// A bus over I2C to one chip, whose line list says which transfers go wrong, each under the next
/// of its marks. The list and the count of failures outlive `down`; a call that is refused by 1, 2
/// or 5 uses no mark (docs/RULES.md, sections 7 and 8).
#[derive(Drop)]
pub struct I2c<'a, C> {
    line: Line<'a>,
    supply: bool,
    wire: Wire,
    chart: PhantomData<C>,
}

impl<'a, C> Model for I2c<'a, C> {
    ghost use Rattle.bus_i2c_laws.specs.I2cs.{I2cModel, i2c_of};

    ghost Value = { I2cModel };

    ghost view = { λ b. i2c_of b.line b.supply b.wire };
}

// A seven-bit address that a target may have.
fn target_address(address: u16) -> Option<u8>
    ensures { SomeIff result (Addressable address) address }
{
    u8::try_from(address)
        .ok()
        .filter(|address| (8..=127).contains(address))
}

impl<'a, C: Chart> I2c<'a, C> {
    /// A new chip at an address, with marks for the transfers to come and a trace for what will
    /// pass. Refuses by 7 (address) an address outside 8 to 127, and hands the trace back as it was
    /// (docs/RULES.md, sections 4 and 8).
    pub fn new(address: u16, marks: &'a [u8], trace: Trace) -> Result<I2c<'a, C>, Unmade<Trace>>
        ensures { I2cMade C.Chart.resets address marks.now trace result }
    {
        let Some(address) = target_address(address) else {
            return Err(Unmade {
                refusal: Refusal::Address,
                given: trace,
            });
        };
        Ok(I2c {
            line: Line::new(marks),
            supply: true,
            wire: Wire::new::<C>(address, trace),
            chart: PhantomData,
        })
    }

    fn send_get(&mut self, raw: u8) -> Result<u16, Refusal<Failure>>
        requires { raw < 64 }
        ensures { (bus_reply word_value result, self.new) ≡ i2c_get self.old raw }
    {
        let mark = self.line.draw(3);
        let word = self.wire.get(raw, mark);
        word.map_err(|cause| Refusal::Line(Failure { cause, stored: 0 }))
    }

    fn send_put(&mut self, raw: u8, words: &[u16]) -> Result<(), Refusal<Failure>>
        requires { length words.now ≤ 16 }
        ensures { (bus_reply no_value result, self.new) ≡ i2c_put self.old raw words.now }
    {
        let mark = self.line.draw(2 + 2 * words.len());
        let stored = mark.saturating_sub(3) / 2;
        let accepted = self.wire.put(raw, words, mark);
        accepted.map_err(|cause| Refusal::Line(Failure { cause, stored }))
    }
}

impl<'a, C: Chart> Bus for I2c<'a, C> {
    type Chart = C;

    ghost machine = { i2c_machine C.Chart.classed C.Chart.resets };

    ghost meaning = { i2c_meaning C.Chart.rules };

    fn get(&mut self, raw: u16) -> Result<u16, Refusal<Failure>> {
        check_get(raw, self.supply)?;
        // here and in `put` the cast loses nothing: a raw address that passed the check is below 64
        self.send_get(raw as u8)
    }

    fn put(&mut self, raw: u16, words: &[u16]) -> Result<(), Refusal<Failure>> {
        check_put(raw, words.len(), self.supply)?;
        self.send_put(raw as u8, words)
    }

    fn measure(&mut self, register: u16, word: u16) -> Result<(), Refusal<Failure>> {
        check_measure(C::class(register))?;
        if self.supply {
            self.wire.set_register(register, word);
        }
        Ok(())
    }

    fn down(&mut self) {
        self.wire.reset::<C>();
        self.supply = false;
    }

    fn up(&mut self) {
        self.supply = true;
    }

    fn supply(&self) -> bool {
        self.supply
    }

    fn failed(&self) -> u64 {
        self.line.failed()
    }

    fn events(&self) -> &[Event] {
        self.wire.events()
    }

    fn lost(&self) -> usize {
        self.wire.lost()
    }
}
