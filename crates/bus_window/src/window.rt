// A chip whose words lie in memory that is lent to the bus. No transfer on it fails.
ghost use Rattle.std.specs.Prelude.{◌≡◌, ◌+◌, ◌≤◌, length, IfErr};
ghost use Rattle.chip.specs.Words.{rising_words, store_all};
ghost use Rattle.bus_window_laws.specs.Windows.{WindowMade, window_machine};
ghost use Rattle.bus_window_laws.proofs.WindowMeaning.{window_meaning};

use bus::{Bus, Unmade, check_get, check_measure, check_put};
use chart::Chart;
use chip::memory;
use refusal::{Failure, Refusal};
use std::marker::{Model, PhantomData};
use trace::Event;

/// A bus to a chip whose words lie in lent memory, laid out as in `chip::memory`: 128 registers and
/// the selector. No transfer on it fails, and it has no wire (docs/RULES.md, sections 6, 7 and 9).
#[derive(Drop)]
pub struct Window<'a, C> {
    words: &'a mut [u16],
    supply: bool,
    chart: PhantomData<C>,
}

impl<'a, C> Model for Window<'a, C> {
    ghost use Rattle.bus_window_laws.specs.Windows.{WindowModel, window_of};

    ghost Value = { WindowModel };

    ghost view = { λ w. window_of w.words.now w.supply };
}

impl<'a, C: Chart> Window<'a, C> {
    /// A new chip in this memory, whose words are all set anew. Refuses by 8 (memory) any size but
    /// 129 words, and hands back the very memory that was lent, with the words that it had
    /// (docs/RULES.md, sections 4 and 9).
    pub fn new(words: &'a mut [u16]) -> Result<Window<'a, C>, Unmade<&'a mut [u16]>>
        ensures made { WindowMade C.Chart.resets words.old result }
        ensures same_memory { IfErr result (λ e. e.given.ghost_name ≡ words.entry.ghost_name) }
    {
        if words.len() != memory::WORDS {
            return Err(Unmade {
                refusal: Refusal::Memory,
                given: words,
            });
        }
        memory::reset::<C>(words);
        Ok(Window {
            words,
            supply: true,
            chart: PhantomData,
        })
    }
}

// Stores words one by one.
fn store_burst(words: &mut [u16], raw: u16, burst: &[u16])
    requires { raw + length burst.now ≤ 64 }
    ensures { words.new ≡ store_all words.old (rising_words raw burst.now) }
{
    for (at, &word) in (raw..).zip(burst) {
        memory::store(words, at, word);
    }
}

impl<'a, C: Chart> Bus for Window<'a, C> {
    type Chart = C;

    ghost machine = { window_machine C.Chart.classed C.Chart.resets };

    ghost meaning = { window_meaning C.Chart.rules };

    fn get(&mut self, raw: u16) -> Result<u16, Refusal<Failure>> {
        check_get(raw, self.supply)?;
        // lent as `&mut`, since after a `&` out of this field nothing is known of the words
        let words = &mut *self.words;
        Ok(memory::load(words, raw))
    }

    fn put(&mut self, raw: u16, words: &[u16]) -> Result<(), Refusal<Failure>> {
        check_put(raw, words.len(), self.supply)?;
        store_burst(self.words, raw, words);
        Ok(())
    }

    fn measure(&mut self, register: u16, word: u16) -> Result<(), Refusal<Failure>> {
        check_measure(C::class(register))?;
        if self.supply {
            memory::set_register(self.words, register, word);
        }
        Ok(())
    }

    fn down(&mut self) {
        memory::reset::<C>(self.words);
        self.supply = false;
    }

    fn up(&mut self) {
        self.supply = true;
    }

    fn supply(&self) -> bool {
        self.supply
    }

    fn failed(&self) -> u64 {
        0
    }

    fn events(&self) -> &[Event] {
        &[]
    }

    fn lost(&self) -> usize {
        0
    }
}
