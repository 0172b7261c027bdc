// The words of a chip: 129, of which 0 to 127 are its registers by number and 128 is the selector.
// The slice may have any length: a place past its end reads as 0, and what is stored there is
// dropped.
ghost use Rattle.std.specs.Prelude.{◌≡◌, length, slice_index, slice_set};
ghost use Rattle.chip.specs.Words.{place_of, load, store, fresh_words};

use chart::Chart;

/// How many words a chip has, the selector included (docs/RULES.md, section 6).
pub const WORDS: usize = 129;

const SELECTOR: usize = 128;

/// The place that a raw address leads to under a selector: 128, the selector, for 0, and else the
/// number of a register. None for 32 to 63 under a selector above 2, and above 63
/// (docs/RULES.md, section 6).
pub fn place_of(selector: u16, raw: u16) -> Option<usize>
    ensures { result ≡ place_of selector raw }
{
    match raw {
        0 => Some(SELECTOR),
        1..=31 => Some(usize::from(raw)),
        32..=63 if selector < 3 => Some(usize::from(raw + 32 * selector)),
        _ => None,
    }
}

// The word of a place, or 0 past the end.
fn word_at(words: &[u16], place: usize) -> u16
    ensures { result ≡ slice_index words.now place }
{
    words.get(place).copied().unwrap_or(0)
}

/// The word that a raw address reads as: 0 where it leads nowhere (docs/RULES.md, section 6).
pub fn load(words: &[u16], raw: u16) -> u16
    ensures { result ≡ load words.now raw }
{
    place_of(word_at(words, SELECTOR), raw).map_or(0, |place| word_at(words, place))
}

// Changes the word of a place, and nothing past the end. By index, since nothing is known of the
// other words once what `get_mut` lends is given back.
fn set_word(words: &mut [u16], place: usize, word: u16)
    ensures { words.new ≡ slice_set words.old place word }
{
    if place < words.len() {
        words[place] = word;
    }
}

/// Stores a word at a raw address, and changes no other. The selector keeps the two lowest bits;
/// what is stored at an address that leads nowhere is dropped (docs/RULES.md, section 6).
pub fn store(words: &mut [u16], raw: u16, word: u16)
    ensures { words.new ≡ store words.old raw word }
{
    let selector = word_at(words, SELECTOR);
    let kept = if raw == 0 { word % 4 } else { word };
    if let Some(place) = place_of(selector, raw) {
        set_word(words, place, kept);
    }
}

/// Puts a word into a register by its number, whatever page is selected, as a chip that measures
/// does; a number past the end is passed over (docs/RULES.md, section 7).
pub fn set_register(words: &mut [u16], register: u16, word: u16)
    ensures { words.new ≡ slice_set words.old register word }
{
    set_word(words, usize::from(register), word);
}

// The reset word of a place; what no register can have as its number is absent.
fn reset_word<C: Chart>(place: usize) -> u16
    ensures { result ≡ C.Chart.resets place }
{
    // A closure, since `C::reset` alone, a method of a bound, is not yet covered as an argument.
    u16::try_from(place).map_or(0, |register| C::reset(register))
}

/// Sets every word as in a new chip: each register at its reset word by the chart, and the selector
/// at 0 (docs/RULES.md, section 6).
pub fn reset<C: Chart>(words: &mut [u16])
    ensures { words.new ≡ fresh_words C.Chart.resets (length words.old) }
{
    for (place, word) in words.iter_mut().enumerate() {
        *word = reset_word::<C>(place);
    }
}
