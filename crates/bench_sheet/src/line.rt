// Reads the words of one line.
ghost use Rattle.std.specs.Prelude.{◌≡◌, ℕ, if◌then◌else◌, List, Result, length, vec_items};
ghost use Rattle.bench_call.specs.Asked.{asked};
ghost use Rattle.bench_sheet.specs.Sheets.{layer_list};
ghost use Rattle.bench_sheet.specs.Said.{Gives, number_list, all_of, only_on_pile, call_named};
ghost use Rattle.bench_sheet.specs.Said.{port_call_named, pile_call_named, bus_of, chart_of};
ghost use Rattle.bench_sheet.specs.Said.{marks_of, layer_of, pile_of, put_of, number_of, mark_of};

use crate::cut::Words;
use crate::digits::number;
use crate::layers::MOST_LAYERS;
use crate::{Call, ChartName, LayerKind, Layers, LineError, Make, Mistake, PileCall, PortCall};
use std::alloc::Global;

fn a_number(word: &[u8]) -> Result<u16, Mistake>
    ensures { result ≡ number_of word.now }
{
    number(word).ok_or(Mistake::NotANumber)
}

fn a_mark(word: &[u8]) -> Result<u8, Mistake>
    ensures { result ≡ mark_of word.now }
{
    u8::try_from(a_number(word)?).map_err(|_| Mistake::NotAMark)
}

// How many words are left. It takes a copy of them, since counting uses them up.
#[tactic(auto, using(crate::proofs::Cutting::few_after))]
fn count(words: &Words) -> usize
    ensures { result ≡ length words.now }
{
    Words(words.0).count()
}

// The `N` numbers of a line that has just so many words left.
fn numbers<const N: usize>(words: Words) -> Result<[u16; N], Mistake>
    ensures { result ≡ number_list N words.entry }
{
    if count(&words) != N {
        return Err(Mistake::WordCount);
    }
    let mut numbers = [0; N];
    // By the index, since a `zip` of `iter_mut` does not say what it wrote.
    for (i, word) in words.enumerate() {
        numbers[i] = a_number(word)?;
    }
    Ok(numbers)
}

// What each word says, where `read` reads one.
fn all<T: Drop, F: Fn(&[u8]) -> Result<T, Mistake>>(
    heap: Global,
    words: Words,
    read: F,
) -> Result<Vec<T>, LineError>
    requires { F.IsAlwaysCallable read }
    ensures { (f : List ℕ → Result T Mistake) → ((w : _) (r : _) → F.post read w r → r ≡ f w.now)
        → Gives vec_items result (all_of f words.entry) }
{
    let mut all = Vec::new(heap);
    for word in words {
        all.push(read(word)?)?;
    }
    Ok(all)
}

/// What stands after `bus`: a make, and for I2C the address. The make is looked at before the
/// number of words (docs/RULES.md, section 11).
#[tactic(auto, using(crate::proofs::Naming::names))]
pub fn bus(mut words: Words) -> Result<Make, Mistake>
    ensures { result ≡ bus_of words.entry }
{
    match words.next().ok_or(Mistake::WordCount)? {
        b"i2c" => {
            let [address] = numbers::<1>(words)?;
            Ok(Make::I2c(address))
        }
        b"window" => {
            let [] = numbers::<0>(words)?;
            Ok(Make::Window)
        }
        _ => Err(Mistake::UnknownBus),
    }
}

/// What stands after `chart`: one name (docs/RULES.md, section 11).
pub fn chart(mut words: Words) -> Result<ChartName, Mistake>
    ensures { result ≡ chart_of words.entry }
{
    let (Some(name), None) = (words.next(), words.next()) else {
        return Err(Mistake::WordCount);
    };
    match name {
        b"head" => Ok(ChartName::Head),
        b"valve" => Ok(ChartName::Valve),
        _ => Err(Mistake::UnknownChart),
    }
}

/// What stands after `marks`: any number of marks, each at most 255 (docs/RULES.md, section 11).
pub fn marks(heap: Global, words: Words) -> Result<Vec<u8>, LineError>
    ensures { Gives vec_items result (marks_of words.entry) }
{
    all(heap, words, a_mark)
}

#[tactic(auto, using(crate::proofs::Naming::names))]
fn layer(word: &[u8]) -> Result<LayerKind, Mistake>
    ensures { result ≡ layer_of word.now }
{
    match word {
        b"keeper" => Ok(LayerKind::Keeper),
        b"deferral" => Ok(LayerKind::Deferral),
        _ => Err(Mistake::UnknownLayer),
    }
}

fn layers(heap: Global, words: Words) -> Result<Vec<LayerKind>, LineError>
    ensures { Gives vec_items result (all_of layer_of words.entry) }
{
    all(heap, words, layer)
}

/// What stands after `pile`: paging, and at most three layers over it from the bottom up
/// (docs/RULES.md, section 11).
#[tactic(auto, using(crate::proofs::Listing::few_of))]
pub fn pile(heap: Global, mut words: Words) -> Result<Layers, LineError>
    ensures { Gives layer_list result (pile_of words.entry) }
{
    let port = words.next().ok_or(Mistake::WordCount)?;
    if count(&words) > MOST_LAYERS {
        return Err(Mistake::WordCount.into());
    }
    match port {
        b"paging" => {
            let layers = layers(heap, words)?;
            Ok(Layers { layers })
        }
        _ => Err(Mistake::UnknownPile.into()),
    }
}

fn put(heap: Global, mut words: Words) -> Result<Call, LineError>
    ensures { Gives asked result (put_of words.entry) }
{
    let raw = a_number(words.next().ok_or(Mistake::WordCount)?)?;
    let words = all(heap, words, a_number)?;
    Ok(Call::Put { raw, words })
}

// What is wrong with a name that begins no call on a bus.
#[tactic(auto, using(crate::proofs::Naming::names))]
fn stray(name: &[u8]) -> Mistake
    ensures { result
        ≡ (if only_on_pile name.now then Mistake.NoPile else Mistake.UnknownStatement) }
{
    match name {
        b"read" | b"update" | b"sync" | b"suspend" | b"resume" => Mistake::NoPile,
        _ => Mistake::UnknownStatement,
    }
}

/// The call on a bus that a name begins (docs/RULES.md, section 11).
#[tactic(auto, using(crate::proofs::Naming::names))]
pub fn read_call(heap: Global, name: &[u8], words: Words) -> Result<Call, LineError>
    ensures { Gives asked result (call_named name.now words.entry) }
{
    match name {
        b"get" => {
            let [raw] = numbers::<1>(words)?;
            Ok(Call::Get { raw })
        }
        b"put" => put(heap, words),
        b"measure" => {
            let [register, word] = numbers::<2>(words)?;
            Ok(Call::Measure { register, word })
        }
        b"down" => {
            let [] = numbers::<0>(words)?;
            Ok(Call::Down)
        }
        b"up" => {
            let [] = numbers::<0>(words)?;
            Ok(Call::Up)
        }
        _ => Err(stray(name).into()),
    }
}

// The call on the port of a pile that a name begins.
#[tactic(auto, using(crate::proofs::Naming::names))]
fn read_port_call(name: &[u8], words: Words) -> Result<PortCall, Mistake>
    ensures { result ≡ port_call_named name.now words.entry }
{
    match name {
        b"read" => {
            let [register] = numbers::<1>(words)?;
            Ok(PortCall::Read { register })
        }
        b"update" => {
            let [register, mask, bits] = numbers::<3>(words)?;
            Ok(PortCall::Update {
                register,
                mask,
                bits,
            })
        }
        b"sync" => {
            let [] = numbers::<0>(words)?;
            Ok(PortCall::Sync)
        }
        b"measure" => {
            let [register, word] = numbers::<2>(words)?;
            Ok(PortCall::Measure { register, word })
        }
        b"down" => {
            let [] = numbers::<0>(words)?;
            Ok(PortCall::Down)
        }
        b"up" => {
            let [] = numbers::<0>(words)?;
            Ok(PortCall::Up)
        }
        b"get" | b"put" => Err(Mistake::UnderPile),
        _ => Err(Mistake::UnknownStatement),
    }
}

/// The call on a pile that a name begins (docs/RULES.md, section 11).
#[tactic(auto, using(crate::proofs::Naming::names))]
pub fn read_pile_call(name: &[u8], words: Words) -> Result<PileCall, Mistake>
    ensures { result ≡ pile_call_named name.now words.entry }
{
    match name {
        b"suspend" => {
            let [] = numbers::<0>(words)?;
            Ok(PileCall::Suspend)
        }
        b"resume" => {
            let [] = numbers::<0>(words)?;
            Ok(PileCall::Resume)
        }
        _ => Ok(PileCall::Port(read_port_call(name, words)?)),
    }
}
