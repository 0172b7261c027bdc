// The controller's end of the wire, and what passes to the chip at the other end.
ghost use Rattle.std.specs.Prelude.{◌≡◌, ◌+◌, ◌*◌, [], ◌∷◌, length, OnOk};
ghost use Rattle.refusal.specs.Replies.{wire_reply, word_value, no_value};
ghost use Rattle.trace.specs.declared.event.Event.TheVariants.{Byte};
ghost use Rattle.bus_i2c_target.specs.Targets.{byte_on_wire};
ghost use Rattle.bus_i2c_wire.specs.Frames.{own_address, pointed_word, pass, carry, new_wired};
ghost use Rattle.bus_i2c_wire.specs.Frames.{with_register};
ghost use Rattle.bus_i2c_wire.specs.Frames.{byte_events, word_bytes, put_bytes, head_bytes};
ghost use Rattle.bus_i2c_wire.specs.Frames.{fetch_events};
ghost use Rattle.bus_i2c_wire.specs.Frames.{answer, transfer_reply, cause_of_put, cause_of_get};
ghost use Rattle.bus_i2c_wire.specs.Frames.{put_frame, get_frame, Recovered, Untouched};
ghost use Rattle.bus_i2c_wire.specs.Requests.{get_request, put_request, Arrives};

use bus_i2c_target::{Target, bytes_of, read_byte, word_of, write_byte};
use chart::Chart;
use chip::memory;
use refusal::Cause;
use std::marker::Model;
use trace::{Event, Trace};

/// A wire with the controller at one end and one chip at the other, and the trace of what passed
/// between them (docs/RULES.md, sections 8 and 10).
#[derive(Drop)]
pub struct Wire {
    target: Target,
    words: [u16; memory::WORDS],
    trace: Trace,
}

impl Model for Wire {
    ghost use Rattle.bus_i2c_wire.specs.Frames.{Wired, wire_of};

    ghost Value = { Wired };

    ghost view = { λ w. wire_of w.target w.words w.trace };
}

impl Wire {
    /// A wire to a new chip at a seven-bit address: its words as the chart resets them, its target
    /// Idle. What the trace holds already stands.
    pub fn new<C: Chart>(address: u8, trace: Trace) -> Wire
        ensures { result ≡ new_wired C.Chart.resets address trace }
    {
        let mut words = [0; memory::WORDS];
        memory::reset::<C>(&mut words);
        Wire {
            target: Target::new(address),
            words,
            trace,
        }
    }

    /// The chip and its target as new, at the same address; the trace stands.
    pub fn reset<C: Chart>(&mut self)
        ensures { self.new ≡ new_wired C.Chart.resets (own_address self.old) self.old.trace }
    {
        self.target = Target::new(self.target.address);
        memory::reset::<C>(&mut self.words);
    }

    /// The chip's own act: a word goes into a register, by its number, and nothing passes
    /// (docs/RULES.md, section 7).
    pub fn set_register(&mut self, register: u16, word: u16)
        ensures { self.new ≡ with_register register word self.old }
    {
        memory::set_register(&mut self.words, register, word);
    }

    /// The events that passed so far, in order, as far as there was room
    /// (docs/RULES.md, section 10).
    pub fn events(&self) -> &[Event]
        ensures { result.now ≡ self.now.trace.events }
    {
        self.trace.events()
    }

    /// How many events found no room (docs/RULES.md, section 10).
    pub fn lost(&self) -> usize
        ensures { result ≡ self.now.trace.lost }
    {
        self.trace.lost()
    }

    // One event passes: the target hears it, and the trace keeps it.
    fn pass(&mut self, event: Event)
        ensures { self.new ≡ pass event self.old }
    {
        self.target.hear(event, &mut self.words);
        self.trace.note(event);
    }

    // Sends bytes up to the first that is not acknowledged, and says by the cause if there was one.
    // A mark counts the bytes of the whole transfer, so each part is sent under it less what was
    // sent before.
    fn send(&mut self, bytes: &[u8], mark: usize, cause: Cause) -> Result<(), Cause>
        ensures value { result ≡ answer mark (length bytes.now) tt cause }
        ensures wire { self.new ≡ carry (byte_events bytes.now mark) self.old }
    {
        for (i, &value) in bytes.iter().enumerate() {
            let acknowledged = i + 1 != mark;
            self.pass(Event::Byte {
                value,
                acknowledged,
            });
            if !acknowledged {
                return Err(cause);
            }
        }
        Ok(())
    }

    // Takes a byte from the target.
    fn take(&mut self, acknowledged: bool) -> u8
        ensures value { result ≡ byte_on_wire self.old.target self.old.words }
        ensures wire { self.new ≡ pass (Byte result acknowledged) self.old }
    {
        let value = self.target.gives(&self.words);
        self.pass(Event::Byte {
            value,
            acknowledged,
        });
        value
    }

    // The address to write to, and the raw address.
    fn send_head(&mut self, raw: u8, mark: usize) -> Result<(), Cause>
        ensures value { result ≡ answer mark 2 tt (cause_of_put mark) }
        ensures wire { let bytes = head_bytes (own_address self.old) raw in
            self.new ≡ carry (byte_events bytes mark) self.old }
    {
        let address = write_byte(self.target.address);
        self.send(&[address], mark, Cause::Address)?;
        self.send(&[raw], mark.saturating_sub(1), Cause::Data)
    }

    // Sends words, each high byte first, up to the first byte that is not acknowledged.
    fn send_words(&mut self, words: &[u16], mark: usize) -> Result<(), Cause>
        ensures value { result ≡ answer mark (2 * length words.now) tt Cause.Data }
        ensures wire { self.new ≡ carry (byte_events (word_bytes words.now) mark) self.old }
    {
        for (i, &word) in words.iter().enumerate() {
            self.send(&bytes_of(word), mark.saturating_sub(2 * i), Cause::Data)?;
        }
        Ok(())
    }

    // All bytes of a put.
    fn send_put(&mut self, raw: u8, words: &[u16], mark: usize) -> Result<(), Cause>
        ensures value { result ≡ answer mark (2 + 2 * length words.now) tt (cause_of_put mark) }
        ensures wire { let bytes = put_bytes (own_address self.old) raw words.now in
            self.new ≡ carry (byte_events bytes mark) self.old }
    {
        self.send_head(raw, mark)?;
        self.send_words(words, mark.saturating_sub(2))
    }

    /// A put of words from a raw address on, as one transfer. The mark is the byte that is not
    /// acknowledged, counted from 1; 0, or a mark above 2 + 2 × words, names none. Fails with the
    /// kind of that byte, and the words whose low bytes were acknowledged before are stored
    /// (docs/RULES.md, section 8).
    #[tactic(auto, using(crate::proofs::Recovering::recovered, crate::proofs::Arriving::of_put))]
    pub fn put(&mut self, raw: u8, words: &[u16], mark: u8) -> Result<(), Cause>
        ensures value { wire_reply no_value result
            ≡ transfer_reply mark (2 + 2 * length words.now) [] (cause_of_put mark) }
        ensures wire { let frame = put_frame (own_address self.old) raw words.now mark in
            self.new ≡ carry frame self.old }
        ensures recovered { Recovered (own_address self.old) raw words.now mark }
        ensures arrives { OnOk result (Arrives (put_request (own_address self.old) raw words.now)
            (put_frame (own_address self.old) raw words.now mark)) }
    {
        self.pass(Event::Start);
        let answer = self.send_put(raw, words, usize::from(mark));
        self.pass(Event::Stop);
        answer
    }

    // Start to last byte of a get.
    fn fetch(&mut self, raw: u8, mark: usize) -> Result<u16, Cause>
        ensures value { result ≡ answer mark 3 (pointed_word self.old raw) (cause_of_get mark) }
        ensures wire { let word = pointed_word self.old raw in
            let events = fetch_events (own_address self.old) raw word mark in
            self.new ≡ carry events self.old }
    {
        let again = read_byte(self.target.address);
        self.pass(Event::Start);
        self.send_head(raw, mark)?;
        self.pass(Event::Start);
        self.send(&[again], mark.saturating_sub(2), Cause::Address)?;
        let high = self.take(true);
        let low = self.take(false);
        Ok(word_of(high, low))
    }

    /// A get of the word at a raw address, as one transfer. The mark is the byte that is not
    /// acknowledged, counted from 1; 0, or a mark above 3, names none. Fails with the kind of that
    /// byte; it stores nothing (docs/RULES.md, section 8).
    #[tactic(auto, using(crate::proofs::Arriving::of_get, crate::proofs::Effects::untouched))]
    pub fn get(&mut self, raw: u8, mark: u8) -> Result<u16, Cause>
        ensures value { wire_reply word_value result
            ≡ transfer_reply mark 3 (pointed_word self.old raw ∷ []) (cause_of_get mark) }
        ensures wire { let word = pointed_word self.old raw in
            let frame = get_frame (own_address self.old) raw word mark in
            self.new ≡ carry frame self.old }
        ensures untouched { Untouched (own_address self.old) raw (pointed_word self.old raw) mark }
        ensures arrives { OnOk result (Arrives (get_request (own_address self.old) raw)
            (get_frame (own_address self.old) raw (pointed_word self.old raw) mark)) }
    {
        let word = self.fetch(raw, usize::from(mark));
        self.pass(Event::Stop);
        word
    }
}
