// The chip's end of the wire.
ghost use Rattle.std.specs.Prelude.{◌≡◌, ◌+◌, ◌*◌, ◌/◌, ◌%◌, [], ◌∷◌};
ghost use Rattle.bus_i2c_target.specs.Targets.{write_byte, read_byte, new_target, address_state};
ghost use Rattle.bus_i2c_target.specs.Targets.{advance, target_after_event, words_after_event};
ghost use Rattle.bus_i2c_target.specs.Targets.{byte_on_wire};

use chip::memory;
use trace::Event;

/// What a target is about to do with the next byte (docs/RULES.md, section 8).
#[derive(Debug, Clone, Copy, PartialEq, Eq)]
pub enum State {
    /// Takes no part.
    Idle,
    /// After a start: the next byte is an address.
    Listening,
    /// Written to: the next byte is the raw address.
    Pointing,
    /// The next byte is the high byte of a word.
    Ready,
    /// Holds this high byte: the next byte completes the word.
    Half(u8),
    /// Sends the high byte of the word that is pointed at.
    Giving,
    /// Sends the low byte of that word.
    GivingLow,
}

/// The chip's end of the wire (docs/RULES.md, section 8).
#[derive(Debug, Clone, Copy, PartialEq, Eq)]
pub struct Target {
    /// The address that it answers at, of seven bits.
    pub address: u8,
    /// What it is about to do.
    pub state: State,
    /// The raw address of the next word, 0 to 63.
    pub pointer: u8,
}

/// The address byte of a write: twice the address, which has seven bits (docs/RULES.md, section 8).
pub fn write_byte(address: u8) -> u8
    ensures { result ≡ write_byte address }
{
    address << 1
}

/// The address byte of a read, one more than that of a write (docs/RULES.md, section 8).
pub fn read_byte(address: u8) -> u8
    ensures { result ≡ read_byte address }
{
    write_byte(address) + 1
}

/// A word from its two bytes, the high one first (docs/RULES.md, section 8).
pub fn word_of(high: u8, low: u8) -> u16
    ensures { result ≡ high * 256 + low }
{
    u16::from_be_bytes([high, low])
}

/// A word's two bytes in the order of the wire, the high one first (docs/RULES.md, section 8).
pub fn bytes_of(word: u16) -> [u8; 2]
    ensures { result ≡ word / 256 ∷ word % 256 ∷ [] }
{
    word.to_be_bytes()
}

impl Target {
    /// A target at this address, Idle, with pointer 0 (docs/RULES.md, section 8).
    pub fn new(address: u8) -> Target
        ensures { result ≡ new_target address }
    {
        Target {
            address,
            state: State::Idle,
            pointer: 0,
        }
    }

    /// Takes one event from the wire, and stores in the chip's words what it completes. A byte that
    /// is sent to it and not acknowledged is dropped (docs/RULES.md, section 8).
    pub fn hear(&mut self, event: Event, words: &mut [u16])
        ensures target { self.new ≡ target_after_event event self.old }
        ensures words { words.new ≡ words_after_event event self.old words.old }
    {
        match (self.state, event) {
            (_, Event::Start) => self.state = State::Listening,
            (_, Event::Stop) => self.state = State::Idle,
            (State::Giving, Event::Byte { .. }) => self.state = State::GivingLow,
            (State::GivingLow, Event::Byte { .. }) => self.advance(State::Giving),
            (State::Idle, Event::Byte { .. }) => {}
            (_, Event::Byte { acknowledged, .. }) if !acknowledged => {}
            (State::Listening, Event::Byte { value, .. }) => self.state = self.addressed(value),
            (State::Pointing, Event::Byte { value, .. }) => {
                self.pointer = value % 64;
                self.state = State::Ready;
            }
            (State::Ready, Event::Byte { value, .. }) => self.state = State::Half(value),
            (State::Half(high), Event::Byte { value, .. }) => {
                memory::store(words, u16::from(self.pointer), word_of(high, value));
                self.advance(State::Ready);
            }
        }
    }

    /// The byte that it puts on the wire: one of the word that is pointed at; where it gives
    /// nothing, the line stays high, which is 0xFF (docs/RULES.md, section 8).
    pub fn gives(&self, words: &[u16]) -> u8
        ensures { result ≡ byte_on_wire self.now words.now }
    {
        let [high, low] = bytes_of(memory::load(words, u16::from(self.pointer)));
        match self.state {
            State::Giving => high,
            State::GivingLow => low,
            _ => 0xff,
        }
    }

    // The state after an address byte.
    fn addressed(&self, byte: u8) -> State
        ensures { result ≡ address_state self.now.address byte }
    {
        if byte == write_byte(self.address) {
            State::Pointing
        } else if byte == read_byte(self.address) {
            State::Giving
        } else {
            State::Idle
        }
    }

    // One word is done: the pointer rises, and goes round after 63.
    fn advance(&mut self, state: State)
        ensures { self.new ≡ advance state self.old }
    {
        self.pointer = self.pointer.wrapping_add(1) % 64;
        self.state = state;
    }
}
