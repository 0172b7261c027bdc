/// What passes between controller and target on the two lines (docs/RULES.md, sections 8 and 10).
#[derive(Debug, Clone, Copy, PartialEq, Eq)]
pub enum Event {
    /// A start, also a repeated one.
    Start,
    /// Eight bits, from whichever end sends, and the other end's acknowledge bit.
    Byte { value: u8, acknowledged: bool },
    /// A stop.
    Stop,
}
