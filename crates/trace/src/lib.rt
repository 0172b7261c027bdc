#![tactic(auto)]

mod event;
mod trace;

pub use event::Event;
pub use trace::Trace;
