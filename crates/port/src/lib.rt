#![tactic(auto)]

mod checks;
mod port;

pub use checks::Access;
pub use port::Port;
