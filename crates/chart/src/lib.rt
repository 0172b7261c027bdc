#![tactic(auto)]

mod charts;
mod class;

pub use charts::{Head, Valve};
pub use class::{Chart, Class};
