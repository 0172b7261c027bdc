#![tactic(auto)]

mod bus;
mod checks;
mod unmade;

pub use bus::Bus;
pub use checks::{check_awake, check_get, check_length, check_measure, check_put};
pub use unmade::Unmade;
