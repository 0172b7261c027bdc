#![tactic(auto)]

mod places;

pub use places::{Place, room_of};
