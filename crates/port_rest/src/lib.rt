// A rest between two times of work: the supply goes, and comes back for a ticket.
#![tactic(auto)]

mod bench;
mod pile;

pub use bench::Bench;
pub use pile::{Pile, RestTicket, rest};
