#![tactic(auto)]

mod paging;

pub use paging::Paging;
