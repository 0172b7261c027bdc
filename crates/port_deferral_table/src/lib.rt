#![tactic(auto)]

mod entry;
mod slots;
mod table;

pub use entry::Entry;
pub use slots::MOST_ENTRIES;
pub use table::Table;
