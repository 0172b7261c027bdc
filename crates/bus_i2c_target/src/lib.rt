#![tactic(auto)]

mod target;

pub use target::{State, Target, bytes_of, read_byte, word_of, write_byte};
