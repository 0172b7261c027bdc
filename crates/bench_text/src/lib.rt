#![tactic(auto)]

mod notes;
mod text;
mod under;

pub use notes::{Notes, Nothing};
pub use text::{transcript_text, unmade_text};
pub use under::Dues;
