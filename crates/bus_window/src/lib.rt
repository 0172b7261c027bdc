#![tactic(auto)]

mod window;

pub use window::Window;
