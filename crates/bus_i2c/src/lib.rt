#![tactic(auto)]

mod i2c;
mod line;

pub use i2c::I2c;
pub use line::Line;
