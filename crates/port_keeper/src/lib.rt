// The keeper over any port: a layer that holds the settings itself, so they outlive the supply.
#![tactic(auto)]

mod keeper;

pub use keeper::Keeper;
