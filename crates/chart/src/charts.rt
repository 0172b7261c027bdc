// The two charts: the teat sensor head and the wash arm's valve block.
ghost use Rattle.chart.specs.Charts.{head_class, head_reset, valve_class, valve_reset};
ghost use Rattle.std.proofs.Common.{rules};

use crate::class::{Chart, Class};

/// The chart of the teat sensor head: numbers below 128, of which 1 to 19 and 32 to 111 are
/// settings, and 20 to 23 and 112 to 127 live (docs/RULES.md, section 3).
#[derive(Debug, Clone, Copy, PartialEq, Eq)]
pub struct Head;

impl Chart for Head {
    ghost counted = { 128 };

    ghost classed = { head_class };

    ghost resets = { head_reset };

    ghost rules = { Prim.search rules };

    fn count() -> u16 {
        128
    }

    fn class(register: u16) -> Class {
        match register {
            1..=19 | 32..=111 => Class::Setting,
            20..=23 | 112..=127 => Class::Live,
            _ => Class::Absent,
        }
    }

    fn reset(register: u16) -> u16 {
        match register {
            32..=95 => 0x0080,
            96..=111 => 0xFFFF,
            _ => 0,
        }
    }
}

/// The chart of the valve block: numbers below 32, of which 1 to 15 are settings and 16 to 19 live
/// (docs/RULES.md, section 3).
#[derive(Debug, Clone, Copy, PartialEq, Eq)]
pub struct Valve;

impl Chart for Valve {
    ghost counted = { 32 };

    ghost classed = { valve_class };

    ghost resets = { valve_reset };

    ghost rules = { Prim.search rules };

    fn count() -> u16 {
        32
    }

    fn class(register: u16) -> Class {
        match register {
            1..=15 => Class::Setting,
            16..=19 => Class::Live,
            _ => Class::Absent,
        }
    }

    fn reset(register: u16) -> u16 {
        match register {
            1..=15 => 1,
            _ => 0,
        }
    }
}
