// Which registers a chip has.
ghost use Rattle.std.specs.Prelude.{◌≡◌, ℕ};
ghost use Rattle.chart.specs.declared.class.Class.{Class};
ghost use Rattle.chart.specs.Rules.{ChartRules};

/// What a number names (docs/RULES.md, section 3).
#[derive(Debug, Clone, Copy, PartialEq, Eq)]
pub enum Class {
    /// No register.
    Absent,
    /// A register that its user writes.
    Setting,
    /// A register that the chip itself writes: a measurement.
    Live,
}

/// Which registers a chip has, and which words are in them when it is new. A chart answers for
/// every number, also for one that names no register (docs/RULES.md, section 3).
pub trait Chart {
    // the three answers, as definitions
    ghost counted: { ℕ };

    ghost classed: { ℕ → Class };

    ghost resets: { ℕ → ℕ };

    /// How far the registers reach: each number from here on is absent. From 1 to 128.
    fn count() -> u16
        ensures { result ≡ counted };

    /// What a number names. 0 is always absent.
    fn class(register: u16) -> Class
        ensures { result ≡ classed register };

    /// The word that a register holds when the chip is new; 0 wherever no setting is.
    fn reset(register: u16) -> u16
        ensures { result ≡ resets register };

    // what each `impl` must prove
    ghost rules: { ChartRules counted classed resets };
}
