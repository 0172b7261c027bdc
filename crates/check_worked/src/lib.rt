// Worked cases, as one statement about the definitions that the contracts use.
#![tactic(auto)]

ghost use Rattle.check_worked.specs.Cases.{WorkedCases};

/// The worked cases hold of the definitions that contracts use (docs/RULES.md, section 1). It does
/// nothing.
pub fn worked_cases_hold()
    ensures { WorkedCases }
{}
