// What a call on a bus is refused for before anything is sent, in the order in which refusals win.
// Such a refusal tells of no transfer, so that it serves a bus and a port alike.
ghost use Rattle.std.specs.Prelude.{◌≡◌};
ghost use Rattle.bus.specs.Checks.{awake_check, length_check, check_reply, get_check, put_check};
ghost use Rattle.bus.specs.Checks.{measure_check};

use chart::Class;
use refusal::{Refusal, Tells};

/// Whether what is asked for can be reached: on a bus the supply must be on; a port counts what it
/// keeps as awake too. Else it refuses by 5 (asleep) (docs/RULES.md, section 4).
pub fn check_awake<F: Tells>(supply: bool) -> Result<(), Refusal<F>>
    ensures { check_reply F.values result ≡ awake_check supply }
{
    if supply { Ok(()) } else { Err(Refusal::Asleep) }
}

/// Whether one call may carry so many words, in a put and in a run. Refuses by 1 (length) any
/// number but 1 to 16 (docs/RULES.md, section 4).
pub fn check_length<F: Tells>(count: usize) -> Result<(), Refusal<F>>
    ensures { check_reply F.values result ≡ length_check count }
{
    if (1..=16).contains(&count) {
        Ok(())
    } else {
        Err(Refusal::Length)
    }
}

/// What a get is refused for before it is sent: by 2 (register) a raw address above 63, and else by
/// 5 (asleep) with the supply off (docs/RULES.md, section 7).
pub fn check_get<F: Tells>(raw: u16, supply: bool) -> Result<(), Refusal<F>>
    ensures { check_reply F.values result ≡ get_check raw supply }
{
    if raw > 63 {
        return Err(Refusal::Register);
    }
    check_awake(supply)
}

/// What a put of `count` words is refused for before it is sent: by 1 (length) any number but 1 to
/// 16, else by 2 (register) if the last word would lie above raw 63, and else by 5 (asleep) with
/// the supply off (docs/RULES.md, section 7).
pub fn check_put<F: Tells>(raw: u16, count: usize, supply: bool) -> Result<(), Refusal<F>>
    ensures { check_reply F.values result ≡ put_check raw count supply }
{
    check_length(count)?;
    if usize::from(raw) + count > 64 {
        return Err(Refusal::Register);
    }
    check_awake(supply)
}

/// What a measurement is refused for, by the class of its register: by 2 (register) an absent one,
/// and by 4 (setting) a setting (docs/RULES.md, section 7).
pub fn check_measure<F: Tells>(class: Class) -> Result<(), Refusal<F>>
    ensures { check_reply F.values result ≡ measure_check class }
{
    match class {
        Class::Absent => Err(Refusal::Register),
        Class::Setting => Err(Refusal::Setting),
        Class::Live => Ok(()),
    }
}
