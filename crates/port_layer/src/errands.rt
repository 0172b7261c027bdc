// A fault met while sending what was owed from before.
ghost use Rattle.std.specs.Prelude.{◌≡◌};
ghost use Rattle.refusal.specs.Replies.{reply_of, fault_values};
ghost use Rattle.port_layer.specs.Errands.{on_owed, FaultIsOwed, SameButErrand};

use refusal::{Errand, Fault, Refusal};

/// A refusal met while sending what was owed from before: a fault gets errand 1, and any other
/// refusal stands as it is (docs/RULES.md, sections 13, 15 and 16).
pub fn on_owed(refusal: Refusal<Fault>) -> Refusal<Fault>
    ensures value { reply_of fault_values result ≡ on_owed (reply_of fault_values refusal) }
    ensures law { FaultIsOwed (reply_of fault_values result) }
    ensures rest { SameButErrand (reply_of fault_values refusal) (reply_of fault_values result) }
{
    match refusal {
        Refusal::Line(fault) => Refusal::Line(Fault {
            errand: Errand::Owed,
            ..fault
        }),
        other => other,
    }
}
