// A pile that can be put to rest.
ghost use Rattle.std.specs.Prelude.{◌≡◌};
ghost use Rattle.refusal.specs.Replies.{port_reply, no_value};
ghost use Rattle.port_rest.specs.Rests.{resume};

use port::Port;
use refusal::{Fault, Refusal};

/// A rest that is under way, for whoever has it to end (docs/RULES.md, section 18).
///
/// It is neither `Copy` nor `Drop`, and only [`Pile::suspend`] makes one: it is spent by
/// [`Pile::resume`], once, or handed on. A program that lets it go, or spends it twice, is not
/// compiled.
pub struct RestTicket(());

/// A pile, by the port on top of it, which calls may go to at any time (docs/RULES.md, section 18).
#[derive(Drop)]
pub struct Pile<P> {
    /// The port on top of it.
    pub port: P,
}

impl<P: Port> Pile<P> {
    /// Takes the supply away, as the port's `down` does, and hands out the ticket for which it
    /// comes back. Never refused (docs/RULES.md, section 18).
    pub fn suspend(&mut self) -> RestTicket
        ensures { self.new.port ≡ P.machine.down self.old.port }
    {
        self.port.down();
        RestTicket(())
    }

    /// Brings the supply back, as the port's `up` does, and then syncs; the reply is the sync's.
    /// The ticket is spent, whatever the reply. Refused by 6 if a transfer of the sync failed: the
    /// supply is on then, and another sync may follow (docs/RULES.md, section 18).
    pub fn resume(&mut self, ticket: RestTicket) -> Result<(), Refusal<Fault>>
        ensures { (port_reply no_value result, self.new.port) ≡ resume P.machine self.old.port }
    {
        let RestTicket(()) = ticket;
        self.port.up();
        self.port.sync()
    }
}

/// A rest from its beginning to its end: the supply goes and comes back. The reply is that of the
/// sync at its end, refused by 6 if a transfer of it failed (docs/RULES.md, section 18).
pub fn rest<P: Port>(pile: &mut Pile<P>) -> Result<(), Refusal<Fault>>
    ensures { (port_reply no_value result, pile.new.port)
        ≡ resume P.machine (P.machine.down pile.old.port) }
{
    let ticket = pile.suspend();
    pile.resume(ticket)
}
