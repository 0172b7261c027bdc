// A pile between the calls of a list, some of which begin or end a rest.
ghost use Rattle.std.specs.Prelude.{◌≡◌, None, true, is_some};
ghost use Rattle.refusal.specs.Replies.{port_reply, no_value};
ghost use Rattle.port_rest.specs.Rests.{resume};

use crate::pile::{Pile, RestTicket};
use port::Port;
use refusal::{Fault, Refusal};

/// A pile, and the ticket of the rest that it is in, if it is in one: what is carried from one call
/// of a list to the next (docs/RULES.md, section 18).
pub struct Bench<P> {
    /// The pile, which calls may go to at any time.
    pub pile: Pile<P>,
    ticket: Option<RestTicket>,
}

impl<P: Port> Bench<P> {
    /// A pile that is not at rest (docs/RULES.md, section 18).
    pub fn new(port: P) -> Bench<P>
        ensures port { result.pile.port ≡ port }
        ensures awake { result.ticket ≡ None }
    {
        Bench {
            pile: Pile { port },
            ticket: None,
        }
    }

    /// Begins a rest: the supply goes. In a rest already, it goes again, and the ticket that is out
    /// stays. Never refused (docs/RULES.md, section 18).
    pub fn suspend(&mut self)
        ensures ticket { is_some self.new.ticket ≡ true }
        ensures pile { self.new.pile.port ≡ P.machine.down self.old.pile.port }
    {
        let ticket = match self.ticket.take() {
            Some(ticket) => {
                self.pile.port.down();
                ticket
            }
            None => self.pile.suspend(),
        };
        match self.ticket.replace(ticket) {
            Some(_ticket) => unreachable!(),
            None => {}
        }
    }

    /// Ends a rest, with the reply of its sync: refused by 6 if a transfer failed, and the rest is
    /// over all the same. Where there is none, the supply comes and the sync is made too
    /// (docs/RULES.md, section 18).
    pub fn resume(&mut self) -> Result<(), Refusal<Fault>>
        ensures ticket { self.new.ticket ≡ None }
        ensures pile { (port_reply no_value result, self.new.pile.port)
            ≡ resume P.machine self.old.pile.port }
    {
        match self.ticket.take() {
            Some(ticket) => self.pile.resume(ticket),
            None => {
                self.pile.port.up();
                self.pile.port.sync()
            }
        }
    }

    /// The end of the list. A rest that is under way is ended, whatever its sync answers
    /// (docs/RULES.md, section 18).
    pub fn finish(self)
    where
        P: Drop,
    {
        let Bench { mut pile, ticket } = self;
        match ticket {
            Some(ticket) => {
                let _ = pile.resume(ticket);
            }
            None => {}
        }
    }
}
