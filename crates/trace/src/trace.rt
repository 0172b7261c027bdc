// The events that passed, in order, as far as there is room for them.
ghost use Rattle.std.specs.Prelude.{◌≡◌, ℕ, ◌+◌, ◌^◌, ◌<◌, ◌≤◌, List, [], ◌∷◌, ◌++◌, IfOk};
ghost use Rattle.std.specs.Prelude.{vec_items, vec_capacity};
ghost use Rattle.trace.specs.declared.event.Event.{Event};
ghost use Rattle.trace.specs.Traces.{Traced, with_event, HoldsAll, CountsAll, LosesNoneInRoom};

use crate::event::Event;
use std::alloc::{AllocError, Global};
use std::marker::Model;

/// The events of all transfers so far. Its room is reserved at the making, so that noting an event
/// never wants memory; events that find no room are counted (docs/RULES.md, section 10).
#[derive(Drop)]
pub struct Trace {
    events: Vec<Event>,
    lost: usize,
}

impl Model for Trace {
    ghost Value = { Traced };

    ghost view = { λ t. record {
      events = vec_items t.events;
      room = vec_capacity t.events;
      lost = t.lost;
    } };
}

impl Trace {
    /// An empty trace with room for so many events, or for more. An error says that there is no
    /// memory for it (docs/RULES.md, section 10).
    pub fn new(heap: Global, room: usize) -> Result<Trace, AllocError>
        ensures { IfOk result (λ t. (t.events ≡ []) × (t.lost ≡ 0) × (room ≤ t.room)) }
    {
        let events = Vec::with_capacity(heap, room)?;
        Ok(Trace { events, lost: 0 })
    }

    /// Adds an event; one that finds no room is counted, up to 2^64 - 1 of them (docs/RULES.md,
    /// section 10). Where none was lost, the trace has every event that was noted, in order.
    #[tactic(auto, unfolding(crate::specs::Traces::with_event), using(crate::proofs::Noting::next))]
    pub fn note(&mut self, event: Event)
        ensures value { self.new ≡ with_event event self.old }
        ensures all { (es : List Event) → HoldsAll es self.old
            → HoldsAll (es ++ (event ∷ [])) self.new }
        ensures room { LosesNoneInRoom self.old self.new }
        ensures count { (n : ℕ) → n + 1 < 2 ^ 64 → CountsAll n self.old
            → CountsAll (n + 1) self.new }
    {
        if self.events.len() < self.events.capacity() {
            self.events.push_reserved(event);
        } else {
            self.lost = self.lost.saturating_add(1);
        }
    }

    /// The events that found room, in order.
    pub fn events(&self) -> &[Event]
        ensures { result.now ≡ self.now.events }
    {
        &self.events
    }

    /// How many events found no room; 0 exactly where none is left out.
    pub fn lost(&self) -> usize
        ensures { result ≡ self.now.lost }
    {
        self.lost
    }
}
