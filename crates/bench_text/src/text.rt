// The transcript as text, whose form tools read.
ghost use Rattle.std.specs.Prelude.{◌≡◌, false, map, IfOk, Some, string_bytes};
ghost use Rattle.refusal.specs.Replies.{reply_of, failure_values};
ghost use Rattle.bench_run.specs.Performed.{answer_reply, seen_of};
ghost use Rattle.bench_text.specs.Texts.{reply_text, event_text, goes_on, events_text};
ghost use Rattle.bench_text.specs.Texts.{events_between};
ghost use Rattle.bench_text.specs.Texts.{call_lines, calls_lines, full_text, transcript_text};
ghost use Rattle.bench_text.specs.Texts.{unmade_text};
ghost use Rattle.bench_text.specs.Noting.{call_entries};

use crate::notes::Notes;
use bench_call::{Prints, Word};
use bench_run::{Answer, Outcome};
use bus::Bus;
use refusal::{Failure, Refusal, Tells};
use std::alloc::{AllocError, Global};
use std::fmt;
use trace::Event;

// What a call answered.
#[derive(Clone, Copy)]
struct ReplyText<F> {
    answer: Answer<F>,
}

impl<F: Tells + Copy> fmt::Display for ReplyText<F> {
    ghost output = { λ x. Some (reply_text (answer_reply F.Tells.values x.answer)) };

    fn fmt<W: fmt::Write>(&self, f: &mut fmt::Formatter<W>) -> fmt::Result {
        match self.answer {
            Ok(Some(word)) => {
                let word = Word(word);
                write!(f, "{word}")
            }
            Ok(None) => write!(f, "ok"),
            Err(refusal) => write!(f, "{refusal}"),
        }
    }
}

// One event; `begun` says whether its transfer has started, so that a further start is a repeated
// one.
#[derive(Clone, Copy)]
struct Sent {
    event: Event,
    begun: bool,
}

impl fmt::Display for Sent {
    ghost output = { λ x. Some (event_text x.begun x.event) };

    fn fmt<W: fmt::Write>(&self, f: &mut fmt::Formatter<W>) -> fmt::Result {
        match self.event {
            Event::Start if self.begun => write!(f, " Sr"),
            Event::Start => write!(f, "  S"),
            Event::Byte {
                value,
                acknowledged,
            } => {
                let mark = if acknowledged { 'A' } else { 'N' };
                write!(f, " {value:02X} {mark}")
            }
            Event::Stop => writeln!(f, " P"),
        }
    }
}

// Whether a transfer goes on after an event.
fn goes_on(event: Event) -> bool
    ensures { result ≡ goes_on event }
{
    !matches!(event, Event::Stop)
}

// A line for each transfer.
#[derive(Clone, Copy)]
struct Frames<'a> {
    events: &'a [Event],
}

impl fmt::Display for Frames<'_> {
    ghost output = { λ x. Some (events_text false x.events.now) };

    fn fmt<W: fmt::Write>(&self, f: &mut fmt::Formatter<W>) -> fmt::Result {
        let mut begun = false;
        for event in self.events {
            let event = *event;
            let sent = Sent { event, begun };
            write!(f, "{sent}")?;
            begun = goes_on(event);
        }
        Ok(())
    }
}

// The events that passed between two counts of them.
fn between(events: &[Event], from: usize, to: usize) -> &[Event]
    ensures { result.now ≡ events_between from to events.now }
{
    events.get(from..to).unwrap_or(&[])
}

// A call, its answer, the transfers that it made, and what is told under them.
#[derive(Clone, Copy)]
struct CallText<'a, C, F, N> {
    number: usize,
    call: &'a C,
    answer: Answer<F>,
    events: &'a [Event],
    notes: N,
}

impl<C: Prints, F: Tells + Copy, N: Notes<C, F>> fmt::Display for CallText<'_, C, F, N> {
    ghost output = { λ x. Some (call_lines x.number x.events.now (record {
      call = C.text x.call.now;
      reply = answer_reply F.Tells.values x.answer;
      passed = 0;
      under = N.told (N.state x.notes);
    })) };

    fn fmt<W: fmt::Write>(&self, f: &mut fmt::Formatter<W>) -> fmt::Result {
        let number = self.number;
        let call = self.call;
        let reply = ReplyText {
            answer: self.answer,
        };
        let frames = Frames {
            events: self.events,
        };
        let notes = self.notes;
        write!(f, "{number} {call}: {reply}\n{frames}{notes}")
    }
}

// All calls, numbered from 1, over the events that passed for them.
#[derive(Clone, Copy)]
struct CallsText<'a, C, F, N> {
    events: &'a [Event],
    calls: &'a [C],
    outcomes: &'a [Outcome<F>],
    notes: N,
}

impl<C: Prints, F: Tells + Copy, N: Notes<C, F>> fmt::Display for CallsText<'_, C, F, N> {
    ghost output = { λ x. let calls = x.calls.now in
        let outcomes = map (seen_of F.Tells.values) x.outcomes.now in
        let lines = call_entries C.text N.next N.told (N.state x.notes) calls outcomes in
        Some (calls_lines x.events.now 0 0 lines) };

    fn fmt<W: fmt::Write>(&self, f: &mut fmt::Formatter<W>) -> fmt::Result {
        let mut passed = 0;
        let mut notes = self.notes;
        for (before, (call, outcome)) in self.calls.iter().zip(self.outcomes).enumerate() {
            notes = notes.next(call, outcome.answer);
            let entry = CallText {
                number: before + 1,
                call,
                answer: outcome.answer,
                events: between(self.events, passed, outcome.passed),
                notes,
            };
            write!(f, "{entry}")?;
            passed = outcome.passed;
        }
        Ok(())
    }
}

// The line below the calls where events found no room in the trace.
fn note(lost: usize) -> &'static str
    ensures { result.now ≡ full_text lost }
{
    if lost == 0 {
        ""
    } else {
        "frames left out: the trace is full\n"
    }
}

// What calls answered on a bus, and what passed on its wire for each.
#[derive(Drop)]
struct Transcript<'a, B, C, F, N> {
    bus: &'a B,
    calls: &'a [C],
    outcomes: &'a [Outcome<F>],
    notes: N,
}

impl<B: Bus, C: Prints, F: Tells + Copy, N: Notes<C, F>> fmt::Display
    for Transcript<'_, B, C, F, N> {
    ghost output = { λ x. let calls = x.calls.now in
        let outcomes = map (seen_of F.Tells.values) x.outcomes.now in
        let lines = call_entries C.text N.next N.told (N.state x.notes) calls outcomes in
        let bus = x.bus.now in
        Some (transcript_text (B.machine.trace bus) (B.machine.chip bus).failed lines) };

    fn fmt<W: fmt::Write>(&self, f: &mut fmt::Formatter<W>) -> fmt::Result {
        let entries = CallsText {
            events: self.bus.events(),
            calls: self.calls,
            outcomes: self.outcomes,
            notes: self.notes,
        };
        let note = note(self.bus.lost());
        let calls = self.calls.len().min(self.outcomes.len());
        let failed = self.bus.failed();
        writeln!(f, "{entries}{note}calls {calls}, failed transfers {failed}")
    }
}

/// What the calls answered, what passed for each, and what `notes` tells under it. The calls of a
/// pile are shown over the bus at its bottom, and as many as have both a call and an outcome. Fails
/// only where there is no memory for the text (docs/RULES.md, section 12).
pub fn transcript_text<B: Bus, C: Prints, F: Tells + Copy, N: Notes<C, F>>(
    heap: Global,
    bus: &B,
    calls: &[C],
    outcomes: &[Outcome<F>],
    notes: N,
) -> Result<String, AllocError>
    ensures { let seen = map (seen_of F.Tells.values) outcomes.now in
        let lines = call_entries C.text N.next N.told (N.state notes) calls.now seen in
        let trace = B.machine.trace bus.now in
        let failed = (B.machine.chip bus.now).failed in
        IfOk result (λ t. string_bytes t ≡ transcript_text trace failed lines) }
{
    let transcript = Transcript {
        bus,
        calls,
        outcomes,
        notes,
    };
    Ok(format!(in heap; "{transcript}")?)
}

/// The whole answer where no bus is made, for this reason. Fails only where there is no memory for
/// the text (docs/RULES.md, section 12).
pub fn unmade_text(heap: Global, refusal: Refusal<Failure>) -> Result<String, AllocError>
    ensures { IfOk result (λ t. string_bytes t ≡ unmade_text (reply_of failure_values refusal)) }
{
    Ok(format!(in heap; "bus: {refusal}\n")?)
}
