// What a sheet has said so far.
ghost use Rattle.std.specs.Prelude.{◌≡◌, if◌then◌else◌, vec_items};
ghost use Rattle.bench_sheet.specs.Said.{Gives, map_ok};
ghost use Rattle.bench_sheet.specs.Sheets.{layer_list, blank_sheet, no_calls, with_bus, with_chart};
ghost use Rattle.bench_sheet.specs.Sheets.{with_marks, with_pile, with_call, with_statement};
ghost use Rattle.bench_sheet.specs.Sheets.{after_line, rest_order, rest_after, job_at_rest, job_of};
ghost use Rattle.bench_sheet.specs.Sheets.{finish, Reads};

use crate::cut::{Words, before_comment};
use crate::{
    Calls, ChartName, Layers, LineError, Make, Mistake, PileCall, Sheet, SheetError, line,
};
use std::alloc::Global;
use std::marker::Model;

/// What the lines of a sheet have said so far (docs/RULES.md, section 11).
#[derive(Drop)]
pub struct Draft {
    heap: Global,
    make: Option<Make>,
    chart: Option<ChartName>,
    // Of all `marks` lines, where one came.
    marks: Option<Vec<u8>>,
    calls: Calls,
    // Whether a rest is on after these calls, so that no line has to look through them.
    at_rest: bool,
    ghost of_calls: { at_rest ≡ job_at_rest (job_of calls) },
}

// Whether a rest is on after a call, by whether one is on before it. It begins while none is on,
// and ends while one is.
fn rest_after(at_rest: bool, call: PileCall) -> Result<bool, Mistake>
    ensures { result ≡ rest_order at_rest call (Ok (rest_after at_rest call)) }
{
    match call {
        PileCall::Port(_) => Ok(at_rest),
        PileCall::Suspend if at_rest => Err(Mistake::SecondSuspend),
        PileCall::Suspend => Ok(true),
        PileCall::Resume if at_rest => Ok(false),
        PileCall::Resume => Err(Mistake::NoSuspend),
    }
}

impl Model for Draft {
    ghost use Rattle.std.specs.Prelude.{[], is_some, vec_items};
    ghost use Rattle.std.specs.Option.{option_map, unwrap_or};
    ghost use Rattle.bench_sheet.specs.Sheets.{layer_list, Sofar, job_of};

    ghost Value = { Sofar };

    ghost view = { λ d. record {
      make = d.make;
      name = d.chart;
      marked = is_some d.marks;
      marks =
          unwrap_or (option_map vec_items d.marks) [];
      job = job_of d.calls;
    } };
}

impl Draft {
    /// Nothing is said yet (docs/RULES.md, section 11).
    pub fn new(heap: Global) -> Draft
        ensures { result ≡ blank_sheet }
    {
        Draft {
            heap,
            make: None,
            chart: None,
            marks: None,
            calls: Calls::Bus(Vec::new(heap)),
            at_rest: false,
        }
    }

    // Whether an opening line may still come.
    fn opening(&self) -> Result<(), Mistake>
        ensures { result ≡ (if no_calls self.now.job then Ok tt else Err Mistake.LateOpening) }
    {
        if self.calls.is_empty() {
            Ok(())
        } else {
            Err(Mistake::LateOpening)
        }
    }

    fn bus(&mut self, make: Make) -> Result<(), Mistake>
        ensures { map_ok (λ _. self.new) result ≡ with_bus self.old make }
    {
        self.opening()?;
        if self.make.is_some() {
            return Err(Mistake::SecondBus);
        }
        if self.marks.is_some() && matches!(make, Make::Window) {
            return Err(Mistake::MarksOnWindow);
        }
        self.make = Some(make);
        Ok(())
    }

    fn chart(&mut self, name: ChartName) -> Result<(), Mistake>
        ensures { map_ok (λ _. self.new) result ≡ with_chart self.old name }
    {
        self.opening()?;
        if self.chart.is_some() {
            return Err(Mistake::SecondChart);
        }
        self.chart = Some(name);
        Ok(())
    }

    fn marks(&mut self, marks: Vec<u8>) -> Result<(), LineError>
        ensures { Gives (λ _. self.new) result (with_marks self.old (vec_items marks)) }
    {
        self.opening()?;
        if matches!(self.make, Some(Make::Window)) {
            return Err(Mistake::MarksOnWindow.into());
        }
        match &mut self.marks {
            Some(all) => all.extend_from_slice(marks.as_slice())?,
            None => self.marks = Some(marks),
        }
        Ok(())
    }

    fn pile(&mut self, layers: Layers) -> Result<(), Mistake>
        ensures { map_ok (λ _. self.new) result ≡ with_pile self.old (layer_list layers) }
    {
        self.opening()?;
        if matches!(self.calls, Calls::Pile { .. }) {
            return Err(Mistake::SecondPile);
        }
        self.calls = Calls::Pile {
            layers,
            calls: Vec::new(self.heap),
        };
        Ok(())
    }

    // Which calls a line may hold is settled by what they are performed on. That the bus is missing
    // is told after what is wrong with the words.
    fn call(&mut self, name: &[u8], words: Words) -> Result<(), LineError>
        ensures { let done = with_call self.old self.old.job name.now words.entry in
            Gives (λ _. self.new) result done }
    {
        let bus = self.make.ok_or(Mistake::NoBus);
        match &mut self.calls {
            Calls::Bus(calls) => {
                let call = line::read_call(self.heap, name, words)?;
                let _ = bus?;
                calls.push(call)?;
            }
            Calls::Pile { calls, .. } => {
                let call = line::read_pile_call(name, words)?;
                let _ = bus?;
                let at_rest = rest_after(self.at_rest, call)?;
                calls.push(call)?;
                self.at_rest = at_rest;
            }
        }
        Ok(())
    }

    // Takes a statement by its name and the words after it.
    #[tactic(auto, using(crate::proofs::Naming::names))]
    fn statement(&mut self, name: &[u8], words: Words) -> Result<(), LineError>
        ensures { Gives (λ _. self.new) result (with_statement self.old name.now words.entry) }
    {
        match name {
            b"bus" => Ok(self.bus(line::bus(words)?)?),
            b"chart" => Ok(self.chart(line::chart(words)?)?),
            b"marks" => self.marks(line::marks(self.heap, words)?),
            b"pile" => Ok(self.pile(line::pile(self.heap, words)?)?),
            _ => self.call(name, words),
        }
    }

    /// Takes what a line says. Where the line is not taken, nothing is known of the draft
    /// (docs/RULES.md, section 11).
    pub fn line(&mut self, line: &[u8]) -> Result<(), LineError>
        ensures { Gives (λ _. self.new) result (after_line self.old line.now) }
    {
        let mut words = Words(before_comment(line));
        let Some(name) = words.next() else {
            return Ok(());
        };
        self.statement(name, words)
    }

    /// The sheet, where the text ends before this line. Refused without a bus, or with a rest that
    /// is not ended (docs/RULES.md, section 11).
    pub fn finish(self, line: usize) -> Result<Sheet, SheetError>
        ensures { Reads result (finish line self) }
    {
        let mistake = Mistake::NoBus;
        let make = self.make.ok_or(SheetError::Wrong { line, mistake })?;
        if self.at_rest {
            let mistake = Mistake::NoResume;
            return Err(SheetError::Wrong { line, mistake });
        }
        Ok(Sheet {
            make,
            chart: self.chart.unwrap_or(ChartName::Head),
            marks: self.marks.unwrap_or(Vec::new(self.heap)),
            calls: self.calls,
        })
    }
}
