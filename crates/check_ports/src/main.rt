// Asks ports for what lies at the edges of what they take, and checks and prints each answer:
// paging over both makes of bus, a keeper on it, and a deferral on that.
#![tactic(auto)]

ghost use Rattle.std.specs.Prelude.{◌≡◌, ◌==◌};
ghost use Rattle.refusal.specs.Replies.{port_reply, no_value};

use bus::Bus;
use bus_i2c::I2c;
use bus_window::Window;
use chart::Head;
use chip::memory;
use patch::Patch;
use port::Port;
use port_deferral::Deferral;
use port_keeper::Keeper;
use port_paging::Paging;
use refusal::{Fault, Refusal};
use std::fmt;
use std::process::ExitCode;
use trace::Trace;

// A call in words, what it got, and the number of the refusal that it should get; 0 where it should
// be accepted.
#[derive(Clone, Copy)]
struct Case {
    call: &'static str,
    answer: Result<(), Refusal<Fault>>,
    expected: u8,
}

impl Case {
    fn holds(&self) -> bool
        ensures { result ≡ ((port_reply no_value self.now.answer).number == self.now.expected) }
    {
        match &self.answer {
            Ok(()) => self.expected == 0,
            Err(refusal) => refusal.number() == self.expected,
        }
    }
}

impl fmt::Display for Case {
    fn fmt<W: fmt::Write>(&self, f: &mut fmt::Formatter<W>) -> fmt::Result {
        let call = self.call;
        match self.answer {
            Ok(()) => write!(f, "{call}: ok"),
            Err(refusal) => write!(f, "{call}: {refusal}"),
        }
    }
}

fn read<P: Port>(port: &mut P, register: u16) -> Result<(), Refusal<Fault>> {
    let _ = port.read(register)?;
    Ok(())
}

// On the head chart 19 is a setting, 20 to 23 are live, and 24 to 31 are absent.
#[rattlefmt::skip]
fn awake<P: Port<Chart = Head>>(port: &mut P) -> [Case; 19] {
    let patch = Patch { mask: 0xFFFF, bits: 7 };
    [
        Case { call: "run of 16 from 40", answer: port.run(40, &[7; 16]), expected: 0 },
        Case { call: "run of 17 from 40", answer: port.run(40, &[7; 17]), expected: 1 },
        Case { call: "run of 0 from 40", answer: port.run(40, &[]), expected: 1 },
        Case { call: "run of 10 from 19", answer: port.run(19, &[7; 10]), expected: 2 },
        Case { call: "run of 5 from 19", answer: port.run(19, &[7; 5]), expected: 3 },
        Case { call: "updates of 17 from 40", answer: port.update_each(40, &[7; 17]), expected: 1 },
        Case { call: "updates of 2 from 19", answer: port.update_each(19, &[7; 2]), expected: 3 },
        Case { call: "read 0", answer: read(port, 0), expected: 2 },
        Case { call: "read 28", answer: read(port, 28), expected: 2 },
        Case { call: "read 128", answer: read(port, 128), expected: 2 },
        Case { call: "update 0", answer: port.update(0, patch), expected: 2 },
        Case { call: "update 28", answer: port.update(28, patch), expected: 2 },
        Case { call: "update 128", answer: port.update(128, patch), expected: 2 },
        Case { call: "measure 0", answer: port.measure(0, 7), expected: 2 },
        Case { call: "measure 28", answer: port.measure(28, 7), expected: 2 },
        Case { call: "measure 128", answer: port.measure(128, 7), expected: 2 },
        Case { call: "update 20", answer: port.update(20, patch), expected: 3 },
        Case { call: "measure 19", answer: port.measure(19, 7), expected: 4 },
        Case { call: "sync", answer: port.sync(), expected: 0 },
    ]
}

// Asleep is told last, and of settings only by a port that forgets them.
#[rattlefmt::skip]
fn asleep<P: Port<Chart = Head>>(port: &mut P) -> [Case; 11] {
    let patch = Patch { mask: 0xFFFF, bits: 7 };
    let of_settings = if P::KEEPS { 0 } else { 5 };
    port.down();
    [
        Case { call: "run of 17 from 40", answer: port.run(40, &[7; 17]), expected: 1 },
        Case { call: "run of 10 from 19", answer: port.run(19, &[7; 10]), expected: 2 },
        Case { call: "run of 5 from 19", answer: port.run(19, &[7; 5]), expected: 3 },
        Case { call: "run of 2 from 40", answer: port.run(40, &[7; 2]), expected: of_settings },
        Case { call: "read 28", answer: read(port, 28), expected: 2 },
        Case { call: "read 19", answer: read(port, 19), expected: of_settings },
        Case { call: "read 20", answer: read(port, 20), expected: 5 },
        Case { call: "update 20", answer: port.update(20, patch), expected: 3 },
        Case { call: "update 19", answer: port.update(19, patch), expected: of_settings },
        Case { call: "measure 19", answer: port.measure(19, 7), expected: 4 },
        Case { call: "sync", answer: port.sync(), expected: 5 },
    ]
}

// Prints cases, and answers whether all hold.
fn show(rt: &HostRuntime, cases: &[Case]) -> anyhow::Result<bool> {
    for case in cases {
        let mark = if case.holds() { "" } else { " WRONG" };
        println!(rt; "  {case}{mark}")?;
    }
    Ok(cases.iter().all(|case| case.holds()))
}

fn show_port<P: Port<Chart = Head>>(
    rt: &HostRuntime,
    title: &str,
    port: &mut P,
) -> anyhow::Result<bool> {
    println!(rt; "{title}")?;
    let awake = show(rt, &awake(port))?;
    println!(rt; "{title}, asleep")?;
    Ok(awake & show(rt, &asleep(port))?)
}

// After those cases a keeper owes 19, and 16 settings from 40 on, which are one run.
fn show_owed<P: Port>(rt: &HostRuntime, keeper: &Keeper<P>) -> anyhow::Result<bool> {
    let (settings, runs) = keeper.tally();
    println!(rt; "  owed: {settings} settings in {runs} runs")?;
    let one_of_them = |register: u16| register == 19 || (40..56).contains(&register);
    Ok(settings == 17 && runs == 2 && keeper.any_owed().is_some_and(one_of_them))
}

// Paging over a bus, then a keeper on it, and then a deferral on that.
fn show_pile<B: Bus<Chart = Head> + Drop>(
    rt: &HostRuntime,
    [paging_title, keeper_title, deferral_title]: [&str; 3],
    bus: B,
) -> anyhow::Result<bool> {
    let mut paging = Paging::new(bus);
    let paging_holds = show_port(rt, paging_title, &mut paging)?;
    // The cases have left it asleep; awake again it is as new.
    paging.up();
    let mut keeper = Keeper::new(paging);
    let keeper_holds = show_port(rt, keeper_title, &mut keeper)?;
    let owed_holds = show_owed(rt, &keeper)?;
    keeper.up();
    let mut deferral = Deferral::new(keeper);
    let deferral_holds = show_port(rt, deferral_title, &mut deferral)?;
    Ok(paging_holds & keeper_holds & owed_holds & deferral_holds)
}

fn main(rt: HostRuntime) -> anyhow::Result<ExitCode> {
    let mut words = [0; memory::WORDS];
    let Ok(window) = Window::<Head>::new(&mut words) else {
        return Ok(ExitCode::FAILURE);
    };
    let Ok(i2c) = I2c::<Head>::new(0x2A, &[], Trace::new(rt.alloc(), 0)?) else {
        return Ok(ExitCode::FAILURE);
    };
    let over_window = show_pile(
        &rt,
        [
            "paging over a window",
            "a keeper on paging over a window",
            "a deferral on a keeper on paging over a window",
        ],
        window,
    )?;
    let over_i2c = show_pile(
        &rt,
        [
            "paging over I2C",
            "a keeper on paging over I2C",
            "a deferral on a keeper on paging over I2C",
        ],
        i2c,
    )?;
    if over_window & over_i2c {
        println!(rt; "all cases hold")?;
        Ok(ExitCode::SUCCESS)
    } else {
        println!(rt; "not all cases hold")?;
        Ok(ExitCode::FAILURE)
    }
}
