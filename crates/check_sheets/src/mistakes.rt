use bench_sheet::{
    Call, Calls, ChartName, LayerKind, Layers, Make, Mistake, PileCall, PortCall, Sheet,
    SheetError, read,
};
use std::alloc::Global;
use std::process::Abort;
use std::test::Fail;

#[test]
fn reads_every_statement(rt: HostRuntime) -> Result<(), Fail> {
    let heap = rt.alloc();
    let text =
        b"# bench 3\r\n\r\nbus i2c 0x2A # the valve block\r\nmarks 1 0xff\nchart valve\nmarks\n\tmarks  007\nget 12\nput 0x3 0 0xBeeF 65535\nput 4\nmeasure 9 0x10\ndown#\nup";
    let marks = vec![in heap; 1, 255, 7]?;
    let words = vec![in heap; 0, 48879, 65535]?;
    let none = Vec::new(heap);
    let calls = vec![in heap;
        Call::Get { raw: 12 },
        Call::Put { raw: 3, words },
        Call::Put {
            raw: 4,
            words: none
        },
        Call::Measure {
            register: 9,
            word: 16
        },
        Call::Down,
        Call::Up,
    ]?;
    assert_eq!(rt;
        read(heap, text)?,
        Sheet {
            make: Make::I2c(42),
            chart: ChartName::Valve,
            marks,
            calls: Calls::Bus(calls),
        }
    );
    Ok(())
}

#[test]
fn reads_every_statement_of_a_pile(rt: HostRuntime) -> Result<(), Fail> {
    let heap = rt.alloc();
    let text = b"pile  paging keeper\tdeferral keeper # as many as there may be
bus window
read 64
suspend
update 0x41 255 0x00aA
resume
sync
measure 112 7
down
suspend
resume # asleep before, awake after
up
";
    let three = vec![in heap; LayerKind::Keeper, LayerKind::Deferral, LayerKind::Keeper]?;
    let Some(layers) = Layers::new(three) else {
        panic!(rt; "three layers are too many");
    };
    let read_64 = PortCall::Read { register: 64 };
    let update_65 = PortCall::Update {
        register: 65,
        mask: 255,
        bits: 170,
    };
    let measure_112 = PortCall::Measure {
        register: 112,
        word: 7,
    };
    let calls = vec![in heap;
        PileCall::Port(read_64),
        PileCall::Suspend,
        PileCall::Port(update_65),
        PileCall::Resume,
        PileCall::Port(PortCall::Sync),
        PileCall::Port(measure_112),
        PileCall::Port(PortCall::Down),
        PileCall::Suspend,
        PileCall::Resume,
        PileCall::Port(PortCall::Up),
    ]?;
    assert_eq!(rt;
        read(heap, text)?,
        Sheet {
            make: Make::Window,
            chart: ChartName::Head,
            marks: Vec::new(heap),
            calls: Calls::Pile { layers, calls },
        }
    );
    Ok(())
}

#[test]
fn leaves_out_what_may_be(rt: HostRuntime) -> Result<(), Fail> {
    let heap = rt.alloc();
    let sheet = Sheet {
        make: Make::Window,
        chart: ChartName::Head,
        marks: Vec::new(heap),
        calls: Calls::Bus(Vec::new(heap)),
    };
    assert_eq!(rt; read(heap, b"bus window\n")?, sheet);
    Ok(())
}

fn is_wrong(rt: &impl Abort, heap: Global, text: &[u8], line: usize, mistake: Mistake) {
    assert_eq!(rt; read(heap, text), Err(SheetError::Wrong { line, mistake }));
}

#[test]
fn tells_wrong_words(rt: HostRuntime) {
    let heap = rt.alloc();
    is_wrong(
        &rt,
        heap,
        b"bus window\n\n# x\nGet 1\nput",
        4,
        Mistake::UnknownStatement,
    );
    is_wrong(&rt, heap, b"bus i2c", 1, Mistake::WordCount);
    is_wrong(&rt, heap, b"bus window\nget 1 2", 2, Mistake::WordCount);
    is_wrong(&rt, heap, b"bus window\nput # 1", 2, Mistake::WordCount);
    is_wrong(&rt, heap, b"bus window\ndown 0", 2, Mistake::WordCount);
    is_wrong(&rt, heap, b"bus i2c 65536", 1, Mistake::NotANumber);
    is_wrong(&rt, heap, b"bus window\nput 1 0x", 2, Mistake::NotANumber);
    is_wrong(
        &rt,
        heap,
        b"bus window\nmeasure 1 1f",
        2,
        Mistake::NotANumber,
    );
    is_wrong(&rt, heap, b"marks 255 256", 1, Mistake::NotAMark);
    is_wrong(&rt, heap, b"bus spi", 1, Mistake::UnknownBus);
    is_wrong(&rt, heap, b"chart tail", 1, Mistake::UnknownChart);
}

#[test]
fn tells_wrong_places(rt: HostRuntime) {
    let heap = rt.alloc();
    is_wrong(&rt, heap, b"", 1, Mistake::NoBus);
    is_wrong(&rt, heap, b"chart head\n", 2, Mistake::NoBus);
    is_wrong(
        &rt,
        heap,
        b"chart head\n\nup\nbus window",
        3,
        Mistake::NoBus,
    );
    is_wrong(&rt, heap, b"bus window\nbus i2c 1", 2, Mistake::SecondBus);
    is_wrong(
        &rt,
        heap,
        b"chart head\nchart head",
        2,
        Mistake::SecondChart,
    );
    is_wrong(
        &rt,
        heap,
        b"bus window\nup\nchart head",
        3,
        Mistake::LateOpening,
    );
    is_wrong(&rt, heap, b"bus window\nmarks", 2, Mistake::MarksOnWindow);
    is_wrong(
        &rt,
        heap,
        b"marks\nbus window\nx",
        2,
        Mistake::MarksOnWindow,
    );
}

// A line is `pile paging` with at most three layers after it, and says which calls may follow.
#[test]
fn tells_wrong_piles(rt: HostRuntime) {
    let heap = rt.alloc();
    is_wrong(&rt, heap, b"bus window\npile", 2, Mistake::WordCount);
    is_wrong(
        &rt,
        heap,
        b"bus window\npile paging deferral keeper deferral keeper",
        2,
        Mistake::WordCount,
    );
    is_wrong(
        &rt,
        heap,
        b"bus window\npile window 1 2 3 4",
        2,
        Mistake::WordCount,
    );
    is_wrong(
        &rt,
        heap,
        b"bus window\npile keeper paging",
        2,
        Mistake::UnknownPile,
    );
    is_wrong(
        &rt,
        heap,
        b"bus window\npile paging paging",
        2,
        Mistake::UnknownLayer,
    );
    is_wrong(
        &rt,
        heap,
        b"bus window\npile paging keeper deferal",
        2,
        Mistake::UnknownLayer,
    );
    is_wrong(
        &rt,
        heap,
        b"pile paging\nbus window\npile paging Keeper",
        3,
        Mistake::UnknownLayer,
    );
    is_wrong(
        &rt,
        heap,
        b"pile paging\nbus window\npile paging",
        3,
        Mistake::SecondPile,
    );
    is_wrong(
        &rt,
        heap,
        b"bus window\nup\npile paging",
        3,
        Mistake::LateOpening,
    );
    is_wrong(&rt, heap, b"bus window\nread 5", 2, Mistake::NoPile);
    is_wrong(&rt, heap, b"bus window\nupdate x", 2, Mistake::NoPile);
    is_wrong(
        &rt,
        heap,
        b"bus window\npile paging\nget 5",
        3,
        Mistake::UnderPile,
    );
    is_wrong(
        &rt,
        heap,
        b"bus window\npile paging\nput",
        3,
        Mistake::UnderPile,
    );
    is_wrong(
        &rt,
        heap,
        b"bus window\npile paging\nrun 40 7",
        3,
        Mistake::UnknownStatement,
    );
    is_wrong(
        &rt,
        heap,
        b"bus window\npile paging\nread 1 2",
        3,
        Mistake::WordCount,
    );
    is_wrong(
        &rt,
        heap,
        b"bus window\npile paging\nupdate 1 2",
        3,
        Mistake::WordCount,
    );
    is_wrong(
        &rt,
        heap,
        b"bus window\npile paging\nupdate 1 2 65536",
        3,
        Mistake::NotANumber,
    );
    is_wrong(&rt, heap, b"pile paging\nread 5", 2, Mistake::NoBus);
    is_wrong(&rt, heap, b"pile paging\n", 2, Mistake::NoBus);
}

// A suspend and a resume take turns, whatever else stands between them, and the last is a resume.
#[test]
fn tells_wrong_rests(rt: HostRuntime) {
    let heap = rt.alloc();
    is_wrong(&rt, heap, b"bus window\nsync", 2, Mistake::NoPile);
    is_wrong(&rt, heap, b"bus window\nsuspend 1", 2, Mistake::NoPile);
    is_wrong(&rt, heap, b"bus window\nresume", 2, Mistake::NoPile);
    is_wrong(
        &rt,
        heap,
        b"bus window\npile paging\nsync 1",
        3,
        Mistake::WordCount,
    );
    is_wrong(
        &rt,
        heap,
        b"bus window\npile paging\nresume now",
        3,
        Mistake::WordCount,
    );
    is_wrong(
        &rt,
        heap,
        b"bus window\npile paging\nsuspend\nsuspend 0",
        4,
        Mistake::WordCount,
    );
    is_wrong(
        &rt,
        heap,
        b"bus window\npile paging\nSuspend",
        3,
        Mistake::UnknownStatement,
    );
    is_wrong(
        &rt,
        heap,
        b"bus window\npile paging\nsuspend\nup\nsuspend\nresume",
        5,
        Mistake::SecondSuspend,
    );
    is_wrong(
        &rt,
        heap,
        b"bus window\npile paging\ndown\nresume",
        4,
        Mistake::NoSuspend,
    );
    is_wrong(
        &rt,
        heap,
        b"bus window\npile paging\nsuspend\nresume\nresume",
        5,
        Mistake::NoSuspend,
    );
    is_wrong(
        &rt,
        heap,
        b"bus window\npile paging\nsuspend\nup\nsync",
        6,
        Mistake::NoResume,
    );
    is_wrong(
        &rt,
        heap,
        b"bus window\npile paging\nsuspend\nresume\nsuspend\n\n# the end\n",
        8,
        Mistake::NoResume,
    );
    is_wrong(&rt, heap, b"pile paging\nsuspend", 2, Mistake::NoBus);
    is_wrong(&rt, heap, b"pile paging\nresume", 2, Mistake::NoBus);
}

fn prints(rt: &impl Abort, heap: Global, mistake: Mistake, expected: &str) -> Result<(), Fail> {
    let error = SheetError::Wrong { line: 12, mistake };
    assert_eq!(rt; format!(in heap; "{error}")?.as_str(), expected);
    Ok(())
}

#[test]
#[rattlefmt::skip]
fn says_what_is_wrong(rt: HostRuntime) -> Result<(), Fail> {
    let heap = rt.alloc();
    prints(&rt, heap, Mistake::UnknownStatement, "line 12: unknown statement")?;
    prints(&rt, heap, Mistake::WordCount, "line 12: wrong number of words")?;
    prints(&rt, heap, Mistake::NotANumber, "line 12: not a number from 0 to 65535")?;
    prints(&rt, heap, Mistake::NotAMark, "line 12: a mark above 255")?;
    prints(&rt, heap, Mistake::UnknownBus, "line 12: unknown make of bus")?;
    prints(&rt, heap, Mistake::UnknownChart, "line 12: unknown chart")?;
    prints(&rt, heap, Mistake::UnknownPile, "line 12: a pile that does not begin with paging")?;
    prints(&rt, heap, Mistake::UnknownLayer, "line 12: unknown layer")?;
    prints(&rt, heap, Mistake::SecondBus, "line 12: a second bus line")?;
    prints(&rt, heap, Mistake::SecondChart, "line 12: a second chart line")?;
    prints(&rt, heap, Mistake::SecondPile, "line 12: a second pile line")?;
    prints(&rt, heap, Mistake::LateOpening, "line 12: an opening line after the first call")?;
    prints(&rt, heap, Mistake::NoBus, "line 12: no bus line before this")?;
    prints(&rt, heap, Mistake::NoPile, "line 12: no pile line before this")?;
    prints(&rt, heap, Mistake::UnderPile, "line 12: a call on the bus under a pile")?;
    prints(&rt, heap, Mistake::MarksOnWindow, "line 12: marks together with a window")?;
    prints(&rt, heap, Mistake::SecondSuspend, "line 12: a second suspend before a resume")?;
    prints(&rt, heap, Mistake::NoSuspend, "line 12: no suspend before this")?;
    prints(&rt, heap, Mistake::NoResume, "line 12: a suspend that no resume ends")
}

#[test]
fn no_pile_has_four_layers(rt: HostRuntime) -> Result<(), Fail> {
    let four = vec![in rt.alloc();
        LayerKind::Keeper,
        LayerKind::Deferral,
        LayerKind::Deferral,
        LayerKind::Keeper,
    ]?;
    assert!(rt; Layers::new(four).is_none());
    Ok(())
}
