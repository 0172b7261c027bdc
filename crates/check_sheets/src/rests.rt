// Sheets with syncs, and with rests between two times of work, with their transcripts.
use crate::transcripts::shows;
use std::alloc::Global;
use std::process::Abort;
use std::test::Fail;

// Two cows, the supply gone between them. The word of 33 does not get back into the chip when the
// supply does; the sync after that sends it again, and 96 with it, so that the second reading is
// taken under the settings of the first.
#[test]
fn two_readings_under_the_same_settings(rt: HostRuntime) -> Result<(), Fail> {
    let text = b"bus i2c 0x2A
marks 0 0 0 0 0 0 0 4
pile paging keeper
read 20
update 1 0xFFFF 7
update 33 0x00FF 0x0012  # reset to 0x0080
update 96 0x000F 0x0005  # reset to 0xFFFF
measure 20 0x0102
read 20
suspend
resume                   # 1 got through
sync
measure 20 0x0203
read 20
";
    let expected = "1 read 20: 0x0000
  S 54 A 14 A Sr 55 A 00 A 00 N P
  under reset settings
2 update 1 0xFFFF 0x0007: ok
  S 54 A 01 A 00 A 07 A P
3 update 33 0x00FF 0x0012: ok
  S 54 A 21 A 00 A 12 A P
4 update 96 0x000F 0x0005: ok
  S 54 A 00 A 00 A 02 A P
  S 54 A 20 A FF A F5 A P
5 measure 20 0x0102: ok
6 read 20: 0x0102
  S 54 A 14 A Sr 55 A 01 A 02 N P
  under 1=0x0007 33=0x0012 96=0xFFF5
7 suspend: ok
8 resume: refused 6 line, cause 2, register 33, errand 1
  S 54 A 01 A 00 A 07 A P
  S 54 A 21 A 00 A 12 N P
9 sync: ok
  S 54 A 21 A 00 A 12 A P
  S 54 A 00 A 00 A 02 A P
  S 54 A 20 A FF A F5 A P
10 measure 20 0x0203: ok
11 read 20: 0x0203
  S 54 A 14 A Sr 55 A 02 A 03 N P
  under 1=0x0007 33=0x0012 96=0xFFF5
calls 11, failed transfers 1
";
    shows(&rt, rt.alloc(), text, expected)
}

// The same calls over a window, where nothing fails.
#[test]
fn two_readings_through_a_window(rt: HostRuntime) -> Result<(), Fail> {
    let text = b"bus window
pile paging keeper
read 20
update 1 0xFFFF 7
update 33 0x00FF 0x0012
update 96 0x000F 0x0005
measure 20 0x0102
read 20
suspend
resume
sync
measure 20 0x0203
read 20
";
    let expected = "1 read 20: 0x0000
  under reset settings
2 update 1 0xFFFF 0x0007: ok
3 update 33 0x00FF 0x0012: ok
4 update 96 0x000F 0x0005: ok
5 measure 20 0x0102: ok
6 read 20: 0x0102
  under 1=0x0007 33=0x0012 96=0xFFF5
7 suspend: ok
8 resume: ok
9 sync: ok
10 measure 20 0x0203: ok
11 read 20: 0x0203
  under 1=0x0007 33=0x0012 96=0xFFF5
calls 11, failed transfers 0
";
    shows(&rt, rt.alloc(), text, expected)
}

// Paging has nothing to send. It does not keep, so what was set before a rest is gone after it, and
// no reading tells its settings.
#[test]
fn syncs_of_paging(rt: HostRuntime) -> Result<(), Fail> {
    let text = b"bus i2c 0x2A
pile paging
update 1 0xFFFF 7
sync
suspend
sync
resume
sync
read 1
read 20
";
    let expected = "1 update 1 0xFFFF 0x0007: ok
  S 54 A 01 A 00 A 07 A P
2 sync: ok
3 suspend: ok
4 sync: refused 5 asleep
5 resume: ok
6 sync: ok
7 read 1: 0x0000
  S 54 A 01 A Sr 55 A 00 A 00 N P
8 read 20: 0x0000
  S 54 A 14 A Sr 55 A 00 A 00 N P
calls 8, failed transfers 0
";
    shows(&rt, rt.alloc(), text, expected)
}

// What is owed goes once, by the first sync with the supply on.
#[test]
fn syncs_of_a_keeper(rt: HostRuntime) -> Result<(), Fail> {
    let text = b"bus i2c 0x2A
pile paging keeper
sync
update 1 0xFFFF 7
sync
down
sync
update 2 0xFFFF 9
up
sync
sync
read 20
";
    let expected = "1 sync: ok
2 update 1 0xFFFF 0x0007: ok
  S 54 A 01 A 00 A 07 A P
3 sync: ok
4 down: ok
5 sync: refused 5 asleep
6 update 2 0xFFFF 0x0009: ok
7 up: ok
8 sync: ok
  S 54 A 01 A 00 A 07 A 00 A 09 A P
9 sync: ok
10 read 20: 0x0000
  S 54 A 14 A Sr 55 A 00 A 00 N P
  under 1=0x0007 2=0x0009
calls 10, failed transfers 0
";
    shows(&rt, rt.alloc(), text, expected)
}

// What waits goes by the next sync, the masked one by a get and a put. What waited when the supply
// went is dropped.
#[test]
fn syncs_of_a_deferral(rt: HostRuntime) -> Result<(), Fail> {
    let text = b"bus i2c 0x2A
pile paging deferral
sync
update 1 0xFFFF 7
update 2 0x00FF 9
sync
sync
update 1 0xFFFF 8
down
sync
up
sync
read 1
read 20
";
    let expected = "1 sync: ok
2 update 1 0xFFFF 0x0007: ok
3 update 2 0x00FF 0x0009: ok
4 sync: ok
  S 54 A 01 A 00 A 07 A P
  S 54 A 02 A Sr 55 A 00 A 00 N P
  S 54 A 02 A 00 A 09 A P
5 sync: ok
6 update 1 0xFFFF 0x0008: ok
7 down: ok
8 sync: refused 5 asleep
9 up: ok
10 sync: ok
11 read 1: 0x0000
  S 54 A 01 A Sr 55 A 00 A 00 N P
12 read 20: 0x0000
  S 54 A 14 A Sr 55 A 00 A 00 N P
calls 12, failed transfers 0
";
    shows(&rt, rt.alloc(), text, expected)
}

// The second of two runs fails after its first word, and is owed whole. The next sync sends that
// run alone.
#[test]
fn a_sync_of_a_keeper_that_fails(rt: HostRuntime) -> Result<(), Fail> {
    let text = b"bus i2c 0x2A
marks 0 6
pile paging keeper
down
update 1 0xFFFF 7
update 5 0xFFFF 9
update 6 0xFFFF 10
up
sync
sync
sync
measure 20 0x0ABC
read 20
";
    let expected = "1 down: ok
2 update 1 0xFFFF 0x0007: ok
3 update 5 0xFFFF 0x0009: ok
4 update 6 0xFFFF 0x000A: ok
5 up: ok
6 sync: refused 6 line, cause 2, register 6, errand 1
  S 54 A 01 A 00 A 07 A P
  S 54 A 05 A 00 A 09 A 00 A 0A N P
7 sync: ok
  S 54 A 05 A 00 A 09 A 00 A 0A A P
8 sync: ok
9 measure 20 0x0ABC: ok
10 read 20: 0x0ABC
  S 54 A 14 A Sr 55 A 0A A BC N P
  under 1=0x0007 5=0x0009 6=0x000A
calls 10, failed transfers 1
";
    shows(&rt, rt.alloc(), text, expected)
}

// The same of a deferral: the first burst has left, and its word is read from the chip; the second
// stays.
#[test]
fn a_sync_of_a_deferral_that_fails(rt: HostRuntime) -> Result<(), Fail> {
    let text = b"bus i2c 0x2A
marks 0 6
pile paging deferral
update 1 0xFFFF 7
update 5 0xFFFF 9
update 6 0xFFFF 10
sync
read 5
read 1
sync
sync
";
    let expected = "1 update 1 0xFFFF 0x0007: ok
2 update 5 0xFFFF 0x0009: ok
3 update 6 0xFFFF 0x000A: ok
4 sync: refused 6 line, cause 2, register 6, errand 1
  S 54 A 01 A 00 A 07 A P
  S 54 A 05 A 00 A 09 A 00 A 0A N P
5 read 5: 0x0009
6 read 1: 0x0007
  S 54 A 01 A Sr 55 A 00 A 07 N P
7 sync: ok
  S 54 A 05 A 00 A 09 A 00 A 0A A P
8 sync: ok
calls 8, failed transfers 1
";
    shows(&rt, rt.alloc(), text, expected)
}

// A resume has ended the rest also where its sync is refused: another rest may begin.
#[test]
fn a_rest_after_a_resume_that_was_refused(rt: HostRuntime) -> Result<(), Fail> {
    let text = b"bus i2c 0x2A
marks 0 1
pile paging keeper
update 1 0xFFFF 7
suspend
resume
suspend
resume
read 20
";
    let expected = "1 update 1 0xFFFF 0x0007: ok
  S 54 A 01 A 00 A 07 A P
2 suspend: ok
3 resume: refused 6 line, cause 1, register 1, errand 1
  S 54 N P
4 suspend: ok
5 resume: ok
  S 54 A 01 A 00 A 07 A P
6 read 20: 0x0000
  S 54 A 14 A Sr 55 A 00 A 00 N P
  under 1=0x0007
calls 6, failed transfers 1
";
    shows(&rt, rt.alloc(), text, expected)
}

// In a rest settings are changed and read, and a measurement is neither made nor read. Back at its
// reset word, 1 has not to be sent.
const IN_A_REST: &str = "update 1 0xFFFF 7
suspend
update 2 0xFFFF 9
update 1 0xFFFF 0
update 64 0x00FF 0x0012
read 64
read 20
measure 20 0x0ABC
resume
read 20
";

const AFTER_THE_FIRST_UPDATE: &str = "2 suspend: ok
3 update 2 0xFFFF 0x0009: ok
4 update 1 0xFFFF 0x0000: ok
5 update 64 0x00FF 0x0012: ok
6 read 64: 0x0012
7 read 20: refused 5 asleep
8 measure 20 0x0ABC: ok
9 resume: ok
  S 54 A 02 A 00 A 09 A P
  S 54 A 00 A 00 A 01 A P
  S 54 A 20 A 00 A 12 A P
10 read 20: 0x0000
  S 54 A 14 A Sr 55 A 00 A 00 N P
  under 2=0x0009 64=0x0012
calls 10, failed transfers 0
";

fn changes_in_a_rest(rt: &impl Abort, heap: Global, layers: &str, first: &str) -> Result<(), Fail> {
    let text = format!(in heap; "bus i2c 0x2A\npile paging {layers}\n{IN_A_REST}")?;
    let expected = format!(in heap; "{first}{AFTER_THE_FIRST_UPDATE}")?;
    shows(rt, heap, text.as_bytes(), expected.as_str())
}

// A keeper sends the first update at once. In a deferral over it or under it that one waits, and is
// joined or dropped before it is sent.
#[test]
fn settings_changed_in_a_rest(rt: HostRuntime) -> Result<(), Fail> {
    let heap = rt.alloc();
    let waits = "1 update 1 0xFFFF 0x0007: ok\n";
    let sent = "1 update 1 0xFFFF 0x0007: ok\n  S 54 A 01 A 00 A 07 A P\n";
    changes_in_a_rest(&rt, heap, "keeper", sent)?;
    changes_in_a_rest(&rt, heap, "keeper deferral", waits)?;
    changes_in_a_rest(&rt, heap, "deferral keeper", waits)
}

// Settings from before a rest and from in it, and a fault in the first transfer after it.
const ON_EVERY_PILE: &str = "update 5 0xFFFF 3
sync
suspend
update 1 0xFFFF 7
update 2 0xFFFF 9
update 33 0x00FF 0x0012
resume
sync
measure 20 0x0102
read 20
";

fn on_pile(rt: &impl Abort, heap: Global, layers: &str, expected: &str) -> Result<(), Fail> {
    let text = format!(in heap; "bus i2c 0x2A\nmarks 0 4\npile paging {layers}\n{ON_EVERY_PILE}")?;
    shows(rt, heap, text.as_bytes(), expected)
}

// Every update is sent or owed at once. 1 and 2 are owed as one run.
#[test]
fn rests_of_keepers(rt: HostRuntime) -> Result<(), Fail> {
    let heap = rt.alloc();
    let expected = "1 update 5 0xFFFF 0x0003: ok
  S 54 A 05 A 00 A 03 A P
2 sync: ok
3 suspend: ok
4 update 1 0xFFFF 0x0007: ok
5 update 2 0xFFFF 0x0009: ok
6 update 33 0x00FF 0x0012: ok
7 resume: refused 6 line, cause 2, register 1, errand 1
  S 54 A 01 A 00 A 07 N P
8 sync: ok
  S 54 A 01 A 00 A 07 A 00 A 09 A P
  S 54 A 05 A 00 A 03 A P
  S 54 A 21 A 00 A 12 A P
9 measure 20 0x0102: ok
10 read 20: 0x0102
  S 54 A 14 A Sr 55 A 01 A 02 N P
  under 1=0x0007 2=0x0009 5=0x0003 33=0x0012
calls 10, failed transfers 1
";
    on_pile(&rt, heap, "keeper", expected)?;
    on_pile(&rt, heap, "keeper keeper", expected)?;
    on_pile(&rt, heap, "keeper keeper keeper", expected)
}

// What was changed in the rest waits in a deferral, and goes first. The keeper at the bottom takes
// the burst of 1 and 2 as updates, and then sends 5, which is owed from before.
#[test]
fn rests_of_deferrals_over_a_keeper(rt: HostRuntime) -> Result<(), Fail> {
    let heap = rt.alloc();
    let expected = "1 update 5 0xFFFF 0x0003: ok
2 sync: ok
  S 54 A 05 A 00 A 03 A P
3 suspend: ok
4 update 1 0xFFFF 0x0007: ok
5 update 2 0xFFFF 0x0009: ok
6 update 33 0x00FF 0x0012: ok
7 resume: refused 6 line, cause 2, register 1, errand 1
  S 54 A 01 A 00 A 07 N P
8 sync: ok
  S 54 A 01 A 00 A 07 A P
  S 54 A 02 A 00 A 09 A P
  S 54 A 21 A 00 A 12 A P
  S 54 A 05 A 00 A 03 A P
9 measure 20 0x0102: ok
10 read 20: 0x0102
  S 54 A 14 A Sr 55 A 01 A 02 N P
  under 1=0x0007 2=0x0009 5=0x0003 33=0x0012
calls 10, failed transfers 1
";
    on_pile(&rt, heap, "keeper deferral", expected)?;
    on_pile(&rt, heap, "keeper keeper deferral", expected)?;
    on_pile(&rt, heap, "keeper deferral keeper", expected)?;
    on_pile(&rt, heap, "keeper deferral deferral", expected)
}

// A keeper further up owes the settings of before the rest, or all of them. All are entries of the
// deferral at the bottom when the first burst is sent.
#[test]
fn rests_of_keepers_over_a_deferral(rt: HostRuntime) -> Result<(), Fail> {
    let heap = rt.alloc();
    let expected = "1 update 5 0xFFFF 0x0003: ok
2 sync: ok
  S 54 A 05 A 00 A 03 A P
3 suspend: ok
4 update 1 0xFFFF 0x0007: ok
5 update 2 0xFFFF 0x0009: ok
6 update 33 0x00FF 0x0012: ok
7 resume: refused 6 line, cause 2, register 1, errand 1
  S 54 A 01 A 00 A 07 N P
8 sync: ok
  S 54 A 01 A 00 A 07 A 00 A 09 A P
  S 54 A 05 A 00 A 03 A P
  S 54 A 21 A 00 A 12 A P
9 measure 20 0x0102: ok
10 read 20: 0x0102
  S 54 A 14 A Sr 55 A 01 A 02 N P
  under 1=0x0007 2=0x0009 5=0x0003 33=0x0012
calls 10, failed transfers 1
";
    on_pile(&rt, heap, "deferral keeper", expected)?;
    on_pile(&rt, heap, "deferral keeper keeper", expected)?;
    on_pile(&rt, heap, "deferral keeper deferral", expected)?;
    on_pile(&rt, heap, "deferral deferral keeper", expected)
}

// Without a keeper nothing is taken in a rest, and so nothing is sent after it: the mark falls on
// the reading, a transfer that has no such byte.
#[test]
fn rests_of_deferrals(rt: HostRuntime) -> Result<(), Fail> {
    let heap = rt.alloc();
    let expected = "1 update 5 0xFFFF 0x0003: ok
2 sync: ok
  S 54 A 05 A 00 A 03 A P
3 suspend: ok
4 update 1 0xFFFF 0x0007: refused 5 asleep
5 update 2 0xFFFF 0x0009: refused 5 asleep
6 update 33 0x00FF 0x0012: refused 5 asleep
7 resume: ok
8 sync: ok
9 measure 20 0x0102: ok
10 read 20: 0x0102
  S 54 A 14 A Sr 55 A 01 A 02 N P
calls 10, failed transfers 0
";
    on_pile(&rt, heap, "deferral", expected)?;
    on_pile(&rt, heap, "deferral deferral", expected)?;
    on_pile(&rt, heap, "deferral deferral deferral", expected)
}
