// Sheets whose calls go to a pile with deferrals, with their transcripts.
use crate::transcripts::shows;
use std::test::Fail;

// The table has room for 16 registers. Joined to one of them, or under mask 0, an update needs no
// room; one of a seventeenth register sends all 16 first. Where that is refused it leaves no entry,
// else it waits in turn.
#[test]
fn a_seventeenth_register(rt: HostRuntime) -> Result<(), Fail> {
    let text = b"bus i2c 0x2A
marks 5
pile paging deferral
update 1 0xFFFF 1
update 2 0xFFFF 2
update 3 0xFFFF 3
update 4 0x00FF 0xFF04   # the bits outside the mask count for nothing
update 5 0xFFFF 5
update 7 0xFFFF 7
update 10 0xFFFF 10
update 11 0xFFFF 11
update 12 0xFFFF 12
update 13 0xFFFF 13
update 14 0xFFFF 14
update 15 0xFFFF 15
update 16 0xFFFF 16
update 17 0xFFFF 17
update 18 0xFFFF 18
update 19 0xFFFF 19
update 5 0xFF00 0x1200
update 32 0 0xFFFF
update 33 0x000F 3       # the high byte of 2 in the first burst
read 33
update 33 0x000F 3
read 33
read 20
";
    let expected = "1 update 1 0xFFFF 0x0001: ok
2 update 2 0xFFFF 0x0002: ok
3 update 3 0xFFFF 0x0003: ok
4 update 4 0x00FF 0xFF04: ok
5 update 5 0xFFFF 0x0005: ok
6 update 7 0xFFFF 0x0007: ok
7 update 10 0xFFFF 0x000A: ok
8 update 11 0xFFFF 0x000B: ok
9 update 12 0xFFFF 0x000C: ok
10 update 13 0xFFFF 0x000D: ok
11 update 14 0xFFFF 0x000E: ok
12 update 15 0xFFFF 0x000F: ok
13 update 16 0xFFFF 0x0010: ok
14 update 17 0xFFFF 0x0011: ok
15 update 18 0xFFFF 0x0012: ok
16 update 19 0xFFFF 0x0013: ok
17 update 5 0xFF00 0x1200: ok
18 update 32 0x0000 0xFFFF: ok
19 update 33 0x000F 0x0003: refused 6 line, cause 2, register 2, errand 1
  S 54 A 01 A 00 A 01 A 00 N P
20 read 33: 0x0080
  S 54 A 21 A Sr 55 A 00 A 80 N P
21 update 33 0x000F 0x0003: ok
  S 54 A 01 A 00 A 01 A 00 A 02 A 00 A 03 A P
  S 54 A 04 A Sr 55 A 00 A 00 N P
  S 54 A 04 A 00 A 04 A P
  S 54 A 05 A 12 A 05 A P
  S 54 A 07 A 00 A 07 A P
  S 54 A 0A A 00 A 0A A 00 A 0B A 00 A 0C A 00 A 0D A 00 A 0E A 00 A 0F A 00 A 10 A 00 A 11 A 00 A 12 A 00 A 13 A P
22 read 33: 0x0083
  S 54 A 21 A Sr 55 A 00 A 80 N P
23 read 20: 0x0000
  S 54 A 21 A Sr 55 A 00 A 80 N P
  S 54 A 21 A 00 A 83 A P
  S 54 A 14 A Sr 55 A 00 A 00 N P
calls 23, failed transfers 1
";
    shows(&rt, rt.alloc(), text, expected)
}

// An entry with a part of the mask keeps two full ones apart: three bursts, ascending in whatever
// order they came. The masked one is a get and a put, and a get alone where the chip has that word
// already.
#[test]
fn a_masked_entry_between_full_ones(rt: HostRuntime) -> Result<(), Fail> {
    let text = b"bus i2c 0x2A
pile paging deferral
update 7 0xFFFF 0x0077
update 6 0x00FF 0x1166
update 5 0xFFFF 0x0055
measure 20 0x0ABC
read 20
update 6 0x00FF 0x0066
read 20
";
    let expected = "1 update 7 0xFFFF 0x0077: ok
2 update 6 0x00FF 0x1166: ok
3 update 5 0xFFFF 0x0055: ok
4 measure 20 0x0ABC: ok
5 read 20: 0x0ABC
  S 54 A 05 A 00 A 55 A P
  S 54 A 06 A Sr 55 A 00 A 00 N P
  S 54 A 06 A 00 A 66 A P
  S 54 A 07 A 00 A 77 A P
  S 54 A 14 A Sr 55 A 0A A BC N P
6 update 6 0x00FF 0x0066: ok
7 read 20: 0x0ABC
  S 54 A 06 A Sr 55 A 00 A 66 N P
  S 54 A 14 A Sr 55 A 0A A BC N P
calls 7, failed transfers 0
";
    shows(&rt, rt.alloc(), text, expected)
}

// Joined, the later update counts where the masks overlap. 96 is reset to 0xFFFF; once its entry
// has the full mask a read needs no line, and one put sends all three updates, and those of 97 with
// them.
#[test]
fn joined_until_the_mask_is_full(rt: HostRuntime) -> Result<(), Fail> {
    let text = b"bus i2c 0x2A
pile paging deferral
update 96 0x0FF0 0x1230
update 96 0x00FF 0x0045
read 96
update 96 0xF00F 0x6007
read 96
update 97 0x00FF 0x0008
update 97 0xFFFF 0x0102
read 20
";
    let expected = "1 update 96 0x0FF0 0x1230: ok
2 update 96 0x00FF 0x0045: ok
3 read 96: 0xF245
  S 54 A 00 A 00 A 02 A P
  S 54 A 20 A Sr 55 A FF A FF N P
4 update 96 0xF00F 0x6007: ok
5 read 96: 0x6247
6 update 97 0x00FF 0x0008: ok
7 update 97 0xFFFF 0x0102: ok
8 read 20: 0x0000
  S 54 A 20 A 62 A 47 A 01 A 02 A P
  S 54 A 14 A Sr 55 A 00 A 00 N P
calls 8, failed transfers 0
";
    shows(&rt, rt.alloc(), text, expected)
}

// The first burst got through and the second did not: settings read as before, those that left from
// the chip and those that stayed from the table. The next live read sends what stayed, the word of
// 5 once more.
#[test]
fn a_fault_in_the_second_burst(rt: HostRuntime) -> Result<(), Fail> {
    let text = b"bus i2c 0x2A
marks 0 6
pile paging deferral
update 1 0xFFFF 0x0011
update 2 0xFFFF 0x0012
update 5 0xFFFF 0x0015
update 6 0xFFFF 0x0016
update 7 0xFFFF 0x0017
update 9 0xFF00 0x1900
measure 20 0x0ABC
read 20
read 2
read 5
read 6
read 9
read 20
";
    let expected = "1 update 1 0xFFFF 0x0011: ok
2 update 2 0xFFFF 0x0012: ok
3 update 5 0xFFFF 0x0015: ok
4 update 6 0xFFFF 0x0016: ok
5 update 7 0xFFFF 0x0017: ok
6 update 9 0xFF00 0x1900: ok
7 measure 20 0x0ABC: ok
8 read 20: refused 6 line, cause 2, register 6, errand 1
  S 54 A 01 A 00 A 11 A 00 A 12 A P
  S 54 A 05 A 00 A 15 A 00 A 16 N P
9 read 2: 0x0012
  S 54 A 02 A Sr 55 A 00 A 12 N P
10 read 5: 0x0015
11 read 6: 0x0016
12 read 9: 0x1900
  S 54 A 09 A Sr 55 A 00 A 00 N P
13 read 20: 0x0ABC
  S 54 A 05 A 00 A 15 A 00 A 16 A 00 A 17 A P
  S 54 A 09 A Sr 55 A 00 A 00 N P
  S 54 A 09 A 19 A 00 A P
  S 54 A 14 A Sr 55 A 0A A BC N P
calls 13, failed transfers 1
";
    shows(&rt, rt.alloc(), text, expected)
}

// Over a keeper no entry is lost with the supply, and asleep settings are read and changed, a
// seventeenth register too: then the keeper takes the 16 as one run. A live read asleep sends
// nothing, so that 17 still waits and goes before what the keeper owes.
#[test]
fn over_a_keeper_asleep(rt: HostRuntime) -> Result<(), Fail> {
    let text = b"bus i2c 0x2A
pile paging keeper deferral
update 1 0xFFFF 1
down
update 2 0xFFFF 2
update 3 0xFFFF 3
update 4 0xFFFF 4
update 5 0xFFFF 5
update 6 0xFFFF 6
update 7 0xFFFF 7
update 8 0xFFFF 8
update 9 0xFFFF 9
update 10 0xFFFF 10
update 11 0xFFFF 11
update 12 0xFFFF 12
update 13 0xFFFF 13
update 14 0xFFFF 14
update 15 0xFFFF 15
update 16 0xFFFF 16
update 17 0x00FF 17
read 17
read 5
read 20
up
read 20
";
    let expected = "1 update 1 0xFFFF 0x0001: ok
2 down: ok
3 update 2 0xFFFF 0x0002: ok
4 update 3 0xFFFF 0x0003: ok
5 update 4 0xFFFF 0x0004: ok
6 update 5 0xFFFF 0x0005: ok
7 update 6 0xFFFF 0x0006: ok
8 update 7 0xFFFF 0x0007: ok
9 update 8 0xFFFF 0x0008: ok
10 update 9 0xFFFF 0x0009: ok
11 update 10 0xFFFF 0x000A: ok
12 update 11 0xFFFF 0x000B: ok
13 update 12 0xFFFF 0x000C: ok
14 update 13 0xFFFF 0x000D: ok
15 update 14 0xFFFF 0x000E: ok
16 update 15 0xFFFF 0x000F: ok
17 update 16 0xFFFF 0x0010: ok
18 update 17 0x00FF 0x0011: ok
19 read 17: 0x0011
20 read 5: 0x0005
21 read 20: refused 5 asleep
22 up: ok
23 read 20: 0x0000
  S 54 A 11 A 00 A 11 A P
  S 54 A 01 A 00 A 01 A 00 A 02 A 00 A 03 A 00 A 04 A 00 A 05 A 00 A 06 A 00 A 07 A 00 A 08 A 00 A 09 A 00 A 0A A 00 A 0B A 00 A 0C A 00 A 0D A 00 A 0E A 00 A 0F A 00 A 10 A P
  S 54 A 14 A Sr 55 A 00 A 00 N P
  under 1=0x0001 2=0x0002 3=0x0003 4=0x0004 5=0x0005 6=0x0006 7=0x0007 8=0x0008 9=0x0009 10=0x000A 11=0x000B 12=0x000C 13=0x000D 14=0x000E 15=0x000F 16=0x0010 17=0x0011
calls 23, failed transfers 0
";
    shows(&rt, rt.alloc(), text, expected)
}

// Below a keeper: what waited is lost with the supply, and the keeper owes it with what the chip
// lost and what came asleep. Its runs wait again, and one live read sends them.
#[test]
fn below_a_keeper_over_a_down(rt: HostRuntime) -> Result<(), Fail> {
    let text = b"bus i2c 0x2A
pile paging deferral keeper
update 1 0xFFFF 7
read 20
update 2 0xFFFF 9
update 64 0x00FF 0x0012
down
update 65 0xFFFF 0x0034
read 64
up
read 20
read 64
";
    let expected = "1 update 1 0xFFFF 0x0007: ok
2 read 20: 0x0000
  S 54 A 01 A 00 A 07 A P
  S 54 A 14 A Sr 55 A 00 A 00 N P
  under 1=0x0007
3 update 2 0xFFFF 0x0009: ok
4 update 64 0x00FF 0x0012: ok
5 down: ok
6 update 65 0xFFFF 0x0034: ok
7 read 64: 0x0012
8 up: ok
9 read 20: 0x0000
  S 54 A 01 A 00 A 07 A 00 A 09 A P
  S 54 A 00 A 00 A 01 A P
  S 54 A 20 A 00 A 12 A 00 A 34 A P
  S 54 A 14 A Sr 55 A 00 A 00 N P
  under 1=0x0007 2=0x0009 64=0x0012 65=0x0034
10 read 64: 0x0012
calls 10, failed transfers 0
";
    shows(&rt, rt.alloc(), text, expected)
}

// Straight on paging a deferral keeps nothing: asleep all of it is refused, also what has an entry,
// and the entries are lost.
#[test]
fn on_paging_asleep(rt: HostRuntime) -> Result<(), Fail> {
    let text = b"bus i2c 0x2A
pile paging deferral
update 32 0xFFFF 0x0011
update 33 0x00FF 0x0022
read 32
down
read 32
read 33
update 32 0xFFFF 0x0033
update 33 0 0
update 20 0xFFFF 1
read 24
read 20
up
read 32
read 20
read 33
";
    let expected = "1 update 32 0xFFFF 0x0011: ok
2 update 33 0x00FF 0x0022: ok
3 read 32: 0x0011
4 down: ok
5 read 32: refused 5 asleep
6 read 33: refused 5 asleep
7 update 32 0xFFFF 0x0033: refused 5 asleep
8 update 33 0x0000 0x0000: refused 5 asleep
9 update 20 0xFFFF 0x0001: refused 3 live
10 read 24: refused 2 register
11 read 20: refused 5 asleep
12 up: ok
13 read 32: 0x0080
  S 54 A 20 A Sr 55 A 00 A 80 N P
14 read 20: 0x0000
  S 54 A 14 A Sr 55 A 00 A 00 N P
15 read 33: 0x0080
  S 54 A 21 A Sr 55 A 00 A 80 N P
calls 15, failed transfers 0
";
    shows(&rt, rt.alloc(), text, expected)
}

// Through the keeper every update is a full one, so that the lower deferral has one burst for what
// the upper sent and the keeper owed.
#[test]
fn a_keeper_between_deferrals(rt: HostRuntime) -> Result<(), Fail> {
    let text = b"bus i2c 0x2A
pile paging deferral keeper deferral
update 1 0xFFFF 7
update 2 0x00FF 9
read 2
read 20
update 3 0xFFFF 5
down
update 2 0xFF00 0x0100
read 2
read 3
up
read 20
";
    let expected = "1 update 1 0xFFFF 0x0007: ok
2 update 2 0x00FF 0x0009: ok
3 read 2: 0x0009
4 read 20: 0x0000
  S 54 A 01 A 00 A 07 A 00 A 09 A P
  S 54 A 14 A Sr 55 A 00 A 00 N P
  under 1=0x0007 2=0x0009
5 update 3 0xFFFF 0x0005: ok
6 down: ok
7 update 2 0xFF00 0x0100: ok
8 read 2: 0x0109
9 read 3: 0x0005
10 up: ok
11 read 20: 0x0000
  S 54 A 01 A 00 A 07 A 01 A 09 A 00 A 05 A P
  S 54 A 14 A Sr 55 A 00 A 00 N P
  under 1=0x0007 2=0x0109 3=0x0005
calls 11, failed transfers 0
";
    shows(&rt, rt.alloc(), text, expected)
}

// A fault of the lower deferral goes up unchanged. What waits in the upper one is then shown over
// what stayed in the lower one, and is joined to it by the next live read.
#[test]
fn a_deferral_over_a_deferral(rt: HostRuntime) -> Result<(), Fail> {
    let text = b"bus i2c 0x2A
marks 3
pile paging deferral deferral
update 1 0x00FF 0x0011
update 2 0xFFFF 0x2222
read 20
update 1 0xF000 0x3000
read 1
read 20
";
    let expected = "1 update 1 0x00FF 0x0011: ok
2 update 2 0xFFFF 0x2222: ok
3 read 20: refused 6 line, cause 1, register 1, errand 1
  S 54 A 01 A Sr 55 N P
4 update 1 0xF000 0x3000: ok
5 read 1: 0x3011
  S 54 A 01 A Sr 55 A 00 A 00 N P
6 read 20: 0x0000
  S 54 A 01 A Sr 55 A 00 A 00 N P
  S 54 A 01 A 30 A 11 A P
  S 54 A 02 A 22 A 22 A P
  S 54 A 14 A Sr 55 A 00 A 00 N P
calls 6, failed transfers 1
";
    shows(&rt, rt.alloc(), text, expected)
}

// A keeper's run of 2 to 17 finds room for all but its last word, which first sends the 16 entries,
// one burst. Refused there the run is owed whole, and is joined to its own words when it comes
// again.
#[test]
fn a_run_that_fills_the_table(rt: HostRuntime) -> Result<(), Fail> {
    let text = b"bus i2c 0x2A
marks 5
pile paging deferral keeper
down
update 2 0xFFFF 2
update 3 0xFFFF 3
update 4 0xFFFF 4
update 5 0xFFFF 5
update 6 0xFFFF 6
update 7 0xFFFF 7
update 8 0xFFFF 8
update 9 0xFFFF 9
update 10 0xFFFF 10
update 11 0xFFFF 11
update 12 0xFFFF 12
update 13 0xFFFF 13
update 14 0xFFFF 14
update 15 0xFFFF 15
update 16 0xFFFF 16
update 17 0xFFFF 17
up
update 1 0xFFFF 1
read 20
read 20
";
    let expected = "1 down: ok
2 update 2 0xFFFF 0x0002: ok
3 update 3 0xFFFF 0x0003: ok
4 update 4 0xFFFF 0x0004: ok
5 update 5 0xFFFF 0x0005: ok
6 update 6 0xFFFF 0x0006: ok
7 update 7 0xFFFF 0x0007: ok
8 update 8 0xFFFF 0x0008: ok
9 update 9 0xFFFF 0x0009: ok
10 update 10 0xFFFF 0x000A: ok
11 update 11 0xFFFF 0x000B: ok
12 update 12 0xFFFF 0x000C: ok
13 update 13 0xFFFF 0x000D: ok
14 update 14 0xFFFF 0x000E: ok
15 update 15 0xFFFF 0x000F: ok
16 update 16 0xFFFF 0x0010: ok
17 update 17 0xFFFF 0x0011: ok
18 up: ok
19 update 1 0xFFFF 0x0001: ok
20 read 20: refused 6 line, cause 2, register 2, errand 1
  S 54 A 01 A 00 A 01 A 00 N P
21 read 20: 0x0000
  S 54 A 01 A 00 A 01 A 00 A 02 A 00 A 03 A 00 A 04 A 00 A 05 A 00 A 06 A 00 A 07 A 00 A 08 A 00 A 09 A 00 A 0A A 00 A 0B A 00 A 0C A 00 A 0D A 00 A 0E A 00 A 0F A 00 A 10 A P
  S 54 A 11 A 00 A 11 A P
  S 54 A 14 A Sr 55 A 00 A 00 N P
  under 1=0x0001 2=0x0002 3=0x0003 4=0x0004 5=0x0005 6=0x0006 7=0x0007 8=0x0008 9=0x0009 10=0x000A 11=0x000B 12=0x000C 13=0x000D 14=0x000E 15=0x000F 16=0x0010 17=0x0011
calls 21, failed transfers 1
";
    shows(&rt, rt.alloc(), text, expected)
}

// Over a deferral that keeps, another keeps too. The lower one's burst fails in the keeper, on
// errand 1 all the same, and awake the keeper sends each word of it by itself.
#[test]
fn deferrals_over_a_keeper(rt: HostRuntime) -> Result<(), Fail> {
    let text = b"bus i2c 0x2A
marks 4
pile paging keeper deferral deferral
down
update 1 0xFFFF 7
update 2 0xFFFF 9
read 1
up
read 20
read 20
";
    let expected = "1 down: ok
2 update 1 0xFFFF 0x0007: ok
3 update 2 0xFFFF 0x0009: ok
4 read 1: 0x0007
5 up: ok
6 read 20: refused 6 line, cause 2, register 1, errand 1
  S 54 A 01 A 00 A 07 N P
7 read 20: 0x0000
  S 54 A 01 A 00 A 07 A P
  S 54 A 02 A 00 A 09 A P
  S 54 A 14 A Sr 55 A 00 A 00 N P
  under 1=0x0007 2=0x0009
calls 7, failed transfers 1
";
    shows(&rt, rt.alloc(), text, expected)
}

// One burst over the end of page 0, which paging cuts in two puts. The second fails at its last
// byte, and so the whole burst stays and is sent again.
#[test]
fn a_burst_over_the_end_of_a_page(rt: HostRuntime) -> Result<(), Fail> {
    let text = b"bus i2c 0x2A
marks 0 0 8
pile paging deferral
update 66 0xFFFF 5
update 62 0xFFFF 1
update 64 0xFFFF 3
update 63 0xFFFF 2
update 65 0xFFFF 4
read 112
read 62
read 112
read 62
";
    let expected = "1 update 66 0xFFFF 0x0005: ok
2 update 62 0xFFFF 0x0001: ok
3 update 64 0xFFFF 0x0003: ok
4 update 63 0xFFFF 0x0002: ok
5 update 65 0xFFFF 0x0004: ok
6 read 112: refused 6 line, cause 2, register 66, errand 1
  S 54 A 3E A 00 A 01 A 00 A 02 A P
  S 54 A 00 A 00 A 01 A P
  S 54 A 20 A 00 A 03 A 00 A 04 A 00 A 05 N P
7 read 62: 0x0001
8 read 112: 0x0000
  S 54 A 00 A 00 A 00 A P
  S 54 A 3E A 00 A 01 A 00 A 02 A P
  S 54 A 00 A 00 A 01 A P
  S 54 A 20 A 00 A 03 A 00 A 04 A 00 A 05 A P
  S 54 A 00 A 00 A 02 A P
  S 54 A 30 A Sr 55 A 00 A 00 N P
9 read 62: 0x0001
  S 54 A 00 A 00 A 00 A P
  S 54 A 3E A Sr 55 A 00 A 01 N P
calls 9, failed transfers 1
";
    shows(&rt, rt.alloc(), text, expected)
}

// On window memory, with what a deferral refuses. The settings of the valve block are reset to 1.
#[test]
fn the_valve_block_in_a_window(rt: HostRuntime) -> Result<(), Fail> {
    let text = b"bus window
chart valve
pile paging deferral
update 1 0x00F0 0x0050
read 1
update 15 0xFFFF 0xBEEF
measure 16 0x0123
update 16 0xFFFF 1
update 20 0xFFFF 1
read 0
measure 1 1
read 16
read 1
read 15
update 1 0xFFFF 9
down
read 1
up
read 16
read 1
";
    let expected = "1 update 1 0x00F0 0x0050: ok
2 read 1: 0x0051
3 update 15 0xFFFF 0xBEEF: ok
4 measure 16 0x0123: ok
5 update 16 0xFFFF 0x0001: refused 3 live
6 update 20 0xFFFF 0x0001: refused 2 register
7 read 0: refused 2 register
8 measure 1 0x0001: refused 4 setting
9 read 16: 0x0123
10 read 1: 0x0051
11 read 15: 0xBEEF
12 update 1 0xFFFF 0x0009: ok
13 down: ok
14 read 1: refused 5 asleep
15 up: ok
16 read 16: 0x0000
17 read 1: 0x0001
calls 17, failed transfers 0
";
    shows(&rt, rt.alloc(), text, expected)
}
