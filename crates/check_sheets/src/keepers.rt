// Sheets whose calls go to a pile with keepers, with their transcripts.
use crate::transcripts::shows;
use std::test::Fail;

// The supply goes, settings are changed without it, and the next live read first sends what the
// chip has lost.
#[test]
fn what_is_owed_goes_before_the_reading(rt: HostRuntime) -> Result<(), Fail> {
    let text = b"bus i2c 0x2A
pile paging keeper
update 1 0xFFFF 7
down
update 64 0xFFFF 0x0012
update 2 0xFFFF 9
read 2
up
measure 20 0x0ABC
read 20                  # 1 and 2 are one run, 64 another
read 20                  # nothing is owed any more
read 1
";
    let expected = "1 update 1 0xFFFF 0x0007: ok
  S 54 A 01 A 00 A 07 A P
2 down: ok
3 update 64 0xFFFF 0x0012: ok
4 update 2 0xFFFF 0x0009: ok
5 read 2: 0x0009
6 up: ok
7 measure 20 0x0ABC: ok
8 read 20: 0x0ABC
  S 54 A 01 A 00 A 07 A 00 A 09 A P
  S 54 A 00 A 00 A 01 A P
  S 54 A 20 A 00 A 12 A P
  S 54 A 14 A Sr 55 A 0A A BC N P
  under 1=0x0007 2=0x0009 64=0x0012
9 read 20: 0x0ABC
  S 54 A 14 A Sr 55 A 0A A BC N P
  under 1=0x0007 2=0x0009 64=0x0012
10 read 1: 0x0007
calls 10, failed transfers 0
";
    shows(&rt, rt.alloc(), text, expected)
}

// The second of three runs fails after its first word: the reading is refused on errand 1, and that
// run is owed whole. The next reading sends it again, and fails itself, on errand 0.
#[test]
fn a_fault_in_the_second_run(rt: HostRuntime) -> Result<(), Fail> {
    let text = b"bus i2c 0x2A
marks 0 6 0 0 3
pile paging keeper
down
update 1 0xFFFF 7
update 5 0xFFFF 9
update 6 0xFFFF 10
update 32 0xFFFF 11
up
read 20
read 20
read 20
";
    let expected = "1 down: ok
2 update 1 0xFFFF 0x0007: ok
3 update 5 0xFFFF 0x0009: ok
4 update 6 0xFFFF 0x000A: ok
5 update 32 0xFFFF 0x000B: ok
6 up: ok
7 read 20: refused 6 line, cause 2, register 6, errand 1
  S 54 A 01 A 00 A 07 A P
  S 54 A 05 A 00 A 09 A 00 A 0A N P
8 read 20: refused 6 line, cause 1, register 20, errand 0
  S 54 A 05 A 00 A 09 A 00 A 0A A P
  S 54 A 20 A 00 A 0B A P
  S 54 A 14 A Sr 55 N P
9 read 20: 0x0000
  S 54 A 14 A Sr 55 A 00 A 00 N P
  under 1=0x0007 5=0x0009 6=0x000A 32=0x000B
calls 9, failed transfers 2
";
    shows(&rt, rt.alloc(), text, expected)
}

// What the chip wakes with is not owed to it.
#[test]
fn back_to_the_reset_word_asleep(rt: HostRuntime) -> Result<(), Fail> {
    let text = b"bus i2c 0x2A
pile paging keeper
update 1 0xFFFF 7
down
update 1 0xFFFF 0
update 96 0x00FF 0x0012
read 96
update 96 0x00FF 0x00FF
up
read 20
read 1
read 96
";
    let expected = "1 update 1 0xFFFF 0x0007: ok
  S 54 A 01 A 00 A 07 A P
2 down: ok
3 update 1 0xFFFF 0x0000: ok
4 update 96 0x00FF 0x0012: ok
5 read 96: 0xFF12
6 update 96 0x00FF 0x00FF: ok
7 up: ok
8 read 20: 0x0000
  S 54 A 14 A Sr 55 A 00 A 00 N P
  under reset settings
9 read 1: 0x0000
10 read 96: 0xFFFF
calls 10, failed transfers 0
";
    shows(&rt, rt.alloc(), text, expected)
}

// An update that changes nothing still sends a word that is owed, and only then.
#[test]
fn an_owed_register_under_mask_0(rt: HostRuntime) -> Result<(), Fail> {
    let text = b"bus i2c 0x2A
pile paging keeper
down
update 1 0xFFFF 7
up
update 1 0 0xFFFF
update 1 0 0xFFFF
update 2 0 5
read 20
";
    let expected = "1 down: ok
2 update 1 0xFFFF 0x0007: ok
3 up: ok
4 update 1 0x0000 0xFFFF: ok
  S 54 A 01 A 00 A 07 A P
5 update 1 0x0000 0xFFFF: ok
6 update 2 0x0000 0x0005: ok
7 read 20: 0x0000
  S 54 A 14 A Sr 55 A 00 A 00 N P
  under 1=0x0007
calls 7, failed transfers 0
";
    shows(&rt, rt.alloc(), text, expected)
}

// A word is held once it is accepted, and goes out whole whatever the mask.
#[test]
fn held_once_accepted(rt: HostRuntime) -> Result<(), Fail> {
    let text = b"bus i2c 0x2A
marks 3
pile paging keeper
update 1 0x00FF 7        # the high byte
read 1
update 1 0x00FF 7
read 1
update 1 0x00FF 7        # the chip has it
update 1 0xFF00 0x1200
";
    let expected = "1 update 1 0x00FF 0x0007: refused 6 line, cause 2, register 1, errand 0
  S 54 A 01 A 00 N P
2 read 1: 0x0000
3 update 1 0x00FF 0x0007: ok
  S 54 A 01 A 00 A 07 A P
4 read 1: 0x0007
5 update 1 0x00FF 0x0007: ok
6 update 1 0xFF00 0x1200: ok
  S 54 A 01 A 12 A 07 A P
calls 6, failed transfers 1
";
    shows(&rt, rt.alloc(), text, expected)
}

// Seventeen settings in a row are a run of 16 and one more. The first run goes over the end of page
// 0, where paging cuts it.
#[test]
fn runs_are_cut_after_sixteen(rt: HostRuntime) -> Result<(), Fail> {
    let text = b"bus i2c 0x2A
pile paging keeper
down
update 62 0xFFFF 1
update 63 0xFFFF 2
update 64 0xFFFF 3
update 65 0xFFFF 4
update 66 0xFFFF 5
update 67 0xFFFF 6
update 68 0xFFFF 7
update 69 0xFFFF 8
update 70 0xFFFF 9
update 71 0xFFFF 10
update 72 0xFFFF 11
update 73 0xFFFF 12
update 74 0xFFFF 13
update 75 0xFFFF 14
update 76 0xFFFF 15
update 77 0xFFFF 16
update 78 0xFFFF 17
up
read 112
";
    let expected = "1 down: ok
2 update 62 0xFFFF 0x0001: ok
3 update 63 0xFFFF 0x0002: ok
4 update 64 0xFFFF 0x0003: ok
5 update 65 0xFFFF 0x0004: ok
6 update 66 0xFFFF 0x0005: ok
7 update 67 0xFFFF 0x0006: ok
8 update 68 0xFFFF 0x0007: ok
9 update 69 0xFFFF 0x0008: ok
10 update 70 0xFFFF 0x0009: ok
11 update 71 0xFFFF 0x000A: ok
12 update 72 0xFFFF 0x000B: ok
13 update 73 0xFFFF 0x000C: ok
14 update 74 0xFFFF 0x000D: ok
15 update 75 0xFFFF 0x000E: ok
16 update 76 0xFFFF 0x000F: ok
17 update 77 0xFFFF 0x0010: ok
18 update 78 0xFFFF 0x0011: ok
19 up: ok
20 read 112: 0x0000
  S 54 A 3E A 00 A 01 A 00 A 02 A P
  S 54 A 00 A 00 A 01 A P
  S 54 A 20 A 00 A 03 A 00 A 04 A 00 A 05 A 00 A 06 A 00 A 07 A 00 A 08 A 00 A 09 A 00 A 0A A 00 A 0B A 00 A 0C A 00 A 0D A 00 A 0E A 00 A 0F A 00 A 10 A P
  S 54 A 2E A 00 A 11 A P
  S 54 A 00 A 00 A 02 A P
  S 54 A 30 A Sr 55 A 00 A 00 N P
  under 62=0x0001 63=0x0002 64=0x0003 65=0x0004 66=0x0005 67=0x0006 68=0x0007 69=0x0008 70=0x0009 71=0x000A 72=0x000B 73=0x000C 74=0x000D 75=0x000E 76=0x000F 77=0x0010 78=0x0011
calls 20, failed transfers 0
";
    shows(&rt, rt.alloc(), text, expected)
}

// Over a keeper another owes nothing: all that is owed goes out of the lowest, and a fault of that
// goes up unchanged.
#[test]
fn keepers_over_keepers(rt: HostRuntime) -> Result<(), Fail> {
    let text = b"bus i2c 0x2A
marks 0 2
pile paging keeper keeper keeper
update 1 0xFFFF 7
down
update 2 0xFFFF 9
read 2
up
read 20
read 20
";
    let expected = "1 update 1 0xFFFF 0x0007: ok
  S 54 A 01 A 00 A 07 A P
2 down: ok
3 update 2 0xFFFF 0x0009: ok
4 read 2: 0x0009
5 up: ok
6 read 20: refused 6 line, cause 2, register 1, errand 1
  S 54 A 01 N P
7 read 20: 0x0000
  S 54 A 01 A 00 A 07 A 00 A 09 A P
  S 54 A 14 A Sr 55 A 00 A 00 N P
  under 1=0x0007 2=0x0009
calls 7, failed transfers 1
";
    shows(&rt, rt.alloc(), text, expected)
}

// Asleep, settings are read and changed, and live registers are not.
#[test]
fn what_a_keeper_refuses(rt: HostRuntime) -> Result<(), Fail> {
    let text = b"bus window
chart valve
pile paging keeper keeper
update 1 0xFFFF 5
measure 16 0x0123
read 16
down
read 1
read 16
update 16 1 1
update 20 1 1
read 0
measure 1 5
update 2 0x000F 0x00FF
read 2
up
read 16
read 2
";
    let expected = "1 update 1 0xFFFF 0x0005: ok
2 measure 16 0x0123: ok
3 read 16: 0x0123
  under 1=0x0005
4 down: ok
5 read 1: 0x0005
6 read 16: refused 5 asleep
7 update 16 0x0001 0x0001: refused 3 live
8 update 20 0x0001 0x0001: refused 2 register
9 read 0: refused 2 register
10 measure 1 0x0005: refused 4 setting
11 update 2 0x000F 0x00FF: ok
12 read 2: 0x000F
13 up: ok
14 read 16: 0x0000
  under 1=0x0005 2=0x000F
15 read 2: 0x000F
calls 15, failed transfers 0
";
    shows(&rt, rt.alloc(), text, expected)
}
