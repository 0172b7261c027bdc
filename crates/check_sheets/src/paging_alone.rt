// Sheets whose calls go to a pile, with their transcripts.
use crate::transcripts::shows;
use std::test::Fail;

// 63 is the last of page 0, which is selected from the start, 64 the first of page 1, and 127 the
// last of page 2.
#[test]
fn the_first_and_the_last_of_a_page(rt: HostRuntime) -> Result<(), Fail> {
    let text = b"bus i2c 0x2A
pile paging
read 63
read 64
read 63
measure 127 0xBEEF
read 127
update 64 0xFFFF 0x1234
read 64
";
    let expected = "1 read 63: 0x0080
  S 54 A 3F A Sr 55 A 00 A 80 N P
2 read 64: 0x0080
  S 54 A 00 A 00 A 01 A P
  S 54 A 20 A Sr 55 A 00 A 80 N P
3 read 63: 0x0080
  S 54 A 00 A 00 A 00 A P
  S 54 A 3F A Sr 55 A 00 A 80 N P
4 measure 127 0xBEEF: ok
5 read 127: 0xBEEF
  S 54 A 00 A 00 A 02 A P
  S 54 A 3F A Sr 55 A BE A EF N P
6 update 64 0xFFFF 0x1234: ok
  S 54 A 00 A 00 A 01 A P
  S 54 A 20 A 12 A 34 A P
7 read 64: 0x1234
  S 54 A 20 A Sr 55 A 12 A 34 N P
calls 7, failed transfers 0
";
    shows(&rt, rt.alloc(), text, expected)
}

// After a failed selection no page is believed, so that the next access selects again; a failed get
// leaves the page believed. A masked update reads first, and puts the word only where it differs.
#[test]
fn a_failed_selection_and_masked_updates(rt: HostRuntime) -> Result<(), Fail> {
    let text = b"bus i2c 0x2A
marks 4 0 0 2 0 3
pile paging
read 64                  # the low byte of the selector
read 64
read 65                  # the raw address
read 65
update 65 0x00FF 0x0011  # the address to read from
update 65 0x00FF 0x0011
update 65 0x00FF 0x0011  # the word is the same
update 65 0 0xFFFF       # sends nothing
update 65 0x00F0 0xFFFF  # the bits outside the mask count for nothing
";
    let expected = "1 read 64: refused 6 line, cause 2, register 64, errand 0
  S 54 A 00 A 00 A 01 N P
2 read 64: 0x0080
  S 54 A 00 A 00 A 01 A P
  S 54 A 20 A Sr 55 A 00 A 80 N P
3 read 65: refused 6 line, cause 2, register 65, errand 0
  S 54 A 21 N P
4 read 65: 0x0080
  S 54 A 21 A Sr 55 A 00 A 80 N P
5 update 65 0x00FF 0x0011: refused 6 line, cause 1, register 65, errand 0
  S 54 A 21 A Sr 55 N P
6 update 65 0x00FF 0x0011: ok
  S 54 A 21 A Sr 55 A 00 A 80 N P
  S 54 A 21 A 00 A 11 A P
7 update 65 0x00FF 0x0011: ok
  S 54 A 21 A Sr 55 A 00 A 11 N P
8 update 65 0x0000 0xFFFF: ok
9 update 65 0x00F0 0xFFFF: ok
  S 54 A 21 A Sr 55 A 00 A 11 N P
  S 54 A 21 A 00 A F1 A P
calls 9, failed transfers 3
";
    shows(&rt, rt.alloc(), text, expected)
}

// One update with a selection, a get and a put is the most that a call on paging sends.
#[test]
fn an_update_of_three_transfers(rt: HostRuntime) -> Result<(), Fail> {
    let text = b"bus i2c 127\npile paging\nupdate 111 0x0F0F 0x1234\n";
    let expected = "1 update 111 0x0F0F 0x1234: ok
  S FE A 00 A 00 A 02 A P
  S FE A 2F A Sr FF A FF A FF N P
  S FE A 2F A F2 A F4 A P
calls 1, failed transfers 0
";
    shows(&rt, rt.alloc(), text, expected)
}

// The chip forgets its settings and its selector, and paging then believes page 0.
#[test]
fn over_a_down(rt: HostRuntime) -> Result<(), Fail> {
    let text = b"bus i2c 0x2A
pile paging
update 96 0xFFFF 1
down
read 96
measure 112 5
up
read 32
read 96
read 112
";
    let expected = "1 update 96 0xFFFF 0x0001: ok
  S 54 A 00 A 00 A 02 A P
  S 54 A 20 A 00 A 01 A P
2 down: ok
3 read 96: refused 5 asleep
4 measure 112 0x0005: ok
5 up: ok
6 read 32: 0x0080
  S 54 A 20 A Sr 55 A 00 A 80 N P
7 read 96: 0xFFFF
  S 54 A 00 A 00 A 02 A P
  S 54 A 20 A Sr 55 A FF A FF N P
8 read 112: 0x0000
  S 54 A 30 A Sr 55 A 00 A 00 N P
calls 8, failed transfers 0
";
    shows(&rt, rt.alloc(), text, expected)
}

// An absent register, a live one in an update and a setting in a measure are all told before the
// supply is.
#[test]
fn the_order_of_refusals(rt: HostRuntime) -> Result<(), Fail> {
    let text = b"bus window
pile paging
read 0
read 28
read 128
update 28 0xFFFF 1
update 20 0xFFFF 1
measure 28 1
measure 19 1
down
read 28
read 20
read 1
update 28 0xFFFF 1
update 20 0xFFFF 1
update 1 0 0
measure 19 1
measure 20 9
up
read 20
measure 20 9
read 20
update 111 0xFF00 0x1234
read 111
";
    let expected = "1 read 0: refused 2 register
2 read 28: refused 2 register
3 read 128: refused 2 register
4 update 28 0xFFFF 0x0001: refused 2 register
5 update 20 0xFFFF 0x0001: refused 3 live
6 measure 28 0x0001: refused 2 register
7 measure 19 0x0001: refused 4 setting
8 down: ok
9 read 28: refused 2 register
10 read 20: refused 5 asleep
11 read 1: refused 5 asleep
12 update 28 0xFFFF 0x0001: refused 2 register
13 update 20 0xFFFF 0x0001: refused 3 live
14 update 1 0x0000 0x0000: refused 5 asleep
15 measure 19 0x0001: refused 4 setting
16 measure 20 0x0009: ok
17 up: ok
18 read 20: 0x0000
19 measure 20 0x0009: ok
20 read 20: 0x0009
21 update 111 0xFF00 0x1234: ok
22 read 111: 0x12FF
calls 22, failed transfers 0
";
    shows(&rt, rt.alloc(), text, expected)
}

// All registers of the valve block lie below 32, so that no page is ever selected. Address 0x10 is
// 20 to write and 21 to read.
#[test]
fn the_valve_block(rt: HostRuntime) -> Result<(), Fail> {
    let text = b"chart valve
pile paging
bus i2c 0x10
read 15
update 1 0xFFFF 0xA5A5
read 16
measure 19 7
read 19
read 20
read 32
update 16 0xFFFF 0
measure 1 1
down
read 1
up
read 1
";
    let expected = "1 read 15: 0x0001
  S 20 A 0F A Sr 21 A 00 A 01 N P
2 update 1 0xFFFF 0xA5A5: ok
  S 20 A 01 A A5 A A5 A P
3 read 16: 0x0000
  S 20 A 10 A Sr 21 A 00 A 00 N P
4 measure 19 0x0007: ok
5 read 19: 0x0007
  S 20 A 13 A Sr 21 A 00 A 07 N P
6 read 20: refused 2 register
7 read 32: refused 2 register
8 update 16 0xFFFF 0x0000: refused 3 live
9 measure 1 0x0001: refused 4 setting
10 down: ok
11 read 1: refused 5 asleep
12 up: ok
13 read 1: 0x0001
  S 20 A 01 A Sr 21 A 00 A 01 N P
calls 13, failed transfers 0
";
    shows(&rt, rt.alloc(), text, expected)
}

#[test]
fn no_pile_without_a_bus(rt: HostRuntime) -> Result<(), Fail> {
    shows(
        &rt,
        rt.alloc(),
        b"bus i2c 7\npile paging\nread 5\n",
        "bus: refused 7 address\n",
    )
}
