use bench_play::transcript;
use std::alloc::Global;
use std::process::Abort;
use std::test::Fail;

pub fn shows(rt: &impl Abort, heap: Global, text: &[u8], expected: &str) -> Result<(), Fail> {
    let sheet = bench_sheet::read(heap, text)?;
    assert_eq!(rt; transcript(heap, &sheet)?.as_str(), expected);
    Ok(())
}

// Address 0x2A is 54 to write and 55 to read.
#[test]
fn a_fault_at_every_kind_of_byte(rt: HostRuntime) -> Result<(), Fail> {
    let text = b"bus i2c 0x2A
marks 1 2 3 4
marks 1 2 3 0
put 5 0xA1B2  # the address
put 5 0xA1B2  # the raw address
put 5 0xA1B2  # the high byte
put 5 0xA1B2  # the low byte
get 5         # the address
get 5         # the raw address
get 5         # the address to read from
get 5         # none
put 5 0xA1B2  # past the end of the list
get 5
";
    let expected = "1 put 5 0xA1B2: refused 6 line, cause 1, stored 0
  S 54 N P
2 put 5 0xA1B2: refused 6 line, cause 2, stored 0
  S 54 A 05 N P
3 put 5 0xA1B2: refused 6 line, cause 2, stored 0
  S 54 A 05 A A1 N P
4 put 5 0xA1B2: refused 6 line, cause 2, stored 0
  S 54 A 05 A A1 A B2 N P
5 get 5: refused 6 line, cause 1, stored 0
  S 54 N P
6 get 5: refused 6 line, cause 2, stored 0
  S 54 A 05 N P
7 get 5: refused 6 line, cause 1, stored 0
  S 54 A 05 A Sr 55 N P
8 get 5: 0x0000
  S 54 A 05 A Sr 55 A 00 A 00 N P
9 put 5 0xA1B2: ok
  S 54 A 05 A A1 A B2 A P
10 get 5: 0xA1B2
  S 54 A 05 A Sr 55 A A1 A B2 N P
calls 10, failed transfers 7
";
    shows(&rt, rt.alloc(), text, expected)
}

// What was stored before a fault stays; a refusal uses no mark.
#[test]
fn part_of_a_burst(rt: HostRuntime) -> Result<(), Fail> {
    let text = b"bus i2c 0x2A
marks 8 9 255
get 64
put 5
put 5 1 2 3
get 6
get 7
put 5 4 5 6
";
    let expected = "1 get 64: refused 2 register
2 put 5: refused 1 length
3 put 5 0x0001 0x0002 0x0003: refused 6 line, cause 2, stored 2
  S 54 A 05 A 00 A 01 A 00 A 02 A 00 A 03 N P
4 get 6: 0x0002
  S 54 A 06 A Sr 55 A 00 A 02 N P
5 get 7: 0x0000
  S 54 A 07 A Sr 55 A 00 A 00 N P
6 put 5 0x0004 0x0005 0x0006: ok
  S 54 A 05 A 00 A 04 A 00 A 05 A 00 A 06 A P
calls 6, failed transfers 1
";
    shows(&rt, rt.alloc(), text, expected)
}

// Registers 32, 64 and 96 are reset to 0x0080, 0x0080 and 0xFFFF.
#[test]
fn selector_three_leads_nowhere(rt: HostRuntime) -> Result<(), Fail> {
    let text = b"bus window
get 32
put 0 2
get 32
put 0 7
get 0
put 40 0x1111
get 40
put 0 1
get 40
put 0 0
get 40
";
    let expected = "1 get 32: 0x0080
2 put 0 0x0002: ok
3 get 32: 0xFFFF
4 put 0 0x0007: ok
5 get 0: 0x0003
6 put 40 0x1111: ok
7 get 40: 0x0000
8 put 0 0x0001: ok
9 get 40: 0x0080
10 put 0 0x0000: ok
11 get 40: 0x0080
calls 11, failed transfers 0
";
    shows(&rt, rt.alloc(), text, expected)
}

// Under page 1 the burst goes to registers 30, 31 and 64. Address 8 is 10 to write and 11 to read.
#[test]
fn a_burst_over_the_end_of_the_fixed_registers(rt: HostRuntime) -> Result<(), Fail> {
    let text = b"bus i2c 8
put 0 1
put 30 0x0102 0x0304 0x0506
get 31
get 32
put 0 0 0x0A0B
get 32
get 1
put 62 1 2
put 63 1 2
";
    let expected = "1 put 0 0x0001: ok
  S 10 A 00 A 00 A 01 A P
2 put 30 0x0102 0x0304 0x0506: ok
  S 10 A 1E A 01 A 02 A 03 A 04 A 05 A 06 A P
3 get 31: 0x0304
  S 10 A 1F A Sr 11 A 03 A 04 N P
4 get 32: 0x0506
  S 10 A 20 A Sr 11 A 05 A 06 N P
5 put 0 0x0000 0x0A0B: ok
  S 10 A 00 A 00 A 00 A 0A A 0B A P
6 get 32: 0x0080
  S 10 A 20 A Sr 11 A 00 A 80 N P
7 get 1: 0x0A0B
  S 10 A 01 A Sr 11 A 0A A 0B N P
8 put 62 0x0001 0x0002: ok
  S 10 A 3E A 00 A 01 A 00 A 02 A P
9 put 63 0x0001 0x0002: refused 2 register
calls 9, failed transfers 0
";
    shows(&rt, rt.alloc(), text, expected)
}

// The valve block: settings 1 to 15 are reset to 1, and 16 to 19 are live. A put of 16 words is the
// longest.
#[test]
fn the_window_and_the_order_of_refusals(rt: HostRuntime) -> Result<(), Fail> {
    let text = b"bus window
chart valve
get 1
get 16
measure 16 0xBEEF
get 16
measure 15 1
measure 20 1
put 3 1 2 3 4 5 6 7 8 9 10 11 12 13 14 15 16 17
put 3 1 2 3 4 5 6 7 8 9 10 11 12 13 14 15 16
get 18
down
measure 16 5
measure 15 5
get 1
get 64
put 64
put 64 1
put 3 1
up
get 16
get 3
";
    let expected = "1 get 1: 0x0001
2 get 16: 0x0000
3 measure 16 0xBEEF: ok
4 get 16: 0xBEEF
5 measure 15 0x0001: refused 4 setting
6 measure 20 0x0001: refused 2 register
7 put 3 0x0001 0x0002 0x0003 0x0004 0x0005 0x0006 0x0007 0x0008 0x0009 0x000A 0x000B 0x000C 0x000D 0x000E 0x000F 0x0010 0x0011: refused 1 length
8 put 3 0x0001 0x0002 0x0003 0x0004 0x0005 0x0006 0x0007 0x0008 0x0009 0x000A 0x000B 0x000C 0x000D 0x000E 0x000F 0x0010: ok
9 get 18: 0x0010
10 down: ok
11 measure 16 0x0005: ok
12 measure 15 0x0005: refused 4 setting
13 get 1: refused 5 asleep
14 get 64: refused 2 register
15 put 64: refused 1 length
16 put 64 0x0001: refused 2 register
17 put 3 0x0001: refused 5 asleep
18 up: ok
19 get 16: 0x0000
20 get 3: 0x0001
calls 20, failed transfers 0
";
    shows(&rt, rt.alloc(), text, expected)
}

#[test]
fn an_address_that_no_target_may_have(rt: HostRuntime) -> Result<(), Fail> {
    let heap = rt.alloc();
    shows(
        &rt,
        heap,
        b"bus i2c 7\nmarks 1\nget 5\n",
        "bus: refused 7 address\n",
    )?;
    shows(
        &rt,
        heap,
        b"bus i2c 128\nchart valve\n",
        "bus: refused 7 address\n",
    )?;
    shows(&rt, heap, b"bus i2c 127\n", "calls 0, failed transfers 0\n")
}
