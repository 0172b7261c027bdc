// Numbers as a sheet writes them.
ghost use Rattle.std.specs.Prelude.{◌≡◌, ◌<◌, ◌≤◌, MatchOption};
ghost use Rattle.bench_sheet.specs.Numeral.{digit, in_base, numeral};

// What a digit is worth, if it is one of the base.
#[tactic(auto, using(crate::proofs::Digiting::same_worth))]
fn digit(c: u8, base: u16) -> Option<u16>
    requires some { 2 ≤ base }
    requires few { base ≤ 16 }
    ensures { MatchOption result (base ≤ digit c) (λ d. (d ≡ digit c) × (d < base)) }
{
    // It is below the base, so nothing is lost.
    char::from(c)
        .to_digit(u32::from(base))
        .map(|digit| digit as u16)
}

fn in_base(digits: &[u8], base: u16) -> Option<u16>
    requires some { 2 ≤ base }
    requires few { base ≤ 16 }
    ensures { result ≡ in_base base digits.now }
{
    if digits.is_empty() {
        return None;
    }
    digits.iter().try_fold(
        0u16,
        |n, c| n.checked_mul(base)?.checked_add(digit(*c, base)?),
    )
}

/// The number that a word writes: decimal, or hexadecimal after `0x`, with digits of either case.
/// None where it writes none, or one above 65535 (docs/RULES.md, section 11).
pub fn number(word: &[u8]) -> Option<u16>
    ensures { result ≡ numeral word.now }
{
    match word {
        [b'0', b'x', digits @ ..] => in_base(digits, 16),
        _ => in_base(word, 10),
    }
}
