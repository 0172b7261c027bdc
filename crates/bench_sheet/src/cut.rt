// Cuts a text into lines, and a line into words.
ghost use Rattle.std.specs.Prelude.{◌≡◌};
ghost use Rattle.std.specs.Iterator.{YieldsFirstRef, item_count};
ghost use Rattle.bench_sheet.specs.Cut.{part_before, part_after, blank, lines_of};

use std::marker::Model;

// What stands before the first `b`, and what stands after it.
fn split_once(s: &[u8], b: u8) -> (&[u8], &[u8])
    ensures front { result.0.now ≡ part_before b s.now }
    ensures back { result.1.now ≡ part_after b s.now }
{
    match s.iter().position(|c| *c == b) {
        Some(i) => (&s[..i], &s[i + 1..]),
        None => (s, &[]),
    }
}

/// The lines of a text, without their line ends. A line end at the text's end begins no other line
/// (docs/RULES.md, section 11).
// The slice's `split` yields an empty line there.
#[derive(Drop)]
pub struct Lines<'a>(pub &'a [u8]);

impl<'a> Iterator for Lines<'a> {
    type Item = &'a [u8];

    ghost next_gives = { YieldsFirstRef (λ s. lines_of s.0.now) };

    ghost remaining = { item_count (λ s. lines_of s.0.now) };

    #[tactic(auto, using(crate::proofs::Cutting::first_line))]
    fn next(&mut self) -> Option<&'a [u8]> {
        if self.0.is_empty() {
            return None;
        }
        let (line, rest) = split_once(self.0, b'\n');
        self.0 = rest;
        Some(line)
    }
}

/// A line without its comment, which a `#` begins (docs/RULES.md, section 11).
pub fn before_comment(line: &[u8]) -> &[u8]
    ensures { result.now ≡ part_before 35 line.now }
{
    split_once(line, b'#').0
}

fn is_blank(c: u8) -> bool
    ensures { result ≡ blank c }
{
    matches!(c, b' ' | b'\t' | b'\r')
}

/// The words of a line, which blanks, tabs and carriage returns part (docs/RULES.md, section 11).
// The slice's `split` yields an empty word between two blanks.
#[derive(Drop)]
pub struct Words<'a>(pub &'a [u8]);

impl<'a> Model for Words<'a> {
    ghost use Rattle.std.specs.Prelude.{ℕ, List};
    ghost use Rattle.bench_sheet.specs.Cut.{line_words};

    ghost Value = { List (List ℕ) };

    ghost view = { λ w. line_words w.0.now };
}

impl<'a> Iterator for Words<'a> {
    type Item = &'a [u8];

    ghost next_gives = { YieldsFirstRef (λ s. s) };

    ghost remaining = { item_count (λ s. s) };

    fn next(&mut self) -> Option<&'a [u8]> {
        let start = self.0.iter().position(|c| !is_blank(*c))?;
        let rest = &self.0[start..];
        let end = rest.iter().position(|c| is_blank(*c)).unwrap_or(rest.len());
        let (word, rest) = rest.split_at(end);
        self.0 = rest;
        Some(word)
    }
}
