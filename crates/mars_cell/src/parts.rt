//! Splits a line of a load file, or the text of a cell, into words, numbers and single bytes.
ghost use Rattle.std.specs.Prelude.{◌≡◌, ◌∷◌, [], length, take_while, MatchOption};
ghost use Rattle.std.specs.Char.{is_ascii_alphanumeric};
ghost use Rattle.mars_cell.specs.Parts.{is_blank, joins, parts};

/// The part of a line that is still to be read.
#[derive(Clone, Copy)]
pub struct LineParts<'a> {
    rest: &'a [u8],
}

impl<'a> LineParts<'a> {
    /// Returns the whole line.
    pub fn new(text: &'a [u8]) -> LineParts<'a>
        ensures { result.rest.now ≡ text.entry.now }
    {
        LineParts { rest: text }
    }

    /// Takes the next part, after any whitespace.
    pub fn take_first(&mut self) -> Option<&'a [u8]>
        ensures { MatchOption result (parts self.old.rest.now ≡ [])
            (λ part. parts self.old.rest.now ≡ part.now ∷ parts self.new.rest.now) }
    {
        let blanks = blank_len(self.rest);
        let (_, text) = self.rest.split_at(blanks);
        let Some((first, after)) = text.split_first() else {
            return None;
        };
        let count = if is_joining(*first) {
            word_len(after) + 1
        } else {
            1
        };
        let (part, rest) = text.split_at(count);
        self.rest = rest;
        Some(part)
    }
}

fn blank_len(text: &[u8]) -> usize
    ensures { result ≡ length (take_while is_blank text.now) }
{
    text.iter()
        .take_while(|byte| **byte < 33 && **byte != b'\n')
        .count()
}

fn word_len(text: &[u8]) -> usize
    ensures { result ≡ length (take_while is_ascii_alphanumeric text.now) }
{
    text.iter()
        .take_while(|byte| byte.is_ascii_alphanumeric())
        .count()
}

/// Returns whether a letter or digit directly after `byte` belongs to the same part.
#[tactic(auto, unfolding(crate::specs::Parts::joins))]
fn is_joining(byte: u8) -> bool
    ensures { result ≡ joins byte }
{
    byte.is_ascii_alphanumeric() || byte == b'+' || byte == b'-'
}
