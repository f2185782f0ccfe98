//! Splits a load file into lines, and counts them.
ghost use Rattle.std.specs.Prelude.{◌≡◌, ◌∷◌, ◌+◌, ◌^◌, ◌<◌, ◌==◌, [], drop, length, not, MatchOption, take_while};
ghost use Rattle.mars_cell.specs.Load.{lines_of};

/// The lines that are still to be read.
#[derive(Clone, Copy)]
pub struct Lines<'a> {
    rest: &'a [u8],
    /// The number of the next line, counted from 1.
    pub number: usize,
    ghost room: { number + length rest.now < 2 ^ 64 },
}

impl<'a> Lines<'a> {
    /// Returns all lines of `bytes`.
    pub fn new(bytes: &'a [u8]) -> Lines<'a>
        ensures rest { result.rest.now ≡ bytes.entry.now }
        ensures number { result.number ≡ 1 }
    {
        Lines {
            rest: bytes,
            number: 1,
        }
    }

    /// Takes the next line, without its LF.
    pub fn take_first(&mut self) -> Option<&'a [u8]>
        ensures line { MatchOption result (lines_of self.old.rest.now ≡ [])
            (λ line. lines_of self.old.rest.now ≡ line.now ∷ lines_of self.new.rest.now) }
        ensures number { MatchOption result (self.new ≡ self.old)
            (λ _. self.new.number ≡ self.old.number + 1) }
        ensures shorter { MatchOption result (self.new ≡ self.old)
            (λ _. length self.new.rest.now < length self.old.rest.now) }
    {
        if self.rest.is_empty() {
            return None;
        }
        let (line, rest) = self.rest.split_at(line_len(self.rest));
        self.rest = after_newline(rest);
        self.number += 1;
        Some(line)
    }
}

/// Returns the length of the first line in bytes.
fn line_len(bytes: &[u8]) -> usize
    ensures { result ≡ length (take_while (λ b. not (b == 10)) bytes.now) }
{
    bytes.iter().take_while(|byte| **byte != b'\n').count()
}

/// Returns the bytes after the first one, which is the LF of a line, or an empty slice unchanged.
fn after_newline(rest: &[u8]) -> &[u8]
    ensures { result.now ≡ drop 1 rest.now }
{
    match rest.split_first() {
        Some((_, after)) => after,
        None => rest,
    }
}
