//! The words and numbers of a line.
ghost use Rattle.std.specs.Prelude.{◌≡◌, ◌≤◌, length, option_map, not};
ghost use Rattle.std.specs.List.{position};
ghost use Rattle.mars_cell.specs.Parts.{is_blank};
ghost use Rattle.mars_app.specs.Debugger.Words.{index_of, first_word, after_word, number_at};

use mars_cell::read_digits;

/// Returns whether a byte is whitespace: 0 to 32, except for the line feed.
fn is_blank(byte: u8) -> bool
    ensures { result ≡ is_blank byte }
{
    byte <= b' ' && byte != b'\n'
}

/// Returns the index of the first byte that isn't whitespace.
fn find_word(line: &[u8]) -> Option<usize>
    ensures { result ≡ position (λ b. not (is_blank b)) line.now }
{
    line.iter().position(|byte| !is_blank(*byte))
}

/// Returns the index of the first byte that is whitespace.
fn find_blank(line: &[u8]) -> Option<usize>
    ensures { result ≡ position is_blank line.now }
{
    line.iter().position(|byte| is_blank(*byte))
}

/// Returns the index of the first word of a line, or the length of the line.
fn word_start(line: &[u8]) -> usize
    ensures value { result ≡ index_of (λ b. not (is_blank b)) line.now }
    ensures inside { result ≤ length line.now }
{
    find_word(line).unwrap_or(line.len())
}

/// Returns the index after the word at the start of a line.
fn word_end(line: &[u8]) -> usize
    ensures value { result ≡ index_of is_blank line.now }
    ensures inside { result ≤ length line.now }
{
    find_blank(line).unwrap_or(line.len())
}

/// Returns the first word of a line, and what follows it.
#[tactic(auto, unfolding(crate::specs::Debugger::Words::first_word, crate::specs::Debugger::Words::after_word))]
pub fn split_word(line: &[u8]) -> (&[u8], &[u8])
    ensures word { result.0.now ≡ first_word line.now }
    ensures rest { result.1.now ≡ after_word line.now }
{
    let (_, line) = line.split_at(word_start(line));
    line.split_at(word_end(line))
}

/// Returns the number that is the first word of a line, and what follows this word.
#[tactic(auto, unfolding(crate::specs::Debugger::Words::number_at))]
pub fn split_number(line: &[u8]) -> Option<(u64, &[u8])>
    ensures { option_map (λ r. (r.0, r.1.now)) result ≡ number_at line.now }
{
    let (word, rest) = split_word(line);
    Some((read_digits(word)?, rest))
}
