//! Classes of bytes in a line: whitespace and words.
ghost use Rattle.std.specs.Prelude.{◌≡◌, ◌≤◌, ◌==◌, length, not, take, true, IsAscii};
ghost use Rattle.std.specs.Char.{is_ascii_digit};
ghost use Rattle.std.specs.List.{list_all, prefix_len};
ghost use Rattle.std.specs.Str.{str_eq_ignore_ascii_case};
ghost use Rattle.redcode_text.specs.Bytes.{ampersand};
ghost use Rattle.redcode_text.specs.Source.{blank_len};
ghost use Rattle.redcode_text.specs.Tokens.{is_blank, is_letter, is_word_byte, begins_name, begins_word, word_len};

/// Returns whether a byte is whitespace: at most 32, except for LF.
pub fn is_blank(byte: u8) -> bool
    ensures { result ≡ is_blank byte }
{
    byte <= b' ' && byte != b'\n'
}

/// Returns the number of whitespace bytes at the start of `bytes`.
pub fn blank_len(bytes: &[u8]) -> usize
    ensures value { result ≡ blank_len bytes.now }
    ensures within { result ≤ length bytes.now }
{
    bytes.iter().take_while(|byte| is_blank(**byte)).count()
}

/// Returns whether a byte is a letter or `_`.
pub fn is_letter(byte: u8) -> bool
    ensures { result ≡ is_letter byte }
{
    byte.is_ascii_alphabetic() || byte == b'_'
}

/// Returns whether a byte is a letter, a digit or `_`.
pub fn is_word_byte(byte: u8) -> bool
    ensures { result ≡ is_word_byte byte }
{
    is_letter(byte) || byte.is_ascii_digit()
}

/// Returns whether the bytes begin with a letter or `_`.
pub fn begins_name(bytes: &[u8]) -> bool
    ensures { result ≡ begins_name bytes.now }
{
    match bytes {
        [] => false,
        [first, ..] => is_letter(*first),
    }
}

/// Returns whether the bytes begin with a byte of a word, or with a join.
pub fn begins_word(bytes: &[u8]) -> bool
    ensures { result ≡ begins_word bytes.now }
{
    match bytes {
        [] => false,
        [b'&', next, ..] => is_letter(*next),
        [first, ..] => is_word_byte(*first),
    }
}

/// Returns whether two words are equal, ignoring case.
pub fn is_word(part: &[u8], word: &[u8]) -> bool
    ensures { result ≡ str_eq_ignore_ascii_case part.now word.now }
{
    part.eq_ignore_ascii_case(word)
}

/// Returns the number of bytes of the word at the start of `bytes`, including its joins, or 0 if there is no word.
pub fn word_len(bytes: &[u8]) -> usize
    ensures value { result ≡ word_len bytes.now }
    ensures within { result ≤ length bytes.now }
    ensures some { begins_word bytes.now ≡ true → 1 ≤ result }
    ensures ascii { IsAscii (take result bytes.now) }
{
    let mut len = 0;
    while begins_word(&bytes[len..]) {
        len += 1;
    }
    len
}

/// Returns the number of bytes before the first `&`, or of all bytes if there is none.
pub fn part_len(bytes: &[u8]) -> usize
    ensures value { result ≡ prefix_len (λ b. not (b == ampersand)) bytes.now }
    ensures within { result ≤ length bytes.now }
{
    bytes.iter().take_while(|byte| **byte != b'&').count()
}

/// Returns whether all bytes are decimal digits.
pub fn are_digits(bytes: &[u8]) -> bool
    ensures { result ≡ list_all is_ascii_digit bytes.now }
{
    bytes.iter().all(|byte| byte.is_ascii_digit())
}
