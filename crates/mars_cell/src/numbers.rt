//! Reads numbers, and converts them to numbers below the core size.
ghost use Rattle.std.specs.Prelude.{◌≡◌, ◌≤◌, ◌<◌, ◌^◌, IfSome, length, true};
ghost use Rattle.std.specs.Char.{is_ascii_digit};
ghost use Rattle.std.specs.List.{list_all};
ghost use Rattle.std.specs.Str.Parse.{digits_value};
ghost use Rattle.mars_cell.specs.Numbers.{by_value, nearest, parse_digits, parse_number, split_sign, residue};

/// The size of the core that a text was written for, and the size of the core that reads it.
#[derive(Clone, Copy)]
pub struct Sizes {
    pub written: u32,
    pub core_size: u32,
    ghost some_written: { 0 < written },
    ghost some: { 0 < core_size },
}

impl Sizes {
    /// Returns the sizes of a text that was written for the core that reads it.
    pub fn same(core_size: u32) -> Sizes
        requires { 0 < core_size }
        ensures written { result.written ≡ core_size }
        ensures core_size { result.core_size ≡ core_size }
    {
        Sizes {
            written: core_size,
            core_size,
        }
    }
}

/// Returns the value of at most 18 digits.
fn value(digits: &[u8]) -> u64
    requires digits { list_all is_ascii_digit digits.now ≡ true }
    requires few { length digits.now ≤ 18 }
    ensures value { result ≡ digits_value 10 digits.now }
    ensures below { result < 10 ^ 18 }
{
    let mut value = 0;
    for digit in digits {
        value = value * 10 + u64::from(*digit - b'0');
    }
    value
}

/// Returns whether the first byte is a minus sign, and the bytes after the sign, or all bytes if there is no sign.
#[tactic(auto, unfolding(crate::specs::Numbers::split_sign))]
fn split_sign(word: &[u8]) -> (bool, &[u8])
    ensures { let r = result in (r.0, r.1.now) ≡ split_sign word.now }
{
    match word {
        [b'-', digits @ ..] => (true, digits),
        [b'+', digits @ ..] => (false, digits),
        _ => (false, word),
    }
}

fn are_digits(bytes: &[u8]) -> bool
    ensures { result ≡ list_all is_ascii_digit bytes.now }
{
    bytes.iter().all(|byte| byte.is_ascii_digit())
}

/// Reads a number of 1 to 18 digits.
#[tactic(auto, unfolding(crate::specs::Numbers::parse_digits))]
pub fn read_digits(word: &[u8]) -> Option<u64>
    ensures value { result ≡ parse_digits word.now }
    ensures below { IfSome result (λ n. n < 10 ^ 18) }
{
    if word.is_empty() || word.len() > 18 {
        return None;
    }
    if are_digits(word) {
        Some(value(word))
    } else {
        None
    }
}

/// Reads an integer: an optional sign and 1 to 18 digits.
#[tactic(auto, unfolding(crate::specs::Numbers::parse_number))]
pub fn read_number(word: &[u8]) -> Option<i64>
    ensures { result ≡ parse_number word.now }
{
    let (is_negative, digits) = split_sign(word);
    let magnitude = read_digits(digits)? as i64;
    Some(if is_negative { -magnitude } else { magnitude })
}

/// Returns the number from 0 to `core_size - 1` that differs from `value` by a multiple of `core_size`.
pub fn residue(value: i64, core_size: u32) -> u32
    requires { 0 < core_size }
    ensures value { result ≡ residue core_size value }
    ensures below { result < core_size }
{
    value.rem_euclid(i64::from(core_size)) as u32
}

/// Returns the integer nearest to 0 that differs from `value` by a multiple of `core_size`; of two equally near, the
/// positive one.
#[tactic(auto, unfolding(crate::specs::Numbers::nearest))]
fn nearest(value: i64, core_size: u32) -> i64
    requires { 0 < core_size }
    ensures { result ≡ nearest core_size value }
{
    let rest = residue(value, core_size);
    if rest <= core_size / 2 {
        i64::from(rest)
    } else {
        i64::from(rest) - i64::from(core_size)
    }
}

/// Converts a number from the core that it was written for to the core that reads it, preserving its value.
pub fn by_value(value: i64, sizes: Sizes) -> u32
    ensures value { result ≡ by_value sizes.written sizes.core_size value }
    ensures below { result < sizes.core_size }
{
    residue(nearest(value, sizes.written), sizes.core_size)
}
