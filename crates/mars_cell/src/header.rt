//! The header of a load file: the core size that the file was written for, and the names.
ghost use Rattle.std.specs.Prelude.{◌≡◌, ◌+◌, ◌<◌, drop, option_and_then, option_map, slice_get, IfOk, IfSome};
ghost use Rattle.std.specs.List.{list_all};
ghost use Rattle.std.specs.Result.{result_map_both};
ghost use Rattle.mars_cell.specs.Header.{header_of, name_in, name_of, no_header, size_in, size_of, has_version};
ghost use Rattle.mars_cell.specs.Load.{lines_of};
ghost use Rattle.mars_cell.specs.ParameterFaults.{is_within};
ghost use Rattle.mars_cell.specs.Warriors.{IsName};

use crate::fault::LoadFault;
use crate::lines::Lines;
use crate::numbers::read_digits;
use crate::parameters::MAX_CORE_SIZE;

/// The maximum number of bytes of a name.
const MAX_NAME_LEN: usize = 60;

/// The header of a load file: what it states before its statements.
#[derive(Clone, Copy)]
pub struct Header<'a> {
    /// The size of the core that the file was written for.
    pub written: u32,
    pub name: &'a str,
    pub author: &'a str,
    ghost some: { 0 < written },
    ghost is_name: { IsName name.now },
    ghost is_author: { IsName author.now },
}

impl Header<'static> {
    /// Returns the header that a file of version 1 is read with. Such a file has no header; it counts as written for
    /// the core that reads it.
    pub fn unnamed(core_size: u32) -> Header<'static>
        requires { 0 < core_size }
        ensures { record { written = result.written; name = result.name.now; author = result.author.now } ≡ no_header core_size }
    {
        Header {
            written: core_size,
            name: "Unknown",
            author: "Anonymous",
        }
    }
}

/// Returns whether the file states its version, which it does if its first bytes are `;load ` and a digit.
#[tactic(auto, unfolding(crate::specs::Header::has_version))]
pub fn has_version(bytes: &[u8]) -> bool
    ensures { result ≡ has_version bytes.now }
{
    match bytes.strip_prefix(b";load ") {
        Some([first, ..]) => first.is_ascii_digit(),
        _ => false,
    }
}

/// Reads a core size: a number from 1 to the maximum that doesn't begin with 0.
#[tactic(auto, unfolding(crate::specs::Header::size_of))]
fn read_size(digits: &[u8]) -> Option<u32>
    ensures value { result ≡ size_of digits.now }
    ensures some { IfSome result (λ size. 0 < size) }
{
    if digits.starts_with(b"0") {
        return None;
    }
    let size = read_digits(digits)?;
    if size < 1 || size > u64::from(MAX_CORE_SIZE) {
        return None;
    }
    Some(size as u32)
}

/// Returns whether all bytes are printable ASCII.
fn is_printed(text: &[u8]) -> bool
    ensures { result ≡ list_all (is_within 32 126) text.now }
{
    text.iter().all(|byte| b' ' <= *byte && *byte <= b'~')
}

/// Returns `text` as a name if it is valid; spaces at its ends belong to the name.
#[tactic(auto, unfolding(crate::specs::Header::name_of))]
fn read_name(text: &[u8]) -> Option<&str>
    ensures value { option_map (λ name. name.now) result ≡ name_of text.now }
    ensures is_name { IfSome result (λ name. IsName name.now) }
{
    if text.len() > MAX_NAME_LEN || !is_printed(text) {
        return None;
    }
    str::from_utf8(text).ok()
}

/// Takes the first line, which states the core size, and returns the core size.
fn take_size(lines: &mut Lines<'_>) -> Option<u32>
    ensures value { result ≡ option_and_then size_in (slice_get (lines_of lines.old.rest.now) 0) }
    ensures some { IfSome result (λ size. 0 < size) }
    ensures rest { lines_of lines.new.rest.now ≡ drop 1 (lines_of lines.old.rest.now) }
    ensures number { IfSome result (λ _. lines.new.number ≡ lines.old.number + 1) }
{
    read_size(lines.take_first()?.strip_prefix(b";load 2 ")?)
}

/// Takes the first line, which is `word` and a name, and returns the name.
fn take_name<'a>(lines: &mut Lines<'a>, word: &[u8]) -> Option<&'a str>
    ensures value { option_map (λ name. name.now) result
        ≡ option_and_then (name_in word.now) (slice_get (lines_of lines.old.rest.now) 0) }
    ensures is_name { IfSome result (λ name. IsName name.now) }
    ensures rest { lines_of lines.new.rest.now ≡ drop 1 (lines_of lines.old.rest.now) }
    ensures number { IfSome result (λ _. lines.new.number ≡ lines.old.number + 1) }
{
    read_name(lines.take_first()?.strip_prefix(word)?)
}

/// Takes the header of a file of version 2, which is its first three lines, or returns the first error in it.
#[tactic(auto, using(crate::proofs::Heads::header_made), unfolding(crate::specs::Header::header_of))]
pub fn read_header<'a>(lines: &mut Lines<'a>) -> Result<Header<'a>, LoadFault>
    ensures value { result_map_both (λ h. record { written = h.written; name = h.name.now; author = h.author.now }) (λ fault. fault) result
        ≡ header_of (lines_of lines.old.rest.now) }
    ensures rest { IfOk result (λ _. lines_of lines.new.rest.now ≡ drop 3 (lines_of lines.old.rest.now)) }
    ensures number { IfOk result (λ _. lines.new.number ≡ lines.old.number + 3) }
{
    let written = take_size(lines).ok_or(LoadFault::Version)?;
    let name = take_name(lines, b";name ").ok_or(LoadFault::Syntax(2))?;
    let author = take_name(lines, b";author ").ok_or(LoadFault::Syntax(3))?;
    Ok(Header {
        written,
        name,
        author,
    })
}
