//! Writes texts so that it is known how much was written, and builds lines of fixed size that contain numbers.
ghost use Rattle.std.specs.Prelude.{◌≡◌, ◌+◌, ◌≤◌, ◌++◌, length, decimal, OnOk, OnErr};
ghost use Rattle.std.specs.Io.KnownBytes.{Appends};
ghost use Rattle.arrayvec.specs.ArrayString.{array_string_len};
ghost use Rattle.mars_cell.specs.Output.{CutShort, right};

use arrayvec::ArrayString;
use itoa::Buffer;
use std::io::Write;
use thiserror::Error;

/// The error of a writer that failed or that accepted no byte.
#[derive(Clone, Copy, Debug, PartialEq, Eq, Error)]
#[error("cannot write")]
pub struct WriteFault;

/// Writes the whole text. On an error, a proper prefix of `text` was written. Does not allocate.
pub fn write_text<W: Write>(writer: &mut W, text: &[u8]) -> Result<(), WriteFault>
    ensures ok { OnOk result (Appends (W.contents writer.old) (W.contents writer.new) text.now) }
    ensures err { OnErr result (CutShort (W.contents writer.old) (W.contents writer.new) text.now) }
{
    let mut start = 0;
    while start < text.len() {
        match writer.write(&text[start..]) {
            Ok(0) => return Err(WriteFault),
            Ok(count) => start += count,
            Err(_) => return Err(WriteFault),
        }
    }
    Ok(())
}

/// The capacity of a line in bytes. The longest line is a row of results with 210 bytes: four numbers of at most 20
/// characters, five spaces, two names of at most 60 bytes, ` by ` and an LF.
pub const LINE: usize = 210;

/// A line of output, or a part of a line.
pub type Line = ArrayString<LINE>;

/// Appends `number` in decimal.
pub fn push_number(line: &mut Line, number: u64)
    requires { array_string_len line.old + 20 ≤ LINE }
    ensures bytes { line.new.bytes ≡ line.old.bytes ++ decimal number }
    ensures len { array_string_len line.new ≤ array_string_len line.old + 20 }
{
    let mut digits = Buffer::new();
    line.push_str(digits.format(number));
}

/// Appends `text`, right-aligned in `places` columns.
pub fn push_right(line: &mut Line, text: &str, places: usize)
    requires places { places ≤ 20 }
    requires text { length text.now ≤ 20 }
    requires room { array_string_len line.old + 20 ≤ LINE }
    ensures bytes { line.new.bytes ≡ line.old.bytes ++ right places text.now }
    ensures len { array_string_len line.new ≤ array_string_len line.old + 20 }
{
    for _place in text.len()..places {
        line.push_str(" ");
    }
    line.push_str(text);
}

/// Returns a line of the text `before`, `number` in decimal, and the text `after`.
pub fn numbered(before: &str, number: u64, after: &str) -> Line
    requires before { length before.now ≤ 40 }
    requires after { length after.now ≤ 40 }
    ensures bytes { result.bytes ≡ before.now ++ decimal number ++ after.now }
    ensures len { array_string_len result ≤ length before.now + 20 + length after.now }
{
    let mut line = Line::new();
    line.push_str(before);
    push_number(&mut line, number);
    line.push_str(after);
    line
}
