//! The line that is being read.
ghost use Rattle.std.specs.Prelude.{◌≡◌, ℕ, List, [], ◌∷◌, ◌++◌, ◌==◌, ◌<◌, length};
ghost use Rattle.mars_app.specs.Debugger.Lines.{line_request};

use crate::debugger::request::{Request, read_request};
use arrayvec::ArrayVec;

/// Maximum length of a line in bytes, without its LF.
pub const MAX_LINE_LEN: usize = 256;

/// The unfinished line, of which at most 256 bytes are stored.
#[derive(Drop)]
pub struct LineBuffer {
    bytes: ArrayVec<u8, MAX_LINE_LEN>,
    is_overlong: bool,
}

impl LineBuffer {
    ghost use Rattle.mars_app.specs.Code.LineBuffer.{Holds};

    pub fn new() -> LineBuffer
        ensures { Holds result [] }
    {
        LineBuffer {
            bytes: ArrayVec::new(),
            is_overlong: false,
        }
    }

    /// Appends a byte of the line.
    pub fn push(&mut self, byte: u8)
        ensures { (line : List ℕ) → Holds self.old line → Holds self.new (line ++ byte ∷ []) }
    {
        if self.bytes.is_full() {
            self.is_overlong = true;
        } else {
            self.bytes.push(byte);
        }
    }

    /// Returns whether the line has no byte yet.
    pub fn is_empty(&self) -> bool
        ensures { (line : List ℕ) → Holds self.now line → result ≡ (length line == 0) }
    {
        self.bytes.is_empty()
    }

    /// Returns the request of the line in a core of this size, and clears the buffer for the next line.
    pub fn take_request(&mut self, core_size: u32) -> Request
        requires { 0 < core_size }
        ensures request { (line : List ℕ) → Holds self.old line → result ≡ line_request core_size line }
        ensures next { Holds self.new [] }
    {
        let request = if self.is_overlong {
            Request::Unknown
        } else {
            read_request(self.bytes.as_slice(), core_size)
        };
        self.bytes.clear();
        self.is_overlong = false;
        request
    }
}
