//! Text that waits to be written together with the text after it.
ghost use Rattle.std.specs.Prelude.{◌≡◌, ℕ, List, Option, [], ◌++◌, OnOk, OnErr};
ghost use Rattle.std.specs.Io.KnownBytes.{Appends};
ghost use Rattle.mars_cell.specs.Output.{CutShort};
ghost use Rattle.mars_app.specs.Code.Waiting.{Waits};

use arrayvec::ArrayString;
use mars_cell::{Line, WriteFault, write_text};
use std::io::Write;
use std::marker::Model;

/// Maximum number of bytes that wait.
const ROOM: usize = 4096;

/// Text that waits to be written, so that many short lines take few writes.
#[derive(Drop)]
pub struct PendingText {
    text: ArrayString<ROOM>,
}

impl Model for PendingText {
    ghost use Rattle.std.specs.Prelude.{List, ℕ};

    ghost Value = { List ℕ };

    ghost view = { λ p. p.text.bytes };
}

impl PendingText {
    /// Returns a text without any bytes.
    pub fn new() -> Self
        ensures { result ≡ [] }
    {
        PendingText {
            text: ArrayString::new(),
        }
    }

    /// Returns a text that consists of `line`.
    pub fn of(line: &Line) -> Self
        ensures { result ≡ line.now.bytes }
    {
        let mut text = ArrayString::new();
        text.push_str(line.as_str());
        PendingText { text }
    }

    /// Writes the whole text, and clears it unless the write fails.
    pub fn write<W: Write>(&mut self, writer: &mut W) -> Result<(), WriteFault>
        ensures ok { OnOk result ((old : Option (List ℕ)) (text : List ℕ) → Waits old (W.contents writer.old) self.old text
            → Appends old (W.contents writer.new) text) }
        ensures err { OnErr result ((old : Option (List ℕ)) (text : List ℕ) → Waits old (W.contents writer.old) self.old text
            → CutShort old (W.contents writer.new) text) }
        ensures empty { OnOk result (self.new ≡ []) }
    {
        match write_text(writer, self.text.as_str().as_bytes()) {
            Ok(()) => {
                self.text.clear();
                Ok(())
            }
            Err(fault) => Err(fault),
        }
    }

    /// Appends a line; writes the text first if there is no capacity for both.
    pub fn push<W: Write>(&mut self, writer: &mut W, line: &Line) -> Result<(), WriteFault>
        ensures ok { OnOk result ((old : Option (List ℕ)) (text : List ℕ) → Waits old (W.contents writer.old) self.old text
            → Waits old (W.contents writer.new) self.new (text ++ line.now.bytes)) }
        ensures err { OnErr result ((old : Option (List ℕ)) (text : List ℕ) → Waits old (W.contents writer.old) self.old text
            → CutShort old (W.contents writer.new) text) }
    {
        if self.text.remaining_capacity() < line.len() {
            match self.write(writer) {
                Ok(()) => {}
                Err(fault) => return Err(fault),
            }
        }
        self.text.push_str(line.as_str());
        Ok(())
    }

    /// Appends a last line and writes the whole text.
    pub fn finish<W: Write>(&mut self, writer: &mut W, line: &Line) -> Result<(), WriteFault>
        ensures ok { OnOk result ((old : Option (List ℕ)) (text : List ℕ) → Waits old (W.contents writer.old) self.old text
            → Appends old (W.contents writer.new) (text ++ line.now.bytes)) }
        ensures err { OnErr result ((old : Option (List ℕ)) (text : List ℕ) → Waits old (W.contents writer.old) self.old text
            → CutShort old (W.contents writer.new) (text ++ line.now.bytes)) }
    {
        match self.push(writer, line) {
            Ok(()) => self.write(writer),
            Err(fault) => Err(fault),
        }
    }
}
