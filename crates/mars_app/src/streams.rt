//! The input and output of a run, except files and the line of an error.
ghost use Rattle.std.specs.Prelude.{◌≡◌, IfErr, OnOk};
ghost use Rattle.mars_app.specs.Streams.{Writes, WritesInPart};

use crate::contest::write_part;
use crate::fault::RunFault;
use std::io::{Read, Write};
use std::marker::Model;

/// The input, which only the debugger reads, and the output.
///
/// In contracts, their value is the bytes that the input has left and the bytes that the output has, if they are known.
#[derive(Drop)]
pub struct Streams<R: Read, W: Write> {
    pub input: R,
    pub output: W,
}

impl<R: Read, W: Write> Model for Streams<R, W> {
    ghost use Rattle.mars_app.specs.Streams.{StreamsValue};

    ghost Value = { StreamsValue };

    ghost view = { λ s. record { unread = R.remaining s.input; written = W.contents s.output } };
}

impl<R: Read, W: Write> Streams<R, W> {
    /// Writes a text.
    pub(crate) fn write(&mut self, text: &[u8]) -> Result<(), RunFault>
        ensures ok { OnOk result (Writes self.old self.new text.now) }
        ensures err { IfErr result (λ fault. (fault ≡ RunFault.Output) × WritesInPart self.old self.new text.now) }
    {
        write_part(&mut self.output, text)
    }
}
