//! The debugger: it reads lines, executes their calls over a session, and writes the replies.
//!
//! The text that it writes is the transcript of exactly these lines, however they are split into reads, over any reader, writer
//! and tape. After a failed read, it is the transcript of the complete lines; after a failed write, a beginning of the
//! transcript (`specs/Debugger/Transcript`). The debugger itself uses only arrays of fixed size, so only the calls of the
//! session may allocate.
ghost use Rattle.std.specs.Prelude.{◌≡◌, Bool, [], ◌∷◌, ◌<◌, ◌*◌, OnOk, OnErr};
ghost use Rattle.std.specs.Io.KnownBytes.{Appends};
ghost use Rattle.mars_cell.specs.Output.{CutShort};
ghost use Rattle.mars_app.specs.Debugger.Transcript.{answer, core_size_of, Completes, NothingDone, ReadFails, TakesAtMost, WriteFails};
ghost use Rattle.mars_app.specs.Code.Steps.{WriteFailsWithin, WriteFailsAtEnd, Finishes, GoesThrough, Quits};

mod line_buffer;
mod pending;
mod readings;
mod replies;
mod request;
mod words;

use crate::debugger::line_buffer::LineBuffer;
use crate::debugger::readings::{write_list, write_queue, write_show};
use crate::debugger::replies::reply_line;
use crate::debugger::request::Request;
use mars_cell::{WriteFault, write_text};
use mars_session::{Session, Tape};
use std::io::{Read, Write};

/// Why the debugger ended before `quit` and the end of its input.
#[derive(Clone, Copy, Debug, PartialEq, Eq)]
pub enum DebugFault {
    /// A read failed, or the maximum number of reads was reached.
    Read,
    /// A write failed, or took no byte.
    Write,
}

/// Whether the debugger continues.
#[derive(Clone, Copy, PartialEq, Eq)]
pub enum Flow {
    More,
    Quit,
}

/// Executes a request and writes the reply.
#[tactic(auto, unfolding(crate::specs::Debugger::Transcript::answer))]
fn execute<W: Write, T: Tape>(
    request: Request,
    writer: &mut W,
    session: &mut Session<T>,
) -> Result<(), WriteFault>
    ensures ok { OnOk result ((poor : Bool)
        × (session.new.state ≡ (answer poor session.old.state request).0)
        × Appends (W.contents writer.old) (W.contents writer.new) (answer poor session.old.state request).1) }
    ensures err { OnErr result ((poor : Bool)
        × (session.new.state ≡ (answer poor session.old.state request).0)
        × CutShort (W.contents writer.old) (W.contents writer.new) (answer poor session.old.state request).1) }
{
    match request {
        Request::Nothing | Request::Quit => Ok(()),
        Request::Call(call) => {
            let reply = session.call(call);
            write_text(writer, reply_line(reply).as_str().as_bytes())
        }
        Request::List(address, count) => write_list(writer, session.battle(), address, count),
        Request::Queue(warrior) => write_queue(writer, session.battle(), warrior),
        Request::Show => write_show(writer, session.standing(), session.battle()),
        Request::Unknown => write_text(writer, b"unknown\n"),
    }
}

/// Processes one byte of the input.
fn take_byte<W: Write, T: Tape>(
    byte: u8,
    line: &mut LineBuffer,
    core_size: u32,
    writer: &mut W,
    session: &mut Session<T>,
) -> Result<Flow, WriteFault>
    requires { 0 < core_size }
    ensures more { result ≡ Ok Flow.More → GoesThrough core_size (byte ∷ []) line.old session.old.state (W.contents writer.old)
        line.new session.new.state (W.contents writer.new) }
    ensures quit { result ≡ Ok Flow.Quit → Quits core_size (byte ∷ []) line.old session.old.state (W.contents writer.old)
        session.new.state (W.contents writer.new) }
    ensures err { OnErr result (WriteFailsWithin core_size (byte ∷ []) line.old session.old.state (W.contents writer.old)
        session.new.state (W.contents writer.new)) }
{
    if byte != b'\n' {
        line.push(byte);
        return Ok(Flow::More);
    }
    let request = line.take_request(core_size);
    if request == Request::Quit {
        return Ok(Flow::Quit);
    }
    // `match` instead of `?`, here and below: the proof cites the postcondition of `execute` for a failed write, which `?`
    // hides.
    match execute(request, writer, session) {
        Ok(()) => Ok(Flow::More),
        Err(fault) => Err(fault),
    }
}

/// Processes bytes of the input, up to a `quit`.
fn take_bytes<W: Write, T: Tape>(
    chunk: &[u8],
    line: &mut LineBuffer,
    core_size: u32,
    writer: &mut W,
    session: &mut Session<T>,
) -> Result<Flow, WriteFault>
    requires { 0 < core_size }
    ensures more { result ≡ Ok Flow.More → GoesThrough core_size chunk.now line.old session.old.state (W.contents writer.old)
        line.new session.new.state (W.contents writer.new) }
    ensures quit { result ≡ Ok Flow.Quit → Quits core_size chunk.now line.old session.old.state (W.contents writer.old)
        session.new.state (W.contents writer.new) }
    ensures err { OnErr result (WriteFailsWithin core_size chunk.now line.old session.old.state (W.contents writer.old)
        session.new.state (W.contents writer.new)) }
{
    for byte in chunk {
        match take_byte(*byte, line, core_size, writer, session) {
            Ok(Flow::More) => {}
            Ok(Flow::Quit) => return Ok(Flow::Quit),
            Err(fault) => return Err(fault),
        }
    }
    Ok(Flow::More)
}

/// Executes the last line of the input if it has no LF.
fn take_last_line<W: Write, T: Tape>(
    line: &mut LineBuffer,
    core_size: u32,
    writer: &mut W,
    session: &mut Session<T>,
) -> Result<(), WriteFault>
    requires { 0 < core_size }
    ensures ok { OnOk result (Finishes core_size line.old session.old.state (W.contents writer.old)
        session.new.state (W.contents writer.new)) }
    ensures err { OnErr result (WriteFailsAtEnd core_size line.old session.old.state (W.contents writer.old)
        session.new.state (W.contents writer.new)) }
{
    if line.is_empty() {
        return Ok(());
    }
    let request = line.take_request(core_size);
    if request == Request::Quit {
        return Ok(());
    }
    execute(request, writer, session)
}

/// Maximum number of bytes of one read.
const CHUNK: usize = 4096;

/// Maximum number of reads of the debugger.
const MAX_READS: u64 = 4_294_967_296;

/// Reads lines up to `quit` or the end of the input, in at most `reads` reads. Writes the reply to each line before it executes
/// the next one.
pub fn debug_within<R: Read, W: Write, T: Tape>(
    reader: &mut R,
    writer: &mut W,
    session: &mut Session<T>,
    reads: u64,
) -> Result<(), DebugFault>
    // Success: all lines up to a `quit`, or to the end, were executed and their replies written.
    ensures ok { OnOk result (Completes (core_size_of session.old.state) (R.remaining reader.old) (R.remaining reader.new)
        session.old.state (W.contents writer.old) session.new.state (W.contents writer.new)) }

    // A failed read: the replies to the complete lines were written, and an unfinished line was not executed.
    ensures read { result ≡ Err DebugFault.Read → ReadFails (core_size_of session.old.state) (R.remaining reader.old) (R.remaining reader.new)
        session.old.state (W.contents writer.old) session.new.state (W.contents writer.new) }

    // A failed write: lines were executed in order, and the reply to the last of these was not written completely.
    ensures write { result ≡ Err DebugFault.Write → WriteFails (core_size_of session.old.state) (R.remaining reader.old) (R.remaining reader.new)
        session.old.state (W.contents writer.old) session.new.state (W.contents writer.new) }

    // Each read returns at most 4,096 bytes.
    ensures few { TakesAtMost (4096 * reads) (R.remaining reader.old) (R.remaining reader.new) }

    // Without a read nothing is done.
    ensures no_reads { reads ≡ 0 → (result ≡ Err DebugFault.Read) × NothingDone (R.remaining reader.old) (R.remaining reader.new)
        session.old.state (W.contents writer.old) session.new.state (W.contents writer.new) }
{
    let core_size = session.battle().params().core_size();
    let mut line = LineBuffer::new();
    let mut chunk = [0u8; CHUNK];
    'reads: for _ in 0..reads {
        let count = match reader.read(&mut chunk) {
            Ok(count) => count,
            Err(_) => return Err(DebugFault::Read),
        };
        if count == 0 {
            return match take_last_line(&mut line, core_size, writer, session) {
                Ok(()) => Ok(()),
                Err(WriteFault) => Err(DebugFault::Write),
            };
        }
        match take_bytes(&chunk[..count], &mut line, core_size, writer, session) {
            Ok(Flow::More) => {}
            Ok(Flow::Quit) => return Ok(()),
            Err(WriteFault) => return Err(DebugFault::Write),
        }
    }
    Err(DebugFault::Read)
}

/// Runs the debugger with at most 4,294,967,296 reads of at most 4,096 bytes each.
pub fn debug<R: Read, W: Write, T: Tape>(
    reader: &mut R,
    writer: &mut W,
    session: &mut Session<T>,
) -> Result<(), DebugFault>
    ensures ok { OnOk result (Completes (core_size_of session.old.state) (R.remaining reader.old) (R.remaining reader.new)
        session.old.state (W.contents writer.old) session.new.state (W.contents writer.new)) }
    ensures read { result ≡ Err DebugFault.Read → ReadFails (core_size_of session.old.state) (R.remaining reader.old) (R.remaining reader.new)
        session.old.state (W.contents writer.old) session.new.state (W.contents writer.new) }
    ensures write { result ≡ Err DebugFault.Write → WriteFails (core_size_of session.old.state) (R.remaining reader.old) (R.remaining reader.new)
        session.old.state (W.contents writer.old) session.new.state (W.contents writer.new) }
    ensures few { TakesAtMost (4096 * 4294967296) (R.remaining reader.old) (R.remaining reader.new) }
{
    debug_within(reader, writer, session, MAX_READS)
}
