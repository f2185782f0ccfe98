//! The lines that the debugger replies.
ghost use Rattle.std.specs.Prelude.{◌≡◌, ◌≤◌, length};
ghost use Rattle.mars_app.specs.Debugger.Replies.{standing_text, refusal_text, reply_text};

use mars_cell::{LINE, Line, numbered, push_number};
use mars_session::{Refusal, Reply, Standing};

/// Returns a fixed text as a line.
pub fn fixed(text: &str) -> Line
    requires { length text.now ≤ LINE }
    ensures { result.bytes ≡ text.now }
{
    let mut line = Line::new();
    line.push_str(text);
    line
}

/// Returns the line of a standing.
pub fn standing_line(standing: Standing) -> Line
    ensures { result.bytes ≡ standing_text standing }
{
    let mut line = numbered("turn ", standing.turns, " cycle ");
    push_number(&mut line, standing.cycle);
    line.push_str(" next ");
    push_number(&mut line, standing.next);
    line.push_str(" alive ");
    push_number(&mut line, standing.alive);
    line.push_str(" at ");
    push_number(&mut line, standing.position);
    line.push_str("/");
    push_number(&mut line, standing.last);
    line.push_str("\n");
    line
}

/// Returns the line of a refusal.
#[tactic(auto, unfolding(crate::specs::Debugger::Replies::refusal_text))]
pub fn refusal_line(refusal: Refusal) -> Line
    ensures { result.bytes ≡ refusal_text refusal }
{
    match refusal {
        Refusal::Count => fixed("refused 1 Count\n"),
        Refusal::Address => fixed("refused 2 Address\n"),
        Refusal::FieldOutside => fixed("refused 3 FieldOutside\n"),
        Refusal::NoSuchWarrior => fixed("refused 4 NoSuchWarrior\n"),
        Refusal::NoSuchProcess => fixed("refused 5 NoSuchProcess\n"),
        Refusal::WarriorDead => fixed("refused 6 WarriorDead\n"),
        Refusal::QueueFull => fixed("refused 7 QueueFull\n"),
        Refusal::Over => fixed("refused 8 Over\n"),
        Refusal::CyclePassed(now) => numbered("refused 9 CyclePassed ", now, "\n"),
        Refusal::NothingToUndo => fixed("refused 10 NothingToUndo\n"),
        Refusal::NothingToRedo => fixed("refused 11 NothingToRedo\n"),
        Refusal::NotInHistory(first, last) => {
            let mut line = numbered("refused 12 NotInHistory ", first, " ");
            push_number(&mut line, last);
            line.push_str("\n");
            line
        }
        Refusal::JournalFull(room) => numbered("refused 13 JournalFull ", room, "\n"),
        Refusal::OutOfMemory => fixed("refused 14 OutOfMemory\n"),
        Refusal::Forgotten => fixed("refused 15 Forgotten\n"),
    }
}

/// Returns the line of a call's reply.
pub fn reply_line(reply: Reply) -> Line
    ensures { result.bytes ≡ reply_text reply }
{
    match reply {
        Ok(standing) => standing_line(standing),
        Err(refusal) => refusal_line(refusal),
    }
}
