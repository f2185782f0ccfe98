//! Turns without records, for runs and for marking the cells that turns execute, write and touch.
ghost use Rattle.std.specs.Prelude.{◌≡◌, ◌==◌, false, length};
ghost use Rattle.mars_core.specs.Code.Operands.{AreOperands, IsUnlimited};
ghost use Rattle.mars_core.specs.Code.Turns.{addresses_to};
ghost use Rattle.mars_core.specs.Marks.{marks_after, marks_of};
ghost use Rattle.mars_core.specs.State.{cell_at, is_over_of, queue_of};
ghost use Rattle.mars_core.specs.Turn.{accepted, front_of, turn_of, turn_record};
ghost use Rattle.mars_core.specs.Validity.{IsValid};

use crate::battle::Battle;
use crate::machine::clock::Clock;
use crate::machine::execution::{IN_MARKED_TURN, IN_TURN};
use crate::machine::marks::{Mark, mark_turn};
use crate::machine::turn::{MadeTurn, is_unlimited, make_turn};
use crate::queue::Continuation;
use arrayvec::ArrayVec;

impl Battle {
    /// Executes a turn like [`Battle::turn`], but without a record: marks the cells that the warrior executes, writes
    /// and touches, and returns whether two processes were queued.
    ///
    /// There must be a mark for each cell. The battle must not be over.
    #[inline(never)]
    pub fn turn_marking(&mut self, marks: &mut [Mark]) -> bool
        requires running { is_over_of self.old ≡ false }
        requires size { length marks.old ≡ self.old.params.core_size }
        ensures split { result ≡ (length (turn_record self.old).queued.items == 2) }
        ensures marks { marks_of marks.new ≡ marks_after self.old (marks_of marks.old) }
        ensures state { self.new ≡ turn_of self.old }
    {
        if is_unlimited(&self.params) {
            self.marked_turn::<false, IN_MARKED_TURN>(marks)
        } else {
            self.marked_turn::<true, IN_TURN>(marks)
        }
    }

    /// Executes a turn of a battle that is not over, sets its marks, and returns whether two processes were queued.
    #[inline(always)]
    fn marked_turn<const LIMITED: bool, const CALLER: u8>(&mut self, marks: &mut [Mark]) -> bool
        requires valid { IsValid self.old }
        requires unlimited { LIMITED ≡ false → IsUnlimited self.old.params }
        requires running { is_over_of self.old ≡ false }
        requires size { length marks.old ≡ self.old.params.core_size }
        ensures split { result ≡ (length (turn_record self.old).queued.items == 2) }
        ensures marks { marks_of marks.new ≡ marks_after self.old (marks_of marks.old) }
        ensures state { self.new ≡ turn_of self.old }
    {
        let made = self.made_turn::<LIMITED, CALLER>();
        let instruction = made.instruction.cell();
        mark_turn::<LIMITED>(&self.params, marks, made.taken, instruction, made.operands);
        splits(made.queued)
    }

    /// Executes a turn of a battle that is not over, without a record.
    #[inline(always)]
    pub(crate) fn made_turn<const LIMITED: bool, const CALLER: u8>(&mut self) -> MadeTurn
        requires unlimited { LIMITED ≡ false → IsUnlimited self.old.params }
        requires running { is_over_of self.old ≡ false }
        ensures state { self.new ≡ turn_of self.old }
        ensures taken { result.taken ≡ front_of (queue_of self.old.queues self.old.next) }
        ensures instruction { result.instruction ≡ cell_at self.old.core (front_of (queue_of self.old.queues self.old.next)) }
        ensures operands { AreOperands self.old.params self.old.core (front_of (queue_of self.old.queues self.old.next)) result.operands }
        ensures queued { addresses_to result.queued ≡ accepted self.old.params self.old.core (queue_of self.old.queues self.old.next) }
    {
        let clock = Clock {
            next: self.next,
            cycle: self.cycle,
        };
        let mut unread = ArrayVec::new();
        let made = make_turn::<LIMITED, false, CALLER>(
            &self.params,
            &mut self.core,
            &mut self.queues,
            &mut self.deaths,
            clock,
            self.turns,
            &mut unread,
        );
        self.turns += 1;
        self.next = made.clock.next;
        self.cycle = made.clock.cycle;
        made
    }
}

/// Returns whether a process continues at two addresses.
#[inline(always)]
fn splits(continuation: Continuation) -> bool
    ensures { result ≡ (length (addresses_to continuation) == 2) }
{
    matches!(continuation, Continuation::Splits(_, _))
}
