//! Turns: operands, limits, opcodes with their modifiers, processes, and which warrior has the next turn.

use super::{OF_EIGHT, Sizes, check_cells, check_queue, lone_battle, turn, turn_and_back};
use mars_core::Atom;
use std::alloc::Global;
use std::process::Abort;
use std::test::Fail;

mod operands;
mod queues;

/// A turn of a single warrior: the cells of the core before and after it, the queue after it, and the number of
/// changes.
struct Case {
    sizes: Sizes,
    before: &'static [(u64, &'static str)],
    after: &'static [(u32, &'static str)],
    queue: &'static [u32],
    changes: usize,
}

/// Checks the record of a turn. The only process was taken, so the queue after the turn is what was queued.
fn check_record(rt: &impl Abort, atom: &Atom, case: &Case) {
    assert!(rt; atom.queued.as_slice() == case.queue);
    assert_eq!(rt; atom.cells.len(), case.changes);
    assert_eq!(rt; atom.died, case.queue.is_empty());
}

/// Checks a turn against its case, and checks that its record leads back and forth again.
fn check(rt: &impl Abort, alloc: Global, case: &Case) -> Result<(), Fail> {
    let mut battle = lone_battle(alloc, case.sizes, case.before)?;
    let atom = turn_and_back(rt, alloc, &mut battle)?;
    check_record(rt, &atom, case);
    assert_eq!(rt; battle.turns(), 1);
    check_queue(rt, &battle, 0, case.queue);
    check_cells(rt, &battle, case.after)
}

fn check_all(rt: &impl Abort, alloc: Global, cases: &[Case]) -> Result<(), Fail> {
    for case in cases {
        check(rt, alloc, case)?;
    }
    Ok(())
}

const ARITHMETIC: &[Case] = &[
    // One zero divisor: the other field is written, and the process dies.
    Case {
        sizes: OF_EIGHT,
        before: &[
            (0, "DIV.F $1, $2"),
            (1, "DAT.F $0, $2"),
            (2, "DAT.F $-2, $-2"),
        ],
        after: &[(2, "DAT.F $-2, $3")],
        queue: &[],
        changes: 1,
    },
    Case {
        sizes: OF_EIGHT,
        before: &[(0, "DJN.B $0, $1")],
        after: &[(1, "DAT.F $0, $-1")],
        queue: &[0],
        changes: 1,
    },
    Case {
        sizes: OF_EIGHT,
        before: &[(0, "DJN.F $0, $1"), (1, "DAT.F $1, $1")],
        after: &[(1, "DAT.F $0, $0")],
        queue: &[1],
        changes: 1,
    },
    // One field is not zero, so DJN jumps.
    Case {
        sizes: OF_EIGHT,
        before: &[(0, "DJN.F $3, $1"), (1, "DAT.F $1, $2")],
        after: &[(1, "DAT.F $0, $1")],
        queue: &[3],
        changes: 1,
    },
    Case {
        sizes: OF_EIGHT,
        before: &[(0, "SUB.AB #2, $1"), (1, "DAT.F $0, $-3")],
        after: &[(1, "DAT.F $0, $3")],
        queue: &[1],
        changes: 1,
    },
];

#[test]
fn arithmetic(rt: HostRuntime) -> Result<(), Fail> {
    check_all(&rt, rt.alloc(), ARITHMETIC)
}

const FIELDS_BY_THEIR_MODIFIER: &[Case] = &[
    Case {
        sizes: OF_EIGHT,
        before: &[
            (0, "SUB.BA $1, $2"),
            (1, "DAT.F $3, $-3"),
            (2, "DAT.F $1, $-1"),
        ],
        after: &[(2, "DAT.F $4, $-1")],
        queue: &[1],
        changes: 1,
    },
    Case {
        sizes: OF_EIGHT,
        before: &[
            (0, "MUL.X $1, $2"),
            (1, "DAT.F $3, $-3"),
            (2, "DAT.F $2, $-1"),
        ],
        after: &[(2, "DAT.F $2, $-3")],
        queue: &[1],
        changes: 1,
    },
    Case {
        sizes: OF_EIGHT,
        before: &[
            (0, "MOD.I $1, $2"),
            (1, "DAT.F $3, $-3"),
            (2, "DAT.F $-1, $4"),
        ],
        after: &[(2, "DAT.F $1, $4")],
        queue: &[1],
        changes: 1,
    },
    // The only divisor is zero: nothing is written, and the process dies.
    Case {
        sizes: OF_EIGHT,
        before: &[(0, "MOD.A $1, $2"), (1, "DAT.F $0, $-3")],
        after: &[(2, "DAT.F $0, $0")],
        queue: &[],
        changes: 0,
    },
    // MOV.I copies the whole cell, then MOV.F only both numbers.
    Case {
        sizes: OF_EIGHT,
        before: &[(0, "MOV.I $1, $2"), (1, "ADD.AB #1, <2")],
        after: &[(2, "ADD.AB #1, <2")],
        queue: &[1],
        changes: 1,
    },
    Case {
        sizes: OF_EIGHT,
        before: &[(0, "MOV.F $1, $2"), (1, "ADD.AB #1, <2")],
        after: &[(2, "DAT.F $1, $2")],
        queue: &[1],
        changes: 1,
    },
];

#[test]
fn fields_by_their_modifier(rt: HostRuntime) -> Result<(), Fail> {
    check_all(&rt, rt.alloc(), FIELDS_BY_THEIR_MODIFIER)
}

const JUMPS_AND_SKIPS: &[Case] = &[
    Case {
        sizes: OF_EIGHT,
        before: &[(0, "JMN.F $3, $1"), (1, "DAT.F $0, $1")],
        after: &[],
        queue: &[3],
        changes: 0,
    },
    Case {
        sizes: OF_EIGHT,
        before: &[(0, "JMZ.F $3, $1"), (1, "DAT.F $0, $1")],
        after: &[],
        queue: &[1],
        changes: 0,
    },
    Case {
        sizes: OF_EIGHT,
        before: &[
            (0, "SEQ.X $1, $2"),
            (1, "DAT.F $1, $2"),
            (2, "NOP.B $2, $1"),
        ],
        after: &[],
        queue: &[2],
        changes: 0,
    },
    Case {
        sizes: OF_EIGHT,
        before: &[
            (0, "SEQ.I $1, $2"),
            (1, "DAT.F $1, $2"),
            (2, "NOP.B $2, $1"),
        ],
        after: &[],
        queue: &[1],
        changes: 0,
    },
    Case {
        sizes: OF_EIGHT,
        before: &[(0, "SNE.I $1, $2")],
        after: &[],
        queue: &[1],
        changes: 0,
    },
    Case {
        sizes: OF_EIGHT,
        before: &[(0, "SNE.AB $1, $2"), (2, "DAT.F $0, $1")],
        after: &[],
        queue: &[2],
        changes: 0,
    },
    Case {
        sizes: OF_EIGHT,
        before: &[
            (0, "SLT.A $1, $2"),
            (1, "DAT.F $3, $0"),
            (2, "DAT.F $-3, $0"),
        ],
        after: &[],
        queue: &[2],
        changes: 0,
    },
    Case {
        sizes: OF_EIGHT,
        before: &[
            (0, "SLT.F $1, $2"),
            (1, "DAT.F $3, $0"),
            (2, "DAT.F $-3, $0"),
        ],
        after: &[],
        queue: &[1],
        changes: 0,
    },
    // CMP is another name of SEQ, so the cells are equal.
    Case {
        sizes: OF_EIGHT,
        before: &[
            (0, "SEQ.I $1, $2"),
            (1, "CMP.I $1, $2"),
            (2, "SEQ.I $1, $2"),
        ],
        after: &[],
        queue: &[2],
        changes: 0,
    },
    Case {
        sizes: OF_EIGHT,
        before: &[
            (0, "SEQ.F $1, $2"),
            (1, "DAT.F $1, $2"),
            (2, "DAT.F $1, $3"),
        ],
        after: &[],
        queue: &[1],
        changes: 0,
    },
    // Each of the six parts is compared.
    Case {
        sizes: OF_EIGHT,
        before: &[(0, "SEQ.I $1, $2"), (2, "NOP.F $0, $0")],
        after: &[],
        queue: &[1],
        changes: 0,
    },
    Case {
        sizes: OF_EIGHT,
        before: &[(0, "SEQ.I $1, $2"), (2, "DAT.A $0, $0")],
        after: &[],
        queue: &[1],
        changes: 0,
    },
    Case {
        sizes: OF_EIGHT,
        before: &[(0, "SEQ.I $1, $2"), (2, "DAT.F #0, $0")],
        after: &[],
        queue: &[1],
        changes: 0,
    },
    Case {
        sizes: OF_EIGHT,
        before: &[(0, "SEQ.I $1, $2"), (2, "DAT.F $0, #0")],
        after: &[],
        queue: &[1],
        changes: 0,
    },
    Case {
        sizes: OF_EIGHT,
        before: &[(0, "SEQ.I $1, $2"), (2, "DAT.F $1, $0")],
        after: &[],
        queue: &[1],
        changes: 0,
    },
    Case {
        sizes: OF_EIGHT,
        before: &[(0, "SEQ.I $1, $2"), (2, "DAT.F $0, $1")],
        after: &[],
        queue: &[1],
        changes: 0,
    },
    Case {
        sizes: OF_EIGHT,
        before: &[(0, "SNE.I $1, $2"), (2, "NOP.F $0, $0")],
        after: &[],
        queue: &[2],
        changes: 0,
    },
];

#[test]
fn jumps_and_skips(rt: HostRuntime) -> Result<(), Fail> {
    check_all(&rt, rt.alloc(), JUMPS_AND_SKIPS)
}
