//! Operands: each mode, the limits, and the core in which the B-operand is evaluated.
use super::{Case, check_all};
use crate::tests::{OF_EIGHT, Sizes};
use std::test::Fail;

/// A core of 8 cells in which `$3` reads cell 7 and writes cell 3, from cell 0.
const READS_BACK: Sizes = (8, 8, 4, 8);

const OPERANDS: &[Case] = &[
    // A predecrement and a postincrement change the same cell, which is then written.
    Case {
        sizes: OF_EIGHT,
        before: &[(0, "MOV.AB {1, }1"), (1, "DAT.F $1, $5")],
        after: &[(1, "DAT.F $1, $0")],
        queue: &[1],
        changes: 3,
    },
    Case {
        sizes: OF_EIGHT,
        before: &[(0, "MOV.I <1, >1"), (1, "DAT.F $0, $3")],
        after: &[(1, "DAT.F $0, $3")],
        queue: &[1],
        changes: 3,
    },
    // An immediate B-operand copies the instruction after the A-operand's increment.
    Case {
        sizes: (16, 8, 16, 16),
        before: &[(0, "ADD.F }0, #3")],
        after: &[(0, "ADD.F }1, #6")],
        queue: &[1],
        changes: 2,
    },
    // A core of one cell.
    Case {
        sizes: (1, 1, 1, 1),
        before: &[(0, "ADD.F }0, {0")],
        after: &[(0, "ADD.F }0, {0")],
        queue: &[0],
        changes: 3,
    },
];

#[test]
fn operands(rt: HostRuntime) -> Result<(), Fail> {
    check_all(&rt, rt.alloc(), OPERANDS)
}

const LIMITS: &[Case] = &[
    // The predecrement is at the write pointer.
    Case {
        sizes: (8, 8, 4, 8),
        before: &[(0, "MOV.A {3, $1"), (3, "DAT.F $2, $0")],
        after: &[
            (3, "DAT.F $1, $0"),
            (1, "DAT.F $0, $0"),
            (7, "DAT.F $0, $0"),
        ],
        queue: &[1],
        changes: 2,
    },
    // Reads and writes are folded by their own limits.
    Case {
        sizes: (8, 8, 4, 8),
        before: &[(0, "MOV.I $3, $3"), (7, "NOP.F $0, $-3")],
        after: &[(3, "NOP.F $0, $-3")],
        queue: &[1],
        changes: 1,
    },
    // The postincrement is at the write pointer.
    Case {
        sizes: READS_BACK,
        before: &[(0, "NOP.F }3, $0")],
        after: &[(3, "DAT.F $1, $0"), (7, "DAT.F $0, $0")],
        queue: &[1],
        changes: 1,
    },
    // The second pointer of an indirect operand is folded, too, both for reading and for writing.
    Case {
        sizes: READS_BACK,
        before: &[
            (0, "MOV.I *1, $2"),
            (1, "DAT.F $2, $0"),
            (7, "NOP.F $-3, $-3"),
        ],
        after: &[(2, "NOP.F $-3, $-3")],
        queue: &[1],
        changes: 1,
    },
    Case {
        sizes: (8, 8, 8, 4),
        before: &[(0, "MOV.I $0, *1"), (1, "DAT.F $2, $0")],
        after: &[(7, "MOV.I $0, *1")],
        queue: &[1],
        changes: 1,
    },
    // The sum itself is folded, not its remainder modulo the core size.
    Case {
        sizes: (8, 8, 3, 8),
        before: &[
            (0, "MOV.I *1, $2"),
            (1, "DAT.F $-1, $0"),
            (7, "NOP.F $-3, $-3"),
        ],
        after: &[(2, "NOP.F $-3, $-3")],
        queue: &[1],
        changes: 1,
    },
    // The write pointer leads through its own cell.
    Case {
        sizes: READS_BACK,
        before: &[
            (0, "MOV.I $0, *3"),
            (3, "DAT.F $1, $0"),
            (7, "DAT.F $2, $0"),
        ],
        after: &[(4, "MOV.I $0, *3"), (1, "DAT.F $0, $0")],
        queue: &[1],
        changes: 1,
    },
    // A jump uses the read pointer.
    Case {
        sizes: READS_BACK,
        before: &[(0, "JMP.B $3, $0")],
        after: &[],
        queue: &[7],
        changes: 0,
    },
    // Arithmetic uses the cell that is read. DJN tests the cell that is read, but decrements the cell that is written.
    Case {
        sizes: READS_BACK,
        before: &[(0, "ADD.AB #1, $3"), (7, "DAT.F $0, $-3")],
        after: &[(3, "DAT.F $0, $-2")],
        queue: &[1],
        changes: 1,
    },
    Case {
        sizes: READS_BACK,
        before: &[(0, "DIV.AB #2, $3"), (7, "DAT.F $0, $-2")],
        after: &[(3, "DAT.F $0, $3")],
        queue: &[1],
        changes: 1,
    },
    Case {
        sizes: READS_BACK,
        before: &[
            (0, "DJN.B $2, $3"),
            (3, "DAT.F $0, $-3"),
            (7, "DAT.F $0, $1"),
        ],
        after: &[(3, "DAT.F $0, $4"), (7, "DAT.F $0, $1")],
        queue: &[1],
        changes: 1,
    },
];

#[test]
fn limits(rt: HostRuntime) -> Result<(), Fail> {
    check_all(&rt, rt.alloc(), LIMITS)
}

const INDIRECT_OPERANDS: &[Case] = &[
    // The A-field of cell 1 leads to cell 3.
    Case {
        sizes: OF_EIGHT,
        before: &[
            (0, "MOV.I *1, $2"),
            (1, "DAT.F $2, $0"),
            (3, "NOP.F $-2, $-2"),
        ],
        after: &[(2, "NOP.F $-2, $-2")],
        queue: &[1],
        changes: 1,
    },
    // The B-field of cell 1 leads to cell 4.
    Case {
        sizes: OF_EIGHT,
        before: &[(0, "MOV.A #-3, @1"), (1, "DAT.F $0, $3")],
        after: &[(4, "DAT.F $-3, $0")],
        queue: &[1],
        changes: 1,
    },
    // The jump uses the field as it was before it is incremented.
    Case {
        sizes: OF_EIGHT,
        before: &[(0, "JMP.B }1, $0"), (1, "DAT.F $4, $0")],
        after: &[(1, "DAT.F $-3, $0")],
        queue: &[5],
        changes: 1,
    },
    // The predecrement changes the executing cell, which is then written.
    Case {
        sizes: OF_EIGHT,
        before: &[(0, "ADD.AB #1, {0")],
        after: &[(0, "ADD.AB #0, {1")],
        queue: &[1],
        changes: 2,
    },
    // A decremented field is decremented again.
    Case {
        sizes: OF_EIGHT,
        before: &[(0, "DJN.B $0, <1"), (1, "DAT.F $0, $1")],
        after: &[(1, "DAT.F $0, $-1")],
        queue: &[0],
        changes: 2,
    },
    Case {
        sizes: OF_EIGHT,
        before: &[(0, "NOP.F $0, $0")],
        after: &[],
        queue: &[1],
        changes: 0,
    },
    // The instruction is copied before its operands are evaluated.
    Case {
        sizes: OF_EIGHT,
        before: &[(0, "MOV.I >0, $1"), (1, "NOP.F $-3, $-3")],
        after: &[
            (0, "MOV.I >0, $2"),
            (1, "NOP.F $-3, $-3"),
            (2, "DAT.F $0, $0"),
        ],
        queue: &[1],
        changes: 2,
    },
    // Operands that are not used are evaluated.
    Case {
        sizes: OF_EIGHT,
        before: &[(0, "DAT.F >1, <2")],
        after: &[(1, "DAT.F $0, $1"), (2, "DAT.F $0, $-1")],
        queue: &[],
        changes: 2,
    },
    Case {
        sizes: OF_EIGHT,
        before: &[(0, "NOP.F }1, {2")],
        after: &[(1, "DAT.F $1, $0"), (2, "DAT.F $-1, $0")],
        queue: &[1],
        changes: 2,
    },
    Case {
        sizes: OF_EIGHT,
        before: &[(0, "JMP.B $3, <1")],
        after: &[(1, "DAT.F $0, $-1")],
        queue: &[3],
        changes: 1,
    },
    Case {
        sizes: OF_EIGHT,
        before: &[(0, "SPL.B $3, >1")],
        after: &[(1, "DAT.F $0, $1")],
        queue: &[1, 3],
        changes: 1,
    },
];

#[test]
fn indirect_operands(rt: HostRuntime) -> Result<(), Fail> {
    check_all(&rt, rt.alloc(), INDIRECT_OPERANDS)
}
