//! The parts of an instruction, and the cell that holds an instruction.

/// An opcode of the ICWS'94 draft, or SNE or NOP of pMARS. SEQ is pMARS's name of the draft's CMP.
#[derive(Clone, Copy, Debug, PartialEq, Eq)]
pub enum Op {
    Dat,
    Mov,
    Add,
    Sub,
    Mul,
    Div,
    Mod,
    Jmp,
    Jmz,
    Jmn,
    Djn,
    Seq,
    Sne,
    Slt,
    Spl,
    Nop,
}

impl Op {
    ghost use Rattle.std.specs.Prelude.{◌≡◌};
    ghost use Rattle.mars_cell.specs.Cells.{op_index};

    /// Returns the index of the opcode among all opcodes, from 0.
    #[inline(always)]
    pub const fn index(self) -> u8
        ensures { result ≡ op_index self }
    {
        self as u8
    }
}

/// A modifier: which fields of its two cells an instruction uses, as in the ICWS'94 draft.
#[derive(Clone, Copy, Debug, PartialEq, Eq)]
pub enum Modifier {
    A,
    B,
    Ab,
    Ba,
    F,
    X,
    I,
}

impl Modifier {
    ghost use Rattle.std.specs.Prelude.{◌≡◌};
    ghost use Rattle.mars_cell.specs.Cells.{modifier_index};

    /// Returns the index of the modifier among all modifiers, from 0.
    #[inline(always)]
    pub const fn index(self) -> u8
        ensures { result ≡ modifier_index self }
    {
        self as u8
    }
}

/// An addressing mode: `#`, `$`, `*`, `@`, `{`, `<`, `}` and `>`, in this order.
#[derive(Clone, Copy, Debug, PartialEq, Eq)]
pub enum Mode {
    Immediate,
    Direct,
    AIndirect,
    BIndirect,
    APredecrement,
    BPredecrement,
    APostincrement,
    BPostincrement,
}

impl Mode {
    ghost use Rattle.std.specs.Prelude.{◌≡◌};
    ghost use Rattle.mars_cell.specs.Cells.{mode_index};

    /// Returns the index of the mode among all modes, from 0.
    #[inline(always)]
    pub const fn index(self) -> u8
        ensures { result ≡ mode_index self }
    {
        self as u8
    }
}

/// One of the two numbers of a cell.
#[derive(Clone, Copy, Debug, PartialEq, Eq)]
pub enum Field {
    ANumber,
    BNumber,
}

/// A cell of the core: one instruction, whose numbers are addresses relative to the cell.
///
/// Both numbers are below the size of the core. The opcode, the modifier and the modes are adjacent bytes, so that a
/// cell has 12 bytes and is copied as whole machine words.
#[derive(Clone, Copy, Debug, PartialEq, Eq)]
pub struct Cell {
    pub op: Op,
    pub modifier: Modifier,
    pub a_mode: Mode,
    pub b_mode: Mode,
    pub a: u32,
    pub b: u32,
}

impl Cell {
    ghost use Rattle.std.specs.Prelude.{◌≡◌};
    ghost use Rattle.mars_cell.specs.Cells.{empty_cell, field_of, with_field};

    /// Returns `DAT.F $0, $0`, the cell that an empty core is filled with.
    pub const fn empty() -> Cell
        ensures { result ≡ empty_cell }
    {
        Cell {
            op: Op::Dat,
            modifier: Modifier::F,
            a_mode: Mode::Direct,
            a: 0,
            b_mode: Mode::Direct,
            b: 0,
        }
    }

    /// Returns the number in `field`.
    pub const fn field(&self, field: Field) -> u32
        ensures { result ≡ field_of field self.now }
    {
        match field {
            Field::ANumber => self.a,
            Field::BNumber => self.b,
        }
    }

    /// Returns the cell with `number` in `field`.
    pub const fn with_field(self, field: Field, number: u32) -> Cell
        ensures { result ≡ with_field field number self }
    {
        match field {
            Field::ANumber => Cell { a: number, ..self },
            Field::BNumber => Cell { b: number, ..self },
        }
    }
}

impl Default for Cell {
    ghost use Rattle.std.specs.Prelude.{◌≡◌};
    ghost use Rattle.mars_cell.specs.Cells.{empty_cell};

    fn default() -> Self
        ensures { result ≡ empty_cell }
    {
        Cell::empty()
    }
}
