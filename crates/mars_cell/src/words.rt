//! The names of opcodes, modifiers and modes.
ghost use Rattle.std.specs.Prelude.{◌≡◌, ◌≤◌, length};
ghost use Rattle.std.specs.Str.{str_eq_ignore_ascii_case};
ghost use Rattle.mars_cell.specs.Words.{op_name, modifier_name, mode_name, op_of, modifier_of, mode_of};

use crate::instruction::{Mode, Modifier, Op};

impl Op {
    /// All opcodes.
    const ALL: [Op; 16] = [
        Op::Dat,
        Op::Mov,
        Op::Add,
        Op::Sub,
        Op::Mul,
        Op::Div,
        Op::Mod,
        Op::Jmp,
        Op::Jmz,
        Op::Jmn,
        Op::Djn,
        Op::Seq,
        Op::Sne,
        Op::Slt,
        Op::Spl,
        Op::Nop,
    ];

    /// Returns the opcode's name of three letters.
    pub(crate) fn name(self) -> &'static str
        ensures value { result.now ≡ op_name self }
        ensures short { length result.now ≤ 3 }
    {
        match self {
            Op::Dat => "DAT",
            Op::Mov => "MOV",
            Op::Add => "ADD",
            Op::Sub => "SUB",
            Op::Mul => "MUL",
            Op::Div => "DIV",
            Op::Mod => "MOD",
            Op::Jmp => "JMP",
            Op::Jmz => "JMZ",
            Op::Jmn => "JMN",
            Op::Djn => "DJN",
            Op::Seq => "SEQ",
            Op::Sne => "SNE",
            Op::Slt => "SLT",
            Op::Spl => "SPL",
            Op::Nop => "NOP",
        }
    }
}

impl Modifier {
    /// All modifiers.
    const ALL: [Modifier; 7] = [
        Modifier::A,
        Modifier::B,
        Modifier::Ab,
        Modifier::Ba,
        Modifier::F,
        Modifier::X,
        Modifier::I,
    ];

    /// Returns the modifier's name of one or two letters.
    pub(crate) fn name(self) -> &'static str
        ensures value { result.now ≡ modifier_name self }
        ensures short { length result.now ≤ 2 }
    {
        match self {
            Modifier::A => "A",
            Modifier::B => "B",
            Modifier::Ab => "AB",
            Modifier::Ba => "BA",
            Modifier::F => "F",
            Modifier::X => "X",
            Modifier::I => "I",
        }
    }
}

impl Mode {
    /// All modes.
    const ALL: [Mode; 8] = [
        Mode::Immediate,
        Mode::Direct,
        Mode::AIndirect,
        Mode::BIndirect,
        Mode::APredecrement,
        Mode::BPredecrement,
        Mode::APostincrement,
        Mode::BPostincrement,
    ];

    /// Returns the mode's character, which comes before a number.
    pub(crate) fn name(self) -> &'static str
        ensures value { result.now ≡ mode_name self }
        ensures short { length result.now ≤ 1 }
    {
        match self {
            Mode::Immediate => "#",
            Mode::Direct => "$",
            Mode::AIndirect => "*",
            Mode::BIndirect => "@",
            Mode::APredecrement => "{",
            Mode::BPredecrement => "<",
            Mode::APostincrement => "}",
            Mode::BPostincrement => ">",
        }
    }
}

/// Returns whether two words are equal apart from the case of their letters.
pub fn is_word(part: &[u8], word: &[u8]) -> bool
    ensures { result ≡ str_eq_ignore_ascii_case part.now word.now }
{
    part.eq_ignore_ascii_case(word)
}

/// Returns the opcode that `word` names, in upper or lower case; `CMP` is another name of `SEQ`.
#[tactic(auto, unfolding(crate::specs::Words::op_of))]
pub fn read_op(word: &[u8]) -> Option<Op>
    ensures { result ≡ op_of word.now }
{
    let word = if is_word(word, b"CMP") { b"SEQ" } else { word };
    Op::ALL
        .iter()
        .copied()
        .find(|op| is_word(word, op.name().as_bytes()))
}

/// Returns the modifier that `word` names, in upper or lower case.
#[tactic(auto, unfolding(crate::specs::Words::modifier_of))]
pub fn read_modifier(word: &[u8]) -> Option<Modifier>
    ensures { result ≡ modifier_of word.now }
{
    Modifier::ALL
        .iter()
        .copied()
        .find(|modifier| is_word(word, modifier.name().as_bytes()))
}

/// Returns the mode whose character is `word`.
#[tactic(auto, unfolding(crate::specs::Words::mode_of))]
pub fn read_mode(word: &[u8]) -> Option<Mode>
    ensures { result ≡ mode_of word.now }
{
    Mode::ALL
        .iter()
        .copied()
        .find(|mode| mode.name().as_bytes() == word)
}
