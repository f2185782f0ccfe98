//! The text of a cell.
ghost use Rattle.std.specs.Prelude.{◌≡◌, ◌+◌, ◌<◌, ◌≤◌, ◌++◌};
ghost use Rattle.arrayvec.specs.ArrayString.{array_string_len};
ghost use Rattle.mars_cell.specs.Text.{operand_text};

use crate::instruction::{Cell, Mode};
use arrayvec::ArrayString;
use itoa::Buffer;

impl Cell {
    ghost use Rattle.mars_cell.specs.Text.{cell_text};

    /// Returns the text of the cell in a core of `core_size` cells, such as `MOV.I $0, $-1`.
    ///
    /// A number up to half the core size (rounded down) is printed as it is, and a greater one as the negative number
    /// that refers to the same cell. Each cell of a load file has a line with its text.
    pub fn text(&self, core_size: u32) -> ArrayString<48>
        requires a { self.now.a < core_size }
        requires b { self.now.b < core_size }
        ensures { result.bytes ≡ cell_text core_size self.now }
    {
        let mut text = ArrayString::new();
        text.push_str(self.op.name());
        text.push_str(".");
        text.push_str(self.modifier.name());
        text.push_str(" ");
        push_operand(&mut text, self.a_mode, self.a, core_size);
        text.push_str(", ");
        push_operand(&mut text, self.b_mode, self.b, core_size);
        text
    }
}

fn push_operand(text: &mut ArrayString<48>, mode: Mode, number: u32, core_size: u32)
    requires below { number < core_size }
    requires room { array_string_len text.old + 12 ≤ 48 }
    ensures bytes { text.new.bytes ≡ text.old.bytes ++ operand_text core_size mode number }
    ensures len { array_string_len text.new ≤ array_string_len text.old + 12 }
{
    let mut digits = Buffer::new();
    text.push_str(mode.name());
    if number <= core_size / 2 {
        text.push_str(digits.format(number));
    } else {
        text.push_str("-");
        text.push_str(digits.format(core_size - number));
    }
}
