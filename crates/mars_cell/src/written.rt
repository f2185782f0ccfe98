//! Writes load files.
ghost use Rattle.std.specs.Prelude.{◌≡◌, ◌≤◌, ◌++◌, All, IfOk, OnOk, decimal, flat_map, map};
ghost use Rattle.mars_cell.specs.Cells.{FitsCore};
ghost use Rattle.mars_cell.specs.Limits.{max_core_size};
ghost use Rattle.mars_cell.specs.Text.{cell_text};
ghost use Rattle.mars_cell.specs.Written.{load_text, with_newline};

use crate::instruction::Cell;
use crate::warriors::Warrior;
use itoa::Buffer;
use std::alloc::{AllocError, Global};

// If one of the `push_` functions fails, the text keeps its bytes and may have a part of the new lines after them.

/// Appends a line of `word` and `rest` to `text`.
fn push_line(text: &mut Vec<u8>, word: &[u8], rest: &[u8]) -> Result<(), AllocError>
    ensures { OnOk result (text.new.items ≡ text.old.items ++ with_newline (word.now ++ rest.now)) }
{
    text.extend_from_slice(word)?;
    text.extend_from_slice(rest)?;
    text.push(b'\n')?;
    Ok(())
}

/// Appends a line of `word` and `number` in decimal to `text`.
fn push_number(text: &mut Vec<u8>, word: &[u8], number: u32) -> Result<(), AllocError>
    ensures { OnOk result (text.new.items ≡ text.old.items ++ with_newline (word.now ++ decimal number)) }
{
    let mut digits = Buffer::new();
    push_line(text, word, digits.format(number).as_bytes())
}

/// Appends the line of `cell` to `text`.
fn push_cell(text: &mut Vec<u8>, cell: Cell, core_size: u32) -> Result<(), AllocError>
    requires { FitsCore core_size cell }
    ensures { OnOk result (text.new.items ≡ text.old.items ++ with_newline (cell_text core_size cell)) }
{
    push_line(text, cell.text(core_size).as_str().as_bytes(), b"")
}

/// Appends the lines of `cells` to `text`.
fn push_cells(text: &mut Vec<u8>, cells: &[Cell], core_size: u32) -> Result<(), AllocError>
    requires { All (FitsCore core_size) cells.now }
    ensures { OnOk result (text.new.items ≡ text.old.items ++ flat_map with_newline (map (cell_text core_size) cells.now)) }
{
    for cell in cells {
        push_cell(text, *cell, core_size)?;
    }
    Ok(())
}

/// Returns the load file of a warrior for a core of `core_size` cells, in version 2.
///
/// The lines, each terminated by LF, are `;load 2 ` and the core size, `;name ` and the warrior's name, `;author ` and
/// the author's name, `ORG ` and the start, then the text of each cell.
///
/// # Errors
///
/// Returns an error only if an allocation fails.
pub fn write_load(alloc: Global, warrior: &Warrior, core_size: u32) -> Result<Vec<u8>, AllocError>
    requires size { core_size ≤ max_core_size }
    requires fits { All (FitsCore core_size) warrior.now.cells }
    ensures { IfOk result (λ text. text.items ≡ load_text core_size warrior.now) }
{
    let mut text = Vec::new(alloc);
    push_number(&mut text, b";load 2 ", core_size)?;
    push_line(&mut text, b";name ", warrior.name().as_bytes())?;
    push_line(&mut text, b";author ", warrior.author().as_bytes())?;
    push_number(&mut text, b"ORG ", warrior.start())?;
    push_cells(&mut text, warrior.cells(), core_size)?;
    Ok(text)
}
