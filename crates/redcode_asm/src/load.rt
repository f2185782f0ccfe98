//! Assembles sources to load files.
ghost use Rattle.redcode_asm.specs.LoadFiles.{assembled_load};
ghost use Rattle.redcode_asm.specs.Outcomes.{IsResult};

use crate::assembler::assemble;
use crate::fault::AsmFault;
use mars_cell::{Params, write_load};
use std::alloc::Global;

/// Assembles a source, for a core with these parameters, and returns the load file of its warrior.
///
/// `mars_cell::read_load` reads the load file back as the same warrior.
///
/// # Errors
///
/// Returns the errors of `assemble`, which takes the same arguments.
pub fn assemble_load(
    alloc: Global,
    source: &[u8],
    params: &Params,
    rounds: u32,
    warriors: u32,
) -> Result<Vec<u8>, AsmFault>
    ensures { IsResult (λ text. text.items) result (assembled_load params.now rounds warriors source.now) }
{
    let warrior = assemble(alloc, source, params, rounds, warriors)?;
    Ok(write_load(alloc, &warrior, params.core_size())?)
}
