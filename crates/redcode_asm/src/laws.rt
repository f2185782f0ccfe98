//! Laws of the definitions. The functions do nothing; their contracts are the laws.
ghost use Rattle.redcode_asm.specs.Laws.{AssembledLoadIsRead, PrependedInstructionsKeepCells, NamesAreFree, ScoresHaveValues};

/// `Formula::score` of a formula that `Formula::new` accepted returns a value, unless the error is `DivideByZero` or
/// `Range`.
pub fn scores_have_values()
    ensures { ScoresHaveValues }
{}

/// `mars_cell::read_load` reads a load file that `assemble_load` wrote, with the same parameters, as the same warrior.
pub fn assembled_load_is_read()
    ensures { AssembledLoadIsRead }
{}

/// Names are free: other names for the labels and EQU names of a program yield the same warrior, or the same error.
pub fn names_are_free()
    ensures { NamesAreFree }
{}

/// An instruction in front moves nothing: if it has no label, and no name of the program is CURLINE, the other cells are
/// unchanged.
///
/// An error in the new instruction comes first, and an error in another instruction is unchanged.
pub fn prepended_instructions_keep_cells()
    ensures { PrependedInstructionsKeepCells }
{}
