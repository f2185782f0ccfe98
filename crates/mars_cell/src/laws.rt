//! Laws of the definitions: what is written is read back. The functions do nothing; their contracts are the laws.
ghost use Rattle.mars_cell.specs.Laws.{LoadFileIsCarried, LoadFileIsRead, TextIsRead, ValueIsResidue};

/// A number that was written for the core that reads it is taken modulo the core size. `read_cell` reads all numbers
/// like this, and `read_load` the numbers in a file of version 1.
pub fn value_is_residue()
    ensures { ValueIsResidue }
{}

/// `read_cell` returns the cell whose text `Cell::text` returned for the same core size.
pub fn text_is_read()
    ensures { TextIsRead }
{}

/// `read_load` returns the warrior that `write_load` wrote for a core of the same size, if it isn't longer than the
/// maximum length.
pub fn load_file_is_read()
    ensures { LoadFileIsRead }
{}

/// For a core of another size, `read_load` returns the warrior that `write_load` wrote with each number replaced by its
/// value modulo the new size; name, author and start are the same.
pub fn load_file_is_carried()
    ensures { LoadFileIsCarried }
{}
