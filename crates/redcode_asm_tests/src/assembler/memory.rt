//! Calls whose allocations fail. Each test tries the call again if memory runs out, so it passes whichever allocation
//! fails. dev/checks/memory lets each allocation fail in turn.
use mars_cell::{Params, Warrior};
use redcode_asm::{AsmFault, AsmProblem, Formula, FormulaFault, assemble, assemble_load};
use std::alloc::Global;
use std::test::Fail;

/// Labels, EQU names, a loop, joins, a name, an assert and a start.
const SOURCE: &[u8] =
    b";redcode\n;name Four\n;assert MAXLENGTH >= 4\nstep EQU 4\ni FOR 2\nx&i ADD.AB #step, i+last\nROF\nlast JMP x01\nDAT x02, -1\nEND last\n";

/// Returns whether a warrior has the name, the start and the numbers that the source gives.
fn is_four(warrior: &Warrior) -> bool {
    let mut numbers = [(0, 0); 4];
    for (pair, cell) in numbers.iter_mut().zip(warrior.cells()) {
        *pair = (cell.a, cell.b);
    }
    (warrior.name(), warrior.start()) == ("Four", 2)
        && numbers == [(4, 3), (4, 3), (7998, 0), (7998, 7999)]
}

#[test]
fn a_source_is_assembled(rt: HostRuntime) -> Result<(), Fail> {
    let params = Params::new(8000, 8, 10, 8000, 8000, 4, 4)
        .ok()
        .ok_or("parameters")?;
    let warrior = match assemble(rt.alloc(), SOURCE, &params, 1, 1) {
        Err(fault) => {
            let of_memory = AsmFault {
                line: 0,
                problem: AsmProblem::OutOfMemory,
                token: None,
            };
            assert_eq!(rt; fault, of_memory);
            assemble(rt.alloc(), SOURCE, &params, 1, 1)?
        }
        Ok(warrior) => warrior,
    };
    let is_it = is_four(&warrior);
    drop(warrior);
    assert!(rt; is_it);
    Ok(())
}

#[test]
fn a_load_file_is_made(rt: HostRuntime) -> Result<(), Fail> {
    let params = Params::new(8000, 8, 10, 8000, 8000, 4, 4)
        .ok()
        .ok_or("parameters")?;
    let file = match assemble_load(rt.alloc(), SOURCE, &params, 1, 1) {
        Err(fault) => {
            let of_memory = AsmFault {
                line: 0,
                problem: AsmProblem::OutOfMemory,
                token: None,
            };
            assert_eq!(rt; fault, of_memory);
            assemble_load(rt.alloc(), SOURCE, &params, 1, 1)?
        }
        Ok(file) => file,
    };
    assert!(rt;
        file.as_slice()
            == b";load 2 8000\n;name Four\n;author Anonymous\nORG 2\nADD.AB #4, $3\nADD.AB #4, $3\nJMP.B $-2, $0\nDAT.F $-2, $-1\n".as_slice()
    );
    Ok(())
}

/// Reads the default formula, and tries again if memory runs out.
fn formula(alloc: Global) -> Result<Formula, FormulaFault> {
    let text = b"(W*W-1)/S";
    match Formula::new(alloc, text) {
        Err(FormulaFault::OutOfMemory) => Formula::new(alloc, text),
        first => first,
    }
}

#[test]
fn a_formula_is_read(rt: HostRuntime) -> Result<(), Fail> {
    let formula = formula(rt.alloc())?;
    let score = formula.score(3, 2);
    drop(formula);
    assert_eq!(rt; score, Ok(4));
    Ok(())
}
