//! The parts of a block, by the lengths in its header, and the parameters in its header.
ghost use Rattle.std.specs.Prelude.{◌≡◌, ◌++◌, ◌*◌, ◌≤◌, ℕ, IfErr, IfOk, List, length, sum, take};
ghost use Rattle.mars_cell.specs.Parameters.{AreInRange};
ghost use Rattle.mars_core.specs.Limits.{max_warriors};
ghost use Rattle.mars_core.specs.State.{State};
ghost use Rattle.mars_core.specs.Block.{AreBlockParts, Spells, head_words, params_in};
ghost use Rattle.mars_core.specs.BlockFaults.{IsWrong, cells_in, counts_in, head_in, processes_in};

use crate::battle::block::{BLOCK_MARK, BlockFault, HEAD_WORDS};
use crate::deaths::MAX_WARRIORS;
use mars_cell::Params;

/// The parts of a block.
#[derive(Clone, Copy)]
pub struct Parts<'w> {
    /// The header: the first 64 words.
    pub head: &'w [u32],
    /// The number of processes of each warrior.
    pub counts: &'w [u32],
    /// Three words for each cell.
    pub cells: &'w [u32],
    /// The addresses of the processes, queue by queue.
    pub processes: &'w [u32],
}

/// Returns the parts of the block that the words begin with, by the lengths that its header states.
pub fn parts_of(words: &[u32]) -> Result<Parts<'_>, BlockFault>
    ensures head { IfOk result (λ parts. length parts.head.now ≡ head_words) }
    ensures cells { IfOk result (λ parts. length parts.cells.now ≡ 3 * (params_in parts.head.now).core_size) }
    ensures some { IfOk result (λ parts. 1 ≤ length parts.counts.now) }
    ensures few { IfOk result (λ parts. length parts.counts.now ≤ max_warriors) }
    ensures processes { IfOk result (λ parts. sum parts.counts.now ≡ length parts.processes.now) }
    ensures words { IfOk result (λ parts. take (length (parts.head.now ++ parts.cells.now ++ parts.processes.now)) words.now
        ≡ parts.head.now ++ parts.cells.now ++ parts.processes.now) }
    ensures parts { IfOk result (λ parts. (s : State) → Spells s words.now
        → AreBlockParts s parts.head.now parts.counts.now parts.cells.now parts.processes.now) }
    ensures split { IfOk result (λ parts. (parts.head.now ≡ head_in words.now) × (parts.counts.now ≡ counts_in words.now)
        × (parts.cells.now ≡ cells_in words.now) × (parts.processes.now ≡ processes_in words.now)) }
    ensures none { IfErr result (λ fault. (s : State) → Spells s words.now → ⊥) }
    ensures wrong { IfErr result (IsWrong words.now) }
{
    if words.len() < HEAD_WORDS {
        return Err(BlockFault::Short);
    }
    let (head, others) = words.split_at(HEAD_WORDS);
    if head[0] != BLOCK_MARK {
        return Err(BlockFault::Mark);
    }
    let params = match params_of(head) {
        Ok(params) => params,
        Err(fault) => return Err(fault),
    };
    let warriors = head[9] as usize;
    if warriors < 1 || warriors > MAX_WARRIORS {
        return Err(BlockFault::Warriors);
    }
    let counts = &head[16..16 + warriors];
    let (cell_words, process_words) = (3 * params.core_size() as usize, total(counts));
    if others.len() < cell_words || others.len() - cell_words < process_words {
        return Err(BlockFault::Short);
    }
    let (cells, others) = others.split_at(cell_words);
    Ok(Parts {
        head,
        counts,
        cells,
        processes: &others[..process_words],
    })
}

/// Returns the parameters in a header.
pub fn params_of(head: &[u32]) -> Result<Params, BlockFault>
    requires { length head.now ≡ head_words }
    ensures params { IfOk result (λ params. params ≡ params_in head.now) }
    ensures none { IfErr result (λ fault. AreInRange (params_in head.now) → ⊥) }
    ensures wrong { IfErr result (λ fault. (words : List ℕ) → head.now ≡ head_in words → IsWrong words fault) }
{
    match Params::new(
        head[2], head[3], head[4], head[5], head[6], head[7], head[8],
    ) {
        Ok(params) => Ok(params),
        Err(fault) => Err(BlockFault::Parameters(fault)),
    }
}

/// Returns the sum of the counts.
fn total(counts: &[u32]) -> usize
    requires { length counts.now ≤ max_warriors }
    ensures { result ≡ sum counts.now }
{
    let mut total = 0;
    for count in counts {
        total += *count as usize;
    }
    total
}
