//! The lines of a source, and where the items after each line end.
ghost use Rattle.std.specs.Prelude.{◌≡◌, ◌≤◌, ◌==◌, length, map, not, IfOk, ℕ, ◌+◌, ◌<◌, slice_index, vec_len};
ghost use Rattle.std.specs.List.{prefix_len};
ghost use Rattle.redcode_text.specs.Bytes.{line_feed};
ghost use Rattle.redcode_text.specs.Code.Rows.{row_of};
ghost use Rattle.redcode_text.specs.Source.{read_rows, rows_of};
ghost use Rattle.redcode_text.specs.Code.Pairs.{AreEnds, EndsAt};

pub mod directives;
pub mod row;

use crate::source::directives::has_directive;
use crate::source::row::{LineKind, SourceRow};
use std::alloc::{AllocError, Global};

/// Returns the number of bytes of the first line, without its LF.
fn line_len(bytes: &[u8]) -> usize
    ensures value { result ≡ prefix_len (λ b. not (b == line_feed)) bytes.now }
    ensures within { result ≤ length bytes.now }
{
    bytes.iter().take_while(|byte| **byte != b'\n').count()
}

/// Returns the lines of a source.
pub fn rows_of<'a>(alloc: Global, source: &'a [u8]) -> Result<Vec<SourceRow<'a>>, AllocError>
    ensures { IfOk result (λ rows. map row_of rows.items ≡ rows_of source.now) }
{
    let mut rows = Vec::new(alloc);
    let mut number = 1;
    let mut at = 0;
    while at < source.len() {
        let end = at + line_len(&source[at..]);
        let row = SourceRow::new(number, at, &source[at..end]);
        let Ok(()) = rows.push(row) else {
            return Err(AllocError);
        };
        number += 1;
        at = end + 1;
    }
    Ok(rows)
}

/// Returns the rows from the first `;redcode` on, or all rows if there is none.
pub fn read_rows<'r, 'a>(rows: &'r [SourceRow<'a>]) -> &'r [SourceRow<'a>]
    ensures { map row_of result.now ≡ read_rows (map row_of rows.now) }
{
    for at in 0..rows.len() {
        if has_directive(b";redcode", rows[at].bytes) {
            return &rows[at..];
        }
    }
    rows
}

/// Returns where the items from the row `first` on end. `ends` has where the items after each row from `first` on end.
pub fn end_from(rows: &[SourceRow<'_>], ends: &[usize], first: usize) -> usize
    requires within { first ≤ length rows.now }
    requires same_length { length ends.now ≡ length rows.now }
    requires known { (i : ℕ) → first ≤ i → i < length rows.now → EndsAt rows.now (i + 1) (slice_index ends.now i) }

    ensures { EndsAt rows.now first result }
{
    if first >= rows.len() {
        return first;
    }
    match rows[first].kind() {
        LineKind::Rof => first,
        LineKind::Equ(_) | LineKind::Other => ends[first],
        LineKind::For(_) => {
            let last = ends[first];
            if last >= rows.len() {
                return last;
            }
            ends[last]
        }
    }
}

/// Returns, for each row, the index of the ROF that ends the items after the row, or the number of rows without a ROF.
pub fn ends_of(alloc: Global, rows: &[SourceRow<'_>]) -> Result<Vec<usize>, AllocError>
    ensures ends { IfOk result (λ ends. AreEnds rows.now ends.items) }
    ensures len { IfOk result (λ ends. vec_len ends ≡ length rows.now) }
{
    let mut ends = vec![in alloc; 0; rows.len()]?;
    let mut first = rows.len();
    while first > 0 {
        let end = end_from(rows, &ends, first);
        first -= 1;
        ends[first] = end;
    }
    Ok(ends)
}
