ghost use Rattle.std.specs.Prelude.{◌≡◌, ◌<◌, [], ◌∷◌, length};
ghost use Rattle.wording.specs.Texts.{Appends, behind_spaces};
ghost use Rattle.wording.specs.Pairs.{pair_text, row_pairs, all_pairs, or_dash};

use crate::text::{push_byte, push_number, push_text};
use std::alloc::AllocError;

/// Appends the pair behind a space.
fn push_pair(out: &mut Vec<u8>, p: usize, r: u8) -> Result<(), AllocError>
    ensures { Appends result out.old.items out.new.items (behind_spaces (pair_text p r ∷ [])) }
{
    push_byte(out, b' ')?;
    push_number(out, p)?;
    push_byte(out, b'<')?;
    push_number(out, r as usize)
}

/// Appends the pairs of a row, each behind a space.
fn push_row(out: &mut Vec<u8>, p: usize, row: u64) -> Result<(), AllocError>
    ensures { Appends result out.old.items out.new.items (behind_spaces (row_pairs p row)) }
{
    for r in 0..64u8 {
        if (row >> r) % 2 == 1 {
            push_pair(out, p, r)?;
        }
    }
    Ok(())
}

/// Appends the pairs of all rows, each behind a space.
#[tactic(auto, unfolding(crate::specs::Show::each))]
fn push_rows(out: &mut Vec<u8>, rows: &[u64; 64]) -> Result<(), AllocError>
    ensures { Appends result out.old.items out.new.items (behind_spaces (all_pairs rows.now)) }
{
    for (p, row) in rows.iter().enumerate() {
        push_row(out, p, *row)?;
    }
    Ok(())
}

/// Appends the pairs of an order that is held as 64 rows, ascending and each behind a space, as ` 0<0 0<1`; ` -` where
/// there are none.
pub fn word_pairs(out: &mut Vec<u8>, rows: &[u64; 64]) -> Result<(), AllocError>
    ensures { Appends result out.old.items out.new.items (or_dash (all_pairs rows.now)) }
{
    let before = out.len();
    push_rows(out, rows)?;
    if out.len() > before {
        return Ok(());
    }
    push_text(out, b" -")
}
