//! Steps of two-dimensional coding with a1 under b1, of which several are read at once: their
//! places are copied from the reference row (ITU-T T.4, section 4.2.1.3.2).
ghost use Rattle.std.specs.Prelude.{◌≡◌, ℕ, ◌+◌, ◌≤◌, ◌<◌, Bool, List, pos, length, slice_index};
ghost use Rattle.std.specs.Prelude.{take, true};
ghost use Rattle.fax_bits.specs.Codes.{Decodes};
ghost use Rattle.fax_bits.specs.Tables.{modes};
ghost use Rattle.fax_bits.specs.declared.mode_codes.ModeCode.TheVariants.{Vertical};
ghost use Rattle.fax_bits.specs.views.Source.{KeepsEnd};
ghost use Rattle.fax_rows.specs.code.CodingState.{IsCodingStateInRow, AreStepsRead};

use super::steps::{CodingPosition, CodingState, vertical_0};
use crate::change_list::ChangingElements;
use crate::changes_of_row::colour_after;
use fax_bits::BitSource;

/// How many places are copied at once, and so how many steps are read at most.
const COPIED: usize = 8;

/// How many of these steps come after the first.
const MOST_MORE: u32 = COPIED as u32 - 1;

/// Fewer steps than this after the first are read one by one.
const LEAST_MORE: u32 = 3;

/// Copies eight places of another row to the index `end`.
#[inline(always)]
fn copy_eight(changes: &mut [u32], end: usize, other: &[u32], from: usize)
    requires room { end + COPIED ≤ length changes.old }
    requires others { from + COPIED ≤ length other.now }
    ensures copied { (i : ℕ) → i < COPIED
        → slice_index changes.new (end + i) ≡ slice_index other.now (from + i) }
    ensures kept { take end changes.new ≡ take end changes.old }
    ensures same_len { length changes.new ≡ length changes.old }
{
    changes[end..end + COPIED].copy_from_slice(&other[from..from + COPIED]);
}

/// Reads a step with a1 under b1, after its code, and up to seven more of them, whose codes are 1s
/// that are next, where the row does not end among the next eight changes.
#[inline(always)]
pub(super) fn vertical_0_batch(
    source: &mut BitSource,
    reference: ChangingElements,
    changes: &mut [u32],
    at: CodingState,
) -> CodingState
    requires inside { IsCodingStateInRow reference changes.old at }
    ensures read { (b : List Bool) → Decodes modes b (Vertical (pos 0)) source.old.remaining
        → AreStepsRead true reference.entry changes.old changes.new at result b source.new.remaining }
    ensures same_end { KeepsEnd source.old source.new }
    ensures no_longer { length source.new.remaining ≤ length source.old.remaining }
{
    // Eight places are copied from the reference row, of which as many count as codes are read: so
    // both rows have room for eight after their last place, or the steps are read one by one. On a
    // page of text three of five modes are so.
    fax_bits::laws::modes_are_read_back();
    if source.ones() < LEAST_MORE
        || at.b1 + COPIED > reference.end
        || at.end + COPIED > changes.len()
    {
        return vertical_0(reference, changes, at);
    }
    let count = source.skip_ones(MOST_MORE) as usize + 1;
    copy_eight(changes, at.end, reference.changes, at.b1);
    let b1 = at.b1 + count;
    let position = CodingPosition {
        a0: Some(reference.changes[b1 - 1]),
        colour: colour_after(b1),
    };
    let end = at.end + count;
    CodingState { position, end, b1 }
}
