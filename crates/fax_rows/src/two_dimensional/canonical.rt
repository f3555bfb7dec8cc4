//! Which steps T.4 chooses (ITU-T T.4, section 4.2.1.3.3).
ghost use Rattle.std.specs.Prelude.{◌≡◌, ◌+◌, ◌≤◌, ◌<◌, ◌⊎◌, IsTrue, true, false};
ghost use Rattle.fax_rows.specs.Rows.{b1, b2, is_right_of};
ghost use Rattle.fax_rows.specs.code.ChangingElements.{element_pels, IsB1At};
ghost use Rattle.fax_rows.specs.code.CodingPosition.{position_pel};

use super::horizontal_runs::TwoRuns;
use super::steps::CodingState;
use crate::change_list::ChangingElements;

/// Whether T.4 chooses vertical mode where a1 is reached by it: b2 is not left of a1 (T.4, section
/// 4.2.1.3.3).
#[inline(always)]
pub(super) fn chooses_a1<const CANONICAL: bool>(
    reference: ChangingElements,
    at: CodingState,
    next: CodingState,
) -> bool
    requires b1 { IsB1At reference at.position.a0 at.position.colour at.b1 }
    ensures { IsTrue result → position_pel next.position
        ≤ b2 (element_pels reference.entry) at.position.a0 at.position.colour }
{
    CANONICAL && next.position.first_pel() <= reference.changes[at.b1 + 1]
}

/// Whether T.4 chooses pass mode where a0 is put under b2 by it: b2 is in the row (T.4, section
/// 4.2.1.3.3).
#[inline(always)]
pub(super) fn chooses_b2<const CANONICAL: bool>(
    reference: ChangingElements,
    next: CodingState,
) -> bool
    ensures { IsTrue result → position_pel next.position < reference.entry.width }
{
    CANONICAL && next.position.first_pel() < reference.width
}

/// Whether T.4 chooses horizontal mode with these two runs, as far as the row is read (T.4, section
/// 4.2.1.3.3).
#[inline(always)]
pub(super) fn chooses_runs<const CANONICAL: bool>(
    reference: ChangingElements,
    at: CodingState,
    runs: TwoRuns,
) -> bool
    requires b1 { IsB1At reference at.position.a0 at.position.colour at.b1 }
    requires within { position_pel at.position + runs.first + runs.second ≤ reference.width }
    ensures right { IsTrue result
        → is_right_of at.position.a0 (position_pel at.position + runs.first) ≡ true }
    ensures second { IsTrue result
        → position_pel at.position + runs.first < reference.entry.width → 0 < runs.second }
    ensures left_hand { IsTrue result → position_pel at.position + runs.first
        ≤ b2 (element_pels reference.entry) at.position.a0 at.position.colour }
    ensures far { IsTrue result → (position_pel at.position + runs.first + 3
        < b1 (element_pels reference.entry) at.position.a0 at.position.colour)
        ⊎ (b1 (element_pels reference.entry) at.position.a0 at.position.colour + 3
        < position_pel at.position + runs.first) }
{
    let a1 = at.position.first_pel() + runs.first;
    let b1 = reference.changes[at.b1];
    let b2 = reference.changes[at.b1 + 1];
    CANONICAL
        && at.position.is_left_of(a1)
        && (runs.second > 0 || a1 == reference.width)
        && a1 <= b2
        && (a1 + 3 < b1 || b1 + 3 < a1)
}

/// Whether a step is taken: it is seen to be T.4's choice, or that is not asked for.
#[inline(always)]
pub(super) fn is_taken<const CANONICAL: bool>(chosen: bool) -> bool
    ensures taken { IsTrue result → IsTrue CANONICAL → IsTrue chosen }
    ensures asked { result ≡ false → IsTrue CANONICAL }
{
    chosen || !CANONICAL
}
