//! Steps of two-dimensional coding over a reference row, after their codes (ITU-T T.4, section
//! 4.2.1.3.2).
ghost use Rattle.std.specs.Prelude.{◌≡◌, ◌+◌, ◌-◌, ◌≤◌, ◌<◌, ◌^◌, ◌+ℤ◌, ◌≤ℤ◌, ◌<ℤ◌, pos, negsuc};
ghost use Rattle.std.specs.Prelude.{ℤ, [], List, Bool, Some, true, slice_index, IfSome, IfNone};
ghost use Rattle.std.specs.Prelude.{IsTrue};
ghost use Rattle.fax_bits.specs.Codes.{IsRun};
ghost use Rattle.fax_rows.specs.Rows.{other as other_than};
ghost use Rattle.fax_rows.specs.Rows as Spec;
ghost use Rattle.fax_rows.specs.code.CodingSteps as Step;
ghost use Rattle.fax_rows.specs.code.Seen.{b2_from};
ghost use Rattle.fax_rows.specs.code.Chosen.{after_pair};
ghost use Rattle.fax_rows.specs.code.ChangingElements.{element_pels, IsB1At};
ghost use Rattle.fax_rows.specs.code.CodingPosition.{position_pel, position_of};
ghost use Rattle.fax_rows.specs.code.Put.{HasRoom};
ghost use Rattle.fax_rows.specs.code.CodingState.{coding_position, IsCodingState};
ghost use Rattle.fax_rows.specs.code.CodingState.{IsCodingStateInRow};

use crate::change_list::ChangingElements;
use crate::changes_of_row::{push_change, toggle_change_after};
use crate::runs::other;
use fax_bits::Colour;

/// How far a row is read (T.4, section 4.2.1.3.1).
#[derive(Clone, Copy)]
pub(crate) struct CodingPosition {
    /// The place of a0, where `None` is just before the first pel.
    pub a0: Option<u32>,
    /// The colour of a0.
    pub colour: Colour,
}

impl CodingPosition {
    /// The first pel that is not read.
    pub fn first_pel(self) -> u32
        ensures { result ≡ position_pel self }
    {
        self.a0.unwrap_or(0)
    }

    /// a0 as a number: -1 just before the first pel.
    #[inline(always)]
    pub fn number(self) -> i32
        requires { position_pel self < 2 ^ 16 }
        ensures { result ≡ Spec.a0_number (position_of self []) }
    {
        // With a sign one compare says that a1 is right of a0, and where it is left of b1 that it
        // is in the row too. Nothing else in the loop asks whether there is an a0.
        match self.a0 {
            None => -1,
            Some(column) => column as i32,
        }
    }

    /// Whether the pel `a1` is right of a0.
    #[inline(always)]
    pub fn is_left_of(self, a1: u32) -> bool
        requires position { position_pel self < 2 ^ 16 }
        requires near { a1 < 2 ^ 16 }
        ensures { IsTrue result → Spec.is_right_of self.a0 a1 ≡ true }
    {
        a1 as i32 > self.number()
    }

    /// The pel `d` pels right of the pel `b1`, where it is right of a0.
    #[inline(always)]
    fn left_of(self, b1: u32, d: i8) -> Option<u32>
        requires position { position_pel self < 2 ^ 16 }
        requires near { b1 < 2 ^ 16 }
        ensures place { IfSome result (λ a1. pos a1 ≡ pos b1 +ℤ d) }
        ensures right { IfSome result
            (λ a1. Spec.a0_number (position_of self []) <ℤ pos a1) }
        ensures none { IfNone result
            ((pos b1 +ℤ d) ≤ℤ Spec.a0_number (position_of self [])) }
    {
        let column = b1 as i32 + i32::from(d);
        if column > self.number() {
            Some(column as u32)
        } else {
            None
        }
    }
}

/// How far a row is read into places of change.
#[derive(Clone, Copy)]
pub(crate) struct CodingState {
    /// a0 and its colour.
    pub position: CodingPosition,
    /// The index after the last place that is put.
    pub end: usize,
    /// The index of b1 among the reference row's places.
    pub b1: usize,
}

impl CodingState {
    /// Just before the first pel.
    pub const BEGINNING: CodingState = CodingState {
        position: CodingPosition {
            a0: None,
            colour: Colour::White,
        },
        end: 1,
        b1: 1,
    };
}

/// Pass mode: advances to the pel below b2 (T.4, section 4.2.1.3.2).
#[inline(always)]
pub(crate) fn pass_mode(
    reference: ChangingElements,
    changes: &[u32],
    at: CodingState,
) -> CodingState
    requires inside { IsCodingStateInRow reference changes.now at }
    ensures step { let from = coding_position reference.entry.width changes.now at in
        coding_position reference.entry.width changes.now result
        ≡ Spec.coloured_up_to from (b2_from (element_pels reference.entry) from) }
    ensures so_far { IsCodingState reference.entry changes.now result }
{
    CodingState {
        position: CodingPosition {
            a0: Some(reference.changes[at.b1 + 1]),
            ..at.position
        },
        b1: at.b1 + 2,
        ..at
    }
}

/// Advances to the pel `a1`, which is right of a0 and in the row, where the colour changes (T.4,
/// section 4.2.1.3.2). `b1` is the index of the next b1.
#[inline(always)]
fn vertical_to(
    reference: ChangingElements,
    changes: &mut [u32],
    at: CodingState,
    a1: u32,
    b1: usize,
) -> CodingState
    requires inside { IsCodingStateInRow reference changes.old at }
    requires right { Spec.a0_number (position_of at.position []) <ℤ pos a1 }
    requires within { a1 ≤ reference.width }
    requires b1 { a1 < reference.width
        → IsB1At reference (Some a1) (other_than at.position.colour) b1 }
    ensures step { (d : ℤ) → pos a1 ≡ pos (slice_index reference.entry.changes.now at.b1) +ℤ d
        → Step.IsVerticalStep (element_pels reference.entry)
        (coding_position reference.entry.width changes.old at) d
        (coding_position reference.entry.width changes.new result) }
    ensures so_far { IsCodingState reference.entry changes.new result }
{
    // One function for vertical modes of each kind: a1 left of b1, right of it or under it.
    let end = push_change(changes, at.end, a1);
    CodingState {
        position: CodingPosition {
            a0: Some(a1),
            colour: other(at.position.colour),
        },
        end,
        b1,
    }
}

/// Vertical mode with a1 just under b1, which is always right of a0 and in the row (T.4,
/// section 4.2.1.3.2). The next b1 is the reference row's next changing element.
#[inline(always)]
pub(crate) fn vertical_0(
    reference: ChangingElements,
    changes: &mut [u32],
    at: CodingState,
) -> CodingState
    requires inside { IsCodingStateInRow reference changes.old at }
    ensures step { Step.IsVerticalStep (element_pels reference.entry)
        (coding_position reference.entry.width changes.old at) (pos 0)
        (coding_position reference.entry.width changes.new result) }
    ensures so_far { IsCodingState reference.entry changes.new result }
{
    vertical_to(reference, changes, at, reference.changes[at.b1], at.b1 + 1)
}

/// Vertical mode with a1 right of b1, by `d` pels (T.4, section 4.2.1.3.2). `None` where a1 is not
/// in the row.
#[inline(always)]
pub(crate) fn vertical_right(
    reference: ChangingElements,
    changes: &mut [u32],
    at: CodingState,
    d: i8,
) -> Option<CodingState>
    requires inside { IsCodingStateInRow reference changes.old at }
    requires right { pos 0 ≤ℤ d }
    ensures step { IfSome result (λ next. Step.IsVerticalStep (element_pels reference.entry)
        (coding_position reference.entry.width changes.old at) d
        (coding_position reference.entry.width changes.new next)) }
    ensures so_far { IfSome result (λ next. IsCodingState reference.entry changes.new next) }
    ensures out { IfNone result (Step.IsInRow (element_pels reference.entry)
        (coding_position reference.entry.width changes.old at) d → ⊥) }
    ensures room { HasRoom reference.entry.width changes.new }
{
    let column = reference.changes[at.b1] + u32::from(d.unsigned_abs());
    if column > reference.width {
        return None;
    }
    let b1 = reference.b1_after(at.b1 + 1, column);
    Some(vertical_to(reference, changes, at, column, b1))
}

/// Vertical mode with a1 left of b1, by `-d` pels (T.4, section 4.2.1.3.2). `None` where a1 is not
/// right of a0.
#[inline(always)]
pub(crate) fn vertical_left(
    reference: ChangingElements,
    changes: &mut [u32],
    at: CodingState,
    d: i8,
) -> Option<CodingState>
    requires inside { IsCodingStateInRow reference changes.old at }
    requires left_hand { d ≤ℤ negsuc 0 }
    ensures step { IfSome result (λ next. Step.IsVerticalStep (element_pels reference.entry)
        (coding_position reference.entry.width changes.old at) d
        (coding_position reference.entry.width changes.new next)) }
    ensures so_far { IfSome result (λ next. IsCodingState reference.entry changes.new next) }
    ensures out { IfNone result (Step.IsInRow (element_pels reference.entry)
        (coding_position reference.entry.width changes.old at) d → ⊥) }
    ensures room { HasRoom reference.entry.width changes.new }
{
    let column = at.position.left_of(reference.changes[at.b1], d)?;
    let b1 = reference.b1_before(at.b1, column);
    Some(vertical_to(reference, changes, at, column, b1))
}

/// Horizontal mode, after its two runs, the first of a0's colour, which stays (T.4, section
/// 4.2.1.3.2).
#[inline(always)]
pub(crate) fn horizontal_mode(
    reference: ChangingElements,
    changes: &mut [u32],
    at: CodingState,
    first: u32,
    second: u32,
) -> CodingState
    requires inside { IsCodingStateInRow reference changes.old at }
    requires within { position_pel at.position + first + second ≤ reference.width }
    ensures step { (b middle rest : List Bool) → IsRun at.position.colour b first middle
        → IsRun (other_than at.position.colour) middle second rest
        → Step.IsHorizontalStep (element_pels reference.entry)
        (coding_position reference.entry.width changes.old at) b
        (coding_position reference.entry.width changes.new result) rest }
    ensures elements { coding_position reference.entry.width changes.new result
        ≡ after_pair (coding_position reference.entry.width changes.old at) first second }
    ensures so_far { IsCodingState reference.entry changes.new result }
{
    let middle = at.position.first_pel() + first;
    let to = middle + second;
    let between = toggle_change_after(changes, at.end, middle, first);
    let end = toggle_change_after(changes, between, to, second);
    CodingState {
        position: CodingPosition {
            a0: Some(to),
            ..at.position
        },
        end,
        b1: reference.b1_after(at.b1, to),
    }
}
