//! Steps in vertical mode, of which up to four are read at once: their a1s are computed in lanes
//! (ITU-T T.4, section 4.2.1.3.2).
ghost use Rattle.std.specs.Prelude.{◌≡◌, ℕ, ◌+◌, ◌≤◌, ◌<◌, IfSome, IsSome, None, length};
ghost use Rattle.std.specs.Prelude.{slice_index, take, ◌^◌, ◌-◌, true, unwrap_or};
ghost use Rattle.std.specs.Prelude.{IsTrue, nat_lt};
ghost use Rattle.std.specs.Int.{bit_at};
ghost use Rattle.std.specs.Simd.Lanes.{mask_l, zip2};
ghost use Rattle.fax_bits.specs.views.Source.{KeepsEnd};
ghost use Rattle.fax_bits.specs.views.Verticals.{AreFew};
ghost use Rattle.fax_rows.specs.Rows.{is_right_of};
ghost use Rattle.fax_rows.specs.code.Several.{AreFour};
ghost use Rattle.fax_rows.specs.code.CodingState.{IsCodingStateInRow, AreStepsRead};

use super::steps::{CodingPosition, CodingState};
use crate::change_list::ChangingElements;
use crate::changes_of_row::colour_after;
use fax_bits::{BitSource, Verticals};
use std::simd::prelude::*;

/// How many steps are read at most.
const LANES: usize = 4;

/// Where so many ones are next, `vertical_0_batch` reads more steps at once.
const ONES: u32 = LANES as u32;

/// How far left of b1 an a1 may be at most.
const LEFT: u32 = 3;

/// Which lanes are less than the others, the first in the lowest bit.
#[inline(always)]
fn less_lanes(lanes: u32x4, others: u32x4) -> u64
    requires lanes { AreFour lanes }
    requires others { AreFour others }
    ensures { result ≡ mask_l (zip2 nat_lt lanes others) }
{
    // With a sign, which takes fewer instructions.
    lanes
        .cast::<i32>()
        .simd_lt(others.cast::<i32>())
        .to_bitmask()
}

/// Whether the lowest `count` bits are set in each of the three.
#[inline(always)]
fn are_set(first: u64, second: u64, third: u64, count: u32) -> bool
    requires { count ≤ 4 }
    ensures first { IsTrue result → (i : ℕ) → i < count → bit_at first i ≡ 1 }
    ensures second { IsTrue result → (i : ℕ) → i < count → bit_at second i ≡ 1 }
    ensures third { IsTrue result → (i : ℕ) → i < count → bit_at third i ≡ 1 }
{
    let wanted = (1 << count) - 1;
    first & second & third & wanted == wanted
}

/// Three pels right of a0, or 2 just before the first pel.
#[inline(always)]
fn biased_a0(a0: Option<u32>) -> u32
    requires { unwrap_or a0 0 < 2 ^ 16 }
    ensures right { (column : ℕ) → result < column + 3 → is_right_of a0 column ≡ true }
    ensures small { result < 2 ^ 17 }
{
    match a0 {
        None => 2,
        Some(column) => column + LEFT,
    }
}

/// The a1s of these vertical modes over the changes of the reference row from an index on, where
/// each is right of the one before, not left of the change before its b1, and left of the one after
/// it.
#[inline(always)]
fn in_lanes(others: &[u32], b: usize, a0: Option<u32>, found: Verticals) -> Option<[u32; LANES]>
    requires some { 0 < b }
    requires room { b + 5 ≤ length others.now }
    requires small { (i : ℕ) → i < 6 → slice_index others.now (b - 1 + i) < 2 ^ 16 }
    requires position { unwrap_or a0 0 < 2 ^ 16 }
    requires few { AreFew found }
    ensures lanes { IfSome result (λ changes. length changes ≡ 4) }
    ensures raised { IfSome result (λ changes. (i : ℕ) → i < found.count
        → slice_index changes i + 3
        ≡ slice_index others.now (b + i) + slice_index found.biased_offsets i) }
    ensures left_hand { IfSome result (λ changes. (i : ℕ) → i < found.count
        → slice_index others.now (b - 1 + i) ≤ slice_index changes i) }
    ensures right { IfSome result (λ changes. (i : ℕ) → i < found.count
        → slice_index changes i < slice_index others.now (b + 1 + i)) }
    ensures first { IfSome result (λ changes. is_right_of a0 (slice_index changes 0) ≡ true) }
    ensures ascending { IfSome result (λ changes. (i : ℕ) → i + 1 < found.count
        → slice_index changes i < slice_index changes (i + 1)) }
{
    // Each three pels too far right, as the looked-up numbers are.
    let biased_offsets = u8x4::from_array(found.biased_offsets);
    let raised = u32x4::from_slice(&others[b..]) + biased_offsets.cast::<u32>();
    let left_hand = u32x4::from_slice(&others[b - 1..]) + u32x4::splat(LEFT - 1);
    let right = u32x4::from_slice(&others[b + 1..]) + u32x4::splat(LEFT);
    let before = raised.shuffle(u32x4::splat(biased_a0(a0)), [4, 0, 1, 2]);
    let fine = are_set(
        less_lanes(left_hand, raised),
        less_lanes(raised, right),
        less_lanes(before, raised),
        found.count,
    );
    if !fine {
        return None;
    }
    Some((raised - u32x4::splat(LEFT)).to_array())
}

/// Puts four places from the index `end` on.
#[inline(always)]
fn put_four(changes: &mut [u32], end: usize, four: [u32; LANES])
    requires room { end + LANES ≤ length changes.old }
    requires lanes { length four ≡ 4 }
    ensures put { (i : ℕ) → i < LANES
        → slice_index changes.new (end + i) ≡ slice_index four i }
    ensures kept { take end changes.new ≡ take end changes.old }
    ensures same_len { length changes.new ≡ length changes.old }
{
    changes[end..end + LANES].copy_from_slice(&four);
}

/// Reads two to four steps of vertical modes by one look-up, where it is asked for and the row does
/// not end among the next four changes, and where each a1 is right of the one before, not left of
/// the change before its b1, and left of the one after it. Else it reads nothing.
#[inline(always)]
pub(super) fn vertical_batch<const ASKED: bool>(
    source: &mut BitSource,
    reference: ChangingElements,
    changes: &mut [u32],
    at: CodingState,
) -> Option<CodingState>
    requires inside { IsCodingStateInRow reference changes.old at }
    ensures read { IfSome result (λ next. AreStepsRead true reference.entry changes.old changes.new
        at next source.old.remaining source.new.remaining) }
    ensures unchanged { result ≡ None → source.new ≡ source.old }
    ensures changes { result ≡ None → changes.new ≡ changes.old }
    ensures same_end { KeepsEnd source.old source.new }
    ensures shorter { IsSome result → length source.new.remaining < length source.old.remaining }
{
    // Their a1s are computed in lanes, and taken where none needs another b1. It is asked for row
    // by row, by a const parameter: one loop that tries both is slower on dithered pages, and two
    // copies of it cost nothing.
    if !ASKED
        || source.ones() >= ONES
        || at.b1 + LANES > reference.end
        || at.end + LANES > changes.len()
    {
        return None;
    }
    let mut ahead = source.fork();
    let Some(found) = ahead.try_read_verticals() else {
        source.advance_to(&ahead);
        return None;
    };
    let lanes = in_lanes(reference.changes, at.b1, at.position.a0, found)?;
    put_four(changes, at.end, lanes);
    source.advance_to(&ahead);
    let count = found.count as usize;
    let b1 = at.b1 + count;
    let end = at.end + count;
    let position = CodingPosition {
        a0: Some(changes[end - 1]),
        colour: colour_after(b1),
    };
    Some(CodingState { position, end, b1 })
}
