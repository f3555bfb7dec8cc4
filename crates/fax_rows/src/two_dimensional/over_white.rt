//! Rows in two-dimensional coding over a white reference row: horizontal modes from the first pel
//! on, and a1 under the row's end (ITU-T T.4, section 4.2.1.3.3).
ghost use Rattle.std.specs.Prelude.{◌≡◌, ◌+◌, ◌≤◌, ◌<◌, ◌^◌, Bool, List, [], None, true, IsSome};
ghost use Rattle.std.specs.Prelude.{IsTrue, length};
ghost use Rattle.std.specs.Prelude.{IfOk, IfErr, IfSome, OnErr};
ghost use Rattle.fax_bits.specs.views.Source.{KeepsEnd};
ghost use Rattle.fax_bits.specs.declared.Colour.TheVariants.{White};
ghost use Rattle.fax_rows.specs.Rows.{a0_number};
ghost use Rattle.fax_rows.specs.declared.two_dimensional.horizontal_runs.NeedsTable.TheVariants.{Mode};
ghost use Rattle.fax_rows.specs.code.NeedsTable.{AreReadRuns};
ghost use Rattle.fax_rows.specs.code.CodingPosition.{position_of};
ghost use Rattle.fax_rows.specs.code.OverWhite.{placed_over_white, HavePels, IsStepOverWhite};
ghost use Rattle.fax_rows.specs.code.SlowPath.{IsSlowPath};
ghost use Rattle.fax_rows.specs.code.CodingState.{IsCodingStateInRow, IsPairReadOn};
ghost use Rattle.fax_rows.specs.code.Put.{HasRoom};
ghost use Rattle.fax_rows.specs.code.ReadRow.{IsReadRow};
ghost use Rattle.fax_rows.specs.code.RowStop.{IsRowStop, IsLookupExit};

use super::canonical::is_taken;
use super::horizontal_runs::{LookupExit, NeedsTable, RowStop, TwoRuns, run_by_run};
use super::slow_path::SlowPath;
use super::steps::{CodingPosition, CodingState, vertical_0};
use crate::change_list::ChangingElements;
use crate::changes_of_row::push_change;
use fax_bits::{BitSource, Colour, ModeCode};

/// How far a row is read over a white reference row.
#[derive(Clone, Copy)]
struct OverWhiteState {
    /// The first pel that is not read, which is white where any is read.
    first_pel: u32,
    /// The index after the last place that is put.
    end: usize,
}

impl OverWhiteState {
    /// Just before the first pel.
    const BEGINNING: OverWhiteState = OverWhiteState {
        first_pel: 0,
        end: 1,
    };

    /// The same, as over any reference row.
    #[inline(always)]
    fn elements(self) -> CodingState
        ensures { result ≡ placed_over_white self }
    {
        let a0 = if self.first_pel == 0 {
            None
        } else {
            Some(self.first_pel)
        };
        CodingState {
            position: CodingPosition {
                a0,
                colour: Colour::White,
            },
            end: self.end,
            b1: 1,
        }
    }

    /// A pause where no look-up finds the next step, at this place in the bits of the source.
    #[inline(always)]
    fn slow_path_at(self, column: u64) -> SlowPath
        requires { self.first_pel < 2 ^ 16 }
        ensures needed { result.needed ≡ Mode }
        ensures place { result.place ≡ column }
        ensures a0 { result.a0 ≡ a0_number (position_of (placed_over_white self).position []) }
        ensures end { result.end ≡ self.end }
        ensures b1 { result.b1 ≡ 1 }
    {
        SlowPath {
            needed: NeedsTable::Mode,
            place: column,
            a0: self.elements().position.number(),
            end: self.end,
            b1: 1,
        }
    }
}

/// A step of a row over a white reference row.
#[derive(Clone, Copy)]
enum StepOverWhite {
    /// Horizontal mode with these runs, which have pels, but for the first one of a row.
    Runs(TwoRuns),
    /// Vertical mode with a1 under the row's end.
    End,
}

/// Reads horizontal mode, or a1 under the row's end, in a row of `width` pels of which `first_pel`
/// is the first that is not read, each code by a look-up. Where it finds no such step the source is
/// as it was.
#[inline(always)]
fn by_codes<const CANONICAL: bool>(
    source: &mut BitSource,
    first_pel: u32,
    width: u32,
) -> Option<StepOverWhite>
    requires within { first_pel ≤ width }
    ensures step { IfSome result
        (λ step. IsStepOverWhite width first_pel source.old.remaining step source.new.remaining) }
    ensures unchanged { result ≡ None → source.new ≡ source.old }
    ensures same_end { KeepsEnd source.old source.new }
    ensures shorter { IsSome result → length source.new.remaining < length source.old.remaining }
{
    let mut ahead = source.fork();
    let step = match ahead.try_read_mode::<true>()? {
        ModeCode::Vertical(0) => StepOverWhite::End,
        ModeCode::Horizontal => {
            let Ok(runs) = run_by_run::<CANONICAL, true>(
                &mut ahead,
                Colour::White,
                width,
                first_pel,
            ) else {
                return None;
            };
            if runs.second == 0 || (runs.first == 0 && first_pel > 0) {
                return None;
            }
            StepOverWhite::Runs(runs)
        }
        _ => return None,
    };
    source.advance_to(&ahead);
    Some(step)
}

/// What `by_codes` does, mostly by one look-up.
#[inline(always)]
fn next_step<const CANONICAL: bool>(
    source: &mut BitSource,
    first_pel: u32,
    width: u32,
) -> Option<StepOverWhite>
    requires width { width < 2 ^ 16 }
    requires within { first_pel ≤ width }
    ensures step { IfSome result
        (λ step. IsStepOverWhite width first_pel source.old.remaining step source.new.remaining) }
    ensures unchanged { result ≡ None → source.new ≡ source.old }
    ensures same_end { KeepsEnd source.old source.new }
    ensures shorter { IsSome result → length source.new.remaining < length source.old.remaining }
{
    match source.try_read_horizontal(first_pel, width) {
        Some(pair) => Some(StepOverWhite::Runs(TwoRuns {
            first: pair.white,
            second: pair.black,
        })),
        None => by_codes::<CANONICAL>(source, first_pel, width),
    }
}

/// Horizontal mode, after its two runs, where that is T.4's choice or this is not asked for: b1 is
/// at the row's end (T.4, sections 4.2.1.3.2 and 4.2.1.3.3).
#[inline(always)]
fn past_two_runs<const CANONICAL: bool>(
    reference: ChangingElements,
    changes: &mut [u32],
    at: OverWhiteState,
    runs: TwoRuns,
) -> Option<OverWhiteState>
    requires white { reference.end ≡ 1 }
    requires inside { IsCodingStateInRow reference changes.old (placed_over_white at) }
    requires within { at.first_pel + runs.first + runs.second ≤ reference.width }
    requires pels { HavePels at.first_pel runs }
    ensures read { (b rest : List Bool)
        → AreReadRuns true White reference.entry.width at.first_pel b runs rest
        → IfSome result (λ next. IsPairReadOn CANONICAL reference.entry changes.old changes.new
        (placed_over_white at) (placed_over_white next) b rest) }
    ensures asked { result ≡ None → IsTrue CANONICAL }
    ensures room { HasRoom reference.entry.width changes.new }
{
    let middle = at.first_pel + runs.first;
    if !is_taken::<CANONICAL>(middle + 3 < reference.width) {
        return None;
    }
    let first_pel = middle + runs.second;
    let between = push_change(changes, at.end, middle);
    let end = push_change(changes, between, first_pel);
    Some(OverWhiteState { first_pel, end })
}

/// Reads the modes of a row over a white reference row by look-ups, and returns where its places
/// end. It stops where no look-up finds the next step, and with `CANONICAL` at the first step that
/// is not seen to be T.4's choice. Where it stops the source is as it was.
#[inline(never)]
pub(super) fn read_over_white<const CANONICAL: bool>(
    source: &mut BitSource,
    reference: ChangingElements,
    changes: &mut [u32],
) -> Result<usize, LookupExit<SlowPath>>
    requires room { HasRoom reference.width changes.old }
    requires white { reference.end ≡ 1 }
    ensures read { IfOk result (λ end. IsReadRow CANONICAL reference.entry source.old.remaining changes.new
        end source.new.remaining) }
    ensures stop { IfErr result (λ unread. IsLookupExit
        (IsRowStop CANONICAL reference.entry source.old.remaining)
        (λ slow_path_at. IsSlowPath CANONICAL reference.entry source.old changes.new slow_path_at) unread) }
    ensures unchanged { OnErr result (source.new ≡ source.old) }
    ensures room { HasRoom reference.entry.width changes.new }
    ensures same_end { KeepsEnd source.old source.new }
{
    // For the first row of each strip, and rows below white ones: nearly each pair of runs is in
    // horizontal mode there, and b1 and b2 are at the row's end. Two numbers stand for a0, its
    // colour and b1. Runs without pels, but the first of a row, are left to the tables, where a
    // file that is made of them takes four times as many instructions, still in proportion to its
    // length.
    let mut ahead = source.fork();
    let mut at = OverWhiteState::BEGINNING;
    while at.first_pel < reference.width {
        match next_step::<CANONICAL>(&mut ahead, at.first_pel, reference.width) {
            Some(StepOverWhite::Runs(runs)) => {
                let Some(next) = past_two_runs::<CANONICAL>(reference, changes, at, runs) else {
                    return Err(LookupExit::Stopped(RowStop::Other));
                };
                at = next;
            }
            Some(StepOverWhite::End) => {
                source.advance_to(&ahead);
                return Ok(vertical_0(reference, changes, at.elements()).end);
            }
            None => return Err(LookupExit::NeedsTable(at.slow_path_at(ahead.place()))),
        }
    }
    source.advance_to(&ahead);
    Ok(at.end)
}
