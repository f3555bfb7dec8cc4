//! The modes of a row in two-dimensional coding, read over its reference row (ITU-T T.4, section
//! 4.2.1.3.3). The bits ahead stand in a value.
ghost use Rattle.std.specs.Prelude.{◌≡◌, ◌+◌, ◌≤◌, ◌<◌, Bool, List, IsTrue, length};
ghost use Rattle.std.specs.Prelude.{IfOk, IfErr, OnOk, OnErr};
ghost use Rattle.fax_bits.specs.Codes.{Decodes};
ghost use Rattle.fax_bits.specs.Tables.{modes};
ghost use Rattle.fax_bits.specs.views.Source.{KeepsEnd};
ghost use Rattle.fax_rows.specs.Rows as Spec;
ghost use Rattle.fax_rows.specs.code.CodingSteps as Step;
ghost use Rattle.fax_bits.specs.declared.mode_codes.ModeCode.TheVariants.{Vertical};
ghost use Rattle.fax_rows.specs.declared.RowFault.TheVariants.{OutOfRow};
ghost use Rattle.fax_rows.specs.declared.two_dimensional.horizontal_runs.NeedsTable.TheVariants.{Runs};
ghost use Rattle.fax_rows.specs.code.NeedsTable.{AreReadRuns, AreRunsNeededAt, IsNeededAt};
ghost use Rattle.fax_rows.specs.code.SlowPath.{IsSlowPath};
ghost use Rattle.fax_rows.specs.code.Seen.{b2_from};
ghost use Rattle.fax_rows.specs.code.ChangingElements.{element_pels};
ghost use Rattle.fax_rows.specs.code.RowStop.{IsStopOf, IsStepStop, IsRowStop, IsLookupExit};
ghost use Rattle.fax_rows.specs.code.ReadRow.{IsReadRow};
ghost use Rattle.fax_rows.specs.code.Put.{HasRoom};
ghost use Rattle.fax_rows.specs.code.CodingPosition.{position_pel};
ghost use Rattle.fax_rows.specs.code.CodingState.{coding_position, IsCodingState};
ghost use Rattle.fax_rows.specs.code.CodingState.{IsCodingStateInRow};
ghost use Rattle.fax_rows.specs.code.CodingState.{AreStepsRead, IsPairReadOn};

use super::canonical::{chooses_a1, chooses_b2, chooses_runs, is_taken};
use super::horizontal_runs::{LookupExit, NeedsTable, RowStop, TwoRuns, two_runs};
use super::slow_path::SlowPath;
use super::steps::{CodingState, horizontal_mode, pass_mode, vertical_left, vertical_right};
use super::vertical_0_batches::vertical_0_batch;
use super::vertical_batch::vertical_batch;
use crate::RowFault;
use crate::change_list::ChangingElements;
use crate::changes_of_row::colour_after;
use fax_bits::{BitSource, ModeCode};

/// Horizontal mode, after its two runs, where that is T.4's choice or this is not asked for (T.4,
/// sections 4.2.1.3.2 and 4.2.1.3.3).
#[inline(always)]
pub(super) fn past_runs<const CANONICAL: bool>(
    reference: ChangingElements,
    changes: &mut [u32],
    at: CodingState,
    runs: TwoRuns,
) -> Result<CodingState, RowStop>
    requires inside { IsCodingStateInRow reference changes.old at }
    requires within { position_pel at.position + runs.first + runs.second ≤ reference.width }
    ensures read { (b rest : List Bool)
        → AreReadRuns CANONICAL at.position.colour reference.entry.width (position_pel at.position) b runs rest
        → IfOk result (λ next. IsPairReadOn CANONICAL reference.entry changes.old changes.new at next
        b rest) }
    ensures err { IfErr result (λ stop. IsStopOf CANONICAL (λ fault. ⊥) stop) }
    ensures room { HasRoom reference.entry.width changes.new }
{
    let chosen = chooses_runs::<CANONICAL>(reference, at, runs);
    if !is_taken::<CANONICAL>(chosen) {
        return Err(RowStop::Other);
    }
    Ok(horizontal_mode(reference, changes, at, runs.first, runs.second))
}

/// Horizontal mode: two runs from a0 on, the first of a0's colour, which stays (T.4, section
/// 4.2.1.3.2). The index of b1 says that colour.
#[inline(always)]
fn horizontal<const CANONICAL: bool, const BATCHED: bool>(
    source: &mut BitSource,
    reference: ChangingElements,
    changes: &mut [u32],
    at: CodingState,
) -> Result<CodingState, LookupExit<Option<u32>>>
    requires inside { IsCodingStateInRow reference changes.old at }
    ensures read { IfOk result (λ next. IsPairReadOn CANONICAL reference.entry changes.old changes.new
        at next source.old.remaining source.new.remaining) }
    ensures err { IfErr result (λ unread. IsLookupExit (IsStopOf CANONICAL (λ fault. ⊥))
        (λ first. AreRunsNeededAt reference.entry changes.old changes.new at source.old.remaining first
        source.new.remaining) unread) }
    ensures room { HasRoom reference.entry.width changes.new }
    ensures same_end { KeepsEnd source.old source.new }
    ensures no_longer { OnOk result (length source.new.remaining ≤ length source.old.remaining) }
{
    // The parity of b1's index says a0's colour, so that no step needs to keep it.
    let from = at.position.first_pel();
    let colour = colour_after(at.b1);
    match two_runs::<CANONICAL, BATCHED>(source, colour, reference.width, from) {
        Ok(runs) => Ok(past_runs::<CANONICAL>(reference, changes, at, runs)?),
        Err(first) => Err(LookupExit::NeedsTable(first)),
    }
}

/// Vertical mode, after its code: advances to a1, which is `d` pels right of b1, where the colour
/// changes; where a1 is under b1 it reads more such modes too (T.4, section 4.2.1.3.2). Vertical
/// mode always is T.4's choice where a1 is not right of b1 (T.4, section 4.2.1.3.3).
#[inline(always)]
fn vertical<const CANONICAL: bool>(
    source: &mut BitSource,
    reference: ChangingElements,
    changes: &mut [u32],
    at: CodingState,
    d: i8,
) -> Result<CodingState, RowStop>
    requires inside { IsCodingStateInRow reference changes.old at }
    ensures read { (b : List Bool) → Decodes modes b (Vertical d) source.old.remaining
        → IfOk result (λ next. AreStepsRead CANONICAL reference.entry changes.old changes.new at next
        b source.new.remaining) }
    ensures err { IfErr result (λ stop. IsStopOf CANONICAL
        (λ fault. (Step.IsInRow (element_pels reference.entry)
        (coding_position reference.entry.width changes.old at) d → ⊥) × (fault ≡ OutOfRow)) stop) }
    ensures room { OnErr result (HasRoom reference.entry.width changes.new) }
    ensures same_end { KeepsEnd source.old source.new }
    ensures no_longer { OnOk result (length source.new.remaining ≤ length source.old.remaining) }
{
    // Most a1s of a dithered page are left of b1, and are asked for first.
    let out = RowStop::Fault(RowFault::OutOfRow);
    if d < 0 {
        return vertical_left(reference, changes, at, d).ok_or(out);
    }
    if d == 0 {
        return Ok(vertical_0_batch(source, reference, changes, at));
    }
    let next = vertical_right(reference, changes, at, d).ok_or(out)?;
    let chosen = chooses_a1::<CANONICAL>(reference, at, next);
    if is_taken::<CANONICAL>(chosen) {
        Ok(next)
    } else {
        Err(RowStop::Other)
    }
}

/// Pass mode, where that is T.4's choice or this is not asked for (T.4, section 4.2.1.3.3).
#[inline(always)]
pub(super) fn pass<const CANONICAL: bool>(
    reference: ChangingElements,
    changes: &[u32],
    at: CodingState,
) -> Result<CodingState, RowStop>
    requires inside { IsCodingStateInRow reference changes.now at }
    ensures ok { let from = coding_position reference.entry.width changes.now at in
        IfOk result (λ next. coding_position reference.entry.width changes.now next
        ≡ Spec.coloured_up_to from (b2_from (element_pels reference.entry) from)) }
    ensures so_far { IfOk result (λ next. IsCodingState reference.entry changes.now next) }
    ensures inside { IfOk result (λ next. IsTrue CANONICAL
        → position_pel next.position < reference.entry.width) }
    ensures err { IfErr result (λ stop. IsStopOf CANONICAL (λ fault. ⊥) stop) }
{
    let next = pass_mode(reference, changes, at);
    let chosen = chooses_b2::<CANONICAL>(reference, next);
    if is_taken::<CANONICAL>(chosen) {
        Ok(next)
    } else {
        Err(RowStop::Other)
    }
}

/// Advances by a mode, after its code; where a1 is under b1 it reads more such modes too (T.4,
/// section 4.2.1.3.3). Both runs of horizontal mode are expected. `BATCHED` changes nothing here:
/// it gives each caller a copy of its own, which the compiler inlines.
#[inline(always)]
pub(super) fn by_mode<const CANONICAL: bool, const BATCHED: bool>(
    source: &mut BitSource,
    reference: ChangingElements,
    changes: &mut [u32],
    at: CodingState,
    mode: ModeCode,
) -> Result<CodingState, LookupExit<Option<u32>>>
    requires inside { IsCodingStateInRow reference changes.old at }
    ensures read { (b : List Bool) → Decodes modes b mode source.old.remaining
        → IfOk result (λ next. AreStepsRead CANONICAL reference.entry changes.old changes.new at next
        b source.new.remaining) }
    ensures stop { (b : List Bool) → Decodes modes b mode source.old.remaining
        → IfErr result (λ unread. IsLookupExit (IsStepStop CANONICAL reference.entry changes.old at b)
        (λ first. (changes.new ≡ changes.old)
        × IsNeededAt reference.entry changes.old at b (Runs first) source.new.remaining) unread) }
    ensures room { OnErr result (HasRoom reference.entry.width changes.new) }
    ensures same_end { KeepsEnd source.old source.new }
    ensures no_longer { OnOk result (length source.new.remaining ≤ length source.old.remaining) }
{
    match mode {
        ModeCode::Vertical(d) => Ok(vertical::<CANONICAL>(source, reference, changes, at, d)?),
        ModeCode::Pass => Ok(pass::<CANONICAL>(reference, changes, at)?),
        ModeCode::Horizontal => Err(LookupExit::NeedsTable(None)),
        ModeCode::Extension => Err(LookupExit::Stopped(RowStop::Fault(RowFault::Extension))),
    }
}

/// Reads one mode by a look-up, and advances by what it says; where a1 is under b1 it reads more
/// such modes too (T.4, section 4.2.1.3.3). With `BATCHED` it reads several vertical modes by one
/// look-up where it can.
#[inline(always)]
fn next_steps<const CANONICAL: bool, const BATCHED: bool>(
    source: &mut BitSource,
    reference: ChangingElements,
    changes: &mut [u32],
    at: CodingState,
) -> Result<CodingState, LookupExit<NeedsTable>>
    requires inside { IsCodingStateInRow reference changes.old at }
    ensures read { IfOk result (λ next. AreStepsRead CANONICAL reference.entry changes.old changes.new
        at next source.old.remaining source.new.remaining) }
    ensures stop { IfErr result (λ unread. IsLookupExit
        (IsStepStop CANONICAL reference.entry changes.old at source.old.remaining)
        (λ needed. (changes.new ≡ changes.old)
        × IsNeededAt reference.entry changes.old at source.old.remaining needed source.new.remaining) unread) }
    ensures room { HasRoom reference.entry.width changes.new }
    ensures same_end { KeepsEnd source.old source.new }
    ensures shorter { OnOk result (length source.new.remaining < length source.old.remaining) }
{
    if let Some(next) = vertical_batch::<BATCHED>(source, reference, changes, at) {
        return Ok(next);
    }
    // What is not read there is mostly pass or horizontal mode.
    let Some(mode) = source.try_read_mode::<BATCHED>() else {
        return Err(LookupExit::NeedsTable(NeedsTable::Mode));
    };
    let read = match mode {
        ModeCode::Horizontal => horizontal::<CANONICAL, BATCHED>(source, reference, changes, at),
        _ => by_mode::<CANONICAL, BATCHED>(source, reference, changes, at, mode),
    };
    match read {
        Ok(next) => Ok(next),
        Err(LookupExit::NeedsTable(first)) => Err(LookupExit::NeedsTable(NeedsTable::Runs(first))),
        Err(LookupExit::Stopped(stop)) => Err(LookupExit::Stopped(stop)),
    }
}

/// Reads the modes of a row over the reference row by look-ups, and returns where its places end.
/// It stops where no look-up finds the next code, and with `CANONICAL` at the first step that is
/// not seen to be T.4's choice. Where it stops the source is as it was.
#[inline(never)]
pub(super) fn read_by_look_ups<const CANONICAL: bool, const BATCHED: bool>(
    source: &mut BitSource,
    reference: ChangingElements,
    changes: &mut [u32],
) -> Result<usize, LookupExit<SlowPath>>
    requires room { HasRoom reference.width changes.old }
    ensures read { IfOk result (λ end. IsReadRow CANONICAL reference.entry source.old.remaining changes.new
        end source.new.remaining) }
    ensures stop { IfErr result (λ unread. IsLookupExit
        (IsRowStop CANONICAL reference.entry source.old.remaining)
        (λ slow_path_at. IsSlowPath CANONICAL reference.entry source.old changes.new slow_path_at) unread) }
    ensures unchanged { OnErr result (source.new ≡ source.old) }
    ensures room { HasRoom reference.entry.width changes.new }
    ensures same_end { KeepsEnd source.old source.new }
{
    // What stops this loop leaves it for good, so the compiler keeps the row's width, its changes
    // and the next bits in registers. The loop returns only numbers that it keeps anyway: a0, or -1
    // where there is none; the index after the last change; and the index of b1, which gives a0's
    // colour.
    let mut ahead = source.fork();
    let mut at = CodingState::BEGINNING;
    while at.position.first_pel() < reference.width {
        match next_steps::<CANONICAL, BATCHED>(&mut ahead, reference, changes, at) {
            Ok(next) => at = next,
            Err(LookupExit::NeedsTable(needed)) => {
                return Err(LookupExit::NeedsTable(SlowPath {
                    needed,
                    place: ahead.place(),
                    a0: at.position.number(),
                    end: at.end,
                    b1: at.b1,
                }));
            }
            Err(LookupExit::Stopped(stop)) => return Err(LookupExit::Stopped(stop)),
        }
    }
    source.advance_to(&ahead);
    Ok(at.end)
}
