//! Places inside strips, in memory of the caller.
ghost use Rattle.std.specs.Prelude.{◌≡◌, ◌≢◌, ◌<◌, ◌≤◌, false, length, true, MatchOption};
ghost use Rattle.fax_c.specs.declared.fill.Stop.TheVariants.{NoRoom};
ghost use Rattle.fax_c.specs.views.Places as Spec;
ghost use Rattle.fax_c.specs.code.CallSteps as Code;

use crate::fill::Filled;
use crate::format::{RowFormat, Runs};
use crate::status;
use fax_walk::{Cursor, LongCursor, Walk, WalkStart};
use std::alloc::Global;

/// So many runs hold those of any row.
pub(crate) const MOST_RUNS: usize = 65_536;

/// Where to continue: a cursor; and where `runs` is not 0 a place inside a strip, after so many
/// bits of it, whose row before it has so many runs, which stand apart.
#[repr(C)]
#[derive(Clone, Copy)]
pub struct FaxPlace {
    pub page: u32,
    pub row: u32,
    pub bits: u32,
    pub runs: u32,
}

impl FaxPlace {
    ghost use Rattle.fax_c.specs.views.Places.{cursor_of, place_at};

    /// A cursor alone.
    pub(crate) fn at(cursor: Cursor) -> Self
        ensures { result ≡ place_at cursor }
    {
        FaxPlace {
            page: cursor.page,
            row: cursor.row,
            bits: 0,
            runs: 0,
        }
    }

    /// Whether it has more runs than stand beside it.
    pub(crate) fn lacks_runs(&self, runs: &[u32]) -> bool
        ensures lacks { result ≡ true → Spec.LacksRuns self.now runs.now }
        ensures has { result ≡ false → self.now.runs ≤ length runs.now }
    {
        runs.len() < self.runs as usize
    }

    /// Its cursor.
    pub(crate) fn cursor(&self) -> Cursor
        ensures { result ≡ cursor_of self.now }
    {
        Cursor {
            page: self.page,
            row: self.row,
        }
    }
}

/// What a walk begins with that continues at a place, or none where memory was refused for its
/// runs.
pub(crate) fn started_at(alloc: Global, place: &FaxPlace, runs: &[u32]) -> Option<WalkStart>
    requires { place.now.runs ≤ length runs.now }
    ensures { MatchOption result (0 < place.now.runs)
        (λ origin. origin ≡ Spec.place_started place.now runs.now) }
{
    let at = place.cursor();
    if place.runs == 0 {
        return Some(WalkStart::AtCursor(at));
    }
    match Vec::from_slice(alloc, &runs[..place.runs as usize]) {
        Ok(runs) => Some(WalkStart::AtLongCursor(LongCursor {
            at,
            bits: place.bits,
            runs,
        })),
        Err(_) => None,
    }
}

/// Reports a place inside a strip, where its runs have room, and returns how it was reported.
pub(crate) fn tell_place(found: &LongCursor, place: &mut FaxPlace, runs: &mut [u32]) -> u32
    requires { 0 < length found.now.runs }
    ensures { Code.IsPlaceTold found.now place.old runs.old result place.new runs.new }
{
    let count = found.runs.len();
    if count > MOST_RUNS {
        return status::NO_PLACE;
    }
    if count > runs.len() {
        return status::NO_ROOM;
    }
    runs[..count].copy_from_slice(&found.runs);
    *place = FaxPlace {
        page: found.at.page,
        row: found.at.row,
        bits: found.bits,
        runs: count as u32,
    };
    status::DONE
}

/// Reports the place inside a strip after the rows that a walk has returned, where there is one and
/// its runs have room.
fn tell_inside(walk: &Walk, place: &mut FaxPlace, runs: &mut [u32])
    requires some { 0 < walk.now.yielded }
    requires none { place.old.runs ≡ 0 }
    ensures { Code.IsInsideTold walk.now place.old runs.old place.new runs.new }
{
    let Some(found) = walk.long_cursor_ref() else {
        return;
    };
    let Some(to) = Runs::put(found.reference, runs, 0) else {
        return;
    };
    *place = FaxPlace {
        page: found.at.page,
        row: found.at.row,
        bits: found.bits,
        runs: to as u32,
    };
}

/// Reports the place after so many rows, which a walk has returned and no more: where they are
/// none, a place inside a strip stays.
fn tell_after(walk: &Walk, cursor: Cursor, count: usize, place: &mut FaxPlace, runs: &mut [u32])
    requires given { 0 < count → walk.now.yielded ≡ count }
    requires origin { count ≡ 0 → Code.StartsAt walk.now.origin place.old runs.old }
    ensures place { Spec.IsAfterRows walk.now.file walk.now.origin cursor count place.new runs.new }
    ensures kept { Spec.KeepsRuns runs.old runs.new }
    ensures no_runs { count ≡ 0 → runs.new ≡ runs.old }
{
    if count > 0 {
        *place = FaxPlace::at(cursor);
        tell_inside(walk, place, runs);
    } else if place.runs == 0 {
        *place = FaxPlace::at(cursor);
    }
}

/// Reports the place before the next row, where rows stand before it and it may have no room in so
/// many numbers: a walk that has handed it out has passed the place.
pub(crate) fn bit_offset<F: RowFormat>(
    walk: &Walk,
    cursor: Cursor,
    count: usize,
    room: usize,
    place: &mut FaxPlace,
    runs: &mut [u32],
)
    requires { walk.now.yielded ≡ count }
    ensures told { 0 < count → room < F.MOST → Spec.IsAfterRows walk.now.file walk.now.origin cursor
        count place.new runs.new }
    ensures none { count ≡ 0 → place.new ≡ place.old }
    ensures no_runs { count ≡ 0 → runs.new ≡ runs.old }
    ensures kept { Spec.KeepsRuns runs.old runs.new }
{
    if count > 0 && room < F::MOST {
        tell_after(walk, cursor, count, place, runs);
    }
}

/// Reports the place after the rows that were written. Where the next one had no room, the walk has
/// passed it, and it was reported before.
pub(crate) fn place_after(walk: &Walk, filled: &Filled, place: &mut FaxPlace, runs: &mut [u32])
    requires given { filled.now.stop ≢ NoRoom → walk.now.yielded ≡ filled.now.count }
    requires origin { filled.now.count ≡ 0 → Code.StartsAt walk.now.origin place.old runs.old }
    requires told { 0 < filled.now.count → filled.now.stop ≡ NoRoom → Spec.IsAfterRows walk.now.file
        walk.now.origin filled.now.cursor filled.now.count place.old runs.old }
    ensures { Spec.IsAfter walk.now.file walk.now.origin filled.now runs.old place.new runs.new }
{
    if filled.count == 0 || !filled.stop.is_no_room() {
        tell_after(walk, filled.cursor, filled.count, place, runs);
    }
}
