//! What is left of a damaged page from a place on, and the rows that are lost.
ghost use Rattle.std.specs.Prelude.{◌≡◌, ◌≢◌, ◌<◌, ◌≤◌, ◌*◌, false, length, true};
ghost use Rattle.fax_rows.specs.Coded as Coded;
ghost use Rattle.fax_walk.specs.views.RowsFrom as Walk;
ghost use Rattle.fax_c.specs.code.SalvagedFrom as Code;
ghost use Rattle.fax_c.specs.views.SalvagedFrom as Spec;

use crate::fill::{Filled, Stop};
use crate::format::put_all_runs;
use crate::places::{FaxPlace, MOST_RUNS};
use crate::raster::{packed_len, put_in_stride};
use crate::salvaged_raster::{FaxLost, put_stretch};
use crate::status;
use crate::strip_rows::{MOST_BYTES, row_before};
use crate::told::FaxTold;
use fax_files::PageForm;
use fax_page::PlaceFault;
use fax_walk::{Cursor, DamagedPage, End, LostRows, RowsFrom, SalvagedPart};
use std::alloc::Global;

/// Rows that are passed up to the next one that is found, or all that are left of the page.
#[derive(Clone, Copy)]
struct SkippedRows {
    /// The row after them.
    row: u32,
    /// Those of them that are lost.
    lost: Option<LostRows>,
    /// Whether the last of them is found.
    found: bool,
}

/// Passes the rows that are lost, and the next one that is found, if one is.
fn next_found(remaining: &mut RowsFrom, page: u32, row: u32) -> SkippedRows
    requires upcoming { Walk.upcoming_row remaining.old ≡ row }
    requires within { row ≤ remaining.old.here.form.rows }
    requires few { remaining.old.here.form.rows ≤ 1000000 }
    ensures { Code.IsAhead remaining.old page row result remaining.new }
{
    let mut upcoming = row;
    let mut lost = None;
    while let Some(part) = remaining.next_part() {
        match part {
            SalvagedPart::Found => {
                return SkippedRows {
                    row: upcoming + 1,
                    lost,
                    found: true,
                };
            }
            SalvagedPart::Lost { rows, cause } => {
                lost = Some(LostRows::longer(lost, page, upcoming, rows, cause));
                upcoming += rows;
            }
        }
    }
    SkippedRows {
        row: upcoming,
        lost,
        found: false,
    }
}

/// Whether so many bytes, of which some are used, have no room for one more row, or a table that
/// has room for so many stretches has none for one more.
fn is_full(len: usize, used: usize, stride: usize, stretches: usize, room: usize) -> bool
    requires { used ≤ len }
    ensures full { result ≡ true → Spec.IsFull len used stride stretches room }
    ensures room { result ≡ false → Spec.HasRoomForBoth len used stride stretches room }
{
    len - used < stride || stretches >= room
}

/// Writes the rows that are found, one after another, and the stretches of those that are lost, as
/// long as one more of each has room.
fn fill_left_from(
    remaining: &mut RowsFrom,
    page: u32,
    row: u32,
    stride: usize,
    out: &mut [u8],
    lost: &mut [FaxLost],
) -> Filled
    requires upcoming { Walk.upcoming_row remaining.old ≡ row }
    requires within { row ≤ remaining.old.here.form.rows }
    requires few { remaining.old.here.form.rows ≤ 1000000 }
    requires short { Coded.packed_len remaining.old.here.form.width ≤ stride }
    requires room { Spec.HasRoomForBoth (length out.old) 0 stride 0 (length lost.old) }
    ensures { Code.AreRowsFilled page row stride remaining.old out.old lost.old result remaining.new out.new
        lost.new }
{
    let mut row = row;
    let mut count = 0;
    let mut used = 0;
    let mut stretches = 0;
    while !is_full(out.len(), used, stride, stretches, lost.len()) {
        let ahead = next_found(remaining, page, row);
        stretches = put_stretch(ahead.lost, lost, stretches);
        row = ahead.row;
        if !ahead.found {
            return Filled {
                cursor: Cursor { page, row },
                count,
                used: stretches,
                stop: Stop::Ended(End::EndOfPages),
            };
        }
        used = put_in_stride(remaining.row(), stride, out, used);
        count += 1;
    }
    Filled {
        cursor: Cursor { page, row },
        count,
        used: stretches,
        stop: Stop::Done,
    }
}

/// Why nothing is looked for at a place: no row or no stretch has room, or the page has no row
/// there.
fn stop_before_left(
    form: &PageForm,
    place: &FaxPlace,
    stride: usize,
    len: usize,
    room: usize,
) -> Option<Stop>
    requires { 0 < form.now.rows_per_strip }
    ensures { Code.IsStopBefore form.now place.now stride len room result }
{
    if stride < packed_len(form.width) || is_full(len, 0, stride, 0, room) {
        Some(Stop::NoRoom)
    } else if place.row == form.rows {
        Some(Stop::Ended(End::EndOfPages))
    } else if place.row > form.rows || (place.runs == 0 && place.row % form.rows_per_strip != 0) {
        Some(Stop::Ended(End::Outside))
    } else {
        None
    }
}

/// Reports the place after the rows that were written of a page with so many.
fn tell_left_after(
    remaining: &RowsFrom,
    rows: u32,
    cursor: Cursor,
    place: &mut FaxPlace,
    runs: &mut [u32],
)
    requires file { length remaining.now.file ≤ 536870911 }
    requires room { 65536 ≤ length runs.old }
    requires rows { rows ≡ remaining.now.here.form.rows }
    requires cursor { cursor.row ≡ Walk.upcoming_row remaining.now }
    requires ends { Code.EndsOrGoesOn remaining.now }
    ensures { Code.IsToldAfter remaining.now cursor place.new runs.old runs.new }
{
    *place = FaxPlace::at(cursor);
    if cursor.row == rows {
        return;
    }
    let Some(lent) = remaining.place() else {
        return;
    };
    place.bits = lent.bits;
    place.runs = put_all_runs(lent.reference, runs);
}

/// How many bits of its strip stand before a place: none where it has no runs.
fn bits_before(place: &FaxPlace) -> u32
    ensures none { place.now.runs ≡ 0 → result ≡ 0 }
    ensures some { place.now.runs ≢ 0 → result ≡ place.now.bits }
{
    if place.runs == 0 { 0 } else { place.bits }
}

/// Writes what is left of a page from a place on, which is then the one after it.
fn salvage_page(
    alloc: Global,
    found: DamagedPage,
    place: &mut FaxPlace,
    runs: &mut [u32],
    stride: usize,
    out: &mut [u8],
    lost: &mut [FaxLost],
) -> Filled
    requires file { length found.file ≤ 536870911 }
    requires room { 65536 ≤ length runs.old }
    ensures { Spec.WritesFrom found.entry.file found.entry.here stride
        (record { place = place.old; runs = runs.old; raster = out.old; lost = lost.old }) result
        (record { place = place.new; runs = runs.new; raster = out.new; lost = lost.new }) }
{
    let cursor = place.cursor();
    let form = found.form();
    if let Some(stop) = stop_before_left(&form, place, stride, out.len(), lost.len()) {
        return Filled::nothing(cursor, stop);
    }
    let Some(before) = row_before(place, runs) else {
        return Filled::nothing(cursor, Stop::Ended(End::Outside));
    };
    let bits = bits_before(place);
    match found.rows_from(alloc, place.row, bits, before) {
        Ok(mut remaining) => {
            let filled = fill_left_from(&mut remaining, place.page, place.row, stride, out, lost);
            remaining.lemma_rows_left();
            tell_left_after(&remaining, form.rows, filled.cursor, place, runs);
            filled
        }
        Err(PlaceFault::Memory) => Filled::nothing(cursor, Stop::Memory),
        Err(PlaceFault::Outside) => Filled::nothing(cursor, Stop::Ended(End::Outside)),
    }
}

/// Writes what is left of a file's page from a place on, as much as has room, and leaves there the
/// place after it: the rows that are found, one after another, and the stretches of those that are
/// lost.
#[unsafe(no_mangle)]
pub extern "C" fn faxpages_salvage_from(
    alloc: Global,
    file: &[u8],
    place: &mut FaxPlace,
    runs: &mut [u32],
    out: &mut [u8],
    stride: usize,
    lost: &mut [FaxLost],
    told: &mut FaxTold,
) -> u32
    ensures { Spec.TellsSalvagedFrom file.now stride
        (record { place = place.old; runs = runs.old; raster = out.old; lost = lost.old })
        (record { place = place.new; runs = runs.new; raster = out.new; lost = lost.new }) told.old
        told.new result }
{
    if file.len() > MOST_BYTES || runs.len() < MOST_RUNS {
        return status::NO_OPTIONS;
    }
    match DamagedPage::at(file, place.page) {
        Ok(found) => salvage_page(alloc, found, place, runs, stride, out, lost).fill_result(told),
        Err(end) => Filled::nothing(place.cursor(), Stop::Ended(end)).fill_result(told),
    }
}
