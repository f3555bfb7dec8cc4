//! What is left of a damaged page or strip, in a raster, and the rows that are lost.
ghost use Rattle.std.specs.Prelude.{◌≡◌, ◌<◌, ◌≤◌, ◌+◌, ◌*◌, false, length, replicate, Some, true};
ghost use Rattle.fax_bits.specs.Bits.{bits};
ghost use Rattle.fax_page.specs.views.Strip.{IsStripForm};
ghost use Rattle.fax_rows.specs.Coded as Coded;
ghost use Rattle.fax_walk.specs.code.SalvagePage as Walk;
ghost use Rattle.fax_c.specs.code.CallSteps.{IsPutAt};
ghost use Rattle.fax_c.specs.code.SalvagedRaster as Code;
ghost use Rattle.fax_c.specs.views.SalvagedRaster as Spec;

use crate::faults::fault_number;
use crate::fill::{Filled, Stop};
use crate::forms::FaxForm;
use crate::places::FaxPlace;
use crate::raster::{packed_len, put_in_stride, put_zeros_to};
use crate::status;
use crate::strip_form::FaxStrip;
use crate::strip_rows::readable_form;
use crate::told::FaxTold;
use crate::uncounted_strip::{tell_end, uncounted_form};
use fax_files::Cause;
use fax_page::{RowsEnd, StripForm};
use fax_walk::{Cursor, DamagedPage, LostRows, SalvagedPart, SalvagedRows};
use std::alloc::Global;

/// Rows of a page or a strip that are lost, one after another.
#[repr(C)]
#[derive(Clone, Copy)]
pub struct FaxLost {
    /// The first of them, from 0.
    pub row: u32,
    /// How many they are.
    pub rows: u32,
    /// The number of the fault for which the first of them is lost.
    pub fault: u32,
}

impl FaxLost {
    ghost use Rattle.fax_c.specs.code.SalvagedRaster.{stretch_lost};

    /// A stretch as it stands in memory of the caller.
    fn of(stretch: &LostRows) -> Self
        ensures { result ≡ stretch_lost stretch.now }
    {
        FaxLost {
            row: stretch.row,
            rows: stretch.rows,
            fault: fault_number(stretch.cause),
        }
    }
}

/// Writes a stretch that has ended, if one has, after so many others, where it has room, and
/// returns how many there are now.
pub(crate) fn put_stretch(ended: Option<LostRows>, lost: &mut [FaxLost], count: usize) -> usize
    requires { count ≤ 1000000 }
    ensures { Code.IsStretchPut ended lost.old count result lost.new }
{
    let Some(stretch) = ended else {
        return count;
    };
    if count < lost.len() {
        lost[count] = FaxLost::of(&stretch);
    }
    count + 1
}

/// Whether so many bytes hold so many rows of a raster, each in so many bytes.
fn holds_rows(len: usize, width: u32, rows: u32, stride: usize) -> bool
    ensures some { result ≡ true → Spec.HoldsRows len width rows stride }
    ensures none { result ≡ false → Spec.HoldsRows len width rows stride → ⊥ }
{
    if stride < packed_len(width) {
        return false;
    }
    match (rows as usize).checked_mul(stride) {
        Some(all) => all <= len,
        None => false,
    }
}

/// Writes so many rows that are lost into a raster that has room for them, and returns where they
/// end.
fn put_lost(rows: u32, stride: usize, out: &mut [u8], at: usize) -> usize
    requires room { at + rows * stride ≤ length out.old }
    ensures { IsPutAt (replicate (rows * stride) 0) out.old at (Some result) out.new }
{
    let to = at + rows as usize * stride;
    put_zeros_to(out, at, to);
    to
}

/// Why no more is written, where so many stretches have room.
fn stop_after(stretches: usize, room: usize) -> Stop
    ensures { Spec.StopsAfterLost stretches room result }
{
    if stretches <= room {
        Stop::Done
    } else {
        Stop::NoRoom
    }
}

/// Writes all rows that are left into a raster that has room for them, and the first stretches that
/// are lost, as many as have room.
fn fill_left(
    remaining: &mut SalvagedRows,
    page: u32,
    stride: usize,
    out: &mut [u8],
    lost: &mut [FaxLost],
) -> Filled
    requires origin { remaining.old.row ≡ 0 }
    requires few { remaining.old.rows ≤ 1000000 }
    requires short { Coded.packed_len remaining.old.width ≤ stride }
    requires room { remaining.old.rows * stride ≤ length out.old }
    ensures { Code.AreAllWritten remaining.old page stride out.old lost.old result out.new lost.new }
{
    fax_walk::laws::rows_are_left_in_one_way();
    let mut row = 0;
    let mut at = 0;
    let mut count = 0;
    let mut ended = None;
    while let Some(part) = remaining.next_part() {
        match part {
            SalvagedPart::Found => {
                at = put_in_stride(remaining.row(), stride, out, at);
                count = put_stretch(ended, lost, count);
                ended = None;
                row += 1;
            }
            SalvagedPart::Lost { rows, cause } => {
                at = put_lost(rows, stride, out, at);
                ended = Some(LostRows::longer(ended, page, row, rows, cause));
                row += rows;
            }
        }
    }
    let used = put_stretch(ended, lost, count);
    Filled {
        cursor: Cursor { page, row },
        count: row as usize,
        used,
        stop: stop_after(used, lost.len()),
    }
}

/// Where rows of unknown height end that are salvaged up to a cursor: at the last one, which is
/// lost,
/// where no EOL is left after it, and else after the last one.
fn end_place(cursor: Cursor, end: RowsEnd) -> FaxPlace
    ensures { result ≡ Spec.end_place cursor end }
{
    let row = match end {
        RowsEnd::Fault(_) => cursor.row.saturating_sub(1),
        RowsEnd::Marked | RowsEnd::DataEnd | RowsEnd::TooMany => cursor.row,
    };
    FaxPlace::at(Cursor { row, ..cursor })
}

/// Reports what was written of rows of unknown height, and how they end, where all stretches that
/// are lost had room.
fn tell_left(filled: &Filled, end: RowsEnd, told: &mut FaxTold) -> u32
    requires { Code.IsDoneOrFull filled.now.stop }
    ensures { Spec.IsLeftTold filled.now end told.new result }
{
    if filled.stop.is_no_room() {
        return filled.fill_result(told);
    }
    tell_end(filled, &end_place(filled.cursor, end), end, told)
}

/// Writes what is left of a strip of unknown height into a raster, and the rows that are lost.
fn salvage_uncounted(
    alloc: Global,
    strip: &[u8],
    form: StripForm,
    out: &mut [u8],
    stride: usize,
    lost: &mut [FaxLost],
    told: &mut FaxTold,
) -> u32
    requires count { length strip.now ≤ 536870911 }
    requires limits { IsStripForm form }
    ensures { Spec.WritesUncounted form (bits form.order strip.now) stride
        (record { raster = out.old; lost = lost.old }) (record { raster = out.new; lost = lost.new })
        told.new result }
{
    fax_walk::laws::rows_are_left_in_one_way();
    let nothing = Cursor { page: 0, row: 0 };
    let Ok(mut found) = SalvagedRows::of_uncounted(alloc, strip, form) else {
        return Filled::nothing(nothing, Stop::Memory).fill_result(told);
    };
    let row = found.rows;
    if !holds_rows(out.len(), form.width, row, stride) {
        return Filled::nothing(Cursor { page: 0, row }, Stop::NoRoom).fill_result(told);
    }
    let filled = fill_left(&mut found.rows_left, 0, stride, out, lost);
    tell_left(&filled, found.end, told)
}

/// Writes what is left of a file's page into a raster, and the rows that are lost, and says the
/// page's form.
#[unsafe(no_mangle)]
pub extern "C" fn faxpages_salvage(
    alloc: Global,
    file: &[u8],
    page: u32,
    form: &mut FaxForm,
    out: &mut [u8],
    stride: usize,
    lost: &mut [FaxLost],
    told: &mut FaxTold,
) -> u32
    ensures { Spec.TellsSalvaged file.now page stride form.old form.new
        (record { raster = out.old; lost = lost.old }) (record { raster = out.new; lost = lost.new })
        told.new result }
{
    // All rows are written or none, and all lost stretches are counted, also where the table has
    // room for fewer: so a caller knows how large it has to be. (rows + 1) / 2 lines are always
    // enough.
    let cursor = Cursor { page, row: 0 };
    let found = match DamagedPage::at(file, page) {
        Ok(found) => found,
        Err(end) => return Filled::nothing(cursor, Stop::Ended(end)).fill_result(told),
    };
    let its = found.form();
    *form = FaxForm::of(&its);
    if !holds_rows(out.len(), its.width, its.rows, stride) {
        return Filled::nothing(cursor, Stop::NoRoom).fill_result(told);
    }
    match found.rows(alloc) {
        Ok(mut remaining) => fill_left(&mut remaining, page, stride, out, lost).fill_result(told),
        Err(_memory) => Filled::nothing(cursor, Stop::Memory).fill_result(told),
    }
}

/// Writes what is left of a strip into a raster, and the rows that are lost; where the height is
/// unknown, up to their end.
#[unsafe(no_mangle)]
pub extern "C" fn faxpages_salvage_strip(
    alloc: Global,
    strip: &[u8],
    form: &FaxStrip,
    out: &mut [u8],
    stride: usize,
    lost: &mut [FaxLost],
    told: &mut FaxTold,
) -> u32
    ensures { Spec.TellsStripSalvaged
        (record { strip = strip.now; form = form.now; stride = stride })
        (record { raster = out.old; lost = lost.old }) (record { raster = out.new; lost = lost.new })
        told.old told.new result }
{
    let Some(form) = readable_form(strip, form) else {
        let Some(form) = uncounted_form(strip, form) else {
            return status::NO_OPTIONS;
        };
        return salvage_uncounted(alloc, strip, form, out, stride, lost, told);
    };
    let cursor = Cursor { page: 0, row: 0 };
    if !holds_rows(out.len(), form.width, form.rows, stride) {
        return Filled::nothing(cursor, Stop::NoRoom).fill_result(told);
    }
    match SalvagedRows::of_strip(alloc, strip, form) {
        Ok(mut remaining) => fill_left(&mut remaining, 0, stride, out, lost).fill_result(told),
        Err(_memory) => Filled::nothing(cursor, Stop::Memory).fill_result(told),
    }
}
