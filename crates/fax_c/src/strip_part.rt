//! Strips of which the first bytes are there, read, where more may follow.
ghost use Rattle.std.specs.Prelude.{◌≡◌, ◌≤◌, drop, false, length, IsTrue, Option};
ghost use Rattle.fax_bits.specs.Bits.{bits};
ghost use Rattle.fax_page.specs.declared.StripFault.{StripFault as TheFault};
ghost use Rattle.fax_c.specs.code.StripParts as Code;
ghost use Rattle.fax_c.specs.views.StripParts as Spec;

use crate::faults::FaxFault;
use crate::fill::{Filled, Stop};
use crate::places::{FaxPlace, MOST_RUNS};
use crate::status;
use crate::strip_form::FaxStrip;
use crate::strip_rows::{MOST_BYTES, read_strip};
use crate::told::FaxTold;
use crate::uncounted_strip::{end_at, form_of_rows, source_at, tell_read};
use fax_files::Cause;
use fax_page::{RowsEnd, StripFault, StripForm, may_be_end_mark};
use fax_walk::End;
use std::alloc::Global;

/// No strip that is read has more bits.
const MOST_BITS: u64 = 8 * MOST_BYTES as u64;

/// Whether a row is expected at a place that is after these bytes, and that a strip may reach.
fn is_ahead(strip: &[u8], form: StripForm, place: &FaxPlace) -> bool
    requires count { length strip.now ≤ 536870911 }
    ensures ahead { IsTrue result → Code.IsAhead form strip.now place.now }
    ensures within { result ≡ false → Code.IsAhead form strip.now place.now → ⊥ }
{
    let bits = u64::from(place.bits);
    place.row < form.rows && bits > 8 * strip.len() as u64 && bits <= MOST_BITS
}

/// Whether a stop may be another one where more bytes follow.
fn may_change(strip: &[u8], form: StripForm, place: &FaxPlace, stop: Stop) -> bool
    requires count { length strip.now ≤ 536870911 }
    ensures changes { IsTrue result → Code.StopMayChange form strip.now place.now stop }
    ensures stays { result ≡ false → Code.StopMayChange form strip.now place.now stop → ⊥ }
{
    match stop {
        Stop::Ended(
            End::Fault {
                cause: Cause::Strip(fault),
                ..
            },
        ) => fault == StripFault::DataEnds,
        Stop::Ended(End::Outside) => is_ahead(strip, form, place),
        _ => false,
    }
}

/// Whether rows of a strip of unknown height and that end so at a place may end otherwise where
/// more bytes follow: with an end mark, where one may stand there.
fn end_may_change(strip: &[u8], form: StripForm, place: &FaxPlace, end: RowsEnd) -> bool
    requires count { length strip.now ≤ 536870911 }
    ensures changes { IsTrue result → Spec.MayChange form.coding
        (drop place.now.bits (bits form.order strip.now)) end }
    ensures stays { result ≡ false → Spec.MayChange form.coding
        (drop place.now.bits (bits form.order strip.now)) end → ⊥ }
{
    match end {
        RowsEnd::DataEnd | RowsEnd::Fault(StripFault::DataEnds) => true,
        RowsEnd::TooMany | RowsEnd::Fault(StripFault::EndMarker) => {
            may_be_end_mark(&source_at(strip, form, place), form.coding)
        }
        RowsEnd::Marked
        | RowsEnd::Fault(
            StripFault::BadCode
            | StripFault::Extension
            | StripFault::RunTooLong
            | StripFault::OutOfRow
            | StripFault::MissingEol,
        ) => false,
    }
}

/// Whether what is reported of a strip up to a place may be something else where more bytes follow.
fn may_go_on(
    strip: &[u8],
    form: StripForm,
    place: &FaxPlace,
    stop: Stop,
    end: Option<RowsEnd>,
) -> bool
    requires count { length strip.now ≤ 536870911 }
    ensures changes { IsTrue result → Code.MayGoOn form strip.now place.now stop end }
    ensures stays { result ≡ false → Code.MayGoOn form strip.now place.now stop end → ⊥ }
{
    if may_change(strip, form, place, stop) {
        return true;
    }
    match end {
        Some(end) => end_may_change(strip, form, place, end),
        None => false,
    }
}

/// Reports what was written, and that more bytes are waited for.
fn tell_more(filled: &Filled, told: &mut FaxTold) -> u32
    ensures { Code.IsMoreTold filled.now told.new result }
{
    *told = FaxTold {
        count: filled.count,
        used: filled.used,
        page: filled.cursor.page,
        row: filled.cursor.row,
        fault: FaxFault::none(),
    };
    status::MORE
}

/// Reads rows of a strip of which the first bytes are there into a raster, as `faxpages_strip_rows`
/// does, where what is reported holds whatever bytes follow.
#[unsafe(no_mangle)]
pub extern "C" fn faxpages_strip_part(
    alloc: Global,
    strip: &[u8],
    form: &FaxStrip,
    place: &mut FaxPlace,
    runs: &mut [u32],
    out: &mut [u8],
    stride: usize,
    told: &mut FaxTold,
) -> u32
    ensures { Spec.TellsStripPart
        (record { strip = strip.now; form = form.now; stride = stride })
        (record { place = place.old; runs = runs.old; raster = out.old })
        (record { place = place.new; runs = runs.new; raster = out.new }) told.old told.new result }
{
    fax_page::laws::rows_stay_whatever_follows();
    fax_page::laws::ends_stay_whatever_follows();
    fax_bits::laws::bits_stand_by_index();
    if runs.len() < MOST_RUNS {
        return status::NO_OPTIONS;
    }
    let Some(its) = form_of_rows(strip, form) else {
        return status::NO_OPTIONS;
    };
    let filled = read_strip(alloc, strip, its, place, runs, stride, out);
    let end = end_at(strip, form, its, place, filled.stop);
    if may_go_on(strip, its, place, filled.stop, end) {
        return tell_more(&filled, told);
    }
    tell_read(&filled, place, end, told)
}
