//! The runs of rows, and their changing elements.
ghost use Rattle.fax_rows.specs.Rows.{runs_of};
ghost use Rattle.fax_walk.specs.declared.walk_start.WalkStart.TheVariants.{AtCursor};
ghost use Rattle.fax_c.specs.Changes.{changes_of};
ghost use Rattle.fax_c.specs.views.Filled as Spec;
ghost use Rattle.fax_c.specs.views.Places as PlaceSpec;

use crate::format::{Changes, Runs};
use crate::places::FaxPlace;
use crate::rows::{FaxRow, fill_at, fill_from};
use crate::told::FaxTold;
use fax_walk::Cursor;
use std::alloc::Global;

/// Writes the runs of rows of a file from a cursor on, as `faxpages_rows` writes their bytes.
#[unsafe(no_mangle)]
pub extern "C" fn faxpages_runs(
    alloc: Global,
    file: &[u8],
    page: u32,
    row: u32,
    rows: &mut [FaxRow],
    out: &mut [u32],
    told: &mut FaxTold,
) -> u32
    ensures { Spec.TellsRows runs_of file.now (AtCursor (record { page = page; row = row })) rows.old
        out.old rows.new out.new told.new result }
{
    fill_at::<Runs>(alloc, file, Cursor { page, row }, rows, out, told)
}

/// Writes the runs of rows of a file from a place on, which is then the one after them.
#[unsafe(no_mangle)]
pub extern "C" fn faxpages_runs_from(
    alloc: Global,
    file: &[u8],
    place: &mut FaxPlace,
    runs: &mut [u32],
    rows: &mut [FaxRow],
    out: &mut [u32],
    told: &mut FaxTold,
) -> u32
    ensures { PlaceSpec.GoesOn runs_of file.now
        (record { place = place.old; runs = runs.old; rows = rows.old; out = out.old })
        (record { place = place.new; runs = runs.new; rows = rows.new; out = out.new }) told.new
        result }
{
    fill_from::<Runs>(alloc, file, place, runs, rows, out, told)
}

/// Writes the changing elements of rows of a file from a cursor on.
#[unsafe(no_mangle)]
pub extern "C" fn faxpages_changes(
    alloc: Global,
    file: &[u8],
    page: u32,
    row: u32,
    rows: &mut [FaxRow],
    out: &mut [u32],
    told: &mut FaxTold,
) -> u32
    ensures { Spec.TellsRows changes_of file.now (AtCursor (record { page = page; row = row })) rows.old
        out.old rows.new out.new told.new result }
{
    fill_at::<Changes>(alloc, file, Cursor { page, row }, rows, out, told)
}

/// Writes the changing elements of rows of a file from a place on, which is then the one after
/// them.
#[unsafe(no_mangle)]
pub extern "C" fn faxpages_changes_from(
    alloc: Global,
    file: &[u8],
    place: &mut FaxPlace,
    runs: &mut [u32],
    rows: &mut [FaxRow],
    out: &mut [u32],
    told: &mut FaxTold,
) -> u32
    ensures { PlaceSpec.GoesOn changes_of file.now
        (record { place = place.old; runs = runs.old; rows = rows.old; out = out.old })
        (record { place = place.new; runs = runs.new; rows = rows.new; out = out.new }) told.new
        result }
{
    fill_from::<Changes>(alloc, file, place, runs, rows, out, told)
}
