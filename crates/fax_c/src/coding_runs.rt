//! Rows as runs, coded as a strip.
ghost use Rattle.std.specs.Prelude.{◌≡◌, ◌<◌, false, length, true, IfOk, List, MatchOption};
ghost use Rattle.fax_bits.specs.declared.Colour.{Colour};
ghost use Rattle.fax_page.specs.views.Strip.{IsStripForm};
ghost use Rattle.fax_c.specs.views.StripRuns as Spec;
ghost use Rattle.fax_c.specs.code.StripRuns as Code;

use crate::cursors::put_counted;
use crate::rows::FaxRow;
use crate::status;
use crate::strip_form::FaxStrip;
use fax_page::{Memory, StripForm, StripWriter};
use fax_rows::Row;
use std::alloc::Global;

/// Takes the pels of row `i` of a table, whose runs stand apart, and returns whether there is
/// such a row of this width.
fn take_row(row: &mut Row, rows: &[FaxRow], runs: &[u32], i: usize) -> bool
    ensures taken { result ≡ true → Spec.IsRowAt (length row.old) rows.now runs.now i row.new }
    ensures none { result ≡ false → (pels : List Colour)
        → Spec.IsRowAt (length row.old) rows.now runs.now i pels → ⊥ }
    ensures same_width { length row.new ≡ length row.old }
{
    if i >= rows.len() {
        return false;
    }
    let at = rows[i].at;
    let len = rows[i].len as usize;
    if at > runs.len() || len > runs.len() - at {
        return false;
    }
    row.set_runs(&runs[at..at + len])
}

/// The rows of a table, whose runs stand apart, coded as a strip, or none where one is no row of
/// its width.
fn code_rows(
    alloc: Global,
    form: StripForm,
    k: u32,
    rows: &[FaxRow],
    runs: &[u32],
) -> Result<Option<Vec<u8>>, Memory>
    requires limits { IsStripForm form }
    requires some_k { 0 < k }
    ensures { IfOk result (Code.IsStripOfRuns form k rows.now runs.now) }
{
    fax_page::laws::strips_are_written_row_by_row();
    let mut row = Row::white(alloc, form.width)?;
    let mut writer = StripWriter::new(alloc, form, k)?;
    for i in 0..form.rows {
        if !take_row(&mut row, rows, runs, i as usize) {
            return Ok(None);
        }
        writer.put_row(&row)?;
    }
    let strip = writer.finish()?;
    Ok(Some(strip))
}

/// Codes rows as runs, which lie where a table says, as a strip, writes it where it has room, and
/// says how many bytes it has.
#[unsafe(no_mangle)]
pub extern "C" fn faxpages_strip_code_runs(
    alloc: Global,
    form: &FaxStrip,
    k: u32,
    rows: &[FaxRow],
    runs: &[u32],
    out: &mut [u8],
    len: &mut usize,
) -> u32
    ensures { Spec.TellsStripOfRuns
        (record { form = form.now; k = k; table = rows.now; runs = runs.now }) out.old out.new
        len.new result }
{
    *len = 0;
    let Some(form) = form.form() else {
        return status::NO_OPTIONS;
    };
    if k == 0 {
        return status::NO_OPTIONS;
    }
    match code_rows(alloc, form, k, rows, runs) {
        Ok(Some(strip)) => put_counted(&strip, out, len),
        Ok(None) => status::NO_OPTIONS,
        Err(_) => status::MEMORY,
    }
}
