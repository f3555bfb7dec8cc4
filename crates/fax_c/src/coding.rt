//! Rows of a raster, coded as a strip.
ghost use Rattle.std.specs.Prelude.{◌≡◌, ◌<◌, ◌+◌, length, IfOk};
ghost use Rattle.fax_page.specs.Strip.{coded_strip};
ghost use Rattle.fax_page.specs.views.Strip.{IsStripForm};
ghost use Rattle.fax_c.specs.Raster as Raster;
ghost use Rattle.fax_c.specs.views.BareStrips as Spec;

use crate::cursors::put_counted;
use crate::raster::{holds_raster, packed_len};
use crate::status;
use crate::strip_form::FaxStrip;
use fax_page::{Memory, StripForm, StripWriter};
use fax_rows::Row;
use std::alloc::Global;

/// The rows of a raster from one on, coded as a strip.
pub(crate) fn code_strip(
    alloc: Global,
    form: StripForm,
    k: u32,
    raster: &[u8],
    stride: usize,
    first: u32,
) -> Result<Vec<u8>, Memory>
    requires limits { IsStripForm form }
    requires some_k { 0 < k }
    requires raster { Raster.HoldsRaster (length raster.now) form.width (first + form.rows) stride }
    ensures { IfOk result (λ bytes. bytes.items
        ≡ coded_strip form k (Raster.rows_of_raster form.width stride raster.now first form.rows)) }
{
    fax_page::laws::strips_are_written_row_by_row();
    let len = packed_len(form.width);
    let mut row = Row::white(alloc, form.width)?;
    let mut writer = StripWriter::new(alloc, form, k)?;
    for i in 0..form.rows {
        let at = (first as usize + i as usize) * stride;
        row.set_packed(&raster[at..at + len]);
        writer.put_row(&row)?;
    }
    writer.finish()
}

/// Codes the rows of a raster as a strip, writes it where it has room, and says how many bytes it
/// has.
#[unsafe(no_mangle)]
pub extern "C" fn faxpages_strip_code(
    alloc: Global,
    form: &FaxStrip,
    k: u32,
    raster: &[u8],
    stride: usize,
    out: &mut [u8],
    len: &mut usize,
) -> u32
    ensures { Spec.TellsStrip
        (record { form = form.now; k = k; raster = raster.now; stride = stride }) out.old out.new
        len.new result }
{
    *len = 0;
    let Some(form) = form.form() else {
        return status::NO_OPTIONS;
    };
    if k == 0 || !holds_raster(raster.len(), form.width, form.rows, stride) {
        return status::NO_OPTIONS;
    }
    match code_strip(alloc, form, k, raster, stride, 0) {
        Ok(strip) => put_counted(&strip, out, len),
        Err(_) => status::MEMORY,
    }
}
