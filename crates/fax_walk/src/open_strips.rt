//! The strips of a page that is being written.
ghost use Rattle.std.specs.Prelude.{◌≡◌, ◌<◌, ◌≤◌, ◌++◌, [], ◌∷◌, List, length, OnOk, IfOk};
ghost use Rattle.fax_bits.specs.declared.Colour.{Colour};
ghost use Rattle.fax_page.specs.views.Strip.{IsStripForm};
ghost use Rattle.fax_files.specs.views.Page.{IsPageForm};
ghost use Rattle.fax_walk.specs.code.StripsWriter as Spec;

use fax_bits::Memory;
use fax_files::PageForm;
use fax_page::{StripForm, StripWriter};
use fax_rows::Row;
use std::alloc::Global;

/// A page of a TIFF file that is being written: the strips that are whole, and the one that is not.
#[derive(Drop)]
pub(crate) struct StripsWriter {
    alloc: Global,
    pub(crate) form: PageForm,
    k: u32,
    pub(crate) done: Vec<Vec<u8>>,
    writer: Option<StripWriter>,
    rows: u32,
}

impl StripsWriter {
    /// Before the first row.
    pub(crate) fn new(alloc: Global, form: PageForm, k: u32) -> Self
        requires limits { IsPageForm form }
        requires some_k { 0 < k }
        ensures { Spec.HasPutRows form k [] result }
    {
        StripsWriter {
            alloc,
            form,
            k,
            done: Vec::new(alloc),
            writer: None,
            rows: 0,
        }
    }

    /// Begins the strip of this form, which is the next one.
    #[inline(never)]
    fn begin_strip(&mut self, form: StripForm) -> Result<(), Memory>
        requires limits { IsStripForm form }
        requires some_k { 0 < self.old.k }
        ensures { OnOk result (Spec.BeginsStrip form self.old self.new) }
    {
        self.writer = Some(StripWriter::new(self.alloc, form, self.k)?);
        Ok(())
    }

    /// Begins the next strip, which has this number, where none is open.
    #[inline(always)]
    fn open_strip(&mut self, strip: u32) -> Result<(), Memory>
        requires number { strip ≡ length self.old.done.items }
        requires upcoming { (row : List Colour) × Spec.TakesRow self.old row }
        ensures { OnOk result (Spec.OpensStrip self.old self.new) }
    {
        fax_page::laws::strips_are_written_row_by_row();
        if let Some(_) = self.writer {
            return Ok(());
        }
        let form = self.form.strip_form(strip);
        self.begin_strip(form)
    }

    /// Writes the strip that is open, all rows of which were put.
    #[inline(never)]
    fn end_strip(&mut self) -> Result<(), Memory>
        requires { Spec.HasWholeStrip self.old }
        ensures { OnOk result (Spec.EndsStrip self.old self.new) }
    {
        let Some(writer) = self.writer.take() else {
            unreachable!();
        };
        self.done.push(writer.finish()?).map_err(|_| Memory)?;
        Ok(())
    }

    /// Writes the next row, and its strip where that is whole then. The strip's writer stays where
    /// it is between the strip's rows.
    pub(crate) fn put_row(&mut self, row: &Row) -> Result<(), Memory>
        requires { Spec.TakesRow self.old row.now }
        ensures { OnOk result (Spec.PutsRow self.old row.now self.new) }
    {
        fax_page::laws::strips_are_written_row_by_row();
        let strip = self.done.len() as u32;
        self.open_strip(strip)?;
        let Some(writer) = &mut self.writer else {
            unreachable!();
        };
        writer.put_row(row)?;
        self.rows += 1;
        let end = ((strip + 1) * self.form.rows_per_strip).min(self.form.rows);
        if self.rows == end {
            self.end_strip()?;
        }
        Ok(())
    }

    /// Writes white rows next, up to so many, as far as their strip goes, and the strip where that
    /// is whole then. Returns how many were written.
    fn put_white_part(&mut self, most: u32) -> Result<u32, Memory>
        requires some { 0 < most }
        requires upcoming { Spec.TakesWhiteRows self.old most }
        ensures some { IfOk result (λ count. 0 < count) }
        ensures few { IfOk result (λ count. count ≤ most) }
        ensures put { IfOk result (λ count. Spec.PutsWhiteRows self.old count self.new) }
    {
        fax_page::laws::strips_are_written_row_by_row();
        let strip = self.done.len() as u32;
        self.open_strip(strip)?;
        let Some(writer) = &mut self.writer else {
            unreachable!();
        };
        let end = ((strip + 1) * self.form.rows_per_strip).min(self.form.rows);
        let count = most.min(end - self.rows);
        writer.put_white_rows(count)?;
        self.rows += count;
        if self.rows == end {
            self.end_strip()?;
        }
        Ok(count)
    }

    /// Writes so many white rows next, strip after strip, in time by the bytes that they become.
    pub(crate) fn put_white_rows(&mut self, count: u32) -> Result<(), Memory>
        requires { Spec.TakesWhiteRows self.old count }
        ensures { OnOk result (Spec.PutsWhiteRows self.old count self.new) }
    {
        let mut remaining = count;
        while remaining > 0 {
            remaining -= self.put_white_part(remaining)?;
        }
        Ok(())
    }
}
