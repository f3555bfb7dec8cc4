//! What a conversion writes, page by page.
ghost use Rattle.std.specs.Prelude.{◌≡◌, ◌<◌, ◌^◌, OnOk, IfOk, IfErr};
ghost use Rattle.fax_walk.specs.declared.options.Options.{Options as Choice};
ghost use Rattle.fax_walk.specs.code.Output as Spec;
ghost use Rattle.fax_walk.specs.code.Output.{Progress};

use crate::open_strips::StripsWriter;
use crate::options::{ConvertFault, Options};
use crate::page_size::PageSize;
use crate::parts::SparseBytes;
use fax_bits::Memory;
use fax_files::{BadRows, Coding, MAX_FILE, TiffWriter, WriteFault};
use fax_rows::Row;
use std::alloc::Global;

/// The most bytes of what is written.
const MAX_OUTPUT: usize = MAX_FILE as usize;

/// The most pages of a TIFF file.
const MAX_PAGES: u16 = 65_535;

/// What is written, page by page.
// An output that is too large takes every row without doing anything, and stays so whatever
// follows. An image is measured before its rows are put, a page of a TIFF file when its strips are
// whole. How many pages there are is known, and reported in each, when all are written.
#[derive(Drop)]
pub(crate) enum Output {
    /// Images.
    Images(SparseBytes),
    /// A TIFF file, and the page of it that is being written, in this coding.
    File(Coding, TiffWriter, Option<StripsWriter>),
    /// It is too large, and its bytes were given back.
    TooLarge,
}

impl Output {
    /// The output before the first page.
    pub(crate) fn new(alloc: Global, options: &Options) -> Result<Self, Memory>
        ensures { IfOk result (Spec.IsBeginning options.now) }
    {
        let Some(coding) = options.target.coding() else {
            return Ok(Output::Images(SparseBytes::new(alloc)));
        };
        let writer = TiffWriter::new(alloc, MAX_PAGES)?;
        Ok(Output::File(coding, writer, None))
    }

    /// Begins a page.
    pub(crate) fn begin(
        &mut self,
        alloc: Global,
        options: &Options,
        sheet: &PageSize,
    ) -> Result<(), Memory>
        requires limits { Spec.IsSheet sheet.now }
        requires upcoming { (at : Progress) × Spec.IsUpcomingPage options.now self.old at }
        ensures { OnOk result (Spec.BeginsPage options.now self.old sheet.now self.new) }
    {
        fax_rows::laws::packing_undoes_unpacking();
        match self {
            Output::Images(parts) => {
                parts.put_head(sheet.width, sheet.rows)?;
                let row_len = (sheet.width as usize).div_ceil(8);
                let raster = (sheet.rows as usize).saturating_mul(row_len);
                if parts.len().saturating_add(raster) > MAX_OUTPUT {
                    *self = Output::TooLarge;
                }
            }
            Output::File(coding, writer, open) => {
                if writer.added() == MAX_PAGES {
                    *self = Output::TooLarge;
                    return Ok(());
                }
                let form = sheet.form(options, *coding);
                *open = Some(StripsWriter::new(alloc, form, options.k));
            }
            Output::TooLarge => {}
        }
        Ok(())
    }

    /// Writes the next row of the page.
    #[inline(always)]
    pub(crate) fn put_row(&mut self, row: &Row) -> Result<(), Memory>
        requires { Spec.TakesRow self.old row.now }
        ensures { OnOk result (Spec.PutsRow self.old row.now self.new) }
    {
        fax_rows::laws::packing_undoes_unpacking();
        match self {
            Output::Images(parts) => parts.put_row(row),
            Output::File(_, _, Some(page)) => page.put_row(row),
            Output::File(_, _, None) => Ok(()),
            Output::TooLarge => Ok(()),
        }
    }

    /// Writes the page's next rows, so many that are white and have this width, in time by the
    /// bytes
    /// that they become.
    pub(crate) fn put_white_rows(&mut self, width: u32, count: u32) -> Result<(), Memory>
        requires { Spec.TakesWhiteRows self.old width count }
        ensures { OnOk result (Spec.PutsWhiteRows self.old width count self.new) }
    {
        fax_rows::laws::packing_undoes_unpacking();
        match self {
            Output::Images(parts) => parts.put_white_rows(width, count),
            Output::File(_, _, Some(page)) => page.put_white_rows(count),
            Output::File(_, _, None) => Ok(()),
            Output::TooLarge => Ok(()),
        }
    }

    /// Ends the page, of which all rows were written, and which says these bad rows, if any are
    /// given.
    pub(crate) fn end(&mut self, bad: Option<BadRows>) -> Result<(), Memory>
        requires { Spec.HasAllRows self.old }
        ensures { OnOk result (Spec.EndsPage bad self.old self.new) }
    {
        fax_files::laws::totals_are_told();
        let Output::File(_, writer, open) = self else {
            return Ok(());
        };
        let Some(page) = open.take() else {
            return Ok(());
        };
        match writer.add_page_with(&page.form, &page.done, bad) {
            Ok(()) => Ok(()),
            Err(WriteFault::Memory) => Err(Memory),
            Err(WriteFault::OutputTooLarge) => {
                *self = Output::TooLarge;
                Ok(())
            }
        }
    }

    /// The bytes of all pages.
    pub(crate) fn finish(self, alloc: Global) -> Result<SparseBytes, ConvertFault>
        ensures ok { IfOk result (Spec.FinishesAs self) }
        ensures err { IfErr result (Spec.IsRefusedAs self) }
    {
        fax_files::laws::totals_are_told();
        match self {
            Output::Images(parts) => Ok(parts),
            Output::File(_, writer, _) => Ok(SparseBytes::of_bytes(alloc, writer.finish())),
            Output::TooLarge => Err(ConvertFault::OutputTooLarge),
        }
    }
}
