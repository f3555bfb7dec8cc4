//! The rows that are left of a page from a place on, one after another.
ghost use Rattle.std.specs.Prelude.{◌≡◌, ◌<◌, ◌≤◌, IfErr, IfOk, List, Ok, length};
ghost use Rattle.fax_files.specs.views.Page.{IsPageForm};
ghost use Rattle.fax_files.specs.views.Tiff.{form_of};
ghost use Rattle.fax_walk.specs.Salvaged.{PageRow};
ghost use Rattle.fax_walk.specs.code.SalvageItems as Code;

use crate::salvage_rows::{SalvagedPart, StripPositionRef};
use crate::shown_rows::ShownRows;
use fax_files::{PageForm, Strips};
use fax_page::{PlaceFault, ReferenceRow};
use fax_rows::Row;
use std::alloc::Global;
use std::marker::Model;

/// Goes through the rows of a page from a place on, and says of each whether it is found or lost.
/// Contracts see the page, and how far it is gone through.
#[derive(Drop)]
pub struct RowsFrom<'a> {
    rows: ShownRows<'a>,
}

impl<'a> Model for RowsFrom<'a> {
    ghost use Rattle.fax_walk.specs.code.SalvageItems.{seen_from};
    ghost use Rattle.fax_walk.specs.views.RowsFrom.{RowsFromView};

    ghost Value = { RowsFromView };

    ghost view = { λ r. seen_from r.rows.rows r.rows.shown };
}

impl<'a> RowsFrom<'a> {
    ghost use Rattle.fax_walk.specs.views.RowsFrom as Spec;

    /// Before row `row` of a page, after so many bits of its strip, with this row before it. It
    /// takes all the memory that the page needs.
    pub(crate) fn open(
        alloc: Global,
        form: PageForm,
        strips: Strips<'a>,
        row: u32,
        bits: u32,
        before: ReferenceRow,
    ) -> Result<Self, PlaceFault>
        requires form { form_of strips.directory ≡ Ok form }
        requires limits { IsPageForm form }
        requires count { strips.count ≡ form.strips }
        requires upcoming { row < form.rows }
        ensures ok { IfOk result (Spec.IsStartedFrom (Code.page_of strips.entry.directory form) row bits
            before.entry) }
        ensures err { IfErr result (Spec.IsNotStartedFrom (Code.page_of strips.entry.directory form) row
            bits before.entry) }
    {
        let rows = ShownRows::open_at(alloc, form, strips, row, bits, before)?;
        Ok(RowsFrom { rows })
    }

    /// What became of the next row, and of those that are lost with it, or `None` after the page's
    /// last one. It takes no memory.
    pub fn next_part(&mut self) -> Option<SalvagedPart>
        ensures { Spec.IsNextFrom self.old result self.new }
    {
        self.rows.next_part()
    }

    /// Where the next row is read in its strip, where the row before it is found; or `None` where
    /// its strip begins with it, or the page has no more. Then what is left from that place on is
    /// what is left now.
    pub fn place(&self) -> Option<StripPositionRef<'_>>
        requires { length self.now.file ≤ 536870911 }
        ensures { Spec.IsPlaceNow self.now result }
    {
        self.rows.place()
    }

    /// The row of the last part, where that is `Found`.
    pub fn row(&self) -> &Row
        ensures pels { result.now ≡ self.now.last }
        ensures width { length result.now ≡ self.now.here.form.width }
    {
        self.rows.row()
    }

    /// Rows are left of the page, or none: it computes nothing.
    pub fn lemma_rows_left(&self)
        ensures { (rows : List PageRow) × Spec.AreLeftNow self.now rows }
    {
        self.rows.lemma_rows_left();
    }
}
