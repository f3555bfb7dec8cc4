//! The rows of a page that are left, as they are returned.
ghost use Rattle.std.specs.Prelude.{◌≡◌, ◌<◌, ◌≤◌, IfErr, IfOk, List, Ok, length};
ghost use Rattle.fax_files.specs.views.Page.{IsPageForm};
ghost use Rattle.fax_files.specs.views.Tiff.{form_of};
ghost use Rattle.fax_walk.specs.Salvaged.{PageRow};
ghost use Rattle.fax_walk.specs.code.SalvageItems as RowSource;
ghost use Rattle.fax_walk.specs.code.ShownRows as Spec;

use crate::open_page::{row_for_exchange, set_exchanged};
use crate::salvage_rows::{SalvageRows, SalvagedPart, StripPositionRef};
use fax_bits::Memory;
use fax_files::{PageForm, Strips};
use fax_page::{PlaceFault, ReferenceRow};
use fax_rows::Row;
use std::alloc::Global;
use std::marker::Model;

/// The rows of a page that are gone through, with the row that was found last, as it is returned.
#[derive(Drop)]
pub(crate) struct ShownRows<'a> {
    rows: SalvageRows<'a>,
    /// Where colours are exchanged, if they are: the row that was found last, as it is returned.
    exchanged: Option<Row>,
}

impl<'a> Model for ShownRows<'a> {
    ghost use Rattle.fax_walk.specs.code.ShownRows.{ShownState, IsShown};
    ghost use Rattle.fax_walk.specs.code.SalvagePage.{shown_of};

    ghost Value = { ShownState };

    ghost view = { λ s. record { rows = s.rows; shown = shown_of s.rows s.exchanged } };

    ghost invariant = { λ s. IsShown s.rows s.exchanged };
}

impl<'a> ShownRows<'a> {
    /// Before the first row of a page. It takes all the memory that the page needs.
    pub fn open(alloc: Global, form: PageForm, strips: Strips<'a>) -> Result<Self, Memory>
        requires form { form_of strips.directory ≡ Ok form }
        requires limits { IsPageForm form }
        requires count { strips.count ≡ form.strips }
        ensures { IfOk result (λ s. RowSource.IsBeforeRows strips.entry.directory form s.rows) }
    {
        let exchanged = row_for_exchange(alloc, &form)?;
        let rows = SalvageRows::begin(alloc, form, strips)?;
        Ok(ShownRows { rows, exchanged })
    }

    /// Before row `row` of a page, after so many bits of its strip, with this row before it. It
    /// takes all the memory that the page needs.
    pub fn open_at(
        alloc: Global,
        form: PageForm,
        strips: Strips<'a>,
        row: u32,
        bits: u32,
        before: ReferenceRow,
    ) -> Result<Self, PlaceFault>
        requires form { form_of strips.directory ≡ Ok form }
        requires limits { IsPageForm form }
        requires count { strips.count ≡ form.strips }
        requires upcoming { row < form.rows }
        ensures ok { IfOk result
            (λ s. RowSource.StartsAt strips.entry.directory form row bits before.entry s.rows) }
        ensures err { IfErr result
            (RowSource.IsNotStartedAt strips.entry.directory form row bits before.entry) }
    {
        let rows = SalvageRows::begin_at(alloc, form, strips, row, bits, before)?;
        match row_for_exchange(alloc, &form) {
            Ok(exchanged) => Ok(ShownRows { rows, exchanged }),
            Err(_memory) => Err(PlaceFault::Memory),
        }
    }

    /// What becomes of the next row, or `None` after the page's last one.
    pub fn next_part(&mut self) -> Option<SalvagedPart>
        ensures { Spec.IsShownPart self.old result self.new }
    {
        let part = self.rows.next_part();
        if let Some(row) = &mut self.exchanged {
            set_exchanged(row, self.rows.reference());
        }
        part
    }

    /// Where the next row is read in its strip, as `SalvageRows::place` has it.
    pub fn place(&self) -> Option<StripPositionRef<'_>>
        requires { length self.now.rows.directory.file ≤ 536870911 }
        ensures { RowSource.IsPlaceOf self.now.rows result }
    {
        self.rows.place()
    }

    /// The row that was found last, as it is returned.
    pub fn row(&self) -> &Row
        ensures pels { result.now ≡ self.now.shown }
        ensures width { length result.now ≡ self.now.rows.form.width }
    {
        match &self.exchanged {
            Some(row) => row,
            None => self.rows.reference(),
        }
    }

    /// Rows are left of the page, or none: it computes nothing.
    pub fn lemma_rows_left(&self)
        ensures { (rows : List PageRow) × RowSource.AreRowsLeft self.now.rows rows }
    {
        self.rows.lemma_rows_left();
    }
}
