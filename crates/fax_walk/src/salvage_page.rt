//! What is left of a page: rows, and stretches of rows that are lost.
ghost use Rattle.std.specs.Prelude.{◌≡◌, ◌<◌, IfOk, List, Ok};
ghost use Rattle.fax_walk.specs.Salvaged.{SalvagedItem};
ghost use Rattle.fax_files.specs.views.Page.{IsPageForm};
ghost use Rattle.fax_files.specs.views.Tiff.{form_of};
ghost use Rattle.fax_walk.specs.code.SalvagePage as Spec;

use crate::Place;
use crate::open_page::{row_for_exchange, set_exchanged};
use crate::salvage::{LostRows, SalvageItem};
use crate::salvage_rows::{SalvageRows, SalvagedPart};
use fax_bits::Memory;
use fax_files::{Cause, PageForm, Strips};
use fax_rows::Row;
use std::alloc::Global;
use std::marker::Model;

/// A page that is gone through. Contracts see its number, how far its rows are gone through, the
/// rows that are lost before the next one, whether a row that is found waits to be returned, and
/// the row that was found last, as it is returned.
#[derive(Drop)]
pub(crate) struct SalvagePage<'a> {
    page: u32,
    form: PageForm,
    rows: SalvageRows<'a>,
    /// The row of the next page.
    row: u32,
    /// The rows that are lost before that one, and not returned yet.
    lost: Option<LostRows>,
    /// Whether the row before that one is found, and not returned yet.
    waits: bool,
    /// Where colours are exchanged, if they are: the row that was found last, as it is returned.
    exchanged: Option<Row>,
}

impl<'a> Model for SalvagePage<'a> {
    ghost use Rattle.fax_walk.specs.code.SalvagePage.{SalvagePageState, IsGoneThrough, shown_of};

    ghost Value = { SalvagePageState };

    ghost view = { λ p. record {
      page = p.page;
      rows = p.rows;
      lost = p.lost;
      waits = p.waits;
      shown = shown_of p.rows p.exchanged;
    } };

    ghost invariant = { λ p.
        IsGoneThrough p.page p.form p.rows p.row p.lost p.waits p.exchanged };
}

impl<'a> SalvagePage<'a> {
    /// Before the first row of a page. It takes all the memory that the page needs.
    pub fn open(
        alloc: Global,
        page: u32,
        form: PageForm,
        strips: Strips<'a>,
    ) -> Result<Self, Memory>
        requires form { form_of strips.directory ≡ Ok form }
        requires limits { IsPageForm form }
        requires count { strips.count ≡ form.strips }
        ensures { IfOk result (Spec.IsPageStarted strips.entry.directory form page) }
    {
        let exchanged = row_for_exchange(alloc, &form)?;
        let rows = SalvageRows::begin(alloc, form, strips)?;
        Ok(SalvagePage {
            page,
            form,
            rows,
            row: 0,
            lost: None,
            waits: false,
            exchanged,
        })
    }

    /// Shows the row that was found last as it is returned.
    fn show(&mut self)
        ensures { Spec.Shows self.old self.new }
    {
        if let Some(row) = &mut self.exchanged {
            set_exchanged(row, self.rows.reference());
        }
    }

    /// The row before the next one, as it is returned.
    fn item(&self) -> SalvageItem
        requires { 0 < Spec.row_after self.now }
        ensures { result ≡ Spec.item_before self.now }
    {
        SalvageItem::Row(Place {
            page: self.page,
            row: self.row - 1,
        })
    }

    /// Returns what is next on the page, or `None` where nothing is left of it.
    pub fn next_item(&mut self) -> Option<SalvageItem>
        ensures { Spec.YieldsOfPage self.old result self.new }
    {
        if self.waits {
            self.waits = false;
            return Some(self.item());
        }
        while let Some(part) = self.rows.next_part() {
            match part {
                SalvagedPart::Found => {
                    self.row += 1;
                    self.show();
                    let Some(stretch) = self.lost else {
                        return Some(self.item());
                    };
                    self.lost = None;
                    self.waits = true;
                    return Some(SalvageItem::Lost(stretch));
                }
                SalvagedPart::Lost { rows, cause } => {
                    self.lost = Some(LostRows::longer(self.lost, self.page, self.row, rows, cause));
                    self.row += rows;
                }
            }
        }
        let Some(stretch) = self.lost else {
            return None;
        };
        self.lost = None;
        Some(SalvageItem::Lost(stretch))
    }

    /// Whether all strips up to the one that is gone through lie wholly in the file, and no row of
    /// them is lost so far.
    pub fn is_clean(&self) -> bool
        ensures { result ≡ self.now.rows.clean }
    {
        self.rows.is_clean()
    }

    /// Something is left of the page, or nothing: it computes nothing.
    pub fn lemma_items_left(&self)
        ensures { (items : List SalvagedItem) × Spec.IsLeftOnPage self.now items }
    {
        self.rows.lemma_rows_left();
    }

    /// The row that was found last, as it is returned.
    pub fn row(&self) -> &Row
        ensures { result.now ≡ self.now.shown }
    {
        match &self.exchanged {
            Some(row) => row,
            None => self.rows.reference(),
        }
    }
}
