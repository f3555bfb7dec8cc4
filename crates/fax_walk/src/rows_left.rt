//! The rows that are left of a page, or of a strip with no file around it, one after another.
ghost use Rattle.std.specs.Prelude.{◌≡◌, ◌<◌, ◌≤◌, IfErr, IfOk, Err, Ok, length};
ghost use Rattle.fax_files.specs.views.Page.{IsPageForm};
ghost use Rattle.fax_walk.specs.Pages.{read_page};
ghost use Rattle.fax_walk.specs.code.SalvagedRows as Spec;

use crate::opening::UnopenedPage;
use crate::rows_from::RowsFrom;
use crate::salvage_rows::{SalvagedPart, part_of};
use crate::shown_rows::ShownRows;
use crate::{Cursor, End};
use fax_bits::Memory;
use fax_files::{PageForm, Received};
use fax_page::{PlaceFault, ReferenceRow, RowsEnd, SalvageReader, StripForm, UncountedSalvage};
use fax_rows::Row;
use std::alloc::Global;
use std::marker::Model;

/// What rows are left of.
#[derive(Drop)]
enum RowSource<'a> {
    Page(ShownRows<'a>),
    /// A strip of these bytes.
    Strip(SalvageReader<'a>, &'a [u8]),
    /// Rows of these bytes of unknown number, and how many they are.
    Uncounted(UncountedSalvage<'a>, &'a [u8], u32),
}

/// What becomes of the next row, or `None` after the last one.
fn next_of(remaining: &mut RowSource) -> Option<SalvagedPart>
    requires { Spec.IsGoneOver remaining.old }
    ensures { Spec.IsNextOf remaining.old result remaining.new }
{
    fax_page::laws::strips_are_salvaged_in_one_way();
    fax_page::laws::uncounted_rows_are_left_in_one_way();
    match remaining {
        RowSource::Page(its) => {
            let part = its.next_part();
            its.lemma_rows_left();
            part
        }
        RowSource::Strip(reader, _) => match reader.next_salvaged() {
            Some(salvaged) => Some(part_of(salvaged, true)),
            None => None,
        },
        RowSource::Uncounted(reader, _, _) => match reader.next_salvaged() {
            Ok(salvaged) => Some(part_of(salvaged, true)),
            Err(_end) => None,
        },
    }
}

/// A page of a file that may be damaged, found by its number. Contracts see its file, and where and
/// what it is.
#[derive(Drop)]
pub struct DamagedPage<'a> {
    upcoming: UnopenedPage<'a>,
}

impl<'a> Model for DamagedPage<'a> {
    ghost use Rattle.fax_walk.specs.code.Opening.{page_with};
    ghost use Rattle.fax_walk.specs.views.SalvagedRows.{FoundPage};

    ghost Value = { FoundPage };

    ghost view = { λ p. record {
      file = p.upcoming.directory.file;
      here = page_with p.upcoming.directory p.upcoming.form;
    } };
}

impl<'a> DamagedPage<'a> {
    ghost use Rattle.fax_files.specs.BadRows.{received};
    ghost use Rattle.fax_walk.specs.views.RowsFrom.{IsStartedFrom, IsNotStartedFrom};
    ghost use Rattle.fax_walk.specs.views.SalvagedRows.{IsFoundPage, IsRowsStart, of_page};

    /// The page of a file with this number, from 0, also after pages that are refused. It takes no
    /// memory.
    ///
    /// # Errors
    ///
    /// How the rows end there, where the file has no such page, or it is refused.
    pub fn at(file: &'a [u8], page: u32) -> Result<Self, End>
        ensures ok { IfOk result (IsFoundPage file.now page) }
        ensures err { IfErr result (λ end. (read_page file.now (record { page = page; row = 0 }) ≡ Err end)) }
    {
        match UnopenedPage::at(file, Cursor { page, row: 0 })? {
            Some(upcoming) => Ok(DamagedPage { upcoming }),
            None => Err(End::EndOfPages),
        }
    }

    /// Its form.
    pub fn form(&self) -> PageForm
        ensures form { result ≡ self.now.here.form }
        ensures limits { IsPageForm result }
    {
        self.upcoming.form
    }

    /// What its receiver counted of bad rows (RFC 2306, BadFaxLines, CleanFaxData and
    /// ConsecutiveBadFaxLines). It takes no memory, and no page is refused for these fields.
    pub fn received(&self) -> Received
        ensures { result ≡ received self.now.here.endian self.now.file self.now.here.offset }
    {
        self.upcoming.strips.directory().received()
    }

    /// Before the first of its rows. It takes all the memory that the page needs.
    ///
    /// # Errors
    ///
    /// `Memory` where a growth was refused.
    pub fn rows(self, alloc: Global) -> Result<SalvagedRows<'a>, Memory>
        ensures { IfOk result (IsRowsStart (of_page self.entry.file self.entry.here)
            self.entry.here.form.rows self.entry.here.form.width) }
    {
        let rows = ShownRows::open(alloc, self.upcoming.form, self.upcoming.strips)?;
        Ok(SalvagedRows {
            remaining: RowSource::Page(rows),
        })
    }

    /// Before row `row`, after so many of the bits that the file has of its strip, with this row
    /// before it. It takes all the memory that the page needs.
    ///
    /// # Errors
    ///
    /// `Outside` where the file has fewer bits of the strip, or no row of the page's width has the
    /// runs of the row before. `Memory` where a growth was refused.
    pub fn rows_from(
        self,
        alloc: Global,
        row: u32,
        bits: u32,
        before: ReferenceRow,
    ) -> Result<RowsFrom<'a>, PlaceFault>
        requires { row < self.here.form.rows }
        ensures ok { IfOk result (IsStartedFrom self.entry row bits before.entry) }
        ensures err { IfErr result (IsNotStartedFrom self.entry row bits before.entry) }
    {
        RowsFrom::open(
            alloc,
            self.upcoming.form,
            self.upcoming.strips,
            row,
            bits,
            before,
        )
    }
}

/// Goes through the rows of a page, or of a strip with no file around it, and says of each whether
/// it is found or lost. Contracts see what the rows are left of, how many were passed, how many
/// they are, and the row that was found last.
#[derive(Drop)]
pub struct SalvagedRows<'a> {
    remaining: RowSource<'a>,
}

/// What is left of rows of a strip of unknown height.
#[derive(Drop)]
pub struct UncountedRows<'a> {
    /// The reader, before the first row.
    pub rows_left: SalvagedRows<'a>,
    /// How many rows they are, found or lost, at most 1,000,000.
    pub rows: u32,
    /// How they end.
    pub end: RowsEnd,
}

impl<'a> Model for SalvagedRows<'a> {
    ghost use Rattle.fax_walk.specs.code.SalvagedRows.{IsGoneOver, view_of};
    ghost use Rattle.fax_walk.specs.views.SalvagedRows.{RowsView};

    ghost Value = { RowsView };

    ghost view = { λ r. view_of r.remaining };

    ghost invariant = { λ r. IsGoneOver r.remaining };
}

impl<'a> SalvagedRows<'a> {
    ghost use Rattle.fax_bits.specs.Bits.{bits};
    ghost use Rattle.fax_page.specs.views.Strip.{IsStripForm};
    ghost use Rattle.fax_walk.specs.views.SalvagedRows.{IsNextPart, IsRowsStart, IsUncountedStart};
    ghost use Rattle.fax_walk.specs.views.SalvagedRows.{of_strip};

    /// Before the first row of a strip in at most 4,294,967,295 bytes. It takes all the memory that
    /// the strip needs.
    ///
    /// # Errors
    ///
    /// `Memory` where a growth was refused.
    pub fn of_strip(alloc: Global, bytes: &'a [u8], form: StripForm) -> Result<Self, Memory>
        requires count { length bytes.now ≤ 4294967295 }
        requires limits { IsStripForm form }
        ensures { IfOk result
            (IsRowsStart (of_strip form (bits form.order bytes.now)) form.rows form.width) }
    {
        let reader = SalvageReader::new(alloc, bytes, form)?;
        Ok(SalvagedRows {
            remaining: RowSource::Strip(reader, bytes),
        })
    }

    /// Before the first of the rows in at most 4,294,967,295 bytes of unknown number, with their
    /// number and their end. How many rows the form says does not matter. It takes all the memory
    /// that rows of this width need, and goes through the rows once to count them.
    ///
    /// # Errors
    ///
    /// `Memory` where a growth was refused.
    pub fn of_uncounted(
        alloc: Global,
        bytes: &'a [u8],
        form: StripForm,
    ) -> Result<UncountedRows<'a>, Memory>
        requires count { length bytes.now ≤ 4294967295 }
        requires limits { IsStripForm form }
        ensures { IfOk result (λ found. IsUncountedStart form (bits form.order bytes.now)
            found.rows_left found.rows found.end) }
    {
        fax_page::laws::uncounted_rows_are_left_in_one_way();
        let mut reader = UncountedSalvage::new(alloc, bytes, form)?;
        let end = reader.pass_all();
        let rows = reader.row();
        reader.restart(bytes);
        let remaining = RowSource::Uncounted(reader, bytes, rows);
        Ok(UncountedRows {
            rows_left: SalvagedRows { remaining },
            rows,
            end,
        })
    }

    /// What became of the next row, and of those that are lost with it, or `None` after the last
    /// one. It takes no memory.
    pub fn next_part(&mut self) -> Option<SalvagedPart>
        ensures { IsNextPart self.old result self.new }
    {
        crate::laws::rows_are_left_in_one_way();
        next_of(&mut self.remaining)
    }

    /// The row of the last part, where that is `Found`.
    pub fn row(&self) -> &Row
        ensures pels { result.now ≡ self.now.last }
        ensures width { length result.now ≡ self.now.width }
    {
        match &self.remaining {
            RowSource::Page(its) => its.row(),
            RowSource::Strip(reader, _) => reader.reference(),
            RowSource::Uncounted(reader, _, _) => reader.reference(),
        }
    }
}
