//! What is left of a damaged strip: the rows that stand between its EOLs.
ghost use Rattle.std.specs.Prelude.{◌≤◌, length};

use crate::reader::StripReader;
use crate::{PlaceFault, ReferenceRow, RowsEnd, StripFault, StripForm};
use fax_rows::{Memory, Row};
use std::alloc::Global;
use std::marker::Model;

/// What became of the next row, and of those that are lost with it.
#[derive(Clone, Copy, Debug, PartialEq, Eq)]
pub enum Salvaged {
    /// The row is found: an EOL follows it, or nothing but zeros, or it is the strip's last one
    /// (T.4, section 4.1.2). In MMR each row that can be read is.
    Found,
    /// The row cannot be read, for this cause, or it is coded over a row that is lost, for the
    /// cause of that one. Where no EOL is left all rows from there on are lost.
    Lost {
        fault: StripFault,
        /// How many rows are lost, the next row among them.
        rows: u32,
    },
    /// The row can be read, and is lost all the same: something else than an EOL follows it.
    Unterminated {
        /// How many rows are lost, the next row among them.
        rows: u32,
    },
}

/// Goes through strips that may be damaged row by row, one strip after another. Contracts see how
/// far a strip is gone through: its form, the next row, the bits from there on, the row before it,
/// and why that one is lost, if it is.
#[derive(Drop)]
pub struct SalvageReader<'a> {
    reader: StripReader<'a>,
    /// Why the row before the next one is lost, if it is.
    before: Option<StripFault>,
}

impl<'a> Model for SalvageReader<'a> {
    ghost use Rattle.std.specs.Prelude.{◌≡◌, None};
    ghost use Rattle.fax_page.specs.code.Salvage.{salvaging};
    ghost use Rattle.fax_page.specs.views.Salvage.{SalvageState};

    ghost Value = { SalvageState };

    ghost view = { λ s. salvaging s.reader s.before };

    ghost invariant = { λ s. s.reader.fault ≡ None };
}

impl<'a> SalvageReader<'a> {
    ghost use Rattle.std.specs.Prelude.{◌≡◌, ◌<◌, IfOk, None};
    ghost use Rattle.fax_bits.specs.Bits.{bits};
    ghost use Rattle.fax_page.specs.Strip.{most_rows};
    ghost use Rattle.fax_page.specs.Uncounted.{rows_end};
    ghost use Rattle.fax_page.specs.code.Salvage.{IsOverLost, salvaging};
    ghost use Rattle.fax_page.specs.views.Salvage.{IsSalvageInside, IsSalvageStep};
    ghost use Rattle.fax_page.specs.views.Salvage.{salvage_beginning};
    ghost use Rattle.fax_page.specs.views.Strip.{IsStripForm};

    /// Before the next row in a strip, of which no fault was reported, and no row before it is
    /// lost.
    fn of(reader: StripReader<'a>) -> Self
        requires { reader.fault ≡ None }
        ensures { result ≡ salvaging reader.entry None }
    {
        SalvageReader {
            reader,
            before: None,
        }
    }

    /// Before the first row of a strip in at most 4,294,967,295 bytes. It takes all the memory that
    /// strips of this width need.
    ///
    /// # Errors
    ///
    /// `Memory` where a growth was refused.
    pub fn new(alloc: Global, bytes: &'a [u8], form: StripForm) -> Result<Self, Memory>
        requires count { length bytes.now ≤ 4294967295 }
        requires limits { IsStripForm form }
        ensures { IfOk result (λ s. s ≡ salvage_beginning form (bits form.order bytes.now)) }
    {
        Ok(SalvageReader::of(StripReader::new(alloc, bytes, form)?))
    }

    /// Before row `row` of a strip in at most 4,294,967,295 bytes, after so many of its bits, with
    /// this row before it, which is not lost. It takes all the memory that strips of this width
    /// need.
    ///
    /// # Errors
    ///
    /// `Outside` where the strip has fewer bits, or no row of its width has the runs of the row
    /// before. `Memory` where a growth was refused.
    pub fn inside(
        alloc: Global,
        bytes: &'a [u8],
        form: StripForm,
        row: u32,
        bits: u32,
        before: ReferenceRow,
    ) -> Result<Self, PlaceFault>
        requires count { length bytes.now ≤ 4294967295 }
        requires limits { IsStripForm form }
        requires upcoming { row < form.rows }
        ensures { IsSalvageInside form bytes.now row bits before.entry result }
    {
        let reader = StripReader::inside(alloc, bytes, form, row, bits, before)?;
        Ok(SalvageReader::of(reader))
    }

    /// Goes before the first row of another strip of the same coding, order and width, with 1 to
    /// 1,000,000 rows in at most 4,294,967,295 bytes. It takes no memory.
    pub fn restart(&mut self, bytes: &'a [u8], rows: u32)
        requires count { length bytes.now ≤ 4294967295 }
        requires some { 0 < rows }
        requires few { rows ≤ most_rows }
        ensures { self.new ≡ salvage_beginning (record self.old.form { rows = rows })
            (bits self.old.form.order bytes.now) }
    {
        self.reader.restart(bytes, rows);
        self.before = None;
    }

    /// What became of the next row, or `None` after the last one. It takes no memory. A row that is
    /// found is the reference then.
    #[inline(always)]
    pub fn next_salvaged(&mut self) -> Option<Salvaged>
        ensures { IsSalvageStep self.old result self.new }
    {
        let place = self.reader.bit_place();
        let row = self.reader.row();
        if let Some(fault) = self.lost_reference() {
            let rows = self.reader.resync_at_eol(row, place);
            return Some(Salvaged::Lost { fault, rows });
        }
        match self.reader.advance() {
            Ok(false) => None,
            Ok(true) => {
                if self.reader.is_unterminated() {
                    let rows = self.reader.resync_at_eol(row, place);
                    self.before = Some(StripFault::MissingEol);
                    return Some(Salvaged::Unterminated { rows });
                }
                self.before = None;
                Some(Salvaged::Found)
            }
            Err(fault) => {
                let rows = self.reader.resync_at_eol(row, place);
                self.before = Some(fault);
                Some(Salvaged::Lost { fault, rows })
            }
        }
    }

    /// Why the row before the next one is lost, where that one is coded over it.
    #[inline(always)]
    fn lost_reference(&self) -> Option<StripFault>
        ensures { IsOverLost self.now result }
    {
        let fault = self.before?;
        if self.reader.is_two_dimensional() {
            Some(fault)
        } else {
            None
        }
    }

    /// How the rows of a strip of unknown height end before the next row, or that they do not,
    /// `TooMany`.
    #[inline(always)]
    pub(crate) fn rows_end(&self) -> RowsEnd
        ensures { result ≡ rows_end self.now.form.coding self.now.row self.now.upcoming None }
    {
        self.reader.uncounted_end()
    }

    /// How many bits of the strip are left from the next row on.
    pub fn bits_remaining(&self) -> u64
        ensures { result ≡ length self.now.upcoming }
    {
        self.reader.bits_remaining()
    }

    /// The row that was found last, or a white one: the reference of the next row.
    pub fn reference(&self) -> &Row
        ensures pels { result.now ≡ self.now.reference }
        ensures width { length result.now ≡ self.now.form.width }
    {
        self.reader.reference()
    }

    /// The number of the next row in its strip, from 0, or how many rows the strip has, once it is
    /// gone through.
    pub fn row(&self) -> u32
        ensures { result ≡ self.now.row }
    {
        self.reader.row()
    }
}
