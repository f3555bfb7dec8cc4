//! A reader of strips.
ghost use Rattle.std.specs.Prelude.{◌≡◌, ◌*◌, ◌<◌, ◌≤◌, length, IfOk, IfSome, None};
ghost use Rattle.std.specs.Borrow.{sem};

use crate::lines::{begins_below_eleven, line_fault, next_eol, read_start};
use crate::row_buffers::{RowBuffers, is_row};
use crate::uncounted::classify_end;
use crate::{Coding, Dimension, PlaceFault, ReferenceRow, RowsEnd, StripFault, StripForm};
use fax_bits::laws::bits_stand_by_index;
use fax_rows::{BitSource, Memory, Row};
use std::alloc::Global;
use std::marker::Model;

/// Reads strips row by row, one strip after another. Contracts see how far a strip is read: its
/// form, its bytes, the place in bits and the number of the next row, how many rows the reader
/// answered, the row before the next one, and the fault that was returned.
// The place of the next row stands apart from the source: after a fault the source stands anywhere,
// and the reader is as it was but for the fault.
#[derive(Drop)]
pub struct StripReader<'a> {
    bytes: &'a [u8],
    /// Where the next row begins; after a fault, anywhere.
    source: BitSource<'a>,
    form: StripForm,
    place: u64,
    row: u32,
    /// How many rows were read before the strip was started, and at which of its rows that was.
    read_before: u64,
    origin: u32,
    /// The row before the next one, and the one that it is read to.
    rows: RowBuffers,
    fault: Option<StripFault>,
}

impl<'a> Model for StripReader<'a> {
    ghost use Rattle.fax_page.specs.views.Reader.{StripState, rows_read};
    ghost use Rattle.fax_page.specs.code.Reader.{IsReading};

    ghost Value = { StripState };

    ghost view = { λ r. record {
      form = r.form;
      bytes = r.bytes.now;
      place = r.place;
      row = r.row;
      read = rows_read r.read_before r.origin r.row;
      reference = r.rows;
      fault = r.fault;
    } };

    ghost invariant = { λ r.
        IsReading r.form r.bytes.now r.source r.place r.origin r.row r.rows r.fault };
}

impl<'a> StripReader<'a> {
    ghost use Rattle.fax_page.specs.Strip.{most_rows};
    ghost use Rattle.fax_page.specs.views.Strip.{IsStripForm};
    ghost use Rattle.fax_page.specs.views.Reader.{strip_beginning, restarted, restarted_at};
    ghost use Rattle.fax_page.specs.views.Reader.{IsStartedInside};
    ghost use Rattle.fax_page.specs.views.Reader.{IsAdvance, bits_left};
    ghost use Rattle.fax_page.specs.Uncounted.{rows_end};
    ghost use Rattle.fax_page.specs.views.NextRow.{EndsAs, IsUpcoming, IsNextRow};
    ghost use Rattle.fax_page.specs.Lines.{white_row};
    ghost use Rattle.fax_page.specs.code.Salvage.{PassesLost, SaysTwoDimensional, SaysUnended};

    /// Before the first row of a strip in at most 4,294,967,295 bytes. It takes all the memory that
    /// the reading of strips of this width needs.
    ///
    /// # Errors
    ///
    /// `Memory` where a growth was refused.
    pub fn new(alloc: Global, bytes: &'a [u8], form: StripForm) -> Result<Self, Memory>
        requires count { length bytes.now ≤ 4294967295 }
        requires limits { IsStripForm form }
        ensures { IfOk result (λ reader. reader ≡ strip_beginning form bytes.now) }
    {
        let rows = RowBuffers::new(alloc, form.width)?;
        Ok(StripReader {
            bytes,
            source: BitSource::new(bytes, form.order),
            form,
            place: 0,
            row: 0,
            read_before: 0,
            origin: 0,
            rows,
            fault: None,
        })
    }

    /// Before row `row` of a strip in at most 4,294,967,295 bytes, after so many of its bits, with
    /// this row before it. It takes all the memory that the reading of strips of this width needs.
    ///
    /// # Errors
    ///
    /// `Outside` where the strip has fewer bits, or no row of its width has the runs of the row
    /// before. `Memory` where a growth was refused.
    pub fn inside(
        alloc: Global,
        bytes: &'a [u8],
        form: StripForm,
        row: u32,
        bits: u32,
        before: ReferenceRow,
    ) -> Result<Self, PlaceFault>
        requires count { length bytes.now ≤ 4294967295 }
        requires limits { IsStripForm form }
        requires upcoming { row < form.rows }
        ensures { IsStartedInside form bytes.now row bits before.entry result }
    {
        bits_stand_by_index();
        // The runs are looked at before memory is taken: a place that is none is reported so,
        // however little memory there is.
        let place = u64::from(bits);
        if place > 8 * bytes.len() as u64 || !is_row(before, form.width) {
            return Err(PlaceFault::Outside);
        }
        let mut rows = RowBuffers::new(alloc, form.width)?;
        if !rows.begin_after(before) {
            return Err(PlaceFault::Outside);
        }
        let mut source = BitSource::new(bytes, form.order);
        source.skip(place);
        Ok(StripReader {
            bytes,
            source,
            form,
            place,
            row,
            read_before: 0,
            origin: row,
            rows,
            fault: None,
        })
    }

    /// Goes before the first row of another strip of the same coding, order and width, with 1 to
    /// 1,000,000 rows in at most 4,294,967,295 bytes. A fault is forgotten, and the first row's
    /// reference is white (T.4, section 4.2.1.1; T.6, section 2.2.1). It takes no memory.
    pub fn restart(&mut self, bytes: &'a [u8], rows: u32)
        requires count { length bytes.now ≤ 4294967295 }
        requires some { 0 < rows }
        requires few { rows ≤ most_rows }
        ensures { self.new ≡ restarted self.old bytes.now rows }
    {
        self.read_before = self.rows_read();
        self.bytes = bytes;
        self.source = BitSource::new(bytes, self.form.order);
        self.form.rows = rows;
        self.place = 0;
        self.origin = 0;
        self.row = 0;
        self.rows.whiten_reference();
        self.fault = None;
    }

    /// Goes before row `row` of another strip of the same coding, order and width, with up to
    /// 1,000,000 rows in at most 4,294,967,295 bytes, after so many of its bits: the row that is
    /// read next begins there, over this reference, which has the same width. A fault is forgotten.
    /// It takes no memory.
    pub fn restart_at(&mut self, bytes: &'a [u8], rows: u32, row: u32, bits: u64, reference: &Row)
        requires count { length bytes.now ≤ 4294967295 }
        requires upcoming { row < rows }
        requires few { rows ≤ most_rows }
        requires within { bits ≤ 8 * length bytes.now }
        requires width { length reference.now ≡ self.old.form.width }
        ensures { self.new ≡ restarted_at self.old bytes.now rows row bits reference.now }
    {
        bits_stand_by_index();
        let mut source = BitSource::new(bytes, self.form.order);
        source.skip(bits);
        self.read_before = self.rows_read();
        self.bytes = bytes;
        self.source = source;
        self.form.rows = rows;
        self.place = bits;
        self.origin = row;
        self.row = row;
        self.rows.set_reference(reference);
        self.fault = None;
    }

    /// Reads the next row, and returns whether there was one. It takes no memory.
    ///
    /// # Errors
    ///
    /// Why the next row could not be read. Every later call returns the same, until
    /// `restart` or `restart_at`.
    #[inline(always)]
    pub fn advance(&mut self) -> Result<bool, StripFault>
        ensures { IsAdvance self.old result self.new }
    {
        // `next_row` does this and lends the row. The walk, which lends its rows too, calls
        // `advance` and then `reference`: the checker cannot follow a loan through two crates.
        bits_stand_by_index();
        crate::laws::lines_are_read_in_one_way();
        if let Some(fault) = self.fault {
            return Err(fault);
        }
        if self.row == self.form.rows {
            return Ok(false);
        }
        match self.rows.read(&mut self.source, self.form, self.row) {
            Ok(()) => {
                self.place = self.source.place();
                self.row += 1;
                Ok(true)
            }
            Err(why) => {
                let mut start = BitSource::new(self.bytes, self.form.order);
                start.skip(self.place);
                let fault = line_fault(start, self.form, self.row, why);
                self.fault = Some(fault);
                Err(fault)
            }
        }
    }

    /// The reference of the next row: the row before it, white at a strip's beginning. After a
    /// fault it is what it was before that call.
    pub fn reference(&self) -> &Row
        ensures pels { result.now ≡ self.now.reference }
        ensures width { length result.now ≡ self.now.form.width }
    {
        self.rows.reference()
    }

    /// Lends the next row, or answers `None` once all rows are read. It takes no memory. It is for
    /// other callers: a walk calls `advance`, and `reference` where it lends the row.
    ///
    /// # Errors
    ///
    /// Why the next row could not be read. Every later call returns the same, until
    /// `restart` or `restart_at`.
    pub fn next_row(&mut self) -> Result<Option<&Row>, StripFault>
        ensures row { IfOk result (λ lent. IfSome lent (λ row. IsUpcoming self.old row.now)) }
        ensures* next { sem 𝓛 (EndsAs self.entry (IsNextRow self.old result)) }
    {
        // The contract says plainly which row is lent (`IsUpcoming`), beside what the reader is
        // once the
        // row is given back: a caller that goes no further needs no more.
        if self.advance()? {
            Ok(Some(self.rows.reference()))
        } else {
            Ok(None)
        }
    }

    /// The number of the next row in its strip, from 0, or how many rows the strip has, once all
    /// are read. After a fault it is what it was before that call.
    pub fn row(&self) -> u32
        ensures row { result ≡ self.now.row }
        ensures within { result ≤ self.now.form.rows }
    {
        self.row
    }

    /// Whether a row is expected that is coded over the row before it. It is for readers of damaged
    /// strips.
    #[cold]
    pub(crate) fn is_two_dimensional(&self) -> bool
        requires { self.now.fault ≡ None }
        ensures { SaysTwoDimensional self.now.form self.now.row (bits_left self.now) result }
    {
        if self.row == self.form.rows {
            return false;
        }
        let mut ahead = self.source.fork();
        match read_start(&mut ahead, self.form.coding, self.row) {
            Ok(Dimension::TwoDimensional) => true,
            Ok(Dimension::OneDimensional) => false,
            Err(_fault) => false,
        }
    }

    /// Whether an EOL is expected after the row that was read last, and something else follows it:
    /// in MH and MR each row but a strip's last has an EOL after it, or nothing but zeros.
    #[inline(always)]
    pub(crate) fn is_unterminated(&self) -> bool
        requires { self.now.fault ≡ None }
        ensures { SaysUnended self.now.form self.now.row (bits_left self.now) result }
    {
        if self.form.coding == Coding::Mmr || self.row == self.form.rows {
            return false;
        }
        begins_below_eleven(&self.source)
    }

    /// Goes before row `row` of the same strip, or after its last one, after so many bits, over a
    /// white reference. A fault is forgotten. It takes no memory.
    fn go_to_row(&mut self, row: u32, bits: u64)
        requires row { row ≤ self.old.form.rows }
        requires within { bits ≤ 8 * length self.old.bytes }
        ensures { self.new ≡ restarted_at self.old self.old.bytes self.old.form.rows row bits
            (white_row self.old.form.width) }
    {
        bits_stand_by_index();
        let mut source = BitSource::new(self.bytes, self.form.order);
        source.skip(bits);
        self.read_before = self.rows_read();
        self.source = source;
        self.place = bits;
        self.origin = row;
        self.row = row;
        RowBuffers::whiten_reference(&mut self.rows);
        self.fault = None;
    }

    /// Continues after row `row`, which is lost and begins after so many bits: before the next row,
    /// at the next EOL, over a white reference; or after the strip's last row, where no EOL is
    /// left. How many rows are lost so is returned. It takes no memory.
    #[cold]
    #[inline(never)]
    pub(crate) fn resync_at_eol(&mut self, row: u32, bits: u64) -> u32
        requires row { row < self.old.form.rows }
        requires within { bits ≤ 8 * length self.old.bytes }
        ensures { PassesLost self.old row bits result self.new }
    {
        bits_stand_by_index();
        let rows = self.form.rows;
        let mut start = BitSource::new(self.bytes, self.form.order);
        start.skip(bits);
        match next_eol(start, self.form.coding, row) {
            Some(eol) => {
                self.go_to_row(row + 1, eol);
                1
            }
            None => {
                self.go_to_row(rows, bits);
                rows - row
            }
        }
    }

    /// How the rows of a strip of unknown height end before the next row, whose form has the most
    /// rows that a strip has, `MOST_ROWS`: after a fault with that one, if not well.
    #[cold]
    pub(crate) fn uncounted_end(&self) -> RowsEnd
        ensures { result
            ≡ rows_end self.now.form.coding self.now.row (bits_left self.now) self.now.fault }
    {
        bits_stand_by_index();
        let mut source = BitSource::new(self.bytes, self.form.order);
        source.skip(self.place);
        classify_end(&source, self.form.coding, self.row, self.fault)
    }

    /// How many bits of the strip stand before the next row. After a fault they are what they were
    /// before that call.
    pub fn bit_place(&self) -> u64
        ensures place { result ≡ self.now.place }
        ensures within { result ≤ 8 * length self.now.bytes }
    {
        self.place
    }

    /// How many bits of the strip are left from the next row on.
    pub(crate) fn bits_remaining(&self) -> u64
        ensures { result ≡ length (bits_left self.now) }
    {
        bits_stand_by_index();
        8 * self.bytes.len() as u64 - self.place
    }

    /// How many rows were read since `new`, over all restarts, up to the greatest number of 64
    /// bits.
    pub fn rows_read(&self) -> u64
        ensures { result ≡ self.now.read }
    {
        // A row adds one to `row` alone: what was read before is added up where a strip is started.
        // A walk adds what was read before its page, and counts itself only what it returned.
        self.read_before
            .saturating_add(u64::from(self.row - self.origin))
    }
}
