//! The two rows of a strip that is read: a row and the row before it.
ghost use Rattle.std.specs.Prelude.{◌≡◌, ◌<◌, false, length, IfOk, IfErr, IsTrue, List, OnErr};
ghost use Rattle.std.specs.Prelude.{OnOk};
ghost use Rattle.fax_bits.specs.declared.Colour.{Colour};
ghost use Rattle.fax_bits.specs.views.Source.{KeepsEnd};
ghost use Rattle.fax_bits.specs.Reading.{answered};
ghost use Rattle.fax_page.specs.Lines.{IsLine, read_codes as read_codes_of, white_row};
ghost use Rattle.fax_page.specs.code.LineStops.{IsLineStop};
ghost use Rattle.fax_page.specs.views.Reader.{IsBefore};

use crate::lines::{LineStop, read_codes, read_start, take_white};
use crate::{Dimension, ReferenceRow, StripForm};
use fax_rows::{BitSource, Memory, Row, RowFault};
use std::alloc::Global;
use std::marker::Model;

/// Whether some row of this width is the one before a place.
pub(crate) fn is_row(before: ReferenceRow, width: u32) -> bool
    requires some { 0 < width }
    ensures row { IsTrue result → (row : List Colour) × IsBefore width before.entry row }
    ensures none { result ≡ false → (row : List Colour) → IsBefore width before.entry row → ⊥ }
{
    match before {
        ReferenceRow::White => true,
        ReferenceRow::Runs(runs) => Row::has_runs(runs, width),
    }
}

/// Two rows of one width that take turns: one is the reference, and the next row is read to the
/// other, which is the reference then. Neither is moved. Contracts see the reference.
// There are two in MH too, where the row before is not looked at: one form of reader for all
// codings, at the price of a second row in memory. Which of them is the reference is one bit.
#[derive(Drop)]
pub(crate) struct RowBuffers {
    first: Row,
    second: Row,
    /// Whether the second one is the reference.
    swapped: bool,
}

impl Model for RowBuffers {
    ghost use Rattle.std.specs.Prelude.{◌≡◌, List, length};
    ghost use Rattle.fax_bits.specs.declared.Colour.{Colour};
    ghost use Rattle.fax_page.specs.code.Reader.{row_before};

    ghost Value = { List Colour };

    ghost view = { λ rows. row_before rows.swapped rows.first rows.second };

    ghost invariant = { λ rows. length rows.first ≡ length rows.second };
}

impl RowBuffers {
    /// Before the first row, whose reference is white.
    pub fn new(alloc: Global, width: u32) -> Result<Self, Memory>
        requires some { 0 < width }
        requires short { width < 65536 }
        ensures { IfOk result (λ rows. rows ≡ white_row width) }
    {
        let first = Row::white(alloc, width)?;
        let second = Row::white(alloc, width)?;
        Ok(RowBuffers {
            first,
            second,
            swapped: false,
        })
    }

    /// The reference of the next row.
    #[inline(always)]
    pub fn reference(&self) -> &Row
        ensures { result.now ≡ self.now }
    {
        if self.swapped {
            &self.second
        } else {
            &self.first
        }
    }

    /// Goes before a first row again.
    pub fn whiten_reference(&mut self)
        ensures { self.new ≡ white_row (length self.old) }
    {
        self.swapped = false;
        self.first.whiten();
    }

    /// Takes the pels of a row of the same width as the reference.
    pub fn set_reference(&mut self, row: &Row)
        requires { length row.now ≡ length self.old }
        ensures { self.new ≡ row.now }
    {
        self.swapped = false;
        self.first.set_from(row);
    }

    /// Goes after this row, which is the reference then, and returns whether there is one. Where
    /// there is none, nothing is said of the reference.
    pub fn begin_after(&mut self, before: ReferenceRow) -> bool
        ensures origin { IsTrue result → IsBefore (length self.old) before.entry self.new }
        ensures same_width { length self.new ≡ length self.old }
        ensures none { result ≡ false → (row : List Colour)
            → IsBefore (length self.old) before.entry row → ⊥ }
    {
        self.swapped = false;
        match before {
            ReferenceRow::White => {
                self.first.whiten();
                true
            }
            ReferenceRow::Runs(runs) => self.first.set_runs(runs),
        }
    }

    /// Reads the codes of a row that is coded so, which is the reference then. Where it cannot be
    /// read, the reference stays.
    #[inline(always)]
    fn read_codes(&mut self, source: &mut BitSource, dimension: Dimension) -> Result<(), RowFault>
        ensures read { read_codes_of dimension (length self.old) self.old source.old.remaining
            ≡ answered (λ _. self.new) result source.new.remaining }
        ensures kept { OnErr result (self.new ≡ self.old) }
        ensures same_width { length self.new ≡ length self.old }
        ensures same_end { KeepsEnd source.old source.new }
    {
        if self.swapped {
            read_codes(source, dimension, &self.second, &mut self.first)?;
        } else {
            read_codes(source, dimension, &self.first, &mut self.second)?;
        }
        self.swapped = !self.swapped;
        Ok(())
    }

    /// Reads row `i` of a strip, which is the reference then. Where it cannot be read, the
    /// reference stays. A white row after a white one is skipped, and nothing is put.
    #[inline(always)]
    pub fn read(&mut self, source: &mut BitSource, form: StripForm, i: u32) -> Result<(), LineStop>
        requires width { length self.old ≡ form.width }
        requires some_pels { 0 < form.width }
        ensures ok { OnOk result
            (IsLine form i self.old source.old.remaining self.new source.new.remaining) }
        ensures err { IfErr result (IsLineStop form i self.old source.old.remaining) }
        ensures kept { OnErr result (self.new ≡ self.old) }
        ensures same_width { length self.new ≡ length self.old }
        ensures same_end { KeepsEnd source.old source.new }
    {
        let dimension = match read_start(source, form.coding, i) {
            Ok(dimension) => dimension,
            Err(fault) => return Err(LineStop::Start(fault)),
        };
        if take_white(source, dimension, self.reference()) {
            return Ok(());
        }
        match self.read_codes(source, dimension) {
            Ok(()) => Ok(()),
            Err(cause) => Err(LineStop::Codes(cause)),
        }
    }
}
