//! A row of pels.
ghost use Rattle.std.specs.Prelude.{◌≡◌, ◌≢◌, ◌<◌, ◌^◌, false, List, length, replicate, map};
ghost use Rattle.std.specs.Prelude.{IfOk, IsTrue, ◌↔◌};
ghost use Rattle.std.specs.List.{filter, range_with_len};
ghost use Rattle.fax_rows.specs.Coded.{packed_len, packed_row};
ghost use Rattle.fax_rows.specs.Rows.{other as other_than, runs_of, is_changing, pel as pel_of};

use crate::change_list::ChangingElements;
use crate::changes_of_row::{changes_up_to, colour_after, copy_changes, invert, put_sentinels};
use crate::longest_runs::{LongestRuns, are_longest, put_runs};
use fax_bits::{Colour, Memory};
use std::alloc::Global;
use std::marker::Model;

/// A row of 1 to 65,535 pels. Contracts see the list of its pels, from left to right.
#[derive(Drop)]
pub struct Row {
    /// A 0, the places of change in ascending order, and at least three times the width.
    pub(crate) changes: Vec<u32>,
    /// The index after the last change.
    pub(crate) end: usize,
    pub(crate) width: u32,
}

impl Model for Row {
    ghost use Rattle.std.specs.Prelude.{List};
    ghost use Rattle.fax_bits.specs.declared.Colour.{Colour};
    ghost use Rattle.fax_rows.specs.code.ChangeLists.{row_of, AreChanges};

    ghost Value = { List Colour };

    ghost view = { λ row. row_of row.changes.items row.end row.width };

    ghost invariant = { λ row. AreChanges row.changes.items row.end row.width };
}

impl Row {
    ghost use Rattle.fax_rows.specs.code.ChangingElements.{element_pels};

    /// The row, lent as its places of change.
    #[inline(always)]
    pub(crate) fn elements(&self) -> ChangingElements<'_>
        ensures { element_pels result ≡ self.now }
    {
        ChangingElements {
            changes: &self.changes,
            end: self.end,
            width: self.width,
        }
    }

    /// A row of white pels, with all the memory that a row of this width can need.
    ///
    /// # Errors
    ///
    /// `Memory` where a growth was refused.
    pub fn white(alloc: Global, width: u32) -> Result<Row, Memory>
        requires some { 0 < width }
        requires short { width < 2 ^ 16 }
        ensures pels { IfOk result (λ row. row ≡ replicate width Colour.White) }
        ensures same_width { IfOk result (λ row. length row ≡ width) }
    {
        let mut changes = vec![in alloc; width; width as usize + 4].map_err(|_| Memory)?;
        changes[0] = 0;
        Ok(Row {
            changes,
            end: 1,
            width,
        })
    }

    /// How many pels the row has.
    pub fn width(&self) -> u32
        ensures length { result ≡ length self.now }

        // Each row has 1 to 65,535 pels.
        ensures some { 0 < result }
        ensures short { result < 2 ^ 16 }
    {
        self.width
    }

    /// The pel at place `i`, where 0 is the leftmost.
    pub fn pel(&self, i: u32) -> Colour
        requires { i < length self.now }
        ensures { result ≡ pel_of self.now i }
    {
        colour_after(changes_up_to(&self.changes, self.end, i))
    }

    /// The changing elements, from left to right (T.4, section 4.2.1.3.1).
    pub fn changes(&self) -> &[u32]
        ensures { result.now ≡ filter (is_changing self.now) (range_with_len 0 (length self.now)) }
    {
        &self.changes[1..self.end]
    }

    /// The lengths in pels of the longest runs, white first: 0 where the row begins black
    /// (T.4, section 4.1.1).
    ///
    /// # Errors
    ///
    /// `Memory` where a growth was refused.
    pub fn runs(&self, alloc: Global) -> Result<Vec<u32>, Memory>
        ensures { IfOk result (λ runs. runs.items ≡ runs_of self.now) }
    {
        let mut runs = Vec::new(alloc);
        let mut ahead = LongestRuns::of_row(self);
        while let Some(n) = ahead.next_run() {
            runs.push(n).map_err(|_| Memory)?;
        }
        Ok(runs)
    }

    /// Turns white pels black, and black ones white.
    pub fn exchange(&mut self)
        ensures { self.new ≡ map other_than self.old }
    {
        let changes = self.changes.as_mut_slice();
        self.end = invert(changes, self.end, self.width);
    }

    /// Takes the pels of a row of the same width. Mostly that row is white.
    pub fn set_from(&mut self, row: &Row)
        requires { length self.old ≡ length row.now }
        ensures { self.new ≡ row.now }
    {
        if row.end == 1 {
            return self.whiten();
        }
        let changes = self.changes.as_mut_slice();
        copy_changes(changes, &row.changes, row.end, self.width);
        self.end = row.end;
    }

    /// Whether some row of this width has these longest runs, white first.
    pub fn has_runs(runs: &[u32], width: u32) -> bool
        requires some { 0 < width }
        ensures row { IsTrue result
            → (row : List Colour) × (length row ≡ width) × (runs_of row ≡ runs.now) }
        ensures no_such_row { result ≡ false
            → (row : List Colour) → length row ≡ width → runs_of row ≢ runs.now }
    {
        are_longest(runs, width)
    }

    /// Takes the pels of the row of this width that has these longest runs, white first, and
    /// returns whether there is one. Where there is none, the row stays as it is. It takes no
    /// memory.
    pub fn set_runs(&mut self, runs: &[u32]) -> bool
        ensures set { IsTrue result → runs_of self.new ≡ runs.now }
        ensures same_width { length self.new ≡ length self.old }
        ensures unchanged { result ≡ false → self.new ≡ self.old }
        ensures no_such_row { result ≡ false
            → (row : List Colour) → length row ≡ length self.old → runs_of row ≢ runs.now }
    {
        if !are_longest(runs, self.width) {
            return false;
        }
        let changes = self.changes.as_mut_slice();
        let end = put_runs(changes, runs, self.width);
        self.end = put_sentinels(changes, end, self.width);
        true
    }

    /// Whether all pels are white. Then its packed bytes are zeros.
    #[inline(always)]
    pub fn is_white(&self) -> bool
        ensures white { IsTrue result ↔ (self.now ≡ replicate (length self.now) Colour.White) }
        ensures zeros { IsTrue result
            → packed_row self.now ≡ replicate (packed_len (length self.now)) 0 }
    {
        self.end == 1
    }

    /// Turns all pels white. It takes no memory.
    pub fn whiten(&mut self)
        ensures { self.new ≡ replicate (length self.old) Colour.White }
    {
        // It is public, so that a strip's reader is restarted without memory.
        let changes = self.changes.as_mut_slice();
        self.end = put_sentinels(changes, 1, self.width);
    }
}
