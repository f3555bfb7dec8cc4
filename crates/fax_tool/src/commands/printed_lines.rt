//! What is printed line by line: the rows of a file, or its pages.
ghost use Rattle.std.specs.Prelude.{◌≡◌, ◌<◌, ◌↔◌, ℕ, List, IfOk, None};
ghost use Rattle.fax_bits.specs.laws.Codes.{IsOne};
ghost use Rattle.fax_walk.specs.views.Walk.{start_place};
ghost use Rattle.fax_walk.specs.Items.{start_cursor};
ghost use Rattle.fax_walk.specs.declared.walk_start.WalkStart.{WalkStart};
ghost use Rattle.fax_walk.specs.declared.end.End.{End as TheEnd};
ghost use Rattle.fax_tool.specs.Text.{PrintedLine};
ghost use Rattle.fax_tool.specs.code.Printing as Spec;
ghost use Rattle.fax_tool.specs.code.Printing.{IsLinePut, IsNextAfter};

use crate::text::output_buffer::OutputBuffer;
use crate::text::page_line::put_page_line;
use crate::text::row_line::put_row_line;
use fax_bits::Memory;
use fax_walk::{Cursor, End, LongCursor, Pages, Walk, WalkFault};
use std::alloc::Global;

/// Lines that are printed one after another. Contracts see all of them and the end after them,
/// which no call changes, what they began with, how many were collected, and a number that each
/// line makes less.
pub trait Lines {
    ghost tail: { Self → List PrintedLine → TheEnd → Type 0 };

    ghost origin: { Self → WalkStart };

    ghost yielded: { Self → ℕ };

    ghost remaining: { Self → ℕ };

    /// The cursor after what the last line reported, or the one that the lines began with.
    fn cursor(&self) -> Cursor
        ensures { (next : WalkStart)
            × IsNextAfter (tail self.now) (origin self.now) (yielded self.now) next
            × (result ≡ start_cursor next) };

    /// The place inside a strip after what the last line reported, or the one that the lines began
    /// with, if there is one.
    fn long_cursor(&self, alloc: Global) -> Result<Option<LongCursor>, Memory>
        ensures { IfOk result (λ place. (next : WalkStart)
            × IsNextAfter (tail self.now) (origin self.now) (yielded self.now) next
            × (place ≡ start_place next)) };

    /// Collects the next line after the text, or answers how the lines ended. Where memory is
    /// refused the text is as it was.
    fn put_next(&mut self, text: &mut OutputBuffer) -> Result<Option<End>, Memory>
        ensures tail { (lines : List PrintedLine) (end : TheEnd) → tail self.old lines end
            ↔ tail self.new lines end }
        ensures origin { origin self.new ≡ origin self.old }
        ensures fewer { IfOk result (λ end. end ≡ None → remaining self.new < remaining self.old) }
        ensures put { IsLinePut (tail self.old) (yielded self.old) text.old result (yielded self.new)
            text.new };

    /// The lines and the end after them are one. It computes nothing.
    fn lemma_one(&self)
        ensures { IsOne (tail self.now) };
}

/// How lines end where a walk or a reader of pages answers so; want of memory is no end.
pub fn end_of(fault: WalkFault) -> Result<End, Memory>
    ensures { IfOk result (λ end. Spec.end_of fault ≡ Some end) }
{
    match fault {
        WalkFault::AtRow { page, row, cause } => Ok(End::Fault { page, row, cause }),
        WalkFault::CursorOutside => Ok(End::Outside),
        WalkFault::Memory => Err(Memory),
    }
}

/// A line for each row.
impl Lines for Walk<'_> {
    ghost use Rattle.std.specs.Prelude.{◌-◌, ◌^◌};
    ghost use Rattle.fax_tool.specs.Run.{AreRowLines};

    ghost tail = { λ walk. AreRowLines walk.file walk.origin };

    ghost origin = { λ walk. walk.origin };

    ghost yielded = { λ walk. walk.yielded };

    ghost remaining = { λ walk. 2 ^ 64 - walk.yielded };

    fn cursor(&self) -> Cursor {
        fax_walk::laws::beginnings_have_one_tail();
        Walk::cursor(self)
    }

    fn long_cursor(&self, alloc: Global) -> Result<Option<LongCursor>, Memory> {
        fax_walk::laws::beginnings_have_one_tail();
        Walk::long_cursor(self, alloc)
    }

    fn put_next(&mut self, text: &mut OutputBuffer) -> Result<Option<End>, Memory> {
        match self.next_row() {
            Ok(Some((place, row))) => {
                put_row_line(text, place, row)?;
                Ok(None)
            }
            Ok(None) => Ok(Some(End::EndOfPages)),
            Err(fault) => Ok(Some(end_of(fault)?)),
        }
    }

    fn lemma_one(&self) {
        fax_walk::laws::beginnings_have_one_tail();
    }
}

/// A line for each page.
impl Lines for Pages<'_> {
    ghost use Rattle.std.specs.Prelude.{◌-◌, ◌^◌};
    ghost use Rattle.fax_walk.specs.declared.walk_start.WalkStart.TheVariants.{AtCursor};
    ghost use Rattle.fax_tool.specs.Run.{ArePageLines};

    ghost tail = { λ pages. ArePageLines pages.file pages.origin };

    ghost origin = { λ pages. AtCursor pages.origin };

    ghost yielded = { λ pages. pages.yielded };

    ghost remaining = { λ pages. 2 ^ 32 - pages.yielded };

    fn cursor(&self) -> Cursor {
        fax_walk::laws::form_tails_are_one();
        Pages::cursor(self)
    }

    fn long_cursor(&self, _alloc: Global) -> Result<Option<LongCursor>, Memory> {
        fax_walk::laws::form_tails_are_one();
        // For the proof: what a cursor says is known of the pages.
        let _after = Pages::cursor(self);
        Ok(None)
    }

    fn put_next(&mut self, text: &mut OutputBuffer) -> Result<Option<End>, Memory> {
        match self.next_page() {
            Ok(Some((page, form))) => {
                put_page_line(text, page, &form)?;
                Ok(None)
            }
            Ok(None) => Ok(Some(End::EndOfPages)),
            Err(fault) => Ok(Some(end_of(fault)?)),
        }
    }

    fn lemma_one(&self) {
        fax_walk::laws::form_tails_are_one();
    }
}
