//! `salvage`: what is left of the rows of a damaged file.
ghost use Rattle.std.specs.Prelude.{◌≡◌, ◌<◌, ◌↔◌, ◌^◌, ℕ, List, IfErr, IfOk, IfSome, None, OnOk};
ghost use Rattle.std.specs.Prelude.{true, false, Bool, ◌≢◌, ◌++◌, [], OnErr, unwrap_or};
ghost use Rattle.fax_rows.specs.Rows.{runs_of};
ghost use Rattle.fax_tool.specs.Text.{row_line_of};
ghost use Rattle.fax_tool.specs.declared.args.Command.TheVariants.{Salvage as Salvaging};
ghost use Rattle.std.specs.Io.KnownBytes.{Appends};
ghost use Rattle.fax_walk.specs.Items.{AreItems, IsTailFrom, RowItem};
ghost use Rattle.fax_walk.specs.declared.walk_start.WalkStart.TheVariants.{AtCursor};
ghost use Rattle.fax_walk.specs.views.InOrder.{EndsAfter};
ghost use Rattle.fax_walk.specs.Pages.{start};
ghost use Rattle.fax_walk.specs.declared.end.End.TheVariants.{EndOfPages};
ghost use Rattle.fax_tool.specs.Run.{HasWorked};
ghost use Rattle.fax_tool.specs.Streams.{input_after, no_faults, output_after};
ghost use Rattle.fax_tool.specs.code.Outcome.{IsDone, IsStopped, StopsPrinting};
ghost use Rattle.fax_tool.specs.code.Salvaging.{IsFrontOf, IsLinePut, IsOneList, texts_of};
ghost use Rattle.fax_tool.specs.code.Transfers.{counted};

use crate::commands::print::{flush, flush_if_full};
use crate::commands::printed_lines::end_of;
use crate::refusal::Refusal;
use crate::streams::transfer::{RetryCount, read_to_end, write_all};
use crate::streams::{Sink, Source};
use crate::text::fault::{ErrorLine, end_line};
use crate::text::lost_line::{put_lost_line, put_refused_line};
use crate::text::output_buffer::OutputBuffer;
use crate::text::row_line::put_row_line;
use fax_bits::Memory;
use fax_walk::{End, Place, Salvage, SalvageItem, Walk};
use std::alloc::Global;

/// What is left of a file, line by line. Contracts see the lines, which no call changes, how many
/// were collected, a number that each line makes less, that nothing is lost, and whether that is
/// said at the end.
pub trait SalvageLines {
    ghost are: { Self → List (List ℕ) → Type 0 };

    ghost yielded: { Self → ℕ };

    ghost remaining: { Self → ℕ };

    ghost is_well: { Self → Type 0 };

    ghost says_well: { Self → Bool };

    /// Collects the next line after the text, or answers that there is none. Where memory is
    /// refused the text is as it was.
    fn put_next(&mut self, text: &mut OutputBuffer) -> Result<bool, Memory>
        ensures same { (lines : List (List ℕ)) → are self.old lines ↔ are self.new lines }
        ensures fewer { IfOk result (λ more. more ≡ true → remaining self.new < remaining self.old) }
        ensures put { IsLinePut (are self.old) (yielded self.old) text.old result (yielded self.new)
            text.new }
        ensures still_well { is_well self.new → is_well self.old }
        ensures well { IfOk result
            (λ more. more ≡ false → says_well self.new ≡ true → is_well self.old) };

    /// The lines are one list. It computes nothing.
    fn lemma_one(&self)
        ensures { IsOneList (are self.now) };
}

/// Collects the line of a row that was found, which the reader lends.
fn put_found(salvage: &Salvage<'_>, place: Place, text: &mut OutputBuffer) -> Result<(), Memory>
    requires { salvage.now.last ≢ None }
    ensures ok { OnOk result (text.new ≡ text.old
        ++ row_line_of place.page place.row (runs_of (unwrap_or salvage.now.last []))) }
    ensures err { OnErr result (text.new ≡ text.old) }
{
    match salvage.row() {
        Some(row) => put_row_line(text, place, row),
        None => unreachable!(),
    }
}

/// A line for each row that is found, each stretch that is lost, and each page that is refused.
impl SalvageLines for Salvage<'_> {
    ghost use Rattle.std.specs.Prelude.{◌-◌, ◌^◌};
    ghost use Rattle.fax_tool.specs.SalvageText.{AreLinesLeft};

    ghost are = { λ salvage. AreLinesLeft salvage.file };

    ghost yielded = { λ salvage. salvage.yielded };

    ghost remaining = { λ salvage. 2 ^ 54 - salvage.yielded };

    ghost is_well = { λ salvage. (rows : List RowItem) × AreItems salvage.file rows EndOfPages };

    ghost says_well = { λ salvage. salvage.whole };

    fn put_next(&mut self, text: &mut OutputBuffer) -> Result<bool, Memory> {
        fax_walk::laws::files_are_salvaged_in_one_way();
        let Some(item) = self.next_item()? else {
            return Ok(false);
        };
        match item {
            SalvageItem::Row(place) => put_found(self, place, text)?,
            SalvageItem::Lost(stretch) => put_lost_line(text, stretch)?,
            SalvageItem::Refused { page, fault } => put_refused_line(text, page, fault)?,
        }
        Ok(true)
    }

    fn lemma_one(&self) {
        fax_walk::laws::files_are_salvaged_in_one_way();
    }
}

/// Prints the lines of what is left of a file.
fn print_remains<R: SalvageLines, W: Sink>(
    alloc: Global,
    remains: &mut R,
    out: &mut W,
    interruptions: &mut RetryCount,
) -> Result<(), Refusal>
    requires counts { W.counts out.old ≡ counted interruptions.old }
    requires fresh { R.yielded remains.old ≡ 0 }
    ensures ok { OnOk result ((lines : List (List ℕ)) × R.are remains.old lines
        × Appends (W.written out.old) (W.written out.new) (texts_of lines)) }
    ensures counts { OnOk result (W.counts out.new ≡ counted interruptions.new) }
    ensures worked { OnOk result (HasWorked (W.counts out.new)) }
    ensures well { OnOk result (R.says_well remains.new ≡ true → R.is_well remains.old) }
    ensures err { IfErr result (λ refusal. StopsPrinting (λ _. ⊥)
        (IsFrontOf (R.are remains.old)) refusal
        (output_after (W.written out.old) (W.written out.new) (W.counts out.new))) }
{
    remains.lemma_one();
    let mut text = OutputBuffer::new(alloc);
    loop {
        flush_if_full(out, interruptions, &mut text)?;
        match remains.put_next(&mut text) {
            Ok(true) => {}
            Ok(false) => return flush(out, interruptions, &mut text),
            Err(Memory) => {
                flush(out, interruptions, &mut text)?;
                return Err(Refusal::Memory);
            }
        }
    }
}

/// Passes by the next row, or answers how the rows ended.
fn pass_row(walk: &mut Walk<'_>) -> Result<Option<End>, Memory>
    ensures file { walk.new.file ≡ walk.old.file }
    ensures origin { walk.new.origin ≡ walk.old.origin }
    ensures fewer { IfOk result (λ end. end ≡ None
        → (walk.old.yielded < walk.new.yielded) × (walk.new.yielded < 2 ^ 64)) }
    ensures ended { IfOk result (λ end. IfSome end
        (EndsAfter (IsTailFrom walk.old.file walk.old.origin) walk.old.yielded)) }
{
    match walk.next_row() {
        Ok(Some(_)) => Ok(None),
        Ok(None) => Ok(Some(End::EndOfPages)),
        Err(fault) => Ok(Some(end_of(fault)?)),
    }
}

/// How the rows of a file end: properly where it is known that nothing is lost.
pub(crate) fn end_of_walk(alloc: Global, file: &[u8], is_whole: bool) -> Result<End, Memory>
    requires { is_whole ≡ true → (rows : List RowItem) × AreItems file.now rows EndOfPages }
    ensures { IfOk result (λ end.
        (rows : List RowItem) × AreItems file.now rows end) }
{
    // A walk of its own finds the first fault, after all lines are printed: the definition of
    // `rows` alone says it, and nothing that comes after a fault can change it. Where all was whole
    // the rows end properly, and nothing is read twice.
    if is_whole {
        return Ok(End::EndOfPages);
    }
    fax_walk::laws::tails_go_on();
    let mut walk = Walk::start(alloc, file);
    loop {
        if let Some(end) = pass_row(&mut walk)? {
            return Ok(end);
        }
    }
}

/// Reads the input whole and prints each row that stands between its EOLs, the stretches that are
/// lost and the pages that are refused, and then `end`. The fault that it returns is the one of the
/// file's rows.
pub fn salvage<R: Source, W: Sink>(
    alloc: Global,
    input: &mut R,
    out: &mut W,
) -> Result<Option<ErrorLine>, Refusal>
    requires input_counts { R.counts input.old ≡ no_faults }
    requires taken { R.taken input.old ≡ 0 }
    requires counts { W.counts out.old ≡ no_faults }
    ensures ok { IfOk result (IsDone Salvaging
        (input_after (R.remaining input.old) (R.taken input.new) (R.counts input.new))
        (output_after (W.written out.old) (W.written out.new) (W.counts out.new))) }
    ensures err { IfErr result (λ refusal. IsStopped Salvaging refusal
        (input_after (R.remaining input.old) (R.taken input.new) (R.counts input.new))
        (output_after (W.written out.old) (W.written out.new) (W.counts out.new))) }
{
    fax_walk::laws::files_are_salvaged_in_one_way();
    let file = read_to_end(alloc, input)?;
    let mut interruptions = RetryCount::NONE;
    let mut remaining = Salvage::begin(alloc, &file);
    print_remains(alloc, &mut remaining, out, &mut interruptions)?;
    let end = end_of_walk(alloc, &file, remaining.is_whole())?;
    write_all(out, &mut interruptions, b"end\n")?;
    Ok(end_line(Some(end)))
}
