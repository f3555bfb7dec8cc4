//! A row of a strip: what stands before its codes, and its codes.
ghost use Rattle.std.specs.Prelude.{◌≡◌, ◌<◌, ◌∷◌, [], List, false, length, OnOk, IfOk, IfErr};
ghost use Rattle.std.specs.Prelude.{IsTrue};
ghost use Rattle.fax_bits.specs.Reading.{answered, read};
ghost use Rattle.fax_bits.specs.declared.Colour.{Colour};
ghost use Rattle.fax_bits.specs.views.Source.{KeepsEnd};
ghost use Rattle.fax_page.specs.Lines as Lines;
ghost use Rattle.fax_page.specs.code.Starts.{BeginsBelowEleven, HasEol, HasNoEol, IsFirstCodeFault};
ghost use Rattle.fax_page.specs.code.Starts.{IsStop};
ghost use Rattle.fax_page.specs.code.LineStops.{IsLineStop};
ghost use Rattle.fax_page.specs.code.Notes.{IsChosen};
ghost use Rattle.fax_page.specs.code.Salvage.{IsFirstEol, IsNextEol};

use crate::{Coding, Dimension, StripFault, StripForm};
use fax_rows::{BitSource, Row, RowFault, read_1d, read_2d, skip_white_1d, skip_white_2d};

/// How many zeros an EOL has before its 1 (T.4, section 4.1.2). More are fill.
const EOL_ZEROS: u64 = 11;

/// Reads fill and an EOL (T.4, sections 4.1.2 and 4.1.3), which some rows may lack.
#[inline(always)]
pub(crate) fn read_eol(source: &mut BitSource, may_lack: bool) -> Result<(), StripFault>
    ensures ok { OnOk result (HasEol may_lack source.old.remaining source.new.remaining) }
    ensures err { IfErr result (HasNoEol may_lack source.old.remaining) }
    ensures same_end { KeepsEnd source.old source.new }
{
    if source.skip_zeros_and_one(EOL_ZEROS as u32) {
        return Ok(());
    }
    match source.zeros() {
        None => Err(StripFault::DataEnds),
        Some(zeros) if zeros >= EOL_ZEROS => {
            // For the proof: the 1 after the zeros is one of the remaining bits.
            let remaining = source.remaining();
            prove!(zeros < remaining);
            source.skip(zeros + 1);
            Ok(())
        }
        Some(_) if may_lack => Ok(()),
        Some(_) => Err(StripFault::MissingEol),
    }
}

/// Reads the tag bit after an EOL of MR, which says how the row is coded (T.4, section 4.2.2).
#[inline(always)]
fn read_tag(source: &mut BitSource) -> Result<Dimension, StripFault>
    ensures ok { IfOk result (λ dimension.
        source.old.remaining ≡ Lines.tag_bit dimension ∷ source.new.remaining) }
    ensures err { IfErr result (λ fault. (source.old.remaining ≡ []) × (fault ≡ StripFault.DataEnds)) }
    ensures same_end { KeepsEnd source.old source.new }
{
    if source.remaining() == 0 {
        return Err(StripFault::DataEnds);
    }
    let tag = source.peek(1);
    source.skip(1);
    if tag == 1 {
        Ok(Dimension::OneDimensional)
    } else {
        Ok(Dimension::TwoDimensional)
    }
}

/// Reads what stands before the first code of row `i`, and returns how the row is coded: an EOL in
/// MH, an EOL and a tag bit in MR, nothing in MMR (T.4, sections 4.1.2 and 4.2.2; T.6, section
/// 2.2.1).
#[inline(always)]
pub(crate) fn read_start(
    source: &mut BitSource,
    coding: Coding,
    i: u32,
) -> Result<Dimension, StripFault>
    ensures read { Lines.read_start coding i source.old.remaining
        ≡ answered (λ dimension. dimension) result source.new.remaining }
    ensures same_end { KeepsEnd source.old source.new }
{
    match coding {
        Coding::Mh => {
            // The first row of a strip may lack its EOL.
            read_eol(source, i == 0)?;
            Ok(Dimension::OneDimensional)
        }
        Coding::Mr => {
            read_eol(source, false)?;
            read_tag(source)
        }
        Coding::Mmr => Ok(Dimension::TwoDimensional),
    }
}

/// Whether a row's first code may be read: an EOL in its place is the end of the page (T.4,
/// section 4.1.4), or of the facsimile block (T.6).
fn check_first_code(source: &BitSource) -> Result<(), StripFault>
    ensures ok { OnOk result (BeginsBelowEleven source.now.remaining) }
    ensures err { IfErr result (λ fault. IsFirstCodeFault source.now.remaining fault) }
{
    // In MH the search for the EOL comes before this: so a strip without a single 1 where a row is
    // expected is `DataEnds` there, with eleven zeros or more too. In MMR no EOL is sought, and
    // eleven zeros or more are `EndMarker`. Eleven zeros settle it, and what follows them is not
    // looked at.
    if source.fork().take(0, EOL_ZEROS as u32) {
        return Err(StripFault::EndMarker);
    }
    match source.zeros() {
        Some(_) => Ok(()),
        None => Err(StripFault::DataEnds),
    }
}

/// Why the codes here are no row, where their reader stopped for this cause: an end marker stands
/// in the place of the first code, or the data end before it; else it is the reader's own cause. A
/// row that is read has a first code, so the look at it waits until reading has failed.
pub(crate) fn stop(codes: &BitSource, cause: RowFault) -> StripFault
    ensures { IsStop codes.now.remaining cause result }
{
    match check_first_code(codes) {
        Ok(()) => cause.into(),
        Err(fault) => fault,
    }
}

/// Skips the codes of a row that is white as its reference row is, where they are seen to be next
/// and T.4's choice, and returns whether they are. Else the source stays.
#[inline(always)]
pub(crate) fn take_white(source: &mut BitSource, dimension: Dimension, reference: &Row) -> bool
    ensures row { IsTrue result
        → Lines.read_codes dimension (length reference.now) reference.now source.old.remaining
        ≡ read reference.now source.new.remaining }
    ensures chosen { IsTrue result
        → IsChosen dimension reference.now source.old.remaining reference.now source.new.remaining }
    ensures unchanged { result ≡ false → source.new.remaining ≡ source.old.remaining }
    ensures same_end { KeepsEnd source.old source.new }
{
    match dimension {
        Dimension::OneDimensional => skip_white_1d(source, reference),
        Dimension::TwoDimensional => skip_white_2d(source, reference),
    }
}

/// Reads the codes of a row that is coded so into `row`, of which nothing is said after a fault.
#[inline(always)]
pub(crate) fn read_codes(
    source: &mut BitSource,
    dimension: Dimension,
    reference: &Row,
    row: &mut Row,
) -> Result<(), RowFault>
    requires same_width { length reference.now ≡ length row.old }
    ensures read { Lines.read_codes dimension (length row.old) reference.now source.old.remaining
        ≡ answered (λ _. row.new) result source.new.remaining }
    ensures same_width { length row.new ≡ length row.old }
    ensures same_end { KeepsEnd source.old source.new }
{
    match dimension {
        Dimension::OneDimensional => read_1d(source, row),
        Dimension::TwoDimensional => read_2d(source, reference, row),
    }
}

/// Why a row could not be read: before its codes, or in them.
#[derive(Clone, Copy)]
pub(crate) enum LineStop {
    Start(StripFault),
    Codes(RowFault),
}

/// The fault of row `i`, which begins at this source and could not be read. What stands before its
/// codes is read once more here, so that no row keeps the place of its codes for a fault.
#[cold]
#[inline(never)]
pub(crate) fn line_fault(mut start: BitSource, form: StripForm, i: u32, why: LineStop) -> StripFault
    ensures { (reference : List Colour) → IsLineStop form i reference start.entry.remaining why
        → Lines.IsCause form i reference start.entry.remaining result }
{
    // A copy of the source there would be made at each row.
    match why {
        LineStop::Start(fault) => fault,
        LineStop::Codes(cause) => match read_start(&mut start, form.coding, i) {
            Ok(_dimension) => stop(&start, cause),
            Err(fault) => fault,
        },
    }
}

/// Whether fewer than eleven zeros stand before the next 1: no EOL begins there (T.4, section
/// 4.1.2).
#[inline(always)]
pub(crate) fn begins_below_eleven(source: &BitSource) -> bool
    ensures yes { IsTrue result → BeginsBelowEleven source.now.remaining }
    ensures no { result ≡ false → BeginsBelowEleven source.now.remaining → ⊥ }
{
    match source.zeros() {
        Some(zeros) => zeros < EOL_ZEROS,
        None => false,
    }
}

/// Where the first EOL begins: its eleven zeros and its 1 (T.4, section 4.1.2).
fn first_eol(source: &mut BitSource) -> Option<u64>
    ensures { IsFirstEol source.old result }
{
    loop {
        source.skip_short_zeros();
        let zeros = source.zeros()?;
        // For the proof, as in `read_eol`.
        let remaining = source.remaining();
        prove!(zeros < remaining);
        source.skip(zeros + 1);
        if zeros >= EOL_ZEROS {
            return Some(source.place() - (EOL_ZEROS + 1));
        }
    }
}

/// Where the next EOL begins after row `i`, which begins at this source and is lost: after its own
/// EOL and tag bit, if it has them. In MMR there is none.
pub(crate) fn next_eol(start: BitSource, coding: Coding, i: u32) -> Option<u64>
    ensures { IsNextEol coding i start.entry result }
{
    if let Coding::Mmr = coding {
        return None;
    }
    let mut from = start.fork();
    match read_start(&mut from, coding, i) {
        Ok(_dimension) => first_eol(&mut from),
        Err(fault) => match fault {
            StripFault::MissingEol => {
                let mut from = start;
                first_eol(&mut from)
            }
            _ => None,
        },
    }
}
