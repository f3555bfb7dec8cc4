//! How the rows of a strip of unknown height end.
ghost use Rattle.std.specs.Prelude.{◌≡◌, ◌≢◌, false, IsTrue};
ghost use Rattle.fax_page.specs.declared.Coding.TheVariants.{Mmr};
ghost use Rattle.fax_page.specs.Uncounted as Spec;
ghost use Rattle.fax_page.specs.code.Notes as Code;

use crate::lines::read_eol;
use crate::notes::{END_OF_BLOCK, END_OF_BLOCK_BITS, RETURN_EOLS, after_end};
use crate::{Coding, RowsEnd, StripFault};
use fax_rows::BitSource;

/// Whether after so many rows, and at least one, nothing but fill is left.
fn has_data_end(source: &BitSource, rows: u32) -> bool
    ensures { result ≡ Spec.has_data_end rows source.now.remaining }
{
    if rows == 0 {
        return false;
    }
    match source.zeros() {
        Some(_one) => false,
        None => true,
    }
}

/// What stands where an EOL of a return to control is expected.
#[derive(Clone, Copy)]
enum RtcEol {
    /// One stands there.
    Whole,
    /// Bits that follow may make one.
    Cut,
    /// Something else, whatever follows.
    Other,
}

/// Goes after an EOL of a return to control, and returns what stands where it is expected (T.4,
/// sections 4.1.4 and 4.2.4).
fn skip_rtc_eol(source: &mut BitSource, coding: Coding) -> RtcEol
    requires with_eols { coding ≢ Mmr }
    ensures { Code.IsMarkEol coding source.old.remaining result source.new.remaining }
{
    if let Err(fault) = read_eol(source, false) {
        return if fault == StripFault::DataEnds {
            RtcEol::Cut
        } else {
            RtcEol::Other
        };
    }
    match coding {
        Coding::Mh | Coding::Mmr => RtcEol::Whole,
        Coding::Mr if source.take(1, 1) => RtcEol::Whole,
        Coding::Mr if source.remaining() == 0 => RtcEol::Cut,
        Coding::Mr => RtcEol::Other,
    }
}

/// Whether a return to control stands at a source, or may where more bits follow (T.4, section
/// 4.1.4).
fn may_be_return_to_control(source: &BitSource, coding: Coding) -> bool
    requires with_eols { coding ≢ Mmr }
    ensures may { IsTrue result → Code.MayHaveReturn coding source.now.remaining }
    ensures never { result ≡ false → Code.MayHaveReturn coding source.now.remaining → ⊥ }
{
    let mut ahead = source.fork();
    for _eol in 0..RETURN_EOLS {
        match skip_rtc_eol(&mut ahead, coding) {
            RtcEol::Whole => {}
            RtcEol::Cut => return true,
            RtcEol::Other => return false,
        }
    }
    true
}

/// Whether an end mark stands at a source, or may where more bits follow (T.4, section 4.1.4; T.6,
/// End-of-facsimile block).
#[cold]
#[inline(never)]
pub fn may_be_end_mark(source: &BitSource, coding: Coding) -> bool
    ensures may { IsTrue result → Spec.MayHaveEndMark coding source.now.remaining }
    ensures never { result ≡ false → Spec.MayHaveEndMark coding source.now.remaining → ⊥ }
{
    match coding {
        Coding::Mh | Coding::Mr => may_be_return_to_control(source, coding),
        Coding::Mmr => {
            let bits = source.remaining().min(u64::from(END_OF_BLOCK_BITS)) as u32;
            source
                .fork()
                .take(END_OF_BLOCK >> (END_OF_BLOCK_BITS - bits), bits)
        }
    }
}

/// How so many rows of a strip of unknown height end, whose data continue at this source: where
/// this fault is in the way of the next row, or none is, since they are as many as a strip has at
/// most.
#[cold]
#[inline(never)]
pub fn classify_end(
    source: &BitSource,
    coding: Coding,
    rows: u32,
    fault: Option<StripFault>,
) -> RowsEnd
    ensures { result ≡ Spec.rows_end coding rows source.now.remaining fault }
{
    if let Some(_after) = after_end(source, coding) {
        return RowsEnd::Marked;
    }
    if has_data_end(source, rows) {
        return RowsEnd::DataEnd;
    }
    match fault {
        Some(fault) => RowsEnd::Fault(fault),
        None => RowsEnd::TooMany,
    }
}
