//! Rows of a strip of unknown height.
ghost use Rattle.std.specs.Prelude.{◌≡◌, ◌≤◌, drop, length, IfSome, MatchOption};
ghost use Rattle.fax_bits.specs.Bits.{bits};
ghost use Rattle.fax_page.specs.declared.StripForm.{StripForm as Form};
ghost use Rattle.fax_page.specs.views.Strip.{IsStripForm};
ghost use Rattle.fax_c.specs.Told as Told;
ghost use Rattle.fax_c.specs.views.BareStrips as Spec;

use crate::faults::FaxFault;
use crate::fill::{Filled, Stop};
use crate::places::FaxPlace;
use crate::status;
use crate::strip_form::FaxStrip;
use crate::strip_rows::readable_form;
use crate::told::FaxTold;
use fax_files::Cause;
use fax_page::{MOST_ROWS, RowsEnd, StripFault, StripForm, classify_end};
use fax_rows::BitSource;
use fax_walk::End;

/// The form in which a strip of so many bytes is read of unknown height, if these numbers are one.
pub(crate) fn uncounted_form(strip: &[u8], given: &FaxStrip) -> Option<StripForm>
    ensures { MatchOption result
        ((form : Form) → Spec.IsReadableUncounted strip.now given.now form → ⊥)
        (Spec.IsReadableUncounted strip.now given.now) }
{
    if given.rows != 0 {
        return None;
    }
    let most = FaxStrip {
        rows: MOST_ROWS,
        ..*given
    };
    readable_form(strip, &most)
}

/// The form in which a strip is read, of counted rows or those of unknown height, if these numbers
/// are one.
pub(crate) fn form_of_rows(strip: &[u8], given: &FaxStrip) -> Option<StripForm>
    ensures form { MatchOption result
        ((form : Form) → Spec.IsReadableIn strip.now given.now form → ⊥)
        (Spec.IsReadableIn strip.now given.now) }
    ensures limits { IfSome result IsStripForm }
    ensures count { IfSome result (λ form. length strip.now ≤ 536870911) }
{
    match readable_form(strip, given) {
        Some(form) => Some(form),
        None => uncounted_form(strip, given),
    }
}

/// The number that a call returns where rows of a strip of unknown height end so.
pub(crate) fn end_status(end: RowsEnd) -> u32
    ensures { result ≡ Told.end_status end }
{
    match end {
        RowsEnd::Marked => status::END,
        RowsEnd::DataEnd => status::DATA_END,
        RowsEnd::Fault(_) | RowsEnd::TooMany => status::FAULT,
    }
}

/// Advances by so many bits, or past all of them where there are fewer.
fn go_on(source: &mut BitSource, bits: u64)
    ensures { source.new.remaining ≡ drop bits source.old.remaining }
{
    let remaining = source.remaining();
    if bits < remaining {
        source.skip(bits);
    } else {
        source.skip(remaining);
    }
}

/// The bits of a strip from a place on.
pub(crate) fn source_at<'a>(strip: &'a [u8], form: StripForm, place: &FaxPlace) -> BitSource<'a>
    requires count { length strip.now ≤ 536870911 }
    ensures { result.remaining ≡ drop place.now.bits (bits form.order strip.now) }
{
    let mut source = BitSource::new(strip, form.order);
    go_on(&mut source, u64::from(place.bits));
    source
}

/// What stopped the rows of a strip, where that is the strip itself: a fault is in the way of the
/// next row, or there is none.
fn met_in_strip(stop: Stop) -> Option<Option<StripFault>>
    ensures { result ≡ Spec.met_in_strip stop }
{
    match stop {
        Stop::Ended(End::EndOfPages) => Some(None),
        Stop::Ended(
            End::Fault {
                cause: Cause::Strip(fault),
                ..
            },
        ) => Some(Some(fault)),
        _ => None,
    }
}

/// How the rows of a strip of unknown height end and that are read up to a place, where the strip
/// itself stopped them.
pub(crate) fn end_at(
    strip: &[u8],
    given: &FaxStrip,
    form: StripForm,
    place: &FaxPlace,
    stop: Stop,
) -> Option<RowsEnd>
    requires count { length strip.now ≤ 536870911 }
    ensures { Spec.IsEndAt given.now form strip.now place.now stop result }
{
    if given.rows != 0 {
        return None;
    }
    let Some(met) = met_in_strip(stop) else {
        return None;
    };
    let source = source_at(strip, form, place);
    Some(classify_end(&source, form.coding, place.row, met))
}

/// Reports what was written of rows that end so at a place, and returns how the call ended.
pub(crate) fn tell_end(filled: &Filled, place: &FaxPlace, end: RowsEnd, told: &mut FaxTold) -> u32
    ensures { Spec.IsRowsEndTold filled.now place.now end told.new result }
{
    *told = FaxTold {
        count: filled.count,
        used: filled.used,
        page: filled.cursor.page,
        row: filled.cursor.row,
        fault: FaxFault::of_rows_end(place.page, place.row, end),
    };
    end_status(end)
}

/// Reports what was written, and how the rows end at a place, if that is to be reported, and
/// returns how the call ended.
pub(crate) fn tell_read(
    filled: &Filled,
    place: &FaxPlace,
    end: Option<RowsEnd>,
    told: &mut FaxTold,
) -> u32
    ensures { Spec.IsReadTold filled.now place.now end told.new result }
{
    match end {
        Some(end) => tell_end(filled, place, end, told),
        None => filled.fill_result(told),
    }
}
