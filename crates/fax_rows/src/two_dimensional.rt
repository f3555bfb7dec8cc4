//! Rows in two-dimensional coding (ITU-T T.4, section 4.2.1.3, and T.6, section 2.2), read into
//! places of change over a reference row's places.
ghost use Rattle.std.specs.Prelude.{◌≡◌, ◌+◌, ◌-◌};
ghost use Rattle.std.specs.Prelude.{◌++◌, length, OnErr, IfOk, IfErr, IfSome, IsTrue, None};
ghost use Rattle.std.specs.Prelude.{true};
ghost use Rattle.fax_bits.specs.views.Source.{KeepsEnd};
ghost use Rattle.fax_rows.specs.Coded.{two_dimensional_bits};
ghost use Rattle.fax_bits.specs.Reading.{answered, failed};
ghost use Rattle.fax_rows.specs.ReadRows.{read_two_dimensional};
ghost use Rattle.fax_rows.specs.code.ChangingElements.{element_pels};
ghost use Rattle.fax_rows.specs.code.Put.{HasRoom};
ghost use Rattle.fax_rows.specs.code.RowStop.{IsRowStop};
ghost use Rattle.fax_rows.specs.code.ReadRow.{IsReadRow};

use crate::RowFault;
use crate::change_list::ChangingElements;
use crate::changes_of_row::put_sentinels;
use crate::pels::Row;
use fax_bits::BitSource;
use horizontal_runs::{LookupExit, RowStop};
use modes::read_by_look_ups;
use over_white::read_over_white;
use slow_path::finish_by_table;

mod canonical;
mod horizontal_runs;
mod modes;
mod over_white;
mod slow_path;
mod steps;
mod vertical_0_batches;
mod vertical_batch;

/// Over a reference row of fewer changes than one for so many pels, several vertical modes are read
/// by one look-up.
const FEW_CHANGES: usize = 6;

/// A row that is read into places of change.
#[derive(Clone, Copy)]
struct ReadRow {
    /// The index after the last place.
    end: usize,
    /// Whether its codes are seen to be those that T.4 chooses.
    is_canonical: bool,
}

/// Reads the modes of a row over the reference row, and returns where its places end: by look-ups,
/// and from a code on that none of them finds, by the tables. With `CANONICAL` it stops at the
/// first step that is not seen to be T.4's choice; the source is then as it was.
#[inline(always)]
fn read_modes<const CANONICAL: bool>(
    source: &mut BitSource,
    reference: ChangingElements,
    changes: &mut [u32],
) -> Result<usize, RowStop>
    requires room { HasRoom reference.width changes.old }
    ensures read { IfOk result (λ end. IsReadRow CANONICAL reference.entry source.old.remaining changes.new
        end source.new.remaining) }
    ensures stop { IfErr result
        (λ stop. IsRowStop CANONICAL reference.entry source.old.remaining stop) }
    ensures unchanged { OnErr result (source.new ≡ source.old) }
    ensures room { HasRoom reference.entry.width changes.new }
    ensures same_end { KeepsEnd source.old source.new }
{
    // Each reader by look-ups returns what is expected where none finds the next code, with its
    // place and how far the row is read, and leaves the source as it was. `finish_by_table`
    // continues from there to the row's end by the tables, which know every fault. So no row is
    // read twice but for its choice.
    let read = if reference.end == 1 {
        read_over_white::<CANONICAL>(source, reference, changes)
    } else if reference.end < reference.width as usize / FEW_CHANGES {
        read_by_look_ups::<CANONICAL, true>(source, reference, changes)
    } else {
        read_by_look_ups::<CANONICAL, false>(source, reference, changes)
    };
    match read {
        Ok(end) => Ok(end),
        Err(LookupExit::NeedsTable(slow_path_at)) => finish_by_table::<CANONICAL>(
            source,
            reference,
            changes,
            slow_path_at,
        ),
        Err(LookupExit::Stopped(stop)) => Err(stop),
    }
}

/// Reads the modes of a row over the reference row; where they are not T.4's choice, once more, for
/// their pels alone.
#[inline(always)]
fn read_places<const CANONICAL: bool>(
    source: &mut BitSource,
    reference: ChangingElements,
    changes: &mut [u32],
) -> Result<ReadRow, RowFault>
    requires room { HasRoom reference.width changes.old }
    ensures read { IfOk result (λ read. IsReadRow read.is_canonical reference.entry source.old.remaining
        changes.new read.end source.new.remaining) }
    ensures err { IfErr result (λ fault. read_two_dimensional (element_pels reference.entry)
        source.old.remaining ≡ failed fault) }
    ensures room { HasRoom reference.entry.width changes.new }
    ensures same_end { KeepsEnd source.old source.new }
{
    // At the first step that is not seen to be T.4's choice the row is read again, without the
    // question. That happens where the first codes of a strip stand that are not T.4's choice.
    match read_modes::<CANONICAL>(source, reference, changes) {
        Ok(end) => return Ok(ReadRow {
            end,
            is_canonical: CANONICAL,
        }),
        Err(RowStop::Fault(fault)) => return Err(fault),
        Err(RowStop::Other) => {}
    }
    match read_modes::<false>(source, reference, changes) {
        Ok(end) => Ok(ReadRow {
            end,
            is_canonical: false,
        }),
        Err(RowStop::Fault(fault)) => Err(fault),
        // No choice was asked for.
        Err(RowStop::Other) => unreachable!(),
    }
}

/// Reads a row, and returns whether its codes are seen to be those that T.4 chooses.
#[inline(always)]
fn read_row<const CANONICAL: bool>(
    source: &mut BitSource,
    reference: &Row,
    row: &mut Row,
) -> Result<bool, RowFault>
    requires width { length reference.now ≡ length row.old }
    ensures read { read_two_dimensional reference.now source.old.remaining
        ≡ answered (λ _. row.new) result source.new.remaining }
    ensures chosen { IfOk result (λ chosen. IsTrue chosen
        → source.old.remaining ≡ two_dimensional_bits reference.now row.new ++ source.new.remaining) }
    ensures same_width { length row.new ≡ length row.old }
    ensures same_end { KeepsEnd source.old source.new }
{
    let reference = reference.elements();
    let width = row.width;
    let changes = row.changes.as_mut_slice();
    match read_places::<CANONICAL>(source, reference, changes) {
        Ok(read) => {
            row.end = put_sentinels(changes, read.end, width);
            Ok(read.is_canonical)
        }
        Err(fault) => {
            row.end = put_sentinels(changes, 1, width);
            Err(fault)
        }
    }
}

/// Reads a row in two-dimensional coding over the reference row: modes from just before the first
/// pel on, up to the row's width (T.4, sections 4.2.1.3.1 to 4.2.1.3.4; T.6, sections 2.2.2 to
/// 2.2.5). It takes no memory.
///
/// # Errors
///
/// The fault of the first mode or run that is no part of the row. Nothing else is said of the row
/// then.
pub fn read_2d(source: &mut BitSource, reference: &Row, row: &mut Row) -> Result<(), RowFault>
    requires width { length reference.now ≡ length row.old }
    ensures read { read_two_dimensional reference.now source.old.remaining
        ≡ answered (λ _. row.new) result source.new.remaining }
    ensures same_width { length row.new ≡ length row.old }

    // The source continues in the same bits.
    ensures same_end { KeepsEnd source.old source.new }
{
    read_row::<false>(source, reference, row)?;
    Ok(())
}

/// Reads a row as `read_2d` does, and returns whether its codes are seen to be those that T.4
/// chooses (T.4, section 4.2.1.3.3; T.6, section 2.2.4). Where they are not seen to be so, nothing
/// is said of them.
///
/// # Errors
///
/// As for `read_2d`.
pub fn read_2d_canonical(
    source: &mut BitSource,
    reference: &Row,
    row: &mut Row,
) -> Result<bool, RowFault>
    requires width { length reference.now ≡ length row.old }
    ensures read { read_two_dimensional reference.now source.old.remaining
        ≡ answered (λ _. row.new) result source.new.remaining }
    ensures chosen { IfOk result (λ chosen. IsTrue chosen
        → source.old.remaining ≡ two_dimensional_bits reference.now row.new ++ source.new.remaining) }
    ensures same_width { length row.new ≡ length row.old }

    // The source continues in the same bits.
    ensures same_end { KeepsEnd source.old source.new }
{
    read_row::<true>(source, reference, row)
}
