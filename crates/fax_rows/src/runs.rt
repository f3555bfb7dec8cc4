//! Runs of pels of one colour, code by code (ITU-T T.4, section 4.1.1).
ghost use Rattle.std.specs.Prelude.{◌≡◌, ◌+◌, ◌≤◌, ◌<◌, ◌^◌, ◌++◌, length, OnOk, IfOk};
ghost use Rattle.std.specs.Prelude.{IsTrue};
ghost use Rattle.fax_bits.specs.Codes.{IsRun};
ghost use Rattle.fax_bits.specs.Codes.{read_code as read_code_of};
ghost use Rattle.fax_bits.specs.Reading.{answered};
ghost use Rattle.fax_bits.specs.Tables.{run_table};
ghost use Rattle.fax_bits.specs.Written.{run_bits};
ghost use Rattle.fax_bits.specs.views.Source.{KeepsEnd};
ghost use Rattle.fax_rows.specs.Rows.{other as other_than};
ghost use Rattle.fax_rows.specs.ReadRows.{read_run as read_run_of};

use crate::RowFault;
use fax_bits::{
    BitSource, BlackRuns, CodeFault, Colour, LONGEST_MAKE_UP, RunCode, WhiteRuns, read_code,
};

/// The opposite colour.
pub(crate) fn other(colour: Colour) -> Colour
    ensures { result ≡ other_than colour }
{
    match colour {
        Colour::White => Colour::Black,
        Colour::Black => Colour::White,
    }
}

/// Reads a code for a run of the colour.
#[inline(always)]
fn read_run_code(source: &mut BitSource, colour: Colour) -> Result<RunCode, CodeFault>
    ensures read { read_code_of (run_table colour) source.old.remaining
        ≡ answered (λ code. code) result source.new.remaining }
    ensures same_end { KeepsEnd source.old source.new }
    ensures shorter { OnOk result (length source.new.remaining < length source.old.remaining) }
{
    match colour {
        Colour::White => read_code::<WhiteRuns>(source),
        Colour::Black => read_code::<BlackRuns>(source),
    }
}

/// A run that is read.
#[derive(Clone, Copy)]
pub(crate) struct ReadRun {
    pub pels: u32,
    /// Whether its codes are seen to be those that T.4 chooses.
    pub is_canonical: bool,
}

/// Reads a run of the colour whose first pel is `from`, code by code, and names its fault where it
/// has one. Its codes are T.4's choice where each make-up code but the last is the longest.
#[cold]
#[inline(never)]
fn read_run(
    source: &mut BitSource,
    colour: Colour,
    width: u32,
    from: u32,
) -> Result<ReadRun, RowFault>
    requires width { width < 2 ^ 16 }
    requires from { from ≤ width }
    ensures read { read_run_of colour width from source.old.remaining
        ≡ answered (λ run. from + run.pels) result source.new.remaining }
    ensures chosen { IfOk result (λ run. IsTrue run.is_canonical
        → source.old.remaining ≡ run_bits colour run.pels ++ source.new.remaining) }
    ensures within { IfOk result (λ run. from + run.pels ≤ width) }
    ensures same_end { KeepsEnd source.old source.new }
    ensures shorter { OnOk result (length source.new.remaining < length source.old.remaining) }
{
    fax_bits::laws::chosen_codes_are_written();
    let mut pels = 0;
    // Whether T.4 chooses the codes so far where the next one ends the run, and where it does not.
    let mut is_canonical = true;
    let mut are_longest = true;
    loop {
        match read_run_code(source, colour)? {
            RunCode::Terminating(more) => {
                let pels = pels + u32::from(more);
                if from + pels > width {
                    return Err(RowFault::RunTooLong);
                }
                return Ok(ReadRun { pels, is_canonical });
            }
            RunCode::MakeUp(more) => {
                pels += u32::from(more);
                if from + pels > width {
                    return Err(RowFault::RunTooLong);
                }
                is_canonical = are_longest;
                are_longest &= u32::from(more) == LONGEST_MAKE_UP;
            }
            RunCode::Extension => return Err(RowFault::Extension),
        }
    }
}

/// What `read_run` does for a source that stands in a value: only a copy of it is lent.
#[inline(always)]
pub(crate) fn run_by_table(
    source: &mut BitSource,
    colour: Colour,
    width: u32,
    from: u32,
) -> Result<ReadRun, RowFault>
    requires width { width < 2 ^ 16 }
    requires from { from ≤ width }
    ensures read { read_run_of colour width from source.old.remaining
        ≡ answered (λ run. from + run.pels) result source.new.remaining }
    ensures ok { IfOk result (λ run. IsRun colour source.old.remaining run.pels source.new.remaining) }
    ensures chosen { IfOk result (λ run. IsTrue run.is_canonical
        → source.old.remaining ≡ run_bits colour run.pels ++ source.new.remaining) }
    ensures within { IfOk result (λ run. from + run.pels ≤ width) }
    ensures same_end { KeepsEnd source.old source.new }
    ensures shorter { OnOk result (length source.new.remaining < length source.old.remaining) }
{
    // What is lent to a function stands in memory: so `read_run`, which knows every fault, gets a
    // copy, and the source goes to the copy's place.
    let mut copy = source.fork();
    let run = read_run(&mut copy, colour, width, from)?;
    source.skip_to(copy.place());
    Ok(run)
}
