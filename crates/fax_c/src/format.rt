//! How a row is written in memory of the caller: as numbers, one after another.
ghost use Rattle.std.specs.Prelude.{◌≡◌, ◌+◌, ◌≤◌, ◌^◌, ◌++◌, length, take, drop, Some};
ghost use Rattle.fax_rows.specs.Coded.{packed_row};
ghost use Rattle.fax_rows.specs.Rows.{runs_of};
ghost use Rattle.fax_c.specs.Changes.{changes_of};
ghost use Rattle.fax_c.specs.code.CallSteps.{IsPutAt};

use crate::raster::{packed_len, put_packed};
use fax_rows::{LongestRuns, Row};

/// How a row is written.
pub(crate) trait RowFormat {
    ghost use Rattle.std.specs.Prelude.{ℕ, List};
    ghost use Rattle.fax_bits.specs.declared.Colour.{Colour};

    /// What it is written in.
    type Number: Copy;

    /// The numbers of a row.
    ghost numbers: { List Colour → List Self.Number };

    ghost MOST: { ℕ };

    /// How many a row has at most.
    const MOST: usize;

    /// Writes those of a row at a place, where they have room, and returns where they end.
    fn put(row: &Row, out: &mut [Self::Number], at: usize) -> Option<usize>
        requires { at ≤ length out.old }
        ensures put { IsPutAt (numbers row.now) out.old at result out.new }
        ensures few { length (numbers row.now) ≤ 2 ^ 16 }
        ensures most { length (numbers row.now) ≤ MOST };
}

/// As packed bytes: the highest bit first, 1 for black, with zeros up to a whole byte.
pub(crate) struct Packed;

impl RowFormat for Packed {
    type Number = u8;

    ghost numbers = { packed_row };

    ghost MOST = { 8192 };

    const MOST: usize = 8_192;

    #[tactic(auto, using(crate::proofs::PackedLenLemmas::has_packed_len))]
    fn put(row: &Row, out: &mut [u8], at: usize) -> Option<usize> {
        if out.len() - at < packed_len(row.width()) {
            return None;
        }
        Some(put_packed(row, out, at))
    }
}

/// As the lengths of its longest runs, white first: the first one is 0 where the row begins black.
pub(crate) struct Runs;

/// Writes the remaining runs at a place where they have room.
fn put_runs(runs: &mut LongestRuns, out: &mut [u32], at: usize)
    requires { at + length runs.old ≤ length out.old }
    ensures { out.new ≡ take at out.old ++ runs.old ++ drop (at + length runs.old) out.old }
{
    let mut to = at;
    while let Some(run) = runs.next_run() {
        out[to] = run;
        to += 1;
    }
}

/// Writes the runs of a row where those of any row have room, and returns how many they are.
pub(crate) fn put_all_runs(row: &Row, out: &mut [u32]) -> u32
    requires { 65536 ≤ length out.old }
    ensures { IsPutAt (runs_of row.now) out.old 0 (Some result) out.new }
{
    let mut runs = LongestRuns::of_row(row);
    let count = runs.len();
    put_runs(&mut runs, out, 0);
    count as u32
}

impl RowFormat for Runs {
    type Number = u32;

    ghost numbers = { runs_of };

    ghost MOST = { 65536 };

    const MOST: usize = 65_536;

    fn put(row: &Row, out: &mut [u32], at: usize) -> Option<usize> {
        let mut runs = LongestRuns::of_row(row);
        let len = runs.len();
        if out.len() - at < len {
            return None;
        }
        put_runs(&mut runs, out, at);
        Some(at + len)
    }
}

/// As the places of its changing elements: the pels, from 0, of another colour than the pel before
/// them, where white stands before the first.
pub(crate) struct Changes;

impl RowFormat for Changes {
    type Number = u32;

    ghost numbers = { changes_of };

    ghost MOST = { 65536 };

    const MOST: usize = 65_536;

    #[tactic(auto, using(crate::proofs::FormatLemmas::has_few_changes))]
    fn put(row: &Row, out: &mut [u32], at: usize) -> Option<usize> {
        // For the proof: a row has no more changes than pels.
        let _width = row.width();
        let changes = row.changes();
        if out.len() - at < changes.len() {
            return None;
        }
        let to = at + changes.len();
        out[at..to].copy_from_slice(changes);
        Some(to)
    }
}
