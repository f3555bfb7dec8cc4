//! The longest runs of a row, one after another (ITU-T T.4, section 4.1.1).
ghost use Rattle.std.specs.Prelude.{◌≡◌, ◌+◌, ◌-◌, ◌<◌, ◌≤◌, ◌^◌, ◌↔◌, [], ◌∷◌};
ghost use Rattle.std.specs.Prelude.{MatchOption, IfNone, IfSome, IsTrue, length, sum};
ghost use Rattle.std.specs.Prelude.{take, drop};
ghost use Rattle.fax_rows.specs.Rows.{runs_of, pels_of_runs};
ghost use Rattle.fax_rows.specs.code.LongestRuns.{AreLongest};
ghost use Rattle.fax_rows.specs.code.Put.{AreChangesPut, HasRoom};
ghost use Rattle.fax_rows.specs.code.ChangeLists.{row_of};

use crate::changes_of_row::toggle_change;
use crate::pels::Row;
use fax_bits::Colour;
use std::marker::Model;
use std::simd::prelude::*;

/// The longest runs of a row that are still to come. Contracts see the list of their lengths in
/// pels.
// It is public so that a caller goes over a row's runs without a list of them, and knows how many
// there are.
#[derive(Drop)]
pub struct LongestRuns<'a> {
    /// Where the next run begins, and then where each run ends.
    changes: &'a [u32],
}

impl<'a> Model for LongestRuns<'a> {
    ghost use Rattle.std.specs.Prelude.{ℕ, List};
    ghost use Rattle.fax_rows.specs.code.LongestRuns.{runs_between, AreBounds};

    ghost Value = { List ℕ };

    ghost view = { λ s. runs_between s.changes.now };

    ghost invariant = { λ s. AreBounds s.changes.now };
}

impl<'a> LongestRuns<'a> {
    /// All runs of the row, white first: the first one has no pels where the row begins black.
    pub fn of_row(row: &'a Row) -> Self
        ensures { result ≡ runs_of row.now }
    {
        LongestRuns {
            changes: &row.changes[..row.end + 1],
        }
    }

    /// How many runs are still to come.
    pub fn len(&self) -> usize
        ensures count { result ≡ length self.now }
        ensures few { result ≤ 2 ^ 16 }
    {
        self.changes.len() - 1
    }

    /// How many pels the next run has. `None` where no run is left.
    #[inline(always)]
    pub fn next_run(&mut self) -> Option<u32>
        ensures first { MatchOption result (self.old ≡ []) (λ n. self.old ≡ n ∷ self.new) }
        ensures none_left { IfNone result (self.new ≡ []) }
        ensures short { IfSome result (λ n. n < 2 ^ 16) }
    {
        if self.changes.len() < 2 {
            return None;
        }
        let run = self.changes[1] - self.changes[0];
        self.changes = &self.changes[1..];
        Some(run)
    }

    /// How many pels each of the next eight runs has; they are still to come. `None` where fewer
    /// are left.
    #[inline(always)]
    pub fn eight_ahead(&self) -> Option<[u16; 8]>
        ensures { MatchOption result (length self.now < 8)
            (λ runs. (runs ≡ take 8 self.now) × (8 ≤ length self.now)) }
    {
        // The text of `rows` is written by eight runs at a time. `skip` leaves out those that are
        // written.
        if self.changes.len() <= 8 {
            return None;
        }
        let begins = u32x8::from_slice(self.changes);
        let ends = u32x8::from_slice(&self.changes[1..]);
        Some((ends - begins).cast::<u16>().to_array())
    }

    /// Leaves out so many of the next runs, at most all of them.
    #[inline(always)]
    pub fn skip(&mut self, count: usize)
        requires { count ≤ length self.old }
        ensures { self.new ≡ drop count self.old }
    {
        self.changes = &self.changes[count..];
    }
}

/// Whether these are the longest runs of a row of this width.
pub(crate) fn are_longest(runs: &[u32], width: u32) -> bool
    ensures { IsTrue result ↔ AreLongest runs.now width }
{
    let mut remaining = width;
    for (i, n) in runs.iter().enumerate() {
        if (i > 0 && *n == 0) || *n > remaining {
            return false;
        }
        remaining -= *n;
    }
    remaining == 0
}

/// Puts the places where runs end, white first, and returns where these places end.
pub(crate) fn put_runs(changes: &mut [u32], runs: &[u32], width: u32) -> usize
    requires short { width < 2 ^ 16 }
    requires room { HasRoom width changes.old }
    requires whole { sum runs.now ≡ width }
    ensures pels { row_of changes.new result width ≡ pels_of_runs Colour.White runs.now }
    ensures put { AreChangesPut width changes.new result width }
{
    let mut end = 1;
    let mut total = 0;
    for n in runs {
        total += *n;
        end = toggle_change(changes, end, total);
    }
    end
}
