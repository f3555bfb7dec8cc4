//! Places inside strips.
ghost use Rattle.std.specs.Prelude.{◌≡◌, ◌≢◌, ℕ, ◌++◌, ◌<◌, ◌^◌, [], ◌∷◌, List, length};
ghost use Rattle.std.specs.Prelude.{IfOk, IfErr, OnOk, OnErr, decimal};
ghost use Rattle.std.specs.List.{All};
ghost use Rattle.std.specs.String.{string_bytes};
ghost use Rattle.fax_walk.specs.Pages.{LongCursorValue, IsLongCursor, long_cursor_text, runs_text};
ghost use Rattle.fax_walk.specs.code.LongText.{IsNumberCut};

use crate::cursor::{Cursor, number};
use fax_bits::Memory;
use itoa::Buffer;
use std::alloc::Global;
use std::marker::Model;
use thiserror::Error;

/// What a long cursor's text begins with, before the first colon.
const VERSION: u32 = 2;

/// Where to continue inside a strip: a cursor, how many bits of the strip stand before its row, and
/// the runs of the row before it, before any exchange of colours.
// Runs are short for most rows, and say the row whole. That a list is the runs of a row is tested
// before it is taken, so that a forged cursor is outside and nothing else.
#[derive(Debug, Drop)]
pub struct LongCursor {
    pub at: Cursor,
    pub bits: u32,
    pub runs: Vec<u32>,
}

impl Model for LongCursor {
    ghost use Rattle.std.specs.Prelude.{⊤};
    ghost use Rattle.fax_walk.specs.Pages.{LongCursorValue};

    ghost Value = { LongCursorValue };

    ghost view = { λ c. record { at = c.at; bits = c.bits; runs = c.runs.items } };

    ghost invariant = { λ _. ⊤ };
}

/// Why a text was not read as a long cursor.
#[derive(Clone, Copy, Debug, PartialEq, Eq, Error)]
pub enum LongFault {
    /// The text is no long cursor's.
    #[error("not a long cursor")]
    NotACursor,
    /// A growth was refused.
    #[error("memory was refused")]
    Memory,
}

/// The number before the first colon, and what stands after it.
fn split_number(text: &str) -> Option<(u32, &str)>
    ensures { IsNumberCut text.now result }
{
    let (digits, rest) = text.split_once(':')?;
    match number(digits) {
        Ok(number) => Some((number, rest)),
        Err(_) => None,
    }
}

/// Appends the run of these digits.
fn push_run(runs: &mut Vec<u32>, digits: &str) -> Result<(), LongFault>
    ensures ok { OnOk result ((run : ℕ) × (digits.now ≡ decimal run)
        × (runs.new.items ≡ runs.old.items ++ run ∷ []) × (run < 2 ^ 32)) }
    ensures err { IfErr result (λ fault. fault ≡ LongFault.NotACursor
        → (run : ℕ) → run < 2 ^ 32 → digits.now ≢ decimal run) }
{
    match number(digits) {
        Ok(run) => runs.push(run).map_err(|_| LongFault::Memory),
        Err(_) => Err(LongFault::NotACursor),
    }
}

/// The runs of a text, with commas between them.
fn parse_runs(alloc: Global, text: &str) -> Result<Vec<u32>, LongFault>
    ensures ok { IfOk result (λ runs. text.now ≡ runs_text runs.items) }
    ensures some { IfOk result (λ runs. 0 < length runs.items) }
    ensures short { IfOk result (λ runs. All (λ run. run < 2 ^ 32) runs.items) }
    ensures err { IfErr result (λ fault. fault ≡ LongFault.NotACursor → (runs : List ℕ)
        → All (λ run. run < 2 ^ 32) runs → 0 < length runs → text.now ≢ runs_text runs) }
{
    let mut runs = Vec::new(alloc);
    let mut rest = text;
    while let Some((run, after)) = rest.split_once(',') {
        push_run(&mut runs, run)?;
        rest = after;
    }
    push_run(&mut runs, rest)?;
    Ok(runs)
}

/// Appends a text.
fn put(text: &mut String, more: &str) -> Result<(), Memory>
    ensures ok { OnOk result (string_bytes text.new ≡ string_bytes text.old ++ more.now) }
{
    text.push_str(more).map_err(|_| Memory)
}

/// Appends a number in decimals.
fn put_number(text: &mut String, number: u32) -> Result<(), Memory>
    ensures ok { OnOk result (string_bytes text.new ≡ string_bytes text.old ++ decimal number) }
{
    let mut digits = Buffer::new();
    put(text, digits.format(number))
}

/// Appends runs, with commas between them.
fn put_runs(text: &mut String, runs: &[u32]) -> Result<(), Memory>
    ensures ok { OnOk result (string_bytes text.new ≡ string_bytes text.old ++ runs_text runs.now) }
{
    let Some((first, others)) = runs.split_first() else {
        return Ok(());
    };
    put_number(text, *first)?;
    for run in others {
        put(text, ",")?;
        put_number(text, *run)?;
    }
    Ok(())
}

impl LongCursor {
    /// The long cursor of a text `2:P:R:B:n,n,..`, in decimals without leading zeros up to
    /// 4,294,967,295, with at least one run.
    ///
    /// # Errors
    ///
    /// `NotACursor` where the text is no long cursor's, `Memory` where a growth was refused.
    pub fn parse(alloc: Global, text: &str) -> Result<LongCursor, LongFault>
        ensures ok { IfOk result (λ cursor. text.now ≡ long_cursor_text cursor) }
        ensures range { IfOk result (λ cursor. IsLongCursor cursor) }
        ensures err { IfErr result (λ fault. fault ≡ LongFault.NotACursor
            → (place : LongCursorValue) → IsLongCursor place → text.now ≢ long_cursor_text place) }
    {
        let Some((version, place)) = split_number(text) else {
            return Err(LongFault::NotACursor);
        };
        let Some((page, place)) = split_number(place) else {
            return Err(LongFault::NotACursor);
        };
        let Some((row, place)) = split_number(place) else {
            return Err(LongFault::NotACursor);
        };
        let Some((bits, runs)) = split_number(place) else {
            return Err(LongFault::NotACursor);
        };
        if version != VERSION {
            return Err(LongFault::NotACursor);
        }
        Ok(LongCursor {
            at: Cursor { page, row },
            bits,
            runs: parse_runs(alloc, runs)?,
        })
    }

    /// Appends the text to an empty one; where a growth was refused, some of it.
    fn put_parts(&self, text: &mut String) -> Result<(), Memory>
        ensures ok { OnOk result (string_bytes text.new ≡ string_bytes text.old
            ++ long_cursor_text self.now) }
    {
        put_number(text, VERSION)?;
        put(text, ":")?;
        put_number(text, self.at.page)?;
        put(text, ":")?;
        put_number(text, self.at.row)?;
        put(text, ":")?;
        put_number(text, self.bits)?;
        put(text, ":")?;
        put_runs(text, &self.runs)
    }

    /// Appends the long cursor's text. It is made apart, so that no part of it is appended where
    /// memory is refused.
    ///
    /// # Errors
    ///
    /// `Memory` where a growth was refused; the text is then as it was.
    pub fn put_text(&self, text: &mut String) -> Result<(), Memory>
        ensures ok { OnOk result (string_bytes text.new ≡ string_bytes text.old
            ++ long_cursor_text self.now) }
        ensures err { OnErr result (string_bytes text.new ≡ string_bytes text.old) }
    {
        // It takes a long cursor without runs too, whose text is none that is read.
        let mut own = String::new(*text.allocator());
        self.put_parts(&mut own)?;
        text.push_str(own.as_str()).map_err(|_| Memory)
    }
}
