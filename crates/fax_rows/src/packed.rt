//! Rows as packed bytes, as in a raw PBM (the netpbm format, P4): eight pels in a byte, the
//! leftmost in its highest bit, where 1 is black.
ghost use Rattle.std.specs.Prelude.{◌≡◌, ◌+◌, ◌-◌, ◌*◌, ◌<◌, ◌≤◌, ◌^◌, length, IfOk};
ghost use Rattle.std.specs.Prelude.{◌/◌, ◌%◌, ℕ, slice_index, if◌then◌else◌};
ghost use Rattle.fax_bits.specs.Bits.{bits};
ghost use Rattle.fax_bits.specs.declared.FillOrder.TheVariants.{MsbFirst};
ghost use Rattle.fax_rows.specs.Coded as Spec;
ghost use Rattle.fax_rows.specs.code.PackedWord.{IsPackedByte, IsPackedWord, IsWordTo};
ghost use Rattle.fax_rows.specs.code.ChangingElements.{element_pels};
ghost use Rattle.fax_rows.specs.code.ChangeLists.{HasPassed};

use crate::change_list::ChangingElements;
use crate::changes_of_row::{colour_after, put_sentinels};
use crate::pels::Row;
use crate::simd::plain_byte;
use crate::unpacked::changes_of_bits;
use fax_bits::laws::{bits_are_packed_in_one_way, bits_stand_by_index};
use fax_bits::{Colour, Memory};
use std::alloc::Global;

/// How many pels a word has.
pub(crate) const WORD: u32 = 64;

impl Row {
    /// The row of `width` pels, 1 to 65,535, that these bytes hold: pel `i` is black where bit `i`
    /// is 1, the highest bit of each byte first. The bits after the last pel are ignored. The row
    /// has all the memory that one of this width can need. It is for other callers: a row that is
    /// kept takes its pels by `set_packed`.
    ///
    /// # Errors
    ///
    /// `Memory` where a growth was refused.
    pub fn from_packed(alloc: Global, bytes: &[u8], width: u32) -> Result<Row, Memory>
        requires some { 0 < width }
        requires short { width < 2 ^ 16 }
        requires whole { length bytes.now ≡ Spec.packed_len width }
        ensures pels { IfOk result (λ row. row ≡ Spec.unpacked_row width bytes.now) }
        ensures same_width { IfOk result (λ row. length row ≡ width) }
    {
        let mut row = Row::white(alloc, width)?;
        row.set_packed(bytes);
        Ok(row)
    }

    /// Takes the pels that these bytes hold: pel `i` is black where bit `i` is 1, the highest bit
    /// of each byte first. The bits after the last pel are ignored. It takes no memory.
    pub fn set_packed(&mut self, bytes: &[u8])
        requires { length bytes.now ≡ Spec.packed_len (length self.old) }
        ensures pels { self.new ≡ Spec.unpacked_row (length self.old) bytes.now }
        ensures same_width { length self.new ≡ length self.old }
    {
        let changes = self.changes.as_mut_slice();
        let end = changes_of_bits(bytes, changes, self.width);
        self.end = put_sentinels(changes, end, self.width);
    }

    /// Writes the row's pels as bytes, the highest bit of each first, where 1 is black and the bits
    /// after the last pel are 0. `out` has just as many bytes as that takes.
    pub fn to_packed(&self, out: &mut [u8])
        requires { length out.old ≡ Spec.packed_len (length self.now) }
        ensures { out.new ≡ Spec.packed_row self.now }
    {
        pack_row(self.elements(), out);
    }
}

/// Writes the pels of a row as bytes, the highest bit of each first.
fn pack_row(row: ChangingElements, out: &mut [u8])
    requires { length out.old ≡ Spec.packed_len row.width }
    ensures { out.new ≡ Spec.packed_row (element_pels row.entry) }
{
    bits_stand_by_index();
    bits_are_packed_in_one_way();
    let words = row.width / WORD;
    let passed = pack_words(row, words, out);
    if row.width % WORD > 0 {
        let from = 8 * words as usize;
        let remaining = out.len() - from;
        let bytes = last_word(row, words, passed).to_be_bytes();
        out[from..].copy_from_slice(&bytes[..remaining]);
    }
}

/// Writes so many words of 64 pels, and returns how many places of change are passed after them.
fn pack_words(row: ChangingElements, words: u32, out: &mut [u8]) -> usize
    requires within { words ≡ row.width / 64 }
    requires room { 8 * words ≤ length out.old }
    ensures written { (i : ℕ) → i < 8 * words
        → IsPackedByte (element_pels row.entry) (8 * i) (slice_index out.new i) }
    ensures so_far { HasPassed row.entry.changes.now row.entry.end (64 * words) result }
    ensures same_len { length out.new ≡ length out.old }
{
    // Words are turned from each change on; those in which no colour changes are filled. The bytes
    // after the last whole word are packed by runs of bits.
    let mut passed = 1;
    let mut k = 0;
    while k < words {
        let at = 8 * k as usize;
        let change = row.changes[passed] / WORD;
        if k < change {
            // No colour changes in the words before that of the next change.
            fill(
                out,
                at,
                8 * change as usize,
                plain_byte(colour_after(passed)),
            );
            k = change;
        } else {
            let (word, after) = word_up_to(row, k, WORD * k + WORD, passed);
            out[at..at + 8].copy_from_slice(&word.to_be_bytes());
            passed = after;
            k += 1;
        }
    }
    passed
}

/// Writes this byte from a place on up to another.
fn fill(out: &mut [u8], from: usize, to: usize, byte: u8)
    requires order { from ≤ to }
    requires within { to ≤ length out.old }
    ensures before { (i : ℕ) → i < from → slice_index out.new i ≡ slice_index out.old i }
    ensures filled { (i : ℕ) → from ≤ i → i < to → slice_index out.new i ≡ byte }
    ensures same_len { length out.new ≡ length out.old }
{
    for at in from..to {
        out[at] = byte;
    }
}

/// Word `k` of 64 pels, before which so many places of change are passed, with no change from the
/// pel `to` on; and how many are passed before that pel.
#[inline(always)]
fn word_up_to(row: ChangingElements, k: u32, to: u32, passed: usize) -> (u64, usize)
    requires order { 64 * k ≤ to }
    requires inside { to ≤ 64 * k + 64 }
    requires within { to ≤ row.width }
    requires so_far { HasPassed row.changes.now row.end (64 * k) passed }
    ensures word { IsWordTo row.entry (64 * k) result.0 result.1 }
    ensures so_far { HasPassed row.entry.changes.now row.entry.end to result.1 }
{
    let mut word = match colour_after(passed) {
        Colour::White => 0,
        Colour::Black => u64::MAX,
    };
    let mut after = passed;
    while row.changes[after] < to {
        word ^= u64::MAX >> (row.changes[after] % WORD);
        after += 1;
    }
    (word, after)
}

/// Word `k` of 64 pels, in which the row ends, with zeros after the last pel.
fn last_word(row: ChangingElements, k: u32, passed: usize) -> u64
    requires last { k ≡ row.width / 64 }
    requires so_far { HasPassed row.changes.now row.end (64 * k) passed }
    ensures { IsPackedWord (element_pels row.entry) (64 * k) result }
{
    let (word, after) = word_up_to(row, k, row.width, passed);
    match colour_after(after) {
        Colour::White => word,
        Colour::Black => word ^ (u64::MAX >> (row.width % WORD)),
    }
}
