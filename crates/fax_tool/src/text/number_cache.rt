//! NumberCache of numbers, each after a blank, which `itoa` makes once and which are then
//! remembered.
ghost use Rattle.std.specs.Prelude.{◌≡◌, ℕ, ◌+◌, ◌<◌, ◌≤◌, ◌++◌, length, take};
ghost use Rattle.std.specs.Prelude.{IfSome, IsTrue};
ghost use Rattle.fax_tool.specs.Text.{and_number};
ghost use Rattle.fax_tool.specs.code.Remembered.{AreBelow, AreIndexesOf, IsMadeAt, IsIndexOf};
ghost use Rattle.fax_tool.specs.code.Remembered.{IsText};

use crate::text::output_buffer::write_bytes;
use itoa::Buffer;
use std::marker::Model;
use std::simd::prelude::*;

/// How many bytes a text that is remembered has room for.
const ROOM: usize = 8;

/// The texts of the numbers below this one are remembered.
pub const NUMBERS: u16 = 2_048;

/// The texts of two numbers below this one, one after the other, are remembered together.
pub const PAIRED: u16 = 64;

/// How many texts of two numbers there are.
const PAIRS: usize = 4_096;

/// A text of few bytes, which are the first `len` of these: none, where it is not made yet.
#[derive(Clone, Copy)]
pub(crate) struct CachedText {
    pub(crate) bytes: [u8; ROOM],
    pub(crate) len: usize,
}

/// A text that is not made yet.
const NOT_MADE: CachedText = CachedText {
    bytes: [0; ROOM],
    len: 0,
};

/// The texts of numbers, and of two numbers, as far as they were asked for.
#[derive(Drop)]
pub struct NumberCache {
    /// By the number.
    ones: [CachedText; NUMBERS as usize],
    /// By `PAIRED` times the first number and the second.
    pairs: [CachedText; PAIRS],
}

impl Model for NumberCache {
    ghost use Rattle.fax_tool.specs.code.Remembered.{AreNumbers, ArePairs};

    ghost Value = { Unit {0} };

    ghost view = { λ _. tt };

    ghost invariant = { λ texts. AreNumbers texts.ones × ArePairs texts.pairs };
}

/// The text at an index, if it is made.
#[inline(always)]
fn made_at(texts: &[CachedText], index: usize) -> Option<CachedText>
    requires { index < length texts.now }
    ensures { IfSome result (IsMadeAt texts.now index) }
{
    let text = texts[index];
    if text.len > 0 { Some(text) } else { None }
}

/// Writes a blank and a number at an offset, and returns where they end.
#[inline(never)]
fn write_any(bytes: &mut [u8], at: usize, number: u32) -> usize
    requires { at + length (and_number number) ≤ length bytes.old }
    ensures written { take result bytes.new ≡ take at bytes.old ++ and_number number }
    ensures end { result ≡ at + length (and_number number) }
    ensures same_len { length bytes.new ≡ length bytes.old }
{
    let mut digits = Buffer::new();
    let end = write_bytes(bytes, at, b" ");
    write_bytes(bytes, end, digits.format(number).as_bytes())
}

/// The text of a number.
#[cold]
#[inline(never)]
fn number_text(number: u32) -> CachedText
    requires { number < 2048 }
    ensures { IsText (and_number number) result }
{
    let mut bytes = [0; ROOM];
    let len = write_any(&mut bytes, 0, number);
    CachedText { bytes, len }
}

/// The text of two numbers, one after the other.
#[cold]
#[inline(never)]
fn pair_text(first: u32, second: u32) -> CachedText
    requires first { first < 64 }
    requires second { second < 64 }
    ensures { IsText (and_number first ++ and_number second) result }
{
    let mut bytes = [0; ROOM];
    let end = write_any(&mut bytes, 0, first);
    let len = write_any(&mut bytes, end, second);
    CachedText { bytes, len }
}

/// Whether eight numbers are all below a limit.
#[inline(always)]
pub fn are_below(numbers: [u16; 8], limit: u16) -> bool
    ensures { IsTrue result → AreBelow limit numbers }
{
    u16x8::from_array(numbers)
        .simd_ge(u16x8::splat(limit))
        .to_bitmask()
        == 0
}

/// The indexes of the texts of eight numbers below `PAIRED`, two by two.
#[inline(always)]
pub fn pair_indexes(numbers: [u16; 8]) -> [u16; 4]
    requires { AreBelow 64 numbers }
    ensures { AreIndexesOf numbers result }
{
    let lanes = u16x8::from_array(numbers);
    let firsts = lanes.swizzle([0, 2, 4, 6]);
    let seconds = lanes.swizzle([1, 3, 5, 7]);
    (firsts * u16x4::splat(PAIRED) + seconds).to_array()
}

/// Writes a text at an offset, and returns where it ends. The bytes after it, up to eight from its
/// beginning on, are written over.
#[inline(always)]
fn put_short(bytes: &mut [u8], at: usize, text: CachedText) -> usize
    requires room { at + 8 ≤ length bytes.old }
    requires eight { length text.bytes ≡ 8 }
    requires few { text.len ≤ 8 }
    ensures written { take result bytes.new ≡ take at bytes.old ++ take text.len text.bytes }
    ensures end { result ≡ at + text.len }
    ensures same_len { length bytes.new ≡ length bytes.old }
{
    bytes[at..at + ROOM].copy_from_slice(&text.bytes);
    at + text.len
}

impl NumberCache {
    /// None is made yet.
    pub fn new() -> Self {
        NumberCache {
            ones: [NOT_MADE; NUMBERS as usize],
            pairs: [NOT_MADE; PAIRS],
        }
    }

    /// Writes a blank and a number below `NUMBERS` at an offset, and returns where they end. Eight
    /// bytes from there on may be written over.
    #[inline(always)]
    pub fn write_cached(&mut self, bytes: &mut [u8], at: usize, number: u16) -> usize
        requires below { number < 2048 }
        requires room { at + 8 ≤ length bytes.old }
        ensures written { take result bytes.new ≡ take at bytes.old ++ and_number number }
        ensures end { result ≡ at + length (and_number number) }
        ensures within { result ≤ at + 6 }
        ensures same_len { length bytes.new ≡ length bytes.old }
    {
        let index = usize::from(number);
        if let Some(text) = made_at(&self.ones, index) {
            return put_short(bytes, at, text);
        }
        let text = number_text(u32::from(number));
        self.ones[index] = text;
        put_short(bytes, at, text)
    }

    /// Writes a blank and a number at an offset, and returns where they end. Eleven bytes from
    /// there
    /// on may be written over.
    #[inline(always)]
    pub fn write_number(&mut self, bytes: &mut [u8], at: usize, number: u32) -> usize
        requires { at + 11 ≤ length bytes.old }
        ensures written { take result bytes.new ≡ take at bytes.old ++ and_number number }
        ensures end { result ≡ at + length (and_number number) }
        ensures within { result ≤ at + 11 }
        ensures same_len { length bytes.new ≡ length bytes.old }
    {
        if number >= u32::from(NUMBERS) {
            return write_any(bytes, at, number);
        }
        self.write_cached(bytes, at, number as u16)
    }

    /// Writes two numbers below `PAIRED` at an offset, each after a blank, and returns where they
    /// end: those whose text stands at this index among the texts of two numbers. Eight bytes from
    /// there on may be written over.
    #[inline(always)]
    pub fn write_pair(&mut self, bytes: &mut [u8], at: usize, index: u16) -> usize
        requires index { index < 4096 }
        requires room { at + 8 ≤ length bytes.old }
        ensures written { (first second : ℕ) → IsIndexOf first second index
            → take result bytes.new
            ≡ take at bytes.old ++ (and_number first ++ and_number second) }
        ensures within { result ≤ at + 8 }
        ensures same_len { length bytes.new ≡ length bytes.old }
    {
        if let Some(text) = made_at(&self.pairs, usize::from(index)) {
            return put_short(bytes, at, text);
        }
        let text = pair_text(u32::from(index / PAIRED), u32::from(index % PAIRED));
        self.pairs[usize::from(index)] = text;
        put_short(bytes, at, text)
    }
}
