//! Bits of bytes, read from a place on.
ghost use Rattle.std.specs.Prelude.{◌≡◌, ◌+◌, ◌≤◌, ◌<◌, ◌++◌, length, take, drop, replicate};
ghost use Rattle.std.specs.Prelude.{slice_index_or, false, MatchOption, IsTrue, ◌↔◌};
ghost use Rattle.std.specs.Prelude.{◌^◌, ◌-◌};
ghost use Rattle.fax_bits.specs.Bits.{bits, IsAllZeros, code_bits, StartsWith};
ghost use Rattle.fax_bits.specs.views.Source.{HasLeadingZeros, IsTaken, KeepsEnd, SkipsShortZeros};
ghost use Rattle.fax_bits.specs.Bits.{bits_number};
ghost use Rattle.fax_bits.specs.laws.Codes.{bit_in_byte};
ghost use Rattle.fax_bits.specs.code.Source.{IsZeroByteAt};

use crate::FillOrder;
use crate::window::Window;
use crate::zero_runs::skip_short_zeros;
use std::marker::Model;

/// A place in the bits of some bytes. Contracts see the bits from there on and the number of bits
/// before it. Some of the next bits are loaded; past the end of the bytes there are none.
// The order stands last, so that the copy of a source, one for each row, has no odd pieces.
#[derive(Drop)]
pub struct BitSource<'a> {
    pub(crate) bytes: &'a [u8],
    pub(crate) window: Window,
    pub(crate) order: FillOrder,
}

impl<'a> Model for BitSource<'a> {
    ghost use Rattle.fax_bits.specs.views.Source.{Source, source_of};
    ghost use Rattle.fax_bits.specs.code.BitsAhead.{IsAhead, bit_offset};

    ghost Value = { Source };

    ghost view = { λ s. source_of s.order s.bytes.now (bit_offset s.window) };

    ghost invariant = { λ s. IsAhead s.order s.bytes.now s.window };
}

impl<'a> BitSource<'a> {
    ghost use Rattle.fax_bits.specs.views.Source.{source_of};

    /// The first bit of at most 4,294,967,295 bytes; `order` says which bit of a byte comes first
    /// (TIFF 6.0, FillOrder).
    #[inline(never)]
    pub fn new(bytes: &'a [u8], order: FillOrder) -> Self
        requires count { length bytes.now ≤ 4294967295 }
        ensures { result ≡ source_of order bytes.now 0 }
    {
        BitSource {
            bytes,
            window: Window::new(0).filled(bytes, order),
            order,
        }
    }

    /// How many bits were skipped since the first one.
    pub fn place(&self) -> u64
        ensures { result ≡ self.now.place }
    {
        self.window.place()
    }

    /// How many bits are left.
    pub fn remaining(&self) -> u64
        ensures { result ≡ length self.now.remaining }
    {
        (self.bytes.len() - self.window.at) as u64 * 8 + u64::from(self.window.count)
    }

    /// The bit that is `i` bits ahead.
    pub(crate) fn bit(&self, i: u64) -> bool
        requires { i < length self.now.remaining }
        ensures { result ≡ slice_index_or self.now.remaining i false }
    {
        let at = self.window.place() + i;
        let byte = self.bytes[(at / 8) as usize];
        (byte >> bit_in_byte(self.order, at % 8)) & 1 == 1
    }

    /// The number that the next `n` bits spell, 0 to 32 of them, the highest first. Past the end of
    /// the bytes it sees zeros, which are no bits: `remaining` says how many bits there are.
    pub fn peek(&self, n: u32) -> u32
        requires { n ≤ 32 }
        ensures { result ≡ bits_number (take n (self.now.remaining ++ replicate n false)) }
    {
        if n == 0 {
            return 0;
        }
        if n <= self.window.count {
            return self.window.number(n);
        }
        self.window.filled(self.bytes, self.order).number(n)
    }

    /// The byte that begins `i` bits ahead is whole and all zeros. `false` where no byte begins
    /// there.
    fn is_zero_byte(&self, i: u64) -> bool
        requires { i < length self.now.remaining }
        ensures { IsTrue result → IsZeroByteAt self.now.remaining i }
    {
        let at = self.window.place() + i;
        at % 8 == 0 && self.bytes[(at / 8) as usize] == 0
    }

    /// How many zeros stand before the next 1, or `None` where no 1 is left.
    pub fn zeros(&self) -> Option<u64>
        ensures { MatchOption result (IsAllZeros self.now.remaining) (HasLeadingZeros self.now.remaining) }
    {
        let zeros = self.window.zeros();
        if zeros < self.window.count {
            return Some(u64::from(zeros));
        }
        self.zeros_slow()
    }

    /// What `zeros` says where no 1 is loaded.
    #[inline(never)]
    fn zeros_slow(&self) -> Option<u64>
        ensures { MatchOption result (IsAllZeros self.now.remaining) (HasLeadingZeros self.now.remaining) }
    {
        let ahead = self.window.filled(self.bytes, self.order);
        let zeros = ahead.zeros();
        if zeros < ahead.count {
            return Some(u64::from(zeros));
        }
        self.zeros_bytewise()
    }

    /// What `zeros` says, by bytes and bits: in fill, and near the end of the bytes.
    #[inline(never)]
    fn zeros_bytewise(&self) -> Option<u64>
        ensures { MatchOption result (IsAllZeros self.now.remaining) (HasLeadingZeros self.now.remaining) }
    {
        let remaining = self.remaining();
        let mut zeros = 0;
        while zeros < remaining {
            if self.is_zero_byte(zeros) {
                zeros += 8;
            } else if self.bit(zeros) {
                return Some(zeros);
            } else {
                zeros += 1;
            }
        }
        None
    }

    /// The same place once more.
    #[inline(always)]
    pub fn fork(&self) -> Self
        ensures { result ≡ self.now }
    {
        // A reader of rows works on a copy, which the compiler keeps in registers, and goes to
        // where the copy stands at the row's end.
        // By its fields, so that a copy in registers has no gaps that are copied too.
        BitSource {
            bytes: self.bytes,
            window: self.window.fork(),
            order: self.order,
        }
    }

    /// Goes to the place of another source.
    #[inline(always)]
    pub fn advance_to(&mut self, other: &BitSource<'a>)
        ensures { self.new ≡ other.now }
    {
        // By its fields, so that a copy in registers has no gaps that are copied too.
        self.bytes = other.bytes;
        self.window = other.window.fork();
        self.order = other.order;
    }

    /// Skips the lowest `len` bits of `bits`, 0 to 32 of them, the highest first, where they stand
    /// next, and returns whether they do. Else it stays.
    pub fn take(&mut self, bits: u32, len: u32) -> bool
        requires short { len ≤ 32 }
        requires fits { bits < 2 ^ len }
        ensures taken { IsTaken (code_bits len bits) self.old.remaining result self.new.remaining }

        // The source continues in the same bits.
        ensures same_end { KeepsEnd self.old self.new }
    {
        if len == 0 {
            return true;
        }
        let ahead = self.window.filled(self.bytes, self.order);
        if ahead.count < len || ahead.number(len) != bits {
            return false;
        }
        self.window = ahead.after(len);
        true
    }

    /// Whether the lowest `len` bits of `bits`, 0 to 48 of them, the highest first, stand next.
    pub(crate) fn starts_with(&self, bits: u64, len: u32) -> bool
        requires short { len ≤ 48 }
        requires fits { bits < 2 ^ len }
        ensures { IsTrue result ↔ StartsWith self.now.remaining (code_bits len bits) }
    {
        let low = len / 2;
        let mut ahead = self.fork();
        if !ahead.take((bits >> low) as u32, len - low) {
            return false;
        }
        ahead.take((bits & ((1 << low) - 1)) as u32, low)
    }

    /// Advances by `n` bits.
    #[inline(always)]
    pub fn skip(&mut self, n: u64)
        requires { n ≤ length self.old.remaining }
        ensures { self.new ≡ record { remaining = drop n self.old.remaining; place = self.old.place + n } }
    {
        if n <= u64::from(self.window.count) && n < 64 {
            self.window = self.window.after(n as u32);
        } else {
            self.skip_slow(n);
        }
    }

    /// Advances to a place.
    #[inline(always)]
    pub fn skip_to(&mut self, place: u64)
        requires ahead { self.old.place ≤ place }
        requires within { place ≤ self.old.place + length self.old.remaining }
        ensures { self.new
            ≡ record { remaining = drop (place - self.old.place) self.old.remaining; place = place } }
    {
        // By its fields, so that the window that is gone on with need not stand in memory.
        let window = Window::at_bit_offset(self.bytes, self.order, place);
        self.window = window.fork();
    }

    /// Advances by some bits, at none of which eleven zeros begin, as an EOL does (T.4, section
    /// 4.1.2): to where they may, as a word at a time tells, or near the end of the bytes.
    #[inline(never)]
    pub fn skip_short_zeros(&mut self)
        ensures { SkipsShortZeros self.old self.new }
    {
        let place = self.window.place();
        let byte = (place / 8) as usize;
        let at = skip_short_zeros(self.bytes, byte, self.order);
        if at > byte {
            self.skip_to(at as u64 * 8);
        }
    }

    /// What `skip` does past bits that are not loaded.
    #[inline(never)]
    fn skip_slow(&mut self, n: u64)
        requires { n ≤ length self.old.remaining }
        ensures { self.new ≡ record { remaining = drop n self.old.remaining; place = self.old.place + n } }
    {
        let place = self.window.place() + n;
        let ahead = self.window.filled(self.bytes, self.order);
        if n <= u64::from(ahead.count) && n < 64 {
            self.window = ahead.after(n as u32);
            return;
        }
        self.window = Window::at_bit_offset(self.bytes, self.order, place);
    }
}

/// Which bit of a byte, 0 the lowest, is coded at a place of its eight bits (TIFF 6.0, FillOrder).
fn bit_in_byte(order: FillOrder, place: u64) -> u64
    requires { place < 8 }
    ensures { result ≡ bit_in_byte order place }
{
    match order {
        FillOrder::MsbFirst => 7 - place,
        FillOrder::LsbFirst => place,
    }
}
