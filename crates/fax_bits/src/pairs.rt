//! A white run and the black one after it, looked up at once, and any two short runs put at once.
ghost use Rattle.std.specs.Prelude.{◌≡◌, ◌<◌, ◌^◌, IfSome};
ghost use Rattle.fax_bits.specs.Bits.{code_bits};
ghost use Rattle.fax_bits.specs.code.Pairs.{IsPairAhead};
ghost use Rattle.fax_bits.specs.views.Pairs.{pair_bits};

use crate::codes::LONGEST_CODE;
use crate::indexes::{BLACK_PAIR_CODES, BLACK_PAIR_LENS, PAIRS, WHITE_PAIR_CODES, WHITE_PAIR_LENS};
use crate::{Colour, PendingBits};

/// Runs of fewer pels than this are short: two of them, one after the other, are put at once.
pub const SHORT_RUN: u32 = 16;

/// A white run and the black one after it, by the pels that they have.
#[derive(Clone, Copy, Debug, PartialEq, Eq)]
pub struct RunPair {
    pub white: u32,
    pub black: u32,
}

/// The pair whose terminating codes begin thirteen bits, of which they take twelve at most, and how
/// many they take. Each of its runs has pels. `None` where no such pair does.
#[inline(always)]
pub(crate) fn find_pair(bits: u32) -> Option<(u32, RunPair)>
    requires { bits < 2 ^ LONGEST_CODE }
    ensures { IfSome result
        (λ found. IsPairAhead (code_bits LONGEST_CODE bits) found.0 found.1) }
{
    // The three arrays are one static, so that they have one address in a register. `make-indexes`
    // prints them; a computed proof goes through all 4,096 numbers.
    let at = (bits >> 1) as usize;
    let len = PAIRS.lens[at];
    if len == 0 {
        return None;
    }
    let pair = RunPair {
        white: u32::from(PAIRS.whites[at]),
        black: u32::from(PAIRS.blacks[at]),
    };
    Some((u32::from(len), pair))
}

/// The terminating codes of a short run of the colour and of a short run of the other colour after
/// it.
#[inline(always)]
pub(crate) fn short_pair_code(colour: Colour, first: u32, second: u32) -> PendingBits
    requires first { first < SHORT_RUN }
    requires second { second < SHORT_RUN }
    ensures { result ≡ pair_bits colour first second }
{
    // The codes of both stand together in arrays of 256, for white first and for black first, which
    // `make-indexes` prints; a computed proof compares each with the code tables.
    let at = (first * SHORT_RUN + second) as usize;
    let (code, len) = match colour {
        Colour::White => (WHITE_PAIR_CODES[at], WHITE_PAIR_LENS[at]),
        Colour::Black => (BLACK_PAIR_CODES[at], BLACK_PAIR_LENS[at]),
    };
    PendingBits::of(u32::from(code), u32::from(len))
}
