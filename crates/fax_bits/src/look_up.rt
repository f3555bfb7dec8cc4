//! What one look-up of the next bits finds: a run, a white run and the black one after it, a mode.
ghost use Rattle.std.specs.Prelude.{◌≡◌, ◌+◌, ◌^◌, ◌<◌, ◌≤◌, ◌++◌, length};
ghost use Rattle.std.specs.Prelude.{IfSome, IsSome, None, take, replicate, true, false, IsTrue};
ghost use Rattle.std.specs.Prelude.{◌∷◌, ℕ};
ghost use Rattle.fax_bits.specs.Codes.{Decodes, IsRun};
ghost use Rattle.fax_bits.specs.Tables.{modes};
ghost use Rattle.fax_bits.specs.Written.{run_bits};
ghost use Rattle.fax_bits.specs.views.Pairs.{IsPairRead, IsHorizontalPairRead};
ghost use Rattle.fax_bits.specs.views.Source.{KeepsEnd};
ghost use Rattle.fax_bits.specs.views.Verticals.{AreVerticalsRead};
ghost use Rattle.fax_bits.specs.Bits.{code_bits};
ghost use Rattle.fax_bits.specs.code.LookUp.{IsBegun, IsOneRun, IsHorizontalPair};

use crate::codes::LONGEST_CODE;
use crate::mode_codes::{HORIZONTAL_CODE, HORIZONTAL_LEN, ModeCode, find_mode};
use crate::pairs::{RunPair, find_pair};
use crate::run_codes::{RunCode, find_run_code};
use crate::verticals::{Verticals, find_verticals};
use crate::{BitSource, Colour};

/// How many bits are looked at: those of a make-up code and a terminating code, and some more.
const LOOKUP_BITS: u32 = 32;

/// How many of them stand after those of the longest code.
const AFTER_CODE: u32 = LOOKUP_BITS - LONGEST_CODE;

/// How many bits are looked at for horizontal mode and its two runs.
const HORIZONTAL_LOOKUP_BITS: u32 = HORIZONTAL_LEN + LONGEST_CODE;

/// The length of a run of the colour that begins thirty-two bits, of one make-up code at most, and
/// how many pels it has. `None` says nothing of the bits.
#[inline(always)]
fn find_whole_run(colour: Colour, bits: u32) -> Option<(u32, u32)>
    ensures { IfSome result
        (λ found. IsBegun (IsOneRun colour) (code_bits LOOKUP_BITS bits) found.0 found.1) }
{
    let (first, code) = find_run_code(colour, bits >> AFTER_CODE)?;
    match code {
        RunCode::Terminating(pels) => Some((first, u32::from(pels))),
        RunCode::MakeUp(more) => {
            let next = find_run_code(colour, (bits << first) >> AFTER_CODE)?;
            let (second, RunCode::Terminating(last)) = next else {
                return None;
            };
            Some((first + second, u32::from(more) + u32::from(last)))
        }
        RunCode::Extension => None,
    }
}

/// The code of horizontal mode and the pair whose terminating codes come after it, where they begin
/// sixteen bits, and how many of these they take. `None` says nothing of the bits.
#[inline(always)]
fn find_horizontal_pair(bits: u32) -> Option<(u32, RunPair)>
    ensures { IfSome result (λ found.
        IsBegun IsHorizontalPair (code_bits HORIZONTAL_LOOKUP_BITS bits) found.0 found.1) }
{
    if bits >> LONGEST_CODE != HORIZONTAL_CODE {
        return None;
    }
    let (len, pair) = find_pair(bits % (1 << LONGEST_CODE))?;
    Some((HORIZONTAL_LEN + len, pair))
}

impl<'a> BitSource<'a> {
    /// Reads a white run and the black one after it by one look-up, in a row of `width` pels of
    /// which `total` stand before them (T.4, section 4.1.1). Where they go past the row's end, or
    /// where that look-up has no such pair, the source is as it was.
    #[inline(always)]
    pub fn try_read_run_pair(&mut self, total: u32, width: u32) -> Option<RunPair>
        requires { total < 2 ^ 31 }
        ensures runs { IfSome result (λ pair. IsPairRead self.old.remaining pair self.new.remaining) }
        ensures within { IfSome result (λ pair. total + pair.white + pair.black ≤ width) }
        ensures unchanged { result ≡ None → self.new ≡ self.old }

        // The source continues in the same bits.
        ensures same_end { KeepsEnd self.old self.new }
        ensures shorter { IsSome result → length self.new.remaining < length self.old.remaining }
    {
        // A look-up for each run took nearly half of the time of a dithered page's one-dimensional
        // rows. To compare the sum with the width takes fewer steps than to compute what is left of
        // it.
        self.window = self.window.loaded(self.bytes, self.order)?;
        let (len, pair) = find_pair(self.window.number(LOOKUP_BITS) >> AFTER_CODE)?;
        if total + pair.white + pair.black > width {
            return None;
        }
        self.window = self.window.after(len);
        Some(pair)
    }

    /// Reads horizontal mode with a white run and the black one after it by one look-up, in a row
    /// of `width` pels of which `total` stand before them (T.4, sections 4.1.1 and 4.2.1.3.2).
    /// Where they go past the row's end, or where that look-up has no such pair, the source is as
    /// it was.
    #[inline(always)]
    pub fn try_read_horizontal(&mut self, total: u32, width: u32) -> Option<RunPair>
        requires { total < 2 ^ 31 }
        ensures read { IfSome result
            (λ pair. IsHorizontalPairRead self.old.remaining pair self.new.remaining) }
        ensures within { IfSome result (λ pair. total + pair.white + pair.black ≤ width) }
        ensures unchanged { result ≡ None → self.new ≡ self.old }

        // The source continues in the same bits.
        ensures same_end { KeepsEnd self.old self.new }
        ensures shorter { IsSome result → length self.new.remaining < length self.old.remaining }
    {
        self.window = self
            .window
            .loaded_for(HORIZONTAL_LOOKUP_BITS, self.bytes, self.order)?;
        let (len, pair) = find_horizontal_pair(self.window.number(HORIZONTAL_LOOKUP_BITS))?;
        let end = total + pair.white + pair.black;
        if end > width {
            return None;
        }
        self.window = self.window.after(len);
        Some(pair)
    }

    /// Reads a run of the colour, of one make-up code at most and of at most so many pels (T.4,
    /// section 4.1.1). Where it has more, or is not found so, the source is as it was.
    #[inline(always)]
    pub fn try_read_run(&mut self, colour: Colour, most: u32) -> Option<u32>
        ensures run { IfSome result (λ pels. IsRun colour self.old.remaining pels self.new.remaining) }
        ensures written { IfSome result
            (λ pels. self.old.remaining ≡ run_bits colour pels ++ self.new.remaining) }
        ensures few { IfSome result (λ pels. pels ≤ most) }
        ensures unchanged { result ≡ None → self.new ≡ self.old }

        // The source continues in the same bits.
        ensures same_end { KeepsEnd self.old self.new }
        ensures shorter { IsSome result → length self.new.remaining < length self.old.remaining }
    {
        // Each look-up is a few lines of its own: one generic function for all of them needed a
        // trait, and a type for each of what is looked up. Both codes of a run are found in
        // thirty-two bits, so that no source has to be put back after the first of them.
        self.window = self.window.loaded(self.bytes, self.order)?;
        let (len, pels) = find_whole_run(colour, self.window.number(LOOKUP_BITS))?;
        if pels > most {
            return None;
        }
        self.window = self.window.after(len);
        Some(pels)
    }

    /// Reads a mode by one look-up at most (T.4, table 4). Vertical modes are looked for first, or
    /// with `SELDOM_VERTICAL` last, but for the one that a loaded bit shows. Where it finds none,
    /// the source is as it was.
    #[inline(always)]
    pub fn try_read_mode<const SELDOM_VERTICAL: bool>(&mut self) -> Option<ModeCode>
        ensures takes { IfSome result (λ mode. Decodes modes self.old.remaining mode self.new.remaining) }
        ensures unchanged { result ≡ None → self.new ≡ self.old }

        // The source continues in the same bits.
        ensures same_end { KeepsEnd self.old self.new }
        ensures shorter { IsSome result → length self.new.remaining < length self.old.remaining }
    {
        // One loaded bit alone shows that a1 is under b1, as it is in most modes of a page. Where
        // no look-up finds the mode, as near the end of the bytes, the caller reads it by
        // `read_code`.
        if self.window.begins_with_one() {
            self.window = self.window.after(1);
            return Some(ModeCode::Vertical(0));
        }
        self.window = self.window.loaded(self.bytes, self.order)?;
        let (len, mode) = find_mode::<SELDOM_VERTICAL>(
            self.window.number(LOOKUP_BITS) >> AFTER_CODE,
        )?;
        self.window = self.window.after(len);
        Some(mode)
    }

    /// Reads vertical modes by one look-up: two to four of them, of twelve bits at most (T.4, table
    /// 4). Where it finds no two, the source is as it was.
    #[inline(always)]
    pub fn try_read_verticals(&mut self) -> Option<Verticals>
        ensures read { IfSome result (λ found. AreVerticalsRead self.old.remaining found self.new.remaining) }
        ensures unchanged { result ≡ None → self.new ≡ self.old }

        // The source continues in the same bits.
        ensures same_end { KeepsEnd self.old self.new }
        ensures shorter { IsSome result → length self.new.remaining < length self.old.remaining }
    {
        self.window = self.window.loaded(self.bytes, self.order)?;
        let (len, found) = find_verticals(self.window.number(LOOKUP_BITS) >> AFTER_CODE)?;
        self.window = self.window.after(len);
        Some(found)
    }

    /// So many ones are next. More of them may follow.
    #[inline(always)]
    pub fn ones(&self) -> u32
        ensures ones { take result self.now.remaining ≡ replicate result true }
        ensures within { result ≤ length self.now.remaining }
    {
        self.window.ones()
    }

    /// Skips ones that are next, at most so many of them, and says how many they are. More of them
    /// may follow.
    #[inline(always)]
    pub fn skip_ones(&mut self, most: u32) -> u32
        requires { most ≤ 32 }
        ensures ones { self.old.remaining ≡ replicate result true ++ self.new.remaining }
        ensures few { result ≤ most }

        // The source continues in the same bits.
        ensures same_end { KeepsEnd self.old self.new }
    {
        let count = self.window.ones().min(most);
        self.window = self.window.after(count);
        count
    }

    /// Skips zeros that are next, `least` of them or more, and the 1 after them, by one look-up,
    /// and returns whether it finds them so. Else the source is as it was.
    #[inline(always)]
    pub fn skip_zeros_and_one(&mut self, least: u32) -> bool
        ensures past { IsTrue result → (zeros : ℕ) × (least ≤ zeros)
            × (self.old.remaining ≡ replicate zeros false ++ true ∷ self.new.remaining) }
        ensures unchanged { result ≡ false → self.new.remaining ≡ self.old.remaining }

        // The source continues in the same bits.
        ensures same_end { KeepsEnd self.old self.new }
    {
        // An EOL is so where it stands in thirty-two bits; fill that is longer goes by bytes.
        let Some(ahead) = self.window.loaded(self.bytes, self.order) else {
            return false;
        };
        let zeros = ahead.zeros();
        if zeros < least || zeros >= LOOKUP_BITS {
            return false;
        }
        self.window = ahead.after(zeros + 1);
        true
    }
}
