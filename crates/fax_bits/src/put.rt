//! The codes of runs and modes as they are written: put into a sink or after pending bits, or
//! looked for in a source (ITU-T T.4, sections 4.1.1 and 4.2.1.3.2).
ghost use Rattle.std.specs.Prelude.{◌≡◌, ◌*◌, ◌<◌, ◌≤◌, ◌^◌, ◌++◌, length, OnOk, OnErr, IfOk};
ghost use Rattle.fax_bits.specs.declared.mode_codes.ModeCode.TheVariants.{Vertical};
ghost use Rattle.fax_bits.specs.declared.run_codes.RunCode.TheVariants.{MakeUp};
ghost use Rattle.fax_bits.specs.Written.{run_codes, run_code_bits, run_bits, mode_bits};
ghost use Rattle.fax_bits.specs.views.Codes.{IsWritten};
ghost use Rattle.fax_bits.specs.views.Pairs.{pair_bits};
ghost use Rattle.fax_bits.specs.views.Sink.{Appends, AppendsCodes, AppendsPrefix, AppendsAllBut};
ghost use Rattle.fax_bits.specs.views.Source.{IsTaken, KeepsEnd};
ghost use Rattle.fax_bits.specs.code.Codes.{run_meaning};

use crate::codes::LONGEST_CODE;
use crate::pairs::{SHORT_RUN, short_pair_code};
use crate::run_codes::{TERMINATING_CODES, run_entry};
use crate::{BitSink, BitSource, Colour, Memory, ModeCode, PendingBits};

/// The codes of vertical modes, from a1 three pels left of b1 to three pels right of it (T.4,
/// table 4): small, since most modes of a page are written by them.
pub(crate) struct VerticalCodes {
    pub codes: [u8; 7],
    /// Their lengths in bits.
    pub lens: [u8; 7],
}

pub(crate) static VERTICAL_CODES: VerticalCodes = VerticalCodes {
    codes: [0b0000010, 0b000010, 0b010, 0b1, 0b011, 0b000011, 0b0000011],
    lens: [7, 6, 3, 1, 3, 6, 7],
};

/// The code at an index of the run table of a colour.
#[inline(always)]
fn run_code(colour: Colour, index: usize) -> PendingBits
    requires { index < 105 }
    ensures bits { result ≡ run_code_bits colour (run_meaning index) }
    ensures short { length result ≤ LONGEST_CODE }
{
    let entry = run_entry(colour, index);
    PendingBits::of(u32::from(entry.code), u32::from(entry.len))
}

/// The make-up code of so many times 64 pels, 1 to 40 times (T.4, tables 3a and 3b).
#[inline(always)]
fn make_up_code(colour: Colour, steps: u32) -> PendingBits
    requires some { 0 < steps }
    requires few { steps ≤ 40 }
    ensures bits { result ≡ run_code_bits colour (MakeUp (64 * steps)) }
    ensures short { length result ≤ LONGEST_CODE }
{
    run_code(colour, usize::from(TERMINATING_CODES) - 1 + steps as usize)
}

/// The codes of a run of `n` pels, fewer than 2560: at most one make-up code, and a terminating
/// code (T.4, section 4.1.1).
#[inline(always)]
fn codes_of_run(colour: Colour, n: u32) -> PendingBits
    requires { n < 2560 }
    ensures { result ≡ run_bits colour n }
{
    if n < 64 {
        return run_code(colour, n as usize);
    }
    make_up_code(colour, n / 64).then(run_code(colour, (n % 64) as usize))
}

/// The code of vertical mode with a1 `d` pels right of b1, -3 to 3 (T.4, section 4.2.1.3.2 and
/// table 4).
#[inline(always)]
fn vertical_code(d: i8) -> PendingBits
    requires { IsWritten (Vertical d) }
    ensures { result ≡ mode_bits (Vertical d) }
{
    let index = (i32::from(d) + 3) as usize;
    PendingBits::of(
        u32::from(VERTICAL_CODES.codes[index]),
        u32::from(VERTICAL_CODES.lens[index]),
    )
}

/// The code of a mode (T.4, section 4.2.1.3.2 and table 4).
#[inline(always)]
fn mode_code(mode: ModeCode) -> PendingBits
    requires { IsWritten mode }
    ensures { result ≡ mode_bits mode }
{
    match mode {
        ModeCode::Pass => PendingBits::of(0b0001, 4),
        ModeCode::Horizontal => PendingBits::of(0b001, 3),
        ModeCode::Vertical(d) => vertical_code(d),
        // An extension is not written.
        ModeCode::Extension => PendingBits::none(),
    }
}

/// Puts a run of `n` pels, below 65,536, as codes of its colour: 2560 as often as it fits, at most
/// one other make-up code, a terminating code (T.4, section 4.1.1).
///
/// # Errors
///
/// Where a growth was refused. Some of these codes may have been put then, from the first on and
/// each of them whole.
pub fn put_run(sink: &mut BitSink, colour: Colour, n: u32) -> Result<(), Memory>
    requires { n < 2 ^ 16 }
    ensures ok { OnOk result (Appends sink.old (run_bits colour n) sink.new) }
    ensures err { OnErr result (AppendsCodes sink.old colour (run_codes n) sink.new) }
{
    for _ in 0..n / 2560 {
        make_up_code(colour, 40).put_all(sink)?;
    }
    codes_of_run(colour, n % 2560).put_all(sink)
}

/// Puts a mode: pass, horizontal, or vertical with a1 at most 3 pels from b1 (T.4, section
/// 4.2.1.3.2 and table 4).
///
/// # Errors
///
/// Where a growth was refused. The sink is then as it was.
pub fn put_mode(sink: &mut BitSink, mode: ModeCode) -> Result<(), Memory>
    requires { IsWritten mode }
    ensures ok { OnOk result (Appends sink.old (mode_bits mode) sink.new) }
    ensures err { OnErr result (sink.new ≡ sink.old) }
{
    mode_code(mode).put_all(sink)
}

impl PendingBits {
    /// Puts a run of `n` pels, below 65,536, as codes of its colour: 2560 as often as it fits, at
    /// most one other make-up code, a terminating code (T.4, section 4.1.1). The last bits are
    /// pending then.
    ///
    /// # Errors
    ///
    /// Where a growth was refused. The pending bits and those of the run were put up to some index
    /// then.
    #[inline(always)]
    pub fn put_run(self, sink: &mut BitSink, colour: Colour, n: u32) -> Result<Self, Memory>
        requires { n < 2 ^ 16 }
        ensures ok { IfOk result
            (λ remaining. AppendsAllBut sink.old (self ++ run_bits colour n) remaining sink.new) }
        ensures err { OnErr result (AppendsPrefix sink.old (self ++ run_bits colour n) sink.new) }
    {
        if n < 2560 {
            return self.put(sink, codes_of_run(colour, n));
        }
        self.put_longest_run(sink, colour, n)?;
        Ok(PendingBits::none())
    }

    /// Puts these bits and a run of any length, after which none is pending.
    #[inline(never)]
    fn put_longest_run(self, sink: &mut BitSink, colour: Colour, n: u32) -> Result<(), Memory>
        requires { n < 2 ^ 16 }
        ensures ok { OnOk result (Appends sink.old (self ++ run_bits colour n) sink.new) }
        ensures err { OnErr result (AppendsPrefix sink.old (self ++ run_bits colour n) sink.new) }
    {
        self.put_all(sink)?;
        put_run(sink, colour, n)
    }

    /// Puts a run of the colour and a run of the other colour after it, each of fewer than
    /// `SHORT_RUN` pels, as their two terminating codes (T.4, section 4.1.1). The last bits are
    /// pending then.
    ///
    /// # Errors
    ///
    /// Where a growth was refused. The sink is then as it was.
    #[inline(always)]
    pub fn put_short_pair(
        self,
        sink: &mut BitSink,
        colour: Colour,
        first: u32,
        second: u32,
    ) -> Result<Self, Memory>
        requires first { first < SHORT_RUN }
        requires second { second < SHORT_RUN }
        ensures ok { IfOk result
            (λ remaining. AppendsAllBut sink.old (self ++ pair_bits colour first second)
            remaining sink.new) }
        ensures err { OnErr result (sink.new ≡ sink.old) }
    {
        // Nearly all pairs of a dithered page are so short. Longer runs are put one by one.
        self.put(sink, short_pair_code(colour, first, second))
    }

    /// Puts a mode: pass, horizontal, or vertical with a1 at most 3 pels from b1 (T.4, section
    /// 4.2.1.3.2 and table 4). The last bits are pending then.
    ///
    /// # Errors
    ///
    /// Where a growth was refused. The sink is then as it was.
    #[inline(always)]
    pub fn put_mode(self, sink: &mut BitSink, mode: ModeCode) -> Result<Self, Memory>
        requires { IsWritten mode }
        ensures ok { IfOk result
            (λ remaining. AppendsAllBut sink.old (self ++ mode_bits mode) remaining sink.new) }
        ensures err { OnErr result (sink.new ≡ sink.old) }
    {
        self.put(sink, mode_code(mode))
    }
}

impl BitSource<'_> {
    /// Skips the codes of a run of `n` pels, fewer than 2560, as they are written, where they stand
    /// next, and returns whether they do (T.4, section 4.1.1). Else it stays.
    #[inline(always)]
    pub fn skip_run_if_next(&mut self, colour: Colour, n: u32) -> bool
        requires { n < 2560 }
        ensures taken { IsTaken (run_bits colour n) self.old.remaining result self.new.remaining }

        // The source continues in the same bits.
        ensures same_end { KeepsEnd self.old self.new }
    {
        codes_of_run(colour, n).take(self)
    }
}
