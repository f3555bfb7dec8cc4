//! Rows as they are written, in T.4's own choice of codes (ITU-T T.4, sections 4.1.1 and
//! 4.2.1.3.3; T.6, section 2.2.4).
ghost use Rattle.std.specs.Prelude.{◌≡◌, ◌+◌, ◌-◌, ◌<◌, ◌^◌, ◌++◌, length, unwrap_or};
ghost use Rattle.std.specs.Prelude.{Some, None, OnOk, OnErr, IfOk};
ghost use Rattle.fax_bits.specs.Written.{run_bits};
ghost use Rattle.fax_bits.specs.views.Sink.{Appends, AppendsPrefix, AppendsAllBut};
ghost use Rattle.fax_rows.specs.Rows.{other as other_than};
ghost use Rattle.fax_rows.specs.code.CodingElements as Spec;
ghost use Rattle.fax_rows.specs.code.Choice as Choice;
ghost use Rattle.fax_rows.specs.Coded as Coded;
ghost use Rattle.fax_rows.specs.code.ChangingElements.{element_pels};

use crate::change_list::RowPair;
use crate::changes_of_row::colour_after;
use crate::longest_runs::LongestRuns;
use crate::pels::Row;
use crate::runs::other;
use fax_bits::{BitSink, Colour, Memory, ModeCode, PendingBits, SHORT_RUN};

/// Puts a run of the colour and a run of the other colour after it (T.4, section 4.1.1): short ones
/// at once.
#[inline(always)]
fn put_pair(
    pending: PendingBits,
    sink: &mut BitSink,
    colour: Colour,
    first: u32,
    second: u32,
) -> Result<PendingBits, Memory>
    requires first { first < 2 ^ 16 }
    requires second { second < 2 ^ 16 }
    ensures ok { IfOk result (λ remaining. AppendsAllBut sink.old
        (pending ++ (run_bits colour first ++ run_bits (other_than colour) second)) remaining sink.new) }
    ensures err { OnErr result (AppendsPrefix sink.old
        (pending ++ (run_bits colour first ++ run_bits (other_than colour) second)) sink.new) }
{
    if first < SHORT_RUN && second < SHORT_RUN {
        return pending.put_short_pair(sink, colour, first, second);
    }
    let pending = pending.put_run(sink, colour, first)?;
    pending.put_run(sink, other(colour), second)
}

/// Puts a row in one-dimensional coding: the longest runs of white and black pels in turn, white
/// first, which has no pels where the row begins black (T.4, section 4.1.1).
///
/// # Errors
///
/// `Memory` where a growth was refused. The row's bits were put up to some place then.
pub fn put_1d(row: &Row, sink: &mut BitSink) -> Result<(), Memory>
    ensures ok { OnOk result (Appends sink.old (Coded.one_dimensional_bits row.now) sink.new) }
    ensures err { OnErr result
        (AppendsPrefix sink.old (Coded.one_dimensional_bits row.now) sink.new) }
{
    let mut runs = LongestRuns::of_row(row);
    let mut pending = PendingBits::none();
    while let Some(white) = runs.next_run() {
        let Some(black) = runs.next_run() else {
            pending = pending.put_run(sink, Colour::White, white)?;
            return pending.put_all(sink);
        };
        pending = put_pair(pending, sink, Colour::White, white, black)?;
    }
    pending.put_all(sink)
}

/// How far a row is written (T.4, section 4.2.1.3.1).
#[derive(Clone, Copy)]
struct EncoderState {
    /// The place of a0, where `None` is just before the first pel.
    a0: Option<u32>,
    /// The index of a1 among the row's places.
    row: usize,
    /// The index of b1 among those of the reference row.
    reference: usize,
}

/// What stands ahead of a0 on the row that is written and on its reference row.
#[derive(Clone, Copy)]
struct CodingElements {
    /// Where the next step begins: `None` is just before the first pel.
    a0: Option<u32>,
    /// The colour of a0.
    colour: Colour,
    a1: u32,
    a2: u32,
    b1: u32,
    b2: u32,
    /// The index of a1 among the row's places.
    row: usize,
    /// The index of b1 among those of the reference row.
    reference: usize,
}

impl CodingElements {
    /// What stands ahead inside a row.
    #[inline(always)]
    fn of(rows: RowPair, at: EncoderState) -> CodingElements
        requires changes { Spec.IsEncoderState rows at }
        requires unfinished { unwrap_or at.a0 0 < rows.row.width }
        ensures changes { Spec.AreCodingElements rows.entry result }
        ensures start { result.a0 ≡ at.a0 }
    {
        CodingElements {
            a0: at.a0,
            colour: colour_after(at.row),
            a1: rows.row.changes[at.row],
            a2: rows.row.changes[at.row + 1],
            b1: rows.reference.changes[at.reference],
            b2: rows.reference.changes[at.reference + 1],
            row: at.row,
            reference: at.reference,
        }
    }

    /// After pass mode: a0 is put under b2.
    #[inline(always)]
    fn after_pass(self, rows: RowPair) -> EncoderState
        requires changes { Spec.AreCodingElements rows self }
        requires left_hand { self.b2 < self.a1 }
        ensures changes { Spec.IsEncoderState rows.entry result }
        ensures start { result.a0 ≡ Some self.b2 }
    {
        EncoderState {
            a0: Some(self.b2),
            row: self.row,
            reference: self.reference + 2,
        }
    }

    /// After a1 that is under b1: the next b1 is the reference row's next changing element.
    #[inline(always)]
    fn after_b1(self, rows: RowPair) -> EncoderState
        requires changes { Spec.AreCodingElements rows self }
        requires same { self.a1 ≡ self.b1 }
        ensures changes { Spec.IsEncoderState rows.entry result }
        ensures start { result.a0 ≡ Some self.a1 }
    {
        EncoderState {
            a0: Some(self.a1),
            row: self.row + 1,
            reference: self.reference + 1,
        }
    }

    /// After any a1.
    #[inline(always)]
    fn after_a1(self, rows: RowPair) -> EncoderState
        requires changes { Spec.AreCodingElements rows self }
        ensures changes { Spec.IsEncoderState rows.entry result }
        ensures start { result.a0 ≡ Some self.a1 }
    {
        EncoderState {
            a0: Some(self.a1),
            row: self.row + 1,
            reference: rows.reference.b1_after_vertical(self.reference, self.a1),
        }
    }

    /// After horizontal mode: a0 is put on a2.
    #[inline(always)]
    fn after_a2(self, rows: RowPair) -> EncoderState
        requires changes { Spec.AreCodingElements rows self }
        ensures changes { Spec.IsEncoderState rows.entry result }
        ensures start { result.a0 ≡ Some self.a2 }
    {
        EncoderState {
            a0: Some(self.a2),
            row: self.row + 2,
            reference: rows.reference.b1_after(self.reference, self.a2),
        }
    }
}

/// The mode that T.4 chooses: pass where b2 is left of a1, else vertical where a1 and b1 differ by
/// at most 3 pels, else horizontal (T.4, section 4.2.1.3.3).
#[inline(always)]
fn choose(a1: u32, b1: u32, b2: u32) -> ModeCode
    requires a1 { a1 < 2 ^ 16 }
    requires b1 { b1 < 2 ^ 16 }
    ensures { result ≡ Choice.canonical_mode (record { a1 = a1; a2 = 0; b1 = b1; b2 = b2 }) }
{
    if b2 < a1 {
        return ModeCode::Pass;
    }
    let d = a1 as i32 - b1 as i32;
    if (-3..=3).contains(&d) {
        ModeCode::Vertical(d as i8)
    } else {
        ModeCode::Horizontal
    }
}

/// Puts the step from a0 where a1 is not under b1, and returns how far the row is written then, and
/// which bits are pending.
#[inline(always)]
fn put_far_step(
    rows: RowPair,
    ahead: CodingElements,
    pending: PendingBits,
    sink: &mut BitSink,
) -> Result<(EncoderState, PendingBits), Memory>
    requires changes { Spec.AreCodingElements rows ahead }
    ensures ok { IfOk result (λ next. AppendsAllBut sink.old
        (pending ++ Spec.bits_ahead rows.entry ahead.a0) next.1 sink.new) }
    ensures next { IfOk result (λ next.
        next.0.a0 ≡ Some (Spec.a0_ahead rows.entry ahead.a0)) }
    ensures changes { IfOk result (λ next. Spec.IsEncoderState rows.entry next.0) }
    ensures err { OnErr result (AppendsPrefix sink.old
        (pending ++ Spec.bits_ahead rows.entry ahead.a0) sink.new) }
{
    let mode = choose(ahead.a1, ahead.b1, ahead.b2);
    match mode {
        ModeCode::Pass => {
            let pending = pending.put_mode(sink, ModeCode::Pass)?;
            Ok((ahead.after_pass(rows), pending))
        }
        ModeCode::Horizontal => {
            let pending = pending.put_mode(sink, ModeCode::Horizontal)?;
            let first = ahead.a1 - ahead.a0.unwrap_or(0);
            let second = ahead.a2 - ahead.a1;
            let pending = put_pair(pending, sink, ahead.colour, first, second)?;
            Ok((ahead.after_a2(rows), pending))
        }
        // An extension is never chosen.
        ModeCode::Vertical(_) | ModeCode::Extension => {
            let pending = pending.put_mode(sink, mode)?;
            Ok((ahead.after_a1(rows), pending))
        }
    }
}

/// Puts the next step, and returns how far the row is written then, and which bits are pending.
#[inline(always)]
fn put_step(
    rows: RowPair,
    at: EncoderState,
    pending: PendingBits,
    sink: &mut BitSink,
) -> Result<(EncoderState, PendingBits), Memory>
    requires changes { Spec.IsEncoderState rows at }
    requires unfinished { unwrap_or at.a0 0 < rows.row.width }
    ensures ok { IfOk result (λ next. AppendsAllBut sink.old
        (pending ++ Spec.bits_ahead rows.entry at.a0) next.1 sink.new) }
    ensures next { IfOk result (λ next.
        next.0.a0 ≡ Some (Spec.a0_ahead rows.entry at.a0)) }
    ensures changes { IfOk result (λ next. Spec.IsEncoderState rows.entry next.0) }
    ensures err { OnErr result (AppendsPrefix sink.old
        (pending ++ Spec.bits_ahead rows.entry at.a0) sink.new) }
{
    let ahead = CodingElements::of(rows, at);
    if ahead.a1 == ahead.b1 {
        let pending = pending.put_mode(sink, ModeCode::Vertical(0))?;
        return Ok((ahead.after_b1(rows), pending));
    }
    put_far_step(rows, ahead, pending, sink)
}

/// Puts the steps of a row.
fn put_steps(rows: RowPair, sink: &mut BitSink) -> Result<(), Memory>
    ensures ok { OnOk result (Appends sink.old (Coded.two_dimensional_bits
        (element_pels rows.entry.reference) (element_pels rows.entry.row)) sink.new) }
    ensures err { OnErr result (AppendsPrefix sink.old (Coded.two_dimensional_bits
        (element_pels rows.entry.reference) (element_pels rows.entry.row)) sink.new) }
{
    // One index goes along the row and one along its reference: after each step both continue to
    // the first place right of a0, by which a1, a2, a0's colour, b1 and b2 are known.
    let mut at = EncoderState {
        a0: None,
        row: 1,
        reference: 1,
    };
    let mut pending = PendingBits::none();
    while at.a0.unwrap_or(0) < rows.row.width {
        (at, pending) = put_step(rows, at, pending, sink)?;
    }
    pending.put_all(sink)
}

/// Puts a row in two-dimensional coding over its reference row (T.4, section 4.2.1.3.3; T.6,
/// section 2.2.4). It takes time in proportion to the changing elements of both rows.
///
/// # Errors
///
/// `Memory` where a growth was refused. The row's bits were put up to some place then.
pub fn put_2d(reference: &Row, row: &Row, sink: &mut BitSink) -> Result<(), Memory>
    requires same_width { length reference.now ≡ length row.now }
    ensures ok { OnOk result
        (Appends sink.old (Coded.two_dimensional_bits reference.now row.now) sink.new) }
    ensures err { OnErr result
        (AppendsPrefix sink.old (Coded.two_dimensional_bits reference.now row.now) sink.new) }
{
    // That its bits are read back is a law of the definitions (`laws`), which a caller calls where
    // a proof needs it.
    let rows = RowPair {
        reference: reference.elements(),
        row: row.elements(),
    };
    put_steps(rows, sink)
}
