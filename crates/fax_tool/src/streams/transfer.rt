//! Whole transfers: a source to its end, and all of some bytes to a sink.
ghost use Rattle.std.specs.Prelude.{◌≡◌, ◌≤◌, ◌<◌, ◌-◌, length, IfOk, IfErr, IfSome, OnOk, IsTrue};
ghost use Rattle.std.specs.Prelude.{Err, true, false, replicate, vec_len, List, ℕ, ◌++◌};
ghost use Rattle.std.specs.Io.KnownBytes.{Appends, Consumes, IsAtEnd};
ghost use Rattle.fax_tool.specs.declared.refusal.Refusal.TheVariants.{Memory};
ghost use Rattle.fax_tool.specs.Run.{HasFailed, HasWorked, IsRead, most_interrupted};
ghost use Rattle.fax_files.specs.Directory.{max_file};
ghost use Rattle.fax_tool.specs.Streams.{counts_after, input_after, no_faults};
ghost use Rattle.fax_tool.specs.code.Outcome.{HasReadReason};
ghost use Rattle.fax_tool.specs.code.Transfers.{IsGivenInPart, counted};

use crate::refusal::Refusal;
use crate::streams::input_buffer::InputBuffer;
use crate::streams::{Sink, Source, StreamFault};
use fax_files::MAX_FILE;
use std::alloc::Global;
use std::marker::Model;

/// The most bytes of an input: 256 MiB.
pub(crate) const MOST_INPUT: usize = MAX_FILE as usize;

/// For how many bytes of an input there is room at first; of one that is read whole as many are
/// read at a time.
pub(crate) const CHUNK: usize = 65_536;

/// For how many bytes there is room at first in a file that is read whole: where it has no more,
/// none is copied as its room grows.
const FIRST_ROOM: usize = 4 * CHUNK;

/// How many interrupted calls of a stream are made again.
const MOST_INTERRUPTED: u32 = 1_023;

/// How many calls on a stream were interrupted, and made again. Contracts see the number.
#[derive(Drop)]
pub struct RetryCount {
    count: u32,
}

impl Model for RetryCount {
    ghost use Rattle.std.specs.Prelude.{ℕ, ◌≤◌};

    ghost Value = { ℕ };

    ghost view = { λ interruptions. interruptions.count };

    ghost invariant = { λ interruptions. interruptions.count ≤ 1023 };
}

impl RetryCount {
    /// No call was interrupted.
    pub const NONE: RetryCount = RetryCount { count: 0 };

    /// They are not too many. It computes nothing.
    pub(crate) fn lemma_few(&self)
        ensures { self.now ≤ most_interrupted }
    {
        let _ = &self.count;
    }

    /// Whether a call with this fault is made again: an interrupted one, up to 1,023 times on a
    /// stream.
    pub(crate) fn allow(&mut self, fault: StreamFault) -> bool
        ensures again { IsTrue result → counted self.new
            ≡ counts_after (Err fault) (counted self.old) }
        ensures fewer { IsTrue result → most_interrupted - self.new
            < most_interrupted - self.old }
        ensures failed { result ≡ false → HasFailed (counts_after (Err fault) (counted self.old)) }
    {
        // Each stream of a run has its own count. An interrupted read has moved nothing, so that
        // the bytes after it are known; a read that failed may leave them unknown.
        match fault {
            StreamFault::Interrupted if self.count < MOST_INTERRUPTED => {
                self.count += 1;
                true
            }
            StreamFault::Interrupted | StreamFault::Failed => false,
        }
    }
}

/// So many zero bytes.
pub(crate) fn zero_bytes(alloc: Global, len: usize) -> Result<Vec<u8>, Refusal>
    ensures zeros { IfOk result (λ bytes. bytes.items ≡ replicate (vec_len bytes) 0) }
    ensures len { IfOk result (λ bytes. vec_len bytes ≡ len) }
    ensures memory { IfErr result (λ refusal. refusal ≡ Memory) }
{
    vec![in alloc; 0u8; len].map_err(|_| Refusal::Memory)
}

/// Reads what is left of a source after the bytes that are held, and answers all of them.
///
/// # Errors
///
/// `Memory` where a growth was refused; else as `InputBuffer::fill`.
pub(crate) fn read_rest<R: Source>(
    alloc: Global,
    input: &mut R,
    interruptions: &mut RetryCount,
    mut held: InputBuffer,
    mut ended: bool,
) -> Result<Vec<u8>, Refusal>
    requires counts { R.counts input.old ≡ counted interruptions.old }
    requires taken { R.taken input.old ≡ held.taken }
    requires all { held.taken ≡ length held.bytes }
    requires end { ended ≡ true → IsAtEnd (R.remaining input.old) }
    ensures whole { IfOk result (λ file. (text : List ℕ) × (file.items ≡ held.bytes ++ text)
        × Consumes (R.remaining input.old) (R.remaining input.new) text × IsAtEnd (R.remaining input.new)) }
    ensures limit { IfOk result (λ file. vec_len file ≤ max_file) }
    ensures read { OnOk result (IsRead
        (input_after (R.remaining input.old) (R.taken input.new) (R.counts input.new))) }
    ensures reason { IfErr result (λ refusal. HasReadReason refusal
        (input_after (R.remaining input.old) (R.taken input.new) (R.counts input.new))) }
{
    interruptions.lemma_few();
    let mut file = Vec::new(alloc);
    file.reserve(FIRST_ROOM).map_err(|_| Refusal::Memory)?;
    loop {
        interruptions.lemma_few();
        if file.extend_from_slice(held.bytes()).is_err() {
            return Err(Refusal::Memory);
        }
        if ended {
            return Ok(file);
        }
        held.drop_front(held.bytes().len());
        ended = held.fill(input, interruptions)?;
    }
}

/// Reads a source whole, of at most 268,435,456 bytes.
///
/// # Errors
///
/// `Memory` where a growth was refused; `Read` where a read failed, 1,024 were interrupted, or the
/// source has more bytes.
pub fn read_to_end<R: Source>(alloc: Global, input: &mut R) -> Result<Vec<u8>, Refusal>
    requires counts { R.counts input.old ≡ no_faults }
    requires taken { R.taken input.old ≡ 0 }
    ensures whole { IfOk result (λ file. IfSome (R.remaining input.old) (λ bytes. file.items ≡ bytes)) }
    ensures limit { IfOk result (λ file. vec_len file ≤ max_file) }
    ensures read { OnOk result (IsRead
        (input_after (R.remaining input.old) (R.taken input.new) (R.counts input.new))) }
    ensures reason { IfErr result (λ refusal. HasReadReason refusal
        (input_after (R.remaining input.old) (R.taken input.new) (R.counts input.new))) }
{
    let mut interruptions = RetryCount::NONE;
    let mut held = InputBuffer::new(alloc, CHUNK)?;
    let ended = held.fill(input, &mut interruptions)?;
    read_rest(alloc, input, &mut interruptions, held, ended)
}

/// Gives a sink all of the bytes, in order.
///
/// # Errors
///
/// `Write` where a write failed or 1,024 on this sink were interrupted; a front of the bytes was
/// then written.
pub fn write_all<W: Sink>(
    out: &mut W,
    interruptions: &mut RetryCount,
    bytes: &[u8],
) -> Result<(), Refusal>
    requires counts { W.counts out.old ≡ counted interruptions.old }
    ensures ok { OnOk result (Appends (W.written out.old) (W.written out.new) bytes.now) }
    ensures counts { OnOk result (W.counts out.new ≡ counted interruptions.new) }
    ensures worked { OnOk result (HasWorked (W.counts out.new)) }
    ensures err { IfErr result (IsGivenInPart (W.written out.old)
        (W.written out.new) bytes.now (W.counts out.new)) }
{
    let mut rest = bytes;
    while !rest.is_empty() {
        match out.give(rest) {
            Ok(count) => rest = &rest[count..],
            Err(fault) => {
                if !interruptions.allow(fault) {
                    return Err(Refusal::Write);
                }
            }
        }
    }
    interruptions.lemma_few();
    Ok(())
}
