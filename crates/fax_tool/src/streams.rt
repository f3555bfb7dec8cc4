//! The streams that a run reads and writes.
ghost use Rattle.std.specs.Prelude.{◌≡◌, ℕ, ◌<◌, ◌≤◌, length, take, Option, List, IfOk, IfErr};
ghost use Rattle.std.specs.Prelude.{Err, OnOk, Result};
ghost use Rattle.std.specs.Io.KnownBytes.{Appends, Consumes, IsAtEnd, Keeps};
ghost use Rattle.fax_tool.specs.Run.{Counts};
ghost use Rattle.fax_tool.specs.Streams.{GivesBytes, TakesBytes, counts_after, counts_unopened};
ghost use Rattle.fax_tool.specs.Streams.{no_faults, taken_after};
ghost use Rattle.fax_tool.specs.code.Adapters.{IsFaultOf};
ghost use Rattle.std.specs.IoError.{error_kind};
ghost use Rattle.fax_tool.specs.code.Adapters.{reader_of, writer_of};

pub(crate) mod input_buffer;
pub mod transfer;

use std::io;
use thiserror::Error;

/// Why a call on a stream moved nothing.
#[derive(Clone, Copy, Debug, PartialEq, Eq, Error)]
pub enum StreamFault {
    /// A signal came in between, and the call may be made again.
    #[error("the call was interrupted")]
    Interrupted,
    #[error("the call failed")]
    Failed,
}

/// A stream that bytes are taken from. Contracts see its bytes left, where they are known, how many
/// bytes were taken, and how many calls were interrupted or failed; counts stay at `u64::MAX`.
pub trait Source {
    ghost use Rattle.fax_tool.specs.Run.{Counts};

    ghost remaining: { Self → Option (List ℕ) };

    ghost taken: { Self → ℕ };

    ghost counts: { Self → Counts };

    /// Moves the next bytes to the front of the buffer, and returns how many: 0 only where the
    /// buffer is empty or no byte is left.
    fn take(&mut self, buffer: &mut [u8]) -> Result<usize, StreamFault>
        ensures within { IfOk result (λ n. n ≤ length buffer.new) }
        ensures bytes { TakesBytes (remaining self.old) (remaining self.new) result buffer.new }
        ensures taken { taken self.new ≡ taken_after result (taken self.old) }
        ensures counts { counts self.new ≡ counts_after result (counts self.old) };
}

/// A stream that bytes are given to. Contracts see its bytes written, where they are known, and how
/// many calls were interrupted or failed; counts stay at `u64::MAX`.
pub trait Sink {
    ghost use Rattle.fax_tool.specs.Run.{Counts};

    ghost written: { Self → Option (List ℕ) };

    ghost counts: { Self → Counts };

    /// Writes bytes from the front of the slice, and returns how many: 0 only where the slice is
    /// empty.
    fn give(&mut self, bytes: &[u8]) -> Result<usize, StreamFault>
        ensures within { IfOk result (λ n. n ≤ length bytes.now) }
        ensures some { IfOk result (λ n. 0 < length bytes.now → 0 < n) }
        ensures bytes { GivesBytes (written self.old) (written self.new) result bytes.now }
        ensures counts { counts self.new ≡ counts_after result (counts self.old) };
}

/// How many calls on a stream were interrupted, how many failed, and how many files were not
/// opened. All stay at `u64::MAX`.
#[derive(Clone, Copy)]
struct FaultCounts {
    interrupted: u64,
    failed: u64,
    unopened: u64,
}

impl FaultCounts {
    ghost use Rattle.fax_tool.specs.Streams.{counts_after};
    ghost use Rattle.fax_tool.specs.code.Adapters.{counts_of};

    /// No call was interrupted, none failed, and no file was not opened.
    const NONE: FaultCounts = FaultCounts {
        interrupted: 0,
        failed: 0,
        unopened: 0,
    };

    /// Counts one more call with this fault, and answers the fault.
    fn count(&mut self, fault: StreamFault) -> StreamFault
        ensures same { result ≡ fault }
        ensures counted { counts_of self.new ≡ counts_after (Err fault) (counts_of self.old) }
    {
        match fault {
            StreamFault::Interrupted => self.interrupted = self.interrupted.saturating_add(1),
            StreamFault::Failed => self.failed = self.failed.saturating_add(1),
        }
        fault
    }
}

/// The fault of a call on a stream of std.
fn fault_of(error: &io::Error) -> StreamFault
    ensures { IsFaultOf (error_kind error.now) result }
{
    match error.kind() {
        io::ErrorKind::Interrupted => StreamFault::Interrupted,
        _ => StreamFault::Failed,
    }
}

/// A reader of std as a source.
#[derive(Drop)]
pub struct FromRead<R> {
    reader: R,
    taken: u64,
    faults: FaultCounts,
}

impl<R: io::Read> FromRead<R> {
    /// The reader's bytes from here on, with counts of 0.
    pub fn new(reader: R) -> Self
        ensures reader { reader_of result ≡ reader }
        ensures remaining { ⟦<FromRead<R> as Source>⟧.remaining result ≡ R.remaining reader }
        ensures taken { ⟦<FromRead<R> as Source>⟧.taken result ≡ 0 }
        ensures counts { ⟦<FromRead<R> as Source>⟧.counts result ≡ no_faults }
    {
        FromRead {
            reader,
            taken: 0,
            faults: FaultCounts::NONE,
        }
    }

    /// Counts a file that was not opened, apart from calls that failed. The reader stays.
    pub fn count_unopened(&mut self)
        ensures reader { reader_of self.new ≡ reader_of self.old }
        ensures remaining { ⟦<FromRead<R> as Source>⟧.remaining self.new
            ≡ ⟦<FromRead<R> as Source>⟧.remaining self.old }
        ensures taken { ⟦<FromRead<R> as Source>⟧.taken self.new
            ≡ ⟦<FromRead<R> as Source>⟧.taken self.old }
        ensures counts { ⟦<FromRead<R> as Source>⟧.counts self.new
            ≡ counts_unopened (⟦<FromRead<R> as Source>⟧.counts self.old) }
    {
        // Counted as a call that failed, it was a reason for `fault: Read`.
        self.faults.unopened = self.faults.unopened.saturating_add(1);
    }

    /// The reader, after the bytes that were taken.
    pub fn into_inner(self) -> R
        ensures reader { result ≡ reader_of self }
        ensures remaining { R.remaining result ≡ ⟦<FromRead<R> as Source>⟧.remaining self }
    {
        let FromRead { reader, .. } = self;
        reader
    }
}

impl<R: io::Read> Source for FromRead<R> {
    ghost use Rattle.fax_tool.specs.code.Adapters.{counts_of};

    ghost remaining = { λ s. R.remaining s.reader };

    ghost taken = { λ s. s.taken };

    ghost counts = { λ s. counts_of s.faults };

    fn take(&mut self, buffer: &mut [u8]) -> Result<usize, StreamFault> {
        match self.reader.read(buffer) {
            Ok(count) => {
                self.taken = self.taken.saturating_add(count as u64);
                Ok(count)
            }
            Err(error) => Err(self.faults.count(fault_of(&error))),
        }
    }
}

/// A writer of std as a sink.
#[derive(Drop)]
pub struct ToWrite<W> {
    writer: W,
    faults: FaultCounts,
}

impl<W: io::Write> ToWrite<W> {
    /// The writer, with counts of 0.
    pub fn new(writer: W) -> Self
        ensures writer { writer_of result ≡ writer }
        ensures written { ⟦<ToWrite<W> as Sink>⟧.written result ≡ W.contents writer }
        ensures counts { ⟦<ToWrite<W> as Sink>⟧.counts result ≡ no_faults }
    {
        ToWrite {
            writer,
            faults: FaultCounts::NONE,
        }
    }

    /// The writer, with what was given.
    pub fn into_inner(self) -> W
        ensures writer { result ≡ writer_of self }
        ensures written { W.contents result ≡ ⟦<ToWrite<W> as Sink>⟧.written self }
    {
        let ToWrite { writer, .. } = self;
        writer
    }
}

impl<W: io::Write> Sink for ToWrite<W> {
    ghost use Rattle.fax_tool.specs.code.Adapters.{counts_of};

    ghost written = { λ s. W.contents s.writer };

    ghost counts = { λ s. counts_of s.faults };

    /// A write that takes 0 bytes of a slice that is not empty has failed.
    fn give(&mut self, bytes: &[u8]) -> Result<usize, StreamFault> {
        match self.writer.write(bytes) {
            Ok(0) if !bytes.is_empty() => Err(self.faults.count(StreamFault::Failed)),
            Ok(count) => Ok(count),
            Err(error) => Err(self.faults.count(fault_of(&error))),
        }
    }
}
