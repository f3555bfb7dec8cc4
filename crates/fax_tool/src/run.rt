//! A run of the program over its streams.
ghost use Rattle.std.specs.Prelude.{◌≡◌, ◌⊎◌, ◌<◌, IfErr, IfOk};
ghost use Rattle.fax_tool.specs.code.Outcome.{IsDone, IsReported, IsSaid, IsStopped};
ghost use Rattle.fax_tool.specs.Run.{IsRefused, WritesText};
ghost use Rattle.fax_tool.specs.Streams.{input_after, no_faults, output_after};
ghost use Rattle.fax_tool.specs.declared.args.Command.TheVariants.{Version};

use crate::args::{Command, Job};
use crate::commands::check::write_report;
use crate::commands::convert::write_conversion;
use crate::commands::print::{list, rows};
use crate::commands::salvage_file::write_salvaged;
use crate::commands::salvage_lines::salvage;
use crate::commands::version::version;
use crate::refusal::Refusal;
use crate::streams::transfer::{RetryCount, write_all};
use crate::streams::{Sink, Source};
use crate::text::fault::ErrorLine;
use std::alloc::Global;

/// Nothing was refused: all that was asked for was written.
const DONE: u8 = 0;

/// The input has a fault.
const INPUT_FAULT: u8 = 1;

/// Memory, a read or a write was refused.
const REFUSED: u8 = 3;

/// Says a line on the error stream, and answers this status, or 3 where the stream fails.
fn say<E: Sink>(err: &mut E, line: &[u8], status: u8) -> u8
    requires { E.counts err.old ≡ no_faults }
    ensures { IsSaid (output_after (E.written err.old) (E.written err.new) (E.counts err.new))
        line.now status result }
{
    let mut interruptions = RetryCount::NONE;
    match write_all(err, &mut interruptions, line) {
        Ok(()) => status,
        Err(_) => REFUSED,
    }
}

/// Says on the error stream what fault the input has, or why the run was refused, and answers the
/// program's status.
fn report<E: Sink>(outcome: Result<Option<ErrorLine>, Refusal>, err: &mut E) -> u8
    requires { E.counts err.old ≡ no_faults }
    ensures { IsReported outcome
        (output_after (E.written err.old) (E.written err.new) (E.counts err.new)) result }
{
    match outcome {
        Ok(None) => DONE,
        Ok(Some(line)) => say(err, line.as_bytes(), INPUT_FAULT),
        Err(refusal) => say(err, refusal.line().as_bytes(), REFUSED),
    }
}

/// Carries out a command: reads the input whole and writes the output; for the version nothing is
/// read. It answers the line of the input's fault, if there is one.
fn carry_out<R: Source, W: Sink>(
    alloc: Global,
    command: &Command,
    input: &mut R,
    out: &mut W,
) -> Result<Option<ErrorLine>, Refusal>
    requires input_counts { R.counts input.old ≡ no_faults }
    requires taken { R.taken input.old ≡ 0 }
    requires output_counts { W.counts out.old ≡ no_faults }
    ensures ok { IfOk result (IsDone command.now
        (input_after (R.remaining input.old) (R.taken input.new) (R.counts input.new))
        (output_after (W.written out.old) (W.written out.new) (W.counts out.new))) }
    ensures err { IfErr result (λ refusal. IsStopped command.now refusal
        (input_after (R.remaining input.old) (R.taken input.new) (R.counts input.new))
        (output_after (W.written out.old) (W.written out.new) (W.counts out.new))) }
    ensures unread { command.now ≡ Version → input.new ≡ input.old }
{
    match command {
        Command::List(part) => list(alloc, part, input, out),
        Command::Rows(part) => rows(alloc, part, input, out),
        Command::Convert(options) => write_conversion(alloc, *options, input, out),
        Command::Check { received } => write_report(alloc, *received, input, out),
        Command::Salvage => salvage(alloc, input, out),
        Command::SalvageFile(options) => write_salvaged(alloc, options, input, out),
        Command::Version => {
            version(out)?;
            Ok(None)
        }
    }
}

/// Carries out a job: reads the input whole, but for the version, writes the output, and says on
/// the error stream why that is not all. It answers the program's status: 0 where all is done; 1 at
/// a fault of the input; 3 where memory, a read or a write was refused, or the error stream failed.
pub fn run<R: Source, W: Sink, E: Sink>(
    alloc: Global,
    job: &Job,
    input: &mut R,
    out: &mut W,
    err: &mut E,
) -> u8
    requires input_counts { R.counts input.old ≡ no_faults }
    requires taken { R.taken input.old ≡ 0 }
    requires output_counts { W.counts out.old ≡ no_faults }
    requires error_counts { E.counts err.old ≡ no_faults }
    ensures status { (result ≡ 0) ⊎ (result ≡ 1) ⊎ (result ≡ 3) }

    // For the version nothing is read.
    ensures unread { job.now.command ≡ Version → input.new ≡ input.old }

    // What was done is the text of what the job's command says of the input, and no stream failed.
    ensures written { result < 3 → WritesText job.now.command
        (input_after (R.remaining input.old) (R.taken input.new) (R.counts input.new))
        (output_after (W.written out.old) (W.written out.new) (W.counts out.new))
        (output_after (E.written err.old) (E.written err.new) (E.counts err.new)) result }

    // What was refused was refused for a reason that the streams' counts show, and the output is
    // what it has to be then.
    ensures refused { result ≡ 3 → IsRefused job.now.command
        (input_after (R.remaining input.old) (R.taken input.new) (R.counts input.new))
        (output_after (W.written out.old) (W.written out.new) (W.counts out.new))
        (output_after (E.written err.old) (E.written err.new) (E.counts err.new)) }
{
    let outcome = carry_out(alloc, &job.command, input, out);
    report(outcome, err)
}
