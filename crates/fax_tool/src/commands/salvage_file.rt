//! `salvage -o`: the pages of a damaged file, with white paper in the place of lost rows.
ghost use Rattle.std.specs.Prelude.{◌≡◌, IfErr, IfOk, false};
ghost use Rattle.fax_tool.specs.SalvageText.{IsSalvageFileText};
ghost use Rattle.fax_tool.specs.Streams.{input_after, no_faults, output_after};
ghost use Rattle.fax_tool.specs.code.Outcome.{IsDone, IsStopped};
ghost use Rattle.fax_tool.specs.code.Salvaging.{said_of};
ghost use Rattle.fax_tool.specs.declared.args.Command.TheVariants.{SalvageFile};

use crate::commands::convert::{BLOCK, write_parts};
use crate::commands::salvage_lines::end_of_walk;
use crate::refusal::Refusal;
use crate::streams::transfer::{read_to_end, zero_bytes};
use crate::streams::{Sink, Source};
use crate::text::fault::{ErrorLine, end_line, too_large_line};
use fax_bits::Memory;
use fax_files::WriteFault;
use fax_walk::{Options, SparseBytes, salvage_file};
use std::alloc::Global;

/// What is to be written of a damaged file: its pages, or nothing, and the line of its fault.
#[derive(Drop)]
struct SalvagedOutput {
    output: Option<SparseBytes>,
    line: Option<ErrorLine>,
}

/// What is to be written of a damaged file.
fn salvage_to(alloc: Global, file: &[u8], options: &Options) -> Result<SalvagedOutput, Memory>
    ensures { IfOk result (λ salvaged.
        IsSalvageFileText options.now file.now (said_of salvaged)) }
{
    match salvage_file(alloc, file, options) {
        Ok(output) => Ok(SalvagedOutput {
            output,
            line: end_line(Some(end_of_walk(alloc, file, false)?)),
        }),
        Err(WriteFault::OutputTooLarge) => Ok(SalvagedOutput {
            output: None,
            line: Some(too_large_line()),
        }),
        Err(WriteFault::Memory) => Err(Memory),
    }
}

/// Reads the input whole and writes its pages as the options say, with white paper in the place of
/// the rows that are lost. The fault that it returns is the one of the file's rows.
pub fn write_salvaged<R: Source, W: Sink>(
    alloc: Global,
    options: &Options,
    input: &mut R,
    out: &mut W,
) -> Result<Option<ErrorLine>, Refusal>
    requires input_counts { R.counts input.old ≡ no_faults }
    requires taken { R.taken input.old ≡ 0 }
    requires counts { W.counts out.old ≡ no_faults }
    ensures ok { IfOk result (IsDone (SalvageFile options.now)
        (input_after (R.remaining input.old) (R.taken input.new) (R.counts input.new))
        (output_after (W.written out.old) (W.written out.new) (W.counts out.new))) }
    ensures err { IfErr result (λ refusal. IsStopped (SalvageFile options.now) refusal
        (input_after (R.remaining input.old) (R.taken input.new) (R.counts input.new))
        (output_after (W.written out.old) (W.written out.new) (W.counts out.new))) }
{
    let file = read_to_end(alloc, input)?;
    let SalvagedOutput { output, line } = salvage_to(alloc, &file, options)?;
    if let Some(output) = output {
        let block = zero_bytes(alloc, BLOCK)?;
        write_parts(out, &block, &output)?;
    }
    Ok(line)
}
