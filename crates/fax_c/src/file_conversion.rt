//! Files turned into others.
ghost use Rattle.std.specs.Prelude.{◌≡◌, ◌≢◌, ◌+◌, ◌≤◌, ◌++◌, length, take, drop, MatchOption};
ghost use Rattle.fax_walk.specs.views.SparseBytes.{part_bytes};
ghost use Rattle.fax_walk.specs.declared.options.Options.{Options as TheOptions};
ghost use Rattle.fax_c.specs.ConversionTold as Spec;
ghost use Rattle.fax_c.specs.Texts.{IsTextPut};
ghost use Rattle.fax_c.specs.code.CallerNumbers as Code;

use crate::bytes::{put_bytes, put_zeros};
use crate::faults::{FaxFault, pbm_fault_number};
use crate::status;
use fax_files::FillOrder;
use fax_walk::{ConvertFault, Options, Part, SparseBytes, Target, convert_sparse};
use std::alloc::Global;

/// How a file is written.
#[repr(C)]
#[derive(Clone, Copy)]
pub struct FaxOptions {
    /// 0 for PBM, 1 for MH, 2 for MR, 3 for MMR.
    pub target: u32,
    /// Which bit of a byte is first: 1 for the highest, 2 for the lowest.
    pub order: u32,
    /// In MR, a row in this many is coded by itself; at least 1.
    pub k: u32,
    /// The rows of a strip, or 0 where a page is one strip.
    pub strip: u32,
    /// 1 where each EOL of MH and MR ends on a byte boundary, else 0.
    pub aligned: u32,
}

/// How long the output is, or why there is none.
#[repr(C)]
#[derive(Clone, Copy)]
pub struct FaxConverted {
    /// How many bytes the output has.
    pub len: usize,
    /// The image of a PBM at fault, from 0.
    pub image: u64,
    pub fault: FaxFault,
}

/// The target with a number, if one has it.
fn target_of(number: u32) -> Option<Target>
    ensures { Code.IsTargetOf number result }
{
    match number {
        0 => Some(Target::Pbm),
        1 => Some(Target::Mh),
        2 => Some(Target::Mr),
        3 => Some(Target::Mmr),
        _ => None,
    }
}

/// The order of bits with a number, if one has it.
pub(crate) fn order_of(number: u32) -> Option<FillOrder>
    ensures { Code.IsOrderOf number result }
{
    match number {
        1 => Some(FillOrder::MsbFirst),
        2 => Some(FillOrder::LsbFirst),
        _ => None,
    }
}

/// Whether a target's rows can have aligned EOLs.
fn target_has_eols(target: Target) -> bool
    ensures { Code.HasEols target result }
{
    match target {
        Target::Pbm | Target::Mmr => false,
        Target::Mh | Target::Mr => true,
    }
}

/// The options that these numbers are, if they are any.
pub(crate) fn options_of(given: &FaxOptions) -> Option<Options>
    ensures { MatchOption result
        ((options : TheOptions) → Spec.AreOptionsGiven given.now options → ⊥)
        (Spec.AreOptionsGiven given.now) }
{
    let target = target_of(given.target)?;
    let order = order_of(given.order)?;
    if given.k == 0 || given.aligned > 1 {
        return None;
    }
    let aligned = given.aligned == 1;
    if aligned && !target_has_eols(target) {
        return None;
    }
    let strip = if given.strip == 0 {
        None
    } else {
        Some(given.strip)
    };
    Some(Options {
        target,
        order,
        k: given.k,
        strip,
        aligned,
    })
}

/// The number that a call returns where a file is not converted.
fn refusal_status(fault: ConvertFault) -> u32
    ensures { result ≡ Code.refusal_status fault }
{
    match fault {
        ConvertFault::Memory => status::MEMORY,
        _ => status::FAULT,
    }
}

impl FaxConverted {
    ghost use Rattle.fax_c.specs.ConversionTold.{no_output, refusal_of};

    /// No output, and no fault.
    pub(crate) fn none() -> Self
        ensures { result ≡ no_output }
    {
        FaxConverted {
            len: 0,
            image: 0,
            fault: FaxFault::none(),
        }
    }

    /// Why a file is not converted.
    pub(crate) fn refused(fault: ConvertFault) -> Self
        ensures { result ≡ refusal_of fault }
    {
        let (image, fault) = match fault {
            ConvertFault::Source { page, row, cause } => (0, FaxFault::of_cause(page, row, cause)),
            ConvertFault::Pbm { image, fault } => {
                (image, FaxFault::of_number(pbm_fault_number(fault)))
            }
            ConvertFault::UnknownInput => (0, FaxFault::of_number(301)),
            ConvertFault::OutputTooLarge => (0, FaxFault::of_number(302)),
            ConvertFault::Memory => (0, FaxFault::none()),
        };
        FaxConverted {
            len: 0,
            image,
            fault,
        }
    }
}

/// Writes a part of an output at a place, and returns where it ends.
fn put_part(out: &mut [u8], at: usize, part: Part) -> usize
    requires { at + length (part_bytes part) ≤ length out.old }
    ensures written { out.new ≡ take at out.old ++ (part_bytes part.entry ++ drop result out.old) }
    ensures end { result ≡ at + length (part_bytes part.entry) }
{
    let zeros = at + part.held.len();
    put_bytes(out, at, part.held);
    put_zeros(out, zeros, part.zeros);
    zeros + part.zeros
}

/// Writes an output part by part where it has room.
fn put_parts(output: &SparseBytes, out: &mut [u8])
    ensures { IsTextPut output.now out.old (length output.now) out.new }
{
    if output.len() > out.len() {
        return;
    }
    let mut remaining = output.parts();
    let mut at = 0;
    while let Some(part) = remaining.next_part() {
        at = put_part(out, at, part);
    }
}

/// Writes the output where it has room, and says how long it is.
pub(crate) fn put_output(output: &SparseBytes, out: &mut [u8], converted: &mut FaxConverted) -> u32
    ensures { Spec.IsOutputTold output.now out.old out.new converted.new result }
{
    *converted = FaxConverted {
        len: output.len(),
        image: 0,
        fault: FaxFault::none(),
    };
    put_parts(output, out);
    if output.len() <= out.len() {
        status::DONE
    } else {
        status::NO_ROOM
    }
}

/// Turns a file into what the options say: raw PBM where it begins with `P4`, TIFF where it begins
/// with `II` or `MM`; and writes that where it has room.
#[unsafe(no_mangle)]
pub extern "C" fn faxpages_convert(
    alloc: Global,
    file: &[u8],
    options: &FaxOptions,
    out: &mut [u8],
    converted: &mut FaxConverted,
) -> u32
    ensures { Spec.TellsConversion file.now options.now out.old out.new converted.new result }
{
    *converted = FaxConverted::none();
    let Some(options) = options_of(options) else {
        return status::NO_OPTIONS;
    };
    match convert_sparse(alloc, file, &options) {
        Ok(output) => put_output(&output, out, converted),
        Err(fault) => {
            *converted = FaxConverted::refused(fault);
            refusal_status(fault)
        }
    }
}
