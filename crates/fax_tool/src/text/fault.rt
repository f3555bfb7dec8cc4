//! The error lines of faults of the input.
ghost use Rattle.std.specs.Prelude.{◌≡◌, ◌≤◌, IfOk, length};
ghost use Rattle.fax_tool.specs.Text.{fault_line};
ghost use Rattle.fax_tool.specs.ReportText.{convert_fault_line};
ghost use Rattle.fax_walk.specs.declared.options.ConvertFault.TheVariants.{OutputTooLarge, Pbm};
ghost use Rattle.fax_tool.specs.code.Outcome as Spec;

use crate::text::push_number;
use arrayvec::ArrayString;
use fax_bits::Memory;
use fax_files::PbmFault;
use fax_walk::{Cause, ConvertFault, End};
use std::marker::Model;

/// A line of the error stream, which is made without memory. Contracts see its bytes.
#[derive(Drop)]
pub struct ErrorLine {
    text: ArrayString<72>,
}

impl Model for ErrorLine {
    ghost use Rattle.std.specs.Prelude.{ℕ, List, ⊤};

    ghost Value = { List ℕ };

    ghost view = { λ line. line.text.bytes };

    ghost invariant = { λ _. ⊤ };
}

/// The line of a fault where a row was expected: `fault page P row R`, the fault's name, and the
/// tag of the field at fault.
#[tactic(auto, unfolding(crate::specs::Text::fault_line))]
pub fn row_fault_line(page: u32, row: u32, cause: Cause) -> ErrorLine
    ensures { result ≡ fault_line page row cause }
{
    let (name, tag) = cause.name();
    let mut text = ArrayString::new();
    text.push_str("fault page");
    push_number(&mut text, page);
    text.push_str(" row");
    push_number(&mut text, row);
    text.push_str(": ");
    text.push_str(name);
    if let Some(tag) = tag {
        push_number(&mut text, u32::from(tag));
    }
    text.push_str("\n");
    ErrorLine { text }
}

/// The line of a fault of an image: `fault image I` and the fault's name.
fn image_line(image: u64, fault: PbmFault) -> ErrorLine
    ensures { result ≡ convert_fault_line (Pbm image fault) }
{
    let mut text = ArrayString::new();
    text.push_str("fault image");
    push_number(&mut text, image);
    text.push_str(": ");
    text.push_str(fault.name());
    text.push_str("\n");
    ErrorLine { text }
}

/// A line that is always the same.
fn fixed_line(line: &'static str) -> ErrorLine
    requires { length line.now ≤ 72 }
    ensures { result ≡ line.now }
{
    let mut text = ArrayString::new();
    text.push_str(line);
    ErrorLine { text }
}

/// The line of an output that is too large.
pub fn too_large_line() -> ErrorLine
    ensures { result ≡ convert_fault_line OutputTooLarge }
{
    fixed_line("fault: OutputTooLarge\n")
}

impl ErrorLine {
    /// The bytes.
    pub fn as_bytes(&self) -> &[u8]
        ensures { result.now ≡ self.now }
    {
        self.text.as_bytes()
    }
}

/// The line of the end that lines had, if it has one; at a limit there is none.
pub fn end_line(ending: Option<End>) -> Option<ErrorLine>
    ensures { result ≡ Spec.end_line ending }
{
    match ending {
        None | Some(End::EndOfPages) => None,
        Some(End::Outside) => Some(fixed_line("fault cursor: CursorOutside\n")),
        Some(End::Fault { page, row, cause }) => Some(row_fault_line(page, row, cause)),
    }
}

/// The line of the fault for which a file is not converted, unless memory was refused.
pub fn conversion_line(fault: ConvertFault) -> Result<ErrorLine, Memory>
    ensures { IfOk result (Spec.IsLineOf fault) }
{
    match fault {
        ConvertFault::UnknownInput => Ok(fixed_line("fault: UnknownInput\n")),
        ConvertFault::Pbm { image, fault } => Ok(image_line(image, fault)),
        ConvertFault::Source { page, row, cause } => Ok(row_fault_line(page, row, cause)),
        ConvertFault::OutputTooLarge => Ok(too_large_line()),
        ConvertFault::Memory => Err(Memory),
    }
}
