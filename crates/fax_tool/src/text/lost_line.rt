//! The lines of what is lost: of rows, and of a page whose form is refused.
ghost use Rattle.std.specs.Prelude.{◌≡◌, ◌++◌, ◌+◌, ◌≤◌, OnErr, OnOk};
ghost use Rattle.arrayvec.specs.ArrayString.{array_string_len};
ghost use Rattle.fax_files.specs.declared.Cause.TheVariants.{File};
ghost use Rattle.fax_tool.specs.SalvageText as Spec;

use crate::text::output_buffer::OutputBuffer;
use crate::text::push_number;
use arrayvec::ArrayString;
use fax_bits::Memory;
use fax_walk::{Cause, FileFault, LostRows};

/// A line of what is lost, which is made without memory.
type LostLine = ArrayString<80>;

/// Appends a fault after a blank, the tag of the field at fault after it, and the line's end.
fn push_fault(line: &mut LostLine, cause: Cause)
    requires { array_string_len line.old + 37 ≤ 80 }
    ensures { line.new.bytes ≡ line.old.bytes ++ Spec.and_fault cause }
{
    let (name, tag) = cause.name();
    line.push_str(" ");
    line.push_str(name);
    if let Some(tag) = tag {
        push_number(line, u32::from(tag));
    }
    line.push_str("\n");
}

/// The line of rows that are lost: `lost P R N`, the first of them, how many, and the first one's
/// fault.
#[tactic(auto, unfolding(crate::specs::SalvageText::lost_line))]
fn lost_line(lost: LostRows) -> LostLine
    ensures { result.bytes ≡ Spec.lost_line lost.page lost.row lost.rows lost.cause }
{
    let mut line = LostLine::new();
    line.push_str("lost");
    push_number(&mut line, lost.page);
    push_number(&mut line, lost.row);
    push_number(&mut line, lost.rows);
    push_fault(&mut line, lost.cause);
    line
}

/// The line of a page whose form is refused: `lost P` and the fault.
#[tactic(auto, unfolding(crate::specs::SalvageText::refused_line))]
fn refused_line(page: u32, fault: FileFault) -> LostLine
    ensures { result.bytes ≡ Spec.refused_line page (File fault) }
{
    let mut line = LostLine::new();
    line.push_str("lost");
    push_number(&mut line, page);
    push_fault(&mut line, Cause::File(fault));
    line
}

/// Appends the line of rows that are lost.
pub fn put_lost_line(text: &mut OutputBuffer, lost: LostRows) -> Result<(), Memory>
    ensures ok { OnOk result
        (text.new ≡ text.old ++ Spec.lost_line lost.page lost.row lost.rows lost.cause) }
    ensures err { OnErr result (text.new ≡ text.old) }
{
    text.put(lost_line(lost).as_str())
}

/// Appends the line of a page whose form is refused.
pub fn put_refused_line(text: &mut OutputBuffer, page: u32, fault: FileFault) -> Result<(), Memory>
    ensures ok { OnOk result (text.new ≡ text.old ++ Spec.refused_line page (File fault)) }
    ensures err { OnErr result (text.new ≡ text.old) }
{
    text.put(refused_line(page, fault).as_str())
}
