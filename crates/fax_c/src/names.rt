//! The names of faults, statuses and notes.
ghost use Rattle.std.specs.Prelude.{◌≡◌, ◌≢◌, ℕ, List, [], MatchOption, slice_get, unwrap_or};
ghost use Rattle.fax_page.specs.declared.StripFault.{StripFault as TheStripFault};
ghost use Rattle.fax_files.specs.declared.FileFault.{FileFault as TheFileFault};
ghost use Rattle.fax_files.specs.declared.Cause.{Cause as TheCause};
ghost use Rattle.fax_files.specs.declared.pbm.PbmFault.{PbmFault as ThePbmFault};
ghost use Rattle.fax_walk.specs.declared.checking.NoteKind.{NoteKind as TheNoteKind};
ghost use Rattle.fax_walk.specs.Report.{number_and_name};
ghost use Rattle.fax_c.specs.FaultNumbers.{fault_number, pbm_fault_number};
ghost use Rattle.fax_c.specs.Texts as Spec;

use crate::caller_text::put_text;
use crate::received::none_received;
use fax_files::{Cause, FileFault, PbmFault, StripFault};
use fax_walk::NoteKind;

/// The fault of a file with this number, if one has it.
fn file_fault(number: u32) -> Option<FileFault>
    ensures { MatchOption result ((fault : TheFileFault) → fault_number (Cause.File fault) ≢ number)
        (λ fault. fault_number (Cause.File fault) ≡ number) }
{
    match number {
        1 => Some(FileFault::ShortHeader),
        2 => Some(FileFault::ByteOrder),
        3 => Some(FileFault::Magic),
        4 => Some(FileFault::NoDirectory),
        5 => Some(FileFault::DirectoryOutside),
        6 => Some(FileFault::DirectoryLoop),
        7 => Some(FileFault::MissingField(0)),
        8 => Some(FileFault::BadField(0)),
        9 => Some(FileFault::Unsupported(0)),
        10 => Some(FileFault::OutOfLimits(0)),
        11 => Some(FileFault::StripOutside),
        _ => None,
    }
}

/// The fault of a strip with this number, if one has it.
fn strip_fault(number: u32) -> Option<StripFault>
    ensures { MatchOption result
        ((fault : TheStripFault) → fault_number (Cause.Strip fault) ≢ number)
        (λ fault. fault_number (Cause.Strip fault) ≡ number) }
{
    match number {
        101 => Some(StripFault::DataEnds),
        102 => Some(StripFault::BadCode),
        103 => Some(StripFault::Extension),
        104 => Some(StripFault::RunTooLong),
        105 => Some(StripFault::OutOfRow),
        106 => Some(StripFault::MissingEol),
        107 => Some(StripFault::EndMarker),
        _ => None,
    }
}

/// A cause with this number, if one has it.
fn cause_of(number: u32) -> Option<Cause>
    ensures { MatchOption result ((cause : TheCause) → fault_number cause ≢ number)
        (λ cause. fault_number cause ≡ number) }
{
    if let Some(fault) = file_fault(number) {
        return Some(Cause::File(fault));
    }
    match strip_fault(number) {
        Some(fault) => Some(Cause::Strip(fault)),
        None => None,
    }
}

/// The fault of a raw PBM with this number, if one has it.
fn pbm_fault(number: u32) -> Option<PbmFault>
    ensures { MatchOption result ((fault : ThePbmFault) → pbm_fault_number fault ≢ number)
        (λ fault. pbm_fault_number fault ≡ number) }
{
    match number {
        201 => Some(PbmFault::BadHeader),
        202 => Some(PbmFault::OutOfLimits),
        203 => Some(PbmFault::ShortRaster),
        _ => None,
    }
}

/// The name of the faults with this number, if one has it.
fn name_of(number: u32) -> Option<&'static str>
    ensures { MatchOption result ((name : List ℕ) → Spec.IsNameOf number name → ⊥)
        (λ name. Spec.IsNameOf number name.now) }
{
    if let Some(cause) = cause_of(number) {
        let (name, _) = cause.name();
        return Some(name);
    }
    if let Some(fault) = pbm_fault(number) {
        return Some(fault.name());
    }
    match number {
        108 => Some("TooManyRows"),
        301 => Some("UnknownInput"),
        302 => Some("OutputTooLarge"),
        _ => None,
    }
}

/// Writes the name of the faults with this number where it has room, and returns how many bytes it
/// has: 0 where no fault has this number.
#[unsafe(no_mangle)]
pub extern "C" fn faxpages_fault_name(number: u32, name: &mut [u8]) -> usize
    ensures { Spec.NamesFault number name.old result name.new }
{
    match name_of(number) {
        Some(text) => put_text(text.as_bytes(), name),
        None => 0,
    }
}

/// The name of a status, or an empty text where none has this number.
fn status_name(number: u32) -> &'static str
    ensures { result.now ≡ unwrap_or (slice_get Spec.status_names number) [] }
{
    match number {
        0 => "Done",
        1 => "End",
        2 => "Fault",
        3 => "Outside",
        4 => "Memory",
        5 => "NoRoom",
        6 => "NoPlace",
        7 => "NoOptions",
        8 => "TooLarge",
        9 => "DataEnd",
        10 => "More",
        _ => "",
    }
}

/// Writes the name of a status where it has room, and returns how many bytes it has: 0 where none
/// has this number.
#[unsafe(no_mangle)]
pub extern "C" fn faxpages_status_name(number: u32, name: &mut [u8]) -> usize
    ensures { Spec.NamesStatus number name.old result name.new }
{
    put_text(status_name(number).as_bytes(), name)
}

/// The kind of notes with this number, if one has it. Its name does not go by what it counts.
fn note_kind(number: u32) -> Option<NoteKind>
    ensures { MatchOption result ((kind : TheNoteKind) → (number_and_name kind).0 ≢ number)
        (λ kind. (number_and_name kind).0 ≡ number) }
{
    match number {
        1 => Some(NoteKind::NoEndOfBlock),
        2 => Some(NoteKind::ReturnToControl),
        3 => Some(NoteKind::DataAfterEnd),
        4 => Some(NoteKind::NotT4Choice),
        5 => Some(NoteKind::EntriesOutOfOrder),
        6 => Some(NoteKind::BadFaxLines(none_received())),
        _ => None,
    }
}

/// Writes the name of the notes with this number where it has room, and returns how many bytes it
/// has: 0 where no note has this number.
#[unsafe(no_mangle)]
pub extern "C" fn faxpages_note_name(number: u32, name: &mut [u8]) -> usize
    ensures { Spec.NamesNote number name.old result name.new }
{
    match note_kind(number) {
        Some(kind) => put_text(kind.name().as_bytes(), name),
        None => 0,
    }
}
