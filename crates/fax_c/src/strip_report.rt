//! What is found in a strip with no file around it, and after its rows.
ghost use Rattle.std.specs.Prelude.{◌≡◌};
ghost use Rattle.fax_c.specs.views.StripReports as Spec;

use crate::faults::FaxFault;
use crate::status;
use crate::strip_form::FaxStrip;
use crate::strip_rows::readable_form;
use crate::uncounted_strip::{end_status, uncounted_form};
use fax_files::Cause;
use fax_page::{NotesFault, NotesReader, RowsEnd, StripNotes, UncountedNotes, strip_notes};
use std::alloc::Global;

/// What was found in a strip, and after its last row.
#[repr(C)]
#[derive(Clone, Copy)]
pub struct FaxStripReport {
    /// How many rows were read.
    pub rows: u32,
    /// 1 in MMR where no end of the facsimile block stands after the last row, else 0.
    pub no_end_of_block: u32,
    /// 1 in MH and MR where a return to control stands after the last row, else 0.
    pub return_to_control: u32,
    /// 1 where a 1 stands after the last row and its end mark, else 0.
    pub data_after_end: u32,
    /// 1 where the codes of some row are others than T.4 chooses, else 0.
    pub not_t4_choice: u32,
    pub fault: FaxFault,
}

impl FaxStripReport {
    ghost use Rattle.fax_c.specs.views.StripReports.{report_of_end, report_of_notes};
    ghost use Rattle.fax_c.specs.views.StripReports.{report_without_notes};

    /// All rows were read, with these notes.
    fn noted(rows: u32, notes: StripNotes) -> Self
        ensures { result ≡ report_of_notes rows notes }
    {
        FaxStripReport {
            rows,
            no_end_of_block: u32::from(notes.no_end_of_block),
            return_to_control: u32::from(notes.return_to_control),
            data_after_end: u32::from(notes.data_after_end),
            not_t4_choice: u32::from(notes.not_t4_choice),
            fault: FaxFault::none(),
        }
    }

    /// So many rows were read, and then a fault was met.
    fn stopped(rows: u32, fault: FaxFault) -> Self
        ensures { result ≡ report_without_notes rows fault }
    {
        FaxStripReport {
            rows,
            no_end_of_block: 0,
            return_to_control: 0,
            data_after_end: 0,
            not_t4_choice: 0,
            fault,
        }
    }

    /// What was found in rows of a strip of unknown height.
    fn found(found: &UncountedNotes) -> Self
        ensures { result ≡ report_of_end found.now.rows found.now.end found.now.notes }
    {
        match found.end {
            RowsEnd::Marked | RowsEnd::DataEnd => FaxStripReport::noted(found.rows, found.notes),
            RowsEnd::Fault(_) | RowsEnd::TooMany => {
                let fault = FaxFault::of_rows_end(0, found.rows, found.end);
                FaxStripReport::stopped(found.rows, fault)
            }
        }
    }
}

/// What `faxpages_strip_check` does where the height is unknown.
fn check_uncounted(alloc: Global, strip: &[u8], form: &FaxStrip, report: &mut FaxStripReport) -> u32
    ensures { Spec.TellsUncountedReport strip.now form.now report.old report.new result }
{
    let Some(form) = uncounted_form(strip, form) else {
        return status::NO_OPTIONS;
    };
    let Ok(mut reader) = NotesReader::new(alloc, form.width) else {
        return status::MEMORY;
    };
    match reader.uncounted_notes(strip, form) {
        Ok(found) => {
            *report = FaxStripReport::found(&found);
            end_status(found.end)
        }
        Err(_memory) => status::MEMORY,
    }
}

/// Reads all rows of a strip, and says what stands after them.
#[unsafe(no_mangle)]
pub extern "C" fn faxpages_strip_check(
    alloc: Global,
    strip: &[u8],
    form: &FaxStrip,
    report: &mut FaxStripReport,
) -> u32
    ensures { Spec.TellsStripReport strip.now form.now report.old report.new result }
{
    let Some(form) = readable_form(strip, form) else {
        return check_uncounted(alloc, strip, form, report);
    };
    match strip_notes(alloc, strip, form) {
        Ok(notes) => {
            *report = FaxStripReport::noted(form.rows, notes);
            status::END
        }
        Err(NotesFault::Strip { row, fault }) => {
            let fault = FaxFault::of_cause(0, row, Cause::Strip(fault));
            *report = FaxStripReport::stopped(row, fault);
            status::FAULT
        }
        Err(NotesFault::Memory) => status::MEMORY,
    }
}
