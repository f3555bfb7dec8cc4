//! The numbers of faults.

ghost use Rattle.std.specs.Prelude.{◌≡◌};
ghost use Rattle.fax_c.specs.FaultNumbers as Spec;

use fax_files::{Cause, FileFault, PbmFault, StripFault};
use fax_page::RowsEnd;
use fax_walk::End;

/// The number of rows of a strip of unknown height, where they are more than a strip has.
pub(crate) const TOO_MANY_ROWS: u32 = 108;

/// The fault that a call met: all 0 where it met none.
#[repr(C)]
#[derive(Clone, Copy)]
pub struct FaxFault {
    /// Its number, which never changes.
    pub number: u32,
    /// The tag of the field at fault, or 0.
    pub tag: u32,
    /// The page of the next row at the fault.
    pub page: u32,
    /// The next row, 0 for a fault of the header, of a directory or of a field.
    pub row: u32,
}

/// The number of a file's fault.
fn file_fault_number(fault: FileFault) -> u32
    ensures { result ≡ Spec.fault_number (Cause.File fault) }
{
    match fault {
        FileFault::ShortHeader => 1,
        FileFault::ByteOrder => 2,
        FileFault::Magic => 3,
        FileFault::NoDirectory => 4,
        FileFault::DirectoryOutside => 5,
        FileFault::DirectoryLoop => 6,
        FileFault::MissingField(_) => 7,
        FileFault::BadField(_) => 8,
        FileFault::Unsupported(_) => 9,
        FileFault::OutOfLimits(_) => 10,
        FileFault::StripOutside => 11,
    }
}

/// The number of a strip's fault.
fn strip_fault_number(fault: StripFault) -> u32
    ensures { result ≡ Spec.fault_number (Cause.Strip fault) }
{
    match fault {
        StripFault::DataEnds => 101,
        StripFault::BadCode => 102,
        StripFault::Extension => 103,
        StripFault::RunTooLong => 104,
        StripFault::OutOfRow => 105,
        StripFault::MissingEol => 106,
        StripFault::EndMarker => 107,
    }
}

/// The number of a fault of a raw PBM.
pub(crate) fn pbm_fault_number(fault: PbmFault) -> u32
    ensures { result ≡ Spec.pbm_fault_number fault }
{
    match fault {
        PbmFault::BadHeader => 201,
        PbmFault::OutOfLimits => 202,
        PbmFault::ShortRaster => 203,
    }
}

/// The number of a cause.
pub(crate) fn fault_number(cause: Cause) -> u32
    ensures { result ≡ Spec.fault_number cause }
{
    match cause {
        Cause::File(fault) => file_fault_number(fault),
        Cause::Strip(fault) => strip_fault_number(fault),
    }
}

impl FaxFault {
    ghost use Rattle.fax_c.specs.Told.{end_fault, no_fault, fault_of_end, fault_of_cause};
    ghost use Rattle.fax_c.specs.ConversionTold.{fault_of_number};

    /// No fault.
    pub(crate) fn none() -> Self
        ensures { result ≡ no_fault }
    {
        FaxFault {
            number: 0,
            tag: 0,
            page: 0,
            row: 0,
        }
    }

    /// A fault without a place.
    pub(crate) fn of_number(number: u32) -> Self
        ensures { result ≡ fault_of_number number }
    {
        FaxFault {
            number,
            tag: 0,
            page: 0,
            row: 0,
        }
    }

    /// A fault at this row of a page.
    pub(crate) fn of_cause(page: u32, row: u32, cause: Cause) -> Self
        ensures { result ≡ fault_of_cause page row cause }
    {
        let (_, tag) = cause.name();
        FaxFault {
            number: fault_number(cause),
            tag: u32::from(tag.unwrap_or(0)),
            page,
            row,
        }
    }

    /// The fault of rows of a strip of unknown height, at this row of a page after them.
    pub(crate) fn of_rows_end(page: u32, row: u32, end: RowsEnd) -> Self
        ensures { result ≡ end_fault page row end }
    {
        match end {
            RowsEnd::Marked | RowsEnd::DataEnd => FaxFault::none(),
            RowsEnd::Fault(fault) => FaxFault::of_cause(page, row, Cause::Strip(fault)),
            RowsEnd::TooMany => FaxFault {
                number: TOO_MANY_ROWS,
                tag: 0,
                page,
                row,
            },
        }
    }

    /// The fault with which rows or pages end.
    pub(crate) fn of_end(end: End) -> Self
        ensures { result ≡ fault_of_end end }
    {
        match end {
            End::Fault { page, row, cause } => FaxFault::of_cause(page, row, cause),
            End::EndOfPages | End::Outside => FaxFault::none(),
        }
    }
}
