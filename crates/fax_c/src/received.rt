//! What the receiver of a page counted of bad rows (RFC 2306).
ghost use Rattle.std.specs.Prelude.{◌≡◌};
ghost use Rattle.fax_c.specs.Received as Spec;

use crate::faults::FaxFault;
use crate::fill::Stop;
use fax_files::Received;
use fax_walk::DamagedPage;

/// What the receiver of a page counted of bad rows, those that it could not read: each number, and
/// before it whether the page has it. A number that it has not is 0.
#[repr(C)]
#[derive(Clone, Copy)]
pub struct FaxReceived {
    /// 1 where the page has field 326, BadFaxLines, else 0; and how many rows were bad.
    pub has_bad_rows: u32,
    pub bad_rows: u32,
    /// 1 where the page has field 327, CleanFaxData, else 0; and what became of the bad rows.
    pub has_clean: u32,
    pub clean: u32,
    /// 1 where the page has field 328, ConsecutiveBadFaxLines, else 0; and how many bad rows came
    /// one after another at most.
    pub has_consecutive: u32,
    pub consecutive: u32,
    pub fault: FaxFault,
}

impl FaxReceived {
    ghost use Rattle.fax_c.specs.Received.{received_numbers};

    /// What a page says, and a fault, as they stand in memory of the caller.
    fn of(its: &Received, fault: FaxFault) -> Self
        ensures { result ≡ received_numbers its.now fault }
    {
        FaxReceived {
            has_bad_rows: u32::from(its.bad_rows.is_some()),
            bad_rows: its.bad_rows.unwrap_or(0),
            has_clean: u32::from(its.clean.is_some()),
            clean: its.clean.unwrap_or(0),
            has_consecutive: u32::from(its.consecutive.is_some()),
            consecutive: its.consecutive.unwrap_or(0),
            fault,
        }
    }
}

/// A page that says none of the numbers.
pub(crate) fn none_received() -> Received
    ensures { result ≡ Spec.none_received }
{
    Received {
        bad_rows: None,
        clean: None,
        consecutive: None,
    }
}

/// Writes what the receiver of a file's page counted of bad rows. No page is refused for these
/// fields: a number whose field is bad is one that the page has not.
#[unsafe(no_mangle)]
pub extern "C" fn faxpages_received(file: &[u8], page: u32, received: &mut FaxReceived) -> u32
    ensures { Spec.TellsReceived file.now page received.new result }
{
    match DamagedPage::at(file, page) {
        Ok(found) => {
            *received = FaxReceived::of(&found.received(), FaxFault::none());
            Stop::Done.status()
        }
        Err(end) => {
            *received = FaxReceived::of(&none_received(), FaxFault::of_end(end));
            Stop::Ended(end).status()
        }
    }
}
