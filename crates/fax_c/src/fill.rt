//! How far a call has written, and why it wrote no more.
ghost use Rattle.std.specs.Prelude.{◌≡◌, ◌≢◌, false, true};

use crate::faults::FaxFault;
use crate::status;
use crate::told::FaxTold;
use fax_walk::{Cursor, End, WalkFault};

/// Why no more was written.
#[derive(Clone, Copy)]
pub(crate) enum Stop {
    /// All that was asked for is written.
    Done,
    /// There is no more of it.
    Ended(End),
    /// A growth was refused.
    Memory,
    /// The next row has no room.
    NoRoom,
}

/// What was written: so many pages or rows, in so many numbers, and where to continue.
#[derive(Clone, Copy)]
pub(crate) struct Filled {
    pub(crate) cursor: Cursor,
    pub(crate) count: usize,
    pub(crate) used: usize,
    pub(crate) stop: Stop,
}

impl Stop {
    ghost use Rattle.fax_c.specs.Told.{fault_of, status_of};
    ghost use Rattle.fax_c.specs.code.CallSteps.{stop_of};

    /// Why nothing more is returned.
    pub(crate) fn of_fault(fault: WalkFault) -> Self
        ensures { result ≡ stop_of fault }
    {
        match fault {
            WalkFault::AtRow { page, row, cause } => Stop::Ended(End::Fault { page, row, cause }),
            WalkFault::CursorOutside => Stop::Ended(End::Outside),
            WalkFault::Memory => Stop::Memory,
        }
    }

    /// Whether the next row has no room.
    pub(crate) fn is_no_room(self) -> bool
        ensures room { result ≡ false → self ≢ Stop.NoRoom }
        ensures none { result ≡ true → self ≡ Stop.NoRoom }
    {
        matches!(self, Stop::NoRoom)
    }

    /// The number that a call returns.
    pub(crate) fn status(self) -> u32
        ensures { result ≡ status_of self }
    {
        match self {
            Stop::Done => status::DONE,
            Stop::Ended(End::EndOfPages) => status::END,
            Stop::Ended(End::Fault { .. }) => status::FAULT,
            Stop::Ended(End::Outside) => status::OUTSIDE,
            Stop::Memory => status::MEMORY,
            Stop::NoRoom => status::NO_ROOM,
        }
    }

    /// The reported fault.
    fn fault(self) -> FaxFault
        ensures { result ≡ fault_of self }
    {
        match self {
            Stop::Ended(end) => FaxFault::of_end(end),
            Stop::Done | Stop::Memory | Stop::NoRoom => FaxFault::none(),
        }
    }
}

impl Filled {
    ghost use Rattle.fax_c.specs.Told.{IsTold};

    /// Nothing was written.
    pub(crate) fn nothing(cursor: Cursor, stop: Stop) -> Self
        ensures { result ≡ record { cursor = cursor; count = 0; used = 0; stop = stop } }
    {
        Filled {
            cursor,
            count: 0,
            used: 0,
            stop,
        }
    }

    /// Reports what was written, and returns how the call ended.
    pub(crate) fn fill_result(&self, told: &mut FaxTold) -> u32
        ensures { IsTold self.now told.new result }
    {
        *told = FaxTold {
            count: self.count,
            used: self.used,
            page: self.cursor.page,
            row: self.cursor.row,
            fault: self.stop.fault(),
        };
        self.stop.status()
    }
}
