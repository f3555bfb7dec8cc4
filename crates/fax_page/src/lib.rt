//! Strips of fax pages, row by row (ITU-T T.4 and T.6, and this project's profile).
#![tactic(auto)]

pub mod laws;
mod lines;
mod notes;
mod reader;
mod row_buffers;
mod salvage_reader;
mod uncounted;
mod uncounted_salvage;
mod writer;

pub use fax_rows::{Colour, FillOrder, Memory, Row, RowFault};
pub use notes::{NotesFault, NotesReader, StripNotes, UncountedNotes, strip_notes};
pub use reader::StripReader;
pub use salvage_reader::{SalvageReader, Salvaged};
use thiserror::Error;
pub use uncounted::{classify_end, may_be_end_mark};
pub use uncounted_salvage::UncountedSalvage;
pub use writer::StripWriter;

/// The most rows that a strip has.
pub const MOST_ROWS: u32 = 1_000_000;

/// How the rows of a strip are coded.
#[derive(Clone, Copy, Debug, PartialEq, Eq)]
pub enum Coding {
    /// One-dimensional coding, each row after an EOL (T.4, sections 4.1.1 and 4.1.2).
    Mh,
    /// One-dimensional and two-dimensional rows, each after an EOL and a tag bit
    /// (T.4, section 4.2.2).
    Mr,
    /// Two-dimensional rows with nothing between them (T.6, section 2.2.1).
    Mmr,
}

/// How a row is coded (T.4, section 4.2.2).
// In MR a tag bit says it, and the rest of a row's reading goes by it alone. It is public since the
// definitions name it; no public call takes it.
#[derive(Clone, Copy, Debug, PartialEq, Eq)]
pub enum Dimension {
    /// One-dimensional coding (T.4, section 4.1.1).
    OneDimensional,
    /// Two-dimensional coding, over the row before it (T.4, section 4.2.1.3.3; T.6, section 2.2.4).
    TwoDimensional,
}

/// The form of a strip.
#[derive(Clone, Copy, Debug, PartialEq, Eq)]
pub struct StripForm {
    /// How its rows are coded.
    pub coding: Coding,
    /// Which bit of a byte comes first.
    pub order: FillOrder,
    /// How many pels a row has, 1 to 65,535.
    pub width: u32,
    /// How many rows the strip has, 1 to 1,000,000.
    pub rows: u32,
    /// Whether each EOL is written so that it ends on a byte boundary of the strip, after fill
    /// (T.4, section 4.1.3; TIFF 6.0, T4Options): false in MMR, which has no EOLs. Rows are read in
    /// the same way either way.
    pub aligned: bool,
}

/// Why a row of a strip could not be read: the first fault in its bits.
#[derive(Clone, Copy, Debug, PartialEq, Eq, Error)]
pub enum StripFault {
    /// The bits end where the row's start, its first code or another of its codes is expected.
    #[error("the data ends within a row")]
    DataEnds,
    /// No code of the table that is expected begins so.
    #[error("no code begins so")]
    BadCode,
    /// The prefix of codes that T.4 leaves to extensions.
    #[error("an extension code")]
    Extension,
    /// A run passes the row's width.
    #[error("a run is longer than the row")]
    RunTooLong,
    /// A vertical code leads out of the row.
    #[error("a vertical code leads out of the row")]
    OutOfRow,
    /// The row begins without an EOL (T.4, section 4.1.2).
    #[error("no EOL stands before a row")]
    MissingEol,
    /// Eleven zeros stand where a row's first code is expected, as in a return to control (T.4,
    /// section 4.1.4) or at the end of a facsimile block (T.6).
    #[error("the page ends before its last row")]
    EndMarker,
}

/// The row before a place inside a strip.
#[derive(Clone, Copy)]
pub enum ReferenceRow<'a> {
    /// A white one, as before a strip's first row (T.4, section 4.2.1.1; T.6, section 2.2.1).
    White,
    /// The one with these longest runs, white first: 0 where it begins black (T.4, section 4.1.1).
    Runs(&'a [u32]),
}

/// Why no reader stands at a place inside a strip.
#[derive(Clone, Copy, Debug, PartialEq, Eq, Error)]
pub enum PlaceFault {
    /// A growth was refused.
    #[error("out of memory")]
    Memory,
    /// The strip has fewer bits, or no row of its width has the runs of the row before.
    #[error("no such place in the strip")]
    Outside,
}

impl From<Memory> for PlaceFault {
    ghost use Rattle.std.specs.Prelude.{◌≡◌};
    ghost use Rattle.fax_page.specs.declared.PlaceFault.TheVariants.{Memory as NoMemory};

    ghost from_gives = { λ _ gives. gives ≡ NoMemory };

    fn from(_refused: Memory) -> Self {
        PlaceFault::Memory
    }
}

/// How the rows of a strip of unknown height end, as in data with no file around them.
#[derive(Clone, Copy, Debug, PartialEq, Eq)]
pub enum RowsEnd {
    /// An end mark stands where the next row begins: in MH and MR a return to control (T.4,
    /// sections 4.1.4 and 4.2.4), in MMR the end of a facsimile block (T.6).
    Marked,
    /// The data end after a whole row: nothing is left, or zeros alone, which are fill (T.4,
    /// section 4.1.3).
    DataEnd,
    /// The next row cannot be read, for this cause.
    Fault(StripFault),
    /// There are 1,000,000 rows, the most that a strip has, and after them neither an end mark nor
    /// the end of the data.
    TooMany,
}

impl From<RowFault> for StripFault {
    ghost use Rattle.std.specs.Prelude.{◌≡◌};
    ghost use Rattle.fax_page.specs.Lines.{strip_fault};

    ghost from_gives = { λ cause fault. fault ≡ strip_fault cause };

    fn from(cause: RowFault) -> StripFault {
        match cause {
            RowFault::DataEnds => StripFault::DataEnds,
            RowFault::BadCode => StripFault::BadCode,
            RowFault::Extension => StripFault::Extension,
            RowFault::RunTooLong => StripFault::RunTooLong,
            RowFault::OutOfRow => StripFault::OutOfRow,
        }
    }
}
