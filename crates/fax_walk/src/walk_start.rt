//! What a walk begins with.

use crate::{Cursor, LongCursor};
use fax_bits::Memory;

/// What a walk begins with.
#[derive(Drop)]
pub enum WalkStart {
    /// A cursor: the strip that holds its row is read from its beginning.
    AtCursor(Cursor),
    /// A place inside a strip, from which on the strip is read.
    AtLongCursor(LongCursor),
}

impl WalkStart {
    ghost use Rattle.std.specs.Prelude.{◌≡◌, IfOk};
    ghost use Rattle.fax_walk.specs.views.Walk.{start_place};
    ghost use Rattle.fax_walk.specs.Items.{start_cursor};

    /// The cursor of what it begins with.
    pub(crate) fn cursor(&self) -> Cursor
        ensures { result ≡ start_cursor self.now }
    {
        match self {
            WalkStart::AtCursor(cursor) => *cursor,
            WalkStart::AtLongCursor(place) => place.at,
        }
    }

    /// The long cursor that it begins with, if it does.
    ///
    /// # Errors
    ///
    /// `Memory` where a growth was refused.
    pub(crate) fn long_cursor(&self) -> Result<Option<LongCursor>, Memory>
        ensures { IfOk result (λ place. place ≡ start_place self.now) }
    {
        match self {
            WalkStart::AtCursor(_) => Ok(None),
            WalkStart::AtLongCursor(place) => Ok(Some(LongCursor {
                at: place.at,
                bits: place.bits,
                runs: place.runs.clone().map_err(|_| Memory)?,
            })),
        }
    }
}
