//! Places in a file's rows.
ghost use Rattle.std.specs.Prelude.{◌≡◌, ◌≢◌, ℕ, ◌++◌, ◌<◌, ◌^◌, IfOk, OnOk, OnErr, decimal};
ghost use Rattle.std.specs.String.{string_bytes};
ghost use Rattle.fax_walk.specs.Pages.{cursor_text};

use arrayvec::ArrayString;
use fax_bits::Memory;
use itoa::Buffer;
use thiserror::Error;

/// What a cursor's text begins with, before the first colon.
const VERSION: &str = "1";

/// Where to continue: at a row of a page, both from 0.
#[derive(Clone, Copy, Debug, PartialEq, Eq)]
pub struct Cursor {
    pub page: u32,
    pub row: u32,
}

/// The text is not a cursor's.
#[derive(Clone, Copy, Debug, PartialEq, Eq, Error)]
#[error("not a cursor")]
pub struct NotACursor;

/// The number up to 4,294,967,295 that these decimals spell, without leading zeros.
pub(crate) fn number(digits: &str) -> Result<u32, NotACursor>
    ensures ok { IfOk result (λ number. digits.now ≡ decimal number) }
    ensures err { OnErr result ((number : ℕ) → number < 2 ^ 32 → digits.now ≢ decimal number) }
{
    let Ok(number) = digits.parse::<u32>() else {
        return Err(NotACursor);
    };
    // `parse` takes a plus and leading zeros too.
    let mut buffer = Buffer::new();
    if buffer.format(number) == digits {
        Ok(number)
    } else {
        Err(NotACursor)
    }
}

impl Cursor {
    ghost use Rattle.fax_walk.specs.Pages.{IsCursor};
    ghost use Rattle.fax_walk.specs.declared.cursor.Cursor.{Cursor};

    /// The cursor of a text `1:P:R`, in decimals without leading zeros up to 4,294,967,295.
    ///
    /// # Errors
    ///
    /// `NotACursor` where the text is no cursor's.
    pub fn parse(text: &str) -> Result<Cursor, NotACursor>
        ensures ok { IfOk result (λ cursor. text.now ≡ cursor_text cursor) }
        ensures err { OnErr result
            ((cursor : Cursor) → IsCursor cursor → text.now ≢ cursor_text cursor) }
    {
        let Some((version, place)) = text.split_once(':') else {
            return Err(NotACursor);
        };
        let Some((page, row)) = place.split_once(':') else {
            return Err(NotACursor);
        };
        if version != VERSION {
            return Err(NotACursor);
        }
        Ok(Cursor {
            page: number(page)?,
            row: number(row)?,
        })
    }

    /// The cursor's text, `1:P:R` in decimals.
    pub fn text(&self) -> ArrayString<23>
        ensures { result.bytes ≡ cursor_text self.now }
    {
        let mut digits = Buffer::new();
        let mut text = ArrayString::new();
        text.push_str(VERSION);
        text.push_str(":");
        text.push_str(digits.format(self.page));
        text.push_str(":");
        text.push_str(digits.format(self.row));
        text
    }

    /// Appends the cursor's text.
    ///
    /// # Errors
    ///
    /// `Memory` where a growth was refused; the text is then as it was.
    pub fn put_text(&self, text: &mut String) -> Result<(), Memory>
        ensures ok { OnOk result (string_bytes text.new ≡ string_bytes text.old
            ++ cursor_text self.now) }
        ensures err { OnErr result (string_bytes text.new ≡ string_bytes text.old) }
    {
        text.push_str(self.text().as_str()).map_err(|_| Memory)
    }
}
