//! The callers that `CALLING.md` shows, and runs of them.
ghost use Rattle.std.specs.Prelude.{◌≡◌, ◌<◌, ◌≤◌, length, List, IfOk};
ghost use Rattle.fax_bits.specs.Bits.{bits};
ghost use Rattle.fax_bits.specs.declared.Colour.{Colour};
ghost use Rattle.fax_page.specs.laws.Strips.{AreRowsOf};
ghost use Rattle.fax_page.specs.Strip.{coded_strip};
ghost use Rattle.fax_page.specs.laws.Lines.{IsStrip};
ghost use Rattle.fax_page.specs.views.Strip.{IsStripForm};

use fax_page::laws::{strips_are_read_row_by_row, strips_are_written_row_by_row};
use fax_page::{Coding, FillOrder, Memory, Row, StripFault, StripForm, StripReader, StripWriter};
use std::alloc::Global;
use std::test::Fail;

/// How many rows a strip has before its end, or before the fault that ends it.
pub fn count_rows(
    alloc: Global,
    bytes: &[u8],
    form: StripForm,
) -> Result<(u32, Option<StripFault>), Memory>
    requires count { length bytes.now ≤ 4294967295 }
    requires limits { IsStripForm form }
    ensures { IfOk result (λ found. (rows : List (List Colour))
        × (length rows ≡ found.0) × IsStrip form (bits form.order bytes.now) rows found.1) }
{
    strips_are_read_row_by_row();
    let mut reader = StripReader::new(alloc, bytes, form)?;
    let mut count = 0;
    loop {
        match reader.advance() {
            Ok(true) => count += 1,
            Ok(false) => return Ok((count, None)),
            Err(fault) => return Ok((count, Some(fault))),
        }
    }
}

/// Writes rows as a strip.
pub fn write_strip(alloc: Global, form: StripForm, k: u32, rows: &[Row]) -> Result<Vec<u8>, Memory>
    requires limits { IsStripForm form }
    requires some_k { 0 < k }
    requires rows { AreRowsOf form rows.now }
    ensures { IfOk result (λ bytes. bytes.items ≡ coded_strip form k rows.now) }
{
    strips_are_written_row_by_row();
    let mut writer = StripWriter::new(alloc, form, k)?;
    for row in rows {
        writer.put_row(row)?;
    }
    writer.finish()
}

#[test]
fn writes_a_strip(rt: HostRuntime) -> Result<(), Fail> {
    let form = StripForm {
        coding: Coding::Mmr,
        order: FillOrder::MsbFirst,
        width: 8,
        rows: 1,
        aligned: false,
    };
    let rows = [Row::from_packed(rt.alloc(), &[0b0001_1000], 8)?];
    // Horizontal, white 3, black 2; V0; the end of the facsimile block.
    let bytes = write_strip(rt.alloc(), form, 1, &rows)?;
    assert_eq!(rt; bytes.as_slice(), [0x31, 0xC0, 0x04, 0x00, 0x40].as_slice());
    Ok(())
}

#[test]
fn counts_rows(rt: HostRuntime) -> Result<(), Fail> {
    let form = StripForm {
        coding: Coding::Mmr,
        order: FillOrder::MsbFirst,
        width: 8,
        rows: 2,
        aligned: false,
    };
    // V0; the end of the facsimile block, where a row is expected.
    assert_eq!(rt;
        count_rows(rt.alloc(), &[0x80, 0x08, 0x00, 0x80], form)?,
        (1, Some(StripFault::EndMarker))
    );
    Ok(())
}
