//! A caller of `StripReader::next_row`, and a run of it.
ghost use Rattle.std.specs.Prelude.{◌≡◌, ◌≤◌, Bool, List, length, IfOk, IfSome};
ghost use Rattle.fax_bits.specs.Bits.{bits};
ghost use Rattle.fax_bits.specs.declared.Colour.{Colour};
ghost use Rattle.fax_page.specs.Lines.{IsLine, white_row};
ghost use Rattle.fax_page.specs.views.Strip.{IsStripForm};
ghost use Rattle.fax_rows.specs.Rows.{runs_of};

use fax_page::{Coding, FillOrder, Memory, StripForm, StripReader};
use std::alloc::Global;
use std::test::Fail;

/// The longest runs of a strip's first row, or `None` where it cannot be read.
pub fn first_row(alloc: Global, bytes: &[u8], form: StripForm) -> Result<Option<Vec<u32>>, Memory>
    requires count { length bytes.now ≤ 4294967295 }
    requires limits { IsStripForm form }
    ensures { IfOk result (λ found. IfSome found (λ runs. (row : List Colour) × (rest : List Bool)
        × IsLine form 0 (white_row form.width) (bits form.order bytes.now) row rest
        × (runs.items ≡ runs_of row))) }
{
    let mut reader = StripReader::new(alloc, bytes, form)?;
    match reader.next_row() {
        Ok(Some(row)) => Ok(Some(row.runs(alloc)?)),
        Ok(None) | Err(_) => Ok(None),
    }
}

#[test]
fn reads_the_first_row(rt: HostRuntime) -> Result<(), Fail> {
    let form = StripForm {
        coding: Coding::Mmr,
        order: FillOrder::MsbFirst,
        width: 8,
        rows: 1,
        aligned: false,
    };
    // Horizontal, white 3, black 2; V0.
    let runs = first_row(rt.alloc(), &[0x31, 0xC0], form)?.ok_or("no row")?;
    assert_eq!(rt; runs.as_slice(), [3, 2, 3].as_slice());
    Ok(())
}
