//! The caller that `CALLING.md` shows, and a run of it.
ghost use Rattle.std.specs.Prelude.{◌≡◌, ℕ, ◌<◌, ◌^◌, List, replicate, OnOk};
ghost use Rattle.fax_bits.specs.Reading.{read};
ghost use Rattle.fax_bits.specs.views.Sink.{Appends};
ghost use Rattle.fax_rows.specs.Coded.{two_dimensional_bits};
ghost use Rattle.fax_rows.specs.ReadRows.{read_one_dimensional};

use fax_rows::{BitSink, BitSource, Colour, FillOrder, Memory, Row, RowFault, put_2d, read_1d};
use std::alloc::Global;
use std::test::Fail;

/// Why a row could not be recoded.
#[derive(Clone, Copy, Debug, PartialEq, Eq)]
pub enum RecodeFault {
    Row(RowFault),
    Memory,
}

impl From<Memory> for RecodeFault {
    fn from(_: Memory) -> RecodeFault {
        RecodeFault::Memory
    }
}

impl From<RowFault> for RecodeFault {
    fn from(fault: RowFault) -> RecodeFault {
        RecodeFault::Row(fault)
    }
}

/// Reads a row in one-dimensional coding, and writes it as the first row of an MMR strip.
pub fn recode_first_row(
    alloc: Global,
    source: &mut BitSource,
    width: u32,
    sink: &mut BitSink,
) -> Result<(), RecodeFault>
    requires some { 0 < width }
    requires short { width < 2 ^ 16 }
    ensures { OnOk result ((row : List Colour)
        × (read_one_dimensional width source.old.remaining ≡ read row source.new.remaining)
        × Appends sink.old (two_dimensional_bits (replicate width Colour.White) row) sink.new) }
{
    let reference = Row::white(alloc, width)?;
    let mut row = Row::white(alloc, width)?;
    read_1d(source, &mut row)?;
    put_2d(&reference, &row, sink)?;
    Ok(())
}

#[test]
fn recodes_the_first_row(rt: HostRuntime) -> Result<(), Fail> {
    // White 3, black 2, white 3.
    let mut source = BitSource::new(&[0x8E, 0x00], FillOrder::MsbFirst);
    let mut sink = BitSink::new(rt.alloc(), FillOrder::MsbFirst);
    assert_eq!(rt;
        recode_first_row(rt.alloc(), &mut source, 8, &mut sink),
        Ok(())
    );
    sink.pad();
    // Horizontal, white 3, black 2; V0.
    assert_eq!(rt; sink.into_bytes().as_slice(), [0x31, 0xC0].as_slice());
    Ok(())
}
