//! A table of the tests' own, read by the law of tables alone.

use fax_bits::{BitSource, CodeEntry, CodeFault, CodeTable, FillOrder, read_code};

/// A table with the codes 0, 10 and 11.
struct Trits;

impl CodeTable for Trits {
    ghost use Rattle.std.specs.Prelude.{refl};
    ghost use Rattle.fax_callers.specs.Trits as Spec;

    type Meaning = u8;

    ghost COUNT = { 3 };

    const COUNT: usize = 3;

    ghost table = { Spec.trits };

    fn entry(i: usize) -> CodeEntry<u8> {
        let (code, len) = match i {
            0 => (0b0, 1),
            1 => (0b10, 2),
            _ => (0b11, 2),
        };
        CodeEntry {
            code,
            len,
            meaning: i as u8,
        }
    }

    ghost counted = { refl };

    ghost short_codes = { Spec.trits_has_short_codes };

    ghost prefix_free = { Spec.trits_is_prefix_free };
}

#[test]
fn reads_any_table(rt: HostRuntime) {
    let mut source = BitSource::new(&[0x01], FillOrder::MsbFirst);
    assert!(rt; source.remaining() >= 6);
    source.skip(6);
    assert_eq!(rt; read_code::<Trits>(&mut source), Ok(0));
    assert_eq!(rt; read_code::<Trits>(&mut source), Err(CodeFault::DataEnds));
    assert_eq!(rt; source.place(), 7);
}
