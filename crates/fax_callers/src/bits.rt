//! The caller that `CALLING.md` shows, and a run of it.
ghost use Rattle.std.specs.Prelude.{◌≡◌, ◌≤◌, Bool, List, length};
ghost use Rattle.fax_bits.specs.Bits.{bits};
ghost use Rattle.fax_bits.specs.Codes.{read_code as read_code_of};
ghost use Rattle.fax_bits.specs.Reading.{answered};
ghost use Rattle.fax_bits.specs.Tables.{modes};

use fax_bits::{BitSource, CodeFault, FillOrder, ModeCode, Modes, read_code};

/// The mode of the first step of an MMR strip.
pub fn first_mode(bytes: &[u8], order: FillOrder) -> Result<ModeCode, CodeFault>
    requires { length bytes.now ≤ 4294967295 }
    ensures { (rest : List Bool)
        × (read_code_of modes (bits order bytes.now) ≡ answered (λ mode. mode) result rest) }
{
    let mut source = BitSource::new(bytes, order);
    read_code::<Modes>(&mut source)
}

#[test]
fn reads_the_first_mode(rt: HostRuntime) {
    // 000010 is vertical mode with a1 two pels left of b1.
    let mode = Ok(ModeCode::Vertical(-2));
    assert_eq!(rt; first_mode(&[0b0000_1011], FillOrder::MsbFirst), mode);
    assert_eq!(rt; first_mode(&[0b1101_0000], FillOrder::LsbFirst), mode);
    assert_eq!(rt;
        first_mode(&[], FillOrder::MsbFirst),
        Err(CodeFault::DataEnds)
    );
}
