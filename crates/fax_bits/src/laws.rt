//! Laws of bits and of the code tables. The functions compute nothing: each has a law as its
//! contract.
ghost use Rattle.fax_bits.specs.declared.Colour.{Colour};
ghost use Rattle.fax_bits.specs.laws.Codes as Law;

use crate::codes::CodeTable;

/// Bytes have eight bits each, and each bit stands in its byte, at a place that the fill order says
/// (TIFF 6.0, FillOrder).
pub fn bits_stand_by_index()
    ensures { Law.AreBitsByIndex }
{}

/// Eight bits are those of one byte, and a byte is the number that its bits spell, the highest
/// first (TIFF 6.0, FillOrder).
pub fn eight_bits_are_a_byte()
    ensures { Law.AreBitsOfOneByte }
{}

/// Bits are packed into bytes in one way: the bytes hold the bits, and zeros up to a whole byte
/// (TIFF 6.0, FillOrder).
pub fn bits_are_packed_in_one_way()
    ensures { Law.PacksOneWay }
{}

/// Bits are read by any table in one way: at most one code is taken, which has at least one bit; a
/// code is taken or there is a fault, never both, and never two faults.
pub fn codes_are_read_in_one_way<T: CodeTable>()
    ensures { Law.ReadsOneWay T.table }
{}

/// Bits are read by the run table of a colour in one way: at most one code is taken, which has at
/// least one bit; a code is taken or there is a fault, never both, and never two faults (T.4,
/// tables 2, 3a and 3b). Bits begin with at most one run of the colour, and one rest follows it.
pub fn run_codes_are_read_in_one_way()
    ensures { (colour : Colour) → Law.ReadsRunsOneWay colour }
{}

/// A run below 65,536 pels, as `put_run` writes it, is read as that run, whatever bits follow it
/// (T.4, section 4.1.1).
pub fn runs_are_read_back()
    ensures { Law.RunBitsAreRead }
{}

/// A run below 65,536 pels, as `put_run` writes it, is read as no other run, and no other bits are
/// left after it (T.4, section 4.1.1).
pub fn runs_are_read_as_nothing_else()
    ensures { Law.RunBitsAreOneRun }
{}

/// Bits that begin with codes of a run as T.4 chooses them, code by code, begin as `put_run` writes
/// that run (T.4, section 4.1.1).
pub fn chosen_codes_are_written()
    ensures { Law.ChosenCodesAreWritten }
{}

/// A mode, as `put_mode` writes it, is read as that mode, whatever bits follow it (T.4, section
/// 4.2.1.3.2).
pub fn modes_are_read_back()
    ensures { Law.ModeBitsAreRead }
{}
