//! Laws of rows. The functions compute nothing: each has a law as its contract.
ghost use Rattle.fax_rows.specs.laws.Rows as Law;
ghost use Rattle.fax_rows.specs.laws.Packed.{PackingUndoesUnpacking};

/// A row that is read has its width: in two-dimensional coding that of its reference row (T.4,
/// sections 4.1.1 and 4.2.1.3.3).
pub fn rows_have_their_width()
    ensures { Law.RowsHaveTheirWidth }
{}

/// What `put_1d` appends is read as the row that was put, whatever bits follow it (T.4, section
/// 4.1.1).
pub fn one_dimensional_rows_are_read_back()
    ensures { Law.OneDimensionalBitsAreRead }
{
    fax_bits::laws::runs_are_read_back();
}

/// What `put_2d` appends is read over the same reference row as the row that was put, whatever bits
/// follow it (T.4, section 4.2.1.3.3; T.6, section 2.2.4).
pub fn two_dimensional_rows_are_read_back()
    ensures { Law.TwoDimensionalBitsAreRead }
{
    fax_bits::laws::runs_are_read_back();
    fax_bits::laws::modes_are_read_back();
}

/// A packed row is read back, and bytes whose row is packed again are as they were but for the
/// padding, which is zeros (the netpbm format, P4). A row of a width has so many bytes, and so many
/// bytes a row of it.
pub fn packing_undoes_unpacking()
    ensures { PackingUndoesUnpacking }
{
    fax_bits::laws::bits_stand_by_index();
    fax_bits::laws::bits_are_packed_in_one_way();
}

/// A white row is written as one run, over another white one as a 1, and packed as zeros (T.4,
/// sections 4.1.1 and 4.2.1.3.3; the netpbm format, P4).
pub fn white_rows_are_written()
    ensures { Law.WhiteRowsAreWritten }
{}
