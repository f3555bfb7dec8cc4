//! Laws of strips. The functions compute nothing: each has a law as its contract.
ghost use Rattle.std.specs.Prelude.{ℕ, List};
ghost use Rattle.fax_bits.specs.declared.Colour.{Colour};
ghost use Rattle.fax_page.specs.declared.StripForm.{StripForm};
ghost use Rattle.fax_page.specs.laws.Strips as Law;
ghost use Rattle.fax_page.specs.laws.Following as Following;
ghost use Rattle.fax_page.specs.laws.StripGraphs as Graphs;
ghost use Rattle.fax_page.specs.laws.LeftUncounted.{LeavesUncounted};
ghost use Rattle.fax_page.specs.laws.Lines.{LinesAreReadByAFunction};
ghost use Rattle.fax_page.specs.laws.Reader.{ReadsRowByRow, StripsAreReadOn};
ghost use Rattle.fax_page.specs.laws.Salvage as Salvage;
ghost use Rattle.fax_page.specs.laws.Uncounted as Uncounted;
ghost use Rattle.fax_page.specs.laws.Writer.{WritesRowByRow};

/// The rows of a strip, from any row on, line by line, are what a function reads of its bits, in
/// any coding.
pub fn lines_are_read_by_a_function()
    ensures { LinesAreReadByAFunction }
{}

/// Bits are read in one way as a row of a strip, in any coding: they begin with one row and one
/// rest follows it, or one fault is in its way, never both. The rest is the end of the bits, and
/// the row is as wide as its reference.
pub fn lines_are_read_in_one_way()
    ensures { (form : StripForm) (i : ℕ) (reference : List Colour)
        → Law.ReadsLinesOneWay form i reference }
{
    fax_rows::laws::rows_have_their_width();
    fax_bits::laws::run_codes_are_read_in_one_way();
    fax_bits::laws::codes_are_read_in_one_way::<fax_bits::Modes>();
}

/// An aligned EOL ends on a byte boundary of its strip, after as little fill as does so (T.4,
/// section 4.1.3; TIFF 6.0, T4Options).
pub fn aligned_eols_end_on_bytes()
    ensures { (before : ℕ) → Law.IsLeastFill before }
{}

/// The bits of a written strip are read as its rows and no fault, in any coding, whatever bits
/// follow them.
pub fn coded_bits_are_read_back()
    ensures { Law.CodedBitsAreRead }
{
    fax_rows::laws::one_dimensional_rows_are_read_back();
    fax_rows::laws::two_dimensional_rows_are_read_back();
}

/// A written strip is read back: its bytes are a strip with its rows and no fault, in any coding,
/// for any k and either fill order.
pub fn coded_strips_are_read_back()
    ensures { Law.CodedStripsAreRead }
{
    coded_bits_are_read_back();
    fax_bits::laws::bits_are_packed_in_one_way();
}

/// A strip is read row by row: where `StripReader::advance` reads rows one after another, from a
/// strip's beginning on, they are the rows of the strip, up to its end.
pub fn strips_are_read_row_by_row()
    ensures { ReadsRowByRow }
{}

/// A strip is read on from any place, as from where `StripReader::restart_at` goes: the rows that
/// `StripReader::advance` reads from there are the lines of the strip from that row on, up to their
/// end, and a fault leaves the reader where it was before that call.
pub fn strips_are_read_on()
    ensures { StripsAreReadOn }
{}

/// A strip is written row by row: where `StripWriter::put_row` puts rows one after another, and
/// `put_white_rows` white ones, the bytes that `finish` gives are the strip of these rows.
pub fn strips_are_written_row_by_row()
    ensures { WritesRowByRow }
{}

/// Rows of a strip of unknown height, however they end, are all rows of a strip of as many, and no
/// fault.
pub fn uncounted_rows_are_a_strip()
    ensures { Uncounted.UncountedRowsAreAStrip }
{}

/// The bytes of a written strip are its rows, though their number is unknown: in MMR up to its end
/// mark, in MH and MR up to the end of the data.
pub fn coded_strips_are_read_uncounted()
    ensures { Uncounted.CodedStripsAreUncounted }
{
    fax_rows::laws::one_dimensional_rows_are_read_back();
    fax_rows::laws::two_dimensional_rows_are_read_back();
    fax_bits::laws::bits_are_packed_in_one_way();
}

/// A row of a strip is the same row, whatever bits follow those that it is read from, and so is a
/// fault in its way, but where it is that the data end.
pub fn rows_stay_whatever_follows()
    ensures { (form : StripForm) (i : ℕ) (reference : List Colour)
        → Following.StaysWhateverFollows form i reference }
{
    fax_bits::laws::run_codes_are_read_in_one_way();
    fax_bits::laws::codes_are_read_in_one_way::<fax_bits::Modes>();
}

/// A strip is read in pieces: the rows of its first bits, and then those of what is left of them
/// and of the bits that follow, are the rows of all of them.
pub fn strips_are_read_in_pieces()
    ensures { Following.ReadsInPieces }
{
    rows_stay_whatever_follows();
}

/// How the rows of a strip of unknown height end stays, whatever bits follow: with an end mark, or
/// with a fault that is neither the end of the data nor an end marker.
pub fn ends_stay_whatever_follows()
    ensures { Following.EndsStayWhateverFollows }
{
    lines_are_read_in_one_way();
    rows_stay_whatever_follows();
}

/// What is left of a damaged strip is found and lost in one way, from any row on, in any coding:
/// there is one list of what becomes of its rows, of as many as it has.
pub fn strips_are_salvaged_in_one_way()
    ensures { Salvage.SalvagesStripsOneWay }
{}

/// The rows that are read before a fault are found: all of them, or where an EOL is missing after
/// the last, all but that one.
pub fn rows_before_a_fault_are_found()
    ensures { Salvage.FindsRowsBeforeFaults }
{
    strips_are_salvaged_in_one_way();
}

/// In MH and MR the row after a lost one begins at the next EOL, whatever bits that hold no EOL
/// stand before it: so what is found after a lost row is the same whatever its bits were.
pub fn lost_bits_do_not_matter()
    ensures { Salvage.LostBitsDoNotMatter }
{}

/// The next row after one that is found or lost begins among the bits from that one on.
pub fn upcoming_rows_stand_in_strips()
    ensures { Salvage.UpcomingRowsStandInStrips }
{
    lines_are_read_in_one_way();
}

/// A strip that is read wholly loses nothing: its rows are those that are found where all are.
pub fn whole_strips_are_found()
    ensures { Salvage.FindsWholeStrips }
{}

/// What is left of rows of a strip of unknown height is found and lost in one way, from any row on,
/// in any coding: one list and one end. It is what is left of the first rows of a strip with as
/// many as there may be, and where the rows are read to an end mark, or to the end of the data, all
/// are found.
pub fn uncounted_rows_are_left_in_one_way()
    ensures { LeavesUncounted }
{
    lines_are_read_in_one_way();
    strips_are_salvaged_in_one_way();
}

/// What is left of a damaged strip, and of damaged rows of a strip of unknown height, with their
/// end, is what functions read of its bits (T.4, sections 4.1.2 and 4.2.2; T.6, section 2.2.1).
pub fn damaged_strips_are_read_by_functions()
    ensures { Graphs.DamagedStripsAreReadByFunctions }
{}
