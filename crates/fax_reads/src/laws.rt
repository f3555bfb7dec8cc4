//! Laws of the functions. These here compute nothing: each has a law as its contract.
ghost use Rattle.fax_reads.specs.laws.Examples.{AreStripsRead};
ghost use Rattle.fax_reads.specs.laws.Files.{FilesAreReadByFunctions, TailsAreReadByFunctions};
ghost use Rattle.fax_reads.specs.laws.FileExamples.{AreFilesRead};
ghost use Rattle.fax_reads.specs.laws.Images.{ImagesAreReadByFunctions};
ghost use Rattle.fax_reads.specs.laws.ImageExamples.{AreImagesRead};
ghost use Rattle.fax_reads.specs.laws.CodedExamples.{AreChosenSo};
ghost use Rattle.fax_reads.specs.laws.SampleExamples.{AreSamplesRead};
ghost use Rattle.fax_reads.specs.laws.TailExamples.{AreTailsRead};
ghost use Rattle.fax_reads.specs.laws.Reports.{ReportsAreReadByAFunction};
ghost use Rattle.fax_reads.specs.laws.ReportExamples.{AreReportsRead};
ghost use Rattle.fax_reads.specs.laws.Eols.{FoundRowsReachToTheNextEol, RowsHoldNoEol};
ghost use Rattle.fax_reads.specs.laws.FileSalvage.{SalvagesAreReadByFunctions};
ghost use Rattle.fax_reads.specs.laws.SalvageExamples.{AreSalvagesRead};

/// Worked strips are read as they are meant.
pub fn examples_are_read()
    ensures { AreStripsRead }
{}

/// The row at a place of a file, the form of a page, and all rows and all forms with their end are
/// what functions read of its bytes (TIFF 6.0, section 2).
pub fn files_are_read_by_functions()
    ensures { FilesAreReadByFunctions }
{
    fax_bits::laws::bits_stand_by_index();
    fax_page::laws::lines_are_read_in_one_way();
    fax_files::laws::files_have_one_chain();
    fax_files::laws::forms_are_whole();
}

/// Worked files are read as they are meant.
pub fn worked_files_are_read()
    ensures { AreFilesRead }
{
    files_are_read_by_functions();
}

/// What a walk returns, and what a reader of pages does, from a cursor or a place inside a strip
/// on, is what functions read of the file's bytes.
pub fn tails_are_read_by_functions()
    ensures { TailsAreReadByFunctions }
{
    fax_bits::laws::bits_stand_by_index();
    fax_page::laws::lines_are_read_in_one_way();
    fax_files::laws::files_have_one_chain();
    fax_files::laws::forms_are_whole();
}

/// What is returned from worked cursors and places on is what is meant.
pub fn worked_tails_are_read()
    ensures { AreTailsRead }
{
    tails_are_read_by_functions();
}

/// The samples are read as they are meant.
pub fn samples_are_read()
    ensures { AreSamplesRead }
{
    files_are_read_by_functions();
}

/// Worked runs and rows have the codes that T.4 chooses (T.4, sections 4.1.1 and 4.2.1.3.3).
pub fn codes_are_chosen_so()
    ensures { AreChosenSo }
{}

/// What is reported of a file is what a function reads of its bytes (T.4, sections 4.1.1, 4.1.4 and
/// 4.2.4; T.6, End-of-facsimile block; TIFF 6.0, section 2).
pub fn reports_are_read_by_a_function()
    ensures { ReportsAreReadByAFunction }
{
    fax_bits::laws::bits_stand_by_index();
    fax_page::laws::lines_are_read_in_one_way();
    fax_files::laws::files_have_one_chain();
    fax_files::laws::forms_are_whole();
}

/// Worked files have the reports that are meant.
pub fn worked_reports_are_read()
    ensures { AreReportsRead }
{
    reports_are_read_by_a_function();
}

/// A header, an image, the fault in its place, and all images with their end are what functions
/// read of the bytes (the netpbm format, P4).
pub fn images_are_read_by_functions()
    ensures { ImagesAreReadByFunctions }
{
    fax_files::laws::images_are_read_in_one_way();
}

/// Worked images are read as they are meant.
pub fn worked_images_are_read()
    ensures { AreImagesRead }
{
    images_are_read_by_functions();
}

/// What is left of a damaged file is what a function reads of its bytes (TIFF 6.0, section 2).
pub fn salvages_are_read_by_functions()
    ensures { SalvagesAreReadByFunctions }
{
    fax_page::laws::damaged_strips_are_read_by_functions();
    fax_walk::laws::files_are_salvaged_in_one_way();
}

/// What is left of worked damaged files is what is meant.
pub fn worked_salvages_are_read()
    ensures { AreSalvagesRead }
{
    salvages_are_read_by_functions();
    fax_page::laws::damaged_strips_are_read_by_functions();
}

/// No EOL stands among the codes of a row, and none begins there where one follows them: each code
/// begins with at most seven zeros, and ends with at most three (T.4, section 4.1.2, and tables 2,
/// 3a, 3b and 4).
pub fn rows_hold_no_eol()
    ensures { RowsHoldNoEol }
{}

/// A row that is found in a damaged strip, and after which an EOL is expected, reaches from its own
/// EOL to the next one, or nothing but zeros follows it (T.4, section 4.1.2).
pub fn found_rows_reach_to_the_next_eol()
    ensures { FoundRowsReachToTheNextEol }
{}
