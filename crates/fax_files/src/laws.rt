//! Laws of files. The functions compute nothing: each has a law as its contract.
ghost use Rattle.fax_files.specs.laws.TiffFiles as Laws;
ghost use Rattle.fax_files.specs.laws.Pbm as PbmLaws;
ghost use Rattle.fax_files.specs.laws.TiffFiles.{WritesPageByPage};

/// Each file has one chain of directories, which has one end (TIFF 6.0, section 2). So that of a
/// written file is that of its pages, and no other.
pub fn files_have_one_chain()
    ensures { Laws.FilesHaveOneChain }
{}

/// The size of a page that is not refused is within the limits, and its rows lie in its strips,
/// each of which holds some (TIFF 6.0, RowsPerStrip).
pub fn forms_are_whole()
    ensures { Laws.FormsAreWhole }
{}

/// The form of a page that is not refused is within all limits, in a file of bytes.
pub fn forms_are_within_limits()
    ensures { Laws.FormsAreWithinLimits }
{}

/// A file with one more page at its end keeps what stood in it, but for the link to the page, and
/// the page is read as it was written (TIFF 6.0).
pub fn appended_pages_are_read()
    ensures { Laws.AppendedPagesAreRead }
{}

/// A file is written page by page: where `TiffWriter::add_page` adds pages one after another, the
/// bytes that `finish` gives are the file of these pages.
pub fn files_are_written_page_by_page()
    ensures { WritesPageByPage }
{}

/// Pages that are written are found by their links, and given another total they are the pages that
/// say that (TIFF 6.0, PageNumber).
pub fn totals_are_told()
    ensures { Laws.TotalsAreTold }
{}

/// A written file is read as its pages, in their order, with a proper end (TIFF 6.0).
pub fn written_files_are_read()
    ensures { Laws.WrittenFilesAreRead }
{}

/// A page that is read as it was written has the rows of its strips (TIFF 6.0, RowsPerStrip).
pub fn written_rows_are_read()
    ensures { Laws.WrittenRowsAreRead }
{}

/// Images that are written are read back, and a proper end after them (the netpbm format, P4).
pub fn written_images_are_read()
    ensures { PbmLaws.WrittenImagesAreRead }
{
    fax_rows::laws::packing_undoes_unpacking();
}

/// Bytes have one list of images, and one end (the netpbm format, P4).
pub fn images_are_read_in_one_way()
    ensures { PbmLaws.ImagesAreReadInOneWay }
{}

/// Bytes begin with at most one image (the netpbm format, P4).
pub fn images_begin_in_one_way()
    ensures { PbmLaws.ImagesBeginInOneWay }
{}
