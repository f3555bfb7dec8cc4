//! Laws of a file's rows and of its forms. The functions compute nothing: each has a law as its
//! contract.
ghost use Rattle.std.specs.Prelude.{List, ℕ};
ghost use Rattle.fax_walk.specs.Pages.{FormItem};
ghost use Rattle.fax_walk.specs.code.Sources.{FilesArePaged};
ghost use Rattle.fax_walk.specs.laws.Answers as AnswerLaws;
ghost use Rattle.fax_walk.specs.laws.Cursors as CursorLaws;
ghost use Rattle.fax_walk.specs.laws.FormsLeft.{AreFormsLeft};
ghost use Rattle.fax_walk.specs.laws.Tails as PageLaws;
ghost use Rattle.fax_walk.specs.laws.RowSource.{IsLeft};
ghost use Rattle.fax_walk.specs.laws.Printed as PrintedLaws;
ghost use Rattle.fax_walk.specs.laws.SalvagedRows.{AreLeftFromPlaces, AreLeftOneWay, PagesAreLeft};
ghost use Rattle.fax_walk.specs.laws.Salvaged.{IsSalvagedOneWay};
ghost use Rattle.fax_walk.specs.laws.SalvagedFiles as FileLaws;
ghost use Rattle.fax_walk.specs.laws.ReadBack as ReadBackLaws;
ghost use Rattle.fax_walk.specs.Items.{RowItem};
ghost use Rattle.fax_walk.specs.laws.WrittenFiles as WrittenLaws;
ghost use Rattle.fax_walk.specs.declared.end.End.{End};
ghost use Rattle.fax_walk.specs.views.SalvagedRows.{LeftOf};

use crate::{Pages, Walk};

/// A written file has the rows and the forms of its pages, in their order, and a proper end
/// (TIFF 6.0).
pub fn written_files_are_walked()
    ensures { WrittenLaws.WrittenFilesAreWalked }
{
    fax_bits::laws::bits_stand_by_index();
    fax_page::laws::lines_are_read_in_one_way();
    fax_files::laws::forms_are_whole();
    fax_files::laws::written_files_are_read();
    fax_files::laws::written_rows_are_read();
}

/// A file of coded strips has the rows and the forms of the pages that it was written of, in any
/// coding and either fill order, for any k and strip height (TIFF 6.0).
pub fn coded_files_are_walked()
    ensures { WrittenLaws.CodedFilesAreWalked }
{
    fax_page::laws::coded_strips_are_read_back();
    written_files_are_walked();
}

/// The items of a file are the rows of its pages (TIFF 6.0, section 2).
pub(crate) fn files_are_paged()
    ensures { FilesArePaged }
{
    fax_bits::laws::bits_stand_by_index();
    fax_page::laws::lines_are_read_in_one_way();
    fax_files::laws::files_have_one_chain();
    fax_files::laws::forms_are_whole();
}

/// What bytes are converted to is read back as their pages: a PBM has their images, and a TIFF file
/// their rows and the forms that were asked for, and ends properly (the netpbm format, P4; TIFF
/// 6.0). A TIFF file that is converted to another has the same rows at the same places.
pub fn conversions_are_read_back()
    ensures back { ReadBackLaws.ConversionsAreReadBack }
    ensures same { ReadBackLaws.ConversionsKeepItems }
{
    fax_rows::laws::packing_undoes_unpacking();
    files_are_paged();
    fax_files::laws::forms_are_within_limits();
    fax_files::laws::written_images_are_read();
    coded_files_are_walked();
    tails_go_on();
}

/// Bytes are converted to one output, or refused for one fault, and never both; and a file has one
/// report.
pub fn answers_are_one()
    ensures conversions { AnswerLaws.BytesAreConvertedInOneWay }
    ensures reports { AnswerLaws.FilesHaveOneReport }
{
    fax_files::laws::images_are_read_in_one_way();
    form_tails_are_one();
    tails_go_on();
}

/// Each walk has rows that are expected, and an end, also where it has returned some.
pub fn walks_have_items(walk: &Walk)
    ensures { (items : List RowItem) × (end : End) × IsLeft walk.now items end }
{
    walk.lemma_items_left();
}

/// Each reader of pages has pages that are left, and an end, also where it has returned some.
pub fn pages_have_forms(pages: &Pages)
    ensures { (forms : List FormItem) × (end : End) × AreFormsLeft pages.now forms end }
{
    pages.lemma_forms_left();
}

/// Whatever a walk begins with has a tail and an end, and one only.
pub fn beginnings_have_one_tail()
    ensures { PageLaws.BeginningsHaveOneTail }
{
    fax_bits::laws::bits_stand_by_index();
    fax_page::laws::lines_are_read_in_one_way();
    fax_files::laws::files_have_one_chain();
    fax_files::laws::forms_are_whole();
}

/// A cursor names one page of a file at most, and an item has the form of the page that its place
/// names.
pub fn cursors_name_one_page()
    ensures pages { PageLaws.CursorsNameOnePage }
    ensures forms { PageLaws.ItemsKnowTheirForm }
{}

/// Each file and each cursor has forms and an end, and one list of them only. From a page's first
/// row it is the forms from that page on. What follows a form is the tail from the cursor after it.
/// Page number n of a file has the number n.
pub fn form_tails_are_one()
    ensures all { PageLaws.FilesHaveOneForms }
    ensures one { PageLaws.CursorsHaveOneFormTail }
    ensures first { PageLaws.FormTailOfPage }
    ensures start { PageLaws.FormTailOfStart }
    ensures after { PageLaws.FormTailsGoOn }
    ensures numbers { PageLaws.FormsStandByNumber }
{
    fax_files::laws::files_have_one_chain();
}

/// Each page that a reader returns is the first of what was left of it, and then the rest is left.
pub fn pages_go_on()
    ensures forms { PageLaws.FormsLeftGoOn }
    ensures ends { PageLaws.FormsLeftEnd }
{
    form_tails_are_one();
}

/// What follows item number n is the tail from the cursor after it, and from the place inside a
/// strip after it, if there is one. Rows of its strip lead to that place. The tail from the first
/// cursor is all items of the file, and each file has one list of them. Two items of one page and
/// row are the same. Rows that end after an item do not end before the cursor after it.
pub fn tails_go_on()
    ensures cursors { PageLaws.TailsGoOn }
    ensures places { PageLaws.LongTailsGoOn }
    ensures reached { PageLaws.PlacesAreReached }
    ensures start { PageLaws.TailOfStart }
    ensures files { PageLaws.FilesHaveOneItems }
    ensures same { PageLaws.ItemsStandByPlace }
    ensures ends { PageLaws.TailsEndAfter }
{
    fax_bits::laws::bits_stand_by_index();
    fax_page::laws::lines_are_read_in_one_way();
    fax_files::laws::files_have_one_chain();
    fax_files::laws::forms_are_whole();
}

/// A walk from what was printed returns just the rest of a file's items, each once. Each file has
/// items and an end, and one list of them only, and they ascend. A walk that begins with the first
/// cursor, or with the cursor or the place inside a strip that was printed after item number n,
/// returns what follows that item and the same end, and prints what such a walk prints. Before its
/// first row it reads again only the rows before its beginning in its strip.
pub fn walks_return_the_rest()
    ensures one { PrintedLaws.FilesHaveOneList }
    ensures ends { PrintedLaws.ItemsEndInTheFile }
    ensures ascend { PrintedLaws.ItemsAscend }
    ensures rest { PrintedLaws.WalksReturnTheRest }
    ensures begin { PrintedLaws.WalksBeginThere }
    ensures next { PrintedLaws.WalksGoOn }
    ensures good { PrintedLaws.EndsAreForGood }
    ensures remaining { PrintedLaws.TheRestIsLeft }
    ensures cursor { PrintedLaws.CursorsArePrinted }
    ensures place { PrintedLaws.PlacesArePrinted }
    ensures read { PrintedLaws.RowsAreReadOnce }
{
    beginnings_have_one_tail();
    tails_go_on();
}

/// The cursor after an item of a file of at most 4,294,967,296 bytes has numbers of 32 bits, and so
/// has the place inside a strip after it, if there is one. Each text is that of one cursor at most.
pub fn cursors_are_named()
    ensures cursors { CursorLaws.CursorsAreShort }
    ensures places { CursorLaws.PlacesAreShort }
    ensures one { CursorLaws.TextsNameOne }
{
    fax_page::laws::lines_are_read_in_one_way();
    fax_files::laws::files_have_one_chain();
    fax_files::laws::forms_are_whole();
}

/// What a walk still returns is one list with one end. Its first is item number `yielded` of what
/// the walk returns in all. Each item that it returns is the first of it, and what is left is the
/// tail from the walk's cursor, and from its place inside a strip.
pub fn walks_go_on()
    ensures one { PageLaws.LeftIsOne }
    ensures number { PageLaws.LeftIsNumber }
    ensures items { PageLaws.LeftGoesOn }
    ensures ends { PageLaws.LeftEnds }
    ensures cursor { PageLaws.LeftIsTail }
    ensures place { PageLaws.LeftIsLongTail }
{
    beginnings_have_one_tail();
    tails_go_on();
}

/// What is left of a file is returned in one way: there is one list of rows that are found, of
/// stretches that are lost and of pages that are refused.
pub fn files_are_salvaged_in_one_way()
    ensures { (file : List ℕ) → IsSalvagedOneWay file }
{
    fax_page::laws::strips_are_salvaged_in_one_way();
}

/// A damaged file is written anew in one way: its pages are one list.
pub fn salvaged_files_are_one()
    ensures { FileLaws.FilesAreSalvagedToOne }
{
    fax_page::laws::strips_are_salvaged_in_one_way();
}

/// What is left of a page, or of a strip with no file around it, is one list of rows, found or
/// lost; and what is left of a file has that of each page. From any place of a page on it is one
/// list too, and from its first row on it is what is left of the page.
pub fn rows_are_left_in_one_way()
    ensures one { (its : LeftOf) → AreLeftOneWay its }
    ensures pages { PagesAreLeft }
    ensures places { AreLeftFromPlaces }
{
    fax_page::laws::strips_are_salvaged_in_one_way();
    fax_page::laws::uncounted_rows_are_left_in_one_way();
}

/// What a file is salvaged to is read back as its pages: the rows that are found, and white ones
/// where they are lost.
pub fn salvaged_files_are_read_back()
    ensures { FileLaws.SalvagedFilesAreReadBack }
{
    fax_page::laws::lines_are_read_in_one_way();
    fax_page::laws::strips_are_salvaged_in_one_way();
    fax_files::laws::forms_are_within_limits();
    fax_files::laws::written_images_are_read();
    coded_files_are_walked();
}

/// A TIFF file that a file was salvaged to is salvaged by the same options to itself.
pub fn salvaged_files_stay()
    ensures { FileLaws.SalvagedFilesStay }
{
    fax_page::laws::lines_are_read_by_a_function();
    fax_page::laws::lines_are_read_in_one_way();
    fax_page::laws::strips_are_salvaged_in_one_way();
    fax_page::laws::whole_strips_are_found();
    fax_page::laws::coded_strips_are_read_back();
    fax_files::laws::forms_are_within_limits();
    fax_files::laws::written_files_are_read();
}

/// A TIFF file that is converted, and of which no page says bad rows, is salvaged to what it is
/// converted to.
pub fn whole_files_are_converted()
    ensures { FileLaws.WholeFilesAreConverted }
{
    fax_bits::laws::bits_stand_by_index();
    fax_page::laws::lines_are_read_by_a_function();
    fax_page::laws::lines_are_read_in_one_way();
    fax_page::laws::strips_are_salvaged_in_one_way();
    fax_page::laws::whole_strips_are_found();
    fax_files::laws::forms_are_whole();
}
