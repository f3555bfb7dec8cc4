//! The pages of a file in the order of their chain, with their forms.
ghost use Rattle.fax_walk.specs.Pages.{ends_as};
ghost use Rattle.std.specs.Prelude.{◌≡◌, List, [], IfErr, IfOk, Err};
ghost use Rattle.fax_walk.specs.Pages.{FormItem, IsForm, IsFormTail};
ghost use Rattle.fax_walk.specs.code.Opening.{IsFileChain};
ghost use Rattle.fax_walk.specs.code.Pages as Spec;

use crate::opening::UnopenedPage;
use crate::{Cursor, End, WalkFault};
use fax_files::{Chain, PageForm};
use std::marker::Model;

/// How far a reader of pages has come.
#[derive(Drop)]
enum PagesStage<'a> {
    /// Nothing is read yet.
    Before,
    /// The page after these directories is expected.
    After(Chain<'a>),
    /// The pages have ended.
    Ended(End),
}

/// A reader of a file's pages, without their strips. Contracts see its file, the cursor that it
/// began with, how many pages it returned, and how the pages ended, once it reported that. It takes
/// no memory.
// It counts what it returned, so that its contract can say page number `yielded`; its view has no
// stage. It takes no memory, so that its `WalkFault` is never `Memory`.
#[derive(Drop)]
pub struct Pages<'a> {
    file: &'a [u8],
    origin: Cursor,
    /// How many pages were returned.
    yielded: u32,
    /// The cursor after the last of them, or the one that the reader began with.
    cursor: Cursor,
    stage: PagesStage<'a>,
}

impl<'a> Model for Pages<'a> {
    ghost use Rattle.fax_walk.specs.views.Pages.{PagesView};
    ghost use Rattle.fax_walk.specs.code.Pages.{IsSoundReader, final_end_of};

    ghost Value = { PagesView };

    ghost view = { λ p. record {
      file = p.file.now;
      origin = p.origin;
      yielded = p.yielded;
      final_end = final_end_of p.stage;
    } };

    ghost invariant = { λ p. IsSoundReader p.file.now p.origin p.yielded p.cursor p.stage };
}

/// The page after the directories that a chain has returned, or how the pages end there.
fn page_after<'a>(chain: Chain<'a>) -> Result<UnopenedPage<'a>, End>
    requires { IsFileChain chain }
    ensures ok { IfOk result (λ upcoming. Spec.IsPageAfter chain.entry upcoming) }
    ensures err { IfErr result (λ end. IsForm chain.entry.tiff.file chain.entry.yielded (ends_as end)) }
{
    match UnopenedPage::after(chain) {
        Ok(Some(page)) => Ok(page),
        Ok(None) => Err(End::EndOfPages),
        Err(end) => Err(end),
    }
}

/// The first page from a cursor on: the one that it names at row 0, else the one after it; or how
/// the pages end there.
fn first_page<'a>(file: &'a [u8], cursor: Cursor) -> Result<UnopenedPage<'a>, End>
    ensures ok { IfOk result (Spec.IsFirstUpcoming file.now cursor) }
    ensures err { IfErr result (IsFormTail file.now cursor []) }
{
    let Some(page) = UnopenedPage::at(file, cursor)? else {
        return Err(End::EndOfPages);
    };
    if cursor.row == 0 {
        Ok(page)
    } else {
        page_after(page.chain)
    }
}

impl<'a> Pages<'a> {
    ghost use Rattle.fax_walk.specs.laws.FormsLeft.{AreFormsLeft};
    ghost use Rattle.fax_walk.specs.views.Pages.{IsCursorOfPages, IsNextPage};
    ghost use Rattle.fax_walk.specs.views.Pages.{pages_from, pages_start};

    /// A reader of all pages of a file, from any bytes. Nothing is read yet.
    pub fn start(file: &'a [u8]) -> Self
        ensures { result ≡ pages_start file.now }
    {
        Pages::resume(file, Cursor { page: 0, row: 0 })
    }

    /// A reader of the pages of a file from a cursor on: from the page that it names at row 0, else
    /// from the one after it. Nothing is read yet.
    pub fn resume(file: &'a [u8], cursor: Cursor) -> Self
        ensures { result ≡ pages_from file.now cursor }
    {
        Pages {
            file,
            origin: cursor,
            yielded: 0,
            cursor,
            stage: PagesStage::Before,
        }
    }

    /// The cursor after the last page that was returned, or the one that the reader began with.
    pub fn cursor(&self) -> Cursor
        ensures { IsCursorOfPages self.now result }
    {
        self.cursor
    }

    /// The next page, or how the pages end.
    fn peek(&self) -> Result<UnopenedPage<'a>, End>
        ensures ok { IfOk result (Spec.IsUpcomingIn self.now) }
        ensures err { IfErr result (Spec.EndsNow self.now) }
    {
        match &self.stage {
            PagesStage::Before => first_page(self.file, self.origin),
            PagesStage::After(chain) => page_after(chain.fork()),
            PagesStage::Ended(end) => Err(*end),
        }
    }

    /// Pages are left, and an end. It computes nothing.
    pub(crate) fn lemma_forms_left(&self)
        ensures { (forms : List FormItem) × (end : End) × AreFormsLeft self.now forms end }
    {
        crate::laws::form_tails_are_one();
        let _ = &self.stage;
    }

    /// Returns the next page's number, from 0, and its form, or `None` once all pages were
    /// returned. It takes no memory.
    ///
    /// # Errors
    ///
    /// `AtRow` at the fault that ends the pages, `CursorOutside` where the reader began at no place
    /// of the file, from then on. Never `Memory`.
    pub fn next_page(&mut self) -> Result<Option<(u32, PageForm)>, WalkFault>
        ensures { IsNextPage self.old result self.new }
    {
        crate::laws::form_tails_are_one();
        match self.peek() {
            Ok(page) => {
                self.yielded += 1;
                self.cursor = Cursor {
                    page: page.chain.yielded(),
                    row: 0,
                };
                self.stage = PagesStage::After(page.chain);
                Ok(Some((page.page, page.form)))
            }
            Err(end) => {
                self.stage = PagesStage::Ended(end);
                end.answer()?;
                Ok(None)
            }
        }
    }
}
