//! What is left of a damaged file: the rows that are found, and the stretches that are lost.

ghost use Rattle.std.specs.Prelude.{◌≡◌, IfOk};
ghost use Rattle.fax_walk.specs.code.Opening.{IsFileChain};
ghost use Rattle.fax_walk.specs.code.SalvageFile as Spec;

use crate::Place;
use crate::salvage_page::SalvagePage;
use fax_bits::Memory;
use fax_files::{Cause, Chain, FileFault, Tiff};
use fax_rows::Row;
use std::alloc::Global;
use std::marker::Model;

/// Rows of a page that are lost, one after another.
#[derive(Clone, Copy, Debug, PartialEq, Eq)]
pub struct LostRows {
    /// The page, from 0.
    pub page: u32,
    /// The first of them, from 0.
    pub row: u32,
    /// How many they are.
    pub rows: u32,
    /// Why the first of them is lost.
    pub cause: Cause,
}

impl LostRows {
    ghost use Rattle.fax_walk.specs.views.LostRows as Lost;

    /// The stretch that ends before a row of a page, where there is one, with so many rows more,
    /// which are lost for this cause.
    pub fn longer(lost: Option<LostRows>, page: u32, row: u32, rows: u32, cause: Cause) -> LostRows
        requires { Lost.CanGrowBy lost rows }
        ensures { result ≡ Lost.longer lost page row rows cause }
    {
        match lost {
            Some(stretch) => LostRows {
                rows: stretch.rows + rows,
                ..stretch
            },
            None => LostRows {
                page,
                row,
                rows,
                cause,
            },
        }
    }
}

/// What is returned of a damaged file.
#[derive(Clone, Copy, Debug, PartialEq, Eq)]
pub enum SalvageItem {
    /// A row that is found; `Salvage::row` lends it, up to the next call.
    Row(Place),
    /// Rows that are lost. A stretch ends where a row is found or the page ends.
    Lost(LostRows),
    /// A page whose form is refused, so that nothing of it is read.
    Refused { page: u32, fault: FileFault },
}

/// What a chain of directories has next.
#[derive(Drop)]
enum ChainStep<'a> {
    /// Nothing more: the last page was the one before.
    Ends,
    /// Nothing more: no directory stands where the next one begins.
    Broken,
    /// A page that is refused, and the chain after it.
    Refused {
        fault: FileFault,
        chain: Chain<'a>,
    },
    /// A page that is entered, and the chain after it.
    Entered {
        page: SalvagePage<'a>,
        chain: Chain<'a>,
    },
}

/// The next page after the directories that a chain has returned.
#[cold]
#[inline(never)]
fn next_page<'a>(alloc: Global, chain: &Chain<'a>) -> Result<ChainStep<'a>, Memory>
    requires { IsFileChain chain.now }
    ensures { IfOk result (Spec.IsNextPage chain.now) }
{
    let number = chain.yielded();
    let mut chain = chain.fork();
    let directory = match chain.next() {
        Ok(Some(directory)) => directory,
        Ok(None) => return Ok(ChainStep::Ends),
        Err(_fault) => return Ok(ChainStep::Broken),
    };
    match directory.page_and_strips() {
        Err(fault) => Ok(ChainStep::Refused { fault, chain }),
        Ok((form, strips)) => {
            let page = SalvagePage::open(alloc, number, form, strips)?;
            Ok(ChainStep::Entered { page, chain })
        }
    }
}

/// Leaves the page that is gone through, if one is, and returns whether it lies wholly in the file,
/// and no row of it is lost.
fn close_page(page: &mut Option<SalvagePage>) -> bool
    ensures none { page.new ≡ None }
    ensures clean { result ≡ Spec.was_clean page.old }
{
    let clean = match page {
        None => true,
        Some(page) => page.is_clean(),
    };
    *page = None;
    clean
}

/// Returns what is next on the page that is gone through, or `None` where nothing is left of it, or
/// no page was entered.
#[inline(always)]
fn item_of_page(page: &mut Option<SalvagePage>) -> Option<SalvageItem>
    ensures { Spec.GivesItem page.old result page.new }
{
    match page {
        None => None,
        Some(page) => {
            let item = page.next_item();
            page.lemma_items_left();
            item
        }
    }
}

/// Goes through a file page after page, also after one that is refused, and returns each row that
/// is found, each stretch of rows that are lost, and each page that is refused. Contracts see its
/// file, how many items it returned, and the row that was found last.
#[derive(Drop)]
pub struct Salvage<'a> {
    alloc: Global,
    file: &'a [u8],
    /// The directories that are expected, or none where the file has no good header.
    chain: Option<Chain<'a>>,
    /// The page that is gone through, if one was entered.
    page: Option<SalvagePage<'a>>,
    /// How many items were returned.
    yielded: u64,
    /// Whether the pages that were left lie wholly in the file, and nothing of them is lost.
    whole: bool,
}

impl<'a> Model for Salvage<'a> {
    ghost use Rattle.fax_walk.specs.views.SalvageItems.{SalvageView};
    ghost use Rattle.fax_walk.specs.code.SalvageFile.{IsInFile, shown_last};

    ghost Value = { SalvageView };

    ghost view = { λ s. record {
      file = s.file.now;
      yielded = s.yielded;
      last = shown_last s.page;
      whole = s.whole;
    } };

    ghost invariant = { λ s. IsInFile s.file.now s.chain s.page s.yielded s.whole };
}

impl<'a> Salvage<'a> {
    ghost use Rattle.fax_walk.specs.views.SalvageItems.{IsLentLast, IsNextLeft, IsSalvageStart};

    /// Before the first page of a file, from any bytes. It takes no memory.
    pub fn begin(alloc: Global, file: &'a [u8]) -> Self
        ensures { IsSalvageStart file.now result }
    {
        match Tiff::read_header(file) {
            Ok(tiff) => Salvage {
                alloc,
                file,
                chain: Some(Chain::new(tiff)),
                page: None,
                yielded: 0,
                whole: true,
            },
            Err(_fault) => Salvage {
                alloc,
                file,
                chain: None,
                page: None,
                yielded: 0,
                whole: false,
            },
        }
    }

    /// Returns what is next, or `None` after all. It takes memory only where a page is entered.
    ///
    /// # Errors
    ///
    /// `Memory` where a growth was refused. Then nothing was returned, and it may be called again.
    #[inline(always)]
    pub fn next_item(&mut self) -> Result<Option<SalvageItem>, Memory>
        ensures { IsNextLeft self.old result self.new }
    {
        fax_bits::laws::bits_stand_by_index();
        fax_page::laws::lines_are_read_in_one_way();
        fax_page::laws::strips_are_salvaged_in_one_way();
        crate::laws::files_are_salvaged_in_one_way();
        'pages: loop {
            if let Some(item) = item_of_page(&mut self.page) {
                self.yielded += 1;
                return Ok(Some(item));
            }
            let clean = close_page(&mut self.page);
            self.whole &= clean;
            let Some(chain) = &self.chain else {
                return Ok(None);
            };
            let page = chain.yielded();
            match next_page(self.alloc, chain)? {
                ChainStep::Ends => return Ok(None),
                ChainStep::Broken => {
                    self.whole = false;
                    return Ok(None);
                }
                ChainStep::Refused { fault, chain } => {
                    self.chain = Some(chain);
                    self.yielded += 1;
                    self.whole = false;
                    return Ok(Some(SalvageItem::Refused { page, fault }));
                }
                ChainStep::Entered { page, chain } => {
                    self.page = Some(page);
                    self.chain = Some(chain);
                }
            }
        }
    }

    /// After the last item: `true` only where nothing of the file is lost, and its rows end
    /// properly. Before that, the same of the pages passed so far. `false` is no claim that
    /// something is lost: a lost row is an item of its own.
    pub fn is_whole(&self) -> bool
        ensures { result ≡ self.now.whole }
    {
        self.whole
    }

    /// The row of the last item, where that is one. After another item it may be another row of the
    /// page that is read, and where no page is, there is none.
    pub fn row(&self) -> Option<&Row>
        ensures { IsLentLast self.now.last result }
    {
        match &self.page {
            Some(page) => Some(page.row()),
            None => None,
        }
    }
}
