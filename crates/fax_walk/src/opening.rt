//! The pages of a file, from its header and its chain of directories on.
ghost use Rattle.std.specs.Prelude.{◌≡◌, ◌+◌, ◌<◌, ◌≤◌, List, [], IfErr, IfOk, OnErr, OnOk};
ghost use Rattle.fax_files.specs.Directory.{header};
ghost use Rattle.fax_walk.specs.code.Opening as Spec;

use crate::{Cursor, End};
use fax_bits::Memory;
use fax_files::{Chain, FileFault, PageForm, Strips, Tiff};
use fax_page::PlaceFault;
use std::marker::Model;

/// Why a page could not be opened.
#[derive(Clone, Copy)]
pub(crate) enum OpenFault {
    /// A growth was refused.
    Memory,
    /// There is no such page: the rows end so.
    Ended(End),
}

impl From<Memory> for OpenFault {
    ghost use Rattle.fax_walk.specs.declared.opening.OpenFault.TheVariants.{Memory as NoMemory};

    ghost from_gives = { λ _ gives. gives ≡ NoMemory };

    fn from(_refused: Memory) -> Self {
        OpenFault::Memory
    }
}

impl From<PlaceFault> for OpenFault {
    ghost use Rattle.fax_walk.specs.code.Opening.{fault_inside};

    ghost from_gives = { λ fault gives. gives ≡ fault_inside fault };

    fn from(fault: PlaceFault) -> Self {
        match fault {
            PlaceFault::Memory => OpenFault::Memory,
            PlaceFault::Outside => OpenFault::Ended(End::Outside),
        }
    }
}

impl From<End> for OpenFault {
    ghost use Rattle.fax_walk.specs.declared.opening.OpenFault.TheVariants.{Ended};

    ghost from_gives = { λ end gives. gives ≡ Ended end };

    fn from(end: End) -> Self {
        OpenFault::Ended(end)
    }
}

/// The next page, and none of whose strips is read yet.
#[derive(Drop)]
pub(crate) struct UnopenedPage<'a> {
    pub(crate) page: u32,
    /// The chain after the page's directory.
    pub(crate) chain: Chain<'a>,
    pub(crate) form: PageForm,
    pub(crate) strips: Strips<'a>,
}

impl<'a> Model for UnopenedPage<'a> {
    ghost use Rattle.fax_walk.specs.code.Opening.{UpcomingPage, IsUpcomingPage};

    ghost Value = { UpcomingPage };

    ghost view = { λ p. record {
      page = p.page;
      chain = p.chain;
      directory = p.strips.directory;
      form = p.form;
    } };

    ghost invariant = { λ p. IsUpcomingPage p.page p.chain p.strips p.form };
}

/// The chain of a file's directories, before the one of this number, or how the rows end where
/// there are fewer before it.
pub(crate) fn chain_before<'a>(file: &'a [u8], page: u32) -> Result<Chain<'a>, End>
    ensures ok { IfOk result (λ chain. Spec.IsChainBefore file.now page chain) }
    ensures err { IfErr result (Spec.IsNoPage file.now page) }
{
    let tiff = match Tiff::read_header(file) {
        Ok(tiff) => tiff,
        Err(fault) => return Err(End::of_file(0, 0, fault)),
    };
    let mut chain = Chain::new(tiff);
    for number in 0..page {
        match chain.next() {
            Ok(Some(_)) => {}
            Ok(None) => return Err(End::Outside),
            Err(fault) => return Err(End::of_file(number, 0, fault)),
        }
    }
    Ok(chain)
}

impl<'a> UnopenedPage<'a> {
    /// The next page after the directories that a chain has returned, or none after the last one,
    /// or the fault in its place.
    pub(crate) fn after(mut chain: Chain<'a>) -> Result<Option<Self>, End>
        requires { Spec.IsFileChain chain }
        ensures { Spec.IsPageAnswer chain.entry result }
    {
        let page = chain.yielded();
        let directory = match chain.next() {
            Ok(Some(directory)) => directory,
            Ok(None) => return Ok(None),
            Err(fault) => return Err(End::of_file(page, 0, fault)),
        };
        match directory.page_and_strips() {
            Ok((form, strips)) => Ok(Some(UnopenedPage {
                page,
                chain,
                form,
                strips,
            })),
            Err(fault) => Err(End::of_file(page, 0, fault)),
        }
    }

    /// The page that a cursor names, or none after the last page, or how the rows end where the
    /// cursor names no place of the file.
    pub(crate) fn at(file: &'a [u8], cursor: Cursor) -> Result<Option<Self>, End>
        ensures ok { IfOk result (Spec.IsNamed file.now cursor) }
        ensures err { IfErr result (Spec.EndsAt file.now cursor) }
    {
        let chain = chain_before(file, cursor.page)?;
        let Some(page) = UnopenedPage::after(chain)? else {
            return if cursor.row == 0 {
                Ok(None)
            } else {
                Err(End::Outside)
            };
        };
        if cursor.row > page.form.rows {
            return Err(End::Outside);
        }
        Ok(Some(page))
    }
}
