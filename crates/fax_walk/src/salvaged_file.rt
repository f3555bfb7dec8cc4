//! A damaged file written anew: the rows that are found, and white ones where rows are lost.
ghost use Rattle.std.specs.Prelude.{◌≡◌, ◌≢◌, ◌+◌, ◌<◌, ◌^◌, max, IfErr, IfOk, OnOk, Ok, length};
ghost use Rattle.fax_files.specs.views.Page.{IsPageForm};
ghost use Rattle.fax_files.specs.views.Tiff.{form_of};
ghost use Rattle.fax_walk.specs.SalvagedFile as Salvaged;
ghost use Rattle.fax_walk.specs.code.Opening.{IsFileChain};
ghost use Rattle.fax_walk.specs.code.OnPaper as Spec;
ghost use Rattle.fax_walk.specs.code.Output.{IsPartWritten, IsUpcomingPage, form_sheet, no_rows};
ghost use Rattle.fax_walk.specs.code.SalvageItems.{IsBeforeRows};
ghost use Rattle.fax_walk.specs.views.Converting.{Progress};

use crate::options::Options;
use crate::output::Output;
use crate::page_size::PageSize;
use crate::parts::SparseBytes;
use crate::salvage_rows::SalvagedPart;
use crate::shown_rows::ShownRows;
use fax_bits::Memory;
use fax_files::{BadRows, Chain, PageForm, Received, Strips, Tiff, WriteFault};
use std::alloc::Global;

/// How many rows of a page are lost, of those before the next one.
#[derive(Clone, Copy)]
struct LostCount {
    rows: u32,
    /// How many stood one after another at most, before the last row that is found.
    longest: u32,
    /// How many stand right before the next row.
    stretch: u32,
}

impl LostCount {
    /// After a row that is found.
    fn after_found(self) -> Self
        ensures { result ≡ Spec.after_found self }
    {
        LostCount {
            rows: self.rows,
            longest: self.longest.max(self.stretch),
            stretch: 0,
        }
    }

    /// After so many more rows that are lost.
    fn after_lost(self, rows: u32) -> Self
        requires rows { self.rows + rows < 2 ^ 32 }
        requires stretch { self.stretch + rows < 2 ^ 32 }
        ensures { result ≡ Spec.after_lost self rows }
    {
        LostCount {
            rows: self.rows + rows,
            longest: self.longest,
            stretch: self.stretch + rows,
        }
    }

    /// The bad rows that are said of the page, whose receiver counted these.
    fn bad_rows(self, received: Received) -> Option<BadRows>
        ensures { result ≡ Salvaged.bad_rows self.rows (max self.longest self.stretch) received }
    {
        let counted = received.bad_rows.unwrap_or(0);
        let clean = received.clean.unwrap_or(0);
        if self.rows == 0 && counted == 0 && clean == 0 {
            return None;
        }
        let count = if clean == 2 {
            self.rows.max(counted)
        } else {
            self.rows.saturating_add(counted)
        };
        let longest = self.longest.max(self.stretch);
        Some(BadRows {
            count,
            consecutive: longest.max(received.consecutive.unwrap_or(0)),
        })
    }
}

/// Puts the rows of a page: those that are found, and white ones where they are lost.
fn put_rows(
    alloc: Global,
    rows: &mut ShownRows,
    width: u32,
    output: &mut Output,
) -> Result<LostCount, Memory>
    requires width { width ≡ rows.old.rows.form.width }
    requires limits { IsPageForm rows.old.rows.form }
    requires start { IsBeforeRows rows.old.rows.directory rows.old.rows.form rows.old.rows }
    requires upcoming { (at : Progress)
        × IsPartWritten output.old (no_rows at (form_sheet rows.old.rows.form)) }
    ensures { IfOk result (Spec.PutsRows rows.old.rows output.old output.new) }
{
    let mut lost = LostCount {
        rows: 0,
        longest: 0,
        stretch: 0,
    };
    while let Some(part) = rows.next_part() {
        match part {
            SalvagedPart::Found => {
                output.put_row(rows.row())?;
                lost = lost.after_found();
            }
            SalvagedPart::Lost { rows: count, .. } => {
                output.put_white_rows(width, count)?;
                lost = lost.after_lost(count);
            }
        }
    }
    Ok(lost)
}

/// Puts a page after those that were written.
fn put_page(
    alloc: Global,
    form: PageForm,
    strips: Strips,
    options: &Options,
    output: &mut Output,
) -> Result<(), Memory>
    requires form { form_of strips.directory ≡ Ok form }
    requires limits { IsPageForm form }
    requires count { strips.count ≡ form.strips }
    requires upcoming { (at : Progress) × IsUpcomingPage options.now output.old at }
    ensures { OnOk result
        (Spec.PutsPage options.now strips.entry.directory form output.old output.new) }
{
    let received = strips.directory().received();
    output.begin(alloc, options, &PageSize::of_form(&form))?;
    let mut rows = ShownRows::open(alloc, form, strips)?;
    let lost = put_rows(alloc, &mut rows, form.width, output)?;
    output.end(lost.bad_rows(received))
}

/// What a chain of directories has next.
#[derive(Drop)]
enum PageStep<'a> {
    /// No directory more.
    Ends,
    /// A page that is refused, and the chain after it.
    Refused {
        chain: Chain<'a>,
    },
    /// A page that has a form, and the chain after it.
    There {
        form: PageForm,
        strips: Strips<'a>,
        chain: Chain<'a>,
    },
}

/// The next page after the directories that a chain has returned.
fn next_form<'a>(chain: &Chain<'a>) -> PageStep<'a>
    requires { IsFileChain chain.now }
    ensures { Spec.IsNextForm chain.now result }
{
    let mut chain = chain.fork();
    let directory = match chain.next() {
        Ok(Some(directory)) => directory,
        Ok(None) => return PageStep::Ends,
        Err(_fault) => return PageStep::Ends,
    };
    match directory.page_and_strips() {
        Err(_fault) => PageStep::Refused { chain },
        Ok((form, strips)) => PageStep::There {
            form,
            strips,
            chain,
        },
    }
}

/// The damaged file written anew, as the options say: each page of its chain that has a form, with
/// the rows that are found, and white ones where they are lost; or `None` where it has no such
/// page.
///
/// # Errors
///
/// `OutputTooLarge` where what is written has more than 268,435,456 bytes, or a TIFF file more than
/// 65,535 pages. `Memory` where a growth was refused.
pub fn salvage_file(
    alloc: Global,
    file: &[u8],
    options: &Options,
) -> Result<Option<SparseBytes>, WriteFault>
    ensures ok { IfOk result (Salvaged.IsSalvagedAs file.now options.now) }
    ensures err { IfErr result (λ fault. fault ≢ WriteFault.Memory
        → Salvaged.IsSalvagedTooLarge file.now options.now) }
{
    fax_page::laws::strips_are_salvaged_in_one_way();
    let Ok(tiff) = Tiff::read_header(file) else {
        return Ok(None);
    };
    let Ok(mut output) = Output::new(alloc, options) else {
        return Err(WriteFault::Memory);
    };
    let mut chain = Chain::new(tiff);
    let mut some = false;
    loop {
        match next_form(&chain) {
            PageStep::Ends => break,
            PageStep::Refused { chain: after } => chain = after,
            PageStep::There {
                form,
                strips,
                chain: after,
            } => {
                let Ok(()) = put_page(alloc, form, strips, options, &mut output) else {
                    return Err(WriteFault::Memory);
                };
                if let Output::TooLarge = output {
                    return Err(WriteFault::OutputTooLarge);
                }
                chain = after;
                some = true;
            }
        }
    }
    if !some {
        return Ok(None);
    }
    match output.finish(alloc) {
        Ok(bytes) => Ok(Some(bytes)),
        Err(_large) => Err(WriteFault::OutputTooLarge),
    }
}
