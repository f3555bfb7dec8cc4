//! How many pages a file has that is written page by page, reported in each of them.
ghost use Rattle.std.specs.Prelude.{
  ◌≡◌,
  ℕ,
  ◌+◌,
  ◌-◌,
  ◌<◌,
  ◌≤◌,
  length,
  true,
  false,
  MatchOption,
  ⊤,
};
ghost use Rattle.fax_c.specs.views.Ended as Spec;
ghost use Rattle.fax_files.specs.views.Writing as Written;

use crate::bytes::{four_at, two_at};
use crate::status;
use crate::writing::{FaxWritten, MOST_BYTES, MOST_PAGES};
use fax_files::put_totals;

/// How many fields the directory of each page has at least.
const LEAST_FIELDS: usize = 16;

/// Whether the pages of a file can be given how many they are, as far as its numbers say.
fn is_endable(written: &FaxWritten) -> bool
    ensures some { result ≡ true → Spec.IsEndable written.now }
    ensures none { result ≡ false → Spec.IsEndable written.now → ⊥ }
{
    written.added >= 1
        && written.added <= MOST_PAGES
        && written.len >= 8
        && written.len <= MOST_BYTES
}

/// Where the link of a page stands to which a link leads, if that page lies after the link.
fn next_link(file: &[u8], link: usize) -> Option<usize>
    requires { link + 4 ≤ length file.now }
    ensures page { MatchOption result (Written.IsLinkToPage file.now link → ⊥)
        (λ next. Written.IsLinkToPage file.now link) }
    ensures next { MatchOption result ⊤ (λ next. next ≡ Written.next_link file.now link) }
{
    let directory = four_at(file, link) as usize;
    if directory < link + 4 || directory > file.len() - 2 {
        return None;
    }
    let fields = usize::from(two_at(file, directory));
    let next = directory + 2 + 12 * fields;
    if fields < LEAST_FIELDS || next > file.len() - 4 {
        return None;
    }
    Some(next)
}

/// Whether so many pages stand in a file after its header, and the last has its link here.
fn are_pages(file: &[u8], count: u32, last: usize) -> bool
    requires { 8 ≤ length file.now }
    ensures some { result ≡ true → Written.ArePagesAfter file.now count 4 last }
    ensures none { result ≡ false → Written.ArePagesAfter file.now count 4 last → ⊥ }
{
    let mut link = 4;
    for _ in 0..count {
        let Some(next) = next_link(file, link) else {
            return false;
        };
        link = next;
    }
    link == last
}

/// Reports each page of a file of the caller how many there are, if these are its pages.
fn end_pages(file: &mut [u8], written: &mut FaxWritten) -> u32
    ensures { Spec.TellsPagesEnded file.old file.new written.old written.new result }
{
    // Until the pages are ended the total is 0, which TIFF calls not available: so the file is a
    // whole one after each page. One call at the end takes a time in proportion to the pages; a
    // page that reported all before it would take the square of that. The chain is believed only
    // where each directory stands after its link, so that what is written is none of what it goes
    // by.
    if !is_endable(written) {
        return status::NO_OPTIONS;
    }
    if written.len > file.len() {
        return status::NO_ROOM;
    }
    let so_far = &mut file[..written.len];
    if !are_pages(so_far, written.added, written.link as usize) {
        return status::NO_OPTIONS;
    }
    put_totals(so_far, written.added as u16);
    written.total = written.added;
    status::DONE
}

/// Reports each page of a file that was written page by page how many there are, as one does of
/// which that was known when the first was added.
#[unsafe(no_mangle)]
pub extern "C" fn faxpages_end_pages(file: &mut [u8], written: &mut FaxWritten) -> u32
    ensures told { Spec.TellsPagesEnded file.old file.new written.old written.new result }
    ensures whole { Spec.EndsWholeFile file.old file.new written.old result }
{
    fax_files::laws::totals_are_told();
    end_pages(file, written)
}
