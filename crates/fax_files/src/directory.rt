//! The directory of a page.

ghost use Rattle.std.specs.Prelude.{◌≡◌, ◌+◌, ◌*◌, ◌<◌, ◌≤◌, length, Ok, Err, IfOk, IfErr, IfSome};
ghost use Rattle.fax_files.specs.Directory as Spec;
ghost use Rattle.fax_files.specs.code.Entries.{entry_count as count_of};
ghost use Rattle.fax_files.specs.code.Fields as Code;
ghost use Rattle.fax_files.specs.views.Page.{IsPageForm};
ghost use Rattle.fax_files.specs.code.Fields.{AreFieldsOf};
ghost use Rattle.fax_files.specs.views.Fields.{entries_of};
ghost use Rattle.fax_files.specs.views.Tiff.{form_of};

use crate::entries::Entry;
use crate::fields::{Fields, FirstEntries};
use crate::numbers::File;
use crate::page::read_page;
use crate::strips::Strips;
use crate::{Endian, FileFault, PageForm};
use std::marker::Model;

/// A directory that lies whole in its file: a page.
#[derive(Drop)]
pub struct Directory<'a> {
    bytes: &'a [u8],
    endian: Endian,
    offset: usize,
}

impl<'a> Model for Directory<'a> {
    ghost use Rattle.fax_files.specs.code.Fields.{IsWholeDirectory};
    ghost use Rattle.fax_files.specs.views.Tiff.{TiffDirectory};

    ghost Value = { TiffDirectory };

    ghost view = { λ d. record { endian = d.endian; file = d.bytes.now; offset = d.offset } };

    ghost invariant = { λ d. IsWholeDirectory d.endian d.bytes.now d.offset };
}

/// The number of entries in the directory at an offset.
pub(crate) fn entry_count(file: &File, offset: usize) -> u16
    requires { offset + 2 ≤ length file.now.bytes.now }
    ensures { result ≡ count_of file.now.endian file.now.bytes.now offset }
{
    file.u16_at(offset)
}

impl<'a> Directory<'a> {
    /// The directory at an offset.
    pub(crate) fn new(file: File<'a>, offset: usize) -> Self
        requires { Code.IsWholeDirectory file.endian file.bytes.now offset }
        ensures endian { result.endian ≡ file.entry.endian }
        ensures file { result.file ≡ file.entry.bytes.now }
        ensures offset { result.offset ≡ offset }
    {
        Directory {
            bytes: file.bytes,
            endian: file.endian,
            offset,
        }
    }

    /// The same directory once more.
    pub(crate) fn fork(&self) -> Self
        ensures { result ≡ self.now }
    {
        Directory {
            bytes: self.bytes,
            endian: self.endian,
            offset: self.offset,
        }
    }

    /// The file that it stands in.
    pub(crate) fn file(&self) -> File<'a>
        ensures endian { result.endian ≡ self.now.endian }
        ensures file { result.bytes.now ≡ self.now.file }
    {
        File {
            bytes: self.bytes,
            endian: self.endian,
        }
    }

    /// The first entry of each tag of `TAGS`. It goes from the last entry to the first.
    pub(crate) fn first_entries(&self) -> FirstEntries
        ensures { AreFieldsOf self.now result.entries }
    {
        // From the last to the first, so that the first of a tag is the one that stays. A stranger
        // can chain many directories of 65,535 entries over one another, so one pass finds all.
        let file = self.file();
        let mut first = FirstEntries::new();
        let count = entry_count(&file, self.offset);
        for k in (0..count).rev() {
            first.see(file.entry_at(self.offset + 2 + 12 * k as usize));
        }
        first
    }

    /// The first entry of a tag, also of one that is not in `TAGS`. It goes from the first entry
    /// on.
    pub(crate) fn first_of(&self, tag: u16) -> Option<Entry>
        ensures first { result ≡ Spec.field (entries_of self.now) tag }
        ensures inside { IfSome result (λ entry. entry.offset + 4 ≤ length self.now.file) }
    {
        let file = self.file();
        let count = entry_count(&file, self.offset);
        for k in 0..count {
            let entry = file.entry_at(self.offset + 2 + 12 * k as usize);
            if entry.tag() == tag {
                return Some(entry);
            }
        }
        None
    }

    /// The offset of the next directory, in bytes, or 0 at the chain's end.
    pub fn next_offset(&self) -> u32
        ensures { result ≡ Spec.next_offset self.now.endian self.now.file self.now.offset }
    {
        let file = self.file();
        let count = entry_count(&file, self.offset) as usize;
        file.u32_at(self.offset + 2 + 12 * count)
    }

    /// The form of the page, or its first fault, by the fields in the order of their checks: width,
    /// rows, bits of a sample, compression, photometric interpretation, fill order, samples of a
    /// pel, rows of a strip, T.4 options, offsets and byte counts of the strips (TIFF 6.0).
    pub fn page(&self) -> Result<PageForm, FileFault>
        ensures exact { result ≡ form_of self.now }
        ensures limits { IfOk result IsPageForm }
    {
        Ok(self.page_and_strips()?.0)
    }

    /// The form of the page, as `page` has it, and where its strips stand, by one pass over the
    /// entries.
    pub fn page_and_strips(&self) -> Result<(PageForm, Strips<'a>), FileFault>
        ensures form { IfOk result (λ page. form_of self.now ≡ Ok page.0) }
        ensures fault { IfErr result (λ fault. form_of self.now ≡ Err fault) }
        ensures limits { IfOk result (λ page. IsPageForm page.0) }
        ensures directory { IfOk result (λ page. page.1.directory ≡ self.now) }
        ensures count { IfOk result (λ page. page.1.count ≡ page.0.strips) }
    {
        read_page(&Fields::new(self))
    }

    /// Whether the tags of the entries ascend, none standing twice (TIFF 6.0, section 2).
    pub fn in_order(&self) -> bool
        ensures { result ≡ Spec.ascend (entries_of self.now) }
    {
        let file = self.file();
        let count = entry_count(&file, self.offset);
        for k in 1..count {
            let offset = self.offset + 2 + 12 * k as usize;
            if file.u16_at(offset - 12) >= file.u16_at(offset) {
                return false;
            }
        }
        true
    }
}
