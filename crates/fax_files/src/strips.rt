//! Where the strips of a page stand in its file.

ghost use Rattle.std.specs.Prelude.{◌≡◌, ◌≤◌, ◌<◌, length, Some, None, IfOk, IfErr, OnErr};
ghost use Rattle.fax_files.specs.views.Tiff.{bytes_of, inside_of};

use crate::FileFault;
use crate::directory::Directory;
use crate::entries::Entry;
use crate::numbers::is_inside;
use std::marker::Model;

/// Where the strips of a page stand: two entries of its directory, with a value for each strip.
#[derive(Drop)]
pub struct Strips<'a> {
    directory: Directory<'a>,
    count: u32,
    offsets: Entry,
    byte_counts: Entry,
}

impl<'a> Model for Strips<'a> {
    ghost use Rattle.fax_files.specs.views.Tiff.{PageStrips};
    ghost use Rattle.fax_files.specs.code.Tiff.{AreStripEntries};

    ghost Value = { PageStrips };

    ghost view = { λ s. record { directory = s.directory; count = s.count } };

    ghost invariant = { λ s. AreStripEntries s.directory s.count s.offsets s.byte_counts };
}

impl<'a> Strips<'a> {
    ghost use Rattle.fax_files.specs.code.Tiff.{AreStripEntries};

    /// The strips of the page with this directory.
    pub(crate) fn new(
        directory: Directory<'a>,
        count: u32,
        offsets: Entry,
        byte_counts: Entry,
    ) -> Self
        requires { AreStripEntries directory count offsets byte_counts }
        ensures directory { result.directory ≡ directory.entry }
        ensures count { result.count ≡ count }
    {
        Strips {
            directory,
            count,
            offsets,
            byte_counts,
        }
    }

    /// The directory of the page.
    pub fn directory(&self) -> Directory<'a>
        ensures { result ≡ self.now.directory }
    {
        self.directory.fork()
    }

    /// The number of strips.
    pub fn count(&self) -> u32
        ensures { result ≡ self.now.count }
    {
        self.count
    }

    /// The bytes of strip `s`, from 0, or `StripOutside` where they do not lie in the file
    /// (TIFF 6.0, StripOffsets and StripByteCounts).
    pub fn bytes(&self, s: u32) -> Result<&'a [u8], FileFault>
        requires { s < self.now.count }
        ensures bytes { IfOk result (λ bytes. bytes_of self.now.directory s ≡ Some bytes.now) }
        ensures len { IfOk result (λ bytes. length bytes.now ≤ 4294967295) }
        ensures within { IfOk result (λ bytes. length bytes.now ≤ length self.now.directory.file) }
        ensures outside { OnErr result (bytes_of self.now.directory s ≡ None) }
        ensures fault { IfErr result (λ fault. fault ≡ FileFault.StripOutside) }
    {
        // A byte count of 0 at an offset past the file's end is refused too.
        let file = self.directory.file();
        let offset = file.value_at(&self.offsets, s) as usize;
        let len = file.value_at(&self.byte_counts, s) as usize;
        if !is_inside(file.bytes, offset, len) {
            return Err(FileFault::StripOutside);
        }
        Ok(&file.bytes[offset..offset + len])
    }

    /// The bytes of strip `s`, from 0, that lie in the file: those before its end, where it has not
    /// all of them (TIFF 6.0, StripOffsets and StripByteCounts).
    pub fn bytes_inside(&self, s: u32) -> &'a [u8]
        requires { s < self.now.count }
        ensures bytes { result.now ≡ inside_of self.now.directory s }
        ensures len { length result.now ≤ 4294967295 }
        ensures within { length result.now ≤ length self.now.directory.file }
    {
        let file = self.directory.file();
        let offset = file.value_at(&self.offsets, s) as usize;
        let len = file.value_at(&self.byte_counts, s) as usize;
        let begin = offset.min(file.bytes.len());
        let rest = &file.bytes[begin..];
        &rest[..len.min(rest.len())]
    }
}
