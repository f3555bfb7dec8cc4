//! A TIFF file and its directories.

ghost use Rattle.std.specs.Prelude.{◌≡◌, ◌≤◌, ◌<◌, length, Ok, Err, Some, None};
ghost use Rattle.std.specs.Prelude.{IsTrue, IsFalse, IfOk, IfErr, OnOk, OnErr};
ghost use Rattle.fax_files.specs.declared.FileFault.TheVariants.{DirectoryOutside, StripOutside};
ghost use Rattle.fax_files.specs.Directory.{header};
ghost use Rattle.fax_files.specs.views.Tiff.{bytes_of, directory_of, form_of, has_directory};

use crate::directory::{Directory, entry_count};
use crate::numbers::{File, is_inside};
use crate::{Endian, FileFault, PageForm};
use std::marker::Model;

/// A file with a good header.
#[derive(Drop)]
pub struct Tiff<'a> {
    file: File<'a>,
    first: u32,
}

impl<'a> Model for Tiff<'a> {
    ghost use Rattle.fax_files.specs.views.Tiff.{TiffFile};

    ghost Value = { TiffFile };

    ghost view = { λ t. record {
      file = t.file.bytes.now;
      head = record { endian = t.file.endian; first = t.first };
    } };
}

impl<'a> Tiff<'a> {
    /// Reads a file's header, or gives its first fault (TIFF 6.0, section 2).
    #[tactic(auto, unfolding(crate::specs::Directory::header))]
    pub fn read_header(file: &'a [u8]) -> Result<Self, FileFault>
        ensures head { IfOk result (λ tiff. header file.now ≡ Ok tiff.head) }
        ensures file { IfOk result (λ tiff. tiff.file ≡ file.now) }
        ensures some_first { IfOk result (λ tiff. 0 < tiff.head.first) }
        ensures fault { IfErr result (λ fault. header file.now ≡ Err fault) }
    {
        if file.len() < 8 {
            return Err(FileFault::ShortHeader);
        }
        let endian = if file.starts_with(b"II") {
            Endian::Little
        } else if file.starts_with(b"MM") {
            Endian::Big
        } else {
            return Err(FileFault::ByteOrder);
        };
        let file = File {
            bytes: file,
            endian,
        };
        if file.u16_at(2) != 42 {
            return Err(FileFault::Magic);
        }
        let first = file.u32_at(4);
        if first == 0 {
            return Err(FileFault::NoDirectory);
        }
        Ok(Tiff { file, first })
    }

    /// The bytes of the file.
    pub(crate) fn bytes(&self) -> &'a [u8]
        ensures { result.now ≡ self.now.file }
    {
        self.file.bytes
    }

    /// The same file once more.
    pub(crate) fn fork(&self) -> Self
        ensures { result ≡ self.now }
    {
        Tiff {
            file: self.file,
            first: self.first,
        }
    }

    /// The offset of the first directory, in bytes.
    pub fn first(&self) -> u32
        ensures { result ≡ self.now.head.first }
    {
        self.first
    }

    /// The directory at an offset in bytes, or `DirectoryOutside` where it does not lie whole in
    /// the file.
    pub fn directory(&self, offset: u32) -> Result<Directory<'a>, FileFault>
        ensures directory { IfOk result (λ directory. directory ≡ directory_of self.now offset) }
        ensures whole { OnOk result (IsTrue (has_directory self.now offset)) }
        ensures outside { OnErr result (IsFalse (has_directory self.now offset)) }
        ensures fault { IfErr result (λ fault. fault ≡ DirectoryOutside) }
    {
        let offset = offset as usize;
        if !is_inside(self.file.bytes, offset, 2) {
            return Err(FileFault::DirectoryOutside);
        }
        let len = 6 + 12 * entry_count(&self.file, offset) as usize;
        if !is_inside(self.file.bytes, offset, len) {
            return Err(FileFault::DirectoryOutside);
        }
        Ok(Directory::new(self.file, offset))
    }

    /// The bytes of strip `s`, from 0, of a page whose directory and form these are, or
    /// `StripOutside` where they do not lie in the directory's file. It is for callers that want
    /// one strip: `Strips` gives one after another.
    pub fn strip(
        &self,
        form: &PageForm,
        directory: &Directory<'a>,
        s: u32,
    ) -> Result<&'a [u8], FileFault>
        requires form { form_of directory.now ≡ Ok form.now }
        requires strip { s < form.now.strips }
        ensures bytes { IfOk result (λ bytes. bytes_of directory.now s ≡ Some bytes.now) }
        ensures len { IfOk result (λ bytes. length bytes.now ≤ 4294967295) }
        ensures outside { OnErr result (bytes_of directory.now s ≡ None) }
        ensures fault { IfErr result (λ fault. fault ≡ StripOutside) }
    {
        // Contracts need the form; the strips are found by the directory alone.
        let _ = form;
        directory.page_and_strips()?.1.bytes(s)
    }
}
