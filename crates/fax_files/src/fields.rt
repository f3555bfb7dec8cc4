//! The fields of a page: the first entries of the tags that its form depends on.

ghost use Rattle.std.specs.Prelude.{◌≡◌, ◌+◌, ◌≤◌, length, IsTrue, IfOk, IfSome, List, [], ◌∷◌};
ghost use Rattle.fax_files.specs.Directory as Spec;
ghost use Rattle.fax_files.specs.Page.{rational_of};
ghost use Rattle.fax_files.specs.code.Steps.{fault_of, first_number, test_of};
ghost use Rattle.fax_files.specs.views.Page.{IsGoodRational};
ghost use Rattle.fax_files.specs.code.Fields.{is_sought};
ghost use Rattle.fax_files.specs.views.Fields.{entries_of};

use crate::directory::Directory;
use crate::entries::Entry;
use crate::numbers::File;
use crate::{FileFault, tags};
use std::marker::Model;

/// The number of tags that are looked for.
const SOUGHT: usize = 14;

/// The tags that are looked for, in order.
pub(crate) const TAGS: [u16; SOUGHT] = [
    tags::IMAGE_WIDTH,
    tags::IMAGE_LENGTH,
    tags::BITS_PER_SAMPLE,
    tags::COMPRESSION,
    tags::PHOTOMETRIC_INTERPRETATION,
    tags::FILL_ORDER,
    tags::STRIP_OFFSETS,
    tags::SAMPLES_PER_PIXEL,
    tags::ROWS_PER_STRIP,
    tags::STRIP_BYTE_COUNTS,
    tags::X_RESOLUTION,
    tags::Y_RESOLUTION,
    tags::T4_OPTIONS,
    tags::RESOLUTION_UNIT,
];

/// The first entry of each tag of `TAGS`.
#[derive(Drop)]
pub(crate) struct FirstEntries {
    entries: [Option<Entry>; SOUGHT],
}

impl FirstEntries {
    ghost use Rattle.fax_files.specs.code.Fields.{AreFirst};

    /// No entries yet.
    pub fn new() -> Self
        ensures { AreFirst [] result.entries }
    {
        FirstEntries {
            entries: [None; SOUGHT],
        }
    }

    /// Puts an entry before those that were seen.
    pub fn see(&mut self, entry: Entry)
        ensures { (fields : List Spec.Entry) → AreFirst fields self.old.entries
            → AreFirst (entry ∷ fields) self.new.entries }
    {
        if let Ok(slot) = TAGS.binary_search(&entry.tag()) {
            self.entries[slot] = Some(entry);
        }
    }

    /// The first entry of a tag of `TAGS`.
    fn first(&self, tag: u16) -> Option<Entry>
        requires { IsTrue (is_sought tag) }
        ensures { (fields : List Spec.Entry) → AreFirst fields self.now.entries
            → result ≡ Spec.field fields tag }
    {
        match TAGS.binary_search(&tag) {
            Ok(slot) => self.entries[slot],
            Err(_) => unreachable!(),
        }
    }
}

/// The numbers of a field that are taken.
#[derive(Clone, Copy)]
pub(crate) enum Limits {
    /// From the first of these to the second.
    Between(u32, u32),
    AboveZero,
    Any,
}

impl Limits {
    /// Whether they allow a number.
    fn allow(self, number: u32) -> bool
        ensures { result ≡ test_of self number }
    {
        match self {
            Limits::Between(low, high) => low <= number && number <= high,
            Limits::AboveZero => number > 0,
            Limits::Any => true,
        }
    }
}

/// How a field is refused whose number is not taken.
#[derive(Clone, Copy)]
pub(crate) enum FieldRefusal {
    OutOfLimits,
    Unsupported,
    BadField,
}

impl FieldRefusal {
    /// The fault of a tag.
    fn fault(self, tag: u16) -> FileFault
        ensures { result ≡ fault_of self tag }
    {
        match self {
            FieldRefusal::OutOfLimits => FileFault::OutOfLimits(tag),
            FieldRefusal::Unsupported => FileFault::Unsupported(tag),
            FieldRefusal::BadField => FileFault::BadField(tag),
        }
    }
}

/// A directory with the first entry of each tag of `TAGS`.
#[derive(Drop)]
pub(crate) struct Fields<'d, 'a> {
    directory: &'d Directory<'a>,
    first: FirstEntries,
}

impl<'d, 'a> Model for Fields<'d, 'a> {
    ghost use Rattle.fax_files.specs.views.Tiff.{TiffDirectory};
    ghost use Rattle.fax_files.specs.code.Fields.{AreFieldsOf};

    ghost Value = { TiffDirectory };

    ghost view = { λ f. f.directory.now };

    ghost invariant = { λ f. AreFieldsOf f.directory.now f.first.entries };
}

impl<'d, 'a> Fields<'d, 'a> {
    /// Goes through the entries of a directory once.
    pub fn new(directory: &'d Directory<'a>) -> Self
        ensures { result ≡ directory.now }
    {
        Fields {
            directory,
            first: directory.first_entries(),
        }
    }

    /// The file that the directory stands in.
    pub fn file(&self) -> File<'a>
        ensures endian { result.endian ≡ self.now.endian }
        ensures file { result.bytes.now ≡ self.now.file }
    {
        self.directory.file()
    }

    /// The directory.
    pub fn directory(&self) -> Directory<'a>
        ensures { result ≡ self.now }
    {
        self.directory.fork()
    }

    /// The first entry of a tag of `TAGS`.
    pub fn first(&self, tag: u16) -> Option<Entry>
        requires { IsTrue (is_sought tag) }
        ensures first { result ≡ Spec.field (entries_of self.now) tag }
        ensures inside { IfSome result (λ entry. entry.offset + 4 ≤ length self.now.file) }
    {
        self.first.first(tag)
    }

    /// The first entry of a tag, which has to be there.
    pub fn needed(&self, tag: u16) -> Result<Entry, FileFault>
        requires { IsTrue (is_sought tag) }
        ensures exact { result ≡ Spec.needed (entries_of self.now) tag }
        ensures inside { IfOk result (λ entry. entry.offset + 4 ≤ length self.now.file) }
    {
        self.first(tag).ok_or(FileFault::MissingField(tag))
    }

    /// The first value of a tag, or `absent` where no entry has the tag, if it is given.
    fn first_number(&self, tag: u16, absent: Option<u32>) -> Result<u32, FileFault>
        requires { IsTrue (is_sought tag) }
        ensures { result
            ≡ first_number self.now.endian self.now.file (entries_of self.now) tag absent }
    {
        match (self.first(tag), absent) {
            (Some(entry), _) => self.file().scalar(&entry),
            (None, Some(number)) => Ok(number),
            (None, None) => Err(FileFault::MissingField(tag)),
        }
    }

    /// The scalar of a tag, or `absent` where no entry has the tag, if it is given: a number within
    /// the limits, else it is refused so.
    #[tactic(auto, unfolding(crate::specs::Directory::scalar))]
    pub fn scalar(
        &self,
        tag: u16,
        absent: Option<u32>,
        limits: Limits,
        refusal: FieldRefusal,
    ) -> Result<u32, FileFault>
        requires { IsTrue (is_sought tag) }
        ensures exact { result ≡ Spec.scalar self.now.endian self.now.file (entries_of self.now)
            tag absent (test_of limits) (fault_of refusal) }
        ensures allowed { IfOk result (λ number. IsTrue (test_of limits number)) }
    {
        let number = self.first_number(tag, absent)?;
        if !limits.allow(number) {
            return Err(refusal.fault(tag));
        }
        Ok(number)
    }

    /// The fraction of a tag, where it is there and good.
    #[tactic(auto, unfolding(crate::specs::Page::rational_of))]
    pub fn rational_of(&self, tag: u16) -> Option<(u32, u32)>
        requires { IsTrue (is_sought tag) }
        ensures exact { result
            ≡ rational_of self.now.endian self.now.file (entries_of self.now) tag }
        ensures good { IfSome result IsGoodRational }
    {
        let entry = self.first(tag)?;
        self.file().good_rational(&entry)
    }
}
