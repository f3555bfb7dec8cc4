//! The rows of a page that are left, strip after strip.
ghost use Rattle.std.specs.Prelude.{◌≡◌, ◌<◌, ◌≤◌, IfErr, IfOk, List, Ok, length};
ghost use Rattle.fax_walk.specs.Salvaged.{PageRow};
ghost use Rattle.fax_files.specs.views.Page.{IsPageForm};
ghost use Rattle.fax_files.specs.views.Tiff.{form_of};
ghost use Rattle.fax_walk.specs.code.SalvageItems as Spec;

use fax_bits::Memory;
use fax_files::{Cause, FileFault, PageForm, Strips};
use fax_page::{PlaceFault, ReferenceRow, SalvageReader, Salvaged, StripFault};
use fax_rows::Row;
use std::alloc::Global;
use std::marker::Model;

/// What became of the next row of a page, or of a strip with no file around it, and of those that
/// are lost with it.
#[derive(Clone, Copy, Debug, PartialEq, Eq)]
pub enum SalvagedPart {
    /// The row is found.
    Found,
    /// So many rows are lost, the first of them for this cause.
    Lost { rows: u32, cause: Cause },
}

/// Where a row is read in its strip: it is lent.
#[derive(Clone, Copy)]
pub struct StripPositionRef<'a> {
    /// How many bits stand before it, of those that the file has of the strip.
    pub bits: u32,
    /// The row before it, which is found, as it is coded.
    pub reference: &'a Row,
}

/// The bytes of strip `s` that lie in the file, and whether these are all of them.
fn bytes_left<'a>(strips: &Strips<'a>, s: u32) -> (&'a [u8], bool)
    requires { s < strips.now.count }
    ensures bytes { Spec.AreBytesLeft strips.now.directory s result.0.now result.1 }
    ensures len { length result.0.now ≤ 4294967295 }
    ensures within { length result.0.now ≤ length strips.now.directory.file }
{
    match strips.bytes(s) {
        Ok(bytes) => (bytes, true),
        Err(_outside) => (strips.bytes_inside(s), false),
    }
}

/// The cause for which a row of a strip is lost, which lies wholly in the file or does not.
fn cause_of(fault: StripFault, whole: bool) -> Cause
    ensures { result ≡ Spec.cause_of fault whole }
{
    if whole {
        Cause::Strip(fault)
    } else {
        Cause::File(FileFault::StripOutside)
    }
}

/// What became of the next row of a page, by what became of it in its strip, which lies wholly in
/// the file or does not.
pub(crate) fn part_of(salvaged: Salvaged, whole: bool) -> SalvagedPart
    ensures { result ≡ Spec.part_of salvaged whole }
{
    match salvaged {
        Salvaged::Found => SalvagedPart::Found,
        Salvaged::Lost { fault, rows } => SalvagedPart::Lost {
            rows,
            cause: cause_of(fault, whole),
        },
        Salvaged::Unterminated { rows } => SalvagedPart::Lost {
            rows,
            cause: cause_of(StripFault::MissingEol, whole),
        },
    }
}

/// Whether the row is found.
fn is_found(salvaged: Salvaged) -> bool
    ensures { result ≡ Spec.is_found salvaged }
{
    match salvaged {
        Salvaged::Found => true,
        Salvaged::Lost { .. } => false,
        Salvaged::Unterminated { .. } => false,
    }
}

/// The rows of a page that are gone through. Contracts see the page's directory and form, the strip
/// that is gone through, whether it lies wholly in the file, and how far it is gone through.
#[derive(Drop)]
pub(crate) struct SalvageRows<'a> {
    form: PageForm,
    strips: Strips<'a>,
    /// The strip that is gone through, from 0.
    strip: u32,
    /// Whether it lies wholly in the file.
    whole: bool,
    /// Whether all strips up to it lie wholly in the file, and no row of them is lost so far.
    clean: bool,
    reader: SalvageReader<'a>,
}

impl<'a> Model for SalvageRows<'a> {
    ghost use Rattle.fax_walk.specs.code.SalvageItems.{RowsState, IsInPage};

    ghost Value = { RowsState };

    ghost view = { λ r. record {
      directory = r.strips.directory;
      form = r.form;
      strip = r.strip;
      whole = r.whole;
      clean = r.clean;
      reader = r.reader;
    } };

    ghost invariant = { λ r. IsInPage r.strips r.form r.strip r.whole r.clean r.reader };
}

impl<'a> SalvageRows<'a> {
    /// Before the first row of a page.
    pub fn begin(alloc: Global, form: PageForm, strips: Strips<'a>) -> Result<Self, Memory>
        requires form { form_of strips.directory ≡ Ok form }
        requires limits { IsPageForm form }
        requires count { strips.count ≡ form.strips }
        ensures { IfOk result (Spec.IsBeforeRows strips.entry.directory form) }
    {
        let (bytes, whole) = bytes_left(&strips, 0);
        let reader = SalvageReader::new(alloc, bytes, form.strip_form(0))?;
        Ok(SalvageRows {
            form,
            strips,
            strip: 0,
            whole,
            clean: whole,
            reader,
        })
    }

    /// Before row `row` of a page, after so many bits of its strip, with this row before it.
    pub fn begin_at(
        alloc: Global,
        form: PageForm,
        strips: Strips<'a>,
        row: u32,
        bits: u32,
        before: ReferenceRow,
    ) -> Result<Self, PlaceFault>
        requires form { form_of strips.directory ≡ Ok form }
        requires limits { IsPageForm form }
        requires count { strips.count ≡ form.strips }
        requires upcoming { row < form.rows }
        ensures ok { IfOk result
            (Spec.StartsAt strips.entry.directory form row bits before.entry) }
        ensures err { IfErr result
            (Spec.IsNotStartedAt strips.entry.directory form row bits before.entry) }
    {
        fax_bits::laws::bits_stand_by_index();
        let strip = row / form.rows_per_strip;
        let row_in_strip = row - strip * form.rows_per_strip;
        let strip_form = form.strip_form(strip);
        let (bytes, whole) = bytes_left(&strips, strip);
        let reader = SalvageReader::inside(alloc, bytes, strip_form, row_in_strip, bits, before)?;
        Ok(SalvageRows {
            form,
            strips,
            strip,
            whole,
            clean: false,
            reader,
        })
    }

    /// Goes before the first row of the next strip, if there is one, where the one before it is
    /// gone through.
    fn enter_strip(&mut self)
        ensures { Spec.EntersStrip self.old self.new }
    {
        fax_page::laws::whole_strips_are_found();
        if self.reader.row() < self.form.strip_form(self.strip).rows
            || self.strip + 1 == self.form.strips
        {
            return;
        }
        let next = self.strip + 1;
        let (bytes, whole) = bytes_left(&self.strips, next);
        let rows = self.form.strip_form(next).rows;
        self.strip = next;
        self.whole = whole;
        self.clean = self.clean && whole;
        self.reader.restart(bytes, rows);
    }

    /// What becomes of the next row, or `None` after the page's last one.
    pub fn next_part(&mut self) -> Option<SalvagedPart>
        ensures { Spec.IsPart self.old result self.new }
    {
        fax_page::laws::whole_strips_are_found();
        fax_page::laws::upcoming_rows_stand_in_strips();
        self.enter_strip();
        let Some(salvaged) = self.reader.next_salvaged() else {
            return None;
        };
        self.clean = self.clean && is_found(salvaged);
        Some(part_of(salvaged, self.whole))
    }

    /// Where the next row is read in its strip, or `None` where the strip is gone through: then the
    /// next one begins with that row, if the page has more.
    pub fn place(&self) -> Option<StripPositionRef<'_>>
        requires { length self.now.directory.file ≤ 536870911 }
        ensures { Spec.IsPlaceOf self.now result }
    {
        fax_bits::laws::bits_stand_by_index();
        if self.reader.row() == self.form.strip_form(self.strip).rows {
            return None;
        }
        let (bytes, _whole) = bytes_left(&self.strips, self.strip);
        let bits = 8 * bytes.len() as u64 - self.reader.bits_remaining();
        Some(StripPositionRef {
            bits: bits as u32,
            reference: self.reader.reference(),
        })
    }

    /// Whether all strips up to the one that is gone through lie wholly in the file, and no row of
    /// them is lost so far.
    pub fn is_clean(&self) -> bool
        ensures { result ≡ self.now.clean }
    {
        self.clean
    }

    /// Rows are left of the page, or none: it computes nothing.
    pub fn lemma_rows_left(&self)
        ensures { (rows : List PageRow) × Spec.AreRowsLeft self.now rows }
    {
        fax_page::laws::strips_are_salvaged_in_one_way();
        let _row = self.reader.row();
    }

    /// The row that was found last, as it is coded.
    pub fn reference(&self) -> &Row
        ensures pels { result.now ≡ self.now.reader.reference }
        ensures width { length result.now ≡ self.now.form.width }
    {
        self.reader.reference()
    }
}
