//! Raw PBM that is converted as its bytes come.
ghost use Rattle.std.specs.Prelude.{◌≡◌, ◌≢◌, ◌+◌, ◌<◌, ◌≤◌, ◌^◌, ◌++◌, ℕ, List, [], length, take};
ghost use Rattle.std.specs.Prelude.{IfOk, IfErr, OnOk, Option, codes};
ghost use Rattle.fax_bits.specs.Bits.{StartsWith};
ghost use Rattle.fax_files.specs.declared.pbm.PbmFault.{PbmFault};
ghost use Rattle.fax_walk.specs.Converted as Spec;
ghost use Rattle.fax_walk.specs.code.Output.{IsUpcomingPage};
ghost use Rattle.fax_walk.specs.code.Sources as Reads;
ghost use Rattle.fax_walk.specs.views.Converting.{IsConverting, IsLeftBy, Progress};

use crate::options::{ConvertFault, Options};
use crate::output::Output;
use crate::page_size::PageSize;
use crate::parts::SparseBytes;
use fax_bits::Memory;
use fax_files::{PbmFault, PbmImage, PbmReader};
use fax_rows::Row;
use std::alloc::Global;

/// Converts an image. Where the output is too large, its rows are not looked at.
fn convert_image(
    alloc: Global,
    image: &PbmImage,
    options: &Options,
    output: &mut Output,
) -> Result<(), Memory>
    requires { (at : Progress) × IsUpcomingPage options.now output.old at }
    ensures { OnOk result
        (Reads.PutsImage options.now output.old image.now.width image.now.rows image.now.raster.now
        output.new) }
{
    fax_rows::laws::packing_undoes_unpacking();
    output.begin(alloc, options, &PageSize::of_image(image))?;
    if let Output::TooLarge = output {
        return Ok(());
    }
    let mut row = Row::white(alloc, image.width)?;
    for i in 0..image.rows {
        row.set_packed(image.row(i));
        output.put_row(&row)?;
    }
    output.end(None)
}

/// Raw PBM that is converted as its bytes come: whole images are taken and forgotten, and what they
/// become is held.
#[derive(Drop)]
pub struct ImageConversion {
    alloc: Global,
    options: Options,
    output: Output,
    /// How many images were taken.
    images: u64,
}

impl ImageConversion {
    /// Before the first image.
    ///
    /// # Errors
    ///
    /// `Memory` where a growth was refused.
    pub fn new(alloc: Global, options: Options) -> Result<Self, Memory>
        ensures origin { IfOk result (λ new. IsConverting [] options new.images new.output) }
        ensures options { IfOk result (λ new. new.options ≡ options) }
    {
        Ok(ImageConversion {
            alloc,
            options,
            output: Output::new(alloc, &options)?,
            images: 0,
        })
    }

    /// Takes the images that stand whole at the start of the bytes, and returns how many bytes
    /// they have: what is left is nothing, or begins with no whole image. All bytes that are given
    /// are fewer than 2^64.
    ///
    /// # Errors
    ///
    /// `Memory` where a growth was refused. Some of the images may have been taken then: the
    /// conversion can only be dropped.
    pub fn take_images(&mut self, bytes: &[u8]) -> Result<usize, Memory>
        requires { (before : List ℕ)
            × IsConverting before self.old.options self.old.images self.old.output
            × (length before + length bytes.now < 2 ^ 64) }
        ensures remaining { IfOk result (λ taken. (fault : Option PbmFault)
            × IsLeftBy bytes.now taken fault) }
        ensures so_far { IfOk result (λ taken. (before : List ℕ)
            → IsConverting before self.old.options self.old.images self.old.output
            → IsConverting (before ++ take taken bytes.now) self.new.options self.new.images
            self.new.output) }
        ensures options { OnOk result (self.new.options ≡ self.old.options) }
    {
        let (taken, _) = self.take_whole(bytes)?;
        Ok(taken)
    }

    /// Takes the images that stand whole at the start of the bytes, and returns how many bytes
    /// they have, and the fault of the image after them, if bytes are left.
    fn take_whole(&mut self, bytes: &[u8]) -> Result<(usize, Option<PbmFault>), Memory>
        requires { (before : List ℕ)
            × IsConverting before self.old.options self.old.images self.old.output
            × (length before + length bytes.now < 2 ^ 64) }
        ensures so_far { IfOk result (λ found. (before : List ℕ)
            → IsConverting before self.old.options self.old.images self.old.output
            → IsConverting (before ++ take found.0 bytes.now) self.new.options self.new.images
            self.new.output) }
        ensures options { OnOk result (self.new.options ≡ self.old.options) }
        ensures fault { IfOk result (λ found. IsLeftBy bytes.now found.0 found.1) }
    {
        let mut reader = PbmReader::new(bytes);
        loop {
            match reader.next_image() {
                Ok(Some(image)) => {
                    convert_image(self.alloc, &image, &self.options, &mut self.output)?;
                    self.images += 1;
                }
                Ok(None) => return Ok((bytes.len(), None)),
                Err(fault) => return Ok((bytes.len() - reader.remaining().len(), Some(fault))),
            }
        }
    }

    /// What all bytes become, of which these are the last, where they begin with `P4`: of others,
    /// and of none, nothing is promised. All bytes that are given are fewer than 2^64.
    ///
    /// # Errors
    ///
    /// The first fault of an image; else `OutputTooLarge`. `Memory` where a growth was refused.
    pub fn finish(mut self, rest: &[u8]) -> Result<SparseBytes, ConvertFault>
        requires { (before : List ℕ) × IsConverting before self.options self.images self.output
            × (length before + length rest.now < 2 ^ 64) }
        ensures ok { IfOk result (λ output. (before : List ℕ)
            → IsConverting before self.options self.images self.output
            → StartsWith (before ++ rest.now) (codes "P4")
            → Spec.IsConverted (before ++ rest.now) self.options output) }
        ensures err { IfErr result (λ fault. fault ≢ ConvertFault.Memory → (before : List ℕ)
            → IsConverting before self.options self.images self.output
            → StartsWith (before ++ rest.now) (codes "P4")
            → Spec.IsNotConverted (before ++ rest.now) self.options fault) }
    {
        match self.take_whole(rest)? {
            (_, None) => self.output.finish(self.alloc),
            (_, Some(fault)) => Err(ConvertFault::Pbm {
                image: self.images,
                fault,
            }),
        }
    }
}
