ghost use Rattle.std.specs.Prelude.{◌≡◌, ◌≤◌, ◌<◌, ◌+◌, ◌-◌, ◌^◌, ◌∷◌, [], ◌++◌, length, replicate, IfOk, OnOk};
ghost use Rattle.pa_macho.specs.Layout.{Ordered, places_of};
ghost use Rattle.pa_mem.specs.Memory.{region_of};
ghost use Rattle.pa_image.specs.Bytes as image;
ghost use Rattle.pa_image.specs.Bytes.{header_of};
ghost use Rattle.pa_image.specs.Writing.{AreBytes, IsLegal, bytes_of};
ghost use Rattle.pa_load.specs.Loaded as spec;
ghost use Rattle.pa_load.specs.Mapping.{AllBelow, Fits, segments_of};

use pa_image::{Image, write_image};
use pa_macho::Places;
use pa_mem::{Rights, Space};
use pa_num::{Bytes, Memory};
use pa_slots::PAGE;
use std::alloc::Global;

/// Where the stack begins; it ends at 0x170000000.
pub(crate) const STACK_BASE: u64 = 0x1_6F80_0000;

/// The bytes of the stack, 8 MiB.
pub(crate) const STACK_SIZE: usize = 0x80_0000;

/// `__TEXT` is read and run.
const TEXT: Rights = Rights {
    read: true,
    write: false,
    run: true,
};

/// `__DATA` and the stack are read and written.
const DATA: Rights = Rights {
    read: true,
    write: true,
    run: false,
};

/// The bytes of the segments of an image as they lie in memory.
#[derive(Debug, Drop)]
pub(crate) struct Segments {
    pub text: Bytes,
    pub contents: Bytes,
    pub linkedit: Bytes,
}

/// The bytes between two places.
fn part(alloc: Global, bytes: &[u8], low: u128, high: u128) -> Result<Vec<u8>, Memory>
    requires order { low ≤ high }
    requires inside { high ≤ length bytes.now }
    ensures { IfOk result (λ made. made.items ≡ image.part low high bytes.now) }
{
    Ok(Vec::from_slice(alloc, &bytes[low as usize..high as usize])?)
}

/// The bytes with zeros up to the end of their last page.
fn padded(mut bytes: Vec<u8>) -> Result<Bytes, Memory>
    requires { length bytes.items < 2 ^ 60 }
    ensures { IfOk result (λ made. made ≡ spec.padded bytes.items) }
{
    let size = bytes.len();
    bytes.resize((size + (PAGE - 1)) / PAGE * PAGE, 0)?;
    Ok(Bytes::from_vec(bytes))
}

impl Segments {
    /// The segments in a file that has these bytes.
    fn cut(alloc: Global, bytes: &[u8], places: &Places) -> Result<Segments, Memory>
        requires order { Ordered places.now }
        requires small { places.now.end < 2 ^ 60 }
        requires inside { places.now.end ≤ length bytes.now }
        ensures segments { IfOk result (λ made. made ≡ segments_of places.now bytes.now) }
        ensures bytes { AreBytes bytes.now }
    {
        let text = Bytes::from_vec(part(alloc, bytes, 0, places.got)?);
        let contents = Bytes::from_vec(part(alloc, bytes, places.got, places.linkedit)?);
        let linkedit = padded(part(alloc, bytes, places.linkedit, places.end)?)?;
        Ok(Segments {
            text,
            contents,
            linkedit,
        })
    }

    /// The segments of the image's file.
    pub(crate) fn of(alloc: Global, image: &Image, places: &Places) -> Result<Segments, Memory>
        requires legal { IsLegal image.now }
        requires places { places.now ≡ places_of (header_of image.now) }
        requires order { Ordered places.now }
        requires small { places.now.end < 2 ^ 60 }
        ensures { IfOk result (λ made. made ≡ segments_of places.now (bytes_of image.now)) }
    {
        let bytes = write_image(alloc, image)?;
        let segments = Segments::cut(alloc, &bytes, places)?;
        Ok(segments)
    }

    /// Maps the segments of an image that lies at `base`, above all regions that are there.
    pub(crate) fn map(self, space: &mut Space, base: u64, places: &Places) -> Result<(), Memory>
        requires above { AllBelow base space.old }
        requires fits { Fits base places.now self }
        ensures { OnOk result (space.new ≡ space.old ++ spec.segments base places.now self.text self.contents self.linkedit) }
    {
        let Segments {
            text,
            contents,
            linkedit,
        } = self;
        add(space, base, text, TEXT)?;
        add(space, base + places.got as u64, contents, DATA)?;
        add(space, base + places.linkedit as u64, linkedit, Rights::READ)
    }
}

/// So many zeros.
fn zeros(alloc: Global, count: usize) -> Result<Bytes, Memory>
    ensures { IfOk result (λ bytes. bytes ≡ spec.blank count) }
{
    Ok(Bytes::from_vec(vec![in alloc; 0; count]?))
}

/// Adds the stack above all regions that are there.
pub(crate) fn add_stack(alloc: Global, space: &mut Space) -> Result<(), Memory>
    requires { AllBelow spec.stack_base space.old }
    ensures { OnOk result (space.new ≡ space.old ++ spec.stack ∷ []) }
{
    add(space, STACK_BASE, zeros(alloc, STACK_SIZE)?, DATA)
}

/// Adds a region above all that are there.
fn add(space: &mut Space, base: u64, bytes: Bytes, rights: Rights) -> Result<(), Memory>
    requires { AllBelow base space.old }
    ensures { OnOk result (space.new ≡ space.old ++ region_of base bytes rights ∷ []) }
{
    space.add(base, bytes, rights)
}
