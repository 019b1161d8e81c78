ghost use Rattle.std.specs.Prelude.{◌≡◌, ◌≤◌, ◌<◌, ◌+◌, ◌*◌, ◌++◌, ◌^◌, ◌↔◌, IsTrue, length, map, IfOk, OnOk};
ghost use Rattle.std.specs.List.{concat};
ghost use Rattle.pa_layout.specs.Fields.{AllFit, four};
ghost use Rattle.pa_fixups.specs.Fixups.{FixupsFit, fixups_with};
ghost use Rattle.pa_macho.specs.Layout.{Ordered, places_of};
ghost use Rattle.pa_macho.specs.Writing.{HeaderFits};
ghost use Rattle.pa_image.specs.Bytes as spec;
ghost use Rattle.pa_image.specs.Bytes.{IsImage, words_bytes};
ghost use Rattle.pa_image.specs.Writing as written;
ghost use Rattle.pa_image.specs.Writing.{AreWords, HasBytes, IsLegal, PartsFit};

use crate::image::Image;
use crate::parts::{data_at, slots_at, text_at};
use crate::sizes::{header, is_small};
use pa_fixups::{imports_fit, put_fixups};
use pa_layout::{FileField, put_fields, put_zeros};
use pa_macho::{Header, Places, header_fits, write_header};
use pa_num::Memory;
use pa_slots::{Written, slots_fit, write_slots};
use pa_symbols::{legal_marks, put_strings, put_symbols};
use std::alloc::{AllocError, Global};

/// The image's fixups, slots and marks can be written.
#[tactic(auto, using(pa_fixups::proofs::Fitting::count_fits))]
fn parts_fit(image: &Image, header: &Header, places: &Places) -> bool
    requires order { Ordered places.now }
    requires small { places.now.end < 2 ^ 40 }
    ensures { IsTrue result ↔ PartsFit image.now header.now places.now }
{
    if !imports_fit(image.imports.as_slice(), data_at(header.role, places)) {
        return false;
    }
    let at = slots_at(header, places, image.imports.len() as u32);
    slots_fit(&at, image.cells.as_slice(), image.fixes.as_slice())
        && legal_marks(image.marks.as_slice(), text_at(header))
}

/// The header and the parts of the image can be written.
#[tactic(auto, using(crate::proofs::Small::legal_small, crate::proofs::Small::fits_end))]
fn fits(image: &Image) -> bool
    ensures legal { IsTrue result ↔ IsLegal image.now }
    ensures words { AreWords image.now }
{
    if !is_small(image) {
        return false;
    }
    let header = header(image);
    header_fits(&header) && parts_fit(image, &header, &header.places())
}

/// Some bytes stand for the image.
pub fn legal(image: &Image) -> bool
    // By bytes, and part by part.
    ensures bytes { IsTrue result ↔ HasBytes image.now }
    ensures parts { IsTrue result ↔ IsLegal image.now }
{
    fits(image)
}

/// Appends words.
fn put_words(out: &mut Vec<u8>, words: &[u32]) -> Result<(), AllocError>
    requires { AllFit (map four words.now) }
    ensures { OnOk result (out.new.items ≡ out.old.items ++ words_bytes words.now) }
{
    for word in words {
        put_fields(out, &[FileField::four(*word as u128)])?;
    }
    Ok(())
}

/// Appends the zeros between two places.
fn put_gap(out: &mut Vec<u8>, low: u128, high: u128) -> Result<(), AllocError>
    requires order { low ≤ high }
    requires small { high < 2 ^ 40 }
    ensures { OnOk result (out.new.items ≡ out.old.items ++ written.gap low high) }
{
    put_zeros(out, (high - low) as usize)
}

/// Appends the sections of `__TEXT`, and zeros up to `__DATA`.
fn put_text(out: &mut Vec<u8>, image: &Image, places: &Places) -> Result<(), AllocError>
    requires order { Ordered places.now }
    requires small { places.now.end < 2 ^ 40 }
    requires text { AllFit (map four image.now.text) }
    requires stubs { AllFit (map four image.now.stubs) }
    ensures { OnOk result (out.new.items ≡ out.old.items ++ concat (written.text_parts image.now places.now)) }
{
    put_words(out, image.text.as_slice())?;
    put_gap(out, places.text_end, places.stubs)?;
    put_words(out, image.stubs.as_slice())?;
    put_gap(out, places.stubs_end, places.consts)?;
    out.extend_from_slice(image.consts.as_slice())?;
    put_gap(out, places.consts_end, places.got)?;
    Ok(())
}

/// Appends the parts of `__LINKEDIT`.
fn put_linkedit(
    out: &mut Vec<u8>,
    image: &Image,
    header: &Header,
    places: &Places,
    starts: &[u16],
) -> Result<(), AllocError>
    requires order { Ordered places.now }
    requires small { places.now.end < 2 ^ 40 }
    requires fixups { FixupsFit (spec.data_at header.now.role places.now) (fixups_with starts.now image.now.imports) }
    requires legal { PartsFit image.now header.now places.now }
    ensures { OnOk result (out.new.items ≡ out.old.items ++ concat (written.linkedit_parts image.now header.now places.now starts.now)) }
{
    let marks = image.marks.as_slice();
    put_fixups(
        out,
        starts,
        image.imports.as_slice(),
        data_at(header.role, places),
    )?;
    put_gap(out, places.fixups_end, places.symbols)?;
    put_symbols(out, marks, text_at(header))?;
    put_gap(out, places.symbols_end, places.strings)?;
    put_strings(out, marks)?;
    Ok(())
}

/// The bytes of the image, whose header and places these are.
fn write_parts(
    alloc: Global,
    image: &Image,
    header: &Header,
    places: &Places,
) -> Result<Vec<u8>, Memory>
    requires header { header.now ≡ spec.header_of image.now }
    requires places { places.now ≡ places_of header.now }
    requires order { Ordered places.now }
    requires legal { IsLegal image.now }
    ensures { IfOk result (λ bytes. IsImage image.now bytes.items) }
{
    let Written { bytes, starts } = write_slots(
        alloc,
        &slots_at(header, places, image.imports.len() as u32),
        image.cells.as_slice(),
        image.fixes.as_slice(),
        places.pages() as u32,
    )?;
    let mut out = write_header(alloc, header)?;
    put_text(&mut out, image, places)?;
    out.extend_from_slice(&bytes)?;
    put_linkedit(&mut out, image, header, places, starts.as_slice())?;
    Ok(out)
}

/// The bytes that stand for a legal image.
pub fn write_image(alloc: Global, image: &Image) -> Result<Vec<u8>, Memory>
    requires { IsLegal image.now }
    ensures { IfOk result (λ bytes. IsImage image.now bytes.items) }
{
    let header = header(image);
    write_parts(alloc, image, &header, &header.places())
}
