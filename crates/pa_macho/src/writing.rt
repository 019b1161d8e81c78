ghost use Rattle.std.specs.Prelude.{◌≡◌, ◌≤◌, ◌++◌, ◌↔◌, IsTrue, IfOk, OnOk};
ghost use Rattle.std.specs.List.{concat};
ghost use Rattle.pa_macho.specs.Layout.{Ordered, header_of, places_of};
ghost use Rattle.pa_macho.specs.Writing as spec;
ghost use Rattle.pa_macho.specs.Writing.{FieldsFit, HeaderFits, IsFront, front_with};

use crate::commands::{
    BARE_SHAPE, CommandShape, DATA_SHAPE, ENTRY_SHAPE, FIXUPS_SHAPE, SYMBOLS_SHAPE, SectionName,
    SegmentName, TEXT_SHAPE, commands_end, count_fields, entry_command, fixups_command,
    flag_fields, library_command, library_shape, page_zero, start_fields, symbols_command,
};
use crate::header::{Header, Role};
use crate::places::{FRONT, Places, Sizes};
use pa_layout::{FileField, all_fit, put_fields, put_zeros};
use pa_num::Memory;
use std::alloc::{AllocError, Global};

/// The tables of the header have room for their numbers.
#[tactic(auto, using(crate::proofs::Fits::fits_room, crate::proofs::Fits::room_fits))]
fn fields_fit(sizes: &Sizes, places: &Places) -> bool
    requires { Ordered places.now }
    ensures { IsTrue result ↔ FieldsFit (header_of sizes.now) places.now }
{
    let len = places.end;
    all_fit(&SegmentName::Text.fields(sizes, places, len))
        && all_fit(&SectionName::Text.fields(sizes, places))
        && all_fit(&SectionName::Stubs.fields(sizes, places))
        && all_fit(&SectionName::Consts.fields(sizes, places))
        && all_fit(&SegmentName::Data.fields(sizes, places, len))
        && all_fit(&SectionName::Got.fields(sizes, places))
        && all_fit(&SectionName::Cells.fields(sizes, places))
        && all_fit(&SegmentName::Linkedit.fields(sizes, places, len))
        && all_fit(&fixups_command(sizes, places))
        && all_fit(&symbols_command(sizes, places))
}

/// The header can be written: its sections have whole words, stubs and slots, its symbols are whole, and each number has room
/// in its field.
pub fn header_fits(header: &Header) -> bool
    ensures { IsTrue result ↔ HeaderFits header.now }
{
    let sizes = header.sizes();
    fields_fit(&sizes, &sizes.places())
}

/// Appends a command's number and size.
#[tactic(auto, unfolding(crate::specs::Writing::command))]
fn put_command(out: &mut Vec<u8>, shape: CommandShape) -> Result<(), AllocError>
    ensures { OnOk result (out.new.items ≡ out.old.items ++ spec.command shape) }
{
    let number = FileField::four(shape.number as u128);
    let size = FileField::four(shape.size as u128);
    put_fields(out, &[number, size])
}

#[tactic(auto, using(crate::proofs::Fits::page_zero_fits))]
fn put_page_zero(out: &mut Vec<u8>, role: Role, len: u128) -> Result<(), AllocError>
    ensures { OnOk result (out.new.items ≡ out.old.items ++ concat (spec.page_zero_parts role len)) }
{
    match role {
        Role::Main => {
            put_command(out, BARE_SHAPE)?;
            put_fields(out, &page_zero(len))
        }
        Role::Library => Ok(()),
    }
}

#[tactic(auto, using(crate::proofs::Fits::entry_fits))]
fn put_entry(out: &mut Vec<u8>, role: Role) -> Result<(), AllocError>
    ensures { OnOk result (out.new.items ≡ out.old.items ++ concat (spec.entry_parts role)) }
{
    match role {
        Role::Main => {
            put_command(out, ENTRY_SHAPE)?;
            put_fields(out, &entry_command())
        }
        Role::Library => Ok(()),
    }
}

/// Appends the command that names the library, and zeros up to `__text`.
#[tactic(auto, using(crate::proofs::Fits::library_fits))]
fn put_library(out: &mut Vec<u8>, role: Role) -> Result<(), AllocError>
    ensures { OnOk result (out.new.items ≡ out.old.items ++ concat (spec.library_parts role)) }
{
    put_command(out, library_shape(role))?;
    put_fields(out, &library_command())?;
    put_zeros(out, FRONT - commands_end(role) as usize)
}

#[tactic(auto, using(crate::proofs::Fits::start_fits, crate::proofs::Fits::counts_fit, crate::proofs::Fits::flags_fit))]
fn put_start(out: &mut Vec<u8>, role: Role, len: u128) -> Result<(), AllocError>
    requires { 824 ≤ len }
    ensures { OnOk result (out.new.items ≡ out.old.items ++ concat (spec.start_parts role len)) }
{
    put_fields(out, &start_fields(role))?;
    put_fields(out, &count_fields(role, len))?;
    put_fields(out, &flag_fields(role))
}

fn put_segments(out: &mut Vec<u8>, sizes: &Sizes, places: &Places) -> Result<(), AllocError>
    requires order { Ordered places.now }
    requires fits { FieldsFit (header_of sizes.now) places.now }
    ensures { OnOk result (out.new.items ≡ out.old.items ++ concat (spec.segment_parts (header_of sizes.now) places.now)) }
{
    let len = places.end;
    put_command(out, TEXT_SHAPE)?;
    put_fields(out, &SegmentName::Text.fields(sizes, places, len))?;
    put_fields(out, &SectionName::Text.fields(sizes, places))?;
    put_fields(out, &SectionName::Stubs.fields(sizes, places))?;
    put_fields(out, &SectionName::Consts.fields(sizes, places))?;
    put_command(out, DATA_SHAPE)?;
    put_fields(out, &SegmentName::Data.fields(sizes, places, len))?;
    put_fields(out, &SectionName::Got.fields(sizes, places))?;
    put_fields(out, &SectionName::Cells.fields(sizes, places))?;
    put_command(out, BARE_SHAPE)?;
    put_fields(out, &SegmentName::Linkedit.fields(sizes, places, len))?;
    put_command(out, FIXUPS_SHAPE)?;
    put_fields(out, &fixups_command(sizes, places))?;
    put_command(out, SYMBOLS_SHAPE)?;
    put_fields(out, &symbols_command(sizes, places))?;
    Ok(())
}

fn put_header(out: &mut Vec<u8>, sizes: &Sizes, places: &Places) -> Result<(), AllocError>
    requires order { Ordered places.now }
    requires fits { FieldsFit (header_of sizes.now) places.now }
    ensures { OnOk result (out.new.items ≡ out.old.items ++ front_with (header_of sizes.now) places.now) }
{
    put_start(out, sizes.role, places.end)?;
    put_page_zero(out, sizes.role, places.end)?;
    put_segments(out, sizes, places)?;
    put_entry(out, sizes.role)?;
    put_library(out, sizes.role)?;
    Ok(())
}

/// The bytes before `__text` of the files that have this header: the header, its load commands, and zeros.
pub fn write_header(alloc: Global, header: &Header) -> Result<Vec<u8>, Memory>
    requires { HeaderFits header.now }
    ensures { IfOk result (λ front. IsFront header.now front.items) }
{
    let sizes = header.sizes();
    let mut out = Vec::new(alloc);
    put_header(&mut out, &sizes, &sizes.places())?;
    Ok(out)
}
