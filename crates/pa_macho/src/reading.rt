ghost use Rattle.std.specs.Prelude.{◌≡◌, ◌≤◌, ◌+◌, length, IfOk, OnOk};
ghost use Rattle.pa_layout.specs.Flaws.{Answers, Gives, Zeros, first, flaw_of, ◌then◌};
ghost use Rattle.pa_num.specs.declared.fault.ImageRule.TheVariants.{H3};
ghost use Rattle.pa_macho.specs.declared.header.Header.{Header};
ghost use Rattle.pa_macho.specs.Layout.{Ordered, header_of, commands_end, shapes_of};
ghost use Rattle.pa_macho.specs.Reading as spec;
ghost use Rattle.pa_macho.specs.Reading.{HasRoom, IsHeader, Refuses, role_in, taken_for, taken, length_check, start_checks, size_checks, number_checks, page_zero_checks, shapes_flaw, segment_flaw, section_flaw, segments_flaw, last_checks, gap_checks, header_flaw, flaw_with};

use crate::commands::{
    CommandShape, ENTRY_AT, FIXUPS_AT, SYMBOLS_AT, SectionName, SegmentName, commands_end,
    count_fields, entry_command, fixups_command, flag_fields, library_at, library_command,
    library_shapes, main_shapes, page_zero, start_fields, symbols_command, text_at,
};
use crate::header::{Header, Role};
use crate::loader::{
    DATA_SIZE, LOAD_COMMAND, MACH_HEADER_64, MH_DYLIB, SECTION_SIZE, STRINGS_SIZE, SYMBOL_COUNT,
};
use crate::places::{FRONT, Places, Sizes};
use pa_layout::{
    FileField, Flaw, check, check_fields, check_told, check_zeros, number_of_eight, number_of_four,
};
use pa_num::{Fault, ImageRule};

/// The role that the file's type tells; a file of no known type is read as a program's.
fn role_of(bytes: &[u8]) -> Role
    requires { 32 ≤ length bytes.now }
    ensures { result ≡ role_in bytes.now }
{
    if number_of_four(bytes, 12) == MH_DYLIB {
        Role::Library
    } else {
        Role::Main
    }
}

/// The size that a section's entry tells.
#[tactic(auto, using(crate::proofs::Facts::section_early))]
fn told_size(role: Role, name: SectionName, bytes: &[u8]) -> u64
    requires { commands_end role ≤ length bytes.now }
    ensures { result ≡ spec.told_size role name bytes.now }
{
    let at = text_at(role) + name.place();
    number_of_eight(bytes, at as usize + SECTION_SIZE)
}

fn sizes_of(role: Role, bytes: &[u8]) -> Sizes
    requires { commands_end role ≤ length bytes.now }
    ensures { header_of result ≡ taken_for role bytes.now }
{
    let fixups = (text_at(role) + FIXUPS_AT) as usize;
    let symbols = (text_at(role) + SYMBOLS_AT) as usize;
    Sizes {
        role,
        text: told_size(role, SectionName::Text, bytes),
        stubs: told_size(role, SectionName::Stubs, bytes),
        consts: told_size(role, SectionName::Consts, bytes),
        got: told_size(role, SectionName::Got, bytes),
        cells: told_size(role, SectionName::Cells, bytes),
        fixups: u64::from(number_of_four(bytes, fixups + DATA_SIZE)),
        symbols: 16 * u64::from(number_of_four(bytes, symbols + SYMBOL_COUNT)),
        strings: u64::from(number_of_four(bytes, symbols + STRINGS_SIZE)),
    }
}

#[tactic(auto, unfolding(crate::specs::Reading::length_check))]
fn check_length(bytes: &[u8]) -> Result<(), Flaw>
    ensures { Answers result (flaw_of (length_check (length bytes.now)) bytes.now) }
{
    check(
        bytes,
        ImageRule::H1,
        0,
        MACH_HEADER_64 as usize <= bytes.len(),
    )
}

#[tactic(auto, unfolding(crate::specs::Reading::start_checks))]
fn check_start(bytes: &[u8], role: Role) -> Result<(), Flaw>
    requires { 32 ≤ length bytes.now }
    ensures { Answers result (first (start_checks role (length bytes.now)) bytes.now) }
{
    check_fields(bytes, ImageRule::H1, 0, &start_fields(role))?;
    check_fields(bytes, ImageRule::H1, 24, &flag_fields(role))?;
    check_fields(
        bytes,
        ImageRule::H2,
        16,
        &count_fields(role, bytes.len() as u128),
    )
}

/// Each of the commands from 32 on has its size.
fn check_sizes(bytes: &[u8], shapes: &[CommandShape]) -> Result<(), Flaw>
    requires { HasRoom 32 shapes.now (length bytes.now) }
    ensures { Answers result (first (size_checks 32 shapes.now) bytes.now) }
{
    let mut at = MACH_HEADER_64 as usize;
    for shape in shapes {
        let size = FileField::four(shape.size as u128);
        check_told(bytes, ImageRule::H2, at as u64, at + 4, size)?;
        at += shape.size as usize;
    }
    Ok(())
}

/// Each of the commands from 32 on is the one of its place.
fn check_numbers(bytes: &[u8], shapes: &[CommandShape]) -> Result<(), Flaw>
    requires { HasRoom 32 shapes.now (length bytes.now) }
    ensures { Answers result (first (number_checks 32 shapes.now) bytes.now) }
{
    let mut at = MACH_HEADER_64 as usize;
    for shape in shapes {
        let number = FileField::four(shape.number as u128);
        check_told(bytes, ImageRule::H4, at as u64, at, number)?;
        at += shape.size as usize;
    }
    Ok(())
}

fn check_shapes(bytes: &[u8], shapes: &[CommandShape]) -> Result<(), Flaw>
    requires { HasRoom 32 shapes.now (length bytes.now) }
    ensures { Answers result (shapes_flaw shapes.now bytes.now) }
{
    check_sizes(bytes, shapes)?;
    check_numbers(bytes, shapes)
}

/// The sizes of all commands come before their numbers.
#[tactic(auto, using(crate::proofs::Facts::shapes_room))]
fn check_commands(bytes: &[u8], role: Role) -> Result<(), Flaw>
    requires { commands_end role ≤ length bytes.now }
    ensures { Answers result (shapes_flaw (shapes_of role) bytes.now) }
{
    match role {
        Role::Main => check_shapes(bytes, &main_shapes()),
        Role::Library => check_shapes(bytes, &library_shapes()),
    }
}

#[tactic(auto, unfolding(crate::specs::Reading::page_zero_checks))]
fn check_page_zero(bytes: &[u8], role: Role) -> Result<(), Flaw>
    requires { commands_end role ≤ length bytes.now }
    ensures { Answers result (first (page_zero_checks role (length bytes.now)) bytes.now) }
{
    match role {
        Role::Main => {
            let at = (MACH_HEADER_64 + LOAD_COMMAND) as usize;
            check_fields(bytes, ImageRule::H3, at, &page_zero(bytes.len() as u128))
        }
        Role::Library => Ok(()),
    }
}

/// The fields of a segment stand at their place.
#[tactic(auto, using(crate::proofs::Facts::segment_early))]
fn check_segment(
    bytes: &[u8],
    name: SegmentName,
    sizes: &Sizes,
    places: &Places,
) -> Result<(), Flaw>
    requires long { commands_end sizes.now.role ≤ length bytes.now }
    requires order { Ordered places.now }
    ensures { Answers result (segment_flaw name (header_of sizes.now) places.now bytes.now) }
{
    let at = text_at(sizes.role) + name.place();
    let fields = name.fields(sizes, places, bytes.len() as u128);
    check_fields(bytes, ImageRule::H3, at as usize, &fields)
}

/// The fields of a section stand at their place.
#[tactic(auto, using(crate::proofs::Facts::section_early))]
fn check_section(
    bytes: &[u8],
    name: SectionName,
    sizes: &Sizes,
    places: &Places,
) -> Result<(), Flaw>
    requires long { commands_end sizes.now.role ≤ length bytes.now }
    requires order { Ordered places.now }
    ensures { Answers result (section_flaw name (header_of sizes.now) places.now bytes.now) }
{
    let at = text_at(sizes.role) + name.place();
    check_fields(
        bytes,
        ImageRule::H3,
        at as usize,
        &name.fields(sizes, places),
    )
}

/// Segments with their sections stand at their places, and the file ends where `__LINKEDIT` does.
#[tactic(auto, using(crate::proofs::Facts::linkedit_ends, pa_layout::proofs::Facts::holds_le), unfolding(crate::specs::Reading::segment_checks))]
fn check_segments(bytes: &[u8], sizes: &Sizes, places: &Places) -> Result<(), Flaw>
    requires long { commands_end sizes.now.role ≤ length bytes.now }
    requires order { Ordered places.now }
    ensures exact { Answers result (segments_flaw (header_of sizes.now) places.now bytes.now) }
    ensures ends { OnOk result (places.now.end ≡ length bytes.now) }
{
    check_segment(bytes, SegmentName::Text, sizes, places)?;
    check_section(bytes, SectionName::Text, sizes, places)?;
    check_section(bytes, SectionName::Stubs, sizes, places)?;
    check_section(bytes, SectionName::Consts, sizes, places)?;
    check_segment(bytes, SegmentName::Data, sizes, places)?;
    check_section(bytes, SectionName::Got, sizes, places)?;
    check_section(bytes, SectionName::Cells, sizes, places)?;
    check_segment(bytes, SegmentName::Linkedit, sizes, places)?;
    let h3 = ImageRule::H3;
    let ends = bytes.len() as u128 <= places.end;
    check(bytes, h3, places.end as u64, ends)?;
    let fixups = (text_at(sizes.role) + FIXUPS_AT + LOAD_COMMAND) as usize;
    check_fields(bytes, h3, fixups, &fixups_command(sizes, places))?;
    let symbols = (text_at(sizes.role) + SYMBOLS_AT + LOAD_COMMAND) as usize;
    check_fields(bytes, h3, symbols, &symbols_command(sizes, places))
}

/// The entry point of a program, and the library's name.
#[tactic(auto, unfolding(crate::specs::Reading::last_checks))]
fn check_last(bytes: &[u8], role: Role) -> Result<(), Flaw>
    requires { commands_end role ≤ length bytes.now }
    ensures { Answers result (first (last_checks role) bytes.now) }
{
    let h3 = ImageRule::H3;
    if role == Role::Main {
        let entry = (text_at(role) + ENTRY_AT + LOAD_COMMAND) as usize;
        check_fields(bytes, h3, entry, &entry_command())?;
    }
    let library = (library_at(role) + LOAD_COMMAND) as usize;
    check_fields(bytes, h3, library, &library_command())
}

/// What lies between two parts is zero.
fn check_gap(bytes: &[u8], low: u128, high: u128) -> Result<(), Flaw>
    requires order { low ≤ high }
    requires inside { high ≤ length bytes.now }
    ensures { Answers result (flaw_of (Zeros H3 low high) bytes.now) }
{
    check_zeros(bytes, ImageRule::H3, low as usize, high as usize)
}

#[tactic(auto, unfolding(crate::specs::Reading::gap_checks))]
fn check_gaps(bytes: &[u8], role: Role, places: &Places) -> Result<(), Flaw>
    requires order { Ordered places.now }
    requires ends { places.now.end ≡ length bytes.now }
    ensures { Answers result (first (gap_checks role places.now) bytes.now) }
{
    check_gap(bytes, u128::from(commands_end(role)), FRONT as u128)?;
    check_gap(bytes, places.text_end, places.stubs)?;
    check_gap(bytes, places.stubs_end, places.consts)?;
    check_gap(bytes, places.consts_end, places.got)?;
    check_gap(bytes, places.got_end, places.cells)?;
    check_gap(bytes, places.cells_end, places.linkedit)?;
    check_gap(bytes, places.padding_low(), places.padding_high())?;
    check_gap(bytes, places.fixups_end, places.symbols)?;
    check_gap(bytes, places.symbols_end, places.strings)
}

/// The sizes that a file tells, once its checks have passed.
#[tactic(auto, using(crate::proofs::Facts::length_long, crate::proofs::Facts::start_long), unfolding(crate::specs::Reading::header_flaw, crate::specs::Reading::flaw_with, crate::specs::Reading::taken))]
fn read_sizes(bytes: &[u8]) -> Result<Sizes, Flaw>
    ensures value { IfOk result (λ sizes. header_of sizes ≡ taken bytes.now) }
    ensures exact { Answers result (header_flaw bytes.now) }
{
    check_length(bytes)?;
    let role = role_of(bytes);
    check_start(bytes, role)?;
    check_commands(bytes, role)?;
    let sizes = sizes_of(role, bytes);
    let places = sizes.places();
    check_page_zero(bytes, role)?;
    check_segments(bytes, &sizes, &places)?;
    check_last(bytes, role)?;
    check_gaps(bytes, role, &places)?;
    Ok(sizes)
}

/// The header that a file has, or the first flaw with its place in the file.
pub fn read_header(bytes: &[u8]) -> Result<Header, Fault<ImageRule>>
    // What is read is what the file has, and what a file has is read.
    ensures found { IfOk result (λ header. IsHeader header bytes.now) }
    ensures only { (header : Header) → IsHeader header bytes.now → Gives header result }
    ensures flaw { Refuses result (header_flaw bytes.now) }
{
    let sizes = read_sizes(bytes)?;
    Ok(sizes.header())
}
