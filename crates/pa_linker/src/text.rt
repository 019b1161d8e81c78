ghost use Rattle.std.specs.Prelude.{◌≡◌, ◌≤◌, ◌<◌, ◌+◌, ◌*◌, ◌^◌, ◌++◌, length, map, OnOk, IfOk, All};
ghost use Rattle.std.specs.List.{AllByRecursion};
ghost use Rattle.std.specs.Option.{option_copied};
ghost use Rattle.pa_a64.specs.Decoding.{InRange, encoded};
ghost use Rattle.pa_object.specs.Filled as filling;
ghost use Rattle.pa_object.specs.Stub as stubs;
ghost use Rattle.pa_linker.specs.Layout.{words_after};
ghost use Rattle.pa_linker.specs.Linked as spec;
ghost use Rattle.pa_linker.specs.Tables.{layout_in, most_words, IsSmall, IsByWord, RefsStand};

use crate::layout::{LayoutTable, START_WORDS};
use crate::references::{by_word, ref_at};
use pa_a64::{
    BranchAuthenticatedOp, BranchOp, ExceptionOp, Instr, LoadStoreOp, SumImmediateOp, decode,
    encode,
};
use pa_macho::FRONT;
use pa_num::{Memory, Words};
use pa_object::{Object, Ref, RefKind};
use std::alloc::Global;

/// The second number less the first.
fn distance(from: u32, to: u32) -> i32
    requires from { from < 2 ^ 24 }
    requires to { to < 2 ^ 24 }
    ensures { result ≡ filling.distance from to }
{
    to as i32 - from as i32
}

/// How many pages of 4,096 bytes one place lies behind another.
fn pages_between(from: u32, to: u32) -> i32
    requires from { from < 2 ^ 24 }
    requires to { to < 2 ^ 24 }
    ensures { result ≡ filling.pages_between from to }
{
    distance(from / 4096, to / 4096)
}

/// How many words one place lies behind another.
fn words_between(from: u32, to: u32) -> i32
    requires from { from < 2 ^ 24 }
    requires to { to < 2 ^ 24 }
    ensures { result ≡ filling.words_between from to }
{
    distance(from / 4, to / 4)
}

/// The instruction at a place, with the field that a reference fills for its target.
fn filled(kind: RefKind, at: u32, target: u32, instruction: Instr) -> Instr
    requires at { at < 2 ^ 24 }
    requires target { target < 2 ^ 24 }
    requires row { InRange instruction }
    ensures value { result ≡ filling.filled kind at target instruction }
    ensures row { InRange result }
{
    match (kind, instruction) {
        (
            RefKind::Call,
            Instr::Branch {
                op: BranchOp::Bl,
                ..
            },
        ) => Instr::Branch {
            op: BranchOp::Bl,
            words: words_between(at, target),
        },
        (RefKind::Page | RefKind::SlotPage, Instr::Adrp { rd, .. }) => Instr::Adrp {
            rd,
            pages: pages_between(at, target),
        },
        (
            RefKind::Low | RefKind::SlotLow,
            Instr::SumImmediate {
                op: SumImmediateOp::Add,
                rd,
                rn,
                shifted,
                ..
            },
        ) => Instr::SumImmediate {
            op: SumImmediateOp::Add,
            rd,
            rn,
            imm: (target % 4096) as u16,
            shifted,
        },
        _ => instruction,
    }
}

/// A word at a place, with the field of a reference filled.
fn filled_word(kind: RefKind, at: u32, target: u32, word: u32) -> u32
    requires at { at < 2 ^ 24 }
    requires target { target < 2 ^ 24 }
    ensures { result ≡ filling.filled_word kind at target word }
{
    match decode(word) {
        Some(instruction) => encode(filled(kind, at, target, instruction)),
        None => word,
    }
}

/// A word at a place, with the field of its reference filled where it has one.
fn linked_word(layout: &LayoutTable, place: u32, reference: Option<&Ref>, word: u32) -> u32
    requires small { IsSmall (layout_in layout.now) }
    requires place { place < 2 ^ 24 }
    ensures { result ≡ spec.linked_word (layout_in layout.now) place (option_copied reference.entry) word }
{
    match reference {
        Some(reference) => {
            let target = layout.target(reference.kind, reference.name.as_slice());
            filled_word(reference.kind, place, target, word)
        }
        None => word,
    }
}

/// Appends an object's code, which stands at a place.
fn put_code(
    alloc: Global,
    out: &mut Words,
    layout: &LayoutTable,
    place: u32,
    object: &Object,
) -> Result<(), Memory>
    requires small { IsSmall (layout_in layout.now) }
    requires stand { RefsStand object.now }
    requires place { place + 4 * length object.now.code ≤ 2 ^ 24 }
    ensures { OnOk result (out.new ≡ out.old
        ++ spec.code_from (layout_in layout.now) object.now.refs 0 place object.now.code) }
{
    let code = object.code.as_slice();
    let refs = object.refs.as_slice();
    let table = by_word(alloc, refs, code.len())?;
    for (at, word) in code.iter().enumerate() {
        let reference = ref_at(refs, table.as_slice(), at);
        out.push(linked_word(layout, place + 4 * at as u32, reference, *word))?;
    }
    Ok(())
}

/// Appends the words of instructions.
fn append(out: &mut Words, instructions: &[Instr]) -> Result<(), Memory>
    requires { All InRange instructions.now }
    ensures { OnOk result (out.new ≡ out.old ++ map encoded instructions.now) }
{
    for instruction in instructions {
        out.push(encode(*instruction))?;
    }
    Ok(())
}

/// Calls `_main`, which stands at that place, and ends the program with what it gives.
fn start(main: u32) -> [Instr; 3]
    requires { main < 2 ^ 24 }
    ensures value { result ≡ spec.start main }
    ensures rows { All InRange result }
{
    [
        Instr::Branch {
            op: BranchOp::Bl,
            words: words_between(FRONT as u32, main),
        },
        Instr::Exception {
            op: ExceptionOp::Svc,
            imm: 3,
        },
        Instr::Exception {
            op: ExceptionOp::Brk,
            imm: 0,
        },
    ]
}

/// The stub at a place, which goes where the signed pointer in a slot leads. Registers 16 and 17 are free between functions
/// (Procedure Call Standard for the Arm 64-bit Architecture: IP0 and IP1).
fn stub(at: u32, slot: u32) -> [Instr; 4]
    requires at { at < 2 ^ 24 }
    requires slot { slot < 2 ^ 24 }
    ensures value { result ≡ stubs.stub at slot }
    ensures rows { All InRange result }
{
    [
        Instr::Adrp {
            rd: 17,
            pages: pages_between(at, slot),
        },
        Instr::SumImmediate {
            op: SumImmediateOp::Add,
            rd: 17,
            rn: 17,
            imm: (slot % 4096) as u16,
            shifted: false,
        },
        Instr::LoadStore {
            op: LoadStoreOp::Ldr,
            rt: 16,
            rn: 17,
            imm: 0,
        },
        Instr::BranchAuthenticated {
            op: BranchAuthenticatedOp::Braa,
            rn: 16,
            rm: 17,
        },
    ]
}

/// The words of `__text`: those that call `_main`, and the code of the objects.
#[tactic(auto, using(crate::proofs::Words::least, crate::proofs::Words::words_more))]
pub(crate) fn text(alloc: Global, layout: &LayoutTable, objects: &[Object]) -> Result<Words, Memory>
    requires small { IsSmall (layout_in layout.now) }
    requires stand { AllByRecursion RefsStand objects.now }
    requires few { words_after 3 objects.now ≤ most_words }
    ensures { IfOk result (λ words. words ≡ spec.text_with (layout_in layout.now) objects.now) }
{
    let mut words = Words::new(alloc);
    append(&mut words, &start(layout.place(b"_main")))?;
    let mut place = FRONT as u32 + 4 * START_WORDS;
    let mut rest = objects;
    while let Some((object, behind)) = rest.split_first() {
        put_code(alloc, &mut words, layout, place, object)?;
        place += 4 * object.code.len() as u32;
        rest = behind;
    }
    Ok(words)
}

/// The words of `__auth_stubs`: one stub for each import.
pub(crate) fn stubs(alloc: Global, layout: &LayoutTable) -> Result<Words, Memory>
    requires { IsSmall (layout_in layout.now) }
    ensures { IfOk result (λ words. words ≡ spec.stubs_from (layout_in layout.now) 0 (layout_in layout.now).imports) }
{
    let mut words = Words::new(alloc);
    let mut import = 0;
    let mut rest = layout.imports.names();
    while let Some((_, behind)) = rest.split_first() {
        append(&mut words, &stub(layout.stub(import), layout.slot(import)))?;
        import += 1;
        rest = behind;
    }
    Ok(words)
}
