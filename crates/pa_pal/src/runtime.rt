ghost use Rattle.std.specs.Prelude.{◌≡◌, ◌++◌, ℕ, List, [], map, All, IfOk, OnOk};
ghost use Rattle.pa_a64.specs.Decoding.{InRange, encoded};
ghost use Rattle.pa_macho.specs.declared.header.Role.TheVariants as role;
ghost use Rattle.pa_macho.specs.Layout.{base_of};
ghost use Rattle.pa_image.specs.Places.{exported};
ghost use Rattle.pa_image.specs.Small.{IsSmall};
ghost use Rattle.pa_image.specs.Writing.{IsLegal};
ghost use Rattle.pa_image.specs.Pal as spec;

use pa_a64::{ExceptionOp, Instr, StackOp, encode};
use pa_fixups::Fixes;
use pa_image::Image;
use pa_macho::Role;
use pa_num::{Bytes, Memory, Name, Names, Words};
use pa_object::{Mark, Marks};
use std::alloc::Global;

/// The service that prints a byte.
const PRINT: u16 = 1;

/// The service that reads a byte.
const READ: u16 = 2;

/// A function that signs its return address, asks the system for a service, and returns.
fn service(number: u16) -> [Instr; 3]
    ensures { result ≡ spec.service number }
{
    [
        Instr::Stack {
            op: StackOp::Pacibsp,
        },
        Instr::Exception {
            op: ExceptionOp::Svc,
            imm: number,
        },
        Instr::Stack { op: StackOp::Retab },
    ]
}

fn append(words: &mut Words, instructions: &[Instr]) -> Result<(), Memory>
    requires { All InRange instructions.now }
    ensures { OnOk result (words.new ≡ words.old ++ map encoded instructions.now) }
{
    for instruction in instructions {
        words.push(encode(*instruction))?;
    }
    Ok(())
}

/// The words of both functions.
fn text(alloc: Global) -> Result<Words, Memory>
    ensures { IfOk result (λ words. words ≡ map encoded (spec.putchar ++ spec.getchar)) }
{
    let mut words = Words::new(alloc);
    append(&mut words, &service(PRINT))?;
    append(&mut words, &service(READ))?;
    Ok(words)
}

/// A function that other images see, n words after the beginning.
fn public_mark(alloc: Global, name: &[u8], at: u32) -> Result<Mark, Memory>
    ensures { IfOk result (λ mark. mark ≡ spec.public_mark name.now at) }
{
    Ok(Mark {
        name: Name::from_slice(alloc, name)?,
        at,
        public: true,
    })
}

fn marks(alloc: Global) -> Result<Marks, Memory>
    ensures { IfOk result (λ marks. marks ≡ spec.marks) }
{
    let mut marks = Marks::new(alloc);
    marks.push(public_mark(alloc, b"_putchar", 0)?)?;
    marks.push(public_mark(alloc, b"_getchar", 3)?)?;
    Ok(marks)
}

/// The runtime image, with the functions `_putchar`, which prints the low byte of its argument and gives that byte, and
/// `_getchar`, which gives the next byte of the input, or -1. It imports nothing and has no slots. It answers `Memory` where
/// memory is wanting.
#[tactic(auto, unfolding(pa_image::specs::Pal::pal))]
pub fn pal(alloc: Global) -> Result<Image, Memory>
    ensures value { IfOk result (λ image. image ≡ spec.pal) }
    ensures legal { IfOk result IsLegal }
    ensures small { IfOk result IsSmall }
    ensures library { IfOk result (λ image. image.role ≡ role.Library) }
    ensures no_imports { IfOk result (λ image. image.imports ≡ []) }
    ensures no_fixes { IfOk result (λ image. image.fixes ≡ []) }

    // The two functions are exported, and nothing else is.
    ensures exports { IfOk result (λ image. (name : List ℕ) → exported (base_of role.Library) image.marks name ≡ spec.exports name) }
{
    Ok(Image {
        role: Role::Library,
        text: text(alloc)?,
        stubs: Words::new(alloc),
        consts: Bytes::new(alloc),
        got: 0,
        cells: Bytes::new(alloc),
        marks: marks(alloc)?,
        imports: Names::new(alloc),
        fixes: Fixes::new(alloc),
    })
}
