ghost use Rattle.std.specs.Prelude.{◌≡◌, ◌≤◌, ◌+◌, ◌++◌, length, IfOk, OnOk};
ghost use Rattle.std.specs.List.{AllByRecursion};
ghost use Rattle.pa_object.specs.Linkable.{Linkable};
ghost use Rattle.pa_linker.specs.Layout.{marks_behind, marks_of, words_after};
ghost use Rattle.pa_linker.specs.Linked.{image_of};
ghost use Rattle.pa_linker.specs.Tables.{most_words, MarksStand};

use crate::fixes::fixes;
use crate::layout::{LayoutTable, SLOT_SIZE, START_WORDS};
use crate::section::Section;
use crate::text::{stubs, text};
use pa_image::Image;
use pa_macho::Role;
use pa_num::{Memory, Name};
use pa_object::{Mark, Marks, Object};
use std::alloc::Global;

/// Appends the marks of an object, whose code begins behind so many words.
fn put_marks(alloc: Global, out: &mut Marks, object: &Object, words: u32) -> Result<(), Memory>
    requires stand { MarksStand object.now }
    requires few { words + length object.now.code ≤ most_words }
    ensures { OnOk result (out.new ≡ out.old ++ marks_behind words object.now.marks) }
{
    let mut rest = object.marks.as_slice();
    while let Some((mark, behind)) = rest.split_first() {
        out.push(Mark {
            name: Name::from_slice(alloc, mark.name.as_slice())?,
            at: words + mark.at,
            public: mark.public,
        })?;
        rest = behind;
    }
    Ok(())
}

/// The marks of the image of objects.
#[tactic(auto, using(crate::proofs::Words::least))]
fn marks(alloc: Global, objects: &[Object]) -> Result<Marks, Memory>
    requires stand { AllByRecursion MarksStand objects.now }
    requires few { words_after 3 objects.now ≤ most_words }
    ensures { IfOk result (λ marks. marks ≡ marks_of objects.now) }
{
    let mut marks = Marks::new(alloc);
    let mut words = START_WORDS;
    let mut rest = objects;
    while let Some((object, behind)) = rest.split_first() {
        put_marks(alloc, &mut marks, object, words)?;
        words += object.code.len() as u32;
        rest = behind;
    }
    Ok(marks)
}

/// The image of objects: `start`, which calls `_main`, their functions, one stub and one slot for each function of the
/// runtime image that they use, and their globals.
pub fn link(alloc: Global, objects: &[Object]) -> Result<Image, Memory>
    requires { Linkable objects.now }
    ensures { IfOk result (λ image. image ≡ image_of objects.now) }
{
    let marks = marks(alloc, objects)?;
    let literals = Section::of(alloc, objects, true)?;
    let variables = Section::of(alloc, objects, false)?;
    let layout = LayoutTable::of(alloc, objects, &literals, &variables)?;
    let text = text(alloc, &layout, objects)?;
    let stubs = stubs(alloc, &layout)?;
    let fixes = fixes(alloc, &layout, variables.globals.as_slice())?;
    let consts = literals.bytes(alloc)?;
    let cells = variables.bytes(alloc)?;
    let imports = layout.into_imports();
    Ok(Image {
        role: Role::Main,
        text,
        stubs,
        consts,
        got: SLOT_SIZE * imports.len() as u32,
        cells,
        marks,
        imports,
        fixes,
    })
}
