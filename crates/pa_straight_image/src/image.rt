ghost use Rattle.std.specs.Prelude.{◌≡◌, ◌≤◌, ◌*◌, [], ◌∷◌, length, map, codes, IfOk};
ghost use Rattle.pa_a64.specs.Decoding.{encoded};
ghost use Rattle.pa_image.specs.Small.{IsSmall};
ghost use Rattle.pa_image.specs.Writing.{IsLegal};
ghost use Rattle.pa_straight.specs.Source.{IsSource};
ghost use Rattle.pa_straight_image.specs.Code.{stub, pages_between};
ghost use Rattle.pa_straight_image.specs.Image.{main_mark, putchar_slot, once, imports_of, image_of};
ghost use Rattle.pa_straight_image.specs.Shows.{Runs};

use crate::code::{stub_words, text};
use pa_fixups::{Fix, FixKind, Fixes, Sig};
use pa_image::Image;
use pa_macho::Role;
use pa_num::{Bytes, Memory, Name, Names, Words};
use pa_object::{Mark, Marks};
use pa_pac::Key;
use pa_straight::Straight;
use std::alloc::Global;

/// The bytes of a slot.
const SLOT_SIZE: u32 = 8;

/// What stands in an image for the functions that its program calls in the runtime image.
#[derive(Debug, Drop)]
struct Imported {
    stubs: Words,
    names: Names,
    fixes: Fixes,
}

/// Where nothing is called.
fn import_nothing(alloc: Global) -> Imported
    ensures { result ≡ record { stubs = []; names = []; fixes = [] } }
{
    Imported {
        stubs: Words::new(alloc),
        names: Names::new(alloc),
        fixes: Fixes::new(alloc),
    }
}

/// Where `_putchar` is called `prints` times: one stub, one name and one slot.
fn import_putchar(alloc: Global, prints: usize) -> Result<Imported, Memory>
    requires { prints ≤ 1000 }
    ensures { IfOk result (λ imported. imported ≡ record {
      stubs = map encoded (stub (pages_between prints));
      names = codes "_putchar" ∷ [];
      fixes = putchar_slot ∷ [];
    }) }
{
    let mut names = Names::new(alloc);
    names.push(Name::from_slice(alloc, b"_putchar")?)?;
    let mut fixes = Fixes::new(alloc);
    fixes.push(Fix {
        at: 0,
        kind: FixKind::AuthBind {
            ordinal: 0,
            sig: Sig {
                key: Key::IA,
                addr: true,
                disc: 0,
            },
        },
    })?;
    Ok(Imported {
        stubs: stub_words(alloc, prints)?,
        names,
        fixes,
    })
}

/// What the program calls.
fn import_all(alloc: Global, straight: &Straight) -> Result<Imported, Memory>
    requires { IsSource straight.now }
    ensures { IfOk result (λ imported. imported ≡ record {
      stubs = once straight.now.prints (map encoded (stub (pages_between (length straight.now.prints))));
      names = imports_of straight.now;
      fixes = once straight.now.prints (putchar_slot ∷ []);
    }) }
{
    match straight.prints.len() {
        0 => Ok(import_nothing(alloc)),
        prints => import_putchar(alloc, prints),
    }
}

/// The one function of the program, after `start`.
fn marks(alloc: Global) -> Result<Marks, Memory>
    ensures { IfOk result (λ marks. marks ≡ main_mark ∷ []) }
{
    let mut marks = Marks::new(alloc);
    marks.push(Mark {
        name: Name::from_slice(alloc, b"_main")?,
        at: 3,
        public: true,
    })?;
    Ok(marks)
}

/// The image of a program: `start` and `_main`, and one stub with its slot where `_putchar` is called.
#[tactic(auto, unfolding(crate::specs::Image::image_of))]
pub fn program_image(alloc: Global, straight: &Straight) -> Result<Image, Memory>
    requires { IsSource straight.now }
    ensures value { IfOk result (λ image. image ≡ image_of straight.now) }
    ensures legal { IfOk result IsLegal }
    ensures small { IfOk result IsSmall }

    // What is printed, the end, the authentications and the functions entered, for every PAC function and every
    // slide.
    ensures runs { IfOk result (λ image. Runs image straight.now) }
{
    let Imported {
        stubs,
        names,
        fixes,
    } = import_all(alloc, straight)?;
    Ok(Image {
        role: Role::Main,
        text: text(alloc, straight)?,
        stubs,
        consts: Bytes::new(alloc),
        got: SLOT_SIZE * names.len() as u32,
        cells: Bytes::new(alloc),
        marks: marks(alloc)?,
        imports: names,
        fixes,
    })
}
