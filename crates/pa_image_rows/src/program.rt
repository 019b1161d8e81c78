//! Images of programs in assembly.

ghost use Rattle.std.specs.Prelude.{IfOk, IfSome};
ghost use Rattle.pa_image.specs.Writing.{IsLegal};

use pa_asm::assemble;
use pa_fixups::{Fix, Fixes};
use pa_image::{Image, legal, write_image};
use pa_macho::Role;
use pa_num::{Bytes, Memory, Name, Names, Words};
use std::alloc::Global;

/// Calls `_main` and ends with its result.
const START: &str = "bl _main\nsvc #3\nbrk #0\n";

/// A longer text is no program here.
const TEXT_LIMIT: usize = 4096;

/// The functions of `__text`, and after them the stubs, as assembly; how many words are stubs; the imports, each with a slot; the
/// bytes of `__data`; and the slots.
#[derive(Clone, Copy)]
pub struct Program<'a> {
    pub role: Role,
    pub functions: &'a str,
    pub stub_words: usize,
    pub imports: &'a [&'a [u8]],
    pub cells: &'a [u8],
    pub fixes: &'a [Fix],
}

impl<'a> Program<'a> {
    /// A program of these functions alone.
    pub fn of(functions: &'a str) -> Program<'a> {
        Program {
            role: Role::Main,
            functions,
            stub_words: 0,
            imports: &[],
            cells: &[],
            fixes: &[],
        }
    }

    /// The text, with its start.
    fn text(&self, alloc: Global) -> Result<String, Memory> {
        let mut text = String::new(alloc);
        if self.role == Role::Main {
            text.push_str(START)?;
        }
        text.push_str(self.functions)?;
        Ok(text)
    }

    /// The names of the imports.
    fn names(&self, alloc: Global) -> Result<Names, Memory> {
        let mut names = Names::new(alloc);
        for name in self.imports {
            names.push(Name::from_slice(alloc, *name)?)?;
        }
        Ok(names)
    }

    /// The image, where the text assembles and the image is legal.
    pub fn image(&self, alloc: Global) -> Result<Option<Image>, Memory>
        ensures { IfOk result (λ found. IfSome found IsLegal) }
    {
        let text = self.text(alloc)?;
        if text.len() > TEXT_LIMIT {
            return Ok(None);
        }
        let Ok(object) = assemble(alloc, text.as_str()) else {
            return Ok(None);
        };
        let words = object.code.as_slice();
        let stubs = words.len().saturating_sub(self.stub_words);
        let image = Image {
            role: self.role,
            text: Words::from_slice(alloc, &words[..stubs])?,
            stubs: Words::from_slice(alloc, &words[stubs..])?,
            consts: Bytes::new(alloc),
            got: if self.imports.is_empty() { 0 } else { 8 },
            cells: Bytes::from_slice(alloc, self.cells)?,
            marks: object.marks,
            imports: self.names(alloc)?,
            fixes: Fixes::from_slice(alloc, self.fixes)?,
        };
        Ok(if legal(&image) { Some(image) } else { None })
    }

    /// The bytes of the image.
    pub fn bytes(&self, alloc: Global) -> Result<Option<Vec<u8>>, Memory> {
        match self.image(alloc)? {
            Some(image) => Ok(Some(write_image(alloc, &image)?)),
            None => Ok(None),
        }
    }
}
