//! Small programs without data, as images.

use pa_check::{CheckRule, Verdict, check};
use pa_fixups::Fixes;
use pa_image::{Image, legal};
use pa_macho::Role;
use pa_num::{Bytes, Name, Names, Words};
use pa_object::{Mark, Marks};
use std::alloc::{AllocError, Global};

/// What is to be answered: no rule is broken, or this one at that place.
#[derive(Clone, Copy, Debug)]
pub enum Want {
    Windowed,
    Bad(CheckRule, u64),
}

/// The words of `__text`, the numbers of those where functions begin, the first of them `_main`, and the answer.
#[derive(Clone, Copy, Debug)]
pub struct Row {
    pub words: &'static [u32],
    pub marks: &'static [u32],
    pub want: Want,
}

fn marks(alloc: Global, at: &[u32]) -> Result<Marks, AllocError> {
    let mut marks = Marks::new(alloc);
    for at in at {
        let name: &[u8] = if marks.is_empty() { b"_main" } else { b"f" };
        marks.push(Mark {
            name: Name::from_slice(alloc, name)?,
            at: *at,
            public: false,
        })?;
    }
    Ok(marks)
}

fn image(alloc: Global, role: Role, row: &Row) -> Result<Image, AllocError> {
    Ok(Image {
        role,
        text: Words::from_slice(alloc, row.words)?,
        stubs: Words::new(alloc),
        consts: Bytes::new(alloc),
        got: 0,
        cells: Bytes::new(alloc),
        marks: marks(alloc, row.marks)?,
        imports: Names::new(alloc),
        fixes: Fixes::new(alloc),
    })
}

/// Whether an image is legal, and the checker answers this.
pub fn is_answer(image: &Image, want: Want) -> bool {
    if !legal(image) {
        return false;
    }
    match (check(image), want) {
        (Verdict::Windowed, Want::Windowed) => true,
        (Verdict::Bad { offset, rule }, Want::Bad(want, at)) => rule == want && offset == at,
        _ => false,
    }
}

/// Whether the program is legal, and the checker answers what it is to.
pub fn answers(alloc: Global, row: &Row) -> Result<bool, AllocError> {
    Ok(is_answer(&image(alloc, Role::Main, row)?, row.want))
}

/// The same of a library, which has no start.
pub fn library_answers(alloc: Global, row: &Row) -> Result<bool, AllocError> {
    Ok(is_answer(&image(alloc, Role::Library, row)?, row.want))
}
