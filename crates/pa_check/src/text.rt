ghost use Rattle.std.specs.Prelude.{◌≡◌, ◌<◌, ◌≤◌, ◌+◌, ◌*◌, ◌^◌, length, IfSome};
ghost use Rattle.pa_num.specs.Arithmetic.{add64, wrap};
ghost use Rattle.pa_image.specs.Writing.{IsLegal};
ghost use Rattle.pa_check.specs.Text as spec;
ghost use Rattle.pa_check.specs.Text.{text_of, word_at, behind, IsFunction};
ghost use Rattle.pa_check.specs.Windows as windows;
ghost use Rattle.pa_check.specs.Windows.{next_in};
ghost use Rattle.pa_check.specs.Passing.{round_at, open_behind};

use crate::marks::is_marked;
use crate::rows::{ADDRESS, POINTER};
use crate::window::{Opening, Window, begun, farther, goes_on};
use pa_a64::{AuthenticateOp, Instr, PlainOp, SumImmediateOp, decode};
use pa_alu::{immediate, scaled};
use pa_image::Image;

/// Where `__text` begins.
const TEXT: u64 = 0x400;

/// The words of a function: the number of its first, and the number behind its last.
#[derive(Clone, Copy, Debug, PartialEq, Eq)]
pub(crate) struct Function {
    pub first: usize,
    pub end: usize,
}

#[tactic(auto, unfolding(pa_num::specs::Arithmetic::add64, pa_num::specs::Arithmetic::wrap))]
fn sum(x: u64, y: u64) -> u64
    ensures { result ≡ add64 x y }
{
    x.wrapping_add(y)
}

/// The place of a word.
pub(crate) fn place(k: usize) -> u64
    requires { k < 2 ^ 60 }
    ensures { result ≡ spec.place k }
{
    TEXT + 4 * k as u64
}

/// The number of the word at a place.
pub(crate) fn number_at(at: u64) -> Option<usize>
    ensures { result ≡ spec.number_at at }
{
    if TEXT <= at && (at - TEXT) % 4 == 0 {
        Some(((at - TEXT) / 4) as usize)
    } else {
        None
    }
}

/// The place so many words from one.
pub(crate) fn target(at: u64, words: i32) -> u64
    ensures { result ≡ spec.target at words }
{
    sum(at, scaled(4, words))
}

/// The page so many pages from that of a place.
pub(crate) fn page(at: u64, pages: i32) -> u64
    ensures { result ≡ spec.page at pages }
{
    sum(at - at % 4096, scaled(4096, pages))
}

/// The instruction of a word.
pub(crate) fn instr_at(image: &Image, k: usize) -> Option<Instr>
    requires { k < length image.now.text }
    ensures { result ≡ (word_at (text_of image.now) k).instr }
{
    decode(image.text.as_slice()[k])
}

/// Whether a function begins at a place.
pub(crate) fn is_entry(image: &Image, at: u64) -> bool
    requires { IsLegal image.now }
    ensures { result ≡ spec.is_entry (text_of image.now) at }
{
    match number_at(at) {
        Some(k) => k < image.text.len() && is_marked(image.marks.as_slice(), k),
        None => false,
    }
}

/// The word behind one in its function.
fn next_in(image: &Image, function: Function, k: usize) -> Option<Instr>
    requires function { IsFunction (text_of image.now) function.first function.end }
    requires from { function.first ≤ k }
    requires to { k < function.end }
    ensures { result ≡ next_in (behind (text_of image.now) k) }
{
    if k + 1 < function.end {
        instr_at(image, k + 1)
    } else {
        None
    }
}

/// The window that the word behind an ADRP of x16 opens, which gives this page.
fn made_by(image: &Image, from: u64, next: Option<Instr>) -> Option<Opening>
    requires { IsLegal image.now }
    ensures { result ≡ windows.made_by (text_of image.now) from next }
{
    match next {
        Some(
            Instr::SumImmediate {
                op: SumImmediateOp::Add,
                rd,
                rn,
                imm,
                shifted,
            },
        ) => {
            if rd == POINTER
                && rn == POINTER
                && is_entry(image, sum(from, immediate(imm, shifted)))
            {
                Some(Opening::Made(from))
            } else {
                None
            }
        }
        _ => None,
    }
}

/// The window that a word of a function opens, where none is open.
fn opened_by(image: &Image, function: Function, k: usize, instr: Option<Instr>) -> Option<Opening>
    requires legal { IsLegal image.now }
    requires function { IsFunction (text_of image.now) function.first function.end }
    requires from { function.first ≤ k }
    requires to { k < function.end }
    ensures { result ≡ windows.opened_by (text_of image.now) (spec.place k) instr (next_in (behind (text_of image.now) k)) }
{
    match instr {
        Some(
            Instr::Authenticate {
                op: AuthenticateOp::Autia,
                rd,
                rn,
            },
        ) => {
            if rd == POINTER && rn == ADDRESS {
                Some(Opening::Taken)
            } else {
                None
            }
        }
        Some(
            Instr::Plain {
                op: PlainOp::Autiza,
                rd,
            },
        ) => if rd == POINTER {
            Some(Opening::Taken)
        } else {
            None
        },
        Some(Instr::Adrp { rd, pages }) => {
            if rd == POINTER {
                made_by(image, page(place(k), pages), next_in(image, function, k))
            } else {
                None
            }
        }
        _ => None,
    }
}

/// The window round a word of a function, where one may be open before it.
pub(crate) fn window_round(
    image: &Image,
    function: Function,
    k: usize,
    instr: Option<Instr>,
    current: Option<Window>,
) -> Option<Window>
    requires legal { IsLegal image.now }
    requires function { IsFunction (text_of image.now) function.first function.end }
    requires from { function.first ≤ k }
    requires to { k < function.end }
    requires instr { instr ≡ (word_at (text_of image.now) k).instr }
    ensures { result ≡ round_at (text_of image.now) k current }
{
    match current {
        Some(window) => Some(window),
        None => begun(opened_by(image, function, k, instr)),
    }
}

/// The window that is open behind a word of a function.
pub(crate) fn window_behind(
    image: &Image,
    function: Function,
    k: usize,
    instr: Option<Instr>,
    here: Option<Window>,
) -> Option<Window>
    requires function { IsFunction (text_of image.now) function.first function.end }
    requires from { function.first ≤ k }
    requires to { k < function.end }
    requires instr { instr ≡ (word_at (text_of image.now) k).instr }
    requires short { IfSome here (λ w. w.behind < 2 ^ 63) }
    ensures { result ≡ open_behind (text_of image.now) k here }
{
    let _ = image;
    if goes_on(here, instr) && k + 1 < function.end {
        farther(here)
    } else {
        None
    }
}
