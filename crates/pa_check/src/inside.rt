//! Whether a word stands inside a window, for a branch that leads to it.

ghost use Rattle.std.specs.Prelude.{◌≡◌, ◌<◌, ◌≤◌, ◌^◌, All, IfSome, slice_get};
ghost use Rattle.pa_image.specs.Writing.{IsLegal};
ghost use Rattle.pa_check.specs.Text.{text_of, IsFunction};
ghost use Rattle.pa_check.specs.Windows.{all_spots};
ghost use Rattle.pa_check.specs.Passing.{IsPassed, IsSettled};
ghost use Rattle.pa_check.specs.Rules.{inside_in};

use crate::rows::{POINTER, ends_any, may_open};
use crate::text::{Function, instr_at, window_behind, window_round};
use crate::window::{MOST, Window, is_inside};
use arrayvec::ArrayVec;
use pa_a64::decode;
use pa_image::Image;

/// How many places of a function are kept at most.
const MOST_PLACES: usize = 65_536;

/// How many words lie between two of them at least.
const APART: usize = 64;

/// Places of a function before which no window is open, in their order.
pub(crate) type Places = ArrayVec<u32, MOST_PLACES>;

/// How many words lie between two places that are kept of a function.
fn apart(function: Function) -> usize
    ensures { 0 < result }
{
    (function.end.saturating_sub(function.first) / MOST_PLACES + 1).max(APART)
}

/// Whether words that may open a window follow one another so closely, and for so long, that no other place is near where none
/// is open.
fn is_crowded(words: &[u32]) -> bool {
    let mut run = 0_usize;
    let mut others = MOST;
    for word in words {
        // A word that may open a window writes x16, and names that register in its low five bits.
        if *word % 32 == u32::from(POINTER) && may_open(decode(*word)) {
            others = 0;
        } else {
            others = others.saturating_add(1);
        }
        run = if others < MOST {
            run.saturating_add(1)
        } else {
            0
        };
        if APART < run {
            return true;
        }
    }
    false
}

/// Keeps word `k` of a function where no window is open before it, from the word on that is wanted next, and answers which is
/// wanted then.
fn keep_place(
    image: &Image,
    function: Function,
    k: usize,
    current: Option<Window>,
    wanted: usize,
    places: &mut Places,
) -> usize
    requires from { function.first ≤ k }
    requires small { k < 2 ^ 32 }
    requires passed { IsPassed (text_of image.now) k function.first current }
    requires kept { All (IsSettled (text_of image.now) function.first) places.old.items }
    ensures { All (IsSettled (text_of image.now) function.first) places.new.items }
{
    let _ = image;
    match current {
        None if wanted <= k && !places.is_full() => {
            places.push(k as u32);
            wanted.saturating_add(apart(function))
        }
        _ => wanted,
    }
}

/// Keeps places of a function before which no window is open, where it is crowded with words that may open one, and none
/// elsewhere.
pub(crate) fn keep_places(image: &Image, function: Function, places: &mut Places)
    requires legal { IsLegal image.now }
    requires function { IsFunction (text_of image.now) function.first function.end }
    ensures { All (IsSettled (text_of image.now) function.first) places.new.items }
{
    places.clear();
    match image.text.as_slice().get(function.first..function.end) {
        Some(words) if is_crowded(words) => {}
        _ => return,
    }
    let mut current: Option<Window> = None;
    let mut wanted = function.first;
    for k in function.first..function.end {
        wanted = keep_place(image, function, k, current, wanted, places);
        let instr = instr_at(image, k);
        let here = window_round(image, function, k, instr, current);
        current = window_behind(image, function, k, instr, here);
    }
}

/// The place of this number of those that are kept of a function, where it isn't behind word `k`.
fn place_up_to(
    image: &Image,
    function: Function,
    k: usize,
    places: &[u32],
    number: usize,
) -> Option<usize>
    requires { All (IsSettled (text_of image.now) function.first) places.now }
    ensures to { IfSome result (λ at. at ≤ k) }
    ensures settled { IfSome result (IsSettled (text_of image.now) function.first) }
{
    let _ = image;
    let _ = function;
    match places.get(number) {
        Some(place) if *place as usize <= k => Some(*place as usize),
        _ => None,
    }
}

/// One of the last two places up to word `k` that are kept of its function.
fn kept_place(image: &Image, function: Function, k: usize, places: &[u32]) -> Option<usize>
    requires { All (IsSettled (text_of image.now) function.first) places.now }
    ensures to { IfSome result (λ at. at ≤ k) }
    ensures settled { IfSome result (IsSettled (text_of image.now) function.first) }
{
    let number = k.saturating_sub(function.first) / apart(function);
    match place_up_to(image, function, k, places, number) {
        Some(place) => Some(place),
        None => place_up_to(image, function, k, places, number.saturating_sub(1)),
    }
}

/// The nearest word up to this one of a function before which no window is open, whatever stands before.
fn walked_back(image: &Image, function: Function, k: usize) -> usize
    requires function { IsFunction (text_of image.now) function.first function.end }
    requires from { function.first ≤ k }
    requires to { k < function.end }
    ensures to { result ≤ k }
    ensures settled { IsSettled (text_of image.now) function.first result }
{
    let mut settled = k;
    let mut before = k;
    while function.first < before && settled - before < MOST {
        before -= 1;
        let instr = instr_at(image, before);
        if ends_any(instr) {
            return before + 1;
        }
        if may_open(instr) {
            settled = before;
        }
    }
    settled
}

/// A word up to this one of a function before which no window is open.
fn settled(image: &Image, function: Function, k: usize, places: &[u32]) -> usize
    requires function { IsFunction (text_of image.now) function.first function.end }
    requires from { function.first ≤ k }
    requires to { k < function.end }
    requires places { All (IsSettled (text_of image.now) function.first) places.now }
    ensures to { result ≤ k }
    ensures settled { IsSettled (text_of image.now) function.first result }
{
    match kept_place(image, function, k, places) {
        Some(place) => place,
        None => walked_back(image, function, k),
    }
}

/// Whether a word of a function is in a window, behind its first word.
pub(crate) fn is_inside_at(image: &Image, function: Function, k: usize, places: &[u32]) -> bool
    requires legal { IsLegal image.now }
    requires function { IsFunction (text_of image.now) function.first function.end }
    requires from { function.first < k }
    requires to { k < function.end }
    requires places { All (IsSettled (text_of image.now) function.first) places.now }
    ensures { result ≡ inside_in (slice_get (all_spots (text_of image.now)) k) }
{
    let mut current: Option<Window> = None;
    for before in settled(image, function, k, places)..k {
        let instr = instr_at(image, before);
        let here = window_round(image, function, before, instr, current);
        current = window_behind(image, function, before, instr, here);
    }
    let instr = instr_at(image, k);
    is_inside(window_round(image, function, k, instr, current))
}
