ghost use Rattle.std.specs.Prelude.{◌≡◌, ◌<◌, ◌≤◌, ◌^◌, ◌&&◌, ◌||◌, All, not};
ghost use Rattle.pa_image.specs.Writing.{IsLegal};
ghost use Rattle.pa_check.specs.Text as spec;
ghost use Rattle.pa_check.specs.Text.{text_of, word_at, IsFunction};
ghost use Rattle.pa_check.specs.Windows.{all_spots};
ghost use Rattle.pa_check.specs.Rules as rules;
ghost use Rattle.pa_check.specs.Passing.{IsSettled, rule_at};
ghost use Rattle.pa_check.specs.Rows as rows;

use crate::inside::is_inside_at;
use crate::rows::{
    branch_words, call_words, is_forbidden, is_misplaced, is_pacibsp, is_stray_branch,
    is_stray_return, may_be_last, signs_code,
};
use crate::rule::CheckRule;
use crate::text::{Function, is_entry, number_at, place, target};
use crate::window::{Window, window_broken, window_calls};
use pa_a64::Instr;
use pa_image::Image;

/// Whether a stub begins at a place, where so many words of stubs stand from another one on.
fn is_stub(stubs: u64, words: usize, at: u64) -> bool
    ensures { (text : spec.Text) → text.stubs ≡ stubs → text.stub_words ≡ words → result ≡ spec.is_stub text at }
{
    stubs <= at && (at - stubs) / 4 < words as u64 && (at - stubs) % 16 == 0
}

/// Whether one of two tests holds.
pub(crate) fn either(a: bool, b: bool) -> bool
    ensures { result ≡ (a || b) }
{
    a || b
}

/// Whether a function or a stub begins at a place.
fn is_code(image: &Image, stubs: u64, at: u64) -> bool
    requires legal { IsLegal image.now }
    requires stubs { stubs ≡ (text_of image.now).stubs }
    ensures { result ≡ (spec.is_entry (text_of image.now) at || spec.is_stub (text_of image.now) at) }
{
    either(is_entry(image, at), is_stub(stubs, image.stubs.len(), at))
}

/// Whether a call at this place leads to neither a function nor a stub.
fn calls_elsewhere(image: &Image, stubs: u64, at: u64, instr: Option<Instr>) -> bool
    requires legal { IsLegal image.now }
    requires stubs { stubs ≡ (text_of image.now).stubs }
    ensures { result ≡ rules.calls_elsewhere (text_of image.now) at instr }
{
    match call_words(instr) {
        Some(words) => !is_code(image, stubs, target(at, words)),
        None => false,
    }
}

/// The number of a function's word behind its first that a branch at this place leads to.
fn within(function: Function, k: Option<usize>) -> bool
    ensures { result ≡ rules.within function.first function.end k }
{
    match k {
        Some(k) => function.first < k && k < function.end,
        None => false,
    }
}

/// Whether a branch at this place leaves the function, or leads to its first word.
fn leaves_function(function: Function, at: u64, instr: Option<Instr>) -> bool
    ensures { result ≡ rules.leaves_function function.first function.end at instr }
{
    match branch_words(instr) {
        Some(words) => !within(function, number_at(target(at, words))),
        None => false,
    }
}

/// Whether word `k` of the function is in a window, behind the first word of each.
fn lands_inside(image: &Image, function: Function, places: &[u32], k: Option<usize>) -> bool
    requires legal { IsLegal image.now }
    requires function { IsFunction (text_of image.now) function.first function.end }
    requires places { All (IsSettled (text_of image.now) function.first) places.now }
    ensures { result ≡ rules.lands_inside (all_spots (text_of image.now)) function.first function.end k }
{
    match k {
        Some(k) => function.first < k
            && k < function.end
            && is_inside_at(image, function, k, places),
        None => false,
    }
}

/// Whether a branch at this place leads into a window of the function behind its first word.
fn enters_window(
    image: &Image,
    function: Function,
    places: &[u32],
    at: u64,
    instr: Option<Instr>,
) -> bool
    requires legal { IsLegal image.now }
    requires function { IsFunction (text_of image.now) function.first function.end }
    requires places { All (IsSettled (text_of image.now) function.first) places.now }
    ensures { result ≡ rules.enters_window (all_spots (text_of image.now)) function.first function.end at instr }
{
    match branch_words(instr) {
        Some(words) => lands_inside(image, function, places, number_at(target(at, words))),
        None => false,
    }
}

/// Whether a function begins with another word than PACIBSP.
fn begins_badly(marked: bool, instr: Option<Instr>) -> bool
    ensures { result ≡ (marked && not (rows.is_pacibsp instr)) }
{
    marked && !is_pacibsp(instr)
}

/// Whether a word may not stand in the window round it or without one, or leads into another one.
fn breaks_window(window: Option<Window>, instr: Option<Instr>, enters: bool) -> bool
    ensures { result ≡ (rows.is_misplaced instr || (rules.window_broken window instr || enters)) }
{
    is_misplaced(instr) || window_broken(window, instr) || enters
}

/// Whether a function's last word goes on.
fn ends_badly(last: bool, instr: Option<Instr>) -> bool
    ensures { result ≡ (last && not (rows.may_be_last instr)) }
{
    last && !may_be_last(instr)
}

/// The lowest of the rules that are broken.
fn lowest(k1: bool, k2: bool, k3: bool, k4: bool, k6: bool, k7: bool, k8: bool) -> Option<CheckRule>
    ensures { result ≡ rules.lowest k1 k2 k3 k4 k6 k7 k8 }
{
    if k1 {
        Some(CheckRule::K1)
    } else if k2 {
        Some(CheckRule::K2)
    } else if k3 {
        Some(CheckRule::K3)
    } else if k4 {
        Some(CheckRule::K4)
    } else if k6 {
        Some(CheckRule::K6)
    } else if k7 {
        Some(CheckRule::K7)
    } else if k8 {
        Some(CheckRule::K8)
    } else {
        None
    }
}

/// The lowest rule that a word of a function breaks.
pub(crate) fn function_rule(
    image: &Image,
    stubs: u64,
    function: Function,
    places: &[u32],
    k: usize,
    instr: Option<Instr>,
    window: Option<Window>,
) -> Option<CheckRule>
    requires legal { IsLegal image.now }
    requires stubs { stubs ≡ (text_of image.now).stubs }
    requires function { IsFunction (text_of image.now) function.first function.end }
    requires places { All (IsSettled (text_of image.now) function.first) places.now }
    requires from { function.first ≤ k }
    requires to { k < function.end }
    requires small { k < 2 ^ 60 }
    requires instr { instr ≡ (word_at (text_of image.now) k).instr }
    ensures { result ≡ rule_at (text_of image.now) k function.first window }
{
    let at = place(k);
    let marked = k == function.first;
    let leaves = leaves_function(function, at, instr);
    let enters = enters_window(image, function, places, at, instr);
    lowest(
        begins_badly(marked, instr),
        either(leaves, calls_elsewhere(image, stubs, at, instr)),
        breaks_window(window, instr, enters),
        ends_badly(k + 1 == function.end, instr),
        is_forbidden(instr),
        is_stray_branch(window_calls(window), instr),
        is_stray_return(marked, instr),
    )
}

/// The lowest rule that a word breaks that is to be another one.
pub(crate) fn given_rule(
    image: &Image,
    stubs: u64,
    at: u64,
    instr: Option<Instr>,
    differs: CheckRule,
) -> CheckRule
    requires legal { IsLegal image.now }
    requires stubs { stubs ≡ (text_of image.now).stubs }
    ensures { result ≡ rules.given_rule (text_of image.now) at instr differs }
{
    if either(
        branch_words(instr).is_some(),
        calls_elsewhere(image, stubs, at, instr),
    ) {
        CheckRule::K2
    } else if either(is_misplaced(instr), signs_code(instr)) {
        CheckRule::K3
    } else if is_forbidden(instr) {
        CheckRule::K6
    } else {
        differs
    }
}
