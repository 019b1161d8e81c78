ghost use Rattle.std.specs.Prelude.{◌≡◌, ◌<◌, ◌≤◌, ◌+◌, ◌^◌, ◌&&◌, length, nat_lt, ℕ, All, Option, IfNone};
ghost use Rattle.std.specs.Bool.{OnTrue};
ghost use Rattle.std.specs.Option.{option_or};
ghost use Rattle.pa_image.specs.Writing.{IsLegal};
ghost use Rattle.pa_check.specs.Text as spec;
ghost use Rattle.pa_check.specs.Text.{text_of, is_marked, word_at, IsFunction};
ghost use Rattle.pa_check.specs.declared.window.Window.{Window};
ghost use Rattle.pa_check.specs.Rules as rules;
ghost use Rattle.pa_check.specs.Passing.{IsInert, IsSettled, spot_at, start_in, start_words};
ghost use Rattle.pa_check.specs.Windowed.{flaw_from, cut_start};

use crate::inside::{Places, keep_places};
use crate::marks::main_of;
use crate::rows::is_plain;
use crate::rule::{CheckRule, Flaw};
use crate::rules::{function_rule, given_rule};
use crate::text::{Function, instr_at, place, target, window_behind, window_round};
use crate::window::Window;
use pa_a64::{BranchOp, ExceptionOp, Instr};
use pa_image::Image;
use pa_macho::Role;

/// Whether word `k` is neither the first nor the last of its function.
fn is_between(function: Function, k: usize) -> bool
    requires { k < function.end }
    ensures { result ≡ (nat_lt function.first k && nat_lt (k + 1) function.end) }
{
    function.first < k && k + 1 < function.end
}

/// Whether it is plain that word `k` breaks no rule: no window is open, and it computes, loads or stores inside its function.
/// Most words of most functions do.
fn breaks_nothing(
    image: &Image,
    function: Function,
    k: usize,
    instr: Option<Instr>,
    current: Option<Window>,
) -> bool
    requires function { IsFunction (text_of image.now) function.first function.end }
    requires from { function.first ≤ k }
    requires to { k < function.end }
    requires instr { instr ≡ (word_at (text_of image.now) k).instr }
    ensures { OnTrue result (IsInert (text_of image.now) k function.first current) }
{
    let _ = image;
    match current {
        None if is_between(function, k) => is_plain(instr),
        _ => false,
    }
}

/// The first word of a function that breaks a rule.
fn function_flaw(image: &Image, stubs: u64, function: Function, places: &[u32]) -> Option<Flaw>
    requires legal { IsLegal image.now }
    requires stubs { stubs ≡ (text_of image.now).stubs }
    requires function { IsFunction (text_of image.now) function.first function.end }
    requires places { All (IsSettled (text_of image.now) function.first) places.now }
    ensures { flaw_from (text_of image.now) function.first ≡ option_or result (flaw_from (text_of image.now) function.end) }
{
    let mut current: Option<Window> = None;
    for k in function.first..function.end {
        let instr = instr_at(image, k);
        if breaks_nothing(image, function, k, instr, current) {
            continue;
        }
        let here = window_round(image, function, k, instr, current);
        if let Some(rule) = function_rule(image, stubs, function, places, k, instr, here) {
            return Some(Flaw {
                offset: place(k),
                rule,
            });
        }
        current = window_behind(image, function, k, instr, here);
    }
    None
}

/// How many words `start` has.
fn start_size(role: Role) -> usize
    ensures { result ≡ spec.start_size role }
{
    match role {
        Role::Main => 3,
        Role::Library => 0,
    }
}

/// Whether a word is `start`'s, which calls `_main`.
fn is_start(main: Option<u64>, k: usize, instr: Option<Instr>) -> bool
    ensures { (text : spec.Text) → text.main ≡ main → result ≡ rules.is_start text k instr }
{
    match (k, instr) {
        (
            0,
            Some(
                Instr::Branch {
                    op: BranchOp::Bl,
                    words,
                },
            ),
        ) => main == Some(target(place(0), words)),
        (
            1,
            Some(
                Instr::Exception {
                    op: ExceptionOp::Svc,
                    imm,
                },
            ),
        ) => imm == 3,
        (
            2,
            Some(
                Instr::Exception {
                    op: ExceptionOp::Brk,
                    imm,
                },
            ),
        ) => imm == 0,
        _ => false,
    }
}

/// The lowest rule that a word before the first function breaks.
fn start_rule(
    image: &Image,
    stubs: u64,
    main: Option<u64>,
    k: usize,
    marked: bool,
) -> Option<CheckRule>
    requires legal { IsLegal image.now }
    requires stubs { stubs ≡ (text_of image.now).stubs }
    requires main { (text_of image.now).main ≡ main }
    requires within { k < length image.now.text }
    requires small { k < 2 ^ 60 }
    requires marked { marked ≡ is_marked image.now.marks k }
    ensures { (first : ℕ) (window : Option Window) → result ≡ rules.start_rule (text_of image.now) k (spot_at (text_of image.now) k first window) }
{
    let instr = instr_at(image, k);
    if marked {
        Some(CheckRule::K1)
    } else if is_start(main, k, instr) {
        None
    } else {
        Some(given_rule(image, stubs, place(k), instr, CheckRule::K6))
    }
}

/// The first word before the first function that breaks a rule.
fn start_flaw(image: &Image, stubs: u64, first: usize) -> Option<Flaw>
    requires legal { IsLegal image.now }
    requires stubs { stubs ≡ (text_of image.now).stubs }
    requires first { first ≡ start_in image.now 0 }
    ensures value { flaw_from (text_of image.now) 0 ≡ option_or result (flaw_from (text_of image.now) (start_words image.now)) }
    ensures behind { IfNone result (start_words image.now ≤ first) }
{
    let main = main_of(image.marks.as_slice());
    for k in 0..start_size(image.role).min(image.text.len()) {
        if let Some(rule) = start_rule(image, stubs, main, k, k == first) {
            return Some(Flaw {
                offset: place(k),
                rule,
            });
        }
    }
    None
}

/// Where the function of this number begins, counted from 0, or the text ends.
fn function_start(image: &Image, i: usize) -> usize
    ensures { result ≡ start_in image.now i }
{
    match image.marks.get(i) {
        Some(mark) => mark.at as usize,
        None => image.text.len(),
    }
}

/// The first word from the first function on that breaks a rule.
fn functions_flaw(image: &Image, stubs: u64) -> Option<Flaw>
    requires legal { IsLegal image.now }
    requires stubs { stubs ≡ (text_of image.now).stubs }
    requires behind { start_words image.now ≤ start_in image.now 0 }
    ensures { flaw_from (text_of image.now) (start_in image.now 0) ≡ result }
{
    let mut places = Places::new();
    for i in 0..image.marks.len() {
        let function = Function {
            first: function_start(image, i),
            end: function_start(image, i + 1),
        };
        keep_places(image, function, &mut places);
        let flaw = function_flaw(image, stubs, function, places.as_slice());
        if flaw.is_some() {
            return flaw;
        }
    }
    None
}

/// The first word of the text that breaks a rule.
pub(crate) fn text_flaw(image: &Image, stubs: u64) -> Option<Flaw>
    requires legal { IsLegal image.now }
    requires stubs { stubs ≡ (text_of image.now).stubs }
    ensures { result ≡ option_or (flaw_from (text_of image.now) 0) (cut_start (text_of image.now)) }
{
    let first = function_start(image, 0);
    if let Some(flaw) = start_flaw(image, stubs, first) {
        return Some(flaw);
    }
    let start = start_size(image.role);
    if image.text.len() < start {
        return Some(Flaw {
            offset: place(image.text.len()),
            rule: CheckRule::K6,
        });
    }
    if start < first {
        return Some(Flaw {
            offset: place(start),
            rule: CheckRule::K1,
        });
    }
    functions_flaw(image, stubs)
}
