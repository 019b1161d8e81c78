ghost use Rattle.std.specs.Prelude.{◌≡◌, ◌<◌, ◌^◌, IfSome};
ghost use Rattle.pa_check.specs.Rows as rows;
ghost use Rattle.pa_check.specs.Windows as windows;
ghost use Rattle.pa_check.specs.Rules as rules;
ghost use Rattle.pa_check.specs.Passing as passing;

use crate::rows::{closes, may_stand, signs_code};
use pa_a64::Instr;

/// How a window was opened.
#[derive(Clone, Copy, Debug, PartialEq, Eq)]
pub enum Opening {
    /// By an authentication.
    Taken,
    /// By an ADRP and an ADD of x16, from the page that the ADRP gives.
    Made(u64),
}

/// The window round a word, and how many of its words stand before this one.
#[derive(Clone, Copy, Debug, PartialEq, Eq)]
pub struct Window {
    pub opening: Opening,
    pub behind: usize,
}

/// The most words of a window.
pub(crate) const MOST: usize = 8;

impl Opening {
    /// How many words open the window.
    fn words(self) -> usize
        ensures { result ≡ windows.opening_words self }
    {
        match self {
            Opening::Taken => 1,
            Opening::Made(_) => 2,
        }
    }
}

impl Window {
    // Whether this word of the window is its last.
    fn is_last(self, instr: Option<Instr>) -> bool
        ensures { result ≡ windows.is_last_of self.opening self.behind instr }
    {
        self.opening.words() <= self.behind
            && (MOST <= self.behind || closes(instr) || !may_stand(instr))
    }

    // Whether this word breaks the window.
    fn is_broken(self, instr: Option<Instr>) -> bool
        ensures { result ≡ windows.breaks_window self.opening self.behind instr }
    {
        self.opening.words() <= self.behind
            && (MOST <= self.behind || !closes(instr) && !may_stand(instr))
    }
}

/// A window at its first word.
pub(crate) fn begun(opening: Option<Opening>) -> Option<Window>
    ensures { result ≡ windows.begun opening }
{
    match opening {
        None => None,
        Some(opening) => Some(Window { opening, behind: 0 }),
    }
}

/// Whether a word stands behind its window's first.
pub(crate) fn is_inside(window: Option<Window>) -> bool
    ensures { result ≡ rules.is_inside window }
{
    match window {
        None => false,
        Some(window) => window.behind != 0,
    }
}

/// Whether a call by x16 may end this window.
pub(crate) fn window_calls(window: Option<Window>) -> bool
    ensures { result ≡ rules.window_calls window }
{
    match window {
        None => false,
        Some(window) => window.opening.words() == 1 && window.behind != 0,
    }
}

/// Whether a word breaks the window round it, or signs without one.
pub(crate) fn window_broken(window: Option<Window>, instr: Option<Instr>) -> bool
    ensures { result ≡ rules.window_broken window instr }
{
    match window {
        None => signs_code(instr),
        Some(window) => window.is_broken(instr),
    }
}

/// Whether the window goes on behind a word.
pub(crate) fn goes_on(window: Option<Window>, instr: Option<Instr>) -> bool
    ensures { result ≡ passing.goes_on window instr }
{
    match window {
        None => false,
        Some(window) => window.behind == 0 || !window.is_last(instr),
    }
}

/// The window round the next word.
pub(crate) fn farther(window: Option<Window>) -> Option<Window>
    requires { IfSome window (λ w. w.behind < 2 ^ 63) }
    ensures { result ≡ passing.farther window }
{
    match window {
        None => None,
        Some(window) => Some(Window {
            opening: window.opening,
            behind: window.behind + 1,
        }),
    }
}
