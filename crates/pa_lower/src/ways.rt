ghost use Rattle.std.specs.Prelude.{◌≡◌, None};
ghost use Rattle.pa_lower.specs.Statements as spec;

use pa_lir::Label;

/// Where `break` and `continue` go. None: there is no loop or `switch` around.
#[derive(Clone, Copy, Debug, PartialEq, Eq)]
pub(crate) struct Ways {
    pub(crate) leave: Option<Label>,
    pub(crate) proceed: Option<Label>,
}

impl Ways {
    /// Those of a function's body.
    pub(crate) fn none() -> Ways
        ensures { result ≡ record { leave = None; proceed = None } }
    {
        Ways {
            leave: None,
            proceed: None,
        }
    }

    /// Those in a loop.
    pub(crate) fn of_loop(leave: Label, proceed: Label) -> Ways
        ensures { result ≡ spec.loop_ways leave proceed }
    {
        Ways {
            leave: Some(leave),
            proceed: Some(proceed),
        }
    }

    /// Those in a `switch` here: `continue` is that of the loop around it.
    pub(crate) fn in_switch(self, leave: Label) -> Ways
        ensures { result ≡ spec.switch_ways leave self }
    {
        Ways {
            leave: Some(leave),
            proceed: self.proceed,
        }
    }
}
