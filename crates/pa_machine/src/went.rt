use pa_object::End;

/// Whether a machine goes on after a step.
#[derive(Clone, Copy, Debug, PartialEq, Eq)]
pub enum Went {
    Goes,
    Ended(End),
}
