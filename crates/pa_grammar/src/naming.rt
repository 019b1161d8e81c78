//! Which declarators are asked for.

ghost use Rattle.std.specs.Prelude.{◌≡◌};
ghost use Rattle.pa_grammar.specs.Reading as reading;

use crate::rule::Naming;

impl Naming {
    /// The declarator may have a name.
    pub fn takes_name(self) -> bool
        ensures { result ≡ reading.takes_name self }
    {
        self != Naming::Unnamed
    }

    /// The declarator may have no name.
    pub fn takes_none(self) -> bool
        ensures { result ≡ reading.takes_none self }
    {
        self != Naming::Named
    }

    /// The least height of what stands behind a `*` or in parentheses.
    pub fn least(self) -> u32
        ensures { result ≡ reading.least self }
    {
        match self {
            Naming::Named => 1,
            Naming::Unnamed | Naming::Either => 0,
        }
    }
}
