ghost use Rattle.std.specs.Prelude.{◌≡◌, ◌<◌, length};
ghost use Rattle.pa_ctype.specs.Tables.{ForTypes};
ghost use Rattle.pa_link.specs.Declaring as spec;

use crate::rule::LinkRule;
use pa_ctype::Types;

/// What is known of a name: its type, and whether it is defined.
#[derive(Clone, Copy)]
pub(crate) struct KnownName {
    pub(crate) of: Option<u32>,
    pub(crate) defined: bool,
}

impl KnownName {
    /// With a declaration of this type, which may define the name.
    pub(crate) fn with_declaration(self, defines: bool, of: u32) -> KnownName
        ensures { result ≡ spec.with_declaration self defines of }
    {
        KnownName {
            of: self.of.or(Some(of)),
            defined: self.defined || defines,
        }
    }
}
