//! The first use of a name that no file defines.

ghost use Rattle.std.specs.Prelude.{◌≡◌, ◌≤◌, length};
ghost use Rattle.pa_link.specs.UseFault as spec;

use crate::definitions::Definitions;
use crate::missing::{earlier, functions_missing, globals_missing};
use crate::parts::Part;
use crate::rule::{LinkFault, LinkRule};

/// The first place of a file where a name is used that isn't defined.
fn part_missing(part: &Part, defined: &Definitions) -> Option<u64>
    ensures { result ≡ spec.part_missing defined.now part.now }
{
    earlier(
        globals_missing(part.globals.as_slice(), defined),
        functions_missing(part.functions.as_slice(), defined),
    )
}

/// The first use of a name that isn't defined: at the first file that has one.
pub(crate) fn use_fault(parts: &[Part], defined: &Definitions) -> Option<LinkFault>
    requires { length parts.now ≤ 64 }
    ensures { result ≡ spec.use_fault defined.now 1 parts.now }
{
    let mut file = 1;
    let mut rest = parts;
    'parts: while let [part, tail @ ..] = rest {
        if let Some(place) = part_missing(part, defined) {
            return Some(LinkFault {
                rule: LinkRule::L1,
                file,
                place,
            });
        }
        file += 1;
        rest = tail;
    }
    None
}
