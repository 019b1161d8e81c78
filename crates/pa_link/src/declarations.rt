//! The first declaration of a file that breaks a rule.

ghost use Rattle.std.specs.Prelude.{◌≡◌, ◌<◌, length, map};
ghost use Rattle.pa_ctype.specs.Nodes.{AllBelow};
ghost use Rattle.pa_ctype.specs.Tables.{ForTypes};
ghost use Rattle.pa_link.specs.Declaring as declaring;
ghost use Rattle.pa_link.specs.Declarations as spec;
ghost use Rattle.pa_link.specs.FileDefinitions.{is_noted};

use crate::declared::{Definition, FileDefinitions};
use crate::known::KnownName;
use crate::rule::{LinkFault, LinkRule};
use pa_ctype::Types;
use pa_num::Sequence;
use pa_typed::Declared;

/// The rule that a declaration breaks where this is known of its name.
fn broken(types: &Types, known: KnownName, defines: bool, of: u32) -> Option<LinkRule>
    requires of { of < length types.now.nodes }
    requires known { spec.IsBelow (length types.now.nodes) known }
    ensures { ForTypes types.now (λ m. result ≡ declaring.broken m known defines (m of)) }
{
    if defines && known.defined {
        return Some(LinkRule::L2);
    }
    match known.of {
        Some(first) => {
            if types.is_same(first, of) {
                None
            } else {
                Some(LinkRule::L3)
            }
        }
        None => None,
    }
}

/// Reads a declaration: what is known has it, or else it breaks a rule.
pub(crate) fn declaration_fault(
    types: &Types,
    known: &mut Sequence<KnownName>,
    declared: &Declared,
    defines: bool,
    file: u32,
) -> Option<LinkFault>
    requires name { declared.now.name < length known.old }
    requires of { declared.now.of < length types.now.nodes }
    requires known { spec.AreBelow (length types.now.nodes) known.old }
    ensures is { ForTypes types.now (λ m.
        spec.outcome result known.new ≡ spec.declares_one m file known.old declared.now defines) }
    ensures names { length known.new ≡ length known.old }
    ensures known { spec.AreBelow (length types.now.nodes) known.new }
{
    let name = declared.name as usize;
    let before = known.as_slice()[name];
    if let Some(rule) = broken(types, before, defines, declared.of) {
        return Some(LinkFault {
            rule,
            file,
            place: declared.place,
        });
    }
    known.set(name, before.with_declaration(defines, declared.of));
    None
}

/// Reads the declarations of a file, which defines these: what is known has them, or else the first that breaks a rule.
pub(crate) fn file_fault(
    types: &Types,
    known: &mut Sequence<KnownName>,
    declared: &[Declared],
    definitions: &FileDefinitions,
    file: u32,
) -> Option<LinkFault>
    requires names { AllBelow (length known.old) (map spec.name_of declared.now) }
    requires types { AllBelow (length types.now.nodes) (map spec.type_of declared.now) }
    requires known { spec.AreBelow (length types.now.nodes) known.old }
    ensures is { ForTypes types.now (λ m.
        spec.outcome result known.new ≡ spec.declares_from m (is_noted definitions.now.keys) file declared.now known.old) }
    ensures names { length known.new ≡ length known.old }
    ensures known { spec.AreBelow (length types.now.nodes) known.new }
{
    let mut rest = declared;
    'declared: while let [first, tail @ ..] = rest {
        let defines = definitions.contains(&Definition {
            name: first.name,
            place: first.place,
        });
        let fault = declaration_fault(types, known, first, defines, file);
        if fault.is_some() {
            return fault;
        }
        rest = tail;
    }
    None
}
