//! Names (C11 6.5.1p2).

ghost use Rattle.std.specs.Prelude.{◌≡◌, ◌≤◌, ◌<◌, length, IfOk};
ghost use Rattle.pa_blocks.specs.Blocks.{types_in};
ghost use Rattle.pa_constant.specs.Spellings.{Spells, IsGrown, StandsFor, GivesMeant, GivesNamed, GivesIn};
ghost use Rattle.pa_convert.specs.Grows.{Grows};
ghost use Rattle.pa_rexpr.specs.Names as spec;
ghost use Rattle.pa_scope.specs.Scopes.{IsSound};
ghost use Rattle.pa_value.specs.Forms.{IsForm};

use crate::literal::{INT, number};
use pa_blocks::Meant;
use pa_convert::{is_function, pointer_to};
use pa_ctype::Types;
use pa_lex::{NameNumber, Names};
use pa_num::{Fault, Memory};
use pa_scope::{Scope, TypeRule};
use pa_typed::TExpr;
use pa_value::{TypedForm, designator, expr_type, lvalue, refused};

/// What the names of `<ptrauth.h>` begin with.
const PTRAUTH_PREFIX: &[u8] = b"ptrauth_";

/// Whether only what `<ptrauth.h>` brings in may have the name.
fn is_reserved(name: &[u8]) -> bool
    ensures { result ≡ spec.is_reserved name.now }
{
    name.starts_with(PTRAUTH_PREFIX)
}

/// Whether it is the name of the null pointer constant (C11 7.19p3).
fn is_null_name(name: &[u8]) -> bool
    ensures { result ≡ spec.is_null_name name.now }
{
    name == b"NULL".as_slice()
}

/// An object of a function, by its number there.
#[tactic(auto, unfolding(pa_typed::specs::Views::t_expr_tree))]
fn local_name(types: &Types, local: u32, of: u32) -> TypedForm
    requires { of < length types.now.nodes }
    ensures known { result.of ≡ of }
    ensures is { StandsFor types.now result (λ names m. spec.local_name local (m of)) }
{
    lvalue(
        TExpr::LocalPlace {
            local,
            of: expr_type(types, of),
        },
        of,
    )
}

/// An object or a function of the file, whose name stands at this place. A function is the pointer to it until more
/// is known.
#[tactic(auto, unfolding(pa_typed::specs::Views::t_expr_tree))]
fn global_name(
    types: &mut Types,
    name: NameNumber,
    place: u64,
    of: u32,
) -> Result<TypedForm, Memory>
    requires { of < length types.old.nodes }
    ensures known { IfOk result (λ t. t.of < length types.new.nodes) }
    ensures is { IsForm types.new result (λ names m. spec.global_name (names name) place (m of)) }
    ensures grows { Grows types.old types.new }
{
    if is_function(types, of) {
        let pointer = pointer_to(types, of)?;
        let tree = TExpr::FunctionValue {
            name,
            place,
            of: expr_type(types, pointer),
        };
        Ok(designator(tree, of))
    } else {
        let tree = TExpr::GlobalPlace {
            name,
            place,
            of: expr_type(types, of),
        };
        Ok(lvalue(tree, of))
    }
}

/// A constant by its name: a number, an `int`. `NULL` goes with every pointer.
#[tactic(auto, using(crate::proofs::Words::word_is))]
fn constant_name(
    types: &mut Types,
    text: &[u8],
    value: i64,
    brought: bool,
) -> Result<TypedForm, Memory>
    ensures known { IfOk result (λ t. t.of < length types.new.nodes) }
    ensures is { IsForm types.new result (λ names m. spec.constant_name text.now value brought) }
    ensures grows { Grows types.old types.new }
{
    number(
        types,
        value.cast_unsigned(),
        INT,
        brought && is_null_name(text),
    )
}

/// What a name of this text and meaning stands for. C1: it is no object, function or constant.
fn named_by(
    types: &mut Types,
    text: &[u8],
    name: NameNumber,
    place: u64,
    meant: Option<Meant>,
) -> Result<TypedForm, Fault<TypeRule>>
    requires { types_in meant ≤ length types.old.nodes }
    ensures known { IfOk result (λ t. t.of < length types.new.nodes) }
    ensures is { GivesNamed types.new result name text.now meant (spec.named_by text.now place) }
    ensures grows { Grows types.old types.new }
{
    match meant {
        Some(Meant::Local { number, of }) => Ok(local_name(types, number, of)),
        Some(Meant::Global { of }) => Ok(global_name(types, name, place, of)?),
        Some(Meant::Constant { value, brought }) => Ok(constant_name(types, text, value, brought)?),
        Some(Meant::TypeName { .. } | Meant::Discriminator) | None => {
            Err(refused(TypeRule::C1, place))
        }
    }
}

/// What a reserved name of this text and meaning stands for. C24: it is no constant of the header.
fn reserved_by(
    types: &mut Types,
    text: &[u8],
    place: u64,
    meant: Option<Meant>,
) -> Result<TypedForm, Fault<TypeRule>>
    ensures known { IfOk result (λ t. t.of < length types.new.nodes) }
    ensures is { GivesMeant types.new result meant (spec.reserved_by text.now place) }
    ensures grows { Grows types.old types.new }
{
    match meant {
        Some(
            Meant::Constant {
                value,
                brought: true,
            },
        ) => Ok(constant_name(types, text, value, true)?),
        _ => Err(refused(TypeRule::C24, place)),
    }
}

/// A name that is used (C11 6.5.1p2): an object, a function or a constant. C1: it isn't declared as one. C24: it
/// begins with `ptrauth_`, and is no constant that an include line brought in.
pub fn named(
    scope: &mut Scope,
    spelling: &Names<'_>,
    name: NameNumber,
    place: u64,
) -> Result<TypedForm, Fault<TypeRule>>
    requires sound { IsSound scope.old }
    requires spells { Spells spelling.now scope.old.types }
    requires name { name < scope.old.types.names }
    ensures known { IfOk result (λ t. t.of < length scope.new.types.nodes) }
    ensures is { GivesIn spelling.now scope.new result name (λ s text. spec.named s text place) }
    ensures grows { IsGrown scope.old scope.new }
{
    let Some(text) = spelling.get(name) else {
        unreachable!()
    };
    let meant = scope.find(name);
    if is_reserved(text) {
        reserved_by(&mut scope.types, text, place, meant)
    } else {
        named_by(&mut scope.types, text, name, place, meant)
    }
}
