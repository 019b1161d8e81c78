//! Calls by hand.

ghost use Rattle.std.specs.Prelude.{◌<◌, ◌^◌, length, IfOk, IfSome};

use crate::{Arguments, called_function};
use pa_convert::{integer, pointer_to};
use pa_ctype::{Node, Types};
use pa_num::{Fault, Memory};
use pa_rexpr::Category;
use pa_scope::TypeRule;
use pa_typed::TExpr;
use pa_value::{TypedForm, expr_type};
use std::alloc::Global;
use std::test::Fail;

/// The place of each call in these rows.
const PLACE: u64 = 7;

/// A value of a type. None: there is no such type.
fn value_of(types: &Types, of: u32) -> Option<TypedForm>
    ensures { IfSome result (λ form. form.of < length types.now.nodes) }
{
    if of as usize >= types.len() {
        return None;
    }
    let tree = TExpr::Same {
        of: expr_type(types, of),
    };
    Some(TypedForm {
        tree,
        of,
        category: Category::Value,
        null: false,
    })
}

/// The types of the rows, by their numbers.
#[derive(Clone, Copy)]
struct RowTypes {
    void: u32,
    int: u32,
    int_pointer: u32,
    structure: u32,
    no_parameter: u32,
    int_and_pointer: u32,
}

/// The types of the rows: a struct without a body among them, and the functions `const int (void)` and
/// `const int (int, int *)`.
fn row_types(types: &mut Types) -> Result<RowTypes, Memory>
    requires { length types.old.structs < 2 ^ 32 }
    ensures { IfOk result (λ n. n.no_parameter < length types.new.nodes) }
{
    let id = types.declare()?;
    let structure = types.put(Node::Struct { id })?;
    let void = types.put(Node::Void)?;
    let int = integer(types, 32, true)?;
    let int_pointer = pointer_to(types, int)?;
    let constant_int = types.constant(int)?;
    let no_parameter = types.function(&[], constant_int)?;
    let int_and_pointer = types.function(&[int, int_pointer], constant_int)?;
    Ok(RowTypes {
        void,
        int,
        int_pointer,
        structure,
        no_parameter,
        int_and_pointer,
    })
}

/// One argument more, if there is one. None: there is no such type, or memory is wanting.
fn passed(
    alloc: Global,
    types: &mut Types,
    arguments: Arguments,
    of: Option<u32>,
) -> Option<Arguments>
    requires { arguments.left < length types.old.nodes }
    ensures { IfSome result (λ a. a.left < length types.new.nodes) }
{
    match of {
        None => Some(arguments),
        Some(of) => {
            let argument = value_of(types, of)?;
            arguments.with(alloc, types, argument).ok()
        }
    }
}

/// A call of a function with three arguments at most, by their types, and the type that it has or the rule that it
/// breaks.
#[derive(Clone, Copy)]
struct Row {
    function: u32,
    arguments: [Option<u32>; 3],
    wanted: Result<u32, TypeRule>,
}

/// The arguments of these types for a function. None: there is no such type, or memory is wanting.
fn passed_all(
    alloc: Global,
    types: &mut Types,
    function: u32,
    arguments: [Option<u32>; 3],
) -> Option<Arguments>
    requires { function < length types.old.nodes }
    ensures { IfSome result (λ a. a.left < length types.new.nodes) }
{
    let [first, second, third] = arguments;
    let none = Arguments::new(alloc, function);
    let one = passed(alloc, types, none, first)?;
    let two = passed(alloc, types, one, second)?;
    passed(alloc, types, two, third)
}

/// The type of the call, or the rule that it breaks. None: any other answer.
fn outcome(called: Result<TypedForm, Fault<TypeRule>>) -> Option<Result<u32, TypeRule>> {
    match called {
        Ok(form) if form.category == Category::Value => Some(Ok(form.of)),
        Err(Fault::Refused { rule, place: PLACE }) => Some(Err(rule)),
        Ok(_) | Err(Fault::Refused { .. } | Fault::Memory) => None,
    }
}

/// What a call answers. None: any other answer.
fn answer(alloc: Global, types: &mut Types, row: &Row) -> Option<Result<u32, TypeRule>> {
    let function = value_of(types, row.function)?;
    let arguments = passed_all(alloc, types, function.of, row.arguments)?;
    outcome(arguments.called(alloc, types, PLACE, false, function.tree))
}

#[test]
fn the_first_rule_by_number_of_the_arguments_and_their_count(rt: HostRuntime) -> Result<(), Fail> {
    let mut types = Types::new(rt.alloc(), 0);
    let n = row_types(&mut types)?;
    let (none, int, pointer) = (None, Some(n.int), Some(n.int_pointer));
    let (void, structure) = (Some(n.void), Some(n.structure));
    let row = |function, arguments, wanted| Row {
        function,
        arguments,
        wanted,
    };
    let rows = [
        row(n.no_parameter, [none, none, none], Ok(n.int)),
        row(n.int_and_pointer, [int, pointer, none], Ok(n.int)),
        row(n.no_parameter, [int, none, none], Err(TypeRule::C9)),
        row(n.no_parameter, [void, structure, none], Err(TypeRule::C9)),
        row(n.int_and_pointer, [int, none, none], Err(TypeRule::C9)),
        row(n.int_and_pointer, [int, pointer, int], Err(TypeRule::C9)),
        row(n.int_and_pointer, [pointer, none, none], Err(TypeRule::C9)),
        row(
            n.int_and_pointer,
            [pointer, pointer, none],
            Err(TypeRule::C10),
        ),
        row(
            n.int_and_pointer,
            [structure, void, none],
            Err(TypeRule::C10),
        ),
        row(n.int_and_pointer, [int, void, none], Err(TypeRule::C11)),
    ];
    for row in &rows {
        assert_eq!(rt; answer(rt.alloc(), &mut types, row), Some(row.wanted));
    }
    Ok(())
}

/// The function that a value of a type calls, or the rule that is broken. None: any other answer.
fn function_of(types: &Types, of: u32) -> Option<Result<u32, TypeRule>> {
    let form = value_of(types, of)?;
    match called_function(types, PLACE, &form) {
        Ok(function) => Some(Ok(function)),
        Err(Fault::Refused { rule, place: PLACE }) => Some(Err(rule)),
        Err(Fault::Refused { .. } | Fault::Memory) => None,
    }
}

#[test]
fn a_pointer_to_a_function_is_called(rt: HostRuntime) -> Result<(), Fail> {
    let mut types = Types::new(rt.alloc(), 0);
    let n = row_types(&mut types)?;
    let pointer = pointer_to(&mut types, n.no_parameter)?;
    assert_eq!(rt; function_of(&types, pointer), Some(Ok(n.no_parameter)));
    assert_eq!(rt; function_of(&types, n.int_pointer), Some(Err(TypeRule::C8)));
    assert_eq!(rt; function_of(&types, n.int), Some(Err(TypeRule::C8)));
    Ok(())
}
