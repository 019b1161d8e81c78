//! Operators on places, and casts, by hand.

ghost use Rattle.std.specs.Prelude.{◌<◌, ◌^◌, length, IfSome};

use crate::{address, cast, indirection, size_of, subscript};
use pa_convert::{integer, pointer_to};
use pa_ctype::{Node, Types};
use pa_num::{Fault, Memory};
use pa_rexpr::Category;
use pa_scope::TypeRule;
use pa_typed::TExpr;
use pa_value::{TypedForm, expr_type};
use std::alloc::Global;
use std::test::Fail;

/// The place of each operator in these rows.
const PLACE: u64 = 7;

/// What an operator answers: the type and the category of its form, or the rule that is broken at its place.
#[derive(Clone, Copy, Debug, PartialEq, Eq)]
enum Answer {
    Form { of: u32, category: Category },
    Broken(TypeRule),
    Other,
}

/// The answer without its tree.
fn answer_of(given: Result<TypedForm, Fault<TypeRule>>) -> Answer {
    match given {
        Ok(form) => Answer::Form {
            of: form.of,
            category: form.category,
        },
        Err(Fault::Refused { rule, place }) if place == PLACE => Answer::Broken(rule),
        Err(Fault::Refused { .. } | Fault::Memory) => Answer::Other,
    }
}

/// An expression of a type. None: there is no such type.
fn form(types: &Types, of: u32, category: Category) -> Option<TypedForm>
    ensures { IfSome result (λ form. form.of < length types.now.nodes) }
{
    if of as usize >= types.len() {
        return None;
    }
    let tree = TExpr::Same {
        of: expr_type(types, of),
    };
    Some(TypedForm {
        tree,
        of,
        category,
        null: false,
    })
}

/// The types of the rows, by their row_types.
#[derive(Clone, Copy)]
struct RowTypes {
    void: u32,
    int: u32,
    long: u32,
    structure: u32,
    int_pointer: u32,
    void_pointer: u32,
    function_pointer: u32,
}

/// The types of the rows: a struct without a body among them, and a pointer to a function without parameters.
fn row_types(types: &mut Types) -> Result<RowTypes, Memory>
    requires { length types.old.structs < 2 ^ 32 }
{
    let id = types.declare()?;
    let structure = types.put(Node::Struct { id })?;
    let void = types.put(Node::Void)?;
    let void_pointer = pointer_to(types, void)?;
    let int = integer(types, 32, true)?;
    let int_pointer = pointer_to(types, int)?;
    let function = types.put(Node::Returns { of: int })?;
    let function_pointer = pointer_to(types, function)?;
    let long = integer(types, 64, true)?;
    Ok(RowTypes {
        void,
        int,
        long,
        structure,
        int_pointer,
        void_pointer,
        function_pointer,
    })
}

/// A cast of a value of one type to another, and the rule that it breaks.
#[derive(Clone, Copy)]
struct CastRow {
    wanted: u32,
    of: u32,
    rule: Option<TypeRule>,
}

/// What a cast answers. None: there is no such type.
fn cast_answer(alloc: Global, types: &mut Types, row: &CastRow) -> Option<Answer> {
    let form = form(types, row.of, Category::Value)?;
    if row.wanted as usize >= types.len() {
        return None;
    }
    Some(answer_of(cast(alloc, types, PLACE, row.wanted, form)))
}

#[test]
fn casts_go_between_integers_and_between_pointers_to_objects(rt: HostRuntime) -> Result<(), Fail> {
    let mut types = Types::new(rt.alloc(), 0);
    let n = row_types(&mut types)?;
    let rows = [
        CastRow {
            wanted: n.long,
            of: n.int,
            rule: None,
        },
        CastRow {
            wanted: n.int_pointer,
            of: n.void_pointer,
            rule: None,
        },
        CastRow {
            wanted: n.void,
            of: n.int,
            rule: None,
        },
        CastRow {
            wanted: n.void,
            of: n.void,
            rule: None,
        },
        CastRow {
            wanted: n.structure,
            of: n.int,
            rule: Some(TypeRule::C10),
        },
        CastRow {
            wanted: n.int,
            of: n.structure,
            rule: Some(TypeRule::C10),
        },
        CastRow {
            wanted: n.int,
            of: n.void,
            rule: Some(TypeRule::C11),
        },
        CastRow {
            wanted: n.structure,
            of: n.void,
            rule: Some(TypeRule::C11),
        },
        CastRow {
            wanted: n.void,
            of: n.structure,
            rule: Some(TypeRule::C11),
        },
        CastRow {
            wanted: n.function_pointer,
            of: n.int,
            rule: Some(TypeRule::C15),
        },
        CastRow {
            wanted: n.void_pointer,
            of: n.function_pointer,
            rule: Some(TypeRule::C15),
        },
        CastRow {
            wanted: n.void,
            of: n.function_pointer,
            rule: Some(TypeRule::C15),
        },
        CastRow {
            wanted: n.int_pointer,
            of: n.int,
            rule: Some(TypeRule::C16),
        },
        CastRow {
            wanted: n.long,
            of: n.int_pointer,
            rule: Some(TypeRule::C16),
        },
    ];
    for row in &rows {
        let wanted = match row.rule {
            None => Answer::Form {
                of: row.wanted,
                category: Category::Value,
            },
            Some(rule) => Answer::Broken(rule),
        };
        assert_eq!(rt; cast_answer(rt.alloc(), &mut types, row), Some(wanted));
    }
    Ok(())
}

/// An operator of one operand, with what it answers.
#[derive(Clone, Copy)]
struct OneRow {
    of: u32,
    category: Category,
    wanted: Answer,
}

/// What `*` answers. None: there is no such type.
fn indirection_answer(alloc: Global, types: &mut Types, row: &OneRow) -> Option<Answer> {
    let form = form(types, row.of, row.category)?;
    Some(answer_of(indirection(alloc, types, PLACE, form)))
}

#[test]
fn a_pointer_points_to_what_it_says(rt: HostRuntime) -> Result<(), Fail> {
    let mut types = Types::new(rt.alloc(), 0);
    let n = row_types(&mut types)?;
    let lvalue = Answer::Form {
        of: n.int,
        category: Category::Lvalue,
    };
    let nothing = Answer::Form {
        of: n.void,
        category: Category::Value,
    };
    let rows = [
        OneRow {
            of: n.int_pointer,
            category: Category::Value,
            wanted: lvalue,
        },
        OneRow {
            of: n.void_pointer,
            category: Category::Value,
            wanted: nothing,
        },
        OneRow {
            of: n.int,
            category: Category::Value,
            wanted: Answer::Broken(TypeRule::C5),
        },
        OneRow {
            of: n.structure,
            category: Category::Lvalue,
            wanted: Answer::Broken(TypeRule::C5),
        },
    ];
    for row in &rows {
        assert_eq!(rt;
            indirection_answer(rt.alloc(), &mut types, row),
            Some(row.wanted)
        );
    }
    Ok(())
}

/// What `&` answers. None: there is no such type.
fn address_answer(alloc: Global, types: &mut Types, row: &OneRow) -> Option<Answer> {
    let form = form(types, row.of, row.category)?;
    Some(answer_of(address(alloc, types, PLACE, form)))
}

#[test]
fn only_places_and_functions_have_addresses(rt: HostRuntime) -> Result<(), Fail> {
    let mut types = Types::new(rt.alloc(), 0);
    let n = row_types(&mut types)?;
    let pointer = Answer::Form {
        of: n.int_pointer,
        category: Category::Value,
    };
    let rows = [
        OneRow {
            of: n.int,
            category: Category::Lvalue,
            wanted: pointer,
        },
        OneRow {
            of: n.int,
            category: Category::Designator,
            wanted: pointer,
        },
        OneRow {
            of: n.int,
            category: Category::Value,
            wanted: Answer::Broken(TypeRule::C3),
        },
        OneRow {
            of: n.structure,
            category: Category::Temporary,
            wanted: Answer::Broken(TypeRule::C3),
        },
    ];
    for row in &rows {
        assert_eq!(rt;
            address_answer(rt.alloc(), &mut types, row),
            Some(row.wanted)
        );
    }
    Ok(())
}

/// What `sizeof` answers. None: there is no such type.
fn size_answer(types: &mut Types, of: u32) -> Option<Result<u64, TypeRule>> {
    if of as usize >= types.len() {
        return None;
    }
    match size_of(types, PLACE, of) {
        Ok(
            TypedForm {
                tree: TExpr::Number { value, .. },
                ..
            },
        ) => Some(Ok(value)),
        Err(Fault::Refused { rule, .. }) => Some(Err(rule)),
        _ => None,
    }
}

#[test]
fn complete_objects_have_sizes(rt: HostRuntime) -> Result<(), Fail> {
    let mut types = Types::new(rt.alloc(), 0);
    let n = row_types(&mut types)?;
    assert_eq!(rt; size_answer(&mut types, n.int), Some(Ok(4)));
    assert_eq!(rt; size_answer(&mut types, n.int_pointer), Some(Ok(8)));
    assert_eq!(rt; size_answer(&mut types, n.void), Some(Err(TypeRule::C11)));
    assert_eq!(rt;
        size_answer(&mut types, n.structure),
        Some(Err(TypeRule::C11))
    );
    Ok(())
}

/// A subscript, with what it answers.
#[derive(Clone, Copy)]
struct SubscriptRow {
    left: u32,
    right: u32,
    wanted: Answer,
}

/// What a subscript answers. None: there is no such type.
fn subscript_answer(alloc: Global, types: &Types, row: &SubscriptRow) -> Option<Answer> {
    let left = form(types, row.left, Category::Value)?;
    let right = form(types, row.right, Category::Value)?;
    Some(answer_of(subscript(alloc, types, PLACE, left, right)))
}

#[test]
fn one_side_of_a_subscript_is_a_pointer(rt: HostRuntime) -> Result<(), Fail> {
    let mut types = Types::new(rt.alloc(), 0);
    let n = row_types(&mut types)?;
    let element = Answer::Form {
        of: n.int,
        category: Category::Lvalue,
    };
    let refused = Answer::Broken(TypeRule::C5);
    let rows = [
        SubscriptRow {
            left: n.int_pointer,
            right: n.long,
            wanted: element,
        },
        SubscriptRow {
            left: n.int,
            right: n.int_pointer,
            wanted: element,
        },
        SubscriptRow {
            left: n.int,
            right: n.int,
            wanted: refused,
        },
        SubscriptRow {
            left: n.int_pointer,
            right: n.int_pointer,
            wanted: refused,
        },
        SubscriptRow {
            left: n.void_pointer,
            right: n.int,
            wanted: refused,
        },
        SubscriptRow {
            left: n.function_pointer,
            right: n.int,
            wanted: refused,
        },
    ];
    for row in &rows {
        assert_eq!(rt; subscript_answer(rt.alloc(), &types, row), Some(row.wanted));
    }
    Ok(())
}
