//! The parameters and the result of a function, by the number of its type.

ghost use Rattle.std.specs.Prelude.{◌≡◌, ◌<◌, length, option_map, IfOk, IfSome};
ghost use Rattle.pa_call.specs.Passing as spec;
ghost use Rattle.pa_ctype.specs.Tables.{ForTypes};

use pa_convert::{is_function, target};
use pa_ctype::{Node, Types};
use pa_num::Fault;
use pa_scope::TypeRule;
use pa_value::{TypedForm, refused};

/// The first parameter of a function, and the function of the others.
#[derive(Clone, Copy)]
pub(crate) struct Parameter {
    pub(crate) of: u32,
    pub(crate) rest: u32,
}

/// The first parameter of a node. None: it is no function that takes one.
fn parameter_in(node: Node) -> Option<Parameter>
    ensures { result ≡ spec.parameter_in node }
{
    match node {
        Node::Takes { param, rest } => Some(Parameter { of: param, rest }),
        _ => None,
    }
}

/// The result of a node. None: it is no function without parameters.
fn result_in(node: Node) -> Option<u32>
    ensures { result ≡ spec.result_in node }
{
    match node {
        Node::Returns { of } => Some(of),
        _ => None,
    }
}

/// The first parameter of a function. None: it takes none.
#[tactic(auto, using(crate::proofs::Nodes::parameter_is, crate::proofs::Nodes::parameter_below))]
pub(crate) fn first_parameter(types: &Types, function: u32) -> Option<Parameter>
    requires { function < length types.now.nodes }
    ensures known { IfSome result (λ p. spec.IsBelow (length types.now.nodes) p) }
    ensures is { spec.IsFirstParameter types.now function result }
{
    parameter_in(types.node(function))
}

/// What a function without parameters gives. None: it takes one.
#[tactic(auto, using(crate::proofs::Nodes::result_is, crate::proofs::Nodes::result_below))]
pub(crate) fn last_result(types: &Types, function: u32) -> Option<u32>
    requires { function < length types.now.nodes }
    ensures known { IfSome result (λ of. of < length types.now.nodes) }
    ensures is { ForTypes types.now (λ m. option_map m result ≡ spec.last_result (m function)) }
{
    result_in(types.node(function))
}

/// The function that is called: what a pointer points to. C8: it is no pointer to a function.
#[tactic(auto, using(crate::proofs::Nodes::function_called, crate::proofs::Nodes::nothing_called))]
pub fn called_function(types: &Types, place: u64, form: &TypedForm) -> Result<u32, Fault<TypeRule>>
    requires { form.now.of < length types.now.nodes }
    ensures known { IfOk result (λ n. n < length types.now.nodes) }
    ensures is { spec.IsCalled types.now place form.now result }
{
    match target(types, form.of) {
        Some(to) if is_function(types, to) => Ok(to),
        _ => Err(refused(TypeRule::C8, place)),
    }
}
