//! Calls (C11 6.5.2.2).

ghost use Rattle.std.specs.Prelude.{◌≡◌, ◌<◌, length, IfOk, IfSome};
ghost use Rattle.pa_call.specs.Passing as spec;
ghost use Rattle.pa_convert.specs.Grows.{Grows};

use crate::functions::{Parameter, first_parameter, last_result};
use crate::rules::with_rule;
use pa_convert::value_type;
use pa_ctype::Types;
use pa_num::{Fault, Memory};
use pa_scope::TypeRule;
use pa_typed::{ExprType, TExpr};
use pa_value::{TypedForm, expr_type, given, refused, value};
use sqlite_items::{Boxed, Items};
use std::alloc::{AllocError, Global};

/// The arguments of a call, given to the parameters of a function one by one (C11 6.5.2.2p2, p7).
#[derive(Drop)]
pub struct Arguments {
    /// The arguments as their parameters take them.
    pub trees: Items<TExpr>,
    /// The first rule by number that one of the others breaks.
    pub rule: Option<TypeRule>,
    /// The number of the function of the parameters that are left.
    pub left: u32,
    /// An argument had no parameter.
    pub surplus: bool,
}

/// A call of a function by its name, or of a pointer, which is evaluated after the arguments.
#[tactic(auto, unfolding(pa_typed::specs::Views::t_expr_tree))]
fn call_tree(
    alloc: Global,
    by_name: bool,
    function: TExpr,
    arguments: Items<TExpr>,
    of: ExprType,
) -> Result<TExpr, AllocError>
    ensures { IfOk result (λ t. spec.IsCallTree by_name function arguments of t) }
{
    match function {
        TExpr::FunctionValue { name, place, .. } if by_name => Ok(TExpr::CallDirect {
            name,
            place,
            arguments,
            of,
        }),
        function => Ok(TExpr::CallPointer {
            arguments,
            function: Boxed::new(alloc, function)?,
            of,
        }),
    }
}

impl Arguments {
    /// No argument yet, of a function.
    pub fn new(alloc: Global, function: u32) -> Arguments
        ensures { result ≡ spec.no_arguments function }
    {
        Arguments {
            trees: Items::new(alloc),
            rule: None,
            left: function,
            surplus: false,
        }
    }

    /// One argument more, a value.
    pub fn with(
        self,
        alloc: Global,
        types: &mut Types,
        argument: TypedForm,
    ) -> Result<Arguments, Memory>
        requires left { self.left < length types.old.nodes }
        requires argument { argument.of < length types.old.nodes }
        ensures known { IfOk result (λ a. a.left < length types.new.nodes) }
        ensures is { IfOk result (λ a. spec.IsWith types.new self argument a) }
        ensures grows { Grows types.old types.new }
    {
        let Arguments {
            mut trees,
            rule,
            left,
            surplus,
        } = self;
        let Some(Parameter { of, rest }) = first_parameter(types, left) else {
            return Ok(Arguments {
                trees,
                rule,
                left,
                surplus: true,
            });
        };
        match given(alloc, types, 0, of, argument) {
            Ok(tree) => {
                trees.push(tree)?;
                Ok(Arguments {
                    trees,
                    rule,
                    left: rest,
                    surplus,
                })
            }
            Err(Fault::Refused { rule: broken, .. }) => Ok(Arguments {
                trees,
                rule: Some(with_rule(rule, broken)),
                left: rest,
                surplus,
            }),
            Err(Fault::Memory) => Err(Memory),
        }
    }

    /// What the function gives. None: it has more parameters or fewer than there are arguments.
    fn result_type(&self, types: &Types) -> Option<u32>
        requires { self.now.left < length types.now.nodes }
        ensures known { IfSome result (λ of. of < length types.now.nodes) }
        ensures is { spec.IsResult types.now self.now result }
    {
        if self.surplus {
            None
        } else {
            last_result(types, self.left)
        }
    }

    /// The call of a function, whose pointer this is, with these arguments (C11 6.5.2.2). `by_name`: it is called by its
    /// name. The first by number of C7, C9, C10, C11 and C23: the count of arguments differs (C9), or one can't be given
    /// to its parameter.
    pub fn called(
        self,
        alloc: Global,
        types: &mut Types,
        place: u64,
        by_name: bool,
        function: TExpr,
    ) -> Result<TypedForm, Fault<TypeRule>>
        requires { self.left < length types.old.nodes }
        ensures known { IfOk result (λ t. t.of < length types.new.nodes) }
        ensures is { spec.GivesCall types.new result place by_name function self }
        ensures grows { Grows types.old types.new }
    {
        let Some(of) = self.result_type(types) else {
            return Err(refused(with_rule(self.rule, TypeRule::C9), place));
        };
        if let Some(rule) = self.rule {
            return Err(refused(rule, place));
        }
        Ok(called_form(alloc, types, by_name, function, self.trees, of)?)
    }
}

/// The value of a call of a function that gives this type.
fn called_form(
    alloc: Global,
    types: &mut Types,
    by_name: bool,
    function: TExpr,
    arguments: Items<TExpr>,
    of: u32,
) -> Result<TypedForm, Memory>
    requires { of < length types.old.nodes }
    ensures known { IfOk result (λ t. t.of < length types.new.nodes) }
    ensures is { spec.IsCalledForm types.new result by_name function arguments of }
    ensures grows { Grows types.old types.new }
{
    let plain = value_type(types, of)?;
    let of = expr_type(types, plain);
    Ok(value(call_tree(alloc, by_name, function, arguments, of)?, plain))
}
