//! What the numbers in typed trees stand for.

ghost use Rattle.std.specs.Prelude.{◌≡◌, ◌<◌, length};
ghost use Rattle.pa_convert.specs.Forms.{HasForm};
ghost use Rattle.pa_cmean.specs.Calls as calls;
ghost use Rattle.pa_cmean.specs.ExprTypes.{type_of};
ghost use Rattle.pa_ctype.specs.Nodes.{at};
ghost use Rattle.pa_typed.specs.Units.{name_in};
ghost use Rattle.pa_lower.specs.Operations as spec;
ghost use Rattle.pa_lower.specs.Sources.{ending_of, type_in, expr_in};

use pa_convert::{Form, form_of};
use pa_ctype::{Node, Types};
use pa_num::Name;
use pa_typed::TExpr;
use std::alloc::Global;

/// Where the node of a function's type says what the function gives.
#[derive(Clone, Copy, Debug)]
pub(crate) enum Ending {
    /// In the type of this number: a parameter or `const` stands before.
    Behind { rest: u32 },
    /// Here: a value of the type of this number.
    Gives { of: u32 },
    /// The node is none of a function.
    Nowhere,
}

fn end_of(node: Node) -> Ending
    ensures { result ≡ ending_of node }
{
    match node {
        Node::Takes { rest, .. } => Ending::Behind { rest },
        Node::Constant { of } => Ending::Behind { rest: of },
        Node::Returns { of } => Ending::Gives { of },
        Node::Void
        | Node::Bool
        | Node::Int { .. }
        | Node::Pointer { .. }
        | Node::Array { .. }
        | Node::Struct { .. } => Ending::Nowhere,
    }
}

/// The types and names of a program, which the numbers in its trees stand for.
#[derive(Clone, Copy)]
pub(crate) struct Source<'a> {
    pub(crate) alloc: Global,
    pub(crate) types: &'a Types,
    pub(crate) names: &'a [Name],
}

impl Source<'_> {
    /// The name of a number. One that isn't there has no bytes.
    pub(crate) fn name(&self, number: u32) -> &[u8]
        ensures { result.now ≡ name_in self.now.names.now number }
    {
        match self.names.get(number as usize) {
            Some(name) => name.as_slice(),
            None => &[],
        }
    }

    /// The layer of a type. A number that isn't in the table stands for `void`.
    pub(crate) fn form(&self, number: u32) -> Form
        ensures { HasForm (at self.now.types.now.nodes) result (type_in self.now number) }
    {
        if (number as usize) < self.types.len() {
            form_of(self.types, number)
        } else {
            Form::Void
        }
    }

    /// How many bytes an object of an integer type has (C11 6.2.6.1); of `_Bool` one.
    #[tactic(auto, using(crate::proofs::Forms::function_bytes))]
    pub(crate) fn bytes(&self, number: u32) -> u8
        ensures { result ≡ spec.bytes_of (type_in self.now number) }
    {
        match self.form(number) {
            Form::Integer { bits, .. } => bits / 8,
            Form::Boolean => 1,
            Form::Void
            | Form::Pointer { .. }
            | Form::Array { .. }
            | Form::Struct { .. }
            | Form::Function => 8,
        }
    }

    /// The type has negative numbers.
    #[tactic(auto, using(crate::proofs::Forms::function_signed))]
    pub(crate) fn is_signed(&self, number: u32) -> bool
        ensures { result ≡ spec.is_signed (type_in self.now number) }
    {
        matches!(self.form(number), Form::Integer { signed: true, .. })
    }

    #[tactic(auto, using(crate::proofs::Forms::function_void))]
    pub(crate) fn is_void(&self, number: u32) -> bool
        ensures { result ≡ spec.is_void (type_in self.now number) }
    {
        matches!(self.form(number), Form::Void)
    }

    /// The function of this type gives nothing.
    pub(crate) fn gives_nothing(&self, number: u32) -> bool
        ensures { result ≡ calls.gives_nothing (type_in self.now number) }
    {
        let mut rest = number;
        'parameters: while (rest as usize) < self.types.len() {
            match end_of(self.types.node(rest)) {
                Ending::Behind { rest: others } => rest = others,
                Ending::Gives { of } => return self.is_void(of),
                Ending::Nowhere => return false,
            }
        }
        false
    }

    /// The number of the type of an expression.
    #[tactic(auto, using(pa_typed::proofs::Views::typed_expr_views))]
    pub(crate) fn type_number(&self, e: &TExpr) -> u32
        ensures { type_in self.now result ≡ type_of (expr_in self.now e.now) }
    {
        match e {
            TExpr::LocalPlace { of, .. }
            | TExpr::GlobalPlace { of, .. }
            | TExpr::StringPlace { of, .. }
            | TExpr::Same { of }
            | TExpr::Member { of, .. }
            | TExpr::Index { of, .. }
            | TExpr::Deref { of, .. }
            | TExpr::Number { of, .. }
            | TExpr::Load { of, .. }
            | TExpr::LoadSigned { of, .. }
            | TExpr::Store { of, .. }
            | TExpr::StoreSigned { of, .. }
            | TExpr::AddressOf { of, .. }
            | TExpr::FunctionValue { of, .. }
            | TExpr::Convert { of, .. }
            | TExpr::Unary { of, .. }
            | TExpr::Binary { of, .. }
            | TExpr::PointerAdd { of, .. }
            | TExpr::PointerSub { of, .. }
            | TExpr::Compare { of, .. }
            | TExpr::And { of, .. }
            | TExpr::Or { of, .. }
            | TExpr::Choose { of, .. }
            | TExpr::Comma { of, .. }
            | TExpr::CallDirect { of, .. }
            | TExpr::CallPointer { of, .. } => of.number,
        }
    }
}
