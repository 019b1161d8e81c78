//! What is counted on typed trees.

ghost use Rattle.std.specs.Prelude.{◌≡◌, ◌<◌, ◌+◌, ◌^◌, map, max};
ghost use Rattle.std.specs.Option.{option_map};
ghost use Rattle.pa_typed.specs.Counts as spec;
ghost use Rattle.pa_typed.specs.Views.{bare_expr, t_exprs_of, bare_stmt, t_stmts_of, bare_for_start, bare_given, bare_initial, bare_local_init};

use crate::expr::TExpr;
use crate::stmt::{Given, Initial, LocalInit, TForStart, TStmt};
use crate::unit::{Function, Unit};

/// The count of the nodes of the file's syntax tree.
pub fn nodes(unit: &Unit) -> u64
    ensures { result ≡ unit.now.nodes }
{
    unit.nodes
}

/// The sizes of the function's objects in bytes, each rounded up to 8.
pub fn local_bytes(function: &Function) -> u64
    requires { spec.local_bytes function.now < 2 ^ 64 }
    ensures { result ≡ spec.local_bytes function.now }
{
    let mut total = 0;
    let mut rest = function.locals.as_slice();
    'locals: while let [local, tail @ ..] = rest {
        total += local.size.next_multiple_of(8);
        rest = tail;
    }
    total
}

/// The values that may wait while the second part is evaluated behind the first.
#[cycle(pend)]
fn two_pend(left: &TExpr, right: &TExpr) -> u64
    requires left { spec.expr_pend (bare_expr left.now) < 2 ^ 64 }
    requires right { 1 + spec.expr_pend (bare_expr right.now) < 2 ^ 64 }
    ensures { result ≡ max (spec.expr_pend (bare_expr left.now)) (1 + spec.expr_pend (bare_expr right.now)) }
{
    expr_pend(left).max(1 + expr_pend(right))
}

#[cycle(pend)]
fn parts_pend(parts: &[TExpr]) -> u64
    requires { spec.parts_pend 0 (t_exprs_of (map bare_expr parts.now)) < 2 ^ 64 }
    ensures { result ≡ spec.parts_pend 0 (t_exprs_of (map bare_expr parts.now)) }
{
    let mut largest = 0;
    let mut before = 0;
    let mut rest = parts;
    'parts: while let [part, tail @ ..] = rest {
        largest = (before + expr_pend(part)).max(largest);
        before += 1;
        rest = tail;
    }
    largest
}

#[cycle(pend)]
#[tactic(auto, using(crate::proofs::Views::typed_expr_views, crate::proofs::Sizes::part_count_is))]
fn expr_pend(e: &TExpr) -> u64
    requires { spec.expr_pend (bare_expr e.now) < 2 ^ 64 }
    ensures { result ≡ spec.expr_pend (bare_expr e.now) }
{
    match e {
        TExpr::LocalPlace { .. }
        | TExpr::GlobalPlace { .. }
        | TExpr::StringPlace { .. }
        | TExpr::Same { .. }
        | TExpr::Number { .. }
        | TExpr::FunctionValue { .. } => 1,
        TExpr::Member { owner, .. } => expr_pend(owner.get()),
        TExpr::Deref { pointer, .. } => expr_pend(pointer.get()),
        TExpr::Load { from, .. } | TExpr::LoadSigned { from, .. } => expr_pend(from.get()),
        TExpr::AddressOf { at, .. } => expr_pend(at.get()),
        TExpr::Convert { value, .. } | TExpr::Unary { value, .. } => expr_pend(value.get()),
        TExpr::Store { to, value, .. } | TExpr::StoreSigned { to, value, .. } => {
            two_pend(to.get(), value.get())
        }
        TExpr::Index { left, right, .. }
        | TExpr::Binary { left, right, .. }
        | TExpr::PointerAdd { left, right, .. }
        | TExpr::PointerSub { left, right, .. }
        | TExpr::Compare { left, right, .. } => two_pend(left.get(), right.get()),
        TExpr::And { left, right, .. } | TExpr::Or { left, right, .. } => {
            expr_pend(left.get()).max(expr_pend(right.get()))
        }
        TExpr::Choose {
            test,
            when_true,
            when_false,
            ..
        } => expr_pend(test.get())
            .max(expr_pend(when_true.get()))
            .max(expr_pend(when_false.get())),
        TExpr::Comma { first, second, .. } => {
            expr_pend(first.get()).max(expr_pend(second.get()))
        }
        TExpr::CallDirect { arguments, .. } => parts_pend(arguments.as_slice()).max(1),
        TExpr::CallPointer {
            arguments,
            function,
            ..
        } => parts_pend(arguments.as_slice()).max(
            arguments.len() as u64 + expr_pend(function.get()),
        ),
    }
}

fn maybe_pend(e: &Option<TExpr>) -> u64
    requires { spec.maybe_pend (option_map bare_expr e.now) < 2 ^ 64 }
    ensures { result ≡ spec.maybe_pend (option_map bare_expr e.now) }
{
    match e {
        Some(e) => expr_pend(e),
        None => 0,
    }
}

fn given_pend(given: &Given) -> u64
    requires { spec.given_pend (bare_given given.now) < 2 ^ 64 }
    ensures { result ≡ spec.given_pend (bare_given given.now) }
{
    match given {
        Given::Value { value } => expr_pend(value),
        Given::Text { .. } => 0,
    }
}

fn initials_pend(initials: &[Initial]) -> u64
    requires { spec.initials_pend (map bare_initial initials.now) < 2 ^ 64 }
    ensures { result ≡ spec.initials_pend (map bare_initial initials.now) }
{
    let mut largest = 0;
    let mut rest = initials;
    'initials: while let [initial, tail @ ..] = rest {
        largest = given_pend(&initial.given).max(largest);
        rest = tail;
    }
    largest
}

fn name_pend(name: &LocalInit) -> u64
    requires { spec.name_pend (bare_local_init name.now) < 2 ^ 64 }
    ensures { result ≡ spec.name_pend (bare_local_init name.now) }
{
    match &name.initials {
        Some(initials) => initials_pend(initials.as_slice()),
        None => 0,
    }
}

fn names_pend(names: &[LocalInit]) -> u64
    requires { spec.names_pend (map bare_local_init names.now) < 2 ^ 64 }
    ensures { result ≡ spec.names_pend (map bare_local_init names.now) }
{
    let mut largest = 0;
    let mut rest = names;
    'names: while let [name, tail @ ..] = rest {
        largest = name_pend(name).max(largest);
        rest = tail;
    }
    largest
}

fn start_pend(start: &TForStart) -> u64
    requires { spec.start_pend (bare_for_start start.now) < 2 ^ 64 }
    ensures { result ≡ spec.start_pend (bare_for_start start.now) }
{
    match start {
        TForStart::Declares { names } => names_pend(names.as_slice()),
        TForStart::Evaluates { value } => maybe_pend(value),
    }
}

#[cycle(stmt_pend)]
fn stmts_pend(stmts: &[TStmt]) -> u64
    requires { spec.stmts_pend (t_stmts_of (map bare_stmt stmts.now)) < 2 ^ 64 }
    ensures { result ≡ spec.stmts_pend (t_stmts_of (map bare_stmt stmts.now)) }
{
    let mut largest = 0;
    let mut rest = stmts;
    'stmts: while let [stmt, tail @ ..] = rest {
        largest = stmt_pend(stmt).max(largest);
        rest = tail;
    }
    largest
}

#[cycle(stmt_pend)]
#[tactic(auto, using(crate::proofs::Views::typed_stmt_views))]
fn stmt_pend(stmt: &TStmt) -> u64
    requires { spec.stmt_pend (bare_stmt stmt.now) < 2 ^ 64 }
    ensures { result ≡ spec.stmt_pend (bare_stmt stmt.now) }
{
    match stmt {
        TStmt::Compound { items } => stmts_pend(items.as_slice()),
        TStmt::InitLocal { name } => name_pend(name),
        TStmt::Expression { value } | TStmt::Return { value } => maybe_pend(value),
        TStmt::If { test, body } | TStmt::While { test, body } | TStmt::DoWhile { body, test } => {
            expr_pend(test).max(stmt_pend(body.get()))
        }
        TStmt::IfElse {
            test,
            when_true,
            when_false,
        } => expr_pend(test)
            .max(stmt_pend(when_true.get()))
            .max(stmt_pend(when_false.get())),
        TStmt::For {
            start,
            test,
            step,
            body,
        } => start_pend(start)
            .max(maybe_pend(test))
            .max(maybe_pend(step))
            .max(stmt_pend(body.get())),
        TStmt::Switch { value, body } => expr_pend(value).max(stmt_pend(body.get())),
        TStmt::Case { body, .. } => stmt_pend(body.get()).max(1),
        TStmt::Default { body } => stmt_pend(body.get()),
        TStmt::Break | TStmt::Continue => 0,
    }
}

/// The largest count of values that may wait while an expression of the function is evaluated, or 0 where it has none.
#[tactic(auto, unfolding(crate::specs::Counts::pend))]
pub fn pend(function: &Function) -> u64
    requires { spec.pend function.now < 2 ^ 64 }
    ensures { result ≡ spec.pend function.now }
{
    stmt_pend(&function.body)
}

/// What an open call of the function weighs on the stack, in bytes.
pub fn weight(function: &Function) -> u64
    requires { spec.weight function.now < 2 ^ 64 }
    ensures { result ≡ spec.weight function.now }
{
    256 + 2 * local_bytes(function) + 16 * pend(function)
}
