//! Uses of names that no file defines.
#![tactic(auto, using(crate::proofs::Earlier::earlier_laws))]

ghost use Rattle.std.specs.Prelude.{◌≡◌, map};
ghost use Rattle.pa_link.specs.Missing as spec;

use crate::definitions::Definitions;
use pa_typed::{CGlobal, Cell, Function, Given, Initial, LocalInit, TExpr, TForStart, TStmt};

/// The first of two places that may be there.
pub(crate) fn earlier(a: Option<u64>, b: Option<u64>) -> Option<u64>
    ensures { result ≡ spec.earlier a b }
{
    match (a, b) {
        (Some(a), Some(b)) => Some(a.min(b)),
        (Some(a), None) => Some(a),
        (None, b) => b,
    }
}

fn use_missing(name: u32, place: u64, defined: &Definitions) -> Option<u64>
    ensures { result ≡ spec.use_missing defined.now name place }
{
    if defined.has(name) { None } else { Some(place) }
}

#[cycle(expr_missing)]
fn two_missing(first: &TExpr, second: &TExpr, defined: &Definitions) -> Option<u64>
    ensures { result ≡ spec.earlier (spec.expr_missing defined.now first.now) (spec.expr_missing defined.now second.now) }
{
    earlier(expr_missing(first, defined), expr_missing(second, defined))
}

#[cycle(expr_missing)]
fn exprs_missing(items: &[TExpr], defined: &Definitions) -> Option<u64>
    ensures { result ≡ spec.earliest (map (spec.expr_missing defined.now) items.now) }
{
    let mut least = None;
    let mut rest = items;
    'items: while let [item, tail @ ..] = rest {
        least = earlier(least, expr_missing(item, defined));
        rest = tail;
    }
    least
}

/// The first place of the expression where a name is used that isn't defined.
#[cycle(expr_missing)]
#[tactic(auto, using(crate::proofs::MissingUses::missing_exprs, pa_typed::proofs::Views::typed_expr_views))]
pub(crate) fn expr_missing(e: &TExpr, defined: &Definitions) -> Option<u64>
    ensures { result ≡ spec.expr_missing defined.now e.now }
{
    match e {
        TExpr::LocalPlace { .. }
        | TExpr::StringPlace { .. }
        | TExpr::Same { .. }
        | TExpr::Number { .. } => None,
        TExpr::GlobalPlace { name, place, .. } | TExpr::FunctionValue { name, place, .. } => {
            use_missing(*name, *place, defined)
        }
        TExpr::Member { owner, .. } => expr_missing(owner.get(), defined),
        TExpr::Deref { pointer, .. } => expr_missing(pointer.get(), defined),
        TExpr::Load { from, .. } | TExpr::LoadSigned { from, .. } => {
            expr_missing(from.get(), defined)
        }
        TExpr::AddressOf { at, .. } => expr_missing(at.get(), defined),
        TExpr::Convert { value, .. } | TExpr::Unary { value, .. } => {
            expr_missing(value.get(), defined)
        }
        TExpr::Store { to, value, .. } | TExpr::StoreSigned { to, value, .. } => {
            two_missing(to.get(), value.get(), defined)
        }
        TExpr::Index { left, right, .. }
        | TExpr::Binary { left, right, .. }
        | TExpr::PointerAdd { left, right, .. }
        | TExpr::PointerSub { left, right, .. }
        | TExpr::Compare { left, right, .. }
        | TExpr::And { left, right, .. }
        | TExpr::Or { left, right, .. } => two_missing(left.get(), right.get(), defined),
        TExpr::Choose {
            test,
            when_true,
            when_false,
            ..
        } => earlier(
            expr_missing(test.get(), defined),
            earlier(
                expr_missing(when_true.get(), defined),
                expr_missing(when_false.get(), defined),
            ),
        ),
        TExpr::Comma { first, second, .. } => two_missing(first.get(), second.get(), defined),
        TExpr::CallDirect {
            name,
            place,
            arguments,
            ..
        } => earlier(
            use_missing(*name, *place, defined),
            exprs_missing(arguments.as_slice(), defined),
        ),
        TExpr::CallPointer {
            arguments,
            function,
            ..
        } => earlier(
            expr_missing(function.get(), defined),
            exprs_missing(arguments.as_slice(), defined),
        ),
    }
}

fn maybe_missing(e: &Option<TExpr>, defined: &Definitions) -> Option<u64>
    ensures { result ≡ spec.maybe_missing defined.now e.now }
{
    match e {
        Some(e) => expr_missing(e, defined),
        None => None,
    }
}

fn given_missing(given: &Given, defined: &Definitions) -> Option<u64>
    ensures { result ≡ spec.given_missing defined.now given.now }
{
    match given {
        Given::Value { value } => expr_missing(value, defined),
        Given::Text { .. } => None,
    }
}

fn initials_missing(initials: &[Initial], defined: &Definitions) -> Option<u64>
    ensures { result ≡ spec.earliest (map (spec.initial_missing defined.now) initials.now) }
{
    let mut least = None;
    let mut rest = initials;
    'initials: while let [initial, tail @ ..] = rest {
        least = earlier(least, given_missing(&initial.given, defined));
        rest = tail;
    }
    least
}

fn name_missing(name: &LocalInit, defined: &Definitions) -> Option<u64>
    ensures { result ≡ spec.local_init_missing defined.now name.now }
{
    match &name.initials {
        Some(initials) => initials_missing(initials.as_slice(), defined),
        None => None,
    }
}

fn names_missing(names: &[LocalInit], defined: &Definitions) -> Option<u64>
    ensures { result ≡ spec.earliest (map (spec.local_init_missing defined.now) names.now) }
{
    let mut least = None;
    let mut rest = names;
    'names: while let [name, tail @ ..] = rest {
        least = earlier(least, name_missing(name, defined));
        rest = tail;
    }
    least
}

fn start_missing(start: &TForStart, defined: &Definitions) -> Option<u64>
    ensures { result ≡ spec.start_missing defined.now start.now }
{
    match start {
        TForStart::Declares { names } => names_missing(names.as_slice(), defined),
        TForStart::Evaluates { value } => maybe_missing(value, defined),
    }
}

#[cycle(stmt_missing)]
fn stmts_missing(stmts: &[TStmt], defined: &Definitions) -> Option<u64>
    ensures { result ≡ spec.earliest (map (spec.stmt_missing defined.now) stmts.now) }
{
    let mut least = None;
    let mut rest = stmts;
    'stmts: while let [stmt, tail @ ..] = rest {
        least = earlier(least, stmt_missing(stmt, defined));
        rest = tail;
    }
    least
}

/// The first place of the statement where a name is used that isn't defined.
#[cycle(stmt_missing)]
#[tactic(auto, using(crate::proofs::MissingUses::missing_stmts, pa_typed::proofs::Views::typed_stmt_views))]
fn stmt_missing(stmt: &TStmt, defined: &Definitions) -> Option<u64>
    ensures { result ≡ spec.stmt_missing defined.now stmt.now }
{
    match stmt {
        TStmt::Compound { items } => stmts_missing(items.as_slice(), defined),
        TStmt::InitLocal { name } => name_missing(name, defined),
        TStmt::Expression { value } | TStmt::Return { value } => maybe_missing(value, defined),
        TStmt::If { test, body } | TStmt::While { test, body } => earlier(
            expr_missing(test, defined),
            stmt_missing(body.get(), defined),
        ),
        TStmt::DoWhile { body, test } => earlier(
            stmt_missing(body.get(), defined),
            expr_missing(test, defined),
        ),
        TStmt::IfElse {
            test,
            when_true,
            when_false,
        } => earlier(
            expr_missing(test, defined),
            earlier(
                stmt_missing(when_true.get(), defined),
                stmt_missing(when_false.get(), defined),
            ),
        ),
        TStmt::For {
            start,
            test,
            step,
            body,
        } => earlier(
            start_missing(start, defined),
            earlier(
                maybe_missing(test, defined),
                earlier(
                    maybe_missing(step, defined),
                    stmt_missing(body.get(), defined),
                ),
            ),
        ),
        TStmt::Switch { value, body } => earlier(
            expr_missing(value, defined),
            stmt_missing(body.get(), defined),
        ),
        TStmt::Case { body, .. } | TStmt::Default { body } => stmt_missing(body.get(), defined),
        TStmt::Break | TStmt::Continue => None,
    }
}

fn cells_missing(cells: &[Cell], defined: &Definitions) -> Option<u64>
    ensures { result ≡ spec.earliest (map (spec.cell_missing defined.now) cells.now) }
{
    let mut least = None;
    let mut rest = cells;
    'cells: while let [cell, tail @ ..] = rest {
        least = earlier(least, expr_missing(&cell.value, defined));
        rest = tail;
    }
    least
}

/// The first place of the globals where a name is used that isn't defined.
pub(crate) fn globals_missing(globals: &[CGlobal], defined: &Definitions) -> Option<u64>
    ensures { result ≡ spec.earliest (map (spec.global_missing defined.now) globals.now) }
{
    let mut least = None;
    let mut rest = globals;
    'globals: while let [global, tail @ ..] = rest {
        least = earlier(least, cells_missing(global.cells.as_slice(), defined));
        rest = tail;
    }
    least
}

/// The first place of the functions where a name is used that isn't defined.
pub(crate) fn functions_missing(functions: &[Function], defined: &Definitions) -> Option<u64>
    ensures { result ≡ spec.earliest (map (spec.function_missing defined.now) functions.now) }
{
    let mut least = None;
    let mut rest = functions;
    'functions: while let [function, tail @ ..] = rest {
        least = earlier(least, stmt_missing(&function.body, defined));
        rest = tail;
    }
    least
}
