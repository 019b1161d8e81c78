//! Statements of a file as they stand in the program.

ghost use Rattle.std.specs.Prelude.{◌≡◌, map, IfOk};
ghost use Rattle.std.specs.Option.{option_map};
ghost use Rattle.pa_link.specs.Numbering as spec;

use crate::numbered_expr::numbered_expr;
use crate::numbering::Numbering;
use pa_num::{Memory, Sequence};
use pa_typed::{Given, Initial, Initials, LocalInit, LocalInits, TExpr, TForStart, TStmt};
use sqlite_items::{Boxed, Items};
use std::alloc::Global;

fn maybe_expr(alloc: Global, e: &Option<TExpr>, n: &Numbering) -> Result<Option<TExpr>, Memory>
    ensures { IfOk result (λ made. made ≡ option_map (spec.numbered_expr n.now) e.now) }
{
    match e {
        Some(e) => Ok(Some(numbered_expr(alloc, e, n)?)),
        None => Ok(None),
    }
}

fn given(alloc: Global, given: &Given, n: &Numbering) -> Result<Given, Memory>
    ensures { IfOk result (λ made. made ≡ spec.numbered_given n.now given.now) }
{
    match given {
        Given::Value { value } => Ok(Given::Value {
            value: numbered_expr(alloc, value, n)?,
        }),
        Given::Text { text } => Ok(Given::Text {
            text: n.text(*text)?,
        }),
    }
}

fn initials(alloc: Global, initials: &[Initial], n: &Numbering) -> Result<Initials, Memory>
    ensures { IfOk result (λ made. made ≡ map (spec.numbered_initial n.now) initials.now) }
{
    let mut made = Sequence::new(alloc);
    let mut rest = initials;
    'initials: while let [initial, tail @ ..] = rest {
        made.push(Initial {
            at: initial.at,
            of: n.expr_type(initial.of),
            given: given(alloc, &initial.given, n)?,
        })?;
        rest = tail;
    }
    Ok(made)
}

fn local_init(alloc: Global, name: &LocalInit, n: &Numbering) -> Result<LocalInit, Memory>
    ensures { IfOk result (λ made. made ≡ spec.numbered_local_init n.now name.now) }
{
    match &name.initials {
        Some(parts) => Ok(LocalInit {
            local: name.local,
            initials: Some(initials(alloc, parts.as_slice(), n)?),
        }),
        None => Ok(LocalInit {
            local: name.local,
            initials: None,
        }),
    }
}

fn local_inits(alloc: Global, names: &[LocalInit], n: &Numbering) -> Result<LocalInits, Memory>
    ensures { IfOk result (λ made. made ≡ map (spec.numbered_local_init n.now) names.now) }
{
    let mut made = Sequence::new(alloc);
    let mut rest = names;
    'names: while let [name, tail @ ..] = rest {
        made.push(local_init(alloc, name, n)?)?;
        rest = tail;
    }
    Ok(made)
}

fn for_start(alloc: Global, start: &TForStart, n: &Numbering) -> Result<TForStart, Memory>
    ensures { IfOk result (λ made. made ≡ spec.numbered_start n.now start.now) }
{
    match start {
        TForStart::Declares { names } => Ok(TForStart::Declares {
            names: local_inits(alloc, names.as_slice(), n)?,
        }),
        TForStart::Evaluates { value } => Ok(TForStart::Evaluates {
            value: maybe_expr(alloc, value, n)?,
        }),
    }
}

#[cycle(numbered_stmt)]
fn boxed(alloc: Global, stmt: &Boxed<TStmt>, n: &Numbering) -> Result<Boxed<TStmt>, Memory>
    ensures { IfOk result (λ made. made ≡ spec.numbered_stmt n.now stmt.now) }
{
    let made = numbered_stmt(alloc, stmt.get(), n)?;
    Ok(Boxed::new(alloc, made)?)
}

#[cycle(numbered_stmt)]
fn numbered_stmts(alloc: Global, stmts: &[TStmt], n: &Numbering) -> Result<Items<TStmt>, Memory>
    ensures { IfOk result (λ made. made ≡ map (spec.numbered_stmt n.now) stmts.now) }
{
    let mut made = Items::new(alloc);
    let mut rest = stmts;
    'stmts: while let [stmt, tail @ ..] = rest {
        made.push(numbered_stmt(alloc, stmt, n)?)?;
        rest = tail;
    }
    Ok(made)
}

/// The statement, with the numbers that names, types and string literals have in the program.
#[cycle(numbered_stmt)]
#[tactic(auto, using(crate::proofs::Numbered::numbered_stmts, pa_typed::proofs::Views::typed_stmt_views))]
pub(crate) fn numbered_stmt(alloc: Global, stmt: &TStmt, n: &Numbering) -> Result<TStmt, Memory>
    ensures { IfOk result (λ made. made ≡ spec.numbered_stmt n.now stmt.now) }
{
    match stmt {
        TStmt::Compound { items } => Ok(TStmt::Compound {
            items: numbered_stmts(alloc, items.as_slice(), n)?,
        }),
        TStmt::InitLocal { name } => Ok(TStmt::InitLocal {
            name: local_init(alloc, name, n)?,
        }),
        TStmt::Expression { value } => Ok(TStmt::Expression {
            value: maybe_expr(alloc, value, n)?,
        }),
        TStmt::If { test, body } => Ok(TStmt::If {
            test: numbered_expr(alloc, test, n)?,
            body: boxed(alloc, body, n)?,
        }),
        TStmt::IfElse {
            test,
            when_true,
            when_false,
        } => Ok(TStmt::IfElse {
            test: numbered_expr(alloc, test, n)?,
            when_true: boxed(alloc, when_true, n)?,
            when_false: boxed(alloc, when_false, n)?,
        }),
        TStmt::While { test, body } => Ok(TStmt::While {
            test: numbered_expr(alloc, test, n)?,
            body: boxed(alloc, body, n)?,
        }),
        TStmt::DoWhile { body, test } => Ok(TStmt::DoWhile {
            body: boxed(alloc, body, n)?,
            test: numbered_expr(alloc, test, n)?,
        }),
        TStmt::For {
            start,
            test,
            step,
            body,
        } => Ok(TStmt::For {
            start: for_start(alloc, start, n)?,
            test: maybe_expr(alloc, test, n)?,
            step: maybe_expr(alloc, step, n)?,
            body: boxed(alloc, body, n)?,
        }),
        TStmt::Switch { value, body } => Ok(TStmt::Switch {
            value: numbered_expr(alloc, value, n)?,
            body: boxed(alloc, body, n)?,
        }),
        TStmt::Case { value, of, body } => Ok(TStmt::Case {
            value: *value,
            of: n.expr_type(*of),
            body: boxed(alloc, body, n)?,
        }),
        TStmt::Default { body } => Ok(TStmt::Default {
            body: boxed(alloc, body, n)?,
        }),
        TStmt::Break => Ok(TStmt::Break),
        TStmt::Continue => Ok(TStmt::Continue),
        TStmt::Return { value } => Ok(TStmt::Return {
            value: maybe_expr(alloc, value, n)?,
        }),
    }
}
