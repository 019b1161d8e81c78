//! Files as short texts.

ghost use Rattle.std.specs.Prelude.{◌≤◌, length};

use crate::tree_outline::write_fault;
use pa_lex::lex;
use pa_pdecl::parse;
use pa_tree::{BlockItem, Expr, File, FileItem, Stmt};
use std::alloc::{AllocError, Global};
use std::fmt::Write;

/// Which alternative the statement is.
fn statement_kind(statement: &Stmt) -> &'static str {
    match statement {
        Stmt::Compound { .. } => "block",
        Stmt::Expression { value: None, .. } => "nothing",
        Stmt::Expression { .. } => "value",
        Stmt::If { .. } => "if",
        Stmt::IfElse { .. } => "if else",
        Stmt::While { .. } => "while",
        Stmt::DoWhile { .. } => "do",
        Stmt::For { .. } => "for",
        Stmt::Switch { .. } => "switch",
        Stmt::Case { .. } => "case",
        Stmt::Default { .. } => "default",
        Stmt::Break { .. } => "break",
        Stmt::Continue { .. } => "continue",
        Stmt::Return { .. } => "return",
    }
}

/// The body of a file's last function.
fn last_body(file: &File) -> Option<&Stmt> {
    let last = file.items.len().checked_sub(1)?;
    match file.items.get(last)? {
        FileItem::Defined { definition, .. } => Some(&definition.body),
        _ => None,
    }
}

/// The items of a block.
fn write_items(text: &mut String, body: &Stmt) -> Result<(), AllocError> {
    let Stmt::Compound { items, .. } = body else {
        return write!(text, "no block");
    };
    for at in 0..items.len() {
        match items.get(at) {
            Some(BlockItem::DeclarationItem { .. }) => write!(text, "names;")?,
            Some(BlockItem::StatementItem { statement, .. }) => {
                write!(text, "{};", statement_kind(statement.get()))?
            }
            None => {}
        }
    }
    Ok(())
}

/// Which alternative the expression is.
fn write_kind(text: &mut String, value: &Expr) -> Result<(), AllocError> {
    match value {
        Expr::Identifier { .. } => write!(text, "name"),
        Expr::Paren { .. } => write!(text, "paren"),
        Expr::Cast { .. } => write!(text, "cast"),
        Expr::Call { .. } => write!(text, "call"),
        Expr::SizeofType { .. } => write!(text, "sizeof type"),
        Expr::SizeofExpr { .. } => write!(text, "sizeof"),
        Expr::Binary { op, .. } => write!(text, "{op:?}"),
        _ => write!(text, "other"),
    }
}

/// What the first statement of a block gives.
fn first_given(body: &Stmt) -> Option<&Expr> {
    let Stmt::Compound { items, .. } = body else {
        return None;
    };
    let BlockItem::StatementItem { statement, .. } = items.get(0)? else {
        return None;
    };
    match statement.get() {
        Stmt::Return { value, .. } => value.as_ref(),
        _ => None,
    }
}

/// What is told of a file.
#[derive(Clone, Copy)]
pub enum Told {
    /// The number of its items.
    Count,
    /// The items of its last function's body.
    Items,
    /// Which alternative the first statement of that body gives.
    Given,
}

/// What is asked of a file.
fn write_file(text: &mut String, file: &File, told: Told) -> Result<(), AllocError> {
    match (told, last_body(file)) {
        (Told::Count, _) => write!(text, "{}", file.items.len()),
        (_, None) => write!(text, "no body"),
        (Told::Items, Some(body)) => write_items(text, body),
        (Told::Given, Some(body)) => match first_given(body) {
            Some(value) => write_kind(text, value),
            None => write!(text, "nothing"),
        },
    }
}

/// What is asked of the file that the bytes are, or the rule that they break with its place.
pub fn outline(alloc: Global, bytes: &[u8], told: Told) -> Result<String, AllocError>
    requires { length bytes.now ≤ 4294967295 }
{
    let mut text = String::new(alloc);
    let Ok(lexed) = lex(alloc, bytes) else {
        write!(text, "no tokens")?;
        return Ok(text);
    };
    match parse(alloc, lexed.tokens.as_slice()) {
        Ok(file) => write_file(&mut text, &file, told)?,
        Err(fault) => write_fault(&mut text, fault)?,
    }
    Ok(text)
}
