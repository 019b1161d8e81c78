//! Trees and refusals as short texts.

use pa_grammar::SynRule;
use pa_num::Fault;
use pa_tree::{Base, Declarator, Expr, Parameters, Specs};
use std::alloc::AllocError;
use std::fmt::Write;

/// Where the tree begins and ends.
pub fn ends(tree: &Expr) -> (u32, u32) {
    match tree {
        Expr::Identifier { from, to, .. }
        | Expr::Integer { from, to, .. }
        | Expr::Character { from, to, .. }
        | Expr::Text { from, to, .. }
        | Expr::Paren { from, to, .. }
        | Expr::Index { from, to, .. }
        | Expr::Call { from, to, .. }
        | Expr::Dot { from, to, .. }
        | Expr::Arrow { from, to, .. }
        | Expr::Postfix { from, to, .. }
        | Expr::Prefix { from, to, .. }
        | Expr::SizeofExpr { from, to, .. }
        | Expr::SizeofType { from, to, .. }
        | Expr::Cast { from, to, .. }
        | Expr::Binary { from, to, .. }
        | Expr::Conditional { from, to, .. } => (*from, *to),
    }
}

/// Bytes as characters.
fn write_bytes(text: &mut String, bytes: &[u8]) -> Result<(), AllocError> {
    for byte in bytes {
        text.push(char::from(*byte))?;
    }
    Ok(())
}

/// The places of a part.
fn write_part(text: &mut String, part: &Expr) -> Result<(), AllocError> {
    let (from, to) = ends(part);
    write!(text, " {from}-{to}")
}

/// Which alternative the tree is, and the places of its parts.
pub fn write_tree(text: &mut String, tree: &Expr) -> Result<(), AllocError> {
    match tree {
        Expr::Identifier { .. } => write!(text, "name"),
        Expr::Integer { value, .. } => write!(text, "{value}"),
        Expr::Character { value, .. } => write!(text, "char {value}"),
        Expr::Text { bytes, .. } => {
            write!(text, "text ")?;
            write_bytes(text, bytes.as_slice())
        }
        Expr::Paren { inner, .. } => {
            write!(text, "paren")?;
            write_part(text, inner.get())
        }
        Expr::Index { of, at, .. } => {
            write!(text, "index")?;
            write_part(text, of.get())?;
            write_part(text, at.get())
        }
        Expr::Call { of, arguments, .. } => {
            write!(text, "call {}", arguments.len())?;
            write_part(text, of.get())
        }
        Expr::Dot { of, .. } => {
            write!(text, "dot")?;
            write_part(text, of.get())
        }
        Expr::Arrow { of, .. } => {
            write!(text, "arrow")?;
            write_part(text, of.get())
        }
        Expr::Postfix { op, of, .. } => {
            write!(text, "postfix {op:?}")?;
            write_part(text, of.get())
        }
        Expr::Prefix { op, of, .. } => {
            write!(text, "prefix {op:?}")?;
            write_part(text, of.get())
        }
        Expr::SizeofExpr { of, .. } => {
            write!(text, "sizeof")?;
            write_part(text, of.get())
        }
        Expr::SizeofType { of, .. } => write!(
            text,
            "sizeof type {}-{}",
            of.get().from,
            of.get().to
        ),
        Expr::Cast { of, .. } => {
            write!(text, "cast")?;
            write_part(text, of.get())
        }
        Expr::Binary {
            op,
            left,
            right,
            ..
        } => {
            write!(text, "{op:?}")?;
            write_part(text, left.get())?;
            write_part(text, right.get())
        }
        Expr::Conditional {
            test,
            when_true,
            when_false,
            ..
        } => {
            write!(text, "choice")?;
            write_part(text, test.get())?;
            write_part(text, when_true.get())?;
            write_part(text, when_false.get())
        }
    }
}

/// Where the declarator begins and ends.
pub fn declarator_ends(tree: &Declarator) -> (u32, u32) {
    match tree {
        Declarator::Named { from, to, .. }
        | Declarator::Absent { from, to }
        | Declarator::Pointer { from, to, .. }
        | Declarator::Grouped { from, to, .. }
        | Declarator::Array { from, to, .. }
        | Declarator::Function { from, to, .. } => (*from, *to),
    }
}

/// The places of a declarator in another.
fn write_inner(text: &mut String, inner: &Declarator) -> Result<(), AllocError> {
    let (from, to) = declarator_ends(inner);
    write!(text, " {from}-{to}")
}

/// How many parameters there are.
fn write_parameters(text: &mut String, parameters: &Parameters) -> Result<(), AllocError> {
    match parameters {
        Parameters::Empty { .. } => write!(text, "function 0"),
        Parameters::OnlyVoid { .. } => write!(text, "function void"),
        Parameters::Listed { parameters, .. } => write!(text, "function {}", parameters.len()),
    }
}

/// Which alternative the declarator is, and the places of its parts.
pub fn write_declarator(text: &mut String, tree: &Declarator) -> Result<(), AllocError> {
    match tree {
        Declarator::Named { .. } => write!(text, "name"),
        Declarator::Absent { .. } => write!(text, "none"),
        Declarator::Pointer { qualifiers, of, .. } => {
            write!(text, "pointer {}", qualifiers.len())?;
            write_inner(text, of.get())
        }
        Declarator::Grouped { inner, .. } => {
            write!(text, "group")?;
            write_inner(text, inner.get())
        }
        Declarator::Array { of, length, .. } => {
            write!(text, "array")?;
            write_inner(text, of.get())?;
            match length {
                Some(length) => write_part(text, length.get()),
                None => Ok(()),
            }
        }
        Declarator::Function { of, parameters, .. } => {
            write_parameters(text, parameters)?;
            write_inner(text, of.get())
        }
    }
}

/// Which type it is, and how many items its body has.
fn write_base(text: &mut String, base: &Base) -> Result<(), AllocError> {
    match base {
        Base::Void { .. } => write!(text, "void"),
        Base::Boolean { .. } => write!(text, "_Bool"),
        Base::Words { words, .. } => write!(text, "words {}", words.len()),
        Base::TypedefName { .. } => write!(text, "type name"),
        Base::StructTag { .. } => write!(text, "struct"),
        Base::StructBody { members, .. } => write!(text, "struct of {}", members.len()),
        Base::EnumTag { .. } => write!(text, "enum"),
        Base::EnumBody { enumerators, .. } => write!(text, "enum of {}", enumerators.len()),
    }
}

/// How many qualifiers stand on each side, and which type stands between them.
pub fn write_specs(text: &mut String, specs: &Specs) -> Result<(), AllocError> {
    write!(text, "{} ", specs.before.len())?;
    write_base(text, &specs.base)?;
    write!(text, " {}", specs.after.len())
}

/// The rule and its place.
pub fn write_fault(text: &mut String, fault: Fault<SynRule>) -> Result<(), AllocError> {
    match fault {
        Fault::Refused { rule, place } => write!(text, "{rule:?} {place}"),
        Fault::Memory => write!(text, "memory"),
    }
}
