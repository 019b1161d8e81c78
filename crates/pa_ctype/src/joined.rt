//! The types and structs of one table behind those of another.

ghost use Rattle.std.specs.Prelude.{◌≡◌, ◌<◌, ◌≤◌, ◌-◌, ◌^◌, ℕ, List, length, map, get_or, Some, None, IfOk, OnOk, IfSome};
ghost use Rattle.std.specs.Option.{option_map};
ghost use Rattle.indexmap.specs.IndexMap.{keys, values};
ghost use Rattle.pa_ctype.specs.declared.node.Node.TheVariants as variant;
ghost use Rattle.pa_ctype.specs.Nodes.{at, AllBelow, Below, IsTable, Grown};
ghost use Rattle.pa_ctype.specs.Bounds.{IsStructOf};
ghost use Rattle.pa_ctype.specs.Tables.{types_bound, names_bound};
ghost use Rattle.pa_ctype.specs.Kept as kept;
ghost use Rattle.pa_ctype.specs.Joined as spec;

use crate::ctype::{Held, Members};
use crate::node::Node;
use crate::nodes::{Nodes, node_at, put, reserve};
use crate::structs::{LaidBody, body_of, laid_body};
use pa_num::{Memory, Sequence};
use sqlite_items::Items;
use std::alloc::{AllocError, Global};

/// A node of another table, whose types have these numbers here and whose structs come behind so many.
fn raised_node(node: Node, numbers: &[u32], structs: u32) -> Node
    requires below { Below (length numbers.now) node }
    requires id { IsStructOf (2 ^ 32 - structs) node }
    ensures { result ≡ spec.raised_node structs numbers.now node }
{
    match node {
        Node::Void | Node::Bool | Node::Int { .. } => node,
        Node::Pointer { to, qualifier } => Node::Pointer {
            to: numbers[to as usize],
            qualifier,
        },
        Node::Array { of, count } => Node::Array {
            of: numbers[of as usize],
            count,
        },
        Node::Struct { id } => Node::Struct { id: structs + id },
        Node::Returns { of } => Node::Returns {
            of: numbers[of as usize],
        },
        Node::Takes { param, rest } => Node::Takes {
            param: numbers[param as usize],
            rest: numbers[rest as usize],
        },
        Node::Constant { of } => Node::Constant {
            of: numbers[of as usize],
        },
    }
}

/// Puts the types of another table in, whose structs come behind so many: the numbers that they have here.
pub(crate) fn put_raised(
    alloc: Global,
    nodes: &mut Nodes,
    others: &Nodes,
    structs: u32,
) -> Result<Sequence<u32>, Memory>
    requires table { IsTable (keys nodes.old) (values nodes.old) }
    requires other { IsTable (keys others.now) (values others.now) }
    requires ids { (i : ℕ) → i < length (keys others.now) → IsStructOf (2 ^ 32 - structs) (get_or (keys others.now) i variant.Void) }
    ensures table { OnOk result (IsTable (keys nodes.new) (values nodes.new)) }
    ensures grown { OnOk result (Grown (keys nodes.old) (keys nodes.new)) }
    ensures each { OnOk result (spec.InheritsRaised structs (keys nodes.old) (keys others.now) (keys nodes.new)) }
    ensures count { IfOk result (λ numbers. length numbers ≡ length (keys others.now)) }
    ensures known { IfOk result (λ numbers. AllBelow (length (keys nodes.new)) numbers) }
    ensures is { IfOk result (λ numbers. spec.AreRaised structs numbers (at (keys others.now)) (at (keys nodes.new))) }
{
    reserve(nodes, 2 * others.len() as u64)?;
    let mut numbers = Sequence::new(alloc);
    let mut index = 0;
    'others: while index < others.len() {
        let node = raised_node(node_at(others, index as u32), numbers.as_slice(), structs);
        numbers.push(put(nodes, node))?;
        index += 1;
    }
    Ok(numbers)
}

/// Members whose names have these numbers.
fn renamed(alloc: Global, members: &[Held], names: &[u32]) -> Result<Members, Memory>
    requires { names_bound members.now ≤ length names.now }
    ensures { IfOk result (λ made. made ≡ map (spec.with_name names.now) members.now) }
{
    let mut made = Members::new(alloc);
    let mut rest = members;
    'members: while let [held, tail @ ..] = rest {
        made.push(Held {
            name: names[held.name as usize],
            of: held.of,
        })?;
        rest = tail;
    }
    Ok(made)
}

/// Members whose types have these numbers.
fn retyped(alloc: Global, members: &[Held], numbers: &[u32]) -> Result<Members, Memory>
    requires { types_bound members.now ≤ length numbers.now }
    ensures { IfOk result (λ made. made ≡ map (spec.with_type numbers.now) members.now) }
{
    let mut made = Members::new(alloc);
    let mut rest = members;
    'members: while let [held, tail @ ..] = rest {
        made.push(Held {
            name: held.name,
            of: numbers[held.of as usize],
        })?;
        rest = tail;
    }
    Ok(made)
}

/// The body of a struct of another table, whose types and names have these numbers here. None: it has no body.
fn raised_body(
    alloc: Global,
    nodes: &Nodes,
    bodies: &[Option<LaidBody>],
    id: u32,
    numbers: &[u32],
    names: &[u32],
) -> Result<Option<LaidBody>, Memory>
    requires table { IsTable (keys nodes.now) (values nodes.now) }
    requires fine { kept.AreFine (kept.kept_layout bodies.now) }
    requires known { kept.AreKnown bodies.now (length (keys nodes.now)) (length names.now) }
    requires count { length numbers.now ≡ length (keys nodes.now) }
    ensures members { IfOk result (λ made. kept.members_in made ≡ option_map (spec.renumbered numbers.now names.now) (kept.members_in (kept.kept_body bodies.now id))) }
    ensures raised { IfOk result (λ made. IfSome made (λ body. kept.IsRaisedBody (keys nodes.now) bodies.now numbers.now names.now body)) }
{
    let Some(body) = body_of(bodies, id) else {
        return Ok(None);
    };
    let named = renamed(alloc, body.members.as_slice(), names)?;
    let laid = laid_body(alloc, nodes, bodies, named)?;
    Ok(Some(LaidBody {
        members: retyped(alloc, laid.members.as_slice(), numbers)?,
        layout: laid.layout,
        places: laid.places,
    }))
}

/// The bodies of the structs of another table in order, whose types and names have these numbers here.
pub(crate) fn raised_bodies(
    alloc: Global,
    nodes: &Nodes,
    bodies: &[Option<LaidBody>],
    numbers: &[u32],
    names: &[u32],
) -> Result<Items<Option<LaidBody>>, Memory>
    requires table { IsTable (keys nodes.now) (values nodes.now) }
    requires fine { kept.AreFine (kept.kept_layout bodies.now) }
    requires known { kept.AreKnown bodies.now (length (keys nodes.now)) (length names.now) }
    requires count { length numbers.now ≡ length (keys nodes.now) }
    requires few { length bodies.now ≤ 2 ^ 32 }
    ensures members { IfOk result (λ made. kept.members_of made ≡ map (option_map (spec.renumbered numbers.now names.now)) (kept.members_of bodies.now)) }
    ensures raised { IfOk result (λ made. kept.AreRaisedBodies (keys nodes.now) bodies.now numbers.now names.now made) }
{
    let mut made = Items::new(alloc);
    let mut id = 0;
    'bodies: while id < bodies.len() {
        made.push(raised_body(alloc, nodes, bodies, id as u32, numbers, names)?)?;
        id += 1;
    }
    Ok(made)
}
