//! Nodes of types by number: each stands once, behind its parts.

ghost use Rattle.std.specs.Prelude.{◌≡◌, ◌<◌, ◌≤◌, ◌+◌, ◌*◌, ◌^◌, ◌++◌, ◌∷◌, [], ℕ, length, map, get_or, slice_get, Some, None, IfNone, MatchOption, IfSome, IsTrue, true, false, OnOk};
ghost use Rattle.indexmap.specs.IndexMap.{keys, values, get, spare};
ghost use Rattle.pa_ctype.specs.Types.{TypeTree, Of, Function, trees_of, type_depth};
ghost use Rattle.pa_ctype.specs.Qualifiers.{bare, with_const};
ghost use Rattle.pa_ctype.specs.declared.node.Node.TheVariants as variant;
ghost use Rattle.pa_ctype.specs.Nodes as spec;

use crate::ctype::Layout;
use crate::layouts::{MOST_BYTES, aligned_to_size, integer_layout, times};
use crate::node::{Extent, Facts, Node};
use indexmap::IndexMap;
use pa_num::Memory;
use std::alloc::AllocError;

/// The most nodes of a table: a number has 32 bits.
const MOST_NODES: u64 = 4_294_967_296;

/// The nodes by their numbers, with what is kept of each.
pub(crate) type Nodes = IndexMap<Node, Facts>;

/// Where the node stands.
fn find(nodes: &Nodes, node: Node) -> Option<usize>
    ensures place { MatchOption result (spec.Lacks (keys nodes.now) node) (spec.Stands (keys nodes.now) node) }
    ensures absent { IfNone result (get ⟦<Node as PartialEq>⟧.eq nodes.now node ≡ None) }
{
    nodes.get_index_of(&node)
}

/// One more node, behind the others.
fn add(nodes: &mut Nodes, node: Node, facts: Facts)
    requires absent { get ⟦<Node as PartialEq>⟧.eq nodes.old node ≡ None }
    requires room { 1 ≤ spare nodes.old }
    ensures keys { keys nodes.new ≡ keys nodes.old ++ node ∷ [] }
    ensures values { values nodes.new ≡ values nodes.old ++ facts ∷ [] }
    ensures room { spare nodes.old ≤ spare nodes.new + 1 }
{
    match nodes.insert(node, facts) {
        Ok(_) => (),
        Err(_) => unreachable!(),
    }
}

/// The node of a number.
pub(crate) fn node_at(nodes: &Nodes, number: u32) -> Node
    requires { number < length (keys nodes.now) }
    ensures { result ≡ get_or (keys nodes.now) number variant.Void }
{
    match nodes.get_index(number as usize) {
        Some((node, _)) => *node,
        None => unreachable!(),
    }
}

/// What is kept of the type of a number.
pub(crate) fn facts_at(nodes: &Nodes, number: u32) -> Facts
    requires known { number < length (keys nodes.now) }
    requires table { spec.IsTable (keys nodes.now) (values nodes.now) }
    ensures { spec.AreFacts (keys nodes.now) number result }
{
    match nodes.get_index(number as usize) {
        Some((_, facts)) => *facts,
        None => unreachable!(),
    }
}

/// The extent of an object of that layout, where it is small enough.
fn fixed(layout: Option<Layout>) -> Extent
    ensures { result ≡ spec.fixed layout }
{
    match layout {
        Some(layout) => Extent::Fixed { layout },
        None => Extent::Nowhere,
    }
}

/// So many elements side by side.
fn many(count: u64, of: Extent) -> Extent
    ensures { result ≡ spec.many count of }
{
    match of {
        Extent::Nowhere => Extent::Nowhere,
        Extent::Fixed { layout } => fixed(times(count, layout)),
        Extent::Structs { id, count: inner } => match count.checked_mul(inner) {
            Some(all) if count != 0 && all <= MOST_BYTES => Extent::Structs { id, count: all },
            _ => Extent::Nowhere,
        },
    }
}

/// How large objects of the type of a node are.
#[tactic(auto, using(crate::proofs::KindLaws::taking_extent, crate::proofs::KindLaws::constant_extent), unfolding(crate::specs::Nodes::extent_of))]
fn extent(nodes: &Nodes, node: Node) -> Extent
    requires table { spec.IsTable (keys nodes.now) (values nodes.now) }
    requires below { spec.Below (length (keys nodes.now)) node }
    requires proper { spec.IsProper (spec.at (keys nodes.now)) node }
    ensures { result ≡ spec.extent_of (spec.tree (spec.at (keys nodes.now)) node) }
{
    match node {
        Node::Void | Node::Returns { .. } | Node::Takes { .. } | Node::Array { count: None, .. } =>
            Extent::Nowhere,
        Node::Bool => Extent::Fixed {
            layout: aligned_to_size(1),
        },
        Node::Int { bits, .. } => fixed(integer_layout(bits)),
        Node::Pointer { .. } => Extent::Fixed {
            layout: aligned_to_size(8),
        },
        Node::Array {
            of,
            count: Some(count),
        } => many(count, facts_at(nodes, of).extent),
        Node::Struct { id } => Extent::Structs { id, count: 1 },
        Node::Constant { of } => facts_at(nodes, of).extent,
    }
}

/// How many pointers, arrays and functions are in one another in the type of a node.
#[tactic(auto, using(crate::proofs::KindLaws::taking_depth, crate::proofs::KindLaws::constant_depth), unfolding(crate::specs::Types::type_depth))]
fn depth(nodes: &Nodes, node: Node) -> u32
    requires table { spec.IsTable (keys nodes.now) (values nodes.now) }
    requires few { length (keys nodes.now) < 2 ^ 32 }
    requires below { spec.Below (length (keys nodes.now)) node }
    requires proper { spec.IsProper (spec.at (keys nodes.now)) node }
    ensures depth { result ≡ type_depth (spec.tree (spec.at (keys nodes.now)) node) }
    ensures shallow { result ≤ length (keys nodes.now) }
{
    match node {
        Node::Void | Node::Bool | Node::Int { .. } | Node::Struct { .. } => 0,
        Node::Pointer { to: of, .. } | Node::Array { of, .. } | Node::Returns { of } => {
            facts_at(nodes, of).depth + 1
        }
        Node::Takes { param, rest } => {
            let first = facts_at(nodes, param).depth + 1;
            first.max(facts_at(nodes, rest).depth)
        }
        Node::Constant { of } => facts_at(nodes, of).depth,
    }
}

/// The node of the type without qualifiers at any level.
#[tactic(auto, using(crate::proofs::KindLaws::taking_bare, crate::proofs::KindLaws::bare_function, crate::proofs::KindLaws::constant_bare), unfolding(crate::specs::Qualifiers::bare))]
fn bare_node(nodes: &Nodes, node: Node) -> Node
    requires table { spec.IsTable (keys nodes.now) (values nodes.now) }
    requires below { spec.Below (length (keys nodes.now)) node }
    requires proper { spec.IsProper (spec.at (keys nodes.now)) node }
    ensures is { spec.tree (spec.at (keys nodes.now)) result ≡ bare (spec.tree (spec.at (keys nodes.now)) node) }
    ensures below { spec.Below (length (keys nodes.now)) result }
    ensures proper { spec.IsProper (spec.at (keys nodes.now)) result }
{
    match node {
        Node::Void | Node::Bool | Node::Int { .. } | Node::Struct { .. } => node,
        Node::Pointer { to, .. } => Node::Pointer {
            to: facts_at(nodes, to).bare,
            qualifier: None,
        },
        Node::Array { of, count } => Node::Array {
            of: facts_at(nodes, of).bare,
            count,
        },
        Node::Returns { of } => Node::Returns {
            of: facts_at(nodes, of).bare,
        },
        Node::Takes { param, rest } => Node::Takes {
            param: facts_at(nodes, param).bare,
            rest: facts_at(nodes, rest).bare,
        },
        Node::Constant { of } => node_at(nodes, facts_at(nodes, of).bare),
    }
}

/// The number of a node, which comes behind the others where it isn't among them. `bare` is the number of its type without
/// qualifiers, None where that is the type itself.
fn put_with(nodes: &mut Nodes, node: Node, bare: Option<u32>) -> u32
    requires table { spec.IsTable (keys nodes.old) (values nodes.old) }
    requires few { length (keys nodes.old) < 2 ^ 32 }
    requires room { 1 ≤ spare nodes.old }
    requires below { spec.Below (length (keys nodes.old)) node }
    requires proper { spec.IsProper (spec.at (keys nodes.old)) node }
    requires bare { spec.IsBareOf (keys nodes.old) node bare }
    ensures table { spec.IsTable (keys nodes.new) (values nodes.new) }
    ensures known { result < length (keys nodes.new) }
    ensures is { spec.at (keys nodes.new) result ≡ spec.tree (spec.at (keys nodes.old)) node }
    ensures grown { spec.Grown (keys nodes.old) (keys nodes.new) }
    ensures each { spec.InheritsWith (spec.tree (spec.at (keys nodes.old)) node) (keys nodes.old) (keys nodes.new) }
    ensures one { length (keys nodes.new) ≤ length (keys nodes.old) + 1 }
    ensures room { spare nodes.old ≤ spare nodes.new + 1 }
{
    if let Some(found) = find(nodes, node) {
        return found as u32;
    }
    let number = nodes.len() as u32;
    let facts = Facts {
        depth: depth(nodes, node),
        bare: bare.unwrap_or(number),
        extent: extent(nodes, node),
    };
    add(nodes, node, facts);
    number
}

/// The number of a node, which comes behind the others where it isn't among them, as does that without qualifiers.
pub(crate) fn put(nodes: &mut Nodes, node: Node) -> u32
    requires table { spec.IsTable (keys nodes.old) (values nodes.old) }
    requires few { length (keys nodes.old) + 2 ≤ 2 ^ 32 }
    requires room { 2 ≤ spare nodes.old }
    requires below { spec.Below (length (keys nodes.old)) node }
    requires proper { spec.IsProper (spec.at (keys nodes.old)) node }
    ensures table { spec.IsTable (keys nodes.new) (values nodes.new) }
    ensures known { result < length (keys nodes.new) }
    ensures is { spec.at (keys nodes.new) result ≡ spec.tree (spec.at (keys nodes.old)) node }
    ensures grown { spec.Grown (keys nodes.old) (keys nodes.new) }
    ensures each { spec.InheritsWith (spec.tree (spec.at (keys nodes.old)) node) (keys nodes.old) (keys nodes.new) }
    ensures two { length (keys nodes.new) ≤ length (keys nodes.old) + 2 }
    ensures room { spare nodes.old ≤ spare nodes.new + 2 }
{
    let plain = bare_node(nodes, node);
    if plain == node {
        return put_with(nodes, node, None);
    }
    let bare = put_with(nodes, plain, None);
    put_with(nodes, node, Some(bare))
}

/// The number of a type with `const`: that of an array is on its elements (C11 6.7.3p9), and a function has none.
pub(crate) fn put_constant(nodes: &mut Nodes, number: u32) -> u32
    requires table { spec.IsTable (keys nodes.old) (values nodes.old) }
    requires known { number < length (keys nodes.old) }
    requires few { length (keys nodes.old) + (2 * type_depth (spec.at (keys nodes.old) number) + 2) ≤ 2 ^ 32 }
    requires room { 2 * type_depth (spec.at (keys nodes.old) number) + 2 ≤ spare nodes.old }
    ensures table { spec.IsTable (keys nodes.new) (values nodes.new) }
    ensures known { result < length (keys nodes.new) }
    ensures is { spec.at (keys nodes.new) result ≡ with_const true (spec.at (keys nodes.old) number) }
    ensures grown { spec.Grown (keys nodes.old) (keys nodes.new) }
    ensures each { spec.Inherits (keys nodes.old) (keys nodes.new) }
    ensures some { length (keys nodes.new) ≤ length (keys nodes.old) + (2 * type_depth (spec.at (keys nodes.old) number) + 2) }
    ensures room { spare nodes.old ≤ spare nodes.new + (2 * type_depth (spec.at (keys nodes.old) number) + 2) }
{
    match node_at(nodes, number) {
        Node::Constant { .. } | Node::Returns { .. } | Node::Takes { .. } => number,
        Node::Array { of, count } => {
            let of = put_constant(nodes, of);
            put(nodes, Node::Array { of, count })
        }
        Node::Void | Node::Bool | Node::Int { .. } | Node::Pointer { .. } | Node::Struct { .. } => {
            put(nodes, Node::Constant { of: number })
        }
    }
}

/// The number of a function of these parameters.
pub(crate) fn put_function(nodes: &mut Nodes, params: &[u32], result_type: u32) -> u32
    requires table { spec.IsTable (keys nodes.old) (values nodes.old) }
    requires params { spec.AllBelow (length (keys nodes.old)) params.now }
    requires result { result_type < length (keys nodes.old) }
    requires few { length (keys nodes.old) + (2 * length params.now + 2) ≤ 2 ^ 32 }
    requires room { 2 * length params.now + 2 ≤ spare nodes.old }
    ensures table { spec.IsTable (keys nodes.new) (values nodes.new) }
    ensures known { result < length (keys nodes.new) }
    ensures is { spec.at (keys nodes.new) result ≡ Of false (Function (trees_of (map (spec.at (keys nodes.old)) params.now)) (spec.at (keys nodes.old) result_type)) }
    ensures grown { spec.Grown (keys nodes.old) (keys nodes.new) }
    ensures each { spec.Inherits (keys nodes.old) (keys nodes.new) }
{
    let mut number = put(nodes, Node::Returns { of: result_type });
    let mut left = params.len();
    'params: while left > 0 {
        left -= 1;
        number = put(
            nodes,
            Node::Takes {
                param: params[left],
                rest: number,
            },
        );
    }
    number
}

/// Room for so many nodes more, of which a table has 4,294,967,296 at most.
pub(crate) fn reserve(nodes: &mut Nodes, count: u64) -> Result<(), Memory>
    ensures entries { nodes.new.entries ≡ nodes.old.entries }
    ensures few { OnOk result (length (keys nodes.new) + count ≤ 2 ^ 32) }
    ensures room { OnOk result (count ≤ spare nodes.new) }
{
    if count > MOST_NODES || nodes.len() as u64 > MOST_NODES - count {
        return Err(Memory);
    }
    nodes.reserve(count as usize)?;
    Ok(())
}
