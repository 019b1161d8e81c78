//! Layouts of types and structs by what is kept of them.

ghost use Rattle.std.specs.Prelude.{◌≡◌, ◌≤◌, ◌<◌, ◌==◌, if◌then◌else◌, ℕ, length, Some, None, IfOk, OnOk, IfSome, nat_eq};
ghost use Rattle.std.specs.Option.{option_copied, option_and_then};
ghost use Rattle.indexmap.specs.IndexMap.{keys, values, get};
ghost use Rattle.pa_ctype.specs.Kept as kept;
ghost use Rattle.pa_ctype.specs.Nodes.{IsTable, at};
ghost use Rattle.pa_ctype.specs.Tables.{types_bound};
ghost use Rattle.pa_ctype.specs.Layouts as spec;

use crate::ctype::{Held, Layout, Member, Members};
use crate::layouts::{MOST_BYTES, padded, placed, times};
use crate::node::Extent;
use crate::nodes::{Nodes, facts_at};
use indexmap::IndexMap;
use pa_num::Memory;
use std::alloc::Global;

/// Places of members by the numbers of their names.
pub(crate) type Places = IndexMap<u32, Member>;

/// The body of a struct, with the layout of the struct, None where it has none, and where it has one the places of members.
#[derive(Drop)]
pub(crate) struct LaidBody {
    pub(crate) members: Members,
    pub(crate) layout: Option<Layout>,
    pub(crate) places: Places,
}

/// The body of a struct. None: it has none, or there is no struct of this id.
pub(crate) fn body_of(bodies: &[Option<LaidBody>], id: u32) -> Option<&LaidBody>
    ensures { option_copied result ≡ kept.kept_body bodies.now id }
{
    bodies.get(id as usize)?.as_ref()
}

/// The layout that is kept for a struct. None: it has none, or there is no struct of this id.
fn kept_layout(bodies: &[Option<LaidBody>], id: u32) -> Option<Layout>
    ensures { result ≡ kept.kept_layout bodies.now id }
{
    body_of(bodies, id)?.layout
}

/// The layout of an object of that extent.
fn layout_at(bodies: &[Option<LaidBody>], extent: Extent) -> Option<Layout>
    ensures { result ≡ kept.layout_at (kept.kept_layout bodies.now) extent }
{
    match extent {
        Extent::Nowhere => None,
        Extent::Fixed { layout } => Some(layout),
        Extent::Structs { id, count } => times(count, kept_layout(bodies, id)?),
    }
}

/// The layout of a type. None: it isn't complete, or too large.
#[tactic(auto, using(crate::proofs::Extents::extent_layout))]
pub(crate) fn type_layout(nodes: &Nodes, bodies: &[Option<LaidBody>], number: u32) -> Option<Layout>
    requires table { IsTable (keys nodes.now) (values nodes.now) }
    requires known { number < length (keys nodes.now) }
    requires fine { kept.AreFine (kept.kept_layout bodies.now) }
    ensures { result ≡ spec.layout_by (kept.kept_layout bodies.now) (at (keys nodes.now) number) }
{
    layout_at(bodies, facts_at(nodes, number).extent)
}

/// These members one behind the other, with padding at the end. None: one has no layout, or they have too many bytes.
#[tactic(auto, using(crate::proofs::Laying::too_large), unfolding(crate::specs::Layouts::members_from))]
fn laid_members(nodes: &Nodes, bodies: &[Option<LaidBody>], members: &[Held]) -> Option<Layout>
    requires table { IsTable (keys nodes.now) (values nodes.now) }
    requires known { types_bound members.now ≤ length (keys nodes.now) }
    requires fine { kept.AreFine (kept.kept_layout bodies.now) }
    ensures { result ≡ option_and_then spec.padded (spec.members_from (spec.layout_by (kept.kept_layout bodies.now)) spec.empty (kept.unnamed (at (keys nodes.now)) members.now)) }
{
    let mut so_far = Layout { size: 0, align: 1 };
    let mut rest = members;
    'members: while let [held, tail @ ..] = rest {
        let layout = type_layout(nodes, bodies, held.of)?;
        so_far = placed(so_far, layout);
        if so_far.size > MOST_BYTES {
            return None;
        }
        rest = tail;
    }
    padded(so_far)
}

/// The layout of a struct of these members. None: it has no member, a member's type isn't complete, or it has too many bytes.
pub(crate) fn struct_layout(
    nodes: &Nodes,
    bodies: &[Option<LaidBody>],
    members: &[Held],
) -> Option<Layout>
    requires table { IsTable (keys nodes.now) (values nodes.now) }
    requires known { types_bound members.now ≤ length (keys nodes.now) }
    requires fine { kept.AreFine (kept.kept_layout bodies.now) }
    ensures { result ≡ spec.struct_layout (spec.layout_by (kept.kept_layout bodies.now)) (kept.unnamed (at (keys nodes.now)) members.now) }
{
    match members {
        [] => None,
        [_, ..] => laid_members(nodes, bodies, members),
    }
}

/// The places of members by their names, the first of each name.
fn places(
    alloc: Global,
    nodes: &Nodes,
    bodies: &[Option<LaidBody>],
    members: &[Held],
) -> Result<Places, Memory>
    requires table { IsTable (keys nodes.now) (values nodes.now) }
    requires known { types_bound members.now ≤ length (keys nodes.now) }
    requires fine { kept.AreFine (kept.kept_layout bodies.now) }
    requires few { kept.EndsWithin (spec.layout_by (kept.kept_layout bodies.now)) spec.empty (kept.unnamed (at (keys nodes.now)) members.now) }
    ensures { IfOk result (λ found. (name : ℕ) → get nat_eq found name ≡ kept.place_from (kept.lay (at (keys nodes.now)) bodies.now) name spec.empty 0 members.now) }
{
    let mut found = IndexMap::new(alloc);
    let mut so_far = Layout { size: 0, align: 1 };
    let mut index = 0;
    let mut rest = members;
    'members: while let [held, tail @ ..] = rest {
        let Some(layout) = type_layout(nodes, bodies, held.of) else {
            return Ok(found);
        };
        let place = Member {
            offset: so_far.size.next_multiple_of(layout.align),
            index,
        };
        note(&mut found, held.name, place)?;
        so_far = placed(so_far, layout);
        index += 1;
        rest = tail;
    }
    Ok(found)
}

/// Notes the place of a member, where no earlier one has its name.
fn note(found: &mut Places, name: u32, place: Member) -> Result<(), Memory>
    ensures { OnOk result ((other : ℕ) → get nat_eq found.new other ≡ kept.or_else (get nat_eq found.old other) (if name == other then Some place else None)) }
{
    if found.get(&name).is_none() {
        if found.insert(name, place).is_err() {
            return Err(Memory);
        }
    }
    Ok(())
}

/// The body of a struct of these members.
pub(crate) fn laid_body(
    alloc: Global,
    nodes: &Nodes,
    bodies: &[Option<LaidBody>],
    members: Members,
) -> Result<LaidBody, Memory>
    requires table { IsTable (keys nodes.now) (values nodes.now) }
    requires known { types_bound members ≤ length (keys nodes.now) }
    requires fine { kept.AreFine (kept.kept_layout bodies.now) }
    ensures members { IfOk result (λ body. body.members ≡ members) }
    ensures layout { IfOk result (λ body. body.layout ≡ spec.struct_layout (spec.layout_by (kept.kept_layout bodies.now)) (kept.unnamed (at (keys nodes.now)) members)) }
    ensures places { IfOk result (λ body. IfSome body.layout (λ l. (name : ℕ) → get nat_eq body.places name ≡ kept.place_from (kept.lay (at (keys nodes.now)) bodies.now) name spec.empty 0 members)) }
{
    let layout = struct_layout(nodes, bodies, members.as_slice());
    let places = match layout {
        Some(_) => places(alloc, nodes, bodies, members.as_slice())?,
        None => IndexMap::new(alloc),
    };
    Ok(LaidBody {
        members,
        layout,
        places,
    })
}
