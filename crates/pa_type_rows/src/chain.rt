//! `typedef first (*second)(first); typedef second (*third)(second); ..`: written out, each type is twice the one before.
ghost use Rattle.std.specs.Prelude.{◌<◌, ◌≤◌, length, IfOk};

use crate::samples::SCHEMA;
use pa_ctype::{Layout, Node, Qualifier, Types};
use pa_num::Memory;
use std::test::Fail;

/// A line of the chain: a pointer to a function from the type before to itself.
fn line(types: &mut Types, before: u32, qualifier: Option<Qualifier>) -> Result<u32, Memory>
    requires { before < length types.old.nodes }
    ensures known { IfOk result (λ n. n < length types.new.nodes) }
    ensures longer { length types.old.nodes ≤ length types.new.nodes }
{
    let to = types.function(&[before], before)?;
    types.put(Node::Pointer { to, qualifier })
}

/// The type of the last of so many lines, where each pointer has that qualifier.
fn chain(types: &mut Types, lines: u32, qualifier: Option<Qualifier>) -> Result<u32, Memory>
    ensures known { IfOk result (λ n. n < length types.new.nodes) }
    ensures longer { length types.old.nodes ≤ length types.new.nodes }
{
    let mut number = types.put(Node::Int {
        bits: 32,
        signed: true,
    })?;
    let mut left = lines;
    'lines: while left > 0 {
        number = line(types, number, qualifier)?;
        left -= 1;
    }
    Ok(number)
}

/// The types of two chains: how many types there are with each, and whether they are the same, and but for qualifiers.
fn compared(
    types: &mut Types,
    a: Option<Qualifier>,
    b: Option<Qualifier>,
) -> Result<(usize, usize, bool, bool), Memory> {
    let first = chain(types, 99, a)?;
    let before = types.len();
    let second = chain(types, 99, b)?;
    Ok((
        before,
        types.len(),
        types.is_same(first, second),
        types.is_same_bare(first, second),
    ))
}

/// The depth and the layout of the chain's last type.
fn measured(types: &mut Types) -> Result<(u32, Option<Layout>), Memory> {
    let last = chain(types, 99, None)?;
    Ok((types.depth(last), types.layout_of(last)))
}

#[test]
fn a_chain_has_three_types_a_line(rt: HostRuntime) -> Result<(), Fail> {
    let mut types = Types::new(rt.alloc(), 0);
    let got = compared(&mut types, None, None).map_err(|_| "no memory")?;
    assert_eq!(rt; got, (298, 298, true, true));
    let got = measured(&mut types).map_err(|_| "no memory")?;
    assert_eq!(rt; got, (198, Some(Layout { size: 8, align: 8 })));
    Ok(())
}

#[test]
fn a_chain_is_bare_as_another(rt: HostRuntime) -> Result<(), Fail> {
    let mut types = Types::new(rt.alloc(), 0);
    let qualifier = Some(Qualifier::new(SCHEMA));
    let got = compared(&mut types, qualifier, None).map_err(|_| "no memory")?;
    assert_eq!(rt; got, (593, 593, false, true));
    Ok(())
}
