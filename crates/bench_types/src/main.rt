//! Makes the types of a chain of typedefs a number of times, to be timed from outside: `bench_types LINES TIMES`. Each line is a
//! pointer to a function from the type before to itself, so written out a type is twice the one before. It prints how many types
//! there are, the bytes of the last one, and whether it is that of a second chain and differs from that of a shorter one.
#![tactic(auto)]

ghost use Rattle.std.specs.Prelude.{◌<◌, ◌≤◌, length, IfOk};

use pa_ctype::{Node, Types};
use pa_num::Memory;
use std::alloc::Global;
use std::{env, io};

/// A line of the chain: a pointer to a function from the type before to itself.
fn line(types: &mut Types, before: u32) -> Result<u32, Memory>
    requires { before < length types.old.nodes }
    ensures known { IfOk result (λ n. n < length types.new.nodes) }
    ensures longer { length types.old.nodes ≤ length types.new.nodes }
{
    let to = types.function(&[before], before)?;
    types.put(Node::Pointer {
        to,
        qualifier: None,
    })
}

/// The type of the last of so many lines.
fn chain(types: &mut Types, lines: u32) -> Result<u32, Memory>
    ensures known { IfOk result (λ n. n < length types.new.nodes) }
    ensures longer { length types.old.nodes ≤ length types.new.nodes }
{
    let mut number = types.put(Node::Int {
        bits: 32,
        signed: true,
    })?;
    let mut left = lines;
    'lines: while left > 0 {
        number = line(types, number)?;
        left -= 1;
    }
    Ok(number)
}

/// What is found of a chain: how many types there are, the bytes of the last, whether it is that of a second chain, and whether it
/// is that of a chain of one line less.
#[derive(Clone, Copy, Debug)]
struct Found {
    types: usize,
    bytes: u64,
    same: bool,
    shorter: bool,
}

fn measure(alloc: Global, lines: u32) -> Result<Found, Memory> {
    let mut types = Types::new(alloc, 0);
    let first = chain(&mut types, lines)?;
    let second = chain(&mut types, lines)?;
    let third = chain(&mut types, lines.saturating_sub(1))?;
    let bytes = match types.layout_of(first) {
        Some(layout) => layout.size,
        None => 0,
    };
    Ok(Found {
        types: types.len(),
        bytes,
        same: types.is_same(first, second),
        shorter: types.is_same(first, third),
    })
}

fn main(rt: HostRuntime) -> io::Result<()> {
    let words: Vec<String> = env::args(&rt)?.skip(1).collect(rt.alloc())?;
    let [lines, times] = words.as_slice() else {
        println!(rt; "usage: bench_types LINES TIMES")?;
        return Ok(());
    };
    let lines: u32 = lines.parse().unwrap_or(0);
    let times: u32 = times.parse().unwrap_or(0);
    for _ in 0..times {
        match measure(rt.alloc(), lines) {
            Ok(found) => println!(rt;
                "{} types, {} bytes, {}, {}",
                found.types, found.bytes, found.same, found.shorter
            )?,
            Err(Memory) => println!(rt; "memory")?,
        }
    }
    Ok(())
}
