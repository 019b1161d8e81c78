//! Assembles a made text a number of times, to be timed from outside: `bench_asm LABELS BITS TIMES`. The text has so many
//! labels, an instruction behind each, and every fourth instruction names a label. The hashes of the labels under std's
//! hasher of a fixed seed end in so many zero bits, as labels would be picked to collide there. It prints how many words the
//! object has, or the rule that is broken and its line.
#![tactic(auto)]

use pa_asm::assemble;
use pa_num::Fault;
use std::alloc::{AllocError, Global};
use std::hash::{BuildHasher, BuildHasherDefault, FoldHasher};
use std::{env, io};

/// Instructions between two that name a label.
const ROWS: [&str; 3] = [
    "add x0, x1, #16",
    "ldr x2, [sp, #32]",
    "stp x29, x30, [sp, #-16]",
];

/// How many labels lie between a branch and the one that it names before it; others name the label on the line before.
const REACH: usize = 64;

/// The first labels whose hashes end in so many zero bits.
fn picked(alloc: Global, labels: usize, bits: u32) -> Result<Vec<String>, AllocError> {
    let hashers = BuildHasherDefault::<FoldHasher>::new();
    let mut names = Vec::new(alloc);
    for number in 0..u32::MAX {
        if names.len() >= labels {
            break;
        }
        let name = format!(in alloc; "label_{number}")?;
        if hashers.hash_one(name.as_bytes()).trailing_zeros() >= bits {
            names.push(name)?;
        }
    }
    Ok(names)
}

fn made(alloc: Global, labels: &[String]) -> Result<String, AllocError> {
    let mut text = String::new(alloc);
    for (k, label) in labels.iter().enumerate() {
        let line = format!(in alloc; "{label}:\n")?;
        text.push_str(line.as_str())?;
        match k % 4 {
            3 => {
                let back = if k % 8 == 3 { k.min(REACH) } else { 0 };
                let name = &labels[k - back];
                let line = format!(in alloc; "b {name}\n")?;
                text.push_str(line.as_str())?;
            }
            row => {
                text.push_str(ROWS[row])?;
                text.push_str("\n")?;
            }
        }
    }
    Ok(text)
}

fn main(rt: HostRuntime) -> io::Result<()> {
    let words: Vec<String> = env::args(&rt)?.skip(1).collect(rt.alloc())?;
    let [labels, bits, times] = words.as_slice() else {
        println!(rt; "usage: bench_asm LABELS BITS TIMES")?;
        return Ok(());
    };
    let labels: usize = labels.parse().unwrap_or(0);
    let bits: u32 = bits.parse().unwrap_or(0);
    let times: u32 = times.parse().unwrap_or(0);
    let names = picked(rt.alloc(), labels, bits)?;
    let text = made(rt.alloc(), names.as_slice())?;
    if text.len() > 4_294_967_295 {
        return Ok(());
    }
    for _ in 0..times {
        match assemble(rt.alloc(), text.as_str()) {
            Ok(object) => println!(rt; "{} words", object.code.len())?,
            Err(Fault::Refused { rule, place }) => println!(rt; "{rule:?} {place}")?,
            Err(Fault::Memory) => println!(rt; "memory")?,
        }
    }
    Ok(())
}
