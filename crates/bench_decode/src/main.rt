//! Decodes a text of 1 MiB a number of times, to be timed from outside: `bench_decode TIMES WORD..`. The text repeats the
//! words, each in hexadecimal. It prints how many of its words are instructions.
#![tactic(auto)]

use pa_a64::{Instr, decode};
use std::alloc::{AllocError, Global};
use std::{env, io};

const WORDS: usize = 262_144;

/// The words in turn, until the text is full.
fn repeated(alloc: Global, words: &[u32]) -> Result<Vec<u32>, AllocError> {
    let mut text = Vec::new(alloc);
    let mut left = words.iter();
    for _ in 0..WORDS {
        match left.next() {
            Some(word) => text.push(*word)?,
            None => {
                left = words.iter();
                if let Some(word) = left.next() {
                    text.push(*word)?;
                }
            }
        }
    }
    Ok(text)
}

/// The instructions of the text, over those that stood there.
fn decode_all(text: &[u32], instrs: &mut [Option<Instr>]) {
    for (word, instr) in text.iter().zip(instrs) {
        *instr = decode(*word);
    }
}

fn main(rt: HostRuntime) -> io::Result<()> {
    let arguments: Vec<String> = env::args(&rt)?.skip(1).collect(rt.alloc())?;
    let [times, words @ ..] = arguments.as_slice() else {
        println!(rt; "usage: bench_decode TIMES WORD..")?;
        return Ok(());
    };
    let times: u32 = times.parse().unwrap_or(0);
    let mut pattern = Vec::new(rt.alloc());
    for word in words {
        pattern.push(u32::from_str_radix(word.as_str(), 16).unwrap_or(0))?;
    }
    let text = repeated(rt.alloc(), &pattern)?;
    let mut instrs = vec![in rt.alloc(); None; WORDS]?;
    for _ in 0..times {
        decode_all(&text, &mut instrs);
    }
    let found = instrs.iter().filter(|instr| instr.is_some()).count();
    println!(rt; "{found} of {} words are instructions", text.len())?;
    Ok(())
}
