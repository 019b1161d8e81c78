//! Lexes a made text a number of times, to be timed from outside: `bench_lex SHAPE BYTES TIMES`. It prints how many tokens
//! and names the text has, or the rule that it breaks.
#![tactic(auto)]

use pa_lex::lex;
use pa_num::Fault;
use std::alloc::{AllocError, Global};
use std::fmt::Write;
use std::{env, io};

/// A text is a first part, copies of a middle part, and a last part.
#[derive(Drop)]
struct Shape {
    first: &'static str,
    middle: &'static str,
    last: &'static str,
}

const SOURCE: &str = "/* adds the members of a row */
static long sum_of(struct row *row, unsigned count) {
    long total = 0;
    for (unsigned i = 0; i < count; i++) { // each cell
        if (row->cells[i].value != 0x7FFFul && row->cells[i].kind == 'v')
            total += row->cells[i].value << 2;
        else
            print_line(\"no value at %d\\n\", i, total - 1);
    }
    return total >= 1024 ? total : -1;
}
";

fn shape_of(name: &str) -> Shape {
    match name {
        "comment" => Shape {
            first: "/*",
            middle: "a comment, * and / ",
            last: "*/",
        },
        "string" => Shape {
            first: "\"",
            middle: "a string with \\n escapes \\x41 \\101 ",
            last: "\"",
        },
        "spaces" => Shape {
            first: "",
            middle: " ",
            last: "x",
        },
        "slashes" => Shape {
            first: "",
            middle: "/",
            last: "",
        },
        "open" => Shape {
            first: "",
            middle: "/*",
            last: "",
        },
        "names" => Shape {
            first: "",
            middle: "a ",
            last: "",
        },
        "digits" => Shape {
            first: "",
            middle: "0",
            last: "",
        },
        "marks" => Shape {
            first: "",
            middle: "<<=+++->",
            last: "",
        },
        _ => Shape {
            first: "",
            middle: SOURCE,
            last: "",
        },
    }
}

/// Names, each of them once.
fn made_distinct(alloc: Global, bytes: usize) -> Result<Vec<u8>, AllocError> {
    let mut text = String::new(alloc);
    for i in 0..bytes / 8 {
        write!(text, "n{i} ")?;
    }
    Vec::from_slice(alloc, text.as_bytes())
}

/// 1,024 names again and again whose sums of bytes, weighed by the powers of 31, are equal: `Aa` and `BB` have the same.
fn made_colliding(alloc: Global, bytes: usize) -> Result<Vec<u8>, AllocError> {
    let mut text = Vec::new(alloc);
    for i in 0..bytes / 21 {
        let mut bits = i;
        for _ in 0..10 {
            text.extend_from_slice(if bits % 2 == 0 { b"Aa" } else { b"BB" })?;
            bits /= 2;
        }
        text.push(b' ')?;
    }
    Ok(text)
}

fn made(alloc: Global, name: &str, bytes: usize) -> Result<Vec<u8>, AllocError> {
    if name == "distinct" {
        return made_distinct(alloc, bytes);
    }
    if name == "colliding" {
        return made_colliding(alloc, bytes);
    }
    let shape = shape_of(name);
    let mut text = Vec::new(alloc);
    text.extend_from_slice(shape.first.as_bytes())?;
    for _ in 0..bytes / shape.middle.len().max(1) {
        text.extend_from_slice(shape.middle.as_bytes())?;
    }
    text.extend_from_slice(shape.last.as_bytes())?;
    Ok(text)
}

fn main(rt: HostRuntime) -> io::Result<()> {
    let words: Vec<String> = env::args(&rt)?.skip(1).collect(rt.alloc())?;
    let [shape, bytes, times] = words.as_slice() else {
        println!(rt; "usage: bench_lex SHAPE BYTES TIMES")?;
        return Ok(());
    };
    let bytes: u32 = bytes.parse().unwrap_or(0);
    let times: u32 = times.parse().unwrap_or(0);
    let text = made(rt.alloc(), shape.as_str(), bytes as usize)?;
    if text.len() > 4_294_967_295 {
        return Ok(());
    }
    for _ in 0..times {
        match lex(rt.alloc(), &text) {
            Ok(lexed) => println!(rt;
                "{} tokens, {} names",
                lexed.tokens.len(),
                lexed.names.len()
            )?,
            Err(Fault::Refused { rule, place }) => println!(rt; "{rule:?} {place}")?,
            Err(Fault::Memory) => println!(rt; "memory")?,
        }
    }
    Ok(())
}
