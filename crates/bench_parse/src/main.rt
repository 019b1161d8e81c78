//! Parses a made file a number of times, to be timed from outside: `bench_parse SHAPE COPIES TIMES`. It prints how many tokens
//! the file has and how many items, or the rule that it breaks. With 0 times it prints the file.
#![tactic(auto)]

use pa_lex::{Token, lex};
use pa_num::Fault;
use pa_pdecl::parse;
use std::alloc::{AllocError, Global};
use std::fmt::Write;
use std::{env, io};

/// What the functions of a unit need, so that a compiler takes it.
const DECLARATIONS: &str = "
struct cell { int kind; unsigned long value; };
struct row { struct cell cells[9]; };
int print_line(const char *text, unsigned at, long total);
";

const BEGIN: &str = "
static long sum_of";

/// With `BEGIN` in front of it: 94 tokens, 57 nodes.
const REST: &str = "(struct row *row, unsigned count) {
    long total = 0;
    for (unsigned i = 0; i < count; i++) {
        if (row->cells[i].value != 0x7FFFul && row->cells[i].kind == 'v')
            total += row->cells[i].value << 2;
        else
            print_line(\"no value at %d\\n\", i, total - 1);
    }
    return total >= 1024 ? total : -1;
}
";

/// A file is a first part, copies of a middle part, and a last part.
#[derive(Drop)]
struct Shape {
    first: &'static str,
    middle: &'static str,
    last: &'static str,
}

fn shape_of(name: &str) -> Shape {
    match name {
        "list" => Shape {
            first: "int a[] = {",
            middle: "1,",
            last: "};",
        },
        "block" => Shape {
            first: "int f(int x) {",
            middle: "x++;",
            last: "}",
        },
        _ => Shape {
            first: "int x;",
            middle: "int f(int x) { return x + x * x; }",
            last: "",
        },
    }
}

/// Copies of a function whose number is inside 197 pairs of parentheses, the most that a depth of 200 lets in.
fn made_deep(alloc: Global, copies: u32) -> Result<Vec<u8>, AllocError> {
    let mut text = Vec::new(alloc);
    for _ in 0..copies {
        text.extend_from_slice(b"int f(void) { return ")?;
        for _ in 0..197 {
            text.push(b'(')?;
        }
        text.push(b'1')?;
        for _ in 0..197 {
            text.push(b')')?;
        }
        text.extend_from_slice(b"; }\n")?;
    }
    Ok(text)
}

/// Typedefs of as many names, and a use of each.
fn made_typedefs(alloc: Global, copies: u32) -> Result<Vec<u8>, AllocError> {
    let mut text = String::new(alloc);
    for i in 0..copies {
        write!(text, "typedef int t{i}; t{i} x{i};\n")?;
    }
    Vec::from_slice(alloc, text.as_bytes())
}

/// A unit of so many functions, each with a name of its own.
fn made_source(alloc: Global, copies: u32) -> Result<Vec<u8>, AllocError> {
    let mut text = String::new(alloc);
    write!(text, "{DECLARATIONS}")?;
    for i in 0..copies {
        write!(text, "{BEGIN}{i}{REST}")?;
    }
    Vec::from_slice(alloc, text.as_bytes())
}

fn made(alloc: Global, name: &str, copies: u32) -> Result<Vec<u8>, AllocError> {
    match name {
        "source" => return made_source(alloc, copies),
        "deep" => return made_deep(alloc, copies),
        "typedefs" => return made_typedefs(alloc, copies),
        _ => {}
    }
    let shape = shape_of(name);
    let mut text = Vec::new(alloc);
    text.extend_from_slice(shape.first.as_bytes())?;
    for _ in 0..copies {
        text.extend_from_slice(shape.middle.as_bytes())?;
    }
    text.extend_from_slice(shape.last.as_bytes())?;
    Ok(text)
}

/// What a call answers.
fn outline(alloc: Global, tokens: &[Token]) -> Result<String, AllocError> {
    let mut text = String::new(alloc);
    match parse(alloc, tokens) {
        Ok(file) => write!(text, "{} tokens, {} items", tokens.len(), file.items.len())?,
        Err(Fault::Refused { rule, place }) => write!(text, "{rule:?} {place}")?,
        Err(Fault::Memory) => write!(text, "memory")?,
    }
    Ok(text)
}

fn main(rt: HostRuntime) -> io::Result<()> {
    let words: Vec<String> = env::args(&rt)?.skip(1).collect(rt.alloc())?;
    let [shape, copies, times] = words.as_slice() else {
        println!(rt; "usage: bench_parse SHAPE COPIES TIMES")?;
        return Ok(());
    };
    let copies: u32 = copies.parse().unwrap_or(0);
    let times: u32 = times.parse().unwrap_or(0);
    let text = made(rt.alloc(), shape.as_str(), copies)?;
    if times == 0 {
        return io::Write::write_all(&mut rt.stdout(), &text);
    }
    if text.len() > 4_294_967_295 {
        return Ok(());
    }
    let Ok(lexed) = lex(rt.alloc(), &text) else {
        println!(rt; "no tokens")?;
        return Ok(());
    };
    for _ in 0..times {
        let answer = outline(rt.alloc(), lexed.tokens.as_slice())?;
        println!(rt; "{answer}")?;
    }
    Ok(())
}
