//! Files, and calls of the top call over objects in memory.

use pa_io::{Calls, MemFile, MemFiles, MemShelf, MemSink, MemSource};
use pa_num::{Bytes, Name};
use pa_pac::FoldPac;
use pa_paclab::{Exit, paclab};
use std::alloc::{AllocError, Global};

/// The most bytes of a source, an input or a script.
pub const MOST: usize = 1_048_576;

pub const HELLO: &[u8] = b"#include <stdio.h>
int main(void){
putchar(72);
putchar(105);
return 7;
}
";

const OCTAL: &[u8] = b"#include <stdio.h>
int main(void){
return 07;
}
";

/// Small files: programs, an input, and scripts.
const SMALL: [(&[u8], &[u8]); 12] = [
    (b"hello.c", HELLO),
    (b"--hello.c", HELLO),
    (b"octal.c", OCTAL),
    (b"in", b"ns"),
    (b"empty", b""),
    (b"return", b"20 write 0x16ffffff8 0000000000000000\n"),
    (b"late", b"29 write 0x16ffffff8 0000000000000000"),
    (b"form", b"0 write 0x16ffffff8 00\n5 write 0x16ffffff8 0\n"),
    (
        b"steps",
        b"5 write 0x16ffffff8 00\n4 write 0x16ffffff8 00\n",
    ),
    (
        b"text",
        b"0 copy 0x16ffffff8 0x100000400 1\n0 write 0x100000400 00\n",
    ),
    (b"unread", b"0 copy 0x16ffffff8 0x10 1"),
    (b"line", b"\n"),
];

/// Files of a text so many times.
const LARGE: [(&[u8], &[u8], usize); 3] = [
    (b"limit", b" ", MOST),
    (b"long", b" ", MOST + 1),
    (b"lines", b"0 write 0x0 00\n", 65_537),
];

pub fn words(alloc: Global, line: &str) -> Result<Vec<String>, AllocError> {
    let mut words = Vec::new(alloc);
    for word in line.split(' ') {
        let word = if word == "''" { "" } else { word };
        words.push(String::from_str(alloc, word)?)?;
    }
    Ok(words)
}

fn file(alloc: Global, name: &[u8], bytes: Bytes) -> Result<MemFile, AllocError> {
    Ok(MemFile::new(Name::from_slice(alloc, name)?, bytes))
}

/// A text so many times.
fn times(alloc: Global, text: &[u8], count: usize) -> Result<Vec<u8>, AllocError> {
    let mut bytes = Vec::new(alloc);
    for _ in 0..count {
        bytes.extend_from_slice(text)?;
    }
    Ok(bytes)
}

/// The small files, and those of the large ones that the words of a line name.
pub fn files(alloc: Global, line: &str) -> Result<MemFiles, AllocError> {
    let mut files = MemFiles::new(alloc);
    for (name, bytes) in SMALL {
        files.push(file(alloc, name, Bytes::from_slice(alloc, bytes)?)?)?;
    }
    for (name, text, count) in LARGE {
        if line.split(' ').any(|word| word.as_bytes() == name) {
            let bytes = times(alloc, text, count)?;
            files.push(file(alloc, name, Bytes::from_vec(bytes))?)?;
        }
    }
    Ok(files)
}

/// A shelf of the files for a line that fails at this call.
pub fn shelf(alloc: Global, line: &str, failing: u64) -> Result<MemShelf, AllocError> {
    let fails = Calls::from_slice(alloc, &[failing])?;
    Ok(MemShelf::new(files(alloc, line)?, 0, fails, 0, None))
}

/// A source of so many bytes that fails at this call.
pub fn source(alloc: Global, count: usize, failing: u64) -> Result<MemSource, AllocError> {
    let left = Bytes::from_vec(vec![in alloc; b'x'; count]?);
    let fails = Calls::from_slice(alloc, &[failing])?;
    Ok(MemSource::new(left, 0, fails))
}

/// A sink that takes four bytes a call, and fails at this one.
pub fn sink(alloc: Global, failing: u64) -> Result<MemSink, AllocError> {
    let fails = Calls::from_slice(alloc, &[failing])?;
    Ok(MemSink::new(Bytes::new(alloc), 4, 0, fails, 0))
}

/// The answer to the words of a line under the host function `FoldPac`.
pub fn call(
    alloc: Global,
    line: &str,
    shelf: &mut MemShelf,
    source: &mut MemSource,
    out: &mut MemSink,
) -> Result<Exit, AllocError> {
    let words = words(alloc, line)?;
    Ok(paclab(alloc, &words, shelf, source, out, &FoldPac))
}
