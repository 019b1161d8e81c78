//! Writes a made image, and reads it a number of times, to be timed from outside: `bench_image BYTES SYMBOLS SLOTS WRITES
//! READS`. It prints the image's size, and its bytes in hexadecimal where nothing is read.
#![tactic(auto)]

use pa_fixups::{Fix, FixKind, Fixes};
use pa_image::{Image, legal, read_image, write_image};
use pa_layout::put_zeros;
use pa_macho::Role;
use pa_num::{Bytes, Name, Names, Words};
use pa_object::{Mark, Marks};
use std::alloc::{AllocError, Global};
use std::{env, io};

/// A program's image with so many bytes in `__data` and so many symbols and slots.
fn made(alloc: Global, bytes: u32, symbols: u32, slots: u32) -> Result<Image, AllocError> {
    let mut text = Words::new(alloc);
    let mut marks = Marks::new(alloc);
    for at in 0..symbols {
        text.push(0xd503_237f)?;
        let mut name = Name::from_slice(alloc, b"_function_")?;
        for byte in at.to_le_bytes() {
            name.push(b'a' + byte / 16)?;
            name.push(b'a' + byte % 16)?;
        }
        let public = at % 2 == 0;
        marks.push(Mark { name, at, public })?;
    }
    let mut fixes = Fixes::new(alloc);
    for slot in 0..slots.min(0x1000_0000) {
        let target = 0x1_0000_0400;
        let kind = FixKind::Rebase { target, high8: 0 };
        fixes.push(Fix { at: 8 * slot, kind })?;
    }
    let mut cells = Vec::new(alloc);
    put_zeros(&mut cells, bytes as usize)?;
    Ok(Image {
        role: Role::Main,
        text,
        stubs: Words::new(alloc),
        consts: Bytes::new(alloc),
        got: 0,
        cells: Bytes::from_vec(cells),
        marks,
        imports: Names::new(alloc),
        fixes,
    })
}

fn main(rt: HostRuntime) -> io::Result<()> {
    let words: Vec<String> = env::args(&rt)?.skip(1).collect(rt.alloc())?;
    let [bytes, symbols, slots, writes, reads] = words.as_slice() else {
        println!(rt; "usage: bench_image BYTES SYMBOLS SLOTS WRITES READS")?;
        return Ok(());
    };
    let bytes: u32 = bytes.parse().unwrap_or(0);
    let symbols: u32 = symbols.parse().unwrap_or(0);
    let slots: u32 = slots.parse().unwrap_or(0);
    let writes: u32 = writes.parse().unwrap_or(0);
    let reads: u32 = reads.parse().unwrap_or(0);
    let image = made(rt.alloc(), bytes, symbols, slots)?;
    if !legal(&image) {
        println!(rt; "not legal")?;
        return Ok(());
    }
    for _ in 0..writes {
        if let Ok(file) = write_image(rt.alloc(), &image) {
            println!(rt; "{} bytes", file.len())?;
            for _ in 0..reads {
                match read_image(rt.alloc(), &file) {
                    Ok(read) => println!(rt; "{} slots", read.fixes.len())?,
                    Err(fault) => println!(rt; "{fault:?}")?,
                }
            }
            if reads == 0 {
                for byte in &file {
                    print!(rt; "{byte:02x}")?;
                }
                println!(rt; "")?;
            }
        }
    }
    Ok(())
}
