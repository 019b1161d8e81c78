//! Hashes messages of one length, to be timed from outside: `bench_sip BYTES TIMES`. Each message begins with the byte that
//! tells its number modulo 256. It prints the exclusive or of the hashes.
#![tactic(auto)]

use pa_sip::sip24;
use std::alloc::{AllocError, Global};
use std::{env, io};

const K0: u64 = 0x0706_0504_0302_0100;

const K1: u64 = 0x0f0e_0d0c_0b0a_0908;

/// The bytes 00, 01, 02 .. modulo 251.
fn message_of(alloc: Global, len: u32) -> Result<Vec<u8>, AllocError> {
    let mut message = Vec::new(alloc);
    for at in 0..len {
        message.push((at % 251) as u8)?;
    }
    Ok(message)
}

fn hash_all(message: &mut [u8], times: u32) -> u64 {
    let mut sum = 0;
    for time in 0..times {
        if let Some(first) = message.first_mut() {
            *first = (time % 256) as u8;
        }
        sum ^= sip24(K0, K1, message);
    }
    sum
}

fn main(rt: HostRuntime) -> io::Result<()> {
    let words: Vec<String> = env::args(&rt)?.skip(1).collect(rt.alloc())?;
    let [bytes, times] = words.as_slice() else {
        println!(rt; "usage: bench_sip BYTES TIMES")?;
        return Ok(());
    };
    let bytes: u32 = bytes.parse().unwrap_or(0);
    let times: u32 = times.parse().unwrap_or(0);
    let mut message = message_of(rt.alloc(), bytes)?;
    let sum = hash_all(&mut message, times);
    println!(rt; "{sum:016x}")?;
    Ok(())
}
