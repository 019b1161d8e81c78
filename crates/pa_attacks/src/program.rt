//! A program in memory, and what its run beside a script shows.

ghost use Rattle.std.specs.Prelude.{◌≡◌, ◌*◌, ◌≤◌, IfOk, length};

use pa_log::{Entry, Event, Log};
use pa_machine::{End, Loaded, Machine};
use pa_mem::{Abort, Rights, Size, Space};
use pa_num::{Bytes, Fault, Memory};
use pa_pac::Pac;
use pa_script::{ScriptRule, fits, read_script};
use std::alloc::Global;

/// Where a program's words stand; its first word runs first.
const CODE: u64 = 0x1_0000_0400;

/// Where sixteen bytes of data stand.
const DATA: u64 = 0x1_0000_4000;

/// Where 256 bytes of stack stand.
const STACK: u64 = 0x1_6FFF_FF00;

/// Where the stack begins, at its end.
const SP: u64 = 0x1_7000_0000;

/// How many signatures, accepted authentications, indirect branches and acceptances of what was never signed a log has.
#[derive(Clone, Copy, Debug, PartialEq, Eq)]
pub struct Counts {
    pub signs: usize,
    pub takes: usize,
    pub lands: usize,
    pub unsigned: usize,
}

fn signs(entry: &Entry) -> bool {
    matches!(entry.event, Event::Sign { .. })
}

fn takes(entry: &Entry) -> bool {
    matches!(entry.event, Event::Take { .. })
}

fn lands(entry: &Entry) -> bool {
    matches!(entry.event, Event::Land { .. })
}

fn is_unsigned(entry: &Entry) -> bool {
    matches!(entry.event, Event::Take { known: false, .. })
}

impl Counts {
    fn of(entries: &[Entry]) -> Counts {
        Counts {
            signs: entries.iter().filter(|entry| signs(entry)).count(),
            takes: entries.iter().filter(|entry| takes(entry)).count(),
            lands: entries.iter().filter(|entry| lands(entry)).count(),
            unsigned: entries.iter().filter(|entry| is_unsigned(entry)).count(),
        }
    }
}

/// How a run ended, what it printed and logged, and the first byte of its data then.
#[derive(Debug, Drop)]
pub struct Shown {
    pub end: End,
    pub output: Bytes,
    pub log: Log,
    pub counts: Counts,
    pub data: Result<u64, Abort>,
}

fn code(alloc: Global, words: &[u32]) -> Result<Bytes, Memory>
    ensures { IfOk result (λ bytes. length bytes ≡ 4 * length words.now) }
{
    let mut code = Bytes::new(alloc);
    for word in words {
        code.extend_from_slice(&word.to_le_bytes())?;
    }
    Ok(code)
}

fn data(alloc: Global, bytes: &[u8; 16]) -> Result<Bytes, Memory>
    ensures { IfOk result (λ bytes. length bytes ≡ 16) }
{
    let bytes = Bytes::from_slice(alloc, bytes)?;
    Ok(bytes)
}

fn stack(alloc: Global) -> Result<Bytes, Memory> {
    let bytes = Bytes::from_slice(alloc, &[0; 256])?;
    Ok(bytes)
}

/// At most 64 words, from the first on.
fn first_words(words: &[u32]) -> &[u32]
    ensures { length result.now ≤ 64 }
{
    &words[..words.len().min(64)]
}

// At most 64 of the words stand there.
fn space(alloc: Global, words: &[u32], bytes: &[u8; 16]) -> Result<Space, Memory> {
    let words = first_words(words);
    let read_and_run = Rights {
        read: true,
        write: false,
        run: true,
    };
    let read_and_write = Rights {
        read: true,
        write: true,
        run: false,
    };
    let mut space = Space::new(alloc);
    space.add(CODE, code(alloc, words)?, read_and_run)?;
    space.add(DATA, data(alloc, bytes)?, read_and_write)?;
    space.add(STACK, stack(alloc)?, read_and_write)?;
    Ok(space)
}

/// Runs at most `bound` instructions of a program of these words and this data beside the script of this text.
pub fn run_beside<P: Pac>(
    alloc: Global,
    words: &[u32],
    bytes: &[u8; 16],
    text: &[u8],
    bound: u32,
    p: &P,
) -> Result<Shown, Fault<ScriptRule>> {
    let script = read_script(alloc, text)?;
    let loaded = Loaded {
        space: space(alloc, words, bytes)?,
        log: Log::new(alloc),
        pc: CODE,
        sp: SP,
    };
    let mut machine = Machine::new(alloc, loaded, &[], p)?;
    if let Some(line) = fits(&script, machine.space()) {
        return Err(Fault::Refused {
            rule: ScriptRule::P4,
            place: u64::from(line),
        });
    }
    let end = machine.run(script.as_slice(), bound)?;
    let data = machine.space().read(DATA, Size::B1);
    let (output, log) = machine.into_parts();
    let counts = Counts::of(log.entries());
    Ok(Shown {
        end,
        output,
        log,
        counts,
        data,
    })
}
