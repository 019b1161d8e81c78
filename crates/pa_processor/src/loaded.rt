use pa_log::Log;
use pa_mem::Space;

/// What a machine begins with: memory with the images, the log of the signatures made while they were loaded, the place of
/// the first instruction, and the stack pointer.
#[derive(Debug, Drop)]
pub struct Loaded {
    pub space: Space,
    pub log: Log,
    pub pc: u64,
    pub sp: u64,
}
