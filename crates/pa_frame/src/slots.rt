ghost use Rattle.std.specs.Prelude.{◌≡◌, ◌<◌, ◌^◌};
ghost use Rattle.pa_frame.specs.Frames as spec;

use pa_lir::Temp;
use pa_num::Words;

/// How many bytes a temporary has.
pub(crate) const TEMP: u32 = 8;

/// Where the locals and the temporaries of a function begin, in bytes from the stack pointer.
#[derive(Debug, Drop)]
pub struct Slots {
    /// Of each local, by its number.
    pub locals: Words,
    /// Of the temporary 0. The others follow, 8 bytes each.
    pub temps: u32,
}

impl Slots {
    /// Where a temporary begins.
    pub fn temp(&self, temp: Temp) -> u32
        requires { spec.temp_at self.now temp < 2 ^ 32 }
        ensures { result ≡ spec.temp_at self.now temp }
    {
        self.temps + TEMP * temp
    }
}

/// The stack frame of a function: its size in bytes, and what lies where.
#[derive(Debug, Drop)]
pub struct Frame {
    pub size: u32,
    pub slots: Slots,
}
