//! A function with its stack frame.

ghost use Rattle.std.specs.Prelude.{◌≡◌, ◌<◌, ◌^◌, length, IfOk};
ghost use Rattle.pa_lir.specs.Parts.{held};
ghost use Rattle.pa_lir.specs.Ready.{HasFrame};
ghost use Rattle.pa_frame.specs.Frames.{IsLaidOut, place_of_temp, place_of_local, size_of_frame};

use pa_frame::{Frame, frame};
use pa_lir::{LirFn, Temp};
use pa_num::Memory;
use std::alloc::Global;

/// A function with its stack frame.
#[derive(Drop)]
pub(crate) struct Framed<'a> {
    pub(crate) function: &'a LirFn,
    frame: Frame,
    ghost small: { HasFrame function.now },
    ghost laid_out: { IsLaidOut function.now frame },
}

impl<'a> Framed<'a> {
    /// It takes time in proportion to the function's locals and operations.
    pub(crate) fn of(alloc: Global, function: &'a LirFn) -> Result<Framed<'a>, Memory>
        requires { HasFrame function.now }
        ensures { IfOk result (λ framed. framed.function.now ≡ function.now) }
    {
        let frame = frame(alloc, function)?;
        Ok(Framed { function, frame })
    }
}

impl Framed<'_> {
    /// Where a temporary lies, in bytes from the stack pointer.
    pub(crate) fn temp(&self, temp: Temp) -> u32
        requires { temp < held self.now.function.now }
        ensures value { result ≡ place_of_temp self.now.function.now temp }
        ensures near { result < 2 ^ 24 }
    {
        self.frame.slots.temp(temp)
    }

    /// Where a local lies.
    pub(crate) fn local(&self, local: u32) -> u32
        requires { local < length self.now.function.now.locals }
        ensures value { result ≡ place_of_local self.now.function.now local }
        ensures near { result < 2 ^ 24 }
    {
        self.frame.slots.locals.as_slice()[local as usize]
    }

    /// How many bytes the frame has.
    pub(crate) fn size(&self) -> u32
        ensures value { result ≡ size_of_frame self.now.function.now }
        ensures near { result < 2 ^ 24 }
    {
        self.frame.size
    }
}
