//! Frames worked by hand.
ghost use Rattle.std.specs.Prelude.{◌≡◌, IfOk};
ghost use Rattle.pa_lir.specs.Ready.{HasFrame};

use crate::frame;
use pa_lir::{LirFn, LirLocal, Locals, Op, Ops};
use pa_num::Name;
use std::alloc::{AllocError, Global};
use std::test::Fail;

/// A function of three locals, and of as many temporaries as the number and one more.
fn function(alloc: Global, parameters: u32, sizes: [u8; 3], temp: u8) -> Result<LirFn, AllocError>
    ensures { IfOk result HasFrame }
{
    let [first, second, third] = sizes;
    let sized: [LirLocal; 3] = [local(first), local(second), local(third)];
    let locals = Locals::from_slice(alloc, &sized[..])?;
    let mut ops = Ops::new(alloc);
    ops.push(Op::Const {
        to: u32::from(temp),
        value: 0,
    })?;
    Ok(LirFn {
        name: Name::new(alloc),
        public: false,
        parameters,
        locals,
        ops,
    })
}

fn local(size: u8) -> LirLocal
    ensures { result.size ≡ size }
{
    LirLocal {
        size: u64::from(size),
        align: 1,
    }
}

/// A function, and its frame: where the locals and the temporaries begin, and the size.
struct Case {
    parameters: u32,
    sizes: [u8; 3],
    temp: u8,
    locals: [u32; 3],
    temps: u32,
    size: u32,
}

const CASES: [Case; 4] = [
    Case {
        parameters: 1,
        sizes: [4, 20, 1],
        temp: 2,
        locals: [96, 128, 152],
        temps: 104,
        size: 160,
    },
    Case {
        parameters: 0,
        sizes: [1, 1, 1],
        temp: 0,
        locals: [104, 112, 120],
        temps: 96,
        size: 128,
    },
    Case {
        parameters: 3,
        sizes: [8, 8, 8],
        temp: 1,
        locals: [96, 104, 112],
        temps: 120,
        size: 144,
    },
    Case {
        parameters: 9,
        sizes: [0, 9, 16],
        temp: 255,
        locals: [96, 96, 112],
        temps: 128,
        size: 2176,
    },
];

#[test]
fn parameters_then_temporaries_then_locals(rt: HostRuntime) -> Result<(), Fail> {
    for case in &CASES {
        let function = function(rt.alloc(), case.parameters, case.sizes, case.temp)?;
        let frame = frame(rt.alloc(), &function)?;
        assert_eq!(rt; frame.slots.locals.as_slice(), case.locals.as_slice());
        assert_eq!(rt; frame.slots.temps, case.temps);
        assert_eq!(rt; frame.size, case.size);
    }
    Ok(())
}
