//! Small functions in flat code, by hand, and what their programs print and return.

use crate::programs::{Function, Step};
use pa_lir::{BinOp, UnOp};

/// Functions of which `main` is the last, the input, and the output and result.
pub struct Case {
    pub functions: &'static [Function],
    pub input: &'static [u8],
    pub output: &'static [u8],
    pub result: u64,
}

const COUNT_DOWN: Function = Function {
    name: b"main",
    parameters: 0,
    locals: &[],
    steps: &[
        Step::Const(0, 3),
        Step::Const(1, 1),
        Step::Label(9),
        Step::Call(2, b"putchar", &[0]),
        Step::Bin(0, BinOp::Sub, 0, 1),
        Step::Branch(0, 9),
        Step::Return(0),
    ],
};

/// Eight parameters, of all sizes, as digits of a number.
const DIGITS: Function = Function {
    name: b"digits",
    parameters: 8,
    locals: &[8, 1, 2, 4, 8, 8, 1, 8],
    steps: &[
        Step::Const(2, 10),
        Step::Local(0, 0),
        Step::Load(1, 0, 8, false),
        Step::Bin(1, BinOp::Mul, 1, 2),
        Step::Local(0, 1),
        Step::Load(0, 0, 1, true),
        Step::Bin(1, BinOp::Add, 1, 0),
        Step::Bin(1, BinOp::Mul, 1, 2),
        Step::Local(0, 2),
        Step::Load(0, 0, 2, true),
        Step::Bin(1, BinOp::Add, 1, 0),
        Step::Bin(1, BinOp::Mul, 1, 2),
        Step::Local(0, 3),
        Step::Load(0, 0, 4, true),
        Step::Bin(1, BinOp::Add, 1, 0),
        Step::Bin(1, BinOp::Mul, 1, 2),
        Step::Local(0, 6),
        Step::Load(0, 0, 1, false),
        Step::Bin(1, BinOp::Add, 1, 0),
        Step::Bin(1, BinOp::Mul, 1, 2),
        Step::Local(0, 7),
        Step::Load(0, 0, 8, false),
        Step::Bin(1, BinOp::Add, 1, 0),
        Step::Return(1),
    ],
};

const CALLS_DIGITS: Function = Function {
    name: b"main",
    parameters: 0,
    locals: &[40_000],
    steps: &[
        Step::Const(0, 1),
        Step::Const(1, 2),
        Step::Const(2, 3),
        Step::Const(3, 4),
        Step::Const(4, 5),
        Step::Const(5, 8),
        Step::Call(5000, b"digits", &[0, 1, 2, 3, 4, 4, 4, 5]),
        Step::Const(0, 100),
        Step::Bin(0, BinOp::Mul, 5000, 0),
        Step::Return(0),
    ],
};

/// The factorial, by a call of itself.
const FACTORIAL: Function = Function {
    name: b"f",
    parameters: 1,
    locals: &[8],
    steps: &[
        Step::Local(0, 0),
        Step::Load(0, 0, 8, false),
        Step::Branch(0, 1),
        Step::Const(0, 1),
        Step::Return(0),
        Step::Label(1),
        Step::Const(1, 1),
        Step::Bin(1, BinOp::Sub, 0, 1),
        Step::Call(1, b"f", &[1]),
        Step::Bin(0, BinOp::Mul, 0, 1),
        Step::Return(0),
    ],
};

const CALLS_FACTORIAL: Function = Function {
    name: b"main",
    parameters: 0,
    locals: &[],
    steps: &[
        Step::Const(0, 20),
        Step::Call(0, b"f", &[0]),
        Step::Return(0),
    ],
};

/// A byte that is read is printed twice, and what comes next is returned.
const ECHO: Function = Function {
    name: b"main",
    parameters: 0,
    locals: &[1, 8],
    steps: &[
        Step::Call(0, b"getchar", &[]),
        Step::Local(1, 0),
        Step::Store(1, 0, 1),
        Step::Load(2, 1, 1, false),
        Step::Call(3, b"putchar", &[2]),
        Step::Call(3, b"putchar", &[2]),
        Step::Jump(4),
        Step::Label(3),
        Step::Const(0, 5),
        Step::Return(0),
        Step::Label(4),
        Step::Call(0, b"getchar", &[]),
        Step::Const(3, 0),
        Step::Branch(3, 3),
        Step::Return(0),
    ],
};

/// The sum of the numbers from 10 down to 1.
const SUM: Function = Function {
    name: b"main",
    parameters: 0,
    locals: &[],
    steps: &[
        Step::Const(0, 10),
        Step::Const(1, 0),
        Step::Const(2, 1),
        Step::Label(1),
        Step::Bin(1, BinOp::Add, 1, 0),
        Step::Bin(0, BinOp::Sub, 0, 2),
        Step::Branch(0, 1),
        Step::Return(1),
    ],
};

/// The Fibonacci number of 30.
const FIBONACCI: Function = Function {
    name: b"main",
    parameters: 0,
    locals: &[],
    steps: &[
        Step::Const(0, 0),
        Step::Const(1, 1),
        Step::Const(2, 30),
        Step::Const(3, 1),
        Step::Const(5, 0),
        Step::Label(1),
        Step::Bin(4, BinOp::Add, 0, 1),
        Step::Bin(0, BinOp::Add, 1, 5),
        Step::Bin(1, BinOp::Add, 4, 5),
        Step::Bin(2, BinOp::Sub, 2, 3),
        Step::Branch(2, 1),
        Step::Return(0),
    ],
};

/// The greatest common divisor of 1071 and 462.
const DIVISOR: Function = Function {
    name: b"main",
    parameters: 0,
    locals: &[],
    steps: &[
        Step::Const(0, 1071),
        Step::Const(1, 462),
        Step::Const(3, 0),
        Step::Label(1),
        Step::Bin(2, BinOp::URem, 0, 1),
        Step::Bin(0, BinOp::Or, 1, 3),
        Step::Bin(1, BinOp::Or, 2, 3),
        Step::Branch(1, 1),
        Step::Return(0),
    ],
};

/// The power of 3 to 13.
const POWER: Function = Function {
    name: b"main",
    parameters: 0,
    locals: &[],
    steps: &[
        Step::Const(0, 1),
        Step::Const(1, 3),
        Step::Const(2, 13),
        Step::Const(3, 1),
        Step::Label(1),
        Step::Bin(0, BinOp::Mul, 0, 1),
        Step::Bin(2, BinOp::Sub, 2, 3),
        Step::Branch(2, 1),
        Step::Return(0),
    ],
};

/// How many steps of halving or of three times and one more lead from 27 to 1.
const COLLATZ: Function = Function {
    name: b"main",
    parameters: 0,
    locals: &[],
    steps: &[
        Step::Const(0, 27),
        Step::Const(1, 0),
        Step::Const(2, 1),
        Step::Const(3, 2),
        Step::Const(4, 3),
        Step::Label(1),
        Step::Bin(5, BinOp::URem, 0, 3),
        Step::Branch(5, 2),
        Step::Bin(0, BinOp::UDiv, 0, 3),
        Step::Jump(3),
        Step::Label(2),
        Step::Bin(0, BinOp::Mul, 0, 4),
        Step::Bin(0, BinOp::Add, 0, 2),
        Step::Label(3),
        Step::Bin(1, BinOp::Add, 1, 2),
        Step::Bin(5, BinOp::Ne, 0, 2),
        Step::Branch(5, 1),
        Step::Return(1),
    ],
};

/// The low byte of a number, with its sign.
const SIGNED_BYTE: Function = Function {
    name: b"main",
    parameters: 0,
    locals: &[1],
    steps: &[
        Step::Const(0, 2),
        Step::Un(0, UnOp::Neg, 0),
        Step::Local(1, 0),
        Step::Store(1, 0, 1),
        Step::Load(2, 1, 1, true),
        Step::Return(2),
    ],
};

/// The low half word of a number, without a sign.
const HALF: Function = Function {
    name: b"main",
    parameters: 0,
    locals: &[2],
    steps: &[
        Step::Const(0, 0x1_8001),
        Step::Local(1, 0),
        Step::Store(1, 0, 2),
        Step::Load(2, 1, 2, false),
        Step::Return(2),
    ],
};

/// Four numbers of an array, stored and summed up by a pointer.
const ARRAY: Function = Function {
    name: b"main",
    parameters: 0,
    locals: &[32],
    steps: &[
        Step::Local(0, 0),
        Step::Const(1, 32),
        Step::Bin(2, BinOp::Add, 0, 1),
        Step::Const(3, 8),
        Step::Const(4, 1),
        Step::Const(6, 0),
        Step::Bin(5, BinOp::Add, 0, 6),
        Step::Label(1),
        Step::Store(5, 4, 8),
        Step::Bin(4, BinOp::Mul, 4, 3),
        Step::Bin(5, BinOp::Add, 5, 3),
        Step::Bin(7, BinOp::Ne, 5, 2),
        Step::Branch(7, 1),
        Step::Bin(5, BinOp::Add, 6, 0),
        Step::Const(8, 0),
        Step::Label(2),
        Step::Load(9, 5, 8, false),
        Step::Bin(8, BinOp::Add, 8, 9),
        Step::Bin(5, BinOp::Add, 5, 3),
        Step::Bin(7, BinOp::ULt, 5, 2),
        Step::Branch(7, 2),
        Step::Return(8),
    ],
};

/// Two numbers change their places, by pointers.
const SWAP: Function = Function {
    name: b"swap",
    parameters: 2,
    locals: &[8, 8],
    steps: &[
        Step::Local(0, 0),
        Step::Load(0, 0, 8, false),
        Step::Local(1, 1),
        Step::Load(1, 1, 8, false),
        Step::Load(2, 0, 8, false),
        Step::Load(3, 1, 8, false),
        Step::Store(0, 3, 8),
        Step::Store(1, 2, 8),
        Step::Const(4, 0),
        Step::Return(4),
    ],
};

const CALLS_SWAP: Function = Function {
    name: b"main",
    parameters: 0,
    locals: &[8, 8],
    steps: &[
        Step::Const(0, 7),
        Step::Const(1, 9),
        Step::Local(2, 0),
        Step::Local(3, 1),
        Step::Store(2, 0, 8),
        Step::Store(3, 1, 8),
        Step::Call(4, b"swap", &[2, 3]),
        Step::Load(5, 2, 8, false),
        Step::Load(6, 3, 8, false),
        Step::Const(7, 10),
        Step::Bin(5, BinOp::Mul, 5, 7),
        Step::Bin(5, BinOp::Add, 5, 6),
        Step::Return(5),
    ],
};

/// The distance of two places of an object.
const DISTANCE: Function = Function {
    name: b"main",
    parameters: 0,
    locals: &[64],
    steps: &[
        Step::Local(0, 0),
        Step::Const(1, 24),
        Step::Bin(2, BinOp::Add, 0, 1),
        Step::Bin(3, BinOp::Sub, 2, 0),
        Step::Return(3),
    ],
};

/// Whether a number is even, by calls of one another.
const EVEN: Function = Function {
    name: b"even",
    parameters: 1,
    locals: &[8],
    steps: &[
        Step::Local(0, 0),
        Step::Load(0, 0, 8, false),
        Step::Const(1, 1),
        Step::Branch(0, 1),
        Step::Return(1),
        Step::Label(1),
        Step::Bin(0, BinOp::Sub, 0, 1),
        Step::Call(0, b"odd", &[0]),
        Step::Return(0),
    ],
};

const ODD: Function = Function {
    name: b"odd",
    parameters: 1,
    locals: &[8],
    steps: &[
        Step::Local(0, 0),
        Step::Load(0, 0, 8, false),
        Step::Const(1, 1),
        Step::Branch(0, 1),
        Step::Return(0),
        Step::Label(1),
        Step::Bin(0, BinOp::Sub, 0, 1),
        Step::Call(0, b"even", &[0]),
        Step::Return(0),
    ],
};

const CALLS_EVEN: Function = Function {
    name: b"main",
    parameters: 0,
    locals: &[],
    steps: &[
        Step::Const(0, 10),
        Step::Call(0, b"even", &[0]),
        Step::Return(0),
    ],
};

/// The function of Ackermann and Peter.
const ACKERMANN: Function = Function {
    name: b"a",
    parameters: 2,
    locals: &[8, 8],
    steps: &[
        Step::Local(0, 0),
        Step::Load(0, 0, 8, false),
        Step::Local(1, 1),
        Step::Load(1, 1, 8, false),
        Step::Const(2, 1),
        Step::Branch(0, 1),
        Step::Bin(1, BinOp::Add, 1, 2),
        Step::Return(1),
        Step::Label(1),
        Step::Branch(1, 2),
        Step::Bin(0, BinOp::Sub, 0, 2),
        Step::Call(0, b"a", &[0, 2]),
        Step::Return(0),
        Step::Label(2),
        Step::Bin(1, BinOp::Sub, 1, 2),
        Step::Call(1, b"a", &[0, 1]),
        Step::Bin(0, BinOp::Sub, 0, 2),
        Step::Call(0, b"a", &[0, 1]),
        Step::Return(0),
    ],
};

const CALLS_ACKERMANN: Function = Function {
    name: b"main",
    parameters: 0,
    locals: &[],
    steps: &[
        Step::Const(0, 2),
        Step::Const(1, 3),
        Step::Call(0, b"a", &[0, 1]),
        Step::Return(0),
    ],
};

pub const CASES: [Case; 2] = [
    Case {
        functions: &[COUNT_DOWN],
        input: b"",
        output: b"\x03\x02\x01",
        result: 0,
    },
    Case {
        functions: &[ECHO],
        input: b"q",
        output: b"qq",
        result: 0xffff_ffff_ffff_ffff,
    },
];

/// Programs that read and print nothing, and their results.
pub const RESULTS: [(&[Function], u64); 14] = [
    (&[DIGITS, CALLS_DIGITS], 123_458 * 100),
    (&[FACTORIAL, CALLS_FACTORIAL], 2_432_902_008_176_640_000),
    (&[SUM], 55),
    (&[FIBONACCI], 832_040),
    (&[DIVISOR], 21),
    (&[POWER], 1_594_323),
    (&[COLLATZ], 111),
    (&[SIGNED_BYTE], 0xffff_ffff_ffff_fffe),
    (&[HALF], 0x8001),
    (&[ARRAY], 585),
    (&[SWAP, CALLS_SWAP], 97),
    (&[DISTANCE], 24),
    (&[EVEN, ODD, CALLS_EVEN], 1),
    (&[ACKERMANN, CALLS_ACKERMANN], 9),
];
