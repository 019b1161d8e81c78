use pa_a64::Instr;
use pa_asm::{AsmRule, assemble};
use pa_num::Fault;
use pa_object::{Object, RefKind};
use std::alloc::Global;
use std::process::Abort;

mod printer;
mod rows;

/// A text, and the rule and the line that it is refused by.
type Refused = (&'static str, AsmRule, u64);

fn assembled(rt: &impl Abort, alloc: Global, text: &str) -> Object {
    assert!(rt; text.len() <= 10_000);
    match assemble(alloc, text) {
        Ok(object) => object,
        Err(fault) => panic!(rt; "{fault:?} of {text}"),
    }
}

fn assert_words(rt: &impl Abort, alloc: Global, text: &str, words: &[u32]) {
    let object = assembled(rt, alloc, text);
    assert_eq!(rt; object.code.as_slice(), words, "of {text}");
}

fn assert_refused(rt: &impl Abort, alloc: Global, cases: &[Refused]) {
    for (text, rule, place) in cases.iter().copied() {
        assert!(rt; text.len() <= 10_000);
        match assemble(alloc, text) {
            Ok(_) => panic!(rt; "{text} is assembled"),
            Err(fault) => assert_eq!(rt; fault, Fault::Refused { rule, place }, "of {text}"),
        }
    }
}

/// The words are those that LLVM's assembler gives for arm64e.
#[test]
fn a_program(rt: HostRuntime) {
    let object = assembled(
        &rt,
        rt.alloc(),
        ".globl _main
pacibsp
sub sp, sp, #16
stp x29, x30, [sp, #0]
nop
ldp x29, x30, [sp, #0]
add sp, sp, #16
movz x0, #0
retab
",
    );
    assert_eq!(rt;
        object.code.as_slice(),
        [
            0xd503_237f,
            0xd100_43ff,
            0xa900_7bfd,
            0xd503_201f,
            0xa940_7bfd,
            0x9100_43ff,
            0xd280_0000,
            0xd65f_0fff
        ]
        .as_slice()
    );
    let [mark] = object.marks.as_slice() else {
        panic!(rt; "one mark");
    };
    assert_eq!(rt; mark.name.as_slice(), b"_main".as_slice());
    assert_eq!(rt; (mark.at, mark.public), (0, true));
    assert!(rt; object.refs.is_empty() && object.globals.is_empty());
}

#[test]
fn each_rule(rt: HostRuntime) {
    assert_refused(
        &rt,
        rt.alloc(),
        &[
            ("movz x0, #65536\n", AsmRule::A2, 1),
            ("frob\n", AsmRule::A1, 1),
            ("b here\n", AsmRule::A3, 1),
            ("a:\na:\n", AsmRule::A4, 2),
            ("a:\n.globl a\n", AsmRule::A4, 2),
            ("nop\n\nb here\nfrob\n", AsmRule::A3, 3),
            ("bcond #16, here\n", AsmRule::A2, 1),
            ("ldp x1, x1, [x2, #0]\n", AsmRule::A2, 1),
            ("ldr x1, [x2, #4]\n", AsmRule::A2, 1),
            ("ldr x1, [x2, #-8]\n", AsmRule::A2, 1),
            ("ldr x1, [x2, #32768]\n", AsmRule::A2, 1),
            ("ldur x1, [x2, #-257]\n", AsmRule::A2, 1),
            ("movz x0, #99999999999999999999\n", AsmRule::A2, 1),
            ("movz x0, #0, lsl #8\n", AsmRule::A2, 1),
            ("movz x0, #0, lsl #64\n", AsmRule::A2, 1),
            ("movz x0, #1, lsl #-16\n", AsmRule::A2, 1),
            ("ldp xzr, xzr, [sp, #0]\n", AsmRule::A2, 1),
            ("add x0, x1, #5000\n", AsmRule::A2, 1),
            ("subs x0, sp, #5000\n", AsmRule::A2, 1),
        ],
    );
}

/// A line that breaks two rules, and lines that break one each: the first line, and on it A1 before A2.
#[test]
fn the_first_of_two(rt: HostRuntime) {
    assert_refused(
        &rt,
        rt.alloc(),
        &[
            ("movz sp, #65536\n", AsmRule::A1, 1),
            ("add xzr, x1, #5000\n", AsmRule::A1, 1),
            ("frob\nb here\n", AsmRule::A1, 1),
            ("a:\nb here\na:\n", AsmRule::A3, 2),
            ("movz x0, #65536\na:\na:\n", AsmRule::A2, 1),
            ("a:\na:\nfrob\n", AsmRule::A4, 2),
            (".globl a\na:\n", AsmRule::A4, 2),
        ],
    );
}

#[test]
fn lines_of_no_form(rt: HostRuntime) {
    for text in [
        "movz x0,#1",
        "movz  x0, #1",
        " nop",
        "nop ",
        "nop\r",
        "NOP",
        "movz x31, #1",
        "movz sp, #1",
        "add x0, x1, #1, lsl #0",
        "add x0, x1, #1, lsl #13",
        "add x0, xzr, #1",
        "add xzr, x1, f@PAGEOFF",
        "add x0, x1, f@PAGEOFF, lsl #12",
        "movz x0, #01",
        "movz x0, #-0",
        "movz x0, #+1",
        "movz x0, 1",
        "b #4",
        "bl #4",
        "b 1a",
        "1a:",
        "a :",
        ".globl",
        ".globl a b",
        "ldr x0, [x1]",
        "ldr x0, [xzr, #0]",
        "frob\u{e9}",
        "\r",
        "nop\t",
        "ret",
        "movz w0, #1",
        "movz X0, #1",
        "movz x0, #0x10",
        "movz x0, # 1",
        "movz x0, #1, lsl #016",
        "bcond eq, a",
        "adrp x0, f@PAGEOFF",
        "adrp x0, f@GOTPAGE",
        "add x0, x1, f@PAGE",
    ] {
        assert_refused(&rt, rt.alloc(), &[(text, AsmRule::A1, 1)]);
    }
}

#[test]
fn other_lines_give_nothing(rt: HostRuntime) {
    assert_words(&rt, rt.alloc(), "", &[]);
    assert_words(
        &rt,
        rt.alloc(),
        "\n// a comment, \u{e9}\r\na:\n.globl b\n\nnop",
        &[0xd503_201f],
    );
    assert_words(&rt, rt.alloc(), "add x0, x1, #0, lsl #12", &[0x9140_0020]);
}

#[test]
fn labels_before_and_behind(rt: HostRuntime) {
    assert_words(&rt, rt.alloc(), "a:\nb a\n", &[0x1400_0000]);
    assert_words(
        &rt,
        rt.alloc(),
        "cbz x1, b\nnop\nb:\nbcond #1, b\n",
        &[0xb400_0041, 0xd503_201f, 0x5400_0001],
    );
    assert_words(
        &rt,
        rt.alloc(),
        "a:\nnop\ncbz x1, a\ncbnz x1, a\nbcond #1, a\nb a\n",
        &[
            0xd503_201f,
            0xb4ff_ffe1,
            0xb5ff_ffc1,
            0x54ff_ffa1,
            0x17ff_fffc,
        ],
    );
    assert_words(
        &rt,
        rt.alloc(),
        "x0:\nnop\nbl x0\n",
        &[0xd503_201f, 0x97ff_ffff],
    );
}

#[test]
fn names_that_are_filled_later(rt: HostRuntime) {
    let object = assembled(
        &rt,
        rt.alloc(),
        "bl f\nadrp x1, g@PAGE\nadd sp, x1, g@PAGEOFF\ng:\nbl g\n",
    );
    assert_eq!(rt;
        object.code.as_slice(),
        [0x9400_0000, 0x9000_0001, 0x9100_003f, 0x9400_0000].as_slice()
    );
    let [call, page, low] = object.refs.as_slice() else {
        panic!(rt; "three references");
    };
    assert_eq!(rt;
        (call.at, call.kind, call.name.as_slice()),
        (0, RefKind::Call, b"f".as_slice())
    );
    assert_eq!(rt;
        (page.at, page.kind, page.name.as_slice()),
        (1, RefKind::Page, b"g".as_slice())
    );
    assert_eq!(rt;
        (low.at, low.kind, low.name.as_slice()),
        (2, RefKind::Low, b"g".as_slice())
    );
    assert!(rt; object.marks.is_empty());
}

/// The instruction is printed, and assembled again.
fn assert_read(rt: &impl Abort, alloc: Global, instr: Instr) {
    assert!(rt; pa_a64::in_range(instr));
    let text = printer::text_of(alloc, instr).expect(rt, "memory");
    assert_words(rt, alloc, text.as_str(), &[pa_a64::encode(instr)]);
}
