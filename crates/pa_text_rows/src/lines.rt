use pa_a64::{Instr, LoadStorePairOp};
use pa_asmline::{Form, Kind, Line, Operand, Value, instruction, read_line};

const fn number(negative: bool, count: u32) -> Value {
    Value::Number { negative, count }
}

#[test]
fn lines_that_are_no_row(rt: HostRuntime) {
    assert!(rt; matches!(read_line(b""), Line::Blank));
    assert!(rt; matches!(read_line(b"// nop"), Line::Blank));
    assert!(rt; matches!(read_line(b"a:"), Line::Label { public: false, .. }));
    assert!(rt; matches!(read_line(b".globl a"), Line::Label { public: true, .. }));
    for text in [b"/ a".as_slice(), b":", b".globl", b"nop ", b"\xff"] {
        assert!(rt; matches!(read_line(text), Line::Unknown), "{text:?}");
    }
}

#[test]
fn a_row_and_its_instruction(rt: HostRuntime) {
    let Line::Row(row) = read_line(b"ldp x29, xzr, [sp, #-512]") else {
        panic!(rt; "a row");
    };
    let form = Form::LoadStorePair(LoadStorePairOp::Ldp);
    assert_eq!(rt; row.form, form);
    let values = [
        number(false, 29),
        number(false, 31),
        number(false, 31),
        number(true, 64),
    ];
    assert_eq!(rt; row.operands.len(), values.len());
    for (operand, value) in row.operands.as_slice().iter().zip(values.iter()) {
        assert!(rt; matches!(operand, Operand::Given(given) if given == value));
    }
    let pair = Instr::LoadStorePair {
        op: LoadStorePairOp::Ldp,
        rt: 29,
        rt2: 31,
        rn: 31,
        imm: -64,
    };
    assert_eq!(rt; instruction(form, &values), pair);
}

#[test]
fn a_name_keeps_its_kind(rt: HostRuntime) {
    let Line::Row(row) = read_line(b"add sp, x1, f@PAGEOFF") else {
        panic!(rt; "a row");
    };
    let [_, _, low] = row.operands.as_slice() else {
        panic!(rt; "three operands");
    };
    assert!(rt;
        matches!(low, Operand::Named { kind: Kind::PageOffset, name } if *name == b"f".as_slice())
    );
}
