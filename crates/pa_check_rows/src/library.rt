//! Libraries, whose functions begin with the text.

use crate::sample::{Row, Want, library_answers};
use crate::words::{NOP, PACIBSP, RETAB};
use pa_check::CheckRule;
use std::test::Fail;

#[test]
fn functions_begin_with_the_text(rt: HostRuntime) -> Result<(), Fail> {
    let rows = [
        Row {
            words: &[PACIBSP, RETAB],
            marks: &[0],
            want: Want::Windowed,
        },
        Row {
            words: &[],
            marks: &[],
            want: Want::Windowed,
        },
        Row {
            words: &[NOP, PACIBSP, RETAB],
            marks: &[1],
            want: Want::Bad(CheckRule::K1, 1024),
        },
        Row {
            words: &[PACIBSP, RETAB],
            marks: &[],
            want: Want::Bad(CheckRule::K1, 1024),
        },
        Row {
            words: &[NOP, RETAB],
            marks: &[0],
            want: Want::Bad(CheckRule::K1, 1024),
        },
    ];
    for row in &rows {
        assert!(rt; library_answers(rt.alloc(), row)?);
    }
    Ok(())
}
