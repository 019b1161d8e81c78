//! Levels of operators, and what tokens stand for one.

use pa_lex::{Keyword, Punct};
use pa_tree::{BinaryOperator, IntegerWord, PrefixOperator};

/// Operators from the loosest to the tightest, as C11 6.5 has them, and where their right operands begin.
#[test]
fn binds_as_the_standard_says(rt: HostRuntime) {
    let rows = [
        (Punct::Comma, 0, 1),
        (Punct::Assign, 1, 1),
        (Punct::ShiftLeftAssign, 1, 1),
        (Punct::LogicalOr, 3, 4),
        (Punct::Bar, 5, 6),
        (Punct::Ampersand, 7, 8),
        (Punct::Less, 9, 10),
        (Punct::ShiftRight, 10, 11),
        (Punct::Minus, 11, 12),
        (Punct::Percent, 12, 13),
    ];
    for (punct, level, right) in rows {
        let op = BinaryOperator::from_punct(punct);
        assert_eq!(rt; op.map(BinaryOperator::level), Some(level));
        assert_eq!(rt; op.map(BinaryOperator::right_level), Some(right));
    }
    assert_eq!(rt; BinaryOperator::from_punct(Punct::Question), None);
}

#[test]
fn knows_what_stands_in_front(rt: HostRuntime) {
    assert_eq!(rt;
        PrefixOperator::from_punct(Punct::Star),
        Some(PrefixOperator::Indirection)
    );
    assert_eq!(rt; PrefixOperator::from_punct(Punct::Slash), None);
    assert_eq!(rt; PrefixOperator::Increment.operand_level(), 14);
    assert_eq!(rt; PrefixOperator::Not.operand_level(), 13);
    assert_eq!(rt;
        IntegerWord::from_keyword(Keyword::Unsigned),
        Some(IntegerWord::Unsigned)
    );
    assert_eq!(rt; IntegerWord::from_keyword(Keyword::Float), None);
}
