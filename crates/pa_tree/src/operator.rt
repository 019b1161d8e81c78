ghost use Rattle.std.specs.Prelude.{◌≡◌};
ghost use Rattle.pa_tree.specs.Operators as spec;

use pa_lex::{Keyword, Punct};

/// An operator that adds or takes one (C11 6.5.2.4).
#[derive(Clone, Copy, Debug, PartialEq, Eq)]
pub enum Step {
    Increment,
    Decrement,
}

/// An operator in front of its operand (C11 6.5.3).
#[derive(Clone, Copy, Debug, PartialEq, Eq)]
pub enum PrefixOperator {
    Increment,
    Decrement,
    /// `&`
    Address,
    /// `*`
    Indirection,
    Plus,
    Minus,
    /// `~`
    Complement,
    /// `!`
    Not,
}

/// An operator between its operands (C11 6.5.5 to 6.5.14, 6.5.16, 6.5.17).
#[derive(Clone, Copy, Debug, PartialEq, Eq)]
pub enum BinaryOperator {
    Comma,
    Assign,
    MultiplyAssign,
    DivideAssign,
    RemainderAssign,
    AddAssign,
    SubtractAssign,
    ShiftLeftAssign,
    ShiftRightAssign,
    AndAssign,
    XorAssign,
    OrAssign,
    LogicalOr,
    LogicalAnd,
    /// `|`
    Or,
    /// `^`
    Xor,
    /// `&`
    And,
    Equal,
    NotEqual,
    Less,
    Greater,
    LessEqual,
    GreaterEqual,
    ShiftLeft,
    ShiftRight,
    Add,
    Subtract,
    Multiply,
    Divide,
    Remainder,
}

/// A word of an integer type (C11 6.7.2).
#[derive(Clone, Copy, Debug, PartialEq, Eq)]
pub enum IntegerWord {
    Char,
    Short,
    Int,
    Long,
    Signed,
    Unsigned,
}

/// The nonterminals of expressions (C11 6.5) by numbers, the loosest first.
pub const COND_LEVEL: u8 = 2;
/// A cast expression.
pub const CAST_LEVEL: u8 = 13;
/// A unary expression.
pub const UNARY_LEVEL: u8 = 14;

impl BinaryOperator {
    /// The operator that a punctuator is between operands.
    pub fn from_punct(punct: Punct) -> Option<BinaryOperator>
        ensures { result ≡ spec.operator_of punct }
    {
        Some(match punct {
            Punct::Comma => BinaryOperator::Comma,
            Punct::Assign => BinaryOperator::Assign,
            Punct::MultiplyAssign => BinaryOperator::MultiplyAssign,
            Punct::DivideAssign => BinaryOperator::DivideAssign,
            Punct::RemainderAssign => BinaryOperator::RemainderAssign,
            Punct::AddAssign => BinaryOperator::AddAssign,
            Punct::SubtractAssign => BinaryOperator::SubtractAssign,
            Punct::ShiftLeftAssign => BinaryOperator::ShiftLeftAssign,
            Punct::ShiftRightAssign => BinaryOperator::ShiftRightAssign,
            Punct::AndAssign => BinaryOperator::AndAssign,
            Punct::XorAssign => BinaryOperator::XorAssign,
            Punct::OrAssign => BinaryOperator::OrAssign,
            Punct::LogicalOr => BinaryOperator::LogicalOr,
            Punct::LogicalAnd => BinaryOperator::LogicalAnd,
            Punct::Bar => BinaryOperator::Or,
            Punct::Caret => BinaryOperator::Xor,
            Punct::Ampersand => BinaryOperator::And,
            Punct::Equal => BinaryOperator::Equal,
            Punct::NotEqual => BinaryOperator::NotEqual,
            Punct::Less => BinaryOperator::Less,
            Punct::Greater => BinaryOperator::Greater,
            Punct::LessEqual => BinaryOperator::LessEqual,
            Punct::GreaterEqual => BinaryOperator::GreaterEqual,
            Punct::ShiftLeft => BinaryOperator::ShiftLeft,
            Punct::ShiftRight => BinaryOperator::ShiftRight,
            Punct::Plus => BinaryOperator::Add,
            Punct::Minus => BinaryOperator::Subtract,
            Punct::Star => BinaryOperator::Multiply,
            Punct::Slash => BinaryOperator::Divide,
            Punct::Percent => BinaryOperator::Remainder,
            _ => return None,
        })
    }

    /// The number of the nonterminal that has the operator: 0 an expression, 1 an assignment, 3 to 12 from `||` to `*`.
    pub fn level(self) -> u8
        ensures { result ≡ spec.level_of self }
    {
        match self {
            BinaryOperator::Comma => 0,
            BinaryOperator::Assign
            | BinaryOperator::MultiplyAssign
            | BinaryOperator::DivideAssign
            | BinaryOperator::RemainderAssign
            | BinaryOperator::AddAssign
            | BinaryOperator::SubtractAssign
            | BinaryOperator::ShiftLeftAssign
            | BinaryOperator::ShiftRightAssign
            | BinaryOperator::AndAssign
            | BinaryOperator::XorAssign
            | BinaryOperator::OrAssign => 1,
            BinaryOperator::LogicalOr => 3,
            BinaryOperator::LogicalAnd => 4,
            BinaryOperator::Or => 5,
            BinaryOperator::Xor => 6,
            BinaryOperator::And => 7,
            BinaryOperator::Equal | BinaryOperator::NotEqual => 8,
            BinaryOperator::Less
            | BinaryOperator::Greater
            | BinaryOperator::LessEqual
            | BinaryOperator::GreaterEqual => 9,
            BinaryOperator::ShiftLeft | BinaryOperator::ShiftRight => 10,
            BinaryOperator::Add | BinaryOperator::Subtract => 11,
            BinaryOperator::Multiply | BinaryOperator::Divide | BinaryOperator::Remainder => 12,
        }
    }

    /// The number of the nonterminal of its right operand.
    pub fn right_level(self) -> u8
        ensures { result ≡ spec.right_level self }
    {
        match self.level() {
            1 => 1,
            level => level + 1,
        }
    }
}

impl PrefixOperator {
    /// The operator that a punctuator is in front of an operand.
    pub fn from_punct(punct: Punct) -> Option<PrefixOperator>
        ensures { result ≡ spec.prefix_of punct }
    {
        Some(match punct {
            Punct::Increment => PrefixOperator::Increment,
            Punct::Decrement => PrefixOperator::Decrement,
            Punct::Ampersand => PrefixOperator::Address,
            Punct::Star => PrefixOperator::Indirection,
            Punct::Plus => PrefixOperator::Plus,
            Punct::Minus => PrefixOperator::Minus,
            Punct::Tilde => PrefixOperator::Complement,
            Punct::Exclamation => PrefixOperator::Not,
            _ => return None,
        })
    }

    /// The number of the nonterminal of its operand.
    pub fn operand_level(self) -> u8
        ensures { result ≡ spec.prefix_level self }
    {
        match self {
            PrefixOperator::Increment | PrefixOperator::Decrement => UNARY_LEVEL,
            _ => CAST_LEVEL,
        }
    }
}

impl IntegerWord {
    /// The word of an integer type that a keyword is.
    pub fn from_keyword(keyword: Keyword) -> Option<IntegerWord>
        ensures { result ≡ spec.word_in keyword }
    {
        Some(match keyword {
            Keyword::Char => IntegerWord::Char,
            Keyword::Short => IntegerWord::Short,
            Keyword::Int => IntegerWord::Int,
            Keyword::Long => IntegerWord::Long,
            Keyword::Signed => IntegerWord::Signed,
            Keyword::Unsigned => IntegerWord::Unsigned,
            _ => return None,
        })
    }
}
