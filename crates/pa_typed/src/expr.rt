use pa_ctype::Shape;
use pa_pac::Schema;
use sqlite_items::{Boxed, Items};

/// What is done to one value (C11 6.5.3.3).
#[derive(Clone, Copy, Debug, PartialEq, Eq)]
pub enum UnaryOperation {
    Minus,
    /// `~`
    Complement,
    /// `!`
    Not,
}

/// What is done to two values (C11 6.5.5 to 6.5.7, 6.5.10 to 6.5.12).
#[derive(Clone, Copy, Debug, PartialEq, Eq)]
pub enum BinaryOperation {
    Multiply,
    Divide,
    Remainder,
    Add,
    Subtract,
    ShiftLeft,
    ShiftRight,
    /// `&`
    And,
    /// `^`
    Xor,
    /// `|`
    Or,
}

/// How two values are compared (C11 6.5.8, 6.5.9).
#[derive(Clone, Copy, Debug, PartialEq, Eq)]
pub enum Comparison {
    Less,
    Greater,
    LessEqual,
    GreaterEqual,
    Equal,
    NotEqual,
}

/// The type of a typed expression, of a part of an object or of a `case`: its number in the table of types, and its shape, so
/// that no later pass looks the number up.
#[derive(Clone, Copy, Debug, PartialEq, Eq)]
pub struct ExprType {
    pub number: u32,
    pub shape: Shape,
}

/// An expression of C with its type `of`, each conversion written out. The first six and `Deref` stand for places (C11 6.3.2.1),
/// `Choose` and `Comma` for places where `of` is a struct, and all others for values. The parts stand in the order in which they
/// are evaluated.
#[derive(Drop)]
pub enum TExpr {
    /// A local of the function, by its number.
    LocalPlace {
        local: u32,
        of: ExprType,
    },
    /// A global, with the place of its name in the file.
    GlobalPlace {
        name: u32,
        place: u64,
        of: ExprType,
    },
    /// A string literal, by its number among the texts of the unit or program. Two literals are two objects, also where their
    /// bytes are the same.
    StringPlace {
        text: u32,
        of: ExprType,
    },
    /// The place of the innermost store around it, which is evaluated once.
    Same {
        of: ExprType,
    },
    /// A member of the struct at a place: its place among the members, and its offset in bytes.
    Member {
        owner: Boxed<TExpr>,
        index: u32,
        offset: u64,
        of: ExprType,
    },
    /// `left[right]`, where one side is a pointer.
    Index {
        left: Boxed<TExpr>,
        right: Boxed<TExpr>,
        pointer_left: bool,
        of: ExprType,
    },
    /// What a pointer points to.
    Deref {
        pointer: Boxed<TExpr>,
        of: ExprType,
    },
    /// A number of an integer type, in 64 bits of two's complement.
    Number {
        value: u64,
        of: ExprType,
    },
    /// The value at a place.
    Load {
        from: Boxed<TExpr>,
        of: ExprType,
    },
    /// The value at a place whose pointer is signed.
    LoadSigned {
        from: Boxed<TExpr>,
        schema: Schema,
        of: ExprType,
    },
    /// Stores a value at a place. It gives that value, or the old one where `old` is set (`x++`).
    Store {
        to: Boxed<TExpr>,
        value: Boxed<TExpr>,
        old: bool,
        of: ExprType,
    },
    /// As `Store`, at a place whose pointer is signed.
    StoreSigned {
        to: Boxed<TExpr>,
        value: Boxed<TExpr>,
        old: bool,
        schema: Schema,
        of: ExprType,
    },
    /// A pointer to a place.
    AddressOf {
        at: Boxed<TExpr>,
        of: ExprType,
    },
    /// A function's name that is not called, with its place in the file.
    FunctionValue {
        name: u32,
        place: u64,
        of: ExprType,
    },
    /// A conversion to the type `of` (C11 6.3).
    Convert {
        value: Boxed<TExpr>,
        of: ExprType,
    },
    /// An operator on one value (C11 6.5.3.3).
    Unary {
        op: UnaryOperation,
        value: Boxed<TExpr>,
        of: ExprType,
    },
    /// An operator on two values of one type, a shift's aside (C11 6.5.5 to 6.5.7, 6.5.10 to 6.5.12).
    Binary {
        op: BinaryOperation,
        left: Boxed<TExpr>,
        right: Boxed<TExpr>,
        of: ExprType,
    },
    /// A pointer and an integer, which is added or subtracted (C11 6.5.6).
    PointerAdd {
        left: Boxed<TExpr>,
        right: Boxed<TExpr>,
        pointer_left: bool,
        subtracts: bool,
        of: ExprType,
    },
    /// The difference of two pointers in elements (C11 6.5.6).
    PointerSub {
        left: Boxed<TExpr>,
        right: Boxed<TExpr>,
        of: ExprType,
    },
    /// A comparison (C11 6.5.8, 6.5.9).
    Compare {
        op: Comparison,
        left: Boxed<TExpr>,
        right: Boxed<TExpr>,
        of: ExprType,
    },
    /// `left && right` (C11 6.5.13).
    And {
        left: Boxed<TExpr>,
        right: Boxed<TExpr>,
        of: ExprType,
    },
    /// `left || right` (C11 6.5.14).
    Or {
        left: Boxed<TExpr>,
        right: Boxed<TExpr>,
        of: ExprType,
    },
    /// `test ? when_true : when_false` (C11 6.5.15).
    Choose {
        test: Boxed<TExpr>,
        when_true: Boxed<TExpr>,
        when_false: Boxed<TExpr>,
        of: ExprType,
    },
    /// `first , second` (C11 6.5.17).
    Comma {
        first: Boxed<TExpr>,
        second: Boxed<TExpr>,
        of: ExprType,
    },
    /// A call of a function by its name, with the name's place in the file (C11 6.5.2.2).
    CallDirect {
        name: u32,
        place: u64,
        arguments: Items<TExpr>,
        of: ExprType,
    },
    /// A call by a pointer, which is evaluated after the arguments.
    CallPointer {
        arguments: Items<TExpr>,
        function: Boxed<TExpr>,
        of: ExprType,
    },
}
