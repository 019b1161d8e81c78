use crate::operator::{BinaryOperator, IntegerWord, PrefixOperator, Step};
use pa_lex::NameNumber;
use pa_num::Bytes;
use sqlite_items::{Boxed, Items};

/// The tag of a struct or an enumeration, with its place.
#[derive(Clone, Copy, Debug, PartialEq, Eq)]
pub struct Tag {
    pub name: NameNumber,
    pub from: u32,
    pub to: u32,
}

/// An expression (C11 6.5) or a constant expression (6.6).
#[cycle(syntax)]
#[derive(Drop)]
pub enum Expr {
    /// A name that is no type name (6.5.1).
    Identifier {
        name: NameNumber,
        from: u32,
        to: u32,
    },
    /// An integer constant, as its token has it.
    Integer {
        value: u64,
        decimal: bool,
        unsigned: bool,
        long: bool,
        from: u32,
        to: u32,
    },
    /// A character constant, as the value of a signed `char`.
    Character {
        value: i8,
        from: u32,
        to: u32,
    },
    /// String literals side by side, as the bytes of all of them (5.1.1.2, phase 6).
    Text {
        bytes: Bytes,
        from: u32,
        to: u32,
    },
    /// `( inner )`.
    Paren {
        inner: Boxed<Expr>,
        from: u32,
        to: u32,
    },
    /// `of [ at ]` (6.5.2.1).
    Index {
        of: Boxed<Expr>,
        at: Boxed<Expr>,
        from: u32,
        to: u32,
    },
    /// `of ( arguments )` (6.5.2.2).
    Call {
        of: Boxed<Expr>,
        arguments: Items<Expr>,
        from: u32,
        to: u32,
    },
    /// `of . member` (6.5.2.3).
    Dot {
        of: Boxed<Expr>,
        member: NameNumber,
        from: u32,
        to: u32,
    },
    /// `of -> member` (6.5.2.3).
    Arrow {
        of: Boxed<Expr>,
        member: NameNumber,
        from: u32,
        to: u32,
    },
    /// `of ++` or `of --` (6.5.2.4).
    Postfix {
        op: Step,
        of: Boxed<Expr>,
        from: u32,
        to: u32,
    },
    /// An operator in front of its operand (6.5.3).
    Prefix {
        op: PrefixOperator,
        of: Boxed<Expr>,
        from: u32,
        to: u32,
    },
    /// `sizeof of` (6.5.3.4).
    SizeofExpr {
        of: Boxed<Expr>,
        from: u32,
        to: u32,
    },
    /// `sizeof ( of )` (6.5.3.4).
    SizeofType {
        of: Boxed<TypeName>,
        from: u32,
        to: u32,
    },
    /// `( wanted ) of` (6.5.4).
    Cast {
        wanted: Boxed<TypeName>,
        of: Boxed<Expr>,
        from: u32,
        to: u32,
    },
    /// An operator between its operands (6.5.5 to 6.5.14, 6.5.16, 6.5.17).
    Binary {
        op: BinaryOperator,
        left: Boxed<Expr>,
        right: Boxed<Expr>,
        from: u32,
        to: u32,
    },
    /// `test ? when_true : when_false` (6.5.15).
    Conditional {
        test: Boxed<Expr>,
        when_true: Boxed<Expr>,
        when_false: Boxed<Expr>,
        from: u32,
        to: u32,
    },
}

/// A type name (6.7.7): specifiers and a declarator without a name.
#[cycle(syntax)]
#[derive(Drop)]
pub struct TypeName {
    pub specs: Specs,
    pub declarator: Declarator,
    pub from: u32,
    pub to: u32,
}

/// The specifiers and qualifiers in front of declarators (6.7.2, 6.7.3).
#[cycle(syntax)]
#[derive(Drop)]
pub struct Specs {
    pub before: Items<Qualifier>,
    pub base: Base,
    pub after: Items<Qualifier>,
    pub from: u32,
    pub to: u32,
}

/// A qualifier.
#[cycle(syntax)]
#[derive(Drop)]
pub enum Qualifier {
    /// `const` (6.7.3).
    Const {
        from: u32,
        to: u32,
    },
    /// `__ptrauth ( arguments )` with one to three of them (Clang's Pointer Authentication page).
    Ptrauth {
        arguments: Items<Expr>,
        from: u32,
        to: u32,
    },
}

/// What a type is, its qualifiers aside (6.7.2).
#[cycle(syntax)]
#[derive(Drop)]
pub enum Base {
    /// `void`.
    Void {
        from: u32,
        to: u32,
    },
    /// `_Bool`.
    Boolean {
        from: u32,
        to: u32,
    },
    /// An integer type by its words, in the order in which they stand.
    Words {
        words: Items<IntegerWord>,
        from: u32,
        to: u32,
    },
    /// A name that a typedef or `<stdint.h>` declares (6.7.8).
    TypedefName {
        name: NameNumber,
        from: u32,
        to: u32,
    },
    /// `struct tag` (6.7.2.3).
    StructTag {
        tag: Tag,
        from: u32,
        to: u32,
    },
    /// `struct tag { members }` with at least one of them (6.7.2.1).
    StructBody {
        tag: Option<Tag>,
        members: Items<Member>,
        from: u32,
        to: u32,
    },
    /// `enum tag` (6.7.2.3).
    EnumTag {
        tag: Tag,
        from: u32,
        to: u32,
    },
    /// `enum tag { enumerators }` with at least one of them (6.7.2.2).
    EnumBody {
        tag: Option<Tag>,
        enumerators: Items<Enumerator>,
        from: u32,
        to: u32,
    },
}

/// Members of a struct that share their specifiers (6.7.2.1).
#[cycle(syntax)]
#[derive(Drop)]
pub struct Member {
    pub specs: Specs,
    pub declarators: Items<Declarator>,
    pub from: u32,
    pub to: u32,
}

/// An enumeration constant, with its value where one is written (6.7.2.2).
#[cycle(syntax)]
#[derive(Drop)]
pub struct Enumerator {
    pub name: NameNumber,
    pub value: Option<Boxed<Expr>>,
    pub from: u32,
    pub to: u32,
}

/// A declarator (6.7.6), or an abstract one (6.7.7).
#[cycle(syntax)]
#[derive(Drop)]
pub enum Declarator {
    /// The name that is declared.
    Named {
        name: NameNumber,
        from: u32,
        to: u32,
    },
    /// No name: no token, at the end of the one before.
    Absent {
        from: u32,
        to: u32,
    },
    /// `* qualifiers of` (6.7.6.1).
    Pointer {
        qualifiers: Items<Qualifier>,
        of: Boxed<Declarator>,
        from: u32,
        to: u32,
    },
    /// `( inner )`.
    Grouped {
        inner: Boxed<Declarator>,
        from: u32,
        to: u32,
    },
    /// `of [ length ]` (6.7.6.2).
    Array {
        of: Boxed<Declarator>,
        length: Option<Boxed<Expr>>,
        from: u32,
        to: u32,
    },
    /// `of ( parameters )` (6.7.6.3).
    Function {
        of: Boxed<Declarator>,
        parameters: Parameters,
        from: u32,
        to: u32,
    },
}

/// What stands between the parentheses of a function's declarator.
#[cycle(syntax)]
#[derive(Drop)]
pub enum Parameters {
    /// Nothing, which means `void`: no token, at the end of the one before.
    Empty {
        from: u32,
        to: u32,
    },
    /// `void`.
    OnlyVoid {
        from: u32,
        to: u32,
    },
    /// One parameter or more, and not `void` alone.
    Listed {
        parameters: Items<Parameter>,
        from: u32,
        to: u32,
    },
}

/// A parameter, with a name or without.
#[cycle(syntax)]
#[derive(Drop)]
pub struct Parameter {
    pub specs: Specs,
    pub declarator: Declarator,
    pub from: u32,
    pub to: u32,
}
