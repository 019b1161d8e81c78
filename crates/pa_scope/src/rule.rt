/// The rules of types of this subset of C, by the order in which they are tried at one construct.
#[derive(Clone, Copy, Debug, PartialEq, Eq)]
pub enum TypeRule {
    /// A name that is used, or a tag, is not declared.
    C1,
    /// A name, a tag, a body or an initializer stands twice.
    C2,
    /// An operand is no lvalue where one is asked for.
    C3,
    /// A constant object is written.
    C4,
    /// An operand is not arithmetic, nor a pointer to an object beside an integer.
    C5,
    /// An operand or a condition is not scalar.
    C6,
    /// Two pointers have types that do not go together.
    C7,
    /// What is called is no function.
    C8,
    /// The count of arguments differs.
    C9,
    /// A value cannot be converted to the type that is wanted.
    C10,
    /// A type is incomplete, is that of a function, or is too large, where it may not be.
    C11,
    /// There is no such member.
    C12,
    /// An expression is not constant.
    C13,
    /// A constant, a length or an argument of a qualifier is out of range.
    C14,
    /// A cast goes to or from a pointer to a function.
    C15,
    /// A cast goes between a pointer and an integer.
    C16,
    /// A `__ptrauth` stands on another type than a pointer to a function, or on one that has it.
    C17,
    /// A `__ptrauth` is on the type of a parameter, a result or a cast.
    C18,
    /// The key of a `__ptrauth` is not that of functions.
    C19,
    /// A label, `break` or `continue` stands outside of what it belongs to.
    C20,
    /// Two labels of one `switch` are the same.
    C21,
    /// A function has more than eight parameters.
    C22,
    /// A struct is a parameter, a result or an assigned value.
    C23,
    /// A name that begins with `ptrauth_` is not brought in, or the discriminator of a string is asked for in another form.
    C24,
    /// There are more initializers than parts, or a string is longer than its array.
    C25,
    /// Two declarations of one name have different types.
    C26,
    /// A `return` has a value where none is due, or none where one is.
    C27,
}
