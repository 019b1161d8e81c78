/// What an expression stands for (C11 6.3.2).
#[derive(Clone, Copy, Debug, PartialEq, Eq)]
pub enum Category {
    /// An lvalue (6.3.2.1p1).
    Lvalue,
    /// A place that is no lvalue, as a struct that `?:` or a comma gives.
    Temporary,
    /// A value.
    Value,
    /// A function (6.3.2.1p4).
    Designator,
}
