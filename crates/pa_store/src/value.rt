/// Which object: a global by the number of its name, a string literal by its number, a local object by its number among all objects
/// in the order in which they come to life.
#[derive(Clone, Copy, Debug, PartialEq, Eq, Hash)]
pub enum Owner {
    Global { name: u32 },
    Text { index: u32 },
    Local { number: u64 },
}

/// So many bytes behind an object's first one.
#[derive(Clone, Copy, Debug, PartialEq, Eq, Hash)]
pub struct Place {
    pub owner: Owner,
    pub offset: u64,
}

/// A number, a place, a function by the number of its name, or null (C11 3.19).
#[derive(Clone, Copy, Debug, PartialEq, Eq)]
pub enum Value {
    Number { number: i128 },
    At { place: Place },
    Code { name: u32 },
    Null,
}
