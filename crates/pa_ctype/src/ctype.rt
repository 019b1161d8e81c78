use pa_num::Sequence;

/// How many bytes an object has, and of which number its address is a multiple (C11 6.2.8).
#[derive(Clone, Copy, Debug, PartialEq, Eq)]
pub struct Layout {
    pub size: u64,
    pub align: u64,
}

/// A member of a struct: the numbers of its name and its type.
#[derive(Clone, Copy, Debug, PartialEq, Eq)]
pub struct Held {
    pub name: u32,
    pub of: u32,
}

/// The members of a struct in order.
pub type Members = Sequence<Held>;

/// Where a member lies in its struct, in bytes, and its place among the members from 0.
#[derive(Clone, Copy, Debug, PartialEq, Eq)]
pub struct Member {
    pub offset: u64,
    pub index: u32,
}
