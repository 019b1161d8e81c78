ghost use Rattle.std.specs.Prelude.{◌≡◌};
ghost use Rattle.pa_ctype.specs.Nodes as spec;

use crate::ctype::Layout;
use pa_pac::{Key, Schema};

/// A key of a schema (`pa_pac::Key`), with a hash.
#[derive(Clone, Copy, Debug, PartialEq, Eq, Hash)]
pub enum SchemaKey {
    IA,
    IB,
    DA,
    DB,
    GA,
}

impl SchemaKey {
    fn new(key: Key) -> SchemaKey
        ensures { spec.key_of result ≡ key }
    {
        match key {
            Key::IA => SchemaKey::IA,
            Key::IB => SchemaKey::IB,
            Key::DA => SchemaKey::DA,
            Key::DB => SchemaKey::DB,
            Key::GA => SchemaKey::GA,
        }
    }

    /// The key.
    pub fn key(self) -> Key
        ensures { result ≡ spec.key_of self }
    {
        match self {
            SchemaKey::IA => Key::IA,
            SchemaKey::IB => Key::IB,
            SchemaKey::DA => Key::DA,
            SchemaKey::DB => Key::DB,
            SchemaKey::GA => Key::GA,
        }
    }
}

/// A schema (`__ptrauth` of Clang's Pointer Authentication page), with a hash.
#[derive(Clone, Copy, Debug, PartialEq, Eq, Hash)]
pub struct Qualifier {
    pub key: SchemaKey,
    pub addr: bool,
    pub disc: u16,
}

impl Qualifier {
    /// The qualifier of a schema.
    pub fn new(schema: Schema) -> Qualifier
        ensures { spec.schema_of result ≡ schema }
    {
        Qualifier {
            key: SchemaKey::new(schema.key),
            addr: schema.addr,
            disc: schema.disc,
        }
    }

    /// The schema of the qualifier.
    pub fn schema(self) -> Schema
        ensures { result ≡ spec.schema_of self }
    {
        Schema {
            key: self.key.key(),
            addr: self.addr,
            disc: self.disc,
        }
    }
}

/// A type of C11 (6.2.5) whose parts stand in the table of types, by their numbers. Typedefs are put in.
#[derive(Clone, Copy, Debug, PartialEq, Eq, Hash)]
pub enum Node {
    Void,
    /// `_Bool`.
    Bool,
    /// An integer type of 8, 16, 32 or 64 bits. Enumerated types are that of `int`.
    Int {
        bits: u8,
        signed: bool,
    },
    /// A pointer, with the schema of its `__ptrauth` qualifier.
    Pointer {
        to: u32,
        qualifier: Option<Qualifier>,
    },
    /// Without a `count` the array has no length.
    Array {
        of: u32,
        count: Option<u64>,
    },
    /// The struct of this place in the table of structs.
    Struct {
        id: u32,
    },
    /// A function without parameters.
    Returns {
        of: u32,
    },
    /// A function: its first parameter, and the function of the others.
    Takes {
        param: u32,
        rest: u32,
    },
    /// The type with `const`. That of an array is on its elements (C11 6.7.3p9), and a function has none.
    Constant {
        of: u32,
    },
}

/// How large objects of a type are, as far as it is known without the structs.
#[derive(Clone, Copy, Debug, PartialEq, Eq)]
pub(crate) enum Extent {
    /// There are no objects of the type, or none that is small enough.
    Nowhere,
    Fixed { layout: Layout },
    /// So many objects of a struct side by side.
    Structs { id: u32, count: u64 },
}

/// What is kept of a type.
#[derive(Clone, Copy, Debug, PartialEq, Eq)]
pub(crate) struct Facts {
    /// How many pointers, arrays and functions are in one another.
    pub(crate) depth: u32,
    /// The number of the type without qualifiers at any level.
    pub(crate) bare: u32,
    pub(crate) extent: Extent,
}

/// What a pass that has no table needs of a type.
#[derive(Clone, Copy, Debug, PartialEq, Eq)]
pub enum Shape {
    /// `_Bool`.
    Bool,
    /// An integer type.
    Int {
        bits: u8,
        signed: bool,
    },
    /// A pointer, with the schema of its `__ptrauth` qualifier. One more moves it by `step` bytes; None: it points to no complete
    /// object type.
    Pointer {
        step: Option<u64>,
        schema: Option<Schema>,
    },
    /// No scalar type.
    Other,
}
