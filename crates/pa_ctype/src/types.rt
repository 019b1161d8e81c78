ghost use Rattle.std.specs.Prelude.{◌≡◌, ◌<◌, ◌≤◌, ◌+◌, ◌^◌, ◌↔◌, ◌++◌, ◌∷◌, [], ℕ, List, length, map, slice_get, slice_set, Some, None, IsTrue, IfOk, IfSome, OnOk, OnErr, true, false};
ghost use Rattle.std.specs.Option.{option_copied, option_and_then, option_map};
ghost use Rattle.pa_ctype.specs.Types.{Of, Function, trees_of, type_depth, array_of};
ghost use Rattle.pa_ctype.specs.Qualifiers as qualifiers;
ghost use Rattle.pa_ctype.specs.Equality as equality;
ghost use Rattle.pa_ctype.specs.Nodes.{tree, at, Fits, AllBelow, Below, IsProper, schema_of};
ghost use Rattle.pa_ctype.specs.Tables.{types_bound, names_bound, ForTypes, ForStructs, ForNamed, IsSoundIn};
ghost use Rattle.pa_ctype.specs.Layouts as spec;
ghost use Rattle.pa_ctype.specs.Bounds.{is_formed, IsStructOf, HoldsComplete};
ghost use Rattle.pa_ctype.specs.Joined.{AreRaised, AreFollowed};
ghost use Rattle.pa_ctype.specs.Shapes.{shape_of};

use crate::ctype::{Layout, Member, Members};
use crate::joined::{put_raised, raised_bodies};
use crate::layouts::times;
use crate::node::{Node, Qualifier, Shape};
use crate::nodes::{Nodes, facts_at, node_at, put, put_constant, put_function, reserve};
use crate::structs::{LaidBody, body_of, laid_body, type_layout};
use indexmap::IndexMap;
use pa_num::{Memory, Sequence};
use pa_pac::Schema;
use sqlite_items::Items;
use std::alloc::{AllocError, Global};
use std::marker::Model;

/// The types and structs of a file or a program by their numbers, which count from 0. Each type stands once, so types are equal
/// where their numbers are. Each struct has its members or is without a body; each type in a body is complete (C11 6.2.5p1), so
/// no struct holds itself. Names are numbers too, below the count that the table was made with.
#[derive(Drop)]
pub struct Types {
    nodes: Nodes,
    bodies: Items<Option<LaidBody>>,
    names: u32,
}

impl Model for Types {
    ghost use Rattle.pa_ctype.specs.Tables.{TypeTable};

    ghost Value = { TypeTable };

    ghost use Rattle.indexmap.specs.IndexMap.{keys, values};
    ghost use Rattle.pa_ctype.specs.Kept as kept;

    ghost view = { λ t. record { nodes = keys t.nodes; structs = kept.members_of t.bodies; names = t.names } };

    ghost invariant = { λ t. kept.AreTypes (keys t.nodes) (values t.nodes) t.bodies t.names };
}

impl Types {
    /// A table without types and structs, for so many names. It takes no memory.
    pub fn new(alloc: Global, names: u32) -> Types
        ensures { result ≡ record { nodes = []; structs = []; names = names } }
    {
        Types {
            nodes: IndexMap::new(alloc),
            bodies: Items::new(alloc),
            names,
        }
    }

    /// How many types there are.
    pub fn len(&self) -> usize
        ensures { result ≡ length self.now.nodes }
    {
        self.nodes.len()
    }

    pub fn is_empty(&self) -> bool
        ensures { IsTrue result ↔ (self.now.nodes ≡ []) }
    {
        self.nodes.is_empty()
    }

    /// The number of the type of a node. `layout_of` and `array_layout` tell whether what an array holds is complete (C11
    /// 6.7.6.2p1). After want of memory the table is as before.
    pub fn put(&mut self, node: Node) -> Result<u32, Memory>
        requires below { Below (length self.old.nodes) node }
        requires proper { IsProper (at self.old.nodes) node }
        requires id { IsStructOf (length self.old.structs) node }
        requires complete { HoldsComplete self.old node }
        ensures known { IfOk result (λ n. n < length self.new.nodes) }
        ensures is { IfOk result (λ n. ForTypes self.new (λ m. m n ≡ tree m node)) }
        ensures longer { length self.old.nodes ≤ length self.new.nodes }
        ensures grows { ForTypes self.new (λ m. Fits m self.old.nodes) }
        ensures structs { self.new.structs ≡ self.old.structs }
        ensures names { self.new.names ≡ self.old.names }
        ensures err { OnErr result (self.new ≡ self.old) }
    {
        reserve(&mut self.nodes, 2)?;
        Ok(put(&mut self.nodes, node))
    }

    /// The number of the function of these parameters. After want of memory the table is as before.
    pub fn function(&mut self, params: &[u32], result_type: u32) -> Result<u32, Memory>
        requires params { AllBelow (length self.old.nodes) params.now }
        requires result { result_type < length self.old.nodes }
        ensures known { IfOk result (λ n. n < length self.new.nodes) }
        ensures is { IfOk result (λ n. ForTypes self.new (λ m. m n ≡ Of false (Function (trees_of (map m params.now)) (m result_type)))) }
        ensures longer { length self.old.nodes ≤ length self.new.nodes }
        ensures grows { ForTypes self.new (λ m. Fits m self.old.nodes) }
        ensures structs { self.new.structs ≡ self.old.structs }
        ensures names { self.new.names ≡ self.old.names }
        ensures err { OnErr result (self.new ≡ self.old) }
    {
        reserve(&mut self.nodes, 2 * params.len() as u64 + 2)?;
        Ok(put_function(&mut self.nodes, params, result_type))
    }

    /// The number of a type with `const`: that of an array is on its elements (C11 6.7.3p9), and a function has none. After want
    /// of memory the table is as before.
    pub fn constant(&mut self, number: u32) -> Result<u32, Memory>
        requires { number < length self.old.nodes }
        ensures known { IfOk result (λ n. n < length self.new.nodes) }
        ensures is { IfOk result (λ n. ForTypes self.new (λ m. m n ≡ qualifiers.with_const true (m number))) }
        ensures longer { length self.old.nodes ≤ length self.new.nodes }
        ensures grows { ForTypes self.new (λ m. Fits m self.old.nodes) }
        ensures structs { self.new.structs ≡ self.old.structs }
        ensures names { self.new.names ≡ self.old.names }
        ensures err { OnErr result (self.new ≡ self.old) }
    {
        let depth = facts_at(&self.nodes, number).depth;
        reserve(&mut self.nodes, 2 * u64::from(depth) + 2)?;
        Ok(put_constant(&mut self.nodes, number))
    }

    /// The node of a number.
    pub fn node(&self, number: u32) -> Node
        requires { number < length self.now.nodes }
        ensures below { Below number result }
        ensures proper { ForTypes self.now (λ m. IsProper m result) }
        ensures is { ForTypes self.now (λ m. m number ≡ tree m result) }
    {
        node_at(&self.nodes, number)
    }

    /// How many pointers, arrays and functions are in one another in the type.
    pub fn depth(&self, number: u32) -> u32
        requires { number < length self.now.nodes }
        ensures { ForTypes self.now (λ m. result ≡ type_depth (m number)) }
    {
        facts_at(&self.nodes, number).depth
    }

    /// The number of the type without qualifiers at any level.
    pub fn bare(&self, number: u32) -> u32
        requires { number < length self.now.nodes }
        ensures known { result < length self.now.nodes }
        ensures is { ForTypes self.now (λ m. m result ≡ qualifiers.bare (m number)) }
    {
        facts_at(&self.nodes, number).bare
    }

    /// The number of the type without a `const` of its own (C11 6.7.3).
    pub fn without_const(&self, number: u32) -> u32
        requires { number < length self.now.nodes }
        ensures known { result < length self.now.nodes }
        ensures is { ForTypes self.now (λ m. m result ≡ qualifiers.without_const (m number)) }
    {
        match node_at(&self.nodes, number) {
            Node::Constant { of } => of,
            _ => number,
        }
    }

    /// Whether the type has a `const` of its own.
    pub fn is_constant(&self, number: u32) -> bool
        requires { number < length self.now.nodes }
        ensures { ForTypes self.now (λ m. result ≡ qualifiers.is_constant (m number)) }
    {
        matches!(node_at(&self.nodes, number), Node::Constant { .. })
    }

    /// Whether the types are equal as they are written: narrower than compatible types (C11 6.2.7).
    pub fn is_same(&self, a: u32, b: u32) -> bool
        requires left { a < length self.now.nodes }
        requires right { b < length self.now.nodes }
        ensures value { ForTypes self.now (λ m. result ≡ equality.same_type (m a) (m b)) }
        ensures same { ForTypes self.now (λ m. IsTrue result ↔ (m a ≡ m b)) }
    {
        let _ = &self.nodes;
        a == b
    }

    /// Whether the types are equal but for a `const` of their own (C11 6.7.3).
    pub fn is_same_but_const(&self, a: u32, b: u32) -> bool
        requires left { a < length self.now.nodes }
        requires right { b < length self.now.nodes }
        ensures { ForTypes self.now (λ m. result ≡ equality.same_but_const (m a) (m b)) }
    {
        let left = self.without_const(a);
        let right = self.without_const(b);
        self.is_same(left, right)
    }

    /// Whether the types differ in qualifiers alone, at every level.
    pub fn is_same_bare(&self, a: u32, b: u32) -> bool
        requires left { a < length self.now.nodes }
        requires right { b < length self.now.nodes }
        ensures { ForTypes self.now (λ m. result ≡ qualifiers.same_bare (m a) (m b)) }
    {
        let left = self.bare(a);
        let right = self.bare(b);
        self.is_same(left, right)
    }
}

/// The bytes of an object of that layout.
fn bytes(layout: Option<Layout>) -> Option<u64>
    ensures { result ≡ option_map (λ l. l.size) layout }
{
    Some(layout?.size)
}

/// The schema of a qualifier.
fn schema(qualifier: Option<Qualifier>) -> Option<Schema>
    ensures { result ≡ option_map schema_of qualifier }
{
    Some(qualifier?.schema())
}

impl Types {
    /// How many structs there are: the id that is declared next.
    pub fn struct_count(&self) -> usize
        ensures { result ≡ length self.now.structs }
    {
        self.bodies.len()
    }

    /// The members of a struct in order. None: it has no body, or there is no struct of this id.
    pub fn members(&self, id: u32) -> Option<&Members>
        ensures members { option_copied result ≡ option_and_then (λ body. body) (slice_get self.now.structs id) }
        ensures known { IfSome result (λ members. types_bound members.now ≤ length self.now.nodes) }
        ensures sound { ForStructs self.now (λ table m. spec.IsSound table) }
    {
        let body = body_of(self.bodies.as_slice(), id)?;
        Some(&body.members)
    }

    /// One more struct, without a body: its id. After want of memory there is none more.
    pub fn declare(&mut self) -> Result<u32, Memory>
        requires { length self.old.structs < 2 ^ 32 }
        ensures id { IfOk result (λ id. id ≡ length self.old.structs) }
        ensures ok { OnOk result (self.new ≡ record self.old { structs = self.old.structs ++ None ∷ [] }) }
        ensures err { OnErr result (self.new ≡ self.old) }
    {
        let id = self.bodies.len() as u32;
        self.bodies.push(None)?;
        Ok(id)
    }

    /// Gives a struct its body. `layout_of` tells whether a member's type is complete. After want of memory the struct has none.
    pub fn define(&mut self, alloc: Global, id: u32, members: Members) -> Result<(), Memory>
        requires open { slice_get self.old.structs id ≡ Some None }
        requires types { types_bound members ≤ length self.old.nodes }
        requires names { names_bound members ≤ self.old.names }
        requires sound { IsSoundIn self.old members }
        ensures ok { OnOk result (self.new ≡ record self.old { structs = slice_set self.old.structs id (Some members) }) }
        ensures err { OnErr result (self.new ≡ self.old) }
    {
        let body = laid_body(alloc, &self.nodes, self.bodies.as_slice(), members)?;
        self.bodies.set(id as usize, Some(body));
        Ok(())
    }

    /// One more struct, with this body: its id. After want of memory there is none more.
    pub fn declare_with(&mut self, alloc: Global, members: Members) -> Result<u32, Memory>
        requires count { length self.old.structs < 2 ^ 32 }
        requires types { types_bound members ≤ length self.old.nodes }
        requires names { names_bound members ≤ self.old.names }
        requires sound { IsSoundIn self.old members }
        ensures id { IfOk result (λ id. id ≡ length self.old.structs) }
        ensures ok { OnOk result (self.new ≡ record self.old { structs = self.old.structs ++ Some members ∷ [] }) }
        ensures err { OnErr result (self.new ≡ self.old) }
    {
        let id = self.bodies.len() as u32;
        let body = laid_body(alloc, &self.nodes, self.bodies.as_slice(), members)?;
        self.bodies.push(Some(body))?;
        Ok(id)
    }

    /// How many bytes an object of a type has, and of which number its address is a multiple (C11 6.2.8). None: the type isn't
    /// complete (C11 6.2.5p1), an integer in it has another width than 8, 16, 32 or 64 bits, an array in it has no element, a
    /// struct in it has no member, or it or an array or struct in it has more than 4,294,967,295 bytes. Types behind a pointer,
    /// parameters and results aren't looked at.
    pub fn layout_of(&self, number: u32) -> Option<Layout>
        requires { number < length self.now.nodes }
        ensures answer { ForStructs self.now (λ table m. spec.IsLayoutOf table (m number) result) }
        ensures value { ForStructs self.now (λ table m. result ≡ spec.layout_in table (m number)) }
        ensures formed { ForStructs self.now (λ table m. IsTrue (is_formed table (m number))) }
    {
        type_layout(&self.nodes, self.bodies.as_slice(), number)
    }

    /// The layout of an array of so many elements of a type, which need not be in the table. None: it has none, as `layout_of` says.
    pub fn array_layout(&self, of: u32, count: u64) -> Option<Layout>
        requires { of < length self.now.nodes }
        ensures answer { ForStructs self.now (λ table m. spec.IsLayoutOf table (array_of (m of) count) result) }
        ensures value { ForStructs self.now (λ table m. result ≡ spec.layout_in table (array_of (m of) count)) }
    {
        times(count, self.layout_of(of)?)
    }

    /// How many bytes an object of a type has (`sizeof`, C11 6.5.3.4).
    pub fn size(&self, number: u32) -> u64
        requires known { number < length self.now.nodes }
        requires complete { ForStructs self.now (λ table m. spec.IsComplete table (m number)) }
        ensures { ForStructs self.now (λ table m. spec.HasSize table (m number) result) }
    {
        self.layout_of(number).unwrap().size
    }

    /// Of which number the address of an object of a type is a multiple (C11 6.2.8).
    pub fn align(&self, number: u32) -> u64
        requires known { number < length self.now.nodes }
        requires complete { ForStructs self.now (λ table m. spec.IsComplete table (m number)) }
        ensures { ForStructs self.now (λ table m. spec.HasAlign table (m number) result) }
    {
        self.layout_of(number).unwrap().align
    }

    /// What a pass that has no table needs of the type.
    pub fn shape(&self, number: u32) -> Shape
        requires { number < length self.now.nodes }
        ensures { ForStructs self.now (λ table m. result ≡ shape_of table (m number)) }
    {
        match self.node(self.without_const(number)) {
            Node::Bool => Shape::Bool,
            Node::Int { bits, signed } => Shape::Int { bits, signed },
            Node::Pointer { to, qualifier } => Shape::Pointer {
                step: bytes(self.layout_of(to)),
                schema: schema(qualifier),
            },
            Node::Void
            | Node::Array { .. }
            | Node::Struct { .. }
            | Node::Returns { .. }
            | Node::Takes { .. }
            | Node::Constant { .. } => Shape::Other,
        }
    }

    /// The first member of that name in the struct `id`, with its offset in bytes (C11 6.7.2.1p15). None: no member of the struct
    /// has the name, it has no body, or there is no struct of this id.
    pub fn member(&self, id: u32, name: u32) -> Option<Member>
        requires name { name < self.now.names }
        requires laid { ForStructs self.now (λ table m. spec.IsLaidStruct table id) }
        ensures answer { ForNamed self.now (λ table names. spec.IsMemberOf table id (names name) result) }
        ensures value { ForNamed self.now (λ table names. result ≡ spec.member_of table id (names name)) }
    {
        let body = body_of(self.bodies.as_slice(), id)?;
        body.places.get(&name).copied()
    }
}

/// A table with the types and structs of a file behind its own.
#[derive(Drop)]
pub struct Joined {
    pub types: Types,
    /// The number that each type of the file has in the table.
    pub numbers: Sequence<u32>,
}

impl Types {
    /// This table with the types and structs of a file behind its own: the ids of the file's structs are raised by the count of
    /// those that stand here. `names` has the number here of each name of the file.
    pub fn followed_by(self, alloc: Global, file: &Types, names: &[u32]) -> Result<Joined, Memory>
        requires structs { length self.structs + length file.now.structs < 2 ^ 32 }
        requires count { length names.now ≡ file.now.names }
        requires names { AllBelow self.names names.now }
        ensures count { IfOk result (λ joined. length joined.numbers ≡ length file.now.nodes) }
        ensures known { IfOk result (λ joined. AllBelow (length joined.types.nodes) joined.numbers) }
        ensures types { IfOk result (λ joined. ForTypes file.now (λ f. ForTypes joined.types (λ m. AreRaised (length self.structs) joined.numbers f m))) }
        ensures grows { IfOk result (λ joined. ForTypes joined.types (λ m. Fits m self.nodes)) }
        ensures structs { IfOk result (λ joined. AreFollowed self file.now names.now joined.types) }
        ensures names { IfOk result (λ joined. joined.types.names ≡ self.names) }
    {
        let Types {
            mut nodes,
            mut bodies,
            names: name_count,
        } = self;
        let structs = bodies.len() as u32;
        let numbers = put_raised(alloc, &mut nodes, &file.nodes, structs)?;
        let raised = raised_bodies(
            alloc,
            &file.nodes,
            file.bodies.as_slice(),
            numbers.as_slice(),
            names,
        )?;
        bodies.append(raised)?;
        Ok(Joined {
            types: Types {
                nodes,
                bodies,
                names: name_count,
            },
            numbers,
        })
    }
}
