//! What the names of a file mean at a place of it.

ghost use Rattle.std.specs.Prelude.{◌≡◌, ◌≤◌, ◌<◌, ◌∷◌, [], ℕ, List, length, map, Some, None, Ok, IfOk, IfSome, OnOk, OnErr};
ghost use Rattle.std.specs.Option.{option_map};
ghost use Rattle.pa_blocks.specs.Blocks.{type_bound, types_in};
ghost use Rattle.pa_blocks.specs.Blocks as blocks;
ghost use Rattle.pa_ctype.specs.Layouts.{fields_of};
ghost use Rattle.pa_ctype.specs.Nodes.{Fits};
ghost use Rattle.pa_ctype.specs.Tables.{ForTypes, ForStructs, IsSoundIn, types_bound, names_bound};
ghost use Rattle.pa_scope.specs.Answers.{breaks_at};
ghost use Rattle.pa_scope.specs.Numbered.{ForNames, Meets, meaning_of};
ghost use Rattle.pa_scope.specs.Numbered as numbered;
ghost use Rattle.pa_scope.specs.Scopes.{scope_of, IsSound, CompletesType, Completes, MeetsFound};
ghost use Rattle.pa_scope.specs.Scope as spec;

use crate::rule::TypeRule;
use crate::tags::Tags;
use pa_blocks::{Declarations, Meant};
use pa_ctype::{Members, Node, Types};
use pa_num::{Fault, Memory};
use std::alloc::Global;

/// What the names of a file mean at a place of it (C11 6.2.1, 6.2.3): the ordinary names of the open blocks, the tags, and the
/// types and structs.
#[derive(Drop)]
pub struct Scope {
    pub names: Declarations,
    pub tags: Tags,
    pub types: Types,
}

/// The most structs of a file: an id has 32 bits.
const MOST_STRUCTS: u64 = 4_294_967_296;

/// The types of a function or an object of the file that is declared again.
#[derive(Clone, Copy)]
pub(crate) struct Repeated {
    pub(crate) before: u32,
    pub(crate) now: u32,
}

/// Whether both are a function or an object of the file, at the level of the file.
fn both_global(is_file_level: bool, before: Meant, now: Meant) -> Option<Repeated>
    ensures { result ≡ numbered.both_global is_file_level before now }
{
    match (before, now) {
        (Meant::Global { of: before }, Meant::Global { of: now }) if is_file_level => {
            Some(Repeated { before, now })
        }
        (_, _) => None,
    }
}

/// What a name that the innermost block has already is declared as once more. C2: it may not be. C26: with another type.
fn declared_again(
    types: &Types,
    is_file_level: bool,
    before: Meant,
    means: Meant,
    place: u64,
) -> Result<(), Fault<TypeRule>>
    requires before { type_bound before ≤ length types.now.nodes }
    requires means { type_bound means ≤ length types.now.nodes }
    ensures { ForTypes types.now (λ m. (s : spec.Scope) → Meets result (numbered.repeats m place s (numbered.both_global is_file_level before means)) s) }
{
    match both_global(is_file_level, before, means) {
        Some(globals) => {
            if types.is_same(globals.before, globals.now) {
                Ok(())
            } else {
                Err(Fault::Refused {
                    rule: TypeRule::C26,
                    place,
                })
            }
        }
        None => Err(Fault::Refused {
            rule: TypeRule::C2,
            place,
        }),
    }
}

/// The type of an object or a function.
fn object_type(means: Option<Meant>) -> Option<u32>
    ensures { result ≡ numbered.object_type means }
{
    match means {
        Some(Meant::Local { of, .. } | Meant::Global { of }) => Some(of),
        Some(Meant::Constant { .. } | Meant::TypeName { .. } | Meant::Discriminator) | None => None,
    }
}

/// What an array without a length holds.
fn open_element(node: Node) -> Option<u32>
    ensures { result ≡ numbered.open_element node }
{
    match node {
        Node::Array { of, count: None } => Some(of),
        _ => None,
    }
}

/// An array type without a length, with this one. After want of memory the table is as before.
#[tactic(auto, using(crate::proofs::Opening::open_below, crate::proofs::Opening::length_given))]
fn with_length(types: &mut Types, number: u32, count: u64) -> Result<u32, Memory>
    requires known { number < length types.old.nodes }
    requires complete { ForStructs types.old (λ table m. CompletesType table count (m number)) }
    ensures known { IfOk result (λ n. n < length types.new.nodes) }
    ensures is { IfOk result (λ n. ForTypes types.new (λ m. m n ≡ spec.with_length count (m number))) }
    ensures longer { length types.old.nodes ≤ length types.new.nodes }
    ensures grows { ForTypes types.new (λ m. Fits m types.old.nodes) }
    ensures structs { types.new.structs ≡ types.old.structs }
    ensures names { types.new.names ≡ types.old.names }
    ensures err { OnErr result (types.new ≡ types.old) }
{
    match open_element(types.node(number)) {
        Some(of) => types.put(Node::Array {
            of,
            count: Some(count),
        }),
        None => unreachable!(),
    }
}

impl Scope {
    /// The scope at the beginning of a file of so many distinct names. It takes no memory.
    pub fn new(alloc: Global, names: u32) -> Scope
        ensures names { result.types.names ≡ names }
        ensures sound { IsSound result }
        ensures value { ForNames result.types (λ names m. scope_of names m result ≡ spec.no_names) }
    {
        Scope {
            names: Declarations::new(alloc),
            tags: Tags::new(alloc),
            types: Types::new(alloc, names),
        }
    }

    /// Begins a block. After want of memory none is begun.
    pub fn enter(&mut self) -> Result<(), Memory>
        requires sound { IsSound self.old }
        ensures sound { IsSound self.new }
        ensures types { self.new.types ≡ self.old.types }
        ensures ok { OnOk result (ForNames self.new.types (λ names m. scope_of names m self.new ≡ spec.entered (scope_of names m self.old))) }
        ensures err { OnErr result (self.new ≡ self.old) }
    {
        self.names.enter()
    }

    /// Ends the innermost block: its names mean what they meant before it. Tags and structs stay for the rest of the file.
    pub fn leave(&mut self)
        requires sound { IsSound self.old }
        requires entered { 1 ≤ length self.old.names.around }
        ensures sound { IsSound self.new }
        ensures types { self.new.types ≡ self.old.types }
        ensures value { ForNames self.new.types (λ names m. scope_of names m self.new ≡ spec.left (scope_of names m self.old)) }
    {
        self.names.leave();
    }

    /// Declares an ordinary name, whose place this is, in the innermost block (C11 6.7p3, p4). C2: the block has it already. C26:
    /// it is one of the file, of another type. After either and after want of memory the scope is as before.
    pub fn declare(&mut self, name: u32, place: u64, means: Meant) -> Result<(), Fault<TypeRule>>
        requires sound { IsSound self.old }
        requires name { name < self.old.types.names }
        requires types { type_bound means ≤ length self.old.types.nodes }
        ensures sound { IsSound self.new }
        ensures types { self.new.types ≡ self.old.types }
        ensures answer { ForNames self.new.types (λ names m. Meets result (spec.declared (names name) place (meaning_of m means) (scope_of names m self.old)) (scope_of names m self.new)) }
        ensures err { OnErr result (self.new ≡ self.old) }
    {
        match self.names.find_in_block(name) {
            None => Ok(self.names.declare(name, means)?),
            Some(before) => {
                let is_file_level = self.names.is_file_level();
                declared_again(&self.types, is_file_level, before, means, place)
            }
        }
    }

    /// The innermost meaning of an ordinary name. None: it isn't declared.
    pub fn find(&self, name: u32) -> Option<Meant>
        requires sound { IsSound self.now }
        requires name { name < self.now.types.names }
        ensures value { ForNames self.now.types (λ names m. option_map (meaning_of m) result ≡ spec.meaning (scope_of names m self.now) (names name)) }
        ensures number { result ≡ blocks.meaning self.now.names name }
        ensures known { types_in result ≤ length self.now.types.nodes }
    {
        self.names.find(name)
    }

    /// Gives the innermost meaning of a name, an object whose type is an array without a length, this length (C11 6.7.9p22);
    /// `array_layout` of `pa_ctype` tells whether it is complete then. After want of memory the scope is as before.
    pub fn complete(&mut self, name: u32, count: u64) -> Result<(), Memory>
        requires sound { IsSound self.old }
        requires name { name < self.old.types.names }
        requires complete { ForStructs self.old.types (λ table m. Completes table m count (numbered.object_type (blocks.meaning self.old.names name))) }
        ensures sound { IsSound self.new }
        ensures structs { self.new.types.structs ≡ self.old.types.structs }
        ensures names { self.new.types.names ≡ self.old.types.names }
        ensures ok { OnOk result (ForNames self.new.types (λ names m. scope_of names m self.new ≡ spec.completed (names name) count (scope_of names m self.old))) }
        ensures err { OnErr result (self.new ≡ self.old) }
    {
        match object_type(self.names.find(name)) {
            Some(of) => {
                let whole = with_length(&mut self.types, of, count)?;
                self.names.set_type(name, whole);
                Ok(())
            }
            None => unreachable!(),
        }
    }

    /// Whether an enumeration has this tag.
    pub fn has_enum_tag(&self, tag: u32) -> bool
        requires sound { IsSound self.now }
        requires name { tag < self.now.types.names }
        ensures { ForNames self.now.types (λ names m. result ≡ spec.has_enum_tag (scope_of names m self.now) (names tag)) }
    {
        self.tags.has_enum(tag)
    }

    /// The tag of an enumeration, whose place this is (C11 6.7.2.3). C2: there is one. After this and after want of memory the
    /// scope is as before.
    pub fn add_enum_tag(&mut self, tag: u32, place: u64) -> Result<(), Fault<TypeRule>>
        requires sound { IsSound self.old }
        requires name { tag < self.old.types.names }
        ensures sound { IsSound self.new }
        ensures types { self.new.types ≡ self.old.types }
        ensures answer { ForNames self.new.types (λ names m. Meets result (spec.with_enum_tag (names tag) place (scope_of names m self.old)) (scope_of names m self.new)) }
        ensures err { OnErr result (self.new ≡ self.old) }
    {
        if self.tags.has_enum(tag) {
            return Err(Fault::Refused {
                rule: TypeRule::C2,
                place,
            });
        }
        Ok(self.tags.add_enum(tag)?)
    }

    /// The id of the struct of a tag, a new one without a body where there is none (C11 6.7.2.3). After want of memory the scope is
    /// as before.
    pub fn tag(&mut self, tag: u32) -> Result<u32, Memory>
        requires sound { IsSound self.old }
        requires name { tag < self.old.types.names }
        ensures sound { IsSound self.new }
        ensures nodes { self.new.types.nodes ≡ self.old.types.nodes }
        ensures names { self.new.types.names ≡ self.old.types.names }
        ensures value { IfOk result (λ id. ForNames self.new.types (λ names m. record { id = id; scope = scope_of names m self.new } ≡ spec.tagged (names tag) (scope_of names m self.old))) }
        ensures known { IfOk result (λ id. id < length self.new.types.structs) }
        ensures err { OnErr result (self.new ≡ self.old) }
    {
        match self.tags.struct_id(tag) {
            Some(id) => Ok(id),
            None => self.add_tag(tag),
        }
    }

    /// A new struct of this tag, without a body.
    fn add_tag(&mut self, tag: u32) -> Result<u32, Memory>
        requires sound { IsSound self.old }
        requires name { tag < self.old.types.names }
        requires new { numbered.id_of self.old.tags.structs tag ≡ None }
        ensures sound { IsSound self.new }
        ensures nodes { self.new.types.nodes ≡ self.old.types.nodes }
        ensures names { self.new.types.names ≡ self.old.types.names }
        ensures value { IfOk result (λ id. ForNames self.new.types (λ names m. record { id = id; scope = scope_of names m self.new } ≡ spec.tagged (names tag) (scope_of names m self.old))) }
        ensures known { IfOk result (λ id. id < length self.new.types.structs) }
        ensures err { OnErr result (self.new ≡ self.old) }
    {
        let count = self.types.struct_count() as u64;
        if count >= MOST_STRUCTS {
            return Err(Memory);
        }
        self.tags.add_struct(tag, count as u32)?;
        match self.types.declare() {
            Ok(id) => Ok(id),
            Err(memory) => {
                self.tags.remove_last_struct();
                Err(memory)
            }
        }
    }

    /// Gives the struct of this tag its body, without a tag a new struct (C11 6.7.2.1p8, 6.7.2.3): its id. The place is that of the
    /// tag. C2: the struct has a body. After this and after want of memory the scope is as before.
    pub fn add_struct(
        &mut self,
        alloc: Global,
        tag: Option<u32>,
        place: u64,
        members: Members,
    ) -> Result<u32, Fault<TypeRule>>
        requires sound { IsSound self.old }
        requires tag { IfSome tag (λ t. t < self.old.types.names) }
        requires types { types_bound members ≤ length self.old.types.nodes }
        requires names { names_bound members ≤ self.old.types.names }
        requires complete { IsSoundIn self.old.types members }
        ensures sound { IsSound self.new }
        ensures nodes { self.new.types.nodes ≡ self.old.types.nodes }
        ensures names { self.new.types.names ≡ self.old.types.names }
        ensures answer { ForNames self.new.types (λ names m. MeetsFound result (spec.with_struct (option_map names tag) place (fields_of names m members) (scope_of names m self.old)) (scope_of names m self.new)) }
        ensures known { IfOk result (λ id. id < length self.new.types.structs) }
        ensures err { OnErr result (self.new ≡ self.old) }
    {
        match tag {
            None => Ok(self.add_untagged(alloc, members)?),
            Some(tag) => match self.tags.struct_id(tag) {
                None => Ok(self.add_tagged(alloc, tag, members)?),
                Some(id) => self.add_body(alloc, id, place, members),
            },
        }
    }

    /// A new struct without a tag, with this body.
    fn add_untagged(&mut self, alloc: Global, members: Members) -> Result<u32, Memory>
        requires sound { IsSound self.old }
        requires types { types_bound members ≤ length self.old.types.nodes }
        requires names { names_bound members ≤ self.old.types.names }
        requires complete { IsSoundIn self.old.types members }
        ensures sound { IsSound self.new }
        ensures nodes { self.new.types.nodes ≡ self.old.types.nodes }
        ensures names { self.new.types.names ≡ self.old.types.names }
        ensures value { IfOk result (λ id. ForNames self.new.types (λ names m. record { id = id; scope = scope_of names m self.new } ≡ spec.with_new_struct (fields_of names m members) (scope_of names m self.old))) }
        ensures known { IfOk result (λ id. id < length self.new.types.structs) }
        ensures err { OnErr result (self.new ≡ self.old) }
    {
        if self.types.struct_count() as u64 >= MOST_STRUCTS {
            return Err(Memory);
        }
        self.types.declare_with(alloc, members)
    }

    /// A new struct of this tag, with this body.
    fn add_tagged(&mut self, alloc: Global, tag: u32, members: Members) -> Result<u32, Memory>
        requires sound { IsSound self.old }
        requires name { tag < self.old.types.names }
        requires new { numbered.id_of self.old.tags.structs tag ≡ None }
        requires types { types_bound members ≤ length self.old.types.nodes }
        requires names { names_bound members ≤ self.old.types.names }
        requires complete { IsSoundIn self.old.types members }
        ensures sound { IsSound self.new }
        ensures nodes { self.new.types.nodes ≡ self.old.types.nodes }
        ensures names { self.new.types.names ≡ self.old.types.names }
        ensures answer { (place : ℕ) → IfOk result (λ id. ForNames self.new.types (λ names m. spec.with_struct (Some (names tag)) place (fields_of names m members) (scope_of names m self.old) ≡ Ok (record { id = id; scope = scope_of names m self.new }))) }
        ensures known { IfOk result (λ id. id < length self.new.types.structs) }
        ensures err { OnErr result (self.new ≡ self.old) }
    {
        let count = self.types.struct_count() as u64;
        if count >= MOST_STRUCTS {
            return Err(Memory);
        }
        self.tags.add_struct(tag, count as u32)?;
        match self.types.declare_with(alloc, members) {
            Ok(id) => Ok(id),
            Err(memory) => {
                self.tags.remove_last_struct();
                Err(memory)
            }
        }
    }

    /// The struct of this id, which has a tag, gets its body. C2: it has one.
    fn add_body(
        &mut self,
        alloc: Global,
        id: u32,
        place: u64,
        members: Members,
    ) -> Result<u32, Fault<TypeRule>>
        requires sound { IsSound self.old }
        requires known { id < length self.old.types.structs }
        requires types { types_bound members ≤ length self.old.types.nodes }
        requires names { names_bound members ≤ self.old.types.names }
        requires complete { IsSoundIn self.old.types members }
        ensures sound { IsSound self.new }
        ensures nodes { self.new.types.nodes ≡ self.old.types.nodes }
        ensures names { self.new.types.names ≡ self.old.types.names }
        ensures answer { ForNames self.new.types (λ names m. MeetsFound result (spec.with_body_at place (fields_of names m members) (record { id = id; scope = scope_of names m self.old })) (scope_of names m self.new)) }
        ensures known { IfOk result (λ id. id < length self.new.types.structs) }
        ensures err { OnErr result (self.new ≡ self.old) }
    {
        if self.types.members(id).is_some() {
            return Err(Fault::Refused {
                rule: TypeRule::C2,
                place,
            });
        }
        self.types.define(alloc, id, members)?;
        Ok(id)
    }
}
