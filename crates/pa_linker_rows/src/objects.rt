//! The objects of the program.

ghost use Rattle.std.specs.Prelude.{◌≡◌, [], IfOk};
ghost use Rattle.pa_linker_rows.specs.Program as spec;

use pa_num::{Bytes, Memory, Name, Words};
use pa_object::{
    Global as Data, Globals, Mark, Marks, Object, Objects, Ref, RefKind, Refs, Slot, SlotValue,
    Slots,
};
use pa_pac::{Key, Schema};
use std::alloc::Global;

/// The mark of an object's first word.
fn first_mark(alloc: Global, name: &[u8]) -> Result<Mark, Memory>
    ensures { IfOk result (λ mark. mark ≡ spec.mark name.now) }
{
    Ok(Mark {
        name: Name::from_slice(alloc, name)?,
        at: 0,
        public: true,
    })
}

fn reference(alloc: Global, at: u32, kind: RefKind, name: &[u8]) -> Result<Ref, Memory>
    ensures { IfOk result (λ reference. reference ≡ spec.reference at kind name.now) }
{
    Ok(Ref {
        at,
        kind,
        name: Name::from_slice(alloc, name)?,
    })
}

/// The address of a function, signed under the key IA.
fn signed(alloc: Global, name: &[u8], disc: u16) -> Result<SlotValue, Memory>
    ensures { IfOk result (λ value. value ≡ spec.signed name.now disc) }
{
    Ok(SlotValue::Signed {
        name: Name::from_slice(alloc, name)?,
        schema: Schema {
            key: Key::IA,
            addr: true,
            disc,
        },
    })
}

/// A global without a slot.
fn plain(alloc: Global, name: &[u8], align: u32, bytes: &[u8]) -> Result<Data, Memory>
    ensures { IfOk result (λ global. global ≡ spec.plain name.now align bytes.now) }
{
    Ok(Data {
        name: Name::from_slice(alloc, name)?,
        align,
        constant: false,
        bytes: Bytes::from_slice(alloc, bytes)?,
        slots: Slots::new(alloc),
    })
}

/// A string literal.
fn literal(alloc: Global, name: &[u8], bytes: &[u8]) -> Result<Data, Memory>
    ensures { IfOk result (λ global. global ≡ spec.literal name.now bytes.now) }
{
    Ok(Data {
        name: Name::from_slice(alloc, name)?,
        align: 1,
        constant: true,
        bytes: Bytes::from_slice(alloc, bytes)?,
        slots: Slots::new(alloc),
    })
}

fn pointers(alloc: Global) -> Result<Data, Memory>
    ensures { IfOk result (λ global. global ≡ spec.pointers) }
{
    let mut slots = Slots::new(alloc);
    slots.push(Slot {
        offset: 0,
        value: SlotValue::Address {
            name: Name::from_slice(alloc, b"_f")?,
            addend: 4,
        },
    })?;
    slots.push(Slot {
        offset: 8,
        value: signed(alloc, b"_f", 7)?,
    })?;
    slots.push(Slot {
        offset: 16,
        value: signed(alloc, b"_getchar", 9)?,
    })?;
    Ok(Data {
        name: Name::from_slice(alloc, b"_g")?,
        align: 16,
        constant: false,
        bytes: Bytes::from_slice(alloc, &[7; 24])?,
        slots,
    })
}

/// `_f` calls `_putchar` twice, and names the pointers.
fn first(alloc: Global) -> Result<Object, Memory>
    ensures { IfOk result (λ object. object ≡ spec.first) }
{
    let mut marks = Marks::new(alloc);
    marks.push(first_mark(alloc, b"_f")?)?;
    let mut refs = Refs::new(alloc);
    refs.push(reference(alloc, 1, RefKind::Call, b"_putchar")?)?;
    refs.push(reference(alloc, 2, RefKind::Call, b"_putchar")?)?;
    refs.push(reference(alloc, 3, RefKind::Page, b"_g")?)?;
    refs.push(reference(alloc, 4, RefKind::Low, b"_g")?)?;
    let mut globals = Globals::new(alloc);
    globals.push(plain(alloc, b"_c", 1, &[5])?)?;
    globals.push(pointers(alloc)?)?;
    Ok(Object {
        code: Words::from_slice(
            alloc,
            &[
                0xD503_237F,
                0x9400_0000,
                0x9400_0000,
                0x9000_0000,
                0x9100_0000,
                0xD65F_0FFF,
            ],
        )?,
        marks,
        refs,
        globals,
    })
}

/// No code.
fn second(alloc: Global) -> Result<Object, Memory>
    ensures { IfOk result (λ object. object ≡ spec.second) }
{
    let mut globals = Globals::new(alloc);
    globals.push(literal(alloc, b"_s", &[104, 105, 0])?)?;
    globals.push(plain(alloc, b"_d", 4, &[1, 2, 3, 4])?)?;
    Ok(Object {
        code: Words::new(alloc),
        marks: Marks::new(alloc),
        refs: Refs::new(alloc),
        globals,
    })
}

/// `_main` calls `_f`.
fn third(alloc: Global) -> Result<Object, Memory>
    ensures { IfOk result (λ object. object ≡ spec.third) }
{
    let mut marks = Marks::new(alloc);
    marks.push(first_mark(alloc, b"_main")?)?;
    let mut refs = Refs::new(alloc);
    refs.push(reference(alloc, 1, RefKind::Call, b"_f")?)?;
    let mut globals = Globals::new(alloc);
    globals.push(literal(alloc, b"_t", &[33, 0])?)?;
    Ok(Object {
        code: Words::from_slice(alloc, &[0xD503_237F, 0x9400_0000, 0xD65F_0FFF])?,
        marks,
        refs,
        globals,
    })
}

pub fn objects(alloc: Global) -> Result<Objects, Memory>
    ensures { IfOk result (λ objects. objects ≡ spec.objects) }
{
    let mut objects = Objects::new(alloc);
    objects.push(first(alloc)?)?;
    objects.push(second(alloc)?)?;
    objects.push(third(alloc)?)?;
    Ok(objects)
}
