ghost use Rattle.std.specs.Prelude.{◌≡◌, ◌≤◌, ◌<◌, ◌+◌, ◌^◌, ◌++◌, pos, length, OnOk, IfOk};
ghost use Rattle.std.specs.List.{AllByRecursion, flat_map};
ghost use Rattle.pa_linker.specs.Linked as spec;
ghost use Rattle.pa_linker.specs.Tables.{all_shown, shown, layout_in, CanFill, IsForward, IsSmall};

use crate::layout::{LayoutTable, SLOT_SIZE};
use crate::section::LaidGlobal;
use pa_fixups::{Fix, FixKind, Fixes, Sig};
use pa_macho::Role;
use pa_num::{Memory, Name};
use pa_object::SlotValue;
use pa_pac::{Key, Schema};
use std::alloc::Global;

fn sig(schema: Schema) -> Sig
    ensures { result ≡ spec.sig_of schema }
{
    Sig {
        key: schema.key,
        addr: schema.addr,
        disc: schema.disc,
    }
}

/// What a slot is to hold.
fn slot_kind(layout: &LayoutTable, value: &SlotValue) -> FixKind
    requires small { IsSmall (layout_in layout.now) }
    requires forward { IsForward value.now }
    ensures { result ≡ spec.slot_kind (layout_in layout.now) value.now }
{
    match value {
        SlotValue::Address { name, addend } => {
            let place = u64::from(layout.place(name.as_slice()));
            FixKind::Rebase {
                target: Role::Main.base() + place + *addend as u64,
                high8: 0,
            }
        }
        SlotValue::Signed { name, schema } => match layout.find(name.as_slice()) {
            Some(target) => FixKind::AuthRebase {
                target,
                sig: sig(*schema),
            },
            None => FixKind::AuthBind {
                ordinal: layout.imports.index(name.as_slice()) as u16,
                sig: sig(*schema),
            },
        },
    }
}

/// Appends the slots of imports, which hold their addresses, signed under the key IA over the slots' own addresses.
fn put_imports(out: &mut Fixes, imports: &[Name]) -> Result<(), Memory>
    requires { length imports.now ≤ 2 }
    ensures { OnOk result (out.new ≡ out.old ++ spec.import_fixes 0 imports.now) }
{
    let mut ordinal: u16 = 0;
    let mut rest = imports;
    while let Some((_, behind)) = rest.split_first() {
        out.push(Fix {
            at: SLOT_SIZE * u32::from(ordinal),
            kind: FixKind::AuthBind {
                ordinal,
                sig: Sig {
                    key: Key::IA,
                    addr: true,
                    disc: 0,
                },
            },
        })?;
        ordinal += 1;
        rest = behind;
    }
    Ok(())
}

/// Appends the slots of a global.
fn put_global(out: &mut Fixes, layout: &LayoutTable, laid: &LaidGlobal) -> Result<(), Memory>
    requires small { IsSmall (layout_in layout.now) }
    requires fill { CanFill (shown laid.now) }
    ensures { OnOk result (out.new ≡ out.old ++ spec.global_fixes (layout_in layout.now) (shown laid.now)) }
{
    let sections = layout.sections;
    let global = sections.cells - sections.got + laid.at;
    let mut rest = laid.global.slots.as_slice();
    while let Some((slot, behind)) = rest.split_first() {
        out.push(Fix {
            at: global + slot.offset,
            kind: slot_kind(layout, &slot.value),
        })?;
        rest = behind;
    }
    Ok(())
}

/// The slots of imports, and those of globals.
pub(crate) fn fixes(
    alloc: Global,
    layout: &LayoutTable,
    globals: &[LaidGlobal],
) -> Result<Fixes, Memory>
    requires small { IsSmall (layout_in layout.now) }
    requires fill { AllByRecursion CanFill (all_shown globals.now) }
    ensures { IfOk result (λ fixes. fixes ≡ spec.fixes_with (layout_in layout.now) (all_shown globals.now)) }
{
    let mut fixes = Fixes::new(alloc);
    put_imports(&mut fixes, layout.imports.names())?;
    for laid in globals {
        put_global(&mut fixes, layout, laid)?;
    }
    Ok(fixes)
}
