ghost use Rattle.std.specs.Prelude.{◌≡◌, ◌≤◌, ◌<◌, ◌+◌, [], ◌∷◌, ◌++◌, filter, length, IfOk, OnOk};
ghost use Rattle.std.specs.List.{AllByRecursion};
ghost use Rattle.pa_object.specs.Linkable.{globals_of};
ghost use Rattle.pa_macho.specs.Layout.{up};
ghost use Rattle.pa_linker.specs.Layout.{is_of, globals_that, laid_behind, laid_from, laid_end, end_of};
ghost use Rattle.pa_linker.specs.Linked.{cleared, bytes_from};
ghost use Rattle.pa_linker.specs.Tables.{all_shown, most_data, room_of, HaveRoom, Follow, CanFill, SlotsInside};

use pa_layout::put_zeros;
use pa_num::{Bytes, Memory, Sequence};
use pa_object::{Object, Slot};
use std::alloc::Global;

/// A global behind so many bytes of its section.
#[derive(Clone, Copy)]
pub(crate) struct LaidGlobal<'a> {
    pub global: &'a pa_object::Global,
    pub at: u32,
}

/// Globals one behind another, each at the next multiple of its alignment, and where they end.
#[derive(Drop)]
pub(crate) struct Section<'a> {
    pub globals: Sequence<LaidGlobal<'a>>,
    pub end: u32,
}

/// The next multiple of an alignment.
fn round_up(end: u32, align: u32) -> u32
    requires some { 0 < align }
    requires small { end + align ≤ most_data }
    ensures { result ≡ up align end }
{
    (end + (align - 1)) / align * align
}

/// Sets slots to zero.
#[tactic(auto, unfolding(crate::specs::Linked::cleared))]
fn clear_slots(bytes: &mut [u8], slots: &[Slot])
    requires { SlotsInside (length bytes.old) slots.now }
    ensures { bytes.new ≡ cleared slots.now bytes.old }
{
    let mut rest = slots;
    while let Some((slot, behind)) = rest.split_first() {
        let at = slot.offset as usize;
        bytes[at..at + 8].copy_from_slice(&[0; 8]);
        rest = behind;
    }
}

/// Appends a global's bytes, with zeros for its slots.
fn put_global(alloc: Global, out: &mut Vec<u8>, global: &pa_object::Global) -> Result<(), Memory>
    requires { SlotsInside (length global.now.bytes) global.now.slots }
    ensures { OnOk result (out.new.items ≡ out.old.items ++ cleared global.now.slots global.now.bytes) }
{
    let mut bytes = Vec::from_slice(alloc, global.bytes.as_slice())?;
    clear_slots(&mut bytes, global.slots.as_slice());
    out.extend_from_slice(&bytes)?;
    Ok(())
}

impl<'a> Section<'a> {
    /// Lays a global behind the others.
    fn push(&mut self, global: &'a pa_object::Global) -> Result<(), Memory>
        requires aligned { 0 < global.now.align }
        requires fits { self.old.end + (global.now.align + length global.now.bytes) ≤ most_data }
        ensures globals { OnOk result (all_shown self.new.globals ≡
            all_shown self.old.globals ++ laid_behind self.old.end global.now ∷ []) }
        ensures end { OnOk result (self.new.end ≡ end_of (laid_behind self.old.end global.now)) }
    {
        let at = round_up(self.end, global.align);
        self.globals.push(LaidGlobal { global, at })?;
        self.end = at + global.bytes.len() as u32;
        Ok(())
    }

    /// Lays the string literals among globals behind the others, or all but these.
    fn lay(&mut self, globals: &'a [pa_object::Global], constant: bool) -> Result<(), Memory>
        requires { HaveRoom self.old.end globals.now }
        ensures globals { OnOk result (all_shown self.new.globals ≡
            all_shown self.old.globals ++ laid_from self.old.end (filter (is_of constant) globals.now)) }
        ensures end { OnOk result (self.new.end ≡ laid_end self.old.end (filter (is_of constant) globals.now)) }
        ensures room { OnOk result (self.new.end ≤ self.old.end + room_of globals.now) }
    {
        let mut rest = globals;
        while let Some((global, behind)) = rest.split_first() {
            if global.constant == constant {
                self.push(global)?;
            }
            rest = behind;
        }
        Ok(())
    }

    /// The string literals of objects, or all other globals.
    pub(crate) fn of(
        alloc: Global,
        objects: &'a [Object],
        constant: bool,
    ) -> Result<Section<'a>, Memory>
        requires { HaveRoom 0 (globals_of objects.now) }
        ensures globals { IfOk result (λ section.
            all_shown section.globals ≡ laid_from 0 (globals_that constant objects.now)) }
        ensures end { IfOk result (λ section. section.end ≡ laid_end 0 (globals_that constant objects.now)) }
        ensures small { IfOk result (λ section. section.end ≤ most_data) }
    {
        let mut section = Section {
            globals: Sequence::new(alloc),
            end: 0,
        };
        let mut rest = objects;
        while let Some((object, behind)) = rest.split_first() {
            section.lay(object.globals.as_slice(), constant)?;
            rest = behind;
        }
        Ok(section)
    }

    /// The section's bytes, with zeros for slots.
    pub(crate) fn bytes(&self, alloc: Global) -> Result<Bytes, Memory>
        requires follow { Follow 0 (all_shown self.now.globals) }
        requires fill { AllByRecursion CanFill (all_shown self.now.globals) }
        ensures { IfOk result (λ bytes. bytes ≡ bytes_from 0 (all_shown self.now.globals)) }
    {
        let mut out = Vec::new(alloc);
        for laid in self.globals.as_slice() {
            let gap = laid.at as usize - out.len();
            put_zeros(&mut out, gap)?;
            put_global(alloc, &mut out, laid.global)?;
        }
        Ok(Bytes::from_vec(out))
    }
}
