//! The objects of a program.

ghost use Rattle.std.specs.Prelude.{◌≡◌, ◌≤◌, ◌<◌, ◌^◌, ◌+◌, ◌++◌, ◌∷◌, ℕ, [], length, map, All, Some, OnOk, IfOk};
ghost use Rattle.pa_a64.specs.Decoding.{InRange, encoded};
ghost use Rattle.pa_object.specs.Linkable.{Linkable};
ghost use Rattle.pa_lir.specs.Placing as placing;
ghost use Rattle.pa_lir.specs.Ready.{Ready, most_words, symbol_slot, symbol_global};
ghost use Rattle.pa_select.specs.Objects as spec;
ghost use Rattle.pa_select.specs.Selectable as selectable;
ghost use Rattle.pa_select.specs.Selected as selected;

use crate::framed::Framed;
use crate::operations::{Code, symbol_of};
use pa_a64::{Instr, encode};
use pa_lir::{Label, Lir, LirFn, Op};
use pa_num::{Bytes, Memory, Words};
use pa_object::{
    Global as Data, Globals, Mark, Marks, Object, Objects, Refs, Slot, SlotValue, Slots,
};
use std::alloc::{AllocError, Global};
use std::collections::BTreeMap;

/// The most words of code of a program that can be linked.
const MOST_WORDS: usize = 1_310_720;

/// Where labels lie, in words from the function's first.
type Labels = BTreeMap<Label, usize>;

/// Keeps the place of an operation that is a label, unless the label has one.
fn note(labels: &mut Labels, op: &Op, at: usize) -> Result<(), Memory>
    ensures { OnOk result ((l : ℕ) → placing.kept labels.new l ≡ placing.or_else (placing.kept labels.old l) (placing.noted op.now at l)) }
{
    if let Op::Label { label } = op {
        if !labels.contains_key(label) {
            return match labels.insert(*label, at) {
                Ok(_) => Ok(()),
                Err(_) => Err(Memory),
            };
        }
    }
    Ok(())
}

/// Where an operation goes, if it goes to a label.
fn target_of(labels: &Labels, op: &Op) -> Option<usize>
    ensures { result ≡ spec.target_in labels.now op.now }
{
    match op {
        Op::Jump { label } | Op::Branch { label, .. } => labels.get(label).copied(),
        _ => None,
    }
}

impl Framed<'_> {
    /// Where the labels of the function lie. Want of memory, too, where it has more words than a program may have.
    fn labels(&self, alloc: Global) -> Result<Labels, Memory>
        requires { selectable.IsSelectable self.now.function.now }
        ensures places { IfOk result (λ labels. (l : ℕ) → placing.kept labels l ≡ selected.label_at self.now.function.now l) }
        ensures few { OnOk result (selected.count_of_words self.now.function.now ≤ most_words) }
    {
        let mut labels = Labels::new(alloc);
        let mut code = Code::new(alloc);
        self.push_prologue(&mut code.instrs)?;
        let mut rest = self.function.ops.as_slice();
        'ops: while let [op, tail @ ..] = rest {
            note(&mut labels, op, code.instrs.len())?;
            self.push_op(alloc, &mut code, None, op)?;
            if code.instrs.len() > MOST_WORDS {
                return Err(Memory);
            }
            rest = tail;
        }
        Ok(labels)
    }

    /// The code of the function, where its labels lie there.
    fn code(&self, alloc: Global, labels: &Labels) -> Result<Code, Memory>
        requires code { selectable.IsSelectable self.now.function.now }
        requires places { (l : ℕ) → placing.kept labels.now l ≡ selected.label_at self.now.function.now l }
        requires few { selected.count_of_words self.now.function.now ≤ most_words }
        ensures instrs { IfOk result (λ code. code.instrs ≡ selected.function_code self.now.function.now) }
        ensures refs { IfOk result (λ code. code.refs ≡ spec.function_refs self.now.function.now) }
    {
        let mut code = Code::new(alloc);
        self.push_prologue(&mut code.instrs)?;
        let mut rest = self.function.ops.as_slice();
        'ops: while let [op, tail @ ..] = rest {
            self.push_op(alloc, &mut code, target_of(labels, op), op)?;
            rest = tail;
        }
        Ok(code)
    }
}

/// The words of instructions.
fn words(alloc: Global, instrs: &[Instr]) -> Result<Words, AllocError>
    requires { All InRange instrs.now }
    ensures { IfOk result (λ words. words ≡ map encoded instrs.now) }
{
    let mut words = Words::new(alloc);
    for instr in instrs {
        words.push(encode(*instr))?;
    }
    Ok(words)
}

/// The object of a function.
fn object(alloc: Global, function: &LirFn) -> Result<Object, Memory>
    requires { selectable.IsSelectable function.now }
    ensures object { IfOk result (λ object. object ≡ spec.object_of function.now) }
    ensures few { OnOk result (selected.count_of_words function.now ≤ most_words) }
{
    let framed = Framed::of(alloc, function)?;
    let labels = framed.labels(alloc)?;
    let Code { instrs, refs } = framed.code(alloc, &labels)?;
    let mut marks = Marks::new(alloc);
    marks.push(Mark {
        name: symbol_of(alloc, function.name.as_slice())?,
        at: 0,
        public: function.public,
    })?;
    Ok(Object {
        code: words(alloc, instrs.as_slice())?,
        marks,
        refs,
        globals: Globals::new(alloc),
    })
}

/// A slot with its name as a symbol.
fn slot(alloc: Global, slot: &Slot) -> Result<Slot, AllocError>
    ensures { IfOk result (λ made. made ≡ symbol_slot slot.now) }
{
    let value = match &slot.value {
        SlotValue::Address { name, addend } => SlotValue::Address {
            name: symbol_of(alloc, name.as_slice())?,
            addend: *addend,
        },
        SlotValue::Signed { name, schema } => SlotValue::Signed {
            name: symbol_of(alloc, name.as_slice())?,
            schema: *schema,
        },
    };
    Ok(Slot {
        offset: slot.offset,
        value,
    })
}

/// A global with its names as symbols.
fn global(alloc: Global, global: &Data) -> Result<Data, AllocError>
    ensures { IfOk result (λ made. made ≡ symbol_global global.now) }
{
    let mut slots = Slots::new(alloc);
    for from in global.slots.as_slice() {
        slots.push(slot(alloc, from)?)?;
    }
    Ok(Data {
        name: symbol_of(alloc, global.name.as_slice())?,
        align: global.align,
        constant: global.constant,
        bytes: Bytes::from_slice(alloc, global.bytes.as_slice())?,
        slots,
    })
}

/// The object of the globals.
fn data(alloc: Global, lir: &Lir) -> Result<Object, AllocError>
    ensures { IfOk result (λ object. object ≡ spec.data_of lir.now) }
{
    let mut globals = Globals::new(alloc);
    for from in lir.globals.as_slice() {
        globals.push(global(alloc, from)?)?;
    }
    Ok(Object {
        code: Words::new(alloc),
        marks: Marks::new(alloc),
        refs: Refs::new(alloc),
        globals,
    })
}

/// The objects of a program, of each function and of the globals.
fn all_objects(alloc: Global, lir: &Lir) -> Result<Objects, Memory>
    requires { selectable.Selectable lir.now }
    ensures { IfOk result (λ objects. objects ≡ spec.objects_of lir.now) }
{
    let mut objects = Objects::new(alloc);
    for function in lir.functions.as_slice() {
        objects.push(object(alloc, function)?)?;
    }
    objects.push(data(alloc, lir)?)?;
    Ok(objects)
}

/// The objects of a program in flat code: one of each function in the program's order, whose code is the prologue and each
/// operation's instructions, and one of the globals. Names become symbols. It takes time in proportion to the program. Want of
/// memory, too, where a function has more words than a program may have that is linked.
pub fn select(alloc: Global, lir: &Lir) -> Result<Objects, Memory>
    requires { selectable.Selectable lir.now }
    ensures objects { IfOk result (λ objects. objects ≡ spec.objects_of lir.now) }
    ensures linkable { Ready lir.now → IfOk result Linkable }
{
    let objects = all_objects(alloc, lir)?;
    Ok(objects)
}
