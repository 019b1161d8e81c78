//! Scripts as lists of items.

ghost use Rattle.std.specs.Prelude.{◌≡◌, ◌+◌, ◌<◌, [], length, not, position, IfNone, IfSome, true};
ghost use Rattle.pa_object.specs.Script as spec;
ghost use Rattle.pa_object.specs.Script.{is_line, is_script, all_fit};
ghost use Rattle.pa_script.specs.Rules.{IsPushed, last_step, first_unfit};

use crate::rule::ScriptRule;
use pa_mem::{Rights, Space};
use pa_num::Fault;
use pa_object::{Deed, Item, Items};
use std::alloc::Global;
use std::marker::Model;

/// The most items of a script.
const MOST_ITEMS: usize = 65_536;

/// At most 65,536 items, each of 1 to 4,096 bytes, whose steps never fall.
#[derive(Debug, Drop)]
pub struct Script {
    items: Items,
}

impl Model for Script {
    ghost use Rattle.std.specs.Prelude.{◌≡◌, List, true};
    ghost use Rattle.pa_object.specs.declared.script.Item.{Item};
    ghost use Rattle.pa_object.specs.Script.{is_script};

    ghost Value = { List Item };

    ghost view = { λ s. s.items };

    ghost invariant = { λ s. is_script s.items ≡ true };
}

impl Script {
    /// The empty script. It takes no memory.
    pub fn new(alloc: Global) -> Script
        ensures { result ≡ [] }
    {
        Script {
            items: Items::new(alloc),
        }
    }

    /// The script of these items. It takes no memory.
    pub fn from_items(items: Items) -> Script
        requires { is_script items ≡ true }
        ensures { result ≡ items }
    {
        Script { items }
    }

    /// The items in their order.
    pub fn as_slice(&self) -> &[Item]
        ensures items { result.now ≡ self.now }
        ensures script { is_script result.now ≡ true }
    {
        self.items.as_slice()
    }

    fn last_step(&self) -> u32
        ensures { result ≡ last_step 0 self.now }
    {
        match self.items.as_slice().last() {
            Some(item) => item.step,
            None => 0,
        }
    }

    /// The refusal of the line behind these items.
    pub(crate) fn refused(&self, rule: ScriptRule) -> Fault<ScriptRule>
        ensures { result ≡ Fault.Refused rule (length self.now + 1) }
    {
        Fault::Refused {
            rule,
            place: self.items.len() as u64 + 1,
        }
    }

    /// Appends an item, unless it breaks a rule behind those that are there. Then, and after want of memory, the script is
    /// as before. The place of a fault is the item's number, from 1.
    pub fn push(&mut self, item: Item) -> Result<(), Fault<ScriptRule>>
        requires { is_line item ≡ true }
        ensures { IsPushed self.old item result self.new }
    {
        if item.step < self.last_step() {
            return Err(self.refused(ScriptRule::P2));
        }
        if self.items.len() >= MOST_ITEMS {
            return Err(self.refused(ScriptRule::P3));
        }
        self.items.push(item)?;
        Ok(())
    }
}

#[tactic(auto, using(pa_mem::proofs::Found::allowing))]
fn deed_fits(deed: &Deed, space: &Space) -> bool
    ensures { result ≡ spec.deed_fits deed.now space.now }
{
    match deed {
        Deed::Write { at, bytes } => space.inside(*at, bytes.len() as u64, Rights::WRITE),
        Deed::Copy { to, from, count } => {
            let count = u64::from(*count);
            space.inside(*from, count, Rights::READ) && space.inside(*to, count, Rights::WRITE)
        }
    }
}

fn first_unfit_index(items: &[Item], space: &Space) -> Option<usize>
    ensures index { result ≡ position (λ item. not (spec.deed_fits item.deed space.now)) items.now }
    ensures within { IfSome result (λ index. index < length items.now) }
{
    items.iter().position(|item| !deed_fits(&item.deed, space))
}

/// The number of the first line, from 1, whose item doesn't fit the memory: what it writes isn't inside one region that may
/// be written, or what it copies isn't inside one that may be read. None where all items fit.
#[tactic(auto, using(crate::proofs::AllFit::unfit_none, crate::proofs::AllFit::script_short))]
pub fn fits(script: &Script, space: &Space) -> Option<u32>
    ensures first { result ≡ first_unfit script.now space.now }
    ensures all { IfNone result (all_fit script.now space.now ≡ true) }
{
    let index = first_unfit_index(script.as_slice(), space)?;
    Some(index as u32 + 1)
}
