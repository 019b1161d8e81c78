ghost use Rattle.std.specs.Prelude.{◌≡◌, ◌≤◌, ◌<◌, ◌-◌, false, [], ◌∷◌, ◌++◌, reverse, vec_len, vec_capacity, OnOk, OnErr};
ghost use Rattle.pa_pac.specs.Log.{is_known};
ghost use Rattle.pa_log.specs.Index.{signs, any_signs};

use crate::signing::{Signing, is_noted, note};
use indexmap::IndexSet;
use pa_num::Memory;
use pa_pac::{Entry, Event, Key, Way, When};
use std::alloc::Global;
use std::marker::Model;

/// The log of a run: what was signed, accepted and branched to, in order.
#[derive(Debug, Drop)]
pub struct Log {
    entries: Vec<Entry>,
    // How many more entries there is room for.
    spare: u64,
    // What the entries sign, or a part of it where the index isn't whole.
    index: IndexSet<Signing>,
    whole: bool,
}

impl Model for Log {
    ghost use Rattle.std.specs.Prelude.{◌≡◌, ◌≤◌, ◌+◌, true, reverse, vec_len, vec_capacity};
    ghost use Rattle.pa_log.specs.Recorded.{Recorded};
    ghost use Rattle.pa_log.specs.Index.{IsIndex};

    ghost Value = { Recorded };

    ghost view = { λ l. record { entries = reverse l.entries.items; spare = l.spare } };

    ghost invariant = { λ l. (vec_len l.entries + l.spare ≤ vec_capacity l.entries)
        × (l.whole ≡ true → IsIndex l.index.keys l.entries.items) };
}

impl Log {
    /// A log without an entry or room for one. It takes no memory.
    pub fn new(alloc: Global) -> Log
        ensures { result ≡ record { entries = []; spare = 0 } }
    {
        Log {
            entries: Vec::new(alloc),
            spare: 0,
            index: IndexSet::new(alloc),
            whole: true,
        }
    }

    /// Makes room for n more entries at least. Out of memory, the log is as before.
    pub fn reserve(&mut self, events: u64) -> Result<(), Memory>
        ensures entries { self.new.entries ≡ self.old.entries }
        ensures ok { OnOk result (events ≤ self.new.spare) }
        ensures spare { self.old.spare ≤ self.new.spare }
        ensures err { OnErr result (self.new ≡ self.old) }
    {
        if self.spare < events {
            self.entries.reserve(events as usize)?;
            self.index.reserve(events as usize)?;
            self.spare = events;
        }
        Ok(())
    }

    /// How many more entries there is room for.
    pub fn spare(&self) -> u64
        ensures { result ≡ self.now.spare }
    {
        self.spare
    }

    /// The entries, the oldest first.
    pub fn entries(&self) -> &[Entry]
        ensures { result.now ≡ reverse self.now.entries }
    {
        self.entries.as_slice()
    }

    /// Adds a signature: `signed` was made of `raw` under this key and modifier.
    pub fn push_sign(&mut self, when: When, key: Key, modifier: u64, raw: u64, signed: u64)
        requires { 0 < self.old.spare }
        ensures entries { self.new.entries ≡
            record { when = when; event = Event.Sign key modifier raw signed } ∷ self.old.entries }
        ensures spare { self.new.spare ≡ self.old.spare - 1 }
    {
        let event = Event::Sign {
            key,
            modifier,
            raw,
            signed,
        };
        let noted = note(&mut self.index, Signing::new(key, modifier, raw));
        self.whole = self.whole && noted;
        append(&mut self.entries, Entry { when, event });
        self.spare -= 1;
    }

    /// Adds an accepted authentication that gave `raw` under this key and modifier, and answers whether it is known: an
    /// earlier entry signs this address under this key and modifier.
    pub fn push_take(&mut self, when: When, key: Key, modifier: u64, raw: u64) -> bool
        requires { 0 < self.old.spare }
        ensures known { result ≡ is_known self.old.entries key modifier raw }
        ensures entries { self.new.entries ≡
            record { when = when; event = Event.Take key modifier raw result } ∷ self.old.entries }
        ensures spare { self.new.spare ≡ self.old.spare - 1 }
    {
        let known = self.knows(Signing::new(key, modifier, raw));
        let event = Event::Take {
            key,
            modifier,
            raw,
            known,
        };
        self.push_other(Entry { when, event });
        known
    }

    /// Adds an indirect branch that went to `target`.
    pub fn push_land(&mut self, when: When, way: Way, target: u64)
        requires { 0 < self.old.spare }
        ensures entries { self.new.entries ≡ record { when = when; event = Event.Land way target } ∷ self.old.entries }
        ensures spare { self.new.spare ≡ self.old.spare - 1 }
    {
        let event = Event::Land { way, target };
        self.push_other(Entry { when, event });
    }

    // Adds an entry that is no signature.
    fn push_other(&mut self, entry: Entry)
        requires spare { 0 < self.old.spare }
        requires other { (signing : Signing) → signs signing entry.event ≡ false }
        ensures entries { self.new.entries ≡ entry ∷ self.old.entries }
        ensures spare { self.new.spare ≡ self.old.spare - 1 }
    {
        append(&mut self.entries, entry);
        self.spare -= 1;
    }

    fn knows(&self, signing: Signing) -> bool
        ensures { result ≡ any_signs signing self.now.entries }
    {
        if self.whole {
            is_noted(&self.index, signing)
        } else {
            signing.is_among(&self.entries)
        }
    }
}

// Adds an entry where there is room for it.
fn append(entries: &mut Vec<Entry>, entry: Entry)
    requires { vec_len entries.old < vec_capacity entries.old }
    ensures items { entries.new.items ≡ entries.old.items ++ entry ∷ [] }
    ensures room { vec_capacity entries.old ≤ vec_capacity entries.new }
{
    entries.push(entry).unwrap();
}
