ghost use Rattle.std.specs.Prelude.{◌≡◌, ◌<◌, IsTrue};
ghost use Rattle.std.specs.Bool.{OnTrue};
ghost use Rattle.std.specs.List.{list_any};
ghost use Rattle.indexmap.specs.IndexSet.{spare};
ghost use Rattle.pa_pac.specs.Key.{key_number};
ghost use Rattle.pa_log.specs.Index.{Notes, same, signs, any_signs};

use indexmap::IndexSet;
use pa_pac::{Entry, Event, Key};

/// What a signature was made of. The key stands as its number, by which keys are told apart.
#[derive(Clone, Copy, Debug, PartialEq, Eq, Hash)]
pub struct Signing {
    pub key: u8,
    pub modifier: u64,
    pub raw: u64,
}

impl Signing {
    pub fn new(key: Key, modifier: u64, raw: u64) -> Signing
        ensures { result ≡ record { key = key_number key; modifier = modifier; raw = raw } }
    {
        Signing {
            key: key.number(),
            modifier,
            raw,
        }
    }

    /// Whether the event is a signature of this.
    pub fn is_of(self, event: Event) -> bool
        ensures { result ≡ signs self event }
    {
        match event {
            Event::Sign {
                key,
                modifier,
                raw,
                ..
            } => self == Signing::new(key, modifier, raw),
            Event::Take { .. } | Event::Land { .. } => false,
        }
    }

    /// Whether some entry is a signature of this.
    pub fn is_among(self, entries: &[Entry]) -> bool
        ensures { result ≡ any_signs self entries.now }
    {
        entries.iter().any(|entry| self.is_of(entry.event))
    }
}

/// Puts the signing into the index, and answers whether it is there now. That can fail only where there was no room.
pub fn note(index: &mut IndexSet<Signing>, signing: Signing) -> bool
    ensures noted { OnTrue result (Notes index.old.keys signing index.new.keys) }
    ensures room { 0 < spare index.old → IsTrue result }
{
    index.insert(signing).is_ok()
}

/// Whether the index has the signing.
pub fn is_noted(index: &IndexSet<Signing>, signing: Signing) -> bool
    ensures { result ≡ list_any (same signing) index.now.keys }
{
    index.contains(&signing)
}
