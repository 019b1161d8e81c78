ghost use Rattle.std.specs.Prelude.{◌≡◌, ◌<◌, ◌*◌, ◌^◌, ◌↔◌, ℕ, List, true, ◌&&◌, [], ◌∷◌, ◌++◌, length, IsTrue};
ghost use Rattle.std.specs.List.{IsDistinct};
ghost use Rattle.std.specs.Str.{bytes_eq};
ghost use Rattle.pa_names.specs.Key.{Took, start, started};
ghost use Rattle.pa_symbols.specs.Legal as spec;
ghost use Rattle.pa_symbols.specs.Symbols.{AreLegal, public_names};

use crate::places::TextAt;
use crate::writing::entry_fields;
use pa_layout::{all_fit, is_name};
use pa_names::{TextDigest, TextKey};
use pa_object::Mark;
use std::hash::{BuildHasher, Hasher};

/// How many bits each of the three parts of a table of names has.
const PART: u64 = 0x20_0000;

/// How many words such a table has.
const TABLE: usize = 98304;

/// The mark stands at a word of the code from the least one on, and its name and its entry's fields can be spelled.
#[tactic(auto, unfolding(crate::specs::Legal::mark_stands))]
fn mark_stands(mark: &Mark, text: TextAt, place: u128, least: u64) -> bool
    ensures { result ≡ spec.mark_stands text place least mark.now }
{
    least <= mark.at as u64
        && mark.at < text.words
        && mark.name.len() != 0
        && is_name(mark.name.as_slice())
        && all_fit(&entry_fields(mark, place, text.address))
}

/// Each mark stands after the one before, and can be spelled.
#[tactic(auto, using(crate::proofs::Placed::place_small))]
fn marks_stand(marks: &[Mark], text: TextAt) -> bool
    ensures { result ≡ spec.marks_stand text 1 0 marks.now }
{
    let mut place: u128 = 1;
    let mut least: u64 = 0;
    for mark in marks {
        if !mark_stands(mark, text, place, least) {
            return false;
        }
        place += mark.name.len() as u128 + 1;
        least = mark.at as u64 + 1;
    }
    true
}

/// Takes in what the mark adds to the key.
fn add_mark(digest: &mut TextDigest, mark: &Mark)
    ensures { (message : List ℕ) → Took digest.old message → Took digest.new (message ++ spec.own_message mark.now) }
{
    if mark.public {
        digest.add(mark.name.as_slice());
    }
}

/// The key that the public names are hashed under, which are all that decides it.
fn key_of(marks: &[Mark]) -> TextKey
    ensures { start result ≡ started (spec.message marks.now) }
{
    let mut digest = TextDigest::new();
    for mark in marks {
        add_mark(&mut digest, mark);
    }
    digest.finish()
}

fn hash(key: TextKey, name: &[u8]) -> u64
    ensures { result ≡ spec.hash_of key name.now }
{
    let mut hasher = key.build_hasher();
    hasher.write(name);
    hasher.finish()
}

/// Puts a bit into the table, and answers whether it was there.
fn put_bit(table: &mut [u64], bit: u64) -> bool
    requires size { length table.old ≡ 98304 }
    requires small { bit < 3 * spec.part_size }
    ensures was { result ≡ spec.has_bit table.old bit }
    ensures put { spec.has_bit table.new bit ≡ true }
    ensures kept { (other : ℕ) → spec.has_bit table.old other ≡ true → spec.has_bit table.new other ≡ true }
{
    let word = (bit / 64) as usize;
    let bits = table[word];
    let place = (bit % 64) as u32;
    table[word] = bits | (1 << place);
    (bits >> place) & 1 == 1
}

/// Puts the bits of the hash into the table, and answers whether all may have been there.
fn put_bits(table: &mut [u64], hash: u64) -> bool
    requires size { length table.old ≡ 98304 }
    ensures was { spec.has_bits table.old hash ≡ true → result ≡ true }
    ensures put { spec.has_bits table.new hash ≡ true }
    ensures kept { (other : ℕ) → spec.has_bits table.old other ≡ true → spec.has_bits table.new other ≡ true }
{
    let first = put_bit(table, hash % PART);
    let second = put_bit(table, PART + (hash >> 21) % PART);
    let third = put_bit(table, 2 * PART + (hash >> 42) % PART);
    first && second && third
}

/// One of the marks is public and has that name.
fn is_among(marks: &[Mark], name: &[u8]) -> bool
    ensures { result ≡ spec.public_among marks.now name.now }
{
    marks
        .iter()
        .any(|mark| mark.public && name == mark.name.as_slice())
}

/// The mark is public, and so is one before it with the same name. A name whose bits aren't all in the table is new; for any
/// other one the marks before it are searched.
fn is_told_twice(key: TextKey, before: &[Mark], mark: &Mark, table: &mut [u64]) -> bool
    requires size { length table.old ≡ 98304 }
    requires covers { spec.Covers key table.old before.now }
    ensures twice { result ≡ (mark.now.public && spec.public_among before.now mark.now.name) }
    ensures covers { spec.Covers key table.new (before.now ++ mark.now ∷ []) }
{
    if !mark.public {
        return false;
    }
    let name = mark.name.as_slice();
    if !put_bits(table, hash(key, name)) {
        return false;
    }
    is_among(before, name)
}

/// No two of the public names are equal. The table may have any bits.
fn are_distinct_by(key: TextKey, marks: &[Mark], table: &mut [u64]) -> bool
    requires { length table.old ≡ 98304 }
    ensures { IsTrue result ↔ IsDistinct bytes_eq (public_names marks.now) }
{
    for (k, mark) in marks.iter().enumerate() {
        if is_told_twice(key, &marks[..k], mark, table) {
            return false;
        }
    }
    true
}

/// No two of the public names are equal.
fn are_distinct(marks: &[Mark]) -> bool
    ensures { IsTrue result ↔ IsDistinct bytes_eq (public_names marks.now) }
{
    are_distinct_by(key_of(marks), marks, &mut [0; TABLE])
}

/// Whether some symbols and strings stand for the marks. It takes no memory but a table of fixed size (768 KiB) on the stack.
///
/// The answer is exact; the table only saves time. A public name is compared with those before it where all of its three bits
/// are taken: by chance that is one in 170,000 where there are 60,000, and one in 400 where there are 500,000, which is what an
/// image of 16 MiB has room for. The hashes are keyed by the public names themselves, so names can't be picked so that more are.
pub fn legal_marks(marks: &[Mark], text: TextAt) -> bool
    ensures { IsTrue result ↔ AreLegal text marks.now }
{
    marks_stand(marks, text) && are_distinct(marks)
}
