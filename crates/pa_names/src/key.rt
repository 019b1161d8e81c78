ghost use Rattle.std.specs.Prelude.{◌≡◌, ℕ, List, [], ◌++◌};
ghost use Rattle.pa_names.specs.Key.{Took, piece, started, start};

use sha2::{Digest, Sha256};
use std::hash::{BuildHasher, DefaultHasher, Hasher};

/// A text, or what else decides which names a table keeps, taken in piece by piece for a key. It takes no memory.
///
/// The borders of the pieces count, so that no two ways of cutting one text share a key.
#[derive(Drop)]
pub struct TextDigest {
    taken: Sha256,
}

impl TextDigest {
    /// No piece yet.
    pub fn new() -> TextDigest
        ensures { Took result [] }
    {
        TextDigest {
            taken: Sha256::new(),
        }
    }

    /// Takes the next piece in.
    pub fn add(&mut self, bytes: &[u8])
        ensures { (message : List ℕ) → Took self.old message → Took self.new (message ++ piece bytes.now) }
    {
        let length: [u8; 8] = (bytes.len() as u64).to_le_bytes();
        self.taken.update(&length[..]);
        self.taken.update(bytes);
    }

    /// The key of the pieces.
    pub fn finish(self) -> TextKey
        ensures { (message : List ℕ) → Took self message → start result ≡ started message }
    {
        let mut start = DefaultHasher::new();
        start.write(&self.taken.finalize());
        TextKey { start }
    }
}

/// A key for a hash table of names (`IndexMap::with_hasher` and its kin), the same for the same text.
///
/// It begins each hasher of a name with the SHA-256 of the text (FIPS 180-4), so who writes the text does not choose
/// the key that its names are hashed under.
#[derive(Clone, Copy, Debug)]
pub struct TextKey {
    start: DefaultHasher,
}

impl TextKey {
    /// The key of a text of one piece.
    pub fn of(text: &[u8]) -> TextKey
        ensures { start result ≡ started (piece text.now) }
    {
        let mut digest = TextDigest::new();
        digest.add(text);
        digest.finish()
    }
}

impl BuildHasher for TextKey {
    type Hasher = DefaultHasher;

    ghost build_hasher = { start };

    fn build_hasher(&self) -> DefaultHasher {
        self.start
    }
}

#[cfg(test)]
mod tests {
    use super::{TextDigest, TextKey};
    use std::hash::BuildHasher;

    /// Of another implementation of SHA-256 and SipHash-1-3.
    #[test]
    fn hashes_under_the_texts_digest(rt: HostRuntime) {
        let cases: [(&[u8], &[u8], u64); 5] = [
            (b"", b"main", 0x9bdf_842e_0eaa_4cad),
            (b"", b"", 0xd0cd_9722_b8ff_0c3f),
            (b"abc", b"main", 0x8b10_f216_f77b_6028),
            (b"abc", b"", 0x953b_05dc_fc40_5bcd),
            (&[b'a'; 300], b"main", 0x55e2_2b5b_2609_a221),
        ];
        for (text, name, hash) in &cases {
            assert_eq!(rt; TextKey::of(*text).hash_one(*name), *hash);
        }
    }

    #[test]
    fn tells_cuts_of_one_text_apart(rt: HostRuntime) {
        let cases: [(&[u8], &[u8], u64); 2] = [
            (b"a", b"bc", 0x770e_4fd6_ab39_6b43),
            (b"ab", b"c", 0xba39_f00d_7769_d7f6),
        ];
        for (first, second, hash) in &cases {
            let mut digest = TextDigest::new();
            digest.add(*first);
            digest.add(*second);
            let name: &[u8] = b"main";
            assert_eq!(rt; digest.finish().hash_one(name), *hash);
        }
        let none: &[u8] = b"";
        assert_eq!(rt;
            TextDigest::new().finish().hash_one(none),
            0xf94c_f8a9_9c23_79b0
        );
    }
}
