ghost use Rattle.std.specs.Prelude.{◌≡◌, ◌<◌, ◌++◌, ◌%◌, length};
ghost use Rattle.pa_sip.specs.Sip.{initial, sip_round, rounds, compressed, finalized, padding, siphash};

/// The four words of the state.
#[derive(Clone, Copy, Debug, PartialEq, Eq)]
struct State {
    v0: u64,
    v1: u64,
    v2: u64,
    v3: u64,
}

impl State {
    #[tactic(auto, unfolding(crate::specs::Sip::initial))]
    fn new(k0: u64, k1: u64) -> State
        ensures { result ≡ initial k0 k1 }
    {
        State {
            v0: k0 ^ 0x736f_6d65_7073_6575,
            v1: k1 ^ 0x646f_7261_6e64_6f6d,
            v2: k0 ^ 0x6c79_6765_6e65_7261,
            v3: k1 ^ 0x7465_6462_7974_6573,
        }
    }

    fn round(&mut self)
        ensures { self.new ≡ sip_round self.old }
    {
        self.v0 = self.v0.wrapping_add(self.v1);
        self.v2 = self.v2.wrapping_add(self.v3);
        self.v1 = self.v1.rotate_left(13) ^ self.v0;
        self.v3 = self.v3.rotate_left(16) ^ self.v2;
        self.v0 = self.v0.rotate_left(32);
        self.v2 = self.v2.wrapping_add(self.v1);
        self.v0 = self.v0.wrapping_add(self.v3);
        self.v1 = self.v1.rotate_left(17) ^ self.v2;
        self.v3 = self.v3.rotate_left(21) ^ self.v0;
        self.v2 = self.v2.rotate_left(32);
    }

    fn rounds(&mut self, count: u8)
        ensures { self.new ≡ rounds count self.old }
    {
        for _ in 0..count {
            self.round();
        }
    }

    fn compress(&mut self, word: u64)
        ensures { self.new ≡ compressed self.old word }
    {
        self.v3 ^= word;
        self.rounds(2);
        self.v0 ^= word;
    }

    fn finish(mut self) -> u64
        ensures { result ≡ finalized self }
    {
        self.v2 ^= 0xff;
        self.rounds(4);
        self.v0 ^ self.v1 ^ self.v2 ^ self.v3
    }
}

/// The last word of a message of `len` bytes: the bytes that are left, zeros, and the low byte of the length.
fn last_word(rest: &[u8], len: usize) -> [u8; 8]
    requires few { length rest.now < 8 }
    requires rest { length rest.now ≡ len % 8 }
    ensures { result ≡ rest.now ++ padding len }
{
    let mut word = [0; 8];
    word[..rest.len()].copy_from_slice(rest);
    word[7] = (len % 256) as u8;
    word
}

/// SipHash-2-4 of the bytes under the key whose halves, read little-endian, are `k0` and `k1`
/// (J.-P. Aumasson and D. J. Bernstein, SipHash: a fast short-input PRF). It takes no memory.
pub fn sip24(k0: u64, k1: u64, bytes: &[u8]) -> u64
    ensures { result ≡ siphash k0 k1 bytes.now }
{
    let mut state = State::new(k0, k1);
    let mut rest = bytes;
    while let Some((word, after)) = rest.split_first_chunk::<8>() {
        state.compress(u64::from_le_bytes(*word));
        rest = after;
    }
    state.compress(u64::from_le_bytes(last_word(rest, bytes.len())));
    state.finish()
}

#[cfg(test)]
mod tests {
    use super::sip24;

    /// The vector of the paper's appendix: the key's bytes are 00 to 0f, the message's 00 to 0e.
    #[test]
    fn agrees_with_the_paper(rt: HostRuntime) {
        let message = [0, 1, 2, 3, 4, 5, 6, 7, 8, 9, 10, 11, 12, 13, 14];
        let hash = sip24(0x0706_0504_0302_0100, 0x0f0e_0d0c_0b0a_0908, &message);
        assert_eq!(rt; hash, 0xa129_ca61_49be_45e5);
    }
}
