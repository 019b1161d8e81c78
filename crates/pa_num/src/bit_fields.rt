ghost use Rattle.std.specs.Prelude.{◌≡◌, ℕ, ◌+◌, ◌-◌, ◌^◌, ◌<◌, ◌≤◌};
ghost use Rattle.std.specs.Int.{bit_at};
ghost use Rattle.pa_num.specs.Bits.{field, with_field, truncated, sign_extended};

/// The lowest `bits` bits of `value`, with zeros above them.
pub fn trunc(value: u64, bits: u32) -> u64
    requires some { 1 ≤ bits }
    requires within { bits ≤ 64 }
    ensures value { result ≡ truncated value bits }
    ensures low { (k : ℕ) → k < bits → bit_at result k ≡ bit_at value k }
    ensures high { (k : ℕ) → bits ≤ k → bit_at result k ≡ 0 }
{
    value & (u64::MAX >> (64 - bits))
}

/// The lowest `bits` bits of `value`, with copies of the highest of them above: the two's complement of `bits` bits as
/// the two's complement of 64.
pub fn sext(value: u64, bits: u32) -> u64
    requires some { 1 ≤ bits }
    requires within { bits ≤ 64 }
    ensures value { result ≡ sign_extended value bits }
    ensures low { (k : ℕ) → k < bits → bit_at result k ≡ bit_at value k }
    ensures high { (k : ℕ) → bits ≤ k → k < 64 → bit_at result k ≡ bit_at value (bits - 1) }
{
    let low = trunc(value, bits);
    if (value >> (bits - 1)) & 1 == 1 {
        low + (u64::MAX - (u64::MAX >> (64 - bits)))
    } else {
        low
    }
}

/// The field of a word that has `LEN` bits from bit `LO` on.
pub struct Field<const LO: u32, const LEN: u32>;

impl<const LO: u32, const LEN: u32> Field<LO, LEN> {
    /// The number that the field stands for.
    pub fn get(word: u64) -> u64
        requires some { 1 ≤ LEN }
        requires below { LEN ≤ 63 }
        requires within { LO + LEN ≤ 64 }
        ensures value { result ≡ field LO LEN word }
        ensures bits { (k : ℕ) → k < LEN → bit_at result k ≡ bit_at word (LO + k) }
        ensures fits { result < 2 ^ LEN }
    {
        trunc(word >> LO, LEN)
    }

    /// The word with `value` in the field and its own other bits.
    pub fn put(word: u64, value: u64) -> u64
        requires some { 1 ≤ LEN }
        requires below { LEN ≤ 63 }
        requires within { LO + LEN ≤ 64 }
        requires fits { value < 2 ^ LEN }
        ensures value { result ≡ with_field LO LEN word value }

        // What was put is what is got.
        ensures got { field LO LEN result ≡ value }
        ensures under { (k : ℕ) → k < LO → bit_at result k ≡ bit_at word k }
        ensures over { (k : ℕ) → LO + LEN ≤ k → bit_at result k ≡ bit_at word k }
    {
        let mask = (u64::MAX >> (64 - LEN)) << LO;
        (word & !mask) | (value << LO)
    }
}
