ghost use Rattle.std.specs.Prelude.{◌≡◌};
ghost use Rattle.pa_pac.specs.Key.{key_number};

/// A pointer authentication key: two for code, two for data, and the generic one.
#[derive(Clone, Copy, Debug, PartialEq, Eq)]
pub enum Key {
    IA,
    IB,
    DA,
    DB,
    GA,
}

impl Key {
    /// IA 0, IB 1, DA 2 and DB 3, as the images spell them, and GA 4.
    pub fn number(self) -> u8
        ensures { result ≡ key_number self }
    {
        match self {
            Key::IA => 0,
            Key::IB => 1,
            Key::DA => 2,
            Key::DB => 3,
            Key::GA => 4,
        }
    }
}
