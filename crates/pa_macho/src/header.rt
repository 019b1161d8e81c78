/// What an image is: the program's own (a file of type MH_EXECUTE), or the library that it binds to (MH_DYLIB).
#[derive(Clone, Copy, Debug, PartialEq, Eq)]
pub enum Role {
    Main,
    Library,
}

impl Role {
    ghost use Rattle.std.specs.Prelude.{◌≡◌};
    ghost use Rattle.pa_macho.specs.Layout.{base_of};

    /// The address of the image's first byte, as the file gives it.
    pub fn base(self) -> u64
        ensures { result ≡ base_of self }
    {
        match self {
            Role::Main => 0x1_0000_0000,
            Role::Library => 0x1_8000_0000,
        }
    }
}

/// What an image's header says: its role, and how many bytes each part has; all else in it follows. The sections are `__text`, `__auth_stubs`,
/// `__const`, `__auth_got` and `__data`; the other parts are the fixups, the symbols and the strings of `__LINKEDIT`.
#[derive(Clone, Copy, Debug, PartialEq, Eq)]
pub struct Header {
    pub role: Role,
    pub text: u32,
    pub stubs: u32,
    pub consts: u32,
    pub got: u32,
    pub cells: u32,
    pub fixups: u32,
    pub symbols: u32,
    pub strings: u32,
}
