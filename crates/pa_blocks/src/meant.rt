ghost use Rattle.std.specs.Prelude.{◌≡◌};
ghost use Rattle.pa_blocks.specs.Blocks as spec;

/// What an ordinary name means (C11 6.2.1, 6.2.3), with types by number.
#[derive(Clone, Copy, Debug, PartialEq, Eq)]
pub enum Meant {
    /// An object of a function, by its number there.
    Local { number: u32, of: u32 },
    /// An object or a function of the file.
    Global { of: u32 },
    /// An enumerator (6.7.2.2), or a constant that an include line brought in.
    Constant { value: i64, brought: bool },
    /// A type (6.7.8).
    TypeName { of: u32 },
    /// `ptrauth_string_discriminator` of `<ptrauth.h>`.
    Discriminator,
}

impl Meant {
    /// The same object or function, of another type.
    pub(crate) fn with_type(self, of: u32) -> Meant
        ensures { result ≡ spec.with_type of self }
    {
        match self {
            Meant::Local { number, .. } => Meant::Local { number, of },
            Meant::Global { .. } => Meant::Global { of },
            Meant::Constant { .. } | Meant::TypeName { .. } | Meant::Discriminator => self,
        }
    }
}
