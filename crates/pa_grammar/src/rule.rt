use pa_num::Memory;
use std::alloc::AllocError;

/// A rule of the grammar that tokens can break.
#[derive(Clone, Copy, Debug, PartialEq, Eq)]
pub enum SynRule {
    /// No tree begins so.
    S1,
    /// Only a tree that is too deep begins so.
    S2,
}

/// Why a reader stands still.
#[derive(Clone, Copy, Debug, PartialEq, Eq)]
pub enum ParseError {
    Memory,
    /// At the next token.
    Broken(SynRule),
}

impl From<Memory> for ParseError {
    ghost use Rattle.std.specs.Prelude.{◌≡◌};
    ghost use Rattle.pa_grammar.specs.declared.rule.ParseError.TheVariants as error;

    ghost from_gives = { λ _ e. e ≡ error.Memory };

    fn from(_: Memory) -> ParseError {
        ParseError::Memory
    }
}

/// Which expressions may stand at a place (C11 6.5.17, 6.5.16, 6.6).
#[derive(Clone, Copy, Debug, PartialEq, Eq)]
pub enum Level {
    Expr,
    Assign,
    Cond,
}

impl Level {
    ghost use Rattle.std.specs.Prelude.{◌≡◌};
    ghost use Rattle.pa_grammar.specs.Answers as answers;

    /// The number of the nonterminal.
    pub fn number(self) -> u8
        ensures { result ≡ answers.level_number self }
    {
        match self {
            Level::Expr => 0,
            Level::Assign => 1,
            Level::Cond => 2,
        }
    }
}

/// Whether a declarator has a name: it has to, it must not, or either.
#[derive(Clone, Copy, Debug, PartialEq, Eq)]
pub enum Naming {
    Named,
    Unnamed,
    Either,
}

impl From<AllocError> for ParseError {
    ghost use Rattle.std.specs.Prelude.{◌≡◌};
    ghost use Rattle.pa_grammar.specs.declared.rule.ParseError.TheVariants as error;

    ghost from_gives = { λ _ e. e ≡ error.Memory };

    fn from(_: AllocError) -> ParseError {
        ParseError::Memory
    }
}
