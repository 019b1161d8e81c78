ghost use Rattle.std.specs.Prelude.{◌≤◌, length, IfOk};
ghost use Rattle.std.specs.List.{IsDistinct};
ghost use Rattle.std.specs.Str.{bytes_eq};
ghost use Rattle.pa_lex.specs.Lexes as lexes;
ghost use Rattle.pa_lex.specs.Numbering as numbering;

use crate::names::Names;
use crate::reader::Reader;
use crate::token::{LexRule, Tokens};
use pa_num::Fault;
use std::alloc::Global;

/// The tokens of a file, and the names that their numbers stand for.
#[derive(Drop)]
pub struct Lexed<'a> {
    pub tokens: Tokens,
    pub names: Names<'a>,
}

/// The tokens of a file of C11 (6.4), or the first rule that its bytes break, with the place of the token, comment or line
/// that breaks it. There are no preprocessing numbers, digraphs, prefixes of literals, line splices and directives but the
/// lines of `Include`. It takes time in proportion to the bytes.
#[tactic(auto, using(crate::proofs::Numbered::nameless))]
pub fn lex(alloc: Global, bytes: &[u8]) -> Result<Lexed<'_>, Fault<LexRule>>
    requires { length bytes.now ≤ 4294967295 }
    ensures answer { numbering.IsAnswer bytes.now result }
    ensures distinct { IfOk result (λ lexed. IsDistinct bytes_eq lexed.names) }
    ensures settled { lexes.IsSettled bytes.now }
{
    let mut names = Names::new(alloc)?;
    let mut tokens = Tokens::new(alloc);
    let mut reader = Reader::new(bytes);
    reader.skip();
    'tokens: while !reader.is_at_end() {
        let token = names.token(reader.token(alloc)?)?;
        tokens.push(token)?;
        reader.skip();
    }
    Ok(Lexed { tokens, names })
}
