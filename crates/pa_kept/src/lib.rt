//! That what the checker accepts keeps its control flow under every script: a theorem on the definitions of the checker, of
//! loading and of runs. No code runs it.
#![tactic(auto)]

ghost use Rattle.pa_kept.specs.Secure.{ProgramsSecure, Secure};

/// Control flow is kept: the contract is the theorem.
pub fn kept_under_every_script()
    // With any windowed runtime image.
    ensures pairs { Secure }
    ensures programs { ProgramsSecure }
{}
