//! That flat code does what the C meaning says: a theorem on definitions. No code runs it.
#![tactic(auto)]
