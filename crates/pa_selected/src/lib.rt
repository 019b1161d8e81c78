//! That selected code runs as flat code means: a theorem on definitions. No code runs it.
#![tactic(auto)]
