//! What a program of typed trees does, as C11 and this compiler's choices say. Definitions stand in `specs/`.
#![tactic(auto)]
