//! How statements, declarations and files of C are read from the left, as a definition with its laws. Definitions stand in `specs/`.
#![tactic(auto)]
