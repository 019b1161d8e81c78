//! Laws of the machine's rows and of its runs, also of those that begin in a loaded state: which instruction made which entry,
//! how a run reads its input, and that a row depends on no register that it doesn't read. Definitions stand in `specs/`, the
//! laws in `proofs/`; there is no code.
#![tactic(auto)]
