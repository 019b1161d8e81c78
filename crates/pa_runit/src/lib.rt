//! The unit of a file of C, or the first rule of types that the file breaks and where.
#![tactic(auto)]
