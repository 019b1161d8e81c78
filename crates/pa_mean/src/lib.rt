//! The C meaning by steps: a machine over one list of what waits.
#![tactic(auto)]
