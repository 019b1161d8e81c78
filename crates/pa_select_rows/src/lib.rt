//! Programs in flat code whose machine code is placed by hand and run. The crate has tests alone.
#![tactic(auto)]

#[cfg(test)]
mod functions;
#[cfg(test)]
mod placing;
#[cfg(test)]
mod programs;
#[cfg(test)]
mod selectable;
#[cfg(test)]
mod tests;
