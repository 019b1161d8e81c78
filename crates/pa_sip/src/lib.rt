//! SipHash-2-4, and the discriminators of texts that it gives.
#![tactic(auto)]

mod discriminator;
mod sip;

pub use discriminator::string_disc;
pub use sip::sip24;
