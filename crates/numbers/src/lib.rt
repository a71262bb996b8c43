// Entries of bit vectors read as numbers: unsigned, as wellen's `u64` of a value, two's complement signed, and packed decimal.
#![tactic(auto)]

pub mod bits;
pub mod read;
