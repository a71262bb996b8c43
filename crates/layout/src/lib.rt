// The layout of entries: their sizes, stored, compared, and laid out anew under a larger set. The layout half of wellen's src/fst.rs.
#![tactic(auto)]

pub mod bytes;
pub mod entry;
pub mod expand;
pub mod number;
