// Derived records, after the second half of wellen's src/signal/transform.rs.
#![tactic(auto)]

use derivation::DerivedBitVecSignal;
use steps::Sources;

pub mod derive;
pub mod picking;
pub mod refusals;

// A derivation and the inputs that it is made of.
#[derive(Clone, Copy)]
pub struct Task<'a> {
    pub derivation: &'a DerivedBitVecSignal,
    pub sources: &'a Sources<'a>,
}
