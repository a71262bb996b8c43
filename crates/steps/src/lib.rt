// Steps over input records that share two slices: what an input can be refused for by itself, what comes next, and the steps that are kept.
#![tactic(auto)]

ghost use Rattle.std.specs.Prelude.{◌≡◌, length, min};
ghost use Rattle.steps.specs.Inputs.{inputs_of};

use fst::Description;

pub mod refusals;
pub mod room;
pub mod step;
pub mod store;

// An input record by its description and where it starts in the two slices that all inputs share.
#[derive(Clone, Copy)]
pub struct Input {
    pub description: Description,
    pub byte_start: usize,
    pub index_start: usize,
}

// The input records, in the order of the derivation's input names. A count above the slots is possible: it fits no derivation.
#[derive(Clone, Copy)]
pub struct Inputs {
    pub count: u32,
    pub slots: [Input; 8],
}

impl Inputs {
    // The slots that hold inputs.
    pub fn used(&self) -> &[Input]
        ensures value { result.now ≡ inputs_of self.now }
        ensures long { length result.now ≡ min self.now.count 8 }
    {
        &self.slots[..self.count.min(8) as usize]
    }
}

// The input records and the two slices that they share.
#[derive(Clone, Copy)]
pub struct Sources<'a> {
    pub inputs: &'a Inputs,
    pub bytes: &'a [u8],
    pub indices: &'a [u32],
}
