// Derive, after wellen's `transform_bv_signal` and `on_change`.
ghost use Rattle.std.specs.Prelude.{◌≡◌, length};
ghost use Rattle.layout.specs.Entry.{entry_size};
ghost use Rattle.steps.specs.Room.{room_for};
ghost use Rattle.steps.specs.Storing.{Roomy, Wrote};
ghost use Rattle.transform.specs.Derive.{derived_of, left_by_derive, derive};
ghost use Rattle.transform.specs.Picking.{WalkableOf, largest_over};
ghost use Rattle.transform.specs.Refusals.{DerivableOf};

use crate::Task;
use crate::picking::{step_states, write_pieces};
use derivation::DerivedBitVecSignal;
use fst::{Description, Encoding, Refusal};
use layout::entry::entry_size;
use layout::number::NewEntry;
use steps::room::{has_room, total_count};
use steps::step::{advance, at_start, next_index};
use steps::store::{append_step, put_index};
use steps::{Input, Sources};
use value::States;

// The largest of the inputs' largest sets.
fn largest_states(inputs: &[Input]) -> States
    ensures { result ≡ largest_over inputs.now }
{
    inputs
        .iter()
        .map(|input| input.description.encoding.largest())
        .fold(States::Two, States::join)
}

impl Task<'_> {
    // Stores the steps that are kept, a stride apart, and their indices. Returns how many there are. At the stride 0 each takes the place of
    // the one before: they are only counted.
    #[tactic(auto, using(crate::proofs::Given::few_inputs, crate::proofs::Given::narrow))]
    fn write_steps(
        &self,
        max_states: States,
        stride: usize,
        out_bytes: &mut [u8],
        out_indices: &mut [u32],
    ) -> u32
        requires { WalkableOf self.now max_states × Roomy (length (derived_of self.now)) (entry_size self.now.derivation.now.width max_states) stride out_bytes.old }
        ensures { Wrote self.now.derivation.now.width max_states stride (derived_of self.now) out_bytes.old out_indices.old result out_bytes.new out_indices.new }
    {
        let derivation = self.derivation;
        let sources = self.sources;
        let pieces = derivation.pieces();
        let size = entry_size(max_states, derivation.width);
        let bytes = sources.bytes;
        let indices = sources.indices;
        let mut slots = at_start(sources.inputs);
        let cursors = &mut slots[..sources.inputs.count as usize];
        let mut text = [0u8; 4096];
        let mut count: u32 = 0;
        while let Some(index) = next_index(cursors, indices) {
            advance(cursors, indices, index);
            write_pieces(pieces, cursors, bytes, &mut text);
            let states = step_states(cursors, bytes);
            let value = &text[..derivation.width as usize];
            let entry = NewEntry::new(max_states, states, value, size);
            let kept = append_step(count, &entry, stride, out_bytes);
            put_index(count, kept, index, out_indices);
            count = kept;
        }
        count
    }

    // Whether the steps that are kept have room in slices of these lengths. They are counted where the inputs' entries together have none.
    #[tactic(auto, using(crate::proofs::Given::few_used, crate::proofs::Given::narrow, crate::proofs::Given::stand, layout::proofs::Sizes::size_small, steps::proofs::Totals::total_small))]
    fn steps_fit(&self, max_states: States, out_bytes: usize, out_indices: usize) -> bool
        requires { WalkableOf self.now max_states }
        ensures { result ≡ room_for (length (derived_of self.now)) (entry_size self.now.derivation.now.width max_states) out_bytes out_indices }
    {
        let size = entry_size(max_states, self.derivation.width);
        if has_room(
            total_count(self.sources.inputs.used()),
            size,
            out_bytes,
            out_indices,
        ) {
            return true;
        }
        let mut last = [0u8; 2049];
        let mut index = [0u32; 1];
        let count = self.write_steps(max_states, 0, &mut last, &mut index);
        has_room(count, size, out_bytes, out_indices)
    }

    // Derive where no number before 7 refuses. Nothing is stored before it is known that all fits.
    #[tactic(auto, using(crate::proofs::ByRoom::no_room, crate::proofs::ByRoom::roomy, crate::proofs::Given::largest_is))]
    fn derive_all(
        &self,
        out_bytes: &mut [u8],
        out_indices: &mut [u32],
    ) -> Result<Description, Refusal>
        requires { DerivableOf self.now }
        ensures { left_by_derive result out_bytes.new out_indices.new ≡ derive self.now.derivation.now self.now.sources.now.inputs.now self.now.sources.now.bytes.now self.now.sources.now.indices.now out_bytes.old out_indices.old }
    {
        let max_states = largest_states(self.sources.inputs.used());
        let width = self.derivation.width;
        if !self.steps_fit(max_states, out_bytes.len(), out_indices.len()) {
            return Err(Refusal::NoRoom);
        }
        let size = entry_size(max_states, width);
        let count = self.write_steps(max_states, size, out_bytes, out_indices);
        let encoding = Encoding::BitVector { width, max_states };
        Ok(Description::new(encoding, count))
    }
}

// Derive. The numbers are tried in the order 2, 14, 15, 11, 9, 10, 7.
#[tactic(auto, using(crate::proofs::ByRoom::refused_first))]
pub fn derive(
    derivation: &DerivedBitVecSignal,
    sources: &Sources,
    out_bytes: &mut [u8],
    out_indices: &mut [u32],
) -> Result<Description, Refusal>
    ensures { left_by_derive result out_bytes.new out_indices.new ≡ derive derivation.now sources.now.inputs.now sources.now.bytes.now sources.now.indices.now out_bytes.old out_indices.old }
{
    let task = Task {
        derivation,
        sources,
    };
    task.first_refusal()?;
    task.derive_all(out_bytes, out_indices)
}
