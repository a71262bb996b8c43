// What an input is refused for by itself, and the tests of all inputs for it.
ghost use Rattle.std.specs.Prelude.{List, false, ◌≡◌, ℕ, ◌+◌, ◌≤◌, ◌<◌, length};
ghost use Rattle.value.specs.Slice.{part, any};
ghost use Rattle.fst.specs.Record.{is_bad_bytes, used_size};
ghost use Rattle.signal.specs.Decode.{entry_at, has_bad_mark};
ghost use Rattle.steps.specs.Inputs.{indices_fall, is_bad_input, is_no_bit_vector, mark_is_bad, starts_late};
ghost use Rattle.steps.specs.Refusals.{Stand, bad_in, is_bad_in, its_inputs, its_record, its_records, kept_with};

use crate::{Input, Sources};
use fst::record::{Slices, is_bad};
use fst::{Description, Encoding};
use offset::falls;
use signal::decode::own_mark;
use signal::read::Record;

impl Input {
    // The used bytes of an input that is not 2.
    #[tactic(auto, unfolding(value::specs::Slice::part))]
    pub fn used_bytes<'a>(&self, bytes: &'a [u8]) -> &'a [u8]
        requires { self.now.byte_start + used_size self.now.description ≤ length bytes.now }
        ensures { result.now ≡ part self.now.byte_start (used_size self.now.description) bytes.now }
    {
        let n = self.description.count as usize * self.description.encoding.size();
        &bytes[self.byte_start..self.byte_start + n]
    }

    // The used indices of an input that is not 2.
    #[tactic(auto, unfolding(value::specs::Slice::part))]
    fn used_indices<'a>(&self, indices: &'a [u32]) -> &'a [u32]
        requires { self.now.index_start + self.now.description.count ≤ length indices.now }
        ensures { result.now ≡ part self.now.index_start self.now.description.count indices.now }
    {
        let n = self.description.count as usize;
        &indices[self.index_start..self.index_start + n]
    }
}

// Whether the mark of an entry is 3 or above the largest set's.
#[tactic(auto, using(signal::proofs::Reading::inside, signal::proofs::Reading::some, signal::proofs::Reading::whole), unfolding(signal::specs::Decode::has_bad_mark))]
fn has_bad_mark(description: Description, used: &[u8], k: u32) -> bool
    requires { (is_bad_bytes description 0 used.now ≡ false) × (k < description.count) }
    ensures { result ≡ has_bad_mark description.encoding (entry_at description.encoding 0 used.now k) }
{
    let Encoding::BitVector { max_states, .. } = description.encoding else {
        return false;
    };
    let most = max_states.mark();
    let record = Record {
        description,
        bytes: used,
        byte_start: 0,
    };
    most < own_mark(most, record.entry_at(k))
}

#[tactic(auto, using(std::proofs::lemmas::Iterator::serves_from_Range))]
fn any_bad_mark(description: Description, used: &[u8]) -> bool
    requires { is_bad_bytes description 0 used.now ≡ false }
    ensures { (indices : List ℕ) → length indices ≡ description.count → result ≡ mark_is_bad (kept_with description used.now indices) }
{
    (0..description.count).any(|k| has_bad_mark(description, used, k))
}

// The tests of one input. All but the first are for an input that is not 2.
impl Sources<'_> {
    fn is_bad(&self, input: &Input) -> bool
        ensures { result ≡ is_bad_in self.now input.now }
    {
        let slices = Slices {
            bytes: self.bytes,
            byte_start: input.byte_start,
            indices: self.indices,
            index_start: input.index_start,
        };
        is_bad(input.description, slices)
    }

    // Whether it is empty or starts past index 0.
    #[tactic(auto, using(crate::proofs::InputTests::indices_reach, crate::proofs::InputTests::late_none, crate::proofs::InputTests::late_first), unfolding(fst::specs::Record::kept_in))]
    fn is_late(&self, input: &Input) -> bool
        requires { is_bad_in self.now input.now ≡ false }
        ensures { result ≡ starts_late (its_record self.now input.now) }
    {
        let used = input.used_indices(self.indices);
        used.is_empty() || used[0] != 0
    }

    #[tactic(auto, using(crate::proofs::InputTests::indices_reach), unfolding(fst::specs::Record::kept_in))]
    fn is_falling(&self, input: &Input) -> bool
        requires { is_bad_in self.now input.now ≡ false }
        ensures { result ≡ indices_fall (its_record self.now input.now) }
    {
        falls(input.used_indices(self.indices))
    }

    fn is_marked_badly(&self, input: &Input) -> bool
        requires { is_bad_in self.now input.now ≡ false }
        ensures { result ≡ mark_is_bad (its_record self.now input.now) }
    {
        any_bad_mark(input.description, input.used_bytes(self.bytes))
    }
}

// The tests of all inputs.
impl Sources<'_> {
    pub fn any_bad(&self) -> bool
        ensures { result ≡ bad_in self.now }
    {
        self.inputs.used().iter().any(|input| self.is_bad(input))
    }

    pub fn any_without_text(&self) -> bool
        ensures { result ≡ any is_no_bit_vector (its_records self.now) }
    {
        let inputs = self.inputs.used();
        inputs
            .iter()
            .any(|input| input.description.encoding.has_no_text())
    }

    pub fn any_late(&self) -> bool
        requires { Stand self.now }
        ensures { result ≡ any starts_late (its_records self.now) }
    {
        self.inputs.used().iter().any(|input| self.is_late(input))
    }

    pub fn any_falling(&self) -> bool
        requires { Stand self.now }
        ensures { result ≡ any indices_fall (its_records self.now) }
    {
        self.inputs
            .used()
            .iter()
            .any(|input| self.is_falling(input))
    }

    pub fn any_marked_badly(&self) -> bool
        requires { Stand self.now }
        ensures { result ≡ any mark_is_bad (its_records self.now) }
    {
        self.inputs
            .used()
            .iter()
            .any(|input| self.is_marked_badly(input))
    }
}
