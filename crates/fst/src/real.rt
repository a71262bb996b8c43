// Add a change, a real's: its 64 bits as 8 bytes, the lowest first.
ghost use Rattle.std.specs.Prelude.{◌≡◌, ℕ};
ghost use Rattle.fst.specs.Record.{lent, lent_in};
ghost use Rattle.fst.specs.Change.{real, add_change, left_by};
ghost use Rattle.fst.specs.Adding.{AdmitsReal};

use crate::change::Entry;
use crate::record::{Slices, SlicesMut, is_bad};
use crate::{Added, Description, Encoding, Refusal};
use entries::real::{repeats_real, write_real};

#[derive(Drop)]
struct Real(u64);

#[tactic(auto, using(crate::proofs::AddingPlain::real_length))]
impl Entry for Real {
    ghost use Rattle.std.specs.Prelude.{reverse};
    ghost use Rattle.value.specs.Digits.{digits};
    ghost use Rattle.value.specs.Slice.{part};
    ghost use Rattle.entries.specs.Repeatable.{repeats_plain};

    ghost stored = { λ r. reverse (digits 256 8 r.0) };

    ghost again = { λ r. repeats_plain (reverse (digits 256 8 r.0)) };

    fn len(&self) -> usize {
        8
    }

    fn repeats(&self, bytes: &[u8], byte_start: usize, count: u32) -> bool {
        repeats_real(self.0, bytes, byte_start, count)
    }

    fn write(&self, out: &mut [u8], at: usize) {
        write_real(self.0, out, at)
    }
}

impl Description {
    // Numbers 2, 3 and 6.
    #[tactic(auto, using(crate::proofs::Records::standing, crate::proofs::Adding::gives_2, crate::proofs::Adding::gives_6, crate::proofs::AddingPlain::real_suited))]
    fn admit_real(self, slices: Slices<'_>, index: u32) -> Result<(), Refusal>
        ensures { (bits : ℕ) → AdmitsReal self (lent_in slices.entry) index bits result }
    {
        if is_bad(self, slices) {
            return Err(Refusal::BadRecord);
        }
        let Encoding::Real = self.encoding else {
            return Err(Refusal::WrongKind);
        };
        if slices.is_below_last(index, self.count) {
            return Err(Refusal::IndexBelowLast);
        }
        Ok(())
    }

    pub fn add_real(
        mut self,
        bytes: &mut [u8],
        byte_start: usize,
        indices: &mut [u32],
        index_start: usize,
        index: u32,
        bits: u64,
    ) -> Added
        ensures { left_by result bytes.new indices.new ≡ add_change self (lent bytes.old byte_start indices.old index_start) index (real bits) }
    {
        let slices = SlicesMut {
            bytes,
            indices,
            byte_start,
            index_start,
        };
        let made = match self.admit_real(slices.shared(), index) {
            Ok(()) => self.append(slices, index, &Real(bits)),
            Err(refusal) => Err(refusal),
        };
        self.answer(made)
    }
}
