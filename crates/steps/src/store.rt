// The steps that are kept, stored.
ghost use Rattle.std.specs.Prelude.{◌≡◌, ◌+◌, ◌-◌, ◌*◌, ◌<◌, ◌≤◌, cond, ltb, length, set};
ghost use Rattle.steps.specs.Storing.{repeats_last, last_at, Appendable, Appended};

use layout::number::NewEntry;

// Whether an entry repeats the last of so many that stand a stride apart.
#[tactic(auto, using(crate::proofs::Appending::none_before, crate::proofs::Appending::one_before))]
fn repeats_last(count: u32, entry: &NewEntry, stride: usize, bytes: &[u8]) -> bool
    requires { 0 < count → (count - 1) * stride + length entry.now ≤ length bytes.now }
    ensures { result ≡ repeats_last count (last_at (length entry.now) stride count bytes.now) entry.now }
{
    if count == 0 {
        return false;
    }
    entry.is_at(bytes, (count as usize - 1) * stride)
}

// Stores an entry behind so many others, a stride apart, unless it repeats the last. Returns how many there are then.
#[tactic(auto, using(crate::proofs::Appending::append_none, crate::proofs::Appending::append_one))]
pub fn append_step(count: u32, entry: &NewEntry, stride: usize, out_bytes: &mut [u8]) -> u32
    requires { Appendable entry.now stride count out_bytes.old }
    ensures { Appended entry.now stride count out_bytes.old result out_bytes.new }
{
    if repeats_last(count, entry, stride, out_bytes) {
        return count;
    }
    entry.write(out_bytes, count as usize * stride);
    count + 1
}

// Stores the index of the last of `kept` entries, where there were `count` before it and there is a place.
pub fn put_index(count: u32, kept: u32, index: u32, indices: &mut [u32])
    ensures { indices.new ≡ cond (ltb count kept) (set indices.old count index) indices.old }
{
    if count < kept && (count as usize) < indices.len() {
        indices[count as usize] = index;
    }
}
