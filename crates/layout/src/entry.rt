// One entry: its size, its bytes stored, its bytes compared. After wellen's src/fst.rs.
ghost use Rattle.std.specs.Prelude.{◌≡◌, cond, ◌+◌, ◌≤◌, eqb, length, replicate};
ghost use Rattle.value.specs.Slice.{part, overlay, same};
ghost use Rattle.value.specs.Level.{mark_of, len_of};
ghost use Rattle.layout.specs.Entry.{has_meta, entry_size};
ghost use Rattle.layout.specs.Writable.{Writable, LaidOut, mark_in_front, entry_from};

use value::States;

// The bytes that levels take under a set, and whether a byte of its own holds the mark.
#[derive(Clone, Copy)]
pub struct LenAndMeta {
    pub len: usize,
    pub has_meta: bool,
}

pub fn get_len_and_meta(states: States, bits: u32) -> LenAndMeta
    ensures { (result.len ≡ len_of bits states) × (result.has_meta ≡ has_meta bits states) }
{
    LenAndMeta {
        len: states.bytes_required(bits),
        has_meta: match states {
            States::Two => false,
            States::Four => bits % 4 == 0,
            States::Nine => bits % 2 == 0,
        },
    }
}

// wellen's get_bytes_per_entry, of a set and a width: the levels' bytes, and one more where no first byte has room for the mark.
#[tactic(auto, using(crate::proofs::Sizes::size_plain_lem))]
pub fn entry_size(states: States, bits: u32) -> usize
    ensures { result ≡ entry_size bits states }
{
    match states {
        States::Two => (bits as usize + 7) >> 3,
        States::Four => (bits as usize + 4) >> 2,
        States::Nine => (bits as usize + 2) >> 1,
    }
}

// Stores zeros from a place on. Returns the place behind them.
pub fn push_zeros(out: &mut [u8], from: usize, count: usize) -> usize
    requires { from + count ≤ length out.old }
    ensures { (result ≡ from + count) × (out.new ≡ overlay out.old from (replicate count 0)) }
{
    let to = from + count;
    out[from..to].fill(0);
    to
}

// Whether the bytes from a place on are zeros.
fn are_zeros(bytes: &[u8], from: usize, count: usize) -> bool
    requires { from + count ≤ length bytes.now }
    ensures { result ≡ same (part from count bytes.now) (replicate count 0) }
{
    bytes[from..from + count].iter().all(|byte| *byte == 0)
}

// What an entry has beside its level bytes: so many bytes in front of them, of which the first has the mark, or the mark in the top two bits of
// the first of them.
#[derive(Clone, Copy)]
struct EntryLayout {
    front: usize,
    mark: u8,
}

impl EntryLayout {
    #[tactic(auto, using(crate::proofs::EntryParts::len_fits, value::proofs::Levels::mark_small))]
    fn new(max_states: States, states: States, bits: u32) -> EntryLayout
        requires { mark_of states ≤ mark_of max_states }
        ensures { LaidOut max_states states bits result.front result.mark }
    {
        EntryLayout {
            front: entry_size(max_states, bits) - states.bytes_required(bits),
            mark: states.mark() << 6,
        }
    }

    // Stores what is in front of the level bytes. Returns their place.
    #[tactic(auto, using(value::proofs::Slices::overlay_nil, value::proofs::Slices::overlay_one, value::proofs::Slices::overlay_overlay), unfolding(crate::specs::Writable::mark_in_front))]
    fn write_front(&self, out: &mut [u8], at: usize) -> usize
        requires { at + self.now.front ≤ length out.old }
        ensures { (result ≡ at + self.now.front) × (out.new ≡ overlay out.old at (mark_in_front self.now.front self.now.mark)) }
    {
        if self.front == 0 {
            return at;
        }
        out[at] = self.mark;
        push_zeros(out, at + 1, self.front - 1)
    }

    // Whether it stands in front of the level bytes.
    #[tactic(auto, using(crate::proofs::EntryWriting::front_same, value::proofs::Slices::part_nil), unfolding(crate::specs::Writable::mark_in_front, value::specs::Slice::same))]
    fn front_is_at(&self, bytes: &[u8], at: usize) -> bool
        requires { at + self.now.front ≤ length bytes.now }
        ensures { result ≡ same (part at self.now.front bytes.now) (mark_in_front self.now.front self.now.mark) }
    {
        self.front == 0 || bytes[at] == self.mark && are_zeros(bytes, at + 1, self.front - 1)
    }

    // The mark's byte for the first level byte, where no byte is in front of it.
    fn mark_within(&self) -> u8
        ensures { result ≡ cond (eqb self.now.front 0) self.now.mark 0 }
    {
        if self.front == 0 { self.mark } else { 0 }
    }
}

// Stores the entry of a string from a place on. Returns the place behind it. It and the comparison stand apart, so that what their callers do for
// entries of at most eight bytes has no frame for them.
#[tactic(auto, using(crate::proofs::EntryWriting::entry_stored))]
#[inline(never)]
pub fn write_entry(
    max_states: States,
    states: States,
    value: &[u8],
    out: &mut [u8],
    at: usize,
) -> usize
    requires { Writable max_states states value.now (length out.old) at }
    ensures value { result ≡ at + entry_size (length value.now) max_states }
    ensures out_after { out.new ≡ overlay out.old at (entry_from max_states states value.now) }
{
    let layout = EntryLayout::new(max_states, states, value.len() as u32);
    let from = layout.write_front(out, at);
    wavemem::write_n_state_from_ascii(states, value, out, from, layout.mark_within())
}

// Whether the bytes from a place on are the entry of a string.
#[inline(never)]
pub fn entry_equals(
    max_states: States,
    states: States,
    value: &[u8],
    bytes: &[u8],
    at: usize,
) -> bool
    requires { Writable max_states states value.now (length bytes.now) at }
    ensures { result ≡ same (part at (entry_size (length value.now) max_states) bytes.now) (entry_from max_states states value.now) }
{
    let layout = EntryLayout::new(max_states, states, value.len() as u32);
    let from = at + layout.front;
    layout.front_is_at(bytes, at)
        && wavemem::equals_n_state_from_ascii(states, value, bytes, from, layout.mark_within())
}
