// Fresh records, and what a description asks of the slices that it is lent with.
ghost use Rattle.std.specs.Prelude.{◌≡◌, ◌&&◌, not, true, false, ◌+◌, ◌*◌, ◌≤◌, leb, length};
ghost use Rattle.fst.specs.Refusal.{told};
ghost use Rattle.fst.specs.Record.{maximum, max_width, size_of, width_stands, fits, is_bad_bytes, is_bad, lent_in, lent_mut, fresh, fresh_real};
ghost use Rattle.fst.specs.Adding.{SizedVector};

use crate::{Description, Encoding, Refusal};
use layout::entry::entry_size;
use value::States;

pub const MAXIMUM: u32 = 1048576;

pub const MAX_WIDTH: u32 = 4096;

// Two lent slices, and where a record starts in each.
#[derive(Clone, Copy)]
pub struct Slices<'a> {
    pub bytes: &'a [u8],
    pub byte_start: usize,
    pub indices: &'a [u32],
    pub index_start: usize,
}

// Such slices, to be written. What a call leaves in them is `.exit.0.now` and `.exit.1.0.now` in its contract.
#[derive(Drop)]
pub struct SlicesMut<'a> {
    pub bytes: &'a mut [u8],
    pub indices: &'a mut [u32],
    pub byte_start: usize,
    pub index_start: usize,
}

impl SlicesMut<'_> {
    #[inline(always)]
    pub fn shared(&self) -> Slices<'_>
        ensures { lent_in result ≡ lent_mut self.now }
    {
        Slices {
            bytes: self.bytes,
            byte_start: self.byte_start,
            indices: self.indices,
            index_start: self.index_start,
        }
    }
}

#[tactic(auto, unfolding(crate::specs::Record::fresh, crate::specs::Refusal::tried))]
pub fn fresh(width: u32) -> Result<Description, Refusal>
    ensures { told result ≡ fresh width }
{
    let encoding = match width {
        0 => Encoding::Event,
        ..=MAX_WIDTH => Encoding::BitVector {
            width,
            max_states: States::Two,
        },
        _ => return Err(Refusal::WidthTooLarge),
    };
    Ok(Description::new(encoding, 0))
}

pub fn fresh_real() -> Description
    ensures { result ≡ fresh_real }
{
    Description::new(Encoding::Real, 0)
}

// Whether n elements from a start on stand within so many.
fn has_room(len: usize, start: usize, n: usize) -> bool
    ensures { result ≡ leb (start + n) len }
{
    start <= len && n <= len - start
}

// Whether `count` entries of `size` bytes stand within the maximum and, from a start, within so many bytes.
fn fits_bytes(count: u32, size: usize, bytes: usize, byte_start: usize) -> bool
    requires { size ≤ 4096 }
    ensures { result ≡ leb count maximum && leb (byte_start + count * size) bytes }
{
    count <= MAXIMUM && has_room(bytes, byte_start, count as usize * size)
}

// Whether so many bytes from a start are a bit vector's of a width, whose entries have a size.
fn fits_levels(width: u32, size: usize, count: u32, bytes: usize, byte_start: usize) -> bool
    requires { width ≤ max_width → size ≤ 4096 }
    ensures { result ≡ (leb 1 width && leb width max_width) && (leb count maximum && leb (byte_start + count * size) bytes) }
{
    1 <= width && width <= MAX_WIDTH && fits_bytes(count, size, bytes, byte_start)
}

// Number 2 of the calls that are lent no indices: whether a description asks for more bytes than it is lent, or for what no record has.
#[tactic(auto, using(crate::proofs::Rooms::bad_room, crate::proofs::Rooms::bad_vector, layout::proofs::Sizes::size_small), unfolding(crate::specs::Record::width_stands))]
pub fn is_bad_bytes(description: Description, bytes: &[u8], byte_start: usize) -> bool
    ensures { result ≡ is_bad_bytes description byte_start bytes.now }
{
    let count = description.count;
    let fits = match description.encoding {
        Encoding::Event => fits_bytes(count, 0, bytes.len(), byte_start),
        Encoding::Real => fits_bytes(count, 8, bytes.len(), byte_start),
        Encoding::BitVector { width, max_states } => {
            let size = entry_size(max_states, width);
            fits_levels(width, size, count, bytes.len(), byte_start)
        }
    };
    !fits
}

// Number 2: the same, or more indices than are lent.
#[tactic(auto, using(crate::proofs::Rooms::bad_bytes, crate::proofs::Rooms::by_indices))]
pub fn is_bad(description: Description, slices: Slices<'_>) -> bool
    ensures { result ≡ is_bad description (lent_in slices.entry) }
{
    let count = description.count as usize;
    is_bad_bytes(description, slices.bytes, slices.byte_start)
        || !has_room(slices.indices.len(), slices.index_start, count)
}

// Number 2 of a bit vector, whose size is worked out once for all that follows.
#[tactic(auto, using(crate::proofs::Rooms::bad_bytes, crate::proofs::Rooms::by_indices, crate::proofs::Rooms::bad_vector, layout::proofs::Sizes::size_small))]
pub fn is_bad_vector(description: Description, width: u32, size: usize, slices: Slices<'_>) -> bool
    requires { SizedVector description width size }
    ensures { result ≡ is_bad description (lent_in slices.entry) }
{
    let count = description.count;
    !fits_levels(width, size, count, slices.bytes.len(), slices.byte_start)
        || !has_room(slices.indices.len(), slices.index_start, count as usize)
}

// Whether one entry more has no room, where the record is not bad and its entries have a size.
#[tactic(auto, using(crate::proofs::Records::standing))]
pub fn lacks_room(description: Description, size: usize, slices: Slices<'_>) -> bool
    requires { (is_bad description (lent_in slices) ≡ false) × (size ≡ size_of description.encoding) }
    ensures { result ≡ not (fits description.encoding (description.count + 1) (lent_in slices.entry)) }
{
    let entries = description.count as usize;
    description.count == MAXIMUM
        || slices.bytes.len() - (slices.byte_start + entries * size) < size
        || slices.indices.len() - slices.index_start == entries
}
