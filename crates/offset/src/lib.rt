// The entries that hold at a time index, after wellen's src/signal/mod.rs.
#![tactic(auto)]

ghost use Rattle.std.specs.Prelude.{◌≡◌, false, cond, ◌≤◌, ◌<◌, leb, length, get_or, drop};
ghost use Rattle.value.specs.Level.{place_in};
ghost use Rattle.fst.specs.Refusal.{told};
ghost use Rattle.fst.specs.Record.{maximum};
ghost use Rattle.offset.specs.Offset.{falls, run_of, head_of, place_of, look_up};
ghost use Rattle.offset.specs.Search.{Reached, Last};

use fst::Refusal;
use fst::record::MAXIMUM;

// The entries that carry the greatest time index not above the sought one.
#[derive(Clone, Copy, PartialEq, Eq)]
pub struct DataOffset {
    pub start: usize,
    pub elements: u32,
    pub time_match: bool,
    pub next_index: Option<u32>,
}

// Whether an index is below the one before it. Every pair is compared, since a scan that can end early is not vectorised; by its places, since a
// walk over the list beside its tail, or over its windows, keeps one index from pair to pair and takes an eighth longer.
#[tactic(auto, using(crate::proofs::Search::falls_more, crate::proofs::Search::falls_all))]
pub fn falls(indices: &[u32]) -> bool
    ensures { result ≡ falls indices.now }
{
    let mut fell = false;
    for i in 1..indices.len() {
        fell |= indices[i] < indices[i - 1];
    }
    fell
}

// The index at a place, absent from the list's end on.
pub fn get(indices: &[u32], place: usize) -> Option<u32>
    ensures { result ≡ head_of (drop place indices.now) }
{
    indices.get(place).copied()
}

// 1 where an index is not above the needle, and else 0. By arithmetic, since a comparison is compiled to a jump, and a search's jumps go either
// way as often.
pub fn not_above(index: u32, needle: u32) -> usize
    ensures { result ≡ cond (leb index needle) 1 0 }
{
    ((u64::from(needle) + 0x1_0000_0000 - u64::from(index)) >> 32) as usize
}

// The last place whose index is not above the needle.
fn binary_search(indices: &[u32], needle: u32) -> usize
    requires { Reached needle indices.now }
    ensures { Last needle indices.now result }
{
    let mut place = 0;
    let mut size = indices.len();
    while 1 < size {
        let half = size / 2;
        place += half * not_above(indices[place + half], needle);
        size -= half;
    }
    place
}

// The first place of the index at a place. Most runs are short; a long one is searched, since a walk back takes as long as the run.
#[tactic(auto, using(crate::proofs::Search::rising, crate::proofs::Search::start_is, crate::proofs::Search::start_first, crate::proofs::Search::start_behind))]
fn find_start(indices: &[u32], place: usize) -> usize
    requires rises { falls indices.now ≡ false }
    requires place_in_bounds { place < length indices.now }
    ensures { result ≡ place_in indices.now (get_or indices.now place 0) }
{
    let index = indices[place];
    if place == 0 || indices[place - 1] != index {
        return place;
    }
    if indices[0] == index {
        return 0;
    }
    binary_search(indices, index - 1) + 1
}

// The number of entries from `start` on that carry the index.
#[tactic(auto, using(crate::proofs::Search::head_is, crate::proofs::Search::run_more, crate::proofs::Search::run_none))]
fn run_length(indices: &[u32], start: usize, index: u32) -> usize
    requires { start ≤ length indices.now }
    ensures { result ≡ run_of index (drop start indices.now) }
{
    let mut elements = 0;
    loop {
        if get(indices, start + elements) != Some(index) {
            break elements;
        }
        elements += 1;
    }
}

// The entries that carry the greatest index not above the needle, of which there is one.
#[tactic(auto, using(crate::proofs::Search::place_first, crate::proofs::Search::run_within, crate::proofs::Search::last_greatest, std::proofs::lemmas::Grind::common_steps), unfolding(crate::specs::Offset::place_of))]
pub fn find_offset_from_time_table_idx(indices: &[u32], needle: u32) -> DataOffset
    requires reached { Reached needle indices.now }
    requires indices_len_bound { length indices.now ≤ maximum }
    ensures { result ≡ place_of needle indices.now }
{
    let place = binary_search(indices, needle);
    let index = indices[place];
    let start = find_start(indices, place);
    let elements = run_length(indices, start, index);
    DataOffset {
        start,
        elements: elements as u32,
        time_match: index == needle,
        next_index: get(indices, start + elements),
    }
}

// Look up: `None` for an empty list and for one whose first index is above the sought one.
#[tactic(auto, using(crate::proofs::Search::head_is, crate::proofs::Search::head_none), unfolding(crate::specs::Offset::look_up, crate::specs::Offset::place, fst::specs::Refusal::tried))]
pub fn get_offset(indices: &[u32], time_table_idx: u32) -> Result<Option<DataOffset>, Refusal>
    ensures { told result ≡ look_up indices.now time_table_idx }
{
    if indices.len() > MAXIMUM as usize {
        return Err(Refusal::BadRecord);
    }
    if falls(indices) {
        return Err(Refusal::IndexFalls);
    }
    let Some(first) = get(indices, 0) else {
        return Ok(None);
    };
    if first > time_table_idx {
        return Ok(None);
    }
    Ok(Some(find_offset_from_time_table_idx(indices, time_table_idx)))
}
