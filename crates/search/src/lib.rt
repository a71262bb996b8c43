// The entries that hold at a time index, in a list that is known not to fall: Look up without its scan.
#![tactic(auto)]

ghost use Rattle.std.specs.Prelude.{◌≡◌, ◌≤◌, ◌<◌, ◌-◌, leb, length, get_or, count_by};
ghost use Rattle.fst.specs.Refusal.{told};
ghost use Rattle.fst.specs.Record.{maximum};
ghost use Rattle.search.specs.Quartering.{not_above, ends, rank, reach_of, start_of, search};

use fst::Refusal;
use fst::record::MAXIMUM;
use offset::{DataOffset, get, not_above};

// The number of up to 16 indices that are not above the needle. All are compared, since a count that can end early is not vectorised.
fn count(indices: &[u32], needle: u32) -> u32
    requires { length indices.now ≤ 16 }
    ensures { result ≡ count_by (λ index. leb index needle) indices.now }
{
    indices
        .iter()
        .map(|index| u32::from(*index <= needle))
        .sum()
}

// How many of the first three quarters end in an index that is not above the needle.
#[tactic(auto, using(crate::proofs::Quartering::passed_by, crate::proofs::Quartering::not_above_within))]
fn passed(indices: &[u32], needle: u32) -> usize
    requires { 16 < length indices.now }
    ensures { result ≡ not_above needle (ends indices.now) }
{
    let quarter = indices.len() / 4;
    let first = not_above(indices[quarter - 1], needle);
    let second = not_above(indices[2 * quarter - 1], needle);
    let third = not_above(indices[3 * quarter - 1], needle);
    first + second + third
}

// The number of indices that are not above the needle, by quartering: of two halvings the second would wait for the first.
#[tactic(auto, using(crate::proofs::Quartering::rank_turn, crate::proofs::Quartering::rank_within, crate::proofs::Quartering::rank_short, crate::proofs::Quartering::not_above_count), unfolding(value::specs::Slice::part))]
fn rank(indices: &[u32], needle: u32) -> usize
    ensures { result ≡ rank needle indices.now }
{
    let mut rank = 0;
    let mut rest = indices;
    while 16 < rest.len() {
        let quarter = rest.len() / 4;
        let size = rest.len() - 3 * quarter;
        let start = passed(rest, needle) * quarter;
        rank += start;
        rest = &rest[start..start + size];
    }
    rank + count(rest, needle) as usize
}

// In how many indices the run is looked for that ends at a place. Most runs are short, and found near.
#[tactic(auto, using(crate::proofs::Quartering::sought_first, crate::proofs::Quartering::sought_all, crate::proofs::Quartering::sought_more, crate::proofs::Quartering::sought_here))]
fn find_reach(indices: &[u32], end: usize, index: u32) -> usize
    requires end_in_bounds { end ≤ length indices.now }
    requires indices_len_bound { length indices.now ≤ maximum }
    ensures { result ≡ reach_of end 1 index indices.now end }
{
    let mut reach = 1;
    while reach < end && indices[end - reach - 1] == index {
        reach *= 8;
    }
    reach
}

// Where the run of the index in front of an end begins.
#[tactic(auto, using(crate::proofs::Quartering::start_zero, crate::proofs::Quartering::start_some, crate::proofs::Quartering::start_alone, crate::proofs::Quartering::rank_within, crate::proofs::Quartering::window))]
fn find_start(indices: &[u32], end: usize, index: u32) -> usize
    requires le_end { 1 ≤ end }
    requires end_in_bounds { end ≤ length indices.now }
    requires indices_len_bound { length indices.now ≤ maximum }
    requires last_index { get_or indices.now (end - 1) 0 ≡ index }
    ensures { result ≡ start_of index indices.now end }
{
    if index == 0 {
        return 0;
    }
    let reach = find_reach(indices, end, index);
    if reach == 1 {
        return end - 1;
    }
    let front = end.saturating_sub(reach);
    let behind = indices.len().min(front + reach);
    front + rank(&indices[front..behind], index - 1)
}

// Search: Look up's answer if no index falls, and some answer if one does.
#[tactic(auto, using(crate::proofs::Quartering::rank_within, crate::proofs::Quartering::run_none, crate::proofs::Quartering::run_at), unfolding(crate::specs::Quartering::search, fst::specs::Refusal::tried))]
pub fn search(indices: &[u32], time_table_idx: u32) -> Result<Option<DataOffset>, Refusal>
    ensures { told result ≡ search indices.now time_table_idx }
{
    if indices.len() > MAXIMUM as usize {
        return Err(Refusal::BadRecord);
    }
    let end = rank(indices, time_table_idx);
    if end == 0 {
        return Ok(None);
    }
    let index = indices[end - 1];
    let start = find_start(indices, end, index);
    Ok(Some(DataOffset {
        start,
        elements: end.saturating_sub(start) as u32,
        time_match: index == time_table_idx,
        next_index: get(indices, end),
    }))
}
