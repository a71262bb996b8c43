// The inner functions that the benchmarks time from Rust, under plain numbers. Rust tests what each requires before it calls.
#![tactic(auto)]

ghost use Rattle.std.specs.Prelude.{◌≤◌, length};
ghost use Rattle.value.specs.Level.{set_at};
ghost use Rattle.wavemem.specs.Packed.{Packable};
ghost use Rattle.layout.specs.Expand.{Widenable};
ghost use Rattle.fst.specs.Record.{maximum};
ghost use Rattle.offset.specs.Search.{Reached};

use signal::decode::states_at;
use value::States;

// The mark of a string's least set, and 3 for a string with a foreign character.
#[unsafe(no_mangle)]
pub extern "C" fn bench_least(value: &[u8]) -> u32 {
    match States::from_ascii(value) {
        Some(states) => u32::from(states.mark()),
        None => 3,
    }
}

#[unsafe(no_mangle)]
pub extern "C" fn bench_pack(mark: u32, value: &[u8], out: &mut [u8]) -> usize
    requires { Packable (set_at mark) value.now (length out.old) 0 0 }
{
    wavemem::write_n_state_from_ascii(states_at(mark), value, out, 0, 0)
}

// 1 where the bytes are those that `bench_pack` would store, and else 0.
#[unsafe(no_mangle)]
pub extern "C" fn bench_equals(mark: u32, value: &[u8], bytes: &[u8]) -> u32
    requires { Packable (set_at mark) value.now (length bytes.now) 0 0 }
{
    u32::from(wavemem::equals_n_state_from_ascii(states_at(mark), value, bytes, 0, 0))
}

#[unsafe(no_mangle)]
pub extern "C" fn bench_expand(from: u32, to: u32, data: &mut [u8], entries: usize, bits: u32)
    requires { Widenable (set_at from) (set_at to) 0 entries bits (length «data».old) }
{
    layout::expand::expand_entries(states_at(from), states_at(to), data, 0, entries, bits)
}

// What a search finds: the fields of `offset::DataOffset` by numbers.
#[repr(C)]
#[derive(Clone, Copy)]
pub struct Place {
    pub start: usize,
    pub elements: u32,
    pub time_match: bool,
    pub has_next: bool,
    pub next_index: u32,
}

// Look up's search, without the scan for falling indices.
#[unsafe(no_mangle)]
pub extern "C" fn bench_search(indices: &[u32], needle: u32) -> Place
    requires reached { Reached needle indices.now }
    requires indices_len_bound { length indices.now ≤ maximum }
{
    let offset = offset::find_offset_from_time_table_idx(indices, needle);
    Place {
        start: offset.start,
        elements: offset.elements,
        time_match: offset.time_match,
        has_next: offset.next_index.is_some(),
        next_index: offset.next_index.unwrap_or(0),
    }
}

// 1 where an index falls, and else 0.
#[unsafe(no_mangle)]
pub extern "C" fn bench_falls(indices: &[u32]) -> u32 {
    u32::from(offset::falls(indices))
}
