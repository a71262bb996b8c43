// Levels 0 and 1 as bits, a word of 64 bits at a time: 64 levels of Two, 32 of Four, 16 of Nine.
ghost use Rattle.std.specs.Prelude.{◌≡◌, ◌-◌, ◌*◌, ◌/◌, ◌%◌, ◌^◌, ◌≤◌, length, take};
ghost use Rattle.value.specs.Digits.{number, digits, Below};
ghost use Rattle.value.specs.Level.{bits_of, len_of};
ghost use Rattle.signal.specs.Decode.{codes_at};
ghost use Rattle.numbers.specs.Parts.{Few, bits_of_levels};

use layout::number::number_at;
use value::States;
use wavemem::short::squeeze;
use wavemem::word;

// So many bits 1.
#[tactic(auto, using(crate::proofs::Words::ones_are))]
pub fn ones(count: u32) -> u64
    requires { (1 ≤ count) × (count ≤ 64) }
    ensures { result ≡ 2 ^ count - 1 }
{
    0xffff_ffff_ffff_ffff >> (64 - count)
}

// Bits in the lowest of two each, pushed together.
fn squeeze_four(x: u64) -> u64
    requires { Below 2 (digits 4 32 x) }
    ensures { result ≡ number 2 (digits 4 32 x) }
{
    squeeze(
        x,
        &[
            (1, 0x3333_3333_3333_3333),
            (2, 0x0f0f_0f0f_0f0f_0f0f),
            (4, 0x00ff_00ff_00ff_00ff),
            (8, 0x0000_ffff_0000_ffff),
            (16, 0xffff_ffff),
        ],
    )
}

// Bits in the lowest of four each, pushed together.
fn squeeze_nine(x: u64) -> u64
    requires { Below 2 (digits 16 16 x) }
    ensures { result ≡ number 2 (digits 16 16 x) }
{
    squeeze(
        x,
        &[
            (3, 0x0303_0303_0303_0303),
            (6, 0x000f_000f_000f_000f),
            (12, 0x0000_00ff_0000_00ff),
            (24, 0xffff),
        ],
    )
}

// The levels of a word as bits.
#[tactic(auto, using(crate::proofs::Words::other_four, crate::proofs::Words::other_nine, crate::proofs::Words::bits_two, value::proofs::Lists::none_from), unfolding(crate::specs::Parts::bits_of_levels))]
fn bits_of_word(states: States, x: u64) -> Option<u64>
    ensures { result ≡ bits_of_levels (digits (2 ^ bits_of states) (64 / bits_of states) x) }
{
    match states {
        States::Two => Some(x),
        States::Four => {
            if x & 0xaaaa_aaaa_aaaa_aaaa != 0 {
                return None;
            }
            Some(squeeze_four(x))
        }
        States::Nine => {
            if x & 0xeeee_eeee_eeee_eeee != 0 {
                return None;
            }
            Some(squeeze_nine(x))
        }
    }
}

// The number of at most eight bytes; eight, and the two of eight wires of Four, are one load.
#[tactic(auto, using(value::proofs::Slices::part_all))]
fn number_of(bytes: &[u8]) -> u64
    requires { length bytes.now ≤ 8 }
    ensures { result ≡ number 256 bytes.now }
{
    match bytes.len() {
        8 => word(bytes),
        2 => number_at(bytes, 0, 2),
        size => number_at(bytes, 0, size),
    }
}

// The first levels, as many as one word holds at most. Bits above them are none of theirs.
#[tactic(auto, using(crate::proofs::Words::low_bits, crate::proofs::Words::first_some))]
fn first_word(states: States, count: u32, levels: &[u8]) -> u64
    requires { (1 ≤ count) × (count * bits_of states ≤ 64) × (len_of count states ≤ length levels.now) }
    ensures { result ≡ number 256 (take (len_of count states) levels.now) % 2 ^ (count * bits_of states) }
{
    let size = states.bytes_required(count);
    number_of(&levels[..size]) & ones(count * states.bits())
}

// Levels as bits: the first ones, and then a word at a time.
#[inline(never)]
fn bits_of(states: States, width: u32, levels: &[u8]) -> Option<u64>
    requires { Few width states levels.now }
    ensures { result ≡ bits_of_levels (codes_at width states levels.now) }
{
    let per_word = 64 / states.bits();
    let first = (width - 1) % per_word + 1;
    let k = states.bytes_required(first);
    let mut working = bits_of_word(states, first_word(states, first, levels))?;
    let (words, _) = levels[k..].as_chunks::<8>();
    for bytes in words {
        let more = bits_of_word(states, word(bytes))?;
        working = (working << per_word) | more;
    }
    Some(working)
}

// `bits_of`, in one step where one word holds the levels.
#[tactic(auto, using(crate::proofs::Words::one_word, crate::proofs::Words::low_bits, value::proofs::Levels::len_room, crate::proofs::Words::first_some))]
#[inline(always)]
pub fn bits_in(states: States, width: u32, levels: &[u8]) -> Option<u64>
    requires { Few width states levels.now }
    ensures { result ≡ bits_of_levels (codes_at width states levels.now) }
{
    if levels.len() <= 8 {
        return bits_of_word(states, number_of(levels) & ones(width * states.bits()));
    }
    bits_of(states, width, levels)
}
