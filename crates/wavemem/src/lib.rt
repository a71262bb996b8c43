// Levels packed into bytes, after wellen's src/wavemem.rs.
#![tactic(auto)]

ghost use Rattle.std.specs.Prelude.{◌≡◌, ◌+◌, ◌/◌, ◌^◌, ◌≤◌, length};
ghost use Rattle.value.specs.Digits.{number};
ghost use Rattle.value.specs.Slice.{part, overlay, same};
ghost use Rattle.value.specs.Level.{fold, fold_all, code_of, codes_of, bits_of, len_of};
ghost use Rattle.wavemem.specs.Packed.{packed_from, first_count, OneWord, OneByte, WholeBytes, Packable};

use crate::packs::{FourByWords, NineByBlocks, TwoByWords};
use crate::short::two_of_word;
use crate::table::Table;
use crate::turns::{equals_parts, equals_turns, write_parts, write_turns};
use value::States;

mod packs;
pub mod scan;
pub mod short;
mod table;
mod turns;

// The byte of so few characters that one byte holds them.
#[tactic(auto, using(crate::proofs::Packing::byte_small))]
fn byte_from_ascii(states: States, value: &[u8]) -> u8
    requires { OneByte states value.now }
    ensures { result ≡ number (2 ^ bits_of states) (codes_of (fold_all value.now)) }
{
    Table::new().number(states, value) as u8
}

// Eight bytes as one number, the first one highest.
#[tactic(auto, using(crate::proofs::Words::be_number))]
pub fn word(value: &[u8]) -> u64
    requires { length value.now ≡ 8 }
    ensures { result ≡ number 256 value.now }
{
    let Some(bytes) = value.as_array() else {
        unreachable!();
    };
    u64::from_be_bytes(*bytes)
}

// The number of at most 64 characters 0 and 1, by their lowest bits.
#[tactic(auto, unfolding(value::specs::Digits::number))]
fn few_bits(value: &[u8]) -> u64
    requires { OneWord States.Two value.now }
    ensures { result ≡ number 2 (codes_of (fold_all value.now)) }
{
    let mut working: u64 = 0;
    for c in value {
        let bit = u64::from(*c & 1);
        working = (working << 1) | bit;
    }
    working
}

// The number of a string of 0 and 1, eight at a time behind the first.
fn bits_from_ascii(value: &[u8]) -> u64
    requires { OneWord States.Two value.now }
    ensures { result ≡ number 2 (codes_of (fold_all value.now)) }
{
    let (front, words) = value.as_rchunks::<8>();
    let mut working = few_bits(front);
    for chars in words {
        working = (working << 8) | two_of_word(word(chars));
    }
    working
}

// The number of a string whose levels 64 bits hold. By the table for each set apart, so that each is compiled for its own number of bits.
pub fn number_from_ascii(states: States, value: &[u8]) -> u64
    requires { OneWord states value.now }
    ensures { result ≡ number (2 ^ bits_of states) (codes_of (fold_all value.now)) }
{
    match states {
        States::Two => bits_from_ascii(value),
        States::Four => Table::new().number(States::Four, value),
        States::Nine => Table::new().number(States::Nine, value),
    }
}

// Stores the levels of a string that fills whole bytes. Returns the place behind them.
fn write_whole(states: States, value: &[u8], out: &mut [u8], at: usize) -> usize
    requires { WholeBytes states value.now (length out.old) at }
    ensures value { result ≡ at + len_of (length value.now) states }
    ensures out_after { out.new ≡ overlay out.old at (packed_from states 0 value.now) }
{
    match states {
        States::Two => write_turns(&TwoByWords, value, out, at),
        States::Four => write_parts::<4, 8, 2, _, _>(&Table::new(), &FourByWords, value, out, at),
        States::Nine => write_parts::<2, 32, 16, _, _>(
            &Table::new(),
            &NineByBlocks,
            value,
            out,
            at,
        ),
    }
}

// Whether the bytes from a place on are those that `write_whole` would store there. A string of Nine is compared byte by byte: most strings
// differ early, where a whole block would have been packed for nothing.
fn equals_whole(states: States, value: &[u8], bytes: &[u8], at: usize) -> bool
    requires { WholeBytes states value.now (length bytes.now) at }
    ensures { result ≡ same (part at (len_of (length value.now) states) bytes.now) (packed_from states 0 value.now) }
{
    match states {
        States::Two => equals_turns(&TwoByWords, value, bytes, at),
        States::Four => equals_parts::<4, 8, 2, _, _>(
            &Table::new(),
            &FourByWords,
            value,
            bytes,
            at,
        ),
        States::Nine => equals_turns::<2, 1, _>(&Table::new(), value, bytes, at),
    }
}

// How many characters the first byte has.
fn first_count(states: States, width: usize) -> usize
    requires { width ≤ 4096 }
    ensures { result ≡ first_count states width }
{
    let len = states.bytes_required(width as u32);
    let per_byte = states.bits_in_a_byte();
    width + per_byte - len * per_byte
}

// Stores the levels of a string from a place on, with meta data in the top of the first byte. Returns the place behind them.
#[tactic(auto, using(crate::proofs::Packing::behind_size, crate::proofs::Packing::first_stored, crate::proofs::Packing::only_stored))]
pub fn write_n_state_from_ascii(
    states: States,
    value: &[u8],
    out: &mut [u8],
    at: usize,
    meta_data: u8,
) -> usize
    requires { Packable states value.now (length out.old) at meta_data }
    ensures value { result ≡ at + len_of (length value.now) states }
    ensures out_after { out.new ≡ overlay out.old at (packed_from states meta_data value.now) }
{
    let first = first_count(states, value.len());
    if first == states.bits_in_a_byte() {
        return write_whole(states, value, out, at);
    }
    out[at] = byte_from_ascii(states, &value[..first]) | meta_data;
    if first == value.len() {
        return at + 1;
    }
    write_whole(states, &value[first..], out, at + 1)
}

// Whether the bytes from a place on are those that `write_n_state_from_ascii` would store there.
#[tactic(auto, using(crate::proofs::Packing::first_differs, crate::proofs::Packing::behind_compared, crate::proofs::Packing::only_compared))]
pub fn equals_n_state_from_ascii(
    states: States,
    value: &[u8],
    bytes: &[u8],
    at: usize,
    meta_data: u8,
) -> bool
    requires { Packable states value.now (length bytes.now) at meta_data }
    ensures { result ≡ same (part at (len_of (length value.now) states) bytes.now) (packed_from states meta_data value.now) }
{
    let first = first_count(states, value.len());
    if first == states.bits_in_a_byte() {
        return equals_whole(states, value, bytes, at);
    }
    if bytes[at] != (byte_from_ascii(states, &value[..first]) | meta_data) {
        return false;
    }
    if first == value.len() {
        return true;
    }
    equals_whole(states, &value[first..], bytes, at + 1)
}
