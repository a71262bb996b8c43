// Entries of at most eight bytes, each as one number.
ghost use Rattle.std.specs.Prelude.{◌≡◌, ◌+◌, ◌-◌, ◌*◌, ◌^◌, ◌≤◌, IfSome, length};
ghost use Rattle.value.specs.Digits.{number, digits};
ghost use Rattle.value.specs.Slice.{part, overlay, same};
ghost use Rattle.value.specs.Level.{fold_all, codes_of, bits_of, mark_of};
ghost use Rattle.layout.specs.Entry.{entry_size};
ghost use Rattle.layout.specs.Writable.{Writable, entry_from};

use crate::entry::{entry_equals, write_entry};
use std::marker::Model;
use value::States;

// A set's mark in the top two bits of so many bytes.
fn mark_in(states: States, size: usize) -> u64
    requires { (1 ≤ size) × (size ≤ 8) }
    ensures { result ≡ mark_of states * 2 ^ (8 * size - 2) }
{
    u64::from(states.mark()) << (8 * size - 2)
}

// A string's entry under a largest set, to be stored or compared: as one number where it has at most eight bytes. In a contract it is its bytes.
#[derive(Drop)]
pub struct NewEntry<'a> {
    max_states: States,
    states: States,
    value: &'a [u8],
    size: usize,
    number: Option<u64>,
}

impl<'a> Model for NewEntry<'a> {
    ghost use Rattle.std.specs.Prelude.{List, ℕ};
    ghost use Rattle.layout.specs.Writable.{entry_from, Numbered};

    ghost Value = { List ℕ };

    ghost view = { λ e. entry_from e.max_states e.states e.value.now };

    ghost invariant = { λ e. Numbered e.max_states e.states e.value.now e.size e.number };
}

impl<'a> NewEntry<'a> {
    // By the number of the string's levels, where it is known.
    #[inline(always)]
    pub fn with_levels(
        max_states: States,
        states: States,
        value: &'a [u8],
        size: usize,
        levels: Option<u64>,
    ) -> NewEntry<'a>
        requires { Writable max_states states value.now size 0 × (size ≡ entry_size (length value.now) max_states) × IfSome levels (λ l. size ≤ 8 → l ≡ number (2 ^ bits_of states) (codes_of (fold_all value.now))) }
        ensures { result ≡ entry_from max_states states value.now }
    {
        let number = match levels {
            Some(levels) if size <= 8 => Some(levels | mark_in(states, size)),
            _ => None,
        };
        NewEntry {
            max_states,
            states,
            value,
            size,
            number,
        }
    }

    #[inline(always)]
    pub fn new(max_states: States, states: States, value: &'a [u8], size: usize) -> NewEntry<'a>
        requires { Writable max_states states value.now size 0 × (size ≡ entry_size (length value.now) max_states) }
        ensures { result ≡ entry_from max_states states value.now }
    {
        let levels = if size <= 8 {
            Some(wavemem::number_from_ascii(states, value))
        } else {
            None
        };
        NewEntry::with_levels(max_states, states, value, size, levels)
    }

    #[tactic(auto, using(crate::proofs::Numbers::entry_length))]
    pub fn len(&self) -> usize
        ensures { result ≡ length self.now }
    {
        self.size
    }

    // Whether the bytes from a place on are this entry.
    #[tactic(auto, using(crate::proofs::Numbers::few, crate::proofs::Numbers::entry_length, crate::proofs::Numbers::entry_writable))]
    #[inline(always)]
    pub fn is_at(&self, bytes: &[u8], at: usize) -> bool
        requires { at + length self.now ≤ length bytes.now }
        ensures { result ≡ same (part at (length self.now) bytes.now) self.now }
    {
        match self.number {
            Some(number) => number_at(bytes, at, self.size) == number,
            None => entry_equals(self.max_states, self.states, self.value, bytes, at),
        }
    }

    // Stores it from a place on.
    #[tactic(auto, using(crate::proofs::Numbers::entry_length, crate::proofs::Numbers::entry_writable))]
    #[inline(always)]
    pub fn write(&self, out: &mut [u8], at: usize)
        requires { at + length self.now ≤ length out.old }
        ensures { out.new ≡ overlay out.old at self.now }
    {
        match self.number {
            Some(number) => write_number(number, self.size, out, at),
            None => {
                write_entry(self.max_states, self.states, self.value, out, at);
            }
        }
    }
}

// The number of the bytes from a place on. One byte, an entry of a wire, is read without a loop.
#[tactic(auto, using(crate::proofs::Numbers::number_of_one))]
pub fn number_at(bytes: &[u8], at: usize, size: usize) -> u64
    requires { (size ≤ 8) × (at + size ≤ length bytes.now) }
    ensures { result ≡ number 256 (part at size bytes.now) }
{
    if size == 1 {
        return u64::from(bytes[at]);
    }
    let part = &bytes[at..at + size];
    part.iter()
        .fold(0, |number, byte| (number << 8) | u64::from(*byte))
}

// Stores the bytes of a number from a place on. One byte is stored without a loop too.
#[tactic(auto, using(crate::proofs::Numbers::one_stored))]
pub fn write_number(number: u64, size: usize, out: &mut [u8], at: usize)
    requires { at + size ≤ length out.old }
    ensures { out.new ≡ overlay out.old at (digits 256 size number) }
{
    if size == 1 {
        out[at] = (number & 255) as u8;
        return;
    }
    let mut rest = number;
    for k in (0..size).rev() {
        out[at + k] = (rest & 255) as u8;
        rest >>= 8;
    }
}
