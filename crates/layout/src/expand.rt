// Earlier entries laid out anew when the largest set rises: `expand_entries` of wellen's src/fst.rs, in place.
ghost use Rattle.std.specs.Prelude.{◌≡◌, ◌≢◌, ◌+◌, ◌*◌, ◌≤◌, length};
ghost use Rattle.value.specs.Level.{mark_of};
ghost use Rattle.value.specs.Slice.{part, overlay};
ghost use Rattle.layout.specs.Entry.{entry_size, widen_all};
ghost use Rattle.layout.specs.Expand.{mark_bits, level_bits, to_size, widening_of, moved_entry, all_moved, Widenable};

use crate::bytes::{move_up, zero};
use crate::entry::{entry_size, get_len_and_meta};
use std::marker::Model;
use value::States;

// Under Two no mark is stored.
fn mark_bits(states: States) -> u8
    ensures { result ≡ mark_bits states }
{
    match states {
        States::Two => 0,
        States::Four | States::Nine => 0xc0,
    }
}

// A mark shares the first level byte where there is no meta byte.
fn level_bits(states: States, has_meta: bool) -> u8
    ensures { result ≡ level_bits has_meta states }
{
    if has_meta {
        255
    } else {
        255 - mark_bits(states)
    }
}

// What the sets and the width say of each entry's move where its size grows: its size, its level bytes, the zeros between the mark and them,
// and the bits of a mark in its first byte and of levels in its first level byte.
#[derive(Clone, Copy)]
pub struct Widening {
    pub from_size: usize,
    pub len: usize,
    pub zeros: usize,
    pub mark_bits: u8,
    pub level_bits: u8,
}

impl Model for Widening {
    ghost use Rattle.layout.specs.Expand.{Move, Grows};

    ghost Value = { Move };

    ghost view = { λ w. record { from_size = w.from_size; len = w.len; zeros = w.zeros; mark_bits = w.mark_bits; level_bits = w.level_bits } };

    ghost invariant = { λ w. Grows w.from_size w.len w.zeros };

    ghost inverse = { λ v. record { from_size = v.from_size; len = v.len; zeros = v.zeros; mark_bits = v.mark_bits; level_bits = v.level_bits } };
}

impl Widening {
    #[tactic(auto, using(crate::proofs::Sizes::mark_room, crate::proofs::Expanding::widening_grows), unfolding(crate::specs::Expand::widening_of))]
    fn new(from: States, to: States, bits: u32) -> Widening
        requires { (1 ≤ bits) × (mark_of from ≤ mark_of to) × (entry_size bits from ≢ entry_size bits to) }
        ensures { result ≡ widening_of bits from to }
    {
        let old = get_len_and_meta(from, bits);
        Widening {
            from_size: entry_size(from, bits),
            len: old.len,
            zeros: entry_size(to, bits) - 1 - old.len,
            mark_bits: mark_bits(from),
            level_bits: level_bits(from, old.has_meta),
        }
    }

    // Lays the entry at p out at q: where they overlap, what is written has been read.
    #[inline(always)]
    fn expand_entry(&self, data: &mut [u8], p: usize, q: usize)
        requires { (p ≤ q) × (q + to_size self.now ≤ length «data».old) }
        ensures { «data».new ≡ overlay «data».old q (moved_entry self.now (part p self.now.from_size «data».old)) }
    {
        let first = p + (self.from_size - self.len);
        let at = q + (self.zeros + 1);
        let mark = data[p] & self.mark_bits;
        let level = data[first] & self.level_bits;
        move_up(data, first, at, self.len);
        data[at] = level;
        zero(data, q + 1, self.zeros);
        data[q] = mark;
    }

    // From the last entry to the first: no entry is written over before it is moved.
    #[inline(always)]
    fn expand_each(self, data: &mut [u8], start: usize, entries: usize)
        requires { start + entries * to_size self ≤ length «data».old }
        ensures { «data».new ≡ all_moved self start entries «data».old }
    {
        for k in (0..entries).rev() {
            let p = start + k * self.from_size;
            let q = start + k * (self.len + self.zeros + 1);
            self.expand_entry(data, p, q);
        }
    }

    // With the lengths as literals, for which the loop is compiled apart.
    #[inline(always)]
    fn expand_literal<const LEN: usize, const ZEROS: usize>(
        self,
        data: &mut [u8],
        start: usize,
        entries: usize,
    )
        requires { (start + entries * to_size self ≤ length «data».old) × (self.len ≡ LEN) × (self.zeros ≡ ZEROS) }
        ensures { «data».new ≡ all_moved self start entries «data».old }
    {
        let literal = Widening {
            len: LEN,
            zeros: ZEROS,
            ..self
        };
        literal.expand_each(data, start, entries);
    }

    // Apart from the literal ones: with the loops of all in one function this one takes a tenth to a half longer.
    #[inline(never)]
    fn expand_given(self, data: &mut [u8], start: usize, entries: usize)
        requires { start + entries * to_size self ≤ length «data».old }
        ensures { «data».new ≡ all_moved self start entries «data».old }
    {
        self.expand_each(data, start, entries);
    }

    // The lengths of Two to Four and Four to Nine at widths that fill bytes, and of Two to Nine at widths of 64, 128 and 256.
    fn expand_all(self, data: &mut [u8], start: usize, entries: usize)
        requires { start + entries * to_size self ≤ length «data».old }
        ensures { «data».new ≡ all_moved self start entries «data».old }
    {
        match (self.len, self.zeros) {
            (8, 8) => self.expand_literal::<8, 8>(data, start, entries),
            (16, 16) => self.expand_literal::<16, 16>(data, start, entries),
            (32, 32) => self.expand_literal::<32, 32>(data, start, entries),
            (64, 64) => self.expand_literal::<64, 64>(data, start, entries),
            (8, 24) => self.expand_literal::<8, 24>(data, start, entries),
            (16, 48) => self.expand_literal::<16, 48>(data, start, entries),
            (32, 96) => self.expand_literal::<32, 96>(data, start, entries),
            _ => self.expand_given(data, start, entries),
        }
    }
}

// Where the size stays nothing moves.
#[tactic(auto, using(crate::proofs::Sizes::size_up, crate::proofs::Expanding::widening_size))]
pub fn expand_entries(
    from: States,
    to: States,
    data: &mut [u8],
    start: usize,
    entries: usize,
    bits: u32,
)
    requires { Widenable from to start entries bits (length «data».old) }
    ensures { «data».new ≡ overlay «data».old start (widen_all bits from to entries (part start (entries * entry_size bits from) «data».old)) }
{
    if entry_size(from, bits) == entry_size(to, bits) {
        return;
    }
    Widening::new(from, to, bits).expand_all(data, start, entries);
}
