// Stepping over inputs, apart from what a step yields.
ghost use Rattle.std.specs.Prelude.{◌≡◌, ◌≤◌, map};
ghost use Rattle.runs.specs.All.{All};
ghost use Rattle.signal.specs.Packed.{is_packed};
ghost use Rattle.steps.specs.Stepping.{ReachesNow, Showing, advanced, at_start, cursor, next_in, set_now, shown_bytes, shown_levels, soonest, width_now};
ghost use Rattle.fst.specs.Record.{largest_in};

use crate::{Input, Inputs};
use signal::decode::{Vector, states_in};
use signal::packed::Packed;
use std::marker::Model;
use value::States;

// An input of which so many entries have begun: it shows the last of these, and the entry of that number is its next one. Its width, its
// largest set and the size of its entries are worked out once.
#[derive(Clone, Copy)]
pub struct Cursor {
    input: Input,
    width: u32,
    max_states: States,
    size: usize,
    begun: u32,
}

impl Model for Cursor {
    ghost use Rattle.std.specs.Prelude.{◌≡◌};
    ghost use Rattle.fst.specs.Record.{largest_in, size_of, width_of};
    ghost use Rattle.steps.specs.Cursor as specs;

    ghost Value = { specs.Cursor };

    ghost view = { λ c. record { input = c.input; begun = c.begun } };

    ghost invariant = { λ c. (c.size ≡ size_of c.input.description.encoding) × (c.width ≡ width_of c.input.description.encoding) × (c.max_states ≡ largest_in c.input.description.encoding) };

    ghost inverse = { λ v. record { input = v.input; width = width_of v.input.description.encoding; max_states = largest_in v.input.description.encoding; size = size_of v.input.description.encoding; begun = v.begun } };
}

impl Cursor {
    // So many entries have begun.
    pub fn at(input: Input, begun: u32) -> Cursor
        ensures { result ≡ cursor input begun }
    {
        Cursor {
            input,
            width: input.description.encoding.width(),
            max_states: input.description.encoding.largest(),
            size: input.description.encoding.size(),
            begun,
        }
    }

    // Nothing has begun.
    pub fn new(input: Input) -> Cursor
        ensures { result ≡ cursor input 0 }
    {
        Cursor::at(input, 0)
    }

    // The index of the next entry.
    #[tactic(auto, using(crate::proofs::Nexts::next_some, crate::proofs::Nexts::next_none))]
    fn next(&self, indices: &[u32]) -> Option<u32>
        requires { ReachesNow indices.now self.now }
        ensures { result ≡ next_in indices.now self.now }
    {
        let input = self.input;
        if self.begun < input.description.count {
            return Some(indices[input.index_start + self.begun as usize]);
        }
        None
    }

    // On by one entry, where the next one carries the index.
    #[tactic(auto, using(crate::proofs::Nexts::next_within))]
    fn advance(&mut self, indices: &[u32], index: u32)
        requires { ReachesNow indices.now self.old }
        ensures { self.new ≡ advanced indices.now index self.old }
    {
        let Some(next) = self.next(indices) else {
            return;
        };
        if next == index {
            self.begun += 1;
        }
    }

    fn width(&self) -> u32
        ensures { result ≡ width_now self.now }
    {
        self.width
    }

    fn largest(&self) -> States
        ensures { result ≡ largest_in self.now.input.description.encoding }
    {
        self.max_states
    }

    // The bytes of the entry that it shows.
    #[inline(always)]
    #[tactic(auto, unfolding(value::specs::Slice::part, signal::specs::Decode::entry_at))]
    fn shown<'a>(&self, bytes: &'a [u8]) -> &'a [u8]
        requires { Showing bytes.now self.now }
        ensures { result.now ≡ shown_bytes bytes.now self.now }
    {
        let at = self.input.byte_start + (self.begun - 1) as usize * self.size;
        &bytes[at..at + self.size]
    }

    // The levels of that entry, under its own set.
    #[inline(always)]
    #[tactic(auto, using(crate::proofs::Levels::vector_is, signal::proofs::Reading::vector))]
    pub fn levels<'a>(&self, bytes: &'a [u8]) -> Packed<'a>
        requires { Showing bytes.now self.now }
        ensures { is_packed result ≡ shown_levels bytes.now self.now }
    {
        let entry = Vector {
            width: self.width(),
            max_states: self.largest(),
            bytes: self.shown(bytes),
        };
        entry.marked_levels()
    }

    // The own set of that entry.
    #[inline(always)]
    pub fn states(&self, bytes: &[u8]) -> States
        requires { Showing bytes.now self.now }
        ensures { result ≡ set_now bytes.now self.now }
    {
        states_in(u32::from(self.largest().mark()), self.shown(bytes))
    }
}

// The inputs before the first step.
pub fn at_start(inputs: &Inputs) -> [Cursor; 8]
    ensures { result ≡ map at_start inputs.now.slots }
{
    inputs.slots.map(Cursor::new)
}

// The smallest index among the inputs' next entries.
pub fn next_index(cursors: &[Cursor], indices: &[u32]) -> Option<u32>
    requires { All (ReachesNow indices.now) cursors.now }
    ensures { result ≡ soonest indices.now cursors.now }
{
    cursors
        .iter()
        .filter_map(|cursor| cursor.next(indices))
        .min()
}

// The inputs behind `cursors`: each whose next entry carries the index moves on by one.
pub fn advance(cursors: &mut [Cursor], indices: &[u32], index: u32)
    requires { All (ReachesNow indices.now) cursors.old }
    ensures { cursors.new ≡ map (advanced indices.now index) cursors.old }
{
    for cursor in cursors.iter_mut() {
        cursor.advance(indices, index);
    }
}
