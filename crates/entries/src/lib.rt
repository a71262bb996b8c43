// Entries of one size, one behind the other: whether a string repeats the last of them, and the next one stored.
#![tactic(auto)]

ghost use Rattle.std.specs.Prelude.{◌≡◌, ◌≢◌, ◌+◌, ◌-◌, ◌*◌, ◌^◌, ◌<◌, ◌≤◌, MatchOption, length};
ghost use Rattle.value.specs.Slice.{part, overlay};
ghost use Rattle.value.specs.Level.{mark_of};
ghost use Rattle.layout.specs.Entry.{entry_size};
ghost use Rattle.layout.specs.Writable.{Writable};
ghost use Rattle.entries.specs.Repeatable.{size_before, size_after, wider, widened, equals_widened, repeats_plain, repeats_widened};

use layout::entry::entry_size;
use layout::expand::expand_entries;
use layout::number::NewEntry;
use std::marker::Model;
use value::States;

pub mod real;

// Where the last of `count` entries of a size stands, if there is one.
#[inline(always)]
fn last_place(byte_start: usize, count: u32, size: usize) -> Option<usize>
    requires { byte_start + count * size < 2 ^ 64 }
    ensures { MatchOption result (count ≡ 0) (λ at. (count ≢ 0) × (at ≡ byte_start + (count - 1) * size)) }
{
    let before = count.checked_sub(1)?;
    Some(byte_start + before as usize * size)
}

#[tactic(auto, using(layout::proofs::Blocks::front_stored, layout::proofs::Blocks::part_borrowed, value::proofs::Slices::part_length))]
fn copy_from(bytes: &[u8], at: usize, count: usize, out: &mut [u8])
    requires { (at + count ≤ length bytes.now) × (count ≤ length out.old) }
    ensures { out.new ≡ overlay out.old 0 (part at count bytes.now) }
{
    out[..count].copy_from_slice(&bytes[at..at + count]);
}

// A string's entry under a set, behind entries of as many levels under a smaller one, which are to be laid out anew under its own.
#[derive(Drop)]
pub struct WiderEntry<'a> {
    from: States,
    to: States,
    bits: u32,
    entry: NewEntry<'a>,
}

impl<'a> Model for WiderEntry<'a> {
    ghost use Rattle.std.specs.Prelude.{length};
    ghost use Rattle.entries.specs.Repeatable.{Wider, Widens};

    ghost Value = { Wider };

    ghost view = { λ e. record { from = e.from; to = e.to; bits = e.bits; entry = e.entry } };

    ghost invariant = { λ e. Widens e.from e.to e.bits (length e.entry) };
}

impl<'a> WiderEntry<'a> {
    #[tactic(auto, using(layout::proofs::Entries::sized))]
    #[inline(always)]
    pub fn new(from: States, to: States, states: States, value: &'a [u8]) -> WiderEntry<'a>
        requires { (mark_of from ≤ mark_of to) × Writable to states value.now (entry_size (length value.now) to) 0 }
        ensures { result ≡ wider from to states value.now }
    {
        let bits = value.len() as u32;
        let entry = NewEntry::with_levels(to, states, value, entry_size(to, bits), None);
        WiderEntry {
            from,
            to,
            bits,
            entry,
        }
    }

    // Whether the entry at a place, laid out anew, is this one. No entry is longer than the copy.
    #[tactic(auto, using(crate::proofs::LastEntry::widens, layout::proofs::Sizes::size_small))]
    fn is_widened(&self, bytes: &[u8], at: usize) -> bool
        requires { at + size_before self.now ≤ length bytes.now }
        ensures { result ≡ equals_widened self.now at bytes.now }
    {
        let mut entry = [0u8; 2049];
        copy_from(bytes, at, entry_size(self.from, self.bits), &mut entry);
        self.expand(&mut entry, 0, 1);
        self.entry.is_at(&entry, 0)
    }

    // Whether it repeats the last of `count` entries, once they are laid out anew. Nothing is moved yet.
    pub fn repeats_last(&self, bytes: &[u8], byte_start: usize, count: u32) -> bool
        requires { byte_start + count * size_before self.now ≤ length bytes.now }
        ensures { result ≡ repeats_widened self.now byte_start count bytes.now }
    {
        let size = entry_size(self.from, self.bits);
        let Some(at) = last_place(byte_start, count, size) else {
            return false;
        };
        if size == self.entry.len() {
            self.entry.is_at(bytes, at)
        } else {
            self.is_widened(bytes, at)
        }
    }

    // Lays the entries before it out anew.
    #[inline(always)]
    pub fn expand(&self, data: &mut [u8], start: usize, entries: usize)
        requires { (entries ≤ 1048576) × (start + entries * size_after self.now ≤ length «data».old) }
        ensures { «data».new ≡ overlay «data».old start (widened self.now entries (part start (entries * size_before self.now) «data».old)) }
    {
        expand_entries(self.from, self.to, data, start, entries, self.bits);
    }

    // Stores it behind so many, which are laid out anew.
    #[inline(always)]
    pub fn write_behind(&self, out: &mut [u8], start: usize, entries: usize)
        requires { start + entries * size_after self.now + size_after self.now ≤ length out.old }
        ensures { out.new ≡ overlay out.old (start + entries * size_after self.now) self.now.entry }
    {
        self.entry.write(out, start + entries * self.entry.len());
    }
}

// Whether an entry repeats the last of `count` that are as long.
#[inline(always)]
pub fn repeats_entry(entry: &NewEntry<'_>, bytes: &[u8], byte_start: usize, count: u32) -> bool
    requires { byte_start + count * length entry.now ≤ length bytes.now }
    ensures { result ≡ repeats_plain entry.now byte_start count bytes.now }
{
    let Some(at) = last_place(byte_start, count, entry.len()) else {
        return false;
    };
    entry.is_at(bytes, at)
}
