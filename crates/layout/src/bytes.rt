// Bytes moved within a slice, and zeros stored, by lengths that are literals: each is compiled to a few loads and stores and no call.
ghost use Rattle.std.specs.Prelude.{◌≡◌, ◌+◌, ◌-◌, ◌≤◌, length, replicate};
ghost use Rattle.value.specs.Slice.{part, overlay};
ghost use Rattle.layout.specs.Blocks.{Halves};

use crate::entry::push_zeros;

// N bytes from p on. No test is left of the conversion.
#[tactic(auto, using(crate::proofs::Blocks::part_borrowed))]
#[inline(always)]
pub fn read_block<const N: usize>(data: &[u8], p: usize) -> [u8; N]
    requires { p + N ≤ length «data».now }
    ensures { result ≡ part p N «data».now }
{
    (&data[p..p + N]).try_into().unwrap()
}

// Not by `copy_from_slice`, which tests whether the two overlap, and so puts a block of 32 bytes on the stack.
#[tactic(auto, using(value::proofs::Slices::overlay_nil))]
#[inline(always)]
pub fn write_block<const N: usize>(data: &mut [u8], q: usize, block: &[u8; N])
    requires { q + N ≤ length «data».old }
    ensures { «data».new ≡ overlay «data».old q block.now }
{
    for i in 0..N {
        data[q + i] = block[i];
    }
}

// Moves 32 bytes or more in blocks of 32, the last one first. The first block is read before another is written over it.
fn move_long(data: &mut [u8], p: usize, q: usize, n: usize)
    requires { (p ≤ q) × (q + n ≤ length «data».old) × (32 ≤ n) }
    ensures { «data».new ≡ overlay «data».old q (part p n «data».old) }
{
    let first: [u8; 32] = read_block(data, p);
    let blocks = (n - 1) / 32;
    let rest = n - 32 * blocks;
    for k in (0..blocks).rev() {
        let i = rest + 32 * k;
        let block: [u8; 32] = read_block(data, p + i);
        write_block(data, q + i, &block);
    }
    write_block(data, q, &first);
}

// Moves n bytes as their first and their last HALF bytes, which may overlap.
#[inline(always)]
fn move_halves<const HALF: usize>(data: &mut [u8], p: usize, q: usize, n: usize)
    requires { (p ≤ q) × (q + n ≤ length «data».old) × Halves HALF n }
    ensures { «data».new ≡ overlay «data».old q (part p n «data».old) }
{
    let rest = n - HALF;
    let first: [u8; HALF] = read_block(data, p);
    let last: [u8; HALF] = read_block(data, p + rest);
    write_block(data, q + rest, &last);
    write_block(data, q, &first);
}

// Moves n bytes from p to q, which is not before p: what is written has been read.
pub fn move_up(data: &mut [u8], p: usize, q: usize, n: usize)
    requires { (p ≤ q) × (q + n ≤ length «data».old) × (1 ≤ n) }
    ensures { «data».new ≡ overlay «data».old q (part p n «data».old) }
{
    match n {
        ..=2 => move_halves::<1>(data, p, q, n),
        3..=4 => move_halves::<2>(data, p, q, n),
        5..=8 => move_halves::<4>(data, p, q, n),
        9..=16 => move_halves::<8>(data, p, q, n),
        17..=32 => move_halves::<16>(data, p, q, n),
        _ => move_long(data, p, q, n),
    }
}

// Stores n zeros as the first and the last HALF of them, which may overlap.
#[inline(always)]
fn zero_halves<const HALF: usize>(data: &mut [u8], from: usize, n: usize)
    requires { (from + n ≤ length «data».old) × Halves HALF n }
    ensures { «data».new ≡ overlay «data».old from (replicate n 0) }
{
    write_block(data, from + (n - HALF), &[0; HALF]);
    write_block(data, from, &[0; HALF]);
}

// Stores n zeros.
#[tactic(auto, using(value::proofs::Slices::overlay_nil))]
pub fn zero(data: &mut [u8], from: usize, n: usize)
    requires { from + n ≤ length «data».old }
    ensures { «data».new ≡ overlay «data».old from (replicate n 0) }
{
    match n {
        0 => {}
        1..=2 => zero_halves::<1>(data, from, n),
        3..=4 => zero_halves::<2>(data, from, n),
        5..=8 => zero_halves::<4>(data, from, n),
        9..=16 => zero_halves::<8>(data, from, n),
        17..=32 => zero_halves::<16>(data, from, n),
        33..=64 => zero_halves::<32>(data, from, n),
        65..=128 => zero_halves::<64>(data, from, n),
        _ => {
            push_zeros(data, from, n);
        }
    }
}
