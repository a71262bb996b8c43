// The room that steps take.
ghost use Rattle.std.specs.Prelude.{◌≡◌, ◌≤◌, ◌<◌, ◌^◌};
ghost use Rattle.steps.specs.Room.{total_over, room_for};

use crate::Input;
use fst::record::MAXIMUM;

// Whether `count` entries of `size` bytes stand within the maximum and within slices of these lengths.
pub fn has_room(count: u32, size: usize, bytes: usize, indices: usize) -> bool
    requires { size ≤ 4096 }
    ensures { result ≡ room_for count size bytes indices }
{
    count <= MAXIMUM && count as usize * size <= bytes && count as usize <= indices
}

// How many entries the inputs have together. There are not more steps.
pub fn total_count(inputs: &[Input]) -> u32
    requires { total_over inputs.now < 2 ^ 32 }
    ensures { result ≡ total_over inputs.now }
{
    inputs.iter().map(|input| input.description.count).sum()
}
