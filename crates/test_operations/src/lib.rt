// Every operation of `numbers` and of `frames` under a number, for the comparison with the Rust and for replaying its recorded answers.
// Inputs and outputs are bits. The tables of the operations are specs/NumbersTable.antt and specs/FramesTable.antt.
// An operation goes by its number, and is picked by a `match` on it, since C calls it by that number and recorded inputs name it so.
#![tactic(auto)]

pub mod answer;
pub mod counts;
mod frames_answers;
pub mod frames_direct;
pub mod frames_ellipsoids;
mod frames_inputs;
pub mod frames_local_frames;
pub mod frames_positions;
pub mod frames_radii;
pub mod frames_rotations;
pub mod frames_table;
pub mod frames_vectors;
pub mod numbers_angles;
pub mod numbers_direct;
pub mod numbers_floats;
pub mod numbers_matrices;
pub mod numbers_parts;
pub mod numbers_quotients;
pub mod numbers_table;
pub mod numbers_vectors;
mod words;

ghost use Rattle.std.specs.Prelude.{◌≡◌};
ghost use Rattle.test_operations.specs.Words.{padded};
ghost use Rattle.test_operations.specs.Rows.{answered};
ghost use Rattle.test_operations.specs.NumbersTable as NumbersTable;
ghost use Rattle.test_operations.specs.FramesTable as FramesTable;

// What test_operations_c hands to C. The words of an operation's answer, then zeros. All zeros where there is no such operation.

pub fn numbers_apply(op: u64, inputs: &[u64; 32], outputs: &mut [u64; 24])
    ensures { outputs.new ≡ padded (answered NumbersTable.table op inputs.now) }
{
    *outputs = numbers_floats::floats(op, inputs);
}

pub fn frames_apply(op: u64, inputs: &[u64; 32], outputs: &mut [u64; 24])
    ensures { outputs.new ≡ padded (answered FramesTable.table op inputs.now) }
{
    *outputs = frames_positions::positions(op, inputs);
}
