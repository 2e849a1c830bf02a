// The readings: their words, and their places among the floats.
ghost use Rattle.std.specs.Prelude.{◌≡◌, ◌<◌, ◌≤◌, MatchOption};
ghost use Rattle.sheets.specs.code.run.Known.{reading_index};
ghost use Rattle.sheets.specs.code.run.Running.{WithReadings};

use crate::reader::words;

// The number of the reading whose word has this code, if there is one.
pub fn reading_index(code: u64) -> Option<usize>
    ensures { MatchOption result (16 ≤ reading_index code) (λ i. (i ≡ reading_index code) × (i < 16)) }
{
    match code {
        words::R0 => Some(0),
        words::R1 => Some(1),
        words::R2 => Some(2),
        words::R3 => Some(3),
        words::R4 => Some(4),
        words::R5 => Some(5),
        words::R6 => Some(6),
        words::R7 => Some(7),
        words::R8 => Some(8),
        words::R9 => Some(9),
        words::R10 => Some(10),
        words::R11 => Some(11),
        words::R12 => Some(12),
        words::R13 => Some(13),
        words::R14 => Some(14),
        words::R15 => Some(15),
        _ => None,
    }
}

// The readings stand first among the floats.
pub fn put_readings(readings: &[f64], floats: &mut [f64; 2940])
    ensures { WithReadings readings.now floats.old floats.new }
{
    let n = readings.len().min(16);
    floats[..n].copy_from_slice(&readings[..n]);
}
