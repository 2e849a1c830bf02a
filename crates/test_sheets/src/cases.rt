// The readings and the lengths that the digits of a case stand for.
ghost use Rattle.std.specs.Prelude.{◌≤◌, IfOk, IfSome};

use numbers::float::double;
use std::io;
use std::io::Read;
use test_cases::input::{read_full, size, words};

// How many places of the kind list, readings and bytes of output a case lends.
#[derive(Clone, Copy)]
pub struct Lent {
    pub kinds: usize,
    pub readings: usize,
    pub output: usize,
}

// The readings that a head says behind the size, each a space and sixteen digits; 0 behind them.
pub fn readings(head: &[u8; 277]) -> Option<[f64; 128]> {
    let words = words(head, 4, 16)?;
    let mut values = [0.0; 128];
    for (value, bits) in values[..16].iter_mut().zip(&words[..16]) {
        *value = double(*bits);
    }
    Some(values)
}

// Reads a length, four digits and a space. An error is that of a read that failed.
fn read_length(input: &mut impl Read) -> io::Result<Option<usize>> {
    let mut digits = [0u8; 5];
    read_full(input, &mut digits)?;
    Ok(size(&digits))
}

// The lengths of a case by the byte behind its readings: a space where they are document 01's; a comma where they stand behind it, at most 256, 128 and 32,768. An error is that of a read that failed.
pub fn lengths(input: &mut impl Read, mark: u8) -> io::Result<Option<Lent>>
    ensures { IfOk result (λ told. IfSome told (λ lent. (lent.kinds ≤ 256) × (lent.readings ≤ 128) × (lent.output ≤ 32768))) }
{
    if mark == b' ' {
        return Ok(Some(Lent {
            kinds: 96,
            readings: 16,
            output: 24576,
        }));
    }
    if mark != b',' {
        return Ok(None);
    }
    let kinds = read_length(input)?;
    let readings = read_length(input)?;
    let output = read_length(input)?;
    Ok(within(kinds, readings, output))
}

// The three lengths, where each is one and none is too large.
fn within(kinds: Option<usize>, readings: Option<usize>, output: Option<usize>) -> Option<Lent>
    ensures { IfSome result (λ lent. (lent.kinds ≤ 256) × (lent.readings ≤ 128) × (lent.output ≤ 32768)) }
{
    let kinds = kinds?;
    let readings = readings?;
    let output = output?;
    if 256 < kinds {
        return None;
    }
    if 128 < readings {
        return None;
    }
    if 32768 < output {
        return None;
    }
    Some(Lent {
        kinds,
        readings,
        output,
    })
}
