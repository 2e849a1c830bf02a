// The evaluator: it calls itself with the bracket depth left falling. A value is tested where it is met, a bracket's after its row.
// Values lie as floats: the readings from place 0 on, the value of the name at place j of `names` from 21 j on, and above the names, from `top` on, what is being worked out.
// An expression's value is laid from its `top` on, and so are a bracket's arguments, each with room for a frame, 21 floats.
// A bracket's fifth argument lies 84 places above its first, so that an expression of depth d takes 84 d + 21 floats, and one of depth 11 takes 945; 2940 is that above the places of 95 names. A bracket's five arguments take 105.
ghost use Rattle.std.specs.Prelude.{◌+◌, ◌*◌, ◌≤◌};
ghost use Rattle.sheets.specs.code.run.Evaluating.{KnownWith, LeafWith, EvalsWith, BracketWith};

use crate::check::names::Names;
use crate::reader::bytes::{byte, word};
use crate::reader::num::double;
use crate::run::apply::apply;
use crate::run::floats::copy_floats;
use crate::run::laid::tested;
use crate::run::readings::reading_index;
use crate::{Evaluated, Halt};
use frames::Ellipsoid;

// What the word with this code stands for, laid at `top`.
fn known(code: u64, names: &Names, floats: &mut [f64; 2940], top: usize) -> Evaluated
    requires { top + 21 ≤ 2940 }
    ensures { KnownWith code names.now floats.old top result floats.new }
{
    let Some(j) = names.place(code) else {
        let Some(i) = reading_index(code) else {
            return Err(Halt::Sticks);
        };
        floats[top] = floats[i];
        return tested(0, floats, top);
    };
    let kind = names.kinds[j];
    copy_floats(floats, 21 * j, top);
    tested(kind, floats, top)
}

// A word or a NUM. Where there is a value, `at` is then the place after it.
fn leaf(s: &[u8], at: &mut usize, names: &Names, floats: &mut [f64; 2940], top: usize) -> Evaluated
    requires { top + 21 ≤ 2940 }
    ensures { LeafWith s.now at.old names.now floats.old top result at.new floats.new }
{
    let w = word(s, *at);
    match w {
        Some((code, end)) => {
            *at = end;
            known(code, names, floats, top)
        }
        None => {
            let q = double(s, *at);
            match q {
                Some((x, end)) => {
                    *at = end;
                    floats[top] = x;
                    tested(0, floats, top)
                }
                None => Err(Halt::Sticks),
            }
        }
    }
}

// The expression at a place, with at most `depth` brackets in each other. Where there is a value, `at` is then the place after the expression.
#[cycle(bracket_eval)]
pub fn eval(
    s: &[u8],
    at: &mut usize,
    depth: usize,
    e: Ellipsoid,
    names: &Names,
    floats: &mut [f64; 2940],
    top: usize,
) -> Evaluated
    requires { top + 84 * depth + 21 ≤ 2940 }
    ensures { EvalsWith s.now at.old depth e names.now floats.old top result at.new floats.new }
{
    let b = byte(s, *at);
    if b == b'(' {
        if depth == 0 {
            return Err(Halt::Sticks);
        }
        let w = word(s, *at + 1);
        let Some((code, start)) = w else {
            return Err(Halt::Sticks);
        };
        *at = start;
        return bracket(s, at, depth - 1, e, code, names, floats, top);
    }
    leaf(s, at, names, floats, top)
}

// The bracket of the word with this code, from the place after its word: its arguments, the closing bracket, and then its row. Where there is a value, `at` is then the place after the closing bracket.
#[cycle(bracket_eval)]
pub fn bracket(
    s: &[u8],
    at: &mut usize,
    depth: usize,
    e: Ellipsoid,
    code: u64,
    names: &Names,
    floats: &mut [f64; 2940],
    top: usize,
) -> Evaluated
    requires { top + 84 * depth + 105 ≤ 2940 }
    ensures { BracketWith s.now at.old depth 5 e code names.now 0 floats.old top result at.new floats.new }
{
    let mut key: u64 = 0;
    for n in 0..5usize {
        if byte(s, *at) != b' ' {
            break;
        }
        *at += 1;
        let room = top + 21 * n;
        let kind = eval(s, at, depth, e, names, floats, room)?;
        key = key * 16 + kind as u64 + 1;
    }
    if byte(s, *at) == b')' {
        *at += 1;
        return apply(e, code, key, floats, top);
    }
    Err(Halt::Sticks)
}
