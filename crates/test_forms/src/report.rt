// What is found in a sheet: whether it is of the grammar, and then each line's place and parts. An error is that of a write that failed.
use crate::text::{double, word};
use crate::tree::tree;
use sheets::reader::form::form;
use sheets::reader::head::{HeadLine, head};
use sheets::reader::lines::{LineHead, WholeLine, line_end, line_head};
use std::io;
use test_cases::print::put;

// `bad` and the first bad line, or `fine`, how many lines there are, and the lines.
pub fn sheet(rt: &impl Print, s: &[u8]) -> io::Result<()> {
    match form(s) {
        Err(number) => println!(rt; "bad {number}"),
        Ok(count) => {
            println!(rt; "fine {count}")?;
            lines(rt, s, count)
        }
    }
}

// The lines of a sheet, of which there are `count`.
fn lines(rt: &impl Print, s: &[u8], count: usize) -> io::Result<()> {
    let mut at = first_line(rt, s)?;
    for _ in 1..count {
        at = other_line(rt, s, at)?;
    }
    Ok(())
}

// Line 1: the place of the next one.
fn first_line(rt: &impl Print, s: &[u8]) -> io::Result<usize> {
    put(rt, b"0 ellipsoid ")?;
    match head(s) {
        None => {
            put(rt, b"?\n")?;
            Ok(0)
        }
        Some((HeadLine::Wgs84, next)) => {
            put(rt, b"wgs84\n")?;
            Ok(next)
        }
        Some((HeadLine::Custom(radius, flattening), next)) => {
            double(rt, radius)?;
            put(rt, b" ")?;
            double(rt, flattening)?;
            put(rt, b"\n")?;
            Ok(next)
        }
    }
}

// A line that is read whole.
fn whole(rt: &impl Print, line: WholeLine) -> io::Result<()> {
    match line {
        WholeLine::Show(name) => {
            put(rt, b" show ")?;
            word(rt, name.code)
        }
        WholeLine::Total => put(rt, b" total"),
        WholeLine::Apart(least) => {
            put(rt, b" apart ")?;
            double(rt, least)
        }
    }
}

// Another line: the place of the next one.
fn other_line(rt: &impl Print, s: &[u8], at: usize) -> io::Result<usize> {
    print!(rt; "{at}")?;
    match line_head(s, at) {
        None => put(rt, b" ?")?,
        Some(LineHead::Let(name, value)) => {
            put(rt, b" let ")?;
            word(rt, name.code)?;
            put(rt, b" ")?;
            tree(rt, s, value, 11)?;
        }
        Some(LineHead::Whole(line, _)) => whole(rt, line)?,
    }
    put(rt, b"\n")?;
    Ok(line_end(s, at).unwrap_or(at))
}
