// Checks and runs the bore sheet on standard input, and writes its text on standard output. A refusal is one line on standard error.
// An argument names a file of the sixteen readings; without it they are all 0.
// The exit status is always 0: the line on standard error is what tells a refusal.
#![tactic(auto)]

ghost use Rattle.std.specs.Prelude.{IfErr, IfOk};
ghost use Rattle.std.specs.Counts.{IsPrefixLen};

mod files;
mod hex;
mod messages;
mod readings;
mod reports;

use files::{ReadFailed, fill};
use readings::{BadReadings, readings_of};
use sheets::run::run;
use std::env::FillError;
use std::fs::File;
use std::rt::Env;
use std::{io, str};

// The C library's numbers of an invalid argument and of a name that is too long.
const EINVAL: i32 = 22;

const ENAMETOOLONG: i32 = 36;

// Runs a sheet, and writes its text and then its refusal.
fn run_sheet(rt: &HostRuntime, sheet: &[u8], values: &[f64; 16]) {
    let mut out = [0u8; 24576];
    let a = run(sheet, values, &mut out);
    let n = a.written;
    if let Err(e) = rt.stdout().write_all(&out[..n]) {
        reports::fail(rt, b"standard output", e);
    }
    if a.number != 0 {
        reports::refusal(rt, a.number, a.line);
    }
}

// Reads the sheet, up to one byte more than a sheet may have, and runs it.
fn run_input(rt: &HostRuntime, values: &[f64; 16]) {
    let mut sheet = [0u8; 16385];
    match fill(&mut rt.stdin(), &mut sheet) {
        Ok(n) => run_sheet(rt, &sheet[..n], values),
        Err(failed) => reports::fail(rt, b"standard input", failed.error),
    }
}

// Runs the sheet over the readings of a file. No file of the form is longer than 288 bytes.
fn run_with(rt: &HostRuntime, file: &[u8]) {
    match readings_of(file) {
        Ok(values) => run_input(rt, &values),
        Err(BadReadings::Line(line)) => reports::bad_line(rt, line),
        Err(BadReadings::Short(lines)) => reports::too_short(rt, lines),
        Err(BadReadings::Long) => reports::too_long(rt),
    }
}

// Opens a file for reading. A name that is no UTF-8 opens none.
fn open(rt: &HostRuntime, name: &[u8]) -> io::Result<File> {
    match str::from_utf8(name) {
        Ok(path) => File::open(rt, path),
        Err(_) => Err(io::Error::from(io::ErrorKind::InvalidFilename)),
    }
}

// Reads the start of the file of this name, as far as a buffer holds it. An error is that of the call that failed, and tells how many bytes had come before: none where the file was not opened.
fn read_file(rt: &HostRuntime, name: &[u8], buf: &mut [u8]) -> Result<usize, ReadFailed>
    ensures ok { IfOk result (λ n. IsPrefixLen n buf.new) }
    ensures before { IfErr result (λ failed. IsPrefixLen failed.count buf.new) }
{
    let mut file = open(rt, name).map_err(|error| ReadFailed { count: 0, error })?;
    fill(&mut file, buf)
}

// Reads the file of readings of this name.
fn run_file(rt: &HostRuntime, name: &[u8]) {
    let mut file = [0u8; 512];
    match read_file(rt, name, &mut file) {
        Ok(n) => run_with(rt, &file[..n]),
        Err(failed) => reports::fail(rt, name, failed.error),
    }
}

// Why an argument was not read. No From: both types are std's.
fn argument_error(e: FillError) -> io::Error {
    match e {
        FillError::NotPresent => io::Error::from_raw_os_error(EINVAL),
        FillError::TooLong => io::Error::from_raw_os_error(ENAMETOOLONG),
    }
}

// By the one argument: the help, or a file's name.
fn run_argument(rt: &HostRuntime) {
    let mut name = [0u8; 4096];
    match rt.arg(1, &mut name) {
        Ok(n) if reports::asks_help(&name[..n]) => reports::usage(&rt.stdout()),
        Ok(n) => run_file(rt, &name[..n]),
        Err(e) => reports::fail(rt, b"argument", argument_error(e)),
    }
}

// Whether the program was started with an argument of this number.
fn is_given(rt: &HostRuntime, i: usize) -> bool {
    !matches!(rt.arg(i, &mut []), Err(FillError::NotPresent))
}

fn main(rt: HostRuntime) {
    if !is_given(&rt, 1) {
        run_input(&rt, &[0.0; 16]);
    } else if is_given(&rt, 2) {
        reports::usage(&rt.stderr());
    } else {
        run_argument(&rt);
    }
}
