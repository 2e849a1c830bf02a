// What the program writes besides the text of a sheet.
ghost use Rattle.std.specs.Prelude.{◌≡◌};
ghost use Rattle.boresheet.specs.Arguments.{asks_help};

use crate::messages;
use crate::messages::Line;
use std::fmt::InlineText;
use std::io;

// Writes a text on standard error. That this failed could be told nowhere.
fn put(rt: &HostRuntime, text: &[u8]) {
    let _ = rt.stderr().write_all(text);
}

// The text of an error without the number that may stand behind it.
fn reason(said: &str) -> &str {
    match said.split_once(" (os error ") {
        Some((text, _)) => text,
        None => said,
    }
}

// A call that failed: on what, and why.
pub fn fail(rt: &HostRuntime, what: &[u8], why: io::Error) {
    let said = InlineText::<128>::of(why);
    put(rt, b"boresheet: ");
    put(rt, what);
    put(rt, b": ");
    put(rt, reason(said.as_str()).as_bytes());
    put(rt, b"\n");
}

// A line that was made.
fn put_line(rt: &HostRuntime, line: Line) {
    put(rt, line.as_str().as_bytes());
}

// A refusal of the run.
pub fn refusal(rt: &HostRuntime, number: u8, line: usize) {
    put_line(rt, messages::refusal(number, line));
}

// The file of readings has a line that is none.
pub fn bad_line(rt: &HostRuntime, line: usize) {
    put_line(rt, messages::bad_line(line));
}

pub fn too_short(rt: &HostRuntime, lines: usize) {
    put_line(rt, messages::too_short(lines));
}

pub fn too_long(rt: &HostRuntime) {
    put(rt, b"boresheet: readings: there are more than 16 lines\n");
}

// Whether an argument is `-h` or `--help`.
#[tactic(auto, using(crate::proofs::ArgumentSteps::pointwise_same), unfolding(crate::specs::Arguments::asks_help))]
pub fn asks_help(word: &[u8]) -> bool
    ensures { result ≡ asks_help word.now }
{
    word == b"-h".as_slice() || word == b"--help".as_slice()
}

fn write_line<P: Print>(to: &P, text: &[u8]) {
    let _ = to.write_all(text);
    let _ = to.write_all(b"\n");
}

// How the program is used.
pub fn usage<P: Print>(to: &P) {
    write_line(to, b"boresheet [READINGS] < SHEET");
    write_line(
        to,
        b"Checks and runs the bore sheet on standard input; its text goes to standard output.",
    );
    write_line(
        to,
        b"A refusal is a line on standard error, as boresheet: refusal 8 (centre) at line 4.",
    );
    write_line(to, b"The exit status says nothing.");
    write_line(
        to,
        b"READINGS is a file of 16 lines for r0 to r15, each ended by LF: a number as in a sheet,",
    );
    write_line(
        to,
        b"or the 16 hexadecimal digits of a double. Without it all readings are 0.",
    );
}
