// The lines on standard error that say a number.
ghost use Rattle.std.specs.Prelude.{◌≡◌, ◌+◌, ◌++◌, ◌≤◌, length};
ghost use Rattle.arrayvec.specs.ArrayString.{array_string_len};
ghost use Rattle.boresheet.specs.Messages.{decimal, refusal_name, place_text, refusal_line, bad_line_text, short_text};

use arrayvec::ArrayString;
use itoa::Buffer;

// A line, in memory of its own: the longest has 93 bytes.
pub type Line = ArrayString<96>;

// A number's digits behind a text.
#[tactic(auto, using(crate::proofs::MessageSteps::digits_are, crate::proofs::MessageSteps::decimal_length))]
fn push_decimal(text: &mut Line, n: u64)
    requires { array_string_len text.old ≤ 76 }
    ensures text { text.new.bytes ≡ text.old.bytes ++ decimal 19 n }
    ensures len { array_string_len text.new ≤ array_string_len text.old + 20 }
{
    let mut digits = Buffer::new();
    text.push_str(digits.format(n));
}

// A refusal's name by its number, as documents 01 and 02 have it. The line says the number too, which is the run's answer.
#[tactic(auto, unfolding(crate::specs::Messages::refusal_name))]
fn name(number: u8) -> &'static str
    ensures text { result.now ≡ refusal_name number }
    ensures len { length result.now ≤ 9 }
{
    match number {
        1 => "size",
        2 => "lent",
        3 => "form",
        4 => "ellipsoid",
        5 => "name",
        6 => "kind",
        7 => "limit",
        8 => "centre",
        9 => "apart",
        _ => "",
    }
}

// ` at line ` and the line's number behind a text, nothing for line 0.
#[tactic(auto, unfolding(crate::specs::Messages::place_text))]
fn push_place(text: &mut Line, line: usize)
    requires { array_string_len text.old ≤ 67 }
    ensures text { text.new.bytes ≡ text.old.bytes ++ place_text line }
    ensures len { array_string_len text.new ≤ array_string_len text.old + 29 }
{
    if line != 0 {
        text.push_str(" at line ");
        push_decimal(text, line as u64);
    }
}

// The line for a refusal, with its LF.
#[tactic(auto, using(crate::proofs::MessageSteps::decimal_length), unfolding(crate::specs::Messages::refusal_line))]
pub fn refusal(number: u8, line: usize) -> Line
    ensures { result.bytes ≡ refusal_line number line }
{
    let mut text = Line::new();
    text.push_str("boresheet: refusal ");
    push_decimal(&mut text, number as u64);
    text.push_str(" (");
    text.push_str(name(number));
    text.push_str(")");
    push_place(&mut text, line);
    text.push_str("\n");
    text
}

// A number between two texts.
fn numbered(before: &str, n: usize, after: &str) -> Line
    requires { length before.now + length after.now ≤ 76 }
    ensures { result.bytes ≡ before.now ++ (decimal 19 n ++ after.now) }
{
    let mut text = Line::new();
    text.push_str(before);
    push_decimal(&mut text, n as u64);
    text.push_str(after);
    text
}

// The line for a file of readings with a line that is none, with its LF.
#[tactic(auto, unfolding(crate::specs::Messages::bad_line_text))]
pub fn bad_line(line: usize) -> Line
    ensures { result.bytes ≡ bad_line_text line }
{
    numbered(
        "boresheet: readings: line ",
        line,
        " is neither a number nor 16 hexadecimal digits\n",
    )
}

// The line for a file of readings of too few lines, with its LF.
#[tactic(auto, unfolding(crate::specs::Messages::short_text))]
pub fn too_short(lines: usize) -> Line
    ensures { result.bytes ≡ short_text lines }
{
    numbered(
        "boresheet: readings: the file ends after ",
        lines,
        " of 16 lines\n",
    )
}
