// The form pass over a whole sheet: how many lines there are, or, as the error, the number of the first that is not of the grammar, 97 where there are more than 96.
ghost use Rattle.std.specs.Prelude.{◌≡◌, ℕ, ◌-◌};
ghost use Rattle.sheets.specs.LineNumbers.{line_number};
ghost use Rattle.sheets.specs.code.reader.Reader.{read_lines, read_sheet};
ghost use Rattle.sheets.specs.code.reader.Views.{lines_form, form_of};

use crate::reader::head::head;
use crate::reader::lines::line_end;

// The form pass over the lines from line `first` on, which stands at `start`. `number` is the number of the line at `at`, stepped at each LF.
pub(crate) fn form_from(s: &[u8], start: usize, first: usize) -> Result<usize, usize>
    requires { first ≡ line_number s.now start }
    ensures { (p : ℕ) → result ≡ lines_form first (read_lines (97 - first) first p s.now start) }
{
    let mut at = start;
    let mut number = first;
    // No `for`: it ends with the bytes, and one over the lines' numbers would say twice what is answered then.
    while at < s.len() {
        if 96 < number {
            return Err(number);
        }
        let Some(next) = line_end(s, at) else {
            return Err(number);
        };
        at = next;
        number += 1;
    }
    Ok(number - 1)
}

// The form pass.
pub fn form(s: &[u8]) -> Result<usize, usize>
    ensures { result ≡ form_of (read_sheet s.now) }
{
    let Some((_, start)) = head(s) else {
        return Err(1);
    };
    form_from(s, start, 2)
}
