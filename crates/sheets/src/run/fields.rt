// Fields of an output line: a space and the 16 hexadecimal digits of a double's bits, stored in a lent buffer.
// The buffer and the place in it are two arguments: a struct over the lent buffer was tried, and proved, and one sort of sheet then took more than twice the instructions of a run.
ghost use Rattle.std.specs.Prelude.{◌≡◌, [], ◌∷◌, ◌+◌, ◌*◌, ◌<◌, ◌≤◌, length};
ghost use Rattle.sheets.specs.Output.{hex, fields_text};
ghost use Rattle.sheets.specs.code.run.Writing.{Written};

use numbers::float::bits;

// One byte.
pub fn put_byte(b: u8, out: &mut [u8], at: usize) -> usize
    requires { at < length out.old }
    ensures { Written out.old at (b ∷ []) out.new result }
{
    out[at] = b;
    at + 1
}

// All bytes of a text. `copy_from_slice` was tried here, and the library of the C functions then asked for memmove.
pub fn put_text(text: &[u8], out: &mut [u8], at: usize) -> usize
    requires { at + length text.now ≤ length out.old }
    ensures { Written out.old at text.now out.new result }
{
    let mut n = at;
    for b in text {
        n = put_byte(*b, out, n);
    }
    n
}

// The eight last digits of n: the bytes of a number, the first digit in the lowest. The last four bytes of n are turned round, spread to every other byte, in two steps, and each is cut into the values of its two digits, which are then the bytes. 48 is added to each, and 39 more to each above 9: these bits of 127, since a product by 127 is a shift and a difference, and one by 39 is not.
fn digits_of(n: u64) -> [u8; 8]
    ensures { result ≡ hex 8 n [] }
{
    let t = ((n % 256 * 256 + n / 0x100 % 256) * 256 + n / 0x1_0000 % 256) * 256
        + n / 0x100_0000 % 256;
    let a = (t | t * 0x1_0000) & 0xffff_0000_ffff;
    let b = (a | a * 0x100) & 0xff_00ff_00ff_00ff;
    let c = (b / 16 & 0xf_000f_000f_000f) + (b & 0xf_000f_000f_000f) * 0x100;
    let over = (c + 0x606_0606_0606_0606) / 16 & 0x101_0101_0101_0101;
    let digits = c + 0x3030_3030_3030_3030 + (over * 127 & 0x2727_2727_2727_2727);
    digits.to_le_bytes()
}

// The 16 digits of n.
fn put_hex(n: u64, out: &mut [u8], at: usize) -> usize
    requires { at + 16 ≤ length out.old }
    ensures { Written out.old at (hex 16 n []) out.new result }
{
    let m = put_text(&digits_of(n / 0x1_0000_0000), out, at);
    put_text(&digits_of(n), out, m)
}

// One field.
fn put_field(x: f64, out: &mut [u8], at: usize) -> usize
    requires { at + 17 ≤ length out.old }
    ensures { Written out.old at (fields_text (x ∷ [])) out.new result }
{
    let n = put_byte(b' ', out, at);
    let b = bits(x);
    put_hex(b, out, n)
}

// Fields, one after another.
pub fn put_fields(fields: &[f64], out: &mut [u8], at: usize) -> usize
    requires { at + length fields.now * 17 ≤ length out.old }
    ensures { Written out.old at (fields_text fields.now) out.new result }
{
    let mut n = at;
    for x in fields {
        n = put_field(*x, out, n);
    }
    n
}
