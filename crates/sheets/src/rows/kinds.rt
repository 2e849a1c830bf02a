// The kind of a bracket, by the code of its word and its arguments' kinds, and whether a word is an operator's.
// The kinds met are one number, a hexadecimal digit each: 1 n, 2 a, 3 l, 4 g, 5 d, 6 venu, 7 vned, 8 vbody, 9 vwan, a fenu, b fned, c fbody, d fwan.
// A kind is answered by its code, one less than its digit. As one number the kinds of a row are matched by a literal that shows them.
ghost use Rattle.std.specs.Prelude.{◌≡◌, Option, Some, None, eqb};
ghost use mir.Val.{has_key};
ghost use Rattle.sheets.specs.Table.{when, table};
ghost use Rattle.sheets.specs.code.rows.KindCodes.{RowKind, RowKindBeyond, row_num, row_codes, plain_codes};

use crate::reader::words;

// Rows of one word that give one kind: it, where the kinds met are those that one of them takes.
fn row(key: u64, takes: &[u64], gives: u8) -> Option<u8>
    ensures { result ≡ row_num takes.now gives key None }
{
    takes.contains(&key).then_some(gives)
}

// A row for each orientation, of a vector with that orientation.
fn vector(key: u64, enu: u64, ned: u64, body: u64, wan: u64) -> Option<u8>
    ensures { result ≡ when (eqb enu key) (Some 5) (when (eqb ned key) (Some 6) (when (eqb body key) (Some 7) (when (eqb wan key) (Some 8) None))) }
{
    row(key, &[enu], 5)
        .or(row(key, &[ned], 6))
        .or(row(key, &[body], 7))
        .or(row(key, &[wan], 8))
}

// The kind that the row for this word and these kinds gives.
pub fn kind_of_row(code: u64, key: u64) -> Option<u8>
    ensures { RowKind code key result }
{
    match code {
        words::DEG => row(key, &[0x1], 1),
        words::M => row(key, &[0x1], 2),
        words::GEO => row(key, &[0x333], 3),
        words::LLA => row(key, &[0x223], 4),
        words::TOGEO => row(key, &[0x5], 3),
        words::TOLLA => row(key, &[0x4], 4),
        words::VENU => row(key, &[0x333], 5),
        words::VNED => row(key, &[0x333], 6),
        words::VBODY => row(key, &[0x333], 7),
        words::VWAN => row(key, &[0x333], 8),
        words::AENU => row(key, &[0x223], 5),
        words::ANED => row(key, &[0x223], 6),
        words::ABODY => row(key, &[0x223], 7),
        words::AWAN => row(key, &[0x223], 8),
        words::ENU => row(key, &[0x4, 0x5], 9),
        words::NED => row(key, &[0x4, 0x5], 10),
        words::WAN => row(key, &[0x24, 0x25], 12),
        words::BODY => row(key, &[0x2224, 0x2225], 11),
        words::LOOK => row(key, &[0x442, 0x552], 11),
        _ => kind_by_orientation(code, key),
    }
}

// The operators that take a vector or a frame.
fn kind_by_orientation(code: u64, key: u64) -> Option<u8>
    ensures { RowKindBeyond plain_codes code key result }
{
    match code {
        words::TURN => row(key, &[0xa2, 0xb2, 0xd2], 12),
        words::MOVE => row(key, &[0xa6222, 0xb7222, 0xc8222, 0xd9222], 11),
        words::TO => vector(key, 0xa4, 0xb4, 0xc4, 0xd4),
        words::AT => row(key, &[0xa6, 0xb7, 0xc8, 0xd9], 3),
        words::NEG => vector(key, 0x6, 0x7, 0x8, 0x9),
        words::ADD => vector(key, 0x66, 0x77, 0x88, 0x99),
        words::SUB => vector(key, 0x66, 0x77, 0x88, 0x99),
        words::SCALE => vector(key, 0x61, 0x71, 0x81, 0x91),
        words::SWAP => row(key, &[0x6], 6).or(row(key, &[0x7], 5)),
        words::BEARING => row(key, &[0x6, 0x7, 0x8, 0x9], 1),
        words::ELEV => row(key, &[0x6, 0x7, 0x8, 0x9], 1),
        words::RANGE => row(key, &[0x6, 0x7, 0x8, 0x9], 2),
        words::ORIGIN => row(key, &[0xa, 0xb, 0xc, 0xd], 3),
        words::RZ => row(key, &[0xa, 0xb, 0xc, 0xd], 1),
        words::RY => row(key, &[0xa, 0xb, 0xc, 0xd], 1),
        words::RX => row(key, &[0xa, 0xb, 0xc, 0xd], 1),
        _ => None,
    }
}

// Whether the word with this code is an operator's. ry stands apart from rx and rz: codes that follow each other would be compiled to a range.
pub fn opens(code: u64) -> bool
    ensures { result ≡ has_key (row_codes table) code }
{
    match code {
        words::M | words::DEG | words::GEO | words::LLA | words::TOGEO | words::TOLLA => true,
        words::VENU | words::VNED | words::VWAN | words::VBODY => true,
        words::AENU | words::ANED | words::AWAN | words::ABODY => true,
        words::ENU | words::NED | words::WAN | words::BODY | words::LOOK => true,
        words::AT | words::TO | words::NEG | words::MOVE | words::TURN => true,
        words::ADD | words::SUB | words::SWAP | words::SCALE => true,
        words::RY | words::ELEV | words::RANGE | words::BEARING => true,
        words::RX | words::RZ | words::ORIGIN => true,
        _ => false,
    }
}
