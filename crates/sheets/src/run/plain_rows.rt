// The rows over kinds without an orientation, a function for each list of kinds, P being g or d: the arguments lie as floats, 21 places apart, and the value is laid where the first one lies.
// So each row is called at values whose kinds are known. P goes by its code, as kinds do everywhere (check/names.rt).
ghost use Rattle.std.specs.Prelude.{◌≡◌, [], ◌∷◌, ◌+◌, ◌≤◌};
ghost use Rattle.sheets.specs.Kinds.{number, angle, len};
ghost use Rattle.sheets.specs.code.rows.KindCodes.{kind_at};
ghost use Rattle.sheets.specs.code.run.Evaluating.{RowLaid, orientation_in};

use crate::reader::words;
use crate::rows::frame_rows;
use crate::run::bracket::Bracket;
use crate::run::floats::{angle_at, length_at, number_at, value_at};
use crate::run::laid::laid;
use crate::{Evaluated, Halt, rows};
use frames::Orientation;

// n: deg, m.
#[inline(always)]
pub fn number_row(b: Bracket, floats: &mut [f64; 2940]) -> Evaluated
    ensures { RowLaid b.e b.code (number ∷ []) floats.old b.top result floats.new }
{
    let number = number_at(floats, b.top);
    match b.code {
        words::DEG => laid(rows::apply_deg(b.e, number), floats, b.top),
        words::M => laid(rows::apply_m(b.e, number), floats, b.top),
        _ => Err(Halt::Sticks),
    }
}

// The orientation in a word: in venu to vwan, and in aenu to awan.
fn orientation_in(code: u64) -> Orientation
    ensures { result ≡ orientation_in code }
{
    match code {
        words::VENU | words::AENU => Orientation::Enu,
        words::VNED | words::ANED => Orientation::Ned,
        words::VBODY | words::ABODY => Orientation::Body,
        _ => Orientation::Wan,
    }
}

// l l l: geo, and venu to vwan.
pub fn lengths_row(b: Bracket, floats: &mut [f64; 2940]) -> Evaluated
    ensures { RowLaid b.e b.code (len ∷ len ∷ len ∷ []) floats.old b.top result floats.new }
{
    let x = length_at(floats, b.top);
    let y = length_at(floats, b.top + 21);
    let z = length_at(floats, b.top + 42);
    match b.code {
        words::GEO => laid(rows::apply_geo(b.e, x, y, z), floats, b.top),
        words::VENU | words::VNED | words::VBODY | words::VWAN => {
            let o = orientation_in(b.code);
            laid(rows::apply_vector(b.e, o, x, y, z), floats, b.top)
        }
        _ => Err(Halt::Sticks),
    }
}

// a a l: lla of latitude, longitude, height, and aenu to awan of azimuth, elevation, range.
pub fn aer_row(b: Bracket, floats: &mut [f64; 2940]) -> Evaluated
    ensures { RowLaid b.e b.code (angle ∷ angle ∷ len ∷ []) floats.old b.top result floats.new }
{
    let azimuth = angle_at(floats, b.top);
    let elevation = angle_at(floats, b.top + 21);
    let range = length_at(floats, b.top + 42);
    match b.code {
        words::LLA => laid(
            rows::apply_lla(b.e, azimuth, elevation, range),
            floats,
            b.top,
        ),
        words::AENU | words::ANED | words::ABODY | words::AWAN => {
            let o = orientation_in(b.code);
            laid(
                rows::apply_aer(b.e, o, azimuth, elevation, range),
                floats,
                b.top,
            )
        }
        _ => Err(Halt::Sticks),
    }
}

// P: togeo, tolla, enu, ned. P is the kind with this code, g or d; the row itself answers togeo of g and tolla of d.
pub fn position_row(b: Bracket, kind: u8, floats: &mut [f64; 2940]) -> Evaluated
    requires { (3 ≤ kind) × (kind ≤ 4) }
    ensures { RowLaid b.e b.code (kind_at kind ∷ []) floats.old b.top result floats.new }
{
    let position = value_at(kind, floats, b.top);
    match b.code {
        words::TOGEO => laid(frame_rows::apply_togeo(b.e, position), floats, b.top),
        words::TOLLA => laid(frame_rows::apply_tolla(b.e, position), floats, b.top),
        words::ENU | words::NED => {
            let ned = b.code == words::NED;
            laid(frame_rows::apply_level(b.e, ned, position), floats, b.top)
        }
        _ => Err(Halt::Sticks),
    }
}

// a P: wan.
pub fn wan_row(b: Bracket, kind: u8, floats: &mut [f64; 2940]) -> Evaluated
    ensures { RowLaid b.e b.code (angle ∷ kind_at kind ∷ []) floats.old b.top result floats.new }
{
    let azimuth = angle_at(floats, b.top);
    let position = value_at(kind, floats, b.top + 21);
    if b.code == words::WAN {
        return laid(frame_rows::apply_wan(b.e, azimuth, position), floats, b.top);
    }
    Err(Halt::Sticks)
}

// a a a P: body.
pub fn body_row(b: Bracket, kind: u8, floats: &mut [f64; 2940]) -> Evaluated
    ensures { RowLaid b.e b.code (angle ∷ angle ∷ angle ∷ kind_at kind ∷ []) floats.old b.top result floats.new }
{
    let yaw = angle_at(floats, b.top);
    let pitch = angle_at(floats, b.top + 21);
    let roll = angle_at(floats, b.top + 42);
    let position = value_at(kind, floats, b.top + 63);
    if b.code == words::BODY {
        return laid(
            frame_rows::apply_body(b.e, yaw, pitch, roll, position),
            floats,
            b.top,
        );
    }
    Err(Halt::Sticks)
}

// P P a: look.
pub fn look_row(b: Bracket, kind: u8, floats: &mut [f64; 2940]) -> Evaluated
    ensures { RowLaid b.e b.code (kind_at kind ∷ kind_at kind ∷ angle ∷ []) floats.old b.top result floats.new }
{
    let position = value_at(kind, floats, b.top);
    let target = value_at(kind, floats, b.top + 21);
    let roll = angle_at(floats, b.top + 42);
    if b.code == words::LOOK {
        return laid(
            frame_rows::apply_look(b.e, position, target, roll),
            floats,
            b.top,
        );
    }
    Err(Halt::Sticks)
}
