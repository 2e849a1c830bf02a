// The words that the code knows, by their codes: a word's characters are digits to the base 37, 1 to 26 for a to z and 27 to 36 for 0 to 9.
// A constant has its word's name.

// The words of lines.
pub const ELLIPSOID: u64 = 18733023577577;

pub const WGS84: u64 = 43487611;

pub const LET: u64 = 16633;

pub const SHOW: u64 = 973937;

pub const TOTAL: u64 = 38270444;

pub const APART: u64 = 2686664;

// The operators, in the kind table's order.
pub const DEG: u64 = 5668;

pub const M: u64 = 13;

pub const GEO: u64 = 9783;

pub const LLA: u64 = 16873;

pub const TOGEO: u64 = 38252798;

pub const TOLLA: u64 = 38259888;

pub const VENU: u64 = 1121750;

pub const VNED: u64 = 1133721;

pub const VBODY: u64 = 41353556;

pub const VWAN: u64 = 1145904;

pub const AENU: u64 = 58037;

pub const ANED: u64 = 70008;

pub const ABODY: u64 = 1996175;

pub const AWAN: u64 = 82191;

pub const ENU: u64 = 7384;

pub const NED: u64 = 19355;

pub const WAN: u64 = 31538;

pub const BODY: u64 = 122014;

pub const LOOK: u64 = 628937;

pub const TURN: u64 = 1042489;

pub const MOVE: u64 = 679843;

pub const TO: u64 = 755;

pub const AT: u64 = 57;

pub const NEG: u64 = 19358;

pub const ADD: u64 = 1521;

pub const SUB: u64 = 26790;

pub const SCALE: u64 = 35762836;

pub const SWAP: u64 = 993947;

pub const BEARING: u64 = 5480971364;

pub const ELEV: u64 = 269900;

pub const RANGE: u64 = 33804981;

pub const ORIGIN: u64 = 1074360060;

pub const RZ: u64 = 692;

pub const RY: u64 = 691;

pub const RX: u64 = 690;

// The readings. The codes of r0 to r9 follow each other, and so do those of r10 to r15.
pub const R0: u64 = 693;

pub const R1: u64 = 694;

pub const R2: u64 = 695;

pub const R3: u64 = 696;

pub const R4: u64 = 697;

pub const R5: u64 = 698;

pub const R6: u64 = 699;

pub const R7: u64 = 700;

pub const R8: u64 = 701;

pub const R9: u64 = 702;

pub const R10: u64 = 25705;

pub const R11: u64 = 25706;

pub const R12: u64 = 25707;

pub const R13: u64 = 25708;

pub const R14: u64 = 25709;

pub const R15: u64 = 25710;
