// The names that no program may declare.
ghost use Rattle.std.specs.Prelude.{◌≡◌, T};
ghost use Rattle.numbers.specs.Tests.{any_of, eq_list};
ghost use Rattle.program.specs.Names.{reserved, free_name};
ghost use Rattle.program.specs.Code.{name_of, names_of, rising};

use crate::names;
use crate::names::NAME;

// The words of the drives that have two characters, in the order of the alphabet.
const DRIVE_WORDS: [[u8; NAME]; 160] = [
    *b"AB", *b"AF", *b"AJ", *b"AL", *b"AO", *b"AS", *b"AT", *b"AV", *b"BD", *b"BE", *b"BL", *b"BM",
    *b"BP", *b"BR", *b"BY", *b"C1", *b"C2", *b"CB", *b"CE", *b"CF", *b"CK", *b"CL", *b"CP", *b"CS",
    *b"CW", *b"D1", *b"D2", *b"D3", *b"D4", *b"D5", *b"DB", *b"DC", *b"DE", *b"DG", *b"DJ", *b"DN",
    *b"DT", *b"EE", *b"EF", *b"EL", *b"EM", *b"ER", *b"ES", *b"EX", *b"F1", *b"F2", *b"F3", *b"F4",
    *b"F5", *b"F6", *b"F7", *b"F8", *b"FC", *b"FD", *b"FL", *b"FM", *b"FS", *b"FT", *b"HC", *b"HF",
    *b"HI", *b"HM", *b"HT", *b"I1", *b"I2", *b"I3", *b"I4", *b"I5", *b"I6", *b"I7", *b"I8", *b"I9",
    *b"IC", *b"IF", *b"IN", *b"IP", *b"IS", *b"IT", *b"IV", *b"JE", *b"LB", *b"LD", *b"LG", *b"LK",
    *b"LL", *b"LM", *b"LO", *b"LR", *b"LS", *b"LT", *b"MA", *b"MD", *b"MF", *b"MP", *b"MR", *b"MS",
    *b"MT", *b"MU", *b"MV", *b"NE", *b"O1", *b"O2", *b"O3", *b"OE", *b"OF", *b"OS", *b"OT", *b"PC",
    *b"PF", *b"PG", *b"PI", *b"PK", *b"PM", *b"PN", *b"PR", *b"PS", *b"PW", *b"PY", *b"QD", *b"R1",
    *b"R2", *b"R3", *b"R4", *b"RA", *b"RC", *b"RD", *b"RS", *b"RT", *b"SA", *b"SC", *b"SF", *b"SI",
    *b"SL", *b"SM", *b"SN", *b"SQ", *b"ST", *b"SU", *b"TA", *b"TC", *b"TD", *b"TE", *b"TG", *b"TI",
    *b"TM", *b"TP", *b"TQ", *b"TR", *b"TS", *b"TT", *b"UG", *b"UV", *b"VA", *b"VC", *b"VF", *b"VI",
    *b"VM", *b"VR", *b"VT", *b"WT",
];

// Whether a name stands in a table whose names rise.
fn is_among(table: &[[u8; NAME]], key: u16) -> bool
    requires { T (rising table.now) }
    ensures { result ≡ any_of (eq_list (name_of key)) (names_of table.now) }
{
    table.binary_search(&key.to_le_bytes()).is_ok()
}

// A word of the drives.
pub fn is_reserved(key: u16) -> bool
    ensures { result ≡ reserved (name_of key) }
{
    is_among(&DRIVE_WORDS, key)
}

// What a program may declare.
pub fn is_free_name(key: u16) -> bool
    ensures { result ≡ free_name (name_of key) }
{
    names::has_two_characters(key) & !is_reserved(key)
}
