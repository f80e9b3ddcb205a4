// Runs document 01's worked cases that are not proved as theorems, and prints the answers: the number of document 01's table
// and its values.
#![tactic(auto)]

ghost use Rattle.std.specs.Prelude.{◌≡◌, length};

use acceptance::Rejection;
use sweep::{End, SweepError};
use text_decoding::TextError;
use tree_check::TreeError;

// The file descriptor of standard output.
const STDOUT: i32 = 1;

// Description S.
const S: [u8; 216] = [
    2, 0, 0, 1, 0, 0, 3, 0, 0, 0, 0, 1, 0, 0, 7, 3, 0, 0, 0, 0, 4, 0, 0, 1, 0, 0, 0, 0, 0, 0, 0, 0,
    0, 0, 0, 0, 0, 0, 0, 0, 0, 0, 0, 0, 0, 0, 0, 0, 1, 0, 0, 1, 0, 0, 1, 1, 240, 0, 0, 0, 0, 0, 0,
    0, 16, 0, 0, 0, 0, 0, 0, 0, 0, 0, 0, 0, 0, 0, 0, 0, 1, 1, 0, 2, 1, 0, 1, 1, 240, 0, 0, 0, 0, 0,
    0, 0, 32, 0, 0, 0, 0, 0, 0, 0, 0, 0, 0, 0, 0, 0, 0, 0, 2, 1, 0, 4, 3, 0, 1, 1, 255, 0, 0, 0, 0,
    0, 0, 0, 31, 0, 0, 0, 0, 0, 0, 0, 0, 0, 0, 0, 0, 0, 0, 0, 0, 0, 0, 1, 7, 0, 3, 0, 0, 1, 0, 0,
    0, 0, 0, 0, 1, 0, 0, 1, 8, 0, 1, 1, 0, 0, 0, 5, 0, 0, 1, 1, 0, 0, 0, 5, 5, 0, 1, 1, 0, 0, 0, 2,
    10, 0, 1, 2, 0, 0, 0, 4, 12, 0, 16, 0, 105, 110, 99, 32, 114, 97, 100, 100, 32, 114, 44, 32,
    104, 97, 108, 116,
];

// A tree for table 1 of S, by bits 7 down to 0, 19 nodes.
const TREE: [u8; 78] = [
    19, 0, 1, 7, 18, 0, 1, 6, 17, 0, 1, 5, 14, 0, 1, 4, 5, 0, 0, 0, 255, 255, 1, 3, 7, 0, 0, 0, 1,
    0, 1, 2, 9, 0, 0, 0, 1, 0, 1, 1, 11, 0, 0, 0, 1, 0, 1, 0, 13, 0, 0, 0, 1, 0, 0, 0, 3, 0, 1, 4,
    16, 0, 0, 0, 2, 0, 0, 0, 255, 255, 0, 0, 255, 255, 0, 0, 255, 255,
];

fn line(text: &[u8]) {
    io::write_all(STDOUT, text);
}

fn number(n: usize) {
    io::write_all(STDOUT, b" ");
    io::print_decimal(STDOUT, n as u64);
}

fn rejected(rejection: Rejection) {
    number(rejection.answer_number() as usize);
    number(rejection.first_value());
    number(rejection.second_value());
}

fn judge(text: &[u8], description: &[u8]) {
    line(text);
    match acceptance::accept(description) {
        Ok(_) => number(0),
        Err(rejection) => rejected(rejection),
    }
    line(b"\n");
}

fn examine(text: &[u8], tree: &[u8]) {
    line(text);
    let s = S;
    match tree_check::tree_check(&s, 1, tree) {
        Ok(None) => {
            number(0);
            number(0);
        }
        Ok(Some(leaf)) => {
            number(0);
            number(1);
            number(leaf.node);
            number((leaf.word & 255) as usize);
        }
        Err(TreeError::Rejected(rejection)) => rejected(rejection),
        Err(TreeError::NoTable(t)) => {
            number(12);
            number(t as usize);
        }
        Err(TreeError::BadTree(node)) => {
            number(11);
            number(node);
        }
    }
    line(b"\n");
}

// S, and one byte more.
fn longer() -> [u8; 217]
    ensures { 217 ≡ length result }
{
    let s = S;
    let mut d = [0u8; 217];
    for i in 0..216 {
        d[i] = s[i];
    }
    d
}

// Every section full: fields of one bit, empty names, constructors without patterns, pieces of one letter, blanks.
fn longest() -> [u8; 54284]
    ensures { 54284 ≡ length result }
{
    let mut d = [0u8; 54284];
    d[1] = 1;
    d[2051] = 4;
    d[5125] = 2;
    d[21511] = 8;
    d[29705] = 16;
    d[46091] = 32;
    for i in 0..256 {
        d[8 * i + 3] = 1;
    }
    for i in 0..4096 {
        d[4 * i + 29707] = 1;
    }
    for i in 0..8192 {
        d[i + 46092] = 32;
    }
    d
}

fn descriptions() {
    let s = S;
    judge(b"S:", &s);
    judge(b"S cut to 215 bytes:", &s[..215]);
    judge(b"S and one byte more:", &longer());
    judge(b"empty:", &s[..0]);
    let d = longest();
    judge(b"the longest:", &d);
    judge(b"the longest, cut by one:", &d[..54283]);
}

// Of a wrong leaf: the node, and the first byte of the example.
fn trees() {
    let tree = TREE;
    examine(b"table 1 by bits 7 down to 0:", &tree);
    let mut changed = TREE;
    changed[56] = 1;
    examine(b"its leaf for 1F changed to 1:", &changed);
}

// An instruction of S as text.
fn read(name: &[u8], code: &[u8]) {
    line(name);
    let s = S;
    let mut text = [0u8; 64];
    match text_decoding::decode_text(&s, 0, 0, code, &mut text) {
        Ok(count) => {
            number(0);
            line(b" ");
            if count <= 64 {
                line(&text[..count]);
            }
        }
        Err(TextError::Rejected(rejection)) => rejected(rejection),
        Err(TextError::Refused(_)) => line(b" refused"),
        Err(TextError::TooLong) => number(10),
        Err(TextError::NoRoom) => number(9),
    }
    line(b"\n");
}

fn why_ended(why: End) {
    match why {
        End::Used => line(b" used"),
        End::Full => line(b" full"),
        End::Short => line(b" short"),
    }
}

// A sweep of S over its example's code, with room for so many numbers at most 32: the end, the rows and the next byte.
fn sweep_of(name: &[u8], address: u32, alignment: u32, room: usize) {
    line(name);
    let s = S;
    let code = [0x13u8, 0x30, 0x1f, 0x25];
    let mut rows = [0i64; 32];
    if room <= 32 {
        match sweep::sweep(&s, 0, address, alignment, &code, &mut rows[..room]) {
            Ok(swept) => {
                why_ended(swept.why);
                number(swept.rows);
                number(swept.next);
            }
            Err(SweepError::Rejected(rejection)) => rejected(rejection),
            Err(SweepError::NoAlignment(n)) => {
                number(12);
                number(n as usize);
            }
        }
    }
    line(b"\n");
}

fn texts() {
    read(b"25 00:", &[0x25, 0x00]);
    read(b"13, code behind it:", &[0x13, 0x25, 0xfe]);
}

fn sweeps() {
    sweep_of(b"13 30 1F 25, room for four rows:", 0, 1, 16);
    sweep_of(
        b"13 30 1F 25, room for two rows and three numbers:",
        0,
        1,
        11,
    );
    sweep_of(b"13 30 1F 25, no room:", 0, 1, 0);
    sweep_of(b"13 30 1F 25, alignment 2:", 0, 2, 16);
    sweep_of(b"13 30 1F 25 at 3, alignment 4:", 3, 4, 16);
    sweep_of(b"13 30 1F 25, alignment 3, no room:", 0, 3, 0);
}

fn main() {
    descriptions();
    trees();
    texts();
    sweeps();
}
