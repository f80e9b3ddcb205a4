// The description's format: its records, the numbers that limit it, and the cursor that reads it.
#![tactic(auto)]

ghost use Rattle.std.specs.Prelude.{◌≡◌, ℕ, ◌+◌, ◌≤◌, List, length};
ghost use Rattle.format.specs.Bytes.{byte_at, u16_at, u32_at, u64_at};
ghost use Rattle.format.specs.Numbers.{field_bytes, name_bytes, constructor_bytes, operand_bytes, piece_bytes, letter_bytes, expression_bytes};
ghost use Rattle.format.specs.Record.{field_at, name_at, pattern_at, constructor_at, operand_at, piece_at, place_at, read_at};
ghost use Rattle.format.specs.Layout.{section_at};

// The most records that a section holds, and the least that section 3 holds.
pub const FIELDS: u16 = 256;

pub const NAMES: u16 = 1024;

pub const CONSTRUCTORS: u16 = 512;

pub const LEAST_CONSTRUCTORS: u16 = 1;

pub const OPERANDS: u16 = 2048;

pub const PIECES: u16 = 4096;

pub const LETTERS: u16 = 8192;

pub const EXPRESSIONS: u16 = 256;

// An expression's steps at most.
pub const STEPS: u8 = 16;

// A count's bytes, and a record's.
pub const COUNT_BYTES: usize = 2;

pub const FIELD_BYTES: u8 = 8;

pub const NAME_BYTES: u8 = 3;

pub const CONSTRUCTOR_BYTES: u8 = 32;

pub const OPERAND_BYTES: u8 = 4;

pub const PIECE_BYTES: u8 = 4;

pub const LETTER_BYTES: u8 = 1;

pub const STEP_BYTES: u8 = 9;

pub const EXPRESSION_BYTES: u8 = 145;

// A field's bytes at most; the look that shows names, and the bits of a field that has it at most.
pub const WIDEST: u8 = 4;

pub const NAMES_LOOK: u8 = 4;

pub const NAMES_BITS: usize = 8;

// A letter of the text lies between these.
pub const FIRST_LETTER: u8 = 32;

pub const LAST_LETTER: u8 = 126;

// How many values a byte has.
pub const BYTE_VALUES: usize = 256;

// The bytes that a pattern masks at most.
pub const PATTERN_BYTES: u8 = 8;

// Tables are numbered below TABLES. An instruction has LONGEST bytes at most.
pub const TABLES: u8 = 64;

pub const LONGEST: u8 = 16;

// A constructor's operands and pieces, and an operand's offset, at most.
pub const OPERANDS_EACH: u8 = 8;

pub const PIECES_EACH: u8 = 16;

pub const FARTHEST: u8 = 15;

// An instruction's rows at most, the numbers of one, and the bytes of a text at most.
pub const ROWS: usize = 32;

pub const ROW_NUMBERS: usize = 4;

pub const TEXT: usize = 256;

// The numbers of a sweep's row.
pub const SWEEP_NUMBERS: usize = 4;

// The record number of a fault that is a section's own.
pub const SECTION: usize = 65535;

#[derive(Clone, Copy)]
pub struct Field {
    pub source: u8,
    pub width: u8,
    pub order: u8,
    pub low: u8,
    pub high: u8,
    pub look: u8,
    pub first: u16,
}

#[derive(Clone, Copy)]
pub struct Name {
    pub offset: u16,
    pub length: u8,
}

// Byte i of the byte mask is bits 8i to 8i + 7 of `mask`, and so for the value.
#[derive(Clone, Copy, PartialEq, Eq)]
pub struct Pattern {
    pub mask: u64,
    pub value: u64,
    pub contextmask: u32,
    pub contextvalue: u32,
}

// A constructor's operands, or its pieces: so many records of their section from the first on.
#[derive(Clone, Copy)]
pub struct Range {
    pub first: u16,
    pub count: u8,
}

#[derive(Clone, Copy)]
pub struct Constructor {
    pub table: u8,
    pub minimum: u8,
    pub pattern: Pattern,
    pub operands: Range,
    pub pieces: Range,
}

#[derive(Clone, Copy)]
pub struct Operand {
    pub kind: u8,
    pub index: u8,
    pub anchor: u8,
    pub offset: u8,
}

#[derive(Clone, Copy)]
pub struct Piece {
    pub kind: u8,
    pub n: u8,
    pub offset: u16,
}

// A step of an expression.
#[derive(Clone, Copy)]
pub struct Step {
    pub kind: u8,
    pub value: u64,
}

// Where a section's records start, and how many there are.
#[derive(Clone, Copy)]
pub struct Section {
    pub start: usize,
    pub count: usize,
}

#[derive(Clone, Copy)]
pub struct Layout {
    pub fields: Section,
    pub names: Section,
    pub constructors: Section,
    pub operands: Section,
    pub pieces: Section,
    pub text: Section,
    pub expressions: Section,
}

// A description's fault: the section, and the record's number or SECTION.
#[derive(Clone, Copy)]
pub struct Fault {
    pub section: usize,
    pub number: usize,
}

// A place in the description.
#[derive(Clone, Copy)]
pub struct Cursor {
    pub at: usize,
}

// Where an expression stands.
#[derive(Clone, Copy)]
pub struct Place {
    pub at: usize,
}

// What was read at a cursor, and the cursor behind it.
#[derive(Clone, Copy)]
pub struct Read<T> {
    pub value: T,
    pub next: Cursor,
}

pub fn word(s: &[u8], at: usize) -> u16
    requires { at + 2 ≤ length s.now }
    ensures { result ≡ u16_at s.now at }
{
    u16::from_le_bytes([s[at], s[at + 1]])
}

pub fn long(s: &[u8], at: usize) -> u32
    requires { at + 4 ≤ length s.now }
    ensures { result ≡ u32_at s.now at }
{
    u32::from(word(s, at)) + 65536 * u32::from(word(s, at + 2))
}

pub fn quad(s: &[u8], at: usize) -> u64
    requires { at + 8 ≤ length s.now }
    ensures { result ≡ u64_at s.now at }
{
    u64::from(long(s, at)) + 4294967296 * u64::from(long(s, at + 4))
}

// The pattern of the constructor at this place.
pub fn pattern_at(s: &[u8], at: usize) -> Pattern
    requires { at + constructor_bytes ≤ length s.now }
    ensures { result ≡ pattern_at s.now at }
{
    Pattern {
        mask: quad(s, at + 2),
        value: quad(s, at + 10),
        contextmask: long(s, at + 18),
        contextvalue: long(s, at + 22),
    }
}

impl Cursor {
    // A section's count and place, if the count is there, in its limits, and followed by its records.
    #[tactic(auto, using(crate::proofs::Product::small), unfolding(crate::specs::Layout::section_at))]
    pub fn count(self, s: &[u8], least: u16, most: u16, size: u8) -> Option<Read<Section>>
        ensures { result ≡ section_at s.now self.at least most size }
    {
        let at = self.at;
        if s.len() < COUNT_BYTES {
            return None;
        }
        if s.len() - COUNT_BYTES < at {
            return None;
        }
        let n = word(s, at);
        let start = at + COUNT_BYTES;
        let end = start + (n as usize) * (size as usize);
        let whole = (least <= n) & (n <= most) & (end <= s.len());
        if whole {
            Some(Read {
                value: Section {
                    start,
                    count: n as usize,
                },
                next: Cursor { at: end },
            })
        } else {
            None
        }
    }

    pub fn read<T: Record>(self, s: &[u8]) -> Read<T>
        requires { self.at + T.BYTES ≤ length s.now }
        ensures { result ≡ read_at T.reading T.BYTES s.now self.at }
    {
        let at = self.at;
        Read {
            value: T::read(s, at),
            next: Cursor { at: at + T::BYTES },
        }
    }
}

// What a section holds, so many bytes for each.
pub trait Record {
    // The record at a place.
    ghost reading: { List ℕ → ℕ → Self };

    ghost BYTES: { ℕ };

    const BYTES: usize;

    fn read(s: &[u8], at: usize) -> Self
        requires { at + BYTES ≤ length s.now }
        ensures { result ≡ reading s.now at };
}

impl Record for Field {
    ghost reading = { field_at };

    ghost BYTES = { field_bytes };

    const BYTES: usize = FIELD_BYTES as usize;

    fn read(s: &[u8], at: usize) -> Field {
        Field {
            source: s[at],
            width: s[at + 1],
            order: s[at + 2],
            low: s[at + 3],
            high: s[at + 4],
            look: s[at + 5],
            first: word(s, at + 6),
        }
    }
}

impl Record for Name {
    ghost reading = { name_at };

    ghost BYTES = { name_bytes };

    const BYTES: usize = NAME_BYTES as usize;

    fn read(s: &[u8], at: usize) -> Name {
        Name {
            offset: word(s, at),
            length: s[at + 2],
        }
    }
}

impl Record for Constructor {
    ghost reading = { constructor_at };

    ghost BYTES = { constructor_bytes };

    const BYTES: usize = CONSTRUCTOR_BYTES as usize;

    fn read(s: &[u8], at: usize) -> Constructor {
        let operands = Range {
            count: s[at + 26],
            first: word(s, at + 27),
        };
        let pieces = Range {
            count: s[at + 29],
            first: word(s, at + 30),
        };
        Constructor {
            table: s[at],
            minimum: s[at + 1],
            pattern: pattern_at(s, at),
            operands,
            pieces,
        }
    }
}

impl Record for Operand {
    ghost reading = { operand_at };

    ghost BYTES = { operand_bytes };

    const BYTES: usize = OPERAND_BYTES as usize;

    fn read(s: &[u8], at: usize) -> Operand {
        Operand {
            kind: s[at],
            index: s[at + 1],
            anchor: s[at + 2],
            offset: s[at + 3],
        }
    }
}

impl Record for Piece {
    ghost reading = { piece_at };

    ghost BYTES = { piece_bytes };

    const BYTES: usize = PIECE_BYTES as usize;

    fn read(s: &[u8], at: usize) -> Piece {
        Piece {
            kind: s[at],
            n: s[at + 1],
            offset: word(s, at + 2),
        }
    }
}

// A letter of the text.
impl Record for u8 {
    ghost reading = { byte_at };

    ghost BYTES = { letter_bytes };

    const BYTES: usize = LETTER_BYTES as usize;

    fn read(s: &[u8], at: usize) -> u8 {
        s[at]
    }
}

// An expression is read by its place, step by step.
impl Record for Place {
    ghost reading = { place_at };

    ghost BYTES = { expression_bytes };

    const BYTES: usize = EXPRESSION_BYTES as usize;

    fn read(_s: &[u8], at: usize) -> Place {
        Place { at }
    }
}
