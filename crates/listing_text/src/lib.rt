// A listing in parts: as many whole lines as fit, from a place on.
#![tactic(auto)]

ghost use Rattle.std.specs.Prelude.{true, ◌≡◌, ◌+◌, min, length};
ghost use Rattle.alignment.specs.Alignment.{is_alignment};
ghost use Rattle.format.specs.Check.{WellFormed};
ghost use Rattle.listing_text.specs.Listing.{split_of, no_lines, fault_window, part_of, input_window, list_of, list_after};
ghost use Rattle.printing.specs.Writing.{over};
ghost use Rattle.listing_text.specs.Windows.{Lists, ListsIn};
ghost use Rattle.listing_text.specs.declared.ListError.TheVariants.{Rejected};

use acceptance::Rejection;
use format::Layout;

// How many bytes and lines were written, the next place, and whether the text is what ended them.
#[derive(Clone, Copy, PartialEq, Eq)]
pub struct Part {
    pub bytes: usize,
    pub lines: usize,
    pub next: usize,
    pub full: bool,
}

// Why nothing is listed: the description is no such one, or there is no such alignment.
#[derive(Clone, Copy)]
pub enum ListError {
    Rejected(Rejection),
    NoAlignment(u32),
}

impl From<Rejection> for ListError {
    ghost from_gives = { λ x e. e ≡ Rejected x };

    fn from(rejection: Rejection) -> ListError {
        ListError::Rejected(rejection)
    }
}

// The description is input[start..end], the code input[end..last].
#[derive(Clone, Copy, PartialEq, Eq)]
pub struct Split {
    pub start: usize,
    pub end: usize,
    pub last: usize,
}

// The bytes of code that the program lists at most; and of the whole input: the length's two, a description's, the code's.
pub const CODE: usize = 4096;

pub const INPUT: usize = 2 + 65535 + CODE;

fn list_in(
    desc: &[u8],
    layout: Layout,
    context: u32,
    address: u32,
    alignment: usize,
    code: &[u8],
    from: usize,
    out: &mut [u8],
) -> Part
    requires { WellFormed desc.now layout × (is_alignment alignment ≡ true) }
    ensures { ListsIn desc.now layout context address alignment code.now from out.old result out.new }
{
    let mut fixed = setting::fill(desc, layout, true);
    let mut line = [0u8; listing_parts::LINE];
    let mut at = from;
    let mut bytes = 0;
    let mut lines = 0;
    while at < code.len() {
        let shown = listing_lines::line_at(
            desc, &mut fixed, context, address, alignment, code, at, &mut line,
        );
        let size = shown.size;
        let put = printing::put_bytes(&line[..size], &mut out[bytes..]);
        let Some(count) = put else {
            return Part {
                bytes,
                lines,
                next: at,
                full: true,
            };
        };
        bytes += count;
        lines += 1;
        at = shown.next;
    }
    Part {
        bytes,
        lines,
        next: at,
        full: false,
    }
}

// Any bytes as the description and as the code, any context, address and alignment, any place to go on from, any room for text.
pub fn list(
    desc: &[u8],
    context: u32,
    address: u32,
    alignment: u32,
    code: &[u8],
    from: usize,
    out: &mut [u8],
) -> Result<Part, ListError>
    ensures value { result ≡ list_of desc.now context address alignment code.now from (length out.old) }
    ensures out_after { out.new ≡ list_after desc.now context address alignment code.now from out.old }
{
    let layout = acceptance::accept(desc)?;
    if !alignment::is_alignment(alignment) {
        return Err(ListError::NoAlignment(alignment));
    }
    let unit = alignment as usize;
    let part = list_in(desc, layout, context, address, unit, code, from, out);
    Ok(part)
}

// The two parts of the program's input.
fn take_apart(input: &[u8]) -> Split
    ensures { result ≡ split_of input.now }
{
    let n = input.len();
    if n < 2 {
        return Split {
            start: n,
            end: n,
            last: n,
        };
    }
    let long = format::word(input, 0) as usize;
    let end = (2 + long).min(n);
    let last = (2 + long + CODE).min(n);
    Split {
        start: 2,
        end,
        last,
    }
}

// The line of a bad description, at place 0.
fn list_fault(rejection: Rejection, from: usize, out: &mut [u8]) -> Part
    ensures { Lists (fault_window rejection (length out.old) from) out.old result out.new }
{
    if from != 0 {
        return Part {
            bytes: 0,
            lines: 0,
            next: from,
            full: false,
        };
    }
    let line = listing_parts::fault_line(rejection);
    let text = line.bytes;
    let size = line.size;
    match printing::put_bytes(&text[..size], out) {
        Some(count) => Part {
            bytes: count,
            lines: 1,
            next: 1,
            full: false,
        },
        None => Part {
            bytes: 0,
            lines: 0,
            next: 0,
            full: true,
        },
    }
}

// Nothing is listed yet.
pub fn first_part() -> Part
    ensures { result ≡ part_of (no_lines 0 true) }
{
    Part {
        bytes: 0,
        lines: 0,
        next: 0,
        full: true,
    }
}

// What the listing program prints for any input, from a place on: as many whole lines as fit.
pub fn list_input(input: &[u8], from: usize, out: &mut [u8]) -> Part
    ensures value { result ≡ part_of (input_window input.now (length out.old) from) }
    ensures out_after { out.new ≡ over (input_window input.now (length out.old) from).text out.old }
{
    let split = take_apart(input);
    let start = split.start;
    let end = split.end;
    let last = split.last;
    let desc = &input[start..end];
    let code = &input[end..last];
    match acceptance::accept(desc) {
        Ok(layout) => list_in(desc, layout, 0, 0, 1, code, from, out),
        Err(rejection) => list_fault(rejection, from, out),
    }
}
