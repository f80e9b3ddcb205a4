// One line of a listing: the address, then the instruction's text, or what stands for it.
#![tactic(auto)]

ghost use Rattle.std.specs.Prelude.{◌≡◌, ◌+◌, ◌<◌, ◌≤◌, length};
ghost use Rattle.format.specs.Numbers.{longest_text};
ghost use Rattle.printing.specs.Writing.{over};
ghost use Rattle.setting.specs.Fixed.{Fixed};
ghost use Rattle.text.specs.Places.{SoundRows};
ghost use Rattle.text.specs.Prints.{described};
ghost use Rattle.listing_parts.specs.Parts.{line_bytes};
ghost use Rattle.listing_parts.specs.Put.{Put, GapBytes};
ghost use Rattle.listing_lines.specs.Line.{refused_text, refused_next, line_at, line_shown};
ghost use Rattle.listing_lines.specs.Put.{GapAt, PlaceOf, ShowsInstruction, Shows, ShowsText, told_at};

use decoding_spec::Refusal;
use setting::Prepared;

// How many bytes are shown at a place, and the next place.
#[derive(Clone, Copy)]
pub struct Shown {
    pub size: usize,
    pub next: usize,
}

// A place that gives no instruction, in code of so many bytes; the gap there would have these.
fn show_refusal(refusal: Refusal, gap: &[u8], at: usize, end: usize, out: &mut [u8]) -> Shown
    requires { GapBytes gap.now out.old × (at + length gap.now ≤ end) }
    ensures { Put (refused_text gap.now refusal) out.old out.new result.size × (result.next ≡ refused_next at (length gap.now) end refusal) }
{
    if refusal.is_short() {
        return Shown {
            size: listing_parts::append(b".short", out, 0),
            next: end,
        };
    }
    Shown {
        size: listing_parts::put_gap(gap, out),
        next: at + gap.len(),
    }
}

// An instruction's text, or that it is too long for a line: there is room for the longest.
fn show_text(desc: &[u8], fixed: &Prepared, rows: &[i64], used: usize, out: &mut [u8]) -> usize
    requires fixed { Fixed desc.now fixed.now × (length out.old ≡ longest_text) }
    requires sound_rows { SoundRows (described desc.now fixed.now) rows.now used × (0 < used) }
    ensures { ShowsText desc.now fixed.now rows.now out.old out.new result }
{
    let line = text::print_text(desc, fixed, rows, used, out);
    match line {
        Ok(count) => count,
        Err(_) => listing_parts::append(b".long", out, 0),
    }
}

// The instruction at a place; a gap there would have these bytes.
fn show_instruction(
    desc: &[u8],
    fixed: &mut Prepared,
    context: u32,
    address: u32,
    code: &[u8],
    at: usize,
    gap: &[u8],
    out: &mut [u8],
) -> Shown
    requires { GapAt desc.now fixed.old code.now at gap.now × (length out.old ≡ longest_text) }
    ensures { ShowsInstruction desc.now fixed.old code.now context address at gap.now out.old result out.new fixed.new }
{
    let mut rows = [0i64; walk_steps::SCRATCH];
    let walked = instructions::decode_at(desc, fixed, context, address, code, at, &mut rows);
    match walked {
        Ok(walk) => Shown {
            size: show_text(desc, fixed, &rows, walk.state.used, out),
            next: at + walk.length,
        },
        Err(refusal) => show_refusal(refusal, gap, at, code.len(), out),
    }
}

fn show(
    desc: &[u8],
    fixed: &mut Prepared,
    context: u32,
    address: u32,
    alignment: usize,
    code: &[u8],
    at: usize,
    out: &mut [u8],
) -> Shown
    requires { PlaceOf desc.now fixed.old alignment code.now at × (length out.old ≡ longest_text) }
    ensures { Shows desc.now fixed.old code.now context address alignment at out.old result out.new fixed.new }
{
    let here = (address as usize) + at;
    let end = at + alignment::gap_length(alignment, here, code.len() - at);
    let gap = &code[at..end];
    if alignment::is_multiple(alignment, here) {
        return show_instruction(desc, fixed, context, address, code, at, gap, out);
    }
    Shown {
        size: listing_parts::put_gap(gap, out),
        next: end,
    }
}

// The line at a place of the code, whose byte 0 has this address, over the first bytes of a buffer.
pub fn line_at(
    desc: &[u8],
    fixed: &mut Prepared,
    context: u32,
    address: u32,
    alignment: usize,
    code: &[u8],
    at: usize,
    line: &mut [u8],
) -> Shown
    requires { PlaceOf desc.now fixed.old alignment code.now at × (length line.old ≡ line_bytes) }
    ensures value { result ≡ line_shown (described desc.now fixed.old) context address alignment code.now at }
    ensures line_after { line.new ≡ over (line_at (described desc.now fixed.old) context address alignment code.now at) line.old }
    ensures fixed_after { fixed.new ≡ told_at address alignment fixed.old code.now at }
{
    let mut shown = [0u8; format::TEXT];
    let found = show(
        desc, fixed, context, address, alignment, code, at, &mut shown,
    );
    let count = found.size;
    let here = (address as usize) + at;
    let size = listing_parts::put_line(&shown[..count], here, line);
    Shown {
        size,
        next: found.next,
    }
}
