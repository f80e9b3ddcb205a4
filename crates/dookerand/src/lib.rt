// The C face. Each function returns the answer's number in the tables of documents 01 and 02 and sets all four values.
#![tactic(auto)]

ghost use Rattle.std.specs.Prelude.{◌≡◌, length};
ghost use Rattle.acceptance.specs.Acceptance as acceptance;
ghost use Rattle.acceptance.specs.Acceptance.{acceptance_of, rejection_number, rejection_values};
ghost use Rattle.decoding_spec.specs.Refusals.{refusal_number, refusal_values};
ghost use Rattle.table_query.specs.Asking as asking;
ghost use Rattle.table_query.specs.Asking.{ask_of};
ghost use Rattle.clash_check.specs.Entry as clashing;
ghost use Rattle.clash_check.specs.Entry.{clash_answer};
ghost use Rattle.tree_check.specs.Entry.{Reported};
ghost use Rattle.tree_building.specs.Building as building;
ghost use Rattle.tree_building.specs.Building.{build_of, build_after};
ghost use Rattle.decoding.specs.Decoding as decoding;
ghost use Rattle.decoding.specs.Decoding.{decode_of, rows_after};
ghost use Rattle.text_decoding.specs.TextDecoding as texting;
ghost use Rattle.text_decoding.specs.TextDecoding.{decode_text_of, text_after};
ghost use Rattle.sweep.specs.Sweep as sweeping;
ghost use Rattle.sweep.specs.Sweep.{end_number, sweep_of, buffer_after};
ghost use Rattle.listing_text.specs.Listing as listing;
ghost use Rattle.listing_text.specs.Listing.{list_of, list_after};

use acceptance::Rejection;
use clash_check::ClashError;
use decoding::DecodeError;
use decoding_spec::Refusal;
use listing_text::ListError;
use sweep::{End, SweepError};
use table_query::AskError;
use text_decoding::TextError;
use tree_building::BuildError;
use tree_check::TreeError;

// A rejection's number and values.
fn reject(rejection: Rejection, values: &mut [u64; 4]) -> u32
    ensures value { result ≡ rejection_number rejection }
    ensures values_after { values.new ≡ rejection_values rejection }
{
    let first = rejection.first_value();
    let second = rejection.second_value();
    let third = rejection.third_value();
    *values = [first as u64, second as u64, third as u64, 0];
    u32::from(rejection.answer_number())
}

// A refusal's number and values.
fn refuse(refusal: Refusal, values: &mut [u64; 4]) -> u32
    ensures value { result ≡ refusal_number refusal }
    ensures values_after { values.new ≡ refusal_values refusal }
{
    let place = refusal.place();
    let table = refusal.table();
    *values = [place as u64, u64::from(table), 0, 0];
    u32::from(refusal.number())
}

#[unsafe(no_mangle)]
pub extern "C" fn dookerand_check(desc: &[u8], values: &mut [u64; 4]) -> u32
    ensures value { result ≡ acceptance.number_of (acceptance_of desc.now) }
    ensures values_after { values.new ≡ acceptance.values_of (acceptance_of desc.now) }
{
    match acceptance::accept(desc) {
        Ok(_) => {
            *values = [0, 0, 0, 0];
            0
        }
        Err(rejection) => reject(rejection, values),
    }
}

#[unsafe(no_mangle)]
pub extern "C" fn dookerand_ask(
    desc: &[u8],
    table: u32,
    context: u32,
    code: &[u8],
    values: &mut [u64; 4],
) -> u32
    ensures value { result ≡ asking.number_of (ask_of desc.now table context code.now) }
    ensures values_after { values.new ≡ asking.values_of (ask_of desc.now table context code.now) }
{
    match table_query::ask(desc, table, context, code) {
        Ok(asked) => {
            *values = [asked.constructor as u64, u64::from(asked.weight), 0, 0];
            0
        }
        Err(AskError::Rejected(rejection)) => reject(rejection, values),
        Err(AskError::NoTable(t)) => {
            *values = [u64::from(t), 0, 0, 0];
            12
        }
        Err(AskError::Short) => {
            *values = [0, 0, 0, 0];
            2
        }
        Err(AskError::NoMatch(t)) => {
            *values = [0, u64::from(t), 0, 0];
            3
        }
        Err(AskError::Ambiguous(t)) => {
            *values = [0, u64::from(t), 0, 0];
            4
        }
    }
}

#[unsafe(no_mangle)]
pub extern "C" fn dookerand_clash(desc: &[u8], table: u32, values: &mut [u64; 4]) -> u32
    ensures value { result ≡ clashing.number_of (clash_answer desc.now table) }
    ensures values_after { values.new ≡ clashing.values_of (clash_answer desc.now table) }
{
    match clash_check::clash(desc, table) {
        Ok(None) => {
            *values = [0, 0, 0, 0];
            0
        }
        Ok(Some((i, j))) => {
            *values = [1, i as u64, j as u64, 0];
            0
        }
        Err(ClashError::Malformed(fault)) => {
            *values = [fault.section as u64, fault.number as u64, 0, 0];
            1
        }
        Err(ClashError::NoTable(t)) => {
            *values = [u64::from(t), 0, 0, 0];
            12
        }
    }
}

#[unsafe(no_mangle)]
pub extern "C" fn dookerand_tree(desc: &[u8], table: u32, tree: &[u8], values: &mut [u64; 4]) -> u32
    ensures { Reported desc.now table tree.now result values.new }
{
    match tree_check::tree_check(desc, table, tree) {
        Ok(None) => {
            *values = [0, 0, 0, 0];
            0
        }
        Ok(Some(leaf)) => {
            *values = [1, leaf.node as u64, leaf.word, u64::from(leaf.context)];
            0
        }
        Err(TreeError::Rejected(rejection)) => reject(rejection, values),
        Err(TreeError::NoTable(t)) => {
            *values = [u64::from(t), 0, 0, 0];
            12
        }
        Err(TreeError::BadTree(node)) => {
            *values = [node as u64, 0, 0, 0];
            11
        }
    }
}

#[unsafe(no_mangle)]
pub extern "C" fn dookerand_build(
    desc: &[u8],
    table: u32,
    tree: &mut [u8],
    values: &mut [u64; 4],
) -> u32
    ensures value { result ≡ building.number_of (build_of desc.now table (length tree.old)) }
    ensures values_after { values.new ≡ building.values_of (build_of desc.now table (length tree.old)) }
    ensures tree_after { tree.new ≡ build_after desc.now table tree.old }
{
    match tree_building::build(desc, table, tree) {
        Ok(written) => {
            *values = [written as u64, 0, 0, 0];
            0
        }
        Err(BuildError::Rejected(rejection)) => reject(rejection, values),
        Err(BuildError::NoTable(t)) => {
            *values = [u64::from(t), 0, 0, 0];
            12
        }
        Err(BuildError::Clashes(i, j)) => {
            *values = [i as u64, j as u64, 0, 0];
            15
        }
        Err(BuildError::TooLarge) => {
            *values = [0, 0, 0, 0];
            16
        }
    }
}

#[unsafe(no_mangle)]
pub extern "C" fn dookerand_decode(
    desc: &[u8],
    context: u32,
    address: u32,
    code: &[u8],
    rows: &mut [i64],
    values: &mut [u64; 4],
) -> u32
    ensures value { result ≡ decoding.number_of (decode_of desc.now context address code.now (length rows.old)) }
    ensures values_after { values.new ≡ decoding.values_of (decode_of desc.now context address code.now (length rows.old)) }
    ensures rows_after { rows.new ≡ rows_after desc.now context address code.now rows.old }
{
    match decoding::decode(desc, context, address, code, rows) {
        Ok(written) => {
            *values = [written as u64, 0, 0, 0];
            0
        }
        Err(DecodeError::Rejected(rejection)) => reject(rejection, values),
        Err(DecodeError::Refused(refusal)) => refuse(refusal, values),
        Err(DecodeError::NoRoom) => {
            *values = [0, 0, 0, 0];
            9
        }
    }
}

#[unsafe(no_mangle)]
pub extern "C" fn dookerand_text(
    desc: &[u8],
    context: u32,
    address: u32,
    code: &[u8],
    text: &mut [u8],
    values: &mut [u64; 4],
) -> u32
    ensures value { result ≡ texting.number_of (decode_text_of desc.now context address code.now (length text.old)) }
    ensures values_after { values.new ≡ texting.values_of (decode_text_of desc.now context address code.now (length text.old)) }
    ensures text_after { text.new ≡ text_after desc.now context address code.now text.old }
{
    match text_decoding::decode_text(desc, context, address, code, text) {
        Ok(written) => {
            *values = [written as u64, 0, 0, 0];
            0
        }
        Err(TextError::Rejected(rejection)) => reject(rejection, values),
        Err(TextError::Refused(refusal)) => refuse(refusal, values),
        Err(TextError::TooLong) => {
            *values = [0, 0, 0, 0];
            10
        }
        Err(TextError::NoRoom) => {
            *values = [0, 0, 0, 0];
            9
        }
    }
}

fn end_number(why: End) -> u64
    ensures { result ≡ end_number why }
{
    match why {
        End::Used => 0,
        End::Full => 1,
        End::Short => 2,
    }
}

#[unsafe(no_mangle)]
pub extern "C" fn dookerand_sweep(
    desc: &[u8],
    context: u32,
    address: u32,
    alignment: u32,
    code: &[u8],
    rows: &mut [i64],
    values: &mut [u64; 4],
) -> u32
    ensures value { result ≡ sweeping.number_of (sweep_of desc.now context address alignment code.now (length rows.old)) }
    ensures values_after { values.new ≡ sweeping.values_of (sweep_of desc.now context address alignment code.now (length rows.old)) }
    ensures rows_after { rows.new ≡ buffer_after desc.now context address alignment code.now rows.old }
{
    match sweep::sweep(desc, context, address, alignment, code, rows) {
        Ok(swept) => {
            let written = swept.rows;
            let next = swept.next;
            *values = [end_number(swept.why), written as u64, next as u64, 0];
            0
        }
        Err(SweepError::Rejected(rejection)) => reject(rejection, values),
        Err(SweepError::NoAlignment(n)) => {
            *values = [u64::from(n), 0, 0, 0];
            12
        }
    }
}

#[unsafe(no_mangle)]
pub extern "C" fn dookerand_list(
    desc: &[u8],
    context: u32,
    address: u32,
    alignment: u32,
    code: &[u8],
    from: u64,
    text: &mut [u8],
    values: &mut [u64; 4],
) -> u32
    ensures value { result ≡ listing.number_of (list_of desc.now context address alignment code.now from (length text.old)) }
    ensures values_after { values.new ≡ listing.values_of (list_of desc.now context address alignment code.now from (length text.old)) }
    ensures text_after { text.new ≡ list_after desc.now context address alignment code.now from text.old }
{
    match listing_text::list(desc, context, address, alignment, code, from as usize, text) {
        Ok(part) => {
            let full = u64::from(part.full);
            *values = [part.bytes as u64, part.lines as u64, part.next as u64, full];
            0
        }
        Err(ListError::Rejected(rejection)) => reject(rejection, values),
        Err(ListError::NoAlignment(n)) => {
            *values = [u64::from(n), 0, 0, 0];
            12
        }
    }
}
