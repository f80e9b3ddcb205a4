// Decoding one instruction of any bytes to text.
#![tactic(auto)]

ghost use Rattle.std.specs.Prelude.{◌≡◌, length};
ghost use Rattle.format.specs.Check.{WellFormed};
ghost use Rattle.format.specs.Description.{description};
ghost use Rattle.text_decoding.specs.TextDecoding.{text_error, instruction_answer, instruction_buffer, decode_text_of, text_after};
ghost use Rattle.text_decoding.specs.declared.TextError.TheVariants.{Rejected, Refused};

use acceptance::Rejection;
use decoding_spec::Refusal;
use format::Layout;
use text::NoText;

// Why no text is written: the description is no such one, there is no instruction, or its text is too long or has no room.
#[derive(Clone, Copy)]
pub enum TextError {
    Rejected(Rejection),
    Refused(Refusal),
    TooLong,
    NoRoom,
}

impl From<Rejection> for TextError {
    ghost from_gives = { λ x e. e ≡ Rejected x };

    fn from(rejection: Rejection) -> TextError {
        TextError::Rejected(rejection)
    }
}

impl From<Refusal> for TextError {
    ghost from_gives = { λ r e. e ≡ Refused r };

    fn from(refusal: Refusal) -> TextError {
        TextError::Refused(refusal)
    }
}

impl From<NoText> for TextError {
    ghost from_gives = { λ n e. e ≡ text_error n };

    fn from(none: NoText) -> TextError {
        match none {
            NoText::TooLong => TextError::TooLong,
            NoText::NoRoom => TextError::NoRoom,
        }
    }
}

fn decode_in(
    desc: &[u8],
    layout: Layout,
    context: u32,
    address: u32,
    code: &[u8],
    out: &mut [u8],
) -> Result<usize, TextError>
    requires { WellFormed desc.now layout }
    ensures value { result ≡ instruction_answer (description desc.now layout) context address code.now (length out.old) }
    ensures out_after { out.new ≡ instruction_buffer (description desc.now layout) context address code.now out.old }
{
    let mut fixed = setting::fill(desc, layout, false);
    let mut rows = [0i64; walk_steps::SCRATCH];
    let walk = instructions::decode_at(desc, &mut fixed, context, address, code, 0, &mut rows)?;
    let count = text::print_text(desc, &fixed, &rows, walk.state.used, out)?;
    Ok(count)
}

// Any bytes as the description and as the code, any context and address, any room for the text; how many bytes are written.
pub fn decode_text(
    desc: &[u8],
    context: u32,
    address: u32,
    code: &[u8],
    out: &mut [u8],
) -> Result<usize, TextError>
    ensures value { result ≡ decode_text_of desc.now context address code.now (length out.old) }
    ensures out_after { out.new ≡ text_after desc.now context address code.now out.old }
{
    let layout = acceptance::accept(desc)?;
    decode_in(desc, layout, context, address, code, out)
}
