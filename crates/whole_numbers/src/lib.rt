// Exact arithmetic on signed 64-bit numbers: the whole number that comes out, or `None` where it lies outside.
#![tactic(auto)]

ghost use Rattle.std.specs.Prelude.{◌≡◌, ◌<◌, ◌+ℤ◌, ◌-ℤ◌, ◌*ℤ◌};
ghost use Rattle.whole_numbers.specs.Range.{kept};
ghost use Rattle.whole_numbers.specs.Operators.{and_z, or_z, xor_z, left_z, right_z};

#[tactic(auto, using(crate::proofs::Kept::checked))]
pub fn plus(a: i64, b: i64) -> Option<i64>
    ensures { result ≡ kept (a +ℤ b) }
{
    a.checked_add(b)
}

#[tactic(auto, using(crate::proofs::Kept::checked))]
pub fn minus(a: i64, b: i64) -> Option<i64>
    ensures { result ≡ kept (a -ℤ b) }
{
    a.checked_sub(b)
}

#[tactic(auto, using(crate::proofs::Kept::checked))]
pub fn times(a: i64, b: i64) -> Option<i64>
    ensures { result ≡ kept (a *ℤ b) }
{
    a.checked_mul(b)
}

#[tactic(auto, using(crate::proofs::Words::and_word))]
pub fn and(a: i64, b: i64) -> i64
    ensures { result ≡ and_z a b }
{
    a & b
}

#[tactic(auto, using(crate::proofs::Words::or_word))]
pub fn or(a: i64, b: i64) -> i64
    ensures { result ≡ or_z a b }
{
    a | b
}

#[tactic(auto, using(crate::proofs::Words::xor_word))]
pub fn xor(a: i64, b: i64) -> i64
    ensures { result ≡ xor_z a b }
{
    a ^ b
}

// Nothing is lost where the bits that leave at the top, and the new top bit, are all the sign.
pub fn left(a: i64, k: u8) -> Option<i64>
    requires { k < 64 }
    ensures { result ≡ kept (left_z a k) }
{
    let top = a >> (63 - k);
    if (top == 0) | (top == -1) {
        return Some(a << k);
    }
    None
}

#[tactic(auto, using(crate::proofs::Words::right_word))]
pub fn right(a: i64, k: u8) -> i64
    requires { k < 64 }
    ensures { result ≡ right_z a k }
{
    a >> k
}
