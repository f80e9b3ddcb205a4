// A description's expressions: when a record writes one, what it names, and its value.
#![tactic(auto)]

ghost use Rattle.std.specs.Prelude.{◌≡◌, true, not, ◌||◌, ◌+◌, ◌<◌, ◌≤◌, min, length};
ghost use Rattle.bits.specs.Bits.{is_set};
ghost use Rattle.format.specs.Numbers.{most_steps, expression_bytes};
ghost use Rattle.format.specs.Expression.{expression_at, step_of, takes, step_value_ok, step_ok, steps_ok, rest_empty, writes_expression, names_operand, names_only, first_operator};
ghost use Rattle.whole_numbers.specs.Range.{kept};
ghost use Rattle.expressions.specs.Value.{given, term_of, operator_of, made_of, value_of, numbered, Usable};

use format::Step;

// A step's kind: a number, since a record may have any byte there, which the rules judge. Below FIRST_OPERATOR it is a term, below FIRST_SHIFT an operator on two values, and then a shift.
const CONSTANT: u8 = 0;

const OPERAND: u8 = 1;

const FIRST_OPERATOR: u8 = 4;

const FIRST_SHIFT: u8 = 10;

const KINDS: u8 = 12;

const SHIFTS: u64 = 64;

fn step_at(s: &[u8], at: usize, i: u8) -> Step
    requires { (at + expression_bytes ≤ length s.now) × (i < most_steps) }
    ensures { result ≡ step_of (expression_at s.now at) i }
{
    let start = at + 1 + usize::from(format::STEP_BYTES) * usize::from(i);
    Step {
        kind: s[start],
        value: format::quad(s, start + 1),
    }
}

// How many values a step takes from the stack.
fn taken(kind: u8) -> u8
    ensures { (result ≡ takes kind) × (result ≤ 2) }
{
    if kind < FIRST_OPERATOR {
        return 0;
    }
    if kind < FIRST_SHIFT {
        return 2;
    }
    1
}

#[tactic(auto, unfolding(format::specs::Expression::step_value_ok))]
fn value_ok(step: Step) -> bool
    ensures { result ≡ step_value_ok step }
{
    (step.kind == CONSTANT)
        | ((step.kind == OPERAND) & (step.value < 256))
        | ((OPERAND < step.kind) & (step.kind < FIRST_SHIFT) & (step.value == 0))
        | ((FIRST_SHIFT <= step.kind) & (step.kind < KINDS) & (step.value < SHIFTS))
}

#[tactic(auto, unfolding(format::specs::Expression::step_ok))]
fn step_ok(depth: u8, step: Step) -> bool
    ensures { result ≡ step_ok depth step }
{
    value_ok(step) & (taken(step.kind) <= depth)
}

fn steps_ok(s: &[u8], at: usize) -> bool
    requires { (at + expression_bytes ≤ length s.now) × ((expression_at s.now at).count ≤ most_steps) }
    ensures { result ≡ steps_ok (expression_at s.now at) }
{
    let count = s[at];
    let mut depth: u8 = 0;
    for i in 0..count {
        let step = step_at(s, at, i);
        if !step_ok(depth, step) {
            return false;
        }
        depth = depth + 1 - taken(step.kind);
    }
    depth == 1
}

fn rest_empty(s: &[u8], at: usize) -> bool
    requires { (at + expression_bytes ≤ length s.now) × ((expression_at s.now at).count ≤ most_steps) }
    ensures { result ≡ rest_empty (expression_at s.now at) }
{
    let count = s[at];
    for i in count..format::STEPS {
        let step = step_at(s, at, i);
        if !((step.kind == 0) & (step.value == 0)) {
            return false;
        }
    }
    true
}

// Whether the record at this place writes an expression.
pub fn writes(s: &[u8], at: usize) -> bool
    requires { at + expression_bytes ≤ length s.now }
    ensures { result ≡ writes_expression (expression_at s.now at) }
{
    let count = s[at];
    if count < 1 {
        return false;
    }
    if format::STEPS < count {
        return false;
    }
    if !steps_ok(s, at) {
        return false;
    }
    rest_empty(s, at)
}

fn allows(operands: u16, n: u64) -> bool
    ensures { result ≡ is_set operands n }
{
    if 16 <= n {
        return false;
    }
    (operands >> n) % 2 == 1
}

fn named_ok(step: Step, operands: u16) -> bool
    ensures { result ≡ (not (names_operand step) || is_set operands step.value) }
{
    if step.kind != OPERAND {
        return true;
    }
    allows(operands, step.value)
}

// How many of the record's steps can be there.
fn count_at(s: &[u8], at: usize) -> u8
    requires { at + expression_bytes ≤ length s.now }
    ensures { result ≡ min (expression_at s.now at).count most_steps }
{
    s[at].min(format::STEPS)
}

// Whether every operand that the record names is one of these: operand n is where bit n is set.
pub fn names_only(s: &[u8], at: usize, operands: u16) -> bool
    requires { at + expression_bytes ≤ length s.now }
    ensures { result ≡ names_only (is_set operands) (expression_at s.now at) }
{
    let count = count_at(s, at);
    for i in 0..count {
        if !named_ok(step_at(s, at, i), operands) {
            return false;
        }
    }
    true
}

fn term(step: Step, operands: &[i64], here: u64, after: u64) -> Option<i64>
    requires { (not (names_operand step) || numbered (length operands.now) step.value) ≡ true }
    ensures { result ≡ kept (term_of (given operands.now here after) step) }
{
    match step.kind {
        0 => Some(step.value.cast_signed()),
        1 => {
            let k = (step.value - 1) as usize;
            Some(operands[k])
        }
        2 => i64::try_from(here).ok(),
        _ => i64::try_from(after).ok(),
    }
}

fn operate(step: Step, x: i64, y: i64) -> Option<i64>
    requires { (step_value_ok step ≡ true) × (first_operator ≤ step.kind) }
    ensures { result ≡ kept (operator_of step x y) }
{
    match step.kind {
        4 => whole_numbers::plus(x, y),
        5 => whole_numbers::minus(x, y),
        6 => whole_numbers::times(x, y),
        7 => Some(whole_numbers::and(x, y)),
        8 => Some(whole_numbers::or(x, y)),
        9 => Some(whole_numbers::xor(x, y)),
        10 => whole_numbers::left(y, step.value as u8),
        _ => Some(whole_numbers::right(y, step.value as u8)),
    }
}

// What a step makes of the two topmost values.
fn make(step: Step, x: i64, y: i64, operands: &[i64], here: u64, after: u64) -> Option<i64>
    requires { (step_value_ok step ≡ true) × ((not (names_operand step) || numbered (length operands.now) step.value) ≡ true) }
    ensures { result ≡ kept (made_of (given operands.now here after) step x y) }
{
    if step.kind < FIRST_OPERATOR {
        return term(step, operands, here, after);
    }
    operate(step, x, y)
}

// The stack grows down from cell 16. Two zero cells lie below it, so that every step finds two values to read.
pub fn evaluate(s: &[u8], at: usize, operands: &[i64], here: u64, after: u64) -> Option<i64>
    requires { Usable s.now at (length operands.now) }
    ensures { result ≡ value_of (given operands.now here after) (expression_at s.now at) }
{
    let count = s[at];
    let mut stack = [0i64; 18];
    let mut top: usize = 16;
    for i in 0..count {
        let step = step_at(s, at, i);
        let x = stack[top + 1];
        let y = stack[top];
        let v = make(step, x, y, operands, here, after)?;
        top = top + usize::from(taken(step.kind)) - 1;
        stack[top] = v;
    }
    Some(stack[top])
}
