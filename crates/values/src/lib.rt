// Values where they stand: conversions, comparison, bit operations and SUBSTR's test. A CHARACTER or BIT value is n bytes at a
// place of a slice, each 0 past the slice's end; a bit is the byte of its digit.
// Parts: tests of bytes, comparison, to FIXED, from FIXED, bit operations, SUBSTR.
#![tactic(auto)]

ghost use Rattle.std.specs.Prelude.{◌≡◌, [], ◌+◌, ◌-◌, ◌%◌, ◌≤◌, nat_abs, length, get_or, replicate, take};
ghost use Rattle.definition.specs.Lists.{part, all};
ghost use Rattle.definition.specs.Room.{over};
ghost use Rattle.definition.specs.Bytes.{is_digit, is_blank};
ghost use Rattle.definition.specs.Tokens.{is_bit};
ghost use Rattle.definition.specs.Fixed.{ranged};
ghost use Rattle.definition.specs.Values.{any_one, bytes_order, numbers_order, from_fixed, signed_by, to_fixed, characters, bit_value, constant, written, decimal_on, fixed_text, binary, bitwise, inverted, bit_of};
ghost use Rattle.values.specs.Answers.{order_for, is_wanted, why_of, answer_of};
ghost use Rattle.values.specs.Digits.{base_of, capped, last_digits, digits_in, Run, Wrote};
ghost use Rattle.values.specs.Bits.{logic_of};
ghost use Rattle.values.specs.Substr.{cut_at, cut_part, cut_rest};

use chars::{is_bit, is_blank, is_digit};
use definition::Why;
use fixed::Fixed;
use rooms::{byte, put_byte};
use std::cmp::Ordering;

// The comparisons that a statement can ask for.
#[derive(Clone, Copy)]
pub enum Comparison {
    Greater,
    GreaterEqual,
    Equal,
    Less,
    LessEqual,
    NotGreater,
    NotEqual,
    NotLess,
}

// Why a value has no number.
#[derive(Clone, Copy, PartialEq, Eq)]
pub enum NumberError {
    NoConversion,
    OutOfRange,
}

// The refusal that an error is.
impl From<NumberError> for Why {
    ghost from_gives = { λ e w. w ≡ why_of e };

    fn from(e: NumberError) -> Why {
        match e {
            NumberError::NoConversion => Why::NoConversion,
            NumberError::OutOfRange => Why::OutOfRange,
        }
    }
}

// The base that digits are written to.
#[derive(Clone, Copy)]
enum Base {
    Two,
    Ten,
}

// The operators that join two bit strings.
#[derive(Clone, Copy)]
pub enum Logic {
    And,
    Or,
}

// The least magnitude that no FIXED has.
const OVER: u32 = Fixed::MOST as u32 + 1;

// How many digits the shortest decimal of a FIXED has at most.
const DECIMALS: usize = 6;

// How many bits a FIXED has as BIT.
const BITS: usize = 17;

// Whether IF holds for the bits at a place.
pub fn any_one(s: &[u8], at: usize, n: usize) -> bool
    ensures { result ≡ any_one (part n at s.now) }
{
    (0..n).any(|j| byte(s, at, j) == b'1')
}

// Whether the bytes at a place can be made BIT.
pub fn are_bits(s: &[u8], at: usize, n: usize) -> bool
    ensures { result ≡ all is_bit (part n at s.now) }
{
    (0..n).all(|j| is_bit(byte(s, at, j)))
}

// Whether the bytes from i to n past a place are blanks.
fn are_blanks(s: &[u8], at: usize, i: usize, n: usize) -> bool
    ensures { result ≡ all is_blank (part (n - i) (at + i) s.now) }
{
    (i..n).all(|j| is_blank(byte(s, at, j)))
}

// ---- comparison

// Byte j of the n bytes at a place, or what the shorter side is filled with.
fn byte_or(s: &[u8], at: usize, n: usize, j: usize, pad: u8) -> u8
    ensures { result ≡ get_or (part n at s.now) j pad }
{
    if j < n { byte(s, at, j) } else { pad }
}

// How many bytes both begin with alike; both indices are proved, so no test of them runs.
fn alike(x: &[u8], y: &[u8]) -> usize
    ensures { take result x.now ≡ take result y.now }
{
    let most = x.len().min(y.len());
    for j in 0..most {
        if x[j] != y[j] {
            return j;
        }
    }
    most
}

// The same of the n bytes at place a and the m bytes at place b, or 0 if a part of them lies past the slice's end.
fn alike_start(s: &[u8], a: usize, n: usize, t: &[u8], b: usize, m: usize) -> usize
    ensures { take result (part n a s.now) ≡ take result (part m b t.now) }
{
    if a <= s.len() && n <= s.len() - a && b <= t.len() && m <= t.len() - b {
        alike(&s[a..a + n], &t[b..b + m])
    } else {
        0
    }
}

// How the n bytes at place a lie to the m bytes at place b, the shorter side filled with a byte.
pub fn bytes_order(s: &[u8], a: usize, n: usize, t: &[u8], b: usize, m: usize, pad: u8) -> Ordering
    ensures { result ≡ order_for (bytes_order pad (part n a s.now) (part m b t.now)) }
{
    for j in alike_start(s, a, n, t, b, m)..n.max(m) {
        let x = byte_or(s, a, n, j, pad);
        let y = byte_or(t, b, m, j, pad);
        let order = x.cmp(&y);
        if order.is_ne() {
            return order;
        }
    }
    Ordering::Equal
}

pub fn numbers_order(x: Fixed, y: Fixed) -> Ordering
    ensures { result ≡ order_for (numbers_order x.value y.value) }
{
    x.cmp(&y)
}

// Whether a comparison holds of two values that lie so.
#[tactic(auto, using(crate::proofs::Compare::tests_order))]
pub fn is_wanted(c: Comparison, o: Ordering) -> bool
    ensures { result ≡ is_wanted c o }
{
    match c {
        Comparison::Greater => o.is_gt(),
        Comparison::GreaterEqual | Comparison::NotLess => o.is_ge(),
        Comparison::Equal => o.is_eq(),
        Comparison::Less => o.is_lt(),
        Comparison::LessEqual | Comparison::NotGreater => o.is_le(),
        Comparison::NotEqual => o.is_ne(),
    }
}

// ---- to FIXED

// Where the blanks end among the bytes from i to n past a place.
// stays: a test passed in would need a ghost test and clauses on its calls, for one line here and one below.
fn past_blanks(s: &[u8], at: usize, i: usize, n: usize) -> usize
    requires { i ≤ n }
    ensures { Run is_blank s.now at i n result }
{
    (i..n).find(|&j| !is_blank(byte(s, at, j))).unwrap_or(n)
}

// Where the digits end among the bytes from i to n past a place.
fn past_digits(s: &[u8], at: usize, i: usize, n: usize) -> usize
    requires { i ≤ n }
    ensures { Run is_digit s.now at i n result }
{
    (i..n).find(|&j| !is_digit(byte(s, at, j))).unwrap_or(n)
}

fn base_number(base: Base) -> u32
    ensures { result ≡ base_of base }
{
    match base {
        Base::Two => 2,
        Base::Ten => 10,
    }
}

fn digit(b: u8) -> u32
    ensures { result ≡ b - 48 }
{
    u32::from(b.saturating_sub(b'0'))
}

// The number that the digits from i to n past a place write; 512 digits write more than any integer holds, so it stops at OVER.
fn capped_number(base: Base, s: &[u8], at: usize, i: usize, n: usize) -> u32
    ensures { result ≡ capped (written (base_of base) 0 (part (n - i) (at + i) s.now)) }
{
    let mut value: u32 = 0;
    for j in i..n {
        let next = base_number(base) * value + digit(byte(s, at, j));
        if OVER <= next {
            return OVER;
        }
        value = next;
    }
    value
}

// A magnitude divides nothing, so out of range is all that can be wrong.
fn number_of(negative: bool, magnitude: u32) -> Result<Fixed, NumberError>
    ensures { answer_of result ≡ from_fixed (ranged (signed_by negative magnitude)) }
{
    Fixed::of_magnitude(negative, magnitude).map_err(|_| NumberError::OutOfRange)
}

// The number that the bytes from i to n past a place write: the form of them all first, and then the range.
fn unsigned_number(
    negative: bool,
    s: &[u8],
    at: usize,
    i: usize,
    n: usize,
) -> Result<Fixed, NumberError>
    requires { i ≤ n }
    ensures { answer_of result ≡ digits_in negative (part (n - i) (at + i) s.now) }
{
    let end = past_digits(s, at, i, n);
    if end == i || !are_blanks(s, at, end, n) {
        return Err(NumberError::NoConversion);
    }
    number_of(negative, capped_number(Base::Ten, s, at, i, end))
}

// CHARACTER to FIXED.
pub fn number_in(s: &[u8], at: usize, n: usize) -> Result<Fixed, NumberError>
    ensures { answer_of result ≡ to_fixed (characters (part n at s.now)) }
{
    let i = past_blanks(s, at, 0, n);
    if n <= i {
        return Ok(Fixed { value: 0 });
    }
    match byte(s, at, i) {
        b'-' => unsigned_number(true, s, at, i + 1, n),
        b'+' => unsigned_number(false, s, at, i + 1, n),
        _ => unsigned_number(false, s, at, i, n),
    }
}

// BIT to FIXED.
pub fn bits_number(s: &[u8], at: usize, n: usize) -> Result<Fixed, NumberError>
    ensures { answer_of result ≡ to_fixed (bit_value (part n at s.now)) }
{
    number_of(false, capped_number(Base::Two, s, at, 0, n))
}

// The number of a constant, whose digits stand at a place.
pub fn constant_number(s: &[u8], at: usize, n: usize) -> Result<Fixed, NumberError>
    ensures { answer_of result ≡ constant (part n at s.now) }
{
    number_of(false, capped_number(Base::Ten, s, at, 0, n))
}

// ---- from FIXED

fn last_digit(base: Base, n: u32) -> u8
    ensures { result ≡ 48 + n % base_of base }
{
    b'0' + (n % base_number(base)) as u8
}

// Writes the last k digits of n, from the last to the first.
fn put_digits(base: Base, n: u32, k: usize, room: &mut [u8], at: usize)
    ensures { room.new ≡ over room.old at (last_digits (base_of base) k n) }
{
    let mut rest = n;
    for j in (0..k).rev() {
        put_byte(room, at, j, last_digit(base, rest));
        rest /= base_number(base);
    }
}

// FIXED to BIT.
pub fn put_bits(x: Fixed, room: &mut [u8], at: usize)
    ensures { room.new ≡ over room.old at (binary 17 (nat_abs x.value)) }
{
    put_digits(Base::Two, x.magnitude(), BITS, room, at);
}

// How many digits the shortest decimal of n has.
fn decimal_length(n: u32) -> usize
    ensures { result ≡ length (decimal_on 6 n []) }
{
    let mut rest = n;
    for k in 1..DECIMALS {
        if rest < 10 {
            return k;
        }
        rest /= 10;
    }
    DECIMALS
}

// Writes n blanks.
fn put_blanks(room: &mut [u8], at: usize, n: usize)
    ensures { room.new ≡ over room.old at (replicate n 32) }
{
    for j in 0..n {
        put_byte(room, at, j, b' ');
    }
}

// FIXED to CHARACTER. All eight places are written as digits; then blanks, and the sign, cover the zeros in front.
pub fn put_fixed(x: Fixed, room: &mut [u8], at: usize)
    ensures { room.new ≡ over room.old at (fixed_text x.value) }
{
    let n = x.magnitude();
    let first = Fixed::WIDTH - decimal_length(n);
    put_digits(Base::Ten, n, Fixed::WIDTH, room, at);
    put_blanks(room, at, first);
    if x.is_negative() {
        put_byte(room, at, first - 1, b'-');
    }
}

// ---- bit operations

pub fn bit_of(t: bool) -> u8
    ensures { result ≡ bit_of t }
{
    if t { b'1' } else { b'0' }
}

// Inverts the bits at a place, where they stand.
pub fn invert(room: &mut [u8], at: usize, n: usize)
    ensures { room.new ≡ over room.old at (inverted (part n at room.old)) }
{
    for j in 0..n {
        let b = byte(room, at, j);
        put_byte(room, at, j, bit_of(b != b'1'));
    }
}

// The byte k places past n places past `at`, or 0 past the end: the three may have a sum that no usize holds.
fn far_byte(s: &[u8], at: usize, n: usize, k: usize) -> u8
    ensures { result ≡ get_or s.now (at + n + k) 0 }
{
    if at < s.len() && n < s.len() - at {
        byte(s, at + n, k)
    } else {
        0
    }
}

// Bit j of the m bits that stand n places past `at`; the shorter side is filled with zeros.
fn far_byte_or(s: &[u8], at: usize, n: usize, m: usize, j: usize) -> u8
    ensures { result ≡ get_or (part m (at + n) s.now) j 48 }
{
    if j < m { far_byte(s, at, n, j) } else { b'0' }
}

fn apply(op: Logic, x: bool, y: bool) -> bool
    ensures { result ≡ logic_of op x y }
{
    match op {
        Logic::And => x && y,
        Logic::Or => x || y,
    }
}

// Joins two bit strings that stand one after the other, where they stand: the second begins no earlier, so each bit is read before it is lost.
pub fn combine(op: Logic, room: &mut [u8], at: usize, n: usize, m: usize) -> usize
    ensures { Wrote (bitwise (logic_of op) (part n at room.old) (part m (at + n) room.old)) room.old at room.new result }
{
    let most = n.max(m);
    for j in 0..most {
        let x = byte_or(room, at, n, j, b'0');
        let y = far_byte_or(room, at, n, m, j);
        put_byte(room, at, j, bit_of(apply(op, x == b'1', y == b'1')));
    }
    most
}

// ---- SUBSTR

// `count` places from place `from` on, counted from 1, where a value is `size` long.
fn cut_at(size: usize, from: usize, count: usize) -> Option<(usize, usize)>
    ensures { result ≡ cut_at size from count }
{
    if from == 0 || size < from - 1 || size - (from - 1) < count {
        return None;
    }
    Some((from - 1, count))
}

// What SUBSTR with a third argument takes.
pub fn cut_part(size: usize, from: Fixed, count: Fixed) -> Option<(usize, usize)>
    ensures { result ≡ cut_part size from.value count.value }
{
    if from.is_negative() || count.is_negative() {
        return None;
    }
    cut_at(size, from.magnitude() as usize, count.magnitude() as usize)
}

// What SUBSTR without a third argument takes: all places from one on, counted from 1.
pub fn cut_rest(size: usize, from: Fixed) -> Option<(usize, usize)>
    ensures { result ≡ cut_rest size from.value }
{
    if from.is_negative() {
        return None;
    }
    let first = from.magnitude() as usize;
    cut_at(size, first, size.saturating_sub(first.saturating_sub(1)))
}
