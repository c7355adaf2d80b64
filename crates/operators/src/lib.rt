// Values among those that are unfinished, and the operators on them. A CHARACTER or BIT value lies in the work room at a place u,
// above the bytes of those that wait; the second side of an operator lies directly above the first. A result lies at u again.
// Parts: the work room, conversions, prefix operators, infix operators, SUBSTR.
#![tactic(auto)]

ghost use Rattle.std.specs.Prelude.{◌≡◌, ◌∷◌, [], ◌+◌, leb};
ghost use Rattle.definition.specs.Lists.{part};
ghost use Rattle.definition.specs.Room.{over};
ghost use Rattle.definition.specs.Limits.{unfinished_bytes};
ghost use Rattle.definition.specs.Values as D;
ghost use Rattle.fixed.specs.Answer.{result_of};
ghost use Rattle.values.specs.Answers.{order_in};
ghost use Rattle.values.specs.Bits.{logic_of};
ghost use Rattle.operators.specs.Stands.{value_in, number_for, size_for, stacked, Gave, Told, Made, top_of, among_for, limited_for, MovedDown, MovedUp, as_bit, as_subject, text_put, bits_put};
ghost use Rattle.operators.specs.Sides.{calc_of, numbers_in, pair_for, order_answer, numeric_of, wanted_by, Judged, Raised, First, text_size, number_text, WroteFirst, both_bits, joined_value, same_kind, Took};

use definition::{Operator, Prefix, ValueType, Why};
use fixed::{Fixed, FixedError};
use limits::Filling;
use rooms::{byte, put_byte};
use std::cmp::Ordering;
use values::{
    Comparison, Logic, any_one, are_bits, bit_of, bits_number, bytes_order, combine, cut_part,
    cut_rest, invert, is_wanted, number_in, numbers_order, put_bits, put_fixed,
};

// A number, or so many bytes of the work room.
#[derive(Clone, Copy)]
pub enum Value {
    Number(Fixed),
    Characters(usize),
    Bits(usize),
}

// How many bits a FIXED has as BIT.
const BITS: usize = 17;

// ---- the work room

// The bytes that a value takes while it waits.
#[tactic(auto, unfolding(crate::specs::Stands::size_for))]
pub fn size_of(v: Value) -> usize
    ensures { result ≡ size_for v }
{
    match v {
        Value::Number(_) => 0,
        Value::Characters(n) | Value::Bits(n) => n,
    }
}

// Whether n bytes go above u bytes that wait.
pub fn fits(u: usize, n: usize) -> bool
    ensures { result ≡ leb (u + n) unfinished_bytes }
{
    u <= Filling::UNFINISHED && n <= Filling::UNFINISHED - u
}

// The place above n bytes at u, which fit.
#[tactic(auto, unfolding(crate::specs::Stands::top_of))]
pub fn above(u: usize, n: usize) -> usize
    ensures { result ≡ top_of u n }
{
    if fits(u, n) {
        return u + n;
    }
    Filling::UNFINISHED
}

// A value put above u bytes.
#[tactic(auto, unfolding(crate::specs::Stands::among_for))]
pub fn among(u: usize, v: Value) -> Result<Value, Why>
    ensures { result ≡ among_for u v }
{
    if fits(u, size_of(v)) {
        return Ok(v);
    }
    Err(Why::TooLong)
}

#[tactic(auto, unfolding(crate::specs::Stands::limited_for))]
fn limited(u: usize, v: Value) -> Result<Value, Why>
    ensures { result ≡ limited_for u v }
{
    if size_of(v) <= limits::Value::LONGEST {
        return among(u, v);
    }
    Err(Why::TooLong)
}

// Moves the n bytes at `from` down to `to`.
pub fn move_down(room: &mut [u8], from: usize, n: usize, to: usize)
    ensures { MovedDown room.old from n to room.new }
{
    // stays: a loop, as copy_within panics where the bytes reach past the room, and the contract holds at every place
    for j in 0..n {
        let b = byte(room, from, j);
        put_byte(room, to, j, b);
    }
}

// Moves the n bytes at `from` up to `to`, the last first.
pub fn move_up(room: &mut [u8], from: usize, n: usize, to: usize)
    ensures { MovedUp room.old from n to room.new }
{
    for j in (0..n).rev() {
        let b = byte(room, from, j);
        put_byte(room, to, j, b);
    }
}

// ---- conversions

#[tactic(auto, unfolding(crate::specs::Stands::number_for, crate::specs::Stands::value_in, definition::specs::Values::to_fixed))]
pub fn to_fixed(work: &[u8], u: usize, v: Value) -> Result<Fixed, Why>
    ensures { number_for result ≡ D.to_fixed (value_in work.now u v) }
{
    match v {
        Value::Number(x) => Ok(x),
        Value::Characters(n) => Ok(number_in(work, u, n)?),
        Value::Bits(n) => Ok(bits_number(work, u, n)?),
    }
}

// The value as CHARACTER, where it stands.
pub fn to_characters(work: &mut [u8], u: usize, v: Value) -> Result<Value, Why>
    ensures { Made work.old u (text_put u v) (stacked u (D.convert ValueType.CharacterType (value_in work.old u v))) work.new result }
{
    match v {
        // stays: this arm and that of to_bits differ in width, writer and variant; one function of all three is no plainer
        Value::Number(x) => {
            if fits(u, Fixed::WIDTH) {
                put_fixed(x, work, u);
                return Ok(Value::Characters(Fixed::WIDTH));
            }
            Err(Why::TooLong)
        }
        Value::Characters(n) | Value::Bits(n) => among(u, Value::Characters(n)),
    }
}

// The value as BIT, where it stands.
pub fn to_bits(work: &mut [u8], u: usize, v: Value) -> Result<Value, Why>
    ensures { Made work.old u (bits_put u v) (stacked u (as_bit (value_in work.old u v))) work.new result }
{
    match v {
        Value::Number(x) => {
            if fits(u, BITS) {
                put_bits(x, work, u);
                return Ok(Value::Bits(BITS));
            }
            Err(Why::TooLong)
        }
        Value::Characters(n) => {
            if are_bits(work, u, n) {
                return among(u, Value::Bits(n));
            }
            Err(Why::NoConversion)
        }
        Value::Bits(n) => among(u, Value::Bits(n)),
    }
}

// "Assignment, argument and RETURN convert to the declared type."
pub fn convert(work: &mut [u8], u: usize, t: ValueType, v: Value) -> Result<Value, Why>
    ensures { Gave work.old u (size_for v) (stacked u (D.convert t (value_in work.old u v))) work.new result }
{
    match t {
        ValueType::FixedType => Ok(Value::Number(to_fixed(work, u, v)?)),
        ValueType::CharacterType => to_characters(work, u, v),
    }
}

// What SUBSTR is taken of: a FIXED is first made CHARACTER.
pub fn subject(work: &mut [u8], u: usize, v: Value) -> Result<Value, Why>
    ensures { Gave work.old u (size_for v) (stacked u (as_subject (value_in work.old u v))) work.new result }
{
    match v {
        Value::Number(_) => to_characters(work, u, v),
        Value::Characters(_) | Value::Bits(_) => among(u, v),
    }
}

// "IF holds when any bit is 1."
pub fn holds(work: &mut [u8], u: usize, v: Value) -> Result<bool, Why>
    ensures { Told work.old u (size_for v) (D.holds u (value_in work.old u v)) work.new result }
{
    let bits = to_bits(work, u, v)?;
    Ok(any_one(work, u, size_of(bits)))
}

// ---- prefix operators

pub fn prefixed(work: &mut [u8], u: usize, o: Prefix, v: Value) -> Result<Value, Why>
    ensures { Gave work.old u (size_for v) (stacked u (D.prefixed o (value_in work.old u v))) work.new result }
{
    match o {
        Prefix::Positive => Ok(Value::Number(to_fixed(work, u, v)?)),
        Prefix::Negative => Ok(Value::Number(to_fixed(work, u, v)?.negate()?)),
        Prefix::Complement => {
            let bits = to_bits(work, u, v)?;
            invert(work, u, size_of(bits));
            Ok(bits)
        }
    }
}

// ---- infix operators: x at u, y directly above it

#[tactic(auto, unfolding(crate::specs::Sides::calc_of))]
fn arithmetic(o: Operator, a: Fixed, b: Fixed) -> Result<Fixed, FixedError>
    ensures { result_of result ≡ calc_of o a.value b.value }
{
    match o {
        Operator::Plus => a.add(b),
        Operator::Minus => a.subtract(b),
        Operator::Times => a.multiply(b),
        Operator::Divided => a.divide(b),
        Operator::OrOp
        | Operator::AndOp
        | Operator::Greater
        | Operator::GreaterEqual
        | Operator::Equal
        | Operator::Less
        | Operator::LessEqual
        | Operator::NotGreater
        | Operator::NotEqual
        | Operator::NotLess
        | Operator::CatOp => Err(FixedError::OutOfRange),
    }
}

// Two sides as numbers, the first converted first.
#[tactic(auto, unfolding(crate::specs::Stands::number_for, crate::specs::Sides::pair_for, crate::specs::Sides::numbers_in))]
fn numbers_of(work: &[u8], u: usize, x: Value, y: Value) -> Result<(Fixed, Fixed), Why>
    ensures { pair_for result ≡ numbers_in (value_in work.now u x) (value_in work.now (top_of u (size_for x)) y) }
{
    let a = to_fixed(work, u, x)?;
    let b = to_fixed(work, above(u, size_of(x)), y)?;
    Ok((a, b))
}

fn calculated(work: &[u8], u: usize, o: Operator, x: Value, y: Value) -> Result<Value, Why>
    ensures { Gave work.now u (size_for x + size_for y) (stacked u (D.arithmetic (calc_of o) (value_in work.now u x) (value_in work.now (u + size_for x) y))) work.now result }
{
    let (a, b) = numbers_of(work, u, x, y)?;
    Ok(Value::Number(arithmetic(o, a, b)?))
}

fn numeric_order(work: &[u8], u: usize, x: Value, y: Value) -> Result<Ordering, Why>
    ensures { order_answer result ≡ numeric_of (value_in work.now u x) (value_in work.now (top_of u (size_for x)) y) }
{
    let (a, b) = numbers_of(work, u, x, y)?;
    Ok(numbers_order(a, b))
}

// Where they stand: n bytes at u, and m above them.
fn order_at(work: &[u8], u: usize, n: usize, m: usize, pad: u8) -> Ordering
    ensures { order_in result ≡ D.bytes_order pad (part n u work.now) (part m (top_of u n) work.now) }
{
    bytes_order(work, u, n, work, above(u, n), m, pad)
}

// "numeric if one side is FIXED; else as characters if one is CHARACTER; else bits padded with zeros"
fn compared(work: &[u8], u: usize, x: Value, y: Value) -> Result<Ordering, Why>
    ensures { order_answer result ≡ D.compared (value_in work.now u x) (value_in work.now (top_of u (size_for x)) y) }
{
    // stays: a match in a match; tried on the pair (x, y), but where two pairs share an arm no answer can name its facts
    match x {
        Value::Number(_) => numeric_order(work, u, x, y),
        Value::Characters(n) => match y {
            Value::Number(_) => numeric_order(work, u, x, y),
            Value::Characters(m) | Value::Bits(m) => Ok(order_at(work, u, n, m, b' ')),
        },
        Value::Bits(n) => match y {
            Value::Number(_) => numeric_order(work, u, x, y),
            Value::Characters(m) => Ok(order_at(work, u, n, m, b' ')),
            Value::Bits(m) => Ok(order_at(work, u, n, m, b'0')),
        },
    }
}

// The outcome of a comparison is one bit, and nothing else is written.
fn comparing(work: &mut [u8], u: usize, c: Comparison, x: Value, y: Value) -> Result<Value, Why>
    ensures { Judged work.old u (size_for x + size_for y) (stacked u (D.comparing (wanted_by c) (value_in work.old u x) (value_in work.old (u + size_for x) y))) work.new result }
{
    let order = compared(work, u, x, y)?;
    if fits(u, 1) {
        put_byte(work, u, 0, bit_of(is_wanted(c, order)));
        return Ok(Value::Bits(1));
    }
    Err(Why::TooLong)
}

// Makes room below a second side of m bytes, where the first side, a number, takes k.
fn raise(work: &mut [u8], u: usize, m: usize, k: usize)
    ensures { Raised work.old u m k work.new }
{
    move_up(work, u, m, above(u, k));
}

// The first side as BIT, below the second of m bytes.
fn first_bits(work: &mut [u8], u: usize, x: Value, m: usize) -> Result<Value, Why>
    ensures { First work.old u x m work.new result }
{
    match x {
        Value::Number(_) => {
            if fits(above(u, m), BITS) {
                raise(work, u, m, BITS);
                return to_bits(work, u, x);
            }
            Err(Why::TooLong)
        }
        Value::Characters(_) | Value::Bits(_) => to_bits(work, u, x),
    }
}

fn logical(work: &mut [u8], u: usize, o: Logic, x: Value, y: Value) -> Result<Value, Why>
    ensures { Gave work.old u (size_for x + size_for y) (stacked u (D.logical u (logic_of o) (value_in work.old u x) (value_in work.old (u + size_for x) y))) work.new result }
{
    let first = first_bits(work, u, x, size_of(y))?;
    let n = size_of(first);
    let second = to_bits(work, above(u, n), y)?;
    Ok(Value::Bits(combine(o, work, u, n, size_of(second))))
}

// The bytes that a value has as CHARACTER.
#[tactic(auto, unfolding(crate::specs::Sides::text_size))]
fn text_size(v: Value) -> usize
    ensures { result ≡ text_size v }
{
    match v {
        Value::Number(_) => Fixed::WIDTH,
        Value::Characters(n) | Value::Bits(n) => n,
    }
}

// Writes the eight places of a number, for which there is room.
fn write_number(work: &mut [u8], u: usize, v: Value)
    ensures { work.new ≡ over work.old u (number_text v) }
{
    if let Value::Number(x) = v {
        put_fixed(x, work, u);
    }
}

// The same of a first side, below the second of m bytes.
fn write_first(work: &mut [u8], u: usize, v: Value, m: usize)
    ensures { WroteFirst work.old u m v work.new }
{
    if let Value::Number(x) = v {
        raise(work, u, m, Fixed::WIDTH);
        put_fixed(x, work, u);
    }
}

#[tactic(auto, unfolding(crate::specs::Sides::both_bits))]
fn are_both_bits(x: Value, y: Value) -> bool
    ensures { result ≡ both_bits x y }
{
    matches!((x, y), (Value::Bits(_), Value::Bits(_)))
}

// "`||` of two BIT is BIT, else CHARACTER."
#[tactic(auto, unfolding(crate::specs::Sides::joined_value))]
fn joined_value(x: Value, y: Value, n: usize) -> Value
    ensures { result ≡ joined_value x y n }
{
    if are_both_bits(x, y) {
        return Value::Bits(n);
    }
    Value::Characters(n)
}

fn joined(work: &mut [u8], u: usize, x: Value, y: Value) -> Result<Value, Why>
    ensures { Gave work.old u (size_for x + size_for y) (stacked u (D.joined (value_in work.old u x) (value_in work.old (u + size_for x) y))) work.new result }
{
    let n = text_size(x);
    let m = text_size(y);
    let v = limited(u, joined_value(x, y, above(n, m)))?;
    write_first(work, u, x, size_of(y));
    write_number(work, above(u, n), y);
    Ok(v)
}

// THE INFIX OPERATORS.
#[tactic(auto, using(crate::proofs::Sides::judged_gave), unfolding(definition::specs::Values::infixed, crate::specs::Sides::wanted_by, crate::specs::Sides::calc_of))]
pub fn infixed(work: &mut [u8], u: usize, o: Operator, x: Value, y: Value) -> Result<Value, Why>
    ensures { Gave work.old u (size_for x + size_for y) (stacked u (D.infixed u o (value_in work.old u x) (value_in work.old (u + size_for x) y))) work.new result }
{
    match o {
        Operator::OrOp => logical(work, u, Logic::Or, x, y),
        Operator::AndOp => logical(work, u, Logic::And, x, y),
        Operator::Greater => comparing(work, u, Comparison::Greater, x, y),
        Operator::GreaterEqual => comparing(work, u, Comparison::GreaterEqual, x, y),
        Operator::Equal => comparing(work, u, Comparison::Equal, x, y),
        Operator::Less => comparing(work, u, Comparison::Less, x, y),
        Operator::LessEqual => comparing(work, u, Comparison::LessEqual, x, y),
        Operator::NotGreater => comparing(work, u, Comparison::NotGreater, x, y),
        Operator::NotEqual => comparing(work, u, Comparison::NotEqual, x, y),
        Operator::NotLess => comparing(work, u, Comparison::NotLess, x, y),
        Operator::CatOp => joined(work, u, x, y),
        Operator::Plus | Operator::Minus | Operator::Times | Operator::Divided => {
            calculated(work, u, o, x, y)
        }
    }
}

// ---- SUBSTR

#[tactic(auto, unfolding(crate::specs::Sides::same_kind))]
fn same_kind(v: Value, n: usize) -> Value
    ensures { result ≡ same_kind v n }
{
    match v {
        Value::Number(_) | Value::Characters(_) => Value::Characters(n),
        Value::Bits(_) => Value::Bits(n),
    }
}

// What a cut takes of the value at u, moved down to u.
fn taken(work: &mut [u8], u: usize, v: Value, c: Option<(usize, usize)>) -> Result<Value, Why>
    ensures { Took work.old u v c work.new result }
{
    let Some((from, n)) = c else {
        return Err(Why::SubstrOutside);
    };
    move_down(work, above(u, from), n, u);
    among(u, same_kind(v, n))
}

pub fn substr_rest(work: &mut [u8], u: usize, v: Value, from: Fixed) -> Result<Value, Why>
    ensures { Gave work.old u (size_for v) (stacked u (D.substr ((value_in work.old u v) ∷ D.fixed from.value ∷ []))) work.new result }
{
    taken(work, u, v, cut_rest(size_of(v), from))
}

pub fn substr_part(
    work: &mut [u8],
    u: usize,
    v: Value,
    from: Fixed,
    count: Fixed,
) -> Result<Value, Why>
    ensures { Gave work.old u (size_for v) (stacked u (D.substr ((value_in work.old u v) ∷ D.fixed from.value ∷ D.fixed count.value ∷ []))) work.new result }
{
    taken(work, u, v, cut_part(size_of(v), from, count))
}
