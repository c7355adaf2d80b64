// What an expression is made of: constants, operators with their sides, names without a list, and what the arguments of a list are
// made. `u` is the bytes of the unfinished values that wait in the work room.
// Parts: constants, operators, arguments, names without a list.
#![tactic(auto)]

ghost use Rattle.std.specs.Prelude.{◌≡◌, cond, ◌+◌, leb, ltb};
ghost use Rattle.tokens.specs.Answer.{written, content};
ghost use Rattle.operands.specs.Answer.{evaluated_for, with_end, WithInfix, PrefixesDone, ConstantIs, IntegerIs, string_tree, ClosedIs, PlainIs};
ghost use Rattle.operands.specs.Blocks.{sign_in, WithSign, SignsFrom, BlockDone, AllDone, CountIs};
ghost use Rattle.operands.specs.Takes.{WishIs, first_listed, wanted_by, WithWish, SubstrDone, AimIs};

use callees::{Callee, Held, Meant, Running, callee_of, fixed_held, parameter_at, variable_value};
use deck::body;
use definition::{Operator, Prefix, ValueType, Why};
use expressions::{Expected, prefix_at};
use meter::{Meter, Refused};
use names::Owner;
use operators::{Value, convert, infixed, prefixed, subject, substr_part, substr_rest};
use rows::Starts;
use tokens::{Lexeme, content_size, is_sign, token_at, unquote, width};
use values::constant_number;

// Who sees names: how many there are, where the rows of each member start, from which scope names are seen, and which procedures are
// running.
#[derive(Clone, Copy)]
pub struct Scene {
    pub names: u16,
    pub starts: Starts,
    pub owner: Owner,
    pub running: Running,
}

// A value at u and the place past its expression, or why there is none; and the steps.
pub type Evaluated = Result<(Value, usize, Meter), Refused>;

pub fn given_up_to(g: Result<Value, Why>, to: usize, m: Meter) -> Evaluated
    ensures { result ≡ evaluated_for g to m }
{
    match g {
        Ok(v) => Ok((v, to, m)),
        Err(w) => Err((w, m)),
    }
}

// ---- constants

pub fn integer_value(s: &[u8], t: Lexeme, m: Meter) -> Evaluated
    ensures { IntegerIs (written s.now t) t.to m result }
{
    match constant_number(s, t.from, width(t)) {
        Ok(n) => Ok((Value::Number(n), t.to, m)),
        Err(e) => Err((Why::from(e), m)),
    }
}

pub fn string_value(
    s: &[u8],
    t: Lexeme,
    is_bits: bool,
    work: &mut [u8],
    u: usize,
    m: Meter,
) -> Evaluated
    ensures { ConstantIs (string_tree is_bits (content s.now t.from)) work.old u t.to m work.new result }
{
    let n = content_size(s, t.from);
    if limits::Value::LONGEST < n || !operators::fits(u, n) {
        return Err((Why::TooLong, m));
    }
    unquote(s, t.from, work, u);
    let v = if is_bits {
        Value::Bits(n)
    } else {
        Value::Characters(n)
    };
    Ok((v, t.to, m))
}

// ---- operators

// The operator with its two sides, of which the second was evaluated last.
pub fn with_infix(work: &mut [u8], u: usize, o: Operator, x: Value, y: Evaluated) -> Evaluated
    ensures { WithInfix work.old u o x y work.new result }
{
    let (v, to, m) = y?;
    given_up_to(infixed(work, u, o, x, v), to, m)
}

// How many prefix operators are kept at once.
const BLOCK: usize = 256;

// The prefix operators of a block.
#[derive(Clone, Copy)]
struct Signs {
    items: [Prefix; BLOCK],
}

// Puts the operator number i, if it is one of the block that begins with number `first`; in place, since a block is 256 bytes.
fn put_sign(all: &mut Signs, first: usize, i: usize, o: Prefix)
    ensures { WithSign all.old first i o all.new }
{
    if first <= i && i - first < BLOCK {
        all.items[i - first] = o;
    }
}

// Whether the operator number i is behind the block that begins with number `first`.
fn is_behind(first: usize, i: usize) -> bool
    ensures { result ≡ leb (first + 256) i }
{
    first <= i && BLOCK <= i - first
}

// The operators from number `first` on, of those that begin at a place.
fn signs_from(s: &[u8], from: usize, first: usize) -> Signs
    ensures { SignsFrom s.now from first result }
{
    let mut all = Signs {
        items: [Prefix::Positive; BLOCK],
    };
    let mut at = from;
    for i in 0..s.len() {
        if is_behind(first, i) {
            return all;
        }
        let Some((o, q)) = prefix_at(s, at) else {
            return all;
        };
        put_sign(&mut all, first, i, o);
        at = q;
    }
    all
}

fn sign_at(all: Signs, i: usize) -> Prefix
    ensures { result ≡ sign_in all i }
{
    all.items.get(i).copied().unwrap_or(Prefix::Positive)
}

// Applies the first n operators of a block, the last first.
fn with_block(work: &mut [u8], u: usize, all: Signs, n: usize, v: Value) -> Result<Value, Why>
    ensures { BlockDone work.old u all n v work.new result }
{
    let mut x = v;
    for i in (0..n).rev() {
        x = prefixed(work, u, sign_at(all, i), x)?;
    }
    Ok(x)
}

// Applies n prefix operators that begin at a place, the last first, a block at a time: each block is read again from the start.
fn with_prefixes(
    s: &[u8],
    from: usize,
    n: usize,
    work: &mut [u8],
    u: usize,
    v: Value,
) -> Result<Value, Why>
    ensures { AllDone s.now from n work.old u v work.new result }
{
    let mut x = v;
    let mut rest = n;
    // a turn for each block, from the last to the first
    while 0 < rest {
        let size = (rest - 1) % BLOCK + 1;
        rest -= size;
        x = with_block(work, u, signs_from(s, from, rest), size, x)?;
    }
    Ok(x)
}

pub fn prefixes_done(
    s: &[u8],
    from: usize,
    n: usize,
    work: &mut [u8],
    u: usize,
    x: Evaluated,
) -> Evaluated
    ensures { PrefixesDone s.now from work.old u n x work.new result }
{
    let (v, to, m) = x?;
    given_up_to(with_prefixes(s, from, n, work, u, v), to, m)
}

// ---- arguments

// How many arguments stand from behind `(` on: each is read as when the source was checked.
pub fn count_arguments(s: &[u8], from: usize, left: usize) -> usize
    ensures { CountIs s.now from left result }
{
    let mut at = from;
    for n in 0..s.len() {
        let Ok(e) = expressions::inside(s, 0, at, left) else {
            return n + 1;
        };
        let t = token_at(s, e);
        if !is_sign(s, t, b",") {
            return n + 1;
        }
        at = t.to;
    }
    s.len()
}

// What an argument is to be made: of a parameter's type, or what SUBSTR is taken of.
// stays: an Option would not say what is made where no type is given.
#[derive(Clone, Copy)]
pub enum Wish {
    As(ValueType),
    AsSubject,
}

// Whose arguments are taken: those of a procedure, or of SUBSTR.
#[derive(Clone, Copy)]
pub enum Target {
    Entry(Callee),
    Substr(usize),
}

// The wish for the next argument, and where the next parameter is listed.
#[derive(Clone, Copy)]
pub struct Wished {
    pub wish: Wish,
    pub to: usize,
}

pub fn wish_for(deck: &[u8], names: &[u16], count: u16, t: Target, i: usize, at: usize) -> Wished
    ensures { WishIs deck.now names.now count t i at result }
{
    match t {
        Target::Entry(c) => {
            let p = c.place;
            match parameter_at(deck, body(deck, p.member), names, count, p, at) {
                Some(y) => Wished {
                    wish: Wish::As(y.value_type),
                    to: y.to,
                },
                None => Wished {
                    wish: Wish::AsSubject,
                    to: at,
                },
            }
        }
        Target::Substr(_) => {
            if i < 1 {
                return Wished {
                    wish: Wish::AsSubject,
                    to: 0,
                };
            }
            Wished {
                wish: Wish::As(ValueType::FixedType),
                to: 0,
            }
        }
    }
}

pub fn first_parameter(t: Target) -> usize
    ensures { result ≡ first_listed t }
{
    match t {
        Target::Entry(c) => c.list,
        Target::Substr(_) => 0,
    }
}

pub fn wanted_count(t: Target) -> usize
    ensures { result ≡ wanted_by t }
{
    match t {
        Target::Entry(c) => c.count,
        Target::Substr(n) => n,
    }
}

// An argument that was evaluated, made what is wished for.
pub fn with_wish(work: &mut [u8], u: usize, w: Wish, x: Evaluated) -> Evaluated
    ensures { WithWish work.old u w x work.new result }
{
    let (v, to, m) = x?;
    match w {
        Wish::As(t) => given_up_to(convert(work, u, t, v), to, m),
        Wish::AsSubject => given_up_to(subject(work, u, v), to, m),
    }
}

pub fn first_kept(i: usize, first: Value, v: Value) -> Value
    ensures { result ≡ cond (ltb i 1) v first }
{
    if i < 1 {
        return v;
    }
    first
}

// The value of a call with the place past it.
pub fn up_to(x: Evaluated, to: usize) -> Evaluated
    ensures { result ≡ with_end x to }
{
    let (v, _, m) = x?;
    Ok((v, to, m))
}

// SUBSTR of the arguments that wait above u.
pub fn substr_of(
    work: &mut [u8],
    u: usize,
    n: usize,
    held: Held,
    first: Value,
    to: usize,
    m: Meter,
) -> Evaluated
    ensures { SubstrDone work.old u n held first to m work.new result }
{
    if n < 3 {
        return given_up_to(substr_rest(work, u, first, fixed_held(held, 1)), to, m);
    }
    given_up_to(
        substr_part(work, u, first, fixed_held(held, 1), fixed_held(held, 2)),
        to,
        m,
    )
}

// ---- what a name without a list gives that is no entry

pub fn plain_value(
    cells: &[u32],
    low: &[u8],
    high: &[u8],
    work: &mut [u8],
    x: Meant,
    u: usize,
    to: usize,
    m: Meter,
) -> Evaluated
    ensures { PlainIs cells.now low.now high.now work.old u m x to work.new result }
{
    match x {
        Meant::AVariable(a, t) => given_up_to(
            variable_value(cells, low, high, work, a, t, u),
            to,
            m,
        ),
        Meant::AnEntry(_) | Meant::NoSuch => Err((Why::WrongName, m)),
        Meant::TheSubstr => Err((Why::WrongArguments, m)),
    }
}

pub fn aim_of(
    deck: &[u8],
    rows: &[u16],
    starts: Starts,
    names: &[u16],
    count: u16,
    x: Meant,
    n: usize,
) -> Result<Target, Why>
    ensures { AimIs deck.now rows.now starts names.now count x n result }
{
    match x {
        Meant::AnEntry(b) => {
            let y = callee_of(deck, rows, starts, names, count, b)?;
            if y.count != n {
                return Err(Why::WrongArguments);
            }
            Ok(Target::Entry(y))
        }
        Meant::TheSubstr if n == 2 || n == 3 => Ok(Target::Substr(n)),
        Meant::TheSubstr => Err(Why::WrongArguments),
        Meant::AVariable(_, _) | Meant::NoSuch => Err(Why::WrongName),
    }
}

// The place past the parenthesis that closes.
pub fn closed(s: &[u8], x: Evaluated) -> Evaluated
    ensures { ClosedIs s.now x result }
{
    let (v, e, m) = x?;
    Ok((v, token_at(s, e).to, m))
}
