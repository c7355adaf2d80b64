// The syntax of an expression: which operator stands next, a sign or a name that must follow, and where the whole ends.
// Parts: operators, a sign or a name that must follow, prefix operators, the check of a whole expression.
// A loop that goes from token to token has no more turns than there are bytes; they are counted down, as the definition does.
#![tactic(auto)]

ghost use Rattle.std.specs.Prelude.{◌≡◌, length};
ghost use Rattle.definition.specs.Bytes.{mixed};
ghost use Rattle.definition.specs.Tokens.{token_at, sign};
ghost use Rattle.definition.specs.Expressions as E;
ghost use Rattle.tokens.specs.Answer.{written};
ghost use Rattle.tokens.specs.declared.Kind.TheVariants.{Sign};
ghost use Rattle.expressions.specs.Check.{infix_at, single_for, prefix_for, expected, expected_word, named_for, prefixes, end_for, inside_of, referred, primitive_at, operand_in, levels_in, chain_in};

use definition::{Fault, Operator, Prefix, Why};
use limits::{Name, Nesting};
use tokens::{Kind, Lexeme, is_sign, is_word, is_word_kind, token_at, width};

// How many levels of binding the infix operators have.
pub const LEVELS: usize = 6;

// The place past what must follow, or the refusal and its place.
pub type Expected = Result<usize, Fault>;

// A name: where it begins and the place past it.
pub type NamedAt = Result<(usize, usize), Fault>;

// The prefix operator that stands next.
pub fn prefix_at(s: &[u8], at: usize) -> Option<(Prefix, usize)>
    ensures { result ≡ prefix_for (E.prefix_of (token_at mixed s.now at).token) (token_at mixed s.now at).to }
{
    let t = token_at(s, at);
    if is_sign(s, t, b"+") {
        return Some((Prefix::Positive, t.to));
    }
    if is_sign(s, t, b"-") {
        return Some((Prefix::Negative, t.to));
    }
    if is_sign(s, t, b"^") {
        return Some((Prefix::Complement, t.to));
    }
    None
}

// An operator that is alone on its level, with its sign.
fn single_at(s: &[u8], at: usize, w: &[u8], o: Operator) -> Option<(Operator, usize)>
    ensures { result ≡ single_for w.now o s.now at }
{
    let t = token_at(s, at);
    if is_sign(s, t, w) {
        return Some((o, t.to));
    }
    None
}

// `*` or `/`, the tightest.
fn product_at(s: &[u8], at: usize) -> Option<(Operator, usize)>
    ensures { result ≡ infix_at 0 s.now at }
{
    let t = token_at(s, at);
    if is_sign(s, t, b"*") {
        return Some((Operator::Times, t.to));
    }
    if is_sign(s, t, b"/") {
        return Some((Operator::Divided, t.to));
    }
    None
}

// `+` or `-`.
fn sum_at(s: &[u8], at: usize) -> Option<(Operator, usize)>
    ensures { result ≡ infix_at 1 s.now at }
{
    let t = token_at(s, at);
    if is_sign(s, t, b"+") {
        return Some((Operator::Plus, t.to));
    }
    if is_sign(s, t, b"-") {
        return Some((Operator::Minus, t.to));
    }
    None
}

// A comparison.
fn comparison_at(s: &[u8], at: usize) -> Option<(Operator, usize)>
    ensures { result ≡ infix_at 3 s.now at }
{
    let t = token_at(s, at);
    if is_sign(s, t, b">") {
        return Some((Operator::Greater, t.to));
    }
    if is_sign(s, t, b">=") {
        return Some((Operator::GreaterEqual, t.to));
    }
    if is_sign(s, t, b"=") {
        return Some((Operator::Equal, t.to));
    }
    if is_sign(s, t, b"<") {
        return Some((Operator::Less, t.to));
    }
    if is_sign(s, t, b"<=") {
        return Some((Operator::LessEqual, t.to));
    }
    if is_sign(s, t, b"^>") {
        return Some((Operator::NotGreater, t.to));
    }
    if is_sign(s, t, b"^=") {
        return Some((Operator::NotEqual, t.to));
    }
    if is_sign(s, t, b"^<") {
        return Some((Operator::NotLess, t.to));
    }
    None
}

// The infix operator of a level that stands next; level 0 binds tightest.
pub fn infix_at(s: &[u8], at: usize, level: usize) -> Option<(Operator, usize)>
    ensures { result ≡ infix_at level s.now at }
{
    match level {
        0 => product_at(s, at),
        1 => sum_at(s, at),
        2 => single_at(s, at, b"||", Operator::CatOp),
        3 => comparison_at(s, at),
        4 => single_at(s, at, b"&", Operator::AndOp),
        _ => single_at(s, at, b"|", Operator::OrOp),
    }
}

// A sign that must follow.
pub fn expect_sign(s: &[u8], at: usize, w: &[u8]) -> Expected
    ensures { result ≡ expected w.now s.now at }
{
    let t = token_at(s, at);
    if is_sign(s, t, w) {
        return Ok(t.to);
    }
    Err((Why::Syntax, t.from))
}

// A name that must follow.
pub fn name_at(s: &[u8], at: usize) -> NamedAt
    ensures { result ≡ named_for (E.name_at mixed s.now at) }
{
    let t = token_at(s, at);
    if is_word_kind(t.kind) {
        if width(t) <= Name::LONGEST {
            return Ok((t.from, t.to));
        }
        return Err((Why::OverLimit, t.from));
    }
    Err((Why::Syntax, t.from))
}

// A word that must follow.
pub fn expect_word(s: &[u8], at: usize, w: &[u8]) -> Expected
    ensures { result ≡ expected_word w.now s.now at }
{
    let t = token_at(s, at);
    if is_word(s, t, w) {
        return Ok(t.to);
    }
    Err((Why::Syntax, t.from))
}

// Prefix operators: how many they are, and the place behind them.
#[derive(Clone, Copy)]
pub struct Prefixes {
    pub count: usize,
    pub to: usize,
}

pub fn past_prefixes(s: &[u8], from: usize) -> Prefixes
    ensures { result ≡ prefixes (length s.now) s.now from }
{
    let mut at = from;
    for count in 0..s.len() {
        let Some((_, q)) = prefix_at(s, at) else {
            return Prefixes { count, to: at };
        };
        at = q;
    }
    Prefixes {
        count: s.len(),
        to: at,
    }
}

// ---- the check of an expression: the place past it. `left` parentheses may still be opened in it

// What stands behind the parenthesis at p.
#[cycle(expression)]
pub fn inside(s: &[u8], p: usize, at: usize, left: usize) -> Expected
    ensures { result ≡ end_for (inside_of left s.now p at) }
{
    if left < 1 {
        return Err((Why::OverLimit, p));
    }
    levels(s, at, LEVELS, left - 1)
}

// Arguments, from behind the parenthesis at p; more turns than there are bytes are never needed.
#[cycle(expression)]
fn arguments(s: &[u8], p: usize, from: usize, left: usize) -> Expected
    ensures { result ≡ end_for (E.arguments mixed (inside_of left s.now p) s.now (length s.now) from) }
{
    let mut at = from;
    for turn in (0..s.len()).rev() {
        let e = inside(s, p, at, left)?;
        let t = token_at(s, e);
        if !is_sign(s, t, b",") {
            return expect_sign(s, e, b")");
        }
        at = t.to;
    }
    Err((Why::Syntax, at))
}

#[cycle(expression)]
fn reference(s: &[u8], at: usize, left: usize) -> Expected
    ensures { result ≡ end_for (referred (inside_of left s.now) s.now at) }
{
    let (_, to) = name_at(s, at)?;
    let t = token_at(s, to);
    if is_sign(s, t, b"(") {
        return arguments(s, t.from, t.to, left);
    }
    Ok(to)
}

#[cycle(expression)]
fn parenthesized(s: &[u8], t: Lexeme, left: usize) -> Expected
    requires { t.kind ≡ Sign }
    ensures { result ≡ end_for (E.primitive mixed (inside_of left s.now) s.now (sign (written s.now t)) t.from t.to) }
{
    if is_sign(s, t, b"(") {
        let e = inside(s, t.from, t.to, left)?;
        return expect_sign(s, e, b")");
    }
    Err((Why::Syntax, t.from))
}

#[cycle(expression)]
fn primitive(s: &[u8], at: usize, left: usize) -> Expected
    ensures { result ≡ end_for (primitive_at (inside_of left s.now) s.now at) }
{
    let t = token_at(s, at);
    match t.kind {
        Kind::Word => reference(s, at, left),
        Kind::Integer | Kind::String | Kind::Bits => Ok(t.to),
        Kind::Sign => parenthesized(s, t, left),
        Kind::Nothing | Kind::Wrong => Err((Why::Syntax, t.from)),
    }
}

#[cycle(expression)]
fn operand(s: &[u8], at: usize, left: usize) -> Expected
    ensures { result ≡ end_for (operand_in left s.now at) }
{
    primitive(s, past_prefixes(s, at).to, left)
}

// What follows an operand: operators of a level, each with its right side; as many turns as the definition has.
#[cycle(expression)]
fn chain(s: &[u8], from: usize, level: usize, left: usize) -> Expected
    ensures { result ≡ end_for (chain_in left s.now level from) }
{
    let mut at = from;
    for turn in (0..s.len() + 1).rev() {
        let Some((_, q)) = infix_at(s, at, level) else {
            return Ok(at);
        };
        at = levels(s, q, level, left)?;
    }
    Err((Why::Syntax, at))
}

// n levels of infix operators over operands.
#[cycle(expression)]
fn levels(s: &[u8], at: usize, n: usize, left: usize) -> Expected
    ensures { result ≡ end_for (levels_in left s.now n at) }
{
    if n < 1 {
        return operand(s, at, left);
    }
    let e = levels(s, at, n - 1, left)?;
    chain(s, e, n - 1, left)
}

// THE EXPRESSION at a place.
pub fn check(s: &[u8], at: usize) -> Expected
    ensures { result ≡ end_for (E.whole_expression mixed s.now at) }
{
    levels(s, at, LEVELS, Nesting::PARENTHESES)
}
