// What a name means in an expression, and what a call needs to know of its procedure: its parameters, the arguments that wait for
// it, and which procedures are running.
// Parts: what a name means, procedures that run, parameters, arguments that wait, values of variables.
#![tactic(auto)]

ghost use Rattle.std.specs.Prelude.{◌≡◌, cond, not, ◌&&◌, eqb, length, ◌-◌};
ghost use Rattle.definition.specs.Bytes.{mixed, folded};
ghost use Rattle.definition.specs.Tokens.{token_at, is_sign};
ghost use Rattle.definition.specs.Lists.{part};
ghost use Rattle.definition.specs.Evaluate as E;
ghost use Rattle.definition.specs.Calls.{is_running};
ghost use Rattle.names.specs.Table.{owner_of};
ghost use Rattle.callees.specs.Shown.{names_world};
ghost use Rattle.callees.specs.Answer.{meant_for, on_of, StartedIs, ParameterIs, CountedIs, CalleeOf, held_number, HeldWith, held_at, FixedHeld, HeldIs, VariableIs, ValueStored, AllStored};
ghost use Rattle.callees.specs.declared.Meant.TheVariants.{TheSubstr, NoSuch};

use chars::spells;
use deck::body;
use definition::{ValueType, Why};
use fixed::Fixed;
use limits::Levels;
use names::{Denotation, Owner, Place, find, name_at, seen_from};
use operators::{Value, above, size_of};
use rows::{Starts, part_of, row_at};
use store::{characters_at, copy_characters, number_at, store_characters, store_number};
use sums::less;
use tokens::{is_sign, token_at, width};

// ---- what a name means

#[derive(Clone, Copy)]
pub enum Meant {
    AVariable(u16, ValueType),
    AnEntry(Option<Place>),
    TheSubstr,
    NoSuch,
}

fn is_substr(s: &[u8], from: usize, n: usize) -> bool
    ensures { result ≡ E.is_substr (folded mixed (part n from s.now)) }
{
    n == 6 && spells(s, from, b"SUBSTR", 0, 6)
}

fn substr_or(is_builtin: bool) -> Meant
    ensures { result ≡ cond is_builtin TheSubstr NoSuch }
{
    if is_builtin {
        return Meant::TheSubstr;
    }
    Meant::NoSuch
}

// "An undeclared SUBSTR is the builtin; any other BUILTIN name is 6 when used."
pub fn meant_by(
    deck: &[u8],
    s: &[u8],
    names: &[u16],
    count: u16,
    owner: Owner,
    from: usize,
    to: usize,
) -> Meant
    ensures { meant_for result ≡ E.meant (owner_of owner) (folded mixed (part (to - from) from s.now)) (names_world deck.now names.now count) }
{
    let n = less(to, from);
    let Some(a) = seen_from(deck, names, count, s, from, n, owner) else {
        return substr_or(is_substr(s, from, n));
    };
    match name_at(names, a).denotation {
        Denotation::Variable(t) => Meant::AVariable(a.0, t),
        Denotation::EntryName(e) => Meant::AnEntry(e.body),
        Denotation::LabelName(_) => Meant::NoSuch,
        Denotation::Builtin => substr_or(is_substr(s, from, n)),
    }
}

// ---- procedures that are running

#[derive(Clone, Copy)]
pub struct Running {
    // how many may still be started
    pub left: usize,
    pub places: [Place; 16],
}

pub fn none_running() -> Running
    ensures { result.left ≡ 16 }
{
    Running {
        left: Levels::PROCEDURES,
        places: [Place { member: 0, row: 0 }; 16],
    }
}

// Whether the procedure at p is running.
pub fn is_running(g: Running, p: Place) -> bool
    ensures { result ≡ is_running p.member p.row (on_of g) }
{
    // stays: a loop; a chain of skip and any is no plainer
    for i in g.left..16 {
        if is_here(g.places[i], p) {
            return true;
        }
    }
    false
}

fn is_here(q: Place, p: Place) -> bool
    ensures { result ≡ (eqb q.member p.member && eqb q.row p.row) }
{
    q.member == p.member && q.row == p.row
}

// The procedure at p started.
pub fn started(g: Running, p: Place) -> Running
    ensures { StartedIs g p result }
{
    let mut all = g;
    if g.left == 0 {
        return all;
    }
    let n = g.left - 1;
    all.left = n;
    if n < 16 {
        all.places[n] = p;
    }
    all
}

// ---- parameters

// A parameter: its address, its type, and the place behind it in the list.
#[derive(Clone, Copy)]
pub struct Parameter {
    pub address: u16,
    pub value_type: ValueType,
    pub to: usize,
}

// "A parameter its procedure doesn't declare FIXED or CHARACTER is 6 at the call."
pub fn parameter_at(
    deck: &[u8],
    s: &[u8],
    names: &[u16],
    count: u16,
    p: Place,
    at: usize,
) -> Option<Parameter>
    ensures { ParameterIs deck.now s.now names.now count p at result }
{
    let t = token_at(s, at);
    let found = find(deck, names, count, s, t.from, width(t), Owner::Procedure(p));
    let a = found?;
    match name_at(names, a).denotation {
        Denotation::Variable(value_type) => Some(Parameter {
            address: a.0,
            value_type,
            to: token_at(s, t.to).to,
        }),
        Denotation::EntryName(_) | Denotation::LabelName(_) | Denotation::Builtin => None,
    }
}

// A body that can be called: where it is, where its parameters are listed, and how many they are.
#[derive(Clone, Copy)]
pub struct Callee {
    pub place: Place,
    pub list: usize,
    pub count: usize,
}

// Counts the parameters of the list at a place of the body s.
fn counted(
    deck: &[u8],
    s: &[u8],
    names: &[u16],
    count: u16,
    p: Place,
    list: usize,
) -> Result<Callee, Why>
    ensures { CountedIs deck.now s.now names.now count p list result }
{
    let mut at = list;
    for n in 0..s.len() {
        let Some(y) = parameter_at(deck, s, names, count, p, at) else {
            return Err(Why::WrongName);
        };
        if is_last(s, at) {
            return Ok(Callee {
                place: p,
                list,
                count: n + 1,
            });
        }
        at = y.to;
    }
    Err(Why::WrongName)
}

// Whether no comma follows the name at a place.
fn is_last(s: &[u8], at: usize) -> bool
    ensures { result ≡ not (is_sign "," (token_at mixed s.now (token_at mixed s.now at).to).token) }
{
    let t = token_at(s, at);
    !is_sign(s, token_at(s, t.to), b",")
}

// "as is an entry without a body"
pub fn callee_of(
    deck: &[u8],
    rows: &[u16],
    starts: Starts,
    names: &[u16],
    count: u16,
    b: Option<Place>,
) -> Result<Callee, Why>
    ensures { CalleeOf deck.now rows.now starts names.now count b result }
{
    let Some(p) = b else {
        return Err(Why::WrongName);
    };
    let s = body(deck, p.member);
    let part = part_of(rows, starts, p.member);
    // stays: as; with usize::from the goals of both ends did not close
    let t = token_at(s, row_at(part, p.row).content as usize);
    if is_sign(s, t, b"(") {
        return counted(deck, s, names, count, p, t.to);
    }
    Ok(Callee {
        place: p,
        list: t.from,
        count: 0,
    })
}

// ---- arguments that wait: of a FIXED the number as it is stored, of a CHARACTER the length of what lies in the work room

#[derive(Clone, Copy)]
pub struct Held {
    pub numbers: [u32; 256],
}

pub fn nothing_held() -> Held
    ensures { length result.numbers ≡ 256 }
{
    Held { numbers: [0; 256] }
}

fn held_number(v: Value) -> u32
    ensures { result ≡ held_number v }
{
    match v {
        Value::Number(x) => x.stored(),
        Value::Characters(n) | Value::Bits(n) => (n % 65_536) as u32,
    }
}

pub fn with_held(h: Held, i: usize, v: Value) -> Held
    ensures { HeldWith h i v result }
{
    let mut all = h;
    if i < 256 {
        all.numbers[i] = held_number(v);
    }
    all
}

pub fn held_at(h: Held, i: usize) -> u32
    ensures { result ≡ held_at h i }
{
    if i < 256 {
        return h.numbers[i];
    }
    0
}

// A waiting number; it is always in range.
pub fn fixed_held(h: Held, i: usize) -> Fixed
    ensures { FixedHeld h i result }
{
    Fixed::from_stored(held_at(h, i)).unwrap_or(Fixed { value: 0 })
}

// ---- values of variables

// Puts the value of a variable above u bytes.
pub fn variable_value(
    cells: &[u32],
    low: &[u8],
    high: &[u8],
    work: &mut [u8],
    a: u16,
    t: ValueType,
    u: usize,
) -> Result<Value, Why>
    ensures { VariableIs cells.now low.now high.now work.old a t u work.new result }
{
    match t {
        ValueType::FixedType => match number_at(cells, a) {
            Some(n) => Ok(Value::Number(n)),
            None => Err(Why::NoValue),
        },
        ValueType::CharacterType => match characters_at(cells, a) {
            Some(n) => {
                let size = n as usize;
                copy_characters(low, high, a, size, work, u);
                operators::among(u, Value::Characters(size))
            }
            None => Err(Why::NoValue),
        },
    }
}

// Stores a value of the variable's own type, which lies at u.
pub fn store_value(
    cells: &mut [u32],
    low: &mut [u8],
    high: &mut [u8],
    work: &[u8],
    a: u16,
    u: usize,
    v: Value,
)
    ensures { ValueStored cells.old low.old high.old work.now a u v cells.new low.new high.new }
{
    match v {
        Value::Number(x) => store_number(cells, a, x),
        Value::Characters(n) | Value::Bits(n) => {
            store_characters(cells, low, high, a, work, u, (n % 65_536) as u16)
        }
    }
}

// The waiting argument i, of a type.
fn held_value(h: Held, i: usize, t: ValueType) -> Value
    ensures { HeldIs h i t result }
{
    match t {
        ValueType::FixedType => Value::Number(fixed_held(h, i)),
        ValueType::CharacterType => Value::Characters(held_at(h, i) as usize),
    }
}

// Stores the arguments that wait above u bytes in the parameters of their procedure.
pub fn store_all(
    deck: &[u8],
    names: &[u16],
    cells: &mut [u32],
    low: &mut [u8],
    high: &mut [u8],
    work: &[u8],
    count: u16,
    c: Callee,
    h: Held,
    u: usize,
)
    ensures { AllStored deck.now names.now cells.old low.old high.old work.now count c h u cells.new low.new high.new }
{
    let p = c.place;
    let s = body(deck, p.member);
    let mut at = c.list;
    let mut top = u;
    for i in 0..c.count {
        let Some(y) = parameter_at(deck, s, names, count, p, at) else {
            return;
        };
        let v = held_value(h, i, y.value_type);
        store_value(cells, low, high, work, y.address, top, v);
        top = above(top, size_of(v));
        at = y.to;
    }
}
