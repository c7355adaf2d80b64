// What scanning is made of: the text that is scanned, a stretch of a body or of the work room, given by numbers, since the work
// room is read and written at once; the names in it that are active; where outcomes go; and argument lists.
// Parts: the text that is scanned, outcomes, argument lists, values, the copy under NORESCAN.
#![tactic(auto)]

ghost use Rattle.std.specs.Prelude.{◌≡◌, ◌+◌, MatchOption};
ghost use Rattle.definition.specs.Bytes.{mixed, folded};
ghost use Rattle.definition.specs.Lists.{part};
ghost use Rattle.definition.specs.Scan as D;
ghost use Rattle.definition.specs.Values.{fixed_text};
ghost use Rattle.names.specs.Table.{activity_of};
ghost use Rattle.operators.specs.Stands.{given_in};
ghost use Rattle.store.specs.Cells.{cell_in, slot, half};
ghost use Rattle.sums.specs.Numbers.{greatest, sum_to};
ghost use Rattle.outcomes.specs.Texts.{room_of, stretch_of, Within, PieceIn, active_for, ActiveIs, ActiveHere, part_of};
ghost use Rattle.outcomes.specs.Places.{into_of, after_of, waiting_of, into_work, Puts, Copied, Settled, TextIs};
ghost use Rattle.outcomes.specs.Copies.{is_rescanned, CopiedValue, held_by, CopiedFrom};
ghost use Rattle.outcomes.specs.Arguments.{past_blanks, cut_from, EndIs, ListingIs, ListIn, end_place, EndIn};

use chars::is_blank;
use definition::{ValueType, Why};
use fixed::Fixed;
use meter::{Meter, Refused};
use names::{Activity, Address, Owner, find, name_at};
use operators::{Value, above, fits, move_down, move_up, size_of, to_characters};
use rooms::{byte, copy};
use store::{characters_at, copy_characters, number_at};
use sums::{less, sum};
use tokens::{Piece, PieceKind, piece_at};
use values::put_fixed;

// What is scanned: a stretch of a body, or of the work room.
#[derive(Clone, Copy)]
pub struct Src {
    pub in_work: bool,
    pub from: usize,
    pub to: usize,
}

// Where an outcome goes: into the text room from a place on, or into the work room above what waits; and how many bytes may go.
#[derive(Clone, Copy)]
pub struct Dest {
    pub to_work: bool,
    pub at: usize,
    pub room: usize,
}

// ---- the text that is scanned

// The room that a text lies in.
#[tactic(auto, unfolding(crate::specs::Texts::room_of))]
fn room_of<'a>(s: &'a [u8], work: &'a [u8], x: Src) -> &'a [u8]
    ensures { result.now ≡ room_of s.now work.now x }
{
    if x.in_work { work } else { s }
}

// The bytes of a text, if it lies in its room.
fn bytes_of<'a>(s: &'a [u8], work: &'a [u8], x: Src) -> Option<&'a [u8]>
    ensures { MatchOption result (Within (room_of s.now work.now x) x.from x.to → ⊥) (λ t. t.now ≡ stretch_of (room_of s.now work.now x) x.from x.to) }
{
    room_of(s, work, x).get(x.from..x.to)
}

// The token of the text at p.
pub fn piece_of(s: &[u8], work: &[u8], x: Src, p: usize) -> Piece
    ensures { PieceIn (room_of s.now work.now x) x.from x.to p result }
{
    match bytes_of(s, work, x) {
        Some(t) => piece_at(t, p),
        None => Piece {
            kind: PieceKind::Plain,
            to: p,
        },
    }
}

fn active_as(a: Address, y: Activity) -> Option<(Address, Activity)>
    ensures { active_for result ≡ D.active_as (activity_of y) a.0 }
{
    match y {
        Activity::Inactive => None,
        Activity::CopiedOnly | Activity::Rescanned => Some((a, y)),
    }
}

// Whether the n bytes at a place are a name that is active.
fn active_name(
    deck: &[u8],
    t: &[u8],
    names: &[u16],
    count: u16,
    from: usize,
    n: usize,
) -> Option<(Address, Activity)>
    ensures { ActiveIs deck.now names.now count (folded mixed (part n from t.now)) result }
{
    let a = find(deck, names, count, t, from, n, Owner::Everyone)?;
    active_as(a, name_at(names, a).activity)
}

// The same of a token of the text at p.
pub fn active_in(
    deck: &[u8],
    s: &[u8],
    work: &[u8],
    names: &[u16],
    count: u16,
    x: Src,
    p: usize,
    y: Piece,
) -> Option<(Address, Activity)>
    ensures { ActiveHere deck.now names.now count (room_of s.now work.now x) x p y result }
{
    match y.kind {
        PieceKind::Name => {
            let n = less(y.to, p);
            active_name(deck, room_of(s, work, x), names, count, sum(x.from, p), n)
        }
        PieceKind::Plain | PieceKind::Unclosed => None,
    }
}

// ---- outcomes

// Whether n bytes go behind an outcome of k bytes, where u bytes wait.
fn may_put(d: Dest, u: usize, k: usize, n: usize) -> bool
    ensures { result ≡ D.fits (into_of d) u k n }
{
    k <= d.room && n <= d.room - k && (!d.to_work || fits(u, sum(k, n)))
}

// Why a full room is refused.
fn full(d: Dest) -> Why
    ensures { result ≡ D.full (into_of d) }
{
    if d.to_work {
        return Why::TooLong;
    }
    Why::RoomFull
}

// The same place after k bytes of outcome.
pub fn after(d: Dest, k: usize) -> Dest
    ensures { result ≡ after_of d k }
{
    Dest {
        to_work: d.to_work,
        at: sum(d.at, k),
        room: less(d.room, k),
    }
}

// The bytes that wait after k bytes of outcome.
pub fn waiting(d: Dest, u: usize, k: usize) -> usize
    ensures { result ≡ waiting_of d u k }
{
    if d.to_work {
        return above(u, k);
    }
    u
}

// Puts n bytes of a text, from p on, behind an outcome of k bytes.
fn put_bytes(
    s: &[u8],
    work: &mut [u8],
    text: &mut [u8],
    x: Src,
    p: usize,
    n: usize,
    d: Dest,
    u: usize,
    k: usize,
)
    ensures { Puts s.now work.old text.old x p n d u k work.new text.new }
{
    let from = sum(x.from, p);
    match (d.to_work, x.in_work) {
        (true, true) => move_up(work, from, n, above(u, k)),
        (true, false) => copy(s, from, n, work, above(u, k)),
        (false, true) => copy(work, from, n, text, sum(d.at, k)),
        (false, false) => copy(s, from, n, text, sum(d.at, k)),
    }
}

// An outcome so far, or a refusal; and the steps.
pub type Scanned = Result<(usize, Meter), Refused>;

// The outcome of one replacement and the place behind it.
pub type Replaced = Result<(usize, usize, Meter), Refused>;

// A token copied behind an outcome of k bytes.
pub fn copy_token(
    s: &[u8],
    work: &mut [u8],
    text: &mut [u8],
    x: Src,
    p: usize,
    q: usize,
    d: Dest,
    u: usize,
    k: usize,
    m: Meter,
) -> Replaced
    ensures { Copied s.now work.old text.old x p q d u k m work.new text.new result }
{
    let n = less(q, p);
    if may_put(d, u, k, n) {
        put_bytes(s, work, text, x, p, n, d, u, k);
        return Ok((n, q, m));
    }
    Err((full(d), m))
}

// ---- argument lists

// Where an argument ends: at a comma, or at the parenthesis that closes the list.
// stays: three ends, of which an Option of a place would lose one.
#[derive(Clone, Copy)]
enum Ending {
    Comma(usize),
    Close(usize),
    Open,
}

pub fn place_after(p: usize) -> usize
    ensures { result ≡ sum_to greatest p 1 }
{
    sum(p, 1)
}

// "cut at outer commas": the end of the argument that begins at a place.
fn argument_end(t: &[u8], from: usize) -> Ending
    ensures { EndIs t.now from result }
{
    let mut p = from;
    let mut open: usize = 0;
    for _ in 0..t.len() {
        if t.len() <= p {
            return Ending::Open;
        }
        match t[p] {
            b'(' => {
                open = sum(open, 1);
                p = place_after(p);
            }
            b')' if open < 1 => return Ending::Close(p),
            b')' => {
                open -= 1;
                p = place_after(p);
            }
            b',' if open < 1 => return Ending::Comma(p),
            _ => p = piece_at(t, p).to,
        }
    }
    Ending::Open
}

// A list: how many arguments it has, where the first begins, and the place past it.
pub type Listing = Option<(usize, usize, usize)>;

fn arguments_from(t: &[u8], first: usize) -> Listing
    ensures { ListingIs t.now first (cut_from t.now first) result }
{
    let mut from = first;
    for n in 0..t.len() {
        match argument_end(t, from) {
            Ending::Comma(p) => from = place_after(p),
            Ending::Close(p) => return Some((n + 1, first, place_after(p))),
            Ending::Open => return None,
        }
    }
    None
}

fn past_blanks(t: &[u8], p: usize) -> usize
    ensures { result ≡ past_blanks t.now p }
{
    let mut i = p;
    // stays: over `p..t.len()` the place behind the loop would be the greater of p and the end, a line more
    while i < t.len() && is_blank(t[i]) {
        i += 1;
    }
    i
}

// "needs `(`, after blanks only"
fn list_at(t: &[u8], p: usize) -> Listing
    ensures { ListingIs t.now (past_blanks t.now p + 1) (D.list_at mixed t.now p) result }
{
    let q = past_blanks(t, p);
    if byte(t, q, 0) == b'(' {
        return arguments_from(t, place_after(q));
    }
    None
}

pub fn list_of(s: &[u8], work: &[u8], x: Src, p: usize) -> Listing
    ensures { ListIn (room_of s.now work.now x) x.from x.to p result }
{
    let t = bytes_of(s, work, x)?;
    list_at(t, p)
}

fn end_place(e: Ending, p: usize) -> usize
    ensures { result ≡ end_place e p }
{
    match e {
        Ending::Comma(q) | Ending::Close(q) => q,
        Ending::Open => p,
    }
}

// Where the argument of a list ends that begins at p.
pub fn end_of(s: &[u8], work: &[u8], x: Src, p: usize) -> usize
    ensures { EndIn (room_of s.now work.now x) x.from x.to p result }
{
    match bytes_of(s, work, x) {
        Some(t) => end_place(argument_end(t, p), p),
        None => p,
    }
}

// A part of what is scanned.
pub fn part_of(x: Src, from: usize, to: usize) -> Src
    ensures { result ≡ part_of x from to }
{
    Src {
        in_work: x.in_work,
        from: sum(x.from, from),
        to: sum(x.from, to),
    }
}

// ---- values

pub fn into_work() -> Dest
    ensures { result ≡ into_work }
{
    Dest {
        to_work: true,
        at: 0,
        room: limits::Value::LONGEST,
    }
}

// A value as CHARACTER at u: how long it is.
pub fn as_text(work: &mut [u8], u: usize, g: Result<Value, Why>, m: Meter) -> Scanned
    ensures { TextIs work.old u g m work.new result }
{
    match g {
        Ok(v) => {
            match to_characters(work, u, v) {
                Ok(x) => Ok((size_of(x), m)),
                Err(w) => Err((w, m)),
            }
        }
        Err(w) => Err((w, m)),
    }
}

// Whether what a name gives is scanned.
pub fn is_rescanned(y: Activity) -> bool
    ensures { result ≡ is_rescanned y }
{
    matches!(y, Activity::Rescanned)
}

// An outcome of a value that lay at u and of which n bytes were scanned comes down to u.
pub fn settled(work: &mut [u8], d: Dest, u: usize, n: usize, x: Scanned) -> Scanned
    ensures { Settled work.old d u n x work.new result }
{
    let (k, m) = x?;
    if d.to_work {
        move_down(work, above(u, n), k, u);
    }
    Ok((k, m))
}

// ---- with NORESCAN a value is copied from where it lies to where it goes, and waits nowhere in between

// stays: one function with a closure that writes the bytes would have to say in its contract what every call of the closure writes

// The n bytes that lie at u already.
fn copied_value(work: &[u8], text: &mut [u8], n: usize, d: Dest, u: usize, m: Meter) -> Scanned
    ensures { CopiedValue work.now text.old (part n u work.now) d u m work.now text.new result }
{
    if may_put(d, u, 0, n) {
        if d.to_work {
            return Ok((n, m));
        }
        copy(work, u, n, text, d.at);
        return Ok((n, m));
    }
    Err((full(d), m))
}

// A number, as its eight places.
fn copied_number(work: &mut [u8], text: &mut [u8], x: Fixed, d: Dest, u: usize, m: Meter) -> Scanned
    ensures { CopiedValue work.old text.old (fixed_text x.value) d u m work.new text.new result }
{
    if may_put(d, u, 0, Fixed::WIDTH) {
        if d.to_work {
            put_fixed(x, work, u);
            return Ok((Fixed::WIDTH, m));
        }
        put_fixed(x, text, d.at);
        return Ok((Fixed::WIDTH, m));
    }
    Err((full(d), m))
}

// The n bytes of the CHARACTER variable at the address a.
fn copied_characters(
    low: &[u8],
    high: &[u8],
    work: &mut [u8],
    text: &mut [u8],
    a: u16,
    n: usize,
    d: Dest,
    u: usize,
    m: Meter,
) -> Scanned
    ensures { CopiedValue work.old text.old (part n (slot a) (half a low.now high.now)) d u m work.new text.new result }
{
    if may_put(d, u, 0, n) {
        if d.to_work {
            copy_characters(low, high, a, n, work, u);
            return Ok((n, m));
        }
        copy_characters(low, high, a, n, text, d.at);
        return Ok((n, m));
    }
    Err((full(d), m))
}

// The value of the variable at the address a, of type t.
pub fn copied_variable(
    cells: &[u32],
    low: &[u8],
    high: &[u8],
    work: &mut [u8],
    text: &mut [u8],
    a: u16,
    t: ValueType,
    d: Dest,
    u: usize,
    m: Meter,
) -> Scanned
    ensures { CopiedFrom (held_by (cell_in cells.now low.now high.now t a)) work.old text.old d u m work.new text.new result }
{
    match t {
        ValueType::FixedType => match number_at(cells, a) {
            Some(n) => copied_number(work, text, n, d, u, m),
            None => Err((Why::NoValue, m)),
        },
        ValueType::CharacterType => match characters_at(cells, a) {
            Some(n) => { copied_characters(low, high, work, text, a, n as usize, d, u, m) }
            None => Err((Why::NoValue, m)),
        },
    }
}

// What a procedure returned, at u if it is not a number.
pub fn copied_result(
    work: &mut [u8],
    text: &mut [u8],
    g: Result<Value, Why>,
    d: Dest,
    u: usize,
    m: Meter,
) -> Scanned
    ensures { CopiedFrom (given_in work.old u g) work.old text.old d u m work.new text.new result }
{
    match g {
        Ok(v) => match v {
            Value::Number(x) => copied_number(work, text, x, d, u, m),
            Value::Characters(n) | Value::Bits(n) => copied_value(work, text, n, d, u, m),
        },
        Err(w) => Err((w, m)),
    }
}
