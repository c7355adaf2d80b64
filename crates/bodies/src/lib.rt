// What the statements of a body do with what was evaluated, and where control goes behind them. `u` is the bytes of the unfinished
// values that wait in the work room.
// Parts: statements that evaluate, the numbers of DO, another test of a group, where control goes, GOTO.
#![tactic(auto)]

ghost use Rattle.std.specs.Prelude.{◌≡◌, cond, ◌+◌};
ghost use Rattle.fixed.specs.Signed.{stored_of};
ghost use Rattle.names.specs.Table.{denotation_of, name_in};
ghost use Rattle.flow.specs.Walks.{behind_on, arrived_at, chosen_walk};
ghost use Rattle.bodies.specs.Deeds.{TargetIs, StoredIs, TruthIs, BoundIs};
ghost use Rattle.bodies.specs.Groups.{word_at, first_frame, frame_with, widened_by, control_of, SetOff, SummedIs, SteppedBy, SteppedIs};
ghost use Rattle.bodies.specs.Ways.{turned_by, after_done, after_test, into_group, after_start, again_in, ReturnIs};
ghost use Rattle.bodies.specs.Jumps.{jump_for, local_target, global_target, LabelIs, JumpsIn};

use callees::{Meant, meant_by, store_value};
use definition::{ValueType, Why};
use fixed::{Fixed, FixedError};
use flow::{Frame, Frames, Next};
use meter::{Meter, Refused};
use names::{Denotation, Label, Owner, find, name_at};
use operands::{Evaluated, Scene, Wish, with_wish};
use operators::{Value, convert, holds, to_fixed};
use rows::row_at;
use store::{number_at, store_number};
use tokens::{Lexeme, is_word, token_at, width};

// ---- a statement that evaluates; its expression was evaluated last

// A statement that was done, and the steps.
pub type Done = Result<Meter, Refused>;

// The variable whose name stands at a place; "a target is tested before its expression".
pub fn target_at(
    deck: &[u8],
    s: &[u8],
    names: &[u16],
    count: u16,
    owner: Owner,
    t: Lexeme,
) -> Option<(u16, ValueType)>
    ensures { TargetIs deck.now s.now names.now count owner t result }
{
    match meant_by(deck, s, names, count, owner, t.from, t.to) {
        Meant::AVariable(a, k) => Some((a, k)),
        Meant::AnEntry(_) | Meant::TheSubstr | Meant::NoSuch => None,
    }
}

// Stores what was evaluated, made of the variable's type.
pub fn stored(
    cells: &mut [u32],
    low: &mut [u8],
    high: &mut [u8],
    work: &mut [u8],
    a: u16,
    k: ValueType,
    u: usize,
    x: Evaluated,
) -> Done
    ensures { StoredIs cells.old low.old high.old work.old a k u x cells.new low.new high.new work.new result }
{
    let (v, _, m) = x?;
    match convert(work, u, k, v) {
        Ok(y) => {
            store_value(cells, low, high, work, a, u, y);
            Ok(m)
        }
        Err(w) => Err((w, m)),
    }
}

// Whether an IF holds, and the steps.
pub type Tested = Result<(bool, Meter), Refused>;

pub fn truth_of(work: &mut [u8], u: usize, x: Evaluated) -> Tested
    ensures { TruthIs work.old u x work.new result }
{
    let (v, _, m) = x?;
    match holds(work, u, v) {
        Ok(b) => Ok((b, m)),
        Err(w) => Err((w, m)),
    }
}

// ---- DO: its numbers

// A number and the place past its expression.
pub type Bound = Result<(Fixed, usize, Meter), Refused>;

pub fn bound_of(work: &[u8], u: usize, x: Evaluated) -> Bound
    ensures { BoundIs work.now u x result }
{
    let (v, e, m) = x?;
    match to_fixed(work, u, v) {
        Ok(y) => Ok((y, e, m)),
        Err(w) => Err((w, m)),
    }
}

// What a bound is: the step, or what the variable goes up to.
#[derive(Clone, Copy)]
pub enum Side {
    By,
    Upto,
}

pub fn bound_word(s: &[u8], at: usize) -> Option<(Side, usize)>
    ensures { result ≡ word_at s.now at }
{
    let t = token_at(s, at);
    if is_word(s, t, b"BY") {
        return Some((Side::By, t.to));
    }
    if is_word(s, t, b"TO") {
        return Some((Side::Upto, t.to));
    }
    None
}

// The frame of a group that is about to start and the place past the bounds that it has so far, or why there is none.
pub type Widened = Result<(Frame, usize, Meter), Refused>;

// "BY absent is 1."
pub fn new_frame(g: u16, a: u16) -> Frame
    ensures { result ≡ first_frame g a }
{
    let one = Fixed { value: 1 };
    Frame {
        group: Some(g),
        address: a,
        step: one.stored(),
        limit: 0,
        is_once: true,
    }
}

fn with_bound(f: Frame, a: Side, x: Fixed) -> Frame
    ensures { result ≡ frame_with f a (stored_of x.value) }
{
    match a {
        Side::By => Frame {
            step: x.stored(),
            is_once: false,
            ..f
        },
        Side::Upto => Frame {
            limit: x.stored(),
            is_once: false,
            ..f
        },
    }
}

// The frame with a bound that was evaluated.
pub fn bounded_by(f: Frame, a: Side, x: Bound) -> Widened
    ensures { result ≡ widened_by f a x }
{
    let (y, q, m) = x?;
    Ok((with_bound(f, a, y), q, m))
}

// "The control variable is FIXED, else 6."
pub fn control_address(v: Option<(u16, ValueType)>) -> Option<u16>
    ensures { result ≡ control_of v }
{
    match v {
        Some((a, ValueType::FixedType)) => Some(a),
        Some((_, ValueType::CharacterType)) | None => None,
    }
}

// An iterated group that starts: its frame, whether its first pass begins.
pub type Started = Result<(Frame, bool, Meter), Refused>;

// The variable is set, and the first pass tested.
pub fn set_off(cells: &mut [u32], x: Fixed, w: Widened) -> Started
    ensures { SetOff cells.old x w cells.new result }
{
    let (f, _, m) = w?;
    store_number(cells, f.address, x);
    Ok((f, flow::passes(f, x), m))
}

// ---- another test of an iterated group

// The next test of an iterated group: the variable as the body left it is stepped, then the step is charged, then it is tested.
pub fn stepped(cells: &mut [u32], f: Frame, m: Meter) -> Tested
    ensures { SteppedIs cells.old f m cells.new result }
{
    let Some(_) = f.group else {
        return Ok((false, m));
    };
    match number_at(cells, f.address) {
        Some(n) => stepped_by(cells, f, n, Fixed::from_stored(f.step), m),
        None => Err((Why::NoValue, m)),
    }
}

fn stepped_by(
    cells: &mut [u32],
    f: Frame,
    x: Fixed,
    by: Result<Fixed, FixedError>,
    m: Meter,
) -> Tested
    ensures { SteppedBy cells.old f x by m cells.new result }
{
    let Ok(n) = summed(x, by) else {
        return Err((Why::OutOfRange, m));
    };
    store_number(cells, f.address, n);
    let k = m.charged()?;
    Ok((flow::passes(f, n), k))
}

fn summed(x: Fixed, by: Result<Fixed, FixedError>) -> Result<Fixed, FixedError>
    ensures { SummedIs x by result }
{
    let n = by?;
    x.add(n)
}

// ---- where control goes in a body; `part` is the rows of its member

// What comes behind a statement of a body: another, or the value of RETURN.
#[derive(Clone, Copy)]
pub enum Step {
    On(Next, Meter),
    Gave(Value, Meter),
}

#[derive(Clone, Copy)]
pub struct Turned {
    pub frames: Frames,
    pub step: Result<Step, Refused>,
}

pub fn with_step(frames: Frames, step: Result<Step, Refused>) -> Turned
    ensures { result ≡ turned_by frames step }
{
    Turned { frames, step }
}

pub fn on_behind(part: &[u16], fs: Frames, n: u16, d: Done) -> Turned
    ensures { result ≡ turned_by fs (after_done d (behind_on part.now fs (n + 1) n)) }
{
    with_step(fs, d.map(|m| Step::On(flow::behind(part, fs, n), m)))
}

pub fn on_test(part: &[u16], fs: Frames, n: u16, t: Tested) -> Turned
    ensures { result ≡ turned_by fs (after_test t (λ b. arrived_at part.now fs (chosen_walk part.now n b))) }
{
    let step = t.map(|(b, m)| Step::On(flow::arrived(part, fs, flow::chosen(part, n, b)), m));
    with_step(fs, step)
}

#[tactic(auto, unfolding(crate::specs::Ways::into_group))]
pub fn into_group(part: &[u16], fs: Frames, g: u16) -> Next
    ensures { result ≡ into_group part.now fs g }
{
    flow::arrived(part, fs, flow::first_in(part, fs, g))
}

pub fn on_start(part: &[u16], fs: Frames, g: u16, x: Started) -> Turned
    ensures { result ≡ after_start part.now fs g x }
{
    match x {
        Ok((f, begins, m)) => {
            if begins {
                let inner = flow::with_frame(part, fs, g, f);
                return with_step(inner, Ok(Step::On(into_group(part, inner, g), m)));
            }
            with_step(fs, Ok(Step::On(flow::behind(part, fs, g), m)))
        }
        Err((w, m)) => with_step(fs, Err((w, m))),
    }
}

// A group that was tested again: into it, or behind it.
#[tactic(auto, unfolding(crate::specs::Ways::again_in))]
fn again_in(part: &[u16], fs: Frames, g: u16, b: bool) -> Next
    ensures { result ≡ again_in part.now fs g b }
{
    if b {
        return into_group(part, fs, g);
    }
    flow::behind(part, fs, g)
}

pub fn on_again(part: &[u16], fs: Frames, g: u16, t: Tested) -> Turned
    ensures { result ≡ turned_by fs (after_test t (λ b. again_in part.now fs g b)) }
{
    with_step(fs, t.map(|(b, m)| Step::On(again_in(part, fs, g, b), m)))
}

pub fn on_return(work: &mut [u8], fs: Frames, u: usize, t: ValueType, x: Evaluated) -> Turned
    ensures { ReturnIs work.old u fs t x work.new result }
{
    match with_wish(work, u, Wish::As(t), x) {
        Ok((y, _, m)) => with_step(fs, Ok(Step::Gave(y, m))),
        Err((w, m)) => with_step(fs, Err((w, m))),
    }
}

// ---- GOTO in a body

// A local label is one to go to; a global one is not.
fn label_of(names: &[u16], a: names::Address, is_local: bool) -> Result<Label, Why>
    ensures { jump_for result ≡ cond is_local (local_target (denotation_of (name_in names.now a.0).denotation)) (global_target (denotation_of (name_in names.now a.0).denotation)) }
{
    let Denotation::LabelName(l) = name_at(names, a).denotation else {
        return Err(Why::WrongName);
    };
    if is_local {
        return Ok(l);
    }
    Err(Why::WrongGoto)
}

// "local names first, every global label is 13"
fn jump_label(
    deck: &[u8],
    s: &[u8],
    names: &[u16],
    count: u16,
    owner: Owner,
    t: Lexeme,
) -> Result<Label, Why>
    ensures { LabelIs deck.now s.now names.now count owner t result }
{
    match find(deck, names, count, s, t.from, width(t), owner) {
        Some(a) => label_of(names, a, true),
        None => {
            match find(deck, names, count, s, t.from, width(t), Owner::Everyone) {
                Some(a) => label_of(names, a, false),
                None => Err(Why::WrongName),
            }
        }
    }
}

// The GOTO of row n in a procedure.
pub fn jump_in(
    deck: &[u8],
    s: &[u8],
    part: &[u16],
    names: &[u16],
    fs: Frames,
    n: u16,
    c: Scene,
    m: Meter,
) -> Turned
    ensures { JumpsIn deck.now s.now part.now names.now fs n c m result }
{
    let r = row_at(part, n);
    let j = jump_label(
        deck,
        s,
        names,
        c.names,
        c.owner,
        token_at(s, r.content as usize),
    );
    match j {
        Ok(l) => {
            if flow::may_go(part, n, l.place.row, l.is_end) {
                let next = flow::arrived(part, fs, flow::landing(part, fs, l));
                return with_step(fs, Ok(Step::On(next, m)));
            }
            with_step(fs, Err((Why::WrongGoto, m)))
        }
        Err(w) => with_step(fs, Err((w, m))),
    }
}
