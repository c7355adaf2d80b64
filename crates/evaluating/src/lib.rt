// The value of an expression, which is read again from the source, and the procedures that it calls. `u` is the bytes of the
// unfinished values that wait in the work room. The statements that evaluate, and the bodies of procedures, stand in `deeds`.
#![tactic(auto)]

pub mod deeds;

ghost use Rattle.std.specs.Prelude.{◌-◌};
ghost use Rattle.definition.specs.Bytes.{mixed};
ghost use Rattle.definition.specs.Tokens.{token_at};
ghost use Rattle.definition.specs.Expressions as E;
ghost use Rattle.tokens.specs.Answer.{spelling};
ghost use Rattle.expressions.specs.Check.{inside_of, primitive_at, operand_in, levels_in};
ghost use Rattle.evaluating.specs.Cycle.{Evaluates, Chains, NameIs, ListedIs, TakenIs, CallIs};

use callees::{
    Callee, Held, Meant, callee_of, is_running, meant_by, nothing_held, started, store_all,
    with_held,
};
use deck::body;
use deeds::run_body;
use definition::Why;
use expressions::{LEVELS, infix_at, past_prefixes};
use limits::Nesting;
use meter::Meter;
use names::Owner;
use operands::{
    Evaluated, Scene, Target, aim_of, closed, count_arguments, first_kept, first_parameter,
    integer_value, plain_value, prefixes_done, string_value, substr_of, up_to, wanted_count,
    wish_for, with_infix, with_wish,
};
use operators::{Value, above, size_of};
use rows::part_of;
use tokens::{Kind, Lexeme, is_sign, token_at};

// ---- expressions and calls: `left` is the parentheses that may still be opened

// The arguments that wait, the first of them, the place past their list, and the steps.
#[derive(Clone, Copy)]
struct Taken {
    held: Held,
    first: Value,
    to: usize,
    meter: Meter,
}

// What stands behind a parenthesis.
#[cycle(evaluation)]
fn inside(
    deck: &[u8],
    s: &[u8],
    rows: &[u16],
    names: &[u16],
    cells: &mut [u32],
    low: &mut [u8],
    high: &mut [u8],
    work: &mut [u8],
    at: usize,
    left: usize,
    u: usize,
    c: Scene,
    m: Meter,
) -> Evaluated
    ensures { Evaluates deck.now rows.now names.now cells.old low.old high.old work.old u c m cells.new low.new high.new work.new result (inside_of left s.now 0 at) }
{
    if left < 1 {
        return Err((Why::OverLimit, m));
    }
    levels(
        deck,
        s,
        rows,
        names,
        cells,
        low,
        high,
        work,
        at,
        LEVELS,
        left - 1,
        u,
        c,
        m,
    )
}

// The arguments of a list, each evaluated, made what is wished for, and waiting above those before it.
#[cycle(evaluation)]
fn arguments(
    deck: &[u8],
    s: &[u8],
    rows: &[u16],
    names: &[u16],
    cells: &mut [u32],
    low: &mut [u8],
    high: &mut [u8],
    work: &mut [u8],
    from: usize,
    left: usize,
    t: Target,
    u: usize,
    c: Scene,
    m0: Meter,
) -> Result<Taken, (Why, Meter)>
    ensures { TakenIs deck.now s.now rows.now names.now cells.old low.old high.old work.old from left u t c m0 cells.new low.new high.new work.new result }
{
    let mut held = nothing_held();
    let mut first = Value::Characters(0);
    let mut at = from;
    let mut listed = first_parameter(t);
    let mut top = u;
    let mut m = m0;
    for i in 0..wanted_count(t) {
        let w = wish_for(deck, names, c.names, t, i, listed);
        listed = w.to;
        let x = inside(
            deck, s, rows, names, cells, low, high, work, at, left, top, c, m,
        );
        let (v, e, n) = with_wish(work, top, w.wish, x)?;
        held = with_held(held, i, v);
        first = first_kept(i, first, v);
        top = above(top, size_of(v));
        at = token_at(s, e).to;
        m = n;
    }
    Ok(Taken {
        held,
        first,
        to: at,
        meter: m,
    })
}

// A name with a list, which begins at a place.
#[cycle(evaluation)]
fn listed(
    deck: &[u8],
    s: &[u8],
    rows: &[u16],
    names: &[u16],
    cells: &mut [u32],
    low: &mut [u8],
    high: &mut [u8],
    work: &mut [u8],
    x: Meant,
    at: usize,
    left: usize,
    u: usize,
    c: Scene,
    m: Meter,
) -> Evaluated
    ensures { ListedIs deck.now s.now rows.now names.now cells.old low.old high.old work.old at left u c m x cells.new low.new high.new work.new result }
{
    let n = count_arguments(s, at, left);
    match aim_of(deck, rows, c.starts, names, c.names, x, n) {
        Ok(t) => {
            let a = arguments(
                deck, s, rows, names, cells, low, high, work, at, left, t, u, c, m,
            )?;
            match t {
                Target::Entry(y) => {
                    let v = call(
                        deck, rows, names, cells, low, high, work, y, a.held, u, c, a.meter,
                    );
                    up_to(v, a.to)
                }
                Target::Substr(_) => substr_of(work, u, n, a.held, a.first, a.to, a.meter),
            }
        }
        Err(w) => Err((w, m)),
    }
}

// A name without a list, behind which the place is `to`.
#[cycle(evaluation)]
fn plain(
    deck: &[u8],
    rows: &[u16],
    names: &[u16],
    cells: &mut [u32],
    low: &mut [u8],
    high: &mut [u8],
    work: &mut [u8],
    x: Meant,
    to: usize,
    u: usize,
    c: Scene,
    m: Meter,
) -> Evaluated
    ensures { NameIs deck.now rows.now names.now cells.old low.old high.old work.old u c m x to cells.new low.new high.new work.new result }
{
    match x {
        Meant::AnEntry(b) => match callee_of(deck, rows, c.starts, names, c.names, b) {
            Ok(z) => {
                if z.count == 0 {
                    let v = call(
                        deck,
                        rows,
                        names,
                        cells,
                        low,
                        high,
                        work,
                        z,
                        nothing_held(),
                        u,
                        c,
                        m,
                    );
                    return up_to(v, to);
                }
                Err((Why::WrongArguments, m))
            }
            Err(w) => Err((w, m)),
        },
        Meant::AVariable(..) | Meant::TheSubstr | Meant::NoSuch => {
            plain_value(cells, low, high, work, x, u, to, m)
        }
    }
}

// The name t, with a list or without.
#[cycle(evaluation)]
fn reference(
    deck: &[u8],
    s: &[u8],
    rows: &[u16],
    names: &[u16],
    cells: &mut [u32],
    low: &mut [u8],
    high: &mut [u8],
    work: &mut [u8],
    t: Lexeme,
    left: usize,
    u: usize,
    c: Scene,
    m: Meter,
) -> Evaluated
    ensures { Evaluates deck.now rows.now names.now cells.old low.old high.old work.old u c m cells.new low.new high.new work.new result (E.reference_at mixed (inside_of left s.now) s.now (record { spelling = spelling s.now t; place = t.from; to = t.to }) (token_at mixed s.now t.to)) }
{
    let x = meant_by(deck, s, names, c.names, c.owner, t.from, t.to);
    let next = token_at(s, t.to);
    if is_sign(s, next, b"(") {
        return listed(
            deck, s, rows, names, cells, low, high, work, x, next.to, left, u, c, m,
        );
    }
    plain(deck, rows, names, cells, low, high, work, x, t.to, u, c, m)
}

#[cycle(evaluation)]
fn primitive(
    deck: &[u8],
    s: &[u8],
    rows: &[u16],
    names: &[u16],
    cells: &mut [u32],
    low: &mut [u8],
    high: &mut [u8],
    work: &mut [u8],
    at: usize,
    left: usize,
    u: usize,
    c: Scene,
    m: Meter,
) -> Evaluated
    ensures { Evaluates deck.now rows.now names.now cells.old low.old high.old work.old u c m cells.new low.new high.new work.new result (primitive_at (inside_of left s.now) s.now at) }
{
    let t = token_at(s, at);
    match t.kind {
        Kind::Word => reference(
            deck, s, rows, names, cells, low, high, work, t, left, u, c, m,
        ),
        Kind::Integer => integer_value(s, t, m),
        Kind::String => string_value(s, t, false, work, u, m),
        Kind::Bits => string_value(s, t, true, work, u, m),
        Kind::Sign => {
            let x = inside(
                deck, s, rows, names, cells, low, high, work, t.to, left, u, c, m,
            );
            closed(s, x)
        }
        Kind::Nothing | Kind::Wrong => Err((Why::Syntax, m)),
    }
}

// Prefix operators apply from the last to the first.
#[cycle(evaluation)]
fn operand(
    deck: &[u8],
    s: &[u8],
    rows: &[u16],
    names: &[u16],
    cells: &mut [u32],
    low: &mut [u8],
    high: &mut [u8],
    work: &mut [u8],
    at: usize,
    left: usize,
    u: usize,
    c: Scene,
    m: Meter,
) -> Evaluated
    ensures { Evaluates deck.now rows.now names.now cells.old low.old high.old work.old u c m cells.new low.new high.new work.new result (operand_in left s.now at) }
{
    let p = past_prefixes(s, at);
    let x = primitive(
        deck, s, rows, names, cells, low, high, work, p.to, left, u, c, m,
    );
    prefixes_done(s, at, p.count, work, u, x)
}

// What follows a value: operators of a level, each with its right side. "Infix goes left to right."
#[cycle(evaluation)]
fn chain(
    deck: &[u8],
    s: &[u8],
    rows: &[u16],
    names: &[u16],
    cells: &mut [u32],
    low: &mut [u8],
    high: &mut [u8],
    work: &mut [u8],
    v: Value,
    from: usize,
    level: usize,
    left: usize,
    u: usize,
    c: Scene,
    m0: Meter,
) -> Evaluated
    ensures { Chains deck.now rows.now names.now s.now cells.old low.old high.old work.old v from level left u c m0 cells.new low.new high.new work.new result }
{
    let mut x = v;
    let mut at = from;
    let mut m = m0;
    // each operator has a byte at least, and one more turn finds what follows
    for _ in 0..s.len() + 1 {
        let Some((o, q)) = infix_at(s, at, level) else {
            return Ok((x, at, m));
        };
        let top = above(u, size_of(x));
        let y = levels(
            deck, s, rows, names, cells, low, high, work, q, level, left, top, c, m,
        );
        let (w, e, n) = with_infix(work, u, o, x, y)?;
        x = w;
        at = e;
        m = n;
    }
    Err((Why::Syntax, m))
}

// n levels of infix operators over operands.
#[cycle(evaluation)]
fn levels(
    deck: &[u8],
    s: &[u8],
    rows: &[u16],
    names: &[u16],
    cells: &mut [u32],
    low: &mut [u8],
    high: &mut [u8],
    work: &mut [u8],
    at: usize,
    n: usize,
    left: usize,
    u: usize,
    c: Scene,
    m: Meter,
) -> Evaluated
    ensures { Evaluates deck.now rows.now names.now cells.old low.old high.old work.old u c m cells.new low.new high.new work.new result (levels_in left s.now n at) }
{
    if n < 1 {
        return operand(
            deck, s, rows, names, cells, low, high, work, at, left, u, c, m,
        );
    }
    let (v, e, k) = levels(
        deck,
        s,
        rows,
        names,
        cells,
        low,
        high,
        work,
        at,
        n - 1,
        left,
        u,
        c,
        m,
    )?;
    chain(
        deck,
        s,
        rows,
        names,
        cells,
        low,
        high,
        work,
        v,
        e,
        n - 1,
        left,
        u,
        c,
        k,
    )
}

// THE VALUE of the expression at a place.
#[cycle(evaluation)]
pub fn evaluate(
    deck: &[u8],
    s: &[u8],
    rows: &[u16],
    names: &[u16],
    cells: &mut [u32],
    low: &mut [u8],
    high: &mut [u8],
    work: &mut [u8],
    at: usize,
    u: usize,
    c: Scene,
    m: Meter,
) -> Evaluated
    ensures { Evaluates deck.now rows.now names.now cells.old low.old high.old work.old u c m cells.new low.new high.new work.new result (E.whole_expression mixed s.now at) }
{
    levels(
        deck,
        s,
        rows,
        names,
        cells,
        low,
        high,
        work,
        at,
        LEVELS,
        Nesting::PARENTHESES,
        u,
        c,
        m,
    )
}

// The call of a procedure with its arguments, which wait above u: 12, then 15, then its body, whose value comes to u.
#[cycle(evaluation)]
pub fn call(
    deck: &[u8],
    rows: &[u16],
    names: &[u16],
    cells: &mut [u32],
    low: &mut [u8],
    high: &mut [u8],
    work: &mut [u8],
    y: Callee,
    held: Held,
    u: usize,
    c: Scene,
    m: Meter,
) -> Evaluated
    ensures { CallIs deck.now rows.now names.now cells.old low.old high.old work.old u c m y held cells.new low.new high.new work.new result }
{
    let p = y.place;
    if is_running(c.running, p) {
        return Err((Why::WronglyRun, m));
    }
    if c.running.left < 1 {
        return Err((Why::TooDeep, m));
    }
    store_all(deck, names, cells, low, high, work, c.names, y, held, u);
    let inner = Scene {
        owner: Owner::Procedure(p),
        running: started(c.running, p),
        ..c
    };
    run_body(
        deck,
        body(deck, p.member),
        part_of(rows, c.starts, p.member),
        rows,
        names,
        cells,
        low,
        high,
        work,
        p,
        u,
        inner,
        m,
    )
}
