// The statements that evaluate, in members and in procedures, and the bodies of procedures. A row stands in the body s.
ghost use Rattle.std.specs.Prelude.{◌≡◌, suc, ◌-◌};
ghost use Rattle.evaluating.specs.Cycle.{BodyIs};
ghost use Rattle.evaluating.specs.Statements.{AssignIs, TestIs, BoundedIs, BoundsIs, StartIs, StatementIs, TurnIs};

use crate::evaluate;
use bodies::{
    Bound, Done, Started, Step, Tested, Turned, Widened, bound_of, bound_word, bounded_by,
    control_address, into_group, jump_in, new_frame, on_again, on_behind, on_return, on_start,
    on_test, set_off, stepped, stored, target_at, truth_of, with_step,
};
use deck::body;
use definition::Why;
use flow::{Frame, Frames, Next};
use meter::Meter;
use names::Place;
use operands::{Evaluated, Scene};
use rows::{Statement, row_at};
use tokens::token_at;

// The assignment whose target stands at a place.
#[cycle(evaluation)]
pub fn assign(
    deck: &[u8],
    s: &[u8],
    rows: &[u16],
    names: &[u16],
    cells: &mut [u32],
    low: &mut [u8],
    high: &mut [u8],
    work: &mut [u8],
    at: usize,
    u: usize,
    c: Scene,
    m: Meter,
) -> Done
    ensures { AssignIs deck.now s.now rows.now names.now cells.old low.old high.old work.old at u c m cells.new low.new high.new work.new result }
{
    let t = token_at(s, at);
    let Some((a, k)) = target_at(deck, s, names, c.names, c.owner, t) else {
        return Err((Why::WrongName, m));
    };
    let sign = token_at(s, t.to);
    let x = evaluate(
        deck, s, rows, names, cells, low, high, work, sign.to, u, c, m,
    );
    stored(cells, low, high, work, a, k, u, x)
}

// The IF whose expression stands at a place.
#[cycle(evaluation)]
pub fn test(
    deck: &[u8],
    s: &[u8],
    rows: &[u16],
    names: &[u16],
    cells: &mut [u32],
    low: &mut [u8],
    high: &mut [u8],
    work: &mut [u8],
    at: usize,
    u: usize,
    c: Scene,
    m: Meter,
) -> Tested
    ensures { TestIs deck.now s.now rows.now names.now cells.old low.old high.old work.old at u c m cells.new low.new high.new work.new result }
{
    let x = evaluate(deck, s, rows, names, cells, low, high, work, at, u, c, m);
    truth_of(work, u, x)
}

// BY or TO, if one stands behind the place that an iterated group is read to.
#[cycle(evaluation)]
fn bounded(
    deck: &[u8],
    s: &[u8],
    rows: &[u16],
    names: &[u16],
    cells: &mut [u32],
    low: &mut [u8],
    high: &mut [u8],
    work: &mut [u8],
    x: Widened,
    u: usize,
    c: Scene,
) -> Widened
    ensures { BoundedIs deck.now s.now rows.now names.now cells.old low.old high.old work.old u c x cells.new low.new high.new work.new result }
{
    let (f, at, m) = x?;
    let Some((side, q)) = bound_word(s, at) else {
        return Ok((f, at, m));
    };
    let e = evaluate(deck, s, rows, names, cells, low, high, work, q, u, c, m);
    bounded_by(f, side, bound_of(work, u, e))
}

// BY and TO as written, each before the next; then the variable is set to the number b.
#[cycle(evaluation)]
fn bounds(
    deck: &[u8],
    s: &[u8],
    rows: &[u16],
    names: &[u16],
    cells: &mut [u32],
    low: &mut [u8],
    high: &mut [u8],
    work: &mut [u8],
    f: Frame,
    b: Bound,
    u: usize,
    c: Scene,
) -> Started
    ensures { BoundsIs deck.now s.now rows.now names.now cells.old low.old high.old work.old f b u c cells.new low.new high.new work.new result }
{
    let (x, q, m) = b?;
    let one = bounded(
        deck,
        s,
        rows,
        names,
        cells,
        low,
        high,
        work,
        Ok((f, q, m)),
        u,
        c,
    );
    let two = bounded(deck, s, rows, names, cells, low, high, work, one, u, c);
    set_off(cells, x, two)
}

// The iterated group of row g, whose variable stands at a place.
#[cycle(evaluation)]
pub fn start(
    deck: &[u8],
    s: &[u8],
    rows: &[u16],
    names: &[u16],
    cells: &mut [u32],
    low: &mut [u8],
    high: &mut [u8],
    work: &mut [u8],
    g: u16,
    at: usize,
    u: usize,
    c: Scene,
    m: Meter,
) -> Started
    ensures { StartIs deck.now s.now rows.now names.now cells.old low.old high.old work.old g at u c m cells.new low.new high.new work.new result }
{
    let t = token_at(s, at);
    let Some(a) = control_address(target_at(deck, s, names, c.names, c.owner, t)) else {
        return Err((Why::WrongName, m));
    };
    let sign = token_at(s, t.to);
    let e = evaluate(
        deck, s, rows, names, cells, low, high, work, sign.to, u, c, m,
    );
    let b = bound_of(work, u, e);
    bounds(
        deck,
        s,
        rows,
        names,
        cells,
        low,
        high,
        work,
        new_frame(g, a),
        b,
        u,
        c,
    )
}

// ---- bodies of procedures; `part` is the rows of the member

// The statement of row n in the procedure at p, whose step is charged.
#[cycle(evaluation)]
fn begun(
    deck: &[u8],
    s: &[u8],
    part: &[u16],
    rows: &[u16],
    names: &[u16],
    cells: &mut [u32],
    low: &mut [u8],
    high: &mut [u8],
    work: &mut [u8],
    p: Place,
    n: u16,
    fs: Frames,
    u: usize,
    c: Scene,
    m: Meter,
) -> Turned
    ensures { StatementIs deck.now s.now part.now rows.now names.now cells.old low.old high.old work.old p n fs u c m cells.new low.new high.new work.new result }
{
    let r = row_at(part, n);
    let at = usize::from(r.content);
    match r.statement {
        Statement::Assign => {
            let d = assign(deck, s, rows, names, cells, low, high, work, at, u, c, m);
            on_behind(part, fs, n, d)
        }
        Statement::Conditional => {
            let t = test(deck, s, rows, names, cells, low, high, work, at, u, c, m);
            on_test(part, fs, n, t)
        }
        Statement::Iterated => {
            let t = start(deck, s, rows, names, cells, low, high, work, n, at, u, c, m);
            on_start(part, fs, n, t)
        }
        Statement::Return => {
            let open = token_at(s, at);
            let v = evaluate(
                deck, s, rows, names, cells, low, high, work, open.to, u, c, m,
            );
            on_return(work, fs, u, row_at(part, p.row).value_type, v)
        }
        Statement::Group => with_step(fs, Ok(Step::On(into_group(part, fs, n), m))),
        Statement::Goto => jump_in(deck, s, part, names, fs, n, c, m),
        Statement::Null
        | Statement::Declare
        | Statement::Procedure
        | Statement::Include
        | Statement::Activate
        | Statement::Deactivate => on_behind(part, fs, n, Ok(m)),
    }
}

// One turn of a body: a statement begins, or an iterated group is tested again. A body that ends did not RETURN.
#[cycle(evaluation)]
fn body_turn(
    deck: &[u8],
    s: &[u8],
    part: &[u16],
    rows: &[u16],
    names: &[u16],
    cells: &mut [u32],
    low: &mut [u8],
    high: &mut [u8],
    work: &mut [u8],
    p: Place,
    next: Next,
    fs: Frames,
    u: usize,
    c: Scene,
    m: Meter,
) -> Turned
    ensures { TurnIs deck.now s.now part.now rows.now names.now cells.old low.old high.old work.old p next fs u c m cells.new low.new high.new work.new result }
{
    match next {
        Next::Begin(n) => match m.charged() {
            Ok(k) => begun(
                deck, s, part, rows, names, cells, low, high, work, p, n, fs, u, c, k,
            ),
            Err((w, k)) => with_step(fs, Err((w, k))),
        },
        Next::Again(g) => {
            let t = stepped(cells, flow::frame_of(part, fs, g), m);
            on_again(part, fs, g, t)
        }
        Next::Over => with_step(fs, Err((Why::WronglyRun, m))),
    }
}

// One turn more than there are steps left, since each charges one.
pub fn turns_left(m: Meter) -> usize
    ensures { result ≡ suc (m.limit - m.used) }
{
    m.limit.saturating_sub(m.used) as usize + 1
}

// The body of the procedure at p.
#[cycle(evaluation)]
pub fn run_body(
    deck: &[u8],
    s: &[u8],
    part: &[u16],
    rows: &[u16],
    names: &[u16],
    cells: &mut [u32],
    low: &mut [u8],
    high: &mut [u8],
    work: &mut [u8],
    p: Place,
    u: usize,
    c: Scene,
    m0: Meter,
) -> Evaluated
    ensures { BodyIs deck.now s.now part.now rows.now names.now cells.old low.old high.old work.old u c m0 p cells.new low.new high.new work.new result }
{
    let mut next = flow::first_of(row_at(part, p.row).child);
    let mut fs = flow::no_frames();
    let mut m = m0;
    for _ in 0..turns_left(m0) {
        let t = body_turn(
            deck, s, part, rows, names, cells, low, high, work, p, next, fs, u, c, m,
        );
        fs = t.frames;
        let step = t.step?;
        match step {
            Step::On(x, k) => {
                next = x;
                m = k;
            }
            Step::Gave(v, k) => return Ok((v, 0, k)),
        }
    }
    Err((Why::NoStep, m))
}
