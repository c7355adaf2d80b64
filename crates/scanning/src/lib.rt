// Values and arguments scanned: their tokens are copied or replaced.
// Parts: what a conversion gives, the cycle.
#![tactic(auto)]

ghost use Rattle.std.specs.Prelude.{◌≡◌};
ghost use Rattle.scanning.specs.Cycle.{type_for, next_for, ConvertedIs, given_for, meter_for, RescanIs, TakenIs, CallWith, EntryIs, ReplaceIs, TokenIs, Scans};

use callees::{
    Callee, Held, Parameter, callee_of, nothing_held, parameter_at, variable_value, with_held,
};
use deck::body;
use definition::{ValueType, Why};
use evaluating::call;
use meter::Meter;
use names::{Activity, Address, Denotation, name_at};
use operands::{Evaluated, Scene};
use operators::{Value, above, convert, size_of};
use outcomes::{
    Dest, Listing, Replaced, Scanned, Src, active_in, after, as_text, copied_result,
    copied_variable, copy_token, end_of, into_work, is_rescanned, list_of, part_of, piece_of,
    place_after, settled, waiting,
};
use sums::{less, sum};

fn type_of(x: Option<Parameter>) -> ValueType
    ensures { result ≡ type_for x }
{
    match x {
        Some(p) => p.value_type,
        None => ValueType::CharacterType,
    }
}

fn next_of(x: Option<Parameter>, at: usize) -> usize
    ensures { result ≡ next_for x at }
{
    match x {
        Some(p) => p.to,
        None => at,
    }
}

// The outcome of an argument made of its parameter's type.
fn converted(work: &mut [u8], u: usize, t: ValueType, x: Scanned) -> Evaluated
    ensures { ConvertedIs work.old u t x work.new result }
{
    let (n, m) = x?;
    match convert(work, u, t, Value::Characters(n)) {
        Ok(v) => Ok((v, 0, m)),
        Err(w) => Err((w, m)),
    }
}

// What a call gave, without the steps.
fn value_given(x: Evaluated) -> Result<Value, Why>
    ensures { result ≡ given_for x }
{
    match x {
        Ok((v, _, _)) => Ok(v),
        Err((w, _)) => Err(w),
    }
}

fn meter_of(x: Evaluated) -> Meter
    ensures { result ≡ meter_for x }
{
    match x {
        Ok((_, _, m)) => m,
        Err((_, m)) => m,
    }
}

// ---- the cycle: scan, replacement, arguments; n levels of replacement are left

// With RESCAN a value, as CHARACTER at u, is scanned by itself.
#[cycle(replacement)]
fn rescan(
    deck: &[u8],
    s: &[u8],
    rows: &[u16],
    names: &[u16],
    cells: &mut [u32],
    low: &mut [u8],
    high: &mut [u8],
    work: &mut [u8],
    text: &mut [u8],
    g: Result<Value, Why>,
    d: Dest,
    u: usize,
    n: usize,
    c: Scene,
    m: Meter,
) -> Scanned
    ensures { RescanIs deck.now s.now rows.now names.now cells.old low.old high.old work.old text.old g d u n c m cells.new low.new high.new work.new text.new result }
{
    let (size, k) = as_text(work, u, g, m)?;
    let top = above(u, size);
    let value = Src {
        in_work: true,
        from: u,
        to: top,
    };
    let y = scan(
        deck, s, rows, names, cells, low, high, work, text, value, d, top, n, c, k,
    );
    settled(work, d, u, size, y)
}

// "each argument in turn is scanned, then converted": those that wait, or a refusal; and the steps.
#[cycle(replacement)]
fn scan_arguments(
    deck: &[u8],
    s: &[u8],
    rows: &[u16],
    names: &[u16],
    cells: &mut [u32],
    low: &mut [u8],
    high: &mut [u8],
    work: &mut [u8],
    text: &mut [u8],
    x: Src,
    first: usize,
    y: Callee,
    u: usize,
    n: usize,
    c: Scene,
    m0: Meter,
) -> Result<(Held, Meter), (Why, Meter)>
    ensures { TakenIs deck.now s.now rows.now names.now cells.old low.old high.old work.old text.old x first y u n c m0 cells.new low.new high.new work.new text.new result }
{
    let mut held = nothing_held();
    let mut from = first;
    let mut listed = y.list;
    let mut top = u;
    let mut m = m0;
    for i in 0..y.count {
        let p = y.place;
        let parameter = parameter_at(deck, body(deck, p.member), names, c.names, p, listed);
        listed = next_of(parameter, listed);
        let to = end_of(s, work, x, from);
        let z = scan(
            deck,
            s,
            rows,
            names,
            cells,
            low,
            high,
            work,
            text,
            part_of(x, from, to),
            into_work(),
            top,
            n,
            c,
            m,
        );
        let (w, _, k) = converted(work, top, type_of(parameter), z)?;
        held = with_held(held, i, w);
        top = above(top, size_of(w));
        from = place_after(to);
        m = k;
    }
    Ok((held, m))
}

// The call of an entry whose arguments wait above u, and its outcome.
#[cycle(replacement)]
fn call_with(
    deck: &[u8],
    s: &[u8],
    rows: &[u16],
    names: &[u16],
    cells: &mut [u32],
    low: &mut [u8],
    high: &mut [u8],
    work: &mut [u8],
    text: &mut [u8],
    y: Callee,
    held: Held,
    act: Activity,
    d: Dest,
    u: usize,
    n: usize,
    c: Scene,
    m: Meter,
) -> Scanned
    ensures { CallWith deck.now s.now rows.now names.now cells.old low.old high.old work.old text.old y held act d u n c m cells.new low.new high.new work.new text.new result }
{
    let v = call(deck, rows, names, cells, low, high, work, y, held, u, c, m);
    let g = value_given(v);
    let k = meter_of(v);
    if is_rescanned(act) {
        return rescan(
            deck, s, rows, names, cells, low, high, work, text, g, d, u, n, c, k,
        );
    }
    copied_result(work, text, g, d, u, k)
}

// The entry whose name ends at p in what is scanned. "Without parameters nothing is read on."
#[cycle(replacement)]
fn replace_entry(
    deck: &[u8],
    s: &[u8],
    rows: &[u16],
    names: &[u16],
    cells: &mut [u32],
    low: &mut [u8],
    high: &mut [u8],
    work: &mut [u8],
    text: &mut [u8],
    x: Src,
    p: usize,
    y: Callee,
    act: Activity,
    d: Dest,
    u: usize,
    n: usize,
    c: Scene,
    m: Meter,
) -> Replaced
    ensures { EntryIs deck.now s.now rows.now names.now cells.old low.old high.old work.old text.old x p y act d u n c m cells.new low.new high.new work.new text.new result }
{
    if y.count < 1 {
        let (size, now) = call_with(
            deck,
            s,
            rows,
            names,
            cells,
            low,
            high,
            work,
            text,
            y,
            nothing_held(),
            act,
            d,
            u,
            n,
            c,
            m,
        )?;
        return Ok((size, p, now));
    }
    let Some((count, first, to)) = list_of(s, work, x, p) else {
        return Err((Why::WrongArguments, m));
    };
    if count != y.count {
        return Err((Why::WrongArguments, m));
    }
    let (held, k) = scan_arguments(
        deck, s, rows, names, cells, low, high, work, text, x, first, y, u, n, c, m,
    )?;
    let (more, left) = call_with(
        deck, s, rows, names, cells, low, high, work, text, y, held, act, d, u, n, c, k,
    )?;
    Ok((more, to, left))
}

// THE REPLACEMENT of the active name that ends at p, at the address a; `left` levels are left.
#[cycle(replacement)]
pub fn replace(
    deck: &[u8],
    s: &[u8],
    rows: &[u16],
    names: &[u16],
    cells: &mut [u32],
    low: &mut [u8],
    high: &mut [u8],
    work: &mut [u8],
    text: &mut [u8],
    x: Src,
    p: usize,
    a: Address,
    act: Activity,
    d: Dest,
    u: usize,
    left: usize,
    c: Scene,
    m: Meter,
) -> Replaced
    ensures { ReplaceIs deck.now s.now rows.now names.now cells.old low.old high.old work.old text.old x p a.0 act d u left c m cells.new low.new high.new work.new text.new result }
{
    if left < 1 {
        return Err((Why::TooDeep, m));
    }
    let n = left - 1;
    match name_at(names, a).denotation {
        Denotation::Variable(t) => {
            if is_rescanned(act) {
                let g = variable_value(cells, low, high, work, a.0, t, u);
                let (size, now) = rescan(
                    deck, s, rows, names, cells, low, high, work, text, g, d, u, n, c, m,
                )?;
                return Ok((size, p, now));
            }
            let (more, left) = copied_variable(cells, low, high, work, text, a.0, t, d, u, m)?;
            Ok((more, p, left))
        }
        Denotation::EntryName(e) => {
            match callee_of(deck, rows, c.starts, names, c.names, e.body) {
                Ok(z) => {
                    replace_entry(
                        deck, s, rows, names, cells, low, high, work, text, x, p, z, act, d, u, n,
                        c, m,
                    )
                }
                Err(w) => Err((w, m)),
            }
        }
        Denotation::LabelName(_) | Denotation::Builtin => Err((Why::WrongName, m)),
    }
}

// One token of a value or an argument, whose step is charged, behind an outcome of k bytes.
#[cycle(replacement)]
fn token(
    deck: &[u8],
    s: &[u8],
    rows: &[u16],
    names: &[u16],
    cells: &mut [u32],
    low: &mut [u8],
    high: &mut [u8],
    work: &mut [u8],
    text: &mut [u8],
    x: Src,
    p: usize,
    k: usize,
    d: Dest,
    u: usize,
    n: usize,
    c: Scene,
    m: Meter,
) -> Replaced
    ensures { TokenIs deck.now s.now rows.now names.now cells.old low.old high.old work.old text.old x p k d u n c m cells.new low.new high.new work.new text.new result }
{
    let y = piece_of(s, work, x, p);
    match active_in(deck, s, work, names, c.names, x, p, y) {
        None => copy_token(s, work, text, x, p, y.to, d, u, k, m),
        Some((a, act)) => {
            replace(
                deck,
                s,
                rows,
                names,
                cells,
                low,
                high,
                work,
                text,
                x,
                y.to,
                a,
                act,
                after(d, k),
                waiting(d, u, k),
                n,
                c,
                m,
            )
        }
    }
}

// The tokens of a value or an argument, one after the other.
#[cycle(replacement)]
fn scan(
    deck: &[u8],
    s: &[u8],
    rows: &[u16],
    names: &[u16],
    cells: &mut [u32],
    low: &mut [u8],
    high: &mut [u8],
    work: &mut [u8],
    text: &mut [u8],
    x: Src,
    d: Dest,
    u: usize,
    n: usize,
    c: Scene,
    m0: Meter,
) -> Scanned
    ensures { Scans deck.now s.now rows.now names.now cells.old low.old high.old work.old text.old x d u n c m0 cells.new low.new high.new work.new text.new result }
{
    let size = less(x.to, x.from);
    let mut k: usize = 0;
    let mut p: usize = 0;
    let mut m = m0;
    // each token has a byte at least, and one more turn finds the end
    for _ in 0..sum(size, 1) {
        if size <= p {
            return Ok((k, m));
        }
        let left = m.charged()?;
        let (more, q, now) = token(
            deck, s, rows, names, cells, low, high, work, text, x, p, k, d, u, n, c, left,
        )?;
        k = sum(k, more);
        p = q;
        m = now;
    }
    Ok((k, m))
}
