// Program text is put out and scanned: its tokens are copied, or replaced where they are active names. A refusal gets its place here.
// Parts: what a run has done so far, program text.
#![tactic(auto)]

ghost use Rattle.std.specs.Prelude.{◌≡◌, ◌%◌, ◌-◌, length};
ghost use Rattle.definition.specs.Lists.{part};
ghost use Rattle.definition.specs.Events.{blank, copied};
ghost use Rattle.texts.specs.Shown.{with_meter, with_out, halted_at, SceneIs, put_for};
ghost use Rattle.texts.specs.Promises.{PutIs, LineIs, ReplacementIs, StepAs, ReplacingIs, TokenIs, TokensAre, TextIs, LeadIs};

use callees::none_running;
use definition::{Layout, Why};
use limits::Levels;
use meter::Meter;
use names::{Activity, Address, Owner};
use operands::Scene;
use origin::{tell_blank, tell_copied, tell_replaced};
use outcomes::{Dest, Replaced, Src, active_in, piece_of};
use output::Out;
use rows::{Starts, Stretch};
use scanning::replace;
use sums::{less, sum};

// What a run changes beside the rooms: the steps, what was put out, the rows and names that there are; and what the deck is.
#[derive(Clone, Copy)]
pub struct Progress {
    pub meter: Meter,
    pub layout: Layout,
    pub out: Out,
    pub rows: u16,
    pub names: u16,
}

// The member that runs, and where the rows of each member start.
#[derive(Clone, Copy)]
pub struct Here {
    pub member: u16,
    pub starts: Starts,
}

// A refusal with its place.
#[derive(Clone, Copy)]
pub struct Stop {
    pub why: Why,
    pub member: u16,
    pub place: usize,
}

// What was done when a run was refused.
pub type Halted = (Stop, Progress);

// What a part of the run gives.
pub type Ran = Result<Progress, Halted>;

pub fn with_meter(g: Progress, m: Meter) -> Progress
    ensures { result ≡ with_meter g m }
{
    Progress { meter: m, ..g }
}

fn with_out(g: Progress, out: Out) -> Progress
    ensures { result ≡ with_out g out }
{
    Progress { out, ..g }
}

fn halted(g: Progress, why: Why, member: u16, place: usize) -> Halted
    ensures { result ≡ halted_at g why member place }
{
    (Stop { why, member, place }, g)
}

// Outside procedures every name is seen that is global.
pub fn scene(here: Here, g: Progress) -> Scene
    ensures { SceneIs here.starts g result }
{
    Scene {
        names: g.names,
        starts: here.starts,
        owner: Owner::Everyone,
        running: none_running(),
    }
}

// ---- program text

fn member8(m: u16) -> u8
    ensures { result ≡ m % 256 }
{
    (m % 256) as u8
}

pub fn size32(n: usize) -> u32
    ensures { result ≡ n % 4294967296 }
{
    (n % 4_294_967_296) as u32
}

fn put_result(g: Progress, p: Option<Out>, member: u16, place: usize) -> Ran
    ensures { result ≡ put_for g p member place }
{
    match p {
        Some(o) => Ok(with_out(g, o)),
        None => Err(halted(g, Why::RoomFull, member, place)),
    }
}

// One blank before a text of a body of so many bytes.
fn blank_out(
    text: &mut [u8],
    list: &mut [u8],
    g: Progress,
    member: u16,
    size: usize,
    place: usize,
) -> Ran
    ensures { PutIs (blank member place) size place text.old list.old g member place text.new list.new result }
{
    let p = tell_blank(g.layout, size, text, list, g.out, member8(member), place);
    put_result(g, p, member, place)
}

// A token copied from its place.
fn token_out(
    s: &[u8],
    text: &mut [u8],
    list: &mut [u8],
    g: Progress,
    member: u16,
    from: usize,
    to: usize,
) -> Ran
    ensures { PutIs (copied member from (part (to - from) from s.now)) (length s.now) to text.old list.old g member from text.new list.new result }
{
    let p = tell_copied(g.layout, s, from, to, text, list, g.out, member8(member));
    put_result(g, p, member, from)
}

// The line of a replacement whose outcome of n bytes stands in the text room, in a body of so many bytes.
fn replaced_out(
    text: &[u8],
    list: &mut [u8],
    g: Progress,
    member: u16,
    size: usize,
    place: usize,
    n: usize,
) -> Progress
    ensures { LineIs text.now list.old g member size place n list.new result }
{
    let after = tell_replaced(
        g.layout,
        size,
        text,
        list,
        g.out,
        member8(member),
        place,
        size32(n),
    );
    with_out(g, after)
}

// A token of program text that was put out: the place behind it.
pub type Passed = Result<(usize, Progress), Halted>;

// The outcome of a replacement, with its line.
fn replacement_out(
    text: &[u8],
    list: &mut [u8],
    g: Progress,
    member: u16,
    size: usize,
    place: usize,
    r: Replaced,
) -> Passed
    ensures { ReplacementIs text.now list.old g member size place r list.new result }
{
    match r {
        Ok((n, to, m)) => {
            let after = replaced_out(text, list, with_meter(g, m), member, size, place, n);
            Ok((to, after))
        }
        Err((w, m)) => Err(halted(with_meter(g, m), w, member, place)),
    }
}

// The active name of a text that ends at `to`, at the address a: a list line comes first.
fn replace_here(
    deck: &[u8],
    s: &[u8],
    rows: &[u16],
    names: &[u16],
    cells: &mut [u32],
    low: &mut [u8],
    high: &mut [u8],
    work: &mut [u8],
    text: &mut [u8],
    list: &mut [u8],
    x: Src,
    p: usize,
    to: usize,
    a: Address,
    act: Activity,
    here: Here,
    g: Progress,
) -> Passed
    ensures { ReplacingIs deck.now s.now rows.now names.now cells.old low.old high.old work.old text.old list.old x p to a.0 act here g cells.new low.new high.new work.new text.new list.new result }
{
    let place = sum(x.from, p);
    if g.out.free < 1 {
        return Err(halted(g, Why::RoomFull, here.member, place));
    }
    let d = Dest {
        to_work: false,
        at: g.out.text,
        room: g.out.room,
    };
    let r = replace(
        deck,
        s,
        rows,
        names,
        cells,
        low,
        high,
        work,
        text,
        x,
        to,
        a,
        act,
        d,
        0,
        Levels::REPLACEMENTS,
        scene(here, g),
        g.meter,
    );
    replacement_out(text, list, g, here.member, s.len(), place, r)
}

// A step that is due at a place.
fn step_here(g: Progress, member: u16, place: usize) -> Ran
    ensures { StepAs g member place result }
{
    match g.meter.charged() {
        Ok(m) => Ok(with_meter(g, m)),
        Err((w, m)) => Err(halted(with_meter(g, m), w, member, place)),
    }
}

// One token of a text, at p.
fn token_here(
    deck: &[u8],
    s: &[u8],
    rows: &[u16],
    names: &[u16],
    cells: &mut [u32],
    low: &mut [u8],
    high: &mut [u8],
    work: &mut [u8],
    text: &mut [u8],
    list: &mut [u8],
    x: Src,
    p: usize,
    here: Here,
    g0: Progress,
) -> Passed
    ensures { TokenIs deck.now s.now rows.now names.now cells.old low.old high.old work.old text.old list.old x p here g0 cells.new low.new high.new work.new text.new list.new result }
{
    let place = sum(x.from, p);
    let g = step_here(g0, here.member, place)?;
    let y = piece_of(s, work, x, p);
    let active = active_in(deck, s, work, names, g.names, x, p, y);
    match active {
        None => {
            let to = sum(x.from, y.to);
            let h = token_out(s, text, list, g, here.member, place, to)?;
            Ok((y.to, h))
        }
        Some((a, act)) => {
            replace_here(
                deck, s, rows, names, cells, low, high, work, text, list, x, p, y.to, a, act, here,
                g,
            )
        }
    }
}

// The tokens of a text, one after the other.
fn text_on(
    deck: &[u8],
    s: &[u8],
    rows: &[u16],
    names: &[u16],
    cells: &mut [u32],
    low: &mut [u8],
    high: &mut [u8],
    work: &mut [u8],
    text: &mut [u8],
    list: &mut [u8],
    x: Src,
    here: Here,
    g0: Progress,
) -> Ran
    ensures { TokensAre deck.now s.now rows.now names.now cells.old low.old high.old work.old text.old list.old x here g0 cells.new low.new high.new work.new text.new list.new result }
{
    let size = less(x.to, x.from);
    let mut p: usize = 0;
    let mut g = g0;
    // each token has a byte at least, and one more turn finds the end
    let turns = sum(size, 1);
    for _ in 0..turns {
        if size <= p {
            return Ok(g);
        }
        let (q, h) = token_here(
            deck, s, rows, names, cells, low, high, work, text, list, x, p, here, g,
        )?;
        p = q;
        g = h;
    }
    Ok(g)
}

// One blank, then the text.
pub fn text_out(
    deck: &[u8],
    s: &[u8],
    rows: &[u16],
    names: &[u16],
    cells: &mut [u32],
    low: &mut [u8],
    high: &mut [u8],
    work: &mut [u8],
    text: &mut [u8],
    list: &mut [u8],
    x: Stretch,
    here: Here,
    g: Progress,
) -> Ran
    ensures { TextIs deck.now s.now rows.now names.now cells.old low.old high.old work.old text.old list.old x here g cells.new low.new high.new work.new text.new list.new result }
{
    let from = x.from as usize;
    let src = Src {
        in_work: false,
        from,
        to: x.to as usize,
    };
    let h = blank_out(text, list, g, here.member, s.len(), from)?;
    text_on(
        deck, s, rows, names, cells, low, high, work, text, list, src, here, h,
    )
}

// "a non-empty leading text is a part alone, an empty one is none"
pub fn lead_out(
    deck: &[u8],
    s: &[u8],
    rows: &[u16],
    names: &[u16],
    cells: &mut [u32],
    low: &mut [u8],
    high: &mut [u8],
    work: &mut [u8],
    text: &mut [u8],
    list: &mut [u8],
    x: Stretch,
    here: Here,
    g: Progress,
) -> Ran
    ensures { LeadIs deck.now s.now rows.now names.now cells.old low.old high.old work.old text.old list.old x here g cells.new low.new high.new work.new text.new list.new result }
{
    if x.from < x.to {
        return text_out(
            deck, s, rows, names, cells, low, high, work, text, list, x, here, g,
        );
    }
    Ok(g)
}
