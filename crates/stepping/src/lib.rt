// A statement of a member that runs, and where control goes behind it, with the texts on the way. INCLUDE is above, in `running`.
// Parts: where control goes and what is put out on the way, statements, what comes of a turn.
#![tactic(auto)]

ghost use Rattle.std.specs.Prelude.{◌≡◌};
ghost use Rattle.stepping.specs.Stage.{part_here};
ghost use Rattle.stepping.specs.Ways.{is_include, is_over, turned_by, refused_at, done_to, tested_to, jumped_to, activated_to, went_to};
ghost use Rattle.stepping.specs.Steps.{TextBehindIs, FollowIs, IntoIs, StartedIs, AgainIs, StatementIs, SettleIs};

use activating::{activate_all, deactivate_all, declare_all};
use bodies::{Done, Started, Tested, stepped};
use definition::Why;
use evaluating::deeds::{assign, start, test};
use flow::{Frames, Next, Walk};
use leaving::{Below, Jump, jump_from};
use names::Label;
use rows::{Role, Row, Statement, part_of, row_at};
use texts::{Halted, Here, Progress, Ran, Stop, lead_out, scene, text_out, with_meter};

// The rows of the member that runs.
pub fn part_here(rows: &[u16], here: Here) -> &[u16]
    ensures { result.now ≡ part_here rows.now here }
{
    part_of(rows, here.starts, here.member)
}

// ---- where control goes, and what is put out on the way

// What comes next in a member, or a refusal.
type Onward = Result<(Next, Progress), Halted>;

// The text behind the row n, if it is one of a list.
fn text_behind(
    deck: &[u8],
    s: &[u8],
    part: &[u16],
    rows: &[u16],
    names: &[u16],
    cells: &mut [u32],
    low: &mut [u8],
    high: &mut [u8],
    work: &mut [u8],
    text: &mut [u8],
    list: &mut [u8],
    n: u16,
    here: Here,
    g: Progress,
) -> Ran
    ensures { TextBehindIs deck.now s.now part.now rows.now names.now cells.old low.old high.old work.old text.old list.old n here g cells.new low.new high.new work.new text.new list.new result }
{
    let r = row_at(part, n);
    match r.role {
        Role::Listed => text_out(
            deck, s, rows, names, cells, low, high, work, text, list, r.text, here, g,
        ),
        Role::ThenPart | Role::ElsePart => Ok(g),
    }
}

// Where a walk leads, with the texts behind the rows that it passes.
fn follow(
    deck: &[u8],
    s: &[u8],
    part: &[u16],
    rows: &[u16],
    names: &[u16],
    cells: &mut [u32],
    low: &mut [u8],
    high: &mut [u8],
    work: &mut [u8],
    text: &mut [u8],
    list: &mut [u8],
    fs: Frames,
    first: Walk,
    here: Here,
    g0: Progress,
) -> Onward
    ensures { FollowIs deck.now s.now part.now rows.now names.now cells.old low.old high.old work.old text.old list.old fs first here g0 cells.new low.new high.new work.new text.new list.new result }
{
    let mut w = first;
    let mut g = g0;
    // a turn for each row of a member, since what is around a row is before it, and one that finds the end
    for _ in 0..2_049usize {
        match w {
            Walk::To(x) => return Ok((x, g)),
            Walk::Up(n) => {
                let r = text_behind(
                    deck, s, part, rows, names, cells, low, high, work, text, list, n, here, g,
                );
                match r {
                    Ok(h) => {
                        g = h;
                        w = flow::walk_behind(part, fs, n);
                    }
                    Err((stop, h)) => return Err((stop, h)),
                }
            }
        }
    }
    Ok((Next::Over, g))
}

// ---- statements

// What a statement does: control goes on, or a GOTO leads out of the member.
#[derive(Clone, Copy)]
pub enum Step {
    On(Walk, Progress),
    Went(Label, Progress),
}

#[derive(Clone, Copy)]
pub struct Turned {
    pub frames: Frames,
    pub step: Result<Step, Halted>,
}

pub fn with_step(frames: Frames, step: Result<Step, Halted>) -> Turned
    ensures { result ≡ turned_by frames step }
{
    Turned { frames, step }
}

pub fn refused(fs: Frames, g: Progress, why: Why, member: u16, place: usize) -> Turned
    ensures { result ≡ refused_at fs g why member place }
{
    with_step(fs, Err((Stop { why, member, place }, g)))
}

fn on_done(fs: Frames, n: u16, d: Done, g: Progress, member: u16, place: usize) -> Turned
    ensures { result ≡ done_to fs n d g member place }
{
    match d {
        Ok(m) => with_step(fs, Ok(Step::On(Walk::Up(n), with_meter(g, m)))),
        Err((w, m)) => refused(fs, with_meter(g, m), w, member, place),
    }
}

fn on_test(
    part: &[u16],
    fs: Frames,
    n: u16,
    t: Tested,
    g: Progress,
    member: u16,
    place: usize,
) -> Turned
    ensures { result ≡ tested_to part.now fs n t g member place }
{
    match t {
        Ok((b, m)) => with_step(fs, Ok(Step::On(flow::chosen(part, n, b), with_meter(g, m)))),
        Err((w, m)) => refused(fs, with_meter(g, m), w, member, place),
    }
}

fn on_jump(
    part: &[u16],
    fs: Frames,
    j: Result<Jump, Why>,
    g: Progress,
    member: u16,
    place: usize,
) -> Turned
    ensures { result ≡ jumped_to part.now fs j g member place }
{
    match j {
        Ok(Jump::Here(l)) => with_step(fs, Ok(Step::On(flow::landing(part, fs, l), g))),
        Ok(Jump::Away(l)) => with_step(fs, Ok(Step::Went(l, g))),
        Err(w) => refused(fs, g, w, member, place),
    }
}

fn on_activated(fs: Frames, n: u16, is_good: bool, g: Progress, member: u16, place: usize) -> Turned
    ensures { result ≡ activated_to fs n is_good g member place }
{
    if is_good {
        return with_step(fs, Ok(Step::On(Walk::Up(n), g)));
    }
    refused(fs, g, Why::WrongName, member, place)
}

// Into the group n, with the text that it begins with.
fn into(
    deck: &[u8],
    s: &[u8],
    part: &[u16],
    rows: &[u16],
    names: &[u16],
    cells: &mut [u32],
    low: &mut [u8],
    high: &mut [u8],
    work: &mut [u8],
    text: &mut [u8],
    list: &mut [u8],
    fs: Frames,
    n: u16,
    here: Here,
    g: Progress,
) -> Turned
    ensures { IntoIs deck.now s.now part.now rows.now names.now cells.old low.old high.old work.old text.old list.old fs n here g cells.new low.new high.new work.new text.new list.new result }
{
    let r = row_at(part, n);
    let x = lead_out(
        deck, s, rows, names, cells, low, high, work, text, list, r.lead, here, g,
    );
    match x {
        Ok(h) => with_step(fs, Ok(Step::On(flow::first_in(part, fs, n), h))),
        Err((stop, h)) => with_step(fs, Err((stop, h))),
    }
}

// The iterated group n, which starts so.
fn into_started(
    deck: &[u8],
    s: &[u8],
    part: &[u16],
    rows: &[u16],
    names: &[u16],
    cells: &mut [u32],
    low: &mut [u8],
    high: &mut [u8],
    work: &mut [u8],
    text: &mut [u8],
    list: &mut [u8],
    fs: Frames,
    n: u16,
    x: Started,
    here: Here,
    place: usize,
    g: Progress,
) -> Turned
    ensures { StartedIs deck.now s.now part.now rows.now names.now cells.old low.old high.old work.old text.old list.old fs n x here place g cells.new low.new high.new work.new text.new list.new result }
{
    match x {
        Ok((f, begins, m)) => {
            let h = with_meter(g, m);
            if begins {
                let inner = flow::with_frame(part, fs, n, f);
                return into(
                    deck, s, part, rows, names, cells, low, high, work, text, list, inner, n, here,
                    h,
                );
            }
            with_step(fs, Ok(Step::On(Walk::Up(n), h)))
        }
        Err((w, m)) => refused(fs, with_meter(g, m), w, here.member, place),
    }
}

// The iterated group n, which is tested again.
pub fn into_again(
    deck: &[u8],
    s: &[u8],
    part: &[u16],
    rows: &[u16],
    names: &[u16],
    cells: &mut [u32],
    low: &mut [u8],
    high: &mut [u8],
    work: &mut [u8],
    text: &mut [u8],
    list: &mut [u8],
    fs: Frames,
    n: u16,
    here: Here,
    g: Progress,
) -> Turned
    ensures { AgainIs deck.now s.now part.now rows.now names.now cells.old low.old high.old work.old text.old list.old fs n here g cells.new low.new high.new work.new text.new list.new result }
{
    let r = row_at(part, n);
    let t = stepped(cells, flow::frame_of(part, fs, n), g.meter);
    match t {
        Ok((b, m)) => {
            let h = with_meter(g, m);
            if b {
                return into(
                    deck, s, part, rows, names, cells, low, high, work, text, list, fs, n, here, h,
                );
            }
            with_step(fs, Ok(Step::On(Walk::Up(n), h)))
        }
        Err((w, m)) => refused(fs, with_meter(g, m), w, here.member, r.place as usize),
    }
}

// The statement of row n, but INCLUDE, whose step is charged.
pub fn statement(
    deck: &[u8],
    s: &[u8],
    part: &[u16],
    rows: &[u16],
    names: &mut [u16],
    cells: &mut [u32],
    low: &mut [u8],
    high: &mut [u8],
    work: &mut [u8],
    text: &mut [u8],
    list: &mut [u8],
    fs: Frames,
    n: u16,
    below: Below,
    here: Here,
    g: Progress,
) -> Turned
    ensures { StatementIs deck.now s.now part.now rows.now names.old cells.old low.old high.old work.old text.old list.old fs n below here g names.new cells.new low.new high.new work.new text.new list.new result }
{
    let r = row_at(part, n);
    let at = r.content as usize;
    let member = here.member;
    let place = r.place as usize;
    let m = g.meter;
    match r.statement {
        Statement::Assign => {
            let d = assign(
                deck,
                s,
                rows,
                names,
                cells,
                low,
                high,
                work,
                at,
                0,
                scene(here, g),
                m,
            );
            on_done(fs, n, d, g, member, place)
        }
        Statement::Conditional => {
            let t = test(
                deck,
                s,
                rows,
                names,
                cells,
                low,
                high,
                work,
                at,
                0,
                scene(here, g),
                m,
            );
            on_test(part, fs, n, t, g, member, place)
        }
        Statement::Iterated => {
            let y = start(
                deck,
                s,
                rows,
                names,
                cells,
                low,
                high,
                work,
                n,
                at,
                0,
                scene(here, g),
                m,
            );
            into_started(
                deck, s, part, rows, names, cells, low, high, work, text, list, fs, n, y, here,
                place, g,
            )
        }
        Statement::Group => into(
            deck, s, part, rows, names, cells, low, high, work, text, list, fs, n, here, g,
        ),
        Statement::Goto => {
            let j = jump_from(
                deck,
                s,
                rows,
                names,
                g.names,
                below,
                member,
                here.starts,
                n,
                at,
            );
            on_jump(part, fs, j, g, member, place)
        }
        Statement::Declare => {
            let b = declare_all(deck, s, names, g.names, at);
            on_activated(fs, n, b, g, member, place)
        }
        Statement::Activate => {
            let b = activate_all(deck, s, names, g.names, at);
            on_activated(fs, n, b, g, member, place)
        }
        Statement::Deactivate => {
            let b = deactivate_all(deck, s, names, g.names, at);
            on_activated(fs, n, b, g, member, place)
        }
        Statement::Null | Statement::Procedure | Statement::Include | Statement::Return => {
            with_step(fs, Ok(Step::On(Walk::Up(n), g)))
        }
    }
}

// A GOTO that came out of a member: to a label here, or on.
pub fn went_to(rows: &[u16], fs: Frames, here: Here, l: Label, g: Progress) -> Turned
    ensures { result ≡ went_to (part_here rows.now here) fs here.member l g }
{
    if l.place.member == here.member {
        return with_step(
            fs,
            Ok(Step::On(flow::landing(part_here(rows, here), fs, l), g)),
        );
    }
    with_step(fs, Ok(Step::Went(l, g)))
}

pub fn is_include(r: Row) -> bool
    ensures { result ≡ is_include r.statement }
{
    matches!(r.statement, Statement::Include)
}

// ---- what comes of a turn

// How the rows of a member have ended.
#[derive(Clone, Copy)]
pub enum Ended {
    Ran(Progress),
    Went(Label, Progress),
}

// What a turn gives, with the texts that come behind it.
#[derive(Clone, Copy)]
pub enum Settled {
    On(Next, Progress),
    End(Result<Ended, Halted>),
}

pub fn settle(
    deck: &[u8],
    s: &[u8],
    rows: &[u16],
    names: &[u16],
    cells: &mut [u32],
    low: &mut [u8],
    high: &mut [u8],
    work: &mut [u8],
    text: &mut [u8],
    list: &mut [u8],
    fs: Frames,
    step: Result<Step, Halted>,
    here: Here,
) -> Settled
    ensures { SettleIs deck.now s.now rows.now names.now cells.old low.old high.old work.old text.old list.old fs step here cells.new low.new high.new work.new text.new list.new result }
{
    match step {
        Ok(Step::On(w, g)) => {
            let o = follow(
                deck,
                s,
                part_here(rows, here),
                rows,
                names,
                cells,
                low,
                high,
                work,
                text,
                list,
                fs,
                w,
                here,
                g,
            );
            match o {
                Ok((next, h)) => Settled::On(next, h),
                Err((stop, h)) => Settled::End(Err((stop, h))),
            }
        }
        Ok(Step::Went(l, g)) => Settled::End(Ok(Ended::Went(l, g))),
        Err((stop, g)) => Settled::End(Err((stop, g))),
    }
}

pub fn is_over(x: Next) -> bool
    ensures { result ≡ is_over x }
{
    matches!(x, Next::Over)
}
