// Members are read, entered and run, one inside the other by INCLUDE; what a statement of a member does is below, in `stepping`.
// Parts: where members stand, a member that is read, INCLUDE, turns, a member that runs.
#![tactic(auto)]

ghost use Rattle.std.specs.Prelude.{◌≡◌, ◌-◌};
ghost use Rattle.definition.specs.Room.{over, zeros};
ghost use Rattle.rows.specs.Parts.{start_in};
ghost use Rattle.flow.specs.declared.Next.TheVariants.{Begin};
ghost use Rattle.running.specs.Ways.{left_at, begun_at, ended_at};
ghost use Rattle.running.specs.Readers.{ReadIs, WithSource, StartedAt, stopped_at};
ghost use Rattle.running.specs.Members.{here_at, spelled_by, ItemIs, in_deck, FoundIs, IncludeOneIs, IncludeAllIs, TurnIs, RowsAre, SourceIs, EnterIs, RunIs};

use deck::{Sought, Spelled, body};
use definition::{Layout, Why};
use evaluating::deeds::turns_left;
use flow::{Frames, Next, Walk};
use leaving::{Below, none_below, with_below};
use limits::Levels;
use meter::Meter;
use output::Out;
use reading::{Source, read_member};
use rooms::put_number32;
use rows::{Starts, no_starts, part_place, row_at, start_of, with_start};
use stepping::{
    Ended, Settled, Step, Turned, into_again, is_include, is_over, part_here, refused, settle,
    statement, went_to, with_step,
};
use sums::sum;
use texts::{Halted, Here, Progress, Ran, Stop, lead_out, with_meter};
use tokens::{Lexeme, is_sign, token_at, width};

// ---- where members stand

// How the rows of a member have ended, and where the rows of each member start since.
#[derive(Clone, Copy)]
struct Left {
    ended: Result<Ended, Halted>,
    starts: Starts,
}

fn left_at(here: Here, ended: Result<Ended, Halted>) -> Left
    ensures { result ≡ left_at here ended }
{
    Left {
        ended,
        starts: here.starts,
    }
}

// A turn of a member, and where the rows of each member start since.
// stays: one generic pair with `Left` would only lose the names `ended` and `turned`.
#[derive(Clone, Copy)]
struct Begun {
    turned: Turned,
    starts: Starts,
}

fn turned_at(here: Here, turned: Turned) -> Begun
    ensures { result ≡ begun_at here turned }
{
    Begun {
        turned,
        starts: here.starts,
    }
}

fn in_member(here: Here, k: u16) -> Here
    ensures { result ≡ here_at k here.starts }
{
    Here { member: k, ..here }
}

// The same member, where the rows of each start since.
fn since(here: Here, starts: Starts) -> Here
    ensures { result ≡ here_at here.member starts }
{
    Here { starts, ..here }
}

// The member starts at row n of the table.
fn entered(here: Here, n: u16) -> Here
    ensures { StartedAt here here.starts n result }
{
    Here {
        starts: with_start(here.starts, here.member, n),
        ..here
    }
}

// Back in the member, when others were entered. Where it was one of them, its rows are still where they were, too.
fn resumed(here: Here, starts: Starts) -> Here
    ensures { StartedAt here starts (start_in here.starts here.member) result }
{
    entered(since(here, starts), start_of(here.starts, here.member))
}

// What an INCLUDE gives: it is passed, or a GOTO came out of a member.
fn on_ended(rows: &[u16], fs: Frames, n: u16, before: Here, x: Left) -> Begun
    ensures { result ≡ ended_at rows.now fs n before x }
{
    let here = since(before, x.starts);
    match x.ended {
        Ok(Ended::Ran(g)) => turned_at(here, with_step(fs, Ok(Step::On(Walk::Up(n), g)))),
        Ok(Ended::Went(l, g)) => turned_at(here, went_to(rows, fs, here, l, g)),
        Err((stop, g)) => turned_at(here, with_step(fs, Err((stop, g)))),
    }
}

// ---- members are read

// The rows of a member join those that there are; 01 allows 2,048.
fn with_source(g: Progress, x: Source) -> Progress
    ensures { WithSource g x result }
{
    Progress {
        rows: g.rows.saturating_add(x.rows),
        names: x.names,
        ..g
    }
}

// Member k is read behind the rows that there are.
fn read_behind(deck: &[u8], rows: &mut [u16], names: &mut [u16], k: u16, g: Progress) -> Source
    ensures { ReadIs deck.now rows.old names.old k g rows.new names.new result }
{
    let from = part_place(rows, g.rows);
    read_member(deck, &mut rows[from..], names, k, g.rows, g.names)
}

// A name that is declared has no value.
fn forget(cells: &mut [u32], from: u16, to: u16)
    ensures { cells.new ≡ over cells.old from (zeros (to - from)) }
{
    for a in from..to {
        put_number32(cells, 0, usize::from(a), 0);
    }
}

// ---- INCLUDE

// An item of its list: what it names, where the body spells it, and the place past it.
#[derive(Clone, Copy)]
struct Item {
    sought: Sought,
    to: usize,
}

fn spelled_by(t: Lexeme) -> Spelled
    ensures { result ≡ spelled_by t }
{
    Spelled {
        from: t.from,
        len: width(t),
    }
}

// The item behind a place: a name, and in parentheses another if the first is a library's.
fn item_at(s: &[u8], at: usize) -> Item
    ensures { ItemIs s.now at result }
{
    let t = token_at(s, at);
    let open = token_at(s, t.to);
    if is_sign(s, open, b"(") {
        let m = token_at(s, open.to);
        let close = token_at(s, m.to);
        return Item {
            sought: Sought::InLibrary(spelled_by(t), spelled_by(m)),
            to: close.to,
        };
    }
    Item {
        sought: Sought::Bare(spelled_by(t)),
        to: t.to,
    }
}

// Where a name of the body that begins at `base` is spelled in the deck.
fn in_deck(base: usize, w: Spelled) -> Spelled
    ensures { result ≡ in_deck base w }
{
    Spelled {
        from: sum(base, w.from),
        ..w
    }
}

// The line of the member that is sought, by names which the body of member `here` spells.
fn member_named(deck: &[u8], here: u16, x: Sought) -> Option<u16>
    ensures { FoundIs deck.now here x result }
{
    let base = deck::offset(deck, here) as usize;
    match x {
        Sought::Bare(w) => deck::find(deck, Sought::Bare(in_deck(base, w))),
        Sought::InLibrary(l, w) => deck::find(
            deck,
            Sought::InLibrary(in_deck(base, l), in_deck(base, w)),
        ),
    }
}

fn stopped(g: Progress, why: Why, member: u16, place: usize) -> Result<Ended, Halted>
    ensures { result ≡ stopped_at g why member place }
{
    Err((Stop { why, member, place }, g))
}

// The member of the deck that an item of INCLUDE means is entered and run: 14, 15, then the member.
#[cycle(member_run)]
fn include_one(
    deck: &[u8],
    rows: &mut [u16],
    names: &mut [u16],
    cells: &mut [u32],
    low: &mut [u8],
    high: &mut [u8],
    work: &mut [u8],
    text: &mut [u8],
    list: &mut [u8],
    x: Sought,
    place: usize,
    below: Below,
    here: Here,
    left: usize,
    g: Progress,
) -> Left
    ensures { IncludeOneIs deck.now rows.old names.old cells.old low.old high.old work.old text.old list.old x place below here left g rows.new names.new cells.new low.new high.new work.new text.new list.new result }
{
    match member_named(deck, here.member, x) {
        None => left_at(here, stopped(g, Why::UnknownMember, here.member, place)),
        Some(k) => {
            if left < 1 {
                return left_at(here, stopped(g, Why::TooDeep, here.member, place));
            }
            enter_and_run(
                deck,
                rows,
                names,
                cells,
                low,
                high,
                work,
                text,
                list,
                in_member(here, k),
                below,
                left - 1,
                g,
            )
        }
    }
}

// The INCLUDE of row n: its members one after the other.
#[cycle(member_run)]
fn include_all(
    deck: &[u8],
    rows: &mut [u16],
    names: &mut [u16],
    cells: &mut [u32],
    low: &mut [u8],
    high: &mut [u8],
    work: &mut [u8],
    text: &mut [u8],
    list: &mut [u8],
    n: u16,
    below: Below,
    before: Here,
    left: usize,
    g0: Progress,
) -> Left
    ensures { IncludeAllIs deck.now rows.old names.old cells.old low.old high.old work.old text.old list.old n below before left g0 rows.new names.new cells.new low.new high.new work.new text.new list.new result }
{
    let s = body(deck, before.member);
    let r = row_at(part_here(rows, before), n);
    let place = usize::from(r.place);
    let inner = with_below(below, before.member, n);
    let mut here = before;
    let mut at = usize::from(r.content);
    let mut g = g0;
    // each name has a byte at least
    for _ in 0..s.len() {
        let item = item_at(s, at);
        let x = include_one(
            deck,
            rows,
            names,
            cells,
            low,
            high,
            work,
            text,
            list,
            item.sought,
            place,
            inner,
            here,
            left,
            g,
        );
        here = resumed(here, x.starts);
        let Ok(ended) = x.ended else {
            return left_at(here, x.ended);
        };
        let Ended::Ran(h) = ended else {
            return left_at(here, x.ended);
        };
        let comma = token_at(s, item.to);
        if !is_sign(s, comma, b",") {
            return left_at(here, Ok(Ended::Ran(h)));
        }
        at = comma.to;
        g = h;
    }
    left_at(here, Ok(Ended::Ran(g)))
}

// ---- turns

// The statement of row n begins: its step is charged.
#[cycle(member_run)]
fn begin(
    deck: &[u8],
    s: &[u8],
    rows: &mut [u16],
    names: &mut [u16],
    cells: &mut [u32],
    low: &mut [u8],
    high: &mut [u8],
    work: &mut [u8],
    text: &mut [u8],
    list: &mut [u8],
    fs: Frames,
    n: u16,
    below: Below,
    here: Here,
    left: usize,
    g0: Progress,
) -> Begun
    ensures { TurnIs deck.now s.now rows.old names.old cells.old low.old high.old work.old text.old list.old fs (Begin n) below here left g0 rows.new names.new cells.new low.new high.new work.new text.new list.new result }
{
    let r = row_at(part_here(rows, here), n);
    let g = match g0.meter.charged() {
        Ok(m) => with_meter(g0, m),
        Err((w, m)) => {
            let t = refused(fs, with_meter(g0, m), w, here.member, usize::from(r.place));
            return turned_at(here, t);
        }
    };
    if is_include(r) {
        let e = include_all(
            deck, rows, names, cells, low, high, work, text, list, n, below, here, left, g,
        );
        return on_ended(rows, fs, n, here, e);
    }
    let t = statement(
        deck,
        s,
        part_here(rows, here),
        rows,
        names,
        cells,
        low,
        high,
        work,
        text,
        list,
        fs,
        n,
        below,
        here,
        g,
    );
    turned_at(here, t)
}

// One turn of a member: a statement begins, or an iterated group is tested again.
#[cycle(member_run)]
fn turn(
    deck: &[u8],
    s: &[u8],
    rows: &mut [u16],
    names: &mut [u16],
    cells: &mut [u32],
    low: &mut [u8],
    high: &mut [u8],
    work: &mut [u8],
    text: &mut [u8],
    list: &mut [u8],
    fs: Frames,
    next: Next,
    below: Below,
    here: Here,
    left: usize,
    g: Progress,
) -> Begun
    ensures { TurnIs deck.now s.now rows.old names.old cells.old low.old high.old work.old text.old list.old fs next below here left g rows.new names.new cells.new low.new high.new work.new text.new list.new result }
{
    match next {
        Next::Begin(n) => {
            begin(
                deck, s, rows, names, cells, low, high, work, text, list, fs, n, below, here, left,
                g,
            )
        }
        Next::Again(n) => {
            let t = into_again(
                deck,
                s,
                part_here(rows, here),
                rows,
                names,
                cells,
                low,
                high,
                work,
                text,
                list,
                fs,
                n,
                here,
                g,
            );
            turned_at(here, t)
        }
        Next::Over => turned_at(here, with_step(fs, Ok(Step::On(Walk::To(Next::Over), g)))),
    }
}

// The rows of a member, from one on; `left` include levels are left.
#[cycle(member_run)]
fn run_rows(
    deck: &[u8],
    rows: &mut [u16],
    names: &mut [u16],
    cells: &mut [u32],
    low: &mut [u8],
    high: &mut [u8],
    work: &mut [u8],
    text: &mut [u8],
    list: &mut [u8],
    first: Next,
    below: Below,
    start: Here,
    left: usize,
    g0: Progress,
) -> Left
    ensures { RowsAre deck.now rows.old names.old cells.old low.old high.old work.old text.old list.old first below start left g0 rows.new names.new cells.new low.new high.new work.new text.new list.new result }
{
    let s = body(deck, start.member);
    let mut next = first;
    let mut fs = flow::no_frames();
    let mut here = start;
    let mut g = g0;
    for _ in 0..turns_left(g0.meter) {
        if is_over(next) {
            return left_at(here, Ok(Ended::Ran(g)));
        }
        let t = turn(
            deck, s, rows, names, cells, low, high, work, text, list, fs, next, below, here, left,
            g,
        );
        here = since(here, t.starts);
        fs = t.turned.frames;
        match settle(
            deck,
            s,
            rows,
            names,
            cells,
            low,
            high,
            work,
            text,
            list,
            fs,
            t.turned.step,
            here,
        ) {
            Settled::On(y, h) => {
                next = y;
                g = h;
            }
            Settled::End(e) => return left_at(here, e),
        }
    }
    left_at(here, Ok(Ended::Ran(g)))
}

// ---- a member

// A member that was entered: its leading text, then its rows.
#[cycle(member_run)]
fn run_source(
    deck: &[u8],
    rows: &mut [u16],
    names: &mut [u16],
    cells: &mut [u32],
    low: &mut [u8],
    high: &mut [u8],
    work: &mut [u8],
    text: &mut [u8],
    list: &mut [u8],
    x: Source,
    below: Below,
    here: Here,
    left: usize,
    g: Progress,
) -> Left
    ensures { SourceIs deck.now rows.old names.old cells.old low.old high.old work.old text.old list.old x below here left g rows.new names.new cells.new low.new high.new work.new text.new list.new result }
{
    let s = body(deck, here.member);
    match lead_out(
        deck, s, rows, names, cells, low, high, work, text, list, x.lead, here, g,
    ) {
        Ok(h) => {
            run_rows(
                deck,
                rows,
                names,
                cells,
                low,
                high,
                work,
                text,
                list,
                flow::first_of(x.first),
                below,
                here,
                left,
                h,
            )
        }
        Err((stop, h)) => left_at(here, Err((stop, h))),
    }
}

// The member is read, its names are declared, and it is run.
#[cycle(member_run)]
fn enter_and_run(
    deck: &[u8],
    rows: &mut [u16],
    names: &mut [u16],
    cells: &mut [u32],
    low: &mut [u8],
    high: &mut [u8],
    work: &mut [u8],
    text: &mut [u8],
    list: &mut [u8],
    here: Here,
    below: Below,
    left: usize,
    g: Progress,
) -> Left
    ensures { EnterIs deck.now rows.old names.old cells.old low.old high.old work.old text.old list.old below here left g rows.new names.new cells.new low.new high.new work.new text.new list.new result }
{
    let x = read_behind(deck, rows, names, here.member, g);
    match x.fault {
        Ok(()) => {
            forget(cells, g.names, x.names);
            run_source(
                deck,
                rows,
                names,
                cells,
                low,
                high,
                work,
                text,
                list,
                x,
                below,
                entered(here, g.rows),
                left,
                with_source(g, x),
            )
        }
        Err((why, place)) => left_at(here, stopped(g, why, here.member, place)),
    }
}

// THE RUN of a sound deck, whose line 0 is the main program; `layout` says what its places are told by.
pub fn run(
    layout: Layout,
    deck: &[u8],
    rows: &mut [u16],
    names: &mut [u16],
    cells: &mut [u32],
    low: &mut [u8],
    high: &mut [u8],
    work: &mut [u8],
    text: &mut [u8],
    list: &mut [u8],
    steps: u32,
) -> Ran
    ensures { RunIs layout deck.now rows.old names.old cells.old low.old high.old work.old text.old list.old steps text.new list.new result }
{
    let g = Progress {
        meter: Meter::new(steps),
        layout,
        out: Out::new(text.len(), list.len()),
        rows: 0,
        names: 0,
    };
    let main = Here {
        member: 0,
        starts: no_starts(),
    };
    let x = enter_and_run(
        deck,
        rows,
        names,
        cells,
        low,
        high,
        work,
        text,
        list,
        main,
        none_below(),
        Levels::INCLUDES,
        g,
    );
    let ended = x.ended?;
    match ended {
        Ended::Ran(h) | Ended::Went(_, h) => Ok(h),
    }
}
