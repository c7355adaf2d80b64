// Where control goes in rows: behind a statement, into a group, to a label. It is the same for members and procedures; what a
// member puts out on the way is not done here.
// Parts: frames of groups, behind a statement, GOTO.
#![tactic(auto)]

ghost use Rattle.std.specs.Prelude.{◌≡◌, ◌+◌};
ghost use Rattle.fixed.specs.Answer.{result_of};
ghost use Rattle.fixed.specs.Signed.{from_stored};
ghost use Rattle.flow.specs.Walks.{no_frame, no_frames, leads_to, frame_in, frames_with, is_down, passes_by, end_walk, next_walk, up_walk, behind_walk, behind_on, arrived_at, first_walk, chosen_walk, link_walk, first_of, iterated_at, parent_at, around_on, may_stand, may_go_on, label_from, landing_walk};

use fixed::{Fixed, FixedError};
use names::Label;
use rows::{Role, Row, Statement, row_at};

// What begins next: a statement, another test of an iterated group, or nothing.
#[derive(Clone, Copy)]
pub enum Next {
    Begin(u16),
    Again(u16),
    Over,
}

// One step behind a row: what begins next, or that it is what comes behind another row.
#[derive(Clone, Copy)]
pub enum Walk {
    To(Next),
    Up(u16),
}

// An iterated group that was entered: the address of its variable, BY and TO as stored (0: no TO). Without both there is one pass.
#[derive(Clone, Copy)]
pub struct Frame {
    pub group: Option<u16>,
    pub address: u16,
    pub step: u32,
    pub limit: u32,
    pub is_once: bool,
}

// One for each depth at which a group can stand.
#[derive(Clone, Copy)]
pub struct Frames {
    pub items: [Frame; 16],
}

#[tactic(auto, unfolding(crate::specs::Walks::no_frame))]
fn no_frame() -> Frame
    ensures { result ≡ no_frame }
{
    Frame {
        group: None,
        address: 0,
        step: 0,
        limit: 0,
        is_once: true,
    }
}

#[tactic(auto, unfolding(crate::specs::Walks::no_frames))]
pub fn no_frames() -> Frames
    ensures { result ≡ no_frames }
{
    Frames {
        items: [no_frame(); 16],
    }
}

#[tactic(auto, unfolding(crate::specs::Walks::leads_to))]
fn leads_to(x: Option<u16>, n: u16) -> bool
    ensures { result ≡ leads_to x n }
{
    matches!(x, Some(m) if m == n)
}

// The frame of the group g.
#[tactic(auto, unfolding(crate::specs::Walks::frame_in, crate::specs::Walks::frame_at))]
pub fn frame_of(rows: &[u16], fs: Frames, g: u16) -> Frame
    ensures { result ≡ frame_in rows.now fs g }
{
    let d = usize::from(row_at(rows, g).depth);
    if d < 16 && leads_to(fs.items[d].group, g) {
        return fs.items[d];
    }
    no_frame()
}

// With the frame of a group that is entered.
#[tactic(auto, unfolding(crate::specs::Walks::frames_with))]
pub fn with_frame(rows: &[u16], fs: Frames, g: u16, f: Frame) -> Frames
    ensures { result ≡ frames_with rows.now fs g f }
{
    let d = usize::from(row_at(rows, g).depth);
    let mut all = fs;
    if d < 16 {
        all.items[d] = f;
    }
    all
}

// "it ends over TO, under TO if BY is negative, never without TO"
pub fn passes(f: Frame, x: Fixed) -> bool
    ensures { result ≡ passes_by (from_stored f.limit) (from_stored f.step) x.value }
{
    let by = Fixed::from_stored(f.step);
    let Ok(limit) = Fixed::from_stored(f.limit) else {
        return true;
    };
    if is_down(by) {
        return !x.is_less(limit);
    }
    !limit.is_less(x)
}

#[tactic(auto, unfolding(crate::specs::Walks::is_down))]
fn is_down(by: Result<Fixed, FixedError>) -> bool
    ensures { result ≡ is_down (result_of by) }
{
    matches!(by, Ok(x) if x.is_negative())
}

// ---- behind a statement

// The end of what stands in the row g: a pass of an iterated group is over, or the row itself is.
#[tactic(auto, unfolding(crate::specs::Walks::end_walk, crate::specs::Walks::end_as))]
pub fn end_in(rows: &[u16], fs: Frames, g: u16) -> Walk
    ensures { result ≡ end_walk rows.now fs g }
{
    match row_at(rows, g).statement {
        Statement::Procedure => Walk::To(Next::Over),
        Statement::Iterated => {
            if frame_of(rows, fs, g).is_once {
                return Walk::Up(g);
            }
            Walk::To(Next::Again(g))
        }
        Statement::Null
        | Statement::Declare
        | Statement::Assign
        | Statement::Conditional
        | Statement::Group
        | Statement::Goto
        | Statement::Include
        | Statement::Activate
        | Statement::Deactivate
        | Statement::Return => Walk::Up(g),
    }
}

// The next of a list, or the end of what the list stands in.
#[tactic(auto, unfolding(crate::specs::Walks::next_walk))]
fn next_in(rows: &[u16], fs: Frames, x: Row) -> Walk
    ensures { result ≡ next_walk rows.now fs x.next x.parent }
{
    match x.next {
        Some(m) => Walk::To(Next::Begin(m)),
        None => match x.parent {
            Some(g) => end_in(rows, fs, g),
            None => Walk::To(Next::Over),
        },
    }
}

#[tactic(auto, unfolding(crate::specs::Walks::up_walk))]
fn up_from(parent: Option<u16>) -> Walk
    ensures { result ≡ up_walk parent }
{
    match parent {
        Some(g) => Walk::Up(g),
        None => Walk::To(Next::Over),
    }
}

// Behind the row n: behind an alternative comes what is behind its IF.
#[tactic(auto, unfolding(crate::specs::Walks::behind_walk, crate::specs::Walks::behind_as))]
pub fn walk_behind(rows: &[u16], fs: Frames, n: u16) -> Walk
    ensures { result ≡ behind_walk rows.now fs n }
{
    let r = row_at(rows, n);
    match r.role {
        Role::Listed => next_in(rows, fs, r),
        Role::ThenPart | Role::ElsePart => up_from(r.parent),
    }
}

// Behind the row n, where nothing is put out on the way. A parent comes before its rows, so its number is more than the turns.
pub fn behind(rows: &[u16], fs: Frames, n: u16) -> Next
    ensures { result ≡ behind_on rows.now fs (n + 1) n }
{
    let mut at = n;
    // stays: as, and no 0..=n; with either the goals of the loop did not close
    for _ in 0..n as usize + 1 {
        match walk_behind(rows, fs, at) {
            Walk::To(x) => return x,
            Walk::Up(g) => at = g,
        }
    }
    Next::Over
}

// Where a walk leads, if nothing is put out on the way.
#[tactic(auto, unfolding(crate::specs::Walks::arrived_at))]
pub fn arrived(rows: &[u16], fs: Frames, w: Walk) -> Next
    ensures { result ≡ arrived_at rows.now fs w }
{
    match w {
        Walk::To(x) => x,
        Walk::Up(g) => behind(rows, fs, g),
    }
}

// The first row in the group g, or its end.
#[tactic(auto, unfolding(crate::specs::Walks::first_walk, crate::specs::Walks::first_as))]
pub fn first_in(rows: &[u16], fs: Frames, g: u16) -> Walk
    ensures { result ≡ first_walk rows.now fs g }
{
    match row_at(rows, g).child {
        Some(m) => Walk::To(Next::Begin(m)),
        None => end_in(rows, fs, g),
    }
}

// The alternative that an IF takes, or what is behind it.
#[tactic(auto, unfolding(crate::specs::Walks::chosen_walk))]
pub fn chosen(rows: &[u16], n: u16, holds: bool) -> Walk
    ensures { result ≡ chosen_walk rows.now n holds }
{
    let r = row_at(rows, n);
    if holds {
        return link_walk(r.child, n);
    }
    link_walk(r.other, n)
}

#[tactic(auto, unfolding(crate::specs::Walks::link_walk))]
fn link_walk(x: Option<u16>, n: u16) -> Walk
    ensures { result ≡ link_walk x n }
{
    match x {
        Some(m) => Walk::To(Next::Begin(m)),
        None => Walk::Up(n),
    }
}

#[tactic(auto, unfolding(crate::specs::Walks::first_of))]
pub fn first_of(x: Option<u16>) -> Next
    ensures { result ≡ first_of x }
{
    match x {
        Some(n) => Next::Begin(n),
        None => Next::Over,
    }
}

// ---- GOTO

#[tactic(auto, unfolding(crate::specs::Walks::iterated_at, crate::specs::Walks::is_iterated))]
fn is_iterated(rows: &[u16], n: u16) -> bool
    ensures { result ≡ iterated_at rows.now n }
{
    matches!(row_at(rows, n).statement, Statement::Iterated)
}

#[tactic(auto, unfolding(crate::specs::Walks::parent_at))]
fn parent_of(rows: &[u16], n: u16) -> Option<u16>
    ensures { result ≡ parent_at rows.now n }
{
    row_at(rows, n).parent
}

// More turns than rows can stand in each other.
const TURNS: usize = 2_048;

// Whether the row g is around the row n.
fn is_around(rows: &[u16], g: u16, n: u16) -> bool
    ensures { result ≡ around_on rows.now g 2048 (parent_at rows.now n) }
{
    let mut up = parent_of(rows, n);
    for _ in 0..TURNS {
        let Some(p) = up else {
            return false;
        };
        if p == g {
            return true;
        }
        up = parent_of(rows, p);
    }
    false
}

// Whether a group may be around the target of a GOTO from row n.
#[tactic(auto, unfolding(crate::specs::Walks::may_stand))]
fn may_be_around(rows: &[u16], g: u16, n: u16) -> bool
    ensures { result ≡ may_stand rows.now g n }
{
    !is_iterated(rows, g) || is_around(rows, g, n)
}

#[tactic(auto, unfolding(crate::specs::Walks::label_from))]
fn label_from(rows: &[u16], r: u16, is_end: bool) -> Option<u16>
    ensures { result ≡ label_from rows.now r is_end }
{
    if is_end {
        return Some(r);
    }
    parent_of(rows, r)
}

// "It may not enter an iterated group": each around the label of row r, or of its END, is around row n.
pub fn may_go(rows: &[u16], n: u16, r: u16, is_end: bool) -> bool
    ensures { result ≡ may_go_on rows.now n 2048 (label_from rows.now r is_end) }
{
    let mut up = label_from(rows, r, is_end);
    for _ in 0..TURNS {
        let Some(g) = up else {
            return true;
        };
        if !may_be_around(rows, g, n) {
            return false;
        }
        up = parent_of(rows, g);
    }
    true
}

// Where a GOTO to a label lands.
#[tactic(auto, unfolding(crate::specs::Walks::landing_walk))]
pub fn landing(rows: &[u16], fs: Frames, x: Label) -> Walk
    ensures { result ≡ landing_walk rows.now fs x.place.row x.is_end }
{
    if x.is_end {
        return end_in(rows, fs, x.place.row);
    }
    Walk::To(Next::Begin(x.place.row))
}
