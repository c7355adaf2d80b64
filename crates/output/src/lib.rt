// The text room and the list room: what is put out goes into both, if both have room.
#![tactic(auto)]

ghost use Rattle.std.specs.Prelude.{◌≡◌, length, leb, cond};
ghost use Rattle.definition.specs.Limits.{text_bytes};
ghost use Rattle.definition.specs.Lists.{part};
ghost use Rattle.definition.specs.Events.{blank, copied};
ghost use Rattle.output.specs.Shows.{kind_number, line_in, grows_from, growing, PutsFine, EndsFine, Begins};
ghost use Rattle.output.specs.Line.{line_at, PutsLine, Writes};

use rooms::{copy, put_byte, put_u32};
use sums::{less, sum, sum32};

// What a line tells of: a blank that was put in, a stretch that was copied, the outcome of a replacement.
#[derive(Clone, Copy, PartialEq, Eq)]
pub enum Kind {
    Blank = 1,
    Copied = 2,
    Replaced = 3,
}

// A line of the list, while it is the newest.
#[derive(Clone, Copy)]
pub struct Newest {
    pub kind: Kind,
    pub member: u8,
    pub offset: u32,
    pub size: u32,
}

// What has been put out: bytes and lines; the bytes and lines that the rooms may still take; the newest line, if there is one.
#[derive(Clone, Copy)]
pub struct Out {
    pub text: usize,
    pub room: usize,
    pub lines: usize,
    pub free: usize,
    pub newest: Option<Newest>,
}

impl From<Kind> for u8 {
    ghost from_gives = { λ x r. r ≡ kind_number x };

    fn from(x: Kind) -> u8 {
        x as u8
    }
}

// The text room counts at 4,294,967,295 bytes at most.
fn capped(text: usize) -> usize
    ensures { result ≡ cond (leb text text_bytes) text text_bytes }
{
    text.min(Out::MOST)
}

impl Out {
    pub const MOST: usize = 4_294_967_295;

    pub const LINE: usize = 12;

    // Nothing is put out yet, into rooms of some bytes.
    pub fn new(text: usize, list: usize) -> Out
        ensures { Begins text list result }
    {
        Out {
            text: 0,
            room: capped(text),
            lines: 0,
            free: list / Out::LINE,
            newest: None,
        }
    }
}

// The place of line k in the list, or the most.
#[tactic(auto, unfolding(crate::specs::Line::line_at))]
fn line_at(k: usize) -> usize
    ensures { result ≡ line_at k }
{
    Out::LINE.saturating_mul(k)
}

// Writes the twelve bytes of a line from a place on.
fn put_line(list: &mut [u8], at: usize, x: Newest)
    ensures { PutsLine list.old at x list.new }
{
    put_byte(list, at, 0, x.kind.into());
    put_byte(list, at, 1, x.member);
    put_byte(list, at, 2, 0);
    put_byte(list, at, 3, 0);
    put_u32(list, sum(at, 4), x.offset);
    put_u32(list, sum(at, 8), x.size);
}

// Whether a token copied from a place goes on with a line.
#[tactic(auto, using(crate::proofs::Laws::ends), unfolding(crate::specs::Shows::grows_from))]
fn grows_from(x: Newest, member: u8, place: u32) -> bool
    ensures { result ≡ grows_from (line_in x) member place }
{
    x.kind == Kind::Copied && x.member == member && x.offset <= place && place - x.offset == x.size
}

// The newest line, if a token copied from a place goes on with it.
fn growing(newest: Option<Newest>, member: u8, place: u32) -> Option<Newest>
    ensures { result ≡ growing newest member place }
{
    newest.filter(|x| grows_from(*x, member, place))
}

// The line x as line k of the list, behind n bytes more of text.
fn with_line(list: &mut [u8], o: Out, k: usize, x: Newest, n: usize) -> Out
    ensures { Writes list.old o k x n result list.new }
{
    put_line(list, line_at(k), x);
    let lines = sum(k, 1);
    Out {
        text: sum(o.text, n),
        room: less(o.room, n),
        lines,
        free: less(o.free, less(lines, o.lines)),
        newest: Some(x),
    }
}

// A blank, at the start of a text.
pub fn put_blank(text: &mut [u8], list: &mut [u8], o: Out, member: u8, place: u32) -> Option<Out>
    ensures { PutsFine (blank member place) o text.old list.old result text.new list.new }
{
    if o.free < 1 || o.room < 1 {
        return None;
    }
    put_byte(text, o.text, 0, 32);
    let x = Newest {
        kind: Kind::Blank,
        member,
        offset: place,
        size: 1,
    };
    Some(with_line(list, o, o.lines, x, 1))
}

// The n bytes of src from a place on, copied from that place of a member.
pub fn put_copied(
    src: &[u8],
    from: usize,
    n: u32,
    text: &mut [u8],
    list: &mut [u8],
    o: Out,
    member: u8,
    place: u32,
) -> Option<Out>
    ensures { PutsFine (copied member place (part n from src.now)) o text.old list.old result text.new list.new }
{
    let size = n as usize;
    if let Some(x) = growing(o.newest, member, place) {
        if o.room < size {
            return None;
        }
        copy(src, from, size, text, o.text);
        let longer = Newest {
            size: sum32(x.size, n),
            ..x
        };
        return Some(with_line(list, o, less(o.lines, 1), longer, size));
    }
    if o.free < 1 || o.room < size {
        return None;
    }
    copy(src, from, size, text, o.text);
    let x = Newest {
        kind: Kind::Copied,
        member,
        offset: place,
        size: n,
    };
    Some(with_line(list, o, o.lines, x, size))
}

// The line of a replacement, whose outcome of n bytes stands in the text room already.
pub fn put_replaced(text: &[u8], list: &mut [u8], o: Out, member: u8, place: u32, n: u32) -> Out
    ensures { EndsFine member place n o (length text.now) list.old result list.new }
{
    let x = Newest {
        kind: Kind::Replaced,
        member,
        offset: place,
        size: n,
    };
    with_line(list, o, o.lines, x, n as usize)
}
