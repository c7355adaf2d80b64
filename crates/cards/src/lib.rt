// Card images: a deck whose bodies are 80-column records, joined to a plain one.
#![tactic(auto)]

ghost use Rattle.std.specs.Prelude.{◌≡◌, ◌%◌};
ghost use Rattle.definition.specs.Room.{over};
ghost use Rattle.definition.specs.Deck.{line_place, line_at, lines_from};
ghost use Rattle.definition.specs.Deck as D;
ghost use Rattle.definition.specs.Cards.{joined_lines, columns};
ghost use Rattle.definition.specs.Cards as C;
ghost use Rattle.deck.specs.Answer.{found_for};
ghost use Rattle.cards.specs.Joins.{joined_line, PutsBodies, Joins};

use deck::{Deck, count, library_length, line_place, name_place, offset, size};
use limits::Record;
use rooms::{copy, put_u32};

// No joined deck has as many bytes, even by the numbers of a malformed one: 65,535 bodies, each under 4,294,967,296.
const LONG: usize = 281_474_976_710_656;

// The first line whose body is no whole number of records.
pub fn uneven(d: &[u8]) -> Option<u16>
    ensures { result ≡ found_for (C.uneven 0 (D.lines d.now)) }
{
    let n = count(d);
    for k in 0..n {
        if (size(d, k) as usize) % Record::COLUMNS != 0 {
            return Some(k);
        }
    }
    None
}

// How many records the body of line k has.
fn records(d: &[u8], k: u16) -> u32
    ensures { result ≡ C.records (line_at d.now k) }
{
    ((size(d, k) as usize) / Record::COLUMNS) as u32
}

// How long the body of line k is when joined.
fn joined_size(d: &[u8], k: u16) -> u32
    ensures { result ≡ C.joined_size (line_at d.now k) }
{
    (Record::SOURCE * ((size(d, k) as usize) / Record::COLUMNS)) as u32
}

// Writes line k of the joined contents, whose body begins at a place; the cut changes none of its four bytes.
fn put_line(d: &[u8], k: u16, room: &mut [u8], at: usize)
    ensures { room.new ≡ over room.old (line_place d.now k) (joined_line at (line_at d.now k)) }
{
    let place = line_place(d, k);
    let name = name_place(d, k);
    copy(d, place, library_length(d) + Deck::NAME, room, place);
    put_u32(room, name + 8, (at % 4_294_967_296) as u32);
    put_u32(room, name + 12, joined_size(d, k));
}

// Writes the n lines of the joined contents, which its bodies follow.
fn put_lines(d: &[u8], n: u16, room: &mut [u8])
    ensures { room.new ≡ over room.old 2 (joined_lines (line_place d.now n) (lines_from d.now 0 n)) }
{
    let mut at = line_place(d, n);
    for k in 0..n {
        put_line(d, k, room, at);
        at += joined_size(d, k) as usize;
    }
}

// Copies columns 2 to 72 of n records, the first of which begins at a place, over the room; the cut is for places that no deck has.
fn put_columns(d: &[u8], from: u32, n: u32, room: &mut [u8], to: usize)
    ensures { room.new ≡ over room.old (to % 281474976710656) (columns n from d.now) }
{
    let mut card = from as usize;
    let mut at = to % LONG;
    for _j in 0..n {
        copy(d, card + 1, Record::SOURCE, room, at);
        card += Record::COLUMNS;
        at += Record::SOURCE;
    }
}

// Copies the bodies of n lines, joined, behind as many contents lines; and where they end.
fn put_bodies(d: &[u8], n: u16, room: &mut [u8]) -> usize
    ensures { PutsBodies d.now n room.old room.new result }
{
    let mut to = line_place(d, n);
    for k in 0..n {
        put_columns(d, offset(d, k), records(d, k), room, to);
        to += joined_size(d, k) as usize;
    }
    to
}

// Writes the joined deck over the start of the room; and its length.
pub fn join(d: &[u8], room: &mut [u8]) -> usize
    ensures { Joins d.now room.old room.new result }
{
    let n = count(d);
    copy(d, 0, 2, room, 0);
    put_lines(d, n, room);
    put_bodies(d, n, room)
}
