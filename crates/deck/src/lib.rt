// The deck: bytes to contents, or malformed; a line's numbers; the line of a member that is sought. Lines are of 16 bytes, or
// with libraries of 24 (C-14); who looks through these functions does not see which.
#![tactic(auto)]

ghost use Rattle.std.specs.Prelude.{◌≡◌, ◌&&◌, ◌+◌, ◌-◌, length};
ghost use Rattle.definition.specs.Lists.{part, all};
ghost use Rattle.definition.specs.Bytes.{mixed, is_blank};
ghost use Rattle.definition.specs.Deck.{has_libraries, library_length, line_place, line_at, lines_from, is_member_name, are_named, is_one, is_repeated, are_distinct, is_padded, is_called, follow};
ghost use Rattle.definition.specs.Deck as D;
ghost use Rattle.deck.specs.Answer.{answer_for, found_for, body_in, is_named, spelled, sought_in};
ghost use Rattle.deck.specs.Word.{Word};

use chars::{is_alphameric, is_letter, is_one_name};
use member::body_of;
use rooms::{byte, get_u16, get_u32};

// A sound deck, by the number of its lines.
#[derive(Clone, Copy)]
pub struct Deck {
    pub lines: u16,
}

// Where a name is spelled in the deck.
#[derive(Clone, Copy)]
pub struct Spelled {
    pub from: usize,
    pub len: usize,
}

// What INCLUDE names: a member, or a library and a member of it.
#[derive(Clone, Copy)]
pub enum Sought {
    Bare(Spelled),
    InLibrary(Spelled, Spelled),
}

// Whether the lines name libraries.
#[tactic(auto, unfolding(definition::specs::Deck::has_libraries))]
pub fn has_libraries(d: &[u8]) -> bool
    ensures { result ≡ has_libraries d.now }
{
    Deck::LIBRARIES < get_u16(d, 0)
}

// The count, which says how many lines the contents have.
#[tactic(auto, unfolding(definition::specs::Deck::count, definition::specs::Deck::has_libraries))]
pub fn count(d: &[u8]) -> u16
    ensures { result ≡ D.count d.now }
{
    let n = get_u16(d, 0);
    if Deck::LIBRARIES < n {
        n - Deck::LIBRARIES
    } else {
        n
    }
}

// How many bytes of a line name its library.
#[tactic(auto, unfolding(definition::specs::Deck::library_length))]
pub fn library_length(d: &[u8]) -> usize
    ensures { result ≡ library_length d.now }
{
    if has_libraries(d) { Deck::NAME } else { 0 }
}

// Where line k stands.
#[tactic(auto, unfolding(definition::specs::Deck::line_place))]
pub fn line_place(d: &[u8], k: u16) -> usize
    ensures { result ≡ line_place d.now k }
{
    let width = if has_libraries(d) { 24 } else { 16 };
    2 + width * usize::from(k)
}

// Where the name of line k's member stands.
pub fn name_place(d: &[u8], k: u16) -> usize
    ensures { result ≡ line_place d.now k + library_length d.now }
{
    line_place(d, k) + library_length(d)
}

// Where the body of line k begins.
pub fn offset(d: &[u8], k: u16) -> u32
    ensures { result ≡ (line_at d.now k).offset }
{
    get_u32(d, name_place(d, k) + 8)
}

// How long the body of line k is.
pub fn size(d: &[u8], k: u16) -> u32
    ensures { result ≡ (line_at d.now k).size }
{
    get_u32(d, name_place(d, k) + 12)
}

// How many of the n bytes at a place a name goes on with.
fn word_length(d: &[u8], at: usize, n: usize) -> usize
    ensures { Word d.now at n result }
{
    let mut j = 0;
    while j < n && is_alphameric(byte(d, at, j)) {
        j += 1;
    }
    j
}

// Whether the bytes from i to n past a place are blanks.
fn is_blank_part(d: &[u8], at: usize, i: usize, n: usize) -> bool
    ensures { result ≡ all is_blank (part (n - i) (at + i) d.now) }
{
    for j in i..n {
        if byte(d, at, j) != b' ' {
            return false;
        }
    }
    true
}

// Whether the bytes of a name at a place are an identifier padded with blanks.
fn is_member_name(d: &[u8], at: usize) -> bool
    ensures { result ≡ is_member_name mixed (part 8 at d.now) }
{
    is_letter(byte(d, at, 0)) && is_blank_part(d, at, word_length(d, at, Deck::NAME), Deck::NAME)
}

// Whether line k has the name of a member, and of a library where lines have one.
fn is_named(d: &[u8], k: u16) -> bool
    ensures { result ≡ is_named d.now k }
{
    if has_libraries(d) {
        is_member_name(d, line_place(d, k)) && is_member_name(d, name_place(d, k))
    } else {
        is_member_name(d, name_place(d, k))
    }
}

// Whether each of n lines is named so.
fn are_named(d: &[u8], n: u16) -> bool
    ensures { result ≡ are_named mixed (has_libraries d.now) (lines_from d.now 0 n) }
{
    for k in 0..n {
        if !is_named(d, k) {
            return false;
        }
    }
    true
}

// Whether the name at a place is the one that is spelled elsewhere, padded with blanks.
fn is_padded(d: &[u8], at: usize, w: Spelled) -> bool
    ensures { result ≡ is_padded mixed (spelled d.now w) (part 8 at d.now) }
{
    if Deck::NAME < w.len {
        return false;
    }
    is_one_name(d, at, d, w.from, w.len) && is_blank_part(d, at, w.len, Deck::NAME)
}

// Whether line k is in the library that is spelled elsewhere.
fn is_in_library(d: &[u8], k: u16, w: Spelled) -> bool
    ensures { result ≡ is_padded mixed (spelled d.now w) (line_at d.now k).library }
{
    has_libraries(d) && is_padded(d, line_place(d, k), w)
}

// Whether line k is called so.
#[tactic(auto, unfolding(definition::specs::Deck::is_called, crate::specs::Answer::sought_in))]
fn is_called(d: &[u8], k: u16, x: Sought) -> bool
    ensures { result ≡ is_called mixed (sought_in d.now x) (line_at d.now k) }
{
    match x {
        Sought::Bare(w) => is_padded(d, name_place(d, k), w),
        Sought::InLibrary(l, w) => is_in_library(d, k, l) && is_padded(d, name_place(d, k), w),
    }
}

// The line of the member that is sought: the first that is called so.
pub fn find(d: &[u8], x: Sought) -> Option<u16>
    ensures { result ≡ found_for (D.find mixed (sought_in d.now x) 0 (D.lines d.now)) }
{
    let n = count(d);
    for k in 0..n {
        if is_called(d, k, x) {
            return Some(k);
        }
    }
    None
}

// Whether line j has the names of line k.
fn is_alike(d: &[u8], j: u16, k: u16) -> bool
    ensures { result ≡ (is_one mixed (line_at d.now j).library (line_at d.now k).library && is_one mixed (line_at d.now j).name (line_at d.now k).name) }
{
    is_one_name(
        d,
        line_place(d, j),
        d,
        line_place(d, k),
        library_length(d) + Deck::NAME,
    )
}

// Whether one of the lines i to n has the names of line k.
fn is_repeated(d: &[u8], k: u16, i: u16, n: u16) -> bool
    ensures { result ≡ is_repeated mixed (line_at d.now k) (lines_from d.now i (n - i)) }
{
    for j in i..n {
        if is_alike(d, j, k) {
            return true;
        }
    }
    false
}

// Whether no two of n lines have the same names.
fn are_distinct(d: &[u8], n: u16) -> bool
    ensures { result ≡ are_distinct mixed (lines_from d.now 0 n) }
{
    for k in 0..n {
        if is_repeated(d, k, k + 1, n) {
            return false;
        }
    }
    true
}

// Whether the bodies of n lines follow the contents and each other, and the deck ends with the last.
fn do_follow(d: &[u8], n: u16) -> bool
    ensures { result ≡ follow (line_place d.now n) (lines_from d.now 0 n) (length d.now) }
{
    let mut at = line_place(d, n);
    for k in 0..n {
        if offset(d, k) as usize != at {
            return false;
        }
        at += size(d, k) as usize;
    }
    at == d.len()
}

// Whether the bytes are a deck: the tests of its contents, in their order.
#[tactic(auto, unfolding(definition::specs::Deck::is_sound, definition::specs::Deck::lines))]
fn is_sound(d: &[u8]) -> bool
    ensures { result ≡ D.is_sound mixed d.now }
{
    let n = count(d);
    d.len() <= Deck::BYTES
        && 1 <= n
        && n <= Deck::LINES
        && line_place(d, n) <= d.len()
        && are_named(d, n)
        && are_distinct(d, n)
        && do_follow(d, n)
}

impl Deck {
    pub const BYTES: usize = 65_536;

    pub const LINES: u16 = 32;

    pub const NAME: usize = 8;

    // The first number of a deck whose lines name libraries is its count and this.
    pub const LIBRARIES: u16 = 256;

    // The contents of a deck of any bytes; none where it is malformed.
    #[tactic(auto, unfolding(definition::specs::Deck::contents))]
    pub fn of(d: &[u8]) -> Option<Deck>
        ensures { result ≡ answer_for (D.contents mixed d.now) }
    {
        is_sound(d).then_some(Deck { lines: count(d) })
    }
}

// The body of line k, through the view; nothing where the deck does not have it.
pub fn body(d: &[u8], k: u16) -> &[u8]
    ensures { result.now ≡ body_in d.now k }
{
    body_of(d, offset(d, k) as usize, size(d, k) as usize)
}
