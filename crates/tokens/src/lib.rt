// The tokens of a statement and of a text: where each begins and ends, and of what kind it is.
// Parts: spaces and comments, where constants and words end, the token of a statement, what a constant holds, the pieces of a
// text.
#![tactic(auto)]

ghost use Rattle.std.specs.Prelude.{◌≡◌, ◌&&◌, false, ◌∷◌, [], suc, ◌+◌, ◌-◌, eqb, length, drop};
ghost use Rattle.definition.specs.Lists.{leading, same};
ghost use Rattle.definition.specs.Bytes.{mixed, is_alphameric, is_digit};
ghost use Rattle.definition.specs.Tokens as T;
ghost use Rattle.tokens.specs.Answer.{closed_for, gap_for, constant_for, byte_width, sign_size, is_solid, lex_of, lexeme_for, Lexed, written, spelling, is_word_kind, is_word_in, is_sign_in, content, Unquoted, cut_of, closed_piece, Cuts, ending_for};

use chars::{capital, is_alphameric, is_bit, is_digit, spells};
use classes::class;
use definition::Class;
use rooms::{byte, is_same, put_byte};
use sums::less;

#[derive(Clone, Copy)]
pub enum Kind {
    Word,
    Integer,
    String,
    Bits,
    Sign,
    Nothing,
    Wrong,
}

// A token of a statement: its kind, where it begins, and the place past it.
#[derive(Clone, Copy)]
pub struct Lexeme {
    pub kind: Kind,
    pub from: usize,
    pub to: usize,
}

// The place past the end of a comment whose bytes begin at a place.
fn comment_end(s: &[u8], from: usize) -> Option<usize>
    ensures { result ≡ closed_for (T.comment_end false (drop from s.now) from) }
{
    let mut star = false;
    for i in from..s.len() {
        if star && s[i] == b'/' {
            return Some(i + 1);
        }
        star = s[i] == b'*';
    }
    None
}

// The place past the next quote.
fn quote_end(s: &[u8], from: usize) -> Option<usize>
    ensures { result ≡ closed_for (T.quote_end (drop from s.now) from) }
{
    for i in from..s.len() {
        if s[i] == b'\'' {
            return Some(i + 1);
        }
    }
    None
}

#[tactic(auto, unfolding(definition::specs::Tokens::is_comment))]
fn is_comment(s: &[u8], p: usize) -> bool
    ensures { result ≡ T.is_comment s.now p }
{
    byte(s, p, 0) == b'/' && byte(s, p, 1) == b'*'
}

#[tactic(auto, unfolding(definition::specs::Tokens::is_space, definition::specs::Bytes::is_blank))]
fn is_space(b: u8) -> bool
    ensures { result ≡ T.is_space b }
{
    b == b' ' || b == b'\n'
}

// Where the spaces at a place end, or where the comment in them that stays open begins.
fn past_spaces(s: &[u8], e: usize) -> Result<usize, usize>
    ensures { result ≡ gap_for (T.spaces (length s.now) s.now e) }
{
    let mut p = e;
    while p < s.len() {
        if is_space(s[p]) {
            p += 1;
        } else if is_comment(s, p) {
            let Some(q) = comment_end(s, p + 2) else {
                return Err(p);
            };
            p = q;
        } else {
            return Ok(p);
        }
    }
    Ok(p)
}

// How many bytes stand for one byte of a constant: 2 for a doubled quote, and 0 for the quote that ends it.
#[tactic(auto, unfolding(crate::specs::Answer::byte_width))]
fn byte_width(s: &[u8], i: usize) -> usize
    ensures { result ≡ byte_width s.now i }
{
    match (byte(s, i, 0), byte(s, i, 1)) {
        (b'\'', b'\'') => 2,
        (b'\'', _) => 0,
        _ => 1,
    }
}

// The place past a constant in quotes, from behind its first quote, and whether it has only the bytes 0 and 1.
fn constant_end(s: &[u8], from: usize) -> Option<(usize, bool)>
    ensures { result ≡ constant_for (T.quoted_at (drop from s.now) [] from) }
{
    let mut bits = true;
    let mut i = from;
    while i < s.len() {
        let n = byte_width(s, i);
        if n < 1 {
            return Some((i + 1, bits));
        }
        bits = bits && is_bit(s[i]);
        i += n;
    }
    None
}

// The place past the letters, digits and `_` at a place.
fn word_end(s: &[u8], p: usize) -> usize
    ensures { result ≡ p + length (leading (is_alphameric mixed) (drop p s.now)) }
{
    let mut i = p;
    while i < s.len() && is_alphameric(s[i]) {
        i += 1;
    }
    i
}

// The place past the digits at a place.
// stays: a loop of its own beside `word_end`, since a test as a parameter would need clauses on what it answers
fn digits_end(s: &[u8], p: usize) -> usize
    ensures { result ≡ p + length (leading is_digit (drop p s.now)) }
{
    let mut i = p;
    while i < s.len() && is_digit(s[i]) {
        i += 1;
    }
    i
}

// Whether two bytes are one delimiter.
#[tactic(auto, unfolding(definition::specs::Tokens::is_pair))]
fn is_pair(a: u8, b: u8) -> bool
    ensures { result ≡ T.is_pair (a ∷ b ∷ []) }
{
    matches!(
        (a, b),
        (b'|', b'|') | (b'>' | b'<', b'=') | (b'^', b'>' | b'=' | b'<')
    )
}

#[tactic(auto, using(definition::proofs::Parts::part2), unfolding(crate::specs::Answer::sign_size))]
fn sign_size(s: &[u8], p: usize) -> usize
    ensures { result ≡ sign_size s.now p }
{
    if is_pair(byte(s, p, 0), byte(s, p, 1)) {
        2
    } else {
        1
    }
}

// What may not stand directly beside its like: what a name goes on with, or a quote.
#[tactic(auto, unfolding(crate::specs::Answer::is_solid))]
fn is_solid(b: u8) -> bool
    ensures { result ≡ is_solid b }
{
    is_alphameric(b) || b == b'\''
}

// Whether the token before, which ends at e, touches one that begins at p.
#[tactic(auto, unfolding(definition::specs::Tokens::is_touching, crate::specs::Answer::is_solid))]
fn touches(s: &[u8], e: usize, p: usize) -> bool
    ensures { result ≡ (eqb e p && T.is_touching mixed s.now p) }
{
    e == p && is_solid(byte(s, p.saturating_sub(1), 0)) && is_solid(byte(s, p, 0))
}

fn lex(kind: Kind, from: usize, to: usize) -> Lexeme
    ensures { result ≡ lex_of kind from to }
{
    Lexeme { kind, from, to }
}

// The constant whose first quote stands at p and whose bytes begin at `from`.
fn constant_at(s: &[u8], p: usize, from: usize) -> Lexeme
    ensures { result ≡ lexeme_for (T.constant_at mixed s.now p (T.quoted_at (drop from s.now) [] from)) }
{
    let Some((q, bits)) = constant_end(s, from) else {
        return lex(Kind::Wrong, p, p);
    };
    if bits && capital(byte(s, q, 0)) == b'B' {
        lex(Kind::Bits, p, q + 1)
    } else {
        lex(Kind::String, p, q)
    }
}

// The token at p, where the spaces after the one before it end.
fn lexeme_at(s: &[u8], e: usize, p: usize) -> Lexeme
    ensures { result ≡ lexeme_for (T.lexeme_at mixed s.now e (T.up_to p)) }
{
    if s.len() <= p {
        return lex(Kind::Nothing, p, p);
    }
    if touches(s, e, p) {
        return lex(Kind::Wrong, p, p);
    }
    match class(s[p]) {
        Class::Letter => lex(Kind::Word, p, word_end(s, p)),
        Class::Digit => lex(Kind::Integer, p, digits_end(s, p)),
        Class::Quote => constant_at(s, p, p + 1),
        Class::Mark | Class::Percent => lex(Kind::Sign, p, p + sign_size(s, p)),
        Class::Break | Class::Blank | Class::LineFeed | Class::Other => lex(Kind::Wrong, p, p),
    }
}

// The first token after the place e, where the token before it ends.
pub fn token_at(s: &[u8], e: usize) -> Lexeme
    ensures { Lexed s.now e result }
{
    match past_spaces(s, e) {
        Ok(p) => lexeme_at(s, e, p),
        Err(p) => lex(Kind::Wrong, p, p),
    }
}

// How many bytes a token has.
pub fn width(t: Lexeme) -> usize
    ensures { result ≡ t.to - t.from }
{
    less(t.to, t.from)
}

// Whether a lexeme has just the bytes of w.
fn is_written(s: &[u8], l: Lexeme, w: &[u8]) -> bool
    ensures { result ≡ same (written s.now l) w.now }
{
    width(l) == w.len() && is_same(s, l.from, w, 0, w.len())
}

// The same but for the case of the lexeme.
fn is_spelled(s: &[u8], l: Lexeme, w: &[u8]) -> bool
    ensures { result ≡ same (spelling s.now l) w.now }
{
    width(l) == w.len() && spells(s, l.from, w, 0, w.len())
}

pub fn is_word_kind(k: Kind) -> bool
    ensures { result ≡ is_word_kind k }
{
    matches!(k, Kind::Word)
}

// Whether a lexeme is the word w.
#[tactic(auto, unfolding(crate::specs::Answer::is_word_in))]
pub fn is_word(s: &[u8], l: Lexeme, w: &[u8]) -> bool
    ensures { result ≡ is_word_in s.now l w.now }
{
    is_word_kind(l.kind) && is_spelled(s, l, w)
}

// Whether a lexeme is the sign w.
#[tactic(auto, unfolding(crate::specs::Answer::is_sign_in))]
pub fn is_sign(s: &[u8], l: Lexeme, w: &[u8]) -> bool
    ensures { result ≡ is_sign_in s.now l w.now }
{
    matches!(l.kind, Kind::Sign) && is_written(s, l, w)
}

// How many bytes the constant has whose first quote stands at p; none where it stays open.
pub fn content_size(s: &[u8], p: usize) -> usize
    ensures { result ≡ length (content s.now p) }
{
    if s.len() <= p {
        return 0;
    }
    let mut n = 0;
    let mut i = p + 1;
    while i < s.len() {
        let w = byte_width(s, i);
        if w < 1 {
            return n;
        }
        i += w;
        n += 1;
    }
    0
}

// Copies the bytes of the constant whose first quote stands at p over the room from place `at` on, and says how many they are.
pub fn unquote(s: &[u8], p: usize, room: &mut [u8], at: usize) -> usize
    ensures { Unquoted s.now p room.old at room.new result }
{
    let size = content_size(s, p);
    if size < 1 {
        return 0;
    }
    let mut n = 0;
    let mut i = p + 1;
    while i < s.len() {
        let w = byte_width(s, i);
        if w < 1 {
            return n;
        }
        put_byte(room, at, n, s[i]);
        i += w;
        n += 1;
    }
    n
}

#[derive(Clone, Copy)]
pub enum PieceKind {
    Name,
    Plain,
    Unclosed,
}

// A token of a text, and the place past it.
#[derive(Clone, Copy)]
pub struct Piece {
    pub kind: PieceKind,
    pub to: usize,
}

// The `%` where a text ends, or that it goes to the end, or the token in it that stays open.
#[derive(Clone, Copy)]
pub enum Ending {
    Percent(usize),
    AtEnd,
    OpenAt(usize),
}

fn cut(kind: PieceKind, to: usize) -> Piece
    ensures { result ≡ cut_of kind to }
{
    Piece { kind, to }
}

// A string or a comment; one that stays open takes all the text.
fn closed_piece(s: &[u8], c: Option<usize>) -> Piece
    ensures { result ≡ closed_piece (length s.now) c }
{
    match c {
        Some(q) => cut(PieceKind::Plain, q),
        None => cut(PieceKind::Unclosed, s.len()),
    }
}

// The text token at a place.
pub fn piece_at(s: &[u8], p: usize) -> Piece
    ensures { Cuts s.now p result }
{
    if s.len() <= p {
        return cut(PieceKind::Plain, p);
    }
    if is_comment(s, p) {
        return closed_piece(s, comment_end(s, p + 2));
    }
    match class(s[p]) {
        Class::Letter => cut(PieceKind::Name, word_end(s, p)),
        Class::Digit => cut(PieceKind::Plain, word_end(s, p)),
        Class::Quote => closed_piece(s, quote_end(s, p + 1)),
        Class::Mark
        | Class::Percent
        | Class::Break
        | Class::Blank
        | Class::LineFeed
        | Class::Other => cut(PieceKind::Plain, p + 1),
    }
}

// Where a text that begins at a place ends.
pub fn text_end(s: &[u8], p: usize) -> Ending
    ensures { result ≡ ending_for (T.text_end mixed (suc (length s.now)) s.now p) }
{
    let mut i = p;
    while i < s.len() {
        if s[i] == b'%' {
            return Ending::Percent(i);
        }
        let x = piece_at(s, i);
        match x.kind {
            PieceKind::Unclosed => return Ending::OpenAt(i),
            PieceKind::Name | PieceKind::Plain => i = x.to,
        }
    }
    Ending::AtEnd
}
