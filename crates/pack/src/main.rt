// Packs member files into a deck (01, "The deck") and writes it to standard output.
//
// Each argument is a member, the first the main program: NAME=path, LIBRARY(NAME)=path, or a path alone, whose base name
// up to its first dot is the name. Names go into the deck in the case in which they are written; names that are equal but
// for case are one (C-15). Where an argument names a library, each line of the deck has one: its own, or else the one
// behind -L, which stands before the members, or else MAIN. Where no deck can be made, one line on standard error says why
// and nothing is written.
// Parts: refusals, arguments, names, files, the deck, what the arguments ask for.
#![tactic(auto)]

use chars::{is_alphameric, is_letter};
use deck::{Deck, Sought, Spelled, has_libraries, line_place, name_place};
use rooms::{copy, is_same, put_byte, put_u16, put_u32};
use std::env::FillError;
use std::fs::File;
use std::io::{ErrorKind, Read, Write};
use std::rt::{Env, Files};
use std::{io, str};
use sums::sum;
use writing::{argument, argument_count, say};

// A buffer for an argument, or for what one read brings.
const BUFFER: usize = 4_096;

// A buffer for the words of an error.
const WORDS: usize = 256;

// Linux's numbers of two errors: there is no such argument, and one is too long.
const INVALID: i32 = 22;

const TOO_LONG: i32 = 36;

// There is no deck, and why has been said.
#[derive(Clone, Copy)]
struct Refused;

// What the arguments ask for: where the first member stands, how many there are, and whether lines name libraries.
#[derive(Clone, Copy)]
struct Order {
    first: usize,
    members: u16,
    libraries: bool,
}

// What an argument says of a member.
#[derive(Clone, Copy)]
struct Member<'a> {
    library: Option<&'a [u8]>,
    name: &'a [u8],
    path: &'a [u8],
}

// ---- refusals

// Says in one line why there is no deck.
fn refuse(log: &impl Print, what: &[u8], why: &[u8]) -> Refused {
    say(log, b"pack: ");
    say(log, what);
    say(log, b": ");
    say(log, why);
    say(log, b"\n");
    Refused
}

// The same where the system says why, without the number of its error, which stands in brackets behind the words.
fn refuse_for_system(log: &impl Print, what: &[u8], error: io::Error) -> Refused {
    let mut room = [0u8; WORDS];
    let mut rest = room.as_mut_slice();
    let _ = write!(rest, "{error}");
    let words = room
        .split(|b| *b == b'(' || *b == 0)
        .next()
        .unwrap_or(&room);
    refuse(log, what, words.strip_suffix(b" ").unwrap_or(words))
}

// ---- arguments

// The base name of a path up to its first dot.
fn stem(path: &[u8]) -> &[u8] {
    let base = path.rsplit(|b| *b == b'/').next().unwrap_or(path);
    base.split(|b| *b == b'.').next().unwrap_or(base)
}

// The member of NAME=path or LIBRARY(NAME)=path.
fn named_member<'a>(words: &'a [u8], path: &'a [u8]) -> Member<'a> {
    if let Some(inner) = words.strip_suffix(b")")
        && let Some(n) = inner.iter().position(|b| *b == b'(')
        && 0 < n
    {
        return Member {
            library: Some(&inner[..n]),
            name: &inner[n + 1..],
            path,
        };
    }
    Member {
        library: None,
        name: words,
        path,
    }
}

// The path begins behind the first `=` if no `/` stands before it, so that a path may hold a `=` too.
fn member_of(arg: &[u8]) -> Member<'_> {
    match arg.iter().position(|b| *b == b'=' || *b == b'/') {
        Some(n) if arg[n] == b'=' => named_member(&arg[..n], &arg[n + 1..]),
        _ => Member {
            library: None,
            name: stem(arg),
            path: arg,
        },
    }
}

// ---- names

// Whether a name is an identifier that is no longer than a name of the deck.
fn is_identifier(name: &[u8]) -> bool {
    match name {
        [first, rest @ ..] => {
            name.len() <= Deck::NAME && is_letter(*first) && rest.iter().all(|b| is_alphameric(*b))
        }
        [] => false,
    }
}

// Puts a name, which blanks follow, at a place.
fn put_name(deck: &mut [u8], at: usize, name: &[u8]) {
    for j in 0..Deck::NAME {
        put_byte(deck, at, j, name.get(j).copied().unwrap_or(b' '));
    }
}

// Puts the library of line k, where lines have one: its own, or else the one that stands for all.
fn add_library(
    log: &impl Print,
    deck: &mut [u8],
    k: u16,
    arg: &[u8],
    library: &[u8],
) -> Result<(), Refused> {
    if !has_libraries(deck) {
        return Ok(());
    }
    if !is_identifier(library) {
        return Err(refuse(log, arg, b"the library is no identifier of at most 8 bytes"));
    }
    put_name(deck, line_place(deck, k), library);
    Ok(())
}

// Puts the member's name of line k.
fn add_name(
    log: &impl Print,
    deck: &mut [u8],
    k: u16,
    arg: &[u8],
    name: &[u8],
) -> Result<(), Refused> {
    if !is_identifier(name) {
        return Err(refuse(log, arg, b"the name is no identifier of at most 8 bytes"));
    }
    put_name(deck, name_place(deck, k), name);
    Ok(())
}

// A name of the deck.
fn name_at(from: usize) -> Spelled {
    Spelled {
        from,
        len: Deck::NAME,
    }
}

// The names of line k.
fn names_of(deck: &[u8], k: u16) -> Sought {
    let name = name_at(name_place(deck, k));
    if has_libraries(deck) {
        Sought::InLibrary(name_at(line_place(deck, k)), name)
    } else {
        Sought::Bare(name)
    }
}

// Whether the names at two places are the same byte for byte.
fn is_same_name(deck: &[u8], i: usize, j: usize) -> bool {
    is_same(deck, i, deck, j, Deck::NAME)
}

// Whether two lines have their names in the same case too.
fn is_written_alike(deck: &[u8], j: u16, k: u16) -> bool {
    is_same_name(deck, line_place(deck, j), line_place(deck, k))
        && is_same_name(deck, name_place(deck, j), name_place(deck, k))
}

// Says that line j, which stands before line k, has its names.
fn refuse_repeated(log: &impl Print, deck: &[u8], j: u16, k: u16, arg: &[u8]) -> Refused {
    if is_written_alike(deck, j, k) {
        refuse(log, arg, b"an earlier member has that name")
    } else {
        refuse(log, arg, b"an earlier member has that name but for case")
    }
}

// No line before line k has its names. The first number says how many lines `find` looks at.
fn check_new(log: &impl Print, deck: &mut [u8], k: u16, arg: &[u8]) -> Result<(), Refused> {
    if k == 0 {
        return Ok(());
    }
    let names = names_of(deck, k);
    put_first(deck, k, has_libraries(deck));
    match deck::find(deck, names) {
        Some(j) => Err(refuse_repeated(log, deck, j, k, arg)),
        None => Ok(()),
    }
}

// ---- files

// Reads once, puts what came into the deck from a place on, and answers where it ends there, or nothing at the file's end.
fn read_some(
    log: &impl Print,
    file: &mut impl Read,
    path: &[u8],
    deck: &mut [u8],
    at: u32,
) -> Result<Option<u32>, Refused> {
    let mut chunk = [0u8; BUFFER];
    let n = file
        .read(&mut chunk)
        .map_err(|error| refuse_for_system(log, path, error))?;
    if n == 0 {
        return Ok(None);
    }
    let from = at as usize;
    if Deck::BYTES < from + n {
        return Err(refuse(log, path, b"with it the deck would pass 65,536 bytes"));
    }
    copy(&chunk, 0, n, deck, from);
    Ok(Some((from + n) as u32))
}

// Reads to the end of a file, and answers where it ends in the deck. Each turn but the last brings a byte, so a deck is full before
// the turns are used up.
fn read_body(
    log: &impl Print,
    file: &mut impl Read,
    path: &[u8],
    deck: &mut [u8],
    from: u32,
) -> Result<u32, Refused> {
    let mut at = from;
    for _ in 0..Deck::BYTES {
        match read_some(log, file, path, deck, at)? {
            Some(next) => at = next,
            None => return Ok(at),
        }
    }
    Err(Refused)
}

// Opens a file. A path has to be UTF-8.
fn open_file<R: Files>(rt: &R, path: &[u8]) -> io::Result<R::File> {
    let text = str::from_utf8(path).map_err(|_| ErrorKind::InvalidFilename)?;
    File::open(rt, text)
}

fn read_file(
    rt: &impl Files,
    log: &impl Print,
    path: &[u8],
    deck: &mut [u8],
    from: u32,
) -> Result<u32, Refused> {
    let mut file = open_file(rt, path).map_err(|error| refuse_for_system(log, path, error))?;
    read_body(log, &mut file, path, deck, from)
}

// ---- the deck

// Puts offset and length of a body into line k.
fn put_place(deck: &mut [u8], k: u16, from: u32, end: u32) {
    let at = name_place(deck, k);
    put_u32(deck, sum(at, 8), from);
    put_u32(deck, sum(at, 12), end.wrapping_sub(from));
}

// Adds the member of an argument as line k, its body from a place on, and answers where that ends.
fn add_member(
    rt: &impl Files,
    log: &impl Print,
    deck: &mut [u8],
    k: u16,
    arg: &[u8],
    library: &[u8],
    from: u32,
) -> Result<u32, Refused> {
    let member = member_of(arg);
    add_library(log, deck, k, arg, member.library.unwrap_or(library))?;
    add_name(log, deck, k, arg, member.name)?;
    check_new(log, deck, k, arg)?;
    let end = read_file(rt, log, member.path, deck, from)?;
    put_place(deck, k, from, end);
    Ok(end)
}

// What the system says where an argument is not there whole.
fn error_of(error: FillError) -> io::Error {
    io::Error::from_raw_os_error(match error {
        FillError::NotPresent => INVALID,
        FillError::TooLong => TOO_LONG,
    })
}

// Adds the member that an argument names, as line k.
fn add_argument(
    rt: &(impl Env + Files),
    log: &impl Print,
    deck: &mut [u8],
    k: u16,
    place: usize,
    library: &[u8],
    from: u32,
) -> Result<u32, Refused> {
    let mut arg = [0u8; BUFFER];
    let n = rt.arg(place, &mut arg).map_err(|error| refuse_for_system(
        log,
        b"an argument",
        error_of(error),
    ))?;
    add_member(rt, log, deck, k, &arg[..n], library, from)
}

// Puts the first number: the count, or with libraries the count and 256.
fn put_first(deck: &mut [u8], members: u16, libraries: bool) {
    let base = if libraries { Deck::LIBRARIES } else { 0 };
    put_u16(deck, 0, members % 256 + base);
}

// Packs the members that the arguments name, and answers where the deck ends. The first number is put again at the end, since
// `check_new` uses its place.
fn pack(
    rt: &(impl Env + Files),
    log: &impl Print,
    deck: &mut [u8],
    order: Order,
    library: &[u8],
) -> Result<u32, Refused> {
    put_first(deck, order.members, order.libraries);
    let mut end = (line_place(deck, order.members) % 65_536) as u32;
    for k in 0..order.members {
        let place = sum(order.first, usize::from(k));
        end = add_argument(rt, log, deck, k, place, library, end)?;
    }
    put_first(deck, order.members, order.libraries);
    Ok(end)
}

// Writes the deck, once the proved reader of decks calls it sound.
fn write_deck(out: &impl Print, log: &impl Print, room: &[u8], size: u32) -> Result<(), Refused> {
    match room.get(..size as usize) {
        Some(made) if Deck::of(made).is_some() => out
            .write_all(made)
            .map_err(|error| refuse_for_system(log, b"standard output", error)),
        _ => Err(refuse(log, b"the deck", b"it came out malformed")),
    }
}

// ---- what the arguments ask for

// Whether an argument names a library.
fn names_library(env: &impl Env, place: usize) -> bool {
    let mut arg = [0u8; BUFFER];
    let n = argument(env, place, &mut arg);
    member_of(&arg[..n]).library.is_some()
}

// Whether one of the arguments from one on does.
fn is_library_named(env: &impl Env, first: usize) -> bool {
    (first..argument_count(env)).any(|place| names_library(env, place))
}

// Whether -L stands before the members.
fn is_library_given(env: &impl Env) -> bool {
    let mut arg = [0u8; BUFFER];
    let n = argument(env, 1, &mut arg);
    &arg[..n] == b"-L".as_slice()
}

// How many members the arguments from one on name.
fn member_count(env: &impl Env, log: &impl Print, first: usize) -> Result<u16, Refused> {
    match u16::try_from(argument_count(env).saturating_sub(first)) {
        Ok(0) => Err(refuse(
            log,
            b"no member",
            b"usage: pack [-L LIBRARY] [[LIBRARY(]NAME[)]=]FILE ..",
        )),
        Ok(n) if n <= Deck::LINES => Ok(n),
        _ => Err(refuse(log, b"too many members", b"a deck has at most 32")),
    }
}

// What the arguments ask for, from the first member on.
fn order_from(
    env: &impl Env,
    log: &impl Print,
    first: usize,
    is_given: bool,
) -> Result<Order, Refused> {
    let members = member_count(env, log, first)?;
    Ok(Order {
        first,
        members,
        libraries: is_given || is_library_named(env, first),
    })
}

// Packs and writes what is asked for.
fn write_packed(rt: &(impl Env + Files + Print), log: &impl Print) -> Result<(), Refused> {
    let is_given = is_library_given(rt);
    let order = order_from(rt, log, if is_given { 3 } else { 1 }, is_given)?;
    let mut arg = [0u8; BUFFER];
    let n = argument(rt, 2, &mut arg);
    let library = if is_given { &arg[..n] } else { b"MAIN" };
    let mut room = [0u8; Deck::BYTES];
    let size = pack(rt, log, &mut room, order, library)?;
    write_deck(rt, log, &room, size)
}

fn main(rt: HostRuntime) {
    // where it is refused, why has been said
    let _ = write_packed(&rt, &rt.stderr());
}
