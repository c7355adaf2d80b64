// The program: a deck from standard input, and on standard output the six numbers, the lines, the text and a line feed. The word
// `cards` as its first argument says that the bodies of the deck are card images. Behind it, or without it, `steps`, `text` and
// `list` may stand in any order, each once and with a number behind it: how many steps the deck may take, and how many bytes the
// text room and the list room have. What is not said is 01's. Other words are told on standard error, and nothing is answered.
#![tactic(auto)]

use definition::Layout;
use expander::expand;
use limits::Rooms;
use meter::Meter;
use std::io::Read;
use std::rt::Env;
use std::str;
use writing::{argument, argument_count, large_room, read_full, say, write_answer};

// As large as a room can be made.
const LARGEST: u32 = 1_048_576;

// A buffer for an argument.
const BUFFER: usize = 4_096;

// There is no answer, and why has been said.
#[derive(Clone, Copy)]
struct Refused;

// What was said of the limits so far.
#[derive(Clone, Copy)]
struct Order {
    steps: Option<u32>,
    text: Option<u32>,
    list: Option<u32>,
}

// The limits of a run.
#[derive(Clone, Copy)]
struct Limits {
    steps: u32,
    text: usize,
    list: usize,
}

// Says in one line why there is no answer.
fn refuse(log: &impl Print, what: &[u8], why: &[u8]) -> Refused {
    say(log, b"expand: ");
    say(log, what);
    say(log, b": ");
    say(log, why);
    say(log, b"\n");
    Refused
}

// ---- limits

// The number that a word of digits says, if it is at most so large.
fn number_of(word: &[u8], most: u32) -> Option<u32> {
    // `parse` would take a sign too
    if !word.iter().all(|b| b.is_ascii_digit()) {
        return None;
    }
    let n = str::from_utf8(word).ok()?.parse::<u32>().ok()?;
    (n <= most).then_some(n)
}

// What a number says of a limit, of which nothing may have been said before.
fn limit_of(
    log: &impl Print,
    word: &[u8],
    before: Option<u32>,
    number: &[u8],
    most: u32,
) -> Result<Option<u32>, Refused> {
    if before.is_some() {
        return Err(refuse(log, word, b"it is said twice"));
    }
    match number_of(number, most) {
        Some(n) => Ok(Some(n)),
        None => Err(refuse_number(log, word, most)),
    }
}

fn refuse_number(log: &impl Print, word: &[u8], most: u32) -> Refused {
    if most == LARGEST {
        refuse(log, word, b"it takes a number from 0 to 1048576")
    } else {
        refuse(log, word, b"it takes a number from 0 to 4294967295")
    }
}

// The order with what a word and the one behind it say.
fn with_limit(
    log: &impl Print,
    order: Order,
    word: &[u8],
    number: &[u8],
) -> Result<Order, Refused> {
    match word {
        b"steps" => {
            let steps = limit_of(log, word, order.steps, number, u32::MAX)?;
            Ok(Order { steps, ..order })
        }
        b"text" => {
            let text = limit_of(log, word, order.text, number, LARGEST)?;
            Ok(Order { text, ..order })
        }
        b"list" => {
            let list = limit_of(log, word, order.list, number, LARGEST)?;
            Ok(Order { list, ..order })
        }
        _ => Err(refuse(
            log,
            word,
            b"it is none of steps, text and list, or of cards in front of them",
        )),
    }
}

// The same of argument i and the one behind it; a missing one reads as an empty word.
fn with_arguments(
    env: &impl Env,
    log: &impl Print,
    order: Order,
    i: usize,
) -> Result<Order, Refused> {
    let mut word = [0u8; BUFFER];
    let mut number = [0u8; BUFFER];
    let n = argument(env, i, &mut word);
    let m = argument(env, i.saturating_add(1), &mut number);
    with_limit(log, order, &word[..n], &number[..m])
}

// The limits of an order; what is not said is 01's.
fn limits_of(order: Order) -> Limits {
    let rooms = Rooms::of_program();
    Limits {
        steps: order.steps.unwrap_or(Meter::STEPS),
        text: order.text.unwrap_or(rooms.text as u32) as usize,
        list: order.list.unwrap_or(rooms.list as u32) as usize,
    }
}

// What the arguments from one on ask for, each limit by two of them.
fn read_limits(env: &impl Env, log: &impl Print, first: usize) -> Result<Limits, Refused> {
    let mut order = Order {
        steps: None,
        text: None,
        list: None,
    };
    for i in (first..argument_count(env)).step_by(2) {
        order = with_arguments(env, log, order, i)?;
    }
    Ok(limits_of(order))
}

// ---- the answer

// Answers the deck, with as much of the two rooms as the limits say.
fn answer_deck(
    input: &mut impl Read,
    out: &impl Print,
    layout: Layout,
    limits: Limits,
    text: &mut [u8],
    list: &mut [u8],
) {
    // one byte more than a deck may have, so that a longer one is seen to be longer
    let mut deck = [0u8; 65_537];
    let mut rows = [0u16; 32_768];
    let mut names = [0u16; 4_096];
    let mut cells = [0u32; 256];
    let mut low = [0u8; 65_536];
    let mut high = [0u8; 65_536];
    let mut work = [0u8; 65_536];
    let mut joined = [0u8; 65_536];
    let n = read_full(input, &mut deck);
    let t = limits.text.min(text.len());
    let l = limits.list.min(list.len());
    let x = expand(
        layout,
        &deck[..n],
        &mut text[..t],
        &mut list[..l],
        &mut rows,
        &mut names,
        &mut cells,
        &mut low,
        &mut high,
        &mut work,
        &mut joined,
        limits.steps,
    );
    let numbers = [x.number, x.member, x.offset, x.steps, x.text, x.lines];
    write_answer(out, &numbers, text, list);
}

// Answers if the arguments from one on are limits.
fn answer(
    rt: &(impl Env + Print),
    input: &mut impl Read,
    log: &impl Print,
    layout: Layout,
    first: usize,
) {
    if let Ok(limits) = read_limits(rt, log, first) {
        let mut text = large_room();
        let mut list = large_room();
        answer_deck(input, rt, layout, limits, &mut text, &mut list);
    }
}

// Whether the first argument says that the bodies are card images.
fn are_cards(env: &impl Env) -> bool {
    let mut word = [0u8; BUFFER];
    let n = argument(env, 1, &mut word);
    &word[..n] == b"cards".as_slice()
}

fn main(rt: HostRuntime) {
    let mut input = rt.stdin();
    let log = rt.stderr();
    let (layout, first) = if are_cards(&rt) {
        (Layout::Cards, 2)
    } else {
        (Layout::Plain, 1)
    };
    answer(&rt, &mut input, &log, layout, first);
}
