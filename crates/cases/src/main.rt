// Answers for many decks: each record has its flags (1 if the bodies are card images, else 0), the bytes of the text room, of the list
// room, the steps and the deck's length, four bytes each, and then the deck. What is printed for each is what the program prints.
// A room of more than 1,048,576 bytes is one of so many.
#![tactic(auto)]

use definition::Layout;
use expander::expand;
use rooms::get_u32;
use std::io::Read;
use writing::{large_room, read_full, write_answer};

fn number(head: &[u8], at: usize) -> usize {
    get_u32(head, at) as usize
}

// The layout that a record's flags say; there are none but these.
fn layout_of(flags: u32) -> Option<Layout> {
    match flags {
        0 => Some(Layout::Plain),
        1 => Some(Layout::Cards),
        _ => None,
    }
}

// The answer for a deck in a layout, with the rooms and the steps of a record's head: whether it was written. Only the part of a
// room that is asked for is lent, so that a small record does not clear a large room.
fn answer_deck(
    out: &impl Print,
    layout: Layout,
    head: &[u8],
    deck: &[u8],
    text: &mut [u8],
    list: &mut [u8],
    rows: &mut [u16],
    names: &mut [u16],
    cells: &mut [u32],
    low: &mut [u8],
    high: &mut [u8],
    work: &mut [u8],
    joined: &mut [u8],
) -> bool {
    let t = number(head, 4).min(text.len());
    let l = number(head, 8).min(list.len());
    let steps = get_u32(head, 12);
    let x = expand(
        layout,
        deck,
        &mut text[..t],
        &mut list[..l],
        rows,
        names,
        cells,
        low,
        high,
        work,
        joined,
        steps,
    );
    let numbers = [x.number, x.member, x.offset, x.steps, x.text, x.lines];
    write_answer(out, &numbers, text, list)
}

// One record: whether there was one. One with other flags is none, as one that is cut short.
fn answer_one(
    input: &mut impl Read,
    out: &impl Print,
    deck: &mut [u8],
    text: &mut [u8],
    list: &mut [u8],
    rows: &mut [u16],
    names: &mut [u16],
    cells: &mut [u32],
    low: &mut [u8],
    high: &mut [u8],
    work: &mut [u8],
    joined: &mut [u8],
) -> bool {
    let mut head = [0u8; 20];
    if read_full(input, &mut head) < head.len() {
        return false;
    }
    let Some(layout) = layout_of(get_u32(&head, 0)) else {
        return false;
    };
    let n = number(&head, 16).min(deck.len());
    let deck = &mut deck[..n];
    read_full(input, deck) == n
        && answer_deck(
            out, layout, &head, deck, text, list, rows, names, cells, low, high, work, joined,
        )
}

// All records. A proved loop has to end, and nothing says that the input does: the turns are counted, to a number that no run uses
// up.
fn answer_all(
    input: &mut impl Read,
    out: &impl Print,
    deck: &mut [u8],
    text: &mut [u8],
    list: &mut [u8],
    rows: &mut [u16],
    names: &mut [u16],
    cells: &mut [u32],
    low: &mut [u8],
    high: &mut [u8],
    work: &mut [u8],
    joined: &mut [u8],
) {
    for _ in 0..u64::MAX {
        if !answer_one(
            input, out, deck, text, list, rows, names, cells, low, high, work, joined,
        ) {
            return;
        }
    }
}

fn main(rt: HostRuntime) {
    let mut input = rt.stdin();
    let mut deck = [0u8; 131_072];
    let mut text = large_room();
    let mut list = large_room();
    let mut rows = [0u16; 32_768];
    let mut names = [0u16; 4_096];
    let mut cells = [0u32; 256];
    let mut low = [0u8; 65_536];
    let mut high = [0u8; 65_536];
    let mut work = [0u8; 65_536];
    let mut joined = [0u8; 65_536];
    answer_all(
        &mut input,
        &rt,
        &mut deck,
        &mut text,
        &mut list,
        &mut rows,
        &mut names,
        &mut cells,
        &mut low,
        &mut high,
        &mut work,
        &mut joined,
    );
}
