// THE EXPANDER: any bytes, any rooms. Its numbers, its text and its list are the definition's, and every working room ends zero.
// Parts: the numbers of an answer, the rooms, the expansion, the same for C and Rust.
#![tactic(auto)]

ghost use Rattle.std.specs.Prelude.{◌≡◌};
ghost use Rattle.definition.specs.Bytes.{mixed};
ghost use Rattle.definition.specs.Deck.{is_sound};
ghost use Rattle.definition.specs.Room.{over};
ghost use Rattle.definition.specs.declared.Layout.TheVariants.{Cards};
ghost use Rattle.definition.specs.Cards.{uneven_in, layout_for};
ghost use Rattle.deck.specs.Answer.{found_for};
ghost use Rattle.expander.specs.Answer.{refusal_at, refused_for, finished_for, answer_for, malformed_for, uneven_for, short_for, early_for};
ghost use Rattle.expander.specs.Promise.{are_roomy, working, Cleared, RanFor, Decided, Emptied, Expanded, six_of, Told};

use cards::{join, uneven};
use deck::{Deck, size};
use definition::Layout;
use origin::told_place;
use printing::used;
use rooms::{put_number32, zero_u8, zero_u16, zero_u32};
use running::run;
use texts::{Progress, Ran, Stop, size32};

// The six numbers of an answer.
#[derive(Clone, Copy)]
pub struct Expansion {
    pub number: u32,
    pub member: u32,
    pub offset: u32,
    pub steps: u32,
    pub text: u32,
    pub lines: u32,
}

// The sizes of the working rooms, in numbers of their type.
pub const ROWS: usize = 32_768;

pub const NAMES: usize = 4_096;

pub const CELLS: usize = 256;

pub const LOW: usize = 65_536;

pub const HIGH: usize = 65_536;

pub const WORK: usize = 65_536;

pub const JOINED: usize = 65_536;

// A refusal: text length and lines are 0.
fn refusal(number: u32, member: u32, offset: u32, steps: u32) -> Expansion
    ensures { result ≡ refusal_at number member offset steps }
{
    Expansion {
        number,
        member,
        offset,
        steps,
        text: 0,
        lines: 0,
    }
}

// Of the run of the deck d, by the place as it is told.
fn refused(layout: Layout, d: &[u8], x: Stop, g: Progress) -> Expansion
    ensures { result ≡ refused_for layout d.now x g }
{
    let place = told_place(layout, size(d, x.member) as usize, x.place);
    refusal(u32::from(x.why), u32::from(x.member), place, g.meter.used)
}

fn finished(g: Progress) -> Expansion
    ensures { result ≡ finished_for g }
{
    Expansion {
        number: 0,
        member: 0,
        offset: 0,
        steps: g.meter.used,
        text: size32(g.out.text),
        lines: size32(g.out.lines),
    }
}

fn answer(layout: Layout, d: &[u8], r: Ran) -> Expansion
    ensures { result ≡ answer_for layout d.now r }
{
    match r {
        Ok(g) => finished(g),
        Err((x, g)) => refused(layout, d, x, g),
    }
}

fn is_sound(deck: &[u8]) -> bool
    ensures { result ≡ is_sound mixed deck.now }
{
    matches!(Deck::of(deck), Some(_))
}

// The first body that is no whole number of records; of a plain deck none is asked for.
fn uneven_in(layout: Layout, deck: &[u8]) -> Option<u16>
    ensures { result ≡ found_for (uneven_in layout deck.now) }
{
    match layout {
        Layout::Plain => None,
        Layout::Cards => uneven(deck),
    }
}

// Whether working rooms of so many numbers are as long as docs/ROOMS.md says.
fn are_roomy(
    rows: usize,
    names: usize,
    cells: usize,
    low: usize,
    high: usize,
    work: usize,
    joined: usize,
) -> bool
    ensures { result ≡ are_roomy rows names cells low high work joined }
{
    ROWS <= rows
        && NAMES <= names
        && CELLS <= cells
        && LOW <= low
        && HIGH <= high
        && WORK <= work
        && JOINED <= joined
}

fn malformed(sound: bool) -> Result<(), Expansion>
    ensures { result ≡ malformed_for sound }
{
    if sound {
        Ok(())
    } else {
        Err(refusal(1, 0, 0, 0))
    }
}

fn odd(f: Option<u16>) -> Result<(), Expansion>
    ensures { result ≡ uneven_for f }
{
    match f {
        Some(k) => Err(refusal(20, u32::from(k), 0, 0)),
        None => Ok(()),
    }
}

fn short(roomy: bool) -> Result<(), Expansion>
    ensures { result ≡ short_for roomy }
{
    if roomy {
        Ok(())
    } else {
        Err(refusal(2, 0, 0, 0))
    }
}

// What is refused before a run: 1, then 20, then 2.
fn before_run(layout: Layout, deck: &[u8], roomy: bool) -> Result<(), Expansion>
    ensures { result ≡ early_for layout deck.now roomy }
{
    malformed(is_sound(deck))?;
    odd(uneven_in(layout, deck))?;
    short(roomy)
}

// The working rooms end zero.
fn clear(
    rows: &mut [u16],
    names: &mut [u16],
    cells: &mut [u32],
    low: &mut [u8],
    high: &mut [u8],
    work: &mut [u8],
    joined: &mut [u8],
)
    ensures { Cleared (working rows.old names.old cells.old low.old high.old work.old joined.old) (working rows.new names.new cells.new low.new high.new work.new joined.new) }
{
    zero_u16(rows);
    zero_u16(names);
    zero_u32(cells);
    zero_u8(low);
    zero_u8(high);
    zero_u8(work);
    zero_u8(joined);
}

// The run of a deck of card images, which is that of the joined one.
fn run_joined(
    deck: &[u8],
    text: &mut [u8],
    list: &mut [u8],
    rows: &mut [u16],
    names: &mut [u16],
    cells: &mut [u32],
    low: &mut [u8],
    high: &mut [u8],
    work: &mut [u8],
    joined: &mut [u8],
    steps: u32,
) -> Expansion
    ensures { RanFor Cards deck.now text.old list.old (working rows.old names.old cells.old low.old high.old work.old joined.old) steps result text.new list.new }
{
    let n = join(deck, joined);
    let d = used(joined, n);
    answer(
        Layout::Cards,
        d,
        run(
            Layout::Cards,
            d,
            rows,
            names,
            cells,
            low,
            high,
            work,
            text,
            list,
            steps,
        ),
    )
}

// The run of a deck that nothing is refused of.
fn run_in(
    layout: Layout,
    deck: &[u8],
    text: &mut [u8],
    list: &mut [u8],
    rows: &mut [u16],
    names: &mut [u16],
    cells: &mut [u32],
    low: &mut [u8],
    high: &mut [u8],
    work: &mut [u8],
    joined: &mut [u8],
    steps: u32,
) -> Expansion
    ensures { RanFor layout deck.now text.old list.old (working rows.old names.old cells.old low.old high.old work.old joined.old) steps result text.new list.new }
{
    match layout {
        Layout::Plain => answer(
            Layout::Plain,
            deck,
            run(
                Layout::Plain,
                deck,
                rows,
                names,
                cells,
                low,
                high,
                work,
                text,
                list,
                steps,
            ),
        ),
        Layout::Cards => run_joined(
            deck, text, list, rows, names, cells, low, high, work, joined, steps,
        ),
    }
}

// The answer for a deck, where the text room and the list room are zero; after a refusal there may be something in them.
fn decide(
    layout: Layout,
    deck: &[u8],
    text: &mut [u8],
    list: &mut [u8],
    rows: &mut [u16],
    names: &mut [u16],
    cells: &mut [u32],
    low: &mut [u8],
    high: &mut [u8],
    work: &mut [u8],
    joined: &mut [u8],
    steps: u32,
) -> Expansion
    ensures { Decided layout deck.now text.old list.old (working rows.old names.old cells.old low.old high.old work.old joined.old) steps result text.new list.new }
{
    let roomy = are_roomy(
        rows.len(),
        names.len(),
        cells.len(),
        low.len(),
        high.len(),
        work.len(),
        joined.len(),
    );
    match before_run(layout, deck, roomy) {
        Err(x) => x,
        Ok(()) => run_in(
            layout, deck, text, list, rows, names, cells, low, high, work, joined, steps,
        ),
    }
}

// After a refusal, whose number is not 0, the text room and the list room are zero.
fn empty_refused(text: &mut [u8], list: &mut [u8], number: u32)
    ensures { Emptied number text.old list.old text.new list.new }
{
    if number != 0 {
        zero_u8(text);
        zero_u8(list);
    }
}

// THE EXPANSION of a deck: the answer of the definition, for any bytes and any rooms.
pub fn expand(
    layout: Layout,
    deck: &[u8],
    text: &mut [u8],
    list: &mut [u8],
    rows: &mut [u16],
    names: &mut [u16],
    cells: &mut [u32],
    low: &mut [u8],
    high: &mut [u8],
    work: &mut [u8],
    joined: &mut [u8],
    steps: u32,
) -> Expansion
    ensures { Expanded layout deck.now text.old list.old (working rows.old names.old cells.old low.old high.old work.old joined.old) steps result text.new list.new (working rows.new names.new cells.new low.new high.new work.new joined.new) }
{
    zero_u8(text);
    zero_u8(list);
    let x = decide(
        layout, deck, text, list, rows, names, cells, low, high, work, joined, steps,
    );
    clear(rows, names, cells, low, high, work, joined);
    empty_refused(text, list, x.number);
    x
}

// The six numbers over the start of a room, as many as fit.
fn put_numbers(numbers: &mut [u32], x: Expansion)
    ensures { numbers.new ≡ over numbers.old 0 (six_of x) }
{
    put_number32(numbers, 0, 0, x.number);
    put_number32(numbers, 0, 1, x.member);
    put_number32(numbers, 0, 2, x.offset);
    put_number32(numbers, 0, 3, x.steps);
    put_number32(numbers, 0, 4, x.text);
    put_number32(numbers, 0, 5, x.lines);
}

// 0 is a plain deck, and any other number cards.
fn layout_for(cards: u32) -> Layout
    ensures { result ≡ layout_for cards }
{
    if cards == 0 {
        Layout::Plain
    } else {
        Layout::Cards
    }
}

// The expansion for C and Rust, with a room for the six numbers: docs/CALLING.md. The crate expander_c exports it.
pub fn muharegoden_expand(
    cards: u32,
    deck: &[u8],
    text: &mut [u8],
    list: &mut [u8],
    rows: &mut [u16],
    names: &mut [u16],
    cells: &mut [u32],
    low: &mut [u8],
    high: &mut [u8],
    work: &mut [u8],
    joined: &mut [u8],
    steps: u32,
    numbers: &mut [u32],
)
    ensures { Told (layout_for cards) deck.now text.old list.old (working rows.old names.old cells.old low.old high.old work.old joined.old) steps numbers.old text.new list.new (working rows.new names.new cells.new low.new high.new work.new joined.new) numbers.new }
{
    let layout = layout_for(cards);
    let x = expand(
        layout, deck, text, list, rows, names, cells, low, high, work, joined, steps,
    );
    put_numbers(numbers, x);
}
