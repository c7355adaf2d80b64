// THE EXPANDER for C and Rust, as a static library: docs/CALLING.md.
#![tactic(auto)]

ghost use Rattle.definition.specs.Cards.{layout_for};
ghost use Rattle.expander.specs.Promise.{working, Told};

// The expansion, with a room for the six numbers. 0 is a plain deck, and any other number cards.
#[unsafe(no_mangle)]
pub extern "C" fn muharegoden_expand(
    cards: u32,
    deck: &[u8],
    text: &mut [u8],
    list: &mut [u8],
    rows: &mut [u16],
    names: &mut [u16],
    cells: &mut [u32],
    low: &mut [u8],
    high: &mut [u8],
    work: &mut [u8],
    joined: &mut [u8],
    steps: u32,
    numbers: &mut [u32],
)
    ensures { Told (layout_for cards) deck.now text.old list.old (working rows.old names.old cells.old low.old high.old work.old joined.old) steps numbers.old text.new list.new (working rows.new names.new cells.new low.new high.new work.new joined.new) numbers.new }
{
    expander::muharegoden_expand(
        cards, deck, text, list, rows, names, cells, low, high, work, joined, steps, numbers,
    );
}
