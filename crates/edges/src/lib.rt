// Record edges of card images: a token that is copied goes out in pieces, one for each record that it lies in, and each piece has
// its own line.
#![tactic(auto)]

ghost use Rattle.std.specs.Prelude.{◌≡◌, ◌%◌};
ghost use Rattle.definition.specs.Cards as C;
ghost use Rattle.edges.specs.Pieces.{PieceIs, PiecesFine};

use limits::Record;
use output::{Out, put_copied};

// Where byte p of the joined columns stands in its body as given; no body has 65,536 of them.
pub fn column(p: usize) -> u32
    ensures { result ≡ C.column (p % 65536) }
{
    let q = p % 65_536;
    (Record::COLUMNS * (q / Record::SOURCE) + (1 + q % Record::SOURCE)) as u32
}

// Where a joined place is told in a body of so many joined bytes: behind the last record it is the length as given.
pub fn given(size: usize, p: usize) -> u32
    ensures { result ≡ C.given size (p % 65536) }
{
    let q = p % 65_536;
    if q == size {
        (Record::COLUMNS * (q / Record::SOURCE)) as u32
    } else {
        column(p)
    }
}

// How many of the bytes from p up to an end lie in the record of byte p.
fn piece(p: usize, to: usize) -> u32
    ensures { PieceIs p to result }
{
    let room = Record::SOURCE - p % Record::SOURCE;
    to.saturating_sub(p).min(room) as u32
}

// The bytes of src from a joined place up to another, copied from there.
pub fn put_pieces(
    src: &[u8],
    from: usize,
    to: usize,
    text: &mut [u8],
    list: &mut [u8],
    o0: Out,
    member: u8,
) -> Option<Out>
    ensures { PiecesFine src.now from to member o0 text.old list.old result text.new list.new }
{
    let mut o = o0;
    let mut at = from;
    while at < to {
        let n = piece(at, to);
        o = put_copied(src, at, n, text, list, o, member, column(at))?;
        at += n as usize;
    }
    Some(o)
}
