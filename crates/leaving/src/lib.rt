// GOTO outside procedures: to a label of the member that runs, or of one that runs below it.
#![tactic(auto)]

ghost use Rattle.std.specs.Prelude.{◌≡◌};
ghost use Rattle.leaving.specs.Places.{below_of, row_for, NoneBelow, WithBelow};
ghost use Rattle.leaving.specs.Leads.{away_to, label_to, JumpIs};

use definition::Why;
use flow::may_go;
use names::{Denotation, Label, Owner, Place, find, name_at};
use rows::{Starts, part_of};
use tokens::{token_at, width};

// Members that are running below this one: how many, and of each the row where it stands.
#[derive(Clone, Copy)]
pub struct Below {
    pub count: usize,
    pub places: [Place; 16],
}

pub fn none_below() -> Below
    ensures { NoneBelow result }
{
    Below {
        count: 0,
        places: [Place { member: 0, row: 0 }; 16],
    }
}

pub fn with_below(b: Below, member: u16, row: u16) -> Below
    ensures { WithBelow b member row result }
{
    let n = b.count;
    let mut all = b;
    if n < 16 {
        all.places[n] = Place { member, row };
        all.count = n + 1;
    }
    all
}

// The row where the newest running member of this number stands.
fn row_below(b: Below, member: u16) -> Option<u16>
    ensures { result ≡ row_for (below_of b) member }
{
    // stays: a loop; a chain of take, rev and find is no plainer
    for i in (0..16).rev() {
        if i < b.count && b.places[i].member == member {
            return Some(b.places[i].row);
        }
    }
    None
}

// A label that GOTO leads to, here or in a member below.
#[derive(Clone, Copy)]
pub enum Jump {
    Here(Label),
    Away(Label),
}

// The label stands in a member below, whose rows are `part`.
fn jump_away(part: &[u16], below: Below, l: Label) -> Result<Jump, Why>
    ensures { result ≡ away_to (row_for (below_of below) l.place.member) part.now l }
{
    let Some(n) = row_below(below, l.place.member) else {
        return Err(Why::WrongGoto);
    };
    if may_go(part, n, l.place.row, l.is_end) {
        return Ok(Jump::Away(l));
    }
    Err(Why::WrongGoto)
}

fn jump_label(
    rows: &[u16],
    below: Below,
    member: u16,
    starts: Starts,
    n: u16,
    l: Label,
) -> Result<Jump, Why>
    ensures { result ≡ label_to rows.now starts below member n l }
{
    let p = l.place;
    let part = part_of(rows, starts, p.member);
    if p.member == member {
        if may_go(part, n, p.row, l.is_end) {
            return Ok(Jump::Here(l));
        }
        return Err(Why::WrongGoto);
    }
    jump_away(part, below, l)
}

// The GOTO of row n, whose label stands at a place: kind first, then 13.
pub fn jump_from(
    deck: &[u8],
    s: &[u8],
    rows: &[u16],
    names: &[u16],
    count: u16,
    below: Below,
    member: u16,
    starts: Starts,
    n: u16,
    at: usize,
) -> Result<Jump, Why>
    ensures { JumpIs deck.now s.now rows.now names.now count below member starts n at result }
{
    let t = token_at(s, at);
    let found = find(deck, names, count, s, t.from, width(t), Owner::Everyone);
    let Some(a) = found else {
        return Err(Why::WrongName);
    };
    match name_at(names, a).denotation {
        Denotation::LabelName(l) => jump_label(rows, below, member, starts, n, l),
        Denotation::Variable(_) | Denotation::EntryName(_) | Denotation::Builtin => {
            Err(Why::WrongName)
        }
    }
}
