// Declaring names: what a declaration makes of a name, the limit on names, and the name that is declared twice. A refusal ends the
// run, so the names of a member are declared while it is read; which refusal comes first is decided when the member is read.
#![tactic(auto)]

ghost use Rattle.std.specs.Prelude.{◌≡◌, ◌-◌};
ghost use Rattle.definition.specs.Names as N;
ghost use Rattle.names.specs.Table.{denotation_of};
ghost use Rattle.names.specs.declared.Denotation.TheVariants as D;
ghost use Rattle.entering.specs.Book as B;

use definition::{Fault, ValueType, Why};
use limits::Names;
use names::{
    Activity, Address, Denotation, Entry, Identifier, Label, Name, Owner, Place, find, name_at,
    put_name,
};
use sums::less;

// What a declaration makes of a name.
#[derive(Clone, Copy)]
pub enum Meaning {
    Variable(ValueType),
    EntryOnly,
    BodyAt(u16),
    LabelAt(u16),
    EndLabelAt(u16),
    BuiltinName,
}

// The member whose names are declared, and where its body begins in the deck; how many names there are; the first name that is
// one too many, and the first that is declared twice.
#[derive(Clone, Copy)]
pub struct Tally {
    pub member: u16,
    pub base: u16,
    pub names: u16,
    pub past: Option<usize>,
    pub second: Option<usize>,
}

// Where a name is spelled in its member's body.
#[derive(Clone, Copy)]
pub struct Spelling {
    pub from: usize,
    pub to: usize,
}

// In both marks the first place stays.
pub fn with_past(t: Tally, p: usize) -> Tally
    ensures { result ≡ B.tally_past t p }
{
    Tally {
        past: t.past.or(Some(p)),
        ..t
    }
}

pub fn with_second(t: Tally, p: usize) -> Tally
    ensures { result ≡ B.tally_second t p }
{
    Tally {
        second: t.second.or(Some(p)),
        ..t
    }
}

pub fn new_tally(member: u16, base: u16, names: u16) -> Tally
    ensures { result ≡ B.tally_of member base names None None }
{
    Tally {
        member,
        base,
        names,
        past: None,
        second: None,
    }
}

// What a declaration in member m makes of a name that had no meaning.
fn denotation_of(m: u16, x: Meaning) -> Denotation
    ensures { result ≡ B.new_denotation m x }
{
    match x {
        Meaning::Variable(t) => Denotation::Variable(t),
        Meaning::EntryOnly => Denotation::EntryName(Entry {
            declared: true,
            body: None,
        }),
        Meaning::BodyAt(r) => Denotation::EntryName(Entry {
            declared: false,
            body: Some(Place { member: m, row: r }),
        }),
        Meaning::LabelAt(r) => Denotation::LabelName(Label {
            place: Place { member: m, row: r },
            is_end: false,
        }),
        Meaning::EndLabelAt(r) => Denotation::LabelName(Label {
            place: Place { member: m, row: r },
            is_end: true,
        }),
        Meaning::BuiltinName => Denotation::Builtin,
    }
}

// What an ENTRY declaration and a procedure of one name make of it together; nothing where one of the two is there twice.
fn joint_entry(a: Entry, b: Entry) -> Option<Denotation>
    ensures { B.joint_for result ≡ N.joint_of (denotation_of (D.EntryName a)) (denotation_of (D.EntryName b)) }
{
    match (a.body, b.body) {
        (None, Some(p)) => both(a.declared, p),
        (Some(p), None) => both(!a.declared, p),
        (None, None) | (Some(_), Some(_)) => None,
    }
}

// The entry with its body and its declaration, if the one that was missing is new.
fn both(is_new: bool, p: Place) -> Option<Denotation>
    ensures { B.joint_for result ≡ B.joint_both is_new p }
{
    is_new.then_some(Denotation::EntryName(Entry {
        declared: true,
        body: Some(p),
    }))
}

// What two declarations make of a name together: only an ENTRY declaration and a procedure may share one.
fn joint_of(a: Denotation, b: Denotation) -> Option<Denotation>
    ensures { B.joint_for result ≡ N.joint_of (denotation_of a) (denotation_of b) }
{
    match (a, b) {
        (Denotation::EntryName(e), Denotation::EntryName(f)) => joint_entry(e, f),
        _ => None,
    }
}

// A place of the deck and a length, which both are below 65,536.
fn identifier(base: u16, x: Spelling) -> Identifier
    ensures { result ≡ B.identifier_in base x }
{
    let place = (usize::from(base) + x.from % 65_536) % 65_536;
    let length = length_of(x) % 65_536;
    Identifier(place as u16, length as u16)
}

pub fn length_of(x: Spelling) -> usize
    ensures { result ≡ x.to - x.from }
{
    less(x.to, x.from)
}

// A name that was not known.
fn add_name(names: &mut [u16], t: Tally, x: Spelling, owner: Owner, d: Denotation) -> Tally
    ensures { B.AddedIf names.old t x owner d names.new result }
{
    if Names::MOST <= usize::from(t.names) {
        return with_past(t, x.from);
    }
    let name = Name {
        identifier: identifier(t.base, x),
        owner,
        denotation: d,
        activity: Activity::Inactive,
    };
    put_name(names, Address(t.names), name);
    Tally {
        names: t.names + 1,
        ..t
    }
}

// A name that was known.
fn join_name(names: &mut [u16], t: Tally, a: Address, p: usize, d: Denotation) -> Tally
    ensures { B.JoinedIf names.old t a.0 p d names.new result }
{
    let old = name_at(names, a);
    let Some(denotation) = joint_of(old.denotation, d) else {
        return with_second(t, p);
    };
    put_name(names, a, Name { denotation, ..old });
    t
}

// Declares the name that the body s spells so.
pub fn declare(
    deck: &[u8],
    s: &[u8],
    names: &mut [u16],
    t: Tally,
    x: Spelling,
    owner: Owner,
    meaning: Meaning,
) -> Tally
    ensures { B.EnteredIf deck.now s.now names.old t x (B.book_one (B.identifier_at s.now x owner) (denotation_of (B.new_denotation t.member meaning)) x.from) names.new result }
{
    let d = denotation_of(t.member, meaning);
    match find(deck, names, t.names, s, x.from, length_of(x), owner) {
        Some(a) => join_name(names, t, a, x.from, d),
        None => add_name(names, t, x, owner, d),
    }
}

// 3 and 4 by place, and then 5.
#[tactic(auto, unfolding(crate::specs::Book::fault_in))]
pub fn fault_of(t: Tally, f: Result<(), Fault>) -> Result<(), Fault>
    ensures { result ≡ B.fault_in t.past t.second f }
{
    let Some(p) = t.past else {
        return twice_or(t, f);
    };
    match f {
        Err((_, q)) if q <= p => f,
        Err(_) | Ok(()) => Err((Why::OverLimit, p)),
    }
}

fn twice_or(t: Tally, f: Result<(), Fault>) -> Result<(), Fault>
    ensures { result ≡ B.twice_or t.second f }
{
    f?;
    match t.second {
        Some(p) => Err((Why::DeclaredTwice, p)),
        None => Ok(()),
    }
}
