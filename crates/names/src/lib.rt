// The names that are declared: a table of records, one for each address. Identifiers and addresses are kept apart: only
// the environment, `find` and `seen_from`, leads from one to the other.
// Parts: a record that is read, the search, a record that is written.
#![tactic(auto)]

ghost use Rattle.std.specs.Prelude.{◌≡◌, ◌*◌, eqb};
ghost use Rattle.definition.specs.Bytes.{mixed, folded};
ghost use Rattle.definition.specs.Lists.{part};
ghost use Rattle.definition.specs.Room.{over};
ghost use Rattle.definition.specs.World.{same_owner, is_identifier, address_in};
ghost use Rattle.names.specs.Table as T;
ghost use Rattle.names.specs.Table.{owner_of, found_for, identifier_of, identifiers_from, name_in};

use chars::is_one_name;
use definition::ValueType;
use rooms::{number16, put_number16, put_numbers16};
use types::{type_in, type_number};

// Where an identifier is spelled in the deck: its place and its length.
#[derive(Clone, Copy)]
pub struct Identifier(pub u16, pub u16);

// The number of a record, by which values are kept.
#[derive(Clone, Copy)]
pub struct Address(pub u16);

// A row of a member.
#[derive(Clone, Copy, PartialEq, Eq)]
pub struct Place {
    pub member: u16,
    pub row: u16,
}

// Who sees a name: all of the program, or one procedure.
// stays: an Option would say of a global name that nobody owns it.
#[derive(Clone, Copy, PartialEq, Eq)]
pub enum Owner {
    Everyone,
    Procedure(Place),
}

// An entry: whether ENTRY declares it, and its body.
#[derive(Clone, Copy)]
pub struct Entry {
    pub declared: bool,
    pub body: Option<Place>,
}

// A label of a row, or of the END of a row.
#[derive(Clone, Copy)]
pub struct Label {
    pub place: Place,
    pub is_end: bool,
}

#[derive(Clone, Copy)]
pub enum Denotation {
    Variable(ValueType),
    EntryName(Entry),
    LabelName(Label),
    Builtin,
}

#[derive(Clone, Copy)]
pub enum Activity {
    Inactive,
    Rescanned,
    CopiedOnly,
}

#[derive(Clone, Copy)]
pub struct Name {
    pub identifier: Identifier,
    pub owner: Owner,
    pub denotation: Denotation,
    pub activity: Activity,
}

pub fn same_owner(a: Owner, b: Owner) -> bool
    ensures { result ≡ same_owner (owner_of a) (owner_of b) }
{
    a == b
}

fn owner_in(k: u16, m: u16, r: u16) -> Owner
    ensures { result ≡ T.owner_in k m r }
{
    if k == 0 {
        Owner::Everyone
    } else {
        Owner::Procedure(Place { member: m, row: r })
    }
}

fn body_in(k: u16, m: u16, r: u16) -> Option<Place>
    ensures { result ≡ T.body_in k m r }
{
    (k != 0).then_some(Place { member: m, row: r })
}

fn denotation_in(k: u16, x: u16, b: u16, m: u16, r: u16) -> Denotation
    ensures { result ≡ T.denotation_in k x b m r }
{
    match k {
        0 => Denotation::Variable(type_in(x)),
        1 => Denotation::EntryName(Entry {
            declared: x == 1,
            body: body_in(b, m, r),
        }),
        2 => Denotation::LabelName(Label {
            place: Place { member: m, row: r },
            is_end: x == 1,
        }),
        _ => Denotation::Builtin,
    }
}

impl From<u16> for Activity {
    ghost from_gives = { λ k r. r ≡ T.activity_in k };

    fn from(k: u16) -> Activity {
        match k {
            0 => Activity::Inactive,
            1 => Activity::Rescanned,
            _ => Activity::CopiedOnly,
        }
    }
}

impl From<Activity> for u16 {
    ghost from_gives = { λ x r. r ≡ T.activity_number x };

    fn from(x: Activity) -> u16 {
        x as u16
    }
}

// Where the record of an address begins in the table.
fn record_place(a: Address) -> usize
    ensures { result ≡ 16 * a.0 }
{
    16 * usize::from(a.0)
}

// The record of an address.
#[tactic(auto, unfolding(crate::specs::Table::name_in))]
pub fn name_at(names: &[u16], a: Address) -> Name
    ensures { result ≡ name_in names.now a.0 }
{
    let at = record_place(a);
    let number = |k: usize| number16(names, at, k);
    Name {
        identifier: Identifier(number(0), number(1)),
        owner: owner_in(number(2), number(3), number(4)),
        denotation: denotation_in(number(5), number(6), number(7), number(8), number(9)),
        activity: number(10).into(),
    }
}

// Who sees the name of an address: read alone, since a search asks every record.
#[tactic(auto, unfolding(crate::specs::Table::name_in))]
fn owner_at(names: &[u16], a: Address) -> Owner
    ensures { result ≡ (name_in names.now a.0).owner }
{
    let at = record_place(a);
    owner_in(
        number16(names, at, 2),
        number16(names, at, 3),
        number16(names, at, 4),
    )
}

// Where the identifier of an address begins in the deck.
#[tactic(auto, unfolding(crate::specs::Table::name_in))]
fn spelled_at(names: &[u16], a: Address) -> usize
    ensures { result ≡ (name_in names.now a.0).identifier.0 }
{
    usize::from(number16(names, record_place(a), 0))
}

// Whether the identifier of a record has n bytes; the quick test, since most have not.
#[tactic(auto, unfolding(crate::specs::Table::name_in))]
fn has_length(names: &[u16], a: Address, n: usize) -> bool
    ensures { result ≡ eqb (name_in names.now a.0).identifier.1 n }
{
    usize::from(number16(names, record_place(a), 1)) == n
}

// Whether the record of an address is that of the identifier, in a scope.
fn is_at(
    deck: &[u8],
    names: &[u16],
    a: Address,
    s: &[u8],
    from: usize,
    n: usize,
    owner: Owner,
) -> bool
    ensures { result ≡ is_identifier (folded mixed (part n from s.now)) (owner_of owner) (identifier_of deck.now (name_in names.now a.0)) }
{
    has_length(names, a, n)
        && is_one_name(deck, spelled_at(names, a), s, from, n)
        && same_owner(owner_at(names, a), owner)
}

// THE ENVIRONMENT: the address of the identifier that `len` bytes of s spell, in a scope, among n records.
pub fn find(
    deck: &[u8],
    names: &[u16],
    n: u16,
    s: &[u8],
    from: usize,
    len: usize,
    owner: Owner,
) -> Option<Address>
    ensures { result ≡ found_for (address_in (folded mixed (part len from s.now)) (owner_of owner) 0 (identifiers_from deck.now names.now 0 n)) }
{
    for a in 0..n {
        if is_at(deck, names, Address(a), s, from, len, owner) {
            return Some(Address(a));
        }
    }
    None
}

// The same seen from a scope: its own names first, then the global ones.
pub fn seen_from(
    deck: &[u8],
    names: &[u16],
    n: u16,
    s: &[u8],
    from: usize,
    len: usize,
    owner: Owner,
) -> Option<Address>
    ensures { result ≡ found_for (T.seen_in deck.now names.now n (folded mixed (part len from s.now)) (owner_of owner)) }
{
    // stays: a match; behind the closure of an or_else the compiler no longer sees how long the rooms are
    match find(deck, names, n, s, from, len, owner) {
        Some(a) => Some(a),
        None => find(deck, names, n, s, from, len, Owner::Everyone),
    }
}

fn owner_numbers(o: Owner) -> [u16; 3]
    ensures { result ≡ T.owner_numbers o }
{
    match o {
        Owner::Everyone => [0, 0, 0],
        Owner::Procedure(p) => [1, p.member, p.row],
    }
}

// The tag of a denotation, the number beside it, and a body or a place.
fn denotation_numbers(d: Denotation) -> [u16; 5]
    ensures { result ≡ T.denotation_numbers d }
{
    match d {
        Denotation::Variable(t) => [0, type_number(t), 0, 0, 0],
        Denotation::EntryName(e) => match e.body {
            None => [1, u16::from(e.declared), 0, 0, 0],
            Some(p) => [1, u16::from(e.declared), 1, p.member, p.row],
        },
        Denotation::LabelName(l) => [2, u16::from(l.is_end), 0, l.place.member, l.place.row],
        Denotation::Builtin => [3, 0, 0, 0, 0],
    }
}

// Writes the record of an address.
pub fn put_name(names: &mut [u16], a: Address, x: Name)
    ensures { names.new ≡ over names.old (16 * a.0) (T.numbers_of x) }
{
    let at = record_place(a);
    put_numbers16(names, at, &[x.identifier.0, x.identifier.1]);
    put_numbers16(names, at + 2, &owner_numbers(x.owner));
    put_numbers16(names, at + 5, &denotation_numbers(x.denotation));
    put_number16(names, at, 10, x.activity.into());
}
