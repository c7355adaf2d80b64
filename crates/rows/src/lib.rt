// The rows of the members that were read: a table of records, one for each sentence, alternative and procedure statement. The rows
// of a member are a part of it, in which they are numbered from 0 on.
// Parts: numbers of kinds and links, a row, the part of the table that a member has.
#![tactic(auto)]

ghost use Rattle.std.specs.Prelude.{◌≡◌, ◌∷◌, [], ◌+◌, ◌*◌};
ghost use Rattle.definition.specs.Room.{over};
ghost use Rattle.rows.specs.Table as T;
ghost use Rattle.rows.specs.Parts as P;

use definition::ValueType;
use rooms::{number16, put_number16, put_numbers16};
use types::{type_in, type_number};

// The statements of 000, 3.2.1.
#[derive(Clone, Copy)]
pub enum Statement {
    Null,
    Declare,
    Procedure,
    Assign,
    Conditional,
    Group,
    Iterated,
    Goto,
    Include,
    Activate,
    Deactivate,
    Return,
}

// What a row is to its parent: one of its list, or an alternative.
#[derive(Clone, Copy)]
pub enum Role {
    Listed,
    ThenPart,
    ElsePart,
}

// A text, from a place of the body to another.
#[derive(Clone, Copy)]
pub struct Stretch {
    pub from: u16,
    pub to: u16,
}

#[derive(Clone, Copy)]
pub struct Row {
    pub statement: Statement,
    // of its `%`, or in a procedure of its first token
    pub place: u16,
    // behind its first word; of an assignment, before its target
    pub content: u16,
    // of a procedure
    pub value_type: ValueType,
    // the groups and alternatives open around it
    pub depth: u16,
    pub parent: Option<u16>,
    pub role: Role,
    pub next: Option<u16>,
    // the first row inside, or the THEN alternative
    pub child: Option<u16>,
    // the ELSE alternative
    pub other: Option<u16>,
    // the text that a group begins with
    pub lead: Stretch,
    // the text behind the sentence
    pub text: Stretch,
}

impl From<Statement> for u16 {
    ghost from_gives = { λ x r. r ≡ T.statement_number x };

    fn from(x: Statement) -> u16 {
        x as u16
    }
}

impl From<u16> for Statement {
    ghost from_gives = { λ k r. r ≡ T.statement_in k };

    fn from(k: u16) -> Statement {
        match k {
            1 => Statement::Declare,
            2 => Statement::Procedure,
            3 => Statement::Assign,
            4 => Statement::Conditional,
            5 => Statement::Group,
            6 => Statement::Iterated,
            7 => Statement::Goto,
            8 => Statement::Include,
            9 => Statement::Activate,
            10 => Statement::Deactivate,
            11 => Statement::Return,
            _ => Statement::Null,
        }
    }
}

impl From<Role> for u16 {
    ghost from_gives = { λ x r. r ≡ T.role_number x };

    fn from(x: Role) -> u16 {
        x as u16
    }
}

impl From<u16> for Role {
    ghost from_gives = { λ k r. r ≡ T.role_in k };

    fn from(k: u16) -> Role {
        match k {
            0 => Role::Listed,
            1 => Role::ThenPart,
            _ => Role::ElsePart,
        }
    }
}

// A row that no u16 holds one more of is no row.
fn link_number(x: Option<u16>) -> u16
    ensures { result ≡ T.link_number x }
{
    x.and_then(|n| n.checked_add(1)).unwrap_or(0)
}

fn link_in(k: u16) -> Option<u16>
    ensures { result ≡ T.link_in k }
{
    k.checked_sub(1)
}

// Where the record of row n begins in the table.
fn record_place(n: u16) -> usize
    ensures { result ≡ 16 * n }
{
    16 * usize::from(n)
}

#[tactic(auto, unfolding(crate::specs::Table::row_in))]
pub fn row_at(rows: &[u16], n: u16) -> Row
    ensures { result ≡ T.row_in rows.now n }
{
    let at = record_place(n);
    let number = |k: usize| number16(rows, at, k);
    Row {
        statement: number(0).into(),
        place: number(1),
        content: number(2),
        value_type: type_in(number(3)),
        depth: number(4),
        parent: link_in(number(5)),
        role: number(6).into(),
        next: link_in(number(7)),
        child: link_in(number(8)),
        other: link_in(number(9)),
        lead: Stretch {
            from: number(10),
            to: number(11),
        },
        text: Stretch {
            from: number(12),
            to: number(13),
        },
    }
}

// Writes the record of row n.
pub fn put_row(rows: &mut [u16], n: u16, x: Row)
    ensures { rows.new ≡ over rows.old (16 * n) (T.numbers_of x) }
{
    let numbers = [
        x.statement.into(),
        x.place,
        x.content,
        type_number(x.value_type),
        x.depth,
        link_number(x.parent),
        x.role.into(),
        link_number(x.next),
        link_number(x.child),
        link_number(x.other),
        x.lead.from,
        x.lead.to,
        x.text.from,
        x.text.to,
    ];
    put_numbers16(rows, record_place(n), &numbers);
}

pub fn set_next(rows: &mut [u16], n: u16, to: u16)
    ensures { rows.new ≡ over rows.old (16 * n + 7) (T.link_number (Some to) ∷ []) }
{
    put_number16(rows, record_place(n), 7, link_number(Some(to)));
}

pub fn set_child(rows: &mut [u16], n: u16, to: u16)
    ensures { rows.new ≡ over rows.old (16 * n + 8) (T.link_number (Some to) ∷ []) }
{
    put_number16(rows, record_place(n), 8, link_number(Some(to)));
}

pub fn set_other(rows: &mut [u16], n: u16, to: u16)
    ensures { rows.new ≡ over rows.old (16 * n + 9) (T.link_number (Some to) ∷ []) }
{
    put_number16(rows, record_place(n), 9, link_number(Some(to)));
}

pub fn set_lead(rows: &mut [u16], n: u16, x: Stretch)
    ensures { rows.new ≡ over rows.old (16 * n + 10) (T.stretch_numbers x) }
{
    put_numbers16(rows, record_place(n) + 10, &[x.from, x.to]);
}

pub fn set_text(rows: &mut [u16], n: u16, x: Stretch)
    ensures { rows.new ≡ over rows.old (16 * n + 12) (T.stretch_numbers x) }
{
    put_numbers16(rows, record_place(n) + 12, &[x.from, x.to]);
}

// ---- the rows of a member

// Which row of the table is the first of each member, by the lines of the deck.
#[derive(Clone, Copy)]
pub struct Starts {
    pub at: [u16; 32],
}

#[tactic(auto, unfolding(crate::specs::Parts::no_starts))]
pub fn no_starts() -> Starts
    ensures { result ≡ P.no_starts }
{
    Starts { at: [0; 32] }
}

// The row where a member starts.
#[tactic(auto, unfolding(crate::specs::Parts::start_in))]
pub fn start_of(x: Starts, member: u16) -> u16
    ensures { result ≡ P.start_in x member }
{
    let k = usize::from(member);
    if k < 32 { x.at[k] } else { 0 }
}

pub fn with_start(x: Starts, member: u16, start: u16) -> Starts
    ensures { P.StartsAt x member start result }
{
    let k = usize::from(member);
    let mut all = x;
    if k < 32 {
        all.at[k] = start;
    }
    all
}

// Where the rows from n on begin in the table: at its end where it has none of them.
pub fn part_place(rows: &[u16], n: u16) -> usize
    ensures { P.PartPlace rows.now n result }
{
    rows.len().min(record_place(n))
}

// The rows of a member, and what lies behind them.
pub fn part_of(rows: &[u16], x: Starts, member: u16) -> &[u16]
    ensures { result.now ≡ P.part_in rows.now x member }
{
    let from = part_place(rows, start_of(x, member));
    &rows[from..]
}
