// ACTIVATE, DEACTIVATE, and DECLARE outside procedures: the names of a list, one after the other, as the statement was read.
#![tactic(auto)]

ghost use Rattle.std.specs.Prelude.{◌≡◌};
ghost use Rattle.names.specs.Table.{denotation_of};
ghost use Rattle.activating.specs.Lists.{PastSign, behind_comma, declared_next, next_in, activity_behind};
ghost use Rattle.activating.specs.Sets.{can_wake, SetsName, SetsAll, DeclaresAll, ActivatesAll, DeactivatesAll};

use names::{Activity, Denotation, Name, Owner, find, name_at, put_name};
use statements::past_rescan;
use tokens::{Lexeme, is_sign, is_word, token_at, width};

// ---- one name

fn is_active_kind(x: Name) -> bool
    ensures { result ≡ can_wake (denotation_of x.denotation) }
{
    matches!(
        x.denotation,
        Denotation::Variable(_) | Denotation::EntryName(_)
    )
}

// Sets the activity of a variable or an entry, and says whether the name is one.
fn activate(deck: &[u8], s: &[u8], names: &mut [u16], count: u16, t: Lexeme, act: Activity) -> bool
    ensures { SetsName deck.now s.now names.old names.new count t act result }
{
    let found = find(deck, names, count, s, t.from, width(t), Owner::Everyone);
    let Some(a) = found else {
        return false;
    };
    let x = name_at(names, a);
    if is_active_kind(x) {
        put_name(names, a, Name { activity: act, ..x });
        return true;
    }
    false
}

// ---- from name to name

// What stands beside the names of a list, by statement.
#[derive(Clone, Copy)]
enum Listed {
    Plainly,
    WithRescan,
    WithAttributes,
}

// What a name becomes: in ACTIVATE the word behind it says.
fn activity_at(s: &[u8], at: usize, kind: Listed, act: Activity) -> Activity
    ensures { result ≡ activity_behind kind act s.now at }
{
    match kind {
        Listed::Plainly | Listed::WithAttributes => act,
        Listed::WithRescan => {
            let t = token_at(s, at);
            if is_word(s, t, b"NORESCAN") {
                return Activity::CopiedOnly;
            }
            Activity::Rescanned
        }
    }
}

// The place past a sign, if it stands there.
fn past_sign(s: &[u8], at: usize, sign: &[u8]) -> usize
    ensures { PastSign sign.now s.now at result }
{
    let t = token_at(s, at);
    if is_sign(s, t, sign) {
        return t.to;
    }
    at
}

// ---- the place of the next name, if there is one

fn behind_comma(s: &[u8], at: usize) -> Option<usize>
    ensures { result ≡ behind_comma s.now at }
{
    let t = token_at(s, at);
    if is_sign(s, t, b",") {
        return Some(t.to);
    }
    None
}

// In DECLARE a comma stands inside parentheses, or behind the attribute.
fn next_declared(s: &[u8], at: usize) -> Option<usize>
    ensures { result ≡ declared_next s.now at }
{
    let t = token_at(s, at);
    if is_sign(s, t, b",") {
        return Some(t.to);
    }
    let attribute = token_at(s, past_sign(s, at, b")"));
    behind_comma(s, attribute.to)
}

fn next_name(s: &[u8], at: usize, kind: Listed) -> Option<usize>
    ensures { result ≡ next_in kind s.now at }
{
    match kind {
        Listed::Plainly => behind_comma(s, at),
        Listed::WithRescan => behind_comma(s, past_rescan(s, at)),
        Listed::WithAttributes => next_declared(s, at),
    }
}

// ---- all names of a statement; false where one is no variable and no entry

fn set_all(
    deck: &[u8],
    s: &[u8],
    names: &mut [u16],
    count: u16,
    from: usize,
    kind: Listed,
    act: Activity,
) -> bool
    ensures { SetsAll deck.now s.now names.old names.new count from kind act result }
{
    let mut at = from;
    for _ in 0..s.len() {
        let t = token_at(s, past_sign(s, at, b"("));
        if !activate(deck, s, names, count, t, activity_at(s, t.to, kind, act)) {
            return false;
        }
        let Some(next) = next_name(s, t.to, kind) else {
            return true;
        };
        at = next;
    }
    true
}

pub fn declare_all(deck: &[u8], s: &[u8], names: &mut [u16], count: u16, from: usize) -> bool
    ensures { DeclaresAll deck.now s.now names.old names.new count from result }
{
    set_all(
        deck,
        s,
        names,
        count,
        from,
        Listed::WithAttributes,
        Activity::Rescanned,
    )
}

pub fn activate_all(deck: &[u8], s: &[u8], names: &mut [u16], count: u16, from: usize) -> bool
    ensures { ActivatesAll deck.now s.now names.old names.new count from result }
{
    set_all(
        deck,
        s,
        names,
        count,
        from,
        Listed::WithRescan,
        Activity::Rescanned,
    )
}

pub fn deactivate_all(deck: &[u8], s: &[u8], names: &mut [u16], count: u16, from: usize) -> bool
    ensures { DeactivatesAll deck.now s.now names.old names.new count from result }
{
    set_all(
        deck,
        s,
        names,
        count,
        from,
        Listed::Plainly,
        Activity::Inactive,
    )
}
