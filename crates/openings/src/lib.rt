// What is open while a member is read, and how a sentence begins and ends: labels, the word that begins a statement, ELSE and END.
// Nothing is lent here to be written.
// Parts: what is open, labels, the word that a statement begins with, ELSE and END, texts.
// A loop that goes from label to label has no more turns than there are bytes; `left` is counted down, as the definition does.
#![tactic(auto)]

ghost use Rattle.std.specs.Prelude.{◌≡◌, ◌&&◌, [], ◌-◌, ltb, get_or};
ghost use Rattle.definition.specs.Bytes.{mixed, folded};
ghost use Rattle.definition.specs.Lists.{part, same, is_one_of};
ghost use Rattle.definition.specs.Tokens.{token_at};
ghost use Rattle.definition.specs.Expressions.{name_at};
ghost use Rattle.definition.specs.Reading as D;
ghost use Rattle.tokens.specs.Answer.{spelling};
ghost use Rattle.expressions.specs.Check.{expect_for};
ghost use Rattle.entering.specs.Book as B;
ghost use Rattle.statements.specs.Clauses as C;
ghost use Rattle.openings.specs.Open as T;

use chars::is_one_name;
use definition::Why;
use entering::Meaning;
use expressions::{Expected, NamedAt, name_at};
use names::Owner;
use rows::{Role, Statement};
use statements::{Clause, Keyword, Opens, Read, assignment, is_inside, keyword_of};
use sums::less;
use tokens::{Ending, Lexeme, is_sign, is_word, is_word_kind, token_at, width};

// ---- what is open

#[derive(Clone, Copy)]
pub enum Where {
    InProgram,
    InGroup,
    InBody,
    InThen,
    InElse,
}

// What is open: its row, the last row of its list so far, and where the labels stand that END may name.
#[derive(Clone, Copy)]
pub struct Open {
    pub kind: Where,
    pub row: u16,
    pub last: Option<u16>,
    pub labels: usize,
}

// At most the program, 17 groups and alternatives, and a procedure.
#[derive(Clone, Copy)]
pub struct Opened {
    pub count: usize,
    pub items: [Open; 20],
}

pub fn nothing_open() -> Open
    ensures { result ≡ T.no_open }
{
    Open {
        kind: Where::InProgram,
        row: 0,
        last: None,
        labels: 0,
    }
}

pub fn opening(kind: Where, row: u16, labels: usize) -> Open
    ensures { T.Opening kind row labels result }
{
    Open {
        kind,
        row,
        last: None,
        labels,
    }
}

// What is open at a place of the list, from the outermost on; past its room there is nothing but the program.
fn open_at(o: Opened, i: usize) -> Open
    ensures { T.OpenAt o i result }
{
    if i < 20 {
        return o.items[i];
    }
    nothing_open()
}

pub fn top(o: Opened) -> Open
    ensures { result ≡ T.top_in o.items o.count }
{
    let n = o.count;
    if 0 < n {
        return open_at(o, n - 1);
    }
    nothing_open()
}

pub fn push(o: Opened, x: Open) -> Opened
    ensures { T.Pushed o x result }
{
    let n = o.count;
    if n < 20 {
        let mut all = o;
        all.items[n] = x;
        all.count = n + 1;
        return all;
    }
    o
}

pub fn pop(o: Opened) -> Opened
    ensures { T.Popped o result }
{
    let n = o.count;
    if 0 < n {
        return Opened { count: n - 1, ..o };
    }
    o
}

pub fn top_kind(o: Opened) -> Where
    ensures { T.TopKind o result }
{
    top(o).kind
}

// What is open with n as its last row so far.
fn with_last(x: Open, n: u16) -> Open
    ensures { T.WithLast x n result }
{
    Open { last: Some(n), ..x }
}

// The top of what is open, whose last row is now n.
pub fn at_last(o: Opened, n: u16) -> Opened
    ensures { T.AtLast o n result }
{
    push(pop(o), with_last(top(o), n))
}

fn counts(k: Where) -> usize
    ensures { result ≡ T.counts_for k }
{
    match k {
        Where::InProgram | Where::InBody => 0,
        Where::InGroup | Where::InThen | Where::InElse => 1,
    }
}

// The groups and alternatives that are open.
pub fn depth(o: Opened) -> usize
    ensures { T.Deep o result }
{
    let mut n: usize = 0;
    for i in 0..o.count {
        n = sum20(n, counts(open_at(o, i).kind));
    }
    n
}

// A sum that stays below what 20 things can be.
fn sum20(n: usize, k: usize) -> usize
    ensures { T.Sum20 n k result }
{
    if n < 20 && k < 20 {
        return n + k;
    }
    20
}

pub fn is_in_body(k: Where) -> bool
    ensures { result ≡ D.is_in_body (T.where_of k) }
{
    matches!(k, Where::InBody)
}

// Whether sentences of a list stand there, and not an alternative.
fn is_list(k: Where) -> bool
    ensures { result ≡ D.is_list (T.where_of k) }
{
    matches!(k, Where::InProgram | Where::InGroup | Where::InBody)
}

pub fn parent_in(o: Open) -> Option<u16>
    ensures { T.link_of result ≡ T.parent_in (T.where_of o.kind) o.row }
{
    match o.kind {
        Where::InProgram => None,
        Where::InGroup | Where::InBody | Where::InThen | Where::InElse => Some(o.row),
    }
}

pub fn role_in(k: Where) -> Role
    ensures { T.role_of result ≡ T.role_in (T.where_of k) }
{
    match k {
        Where::InProgram | Where::InGroup | Where::InBody => Role::Listed,
        Where::InThen => Role::ThenPart,
        Where::InElse => Role::ElsePart,
    }
}

// A list whose last row is nowhere is empty: n is its first.
fn first_behind(first: Option<u16>, last: Option<u16>, n: u16) -> Option<u16>
    ensures { T.link_of result ≡ D.first_of (T.link_of first) (T.link_of last) n }
{
    match last {
        None => Some(n),
        Some(_) => first,
    }
}

// The first row of the program, where n is new in what is open.
pub fn first_in(first: Option<u16>, o: Open, n: u16) -> Option<u16>
    ensures { T.link_of result ≡ T.first_in (T.where_of o.kind) (T.link_of first) (T.last_of o.kind o.last) n }
{
    match o.kind {
        Where::InProgram => first_behind(first, o.last, n),
        Where::InGroup | Where::InBody | Where::InThen | Where::InElse => first,
    }
}

pub fn scope_out(k: Where, scope: Owner) -> Owner
    ensures { T.ScopeOut k scope result }
{
    match k {
        Where::InBody => Owner::Everyone,
        Where::InProgram | Where::InGroup | Where::InThen | Where::InElse => scope,
    }
}

// ---- labels

// Labels: how many they are, the first that is too long, and the place behind them.
#[derive(Clone, Copy)]
pub struct Labels {
    pub count: usize,
    pub long: Option<usize>,
    pub to: usize,
}

// The place past a label at a place, or that none stands there.
pub fn label_at(s: &[u8], at: usize) -> Option<usize>
    ensures { result ≡ T.label_past s.now at }
{
    let t = token_at(s, at);
    if is_word_kind(t.kind) {
        let u = token_at(s, t.to);
        if is_sign(s, u, b":") {
            return Some(u.to);
        }
    }
    None
}

fn long_label(s: &[u8], at: usize, long: Option<usize>) -> Option<usize>
    ensures { result ≡ T.long_after long (name_at mixed s.now at) }
{
    match long {
        Some(p) => Some(p),
        None => match name_at(s, at) {
            Ok((_, _)) => None,
            Err((_, p)) => Some(p),
        },
    }
}

// "An identifier followed by `:` is a label."
pub fn labels_at(s: &[u8], from: usize) -> Labels
    ensures { T.LabelsAt s.now from result }
{
    let mut at = from;
    let mut long = None;
    for count in 0..s.len() {
        match label_at(s, at) {
            Some(e) => {
                long = long_label(s, at, long);
                at = e;
            }
            None => {
                return Labels {
                    count,
                    long,
                    to: at,
                };
            }
        }
    }
    Labels {
        count: s.len(),
        long,
        to: at,
    }
}

fn is_spelled_alike(s: &[u8], t: Lexeme, from: usize, to: usize) -> bool
    ensures { result ≡ same (spelling s.now t) (folded mixed (part (to - from) from s.now)) }
{
    let n = less(to, from);
    width(t) == n && is_one_name(s, t.from, s, from, n)
}

// Whether the name at a place is spelled as t; a word that is too long is no name.
fn is_named_alike(s: &[u8], at: usize, t: Lexeme) -> bool
    ensures { result ≡ T.names_as (spelling s.now t) (name_at mixed s.now at) }
{
    match name_at(s, at) {
        Ok((from, to)) => is_spelled_alike(s, t, from, to),
        Err((_, _)) => false,
    }
}

// Whether a token is spelled as one of the labels from a place on.
fn is_label(s: &[u8], from: usize, t: Lexeme) -> bool
    ensures { result ≡ is_one_of (spelling s.now t) (T.labelled s.now from) }
{
    let mut at = from;
    for left in (0..s.len()).rev() {
        match label_at(s, at) {
            Some(e) => {
                if is_named_alike(s, at, t) {
                    return true;
                }
                at = e;
            }
            None => return false,
        }
    }
    false
}

// ---- which statement begins with a word

// Whether a word begins the statement k here, so that it is no name.
fn may_stand(k: Keyword, kind: Where, scope: Owner, labels: usize) -> bool
    ensures { result ≡ T.may_stand k (D.is_list (T.where_of kind)) (C.is_inside scope) (ltb 0 labels) }
{
    match k {
        Keyword::If | Keyword::Do | Keyword::Goto | Keyword::Go => true,
        Keyword::Include | Keyword::Activate | Keyword::Deactivate => !is_inside(scope),
        Keyword::Return => is_inside(scope),
        Keyword::Declare => is_list(kind),
        Keyword::Procedure => is_list(kind) && !is_inside(scope) && 0 < labels,
        Keyword::Other => false,
    }
}

// Which statement begins with the word t, if one does here.
pub fn keyword_here(s: &[u8], kind: Where, scope: Owner, t: Lexeme, labels: usize) -> Keyword
    ensures { result ≡ T.keyword_at s.now (T.where_of kind) (C.is_inside scope) t labels }
{
    let u = token_at(s, t.to);
    if is_sign(s, u, b"=") {
        return Keyword::Other;
    }
    let k = keyword_of(s, t);
    if may_stand(k, kind, scope, labels) {
        return k;
    }
    Keyword::Other
}

// Labels before what opens a body are entry names.
pub fn label_meaning(k: Keyword, n: u16) -> Meaning
    ensures { B.meaning_of result ≡ D.label_meaning (T.opens_by k) n }
{
    match k {
        Keyword::Procedure => Meaning::BodyAt(n),
        Keyword::If
        | Keyword::Do
        | Keyword::Goto
        | Keyword::Go
        | Keyword::Include
        | Keyword::Activate
        | Keyword::Deactivate
        | Keyword::Return
        | Keyword::Declare
        | Keyword::Other => Meaning::LabelAt(n),
    }
}

// A word that begins no statement here is not wrong, but the token behind it is, unless it is `=`.
pub fn other_clause(s: &[u8], t: Lexeme, from: usize) -> Read
    ensures { result ≡ T.other_for s.now from t.to }
{
    let u = token_at(s, t.to);
    if is_sign(s, u, b"=") {
        return assignment(s, from, u.to);
    }
    Err((Why::Syntax, u.from))
}

pub fn null_clause(t: Lexeme) -> Read
    ensures { result ≡ T.null_for t.from t.to }
{
    Ok(Clause {
        statement: Statement::Null,
        opens: Opens::Nothing,
        content: t.from,
        to: t.to,
        value_type: definition::ValueType::FixedType,
    })
}

// Whether a token can begin a statement.
pub fn begins(s: &[u8], t: Lexeme) -> bool
    ensures { result ≡ T.begins_in s.now t }
{
    is_word_kind(t.kind) || is_sign(s, t, b";")
}

// ---- ELSE and END

// ELSE and END are words that may turn out to be a target or a label, by the token behind them.
fn is_decided(s: &[u8], at: usize) -> bool
    ensures { result ≡ D.is_decided (token_at mixed s.now at).token }
{
    let t = token_at(s, at);
    !is_sign(s, t, b"=") && !is_sign(s, t, b":")
}

fn else_word(s: &[u8], t: Lexeme) -> Option<usize>
    ensures { result ≡ T.else_word_in s.now t }
{
    if is_word(s, t, b"ELSE") && is_decided(s, t.to) {
        return Some(t.to);
    }
    None
}

// ELSE, if it stands next: the place past it.
fn else_at(s: &[u8], scope: Owner, e: usize) -> Option<usize>
    ensures { result ≡ T.else_for (D.else_at mixed (C.is_inside scope) s.now e) }
{
    let t = token_at(s, e);
    if is_inside(scope) {
        return else_word(s, t);
    }
    if is_sign(s, t, b"%") {
        return else_word(s, token_at(s, t.to));
    }
    None
}

// Whether an alternative is done, or an ELSE follows it, or sentences of a list go on.
#[derive(Clone, Copy)]
pub enum Done {
    Up(u16),
    OnElse(u16, usize),
    On,
}

pub fn done_in(s: &[u8], o: Open, scope: Owner, e: usize) -> Done
    ensures { T.Completes s.now o scope e result }
{
    match o.kind {
        Where::InProgram | Where::InGroup | Where::InBody => Done::On,
        Where::InThen => match else_at(s, scope, e) {
            Some(q) => Done::OnElse(o.row, q),
            None => Done::Up(o.row),
        },
        Where::InElse => Done::Up(o.row),
    }
}

pub fn is_end(s: &[u8], kind: Where, t: Lexeme) -> bool
    ensures { result ≡ (D.is_in_group (T.where_of kind) && T.is_end_in s.now t) }
{
    matches!(kind, Where::InGroup) && is_word(s, t, b"END") && is_decided(s, t.to)
}

// Whether END may have the token t behind it: a word that is one of the labels from a place on.
fn may_name(s: &[u8], labels: usize, t: Lexeme) -> bool
    ensures { result ≡ T.may_name_in s.now t (T.labelled s.now labels) }
{
    is_word_kind(t.kind) && is_label(s, labels, t)
}

// "A name after END must be a label of what it ends": the place past the semicolon.
pub fn end_name(s: &[u8], labels: usize, at: usize) -> Expected
    ensures { result ≡ expect_for (D.end_name mixed s.now (T.labelled s.now labels) at) }
{
    let t = token_at(s, at);
    if is_sign(s, t, b";") {
        return Ok(t.to);
    }
    if may_name(s, labels, t) {
        return expressions::expect_sign(s, t.to, b";");
    }
    Err((Why::Syntax, t.from))
}

// Where the statement of an alternative begins, behind its `%`, or that none can.
pub fn alternative_from(s: &[u8], scope: Owner, t: Lexeme, at: usize) -> Option<usize>
    ensures { T.AlternativeFrom s.now scope t at result }
{
    if is_inside(scope) {
        if begins(s, t) {
            return Some(at);
        }
        return None;
    }
    if is_sign(s, t, b"%") {
        return Some(t.to);
    }
    None
}

// ---- texts

// Where a text ends.
pub fn end_of(s: &[u8], e: Ending) -> usize
    ensures { result ≡ T.end_for s.now e }
{
    match e {
        Ending::Percent(p) => p,
        Ending::AtEnd => s.len(),
        Ending::OpenAt(p) => p,
    }
}

pub fn place_after(s: &[u8], p: usize) -> usize
    ensures { T.PlaceAfter s.now p result }
{
    if p < s.len() {
        return p + 1;
    }
    s.len()
}
