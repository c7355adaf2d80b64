// A member is read once, from left to right, with a list of what is open: its sentences become rows, its names are declared.
// Parts: what has been read, a new row, what comes behind a statement, labels, the statement that was read, END, one clause,
// texts, the inside of a procedure, the member.
// Each loop has as many turns as there can be at most: `left` is counted down, as the definition does.
#![tactic(auto)]

ghost use Rattle.std.specs.Prelude.{◌≡◌, ◌&&◌, ◌%◌};
ghost use Rattle.definition.specs.Bytes.{mixed};
ghost use Rattle.definition.specs.Text.{bytes_of};
ghost use Rattle.definition.specs.Expressions.{name_at};
ghost use Rattle.definition.specs.Reading as D;
ghost use Rattle.tokens.specs.Answer.{is_sign_in};
ghost use Rattle.statements.specs.Clauses as C;
ghost use Rattle.openings.specs.Open as O;
ghost use Rattle.reading.specs.State as T;
ghost use Rattle.reading.specs.declared.Next.TheVariants as Next;
ghost use Rattle.reading.specs.Labelled as L;
ghost use Rattle.reading.specs.Members as M;
ghost use Rattle.reading.specs.Sentences as S;

use deck::body;
use definition::{Fault, Why};
use entering::{Meaning, Spelling, Tally, declare, fault_of, new_tally};
use expressions::{Expected, NamedAt, name_at};
use limits::{Nesting, Sentences};
use names::{Owner, Place};
use openings::{
    Done, Open, Opened, Where, alternative_from, at_last, begins, depth, done_in, end_name, end_of,
    first_in, is_end, is_in_body, keyword_here, label_at, label_meaning, labels_at, nothing_open,
    null_clause, opening, other_clause, parent_in, place_after, pop, push, role_in, scope_out, top,
    top_kind,
};
use rows::{Row, Stretch, put_row, set_child, set_lead, set_next, set_other, set_text};
use statements::{
    Clause, Declaring, Keyword, Opens, Read, declare_clause, is_inside, plain_clause,
    procedure_clause,
};
use tokens::{Ending, Lexeme, is_sign, is_word, is_word_kind, text_end, token_at, width};

// ---- what has been read

#[derive(Clone, Copy)]
pub struct State {
    // sentences entered before this member, and the rows of the member so far
    pub entered: u16,
    pub rows: u16,
    pub first: Option<u16>,
    pub lead: Stretch,
    pub opened: Opened,
    pub scope: Owner,
    pub tally: Tally,
}

// What comes next: the text that the program or a group begins with, the text behind the sentence of a row, the statement of an
// alternative, or in a procedure a statement or END.
#[derive(Clone, Copy)]
enum Mode {
    Leading,
    Behind(u16),
    Alternative,
    Inner,
}

// stays: one way on and two ways out, and the state goes along on each, so that `?` would pass nothing on.
#[derive(Clone, Copy)]
enum Next {
    Go(Mode, usize),
    Stop(Why, usize),
    Finish,
}

#[derive(Clone, Copy)]
struct Turned {
    state: State,
    next: Next,
}

fn go(state: State, mode: Mode, at: usize) -> Turned
    ensures { result ≡ T.turned state (Next.Go mode at) }
{
    Turned {
        state,
        next: Next::Go(mode, at),
    }
}

fn stop(state: State, why: Why, at: usize) -> Turned
    ensures { result ≡ T.turned state (Next.Stop why at) }
{
    Turned {
        state,
        next: Next::Stop(why, at),
    }
}

fn with_opened(st: State, opened: Opened) -> State
    ensures { result ≡ T.with_opened st opened }
{
    State { opened, ..st }
}

fn with_tally(st: State, tally: Tally) -> State
    ensures { result ≡ T.with_tally st tally }
{
    State { tally, ..st }
}

fn with_scope(st: State, scope: Owner) -> State
    ensures { result ≡ T.with_scope st scope }
{
    State { scope, ..st }
}

// Places of a body are below 65,536.
fn place16(p: usize) -> u16
    ensures { result ≡ p % 65536 }
{
    (p % 65_536) as u16
}

fn stretch(from: usize, to: usize) -> Stretch
    ensures { result ≡ T.stretch_at «from» to }
{
    Stretch {
        from: place16(from),
        to: place16(to),
    }
}

// ---- a new row

// The link that leads to the new row n: from the last of its list, or as the first inside its parent.
fn link_listed(rows: &mut [u16], o: Open, n: u16)
    ensures { rows.new ≡ T.link_last o.last rows.old n (T.link_at rows.old o.row 8 n) }
{
    match o.last {
        None => set_child(rows, o.row, n),
        Some(l) => set_next(rows, l, n),
    }
}

// In the program the first row is kept apart.
fn link_program(rows: &mut [u16], o: Open, n: u16)
    ensures { rows.new ≡ T.link_last o.last rows.old n rows.old }
{
    match o.last {
        None => {}
        Some(l) => set_next(rows, l, n),
    }
}

fn link_row(rows: &mut [u16], o: Open, n: u16)
    ensures { rows.new ≡ T.link_in o.kind rows.old o n }
{
    match o.kind {
        Where::InProgram => link_program(rows, o, n),
        Where::InGroup | Where::InBody => link_listed(rows, o, n),
        Where::InThen => set_child(rows, o.row, n),
        Where::InElse => set_other(rows, o.row, n),
    }
}

// A number that the table has room for.
fn row_after(n: u16) -> u16
    ensures { T.After n result }
{
    n.saturating_add(1)
}

// The statement of the place p as a new row, in what is open.
fn add_row(rows: &mut [u16], st: State, c: Clause, p: usize) -> State
    ensures { T.Adds rows.old st c p rows.new result }
{
    let n = st.rows;
    let opened = st.opened;
    let o = top(opened);
    put_row(
        rows,
        n,
        Row {
            statement: c.statement,
            place: place16(p),
            content: place16(c.content),
            value_type: c.value_type,
            depth: place16(depth(opened)),
            parent: parent_in(o),
            role: role_in(o.kind),
            next: None,
            child: None,
            other: None,
            lead: stretch(0, 0),
            text: stretch(0, 0),
        },
    );
    link_row(rows, o, n);
    State {
        rows: row_after(n),
        first: first_in(st.first, o, n),
        opened: at_last(opened, n),
        ..st
    }
}

// ---- behind a statement

fn behind(scope: Owner, n: u16) -> Mode
    ensures { T.mode_of result ≡ D.behind (C.scope_of scope) n }
{
    match scope {
        Owner::Everyone => Mode::Behind(n),
        Owner::Procedure(_) => Mode::Inner,
    }
}

// The statement of row n ends at e. "ELSE goes with the nearest IF."
fn complete(s: &[u8], st0: State, n: u16, e: usize) -> Turned
    ensures { T.Ends s.now st0 n e result }
{
    let mut st = st0;
    let mut i = n;
    // at most 20 are open
    for left in (0usize..20).rev() {
        let opened = st.opened;
        let o = top(opened);
        let d = done_in(s, o, st.scope, e);
        match d {
            Done::On => return go(st, behind(st.scope, i), e),
            Done::OnElse(r, q) => {
                let inner = push(pop(opened), opening(Where::InElse, r, 0));
                return go(with_opened(st, inner), Mode::Alternative, q);
            }
            Done::Up(r) => {
                st = with_opened(st, pop(opened));
                i = r;
            }
        }
    }
    Turned {
        state: st,
        next: Next::Finish,
    }
}

// ---- labels

// Declares the label at a place, unless it is too long.
fn declare_label(
    deck: &[u8],
    s: &[u8],
    names: &mut [u16],
    t: Tally,
    at: usize,
    scope: Owner,
    meaning: Meaning,
) -> Tally
    ensures { L.LabelIf deck.now s.now names.old t at scope meaning names.new result }
{
    match name_at(s, at) {
        Ok((from, to)) => declare(deck, s, names, t, Spelling { from, to }, scope, meaning),
        Err((_, _)) => t,
    }
}

// Declares the labels from a place on.
fn declare_labels(
    deck: &[u8],
    s: &[u8],
    names: &mut [u16],
    st: State,
    from: usize,
    meaning: Meaning,
) -> State
    ensures { L.LabelsIf deck.now s.now names.old st from meaning names.new result }
{
    let scope = st.scope;
    let mut tally = st.tally;
    let mut at = from;
    for left in (0..s.len()).rev() {
        match label_at(s, at) {
            Some(e) => {
                tally = declare_label(deck, s, names, tally, at, scope, meaning);
                at = e;
            }
            None => return with_tally(st, tally),
        }
    }
    with_tally(st, tally)
}

// ---- a statement that was read

// What a statement opens, behind its row n.
fn open_inside(s: &[u8], st: State, opens: Opens, n: u16, labels: usize, e: usize) -> Turned
    ensures { T.OpensAs s.now st opens n labels e result }
{
    let opened = st.opened;
    let scope = st.scope;
    match opens {
        Opens::Nothing => complete(s, st, n, e),
        Opens::Group => {
            let inner = with_opened(st, push(opened, opening(Where::InGroup, n, labels)));
            if is_inside(scope) {
                return go(inner, Mode::Inner, e);
            }
            go(inner, Mode::Leading, e)
        }
        Opens::Body => {
            let inner = with_opened(st, push(opened, opening(Where::InBody, n, labels)));
            let own = Owner::Procedure(Place {
                member: st.tally.member,
                row: n,
            });
            go(with_scope(inner, own), Mode::Inner, e)
        }
        Opens::Then => {
            let inner = with_opened(st, push(opened, opening(Where::InThen, n, 0)));
            go(inner, Mode::Alternative, e)
        }
    }
}

fn taken(s: &[u8], rows: &mut [u16], st: State, r: Read, p: usize, labels: usize) -> Turned
    ensures { T.TakesAs s.now rows.old st r p labels rows.new result }
{
    match r {
        Ok(c) => {
            let n = st.rows;
            open_inside(s, add_row(rows, st, c, p), c.opens, n, labels, c.to)
        }
        Err((w, q)) => stop(st, w, q),
    }
}

fn after_declaring(
    s: &[u8],
    rows: &mut [u16],
    st: State,
    d: Declaring,
    p: usize,
    labels: usize,
) -> Turned
    ensures { T.TakesAs s.now rows.old (T.with_tally st d.tally) d.read p labels rows.new result }
{
    taken(s, rows, with_tally(st, d.tally), d.read, p, labels)
}

// The statement that begins with the word t, the first token behind `from`; `labels` is where its labels begin.
fn by_word(
    deck: &[u8],
    s: &[u8],
    rows: &mut [u16],
    names: &mut [u16],
    st: State,
    k: Keyword,
    t: Lexeme,
    from: usize,
    p: usize,
    labels: usize,
) -> Turned
    ensures { S.ByWord deck.now s.now rows.old names.old st k t «from» p labels rows.new names.new result }
{
    let scope = st.scope;
    let tally = st.tally;
    match k {
        Keyword::Declare => {
            let d = declare_clause(deck, s, names, tally, scope, t.to);
            after_declaring(s, rows, st, d, p, labels)
        }
        Keyword::Procedure => {
            let d = procedure_clause(s, tally, t.to);
            after_declaring(s, rows, st, d, p, labels)
        }
        Keyword::Other => taken(s, rows, st, other_clause(s, t, from), p, labels),
        Keyword::Do => {
            if depth(st.opened) < Nesting::GROUPS {
                return taken(s, rows, st, plain_clause(s, k, t, false), p, labels);
            }
            stop(st, Why::OverLimit, t.from)
        }
        Keyword::If => taken(
            s,
            rows,
            st,
            plain_clause(s, k, t, is_inside(scope)),
            p,
            labels,
        ),
        Keyword::Goto
        | Keyword::Go
        | Keyword::Include
        | Keyword::Activate
        | Keyword::Deactivate
        | Keyword::Return => taken(s, rows, st, plain_clause(s, k, t, false), p, labels),
    }
}

// The statement whose first token is t, behind its labels.
fn by_token(
    deck: &[u8],
    s: &[u8],
    rows: &mut [u16],
    names: &mut [u16],
    st: State,
    k: Keyword,
    t: Lexeme,
    from: usize,
    p: usize,
    labels: usize,
) -> Turned
    ensures { S.ByToken deck.now s.now rows.old names.old st k t «from» p labels rows.new names.new result }
{
    if is_word_kind(t.kind) {
        if width(t) <= limits::Name::LONGEST {
            return by_word(deck, s, rows, names, st, k, t, from, p, labels);
        }
        return stop(st, Why::OverLimit, t.from);
    }
    if is_sign(s, t, b";") {
        return taken(s, rows, st, null_clause(t), p, labels);
    }
    stop(st, Why::Syntax, t.from)
}

// ---- END

// END, from behind it; `labels` is where its own labels begin.
fn end_at(deck: &[u8], s: &[u8], names: &mut [u16], st0: State, labels: usize, at: usize) -> Turned
    ensures { S.EndsAt deck.now s.now names.old st0 labels at names.new result }
{
    let o = top(st0.opened);
    let st = declare_labels(deck, s, names, st0, labels, Meaning::EndLabelAt(o.row));
    let read = end_name(s, o.labels, at);
    match read {
        Ok(e) => {
            let outer = with_scope(st, scope_out(o.kind, st.scope));
            complete(s, with_opened(outer, pop(outer.opened)), o.row, e)
        }
        Err((w, q)) => stop(st, w, q),
    }
}

// END with a label over 31 bytes at q; `labels` is where its labels begin, which count as names.
fn end_too_long(
    deck: &[u8],
    s: &[u8],
    names: &mut [u16],
    st: State,
    labels: usize,
    q: usize,
) -> Turned
    ensures { S.EndsLong deck.now s.now names.old st labels q names.new result }
{
    let named = declare_labels(deck, s, names, st, labels, Meaning::LabelAt(0));
    stop(named, Why::OverLimit, q)
}

// ---- a clause at p, from behind its `%` or in a procedure from its first token

// "over 1,024 sentences and procedure statements in a member, 2,048 in those entered"
fn is_full(st: State) -> bool
    ensures { result ≡ S.is_full st }
{
    Sentences::ENTERED <= usize::from(st.entered) + usize::from(st.rows)
        || Sentences::IN_MEMBER <= usize::from(st.rows)
}

fn clause_at(
    deck: &[u8],
    s: &[u8],
    rows: &mut [u16],
    names: &mut [u16],
    st: State,
    p: usize,
    at: usize,
) -> Turned
    ensures { T.Clauses deck.now s.now rows.old names.old st p at rows.new names.new result }
{
    let l = labels_at(s, at);
    let t = token_at(s, l.to);
    let kind = top_kind(st.opened);
    if is_end(s, kind, t) {
        return match l.long {
            Some(q) => end_too_long(deck, s, names, st, at, q),
            None => end_at(deck, s, names, st, at, t.to),
        };
    }
    if is_full(st) {
        return stop(st, Why::OverLimit, p);
    }
    let k = keyword_here(s, kind, st.scope, t, l.count);
    let named = declare_labels(deck, s, names, st, at, label_meaning(k, st.rows));
    match l.long {
        Some(q) => stop(named, Why::OverLimit, q),
        None => by_token(deck, s, rows, names, named, k, t, l.to, p, at),
    }
}

// ---- texts

// Behind a text: a sentence, or the end of the body.
fn texted(
    deck: &[u8],
    s: &[u8],
    rows: &mut [u16],
    names: &mut [u16],
    st: State,
    e: Ending,
) -> Turned
    ensures { T.Texts deck.now s.now rows.old names.old st e rows.new names.new result }
{
    match e {
        Ending::Percent(p) => clause_at(deck, s, rows, names, st, p, place_after(s, p)),
        Ending::AtEnd => {
            if st.opened.count <= 1 {
                return Turned {
                    state: st,
                    next: Next::Finish,
                };
            }
            stop(st, Why::Syntax, s.len())
        }
        Ending::OpenAt(p) => stop(st, Why::Syntax, p),
    }
}

// The text that the program or a group begins with.
fn lead_in(rows: &mut [u16], st: State, x: Stretch) -> State
    ensures { T.Leads rows.old st x rows.new result }
{
    let o = top(st.opened);
    match o.kind {
        Where::InProgram => State { lead: x, ..st },
        Where::InGroup => {
            set_lead(rows, o.row, x);
            st
        }
        Where::InBody | Where::InThen | Where::InElse => st,
    }
}

// ---- in a procedure

// `%` begins only its END.
fn procedure_end(deck: &[u8], s: &[u8], names: &mut [u16], st: State, at: usize) -> Turned
    ensures { S.EndsBody deck.now s.now names.old st at names.new result }
{
    let l = labels_at(s, at);
    let t = token_at(s, l.to);
    match l.long {
        Some(q) => end_too_long(deck, s, names, st, at, q),
        None => {
            if is_word(s, t, b"END") {
                return end_at(deck, s, names, st, at, t.to);
            }
            let named = declare_labels(deck, s, names, st, at, Meaning::LabelAt(0));
            not_end(s, named, l.to)
        }
    }
}

// Another word could still be a label, and the token behind it is wrong.
fn not_end(s: &[u8], st: State, at: usize) -> Turned
    ensures { result ≡ T.turned st (S.not_end_next s.now (name_at mixed s.now at)) }
{
    match name_at(s, at) {
        Ok((_, to)) => stop(st, Why::Syntax, token_at(s, to).from),
        Err((w, p)) => stop(st, w, p),
    }
}

// Whether `%` stands in a procedure, where it begins only its END.
fn ends_body(s: &[u8], kind: Where, t: Lexeme) -> bool
    ensures { result ≡ (D.is_in_body (O.where_of kind) && is_sign_in s.now t (bytes_of "%")) }
{
    is_in_body(kind) && is_sign(s, t, b"%")
}

fn inner_at(
    deck: &[u8],
    s: &[u8],
    rows: &mut [u16],
    names: &mut [u16],
    st: State,
    at: usize,
) -> Turned
    ensures { T.Inners deck.now s.now rows.old names.old st «at» rows.new names.new result }
{
    let t = token_at(s, at);
    if ends_body(s, top_kind(st.opened), t) {
        return procedure_end(deck, s, names, st, t.to);
    }
    if begins(s, t) {
        return clause_at(deck, s, rows, names, st, t.from, at);
    }
    stop(st, Why::Syntax, t.from)
}

// "a 17th group or alternative open": the alternative at its `%`.
fn alternative_at(
    deck: &[u8],
    s: &[u8],
    rows: &mut [u16],
    names: &mut [u16],
    st: State,
    at: usize,
) -> Turned
    ensures { T.Alternatives deck.now s.now rows.old names.old st «at» rows.new names.new result }
{
    let t = token_at(s, at);
    match alternative_from(s, st.scope, t, at) {
        Some(q) => {
            if depth(st.opened) <= Nesting::GROUPS {
                return clause_at(deck, s, rows, names, st, t.from, q);
            }
            stop(st, Why::OverLimit, t.from)
        }
        None => stop(st, Why::Syntax, t.from),
    }
}

fn turn(
    deck: &[u8],
    s: &[u8],
    rows: &mut [u16],
    names: &mut [u16],
    st: State,
    mode: Mode,
    at: usize,
) -> Turned
    ensures { T.Turns deck.now s.now rows.old names.old st mode «at» rows.new names.new result }
{
    match mode {
        Mode::Leading => {
            let e = text_end(s, at);
            let led = lead_in(rows, st, stretch(at, end_of(s, e)));
            texted(deck, s, rows, names, led, e)
        }
        Mode::Behind(n) => {
            let e = text_end(s, at);
            set_text(rows, n, stretch(at, end_of(s, e)));
            texted(deck, s, rows, names, st, e)
        }
        Mode::Alternative => alternative_at(deck, s, rows, names, st, at),
        Mode::Inner => inner_at(deck, s, rows, names, st, at),
    }
}

// ---- the member

// A member that was read: its first row and its leading text; how many rows it has; the names that there are now; what is wrong with it.
#[derive(Clone, Copy)]
pub struct Source {
    pub first: Option<u16>,
    pub lead: Stretch,
    pub rows: u16,
    pub names: u16,
    pub fault: Result<(), Fault>,
}

fn source_of(st: State, f: Result<(), Fault>) -> Source
    ensures { result ≡ T.source_of st f }
{
    Source {
        first: st.first,
        lead: st.lead,
        rows: st.rows,
        names: st.tally.names,
        fault: fault_of(st.tally, f),
    }
}

fn start(member: u16, base: u16, entered: u16, names: u16) -> State
    ensures { T.Begins member base entered names result }
{
    let none = Opened {
        count: 0,
        items: [nothing_open(); 20],
    };
    State {
        entered,
        rows: 0,
        first: None,
        lead: stretch(0, 0),
        opened: push(none, nothing_open()),
        scope: Owner::Everyone,
        tally: new_tally(member, base, names),
    }
}

// More turns than there are tokens.
fn turns_for(s: &[u8]) -> usize
    ensures { T.Enough s.now result }
{
    let n = s.len();
    if n < 65_536 {
        return n + 2;
    }
    n
}

// THE MEMBER of the deck: its rows go into its own part of the rows room, its names behind those that are there; `entered` sentences
// were entered before it.
pub fn read_member(
    deck: &[u8],
    rows: &mut [u16],
    names: &mut [u16],
    member: u16,
    entered: u16,
    name_count: u16,
) -> Source
    ensures { M.Members deck.now rows.old names.old member entered name_count rows.new names.new result }
{
    let s = body(deck, member);
    let base = place16(deck::offset(deck, member) as usize);
    let mut st = start(member, base, entered, name_count);
    let mut mode = Mode::Leading;
    let mut at: usize = 0;
    for left in (0..turns_for(s)).rev() {
        let t = turn(deck, s, rows, names, st, mode, at);
        st = t.state;
        match t.next {
            Next::Go(m, e) => {
                mode = m;
                at = e;
            }
            Next::Stop(w, p) => return source_of(st, Err((w, p))),
            Next::Finish => return source_of(st, Ok(())),
        }
    }
    source_of(st, Err((Why::Syntax, at)))
}
