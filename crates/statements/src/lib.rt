// What each statement is, from behind its first word to behind its semicolon, or of an IF to behind THEN.
// Parts: statements of one clause, DECLARE, PROCEDURE.
// A loop that goes from token to token has no more turns than there are bytes; they are counted down, as the definition does.
#![tactic(auto)]

ghost use Rattle.std.specs.Prelude.{◌≡◌, ◌||◌, true, false, ◌∷◌, [], length, Ok};
ghost use Rattle.definition.specs.Bytes.{mixed};
ghost use Rattle.definition.specs.Text.{bytes_of};
ghost use Rattle.definition.specs.Expressions.{name_at};
ghost use Rattle.definition.specs.Statements as D;
ghost use Rattle.definition.specs.declared.ValueType.TheVariants.{FixedType};
ghost use Rattle.definition.specs.Tokens.{token_at};
ghost use Rattle.tokens.specs.Answer.{is_word_in};
ghost use Rattle.rows.specs.declared.Statement.TheVariants as S;
ghost use Rattle.entering.specs.Book.{book_all, meaning_of};
ghost use Rattle.statements.specs.Clauses as C;

use chars::is_one_name;
use definition::{Fault, ValueType, Why};
use entering::{Meaning, Spelling, Tally, declare, length_of, with_second};
use expressions::{Expected, NamedAt, check, expect_sign, expect_word, name_at};
use names::Owner;
use rows::Statement;
use tokens::{Lexeme, is_sign, is_word, token_at, width};

// The words that begin statements.
#[derive(Clone, Copy)]
pub enum Keyword {
    If,
    Do,
    Goto,
    Go,
    Include,
    Activate,
    Deactivate,
    Return,
    Declare,
    Procedure,
    Other,
}

// What a statement opens: nothing, a group, a procedure's body, or the THEN alternative.
#[derive(Clone, Copy)]
pub enum Opens {
    Nothing,
    Group,
    Body,
    Then,
}

// A statement that was read: where it is read again when it runs, the place past it, and of a procedure its type.
#[derive(Clone, Copy)]
pub struct Clause {
    pub statement: Statement,
    pub opens: Opens,
    pub content: usize,
    pub to: usize,
    pub value_type: ValueType,
}

pub type Read = Result<Clause, Fault>;

// What the items of a list are.
#[derive(Clone, Copy)]
enum Each {
    Name,
    Activation,
    Member,
}

// The names that were read count even where the statement is wrong.
#[derive(Clone, Copy)]
pub struct Declaring {
    pub tally: Tally,
    pub read: Read,
}

// Words of two spellings.
fn is_either(s: &[u8], t: Lexeme, long: &[u8], short: &[u8]) -> bool
    ensures { result ≡ (is_word_in s.now t long.now || is_word_in s.now t short.now) }
{
    is_word(s, t, long) || is_word(s, t, short)
}

// The words that may stand outside procedures alone, or in them alone, or in lists alone.
fn other_keyword(s: &[u8], t: Lexeme) -> Keyword
    ensures { result ≡ C.other_by (is_word_in s.now t) }
{
    if is_word(s, t, b"INCLUDE") {
        return Keyword::Include;
    }
    if is_either(s, t, b"ACTIVATE", b"ACT") {
        return Keyword::Activate;
    }
    if is_either(s, t, b"DEACTIVATE", b"DEACT") {
        return Keyword::Deactivate;
    }
    if is_word(s, t, b"RETURN") {
        return Keyword::Return;
    }
    if is_either(s, t, b"DECLARE", b"DCL") {
        return Keyword::Declare;
    }
    if is_either(s, t, b"PROCEDURE", b"PROC") {
        return Keyword::Procedure;
    }
    Keyword::Other
}

pub fn keyword_of(s: &[u8], t: Lexeme) -> Keyword
    ensures { result ≡ C.keyword_by (is_word_in s.now t) }
{
    if is_word(s, t, b"IF") {
        return Keyword::If;
    }
    if is_word(s, t, b"DO") {
        return Keyword::Do;
    }
    if is_word(s, t, b"GOTO") {
        return Keyword::Goto;
    }
    if is_word(s, t, b"GO") {
        return Keyword::Go;
    }
    other_keyword(s, t)
}

// A statement that is read as far as `e` says.
fn read_up_to(statement: Statement, opens: Opens, content: usize, e: Expected) -> Read
    ensures { result ≡ C.read_up_to statement opens content e }
{
    let to = e?;
    Ok(Clause {
        statement,
        opens,
        content,
        to,
        value_type: ValueType::FixedType,
    })
}

// The assignment from behind `=`; its target is the first token behind the place `content`.
pub fn assignment(s: &[u8], content: usize, at: usize) -> Read
    ensures { result ≡ C.read_for S.Assign content FixedType (D.assignment mixed s.now [] at) }
{
    let q = check(s, at)?;
    read_up_to(
        Statement::Assign,
        Opens::Nothing,
        content,
        expect_sign(s, q, b";"),
    )
}

// Outside procedures THEN has its own `%`.
fn if_clause(s: &[u8], at: usize, in_body: bool) -> Read
    ensures { result ≡ C.read_for S.Conditional at FixedType (D.if_clause mixed in_body s.now at) }
{
    let q = check(s, at)?;
    if in_body {
        let e = expect_word(s, q, b"THEN");
        return read_up_to(Statement::Conditional, Opens::Then, at, e);
    }
    let sign = expect_sign(s, q, b"%")?;
    let e = expect_word(s, sign, b"THEN");
    read_up_to(Statement::Conditional, Opens::Then, at, e)
}

// BY or TO with its expression, if the word stands there.
fn bound_at(s: &[u8], at: usize, w: &[u8]) -> Expected
    ensures { result ≡ C.bound_past w.now s.now (Ok at) }
{
    let t = token_at(s, at);
    if is_word(s, t, w) {
        return check(s, t.to);
    }
    Ok(at)
}

// BY and TO in either order, each at most once.
fn do_bounds(s: &[u8], at: usize) -> Expected
    ensures { result ≡ C.bounds_past s.now (Ok at) }
{
    let t = token_at(s, at);
    if is_word(s, t, b"BY") {
        let by = check(s, t.to)?;
        return bound_at(s, by, b"TO");
    }
    let to = bound_at(s, at, b"TO")?;
    bound_at(s, to, b"BY")
}

fn name_past(s: &[u8], at: usize) -> Expected
    ensures { result ≡ C.name_end (name_at mixed s.now at) }
{
    let (_, to) = name_at(s, at)?;
    Ok(to)
}

fn do_clause(s: &[u8], at: usize) -> Read
    ensures { result ≡ C.read_for (C.do_kind s.now at) at FixedType (D.do_clause mixed s.now at) }
{
    let t = token_at(s, at);
    if is_sign(s, t, b";") {
        return read_up_to(Statement::Group, Opens::Group, at, Ok(t.to));
    }
    let name = name_past(s, at)?;
    let equals = expect_sign(s, name, b"=")?;
    let start = check(s, equals)?;
    let e = do_bounds(s, start)?;
    read_up_to(
        Statement::Iterated,
        Opens::Group,
        at,
        expect_sign(s, e, b";"),
    )
}

fn goto_clause(s: &[u8], at: usize) -> Read
    ensures { result ≡ C.read_for S.Goto at FixedType (D.goto_clause mixed s.now at) }
{
    let q = name_past(s, at)?;
    read_up_to(Statement::Goto, Opens::Nothing, at, expect_sign(s, q, b";"))
}

// GO and TO apart.
fn go_clause(s: &[u8], at: usize) -> Read
    ensures { result ≡ C.read_for S.Goto (token_at mixed s.now at).to FixedType (C.go_clause s.now at) }
{
    let q = expect_word(s, at, b"TO")?;
    goto_clause(s, q)
}

// Behind a name that INCLUDE lists: if `(` stands there, the name was a library's, and its member follows.
fn member_past(s: &[u8], e: Expected) -> Expected
    ensures { result ≡ C.member_past s.now e }
{
    let q = e?;
    let t = token_at(s, q);
    if is_sign(s, t, b"(") {
        let member = name_past(s, t.to)?;
        return expect_sign(s, member, b")");
    }
    Ok(q)
}

// An item of a list: a name, and what may stand behind it.
fn list_item(s: &[u8], at: usize, each: Each) -> Expected
    ensures { result ≡ C.item_past each s.now at }
{
    let e = name_past(s, at);
    match each {
        Each::Name => e,
        Each::Activation => match e {
            Ok(q) => Ok(past_rescan(s, q)),
            Err((w, p)) => Err((w, p)),
        },
        Each::Member => member_past(s, e),
    }
}

// The place past NORESCAN or RESCAN, if one of them stands there.
pub fn past_rescan(s: &[u8], at: usize) -> usize
    ensures { result ≡ C.rescan_past s.now at }
{
    let t = token_at(s, at);
    if is_either(s, t, b"NORESCAN", b"RESCAN") {
        return t.to;
    }
    at
}

// Items with commas between them, and behind them `close`: the place past it.
fn name_list(s: &[u8], from: usize, each: Each, close: &[u8]) -> Expected
    ensures { result ≡ C.list_end close.now each s.now (length s.now) from }
{
    let mut at = from;
    for left in (0..s.len()).rev() {
        let q = list_item(s, at, each)?;
        let t = token_at(s, q);
        if !is_sign(s, t, b",") {
            return expect_sign(s, q, close);
        }
        at = t.to;
    }
    Err((Why::Syntax, at))
}

// RETURN's own parenthesis is not part of the expression.
fn return_clause(s: &[u8], at: usize) -> Read
    ensures { result ≡ C.read_for S.Return at FixedType (D.return_clause mixed s.now at) }
{
    let open = expect_sign(s, at, b"(")?;
    let value = check(s, open)?;
    let close = expect_sign(s, value, b")")?;
    read_up_to(
        Statement::Return,
        Opens::Nothing,
        at,
        expect_sign(s, close, b";"),
    )
}

// The statements that declare nothing, from behind the word t that begins them.
pub fn plain_clause(s: &[u8], k: Keyword, t: Lexeme, in_body: bool) -> Read
    ensures { result ≡ C.plain_for k in_body s.now t.from t.to }
{
    let at = t.to;
    match k {
        Keyword::If => if_clause(s, at, in_body),
        Keyword::Do => do_clause(s, at),
        Keyword::Goto => goto_clause(s, at),
        Keyword::Go => go_clause(s, at),
        Keyword::Include => read_up_to(
            Statement::Include,
            Opens::Nothing,
            at,
            name_list(s, at, Each::Member, b";"),
        ),
        Keyword::Activate => read_up_to(
            Statement::Activate,
            Opens::Nothing,
            at,
            name_list(s, at, Each::Activation, b";"),
        ),
        Keyword::Deactivate => read_up_to(
            Statement::Deactivate,
            Opens::Nothing,
            at,
            name_list(s, at, Each::Name, b";"),
        ),
        Keyword::Return => return_clause(s, at),
        Keyword::Declare | Keyword::Procedure | Keyword::Other => { Err((Why::Syntax, t.from)) }
    }
}

// ---- DECLARE

// Declares the name at a place, or those in parentheses, as far as they can be read.
fn declare_names(
    deck: &[u8],
    s: &[u8],
    names: &mut [u16],
    t0: Tally,
    owner: Owner,
    x: Item,
    meaning: Meaning,
) -> Tally
    ensures { C.NamedIf deck.now s.now names.old t0 owner (book_all t0.member (D.means (C.scope_of owner) (meaning_of meaning) (C.names_read s.now x.most x.names))) names.new result }
{
    let mut tally = t0;
    let mut at = x.names;
    for left in (0..x.most).rev() {
        match name_at(s, at) {
            Ok((from, to)) => {
                tally = declare(deck, s, names, tally, Spelling { from, to }, owner, meaning);
                let t = token_at(s, to);
                if !is_sign(s, t, b",") {
                    return tally;
                }
                at = t.to;
            }
            Err((_, _)) => return tally,
        }
    }
    tally
}

// One item of a declaration: where its names begin, how many there may be, and the place past them.
#[derive(Clone, Copy)]
struct Item {
    names: usize,
    most: usize,
    to: Expected,
}

fn item_at(s: &[u8], at: usize) -> Item
    ensures { result ≡ C.item_in s.now at }
{
    let t = token_at(s, at);
    if is_sign(s, t, b"(") {
        return Item {
            names: t.to,
            most: s.len(),
            to: name_list(s, t.to, Each::Name, b")"),
        };
    }
    Item {
        names: at,
        most: 1,
        to: name_past(s, at),
    }
}

pub fn is_inside(owner: Owner) -> bool
    ensures { result ≡ C.is_inside owner }
{
    match owner {
        Owner::Everyone => false,
        Owner::Procedure(_) => true,
    }
}

// What the attribute that a token is says. ENTRY stands outside procedures, BUILTIN inside.
fn attribute_at(s: &[u8], t: Lexeme, owner: Owner) -> Option<Meaning>
    ensures { result ≡ C.attribute_by (C.is_inside owner) (is_word_in s.now t) }
{
    if is_either(s, t, b"CHARACTER", b"CHAR") {
        return Some(Meaning::Variable(ValueType::CharacterType));
    }
    if is_word(s, t, b"FIXED") {
        return Some(Meaning::Variable(ValueType::FixedType));
    }
    if is_inside(owner) {
        if is_word(s, t, b"BUILTIN") {
            return Some(Meaning::BuiltinName);
        }
        return None;
    }
    if is_word(s, t, b"ENTRY") {
        return Some(Meaning::EntryOnly);
    }
    None
}

// The meaning of an item and the place past its attribute, or why it is wrong, and where.
fn item_means(s: &[u8], x: Item, owner: Owner) -> Result<(Meaning, usize), (Why, usize)>
    ensures { result ≡ C.itemized s.now x.to (C.is_inside owner) }
{
    let e = x.to?;
    let t = token_at(s, e);
    let Some(m) = attribute_at(s, t, owner) else {
        return Err((Why::Syntax, t.from));
    };
    Ok((m, t.to))
}

// A wrong item counts as a variable.
fn meaning_of(x: Result<(Meaning, usize), (Why, usize)>) -> Meaning
    ensures { result ≡ C.meaning_in x }
{
    match x {
        Ok((m, _)) => m,
        Err(_) => Meaning::Variable(ValueType::FixedType),
    }
}

// The statement from behind DECLARE.
pub fn declare_clause(
    deck: &[u8],
    s: &[u8],
    names: &mut [u16],
    t0: Tally,
    owner: Owner,
    from: usize,
) -> Declaring
    ensures { C.DeclaresIf deck.now s.now names.old t0 owner from names.new result }
{
    let mut tally = t0;
    let mut at = from;
    for left in (0..s.len()).rev() {
        let x = item_at(s, at);
        let y = item_means(s, x, owner);
        tally = declare_names(deck, s, names, tally, owner, x, meaning_of(y));
        match y {
            Ok((_, e)) => {
                let t = token_at(s, e);
                if !is_sign(s, t, b",") {
                    let read = read_up_to(
                        Statement::Declare,
                        Opens::Nothing,
                        from,
                        expect_sign(s, e, b";"),
                    );
                    return Declaring { tally, read };
                }
                at = t.to;
            }
            Err((w, p)) => {
                return Declaring {
                    tally,
                    read: Err((w, p)),
                };
            }
        }
    }
    Declaring {
        tally,
        read: Err((Why::Syntax, at)),
    }
}

// ---- PROCEDURE

fn is_spelled_as(s: &[u8], t: Lexeme, x: Spelling) -> bool
    ensures { result ≡ C.spelled_as s.now x.from x.to t.from t.to }
{
    let n = length_of(x);
    width(t) == n && is_one_name(s, t.from, s, x.from, n)
}

// Whether the name x is among those from a place on, before its own place.
fn is_listed_before(s: &[u8], list: usize, x: Spelling) -> bool
    ensures { result ≡ C.listed_before s.now x.from x.to (length s.now) list }
{
    let mut at = list;
    for left in (0..s.len()).rev() {
        let t = token_at(s, at);
        if x.from <= t.from {
            return false;
        }
        if is_spelled_as(s, t, x) {
            return true;
        }
        let comma = token_at(s, t.to);
        at = comma.to;
    }
    false
}

// The first parameter that is listed twice is kept.
fn parameters(s: &[u8], tally: Tally, list: usize) -> Tally
    ensures { result ≡ C.tally_twice (C.parameter_twice s.now list (length s.now) list) tally }
{
    let mut at = list;
    for left in (0..s.len()).rev() {
        let t = token_at(s, at);
        let x = Spelling {
            from: t.from,
            to: t.to,
        };
        if is_listed_before(s, list, x) {
            return with_second(tally, t.from);
        }
        let comma = token_at(s, t.to);
        if !is_sign(s, comma, b",") {
            return tally;
        }
        at = comma.to;
    }
    tally
}

// The type that a procedure returns, and the place past it.
fn returned_type(s: &[u8], e: Expected) -> Result<(ValueType, usize), (Why, usize)>
    ensures { result ≡ C.type_from s.now (C.then_sign (bytes_of "(") s.now (C.then_word (bytes_of "RETURNS") s.now e)) }
{
    let head = e?;
    let word = expect_word(s, head, b"RETURNS")?;
    let q = expect_sign(s, word, b"(")?;
    let t = token_at(s, q);
    if is_either(s, t, b"CHARACTER", b"CHAR") {
        return Ok((ValueType::CharacterType, t.to));
    }
    if is_word(s, t, b"FIXED") {
        return Ok((ValueType::FixedType, t.to));
    }
    Err((Why::Syntax, t.from))
}

// RETURNS and its type, behind the parameters, which end as e says.
fn procedure_head(s: &[u8], e: Expected, from: usize) -> Read
    ensures { result ≡ C.head_from s.now from (C.type_from s.now (C.then_sign (bytes_of "(") s.now (C.then_word (bytes_of "RETURNS") s.now e))) }
{
    let (value_type, q) = returned_type(s, e)?;
    let close = expect_sign(s, q, b")")?;
    let to = expect_sign(s, close, b";")?;
    Ok(Clause {
        statement: Statement::Procedure,
        opens: Opens::Body,
        content: from,
        to,
        value_type,
    })
}

// The statement from behind PROCEDURE.
pub fn procedure_clause(s: &[u8], tally: Tally, from: usize) -> Declaring
    ensures { C.Heads s.now tally from result }
{
    let t = token_at(s, from);
    if is_sign(s, t, b"(") {
        let read = procedure_head(s, name_list(s, t.to, Each::Name, b")"), from);
        return match read {
            Ok(_) => Declaring {
                tally: parameters(s, tally, t.to),
                read,
            },
            Err((_, _)) => Declaring { tally, read },
        };
    }
    Declaring {
        tally,
        read: procedure_head(s, Ok(from), from),
    }
}
