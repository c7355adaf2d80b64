// What the program prints of an answer is the six numbers, the lines, the text and a line feed. The numbers, and some lines at a
// time, are put onto a page; what would go past its end is lost, and counted. The text is printed from its room as it stands.
#![tactic(auto)]

ghost use Rattle.std.specs.Prelude.{◌≡◌, ◌∷◌, [], ◌+◌, ◌*◌, ◌-◌, ◌%◌, ◌≤◌, take};
ghost use Rattle.definition.specs.Lists.{part};
ghost use Rattle.definition.specs.Values.{decimal_on};
ghost use Rattle.definition.specs.Printed.{decimal, line_rest, letter, origin_line, origin_lines};
ghost use Rattle.printing.specs.Page.{Puts, far, six_line, line_at, lines_from};

use rooms::{byte, get_u32, number32, put_byte};

// As many digits as a number can have, and bytes as a line of the list has.
const DIGITS: usize = 10;

const LINE: usize = 12;

// ---- a byte, a number

fn put(page: &mut [u8], at: usize, b: u8) -> usize
    requires { at + 1 ≤ far }
    ensures { Puts 1 page.old at (b ∷ []) page.new result }
{
    put_byte(page, at, 0, b);
    at + 1
}

fn last_digit(n: u32) -> u8
    ensures { result ≡ 48 + n % 10 }
{
    b'0' + (n % 10) as u8
}

// The shortest decimal of a number, of at most so many digits: the last digit goes behind the others.
fn put_digits(page: &mut [u8], at: usize, n: u32, most: usize) -> usize
    requires { at + most ≤ far }
    ensures { Puts most page.old at (decimal_on most n []) page.new result }
{
    if most == 0 {
        return at;
    }
    if n < 10 {
        return put(page, at, last_digit(n));
    }
    let p = put_digits(page, at, n / 10, most - 1);
    put(page, p, last_digit(n))
}

fn put_number(page: &mut [u8], at: usize, n: u32) -> usize
    requires { at + 10 ≤ far }
    ensures { Puts 10 page.old at (decimal n) page.new result }
{
    put_digits(page, at, n, DIGITS)
}

fn put_after_blank(page: &mut [u8], at: usize, n: u32) -> usize
    requires { at + 11 ≤ far }
    ensures { Puts 11 page.old at (32 ∷ decimal n) page.new result }
{
    let p = put(page, at, b' ');
    put_number(page, p, n)
}

// ---- lines of numbers

// The rest of a line: n numbers from a place of theirs on, a blank before each, and the line feed.
fn put_rest(page: &mut [u8], from: usize, numbers: &[u32], first: usize, n: usize) -> usize
    requires { from + 11 * n + 1 ≤ far }
    ensures { Puts (11 * n + 1) page.old from (line_rest (part n first numbers.now)) page.new result }
{
    let mut at = from;
    for j in 0..n {
        at = put_after_blank(page, at, number32(numbers, first, j));
    }
    put(page, at, b'\n')
}

// The six numbers.
pub fn put_numbers(page: &mut [u8], numbers: &[u32]) -> usize
    ensures { Puts 66 page.old 0 (six_line numbers.now) page.new result }
{
    let a = put_number(page, 0, number32(numbers, 0, 0));
    put_rest(page, a, numbers, 1, 5)
}

// ---- the lines

#[tactic(auto, unfolding(definition::specs::Printed::letter))]
fn letter_of(kind: u8) -> u8
    ensures { result ≡ letter kind }
{
    match kind {
        1 => b'B',
        2 => b'C',
        _ => b'V',
    }
}

// Line k of the list.
fn put_line(page: &mut [u8], at: usize, list: &[u8], k: u32) -> usize
    requires { at + 35 ≤ far }
    ensures { Puts 35 page.old at (origin_line (line_at list.now k)) page.new result }
{
    let p = LINE * (k as usize);
    let a = put(page, at, letter_of(byte(list, p, 0)));
    let rest = [
        u32::from(byte(list, p, 1)),
        get_u32(list, p + 4),
        get_u32(list, p + 8),
    ];
    put_rest(page, a, &rest, 0, 3)
}

// The lines of the list from one on, up to another that is not among them.
pub fn put_lines(page: &mut [u8], list: &[u8], first: u32, end: u32) -> usize
    ensures { Puts (35 * (end - first)) page.old 0 (origin_lines (lines_from list.now first (end - first))) page.new result }
{
    let mut at = 0;
    for i in first..end {
        at = put_line(page, at, list, i);
    }
    at
}

// The part of the page that is used.
pub fn used(page: &[u8], size: usize) -> &[u8]
    ensures { result.now ≡ take size page.now }
{
    page.get(..size).unwrap_or(page)
}
