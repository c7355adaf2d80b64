// What is put out, by its place in the deck as given: of a plain deck as it stands, of card images by record and column. Both rooms
// then show the event of the definition.
#![tactic(auto)]

ghost use Rattle.std.specs.Prelude.{◌≡◌, ◌%◌, ◌-◌, length};
ghost use Rattle.definition.specs.Lists.{part};
ghost use Rattle.definition.specs.Events.{blank, copied};
ghost use Rattle.origin.specs.Written.{place_as, Tells, Ends};

use definition::Layout;
use edges::{given, put_pieces};
use output::{Out, put_blank, put_copied, put_replaced};
use sums::less;

fn place32(p: usize) -> u32
    ensures { result ≡ p % 65536 }
{
    (p % 65_536) as u32
}

// The place that is told, in a body of so many bytes.
pub fn told_place(layout: Layout, size: usize, p: usize) -> u32
    ensures { result ≡ place_as layout size (p % 65536) }
{
    match layout {
        Layout::Plain => place32(p),
        Layout::Cards => given(size, p),
    }
}

// A blank, at the start of a text.
pub fn tell_blank(
    layout: Layout,
    size: usize,
    text: &mut [u8],
    list: &mut [u8],
    o: Out,
    member: u8,
    p: usize,
) -> Option<Out>
    ensures { Tells layout size (blank member p) member p o text.old list.old result text.new list.new }
{
    put_blank(text, list, o, member, told_place(layout, size, p))
}

// The bytes of a body from one place up to another, copied from there.
pub fn tell_copied(
    layout: Layout,
    s: &[u8],
    from: usize,
    to: usize,
    text: &mut [u8],
    list: &mut [u8],
    o: Out,
    member: u8,
) -> Option<Out>
    ensures { Tells layout (length s.now) (copied member from (part (to - from) from s.now)) member to o text.old list.old result text.new list.new }
{
    match layout {
        Layout::Plain => put_copied(
            s,
            from,
            place32(less(to, from)),
            text,
            list,
            o,
            member,
            place32(from),
        ),
        Layout::Cards => put_pieces(s, from, to, text, list, o, member),
    }
}

// The line of a replacement, whose outcome of n bytes stands in the text room already.
pub fn tell_replaced(
    layout: Layout,
    size: usize,
    text: &[u8],
    list: &mut [u8],
    o: Out,
    member: u8,
    p: usize,
    n: u32,
) -> Out
    ensures { Ends layout size member p n o (length text.now) list.old result list.new }
{
    put_replaced(text, list, o, member, told_place(layout, size, p), n)
}
