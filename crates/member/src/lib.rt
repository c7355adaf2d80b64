// The member view: the deck's bytes together with one line of the contents.
#![tactic(auto)]

ghost use Rattle.std.specs.Prelude.{◌≡◌};
ghost use Rattle.member.specs.Body.{body_bytes};

#[derive(Clone, Copy)]
pub struct Member<'a> {
    pub deck: &'a [u8],
    pub offset: usize,
    pub size: usize,
}

// A body's bytes, or none at all. Two tests, since the sum may be formed only once it is known to fit.
pub fn part(deck: &[u8], offset: usize, size: usize) -> &[u8]
    ensures { result.now ≡ body_bytes deck.now offset size }
{
    if deck.len() < offset || deck.len() - offset < size {
        return &deck[..0];
    }
    &deck[offset..offset + size]
}

// The view of a line.
pub fn view<'a>(deck: &'a [u8], offset: usize, size: usize) -> Member<'a>
    ensures { result ≡ record { deck = deck.entry; offset = offset; size = size } }
{
    Member { deck, offset, size }
}

// The bytes that the view shows.
pub fn bytes<'a>(m: Member<'a>) -> &'a [u8]
    ensures { result.now ≡ body_bytes m.entry.deck.now m.entry.offset m.entry.size }
{
    part(m.deck, m.offset, m.size)
}

// The body that a view of plain parameters shows.
pub fn body_of(deck: &[u8], offset: usize, size: usize) -> &[u8]
    ensures { result.now ≡ body_bytes deck.now offset size }
{
    bytes(view(deck, offset, size))
}
