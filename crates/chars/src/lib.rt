// Letters and what else names are made of, and names as they are compared.
#![tactic(auto)]

ghost use Rattle.std.specs.Prelude.{◌≡◌};
ghost use Rattle.definition.specs.Lists.{part, same};
ghost use Rattle.definition.specs.Bytes.{mixed, is_letter, is_small, is_alphameric, is_digit, is_blank, capital as capitalOf, folded};
ghost use Rattle.definition.specs.Tokens.{is_bit};

use rooms::byte;

#[tactic(auto, unfolding(definition::specs::Bytes::is_small))]
pub fn is_small(b: u8) -> bool
    ensures { result ≡ is_small mixed b }
{
    b.is_ascii_lowercase()
}

// A to Z, a to z, `$`, `@` or `#`.
#[tactic(auto, unfolding(definition::specs::Bytes::is_letter))]
pub fn is_letter(b: u8) -> bool
    ensures { result ≡ is_letter mixed b }
{
    b.is_ascii_uppercase() || is_small(b) || matches!(b, b'$' | b'@' | b'#')
}

// A letter, a digit or `_`: what a name goes on with.
#[tactic(auto, unfolding(definition::specs::Bytes::is_alphameric))]
pub fn is_alphameric(b: u8) -> bool
    ensures { result ≡ is_alphameric mixed b }
{
    is_letter(b) || is_digit(b) || b == b'_'
}

// A small letter as its capital, any other byte as it is: names are compared so.
#[tactic(auto, unfolding(definition::specs::Bytes::capital, definition::specs::Bytes::is_small))]
pub fn capital(b: u8) -> u8
    ensures { result ≡ capitalOf mixed b }
{
    b.to_ascii_uppercase()
}

#[tactic(auto, unfolding(definition::specs::Bytes::is_digit))]
pub fn is_digit(b: u8) -> bool
    ensures { result ≡ is_digit b }
{
    b.is_ascii_digit()
}

#[tactic(auto, unfolding(definition::specs::Bytes::is_blank))]
pub fn is_blank(b: u8) -> bool
    ensures { result ≡ is_blank b }
{
    b == b' '
}

// Whether a byte may stand in a bit string.
#[tactic(auto, unfolding(definition::specs::Tokens::is_bit))]
pub fn is_bit(b: u8) -> bool
    ensures { result ≡ is_bit b }
{
    matches!(b, b'0' | b'1')
}

// Whether the n bytes of a from place i on are those of the word w from place k on, but for the case of a.
pub fn spells(a: &[u8], i: usize, w: &[u8], k: usize, n: usize) -> bool
    ensures { result ≡ same (folded mixed (part n i a.now)) (part n k w.now) }
{
    (0..n).all(|j| capital(byte(a, i, j)) == byte(w, k, j))
}

// Whether the n bytes of a from place i on are one name with those of b from place k on.
pub fn is_one_name(a: &[u8], i: usize, b: &[u8], k: usize, n: usize) -> bool
    ensures { result ≡ same (folded mixed (part n i a.now)) (folded mixed (part n k b.now)) }
{
    (0..n).all(|j| capital(byte(a, i, j)) == capital(byte(b, k, j)))
}
