// Lent rooms: zeroed, copied, compared, and numbers read and written in them; each function answers for every length and place.
#![tactic(auto)]

ghost use Rattle.std.specs.Prelude.{◌≡◌, ◌∷◌, [], ◌+◌, ◌-◌, ◌<◌, ◌≤◌, length, get_or, slice_index_or, slice_set};
ghost use Rattle.definition.specs.Lists.{part, number, bytes, same};
ghost use Rattle.definition.specs.Room.{over, zeros};

// The value k places past `at`, or another past the end. The place is no sum before it is known to be inside.
fn at_or<T: Copy>(s: &[T], at: usize, k: usize, none: T) -> T
    ensures { result ≡ slice_index_or s.now (at + k) none }
{
    if at < s.len() && k < s.len() - at {
        s[at + k]
    } else {
        none
    }
}

// Stores a value k places past `at`; past the end nothing.
fn put<T: Copy>(room: &mut [T], at: usize, k: usize, x: T)
    ensures inside { at + k < length room.old → room.new ≡ slice_set room.old (at + k) x }
    ensures outside { length room.old ≤ at + k → room.new ≡ room.old }
{
    if at < room.len() && k < room.len() - at {
        room[at + k] = x;
    }
}

// The byte k places past `at`, or 0 past the end.
pub fn byte(s: &[u8], at: usize, k: usize) -> u8
    ensures { result ≡ get_or s.now (at + k) 0 }
{
    at_or(s, at, k, 0)
}

// Stores a byte k places past `at`; past the end nothing.
pub fn put_byte(room: &mut [u8], at: usize, k: usize, b: u8)
    ensures { room.new ≡ over room.old (at + k) (b ∷ []) }
{
    put(room, at, k, b);
}

// The same of numbers of 16 bits.
pub fn number16(s: &[u16], at: usize, k: usize) -> u16
    ensures { result ≡ get_or s.now (at + k) 0 }
{
    at_or(s, at, k, 0)
}

pub fn put_number16(room: &mut [u16], at: usize, k: usize, n: u16)
    ensures { room.new ≡ over room.old (at + k) (n ∷ []) }
{
    put(room, at, k, n);
}

// Writes numbers of 16 bits one after the other.
pub fn put_numbers16(room: &mut [u16], at: usize, numbers: &[u16])
    ensures { room.new ≡ over room.old at numbers.now }
{
    for (k, n) in numbers.iter().enumerate() {
        put_number16(room, at, k, *n);
    }
}

// The same of numbers of 32 bits.
pub fn number32(s: &[u32], at: usize, k: usize) -> u32
    ensures { result ≡ get_or s.now (at + k) 0 }
{
    at_or(s, at, k, 0)
}

pub fn put_number32(room: &mut [u32], at: usize, k: usize, n: u32)
    ensures { room.new ≡ over room.old (at + k) (n ∷ []) }
{
    put(room, at, k, n);
}

pub fn zero_u8(room: &mut [u8])
    ensures { room.new ≡ zeros (length room.old) }
{
    room.fill(0);
}

pub fn zero_u16(room: &mut [u16])
    ensures { room.new ≡ zeros (length room.old) }
{
    room.fill(0);
}

pub fn zero_u32(room: &mut [u32])
    ensures { room.new ≡ zeros (length room.old) }
{
    room.fill(0);
}

// Zeroes a room from a place on.
pub fn zero_from(room: &mut [u8], from: usize)
    ensures { room.new ≡ over room.old from (zeros (length room.old - from)) }
{
    if from < room.len() {
        room[from..].fill(0);
    }
}

// Copies the n bytes of src from place `from` on over the room from place `at` on.
pub fn copy(src: &[u8], from: usize, n: usize, room: &mut [u8], at: usize)
    ensures { room.new ≡ over room.old at (part n from src.now) }
{
    if from <= src.len() && n <= src.len() - from && at <= room.len() && n <= room.len() - at {
        room[at..at + n].copy_from_slice(&src[from..from + n]);
    } else {
        copy_each(src, from, n, room, at);
    }
}

// The same byte by byte, for stretches that may go past an end.
fn copy_each(src: &[u8], from: usize, n: usize, room: &mut [u8], at: usize)
    ensures { room.new ≡ over room.old at (part n from src.now) }
{
    for j in 0..n {
        put_byte(room, at, j, byte(src, from, j));
    }
}

// Whether the n bytes of a from place i on are those of b from place k on.
pub fn is_same(a: &[u8], i: usize, b: &[u8], k: usize, n: usize) -> bool
    ensures { result ≡ same (part n i a.now) (part n k b.now) }
{
    (0..n).all(|j| byte(a, i, j) == byte(b, k, j))
}

pub fn wide32(b: u8) -> u32
    ensures { result ≡ b }
{
    u32::from(b)
}

// The number that two bytes say, the least first.
pub fn get_u16(s: &[u8], at: usize) -> u16
    ensures { result ≡ number (part 2 at s.now) }
{
    u16::from_le_bytes([byte(s, at, 0), byte(s, at, 1)])
}

// The number that four bytes say, the least first.
pub fn get_u32(s: &[u8], at: usize) -> u32
    ensures { result ≡ number (part 4 at s.now) }
{
    u32::from_le_bytes([
        byte(s, at, 0),
        byte(s, at, 1),
        byte(s, at, 2),
        byte(s, at, 3),
    ])
}

// Writes n as two bytes, the least first.
pub fn put_u16(room: &mut [u8], at: usize, n: u16)
    ensures { room.new ≡ over room.old at (bytes 2 n) }
{
    copy(&n.to_le_bytes(), 0, 2, room, at);
}

// Writes n as four bytes, the least first.
pub fn put_u32(room: &mut [u8], at: usize, n: u32)
    ensures { room.new ≡ over room.old at (bytes 4 n) }
{
    copy(&n.to_le_bytes(), 0, 4, room, at);
}
