// The values of variables by address: FIXED numbers in `cells`, CHARACTER values in `low` and `high` with their lengths in
// `cells`. Whatever reads or writes a value goes through here.
#![tactic(auto)]

ghost use Rattle.std.specs.Prelude.{◌≡◌, [], ◌∷◌, ◌+◌};
ghost use Rattle.definition.specs.Lists.{part};
ghost use Rattle.definition.specs.Room.{over};
ghost use Rattle.definition.specs.declared.ValueType.TheVariants.{FixedType};
ghost use Rattle.fixed.specs.Signed.{stored_of};
ghost use Rattle.store.specs.Cells.{cell_in, number_cell, slot, half, LengthAt, Stored};

use fixed::Fixed;
use limits::Value;
use rooms::{copy, number32, put_number32};

// The value of a FIXED variable.
pub fn number_at(cells: &[u32], a: u16) -> Option<Fixed>
    ensures { number_cell result ≡ cell_in cells.now [] [] FixedType a }
{
    Fixed::from_stored(number32(cells, usize::from(a), 0)).ok()
}

// The length of the value of a CHARACTER variable, stored as one more; 0 is none.
pub fn characters_at(cells: &[u32], a: u16) -> Option<u32>
    ensures { LengthAt cells.now a result }
{
    number32(cells, usize::from(a), 0).checked_sub(1)
}

// Where the characters of an address stand in their room.
fn slot_place(a: u16) -> usize
    ensures { result ≡ slot a }
{
    let k = if a < 128 { a } else { a - 128 };
    Value::LONGEST * usize::from(k)
}

// Copies n bytes of the value of an address into a room.
pub fn copy_characters(low: &[u8], high: &[u8], a: u16, n: usize, room: &mut [u8], at: usize)
    ensures { room.new ≡ over room.old at (part n (slot a) (half a low.now high.now)) }
{
    let half = if a < 128 { low } else { high };
    copy(half, slot_place(a), n, room, at);
}

// Stores a number in a FIXED variable.
pub fn store_number(cells: &mut [u32], a: u16, x: Fixed)
    ensures { cells.new ≡ over cells.old (a + 0) (stored_of x.value ∷ []) }
{
    put_number32(cells, usize::from(a), 0, x.stored());
}

// Stores n bytes of a room, from a place on, in a CHARACTER variable.
pub fn store_characters(
    cells: &mut [u32],
    low: &mut [u8],
    high: &mut [u8],
    a: u16,
    room: &[u8],
    at: usize,
    n: u16,
)
    ensures { Stored cells.old low.old high.old a (part n at room.now) cells.new low.new high.new }
{
    put_number32(cells, usize::from(a), 0, u32::from(n) + 1);
    // stays: to choose one of two `&mut` by a condition, and then to copy once, gets no proof.
    let to = slot_place(a);
    if a < 128 {
        copy(room, at, usize::from(n), low, to);
    } else {
        copy(room, at, usize::from(n), high, to);
    }
}
