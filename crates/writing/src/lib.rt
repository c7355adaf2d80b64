// What the programs share: their arguments and their input, rooms as large as they lend them, saying something on standard error,
// and writing what is printed of an answer, the six numbers, the lines, the text and a line feed. It goes out piece by piece, so
// that no page has to be as long as an answer can be.
#![tactic(auto)]

ghost use Rattle.std.specs.Prelude.{◌≡◌, ◌≤◌, length, take};
ghost use Rattle.std.specs.Io.KnownBytes.{Consumes};

use printing::{put_lines, put_numbers, used};
use rooms::number32;
use std::env::FillError;
use std::io::Read;
use std::rt::Env;

// How many arguments there are; argument 0 is the program's own name.
pub fn argument_count(env: &impl Env) -> usize {
    let mut room = [0u8; 1];
    for i in 0..usize::MAX {
        if let Err(FillError::NotPresent) = env.arg(i, &mut room) {
            return i;
        }
    }
    usize::MAX
}

// Puts argument i at the start of the room, and answers its length, or 0 where there is none or it does not fit.
pub fn argument(env: &impl Env, i: usize, room: &mut [u8]) -> usize
    ensures { result ≤ length room.new }
{
    env.arg(i, room).unwrap_or(0)
}

// Reads until the room is full, the input ends or a read fails, and answers how many bytes it put at the start of the room: the next
// of the input, in their order.
pub fn read_full<R: Read>(input: &mut R, room: &mut [u8]) -> usize
    ensures within { result ≤ length room.new }
    ensures bytes { Consumes (R.remaining input.old) (R.remaining input.new) (take result room.new) }
{
    let mut done = 0;
    while done < room.len() {
        match input.read(&mut room[done..]) {
            Ok(0) | Err(_) => {
                return done;
            }
            Ok(n) => {
                done += n;
            }
        }
    }
    done
}

// A text room or a list room; what is asked for is a part of it. Its length alone is told, so that no proof counts its bytes.
pub fn large_room() -> [u8; 1_048_576]
    ensures { 1048576 ≡ length result }
{
    [0; 1_048_576]
}

// As many lines as go out at once; a line has at most 35 bytes.
const LINES: u32 = 256;

const PAGE: usize = 8_960;

// Writes to standard error; where that fails there is nowhere to say so.
pub fn say(log: &impl Print, words: &[u8]) {
    let _ = log.write_all(words);
}

// Whether all of the bytes were written.
fn is_written(out: &impl Print, bytes: &[u8]) -> bool {
    out.write_all(bytes).is_ok()
}

fn write_lines(out: &impl Print, page: &mut [u8], list: &[u8], lines: u32) -> bool {
    for first in (0..lines).step_by(LINES as usize) {
        let end = first.saturating_add(LINES).min(lines);
        let n = put_lines(page, list, first, end);
        if !is_written(out, used(page, n)) {
            return false;
        }
    }
    true
}

fn write_numbers(out: &impl Print, page: &mut [u8], numbers: &[u32]) -> bool {
    let n = put_numbers(page, numbers);
    is_written(out, used(page, n))
}

// Writes the answer of six numbers with the rooms that hold its text and list: whether all of it was written.
pub fn write_answer(out: &impl Print, numbers: &[u32], text: &[u8], list: &[u8]) -> bool {
    let mut page = [0u8; PAGE];
    write_numbers(out, &mut page, numbers)
        && write_lines(out, &mut page, list, number32(numbers, 0, 5))
        && is_written(out, used(text, number32(numbers, 0, 4) as usize))
        && is_written(out, b"\n")
}
