//! The words in front of a method, put together from behind so that a sink takes them at once.

ghost use Rattle.std.specs.Prelude.{◌≡◌, ◌+◌, ◌<◌, ◌≤◌, [], ◌∷◌, ◌++◌, drop, false, length, true};
ghost use Rattle.text_out.specs.Decimal.{natural_of};
ghost use Rattle.journal_text.specs.EntryText.{next_word, call_word, front_text};

use call_rules::{Call, Key};
use itoa::write_digits;

/// How many bytes these words take at most: three numbers of twenty digits with their blanks, the first word, and a blank behind.
pub(crate) const MOST_FRONT: usize = 70;

/// Puts the words in front of the method, and the blank behind them, at the end of a room; answers where they begin.
pub(crate) fn put_front(room: &mut [u8], key: &Key, call: &Call) -> usize
    requires { length room.old ≡ 70 }
    ensures put { drop result room.new ≡ front_text call.now.silent key.now call.now.slot ++ 32 ∷ [] }
    ensures bound { result ≤ 70 }
{
    let end = put_byte(room, MOST_FRONT, b' ');
    let slot = put_number(room, end, u64::from(call.slot));
    let number = put_number(room, slot, key.i);
    let connection = put_number(room, number, u64::from(key.c));
    put_word(room, connection, call.silent)
}

/// Puts the first word in front of what ends the room.
fn put_word(room: &mut [u8], end: usize, silent: bool) -> usize
    requires { 6 ≤ end × end ≤ length room.old }
    ensures put { drop result room.new ≡ call_word silent ++ drop end room.old }
    ensures bound { result ≤ end }
{
    if silent {
        return put_oneway(room, end);
    }
    put_call(room, end)
}

fn put_call(room: &mut [u8], end: usize) -> usize
    requires { 4 ≤ end × end ≤ length room.old }
    ensures put { drop result room.new ≡ call_word false ++ drop end room.old }
    ensures bound { result ≤ end }
{
    let end = put_byte(room, end, b'l');
    let end = put_byte(room, end, b'l');
    let end = put_byte(room, end, b'a');
    put_byte(room, end, b'c')
}

fn put_oneway(room: &mut [u8], end: usize) -> usize
    requires { 6 ≤ end × end ≤ length room.old }
    ensures put { drop result room.new ≡ call_word true ++ drop end room.old }
    ensures bound { result ≤ end }
{
    let end = put_byte(room, end, b'y');
    let end = put_byte(room, end, b'a');
    let end = put_byte(room, end, b'w');
    let end = put_byte(room, end, b'e');
    let end = put_byte(room, end, b'n');
    put_byte(room, end, b'o')
}

/// Puts a blank and a number there.
#[tactic(auto, using(crate::proofs::FrontRoom::short))]
fn put_number(room: &mut [u8], end: usize, n: u64) -> usize
    requires { 21 ≤ end × end ≤ length room.old }
    ensures put { drop result room.new ≡ next_word (natural_of n) ++ drop end room.old }
    ensures most { end ≤ result + 21 }
    ensures bound { result ≤ end }
{
    let start = write_digits(n, room, end);
    put_byte(room, start, b' ')
}

/// Puts a byte there.
fn put_byte(room: &mut [u8], end: usize, byte: u8) -> usize
    requires { 0 < end × end ≤ length room.old }
    ensures put { drop result room.new ≡ byte ∷ drop end room.old }
    ensures place { result + 1 ≡ end }
{
    let at = end - 1;
    room[at] = byte;
    at
}
