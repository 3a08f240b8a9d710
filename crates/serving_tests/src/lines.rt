//! The lines of entries.

use crate::entries::ping;
use call_rules::{Answer, Call, Entry, Key};
use journal_text::{print_entry, put_entry, read_entry};
use std::alloc::{AllocError, Global};
use std::test::Fail;
use thrift_value::{ByteText, Fields, Value};
use value_text::TextFault;

const LINES: [&[u8]; 5] = [
    b"call 0 0 0 ping {} empty\n",
    b"call 0 1 0 add {1=1i,2=-2i} ok -1i\n",
    b"oneway 0 2 0 zip {} empty\n",
    b"call 0 3 0 calculate {1=1i,2=0i} throws 1 {1=4i,2=0i}\n",
    b"call 0 18446744073709551615 0 add_ {} broken\n",
];

// Lines of no entry, with the place of the fault.
const REFUSED: [(&[u8], usize); 12] = [
    (b"", 0),
    (b"calls 0 0 0 p {} empty\n", 4),
    (b"one way 0 0 0 p {} empty\n", 3),
    (b"call 01 0 0 p {} empty\n", 6),
    (b"call 4294967296 0 0 p {} empty\n", 14),
    (b"call 0 0 0  {} empty\n", 11),
    (b"call 0 0 0 p 1i empty\n", 13),
    (b"call 0 0 0 p {} ok\n", 18),
    (b"call 0 0 0 p {} throws 32768 {}\n", 27),
    (b"call 0 0 0 p {} empty", 21),
    (b"call 0 0 0 p {} empty \n", 21),
    (b"call 0 0 0 p {} empty\n\n", 22),
];

// The method of each line.
fn method(number: usize) -> &'static [u8] {
    match number {
        0 => b"ping",
        1 => b"add",
        2 => b"zip",
        3 => b"calculate",
        _ => b"add_",
    }
}

// A struct of these fields, which are numbers.
fn numbers(alloc: Global, fields: &[(i16, i32)]) -> Result<Value, AllocError> {
    let mut values = Vec::new(alloc);
    for (id, number) in fields {
        values.push((*id, Value::I32(*number)))?;
    }
    Ok(Value::Struct(Fields::new(values)))
}

// The arguments of each line.
fn arguments(alloc: Global, number: usize) -> Result<Value, AllocError> {
    match number {
        1 => numbers(alloc, &[(1, 1), (2, -2)]),
        3 => numbers(alloc, &[(1, 1), (2, 0)]),
        _ => numbers(alloc, &[]),
    }
}

// The answer of each line.
fn answer(alloc: Global, number: usize) -> Result<Answer, AllocError> {
    match number {
        1 => Ok(Answer::Success(Value::I32(-1))),
        3 => Ok(Answer::Throws(1, numbers(alloc, &[(1, 4), (2, 0)])?)),
        4 => Ok(Answer::Broken),
        _ => Ok(Answer::Empty),
    }
}

// The entry of each line.
fn row(alloc: Global, number: usize) -> Result<Entry, AllocError> {
    let method = method(number).to_vec(alloc)?;
    let args = arguments(alloc, number)?;
    let call = Call {
        slot: 0,
        method: ByteText::new(method),
        args,
        silent: number == 2,
    };
    let i = if number < 4 { number as u64 } else { u64::MAX };
    match answer(alloc, number) {
        Ok(answer) => Ok(Entry {
            key: Key { c: 0, i },
            call,
            answer,
        }),
        Err(full) => Err(full),
    }
}

// Whether an entry has this line.
fn is_line_of(alloc: Global, entry: &Entry, line: &[u8]) -> bool {
    let mut text = Vec::new(alloc);
    put_entry(&mut text, entry).is_ok() && text.as_slice() == line
}

// Whether a row's entry has this line.
fn is_printed(alloc: Global, number: usize, line: &[u8]) -> bool {
    match row(alloc, number) {
        Ok(entry) => is_line_of(alloc, &entry, line),
        Err(_) => false,
    }
}

// The line of a call without arguments.
fn ping_line(alloc: Global) -> Result<Vec<u8>, AllocError> {
    match ping(alloc, 0) {
        Ok(entry) => print_entry(alloc, &entry),
        Err(full) => Err(full),
    }
}

fn is_ping(alloc: Global, line: &[u8]) -> Result<bool, AllocError> {
    let text = ping_line(alloc)?;
    Ok(text.as_slice() == line)
}

// Whether the entry that is read from a line has it.
fn read_again(alloc: Global, line: &[u8]) -> Result<bool, TextFault> {
    match read_entry(alloc, line) {
        Ok(entry) => Ok(is_line_of(alloc, &entry, line)),
        Err(fault) => Err(fault),
    }
}

// Whether a line is refused at a place.
fn is_refused(alloc: Global, line: &[u8], place: usize) -> bool {
    match read_again(alloc, line) {
        Err(TextFault::At(found)) => found == place,
        _ => false,
    }
}

#[test]
fn lines_are_read(rt: HostRuntime) {
    for line in &LINES {
        assert!(rt; matches!(read_again(rt.alloc(), line), Ok(true)));
    }
    for (line, place) in &REFUSED {
        assert!(rt; is_refused(rt.alloc(), line, *place));
    }
}

#[test]
fn entries_have_their_lines(rt: HostRuntime) -> Result<(), Fail> {
    for (number, line) in LINES.iter().enumerate() {
        assert!(rt; is_printed(rt.alloc(), number, line));
    }
    assert!(rt; is_ping(rt.alloc(), b"call 0 0 0 p {} empty\n")?);
    Ok(())
}
