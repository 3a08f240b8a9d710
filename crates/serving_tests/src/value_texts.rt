//! Value texts that are read, and the places at which others are refused.

ghost use Rattle.std.specs.Prelude.{◌≤◌};
ghost use Rattle.thrift_value.specs.Measures.{depth_of};
ghost use Rattle.thrift_value.specs.Tidy.{IsTidy};
ghost use Rattle.thrift_value.specs.TreeOf.{tree_of};

use std::alloc::{AllocError, Global};
use std::test::Fail;
use thrift_value::Value;
use value_text::TextFault::{self, At};
use value_text::{VecSink, print, read, read_front, spell};

// A text of each kind of value.
const TEXT: &[u8] = b"{1=map<bytes,i32>{\"a\"=1i},2=set<i16>[1s,2s]}";

// Texts that are read, and printed and spelled to themselves.
const READ: [&[u8]; 14] = [
    TEXT,
    b"true",
    b"-128b",
    b"127b",
    b"-32768s",
    b"2147483647i",
    b"-9223372036854775808l",
    b"d3ff0000000000000",
    b"\"a\\\"\\\\\\x00\\x7f\\xff\"",
    b"{}",
    b"{-32768=0b,0=false,32767=0l}",
    b"list<struct>[{},{}]",
    b"map<struct,list>{{}=list<map>[],{1=0b}=list<i8>[1b,1b]}",
    b"set<bool>[false,true]",
];

// Texts that are none, with the place of the fault.
const REFUSED: [(&[u8], usize); 20] = [
    (b"{1=1i,1=2i}", 7),
    (b"{2=1i,1=2i}", 7),
    (b"{32767=1b,5=1b}", 11),
    (b"{32768=1b}", 5),
    (b"set<bool>[true,false]", 20),
    (b"set<i8>[5b,3b]", 13),
    (b"map<i8,i8>{1b=1b,1b=2b}", 19),
    (b"list<i8>[128b]", 11),
    (b"list<i8>[1s]", 10),
    (b"300b", 3),
    (b"9223372036854775808l", 18),
    (b"-0b", 1),
    (b"01b", 1),
    (b"1i ", 2),
    (b"dABCDEF0123456789", 1),
    (b"\"\\x41\"", 3),
    (b"\"\\x7e\"", 4),
    (b"list<list>[1b]", 11),
    (b"list<in", 6),
    (b"map<i8,i8>{1b,", 13),
];

// Whether a value is printed and spelled as this text.
fn is_told(alloc: Global, value: &Value, text: &[u8]) -> bool
    requires tidy { IsTidy (tree_of value.now) }
    requires levels { depth_of (tree_of value.now) ≤ 64 }
{
    let Ok(printed) = print(alloc, value) else {
        return false;
    };
    let mut out = VecSink::take_from(&mut Vec::new(alloc));
    printed.as_slice() == text && spell(value, &mut out).is_ok() && out.content.as_slice() == text
}

// Whether the value that is read from a text is told as it again.
fn read_again(alloc: Global, text: &[u8]) -> Result<bool, TextFault> {
    match read(alloc, text) {
        Ok(value) => Ok(is_told(alloc, &value, text)),
        Err(fault) => Err(fault),
    }
}

// Lists in lists, as many as there are levels.
fn nested(alloc: Global, levels: u32) -> Result<Vec<u8>, AllocError> {
    let mut text = Vec::new(alloc);
    for _ in 1..levels {
        text.extend_from_slice(b"list<list>[")?;
    }
    text.extend_from_slice(b"list<bool>[]")?;
    for _ in 1..levels {
        text.push(b']')?;
    }
    Ok(text)
}

// Whether as many levels are read as there may be, and one more isn't.
fn are_levels_bounded(alloc: Global) -> Result<bool, AllocError> {
    let most = nested(alloc, 64)?;
    let more = nested(alloc, 65)?;
    let refused = Err(At(64 * 11));
    Ok(
        read_again(alloc, most.as_slice()) == Ok(true)
            && read_again(alloc, more.as_slice()) == refused,
    )
}

#[test]
fn texts_are_read_or_refused(rt: HostRuntime) -> Result<(), Fail> {
    for text in &READ {
        assert!(rt; read_again(rt.alloc(), text) == Ok(true));
    }
    for (text, place) in &REFUSED {
        assert!(rt; read_again(rt.alloc(), text) == Err(At(*place)));
    }
    // A text that only stops too early is refused at its end.
    for size in 0..TEXT.len() {
        let (part, _) = TEXT.split_at(size);
        assert!(rt; read_again(rt.alloc(), part) == Err(At(size)));
    }
    assert!(rt; are_levels_bounded(rt.alloc())?);
    let front = read_front(rt.alloc(), b"ok 5i", 3);
    assert!(rt; matches!(front, Ok((_, 5))));
    Ok(())
}
