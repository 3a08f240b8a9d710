//! Structs read and written, in either protocol. What is refused the program itself shows in rows/.

use crate::apache::{hold, is_read_as, is_read_otherwise};
use crate::{compact_struct_vectors, struct_vectors, uuids};
use binary_codec::read_struct;
use envelope::Protocol;
use std::test::Fail;

// Empty containers with codes of other kinds and of none are of bools: the tree of each, and the place behind it.
const EMPTY: [(&[u8], &[u8], usize); 6] = [
    (b"\x0f\0\x01\x08\0\0\0\0\0", b"{1=list<bool>[]}", 9),
    (b"\x0f\0\x01\x63\0\0\0\0\0..", b"{1=list<bool>[]}", 9),
    (b"\x0f\0\x01\0\0\0\0\0\0", b"{1=list<bool>[]}", 9),
    (b"\x0e\0\x01\xff\0\0\0\0\0", b"{1=set<bool>[]}", 9),
    (b"\x0d\0\x01\x08\x0b\0\0\0\0\0", b"{1=map<bool,bool>{}}", 10),
    (
        b"\x0d\0\x01\x62\x63\0\0\0\0\0.",
        b"{1=map<bool,bool>{}}",
        10,
    ),
];

#[test]
fn structs_of_apache_are_read_and_written_again(rt: HostRuntime) -> Result<(), Fail> {
    for rows in struct_vectors::tables() {
        assert!(rt; hold(Protocol::Binary, rt.alloc(), rows)?);
    }
    for rows in compact_struct_vectors::tables() {
        assert!(rt; hold(Protocol::Compact, rt.alloc(), rows)?);
    }
    assert!(rt; hold(Protocol::Binary, rt.alloc(), &uuids::BINARY)?);
    assert!(rt; hold(Protocol::Compact, rt.alloc(), &uuids::COMPACT)?);
    Ok(())
}

#[test]
fn structs_are_read_otherwise_by_own_choice(rt: HostRuntime) -> Result<(), Fail> {
    for row in &struct_vectors::DIFFERENCES {
        assert!(rt; is_read_otherwise(Protocol::Binary, rt.alloc(), row)?);
    }
    for row in &compact_struct_vectors::DIFFERENCES {
        assert!(rt; is_read_otherwise(Protocol::Compact, rt.alloc(), row)?);
    }
    for (bytes, tree, place) in &EMPTY {
        let read = read_struct(rt.alloc(), bytes, 0);
        assert!(rt; is_read_as(rt.alloc(), read, tree, *place)?);
    }
    Ok(())
}
