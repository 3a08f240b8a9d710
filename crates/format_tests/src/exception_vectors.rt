//! Exceptions as Apache Thrift's own library writes and reads them. Printed by bench/vectors/exception_vectors.py, which says how.

/// The bytes of the message; the name, the sequence id, the text and the code.
pub(crate) type Row = (&'static [u8], &'static [u8], i32, &'static [u8], i32);

/// In the binary protocol.
pub(crate) const BINARY: [Row; 12] = [
    (
        b"\x80\x01\x00\x03\x00\x00\x00\x03foo\x00\x00\x00\x05\x0b\x00\x01\x00\x00\x00\x1aInvalid method name: 'foo'\x08\x00\x02\x00\x00\x00\x01\x00",
        b"foo",
        5,
        b"Invalid method name: 'foo'",
        1,
    ),
    (
        b"\x80\x01\x00\x03\x00\x00\x00\x03add\x00\x00\x00\x01\x0b\x00\x01\x00\x00\x00\x1eService name not found: Nobody\x08\x00\x02\x00\x00\x00\x01\x00",
        b"add",
        1,
        b"Service name not found: Nobody",
        1,
    ),
    (
        b"\x80\x01\x00\x03\x00\x00\x00\x01f\x00\x00\x00\x01\x0b\x00\x01\x00\x00\x00\x18Bad arguments: Missing x\x08\x00\x02\x00\x00\x00\x07\x00",
        b"f",
        1,
        b"Bad arguments: Missing x",
        7,
    ),
    (
        b"\x80\x01\x00\x03\x00\x00\x00\x09calculate\xff\xff\xff\xff\x0b\x00\x01\x00\x00\x00#Internal error processing calculate\x08\x00\x02\x00\x00\x00\x06\x00",
        b"calculate",
        -1,
        b"Internal error processing calculate",
        6,
    ),
    (
        b"\x80\x01\x00\x03\x00\x00\x00\x04keys\x7f\xff\xff\xff\x0b\x00\x01\x00\x00\x00\x12Reply is too large\x08\x00\x02\x00\x00\x00\x06\x00",
        b"keys",
        2147483647,
        b"Reply is too large",
        6,
    ),
    (
        b"\x80\x01\x00\x03\x00\x00\x00\x00\x00\x00\x00\x00\x0b\x00\x01\x00\x00\x00\x00\x08\x00\x02\x00\x00\x00\x00\x00",
        b"",
        0,
        b"",
        0,
    ),
    (
        b"\x80\x01\x00\x03\x00\x00\x00\x01x\x80\x00\x00\x00\x0b\x00\x01\x00\x00\x00\x01y\x08\x00\x02\xff\xff\xff\xff\x00",
        b"x",
        -2147483648,
        b"y",
        -1,
    ),
    (
        b"\x80\x01\x00\x03\x00\x00\x00\x7fnnnnnnnnnnnnnnnnnnnnnnnnnnnnnnnnnnnnnnnnnnnnnnnnnnnnnnnnnnnnnnnnnnnnnnnnnnnnnnnnnnnnnnnnnnnnnnnnnnnnnnnnnnnnnnnnnnnnnnnnnnnnnnn\x00\x00\x00\x7f\x0b\x00\x01\x00\x00\x00\x80tttttttttttttttttttttttttttttttttttttttttttttttttttttttttttttttttttttttttttttttttttttttttttttttttttttttttttttttttttttttttttttttt\x08\x00\x02\x00\x00\x00?\x00",
        b"nnnnnnnnnnnnnnnnnnnnnnnnnnnnnnnnnnnnnnnnnnnnnnnnnnnnnnnnnnnnnnnnnnnnnnnnnnnnnnnnnnnnnnnnnnnnnnnnnnnnnnnnnnnnnnnnnnnnnnnnnnnnnnn",
        127,
        b"tttttttttttttttttttttttttttttttttttttttttttttttttttttttttttttttttttttttttttttttttttttttttttttttttttttttttttttttttttttttttttttttt",
        63,
    ),
    (
        b"\x80\x01\x00\x03\x00\x00\x00\x80nnnnnnnnnnnnnnnnnnnnnnnnnnnnnnnnnnnnnnnnnnnnnnnnnnnnnnnnnnnnnnnnnnnnnnnnnnnnnnnnnnnnnnnnnnnnnnnnnnnnnnnnnnnnnnnnnnnnnnnnnnnnnnnn\x00\x00\x00\x80\x0b\x00\x01\x00\x00\x00\x7fttttttttttttttttttttttttttttttttttttttttttttttttttttttttttttttttttttttttttttttttttttttttttttttttttttttttttttttttttttttttttttttt\x08\x00\x02\x00\x00\x00@\x00",
        b"nnnnnnnnnnnnnnnnnnnnnnnnnnnnnnnnnnnnnnnnnnnnnnnnnnnnnnnnnnnnnnnnnnnnnnnnnnnnnnnnnnnnnnnnnnnnnnnnnnnnnnnnnnnnnnnnnnnnnnnnnnnnnnnn",
        128,
        b"ttttttttttttttttttttttttttttttttttttttttttttttttttttttttttttttttttttttttttttttttttttttttttttttttttttttttttttttttttttttttttttttt",
        64,
    ),
    (
        b"\x80\x01\x00\x03\x00\x00\x00\x03zip\x00\x00\x01,\x0b\x00\x01\x00\x00\x00\x10a \x22quoted\x22 text\x0a\x08\x00\x02\xff\xff\xff\xbf\x00",
        b"zip",
        300,
        b"a \x22quoted\x22 text\x0a",
        -65,
    ),
    (
        b"\x80\x01\x00\x03\x00\x00\x00\x01m\xff\xff\xff\xfe\x0b\x00\x01\x00\x00\x01,tttttttttttttttttttttttttttttttttttttttttttttttttttttttttttttttttttttttttttttttttttttttttttttttttttttttttttttttttttttttttttttttttttttttttttttttttttttttttttttttttttttttttttttttttttttttttttttttttttttttttttttttttttttttttttttttttttttttttttttttttttttttttttttttttttttttttttttttttttttttttttttttttttttttttttt\x08\x00\x02\x7f\xff\xff\xff\x00",
        b"m",
        -2,
        b"tttttttttttttttttttttttttttttttttttttttttttttttttttttttttttttttttttttttttttttttttttttttttttttttttttttttttttttttttttttttttttttttttttttttttttttttttttttttttttttttttttttttttttttttttttttttttttttttttttttttttttttttttttttttttttttttttttttttttttttttttttttttttttttttttttttttttttttttttttttttttttttttttttttttttttt",
        2147483647,
    ),
    (
        b"\x80\x01\x00\x03\x00\x00\x00\x04long\x00\x00@\x00\x0b\x00\x01\x00\x00\x00\x01w\x08\x00\x02\x80\x00\x00\x00\x00",
        b"long",
        16384,
        b"w",
        -2147483648,
    ),
];

/// In the compact protocol.
pub(crate) const COMPACT: [Row; 12] = [
    (
        b"\x82a\x05\x03foo\x18\x1aInvalid method name: 'foo'\x15\x02\x00",
        b"foo",
        5,
        b"Invalid method name: 'foo'",
        1,
    ),
    (
        b"\x82a\x01\x03add\x18\x1eService name not found: Nobody\x15\x02\x00",
        b"add",
        1,
        b"Service name not found: Nobody",
        1,
    ),
    (
        b"\x82a\x01\x01f\x18\x18Bad arguments: Missing x\x15\x0e\x00",
        b"f",
        1,
        b"Bad arguments: Missing x",
        7,
    ),
    (
        b"\x82a\xff\xff\xff\xff\x0f\x09calculate\x18#Internal error processing calculate\x15\x0c\x00",
        b"calculate",
        -1,
        b"Internal error processing calculate",
        6,
    ),
    (
        b"\x82a\xff\xff\xff\xff\x07\x04keys\x18\x12Reply is too large\x15\x0c\x00",
        b"keys",
        2147483647,
        b"Reply is too large",
        6,
    ),
    (b"\x82a\x00\x00\x18\x00\x15\x00\x00", b"", 0, b"", 0),
    (
        b"\x82a\x80\x80\x80\x80\x08\x01x\x18\x01y\x15\x01\x00",
        b"x",
        -2147483648,
        b"y",
        -1,
    ),
    (
        b"\x82a\x7f\x7fnnnnnnnnnnnnnnnnnnnnnnnnnnnnnnnnnnnnnnnnnnnnnnnnnnnnnnnnnnnnnnnnnnnnnnnnnnnnnnnnnnnnnnnnnnnnnnnnnnnnnnnnnnnnnnnnnnnnnnnnnnnnnnn\x18\x80\x01tttttttttttttttttttttttttttttttttttttttttttttttttttttttttttttttttttttttttttttttttttttttttttttttttttttttttttttttttttttttttttttttt\x15~\x00",
        b"nnnnnnnnnnnnnnnnnnnnnnnnnnnnnnnnnnnnnnnnnnnnnnnnnnnnnnnnnnnnnnnnnnnnnnnnnnnnnnnnnnnnnnnnnnnnnnnnnnnnnnnnnnnnnnnnnnnnnnnnnnnnnnn",
        127,
        b"tttttttttttttttttttttttttttttttttttttttttttttttttttttttttttttttttttttttttttttttttttttttttttttttttttttttttttttttttttttttttttttttt",
        63,
    ),
    (
        b"\x82a\x80\x01\x80\x01nnnnnnnnnnnnnnnnnnnnnnnnnnnnnnnnnnnnnnnnnnnnnnnnnnnnnnnnnnnnnnnnnnnnnnnnnnnnnnnnnnnnnnnnnnnnnnnnnnnnnnnnnnnnnnnnnnnnnnnnnnnnnnnn\x18\x7fttttttttttttttttttttttttttttttttttttttttttttttttttttttttttttttttttttttttttttttttttttttttttttttttttttttttttttttttttttttttttttttt\x15\x80\x01\x00",
        b"nnnnnnnnnnnnnnnnnnnnnnnnnnnnnnnnnnnnnnnnnnnnnnnnnnnnnnnnnnnnnnnnnnnnnnnnnnnnnnnnnnnnnnnnnnnnnnnnnnnnnnnnnnnnnnnnnnnnnnnnnnnnnnnn",
        128,
        b"ttttttttttttttttttttttttttttttttttttttttttttttttttttttttttttttttttttttttttttttttttttttttttttttttttttttttttttttttttttttttttttttt",
        64,
    ),
    (
        b"\x82a\xac\x02\x03zip\x18\x10a \x22quoted\x22 text\x0a\x15\x81\x01\x00",
        b"zip",
        300,
        b"a \x22quoted\x22 text\x0a",
        -65,
    ),
    (
        b"\x82a\xfe\xff\xff\xff\x0f\x01m\x18\xac\x02tttttttttttttttttttttttttttttttttttttttttttttttttttttttttttttttttttttttttttttttttttttttttttttttttttttttttttttttttttttttttttttttttttttttttttttttttttttttttttttttttttttttttttttttttttttttttttttttttttttttttttttttttttttttttttttttttttttttttttttttttttttttttttttttttttttttttttttttttttttttttttttttttttttttttttt\x15\xfe\xff\xff\xff\x0f\x00",
        b"m",
        -2,
        b"tttttttttttttttttttttttttttttttttttttttttttttttttttttttttttttttttttttttttttttttttttttttttttttttttttttttttttttttttttttttttttttttttttttttttttttttttttttttttttttttttttttttttttttttttttttttttttttttttttttttttttttttttttttttttttttttttttttttttttttttttttttttttttttttttttttttttttttttttttttttttttttttttttttttttttt",
        2147483647,
    ),
    (
        b"\x82a\x80\x80\x01\x04long\x18\x01w\x15\xff\xff\xff\xff\x0f\x00",
        b"long",
        16384,
        b"w",
        -2147483648,
    ),
];
