//! What a protocol reads and writes by itself.

ghost use Rattle.std.specs.Prelude.{◌≡◌, ◌<◌, ◌^◌, ◌++◌, OnOk, OnErr, length};
ghost use Rattle.thrift_value.specs.TreeOf.{tree_of};
ghost use Rattle.wire_model.specs.Answering.{AnswersExactly};
ghost use Rattle.wire_walk.specs.Steps.{field_header_of, Grows};

use crate::header::Header;
use crate::input::Input;
use std::alloc::AllocError;
use thrift_value::{Tag, Value, WireFault};
use wire_model::WireProtocol;

/// A protocol that reads and writes: the parts of a value that hold no other values. Each reader answers what it found
/// in front and what is left, and takes no memory: a length or size that is above what is left, or below 0, is Short or
/// BadSize whatever memory there is.
pub trait Codec: WireProtocol {
    /// The header behind the field `last`, 0 at the first.
    fn field<'a>(last: i16, rest: Input<'a>) -> Result<(Header, Input<'a>), WireFault>
        ensures { AnswersExactly (λ r. (field_header_of r.0, r.1)) result (Self.wire.field last rest.entry) };

    /// A number or a bool.
    fn scalar<'a>(tag: Tag, rest: Input<'a>) -> Result<(Value, Input<'a>), WireFault>
        ensures { AnswersExactly (λ r. (tree_of r.0, r.1)) result (Self.wire.scalar tag rest.entry) };

    /// A text.
    fn span<'a>(rest: Input<'a>) -> Result<(&'a [u8], Input<'a>), WireFault>
        ensures { AnswersExactly (λ r. (r.0.now, r.1)) result (Self.wire.span rest.entry) };

    /// The header of a list or set: the tag of its elements, and their number.
    fn items<'a>(rest: Input<'a>) -> Result<(Tag, usize, Input<'a>), WireFault>
        ensures { AnswersExactly (λ r. ((r.0, r.1), r.2)) result (Self.wire.items rest.entry) };

    /// The header of a map: the tags of its keys and of their values, and the number of its pairs.
    fn pairs<'a>(rest: Input<'a>) -> Result<(Tag, Tag, usize, Input<'a>), WireFault>
        ensures { AnswersExactly (λ r. ((r.0, r.1, r.2), r.3)) result (Self.wire.pairs rest.entry) };

    /// Whether a bool field has its value in its header.
    fn flags() -> bool
        ensures { result ≡ Self.encoder.flags };

    /// Appends a header behind the field `last`.
    fn put_header(last: i16, header: Header, into: &mut Vec<u8>) -> Result<(), AllocError>
        ensures ok { OnOk result (into.new.items ≡ into.old.items ++ Self.encoder.header last (field_header_of header)) }
        ensures err { OnErr result (Grows into.old.items into.new.items) };

    /// Appends a number or a bool.
    fn put_scalar(value: &Value, into: &mut Vec<u8>) -> Result<(), AllocError>
        ensures ok { OnOk result (into.new.items ≡ into.old.items ++ Self.encoder.scalar (tree_of value.now)) }
        ensures err { OnErr result (Grows into.old.items into.new.items) };

    /// Appends a text.
    fn put_span(text: &[u8], into: &mut Vec<u8>) -> Result<(), AllocError>
        requires { length text.now < 2 ^ 31 }
        ensures ok { OnOk result (into.new.items ≡ into.old.items ++ Self.encoder.span text.now) }
        ensures err { OnErr result (Grows into.old.items into.new.items) };

    /// Appends the header of a list or set.
    fn put_items(tag: Tag, count: usize, into: &mut Vec<u8>) -> Result<(), AllocError>
        requires { count < 2 ^ 31 }
        ensures ok { OnOk result (into.new.items ≡ into.old.items ++ Self.encoder.items tag count) }
        ensures err { OnErr result (Grows into.old.items into.new.items) };

    /// Appends the header of a map.
    fn put_pairs(key: Tag, value: Tag, count: usize, into: &mut Vec<u8>) -> Result<(), AllocError>
        requires { count < 2 ^ 31 }
        ensures ok { OnOk result (into.new.items ≡ into.old.items ++ Self.encoder.pairs key value count) }
        ensures err { OnErr result (Grows into.old.items into.new.items) };
}
