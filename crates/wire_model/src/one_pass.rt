//! What a protocol reads at a place of bytes.

ghost use Rattle.std.specs.Prelude.{◌≡◌, ◌≤◌, ◌+◌, ◌-◌, length, take, drop, Ok, IfOk, OnOk};
ghost use Rattle.thrift_value.specs.Measures.{count_of};
ghost use Rattle.thrift_value.specs.Tree.{Tree};
ghost use Rattle.thrift_value.specs.TreeOf.{tree_of};
ghost use Rattle.wire_model.specs.Answering.{AnswersExactly};
ghost use Rattle.wire_model.specs.AtPlace.{ReadsPartAt, HasFlag, left_at, head_of, passed_over};
ghost use Rattle.wire_model.specs.Decoder.{Unread};
ghost use Rattle.wire_model.specs.Place.{most_levels, most_values};
ghost use Rattle.wire_model.specs.Reading.{value};
ghost use Rattle.wire_model.specs.Wire.{IsScalar};

use crate::protocol::WireProtocol;
use thrift_value::{Tag, Value, WireFault};

/// What stands before a field of a struct.
#[derive(Clone, Copy)]
pub enum FieldHead {
    /// The end of the struct.
    Stop,
    /// A field, with its value where the header has it.
    Field {
        id: i16,
        tag: Tag,
        flag: Option<bool>,
    },
}

/// A protocol that is read at places of bytes: the parts of a value that hold no other values, each with the place behind it, and
/// a whole value that is passed over. None of these takes memory, and no number of values is counted for a part.
pub trait Wire: WireProtocol {
    /// The head of a field behind the field `last`, 0 at the first.
    fn field(bytes: &[u8], at: usize, last: i16) -> Result<(FieldHead, usize), WireFault>
        requires { at ≤ length bytes.now }
        ensures read { ReadsPartAt (λ r. head_of r.0) (λ r. r.1) (Self.wire.field last) bytes.now at result }
        ensures flag { IfOk result (λ r. HasFlag Self.encoder.flags r.0) }
        ensures behind { IfOk result (λ r. r.1 ≤ length bytes.now) };

    /// A number or a bool.
    fn scalar(bytes: &[u8], at: usize, tag: Tag) -> Result<(Value, usize), WireFault>
        requires within { at ≤ length bytes.now }
        requires tag { IsScalar tag }
        ensures read { ReadsPartAt (λ r. tree_of r.0) (λ r. r.1) (Self.wire.scalar tag) bytes.now at result }
        ensures behind { IfOk result (λ r. r.1 ≤ length bytes.now) };

    /// A text: where its bytes begin, and the place behind them.
    fn span(bytes: &[u8], at: usize) -> Result<(usize, usize), WireFault>
        requires { at ≤ length bytes.now }
        ensures read { ReadsPartAt (λ r. take (r.1 - r.0) (drop r.0 bytes.now)) (λ r. r.1) Self.wire.span bytes.now at result }
        ensures behind { IfOk result (λ r. (r.0 ≤ r.1) × (r.1 ≤ length bytes.now)) };

    /// The header of a list or set: the tag of its elements, and their number.
    fn items(bytes: &[u8], at: usize) -> Result<(Tag, u32, usize), WireFault>
        requires { at ≤ length bytes.now }
        ensures read { ReadsPartAt (λ r. (r.0, r.1)) (λ r. r.2) Self.wire.items bytes.now at result }
        ensures behind { IfOk result (λ r. r.2 ≤ length bytes.now) };

    /// The header of a map: the tags of its keys and of their values, and the number of its pairs.
    fn pairs(bytes: &[u8], at: usize) -> Result<(Tag, Tag, u32, usize), WireFault>
        requires { at ≤ length bytes.now }
        ensures read { ReadsPartAt (λ r. (r.0, r.1, r.2)) (λ r. r.3) Self.wire.pairs bytes.now at result }
        ensures behind { IfOk result (λ r. r.3 ≤ length bytes.now) };

    /// Passes over a value of a tag, which has this level if it is a struct or container, the outermost being 1: the place behind it,
    /// or the fault that comes first. It counts on by the value and all in it; after a fault the count may be any.
    fn skip(
        bytes: &[u8],
        at: usize,
        tag: Tag,
        level: u32,
        count: &mut u64,
    ) -> Result<usize, WireFault>
        requires within { at ≤ length bytes.now }
        requires level { (1 ≤ level) × (level ≤ most_levels + 1) }
        requires few { count.old ≤ most_values }
        ensures skipped { AnswersExactly (λ place. left_at bytes.now place (most_values - count.new)) result
            (passed_over (value Self.wire (most_levels + 1 - level) tag (left_at bytes.now at (most_values - count.old)))) }
        ensures grown { OnOk result ((x : Tree) (after : Unread)
            → value Self.wire (most_levels + 1 - level) tag (left_at bytes.now at (most_values - count.old)) ≡ Ok (x, after)
            → count.new ≡ count.old + count_of x) }
        ensures behind { IfOk result (λ place. place ≤ length bytes.now) }
        ensures few { OnOk result (count.new ≤ most_values) };
}
