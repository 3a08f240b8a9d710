//! Laws of reading and writing, for each protocol.

ghost use Rattle.std.specs.Prelude.{◌≡◌, ◌≤◌, ◌+◌, ◌-◌, ℕ, List, ◌++◌, [], length, Ok, Err};
ghost use Rattle.thrift_value.specs.declared.tag.Tag.{Tag};
ghost use Rattle.thrift_value.specs.declared.wire_fault.WireFault.{WireFault};
ghost use Rattle.thrift_value.specs.declared.wire_fault.WireFault.TheVariants.{Short};
ghost use Rattle.thrift_value.specs.Measures.{depth_of, count_of};
ghost use Rattle.thrift_value.specs.Plain.{plain};
ghost use Rattle.thrift_value.specs.Ranges.{IsInRange};
ghost use Rattle.thrift_value.specs.Tags.{tag_of};
ghost use Rattle.thrift_value.specs.Tidy.{IsWellTagged};
ghost use Rattle.thrift_value.specs.Tree.{Tree};
ghost use Rattle.wire_model.specs.Format.{Spells};
ghost use Rattle.wire_model.specs.Answering.{AnswersOrNoMemory};
ghost use Rattle.wire_model.specs.Place.{struct_at, IsWithinBounds, IsEncodedAt, TakenOff};
ghost use Rattle.wire_num.specs.Encoded.{AreByteSized};
ghost use Rattle.wire_model.specs.Protocol.{and_more};
ghost use Rattle.wire_model.specs.Decoder.{Unread};
ghost use Rattle.wire_model.specs.Reading.{value};
ghost use Rattle.wire_model.specs.Encoder.{text};
ghost use Rattle.thrift_value.specs.Sizes.{HasSmallSizes};

use crate::protocol::WireProtocol;
use thrift_value::plain_value_is_alike;

/// What is read of a value is spelled there, in no fewer bytes than it has values.
pub fn value_read_is_spelled<P: WireProtocol>()
    ensures { (levels : ℕ) (tag : Tag) (before after : Unread) (x : Tree) → AreByteSized before.bytes
        → value P.wire levels tag before ≡ Ok (x, after) → TakenOff P.format levels tag x before after }
{
    P::parts_agree();
}

/// What is spelled and within the bounds is read, whatever follows.
pub fn value_spelled_is_read<P: WireProtocol>()
    ensures { (levels left : ℕ) (x : Tree) (spelling more : List ℕ) → Spells P.format x spelling
        → depth_of x ≤ levels → count_of x ≤ left
        → value P.wire levels (tag_of x) (record { bytes = spelling ++ more; budget = left })
        ≡ Ok (x, record { bytes = more; budget = left - count_of x }) }
{
    P::parts_agree();
}

/// The struct that is read at a place is spelled there, and is within the bounds.
pub fn struct_read_is_spelled<P: WireProtocol>()
    ensures { (bytes : List ℕ) (at : ℕ) (x : Tree) (behind : ℕ) → AreByteSized bytes → at ≤ length bytes
        → struct_at P.wire bytes at ≡ Ok (x, behind)
        → IsEncodedAt P.format bytes at x behind × IsWithinBounds x × (behind ≤ length bytes) × (at + count_of x ≤ behind) }
{
    P::parts_agree();
}

/// The struct that is spelled at a place, within the bounds, is read there.
pub fn struct_spelled_is_read<P: WireProtocol>()
    ensures { (bytes : List ℕ) (at : ℕ) (x : Tree) (behind : ℕ)
        → IsEncodedAt P.format bytes at x behind → IsWithinBounds x → struct_at P.wire bytes at ≡ Ok (x, behind) }
{
    P::parts_agree();
}

/// Of two values of one tag no spelling goes on where the other one ends, and no two have the same spelling.
pub fn no_spelling_goes_on<P: WireProtocol>()
    ensures { (x y : Tree) (spelling more : List ℕ) → tag_of x ≡ tag_of y
        → Spells P.format x spelling → Spells P.format y (spelling ++ more) → (x ≡ y) × (more ≡ []) }
{
    P::parts_agree();
}

/// What is spelled is a raw value in its plain form: the elements have the tags that are named, and empty containers have
/// the tag bool.
pub fn spelled_value_is_raw<P: WireProtocol>()
    ensures { (x : Tree) (spelling : List ℕ) → Spells P.format x spelling
        → IsWellTagged x × IsInRange x × HasSmallSizes x × (plain x ≡ x) }
{
    P::parts_agree();
}

/// What is written of a value is a spelling of its plain form.
pub fn written_is_spelled<P: WireProtocol>()
    ensures { (x : Tree) → IsWellTagged x → IsInRange x → HasSmallSizes x
        → Spells P.format (plain x) (text P.encoder x) }
{
    P::parts_agree();
    plain_value_is_alike();
}

/// What is written of a struct is read as its plain form, whatever stands before it and follows.
pub fn written_is_read<P: WireProtocol>()
    ensures { (x : Tree) (front more : List ℕ) → IsWellTagged x → IsInRange x → HasSmallSizes x
        → IsWithinBounds x → struct_at P.wire (front ++ (text P.encoder x ++ more)) (length front)
        ≡ Ok (plain x, length front + length (text P.encoder x)) }
{
    P::parts_agree();
    plain_value_is_alike();
}

/// A fault other than Short stays, whatever follows the bytes.
pub fn fault_stays<P: WireProtocol>()
    ensures { (levels : ℕ) (tag : Tag) (unread : Unread) (more : List ℕ) (fault : WireFault)
        → value P.wire levels tag unread ≡ Err fault → (fault ≡ Short → ⊥) → value P.wire levels tag (and_more more unread) ≡ Err fault }
{
    P::parts_agree();
}

/// The fault of a struct at a place, if it isn't Short, stays, whatever follows the bytes.
pub fn struct_fault_stays<P: WireProtocol>()
    ensures { (bytes more : List ℕ) (at : ℕ) (fault : WireFault) → at ≤ length bytes
        → struct_at P.wire bytes at ≡ Err fault → (fault ≡ Short → ⊥) → struct_at P.wire (bytes ++ more) at ≡ Err fault }
{
    P::parts_agree();
}
