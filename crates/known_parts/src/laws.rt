//! What holds of the definitions.
ghost use Rattle.std.specs.Prelude.{◌≡◌, ◌≤◌, Ok, Some};
ghost use Rattle.thrift_value.specs.declared.tag.Tag.{Tag};
ghost use Rattle.thrift_value.specs.declared.tag.Tag.TheVariants.{Bool as BoolTag};
ghost use Rattle.thrift_value.specs.Measures.{count_of, depth_of};
ghost use Rattle.thrift_value.specs.Tree.{Tree};
ghost use Rattle.schema.specs.PlainKind.{PlainKind};
ghost use Rattle.schema.specs.PlainSchema.{PlainSchema};
ghost use Rattle.wire_model.specs.Decoder.{Unread};
ghost use Rattle.wire_num.specs.Encoded.{AreByteSized};
ghost use Rattle.known_parts.specs.Known.{known};

use wire_model::Wire;

/// What is known of a value is no deeper than the value, and has no more values.
pub fn known_parts_are_smaller()
    ensures depth { (s : PlainSchema) (raw part : Tree) (kind : PlainKind) → known s raw kind ≡ Some part → depth_of part ≤ depth_of raw }
    ensures count { (s : PlainSchema) (raw part : Tree) (kind : PlainKind) → known s raw kind ≡ Some part → count_of part ≤ count_of raw }
{}

/// The header of a container without elements names bools, whatever it says of their type.
pub fn empty_headers_name_bools<W: Wire>()
    ensures items { (before after : Unread) (tag : Tag) → AreByteSized before.bytes → W.wire.items before ≡ Ok ((tag, 0), after) → tag ≡ BoolTag }
    ensures pairs { (before after : Unread) (key value : Tag) → AreByteSized before.bytes → W.wire.pairs before ≡ Ok ((key, value, 0), after)
        → (key ≡ BoolTag) × (value ≡ BoolTag) }
{
    W::parts_agree();
}
