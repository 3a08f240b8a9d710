//! The compact protocol, by its definitions.

use wire_model::WireProtocol;

/// The compact protocol.
pub struct Compact;

impl WireProtocol for Compact {
    ghost use Rattle.compact_codec.specs.Reading.{compact};
    ghost use Rattle.compact_codec.specs.Spelling.{compact_format};
    ghost use Rattle.compact_codec.specs.Written.{compact_encoder};

    ghost wire = { compact };

    ghost format = { compact_format };

    ghost encoder = { compact_encoder };

    fn parts_agree() {}
}
