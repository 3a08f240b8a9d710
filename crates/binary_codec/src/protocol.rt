//! The binary protocol, by its definitions.

use wire_model::WireProtocol;

/// The binary protocol.
pub struct Binary;

impl WireProtocol for Binary {
    ghost use Rattle.binary_codec.specs.Reading.{binary};
    ghost use Rattle.binary_codec.specs.Spelling.{binary_format};
    ghost use Rattle.binary_codec.specs.Written.{binary_encoder};

    ghost wire = { binary };

    ghost format = { binary_format };

    ghost encoder = { binary_encoder };

    fn parts_agree() {}
}
