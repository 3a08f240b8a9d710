//! A protocol, by its definitions and the one law that it owes.

ghost use Rattle.wire_model.specs.Format.{Format};
ghost use Rattle.wire_model.specs.Encoder.{Encoder};
ghost use Rattle.wire_model.specs.Protocol.{IsProtocol};
ghost use Rattle.wire_model.specs.Wire.{Wire};

/// A protocol: how it reads, how it spells, and what it writes.
pub trait WireProtocol {
    // How the parts of a value are read that hold no other values.
    ghost wire: { Wire };

    // Which bytes stand for such a part.
    ghost format: { Format };

    // Which of these bytes are written.
    ghost encoder: { Encoder };

    /// Its parts are read and written as they are spelled.
    fn parts_agree()
        ensures { IsProtocol Self.wire Self.format Self.encoder };
}
