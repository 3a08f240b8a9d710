//! The struct of an exception is what the codecs write and read.

ghost use Rattle.std.specs.Prelude.{◌≡◌, ◌+◌, ◌++◌, ℕ, ℤ, List, length};
ghost use Rattle.envelope.specs.declared.head.Protocol.{Protocol};
ghost use Rattle.envelope.specs.Exception.{Failure, failure_struct, exception_head, exception_text};
ghost use Rattle.wire_model.specs.Encoder.{text};
ghost use Rattle.wire_model.specs.Place.{found_struct, struct_at};
ghost use Rattle.call_model.specs.Arguments.{wire_of};
ghost use Rattle.call_model.specs.FailureValues.{failure_value, FitsFailure};
ghost use Rattle.call_model.specs.Replies.{encoder_of};

use wire_model::laws::written_is_read;

/// The struct of a failure is what is written of its value, in both protocols.
pub fn failures_are_written()
    ensures { (p : Protocol) (failure : Failure) → failure_struct p failure ≡ text (encoder_of p) (failure_value failure) }
{}

/// It is read as that value, whatever stands before it and follows. So behind the head of an exception the failure is read, and
/// nothing is left.
pub fn failures_are_read()
    ensures anywhere { (p : Protocol) (failure : Failure) (front more : List ℕ) → FitsFailure failure
        → struct_at (wire_of p) (front ++ (failure_struct p failure ++ more)) (length front)
        ≡ found_struct (failure_value failure) (length front + length (failure_struct p failure)) }
    ensures whole { (p : Protocol) (name : List ℕ) (id : ℤ) (failure : Failure) → FitsFailure failure
        → struct_at (wire_of p) (exception_text p name id failure) (length (exception_head p name id))
        ≡ found_struct (failure_value failure) (length (exception_text p name id failure)) }
{
    written_is_read::<binary_codec::Binary>();
    written_is_read::<compact_codec::Compact>();
}
