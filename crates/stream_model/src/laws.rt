//! Laws of messages without frames, each the contract of a function that does nothing.

ghost use Rattle.std.specs.Prelude.{◌≡◌, ◌≤◌, ◌<◌, ◌+◌, ◌-◌, ℕ, Bool, false, List, ◌++◌, length, take};
ghost use Rattle.wire_num.specs.Encoded.{AreByteSized};
ghost use Rattle.host_model.specs.Conversation.{IsPrefix};
ghost use Rattle.stream_model.specs.declared.fault.StreamFault.{StreamFault};
ghost use Rattle.stream_model.specs.Plan.{Plan};
ghost use Rattle.stream_model.specs.Progress.{progress, message_progress, Wants, Whole, Refused, IsDecided, IsDecidedAt};
ghost use Rattle.stream_model.specs.Messages.{IsMessage, IsMessageRest, Messages, HasStreamFault, split_of};
ghost use Rattle.stream_model.specs.Handed.{handed};
ghost use Rattle.stream_model.specs.Reading.{message_end, IsReadAs};

/// What becomes of as many bytes as a message may have is what reading their head and then their struct says: the place behind both, or the first fault,
/// where one that is cut off is too long.
pub fn messages_are_read()
    ensures { (bytes : List ℕ) → IsReadAs (message_end bytes) (message_progress (length bytes) bytes) }
{}

/// What is settled stays, whatever follows; as many bytes as a message may have settle it; the bytes up to its place settle it, and no fewer do.
pub fn settled_messages_stay()
    ensures stays { (max at : ℕ) (plan : Plan) (bytes more : List ℕ) → IsDecided (progress max at plan bytes)
        → progress max at plan (bytes ++ more) ≡ progress max at plan bytes }
    ensures all { (max at : ℕ) (plan : Plan) (bytes : List ℕ) → max ≤ at + length bytes → IsDecided (progress max at plan bytes) }
    ensures within { (max at : ℕ) (plan : Plan) (bytes : List ℕ) (n : ℕ) → IsDecidedAt n (progress max at plan bytes) → (at ≤ n) × (n ≤ at + length bytes) }
    ensures by_its_bytes { (max at : ℕ) (plan : Plan) (bytes : List ℕ) (n : ℕ) → IsDecidedAt n (progress max at plan bytes)
        → progress max at plan (take (n - at) bytes) ≡ progress max at plan bytes }
    ensures by_no_fewer { (max at : ℕ) (plan : Plan) (bytes : List ℕ) (n k : ℕ) → IsDecidedAt n (progress max at plan bytes) → at + k < n
        → IsDecided (progress max at plan (take k bytes)) → ⊥ }
{}

/// Of what is wanted there is a byte at least; it stays within what a message may have; and no message, and no fault, ends before all of it.
pub fn wanted_bytes_belong_to_the_message()
    ensures within { (max at : ℕ) (plan : Plan) (bytes : List ℕ) (k : ℕ) → progress max at plan bytes ≡ Wants k → (1 ≤ k) × (at + length bytes + k ≤ max) }
    ensures behind { (max at : ℕ) (plan : Plan) (bytes more : List ℕ) (k n : ℕ) → progress max at plan bytes ≡ Wants k
        → IsDecidedAt n (progress max at plan (bytes ++ more)) → at + length bytes + k ≤ n }
{}

/// A message is whole exactly where one stands in front, and none does behind a fault, whatever follows.
pub fn whole_messages_stand_in_front()
    ensures found { (max : ℕ) (bytes : List ℕ) (n : ℕ) → AreByteSized bytes → message_progress max bytes ≡ Whole n
        → (n ≤ length bytes) × IsMessage max (take n bytes) }
    ensures only { (max : ℕ) (message more : List ℕ) → IsMessage max message → message_progress max (message ++ more) ≡ Whole (length message) }
    ensures none { (max : ℕ) (bytes more : List ℕ) (at : ℕ) (fault : StreamFault) → message_progress max bytes ≡ Refused at fault → IsMessageRest max (bytes ++ more) }
{}

/// Bytes split into messages and a rest, as is computed, and in no other way.
pub fn streams_split_in_one_way()
    ensures found { (max : ℕ) (bytes : List ℕ) → AreByteSized bytes → Messages max bytes (split_of max bytes).0 (split_of max bytes).1 }
    ensures only { (max : ℕ) (bytes rest other : List ℕ) (messages others : List (List ℕ)) → Messages max bytes messages rest → Messages max bytes others other
        → (messages ≡ others) × (rest ≡ other) }
{}

/// What is handed on grows with the bytes; and behind a fault it stands still, whatever follows, and whether the input has ended or not.
pub fn what_is_handed_on_grows()
    ensures grows { (max : ℕ) (bytes more : List ℕ) (ended : Bool) → AreByteSized bytes → AreByteSized more
        → IsPrefix (handed max bytes false) (handed max (bytes ++ more) ended) }
    ensures stands { (max : ℕ) (bytes more : List ℕ) (before ended : Bool) (fault : StreamFault) → AreByteSized bytes → AreByteSized more
        → HasStreamFault max (split_of max bytes).1 fault → handed max (bytes ++ more) ended ≡ handed max bytes before }
{}
