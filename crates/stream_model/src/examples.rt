//! Worked examples, each the contract of a function that does nothing.

ghost use Rattle.std.specs.Prelude.{◌≡◌, true, false, [], ◌∷◌, ◌++◌};
ghost use Rattle.streams.specs.declared.outcomes.EnvelopeFault.TheVariants.{Version, NameSize, MessageType};
ghost use Rattle.thrift_value.specs.declared.wire_fault.WireFault.TheVariants.{BadType, BadSize};
ghost use Rattle.host_model.specs.Frames.{frame};
ghost use Rattle.stream_model.specs.declared.fault.StreamFault.TheVariants.{Envelope, Body, TooLong};
ghost use Rattle.stream_model.specs.Progress.{message_progress, Whole, Refused, Wants};
ghost use Rattle.stream_model.specs.Messages.{split_of};
ghost use Rattle.stream_model.specs.Handed.{handed};
ghost use Rattle.stream_model.specs.Examples.{ping_bytes, add_bytes, list_bytes, uuid_bytes, add_head, list_head};

/// Messages: a call of `ping` and one of `add`, with as many bytes as are allowed and with one more; an old head with lists in a list; and one with a uuid.
pub fn messages()
    ensures ping { message_progress 100 ping_bytes ≡ Whole 17 }
    ensures two { message_progress 100 (ping_bytes ++ ping_bytes) ≡ Whole 17 }
    ensures add { message_progress 100 add_bytes ≡ Whole 30 }
    ensures exact { message_progress 30 add_bytes ≡ Whole 30 }
    ensures long { message_progress 29 add_bytes ≡ Refused 29 TooLong }
    ensures list { message_progress 100 list_bytes ≡ Whole 32 }
    ensures uuid { message_progress 100 uuid_bytes ≡ Whole 29 }
{}

/// Bytes of which some are missing: none came, fewer than four are allowed, a name's length and a name are cut off, the latter in a message of a type that no
/// call has, and a field's type byte is to come.
pub fn cut_off()
    ensures none { message_progress 100 [] ≡ Wants 4 }
    ensures no_room { message_progress 3 [] ≡ Refused 0 TooLong }
    ensures cut { message_progress 100 (128 ∷ 1 ∷ 0 ∷ 1 ∷ 0 ∷ []) ≡ Wants 3 }
    ensures late { message_progress 100 (128 ∷ 1 ∷ 0 ∷ 2 ∷ 0 ∷ 0 ∷ 0 ∷ 3 ∷ 97 ∷ []) ≡ Wants 2 }
    ensures type_byte { message_progress 100 add_head ≡ Wants 1 }
{}

/// Faults of a head: a version, which its first four bytes show, a length below 0, and a type, once the whole head has come.
pub fn heads()
    ensures version { message_progress 100 (128 ∷ 2 ∷ 0 ∷ 1 ∷ []) ≡ Refused 4 (Envelope (Version 2147614721)) }
    ensures name { message_progress 100 (128 ∷ 1 ∷ 0 ∷ 1 ∷ 255 ∷ 255 ∷ 255 ∷ 255 ∷ []) ≡ Refused 8 (Envelope NameSize) }
    ensures kind { message_progress 100 (0 ∷ 0 ∷ 0 ∷ 0 ∷ 2 ∷ 0 ∷ 0 ∷ 0 ∷ 1 ∷ []) ≡ Refused 9 (Envelope (MessageType 2)) }
{}

/// Faults of a struct: the type byte of a field; of a list, behind its type byte and size, a size below 0, one above the bytes that may come, and a type byte,
/// which an empty list may have.
pub fn bodies()
    ensures code { message_progress 100 (add_head ++ 5 ∷ []) ≡ Refused 16 (Body (BadType 5)) }
    ensures size { message_progress 100 (list_head ++ 5 ∷ 255 ∷ 255 ∷ 255 ∷ 255 ∷ []) ≡ Refused 23 (Body BadSize) }
    ensures long { message_progress 25 (list_head ++ 5 ∷ 0 ∷ 0 ∷ 0 ∷ 3 ∷ []) ≡ Refused 23 TooLong }
    ensures items { message_progress 25 (list_head ++ 5 ∷ 0 ∷ 0 ∷ 0 ∷ 2 ∷ []) ≡ Refused 23 (Body (BadType 5)) }
    ensures empty { message_progress 25 (list_head ++ 5 ∷ 0 ∷ 0 ∷ 0 ∷ 0 ∷ 0 ∷ []) ≡ Whole 24 }
{}

/// What is handed on: two messages; one, and a part of a second, before and after the end; and bytes at fault, behind which nothing counts.
pub fn streams()
    ensures split { split_of 100 (ping_bytes ++ ping_bytes) ≡ (ping_bytes ∷ ping_bytes ∷ [], []) }
    ensures two { handed 100 (ping_bytes ++ ping_bytes) true ≡ frame ping_bytes ++ frame ping_bytes }
    ensures under_way { handed 100 (ping_bytes ++ 128 ∷ []) false ≡ frame ping_bytes }
    ensures cut { handed 100 (ping_bytes ++ 128 ∷ []) true ≡ frame ping_bytes ++ 0 ∷ [] }
    ensures body { handed 100 (add_head ++ 5 ∷ 9 ∷ []) false ≡ 0 ∷ 0 ∷ 0 ∷ 0 ∷ [] }
    ensures head { handed 100 (128 ∷ 2 ∷ 0 ∷ 1 ∷ 9 ∷ []) false ≡ frame (128 ∷ 2 ∷ 0 ∷ 1 ∷ []) }
    ensures nothing { handed 3 [] true ≡ [] }
{}
