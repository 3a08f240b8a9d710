//! How the program ends.

/// How a command ended; `as u8` is the program's exit status.
#[derive(Clone, Copy, PartialEq, Eq)]
pub enum Status {
    /// The command's defined end.
    Done = 0,
    /// The words are no command.
    Usage = 1,
    /// The IDL's files give no schema.
    IdlRefused = 2,
    /// The input is no script.
    ScriptRefused = 3,
    /// A pair of the words can't be bound to a service and a handler.
    BindRefused = 4,
    /// A file of the IDL's couldn't be read, or that of the journal couldn't be made.
    FileFault = 5,
    /// A read of the input failed.
    ReadFault = 6,
    /// A write of the output failed.
    WriteFault = 7,
    /// The port can't be listened at or not dialled, or its links or its pipe failed.
    NetFault = 8,
    /// A write of the journal failed.
    JournalFault = 9,
    /// Memory ran out.
    NoMemory = 10,
    /// A call isn't made: no port was dialled.
    CallRefused = 13,
    /// What came back for a call is no answer to it.
    ReplyRefused = 14,
    /// The values or calls of an IDL don't survive the one that comes after it.
    Incompatible = 15,
}
