//! The kinds of faults for which an IDL is refused.

ghost use Rattle.std.specs.Prelude.{◌≡◌};
ghost use Rattle.std.specs.Option.{option_and_then, option_map};
ghost use Rattle.check_model.specs.FirstFlaw.{of_value};
ghost use Rattle.idl_include.specs.Loads.{flaw_kind};
ghost use Rattle.idl_const.specs.Flaws.{flaw_of};
ghost use Rattle.check_passes.specs.Faults.{flaw_told};
ghost use Rattle.idl_check.specs.FaultKinds.{kind_of_flaw, idl_kind_of_lexer, kind_of_loading, idl_kind_of_parser};
ghost use Rattle.idl_check.specs.Lines.{idl_kind_word};

use check_passes::CheckKind;
use idl_const::ConstFault;
use idl_include::LoadKind;
use idl_parser::ParseKind;
use idl_token::LexKind;

/// What is wrong with an IDL or a file that it includes. The program prints the variant's name.
#[derive(Clone, Copy)]
pub enum IdlFaultKind {
    /// No file has the name.
    Absent,
    /// The file has more than 4,194,304 bytes.
    TooLong,
    /// It would be file number 257.
    TooMany,
    /// An include's literal isn't UTF-8.
    BadName,
    /// An include leads back to a file that is being loaded.
    Cycle,
    /// Another file has the same base name.
    SameBase,
    /// A byte with which no token begins.
    BadByte,
    /// A literal without its end.
    OpenLiteral,
    /// A comment without its end.
    OpenComment,
    /// A backslash in a literal with a byte behind it that makes no escape.
    BadEscape,
    /// An integer outside 64 bits, or a double with too many digits or too large an exponent.
    BigNumber,
    /// A token with which no document goes on, or the end of the text.
    Found,
    /// Such a token that is left out by name.
    Refused,
    /// A token that opens a level too many.
    TooDeep,
    /// A name that is defined has a dot.
    DottedName,
    /// The name was given before.
    DuplicateName,
    /// The name stands for no type, or for no service where one is extended.
    UnknownType,
    /// A typedef leads to itself.
    TypedefCycle,
    /// A field's number isn't 1 to 32767, or 32768 fields without a number stand before it.
    FieldId,
    /// A field before has the same id.
    DuplicateId,
    /// The number of an enum's value has more than 32 bits.
    EnumValue,
    /// A service extends itself, directly or not.
    ServiceCycle,
    /// A function before has the same name, or one that the service inherits.
    DuplicateFunction,
    /// A oneway function has a result.
    OnewayNotVoid,
    /// A oneway function throws exceptions.
    OnewayThrows,
    /// What a function throws is no exception.
    NotException,
    /// A struct or an exception has no finite value.
    StructLoop,
    /// A value whose form doesn't fit its type, or a union with another number of entries than one.
    WrongKind,
    /// A number that the type doesn't hold.
    OutOfRange,
    /// No constant and no value of an enum has the name.
    UnknownName,
    /// A double that isn't a whole number within plus or minus 2^53.
    DoubleConstant,
    /// A literal that writes no uuid.
    BadUuid,
    /// A value that needs itself.
    ConstCycle,
    /// The struct has no field of the name.
    UnknownField,
    /// A required field without a default isn't given.
    MissingField,
    /// A value with more than 64 levels or 4,000,000 values.
    TooLarge,
}

/// The kind of a fault of loading; a file fault and want of memory are none.
pub(crate) fn load_kind(kind: LoadKind) -> Option<IdlFaultKind>
    ensures { result ≡ option_and_then kind_of_loading (flaw_kind kind) }
{
    match kind {
        LoadKind::Absent => Some(IdlFaultKind::Absent),
        LoadKind::TooLong => Some(IdlFaultKind::TooLong),
        LoadKind::BadName => Some(IdlFaultKind::BadName),
        LoadKind::Lex(kind) => lexer_kind(kind),
        LoadKind::Parse(kind) => parser_kind(kind),
        LoadKind::Cycle => Some(IdlFaultKind::Cycle),
        LoadKind::SameBase => Some(IdlFaultKind::SameBase),
        LoadKind::TooMany => Some(IdlFaultKind::TooMany),
        LoadKind::File => None,
        LoadKind::NoMemory => None,
    }
}

/// The kind of a fault of the lexer; want of memory is none.
fn lexer_kind(kind: LexKind) -> Option<IdlFaultKind>
    ensures { result ≡ idl_kind_of_lexer kind }
{
    match kind {
        LexKind::BadByte => Some(IdlFaultKind::BadByte),
        LexKind::OpenLiteral => Some(IdlFaultKind::OpenLiteral),
        LexKind::OpenComment => Some(IdlFaultKind::OpenComment),
        LexKind::BadEscape => Some(IdlFaultKind::BadEscape),
        LexKind::BigNumber => Some(IdlFaultKind::BigNumber),
        LexKind::NoMemory => None,
    }
}

/// The kind of a fault of the parser; want of memory is none.
fn parser_kind(kind: ParseKind) -> Option<IdlFaultKind>
    ensures { result ≡ idl_kind_of_parser kind }
{
    match kind {
        ParseKind::Found => Some(IdlFaultKind::Found),
        ParseKind::Refused => Some(IdlFaultKind::Refused),
        ParseKind::TooDeep => Some(IdlFaultKind::TooDeep),
        ParseKind::NoMemory => None,
    }
}

/// The kind of a fault of a check; want of memory is none.
pub(crate) fn check_kind(kind: CheckKind) -> Option<IdlFaultKind>
    ensures { result ≡ option_and_then kind_of_flaw (flaw_told kind) }
{
    match kind {
        CheckKind::DottedName => Some(IdlFaultKind::DottedName),
        CheckKind::DuplicateName => Some(IdlFaultKind::DuplicateName),
        CheckKind::UnknownType => Some(IdlFaultKind::UnknownType),
        CheckKind::TypedefCycle => Some(IdlFaultKind::TypedefCycle),
        CheckKind::FieldId => Some(IdlFaultKind::FieldId),
        CheckKind::DuplicateId => Some(IdlFaultKind::DuplicateId),
        CheckKind::EnumValue => Some(IdlFaultKind::EnumValue),
        CheckKind::ServiceCycle => Some(IdlFaultKind::ServiceCycle),
        CheckKind::DuplicateFunction => Some(IdlFaultKind::DuplicateFunction),
        CheckKind::OnewayNotVoid => Some(IdlFaultKind::OnewayNotVoid),
        CheckKind::OnewayThrows => Some(IdlFaultKind::OnewayThrows),
        CheckKind::NotException => Some(IdlFaultKind::NotException),
        CheckKind::StructLoop => Some(IdlFaultKind::StructLoop),
        CheckKind::Const(fault) => value_kind(fault),
        CheckKind::NoMemory => None,
    }
}

/// The kind of a fault of a value; want of memory is none.
fn value_kind(fault: ConstFault) -> Option<IdlFaultKind>
    ensures { result ≡ option_and_then kind_of_flaw (option_map of_value (flaw_of fault)) }
{
    match fault {
        ConstFault::WrongKind => Some(IdlFaultKind::WrongKind),
        ConstFault::OutOfRange => Some(IdlFaultKind::OutOfRange),
        ConstFault::UnknownName => Some(IdlFaultKind::UnknownName),
        ConstFault::DoubleConstant => Some(IdlFaultKind::DoubleConstant),
        ConstFault::BadUuid => Some(IdlFaultKind::BadUuid),
        ConstFault::ConstCycle => Some(IdlFaultKind::ConstCycle),
        ConstFault::UnknownField => Some(IdlFaultKind::UnknownField),
        ConstFault::MissingField => Some(IdlFaultKind::MissingField),
        ConstFault::TooLarge => Some(IdlFaultKind::TooLarge),
        ConstFault::NoMemory => None,
    }
}

/// The word of a kind.
pub(crate) fn idl_kind_word(kind: IdlFaultKind) -> &'static str
    ensures { result.now ≡ idl_kind_word kind }
{
    match kind {
        IdlFaultKind::Absent => "Absent",
        IdlFaultKind::TooLong => "TooLong",
        IdlFaultKind::TooMany => "TooMany",
        IdlFaultKind::BadName => "BadName",
        IdlFaultKind::Cycle => "Cycle",
        IdlFaultKind::SameBase => "SameBase",
        IdlFaultKind::BadByte => "BadByte",
        IdlFaultKind::OpenLiteral => "OpenLiteral",
        IdlFaultKind::OpenComment => "OpenComment",
        IdlFaultKind::BadEscape => "BadEscape",
        IdlFaultKind::BigNumber => "BigNumber",
        IdlFaultKind::Found => "Found",
        IdlFaultKind::Refused => "Refused",
        IdlFaultKind::TooDeep => "TooDeep",
        IdlFaultKind::DottedName => "DottedName",
        IdlFaultKind::DuplicateName => "DuplicateName",
        IdlFaultKind::UnknownType => "UnknownType",
        IdlFaultKind::TypedefCycle => "TypedefCycle",
        IdlFaultKind::FieldId => "FieldId",
        IdlFaultKind::DuplicateId => "DuplicateId",
        IdlFaultKind::EnumValue => "EnumValue",
        IdlFaultKind::ServiceCycle => "ServiceCycle",
        IdlFaultKind::DuplicateFunction => "DuplicateFunction",
        IdlFaultKind::OnewayNotVoid => "OnewayNotVoid",
        IdlFaultKind::OnewayThrows => "OnewayThrows",
        IdlFaultKind::NotException => "NotException",
        IdlFaultKind::StructLoop => "StructLoop",
        IdlFaultKind::WrongKind => "WrongKind",
        IdlFaultKind::OutOfRange => "OutOfRange",
        IdlFaultKind::UnknownName => "UnknownName",
        IdlFaultKind::DoubleConstant => "DoubleConstant",
        IdlFaultKind::BadUuid => "BadUuid",
        IdlFaultKind::ConstCycle => "ConstCycle",
        IdlFaultKind::UnknownField => "UnknownField",
        IdlFaultKind::MissingField => "MissingField",
        IdlFaultKind::TooLarge => "TooLarge",
    }
}
