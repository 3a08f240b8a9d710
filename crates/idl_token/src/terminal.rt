//! The symbols of the grammar.
ghost use Rattle.std.specs.Prelude.{◌≡◌};
ghost use Rattle.idl_token.specs.Terminals.{code, same};

/// What a token is to the grammar.
#[derive(Clone, Copy)]
pub enum Terminal {
    /// A name.
    Identifier,
    /// An integer.
    Int,
    /// A number with a fraction or an exponent.
    Double,
    /// A literal.
    Literal,
    /// A word or sign that is left out by name.
    Refused,
    /// `namespace`
    Namespace,
    /// `include`
    Include,
    /// `cpp_include`
    CppInclude,
    /// `const`
    Const,
    /// `typedef`
    Typedef,
    /// `enum`
    Enum,
    /// `struct`
    Struct,
    /// `union`
    Union,
    /// `exception`
    Exception,
    /// `service`
    Service,
    /// `extends`
    Extends,
    /// `throws`
    Throws,
    /// `oneway`
    Oneway,
    /// `void`
    Void,
    /// `required`
    Required,
    /// `optional`
    Optional,
    /// `bool`
    Bool,
    /// `byte`
    Byte,
    /// `i8`
    I8,
    /// `i16`
    I16,
    /// `i32`
    I32,
    /// `i64`
    I64,
    /// `double`
    DoubleWord,
    /// `string`
    StringWord,
    /// `binary`
    Binary,
    /// `uuid`
    Uuid,
    /// `map`
    Map,
    /// `set`
    Set,
    /// `list`
    List,
    /// `cpp_type`
    CppType,
    /// `{`
    OpenBrace,
    /// `}`
    CloseBrace,
    /// `(`
    OpenParen,
    /// `)`
    CloseParen,
    /// `[`
    OpenBracket,
    /// `]`
    CloseBracket,
    /// `<`
    Less,
    /// `>`
    Greater,
    /// `,`
    Comma,
    /// `;`
    Semicolon,
    /// `:`
    Colon,
    /// `=`
    Equals,
    /// `*`
    Star,
}

// A number for each symbol, by which symbols are compared.
fn code(terminal: Terminal) -> u8
    ensures { result ≡ code terminal }
{
    terminal as u8
}

/// Whether two symbols are the same.
pub fn same(one: Terminal, other: Terminal) -> bool
    ensures { result ≡ same one other }
{
    code(one) == code(other)
}
