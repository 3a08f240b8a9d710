//! Documents as trees.

use idl_token::Place;
use lists::ByteText;

/// An identifier.
#[derive(Drop)]
pub struct Name {
    /// The place of its first byte.
    pub at: Place,
    /// Its bytes, dots included.
    pub text: ByteText,
}

/// A literal.
#[derive(Drop)]
pub struct Literal {
    /// The place of its first quotation mark.
    pub at: Place,
    /// The bytes between its quotation marks, with escapes resolved.
    pub bytes: ByteText,
}

/// An integer, or one of the words for truth as 1 or 0.
#[derive(Clone, Copy, Drop)]
pub struct Int {
    /// The place of its first byte.
    pub at: Place,
    /// Its number.
    pub value: i64,
}

/// A number with a fraction or an exponent.
#[derive(Drop)]
pub struct Double {
    /// The place of its first byte.
    pub at: Place,
    /// Its bytes as they stand.
    pub text: ByteText,
}

/// A base type.
#[derive(Clone, Copy)]
pub enum Base {
    /// `bool`
    Bool,
    /// `byte`
    Byte,
    /// `i8`
    I8,
    /// `i16`
    I16,
    /// `i32`
    I32,
    /// `i64`
    I64,
    /// `double`
    Double,
    /// `string`
    String,
    /// `binary`
    Binary,
    /// `uuid`
    Uuid,
}

/// A type (Thrift IDL, 'Types').
#[derive(Drop)]
pub enum TypeTree {
    /// The place of the word, and the base type.
    Base(Place, Base),
    /// A name: of a typedef, an enum or a struct, here or in an included file.
    Named(Name),
    /// The place of the word, the keys' type and the values' type.
    Map(Place, Box<TypeTree>, Box<TypeTree>),
    /// The place of the word, and the members' type.
    Set(Place, Box<TypeTree>),
    /// The place of the word, and the elements' type.
    List(Place, Box<TypeTree>),
}

/// A constant value (Thrift IDL, 'Constant Values').
#[derive(Drop)]
pub enum ConstTree {
    /// An integer.
    Int(Int),
    /// A number with a fraction or an exponent.
    Double(Double),
    /// A literal.
    Literal(Literal),
    /// A name: of a constant or of an enum's value.
    Name(Name),
    /// The place of the bracket, and the elements.
    List(Place, Vec<ConstTree>),
    /// The place of the brace, and the pairs of keys and values.
    Map(Place, Vec<(ConstTree, ConstTree)>),
}

/// What is said of a field's presence.
#[derive(Clone, Copy)]
pub enum Need {
    /// Neither word.
    Default,
    /// `required`
    Required,
    /// `optional`
    Optional,
}

/// A field (Thrift IDL, 'Field').
#[derive(Drop)]
pub struct Field {
    /// The place of its first token.
    pub at: Place,
    /// Its number, where it is written.
    pub id: Option<Int>,
    /// What is said of its presence.
    pub need: Need,
    /// Its type.
    pub kind: TypeTree,
    /// Its name.
    pub name: Name,
    /// The value behind `=`, where there is one.
    pub default: Option<ConstTree>,
}

/// A function of a service (Thrift IDL, 'Function').
#[derive(Drop)]
pub struct Function {
    /// The place of its first token.
    pub at: Place,
    /// Whether `oneway` stands in front.
    pub oneway: bool,
    /// The type of its result; none is `void`.
    pub result: Option<TypeTree>,
    /// Its name.
    pub name: Name,
    /// Its arguments in order.
    pub arguments: Vec<Field>,
    /// The exceptions behind `throws` in order, where that word stands.
    pub throws: Option<Vec<Field>>,
}

/// A constant (Thrift IDL, 'Const').
#[derive(Drop)]
pub struct Const {
    /// The place of the word `const`.
    pub at: Place,
    /// Its type.
    pub kind: TypeTree,
    /// Its name.
    pub name: Name,
    /// Its value.
    pub value: ConstTree,
}

/// A name for a type (Thrift IDL, 'Typedef').
#[derive(Drop)]
pub struct Typedef {
    /// The place of the word `typedef`.
    pub at: Place,
    /// The type that is named.
    pub kind: TypeTree,
    /// The name.
    pub name: Name,
}

/// A value of an enum; its place is that of its name.
#[derive(Drop)]
pub struct EnumValue {
    /// Its name.
    pub name: Name,
    /// Its number, where it is written.
    pub number: Option<Int>,
}

/// An enum (Thrift IDL, 'Enum').
#[derive(Drop)]
pub struct Enum {
    /// The place of the word `enum`.
    pub at: Place,
    /// Its name.
    pub name: Name,
    /// Its values in order.
    pub values: Vec<EnumValue>,
}

/// What a list of fields makes.
#[derive(Clone, Copy)]
pub enum StructKind {
    /// `struct`
    Struct,
    /// `union`
    Union,
    /// `exception`
    Exception,
}

/// A struct, a union or an exception (Thrift IDL, 'Struct', 'Union', 'Exception').
#[derive(Drop)]
pub struct Struct {
    /// The place of its first word.
    pub at: Place,
    /// Which of the three it is.
    pub kind: StructKind,
    /// Its name.
    pub name: Name,
    /// Its fields in order.
    pub fields: Vec<Field>,
}

/// A service (Thrift IDL, 'Service').
#[derive(Drop)]
pub struct Service {
    /// The place of the word `service`.
    pub at: Place,
    /// Its name.
    pub name: Name,
    /// The name behind `extends`, where there is one.
    pub parent: Option<Name>,
    /// Its own functions in order.
    pub functions: Vec<Function>,
}

/// A definition (Thrift IDL, 'Definition').
#[derive(Drop)]
pub enum Definition {
    /// A constant.
    Const(Const),
    /// A name for a type.
    Typedef(Typedef),
    /// An enum.
    Enum(Enum),
    /// A struct, a union or an exception.
    Struct(Struct),
    /// A service.
    Service(Service),
}

/// An included file (Thrift IDL, 'Include').
#[derive(Drop)]
pub struct Include {
    /// The place of the word `include`.
    pub at: Place,
    /// The file's name as it is written.
    pub file: Literal,
}

/// A document (Thrift IDL, 'Document'): its includes and its definitions. Namespaces, annotations,
/// `cpp_include` and `cpp_type` are left out.
pub struct Document {
    /// Its includes in order.
    pub includes: Vec<Include>,
    /// Its definitions in order.
    pub definitions: Vec<Definition>,
}

// Written out, so that a crate that lets a document go needn't prove again how each of its parts goes.
impl Drop for Document {
    fn drop(self) {
        let Document {
            includes,
            definitions,
        } = self;
        drop(includes);
        drop(definitions);
    }
}
