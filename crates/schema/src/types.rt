//! What a program of IDL files defines.

use lists::Listed;
use thrift_value::{ByteText, Value};

/// A type, with typedefs resolved (Thrift IDL, 'Types').
pub enum TypeDesc {
    /// `bool`
    Bool,
    /// `i8`, or `byte`
    I8,
    /// `i16`
    I16,
    /// `i32`
    I32,
    /// `i64`
    I64,
    /// `double`
    Double,
    /// `string`
    Text,
    /// `binary`
    Binary,
    /// `uuid`
    Uuid,
    /// An enum, by its number.
    Enum(u32),
    /// A struct, union or exception, by its number.
    Struct(u32),
    /// A map: the keys' type and the values' type.
    Map(Box<TypeDesc>, Box<TypeDesc>),
    /// A set: the members' type.
    Set(Box<TypeDesc>),
    /// A list: the elements' type.
    List(Box<TypeDesc>),
}

/// What is said of a field's presence.
#[derive(Clone, Copy, PartialEq, Eq)]
pub enum FieldNeed {
    /// Nothing: it may be missing, and is written where it is there.
    Default,
    /// It has to be there.
    Required,
    /// It may be missing.
    Optional,
}

/// What has fields.
#[derive(Clone, Copy, PartialEq, Eq)]
pub enum FieldsKind {
    /// A struct.
    Struct,
    /// A union: exactly one of its fields is there.
    Union,
    /// An exception.
    Exception,
    /// The arguments of a function.
    Args,
}

/// A field of a struct, an argument of a function, or an exception that it throws.
#[derive(Drop)]
pub struct FieldDesc {
    /// Its id, from 1 where it is written, and below 0 where it isn't.
    pub id: i16,
    /// What is said of its presence; `Optional` in a union.
    pub need: FieldNeed,
    /// Its type.
    pub kind: TypeDesc,
    /// Its name.
    pub name: ByteText,
    /// The value that it has where none is given.
    pub default: Option<Value>,
}

/// Fields by rising id.
pub type FieldList = Listed<FieldDesc>;

/// A struct, a union, an exception, or the arguments of a function.
#[derive(Drop)]
pub struct StructDesc {
    /// The number of its file.
    pub file: u32,
    /// Its name; of arguments, that of their function.
    pub name: ByteText,
    /// Which of the four it is.
    pub kind: FieldsKind,
    /// Its fields by rising id.
    pub fields: FieldList,
}

/// The names of an enum with their numbers, in the order of definition.
pub type EnumList = Listed<(ByteText, i32)>;

/// An enum.
#[derive(Drop)]
pub struct EnumDesc {
    /// The number of its file.
    pub file: u32,
    /// Its name.
    pub name: ByteText,
    /// Its values.
    pub values: EnumList,
}

/// A function of a service.
#[derive(Drop)]
pub struct FnDesc {
    /// Its name.
    pub name: ByteText,
    /// Whether no reply follows.
    pub oneway: bool,
    /// The number of its arguments' struct, of kind `Args`.
    pub args: u32,
    /// The type of its result; none is `void`.
    pub result: Option<TypeDesc>,
    /// The exceptions that it throws, by rising id.
    pub throws: FieldList,
}

/// The functions of a service, in the order of definition.
pub type FnList = Listed<FnDesc>;

/// A service.
#[derive(Drop)]
pub struct ServiceDesc {
    /// The number of its file.
    pub file: u32,
    /// Its name.
    pub name: ByteText,
    /// The number of the service that it extends.
    pub parent: Option<u32>,
    /// Its own functions.
    pub functions: FnList,
}

/// A typedef.
#[derive(Drop)]
pub struct AliasDesc {
    /// The number of its file.
    pub file: u32,
    /// Its name.
    pub name: ByteText,
    /// The type that it names.
    pub kind: TypeDesc,
}

/// A constant.
#[derive(Drop)]
pub struct ConstDesc {
    /// The number of its file.
    pub file: u32,
    /// Its name.
    pub name: ByteText,
    /// Its type.
    pub kind: TypeDesc,
    /// Its value.
    pub value: Value,
}

/// A definition, by its number in the schema's list of its kind.
#[derive(Clone, Copy, PartialEq, Eq)]
pub enum DefRef {
    /// A typedef.
    Alias(u32),
    /// A constant.
    Constant(u32),
    /// An enum.
    Enum(u32),
    /// A struct, a union or an exception.
    Struct(u32),
    /// A service.
    Service(u32),
}

/// The numbers of files.
pub type NumberList = Listed<u32>;

/// Definitions, in the order in which they stand in their file.
pub type DefList = Listed<DefRef>;

/// A file.
#[derive(Drop)]
pub struct FileDesc {
    /// The last segment of its name, without `.thrift`.
    pub base: ByteText,
    /// The numbers of the files that it includes, one for each header.
    pub includes: NumberList,
    /// Its definitions in order.
    pub defs: DefList,
}

/// What a program of IDL files defines. The main file is number 0; other numbers follow the order in which files begin to be
/// loaded, and in a file the order of definition. Behind the structs, unions and exceptions stand the arguments of the functions.
pub struct Schema {
    /// The files.
    pub files: Listed<FileDesc>,
    /// The structs, unions and exceptions, and then the arguments of each function.
    pub structs: Listed<StructDesc>,
    /// The enums.
    pub enums: Listed<EnumDesc>,
    /// The services.
    pub services: Listed<ServiceDesc>,
    /// The typedefs.
    pub aliases: Listed<AliasDesc>,
    /// The constants.
    pub constants: Listed<ConstDesc>,
}

// The drops of a type and of a schema are written out, so that a crate that lets them go needn't prove again how their parts go.

impl Drop for TypeDesc {
    fn drop(self) {
        match self {
            TypeDesc::Map(key, value) => {
                drop(key);
                drop(value);
            }
            TypeDesc::Set(member) => drop(member),
            TypeDesc::List(element) => drop(element),
            TypeDesc::Bool => {}
            TypeDesc::I8 => {}
            TypeDesc::I16 => {}
            TypeDesc::I32 => {}
            TypeDesc::I64 => {}
            TypeDesc::Double => {}
            TypeDesc::Text => {}
            TypeDesc::Binary => {}
            TypeDesc::Uuid => {}
            TypeDesc::Enum(_) => {}
            TypeDesc::Struct(_) => {}
        }
    }
}

impl Drop for Schema {
    fn drop(self) {
        let Schema {
            files,
            structs,
            enums,
            services,
            aliases,
            constants,
        } = self;
        drop(files);
        drop(structs);
        drop(enums);
        drop(services);
        drop(aliases);
        drop(constants);
    }
}
