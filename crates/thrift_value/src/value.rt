ghost use Rattle.std.specs.Prelude.{◌≡◌};
ghost use Rattle.thrift_value.specs.Tags.{tag_of};
ghost use Rattle.thrift_value.specs.TreeOf.{tree_of, fields_of, items_of, pairs_of};

use crate::tag::Tag;
use crate::uuid::Uuid;
use lists::ByteText;

/// A value of a Thrift type. Strings and binaries are both bytes, an enum is an `I32`, and a double
/// is its 64 bits.
#[cycle(value)]
#[derive(Drop)]
pub enum Value {
    /// True or false.
    Bool(bool),
    /// A number of 8 bits, a byte in an IDL.
    I8(i8),
    /// A number of 16 bits.
    I16(i16),
    /// A number of 32 bits, or the number of an enum's value.
    I32(i32),
    /// A number of 64 bits.
    I64(i64),
    /// The 64 bits of the number.
    Double(u64),
    /// A string or a binary.
    Bytes(ByteText),
    /// A struct, union or exception: its fields.
    Struct(Fields),
    /// The tag of the keys, the tag of their values, and the pairs.
    Map(Tag, Tag, Pairs),
    /// The tag of the members, and the members.
    Set(Tag, Items),
    /// The tag of the elements, and the elements.
    List(Tag, Items),
    /// The sixteen bytes of a uuid.
    Uuid(Uuid),
}

/// A value as it came: in wire order, and with repeats.
pub type Raw = Value;

/// The fields of a struct, each with its id.
#[cycle(value)]
pub struct Fields {
    // In wire order as they came, or by rising id.
    pub(crate) list: Vec<(i16, Value)>,
}

/// The pairs of a map, each a key and its value.
#[cycle(value)]
pub struct Pairs {
    // In wire order as they came, or by rising key.
    pub(crate) list: Vec<(Value, Value)>,
}

/// The elements of a list, or the members of a set.
#[cycle(value)]
pub struct Items {
    // In wire order as they came; the members of a tidy set rise.
    pub(crate) list: Vec<Value>,
}

// The drops of what holds further values are written out, so that a crate that lets a value go needn't prove again how these go.

impl Drop for Fields {
    #[cycle(value_drop)]
    fn drop(self) {
        let Fields { list } = self;
        drop(list);
    }
}

impl Drop for Pairs {
    #[cycle(value_drop)]
    fn drop(self) {
        let Pairs { list } = self;
        drop(list);
    }
}

impl Drop for Items {
    #[cycle(value_drop)]
    fn drop(self) {
        let Items { list } = self;
        drop(list);
    }
}

impl Value {
    /// The kind of the value.
    pub fn tag(&self) -> Tag
        ensures { result ≡ tag_of (tree_of self.now) }
    {
        match self {
            Value::Bool(_) => Tag::Bool,
            Value::I8(_) => Tag::I8,
            Value::I16(_) => Tag::I16,
            Value::I32(_) => Tag::I32,
            Value::I64(_) => Tag::I64,
            Value::Double(_) => Tag::Double,
            Value::Bytes(_) => Tag::Bytes,
            Value::Struct(_) => Tag::Struct,
            Value::Map(_, _, _) => Tag::Map,
            Value::Set(_, _) => Tag::Set,
            Value::List(_, _) => Tag::List,
            Value::Uuid(_) => Tag::Uuid,
        }
    }
}

impl Fields {
    /// The fields in this order, as they are.
    pub fn new(fields: Vec<(i16, Value)>) -> Self
        ensures { fields_of result ≡ fields.items }
    {
        Fields { list: fields }
    }

    /// The fields in order, each with its id.
    pub fn as_slice(&self) -> &[(i16, Value)]
        ensures { result.now ≡ fields_of self.now }
    {
        self.list.as_slice()
    }

    /// The fields in order, to be taken apart.
    pub fn into_vec(self) -> Vec<(i16, Value)>
        ensures { result.items ≡ fields_of self }
    {
        let Self { list } = self;
        list
    }
}

impl Pairs {
    /// The pairs in this order, as they are.
    pub fn new(pairs: Vec<(Value, Value)>) -> Self
        ensures { pairs_of result ≡ pairs.items }
    {
        Pairs { list: pairs }
    }

    /// The pairs in order, each a key and its value.
    pub fn as_slice(&self) -> &[(Value, Value)]
        ensures { result.now ≡ pairs_of self.now }
    {
        self.list.as_slice()
    }

    /// The pairs in order, to be taken apart.
    pub fn into_vec(self) -> Vec<(Value, Value)>
        ensures { result.items ≡ pairs_of self }
    {
        let Self { list } = self;
        list
    }
}

impl Items {
    /// The elements in this order, as they are.
    pub fn new(items: Vec<Value>) -> Self
        ensures { items_of result ≡ items.items }
    {
        Items { list: items }
    }

    /// The elements in order.
    pub fn as_slice(&self) -> &[Value]
        ensures { result.now ≡ items_of self.now }
    {
        self.list.as_slice()
    }

    /// The elements in order, to be taken apart.
    pub fn into_vec(self) -> Vec<Value>
        ensures { result.items ≡ items_of self }
    {
        let Self { list } = self;
        list
    }
}
