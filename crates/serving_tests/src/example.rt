//! The example of a schema, in memory: struct S { 1: bool a = true }, and service V { list<S> f() }.
ghost use Rattle.std.specs.Prelude.{◌≡◌, ◌∷◌, [], IfOk};
ghost use Rattle.schema.specs.Example.{example_args, example_field, example_file, example_function, example_schema, example_service, example_struct};
ghost use Rattle.schema.specs.SchemaOf.{plain_field, plain_file, plain_function, plain_service, plain_struct, schema_of};

use schema::{
    DefList, DefRef, FieldDesc, FieldList, FileDesc, FnDesc, FnList, Listed, Need, NumberList,
    Schema, ServiceDesc, StructDesc, StructKind, TypeDesc,
};
use std::alloc::{AllocError, Global};
use thrift_value::{ByteText, Value};

fn text(alloc: Global, bytes: &[u8]) -> Result<ByteText, AllocError>
    ensures { IfOk result (λ text. text ≡ bytes.now) }
{
    let bytes = bytes.to_vec(alloc)?;
    Ok(ByteText::new(bytes))
}

fn one<T: Drop>(alloc: Global, item: T) -> Result<Vec<T>, AllocError>
    ensures { IfOk result (λ list. list.items ≡ item ∷ []) }
{
    let mut list = Vec::new(alloc);
    list.push(item)?;
    Ok(list)
}

fn two<T: Drop>(alloc: Global, first: T, second: T) -> Result<Vec<T>, AllocError>
    ensures { IfOk result (λ list. list.items ≡ first ∷ second ∷ []) }
{
    let mut list = one(alloc, first)?;
    list.push(second)?;
    Ok(list)
}

fn field(alloc: Global) -> Result<FieldDesc, AllocError>
    ensures { IfOk result (λ made. plain_field made ≡ example_field) }
{
    let name = text(alloc, b"a")?;
    Ok(FieldDesc {
        id: 1,
        need: Need::Default,
        kind: TypeDesc::Bool,
        name,
        default: Some(Value::Bool(true)),
    })
}

fn fielded(alloc: Global) -> Result<StructDesc, AllocError>
    ensures { IfOk result (λ made. plain_struct made ≡ example_struct) }
{
    let name = text(alloc, b"S")?;
    let fields = one(alloc, field(alloc)?)?;
    Ok(StructDesc {
        file: 0,
        name,
        kind: StructKind::Struct,
        fields: FieldList::new(fields),
    })
}

fn arguments(alloc: Global) -> Result<StructDesc, AllocError>
    ensures { IfOk result (λ made. plain_struct made ≡ example_args) }
{
    let name = text(alloc, b"f")?;
    Ok(StructDesc {
        file: 0,
        name,
        kind: StructKind::Args,
        fields: FieldList::new(Vec::new(alloc)),
    })
}

fn function(alloc: Global) -> Result<FnDesc, AllocError>
    ensures { IfOk result (λ made. plain_function made ≡ example_function) }
{
    let name = text(alloc, b"f")?;
    let element = Box::new(alloc, TypeDesc::Struct(0))?;
    Ok(FnDesc {
        name,
        oneway: false,
        args: 1,
        result: Some(TypeDesc::List(element)),
        throws: FieldList::new(Vec::new(alloc)),
    })
}

fn service(alloc: Global) -> Result<ServiceDesc, AllocError>
    ensures { IfOk result (λ made. plain_service made ≡ example_service) }
{
    let name = text(alloc, b"V")?;
    let functions = one(alloc, function(alloc)?)?;
    Ok(ServiceDesc {
        file: 0,
        name,
        parent: None,
        functions: FnList::new(functions),
    })
}

fn file(alloc: Global) -> Result<FileDesc, AllocError>
    ensures { IfOk result (λ made. plain_file made ≡ example_file) }
{
    let base = text(alloc, b"t")?;
    let defs = two(alloc, DefRef::Struct(0), DefRef::Service(0))?;
    Ok(FileDesc {
        base,
        includes: NumberList::new(Vec::new(alloc)),
        defs: DefList::new(defs),
    })
}

/// The schema of the example.
pub(crate) fn example(alloc: Global) -> Result<Schema, AllocError>
    ensures { IfOk result (λ made. schema_of made ≡ example_schema) }
{
    let files = one(alloc, file(alloc)?)?;
    let structs = two(alloc, fielded(alloc)?, arguments(alloc)?)?;
    let services = one(alloc, service(alloc)?)?;
    Ok(Schema {
        files: Listed::new(files),
        structs: Listed::new(structs),
        enums: Listed::new(Vec::new(alloc)),
        services: Listed::new(services),
        aliases: Listed::new(Vec::new(alloc)),
        constants: Listed::new(Vec::new(alloc)),
    })
}
