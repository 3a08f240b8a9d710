//! What ids and names stand for.
ghost use Rattle.std.specs.Prelude.{◌≡◌, ◌<ℤ◌, ◌++◌, codes, map, AllPairs};
ghost use Rattle.std.specs.List.{find};
ghost use Rattle.std.specs.Option.{option_map, option_copied};
ghost use Rattle.std.specs.Str.{bytes_eq};
ghost use Rattle.schema.specs.Inherited.{own_functions, parent_of};
ghost use Rattle.schema.specs.LookUp.{dotted, field_at, fields_at, function_named, is_included, is_included_name, is_named, is_service_name, service_named};
ghost use Rattle.schema.specs.PlainSchema.{PlainField, PlainFunction};
ghost use Rattle.schema.specs.SchemaOf.{schema_of, plain_field, plain_function, plain_service};
ghost use Rattle.schema.specs.Sound.{IsSound};
ghost use Rattle.schema.specs.WrittenAs.{field_with_id};

use crate::types::{FieldDesc, FnDesc, Schema, ServiceDesc};
use crate::types_text::{at, item};

/// The field with an id.
fn field_with_id(fields: &[FieldDesc], id: i16) -> Option<&FieldDesc>
    requires { AllPairs (λ (f g : PlainField). f.id <ℤ g.id) (map plain_field fields.now) }
    ensures { option_map plain_field (option_copied result) ≡ field_with_id id (map plain_field fields.now) }
{
    match fields.binary_search_by_key(&id, |field| field.id) {
        Ok(place) => item(fields, place),
        Err(_) => None,
    }
}

/// The first function with a name.
fn own_function<'a>(functions: &'a [FnDesc], name: &[u8]) -> Option<&'a FnDesc>
    ensures { option_map plain_function (option_copied result) ≡ find (is_named name.now) (map plain_function functions.now) }
{
    for function in functions {
        if function.name.as_slice() == name {
            return Some(function);
        }
    }
    None
}

/// Whether a text is a dot and a name.
fn is_behind_dot(text: &[u8], name: &[u8]) -> bool
    ensures { result ≡ bytes_eq text.now (codes "." ++ name.now) }
{
    match text.split_first() {
        Some((dot, last)) => *dot == b'.' && last == name,
        None => false,
    }
}

/// Whether a name is a base name, a dot and another name.
#[tactic(auto, using(crate::proofs::Names::parted))]
fn is_dotted(name: &[u8], base: &[u8], short: &[u8]) -> bool
    ensures { result ≡ bytes_eq name.now (dotted base.now short.now) }
{
    if name.len() < base.len() {
        return false;
    }
    let (front, rest) = name.split_at(base.len());
    if front != base {
        return false;
    }
    is_behind_dot(rest, short)
}

/// Whether the main file includes a file.
fn is_included(schema: &Schema, file: u32) -> bool
    ensures { result ≡ is_included (schema_of schema.now) file }
{
    match at(schema.files.as_slice(), 0) {
        Some(main) => main.includes.as_slice().contains(&file),
        None => false,
    }
}

/// Whether the main file knows a service of an included file by a name.
fn is_included_name(schema: &Schema, name: &[u8], service: &ServiceDesc) -> bool
    ensures { result ≡ is_included_name (schema_of schema.now) name.now (plain_service service.now) }
{
    let base = match at(schema.files.as_slice(), service.file) {
        Some(file) => file.base.as_slice(),
        None => b"".as_slice(),
    };
    is_dotted(name, base, service.name.as_slice()) && is_included(schema, service.file)
}

/// Whether the main file knows a service by a name.
fn is_service_name(schema: &Schema, name: &[u8], service: &ServiceDesc) -> bool
    ensures { result ≡ is_service_name (schema_of schema.now) name.now (plain_service service.now) }
{
    (service.file == 0 && name == service.name.as_slice())
        || is_included_name(schema, name, service)
}

/// The fields of the struct at a number.
pub(crate) fn fields_at(schema: &Schema, which: u32) -> &[FieldDesc]
    ensures { map plain_field result.now ≡ fields_at (schema_of schema.now) which }
{
    match at(schema.structs.as_slice(), which) {
        Some(found) => found.fields.as_slice(),
        None => &[],
    }
}

/// The own functions of the service at a number, and the number of the service that it extends.
pub(crate) fn own_part(schema: &Schema, which: u32) -> (&[FnDesc], Option<u32>)
    ensures functions { map plain_function result.0.now ≡ own_functions (schema_of schema.now).services which }
    ensures parent { result.1 ≡ parent_of (schema_of schema.now).services which }
{
    match at(schema.services.as_slice(), which) {
        Some(found) => (found.functions.as_slice(), found.parent),
        None => (&[], None),
    }
}

impl Schema {
    /// The field with an id of the struct at a number; none where that struct has none, or there is no such struct.
    pub fn field(&self, which: u32, id: i16) -> Option<&FieldDesc>
        requires sound { IsSound (schema_of self.now) }
        ensures { option_map plain_field (option_copied result) ≡ field_at (schema_of self.now) which id }
    {
        let fields = fields_at(self, which);
        field_with_id(fields, id)
    }

    /// The number of the service that the main file knows by a name: one of its own by its name, and one of a file that it
    /// includes by `file.Name`; none where there is no such service.
    pub fn service(&self, name: &[u8]) -> Option<u32>
        requires sound { IsSound (schema_of self.now) }
        ensures { result ≡ service_named (schema_of self.now) name.now }
    {
        for (place, service) in self.services.as_slice().iter().enumerate() {
            if is_service_name(self, name, service) {
                return Some(place as u32);
            }
        }
        None
    }

    /// The function with a name of the service at a number, inherited ones included; none where that service has none, or there
    /// is no such service.
    pub fn function(&self, service: u32, name: &[u8]) -> Option<&FnDesc>
        requires sound { IsSound (schema_of self.now) }
        ensures { option_map plain_function (option_copied result) ≡ function_named (schema_of self.now) service name.now }
    {
        let mut next = Some(service);
        for _steps in 0..self.services.as_slice().len() {
            let Some(which) = next else {
                return None;
            };
            let (functions, parent) = own_part(self, which);
            if let Some(function) = own_function(functions, name) {
                return Some(function);
            }
            next = parent;
        }
        None
    }
}
