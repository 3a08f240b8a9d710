//! The schema of a program of IDL files: what it defines, with names resolved to numbers.
//!
//! A checker makes a [`Schema`]; who serves or prints one asks it for fields, services, functions, shapes and its text:
//!
//! ```
//! let calculator = schema.service(b"Calculator")?;              // a number, or none
//! let add = schema.function(calculator, b"add")?;               // inherited functions too
//! let first = schema.field(add.args, 1)?;
//! let shapes = schema.shapes(alloc, calculator)?;               // add(1:i32,2:i32):i32, and so on
//! let text = schema.text(alloc)?;
//! ```
//!
//! A number that names a file, a typedef, a constant, an enum, a struct or a service is its place in the schema's list of that
//! kind. The calls ask for a schema that is sound (`specs/Sound.antt`), as the checker's are: its numbers are places, its fields
//! stand by rising id, and no service extends itself. Which value may be written under a type is defined here as well
//! (`specs/WrittenAs.antt`), since defaults and constants are such values.
//!
//! Not here: how a text becomes a schema, and what is done to values by one. Look-ups take no memory, and walk over what they
//! search, but for fields, which they halve. Types nest without a bound on their levels: what is deeper than 1,000 containers in
//! one another has no text and no shape, and is answered as want of memory.
#![tactic(auto)]

mod fields_text;
mod laws;
mod look_up;
mod services_text;
mod shapes;
mod text;
mod types;
mod types_text;

pub use laws::{
    a_lineage_is_whole, the_example_is_sound, the_shapes_are_determined, values_as_written,
};
pub use lists::Listed;
pub use types::{
    AliasDesc, ConstDesc, DefList, DefRef, EnumDesc, EnumList, FieldDesc, FieldList,
    FieldNeed as Need, FieldsKind as StructKind, FileDesc, FnDesc, FnList, NumberList, Schema,
    ServiceDesc, StructDesc, TypeDesc,
};
