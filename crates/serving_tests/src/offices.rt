//! An office of the example: service V { list<S> f() }.

ghost use Rattle.std.specs.Prelude.{◌≡◌, ◌∷◌, [], codes, length, IfOk};
ghost use Rattle.processor.specs.Offices.{plain_office};

use crate::example::example;
use envelope::Protocol;
use processor::{Bindings, BoundNames, Office};
use std::alloc::{AllocError, Global};
use thrift_value::ByteText;

// The example's service, under its name.
fn named(alloc: Global) -> Result<BoundNames, AllocError>
    ensures { IfOk result (λ names. names ≡ (codes "V", 0) ∷ []) }
{
    let mut names = Vec::new(alloc);
    let name = b"V".to_vec(alloc)?;
    names.push((ByteText::new(name), 0))?;
    Ok(BoundNames::new(names))
}

pub(crate) fn office(alloc: Global, protocol: Protocol) -> Result<Office, AllocError>
    ensures one { IfOk result (λ office. length (plain_office office).bindings ≡ 1) }
    ensures longest { IfOk result (λ office. (plain_office office).max_frame ≡ 268435456) }
{
    let names = named(alloc)?;
    let schema = example(alloc)?;
    let bindings = Bindings::new(alloc, &schema, names)?;
    Ok(Office::new(schema, bindings, protocol, 268_435_456))
}
