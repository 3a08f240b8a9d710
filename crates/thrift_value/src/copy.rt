//! Copies of values.
ghost use Rattle.std.specs.Prelude.{◌≡◌, ◌++◌, ◌∷◌, [], IfOk, OnOk, IsErr, MatchResult};
ghost use Rattle.thrift_value.specs.TreeOf.{tree_of, fields_tree, items_tree, pairs_tree};

use crate::uuid::Uuid;
use crate::value::{Fields, Items, Pairs, Value};
use std::alloc::{AllocError, Global};

/// Adds a copy that was made, where there is memory.
fn put<T: Drop>(copies: &mut Vec<T>, copy: Result<T, AllocError>) -> Result<(), AllocError>
    ensures { MatchResult copy (λ made. OnOk result (copies.new.items ≡ copies.old.items ++ made ∷ [])) (λ _. IsErr result) }
{
    match copy {
        Ok(made) => Ok(copies.push(made)?),
        Err(error) => Err(error),
    }
}

/// Adds a copy that was made behind something else, where there is memory.
fn put_beside<A: Drop, B: Drop>(
    copies: &mut Vec<(A, B)>,
    first: A,
    copy: Result<B, AllocError>,
) -> Result<(), AllocError>
    ensures { MatchResult copy (λ made. OnOk result (copies.new.items ≡ copies.old.items ++ (first, made) ∷ [])) (λ _. IsErr result) }
{
    match copy {
        Ok(made) => Ok(copies.push((first, made))?),
        Err(error) => Err(error),
    }
}

#[tactic(auto, using(crate::proofs::Trees::tree_equations))]
impl Value {
    /// A copy of the value, in memory of its own.
    #[cycle(copy)]
    #[inline(always)]
    pub fn try_clone(&self, alloc: Global) -> Result<Value, AllocError>
        ensures { IfOk result (λ copy. tree_of copy ≡ tree_of self.now) }
    {
        match self {
            Value::Bool(b) => Ok(Value::Bool(*b)),
            Value::I8(n) => Ok(Value::I8(*n)),
            Value::I16(n) => Ok(Value::I16(*n)),
            Value::I32(n) => Ok(Value::I32(*n)),
            Value::I64(n) => Ok(Value::I64(*n)),
            Value::Double(bits) => Ok(Value::Double(*bits)),
            Value::Bytes(text) => Ok(Value::Bytes(text.try_clone(alloc)?)),
            Value::Struct(fields) => Ok(Value::Struct(fields.try_clone(alloc)?)),
            Value::Map(key, value, pairs) => Ok(Value::Map(*key, *value, pairs.try_clone(alloc)?)),
            Value::Set(element, items) => Ok(Value::Set(*element, items.try_clone(alloc)?)),
            Value::List(element, items) => Ok(Value::List(*element, items.try_clone(alloc)?)),
            Value::Uuid(uuid) => Ok(Value::Uuid(Uuid::new(uuid.number()))),
        }
    }
}

impl Fields {
    /// A copy of the fields, in memory of its own.
    #[cycle(copy)]
    #[inline(never)]
    pub(crate) fn try_clone(&self, alloc: Global) -> Result<Fields, AllocError>
        ensures { IfOk result (λ copy. fields_tree copy ≡ fields_tree self.now) }
    {
        let mut copies = Vec::with_capacity(alloc, self.list.len())?;
        for (id, value) in &self.list {
            put_beside(&mut copies, *id, value.try_clone(alloc))?;
        }
        Ok(Fields::new(copies))
    }
}

impl Items {
    /// A copy of the items, in memory of its own.
    #[cycle(copy)]
    #[inline(never)]
    pub(crate) fn try_clone(&self, alloc: Global) -> Result<Items, AllocError>
        ensures { IfOk result (λ copy. items_tree copy ≡ items_tree self.now) }
    {
        let mut copies = Vec::with_capacity(alloc, self.list.len())?;
        for value in &self.list {
            put(&mut copies, value.try_clone(alloc))?;
        }
        Ok(Items::new(copies))
    }
}

impl Pairs {
    /// A copy of the pairs, in memory of its own.
    #[cycle(copy)]
    #[inline(never)]
    pub(crate) fn try_clone(&self, alloc: Global) -> Result<Pairs, AllocError>
        ensures { IfOk result (λ copy. pairs_tree copy ≡ pairs_tree self.now) }
    {
        let mut copies = Vec::with_capacity(alloc, self.list.len())?;
        for (key, value) in &self.list {
            let key = key.try_clone(alloc)?;
            put_beside(&mut copies, key, value.try_clone(alloc))?;
        }
        Ok(Pairs::new(copies))
    }
}
