//! Which service and which method a message's name asks for.

ghost use Rattle.std.specs.Prelude.{◌≡◌, ◌<◌, ◌^◌, length, option_and_then, position, IfSome};
ghost use Rattle.std.specs.List.{slice_get};
ghost use Rattle.std.specs.Option.{option_map, option_copied};
ghost use Rattle.call_model.specs.Names.{bound_at, separator_of, service_part, method_part, has_bound_name, only_slot, slot_by_default, slot_asked};
ghost use Rattle.processor.specs.Seen.{bound_of};

use thrift_value::ByteText;

/// A service that is bound: its slot, and its number in the schema.
#[derive(Clone, Copy)]
pub(crate) struct BoundService {
    pub(crate) slot: u32,
    pub(crate) service: u32,
}

/// The parts of a message's name, which is cut at its first `:`.
#[derive(Clone, Copy)]
pub(crate) struct NameParts<'a> {
    /// Names a service; none where there is no `:`.
    pub(crate) service: Option<&'a [u8]>,
    /// Names a method.
    pub(crate) method: &'a [u8],
}

/// The place of the first `:` in a name.
fn separator_of(name: &[u8]) -> Option<usize>
    ensures found { result ≡ separator_of name.now }
    ensures within { IfSome result (λ at. at < length name.now) }
{
    name.iter().position(|byte| *byte == b':')
}

/// Cuts a name at its first `:`.
#[inline(always)]
pub(crate) fn name_parts(name: &[u8]) -> NameParts<'_>
    ensures service { option_map (λ part. part.now) result.service ≡ service_part name.now }
    ensures method { result.method.now ≡ method_part name.now }
{
    match separator_of(name) {
        Some(at) => NameParts {
            service: Some(name.split_at(at).0),
            method: name.split_at(at + 1).1,
        },
        None => NameParts {
            service: None,
            method: name,
        },
    }
}

/// The part of a name behind its first `:`, or the whole name.
pub(crate) fn method_part(name: &[u8]) -> &[u8]
    ensures { result.now ≡ method_part name.now }
{
    name_parts(name).method
}

/// Whether a binding has a name.
fn has_name(binding: &(ByteText, u32), name: &[u8]) -> bool
    ensures { result ≡ has_bound_name name.now binding.now }
{
    binding.0.as_slice() == name
}

/// The slot of the service that is bound under a name.
fn slot_named(bindings: &[(ByteText, u32)], name: &[u8]) -> Option<usize>
    ensures { result ≡ position (has_bound_name name.now) bindings.now }
{
    bindings.iter().position(|binding| has_name(binding, name))
}

/// The only slot, where there is just one.
fn only_slot(bindings: &[(ByteText, u32)]) -> Option<usize>
    ensures { result ≡ only_slot bindings.now }
{
    match bindings {
        [_] => Some(0),
        _ => None,
    }
}

/// The slot that a name without a service asks for.
fn slot_by_default(default_slot: Option<u32>, bindings: &[(ByteText, u32)]) -> Option<usize>
    ensures { result ≡ slot_by_default default_slot bindings.now }
{
    match default_slot {
        Some(slot) => Some(slot as usize),
        None => only_slot(bindings),
    }
}

/// The slot that a name asks for, by its part that names a service.
fn slot_asked(
    default_slot: Option<u32>,
    bindings: &[(ByteText, u32)],
    service: Option<&[u8]>,
) -> Option<usize>
    ensures { result ≡ slot_asked default_slot bindings.now (option_map (λ part. part.now) service.entry) }
{
    match service {
        Some(service) => slot_named(bindings, service),
        None => slot_by_default(default_slot, bindings),
    }
}

/// The binding at a slot.
fn binding_at(bindings: &[(ByteText, u32)], slot: usize) -> Option<&(ByteText, u32)>
    ensures found { option_copied result ≡ slice_get bindings.now slot }
{
    bindings.get(slot)
}

/// The service that a name asks for, by its part that names one.
#[inline(always)]
pub(crate) fn service_asked(
    default_slot: Option<u32>,
    bindings: &[(ByteText, u32)],
    service: Option<&[u8]>,
) -> Option<BoundService>
    requires { length bindings.now < 2 ^ 32 }
    ensures { option_map bound_of result ≡ option_and_then (bound_at bindings.now) (slot_asked default_slot bindings.now (option_map (λ part. part.now) service.entry)) }
{
    let slot = slot_asked(default_slot, bindings, service)?;
    let binding = binding_at(bindings, slot)?;
    Some(BoundService {
        slot: slot as u32,
        service: binding.1,
    })
}
