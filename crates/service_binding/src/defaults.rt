//! The default service, which names without a service ask for.

ghost use Rattle.std.specs.Prelude.{◌≡◌, ◌<◌, ◌≤◌, length, position, option_map, IfOk, IfSome};
ghost use Rattle.service_binding.specs.Defaults.{has_numbered_name, slot_for_default};

use crate::fault::BindKind;
use thrift_value::ByteText;

/// Whether what is bound has a name.
fn has_name(binding: &(ByteText, u32), name: &[u8]) -> bool
    ensures { result ≡ has_numbered_name name.now binding.now }
{
    binding.0.as_slice() == name
}

/// The place of what is bound under a name.
fn place_of(bindings: &[(ByteText, u32)], name: &[u8]) -> Option<usize>
    ensures found { result ≡ position (has_numbered_name name.now) bindings.now }
    ensures within { IfSome result (λ place. place < length bindings.now) }
{
    bindings.iter().position(|binding| has_name(binding, name))
}

/// The slot of the default: the place of what is bound under its name, or none where no default is given. `NotBound` comes exactly
/// where nothing is bound under its name.
pub fn slot_for_default(
    bindings: &[(ByteText, u32)],
    default_service: Option<&[u8]>,
) -> Result<Option<u32>, BindKind>
    requires { length bindings.now ≤ 16 }
    ensures is { result ≡ slot_for_default bindings.now (option_map (λ name. name.now) default_service.entry) }
    ensures within { IfOk result (λ slot. IfSome slot (λ place. place < length bindings.now)) }
{
    match default_service {
        Some(name) => match place_of(bindings, name) {
            Some(place) => Ok(Some(place as u32)),
            None => Err(BindKind::NotBound),
        },
        None => Ok(None),
    }
}
