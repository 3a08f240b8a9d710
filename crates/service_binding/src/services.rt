//! Which service a pair names.

ghost use Rattle.std.specs.Prelude.{◌≡◌, ◌<◌, length, IfOk};
ghost use Rattle.schema.specs.SchemaOf.{schema_of};
ghost use Rattle.schema.specs.Sound.{IsSound};
ghost use Rattle.service_binding.specs.Services.{is_name_taken, number_for};

use crate::Word;
use crate::fault::BindKind;
use call_rules::Kind;
use schema::Schema;

/// Whether one of the pairs has this name.
fn is_name_taken(pairs: &[(Word, Kind)], name: &str) -> bool
    ensures { result ≡ is_name_taken pairs.now name.now }
{
    pairs.iter().any(|pair| pair.0.as_str() == name)
}

/// The number of the service that a pair names behind others.
pub(crate) fn number_for(
    schema: &Schema,
    before: &[(Word, Kind)],
    pair: &(Word, Kind),
) -> Result<u32, BindKind>
    requires { IsSound (schema_of schema.now) }
    ensures exact { result ≡ number_for (schema_of schema.now) before.now pair.now }
    ensures place { IfOk result (λ number. number < length (schema_of schema.now).services) }
{
    let name = pair.0.as_str();
    match schema.service(name.as_bytes()) {
        None => Err(BindKind::UnknownService),
        Some(number) => {
            if is_name_taken(before, name) {
                return Err(BindKind::SameService);
            }
            Ok(number)
        }
    }
}
