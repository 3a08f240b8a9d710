//! Who calls.

ghost use Rattle.schema.specs.SchemaOf.{schema_of};
ghost use Rattle.client_desk.specs.Clients.{IsSoundClient};

use envelope::Protocol;
use schema::Schema;
use thrift_value::ByteText;

/// A service of a schema, and how a host knows it.
#[derive(Drop)]
pub struct Client {
    pub(crate) schema: Schema,
    // The service, by its number in the schema.
    pub(crate) service: u32,
    // The name under which a host may have bound it.
    pub(crate) name: ByteText,
    pub(crate) protocol: Protocol,
    // Whether that name stands in front of methods.
    pub(crate) named: bool,
    // The longest payload that goes out.
    pub(crate) max_frame: u32,
    ghost sound: { ∥ IsSoundClient (record { schema = schema_of schema; service = service; name = name; protocol = protocol; named = named; max_frame = max_frame }) ∥₁ },
}

impl Client {
    ghost use Rattle.std.specs.Prelude.{◌≡◌};
    ghost use Rattle.schema.specs.SchemaOf.{schema_of};
    ghost use Rattle.client_desk.specs.Clients.{IsSoundClient};
    ghost use Rattle.client_desk.specs.ClientOf.{plain_client};

    /// Makes a client of the service at a number of a schema. Where `named` is true, the name and `:` stand in front of methods (Thrift:
    /// TMultiplexedProtocol). It takes no memory.
    pub fn new(
        schema: Schema,
        service: u32,
        name: ByteText,
        protocol: Protocol,
        named: bool,
        max_frame: u32,
    ) -> Self
        requires { IsSoundClient (record { schema = schema_of schema; service = service; name = name; protocol = protocol; named = named; max_frame = max_frame }) }
        ensures { plain_client result ≡ record { schema = schema_of schema; service = service; name = name; protocol = protocol; named = named; max_frame = max_frame } }
    {
        Client {
            schema,
            service,
            name,
            protocol,
            named,
            max_frame,
        }
    }
}
