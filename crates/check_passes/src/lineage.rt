//! The names that services inherit, as the test of functions asks for them.

use crate::function_tests::Lineage;
use idl_types::InheritedNames;

impl<'a> Lineage for InheritedNames<'a> {
    ghost use Rattle.idl_types.specs.Inherited.{TellsInherited};

    ghost right = { λ names program. TellsInherited program names };

    fn inherits(&self, service: u32, name: &[u8]) -> bool {
        self.has(service, name)
    }
}
