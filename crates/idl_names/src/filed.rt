//! Things in files, and things that have a name.

ghost use Rattle.std.specs.Prelude.{◌≡◌};

use idl_parser::{Const, Definition, Enum, EnumValue, Field, Function, Service, Struct, Typedef};

/// Something in a file, by reference.
#[derive(Clone, Copy)]
pub struct InFile<'a, D> {
    /// The number of the file.
    pub file: u32,
    /// What stands there.
    pub item: &'a D,
}

/// What has a name.
pub trait Named {
    ghost use Rattle.std.specs.Prelude.{ℕ, List};

    ghost text: { Self → List ℕ };

    /// The name.
    fn name_bytes(&self) -> &[u8]
        ensures { result.now ≡ text self.now };
}

impl Named for Const {
    ghost text = { λ c. c.name.text };

    fn name_bytes(&self) -> &[u8] {
        self.name.text.as_slice()
    }
}

impl Named for Typedef {
    ghost text = { λ t. t.name.text };

    fn name_bytes(&self) -> &[u8] {
        self.name.text.as_slice()
    }
}

impl Named for Enum {
    ghost text = { λ e. e.name.text };

    fn name_bytes(&self) -> &[u8] {
        self.name.text.as_slice()
    }
}

impl Named for Struct {
    ghost text = { λ s. s.name.text };

    fn name_bytes(&self) -> &[u8] {
        self.name.text.as_slice()
    }
}

impl Named for Service {
    ghost text = { λ s. s.name.text };

    fn name_bytes(&self) -> &[u8] {
        self.name.text.as_slice()
    }
}

impl Named for EnumValue {
    ghost text = { λ v. v.name.text };

    fn name_bytes(&self) -> &[u8] {
        self.name.text.as_slice()
    }
}

impl Named for Field {
    ghost text = { λ f. f.name.text };

    fn name_bytes(&self) -> &[u8] {
        self.name.text.as_slice()
    }
}

impl Named for Function {
    ghost text = { λ f. f.name.text };

    fn name_bytes(&self) -> &[u8] {
        self.name.text.as_slice()
    }
}

impl Named for Definition {
    ghost use Rattle.idl_include.specs.Declarations.{declared_name};
    ghost use Rattle.idl_include.specs.DeclaredIn.{definition_in};

    ghost text = { λ d. (declared_name (definition_in d)).text };

    #[tactic(auto, unfolding(idl_include::specs::DeclaredIn::definition_in))]
    fn name_bytes(&self) -> &[u8] {
        match self {
            Definition::Const(c) => c.name.text.as_slice(),
            Definition::Typedef(t) => t.name.text.as_slice(),
            Definition::Enum(e) => e.name.text.as_slice(),
            Definition::Struct(s) => s.name.text.as_slice(),
            Definition::Service(s) => s.name.text.as_slice(),
        }
    }
}
