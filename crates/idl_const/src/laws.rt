//! What holds of all constants.

ghost use Rattle.std.specs.Prelude.{◌≡◌, ℕ, All};
ghost use Rattle.idl_include.specs.ConstExpr.{ConstExpr};
ghost use Rattle.idl_include.specs.Numbering.{Filed};
ghost use Rattle.idl_include.specs.Program.{Program};
ghost use Rattle.idl_include.specs.Spots.{GivenValue};
ghost use Rattle.thrift_value.specs.Tree.{Tree};
ghost use Rattle.schema.specs.PlainKind.{PlainKind};
ghost use Rattle.schema.specs.PlainSchema.{PlainSchema};
ghost use Rattle.schema.specs.Sound.{IsKindIn, IsSoundStruct, IsValueOf};
ghost use Rattle.check_model.specs.SchemaParts.{IsSchemaWith, IsPartialSchema};
ghost use Rattle.check_model.specs.ProgramSchema.{DefaultIn};
ghost use Rattle.check_model.specs.Worths.{valued};
ghost use Rattle.check_model.specs.Evaluation.{Setting, evaluated, given_worth};
ghost use Rattle.idl_const.specs.ShortLiterals.{HasShortLiterals, GivesShortLiterals};

/// What a constant value is worth against a type is tidy, has at most 64 levels, and may be written as the type: one that stands
/// anywhere, one that a program gives, and this one also in the schema that has the program's defaults.
pub fn values_may_be_written()
    ensures anywhere { (s : Setting) → IsPartialSchema s.program s.schema → All (IsSoundStruct s.schema) s.schema.structs → GivesShortLiterals s.program
        → (file : ℕ) (kind : PlainKind) (tree : ConstExpr) (value : Tree) (count : ℕ) → IsKindIn s.schema kind → HasShortLiterals tree
        → evaluated s file kind tree ≡ valued value count → IsValueOf s.schema kind value }
    ensures given { (s : Setting) → IsPartialSchema s.program s.schema → All (IsSoundStruct s.schema) s.schema.structs → GivesShortLiterals s.program
        → (which : ℕ) (kind : PlainKind) (v : Filed GivenValue) (value : Tree) (count : ℕ) → IsKindIn s.schema kind → HasShortLiterals v.item.tree
        → given_worth s which kind v ≡ valued value count → IsValueOf s.schema kind value }
    ensures whole { (program : Program) (partial whole : PlainSchema) → IsPartialSchema program partial
        → IsSchemaWith (DefaultIn (record { program = program; schema = partial })) program whole → All (IsSoundStruct partial) partial.structs → GivesShortLiterals program
        → (which : ℕ) (kind : PlainKind) (v : Filed GivenValue) (value : Tree) (count : ℕ) → IsKindIn partial kind → HasShortLiterals v.item.tree
        → given_worth (record { program = program; schema = partial }) which kind v ≡ valued value count → IsValueOf whole kind value }
{}
