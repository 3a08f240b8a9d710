//! Chains of mere names: of them evaluating enters the end alone.

ghost use Rattle.std.specs.Prelude.{◌≡◌};
ghost use Rattle.idl_include.specs.DeclaredIn.{value_in};
ghost use Rattle.idl_const.specs.ChainEnds.{name_place};

use idl_parser::ConstTree;
use idl_token::Place;

/// Where a chain of mere names ends.
#[derive(Clone, Copy)]
pub enum ChainEnd {
    /// At the given value of some number, which is no name.
    Value(u32),
    /// At the number of a value of the enum of some number.
    Number(u32, i64),
    /// At a name that stands for nothing.
    Unknown,
}

/// The place of a mere name.
pub(crate) fn name_place(tree: &ConstTree) -> Option<Place>
    ensures { result ≡ name_place (value_in tree.now) }
{
    match tree {
        ConstTree::Name(name) => Some(name.at),
        ConstTree::Int(_)
        | ConstTree::Double(_)
        | ConstTree::Literal(_)
        | ConstTree::List(_, _)
        | ConstTree::Map(_, _) => None,
    }
}
