//! Examples of what the definitions compute, each the contract of a function that does nothing.

ghost use Rattle.std.specs.Prelude.{◌≡◌, pos, negsuc, codes, None, Some, [], ◌∷◌};
ghost use Rattle.idl_parser.specs.Phrases.{none};
ghost use Rattle.idl_include.specs.FileNames.{included_name, base_name};
ghost use Rattle.idl_include.specs.Program.{SourceFile, Program};
ghost use Rattle.idl_parser.specs.Unplaced.{nowhere};
ghost use Rattle.idl_include.specs.Decoded.{declarations_of, includes_of};
ghost use Rattle.idl_include.specs.Readings.{includes_itself, same_base, absent};
ghost use Rattle.idl_include.specs.Loading.{Loaded, loaded, stopped, LoadFlaw, program_by};
ghost use Rattle.idl_include.specs.FieldIds.{field_ids};
ghost use Rattle.idl_include.specs.EnumNumbers.{enum_numbers};
ghost use Rattle.idl_include.specs.Names.{a_struct, type_named};
ghost use Rattle.idl_include.specs.ConstNames.{enum_value, given_value, const_meaning};
ghost use Rattle.idl_include.specs.SmallPrograms.{column, one_file, with_id, with_number, struct_tree, narrow, crossed, takes_itself, named_number, including, two_files, any_name};

/// A folder and a literal are cleaned together; a literal from the root isn't.
pub fn names_of_files()
    ensures beside { included_name (codes "x/a.thrift") (codes "b.thrift") ≡ codes "x/b.thrift" }
    ensures above { included_name (codes "x/a.thrift") (codes "../y/./b.thrift") ≡ codes "y/b.thrift" }
    ensures too_far { included_name (codes "a.thrift") (codes "../b.thrift") ≡ codes "../b.thrift" }
    ensures from_the_root { included_name (codes "x/a.thrift") (codes "/x/../b.thrift") ≡ codes "/x/../b.thrift" }
    ensures behind_an_empty_segment { included_name (codes "a.thrift") (codes "x//../b") ≡ codes "x//../b" }
    ensures base { base_name (codes "x/a.b.thrift") ≡ codes "a.b" }
{}

/// A file is loaded once, and a file that leads back to itself, or shares a base name, is a fault.
pub fn loading()
    ensures two { program_by any_name (two_files (including (codes "b.thrift")) none) (codes "x/a.thrift") ≡ loaded
        (record { name = codes "x/a.thrift"; declarations = []; includes = 1 ∷ [] } ∷ record { name = codes "x/b.thrift"; declarations = []; includes = [] } ∷ []) }
    ensures circle { program_by any_name (two_files (including (codes "b.thrift")) (including (codes "a.thrift"))) (codes "x/a.thrift")
        ≡ stopped (record { file = codes "x/b.thrift"; at = column 9; kind = includes_itself }) }
    ensures same_base { program_by any_name (two_files (including (codes "../a.thrift")) none) (codes "x/a.thrift")
        ≡ stopped (record { file = codes "x/a.thrift"; at = column 9; kind = same_base }) }
    ensures no_file { program_by any_name (two_files none none) (codes "a.thrift") ≡ stopped (record { file = codes "a.thrift"; at = nowhere; kind = absent }) }
{}

/// A tree is decoded; ids and numbers go on; names are looked up.
pub fn declarations()
    ensures decoded { one_file (declarations_of struct_tree) ≡ narrow }
    ensures ids { field_ids (with_id None ∷ with_id (Some (pos 3)) ∷ with_id None ∷ []) ≡ negsuc 0 ∷ pos 3 ∷ negsuc 1 ∷ [] }
    ensures numbers { enum_numbers (with_number None ∷ with_number (Some (pos 5)) ∷ with_number None ∷ []) ≡ pos 0 ∷ pos 5 ∷ pos 6 ∷ [] }
    ensures struct_name { type_named takes_itself 0 (codes "S") ≡ Some (a_struct 0) }
    ensures number_named { const_meaning named_number 0 (codes "E.Y") ≡ Some (enum_value 0 (pos 5)) }
    ensures bare_number { const_meaning named_number 0 (codes "Y") ≡ None }
    ensures constant { const_meaning crossed 0 (codes "B") ≡ Some (given_value 1) }
{}
