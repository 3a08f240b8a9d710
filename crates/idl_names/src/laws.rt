//! What holds of files that were loaded.

ghost use Rattle.std.specs.Prelude.{List, All};
ghost use Rattle.idl_include.specs.declared.sources.IdlFile.{IdlFile};
ghost use Rattle.idl_include.specs.SourcesOf.{AreFiles};
ghost use Rattle.idl_names.specs.Bases.{HasOwnBase};

/// Each file of a program has in memory the base name of its name.
pub fn files_of_a_program_have_their_own_bases()
    ensures { (files : List IdlFile) → AreFiles files → All HasOwnBase files }
{}
