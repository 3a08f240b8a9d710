//! What holds of passes one after another.

ghost use Rattle.std.specs.Prelude.{◌++◌, List};
ghost use Rattle.std.specs.List.{AllByRecursion};
ghost use Rattle.idl_include.specs.Program.{Program};
ghost use Rattle.check_model.specs.Passes.{Pass, passes};
ghost use Rattle.check_model.specs.FirstFlaw.{ProgramFlaw, FindsNothing, IsFirstFlaw};
ghost use Rattle.check_passes.specs.Passed.{IsFirstAmong};

/// The first fault among some passes is the first among these and more, and after passes that find nothing it is so too; the first
/// among all passes is the first flaw of the program.
pub fn the_first_fault_among_passes()
    ensures of_more { (program : Program) (some more : List Pass) (flaw : ProgramFlaw) → IsFirstAmong program some flaw → IsFirstAmong program (some ++ more) flaw }
    ensures behind { (program : Program) (some more : List Pass) (flaw : ProgramFlaw) → AllByRecursion (FindsNothing program) some
        → IsFirstAmong program more flaw → IsFirstAmong program (some ++ more) flaw }
    ensures of_all { (program : Program) (flaw : ProgramFlaw) → IsFirstAmong program passes flaw → IsFirstFlaw program flaw }
{}
