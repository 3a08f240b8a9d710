//! What holds of every program that is checked.

ghost use Rattle.std.specs.Prelude.{◌≡◌, ◌⊎◌, ◌<◌, length};
ghost use Rattle.idl_include.specs.Program.{Program};
ghost use Rattle.check_model.specs.FirstFlaw.{ProgramFlaw, IsFirstFlaw};
ghost use Rattle.check_passes.specs.declared.faults.CheckFault.{CheckFault};
ghost use Rattle.check_passes.specs.declared.faults.CheckKind.TheVariants as check;
ghost use Rattle.check_passes.specs.Faults.{TellsFlaw};

/// The first flaw of a program is in one of its files, and a fault that tells it has that file's number.
pub fn a_first_flaw_is_in_a_file()
    ensures flaw { (program : Program) (flaw : ProgramFlaw) → IsFirstFlaw program flaw → flaw.file < length program }
    ensures fault { (program : Program) (fault : CheckFault) → TellsFlaw (IsFirstFlaw program) fault → (fault.kind ≡ check.NoMemory) ⊎ (fault.file < length program) }
{}
