//! Worked examples of the definitions, each the contract of a function that does nothing.

ghost use Rattle.std.specs.Prelude.{◌≡◌, ◌++◌, codes, pos};
ghost use Rattle.script_text.specs.Printing.{print_of};
ghost use Rattle.workload.specs.LoadPlan.{workload_plan};
ghost use Rattle.workload.specs.ExpectedRun.{work_text};

/// The script of two frames.
pub fn two_frames_are_written()
    ensures { print_of (workload_plan 1 2)
        ≡ codes "open\nopen\n" ++ (codes "data 0 0000001e80010001000000036164640000000008000100006c5708000200006fac00\n"
        ++ (codes "data 1 00000036800100010000000963616c63756c61746500000001080001000000010c000208000100008268080002000086b3080003000000020000\n" ++ codes "end 0\nend 1\n")) }
{}

/// What runs of one frame and of two come to.
pub fn runs_are_summed_up()
    ensures one { work_text 1 1 ≡ codes "connections 1\nframes 1\ncalls 1\nbytes in 34\nbytes out 27\nsum 56323\n" }
    ensures two { work_text 1 2 ≡ codes "connections 2\nframes 2\ncalls 2\nbytes in 92\nbytes out 60\nsum 55224\n" }
{}
