//! Laws of the end of serving, each the contract of a function that does nothing.

ghost use Rattle.host_loop.specs.Served.{ServerSetting, ServedRun, IsServed};
ghost use Rattle.host_loop.specs.Ending.{EndsServing, ServesNothing};

/// What is known where serving ends is what serving promises.
pub fn what_ends_is_served()
    ensures { (s : ServerSetting) (run : ServedRun) → EndsServing s run → IsServed s run }
{}

/// Where nothing was served, what serving promises is so too.
pub fn nothing_is_served()
    ensures { (s : ServerSetting) (run : ServedRun) → ServesNothing s run → IsServed s run }
{}
