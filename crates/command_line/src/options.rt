//! The options of each command.

/// The options of `check`, `compat` and `workload`.
pub(crate) static NO_OPTIONS: [&str; 0] = [];

/// The options of `rehearse` and `record`.
pub(crate) static SERVED_OPTIONS: [&str; 3] = ["max-frame", "read-budget", "default"];

/// The options of `serve`.
pub(crate) static SERVE_OPTIONS: [&str; 6] = [
    "max-frame",
    "read-budget",
    "default",
    "listen",
    "accept",
    "journal",
];

/// The options of `call`, and behind them its flags, made options.
pub(crate) static CALL_OPTIONS: [&str; 2] = ["to", "multiplexed"];

/// The words of the flags of `call`.
pub(crate) static CALL_FLAGS: [&str; 1] = ["--multiplexed"];
