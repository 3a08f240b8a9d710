//! The program's words, read: which command they are, with its words and options.
//!
//! ```
//! // serve @tutorial binary 2 Calculator=calculator --listen 9090 --accept 100 --journal calls.txt
//! match read_words(alloc, words)? {                   // Usage where the words are no command
//!     Command::Check(idl) => ..,
//!     Command::Serve { served, port, accept, journal } => ..,
//!     ..
//! }
//! ```
//!
//! The words leave the program's name out. What they are is defined in `specs/Words.antt`, for the words behind a command in
//! `specs/Options.antt`. Options stand anywhere behind the command, as `--name value` or `--name=value`, and so do flags, as `--name` (`specs/Flags.antt`), each at
//! most once; any other word that begins with `-` makes no command. `clap` sorts options from other words; what they mean is decided here.
//!
//! Not here: whether files are there, whether an IDL has such services, and what a usage line says.
#![tactic(auto)]

mod calling;
mod command;
pub mod examples;
mod flags;
mod limit_options;
mod numbers;
mod options;
mod pairs;
mod served;
mod sorting;

pub use calling::AskedCall;
pub use command::{Command, ComparedIdls, WordsFault, read_words};
pub use served::ServedIdl;
