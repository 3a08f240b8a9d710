//! The tutorial's files, which the program holds.

ghost use Rattle.std.specs.Prelude.{◌≡◌, string_bytes, IfOk};
ghost use Rattle.idl_check.specs.Tutorial.{tutorial_file_text, shared_text, tutorial_files};

use std::alloc::{AllocError, Global};
use streams::MemFiles;

/// The text of tutorial.thrift without its comments.
const TUTORIAL: &[u8] = br#"include "shared.thrift"
namespace cpp tutorial
namespace java tutorial
typedef i32 MyInteger
const i32 INT32CONSTANT = 9853
const map<string,string> MAPCONSTANT = {'hello':'world', 'goodnight':'moon'}
enum Operation {
  ADD = 1,
  SUBTRACT = 2,
  MULTIPLY = 3,
  DIVIDE = 4
}
struct Work {
  1: i32 num1 = 0,
  2: i32 num2,
  3: Operation op,
  4: optional string comment,
}
exception InvalidOperation {
  1: i32 whatOp,
  2: string why
}
service Calculator extends shared.SharedService {
   void ping(),
   i32 add(1:i32 num1, 2:i32 num2),
   i32 calculate(1:i32 logid, 2:Work w) throws (1:InvalidOperation ouch),
   oneway void zip()
}
"#;

/// The text of shared.thrift without its comments.
const SHARED: &[u8] = br#"namespace cpp shared
namespace java shared
struct SharedStruct {
  1: i32 key
  2: string value
}
service SharedService {
  SharedStruct getStruct(1: i32 key)
}
"#;

/// The text of tutorial.thrift.
#[tactic(auto, unfolding(crate::specs::Tutorial::tutorial_file_text))]
fn tutorial() -> &'static [u8]
    ensures { result.now ≡ tutorial_file_text }
{
    TUTORIAL
}

/// The text of shared.thrift.
#[tactic(auto, unfolding(crate::specs::Tutorial::shared_text))]
fn shared() -> &'static [u8]
    ensures { result.now ≡ shared_text }
{
    SHARED
}

/// One of the files, as a store has it.
fn held(alloc: Global, name: &str, text: &[u8]) -> Result<(String, Vec<u8>), AllocError>
    ensures { IfOk result (λ file. (string_bytes file.0 ≡ name.now) × (file.1.items ≡ text.now)) }
{
    let name = String::from_str(alloc, name)?;
    let text = text.to_vec(alloc)?;
    Ok((name, text))
}

/// The two files as a store.
pub(crate) fn tutorial_store(alloc: Global) -> Result<MemFiles, AllocError>
    ensures { IfOk result (λ store. store.files ≡ tutorial_files) }
{
    let mut files = Vec::new(alloc);
    files.push(held(alloc, "tutorial.thrift", tutorial())?)?;
    files.push(held(alloc, "shared.thrift", shared())?)?;
    Ok(MemFiles::new(files, Vec::new(alloc)))
}
