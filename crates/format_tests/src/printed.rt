//! Texts as they are printed.

use idl_parser::parse;
use idl_printer::print;
use idl_token::{LONGEST_IDL_TEXT, tokens};
use std::alloc::Global;

const TUTORIAL: &[u8] = b"include \"shared.thrift\"
namespace cpp tutorial
namespace java tutorial
typedef i32 MyInteger
const i32 INT32CONSTANT = 9853
const map<string,string> MAPCONSTANT = {'hello':'world', 'goodnight':'moon'}
enum Operation {
  ADD = 1,
  SUBTRACT = 2,
  MULTIPLY = 3,
  DIVIDE = 4
}
struct Work {
  1: i32 num1 = 0,
  2: i32 num2,
  3: Operation op,
  4: optional string comment,
}
exception InvalidOperation {
  1: i32 whatOp,
  2: string why
}
service Calculator extends shared.SharedService {
   void ping(),
   i32 add(1:i32 num1, 2:i32 num2),
   i32 calculate(1:i32 logid, 2:Work w) throws (1:InvalidOperation ouch),
   oneway void zip()
}
";

const TUTORIAL_PRINTED: &[u8] = b"include \"shared.thrift\"
typedef i32 MyInteger
const i32 INT32CONSTANT = 9853
const map<string, string> MAPCONSTANT = {\"hello\": \"world\", \"goodnight\": \"moon\"}

enum Operation {
  ADD = 1
  SUBTRACT = 2
  MULTIPLY = 3
  DIVIDE = 4
}

struct Work {
  1: i32 num1 = 0
  2: i32 num2
  3: Operation op
  4: optional string comment
}

exception InvalidOperation {
  1: i32 whatOp
  2: string why
}

service Calculator extends shared.SharedService {
  void ping()
  i32 add(1: i32 num1, 2: i32 num2)
  i32 calculate(1: i32 logid, 2: Work w) throws (1: InvalidOperation ouch)
  oneway void zip()
}
";

const PARTS: &[u8] = b"const list<double> D = [1.5e3; -.5 2E1] const set<binary> B = []
const string S = 'a\"\\\\\\n\\'\t' const bool T = true
union U { -1: required set<i8> (x) a = [0x1F], T b } (a = 'b')";

const PARTS_PRINTED: &[u8] = b"const list<double> D = [1.5e3, -.5, 2E1]
const set<binary> B = []
const string S = \"a\\\"\\\\\\n'\\t\"
const bool T = 1

union U {
  -1: required set<i8> a = [31]
  T b
}
";

/// Texts, and as they are printed; what is printed is printed as it is.
const ROWS: [(&[u8], &[u8]); 3] = [
    (TUTORIAL, TUTORIAL_PRINTED),
    (TUTORIAL_PRINTED, TUTORIAL_PRINTED),
    (PARTS, PARTS_PRINTED),
];

fn is_printed_so(alloc: Global, text: &[u8], wanted: &[u8]) -> bool {
    if text.len() > LONGEST_IDL_TEXT {
        return false;
    }
    let Ok(all) = tokens(alloc, text) else {
        return false;
    };
    let Ok(document) = parse(alloc, text, all.as_slice()) else {
        return false;
    };
    match print(alloc, &document) {
        Ok(printed) => printed.as_slice() == wanted,
        Err(_) => false,
    }
}

#[test]
fn texts_are_printed(rt: HostRuntime) {
    for (text, wanted) in &ROWS {
        assert!(rt; is_printed_so(rt.alloc(), text, wanted), "{text:?}");
    }
}
