//! The calculator and its functions.

ghost use Rattle.std.specs.Prelude.{◌≡◌};
ghost use Rattle.thrift_value.specs.Tree.{Tree};
ghost use Rattle.thrift_value.specs.TreeOf.{tree_of};
ghost use Rattle.call_rules.specs.Answers.{plain_answer};
ghost use Rattle.call_rules.specs.CalculatorRule.{add_answered};

use crate::numbers::calculation;
use crate::structs::{numbered_text, value_text};
use call_rules::{
    Answer, Handler, Kind, are_shapes, argument, fields_passed, number_passed, number_with_id,
};
use std::alloc::{AllocError, Global};
use std::collections::BTreeMap;
use thrift_value::{ByteText, FnShapes, Value};

/// The shapes of the calculator's functions.
const SHAPES: [&[u8]; 5] = [
    b"add(1:i32,2:i32):i32",
    b"calculate(1:i32,2:struct):i32 throws(1:struct)",
    b"getStruct(1:i32):struct",
    b"ping():void",
    b"oneway zip():void",
];

/// The calculator of the Thrift tutorial.
#[derive(Drop)]
pub struct Calculator {
    // The text of each value that was calculated, by the log's number.
    texts: BTreeMap<i32, ByteText>,
}

#[tactic(auto, using(thrift_value::proofs::Trees::tree_equations))]
impl Calculator {
    ghost use Rattle.std.specs.Prelude.{◌≡◌, map, IfOk, OnOk, OnErr};
    ghost use Rattle.thrift_value.specs.declared.tag.Tag.TheVariants as tags;
    ghost use Rattle.std.specs.Option.{option_map, option_copied};
    ghost use Rattle.thrift_value.specs.TreeOf.{tree_of, field_tree, field_trees};
    ghost use Rattle.thrift_value.specs.Tree.{of_i32, of_bytes};
    ghost use Rattle.call_rules.specs.declared.kind.Kind.TheVariants as kinds;
    ghost use Rattle.call_rules.specs.Answers.{plain_answer};
    ghost use Rattle.call_rules.specs.Handling.{new_service};
    ghost use Rattle.call_rules.specs.Memories.{pairs_in, texts_by, value_at_key, pairs_with};
    ghost use Rattle.call_rules.specs.CalculatorRule.{calculate_answered, calculation, get_struct_answered, work_done, calculated, kept_struct};
    ghost use Rattle.calculator.specs.Kept.{calculator_memory, calculator_service, result_seen};

    /// Makes a calculator that has calculated nothing; takes no memory.
    pub fn new(alloc: Global) -> Self
        ensures { calculator_service result ≡ new_service kinds.Calculator }
    {
        Calculator {
            texts: BTreeMap::new(alloc),
        }
    }

    /// Keeps a text under a log's number.
    fn keep(&mut self, logid: i32, text: ByteText) -> Result<(), AllocError>
        ensures ok { OnOk result (calculator_memory self.new
            ≡ texts_by tags.I32 (pairs_with (of_i32 logid) (of_bytes text) (pairs_in (calculator_memory self.old)))) }
        ensures err { OnErr result (calculator_memory self.new ≡ calculator_memory self.old) }
    {
        self.texts.insert(logid, text)?;
        Ok(())
    }

    /// The text that is kept under a key, where there is one.
    fn kept(&self, key: i32) -> Option<&ByteText>
        ensures { option_map (λ text. of_bytes text) (option_copied result) ≡ value_at_key (of_i32 key) (pairs_in (calculator_memory self.now)) }
    {
        self.texts.get(&key)
    }

    /// A value that was calculated, whose text is kept, or why there is none.
    #[tactic(auto, using(thrift_value::proofs::Trees::tree_equations), unfolding(call_rules::specs::CalculatorRule::calculated))]
    fn settle(
        &mut self,
        alloc: Global,
        logid: i32,
        op: i32,
        made: Result<i32, &'static str>,
    ) -> Result<Answer, AllocError>
        ensures answered { IfOk result (λ answer. plain_answer answer
            ≡ (calculated (calculator_memory self.old) logid op (result_seen made.entry)).answer) }
        ensures moved { OnOk result (calculator_memory self.new
            ≡ (calculated (calculator_memory self.old) logid op (result_seen made.entry)).memory) }
        ensures err { OnErr result (calculator_memory self.new ≡ calculator_memory self.old) }
    {
        match made {
            Ok(value) => {
                let text = value_text(alloc, value)?;
                self.keep(logid, text)?;
                Ok(Answer::Success(Value::I32(value)))
            }
            Err(why) => {
                let why = ByteText::new(why.as_bytes().to_vec(alloc)?);
                Ok(Answer::Throws(1, numbered_text(alloc, op, why)?))
            }
        }
    }

    /// What two numbers come to under an operation, settled.
    fn settle_numbers(
        &mut self,
        alloc: Global,
        logid: i32,
        op: i32,
        num1: i32,
        num2: i32,
    ) -> Result<Answer, AllocError>
        ensures answered { IfOk result (λ answer. plain_answer answer
            ≡ (calculated (calculator_memory self.old) logid op (calculation op num1 num2)).answer) }
        ensures moved { OnOk result (calculator_memory self.new
            ≡ (calculated (calculator_memory self.old) logid op (calculation op num1 num2)).memory) }
        ensures err { OnErr result (calculator_memory self.new ≡ calculator_memory self.old) }
    {
        self.settle(alloc, logid, op, calculation(op, num1, num2))
    }

    /// Calculates, for a log's number and the fields of its work.
    #[tactic(auto, unfolding(call_rules::specs::CalculatorRule::work_done))]
    fn work(
        &mut self,
        alloc: Global,
        logid: i32,
        work: &[(i16, Value)],
    ) -> Result<Answer, AllocError>
        ensures answered { IfOk result (λ answer. plain_answer answer
            ≡ (work_done (calculator_memory self.old) logid (field_trees (map field_tree work.now))).answer) }
        ensures moved { OnOk result (calculator_memory self.new
            ≡ (work_done (calculator_memory self.old) logid (field_trees (map field_tree work.now))).memory) }
        ensures err { OnErr result (calculator_memory self.new ≡ calculator_memory self.old) }
    {
        let Some(num1) = number_with_id(work, 1) else {
            return Ok(Answer::Broken);
        };
        let Some(num2) = number_with_id(work, 2) else {
            return Ok(Answer::Broken);
        };
        let Some(op) = number_with_id(work, 3) else {
            return Ok(Answer::Broken);
        };
        self.settle_numbers(alloc, logid, op, num1, num2)
    }

    /// `calculate(logid, w)`
    #[tactic(auto, unfolding(call_rules::specs::CalculatorRule::calculate_answered))]
    fn calculate(&mut self, alloc: Global, args: &Value) -> Result<Answer, AllocError>
        ensures answered { IfOk result (λ answer. plain_answer answer ≡ (calculate_answered (calculator_memory self.old) (tree_of args.now)).answer) }
        ensures moved { OnOk result (calculator_memory self.new ≡ (calculate_answered (calculator_memory self.old) (tree_of args.now)).memory) }
        ensures err { OnErr result (calculator_memory self.new ≡ calculator_memory self.old) }
    {
        let Some(logid) = number_passed(argument(args, 1)) else {
            return Ok(Answer::Broken);
        };
        let Some(work) = fields_passed(argument(args, 2)) else {
            return Ok(Answer::Broken);
        };
        self.work(alloc, logid, work)
    }

    /// `getStruct(key)`
    #[tactic(auto, unfolding(call_rules::specs::CalculatorRule::get_struct_answered))]
    fn get_struct(&self, alloc: Global, args: &Value) -> Result<Answer, AllocError>
        ensures answered { IfOk result (λ answer. plain_answer answer ≡ (get_struct_answered (calculator_memory self.now) (tree_of args.now)).answer) }
        ensures still { OnOk result ((get_struct_answered (calculator_memory self.now) (tree_of args.now)).memory ≡ calculator_memory self.now) }
    {
        let Some(key) = number_passed(argument(args, 1)) else {
            return Ok(Answer::Broken);
        };
        self.told(alloc, key)
    }

    /// The struct of a key, where a text is kept under it.
    fn told(&self, alloc: Global, key: i32) -> Result<Answer, AllocError>
        ensures { IfOk result (λ answer. plain_answer answer
            ≡ kept_struct key (value_at_key (of_i32 key) (pairs_in (calculator_memory self.now)))) }
    {
        match self.kept(key) {
            None => Ok(Answer::Empty),
            Some(text) => {
                let text = text.try_clone(alloc)?;
                Ok(Answer::Success(numbered_text(alloc, key, text)?))
            }
        }
    }
}

impl Calculator {
    ghost use Rattle.std.specs.Prelude.{◌≡◌, IfOk, OnOk, OnErr};
    ghost use Rattle.thrift_value.specs.TreeOf.{tree_of};
    ghost use Rattle.call_rules.specs.Answers.{plain_answer};
    ghost use Rattle.call_rules.specs.Handling.{handled, service_after};
    ghost use Rattle.calculator.specs.Kept.{calculator_service};

    /// Answers a call.
    fn respond(&mut self, alloc: Global, method: &[u8], args: &Value) -> Result<Answer, AllocError>
        ensures answered { IfOk result (λ answer. plain_answer answer ≡ (handled (calculator_service self.old) method.now (tree_of args.now)).answer) }
        ensures moved { OnOk result (calculator_service self.new ≡ service_after (calculator_service self.old) method.now (tree_of args.now)) }
        ensures err { OnErr result (calculator_service self.new ≡ calculator_service self.old) }
    {
        if method == b"ping".as_slice() {
            return Ok(Answer::Empty);
        }
        if method == b"zip".as_slice() {
            return Ok(Answer::Empty);
        }
        if method == b"add".as_slice() {
            return Ok(add(args));
        }
        if method == b"calculate".as_slice() {
            return self.calculate(alloc, args);
        }
        if method == b"getStruct".as_slice() {
            return self.get_struct(alloc, args);
        }
        Ok(Answer::Broken)
    }
}

impl Handler for Calculator {
    ghost use Rattle.std.specs.Prelude.{◌≡◌, IfOk, OnOk, OnErr};
    ghost use Rattle.thrift_value.specs.TreeOf.{tree_of};
    ghost use Rattle.call_rules.specs.Answers.{plain_answer};
    ghost use Rattle.call_rules.specs.Handling.{handled, service_after};
    ghost use Rattle.calculator.specs.Kept.{calculator_service};

    ghost service = { calculator_service };

    fn kind(&self) -> Kind {
        Kind::Calculator
    }

    fn suits(&self, shapes: &FnShapes) -> bool {
        are_shapes(shapes, &SHAPES)
    }

    fn answer(&mut self, alloc: Global, method: &[u8], args: &Value) -> Result<Answer, AllocError> {
        self.respond(alloc, method, args)
    }
}

/// `add(num1, num2)`
#[tactic(auto, using(thrift_value::proofs::Trees::tree_equations), unfolding(call_rules::specs::CalculatorRule::add_answered))]
fn add(args: &Value) -> Answer
    ensures answered { (memory : Tree) → plain_answer result ≡ (add_answered memory (tree_of args.now)).answer }
    ensures still { (memory : Tree) → (add_answered memory (tree_of args.now)).memory ≡ memory }
{
    let Some(num1) = number_passed(argument(args, 1)) else {
        return Answer::Broken;
    };
    let Some(num2) = number_passed(argument(args, 2)) else {
        return Answer::Broken;
    };
    Answer::Success(Value::I32(num1.wrapping_add(num2)))
}
