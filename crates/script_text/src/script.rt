//! A script.

ghost use Rattle.std.specs.Prelude.{◌≡◌, map};
ghost use Rattle.script_text.specs.Plans.{plain_line, plain_rules, plan_of};
ghost use Rattle.script_text.specs.Sound.{IsKeptScript};

use crate::lines::{RuleLists, ScriptLines};
use std::marker::Model;

/// A script: its lines in order, and each connection's rules. It is sound: its print has no fault but its length.
pub struct Script {
    /// The lines that aren't rules.
    lines: ScriptLines,
    /// Each connection's rules.
    rules: RuleLists,
}

impl Model for Script {
    ghost use Rattle.script_model.specs.ScriptLines.{ScriptPlan};
    ghost use Rattle.script_text.specs.Plans.{plan_of};
    ghost use Rattle.script_text.specs.Sound.{IsKeptScript};

    ghost Value = { ScriptPlan };

    ghost view = { λ s. plan_of s.lines s.rules };

    ghost invariant = { λ s. IsKeptScript (plan_of s.lines s.rules) };
}

// Written out, so that crates above needn't prove it again.
impl Drop for Script {
    fn drop(self) {
        let Script { lines, rules } = self;
        drop(lines);
        drop(rules);
    }
}

impl Script {
    /// Makes the script of these lines and rules, which is sound; takes no memory.
    pub fn new(lines: ScriptLines, rules: RuleLists) -> Self
        requires { IsKeptScript (plan_of lines rules) }
        ensures { result ≡ plan_of lines rules }
    {
        Script { lines, rules }
    }

    /// The lines that aren't rules. The print of the script has no fault.
    pub fn lines(&self) -> &ScriptLines
        ensures lines { map plain_line result.now ≡ self.now.lines }
        ensures sound { IsKeptScript self.now }
    {
        &self.lines
    }

    /// Each connection's rules.
    pub fn rules(&self) -> &RuleLists
        ensures { map plain_rules result.now ≡ self.now.rules }
    {
        &self.rules
    }

    /// Gives the lines and the rules back; takes no memory.
    pub fn into_parts(self) -> (ScriptLines, RuleLists)
        ensures { plan_of result.0 result.1 ≡ self }
    {
        let Script { lines, rules } = self;
        (lines, rules)
    }
}
