//! Worked examples of the definitions, each the contract of a function that does nothing.

ghost use Rattle.std.specs.Prelude.{◌≡◌, true, false};
ghost use Rattle.envelope.specs.declared.head.Protocol.TheVariants.{Binary};
ghost use Rattle.call_model.specs.Examples.{calculator_office, tutorial_schema};
ghost use Rattle.workload.specs.Calculators.{IsCalculatorsOffice};
ghost use Rattle.workload.specs.CalculatorTests.{is_calculator};

/// The tutorial's calculator is one, and the service that it extends is none; so what the laws ask of an office can be met.
pub fn the_tutorial_has_a_calculator()
    ensures first { is_calculator tutorial_schema 0 ≡ true }
    ensures second { is_calculator tutorial_schema 1 ≡ false }
    ensures office { IsCalculatorsOffice (calculator_office Binary) }
{}
