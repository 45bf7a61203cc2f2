// Examples: how many bodies renders evaluate.
ghost use Rattle.cost_laws.specs.Examples.{EqualInputsSpare};

/// Components that are given equal props and children, and have no cause, are not evaluated, declared by `memo` or not (react.dev,
/// memo).
pub fn equal_inputs_spare_bodies()
    ensures { EqualInputsSpare }
{}
