// Examples of arithmetic, worked out.
ghost use Rattle.alu.specs.Examples.{ArithmeticExamples};

// The definitions that the contracts cite answer the examples: the proof computes them, and no code runs.
pub fn arithmetic_examples_hold()
    ensures { ArithmeticExamples }
{}
