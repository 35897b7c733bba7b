// Worked examples, computed from the definitions.
ghost use Rattle.session.specs.Examples.{WorkedExamples};

// There is nothing to run: the definitions compute to these answers.
pub fn worked_examples_hold()
    ensures { WorkedExamples }
{}
