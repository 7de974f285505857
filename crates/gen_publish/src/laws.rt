//! The law of the newest generation, which no call's contract names.
ghost use Rattle.gen_publish.specs.Entering.{EntersTheLast};

/// An enter gets the generation that was committed last at the step of its atomic addition.
pub fn enter_law()
    ensures { EntersTheLast }
{}
