// What is answered to a line that says nothing.

// The line is not what may stand in its place.
#[derive(Clone, Copy, PartialEq, Eq, Debug)]
pub struct NotUnderstood;
