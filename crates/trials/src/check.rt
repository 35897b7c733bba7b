// Checks that answer a failure in place of ending the test, for the functions that several tests share.
use std::fmt::Debug;
use std::test::Fail;

// Answers a failure unless two values are equal.
pub(crate) fn check_eq<T: PartialEq + Debug + Drop>(left: T, right: T) -> Result<(), Fail> {
    if left == right {
        return Ok(());
    }
    Err(Fail::new(format_args!("{left:?} is not {right:?}")))
}
