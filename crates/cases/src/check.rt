// Checks that answer a failure in place of ending the test, for the functions that many cases share.
use std::fmt::{Debug, Display};
use std::test::Fail;

// Answers a failure that names the case, unless two values are equal. The check of `trials` has no case to name: one for both would
// have each of its calls make a name up.
pub(crate) fn check_eq<T, N>(left: T, right: T, case: N) -> Result<(), Fail>
where
    T: PartialEq + Debug + Drop,
    N: Display + Drop,
{
    if left == right {
        return Ok(());
    }
    Err(Fail::new(format_args!("{left:?} is not {right:?}: {case}")))
}
