//! `assert_equal!` and `assert_holds!` for crates of tests. Each is one call. `assert_eq!` and `assert!` of
//! `std` write a branch and its text in place, and the proof of a function grows faster than its length. With
//! these macros a test of many comparisons is proved in half the time.
//!
//! They call the function `equal` in the module `asserted` of the crate of tests, since a library has no
//! function that ends the process.
#![tactic(auto)]

/// Ends the test unless both values, which are moved, are equal: `assert_equal!(rt; left, right)`. It reports
/// both, with the expression of the left one, or with the text of `assert_equal!(rt; left, right, "text")`,
/// and the row of a table that is named last: `assert_equal!(rt; left, right; row)`. Own.
#[macro_export]
macro_rules! assert_equal {
    ($rt:expr; $left:expr, $right:expr) => {
        crate::asserted::equal(&$rt, $left, $right, stringify!($left), &"the test")
    };
    ($rt:expr; $left:expr, $right:expr, $text:literal) => {
        crate::asserted::equal(&$rt, $left, $right, $text, &"the test")
    };
    ($rt:expr; $left:expr, $right:expr; $row:expr) => {
        crate::asserted::equal(&$rt, $left, $right, stringify!($left), &$row)
    };
}

/// Ends the test unless this is true: `assert_holds!(rt; is_so)`. It reports the expression, or the text of
/// `assert_holds!(rt; is_so, "text")`, and the row of a table that is named last: `assert_holds!(rt; is_so;
/// row)`. Own.
#[macro_export]
macro_rules! assert_holds {
    ($rt:expr; $is_so:expr) => {
        crate::asserted::equal(&$rt, $is_so, true, stringify!($is_so), &"the test")
    };
    ($rt:expr; $is_so:expr, $text:literal) => {
        crate::asserted::equal(&$rt, $is_so, true, $text, &"the test")
    };
    ($rt:expr; $is_so:expr; $row:expr) => {
        crate::asserted::equal(&$rt, $is_so, true, stringify!($is_so), &$row)
    };
}
