//! Tables of cases.

/// An array of rows. What is in the braces is laid out by hand: a row takes a line.
#[macro_export]
macro_rules! rows {
    ($($row:expr),* $(,)?) => {
        [$($row),*]
    };
}
