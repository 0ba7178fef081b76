//! What tests of several parts begin and end with.

/// Runs the parts of a test that are lent the same value, one after another.
#[macro_export]
macro_rules! run_parts {
    ($test:expr, $lent:expr; $($part:path),+) => {{
        $(
            $test.begin(stringify!($part));
            $part($test, $lent);
        )+
    }};
}

/// Runs a test of parts that need nothing but the test.
#[macro_export]
macro_rules! test_all {
    ($alloc:expr; $($part:path),+) => {{
        let test = Test::new($alloc);
        $(
            test.begin(stringify!($part));
            $part(&test);
        )+
        test.end()
    }};
}
