//! Calls with each request for memory refused in turn.

// More requests than any call of these tests makes.
const MANY: u64 = 99;

/// Tries a call with 0 granted requests for memory, then 1, and so on, until `is_enough` returns
/// that so many were enough; returns that number, or none if 98 aren't enough.
///
/// `is_enough` is handed the number of granted requests. It makes all anew, tries the call, and
/// checks what a refused one has left.
pub fn requests_until_enough<F: Fn(u64) -> bool + Drop>(is_enough: F) -> Option<u64>
    requires { F.IsAlwaysCallable is_enough }
{
    for granted in 0..MANY {
        if is_enough(granted) {
            return Some(granted);
        }
    }
    None
}

/// Lends what is made with an allocator, first to what prepares it, and then, with so many requests
/// granted, to a call that returns whether they were enough. Expects that one was refused if not.
#[macro_export]
macro_rules! try_on_new {
    (
        $test:expr, $granted:expr; $new:path $(, $made_of:expr)*;
        $prepare:path $(, $prepared_by:expr)*; $call:path $(, $given:expr)*
    ) => {{
        let allocator = RefusingAllocator::unlimited($test.alloc());
        let enough = test_helpers::lend($new(&allocator $(, $made_of)*), |new| {
            $prepare($test, new $(, $prepared_by)*);
            allocator.grant($granted);
            $call($test, new $(, $given)*)
        });
        $test.expect(enough != allocator.refused());
        enough
    }};
}
