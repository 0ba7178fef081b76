//! Values that are lent to checks.
use crate::steps::{Checked, Failed};
use std::alloc::Global;
use std::rc::Rc;

/// Runs a test whose checks are lent what `new` makes of the allocator.
// The types of test and value are parameters since the borrow checker covers no call of a closure
// with a reference to a type that itself holds references.
pub fn test_on_new<T: Checked, M: Drop, N: FnOnce(Global) -> M, F: FnOnce(&T, &mut M)>(
    alloc: Global,
    new: N,
    checks: F,
) -> Result<(), Failed>
    requires new { N.IsAlwaysCallable new }
    requires checks { F.IsAlwaysCallable checks }
{
    let test = T::begin(alloc);
    checks(&test, &mut new(alloc));
    test.finish()
}

/// Runs a test whose checks are lent the only share of a number.
pub fn test_on_share<T: Checked, F: FnOnce(&T, &Rc<u8>)>(
    alloc: Global,
    checks: F,
) -> Result<(), Failed>
    requires { F.IsAlwaysCallable checks }
{
    let test = T::begin(alloc);
    match Rc::new(alloc, 1) {
        Ok(share) => checks(&test, &share),
        Err(_) => test.fail(),
    }
    test.finish()
}

/// Lends a value to checks, drops it, and returns what they return.
///
/// What a test owns costs its proof more than all that it is lent to. Here its type is a parameter,
/// so the proof says nothing of what it holds.
pub fn lend<M: Drop, R, F: FnOnce(&mut M) -> R>(mut owned: M, checks: F) -> R
    requires { F.IsAlwaysCallable checks }
{
    checks(&mut owned)
}

/// Lends a value to what fills it, and hands it on.
pub fn filled<M: Drop, F: FnOnce(&mut M)>(mut owned: M, fill: F) -> M
    requires { F.IsAlwaysCallable fill }
{
    fill(&mut owned);
    owned
}

/// Lends what was made to checks, or hands what was refused to others. Returns whether it was made.
pub fn lend_made<M: Drop, E, F: FnOnce(&mut M), G: FnOnce(E)>(
    made: Result<M, E>,
    checks: F,
    checks_refused: G,
) -> bool
    requires made { F.IsAlwaysCallable checks }
    requires refused { G.IsAlwaysCallable checks_refused }
{
    match made {
        Ok(mut owned) => {
            checks(&mut owned);
            true
        }
        Err(refused) => {
            checks_refused(refused);
            false
        }
    }
}
