//! The checks of a test, and the first of them that didn't hold.
use std::alloc::Global;
use std::cell::Cell;

/// The first check of a test that failed: its part, its number from 1, and its row from 0.
#[derive(Clone, Copy, Debug)]
pub struct Failed {
    part: &'static str,
    check: usize,
    row: Option<usize>,
}

/// A test that is under way.
///
/// It isn't `Drop`, so a test that makes one has to call [`Test::end`], and can't forget to tell
/// what failed. Its checks are counted and not named: a text that each were handed would cost the
/// borrow checker's proof more than the check.
pub struct Test {
    alloc: Global,
    part: Cell<&'static str>,
    checks: Cell<usize>,
    failed: Cell<Option<Failed>>,
}

impl Test {
    /// A test of which no check failed. `alloc` gives the memory of what it makes.
    pub fn new(alloc: Global) -> Test {
        Test {
            alloc,
            part: Cell::new(""),
            checks: Cell::new(0),
            failed: Cell::new(None),
        }
    }

    /// What gives memory.
    pub fn alloc(&self) -> Global {
        self.alloc
    }

    /// Begins a part of the test, whose checks are counted from 1.
    pub fn begin(&self, part: &'static str) {
        self.part.set(part);
        self.checks.set(0);
    }

    /// Fails the test unless this holds. The test goes on; its first failure is told.
    pub fn expect(&self, holds: bool) {
        self.note(None, holds);
    }

    /// The same of a row of a table, counted from 0.
    pub fn expect_at(&self, row: usize, holds: bool) {
        self.note(Some(row), holds);
    }

    /// Fails the test if there is a row at which something differs.
    pub fn expect_same(&self, difference: Option<usize>) {
        self.note(difference, difference.is_none());
    }

    /// Fails the test.
    pub fn fail(&self) {
        self.note(None, false);
    }

    fn note(&self, row: Option<usize>, holds: bool) {
        self.checks.set(self.checks.get().saturating_add(1));
        if !holds && self.failed.get().is_none() {
            self.failed.set(Some(Failed {
                part: self.part.get(),
                check: self.checks.get(),
                row,
            }));
        }
    }

    /// Ends the test: an error tells the first check that failed.
    pub fn end(self) -> Result<(), Failed> {
        let Test {
            alloc: _,
            part: _,
            checks: _,
            failed,
        } = self;
        match failed.get() {
            None => Ok(()),
            Some(first) => Err(first),
        }
    }
}

/// What a test begins with, lends to its checks, and ends with.
pub trait Checked {
    /// One of which no check failed. `alloc` gives the memory of what it makes.
    fn begin(alloc: Global) -> Self;

    /// Fails it.
    fn fail(&self);

    /// Ends it: an error tells the first check that failed.
    fn finish(self) -> Result<(), Failed>;
}

impl Checked for Test {
    fn begin(alloc: Global) -> Test {
        Test::new(alloc)
    }

    fn fail(&self) {
        self.note(None, false);
    }

    fn finish(self) -> Result<(), Failed> {
        self.end()
    }
}

/// Expects that a value was shown by this text.
pub fn expect_text<E: Drop>(test: &Test, shown: Result<String, E>, wanted: &str) {
    match shown {
        Ok(text) => test.expect(text.as_str() == wanted),
        Err(_) => test.fail(),
    }
}
