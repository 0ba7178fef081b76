//! Keys of which equal ones may be spelled differently.
use program_parts::bad;
use std::{fmt, io};

/// A number as it is spelled, with zeros in front. The spelling counts for nothing where keys are
/// compared.
#[derive(Clone, Copy)]
#[derive_where(PartialEq, Eq, Hash, PartialOrd, Ord)]
pub struct Key {
    number: u32,
    #[derive_where(skip(EqHashOrd))]
    digits: usize,
}

impl Key {
    /// The key that the text spells.
    pub fn new(text: &str) -> io::Result<Key> {
        match text.parse() {
            Ok(number) if !text.starts_with('+') => Ok(Key {
                number,
                digits: text.len(),
            }),
            _ => Err(bad("not a key")),
        }
    }

    /// What is left of the number when it is divided by three.
    pub fn remainder(&self) -> u32 {
        self.number % 3
    }
}

impl fmt::Debug for Key {
    fn fmt<W: fmt::Write>(&self, f: &mut fmt::Formatter<W>) -> fmt::Result {
        let digits = self.digits;
        write!(f, "{:0digits$}", self.number)
    }
}
