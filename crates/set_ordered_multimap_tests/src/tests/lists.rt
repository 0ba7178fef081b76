//! A set by two plain lists, for what random calls are compared with.
use ordered_multimap::list_ordered_multimap::RenameFault;
use std::alloc::{AllocError, Global};

/// The keys in the order in which each last became present, and all pairs.
#[derive(Drop)]
pub struct Lists {
    pub keys: Vec<u32>,
    pub pairs: Vec<(u32, u32)>,
}

fn is_named(pairs: &[(u32, u32)], key: u32) -> bool {
    pairs.iter().any(|pair| pair.0 == key)
}

impl Lists {
    pub fn new(alloc: Global) -> Lists {
        Lists {
            keys: Vec::new(alloc),
            pairs: Vec::new(alloc),
        }
    }

    pub fn has(&self, key: u32, value: u32) -> bool {
        self.pairs.contains(&(key, value))
    }

    pub fn has_key(&self, key: u32) -> bool {
        is_named(self.pairs.as_slice(), key)
    }

    /// Puts the pair last, unless it is there. Whether it is new.
    pub fn insert(&mut self, key: u32, value: u32) -> Result<bool, AllocError> {
        if self.has(key, value) {
            return Ok(false);
        }
        if !self.keys.contains(&key) {
            self.keys.push(key)?;
        }
        self.pairs.push((key, value))?;
        Ok(true)
    }

    /// Takes the pairs of a key out, whose place is kept for others.
    pub fn make_way(&mut self, key: u32) {
        self.pairs.retain(|pair| pair.0 != key);
    }

    /// Keeps the pairs that pass, and the keys that are named then.
    pub fn keep<F: Fn(u32, u32) -> bool>(&mut self, passes: F)
        requires { F.IsAlwaysCallable passes }
    {
        self.pairs.retain(|pair| passes(pair.0, pair.1));
        let pairs = self.pairs.as_slice();
        self.keys.retain(|key| is_named(pairs, *key));
    }

    /// Takes this pair out. Whether it was there.
    pub fn remove(&mut self, key: u32, value: u32) -> bool {
        let was = self.has(key, value);
        self.keep(|k, v| k != key || v != value);
        was
    }

    /// Takes the value at an index among those of a key out.
    pub fn remove_index(&mut self, key: u32, index: usize) -> Option<u32> {
        let mut own = self.pairs.iter().filter(|pair| pair.0 == key);
        let (_key, value) = own.nth(index).copied()?;
        self.remove(key, value);
        Some(value)
    }

    /// Puts a key that is there at an end of the keys. Whether it was.
    pub fn move_key(&mut self, key: u32, to_front: bool) -> Result<bool, AllocError> {
        if !self.has_key(key) {
            return Ok(false);
        }
        self.keys.retain(|k| *k != key);
        if to_front {
            self.keys.insert(0, key)?;
        } else {
            self.keys.push(key)?;
        }
        Ok(true)
    }

    /// Sorts the keys by how many values each has.
    pub fn sort_keys_by_len(&mut self) -> Result<(), AllocError> {
        let pairs = self.pairs.as_slice();
        let len = |key: u32| pairs.iter().filter(|pair| pair.0 == key).count();
        self.keys.sort_by(|a, b| len(*a).cmp(&len(*b)))
    }

    /// The keys, each where the first pair names it.
    pub fn first_occurrences(&self, alloc: Global) -> Result<Vec<u32>, AllocError> {
        let mut keys = Vec::new(alloc);
        for (key, _value) in self.pairs.iter() {
            if !keys.contains(key) {
                keys.push(*key)?;
            }
        }
        Ok(keys)
    }

    /// Puts another key in the place of one.
    pub fn rename(&mut self, key: u32, new_key: u32) -> Result<u32, RenameFault<u32>> {
        if !self.has_key(key) {
            return Err(RenameFault::Absent(new_key));
        }
        if key != new_key && self.has_key(new_key) {
            return Err(RenameFault::Taken(new_key));
        }
        for k in self.keys.iter_mut() {
            if *k == key {
                *k = new_key;
            }
        }
        for pair in self.pairs.iter_mut() {
            if pair.0 == key {
                pair.0 = new_key;
            }
        }
        Ok(key)
    }
}
