//! The kit's maps with a vector of values a key, which a program would take in place of the map.
use indexmap::IndexMap;
use std::alloc::Global;
use std::collections::HashMap;

/// What the workloads ask of such a map. None is where memory was refused, or of `take` that the key
/// is absent.
pub(crate) trait Lists {
    fn empty(alloc: Global) -> Self;

    /// Whether the key was present.
    fn append(&mut self, alloc: Global, key: u64, value: u64) -> Option<bool>;

    fn values(&self, key: u64) -> Option<&Vec<u64>>;

    fn take(&mut self, key: u64) -> Option<Vec<u64>>;

    fn copy(&self) -> Option<Self>;

    fn keys_len(&self) -> u64;

    /// The sum of all pairs, each as key ^ value.
    fn sum_of_pairs(&self) -> u64;
}

/// The sum with the pairs of a key.
#[inline(always)]
fn with_pairs(sum: u64, key: u64, values: &Vec<u64>) -> u64 {
    let mut all = sum;
    for value in values {
        all = all.wrapping_add(key ^ *value);
    }
    all
}

impl Lists for HashMap<u64, Vec<u64>> {
    fn empty(alloc: Global) -> HashMap<u64, Vec<u64>> {
        HashMap::new(alloc)
    }

    #[inline(always)]
    fn append(&mut self, alloc: Global, key: u64, value: u64) -> Option<bool> {
        let Ok(entry) = self.entry(key) else {
            return None;
        };
        let values = entry.or_insert_with(|| Vec::new(alloc));
        let was_present = !values.is_empty();
        match values.push(value) {
            Ok(()) => Some(was_present),
            Err(_) => None,
        }
    }

    #[inline(always)]
    fn values(&self, key: u64) -> Option<&Vec<u64>> {
        self.get(&key)
    }

    #[inline(always)]
    fn take(&mut self, key: u64) -> Option<Vec<u64>> {
        self.remove(&key)
    }

    fn copy(&self) -> Option<HashMap<u64, Vec<u64>>> {
        self.clone().ok()
    }

    fn keys_len(&self) -> u64 {
        self.len() as u64
    }

    fn sum_of_pairs(&self) -> u64 {
        let mut sum = 0u64;
        for (key, values) in self.iter() {
            sum = with_pairs(sum, *key, values);
        }
        sum
    }
}

impl Lists for IndexMap<u64, Vec<u64>> {
    fn empty(alloc: Global) -> IndexMap<u64, Vec<u64>> {
        IndexMap::new(alloc)
    }

    #[inline(always)]
    fn append(&mut self, alloc: Global, key: u64, value: u64) -> Option<bool> {
        let Ok(entry) = self.entry(key) else {
            return None;
        };
        let values = entry.or_insert_with(|| Vec::new(alloc));
        let was_present = !values.is_empty();
        match values.push(value) {
            Ok(()) => Some(was_present),
            Err(_) => None,
        }
    }

    #[inline(always)]
    fn values(&self, key: u64) -> Option<&Vec<u64>> {
        self.get(&key)
    }

    /// The last key moves to the place of the removed one.
    #[inline(always)]
    fn take(&mut self, key: u64) -> Option<Vec<u64>> {
        self.swap_remove(&key)
    }

    fn copy(&self) -> Option<IndexMap<u64, Vec<u64>>> {
        self.clone().ok()
    }

    fn keys_len(&self) -> u64 {
        self.len() as u64
    }

    fn sum_of_pairs(&self) -> u64 {
        let mut sum = 0u64;
        for (key, values) in self.iter() {
            sum = with_pairs(sum, *key, values);
        }
        sum
    }
}
