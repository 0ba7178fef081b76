//! Small maps with text keys, for every sixteen pairs one: each is filled, asked five times, changed
//! once, and dropped. Each returns none where memory was refused.
use crate::numbers::{Run, START, mix};
use ordered_multimap::ListOrderedMultimap;
use std::alloc::Global;

/// A map with text keys, under the default hash builder.
type NamedMap = ListOrderedMultimap<String, u64>;

/// Names of headers. A request has the first twelve, and the first two of them twice.
const HEADERS: [&'static str; 40] = [
    "accept",
    "cookie",
    "host",
    "user-agent",
    "accept-language",
    "accept-encoding",
    "connection",
    "referer",
    "cache-control",
    "content-type",
    "content-length",
    "if-none-match",
    "date",
    "etag",
    "vary",
    "server",
    "expires",
    "location",
    "set-cookie",
    "retry-after",
    "last-modified",
    "content-language",
    "content-encoding",
    "content-location",
    "content-range",
    "accept-ranges",
    "transfer-encoding",
    "if-modified-since",
    "if-match",
    "if-range",
    "authorization",
    "proxy-authenticate",
    "proxy-authorization",
    "www-authenticate",
    "origin",
    "pragma",
    "upgrade",
    "trailer",
    "x-forwarded-for",
    "x-request-id",
];

const FIELDS: [&'static str; 5] = ["name", "email", "phone", "subject", "message"];

const SETTINGS: [&'static str; 8] = [
    "filemode",
    "bare",
    "logallrefupdates",
    "ignorecase",
    "precomposeunicode",
    "symlinks",
    "autocrlf",
    "editor",
];

/// A name that none of the maps has.
const ABSENT: &'static str = "keep-alive";

/// What a map has: so many names, and so many pairs.
#[derive(Clone, Copy)]
pub(crate) enum Named {
    /// Twelve names and fourteen pairs.
    RequestHeaders,
    /// Five names with a pair each.
    FormFields,
    /// Eight names with a pair each.
    ConfigSection,
    /// Forty names with a pair each.
    FortyHeaders,
}

impl Named {
    fn names(self) -> u64 {
        match self {
            Named::RequestHeaders => 12,
            Named::FormFields => 5,
            Named::ConfigSection => 8,
            Named::FortyHeaders => 40,
        }
    }

    fn pairs(self) -> u64 {
        match self {
            Named::RequestHeaders => 14,
            _ => self.names(),
        }
    }

    fn name(self, index: u64) -> &'static str {
        let found = match self {
            Named::FormFields => FIELDS.get(index as usize),
            Named::ConfigSection => SETTINGS.get(index as usize),
            _ => HEADERS.get(index as usize),
        };
        found.copied().unwrap_or(ABSENT)
    }
}

/// Makes, fills, asks, changes and drops the maps.
#[inline(never)]
pub(crate) fn named_maps(alloc: Global, named: Named, run: Run) -> Option<u64> {
    let mut checksum = START;
    for round in 0..run.pairs / 16 {
        let map = ListOrderedMultimap::new(alloc);
        checksum = named_map(alloc, map, named, round.wrapping_mul(64), run, checksum)?;
    }
    Some(checksum)
}

/// The pairs have the numbers from `first` on.
#[inline(never)]
fn named_map(
    alloc: Global,
    empty: NamedMap,
    named: Named,
    first: u64,
    run: Run,
    start: u64,
) -> Option<u64> {
    let mut map = empty;
    let mut checksum = start;
    for i in 0..named.pairs() {
        let name = named.name(if i < named.names() {
            i
        } else {
            i.wrapping_sub(named.names())
        });
        let value = run.value(first.wrapping_add(i));
        checksum = append(alloc, &mut map, name, value, checksum)?;
    }
    let asked = ask(&map, named, first, run, checksum);
    change(alloc, &mut map, named, first, run, asked)
}

/// Appends a pair, and mixes in whether its name was present.
#[inline(always)]
fn append(alloc: Global, map: &mut NamedMap, name: &str, value: u64, checksum: u64) -> Option<u64> {
    let Ok(key) = String::from_str(alloc, name) else {
        return None;
    };
    match map.append(key, value) {
        Ok(present) => Some(mix(checksum, present as u64)),
        Err(_) => None,
    }
}

/// The first values of four random names, and of one that is absent.
fn ask(map: &NamedMap, named: Named, first: u64, run: Run, start: u64) -> u64 {
    let mut checksum = start;
    for i in first..first.wrapping_add(4) {
        let found = map.get(named.name(run.choice(i, named.names())));
        checksum = mix(checksum, found.copied().unwrap_or(1));
    }
    mix(checksum, map.get(ABSENT).copied().unwrap_or(1))
}

/// Puts a new pair in the place of all pairs of a random name.
fn change(
    alloc: Global,
    map: &mut NamedMap,
    named: Named,
    first: u64,
    run: Run,
    start: u64,
) -> Option<u64> {
    let name = named.name(run.choice(first.wrapping_add(4), named.names()));
    let Ok(key) = String::from_str(alloc, name) else {
        return None;
    };
    let old = match map.insert(key, run.value(first.wrapping_add(named.pairs()))) {
        Ok(old) => old.unwrap_or(1),
        Err(_) => return None,
    };
    let keys = mix(mix(start, old), map.keys_len() as u64);
    Some(mix(keys, map.values_len() as u64))
}
