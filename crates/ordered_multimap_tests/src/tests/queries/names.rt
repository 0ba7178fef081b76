//! A query of one's own: a header's name, looked up by a text in any case, where names collide.
ghost use Rattle.std.proofs.Common.{ap};
ghost use Rattle.std.specs.Cmp.{on_equiv, partial_equiv_from_equiv, on_per};
ghost use Rattle.std.specs.Cmp.Lexicographic.{bytes_decides, nat_list_eq_equiv};
ghost use Rattle.std.specs.Hash as fed;
ghost use Rattle.std.specs.Prelude.{◌≡◌, None, length};
ghost use Rattle.std.specs.Str.{str_eq_ignore_ascii_case, str_to_ascii_lowercase};
ghost use Rattle.std.specs.String.{string_bytes};

use ordered_multimap::{KeyQuery, ListOrderedMultimap};
use ordered_multimap_callers::maps::test_on_empty;
use std::hash::{Hash, Hasher};
use test_helpers::{F, Failed, Test, walk_difference};

/// A header's name. Case counts for nothing when names are compared, and names of one length have one
/// hash, so that some of them collide.
#[derive(Drop)]
struct Name {
    text: String,
}

/// A header's name by its text, in any case.
#[derive(Clone, Copy, PartialEq, Eq)]
struct AnyCase<'q> {
    text: &'q str,
}

// Whether two texts differ in the case of letters alone.
fn are_alike(one: &str, other: &str) -> bool
    ensures { result ≡ str_eq_ignore_ascii_case one.now other.now }
{
    one.eq_ignore_ascii_case(other)
}

impl PartialEq for Name {
    ghost eq = { λ a b. str_eq_ignore_ascii_case (string_bytes a.text) (string_bytes b.text) };

    ghost laws = { on_per (λ n. str_to_ascii_lowercase (string_bytes n.text))
        (partial_equiv_from_equiv nat_list_eq_equiv) };

    fn eq(&self, other: &Self) -> bool {
        are_alike(self.text.as_str(), other.text.as_str())
    }
}

impl Eq for Name {
    ghost laws = { on_equiv (λ n. str_to_ascii_lowercase (string_bytes n.text))
        nat_list_eq_equiv };
}

impl Hash for Name {
    ghost hash_input = { λ n. fed.usize (length (str_to_ascii_lowercase (string_bytes n.text))) };

    ghost respects_eq = { λ a b same. ap (λ bytes. fed.usize (length bytes))
        ((bytes_decides (str_to_ascii_lowercase (string_bytes a.text))
        (str_to_ascii_lowercase (string_bytes b.text))).0 same) };

    fn hash<H: Hasher>(&self, state: &mut H) {
        self.text.len().hash(state);
    }
}

impl<'q> Hash for AnyCase<'q> {
    ghost hash_input = { λ q. fed.usize (length (str_to_ascii_lowercase q.text.now)) };

    ghost respects_eq = { λ a b same. ap (λ bytes. fed.usize (length (str_to_ascii_lowercase bytes)))
        ((bytes_decides a.text.now b.text.now).0 same) };

    fn hash<H: Hasher>(&self, state: &mut H) {
        self.text.len().hash(state);
    }
}

impl<'q> KeyQuery<Name> for AnyCase<'q> {
    ghost equivalent = { λ q n. str_eq_ignore_ascii_case q.text.now (string_bytes n.text) };

    ghost as_key = { λ q. None };

    ghost respects_hash = { λ q n same. ap (λ bytes. fed.usize (length bytes))
        ((bytes_decides (str_to_ascii_lowercase q.text.now)
        (str_to_ascii_lowercase (string_bytes n.text))).0 same) };

    ghost respects_eq = { λ q x y. nat_list_eq_equiv.congr (str_to_ascii_lowercase q.text.now)
        (str_to_ascii_lowercase (string_bytes x.text))
        (str_to_ascii_lowercase (string_bytes y.text)) };

    fn equivalent(&self, key: &Name) -> bool {
        are_alike(self.text, key.text.as_str())
    }
}

type Headers = ListOrderedMultimap<Name, u32>;

const SENT: &[(&str, u32)] = &[("Accept", 1), ("Cookie", 2), ("ACCEPT", 3), ("Origin", 4)];

fn name_of(test: &Test, text: &str) -> Name {
    let text = String::from_str(test.alloc(), text);
    test.expect(text.is_ok());
    Name {
        text: text.unwrap_or(String::new(test.alloc())),
    }
}

// Whether the name was there.
fn appended(test: &Test, headers: &mut Headers, text: &str, value: u32) -> Option<bool> {
    headers.append(name_of(test, text), value).ok()
}

fn names_are_found(test: &Test, headers: &Headers) {
    let name = AnyCase { text: "accept" };
    let both = [(F, 1), (F, 3)];
    test.expect_same(walk_difference(&mut headers.get_all(name), &both));
    let cookie = AnyCase { text: "cOOKIE" };
    test.expect(headers.get(cookie).copied() == Some(2));
    test.expect(!headers.contains_key(AnyCase { text: "accep" }));
    test.expect(headers.entry_len(AnyCase { text: "accepu" }) == 0);
}

// The spelling that came first, and the first value.
fn is_spelled(removed: Option<(Name, u32)>, text: &str, value: u32) -> bool {
    match removed {
        Some((name, first)) => name.text.as_str() == text && first == value,
        None => false,
    }
}

fn headers_are_kept(test: &Test, headers: &mut Headers) {
    for (text, value) in SENT {
        test.expect(appended(test, headers, text, *value).is_some());
    }
    names_are_found(test, headers);
    let removed = headers.remove_entry(AnyCase { text: "accept" });
    test.expect(is_spelled(removed, "Accept", 1));
    test.expect(headers.values_len() == 2);
}

#[test]
fn names_are_found_in_any_case(rt: HostRuntime) -> Result<(), Failed> {
    test_on_empty(rt.alloc(), headers_are_kept)
}
