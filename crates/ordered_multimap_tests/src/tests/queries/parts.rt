//! Keys that are compared and hashed by one part, and are looked up by it.
ghost use Rattle.std.specs.Prelude.{refl};

use ordered_multimap::{KeyByPart, ListOrderedMultimap, Part};
use ordered_multimap_callers::maps::test_on_empty;
use ordered_multimap_callers::queried::first_by_part;
use test_helpers::{F, Failed, Test, walk_difference};

#[derive(PartialEq, Eq, Hash, Drop)]
struct Name {
    text: String,
}

impl KeyByPart for Name {
    type Part = String;

    ghost part_of = { λ name. name.text };

    ghost same_eq = { λ x y. refl };

    ghost same_hash = { λ x. refl };

    fn part(&self) -> &String {
        &self.text
    }
}

type Names = ListOrderedMultimap<Name, u32>;

fn append(test: &Test, names: &mut Names, text: &str, value: u32) {
    match String::from_str(test.alloc(), text) {
        Ok(text) => test.expect(names.append(Name { text }, value).is_ok()),
        Err(_) => test.fail(),
    }
}

fn fill(test: &Test, names: &mut Names) {
    append(test, names, "line", 1);
    append(test, names, "page", 8);
    append(test, names, "line", 2);
}

fn names_are_found(test: &Test, names: &Names) {
    test.expect(names.get(Part("page")).copied() == Some(8));
    test.expect(names.get(Part("pag")).is_none());
    test.expect(first_by_part(names, "line") == Some(1));
    let both = [(F, 1), (F, 2)];
    test.expect_same(walk_difference(&mut names.get_all(Part("line")), &both));
}

fn parts_are_queries(test: &Test, names: &mut Names) {
    fill(test, names);
    names_are_found(test, names);
    test.expect(names.remove(Part("line")) == Some(1));
    test.expect(names.keys_len() == 1);
}

#[test]
fn names_are_found_by_their_texts(rt: HostRuntime) -> Result<(), Failed> {
    test_on_empty(rt.alloc(), parts_are_queries)
}
