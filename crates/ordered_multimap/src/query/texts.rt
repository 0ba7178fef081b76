//! Strings as queries for keys that are strings.
ghost use Rattle.std.proofs.Common.{ap};
ghost use Rattle.std.specs.Box.{boxed_str_bytes};
ghost use Rattle.std.specs.Cmp.Lexicographic.{bytes_decides, nat_list_eq_equiv};
ghost use Rattle.std.specs.Cow.{cow_str_bytes};
ghost use Rattle.std.specs.Hash as fed;
ghost use Rattle.std.specs.Prelude.{None};
ghost use Rattle.std.specs.Rc.{rc_str_bytes};
ghost use Rattle.std.specs.Str.{bytes_eq};
ghost use Rattle.std.specs.String.{string_bytes};

use super::KeyQuery;
use std::alloc::Allocator;
use std::borrow::CowStr;
use std::boxed::BoxedStr;
use std::rc::RcStr;

/// A string slice is equivalent to each `String` of the same bytes.
impl<B: Allocator> KeyQuery<String<B>> for &str {
    ghost equivalent = { λ q k. bytes_eq q.now (string_bytes k) };

    ghost as_key = { λ q. None };

    ghost respects_hash = { λ q k same. ap fed.str ((bytes_decides q.now (string_bytes k)).0 same) };

    ghost respects_eq = { λ q x y. nat_list_eq_equiv.congr q.now (string_bytes x) (string_bytes y) };

    fn equivalent(&self, key: &String<B>) -> bool {
        *self == key.as_str()
    }
}

/// A string slice is equivalent to each `&str` of the same bytes, of any lifetime.
impl<'k> KeyQuery<&'k str> for &str {
    ghost equivalent = { λ q k. bytes_eq q.now k.now };

    ghost as_key = { λ q. None };

    ghost respects_hash = { λ q k same. ap fed.str ((bytes_decides q.now k.now).0 same) };

    ghost respects_eq = { λ q x y. nat_list_eq_equiv.congr q.now x.now y.now };

    fn equivalent(&self, key: &&'k str) -> bool {
        *self == *key
    }
}

/// A string slice is equivalent to each `BoxedStr` of the same bytes.
impl<B: Allocator> KeyQuery<BoxedStr<B>> for &str {
    ghost equivalent = { λ q k. bytes_eq q.now (boxed_str_bytes k) };

    ghost as_key = { λ q. None };

    ghost respects_hash = { λ q k same. ap fed.str
        ((bytes_decides q.now (boxed_str_bytes k)).0 same) };

    ghost respects_eq = { λ q x y. nat_list_eq_equiv.congr q.now (boxed_str_bytes x)
        (boxed_str_bytes y) };

    fn equivalent(&self, key: &BoxedStr<B>) -> bool {
        *self == key.as_str()
    }
}

/// A string slice is equivalent to each `RcStr` of the same bytes.
impl<B: Allocator> KeyQuery<RcStr<B>> for &str {
    ghost equivalent = { λ q k. bytes_eq q.now (rc_str_bytes k) };

    ghost as_key = { λ q. None };

    ghost respects_hash = { λ q k same. ap fed.str ((bytes_decides q.now (rc_str_bytes k)).0 same) };

    ghost respects_eq = { λ q x y. nat_list_eq_equiv.congr q.now (rc_str_bytes x)
        (rc_str_bytes y) };

    fn equivalent(&self, key: &RcStr<B>) -> bool {
        *self == key.as_str()
    }
}

/// A string slice is equivalent to each `CowStr` of the same bytes, borrowed or owned.
impl<'k, B: Allocator> KeyQuery<CowStr<'k, B>> for &str {
    ghost equivalent = { λ q k. bytes_eq q.now (cow_str_bytes k) };

    ghost as_key = { λ q. None };

    ghost respects_hash = { λ q k same. ap fed.str
        ((bytes_decides q.now (cow_str_bytes k)).0 same) };

    ghost respects_eq = { λ q x y. nat_list_eq_equiv.congr q.now (cow_str_bytes x)
        (cow_str_bytes y) };

    fn equivalent(&self, key: &CowStr<'k, B>) -> bool {
        *self == key.as_str()
    }
}
