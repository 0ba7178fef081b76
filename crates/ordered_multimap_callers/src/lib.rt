//! Callers of the map that are proved, most of them for every key and value type: each says by its
//! own clauses what the map is afterwards, and knows no more of it than those of its calls say.
//! And what the map's tests share, so that it is proved once.
#![tactic(auto)]

pub mod changed;
pub mod entered;
pub mod entry_calls;
pub mod maps;
pub mod queried;
pub mod sorted;
pub mod stopped;
pub mod stopped_keys;
pub mod taken;
