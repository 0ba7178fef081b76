//! Lines of a configuration, each under its name, in the order of the text.
ghost use Rattle.std.specs.Cow.{cow_str_bytes};
ghost use Rattle.std.specs.Prelude.{◌≡◌, ◌++◌, IfOk, OnOk};
ghost use Rattle.ordered_multimap.specs.Changes.{appended};
ghost use Rattle.config_reader.specs.Lines.{lined};
ghost use Rattle.config_reader.specs.Names.{same_name};
ghost use Rattle.config_reader.specs.Written.{texts_of};

use crate::lines::is_lined;
use crate::name::Name;
use ordered_multimap::ListOrderedMultimap;
use std::alloc::{AllocError, Global};
use std::borrow::CowStr;

/// The lines of a configuration, in their order. The lines of a setting have the name of the
/// setting. A section's line, comments and empty lines have the name of the section alone.
pub type Config<'t> = ListOrderedMultimap<Name<'t>, Lines<'t>>;

/// A setting with its value, or what stands between settings.
#[derive(Drop)]
pub struct Lines<'t> {
    /// The text with its line feeds.
    pub text: CowStr<'t>,
    pub value: CowStr<'t>,
    /// Rises with the sections: that of a section's settings is even, and that of what stands
    /// between the last of them and the next section odd.
    pub rank: usize,
}

impl<'t> Lines<'t> {
    /// The lines of a text. The last one gets a line feed if it has none.
    pub fn read(
        alloc: Global,
        text: &'t str,
        value: CowStr<'t>,
        rank: usize,
    ) -> Result<Lines<'t>, AllocError>
        ensures text { IfOk result (λ lines. cow_str_bytes lines.text ≡ lined text.now) }
        ensures value { IfOk result (λ lines. lines.value ≡ value.entry) }
        ensures rank { IfOk result (λ lines. lines.rank ≡ rank) }
    {
        let text = if is_lined(text) {
            CowStr::Borrowed(text)
        } else {
            CowStr::Owned(format!(in alloc; "{text}\n")?)
        };
        Ok(Lines { text, value, rank })
    }
}

/// Adds lines behind all others.
pub fn append_lines<'t>(
    config: &mut Config<'t>,
    name: Name<'t>,
    lines: Lines<'t>,
) -> Result<(), AllocError>
    ensures lists { OnOk result (config.new.lists
        ≡ appended same_name config.old.lists name.entry lines.entry) }
    ensures texts { OnOk result (texts_of config.new.lists.pairs
        ≡ texts_of config.old.lists.pairs ++ cow_str_bytes lines.entry.text) }
{
    config.append(name, lines)?;
    Ok(())
}
