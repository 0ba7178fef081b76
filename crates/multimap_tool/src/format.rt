//! The text of replies.
ghost use Rattle.std.specs.Prelude.{◌≡◌, ◌<◌, ◌∷◌, ◌++◌, [], map, IfOk, OnOk};
ghost use Rattle.std.specs.List.{join_with_byte};
ghost use Rattle.std.specs.String.{string_bytes};
ghost use Rattle.multimap_tool.specs.Texts.{text_of_option, old_text, list_text, reply_text, text_of};

use crate::replies::{Popped, Reply};
use std::alloc::{AllocError, Allocator};

/// Returns the text of the replies, each followed by a line feed.
///
/// docs/TOOLS.md says what is written for each reply.
///
/// # Errors
///
/// Returns `AllocError` if memory allocation fails. Only the text is allocated, from `alloc`.
///
/// # Complexity
///
/// *O*(*b*) for a text of *b* bytes.
///
/// # Examples
///
/// ```
/// use multimap_tool::format::format_replies;
/// use multimap_tool::replies::Reply;
///
/// let alloc = rt.alloc();
/// let pairs = vec![in alloc; Some((1, 10)), Some((2, 20)), None]?;
/// let replies = [Reply::Appended(false), Reply::Pairs(pairs), Reply::NoMemory];
/// let text = format_replies(alloc, &replies)?;
/// assert_eq!(rt; text.as_slice(), b"new\n1:10 2:20 -\nno memory\n".as_slice());
/// ```
pub fn format_replies<A: Allocator + Copy>(
    alloc: A,
    replies: &[Reply<u32, i64, A>],
) -> Result<Vec<u8, A>, AllocError>
    ensures ok { IfOk result (λ text. text.items ≡ text_of replies.now) }
{
    let mut text = String::new(alloc);
    for reply in replies {
        push_reply(&mut text, reply)?;
        text.push('\n')?;
    }
    Ok(text.into_bytes())
}

/// Puts the text of one reply at the end.
fn push_reply<A: Allocator>(
    text: &mut String<A>,
    reply: &Reply<u32, i64, A>,
) -> Result<(), AllocError>
    ensures ok { OnOk result
        (string_bytes text.new ≡ string_bytes text.old ++ reply_text reply.now) }
{
    match reply {
        Reply::NoMemory => text.push_str("no memory"),
        Reply::Done => text.push_str("done"),
        Reply::Appended(true) => text.push_str("more"),
        Reply::Appended(false) => text.push_str("new"),
        Reply::Truth(true) => text.push_str("yes"),
        Reply::Truth(false) => text.push_str("no"),
        Reply::Count(count) => write!(text, "{count}"),
        Reply::Counts(keys, pairs) => write!(text, "{keys} {pairs}"),
        Reply::Value(value) => push_option(text, value),
        Reply::Old(value) => push_old(text, value),
        Reply::Pair(pair) => push_option(text, pair),
        Reply::Popped(pair) => push_option(text, pair),
        Reply::Values(values) => push_list(text, values),
        Reply::Keys(keys) => push_list(text, keys),
        Reply::Pairs(pairs) => push_list(text, pairs),
        Reply::List(entry) => push_option(text, entry),
        Reply::Lists(entries) => push_list(text, entries),
    }
}

/// What a reply tells or lists.
trait Listed {
    ghost use Rattle.std.specs.Prelude.{ℕ, List};

    /// Its text.
    ghost item_text: { Self → List ℕ };

    /// Puts its text at the end.
    fn push_to<A: Allocator>(&self, text: &mut String<A>) -> Result<(), AllocError>
        ensures ok { OnOk result
            (string_bytes text.new ≡ string_bytes text.old ++ item_text self.now) };
}

impl Listed for i64 {
    ghost use Rattle.std.specs.Fmt.{signed_decimal};

    ghost item_text = { signed_decimal };

    fn push_to<A: Allocator>(&self, text: &mut String<A>) -> Result<(), AllocError> {
        write!(text, "{self}")
    }
}

impl Listed for u32 {
    ghost use Rattle.std.specs.Fmt.{decimal};

    ghost item_text = { decimal };

    fn push_to<A: Allocator>(&self, text: &mut String<A>) -> Result<(), AllocError> {
        write!(text, "{self}")
    }
}

impl Listed for (u32, i64) {
    ghost use Rattle.multimap_tool.specs.Texts.{pair_text};

    ghost item_text = { pair_text };

    fn push_to<A: Allocator>(&self, text: &mut String<A>) -> Result<(), AllocError> {
        let (key, value) = self;
        write!(text, "{key}:{value}")
    }
}

impl Listed for Popped<u32, i64> {
    ghost use Rattle.multimap_tool.specs.Texts.{popped_text};

    ghost item_text = { popped_text };

    fn push_to<A: Allocator>(&self, text: &mut String<A>) -> Result<(), AllocError> {
        let Popped { owned, key, value } = self;
        if *owned {
            write!(text, "owned {key} {value}")
        } else {
            write!(text, "borrowed {key} {value}")
        }
    }
}

impl<B: Allocator> Listed for (u32, Vec<i64, B>) {
    ghost use Rattle.multimap_tool.specs.Texts.{entry_text};

    ghost item_text = { λ entry. entry_text entry.0 entry.1.items };

    fn push_to<A: Allocator>(&self, text: &mut String<A>) -> Result<(), AllocError> {
        let (key, values) = self;
        write!(text, "{key}=")?;
        push_joined(text, values, ',')
    }
}

/// What a walk gave, or a dash where nothing remained.
impl<T: Listed> Listed for Option<T> {
    ghost use Rattle.multimap_tool.specs.Texts.{text_of_item};

    ghost item_text = { text_of_item T.item_text };

    fn push_to<A: Allocator>(&self, text: &mut String<A>) -> Result<(), AllocError> {
        match self {
            Some(item) => item.push_to(text),
            None => text.push_str("-"),
        }
    }
}

/// Puts an item at the end, or the word for none.
fn push_option<T: Listed, A: Allocator>(
    text: &mut String<A>,
    item: &Option<T>,
) -> Result<(), AllocError>
    ensures ok { OnOk result (string_bytes text.new
        ≡ string_bytes text.old ++ text_of_option T.item_text item.now) }
{
    match item {
        Some(item) => item.push_to(text),
        None => text.push_str("none"),
    }
}

/// Puts a value at the end that was replaced, or the word for none.
fn push_old<A: Allocator>(text: &mut String<A>, value: &Option<i64>) -> Result<(), AllocError>
    ensures ok { OnOk result (string_bytes text.new
        ≡ string_bytes text.old ++ text_of_option old_text value.now) }
{
    match value {
        Some(value) => write!(text, "old {value}"),
        None => text.push_str("none"),
    }
}

/// Puts items at the end, with a space between each two, or the word for a list of none.
fn push_list<T: Listed, A: Allocator>(text: &mut String<A>, items: &[T]) -> Result<(), AllocError>
    ensures ok { OnOk result (string_bytes text.new
        ≡ string_bytes text.old ++ list_text T.item_text items.now) }
{
    if items.is_empty() {
        return text.push_str("empty");
    }
    push_joined(text, items, ' ')
}

/// Puts items at the end, with a separator between each two, which has to be an ASCII character.
fn push_joined<T: Listed, A: Allocator>(
    text: &mut String<A>,
    items: &[T],
    separator: char,
) -> Result<(), AllocError>
    requires { separator < 128 }
    ensures ok { OnOk result (string_bytes text.new ≡ string_bytes text.old
        ++ join_with_byte separator (map T.item_text items.now)) }
{
    let Some((first, others)) = items.split_first() else {
        return Ok(());
    };
    first.push_to(text)?;
    for item in others {
        push_next_item(text, item, separator)?;
    }
    Ok(())
}

/// Puts a separator and an item at the end.
fn push_next_item<T: Listed, A: Allocator>(
    text: &mut String<A>,
    item: &T,
    separator: char,
) -> Result<(), AllocError>
    requires { separator < 128 }
    ensures ok { OnOk result (string_bytes text.new
        ≡ (string_bytes text.old ++ separator ∷ []) ++ T.item_text item.now) }
{
    text.push(separator)?;
    item.push_to(text)
}
