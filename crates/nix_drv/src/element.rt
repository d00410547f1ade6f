//! The lists of a derivation, and what their elements have in common.

ghost use Rattle.std.specs.Prelude.{◌≡◌, ◌++◌, IfOk, OnOk, length, map, option_map, vec_capacity};
ghost use Rattle.nix_drv.specs.Grammar.{Grammar, Value, Free, Many, text, IsClear};
ghost use Rattle.nix_drv.specs.Order.{key as key_of, breaks as breaks_of};
ghost use Rattle.nix_drv.specs.private.Listings.{sign_at, list_read, list_text, others_text, order_of};
ghost use Rattle.nix_drv.specs.private.Reading.{elements_of, read as read_of};
ghost use Rattle.nix_drv.specs.private.Passing.{pass as pass_of};
ghost use Rattle.nix_drv.specs.private.ParseFaults.{Gives};

use crate::fault::ParseFault;
use crate::reading::fixed_of;
use std::alloc::{AllocError, Global};

// An element of a list, which can be read, written, copied and compared by its key.
pub(crate) trait Element {
    // The form of its text.
    ghost form: { Grammar };

    // The element as a value of the form.
    ghost value: { Self → Value form };

    // The bytes by which the elements of a list that must rise are compared.
    fn key(&self) -> &[u8]
        ensures { result.now ≡ key_of form (value self.now) };

    // The element at the head of the bytes, and the bytes after it.
    fn read(alloc: Global, bytes: &[u8]) -> Result<(Self, &[u8]), ParseFault>
        ensures { Gives (λ x. (value x.0, x.1.now)) result (read_of form bytes.now) };

    // The offset after the element's text, which begins at this offset, or the offset of the first
    // element within it that breaks the order of its list.
    fn pass(&self, offset: usize) -> Result<usize, usize>
        ensures { result ≡ pass_of form offset (value self.now) };

    // Adds the element's text.
    fn write(&self, out: &mut Vec<u8>) -> Result<(), AllocError>
        ensures { OnOk result (out.new.items ≡ out.old.items ++ text form (value self.now)) };

    // A copy of the element.
    fn copy(&self, alloc: Global) -> Result<Self, AllocError>
        ensures { IfOk result (λ copy. value copy ≡ value self.now) };

    // The form is clear, and its first byte tells an element from the end of a list.
    ghost clear: { IsClear (Many Free form) };
}

// Whether the elements of a list must rise by their keys.
#[derive(Clone, Copy)]
pub(crate) enum KeyOrder {
    Rising,
    Free,
}

// What follows an element: a comma, or the end of the list.
enum Next {
    Comma,
    End,
}

// What the head of the bytes is, and the bytes after it.
fn next_of(bytes: &[u8]) -> Result<(Next, &[u8]), ParseFault>
    ensures { Gives (λ x. (x.0, x.1.now)) result (sign_at bytes.now) }
{
    match bytes {
        [] => Err(ParseFault::Left(0)),
        [b',', rest @ ..] => Ok((Next::Comma, rest)),
        [b']', rest @ ..] => Ok((Next::End, rest)),
        _ => Err(ParseFault::Left(bytes.len())),
    }
}

// The list at the head of the bytes, and the bytes after it.
pub(crate) fn read_list<T: Element + Drop>(
    alloc: Global,
    bytes: &[u8],
) -> Result<(Vec<T>, &[u8]), ParseFault>
    ensures { Gives (λ x. (map T.value x.0.items, x.1.now)) result
        (list_read (read_of T.form) bytes.now) }
{
    let rest = fixed_of(bytes, b"[")?;
    match rest {
        [b']', tail @ ..] => Ok((Vec::new(alloc), tail)),
        _ => read_elements(alloc, rest),
    }
}

// The elements of a list of one or more elements, and the bytes after the list. The bytes begin
// after the list's first bracket.
fn read_elements<T: Element + Drop>(
    alloc: Global,
    bytes: &[u8],
) -> Result<(Vec<T>, &[u8]), ParseFault>
    ensures { Gives (λ x. (map T.value x.0.items, x.1.now)) result
        (elements_of (read_of T.form) bytes.now) }
{
    let mut rest = bytes;
    let mut items = Vec::new(alloc);
    'items: loop {
        let (item, after) = T::read(alloc, rest)?;
        items.push(item)?;
        match next_of(after)? {
            (Next::Comma, tail) => rest = tail,
            (Next::End, tail) => return Ok((items, tail)),
        }
    }
}

// Whether an element with this key breaks the order of its list. The element before it, if there is
// one, has the key `before`.
fn breaks(order: KeyOrder, before: Option<&[u8]>, key: &[u8]) -> bool
    ensures { result ≡ breaks_of (order_of order) (option_map (λ k. k.now) before.entry) key.now }
{
    match (order, before) {
        (KeyOrder::Rising, Some(before)) => !before.cmp(key).is_lt(),
        _ => false,
    }
}

// The offset after the list's text, which begins at this offset, or the offset of the first element
// that breaks the order of its list. An offset above `usize::MAX` counts as `usize::MAX`.
#[tactic(auto, unfolding(crate::specs::private::Passing::pass))]
pub(crate) fn pass_list<T: Element>(
    order: KeyOrder,
    items: &[T],
    offset: usize,
) -> Result<usize, usize>
    ensures { result ≡ pass_of (Many (order_of order) T.form) offset (map T.value items.now) }
{
    if items.is_empty() {
        return Ok(offset.saturating_add(2));
    }
    let mut at = offset.saturating_add(1);
    let mut before: Option<&[u8]> = None;
    'items: for item in items {
        let key = item.key();
        if breaks(order, before, key) {
            return Err(at);
        }
        at = item.pass(at)?.saturating_add(1);
        before = Some(key);
    }
    Ok(at)
}

// Adds the list's text.
pub(crate) fn write_list<T: Element>(items: &[T], out: &mut Vec<u8>) -> Result<(), AllocError>
    ensures { OnOk result
        (out.new.items ≡ out.old.items ++ list_text (text T.form) (map T.value items.now)) }
{
    let [first, others @ ..] = items else {
        return out.extend_from_slice(b"[]");
    };
    out.extend_from_slice(b"[")?;
    first.write(out)?;
    write_others(others, out)?;
    out.extend_from_slice(b"]")
}

// Adds a comma and the element's text for each of these elements.
fn write_others<T: Element>(others: &[T], out: &mut Vec<u8>) -> Result<(), AllocError>
    ensures { OnOk result
        (out.new.items ≡ out.old.items ++ others_text (text T.form) (map T.value others.now)) }
{
    'others: for other in others {
        out.push(b',')?;
        other.write(out)?;
    }
    Ok(())
}

// A list of copies of the elements, with room for these alone.
pub(crate) fn copy_list<T: Element + Drop>(alloc: Global, items: &[T]) -> Result<Vec<T>, AllocError>
    ensures value { IfOk result (λ copies. map T.value copies.items ≡ map T.value items.now) }
    ensures room { IfOk result (λ copies. vec_capacity copies ≡ length items.now) }
{
    let mut copies = Vec::with_capacity(alloc, items.len())?;
    'items: for item in items {
        copies.push_reserved(item.copy(alloc)?);
    }
    Ok(copies)
}
