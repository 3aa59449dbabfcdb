// The base in force, which grows in its own memory where a path is written after a directory.

ghost use Rattle.std.specs.Prelude.{◌≡◌, ◌++◌, ◌≤◌, ◌<◌, ◌^◌, [], true, false, Some, IfErr, OnOk, OnErr, MatchOption};
ghost use Rattle.std.specs.Prelude.{⊤, length};
ghost use Rattle.std.specs.Str.{chars, encode_utf8_all};
ghost use Rattle.rdf_terms.specs.Terms.{IsIri, has_scheme};
ghost use Rattle.rdf_iri.specs.Texts.{IsIriText, byte_len};
ghost use Rattle.rdf_iri.specs.Seen.{slices, text_of};
ghost use Rattle.rdf_iri.specs.Parts.{parts_of, recompose, suffix};
ghost use Rattle.rdf_iri.specs.Resolve.{Resolves, target};
ghost use Rattle.rdf_iri.specs.Steps.{path_in};
ghost use Rattle.rdf_iri.specs.Roots.{HasRoot, HasOwnPath, front_text};
ghost use Rattle.rdf_iri.specs.Faults.{Unresolved};
ghost use Rattle.rdf_iri.specs.Directory.{EndsInSlash, BeginsSegment, HasDirectory, HasPath, GrowsBy};

use crate::dots::has_dots;
use crate::fault::IriFault;
use crate::parts::{Parts, cut_parts};
use crate::places::{begins_with, directory_len};
use crate::resolution::resolved;
use crate::steps::{ends_at, put_onward};
use rdf_terms::{Iri, TextBuffer};
use std::alloc::{AllocError, Allocator};
use std::marker::Model;

/// An IRI as a base.
#[derive(Drop)]
pub(crate) struct Base<A: Allocator> {
    iri: Iri<A>,
    /// It is known to end in a directory, so that a path may be written after it.
    directory: bool,
    /// Where paths are written, if that is known.
    root: Option<Root>,
}

/// Where a base whose path begins with a slash is cut, by its bytes up to each place.
#[derive(Clone, Copy)]
pub(crate) struct Root {
    /// That first slash.
    first: usize,
    /// The last slash of the path. No dot segment stands between them.
    last: usize,
    /// The end of the path.
    path: usize,
    /// The end of the query, or of the path where there is none.
    query: usize,
}

impl<A: Allocator> Model for Base<A> {
    ghost use Rattle.std.specs.Prelude.{◌≡◌, ℕ, List, true, MatchOption, ⊤};
    ghost use Rattle.std.specs.Str.{encode_utf8_all};
    ghost use Rattle.rdf_iri.specs.Parts.{parts_of};
    ghost use Rattle.rdf_iri.specs.Directory.{HasDirectory};
    ghost use Rattle.rdf_iri.specs.Roots.{HasRoot};

    ghost Value = { List ℕ };

    ghost view = { λ b. b.iri };

    ghost invariant = { λ b. (b.directory ≡ true → HasDirectory (parts_of (encode_utf8_all b.iri)))
        × MatchOption b.root ⊤ (HasRoot (encode_utf8_all b.iri)) };
}

impl<A: Allocator> Base<A> {
    /// It looks at all of the IRI, once, and takes no memory.
    pub(crate) fn of_iri(iri: Iri<A>) -> Base<A>
        ensures { result ≡ iri }
    {
        let directory = has_directory(iri.as_str());
        let root = root_of(iri.as_str());
        Base {
            iri,
            directory,
            root,
        }
    }

    pub(crate) fn iri(&self) -> &Iri<A>
        ensures { result.now ≡ self.now }
    {
        &self.iri
    }

    /// Whether the reference stands for the base with the reference after it. It looks at the reference alone.
    pub(crate) fn grows_by(&self, reference: &str) -> bool
        ensures { result ≡ true → GrowsBy (encode_utf8_all self.now) reference.now }
    {
        self.directory && has_path(reference)
    }

    /// Writes the reference after the base.
    pub(crate) fn grow(&mut self, reference: &str, limit: u64) -> Result<(), IriFault>
        requires text { IsIriText (chars reference.now) }
        requires grows { GrowsBy (encode_utf8_all self.old) reference.now }
        ensures resolved { OnOk result (Resolves (Some self.old) (chars reference.now) self.new) }
        ensures within { OnOk result (byte_len self.new ≤ limit) }
        ensures refused { IfErr result (Unresolved (Some self.old) (chars reference.now) limit) }
        ensures unchanged { OnErr result (self.new ≡ self.old) }
    {
        let len = self.iri.as_str().len() + reference.len();
        if len as u64 > limit {
            return Err(IriFault::IriTooLong);
        }
        self.iri.push_str(reference)?;
        self.directory = ends_in_slash(reference.as_bytes());
        self.root = None;
        Ok(())
    }
}

impl<A: Allocator + Copy> Base<A> {
    /// Puts what a reference without a scheme stands for in place of a text. Most are paths, which need no memory
    /// of their own.
    pub(crate) fn put_target(
        &self,
        alloc: A,
        reference: &str,
        text: &mut TextBuffer<A>,
    ) -> Result<(), AllocError>
        requires { has_scheme (chars reference.now) ≡ false }
        ensures target { OnOk result (chars text.new ≡ recompose
            (target (parts_of self.now) (parts_of (chars reference.now)))) }
        ensures base { IsIri self.now }
    {
        match self.root {
            Some(root) if is_path(reference.as_bytes()) => {
                put_after(text, self.iri.as_str(), root, reference)
            }
            Some(root) if ends_at(reference.as_bytes(), 0) => {
                put_beyond(text, self.iri.as_str(), root, reference)
            }
            _ => {
                let resolved = resolved(alloc, self.iri.as_str(), reference)?;
                text.put(resolved.as_str())
            }
        }
    }
}

/// Whether a reference without a scheme has a path and no authority.
#[inline(always)]
fn is_path(reference: &[u8]) -> bool
    ensures { result ≡ true → HasOwnPath reference.now }
{
    if ends_at(reference, 0) {
        return false;
    }
    reference[0] != b'/' || ends_at(reference, 1) || reference[1] != b'/'
}

/// Puts a path after the base's root or its last directory.
fn put_after<A: Allocator + Copy>(
    text: &mut TextBuffer<A>,
    base: &str,
    root: Root,
    reference: &str,
) -> Result<(), AllocError>
    requires root { HasRoot base.now root }
    requires path { HasOwnPath reference.now }
    requires no_scheme { has_scheme reference.now ≡ false }
    ensures { OnOk result (text.new ≡ recompose (target (parts_of base.now) (parts_of reference.now))) }
{
    if reference.as_bytes()[0] == b'/' {
        text.put(&base[..root.first])?;
        put_onward(text, root.first, reference, 1)
    } else {
        text.put(&base[..root.last])?;
        put_onward(text, root.first, reference, 0)
    }
}

/// Puts a query or a fragment, or nothing, after the base's path, and after its query where the reference has none.
fn put_beyond<A: Allocator + Copy>(
    text: &mut TextBuffer<A>,
    base: &str,
    root: Root,
    reference: &str,
) -> Result<(), AllocError>
    requires root { HasRoot base.now root }
    requires path { path_in reference.now ≡ [] }
    requires no_scheme { has_scheme reference.now ≡ false }
    ensures { OnOk result (text.new ≡ recompose (target (parts_of base.now) (parts_of reference.now))) }
{
    if begins_with(reference.as_bytes(), b"?") {
        put_both(text, &base[..root.path], reference)
    } else {
        put_both(text, &base[..root.query], reference)
    }
}

fn put_both<A: Allocator + Copy>(
    text: &mut TextBuffer<A>,
    front: &str,
    rest: &str,
) -> Result<(), AllocError>
    ensures { OnOk result (text.new ≡ front.now ++ rest.now) }
{
    text.put_joined(front, rest)
}

/// Where a base is cut, if its path begins with a slash.
fn root_of(text: &str) -> Option<Root>
    ensures { MatchOption result ⊤ (HasRoot text.now) }
{
    let parts = cut_parts(text);
    let path = parts.path.as_bytes();
    if !begins_with(path, b"/") {
        return None;
    }
    let len = directory_len(path);
    if has_dots(&path[..len]) {
        return None;
    }
    let front = front_len(&parts);
    let end = front + path.len();
    Some(Root {
        first: front + 1,
        last: front + len,
        path: end,
        query: end + query_len(parts.query),
    })
}

/// The bytes of a query, with the character before it.
fn query_len(query: Option<&str>) -> usize
    requires { length (suffix 63 (text_of query)) < 2 ^ 63 }
    ensures { result ≡ length (suffix 63 (text_of query.entry)) }
{
    match query {
        Some(query) => query.len() + 1,
        None => 0,
    }
}

/// The bytes of what stands in front of the path.
fn front_len(parts: &Parts<'_>) -> usize
    requires { length (front_text (slices parts.now)) < 2 ^ 63 }
    ensures { result ≡ length (front_text (slices parts.now)) }
{
    let scheme = match parts.scheme {
        Some(scheme) => scheme.len() + 1,
        None => 0,
    };
    let authority = match parts.authority {
        Some(authority) => authority.len() + 2,
        None => 0,
    };
    scheme + authority
}

/// Whether the text is an absolute IRI whose path ends in a slash and has no dot segments, with nothing after it.
fn has_directory(text: &str) -> bool
    ensures { result ≡ true → HasDirectory (parts_of text.now) }
{
    match cut_parts(text) {
        Parts {
            scheme: Some(_),
            path,
            query: None,
            fragment: None,
            ..
        } => ends_in_slash(path.as_bytes()) && !has_dots(path.as_bytes()),
        _ => false,
    }
}

/// Whether the text is a path alone that begins with a segment and has no dot segments.
fn has_path(text: &str) -> bool
    ensures { result ≡ true → HasPath (parts_of text.now) }
{
    match cut_parts(text) {
        Parts {
            scheme: None,
            authority: None,
            path,
            query: None,
            fragment: None,
        } => begins_segment(path.as_bytes()) && !has_dots(path.as_bytes()),
        _ => false,
    }
}

fn ends_in_slash(path: &[u8]) -> bool
    ensures { result ≡ true → EndsInSlash path.now }
{
    match path.split_last() {
        Some((last, _)) => *last == b'/',
        None => false,
    }
}

fn begins_segment(path: &[u8]) -> bool
    ensures { result ≡ true → BeginsSegment path.now }
{
    match path.split_first() {
        Some((first, _)) => *first != b'/',
        None => false,
    }
}
