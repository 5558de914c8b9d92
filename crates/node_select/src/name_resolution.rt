//! What the names of a selector mean, by the bindings of their prefixes.
ghost use Rattle.std.specs.Prelude.{◌≡◌, ◌+◌, ◌<◌, ◌^◌, IfOk, chars, map, Option, option_map};
ghost use Rattle.xml_tokens.specs.readers.TokenViews.{raw_name_view};
ghost use Rattle.node_select.specs.declared.name_resolution.Unresolved.TheVariants as troubles;
ghost use Rattle.node_select.specs.readers.NameResolution.{IsResolvedAs};
ghost use Rattle.node_select.specs.Names.{prefix_uri, attr_uri, name_uri};
ghost use Rattle.node_select.specs.readers.RawSelectors.{HasPlacesInRange, attr_test, resolved_end};
ghost use Rattle.node_select.specs.readers.RawSelectors.{name_test};
ghost use Rattle.node_select.specs.readers.RawSelectors.{resolved_patch_end, resolved_step};
ghost use Rattle.node_select.specs.readers.RawSelectors.{resolved_steps, unbound_at};
ghost use Rattle.node_select.specs.readers.RawSelectors.{unbound_end, unbound_in_steps};
ghost use Rattle.node_select.specs.readers.RawSelectors.{unbound_in_step};
ghost use Rattle.node_select.specs.readers.RawSelectors.{unbound_name, unbound_patch_end};
ghost use Rattle.node_select.specs.readers.RawSelectors.{unbound_test};
ghost use Rattle.node_select.specs.readers.RawSelectors.{no_unbound_end, steps_size};
ghost use Rattle.node_select.specs.readers.Views.{end_view, patch_end_view, step_view, test_view};

use crate::raw_selectors::{RawEnd, RawPatchEnd, RawStep, RawTest};
use crate::selector::{AttrTest, End, NameTest, PatchEnd, Step};
use crate::step_match::empty_uri;
use std::alloc::{AllocError, AllocFailed, Global};
use xml_grammar::split_first;
use xml_names::{IndexedDecls, List, Prefix, Text, is_xmlns_prefix};
use xml_tokens::RawName;
use xml_tree::LinkedScope;

/// Why names can't be resolved.
#[derive(Drop)]
pub enum Unresolved {
    /// This many characters come before the first name whose prefix isn't bound.
    Prefix(usize),
    /// Out of memory.
    Memory,
}

impl From<AllocError> for Unresolved {
    ghost from_gives = { λ _ e. e ≡ troubles.Memory };

    fn from(_error: AllocError) -> Self {
        Unresolved::Memory
    }
}

impl<T: Drop> From<AllocFailed<T>> for Unresolved {
    ghost from_gives = { λ _ e. e ≡ troubles.Memory };

    fn from(_error: AllocFailed<T>) -> Self {
        Unresolved::Memory
    }
}

// The URI of a prefix, if it is bound.
fn resolve_uri(
    alloc: Global,
    bindings: &IndexedDecls<'_>,
    prefix: &str,
) -> Result<Option<Text>, AllocError>
    ensures ok { IfOk result (λ uri. uri ≡ prefix_uri bindings.now (chars prefix.now)) }
{
    let prefix = Prefix::from(alloc, prefix)?;
    if is_xmlns_prefix(prefix.as_str()) {
        return Ok(None);
    }
    match LinkedScope::empty().inside(bindings).resolve(&prefix) {
        None => Ok(None),
        Some(uri) => {
            let uri = Text::from(alloc, uri)?;
            Ok(Some(uri))
        }
    }
}

// The URI of the name at `at`; a name without prefix has `none`.
fn name_uri(
    alloc: Global,
    bindings: &IndexedDecls<'_>,
    none: &str,
    name: &RawName<'_>,
    at: usize,
) -> Result<Text, Unresolved>
    ensures means_name { IsResolvedAs (unbound_at bindings.now at (raw_name_view name.now))
        (name_uri bindings.now (chars none.now) (raw_name_view name.now)) result }
{
    match split_first(name.prefix) {
        None => {
            let uri = Text::from(alloc, none)?;
            Ok(uri)
        }
        Some(_) => match resolve_uri(alloc, bindings, name.prefix)? {
            None => Err(Unresolved::Prefix(at)),
            Some(uri) => Ok(uri),
        },
    }
}

// The URI of an attribute's name at `at`.
fn attr_uri(
    alloc: Global,
    bindings: &IndexedDecls<'_>,
    name: &RawName<'_>,
    at: usize,
) -> Result<Text, Unresolved>
    ensures means_attr_name { IsResolvedAs (unbound_at bindings.now at (raw_name_view name.now))
        (attr_uri bindings.now (raw_name_view name.now)) result }
{
    name_uri(alloc, bindings, empty_uri(), name, at)
}

// The name test of a step at `at`.
fn name_test(
    alloc: Global,
    bindings: &IndexedDecls<'_>,
    default: &str,
    name: &Option<RawName<'_>>,
    at: usize,
) -> Result<NameTest, Unresolved>
    ensures means_name_test { IsResolvedAs
        (unbound_name bindings.now at (option_map raw_name_view name.now))
        (name_test bindings.now (chars default.now) (option_map raw_name_view name.now)) result }
{
    match name {
        None => Ok(NameTest::Any),
        Some(name) => {
            let uri = name_uri(alloc, bindings, default, name, at)?;
            let local = Text::from(alloc, name.local)?;
            Ok(NameTest::Named { uri, local })
        }
    }
}

// The attribute test of a step, where the name of the attribute is at `at`.
fn attr_test(
    alloc: Global,
    bindings: &IndexedDecls<'_>,
    test: &RawTest<'_>,
    at: usize,
) -> Result<AttrTest, Unresolved>
    ensures means_attr_test { IsResolvedAs (unbound_at bindings.now at (test_view test.now).0)
        (attr_test bindings.now (test_view test.now)) result }
{
    let uri = attr_uri(alloc, bindings, &test.name, at)?;
    let local = Text::from(alloc, test.name.local)?;
    let value = test.value.copy(alloc)?;
    Ok(AttrTest { uri, local, value })
}

// The attribute test of a step, if it has one.
fn optional_test(
    alloc: Global,
    bindings: &IndexedDecls<'_>,
    test: &Option<RawTest<'_>>,
    at: usize,
) -> Result<Option<AttrTest>, Unresolved>
    ensures means_optional_test { IsResolvedAs
        (unbound_test bindings.now at (option_map test_view test.now))
        (option_map (attr_test bindings.now) (option_map test_view test.now)) result }
{
    match test {
        None => Ok(None),
        Some(test) => {
            let test = attr_test(alloc, bindings, test, at)?;
            Ok(Some(test))
        }
    }
}

// A raw step with its names resolved; `at` is where it starts in the selector.
fn step(
    alloc: Global,
    bindings: &IndexedDecls<'_>,
    default: &str,
    step: &RawStep<'_>,
    at: usize,
) -> Result<Step, Unresolved>
    requires { at + step.now.front + 2 < 2 ^ 64 }
    ensures means_step { IsResolvedAs (unbound_in_step bindings.now at (step_view step.now))
        (resolved_step bindings.now (chars default.now) (step_view step.now)) result }
{
    let name = name_test(alloc, bindings, default, &step.name, at)?;
    let test = optional_test(alloc, bindings, &step.test, at + step.front + 2)?;
    Ok(Step {
        name,
        position: step.position,
        test,
    })
}

/// The steps, the first at `at`, and the place after them and a slash.
pub fn steps(
    alloc: Global,
    bindings: &IndexedDecls<'_>,
    default: &str,
    steps: &[RawStep<'_>],
    at: usize,
) -> Result<(List<Step>, usize), Unresolved>
    requires { HasPlacesInRange at (map step_view steps.now) }
    ensures means_steps { IsResolvedAs
        (unbound_in_steps bindings.now at (map step_view steps.now) no_unbound_end) (
          resolved_steps bindings.now (chars default.now) (map step_view steps.now),
          at + steps_size (map step_view steps.now),
        )
        result }
{
    let mut made = List::empty(alloc);
    let mut here = at;
    for raw in steps {
        let step = step(alloc, bindings, default, raw, here)?;
        made.push(step)?;
        here += raw.size + 1;
    }
    Ok((made, here))
}

/// The end at `at`; its name comes after the `@`.
pub fn end(
    alloc: Global,
    bindings: &IndexedDecls<'_>,
    end: &RawEnd<'_>,
    at: usize,
) -> Result<End, Unresolved>
    requires { at + 1 < 2 ^ 64 }
    ensures means_end { IsResolvedAs (unbound_end bindings.now (end_view end.now) at)
        (resolved_end bindings.now (end_view end.now)) result }
{
    match end {
        RawEnd::Element => Ok(End::Element),
        RawEnd::Attribute(name) => {
            let uri = attr_uri(alloc, bindings, name, at + 1)?;
            let local = Text::from(alloc, name.local)?;
            Ok(End::Attribute { uri, local })
        }
        RawEnd::Namespaces => Ok(End::Namespaces),
    }
}

/// The end of a patch's selector at `at`.
pub fn resolve_patch_end(
    alloc: Global,
    bindings: &IndexedDecls<'_>,
    end: &RawPatchEnd<'_>,
    at: usize,
) -> Result<PatchEnd, Unresolved>
    requires { at + 1 < 2 ^ 64 }
    ensures means_patch_end { IsResolvedAs
        (unbound_patch_end bindings.now (patch_end_view end.now) at)
        (resolved_patch_end bindings.now (patch_end_view end.now)) result }
{
    match end {
        RawPatchEnd::Element => Ok(PatchEnd::Element),
        RawPatchEnd::Attribute(name) => {
            let uri = attr_uri(alloc, bindings, name, at + 1)?;
            let local = Text::from(alloc, name.local)?;
            Ok(PatchEnd::Attribute { uri, local })
        }
        RawPatchEnd::Chars(position) => Ok(PatchEnd::Chars(*position)),
    }
}
