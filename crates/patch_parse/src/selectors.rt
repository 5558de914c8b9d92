//! The selector of an operation (RFC 5261, section 4.1).
ghost use Rattle.std.specs.Prelude.{◌≡◌, ◌||◌, [], IfOk, chars, is_some, unwrap_or, Err};
ghost use Rattle.std.specs.Str.{bytes_eq};
ghost use Rattle.xml_names.specs.ReadErrors.{ResultSatisfies};
ghost use Rattle.xml_names.specs.Scopes.{in_scope_bindings, bound_uri};
ghost use Rattle.node_select.specs.Faults.{form_of as end_form};
ghost use Rattle.node_select.specs.Names.{prefix_uri};
ghost use Rattle.patch_rules.specs.PatchOperations.{is_element_form, accepts_form};
ghost use Rattle.patch_rules.specs.readers.AppliedOperations.{selector_reading};
ghost use Rattle.patch_parse.specs.inner.SelectorErrors.{IsSelectorFault, HasUnboundPrefix};
ghost use Rattle.patch_parse.specs.inner.SelectorErrors.{is_type_prefix_bound_by, unbound_error};
ghost use Rattle.patch_parse.specs.Views.{IsPartResult};
ghost use Rattle.patch_parse.specs.Operations.{checked_selector};
ghost use Rattle.patch_parse.specs.Views.{action_view, error_view};

use crate::operation_error::OperationError;
use crate::patch_actions::PatchAction;
use crate::patch_forms::patch_form;
use node_select::{
    Bindings, PatchEnd, PatchForm, PatchSelector, SelectorFault, read_patch_selector,
};
use std::alloc::{AllocError, Global};
use xml_names::{Name, ReadError, Text};
use xml_tree::Scope;

// All bindings in a scope.
fn bindings_of(alloc: Global, scope: &Scope<'_>) -> Result<Bindings, AllocError>
    ensures ok { IfOk result (λ made. made ≡ in_scope_bindings scope.now) }
{
    let all = scope.bindings(alloc)?;
    let mut made = Bindings::none(alloc);
    for binding in &all {
        made.bind(binding.prefix.as_str(), binding.uri.as_str())?;
    }
    Ok(made)
}

// The default namespace in a scope, which is empty where there is none.
fn default_uri<'a>(scope: &Scope<'a>) -> &'a str
    ensures default_namespace { chars result.now ≡ unwrap_or (bound_uri scope.now []) [] }
{
    match scope.resolve("") {
        Some(uri) => uri,
        None => "",
    }
}

// The form of an end.
fn form_of(end: &PatchEnd) -> PatchForm
    ensures exact { result ≡ end_form end.now }
{
    match end {
        PatchEnd::Element => PatchForm::Element,
        PatchEnd::Attribute { .. } => PatchForm::Attribute,
        PatchEnd::Chars(_) => PatchForm::Chars,
    }
}

// Whether a selector of this form selects an element.
fn is_element(form: PatchForm) -> bool
    ensures exact { result ≡ is_element_form form }
{
    match form {
        PatchForm::Element => true,
        PatchForm::Attribute => false,
        PatchForm::Chars => false,
    }
}

// Whether a selector of this form suits a patch action.
fn accepts_form(task: &PatchAction, form: PatchForm) -> bool
    ensures exact { result ≡ accepts_form (action_view task.now) form }
{
    match task {
        PatchAction::Put(_) => is_element(form),
        PatchAction::NewAttr(_) => is_element(form),
        PatchAction::Replace => true,
        PatchAction::Remove(before, after) => is_element(form) || !(*before || *after),
    }
}

// Whether the prefix of a name is bound.
fn is_prefix_bound(bindings: &Bindings, name: &Name) -> bool
    ensures exact { result
        ≡ (bytes_eq name.now.prefix [] || is_some (prefix_uri bindings.now name.now.prefix)) }
{
    name.has_no_prefix() || bindings.resolve(name.prefix.as_str()).is_some()
}

// Whether the prefix of a new attribute's name is bound.
fn is_type_prefix_bound(bindings: &Bindings, task: &PatchAction) -> bool
    ensures exact { result ≡ is_type_prefix_bound_by bindings.now (action_view task.now) }
{
    match task {
        PatchAction::Put(_) => true,
        PatchAction::NewAttr(name) => is_prefix_bound(bindings, name),
        PatchAction::Replace => true,
        PatchAction::Remove(_, _) => true,
    }
}

/// The selector of an operation with a patch action, in the scope at the operation (RFC 5261,
/// section 4.1).
///
/// # Errors
/// `Directive` where the text is no selector, or what it ends in doesn't suit the action; otherwise
/// `Prefix` where a prefix isn't bound. `NoMemory` when out of memory.
pub fn selector_for(
    alloc: Global,
    here: &Scope<'_>,
    sel: &Text,
    task: &PatchAction,
) -> Result<PatchSelector, ReadError<OperationError>>
    ensures grammar_answer { ResultSatisfies
        (IsPartResult (checked_selector here.now sel.now (action_view task.now))) result }
{
    let bindings = bindings_of(alloc, here)?;
    match read_patch_selector(alloc, sel.as_str(), &bindings, default_uri(here)) {
        Ok(selector) => {
            if !accepts_form(task, form_of(&selector.end)) {
                return Err(ReadError::Fault(OperationError::Directive));
            }
            if !is_type_prefix_bound(&bindings, task) {
                return Err(ReadError::Fault(OperationError::Prefix));
            }
            Ok(selector)
        }
        Err(ReadError::Fault(fault)) => Err(selector_error(alloc, here, sel, task, fault)),
        Err(ReadError::NoMemory) => Err(ReadError::NoMemory),
    }
}

// The error of a selector that has a fault.
fn selector_error(
    alloc: Global,
    here: &Scope<'_>,
    sel: &Text,
    task: &PatchAction,
    fault: SelectorFault,
) -> ReadError<OperationError>
    requires { IsSelectorFault (selector_reading sel.now) here.now fault }
    ensures selector_fault { ResultSatisfies
        (IsPartResult (checked_selector here.now sel.now (action_view task.now))) (Err result) }
{
    match fault {
        SelectorFault::BadSelector(_) => ReadError::Fault(OperationError::Directive),
        SelectorFault::UnboundPrefix(_) => unbound_selector_error(alloc, here, sel, task),
    }
}

// The error of a selector with an unbound prefix: its end may not suit the patch action.
fn unbound_selector_error(
    alloc: Global,
    here: &Scope<'_>,
    sel: &Text,
    task: &PatchAction,
) -> ReadError<OperationError>
    requires { HasUnboundPrefix (selector_reading sel.now) here.now }
    ensures selector_fault { ResultSatisfies
        (IsPartResult (checked_selector here.now sel.now (action_view task.now))) (Err result) }
{
    match patch_form(alloc, sel) {
        Err(_) => ReadError::NoMemory,
        Ok(None) => ReadError::Fault(OperationError::Directive),
        Ok(Some(form)) => ReadError::Fault(unbound_prefix_error(task, form)),
    }
}

// The error of an unbound prefix, where the selector has this form.
fn unbound_prefix_error(task: &PatchAction, form: PatchForm) -> OperationError
    ensures end_before_prefixes { error_view result ≡ unbound_error (action_view task.now) form }
{
    if accepts_form(task, form) {
        OperationError::Prefix
    } else {
        OperationError::Directive
    }
}
