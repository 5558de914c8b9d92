//! Elements of an element kind, each with the scope inside it.
ghost use Rattle.std.specs.Prelude.{◌≡◌, ◌+◌, ◌≤◌, ◌<◌, length, option_map, option_and_then};
ghost use Rattle.std.specs.Prelude.{slice_get, IfSome};
ghost use Rattle.xml_tree.specs.declared.scope.TheConstants.{SCOPE_LIMIT};
ghost use Rattle.xml_tree.specs.Tree.{height, child_elements_of};
ghost use Rattle.list_resolve.specs.ScopedElements.{scoped_child, list_element, root_element};
ghost use Rattle.list_resolve.specs.inner.Views.{scoped_element_view};

use usage_docs::{ElementKind, kind_of};
use xml_tree::{Element, LinkedScope, Path, Scope};

/// An element of an element kind, with the scope that ends with its own declarations.
#[derive(Drop)]
pub(crate) struct ScopedElement<'a> {
    pub(crate) kind: ElementKind,
    pub(crate) scope: Scope<'a>,
    pub(crate) element: &'a Element,
}

impl<'a> ScopedElement<'a> {
    /// The root of a document whose root is of this kind. Does not allocate.
    pub(crate) fn root(kind: ElementKind, root: &'a Element) -> ScopedElement<'a>
        ensures scoped_meant { scoped_element_view result ≡ root_element kind root.now }
        ensures one_scope_more { length result.scope ≡ 1 }
    {
        ScopedElement {
            kind,
            scope: Scope::empty().with(root.decls()),
            element: root,
        }
    }

    /// A child, if it has an element kind. Does not allocate.
    pub(crate) fn enter_child(&self, child_element: &'a Element) -> Option<ScopedElement<'a>>
        requires { length self.now.scope < SCOPE_LIMIT }
        ensures scoped_meant { option_map scoped_element_view result
            ≡ scoped_child (scoped_element_view self.now) child_element.now }
        ensures one_scope_more { IfSome result (λ s. length s.scope ≡ length self.now.scope + 1) }
        ensures scoped_of_child { IfSome result (λ s. s.element.now ≡ child_element.now) }
    {
        let scope = self.scope.with(child_element.decls());
        let kind = kind_of(
            self.kind,
            &LinkedScope::from_scope(&scope),
            child_element.name(),
        )?;
        Some(ScopedElement {
            kind,
            scope,
            element: child_element,
        })
    }

    /// The child of this number, if there is one and it has an element kind. Does not allocate.
    pub(crate) fn child_element(&self, number: usize) -> Option<ScopedElement<'a>>
        requires { length self.now.scope < SCOPE_LIMIT }
        ensures scoped_meant { option_map scoped_element_view result
            ≡ option_and_then (scoped_child (scoped_element_view self.now))
            (slice_get (child_elements_of self.now.element.now) number) }
        ensures one_scope_more { IfSome result (λ s. length s.scope ≡ length self.now.scope + 1) }
        ensures is_no_higher { IfSome result
            (λ s. height s.element.now ≤ height self.now.element.now) }
    {
        let child_element = self.element.child_element(number)?;
        self.enter_child(child_element)
    }
}

/// The element at a path of a document of lists, if all on the path have element kinds. Does not
/// allocate.
pub(crate) fn list_element<'a>(root: &'a Element, path: &Path) -> Option<ScopedElement<'a>>
    ensures scoped_meant { option_map scoped_element_view result ≡ list_element root.now path.now }
    ensures is_no_higher { IfSome result (λ s. height s.element.now ≤ height root.now) }
{
    let mut here = ScopedElement::root(ElementKind::ResourceLists, root);
    for number in path.numbers() {
        here = here.child_element(*number)?;
    }
    Some(here)
}
