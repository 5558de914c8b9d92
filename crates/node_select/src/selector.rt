//! Selectors (RFC 4825, section 6.3). Names are resolved: a name in no namespace has the empty
//! URI.
ghost use Rattle.std.specs.Prelude.{◌≡◌, IfOk};

use std::alloc::{AllocError, Global};
use xml_names::{List, Text};

/// The test of an element's name in a step.
#[derive(Drop)]
pub enum NameTest {
    /// `*`: any name.
    Any,
    /// This namespace and this local name.
    Named { uri: Text, local: Text },
}

/// The test of an attribute in a step: its name and its value.
#[derive(Drop)]
pub struct AttrTest {
    pub uri: Text,
    pub local: Text,
    pub value: Text,
}

/// A step: from an element to one of its child elements.
#[derive(Drop)]
pub struct Step {
    pub name: NameTest,
    /// Counted from 1 among the children that pass the name test. No child has the position 0.
    pub position: Option<u64>,
    pub test: Option<AttrTest>,
}

/// The last part of a selector, relative to the element that its steps select.
#[derive(Drop)]
pub enum End {
    Element,
    Attribute { uri: Text, local: Text },
    Namespaces,
}

/// A selector of a node of a document.
#[derive(Drop)]
pub struct Selector {
    pub steps: List<Step>,
    pub end: End,
}

/// The last part of a patch operation's selector, relative to the element that its steps select.
#[derive(Drop)]
pub enum PatchEnd {
    Element,
    Attribute { uri: Text, local: Text },
    /// A text of the element: the only one, or the one at this position, counted from 1.
    Chars(Option<u64>),
}

/// The form of the last part of a patch operation's selector, whatever its names mean.
#[derive(Clone, Copy, Drop, PartialEq, Eq)]
pub enum PatchForm {
    /// Steps alone: it selects an element.
    Element,
    Attribute,
    Chars,
}

/// A selector of a patch operation.
#[derive(Drop)]
pub struct PatchSelector {
    pub steps: List<Step>,
    pub end: PatchEnd,
}

impl NameTest {
    /// An equal test.
    ///
    /// # Errors
    /// `AllocError` when out of memory, as at each `copy` below.
    pub fn copy(&self, alloc: Global) -> Result<NameTest, AllocError>
        ensures equal_copy { IfOk result (λ made. made ≡ self.now) }
    {
        match self {
            NameTest::Any => Ok(NameTest::Any),
            NameTest::Named { uri, local } => {
                let uri = uri.copy(alloc)?;
                let local = local.copy(alloc)?;
                Ok(NameTest::Named { uri, local })
            }
        }
    }
}

impl AttrTest {
    /// An equal test.
    pub fn copy(&self, alloc: Global) -> Result<AttrTest, AllocError>
        ensures equal_copy { IfOk result (λ made. made ≡ self.now) }
    {
        let uri = self.uri.copy(alloc)?;
        let local = self.local.copy(alloc)?;
        let value = self.value.copy(alloc)?;
        Ok(AttrTest { uri, local, value })
    }
}

impl Step {
    /// An equal step.
    pub fn copy(&self, alloc: Global) -> Result<Step, AllocError>
        ensures equal_copy { IfOk result (λ made. made ≡ self.now) }
    {
        let name = self.name.copy(alloc)?;
        let test = copy_test(&self.test, alloc)?;
        Ok(Step {
            name,
            position: self.position,
            test,
        })
    }
}

// An equal test, if there is one.
fn copy_test(test: &Option<AttrTest>, alloc: Global) -> Result<Option<AttrTest>, AllocError>
    ensures equal_copy { IfOk result (λ made. made ≡ test.now) }
{
    match test {
        None => Ok(None),
        Some(test) => {
            let made = test.copy(alloc)?;
            Ok(Some(made))
        }
    }
}

impl End {
    /// An equal end.
    pub fn copy(&self, alloc: Global) -> Result<End, AllocError>
        ensures equal_copy { IfOk result (λ made. made ≡ self.now) }
    {
        match self {
            End::Element => Ok(End::Element),
            End::Attribute { uri, local } => {
                let uri = uri.copy(alloc)?;
                let local = local.copy(alloc)?;
                Ok(End::Attribute { uri, local })
            }
            End::Namespaces => Ok(End::Namespaces),
        }
    }
}

impl Selector {
    /// An equal selector.
    pub fn copy(&self, alloc: Global) -> Result<Selector, AllocError>
        ensures equal_copy { IfOk result (λ made. made ≡ self.now) }
    {
        let steps = copy_steps(self.steps.as_slice(), alloc)?;
        let end = self.end.copy(alloc)?;
        Ok(Selector {
            steps: List::from(steps),
            end,
        })
    }
}

// Equal steps.
fn copy_steps(steps: &[Step], alloc: Global) -> Result<Vec<Step>, AllocError>
    ensures equal_copy { IfOk result (λ made. made.items ≡ steps.now) }
{
    let mut made = Vec::new(alloc);
    for step in steps {
        let step = step.copy(alloc)?;
        made.push(step)?;
    }
    Ok(made)
}
