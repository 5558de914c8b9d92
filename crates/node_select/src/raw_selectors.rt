//! Selectors as written in a text: names with their prefixes, and the widths that give the place
//! of each name.
use xml_names::Text;
use xml_tokens::RawName;

/// Which of the two grammars is read.
#[derive(Clone, Copy)]
pub enum Form {
    Node,
    Patch,
}

/// The test of a step.
#[derive(Drop)]
pub struct RawTest<'a> {
    pub name: RawName<'a>,
    pub value: Text,
}

/// A step.
#[derive(Drop)]
pub struct RawStep<'a> {
    /// None for `*`.
    pub name: Option<RawName<'a>>,
    pub position: Option<u64>,
    /// How many characters the name and the position have.
    pub front: usize,
    pub test: Option<RawTest<'a>>,
    /// How many characters the step has.
    pub size: usize,
}

/// What a selector ends in.
#[derive(Clone, Copy)]
pub enum RawEnd<'a> {
    Element,
    Attribute(RawName<'a>),
    Namespaces,
}

/// What a selector of a patch ends in.
#[derive(Clone, Copy)]
pub enum RawPatchEnd<'a> {
    Element,
    Attribute(RawName<'a>),
    Chars(Option<u64>),
}

/// A selector as written in a text.
#[derive(Drop)]
pub struct RawSelector<'a> {
    pub steps: Vec<RawStep<'a>>,
    pub end: RawEnd<'a>,
}

/// A selector of a patch as written in a text.
#[derive(Drop)]
pub struct RawPatchSelector<'a> {
    /// How many characters a slash in front has.
    pub slash: usize,
    pub steps: Vec<RawStep<'a>>,
    pub end: RawPatchEnd<'a>,
}
