//! Names, declarations and attributes, as they are written (Namespaces in XML 1.0, 3 and 4).
ghost use Rattle.std.specs.Prelude.{◌≡◌, ◌↔◌, ◌++◌, ◌∷◌, [], IsTrue, IfOk, OnErr, OnOk};
ghost use Rattle.std.specs.Str.{bytes_eq};
ghost use Rattle.xml_names.specs.Attributes.{same_name};

use crate::small_text::SmallText;
use crate::text::Text;
use std::alloc::{AllocError, Global};

/// A prefix. One of at most 14 bytes, as nearly all are, does not allocate.
pub type Prefix = SmallText<14>;

/// A local name. One of at most 22 bytes, as nearly all are, does not allocate.
pub type LocalName = SmallText<22>;

/// A name as written: a prefix, empty if there is none, and a local name.
#[derive(Drop)]
pub struct Name {
    pub prefix: Prefix,
    pub local: LocalName,
}

/// A declaration of a prefix. The empty prefix is the default namespace, and an empty URI
/// undeclares it.
#[derive(Drop)]
pub struct Decl {
    pub prefix: Prefix,
    pub uri: Text,
}

/// An attribute that isn't a declaration.
#[derive(Drop)]
pub struct Attr {
    pub name: Name,
    pub value: Text,
}

impl Name {
    /// An equal name.
    ///
    /// # Errors
    /// `AllocError` when out of memory.
    pub fn copy(&self, alloc: Global) -> Result<Name, AllocError>
        ensures equal_copy { IfOk result (λ made. made ≡ self.now) }
    {
        let prefix = self.prefix.copy(alloc)?;
        let local = self.local.copy(alloc)?;
        Ok(Name { prefix, local })
    }

    /// Whether two names are equal as written. Does not allocate.
    pub fn same(&self, other: &Name) -> bool
        ensures equal_iff { IsTrue result ↔ (self.now ≡ other.now) }
        ensures exact { result ≡ same_name self.now other.now }
    {
        self.prefix == other.prefix && self.local == other.local
    }

    /// Whether the name has no prefix. Does not allocate.
    pub fn has_no_prefix(&self) -> bool
        ensures exact { result ≡ bytes_eq self.now.prefix [] }
    {
        self.prefix.is("")
    }
}

impl Decl {
    /// An equal declaration.
    ///
    /// # Errors
    /// `AllocError` when out of memory.
    pub fn copy(&self, alloc: Global) -> Result<Decl, AllocError>
        ensures equal_copy { IfOk result (λ made. made ≡ self.now) }
    {
        let prefix = self.prefix.copy(alloc)?;
        let uri = self.uri.copy(alloc)?;
        Ok(Decl { prefix, uri })
    }

    /// Whether two declarations are equal. Does not allocate.
    pub fn same(&self, other: &Decl) -> bool
        ensures exact { IsTrue result ↔ (self.now ≡ other.now) }
    {
        self.prefix.same(&other.prefix) && self.uri.same(&other.uri)
    }
}

impl Attr {
    /// An equal attribute.
    ///
    /// # Errors
    /// `AllocError` when out of memory.
    pub fn copy(&self, alloc: Global) -> Result<Attr, AllocError>
        ensures equal_copy { IfOk result (λ made. made ≡ self.now) }
    {
        let name = self.name.copy(alloc)?;
        let value = self.value.copy(alloc)?;
        Ok(Attr { name, value })
    }

    /// Whether two attributes have the same prefix, local name and value. Does not allocate.
    pub fn same(&self, other: &Attr) -> bool
        ensures exact { IsTrue result ↔ (self.now ≡ other.now) }
    {
        self.name.same(&other.name) && self.value.same(&other.value)
    }
}

/// Whether two lists of declarations are equal. Does not allocate.
pub fn same_decls(a: &[Decl], b: &[Decl]) -> bool
    ensures exact { IsTrue result ↔ (a.now ≡ b.now) }
{
    if a.len() != b.len() {
        return false;
    }
    for i in 0..a.len() {
        if !a[i].same(&b[i]) {
            return false;
        }
    }
    true
}

/// Whether two lists of attributes are equal. Does not allocate.
pub fn same_attrs(a: &[Attr], b: &[Attr]) -> bool
    ensures exact { IsTrue result ↔ (a.now ≡ b.now) }
{
    if a.len() != b.len() {
        return false;
    }
    for i in 0..a.len() {
        if !a[i].same(&b[i]) {
            return false;
        }
    }
    true
}

/// Equal declarations.
///
/// # Errors
/// `AllocError` when out of memory.
pub fn copy_decls(alloc: Global, decls: &[Decl]) -> Result<Vec<Decl>, AllocError>
    ensures equal_copy { IfOk result (λ made. made.items ≡ decls.now) }
{
    let mut made = Vec::with_capacity(alloc, decls.len())?;
    for decl in decls {
        push_decl_copy(alloc, &mut made, decl)?;
    }
    Ok(made)
}

// Appends a copy of a declaration.
pub(crate) fn push_decl_copy(
    alloc: Global,
    made: &mut Vec<Decl>,
    decl: &Decl,
) -> Result<(), AllocError>
    ensures appended { OnOk result (made.new.items ≡ made.old.items ++ decl.now ∷ []) }
{
    let copy = decl.copy(alloc)?;
    push_decl(made, copy)
}

/// Appends a declaration.
///
/// # Errors
/// `AllocError` when out of memory; the list is then unchanged.
pub fn push_decl(decls: &mut Vec<Decl>, decl: Decl) -> Result<(), AllocError>
    ensures adds_declaration { OnOk result (decls.new.items ≡ decls.old.items ++ decl ∷ []) }
    ensures err_unchanged { OnErr result (decls.new.items ≡ decls.old.items) }
{
    decls.push(decl)?;
    Ok(())
}

/// Equal attributes.
///
/// # Errors
/// `AllocError` when out of memory.
pub fn copy_attrs(alloc: Global, attrs: &[Attr]) -> Result<Vec<Attr>, AllocError>
    ensures equal_copy { IfOk result (λ made. made.items ≡ attrs.now) }
{
    let mut made = Vec::with_capacity(alloc, attrs.len())?;
    for attr in attrs {
        made.push(attr.copy(alloc)?)?;
    }
    Ok(made)
}
