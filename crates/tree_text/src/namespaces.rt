//! Numbers for namespaces, so that names are compared without reading their namespaces again
//! (Namespaces in XML 1.0, section 2.3).
ghost use Rattle.std.specs.Prelude.{◌≡◌, ◌-◌, ◌++◌, List, ℕ, [], ◌∷◌, Some, length, take};
ghost use Rattle.std.specs.Prelude.{option_map, IfOk, OnOk, if◌then◌else◌};
ghost use Rattle.std.specs.Str.{bytes_eq};
ghost use Rattle.xml_names.specs.Scopes.{bound_uri, scope_decls};
ghost use Rattle.xml_names.specs.declared.names.Decl.{Decl};
ghost use Rattle.tree_text.specs.readers.Bindings.{IsNumbering, RepresentsDecls, value_at_text};
ghost use Rattle.tree_text.specs.readers.Bindings.{namespace_number, prefix_numbers};

use std::alloc::{AllocError, Global};
use std::collections::BTreeMap;
use xml_names::{Decl, Prefix, Text};

/// A number for each declared namespace, and the declarations of each prefix.
#[derive(Drop)]
pub struct Namespaces {
    /// Equal namespaces have equal numbers.
    pub numbers: BTreeMap<Text, usize>,
    /// The numbers of the namespaces that a prefix is declared for, the nearest last.
    pub declared: BTreeMap<Prefix, Vec<usize>>,
    /// The number of the empty text, which is no namespace.
    pub none: usize,
    /// The number of the namespace of `xml`.
    pub xml: usize,
}

/// The number of a text; a new number where it has none.
fn assign_number(
    alloc: Global,
    numbers: &mut BTreeMap<Text, usize>,
    text: &Text,
) -> Result<usize, AllocError>
    ensures numbers_stay_numbers { IsNumbering numbers.old → OnOk result (IsNumbering numbers.new) }
    ensures number_of_text { IfOk result (λ n. value_at_text numbers.new text.now ≡ Some n) }
    ensures numbers_stay { OnOk result
        ((u : List ℕ) (n : ℕ) → value_at_text numbers.old u ≡ Some n
        → value_at_text numbers.new u ≡ Some n) }
{
    if let Some(namespace_number) = numbers.get(text) {
        return Ok(*namespace_number);
    }
    let namespace_number = numbers.len();
    numbers.insert(text.copy(alloc)?, namespace_number)?;
    Ok(namespace_number)
}

/// Appends a number to the numbers of a prefix.
fn push_number(
    alloc: Global,
    declared: &mut BTreeMap<Prefix, Vec<usize>>,
    prefix: &Prefix,
    namespace_number: usize,
) -> Result<(), AllocError>
    ensures appends_number { OnOk result
        ((p : List ℕ) → prefix_numbers declared.new p
        ≡ prefix_numbers declared.old p
        ++ (if bytes_eq prefix.now p then namespace_number ∷ [] else [])) }
{
    match declared.get_mut(prefix) {
        Some(numbers) => numbers.push(namespace_number)?,
        None => {
            let mut numbers = Vec::new(alloc);
            numbers.push(namespace_number)?;
            declared.insert(prefix.copy(alloc)?, numbers)?;
        }
    }
    Ok(())
}

/// Removes the last number of a prefix.
fn pop_number(declared: &mut BTreeMap<Prefix, Vec<usize>>, prefix: &Prefix)
    ensures drops_last_number { (p : List ℕ)
        → prefix_numbers declared.new p
        ≡ (if bytes_eq prefix.now p
        then take (length (prefix_numbers declared.old p) - 1) (prefix_numbers declared.old p)
        else prefix_numbers declared.old p) }
{
    if let Some(numbers) = declared.get_mut(prefix) {
        numbers.pop();
    }
}

impl Namespaces {
    /// The namespaces where nothing is declared.
    pub fn new(alloc: Global) -> Result<Namespaces, AllocError>
        ensures holds_none { IfOk result (λ made. RepresentsDecls made []) }
    {
        let mut numbers = BTreeMap::new(alloc);
        let none = assign_number(alloc, &mut numbers, &Text::from(alloc, "")?)?;
        let xml = assign_number(
            alloc,
            &mut numbers,
            &Text::from(alloc, "http://www.w3.org/XML/1998/namespace")?,
        )?;
        Ok(Namespaces {
            numbers,
            declared: BTreeMap::new(alloc),
            none,
            xml,
        })
    }

    /// Adds a declaration, nearer than the existing ones.
    fn declare(&mut self, alloc: Global, decl: &Decl) -> Result<(), AllocError>
        ensures holds_one_more { (ds : List Decl) → RepresentsDecls self.old ds
            → OnOk result (RepresentsDecls self.new (ds ++ decl.now ∷ [])) }
    {
        let namespace_number = assign_number(alloc, &mut self.numbers, &decl.uri)?;
        push_number(alloc, &mut self.declared, &decl.prefix, namespace_number)
    }

    /// Removes the nearest declaration of a prefix.
    fn pop_declaration(&mut self, decl: &Decl)
        ensures holds_one_fewer { (ds : List Decl) → RepresentsDecls self.old (ds ++ decl.now ∷ [])
            → RepresentsDecls self.new ds }
    {
        pop_number(&mut self.declared, &decl.prefix);
    }

    /// Adds declarations, nearer than the existing ones, each nearer than those before it. Most
    /// elements have none.
    #[inline(always)]
    pub fn declare_all(&mut self, alloc: Global, decls: &[Decl]) -> Result<(), AllocError>
        ensures holds_every { (ds : List Decl) → RepresentsDecls self.old ds
            → OnOk result (RepresentsDecls self.new (ds ++ decls.now)) }
    {
        if decls.is_empty() {
            return Ok(());
        }
        self.declare_each(alloc, decls)
    }

    /// Adds declarations one by one.
    #[inline(never)]
    fn declare_each(&mut self, alloc: Global, decls: &[Decl]) -> Result<(), AllocError>
        ensures holds_every { (ds : List Decl) → RepresentsDecls self.old ds
            → OnOk result (RepresentsDecls self.new (ds ++ decls.now)) }
    {
        for decl in decls {
            self.declare(alloc, decl)?;
        }
        Ok(())
    }

    /// Removes the nearest declarations. Most elements have none.
    #[inline(always)]
    pub fn undeclare_all(&mut self, decls: &[Decl])
        ensures holds_earlier { (ds : List Decl) → RepresentsDecls self.old (ds ++ decls.now)
            → RepresentsDecls self.new ds }
    {
        if decls.is_empty() {
            return;
        }
        self.undeclare_each(decls);
    }

    /// Removes declarations one by one.
    #[inline(never)]
    fn undeclare_each(&mut self, decls: &[Decl])
        ensures forgets_each { (ds : List Decl) → RepresentsDecls self.old (ds ++ decls.now)
            → RepresentsDecls self.new ds }
    {
        for decl in decls.iter().rev() {
            self.pop_declaration(decl);
        }
    }

    /// The number of the namespace that a prefix is bound to; the empty prefix is the default
    /// namespace.
    pub fn number_of_prefix(&self, prefix: &Prefix) -> Option<usize>
        ensures numbers_prefix { (here : List (List Decl))
            → RepresentsDecls self.now (scope_decls here)
            → option_map Some result
            ≡ option_map (namespace_number self.now) (bound_uri here prefix.now) }
    {
        if prefix.is("xml") {
            return Some(self.xml);
        }
        let namespace_number = *self.declared.get(prefix)?.last()?;
        if namespace_number == self.none {
            return None;
        }
        Some(namespace_number)
    }
}
