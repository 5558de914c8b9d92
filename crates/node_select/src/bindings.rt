//! Bindings of prefixes, from the query of an address or the scope of a patch operation.
ghost use Rattle.std.specs.Prelude.{◌≡◌, ◌++◌, ◌∷◌, [], OnOk, OnErr, chars, option_map};
ghost use Rattle.node_select.specs.Names.{prefix_uri};

use std::alloc::{AllocError, Global};
use std::marker::Model;
use xml_names::{Decl, IndexedDecls, Prefix, Text, index_decls, is_xmlns_prefix};
use xml_tree::Scope;

/// Prefixes with their URIs, as declarations: the last one of a prefix counts, and an empty URI
/// binds nothing. `xml` is always bound to its own namespace, and `xmlns` never.
#[derive(Drop)]
pub struct Bindings {
    alloc: Global,
    decls: Vec<Decl>,
}

impl Model for Bindings {
    ghost use Rattle.std.specs.Prelude.{List};
    ghost use Rattle.xml_names.specs.declared.names.Decl.{Decl};
    ghost use Rattle.xml_names.specs.inner.ValueCodes.{decls_code};

    ghost Value = { List Decl };

    ghost coded = { decls_code };

    ghost view = { λ b. b.decls.items };
}

impl Bindings {
    /// No bindings. Does not allocate; bindings that are added later are allocated from `alloc`.
    pub fn none(alloc: Global) -> Bindings
        ensures binds_nothing { result ≡ [] }
    {
        Bindings {
            alloc,
            decls: Vec::new(alloc),
        }
    }

    /// Binds a prefix, after the existing bindings.
    ///
    /// # Errors
    /// `AllocError` when out of memory; the bindings are then unchanged.
    pub fn bind(&mut self, prefix: &str, uri: &str) -> Result<(), AllocError>
        ensures appended { OnOk result
            (self.new ≡ self.old
            ++ record { prefix = chars prefix.now; uri = chars uri.now } ∷ []) }
        ensures err_unchanged { OnErr result (self.new ≡ self.old) }
    {
        let prefix = Prefix::from(self.alloc, prefix)?;
        let uri = Text::from(self.alloc, uri)?;
        self.decls.push(Decl { prefix, uri })?;
        Ok(())
    }

    // The bindings as declarations of one element, with an index if they are many and there is
    // memory for one.
    pub(crate) fn indexed_decls(&self) -> IndexedDecls<'_>
        ensures declares_bindings { result ≡ self.now }
    {
        index_decls(self.alloc, &self.decls)
    }

    /// The URI that a prefix is bound to. Does not allocate.
    pub fn resolve(&self, prefix: &str) -> Option<&str>
        ensures exact { option_map (λ uri. chars uri.now) result
            ≡ prefix_uri self.now (chars prefix.now) }
    {
        if is_xmlns_prefix(prefix) {
            return None;
        }
        Scope::empty().with(&self.decls).resolve(prefix)
    }
}
