//! Keys of entries.
ghost use Rattle.std.specs.Prelude.{◌≡◌, IfOk, string_bytes};
ghost use Rattle.hol_types.specs.Filter.{name_bit};
ghost use Rattle.hol_theory.specs.Key.{KeyValue, kind_rank, kind_prefix, key_eq, key_text};

use hol_types::{Name, NameFilter};
use std::alloc::{AllocError, Global};
use std::hash::{Hash, Hasher};
use std::marker::Model;

/// What a name is a name of: types, constants, theorems and functions on goals have their names apart.
#[derive(Clone, Copy, Debug, PartialEq, Eq)]
pub enum Kind {
    /// A type constructor.
    Type,
    /// A constant.
    Constant,
    /// A theorem.
    Theorem,
    /// A function on goals: an expression that has a name.
    Tac,
}

impl Kind {
    fn rank(self) -> u8
        ensures { result ≡ kind_rank self }
    {
        match self {
            Kind::Type => 0,
            Kind::Constant => 1,
            Kind::Theorem => 2,
            Kind::Tac => 3,
        }
    }

    fn prefix(self) -> &'static str
        ensures { result.now ≡ kind_prefix self }
    {
        match self {
            Kind::Type => "type:",
            Kind::Constant => "const:",
            Kind::Theorem => "thm:",
            Kind::Tac => "tac:",
        }
    }
}

/// A key of entries: a kind and a name. Its copies share the name.
#[derive(Drop)]
pub struct Key {
    kind: Kind,
    name: Name,
}

impl Model for Key {
    ghost use Rattle.hol_theory.specs.Key.{KeyValue};
    ghost use Rattle.hol_theory.specs.Codes.{coded_key};

    ghost Value = { KeyValue };

    ghost coded = { coded_key };

    ghost view = { λ k. record { kind = k.kind; name = k.name } };
}

impl Key {
    /// The key of this kind and name.
    pub fn new(alloc: Global, kind: Kind, name: &str) -> Result<Key, AllocError>
        ensures { IfOk result (λ key. key ≡ record { kind = kind; name = name.now }) }
    {
        let name = Name::new(alloc, name)?;
        Ok(Key { kind, name })
    }

    /// Its kind.
    pub fn kind(&self) -> Kind
        ensures { result ≡ self.now.kind }
    {
        self.kind
    }

    /// Its name.
    pub fn name(&self) -> &str
        ensures { result.now ≡ self.now.name }
    {
        self.name.as_str()
    }

    /// Its name, which copies share.
    pub(crate) fn shared_name(&self) -> &Name
        ensures { result.now ≡ self.now.name }
    {
        &self.name
    }

    /// The key as clients see it: `type:N`, `const:N`, `thm:N` or `tac:N`.
    pub fn text(&self, alloc: Global) -> Result<String, AllocError>
        ensures { IfOk result (λ text. string_bytes text ≡ key_text self.now) }
    {
        let mut text = String::from_str(alloc, self.kind.prefix())?;
        text.push_str(self.name.as_str())?;
        Ok(text)
    }

    /// A filter that has its name.
    pub fn filter(&self) -> NameFilter
        ensures { result.bits ≡ name_bit self.now.name }
    {
        NameFilter::of_name(&self.name)
    }

    /// The same key, sharing its name.
    /// An error says that no count is left for one more copy.
    pub fn copy(&self) -> Result<Key, AllocError>
        ensures { IfOk result (λ key. key ≡ self.now) }
    {
        Ok(Key {
            kind: self.kind,
            name: self.name.copy()?,
        })
    }
}

impl PartialEq for Key {
    ghost use Rattle.std.proofs.Common.{rules};
    ghost use Rattle.std.specs.Cmp.Rules.{comparing};
    ghost use Rattle.hol_theory.specs.Key.{key_eq};

    ghost eq = { λ a b. key_eq a b };

    ghost laws = { Prim.search (comparing, rules) };

    fn eq(&self, other: &Key) -> bool {
        self.kind.rank() == other.kind.rank() && self.name.as_str() == other.name.as_str()
    }
}

impl Eq for Key {
    ghost use Rattle.std.proofs.Common.{rules};
    ghost use Rattle.std.specs.Cmp.Rules.{comparing};

    ghost laws = { Prim.search (comparing, rules) };
}

impl Hash for Key {
    ghost use Rattle.std.proofs.Common.{rules};
    ghost use Rattle.std.specs.Cmp.Rules.{hashing};
    ghost use Rattle.std.specs.Hash as fed;

    ghost hash_input = { λ k. fed.str k.name };

    ghost respects_eq = { Prim.search (hashing, rules) };

    fn hash<H: Hasher>(&self, state: &mut H) {
        self.name.as_str().hash(state);
    }
}
