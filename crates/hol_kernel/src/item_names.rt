//! The names of items, and items compared by them.
ghost use Rattle.std.specs.Prelude.{◌≡◌, ◌↔◌, true, false, IsTrue, MatchOption, Some, None};
ghost use Rattle.hol_kernel.specs.Signature.{has_key, item_keys};
ghost use Rattle.hol_kernel.specs.Clashing.{key_at, rank_of, name_of, name_order, shared_in};
ghost use Rattle.hol_kernel.specs.Places.{is_type_definition, place_order};

use crate::item::{Item, ItemNode};
use crate::item_kind::ItemKind;
use hol_types::Name;
use std::cmp::Ordering;

impl Item {
    /// Whether the item has the name, as one of this kind.
    pub fn has_name(&self, kind: ItemKind, name: &Name) -> bool
        ensures { result ≡ has_key self.now (key_at kind name.now) }
    {
        match self.node() {
            ItemNode::DeclaredType(own, _) => match kind {
                ItemKind::Type => name.same(own),
                ItemKind::Constant => false,
                ItemKind::Axiom => false,
            },
            ItemNode::DeclaredConstant(own, _) => match kind {
                ItemKind::Type => false,
                ItemKind::Constant => name.same(own),
                ItemKind::Axiom => false,
            },
            ItemNode::DefinedConstant(own, _) => match kind {
                ItemKind::Type => false,
                ItemKind::Constant => name.same(own),
                ItemKind::Axiom => false,
            },
            ItemNode::DefinedType {
                name: own,
                abs,
                rep,
                ..
            } => match kind {
                ItemKind::Type => name.same(own),
                ItemKind::Constant => name.same(abs) || name.same(rep),
                ItemKind::Axiom => false,
            },
            ItemNode::Axiom(own, _) => match kind {
                ItemKind::Type => false,
                ItemKind::Constant => false,
                ItemKind::Axiom => name.same(own),
            },
        }
    }

    /// A name that both items have, of one kind.
    pub fn shared_name(&self, other: &Item) -> Option<&Name>
        ensures { MatchOption result (shared_in (item_keys self.now) other.now ≡ None) (λ name. shared_in (item_keys self.now) other.now ≡ Some name.now) }
    {
        match self.node() {
            ItemNode::DeclaredType(name, _) => name_in(other, ItemKind::Type, name),
            ItemNode::DeclaredConstant(name, _) => name_in(other, ItemKind::Constant, name),
            ItemNode::DefinedConstant(name, _) => name_in(other, ItemKind::Constant, name),
            ItemNode::DefinedType { name, abs, rep, .. } => {
                if other.has_name(ItemKind::Type, name) {
                    return Some(name);
                }
                if other.has_name(ItemKind::Constant, abs) {
                    return Some(abs);
                }
                name_in(other, ItemKind::Constant, rep)
            }
            ItemNode::Axiom(name, _) => name_in(other, ItemKind::Axiom, name),
        }
    }

    /// Whether the items are the same.
    pub fn same(&self, other: &Item) -> bool
        ensures { IsTrue result ↔ (self.now ≡ other.now) }
    {
        match self.node() {
            ItemNode::DeclaredType(c, m) => {
                let ItemNode::DeclaredType(d, n) = other.node() else {
                    return false;
                };
                c.same(d) && *m == *n
            }
            ItemNode::DeclaredConstant(c, a) => {
                let ItemNode::DeclaredConstant(d, b) = other.node() else {
                    return false;
                };
                c.same(d) && a.same(b)
            }
            ItemNode::DefinedConstant(c, s) => {
                let ItemNode::DefinedConstant(d, t) = other.node() else {
                    return false;
                };
                c.same(d) && s.same(t)
            }
            ItemNode::DefinedType {
                name: c,
                abs: to,
                rep: from,
                predicate: p,
                ..
            } => {
                let ItemNode::DefinedType {
                    name,
                    abs,
                    rep,
                    predicate,
                    ..
                } = other.node()
                else {
                    return false;
                };
                c.same(name) && to.same(abs) && from.same(rep) && p.same(predicate)
            }
            ItemNode::Axiom(m, p) => {
                let ItemNode::Axiom(n, q) = other.node() else {
                    return false;
                };
                m.same(n) && p.same(q)
            }
        }
    }

    /// The order of items by kind, then by name.
    pub(crate) fn name_order(&self, other: &Item) -> Ordering
        ensures { result ≡ name_order self.now other.now }
    {
        match self.rank().cmp(&other.rank()) {
            Ordering::Equal => self.name().order(other.name()),
            unequal => unequal,
        }
    }

    /// Where the item stands beside one of this rank and name.
    pub(crate) fn place_order(&self, rank: u8, name: &Name) -> Ordering
        ensures { result ≡ place_order rank name.now self.now }
    {
        match self.rank().cmp(&rank) {
            Ordering::Equal => self.name().order(name),
            unequal => unequal,
        }
    }

    /// Whether the item is a type definition.
    pub(crate) fn is_type_definition(&self) -> bool
        ensures { result ≡ is_type_definition self.now }
    {
        match self.node() {
            ItemNode::DefinedType { .. } => true,
            ItemNode::DeclaredType(..) => false,
            ItemNode::DeclaredConstant(..) => false,
            ItemNode::DefinedConstant(..) => false,
            ItemNode::Axiom(..) => false,
        }
    }

    // The place of the item's kind in the order of items.
    fn rank(&self) -> u8
        ensures { result ≡ rank_of self.now }
    {
        match self.node() {
            ItemNode::Axiom(..) => 0,
            ItemNode::DeclaredConstant(..) => 1,
            ItemNode::DefinedConstant(..) => 2,
            ItemNode::DeclaredType(..) => 3,
            ItemNode::DefinedType { .. } => 4,
        }
    }

    /// The name of what the item declares or defines: of a type definition, the type's.
    pub fn name(&self) -> &Name
        ensures { result.now ≡ name_of self.now }
    {
        match self.node() {
            ItemNode::Axiom(name, _) => name,
            ItemNode::DeclaredConstant(name, _) => name,
            ItemNode::DefinedConstant(name, _) => name,
            ItemNode::DeclaredType(name, _) => name,
            ItemNode::DefinedType { name, .. } => name,
        }
    }
}

// The name, where the item has it as one of this kind.
fn name_in<'a>(item: &Item, kind: ItemKind, name: &'a Name) -> Option<&'a Name>
    ensures { MatchOption result (has_key item.now (key_at kind name.now) ≡ false) (λ own. (own.now ≡ name.now) × (has_key item.now (key_at kind name.now) ≡ true)) }
{
    if item.has_name(kind, name) {
        return Some(name);
    }
    None
}
