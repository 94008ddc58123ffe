//! What stands under keys.
ghost use Rattle.std.specs.Prelude.{◌≡◌, IsTrue, IfOk};
ghost use Rattle.hol_theory.specs.Entry.{AType, AConstant, ATheorem, ATac};
ghost use Rattle.hol_theory.specs.EntryView.{entry_of_node};

use hol_combine::Expr;
use hol_kernel::{Basis, Item, Thm};
use hol_mark::Mark;
use hol_types::Ty;
use std::alloc::{AllocError, Global};
use std::marker::Model;
use std::rc::Rc;

/// What stands under a key: a type constructor, a constant, a theorem or a function on goals. Its copies share it.
#[derive(Drop)]
pub struct Value {
    shared: Rc<ValueShared>,
}

// What the copies of a value share: what it is, and the mark by which two copies are known to be of one value.
#[derive(Drop)]
struct ValueShared {
    node: ValueNode,
    mark: Mark,
}

/// The kinds of what stands.
#[derive(Drop)]
pub enum ValueNode {
    /// A type constructor.
    Type {
        /// The number of its arguments.
        arity: usize,
        /// The item that makes it.
        item: Item,
        /// What the item rests on, with the item.
        basis: Basis,
    },
    /// A constant.
    Constant {
        /// Its generic type.
        ty: Ty,
        /// The item that makes it.
        item: Item,
        /// What the item rests on, with the item.
        basis: Basis,
    },
    /// A theorem.
    Theorem(Thm),
    /// A function on goals: an expression that has a name.
    Tac {
        /// The expression.
        expr: Expr,
        /// What each theorem that is written in it rests on by itself, in text order.
        bases: Vec<Basis>,
        /// What all that is written in it rests on.
        basis: Basis,
    },
}

impl Model for Value {
    ghost use Rattle.hol_theory.specs.Entry.{EntryValue};
    ghost use Rattle.hol_theory.specs.EntryView.{entry_of_node};
    ghost use Rattle.std.specs.Prelude.{◌≡◌};
    ghost use Rattle.hol_theory.specs.Codes.{coded_entry, entry_code};

    ghost Value = { EntryValue };

    ghost coded = { coded_entry };

    ghost view = { λ v. entry_of_node v.shared.value.node };

    ghost invariant = { λ v. v.shared.value.mark ≡ entry_code (entry_of_node v.shared.value.node) };
}

impl Value {
    // The value that this is.
    fn made(alloc: Global, node: ValueNode) -> Result<Value, AllocError>
        ensures { IfOk result (λ v. v ≡ entry_of_node node) }
    {
        let mark = Mark::about(&node);
        Ok(Value {
            shared: Rc::new(alloc, ValueShared { node, mark })?,
        })
    }

    /// A type constructor that the item makes, over a basis.
    pub fn type_constructor(
        alloc: Global,
        arity: usize,
        item: Item,
        basis: Basis,
    ) -> Result<Value, AllocError>
        ensures { IfOk result (λ v. v ≡ AType arity item basis) }
    {
        Value::made(alloc, ValueNode::Type { arity, item, basis })
    }

    /// A constant of this generic type that the item makes, over a basis.
    pub fn constant(alloc: Global, ty: Ty, item: Item, basis: Basis) -> Result<Value, AllocError>
        ensures { IfOk result (λ v. v ≡ AConstant ty item basis) }
    {
        Value::made(alloc, ValueNode::Constant { ty, item, basis })
    }

    /// A theorem.
    pub fn theorem(alloc: Global, theorem: Thm) -> Result<Value, AllocError>
        ensures { IfOk result (λ v. v ≡ ATheorem theorem) }
    {
        Value::made(alloc, ValueNode::Theorem(theorem))
    }

    /// An expression that has a name, with what each theorem that is written in it rests on by itself, in text order, and what all of it rests on.
    pub fn tac(
        alloc: Global,
        expr: Expr,
        bases: Vec<Basis>,
        basis: Basis,
    ) -> Result<Value, AllocError>
        ensures { IfOk result (λ v. v ≡ ATac expr bases.items basis) }
    {
        Value::made(alloc, ValueNode::Tac { expr, bases, basis })
    }

    /// What it is.
    pub fn node(&self) -> &ValueNode
        ensures { entry_of_node result.now ≡ self.now }
    {
        &self.shared.node
    }

    /// Whether both have one node. Where they don't, they may still be the same.
    pub(crate) fn same_node(&self, other: &Value) -> bool
        ensures { IsTrue result → self.now ≡ other.now }
    {
        self.shared.mark.same(&other.shared.mark)
    }

    /// The same value.
    /// An error says that no count is left for one more copy.
    pub fn copy(&self) -> Result<Value, AllocError>
        ensures { IfOk result (λ v. v ≡ self.now) }
    {
        Ok(Value {
            shared: self.shared.clone()?,
        })
    }
}
