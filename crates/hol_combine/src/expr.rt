//! Expressions of functions on goals, whose names are resolved.
ghost use Rattle.std.specs.Prelude.{◌≡◌, IfOk, min};
ghost use Rattle.hol_combine.specs.ExprSize.{expr_size};
ghost use Rattle.hol_combine.specs.Chains.{IsWhole};
ghost use Rattle.hol_combine.specs.ExprValue.{Defined};
ghost use Rattle.hol_combine.specs.ExprView.{expr_of_node};

use crate::formula::Formula;
use crate::sizes::node_size;
use hol_goal::TacArgs;
use hol_terms::Term;
use std::alloc::{AllocError, Global};
use std::marker::Model;
use std::rc::Rc;

/// A call of a registered function on goals.
#[derive(Drop)]
pub struct TacCall {
    /// The function's index in the registry.
    pub index: usize,
    /// The name that it is called by. A refusal says this name.
    pub name: String,
    /// The arguments.
    pub args: TacArgs,
}

/// A registered function on goals whose last argument, a theorem, is left out.
#[derive(Drop)]
pub struct TheoremTac {
    /// The function's index in the registry.
    pub index: usize,
    /// The name that it is called by. A refusal says this name.
    pub name: String,
    /// The term that is written before the theorem, where there is one.
    pub term: Option<Term>,
}

/// Where the theorem that is handed to such a function comes from.
#[derive(Drop)]
pub enum Handing {
    /// `DISCH_THEN t`: what an implication, or a negation, is from.
    DischThen,
    /// `POP_ASSUM t`: the newest assumption, which is taken out.
    PopAssum,
    /// `FIRST_ASSUM t`: the newest assumption with which it isn't refused.
    FirstAssum,
    /// `SUBGOAL_THEN p t`: the formula, which becomes a goal of its own.
    SubgoalThen(Formula),
}

/// An expression of functions on goals: a call, or a tactical of HOL Light applied to what it takes. It keeps its size. Copies share their nodes.
#[cycle(expr)]
pub struct Expr {
    node: Rc<ExprNode>,
    size: u32,
}

/// The top node of an expression. Chains are lists, so that no expression is nested deeper than its brackets and lists are.
#[cycle(expr)]
#[derive(Drop)]
pub enum ExprNode {
    /// A function on goals with its arguments.
    Call(TacCall),
    /// `t THEN u THEN ..`, from the left.
    Then(Expr, Expr, Vec<Expr>),
    /// `t THENL [u; ..]`
    ThenL(Expr, Vec<Expr>),
    /// `t ORELSE u ORELSE ..`
    OrElse(Expr, Expr, Vec<Expr>),
    /// `TRY t`
    Try(Expr),
    /// `REPEAT t`
    Repeat(Expr),
    /// `EVERY [t; ..]`
    Every(Vec<Expr>),
    /// `FIRST [t; ..]`
    First(Vec<Expr>),
    /// `REPLICATE_TAC n t`
    Replicate(usize, Expr),
    /// `CHANGED_TAC t`
    Changed(Expr),
    /// A theorem is handed to a function.
    Hand(Handing, TheoremTac),
    /// A use of an expression that has a name, and so many more, each of what was named by the next.
    Defined(usize, Expr),
}

impl Model for Expr {
    ghost use Rattle.hol_combine.specs.ExprValue.{ExprValue, expr_nodes};
    ghost use Rattle.hol_combine.specs.Code.{coded_expr};

    ghost Value = { ExprValue };

    ghost coded = { coded_expr };

    ghost use Rattle.hol_combine.specs.ExprView.{expr_of_node};

    ghost view = { λ e. expr_of_node e.node.value };

    ghost use Rattle.std.specs.Prelude.{◌≡◌, min};
    ghost use Rattle.hol_combine.specs.ExprSize.{expr_size};
    ghost use Rattle.hol_combine.specs.Chains.{IsWhole};

    ghost invariant = { λ e. (e.size ≡ min (expr_size (expr_of_node e.node.value)) 20001) × IsWhole e.node.value };

    ghost size = { expr_nodes };

    ghost use Rattle.hol_combine.specs.Falls.{deep_le_nodes};

    ghost size_decreases = { λ e h. deep_le_nodes e.node.value };
}

// A loop over what has one part, so that what stands under many TRY, or uses of what uses others, takes no stack.
impl Drop for Expr {
    #[cycle(expr)]
    fn drop(mut self) {
        loop {
            let Expr { node, size: _ } = self;
            match Rc::into_inner(node) {
                Some(ExprNode::Try(part)) => self = part,
                Some(ExprNode::Repeat(part)) => self = part,
                Some(ExprNode::Changed(part)) => self = part,
                Some(ExprNode::Replicate(_, part)) => self = part,
                Some(ExprNode::Defined(_, part)) => self = part,
                Some(ExprNode::Call(_)) => return,
                Some(ExprNode::Then(_, _, _)) => return,
                Some(ExprNode::ThenL(_, _)) => return,
                Some(ExprNode::OrElse(_, _, _)) => return,
                Some(ExprNode::Every(_)) => return,
                Some(ExprNode::First(_)) => return,
                Some(ExprNode::Hand(_, _)) => return,
                None => return,
            }
        }
    }
}

impl Expr {
    /// The expression with this top node. A chain is one node: its first part is no THEN under THEN, its last no ORELSE under ORELSE, and what
    /// is used is no use.
    pub fn new(alloc: Global, node: ExprNode) -> Result<Expr, AllocError>
        requires { IsWhole node }
        ensures { IfOk result (λ expr. expr ≡ expr_of_node node) }
    {
        let size = node_size(&node);
        Ok(Expr {
            node: Rc::new(alloc, node)?,
            size,
        })
    }

    /// A use of the expression by a name that it was given. It has one node, whatever the expression's size, and a use of a use is counted.
    /// An error says also that no count is left for one more.
    pub fn defined(&self, alloc: Global) -> Result<Expr, AllocError>
        ensures { IfOk result (λ expr. expr ≡ Defined self.now) }
    {
        if let ExprNode::Defined(more, part) = self.node() {
            let more = more.checked_add(1).ok_or(AllocError)?;
            return Expr::new(alloc, ExprNode::Defined(more, part.copy()?));
        }
        Expr::new(alloc, ExprNode::Defined(0, self.copy()?))
    }

    /// The top node, with its parts by reference.
    pub fn node(&self) -> &ExprNode
        ensures value { expr_of_node result.now ≡ self.now }
        ensures whole { IsWhole result.now }
    {
        self.node.as_ref()
    }

    /// The size, or 20,001 for more. Takes no memory: each expression keeps it.
    pub fn size(&self) -> u32
        ensures { result ≡ min (expr_size self.now) 20001 }
    {
        self.size
    }

    /// The same expression, sharing its nodes.
    pub fn copy(&self) -> Result<Expr, AllocError>
        ensures { IfOk result (λ expr. expr ≡ self.now) }
    {
        Ok(Expr {
            node: self.node.clone()?,
            size: self.size,
        })
    }
}
