//! Types, which contracts see as finite trees.
ghost use Rattle.std.specs.Prelude.{◌≡◌, ℕ, Some, None, OnOk, map, if◌then◌else◌, List, ◌++◌, [], ◌∷◌, min, IfOk, IfSome, IsNone, MatchOption, IsTrue, ◌↔◌, is_some};
ghost use Rattle.hol_types.specs.Tree.{TypeTree, TyVar, TyApp, type_list, type_size};
ghost use Rattle.hol_types.specs.Subst.{type_for, type_subst};
ghost use Rattle.hol_types.specs.Names.{type_names, insert_names, tyvars, IsAscending, is_among};
ghost use Rattle.hol_types.specs.Match.{match_type, pairs_for, IsMatchOf, HasNoMatch};
ghost use Rattle.hol_types.specs.Order.{type_cmp};
ghost use Rattle.hol_types.specs.Equal.{type_eq};
ghost use Rattle.hol_types.specs.Fun.{fun_type, fun_parts};
ghost use Rattle.hol_types.specs.View.{tree_of};
ghost use Rattle.hol_types.specs.Filter.{type_filter, pairs_filter};
ghost use Rattle.hol_types.specs.Basic.{is_basic, is_bool};

use crate::constructor::is_basic_constructor;
use crate::filter::NameFilter;
use crate::known::KnownName;
use crate::lists::{insert_name, type_in};
use crate::name::Name;
use hol_mark::Mark;
use std::alloc::{AllocError, Global};
use std::cmp::Ordering;
use std::marker::Model;
use std::rc::Rc;

/// A type: a variable, or a constructor with its arguments. Copies share their nodes.
#[cycle(ty)]
#[derive(Drop)]
pub struct Ty {
    shared: Rc<TyShared>,
}

// What the copies of a type share: its top node, a filter of its variables, its size, the mark by which two copies are known to be of one
// type, and whether all its constructors are the prelude's, whether it is a type of functions, and whether it is `bool`.
#[cycle(ty)]
#[derive(Drop)]
struct TyShared {
    node: TyNode,
    filter: NameFilter,
    // From here on 8 bytes: the small ones side by side.
    size: u32,
    mark: Mark,
    basic: bool,
    function: bool,
    truth: bool,
}

/// The top node of a type.
#[cycle(ty)]
#[derive(Drop)]
pub enum TyNode {
    /// A type variable.
    Var(Name),
    /// A constructor and its arguments, in order.
    App(Name, Vec<Ty>),
}

impl Model for Ty {
    ghost use Rattle.std.specs.Prelude.{◌≡◌, min, is_some};
    ghost use Rattle.hol_types.specs.Tree.{TypeTree, type_size};
    ghost use Rattle.hol_types.specs.Filter.{type_filter};
    ghost use Rattle.hol_types.specs.Basic.{is_basic, is_bool};
    ghost use Rattle.hol_types.specs.Fun.{fun_parts};
    ghost use Rattle.hol_types.specs.Code.{coded_type, type_code};

    ghost Value = { TypeTree };

    ghost coded = { coded_type };

    ghost use Rattle.hol_types.specs.View.{tree_of};

    ghost view = { λ a. tree_of a.shared.value.node };

    ghost invariant = { λ a. (a.shared.value.mark ≡ type_code (tree_of a.shared.value.node)) × (a.shared.value.size ≡ min (type_size (tree_of a.shared.value.node)) 20001) × (a.shared.value.filter.bits ≡ type_filter (tree_of a.shared.value.node)) × (a.shared.value.basic ≡ is_basic (tree_of a.shared.value.node)) × (a.shared.value.function ≡ is_some (fun_parts (tree_of a.shared.value.node))) × (a.shared.value.truth ≡ is_bool (tree_of a.shared.value.node)) };

    ghost size = { type_size };

    ghost use Rattle.hol_types.specs.Falls.{deep_le_size};

    ghost size_decreases = { λ a h. deep_le_size a.shared.value };
}

impl Ty {
    /// The type variable of this name.
    pub fn var(alloc: Global, name: &Name) -> Result<Ty, AllocError>
        ensures { IfOk result (λ ty. ty ≡ TyVar name.now) }
    {
        Ty::from_node(alloc, TyNode::Var(name.copy()?))
    }

    /// The constructor of this name applied to the arguments, in their order.
    pub fn app(alloc: Global, name: &Name, args: &[Ty]) -> Result<Ty, AllocError>
        ensures { IfOk result (λ ty. ty ≡ TyApp name.now (type_list args.now)) }
    {
        let mut own_args = Vec::with_capacity(alloc, args.len())?;
        for arg in args {
            own_args.push(arg.copy()?)?;
        }
        Ty::from_node(alloc, TyNode::App(name.copy()?, own_args))
    }

    // The type of this top node.
    fn from_node(alloc: Global, node: TyNode) -> Result<Ty, AllocError>
        ensures { IfOk result (λ ty. ty ≡ tree_of node) }
    {
        let mark = Mark::about(&node);
        let size = node.size();
        let filter = node.filter();
        let basic = node.is_basic();
        let function = node.is_function();
        let truth = node.is_bool();
        let shared = TyShared {
            node,
            filter,
            size,
            mark,
            basic,
            function,
            truth,
        };
        match Rc::new(alloc, shared) {
            Ok(shared) => Ok(Ty { shared }),
            Err(_) => Err(AllocError),
        }
    }

    /// The same type, sharing its nodes.
    /// An error says that no count is left for one more copy.
    pub fn copy(&self) -> Result<Ty, AllocError>
        ensures { IfOk result (λ ty. ty ≡ self.now) }
    {
        Ok(Ty {
            shared: self.shared.clone()?,
        })
    }

    /// The top node, with its parts by reference.
    pub fn node(&self) -> &TyNode
        ensures { tree_of result.now ≡ self.now }
    {
        &self.shared.node
    }

    /// The type of functions from `domain` to `range`: the constructor `fun` of these two.
    pub fn fun(alloc: Global, domain: &Ty, range: &Ty) -> Result<Ty, AllocError>
        ensures { IfOk result (λ ty. ty ≡ fun_type domain.now range.now) }
    {
        let name = Name::known(KnownName::FunType);
        let mut args = Vec::with_capacity(alloc, 2)?;
        args.push(domain.copy()?)?;
        args.push(range.copy()?)?;
        Ty::from_node(alloc, TyNode::App(name, args))
    }

    /// The domain and the range of a function type, and `None` for a type of another form.
    ///
    /// Takes no memory. Each type keeps whether it is one.
    #[tactic(auto, using(crate::proofs::Steps::function_parts, crate::proofs::Steps::no_function, crate::proofs::Steps::below_two_parts, crate::proofs::Steps::above_two_parts))]
    pub fn dest_fun(&self) -> Option<(&Ty, &Ty)>
        ensures { MatchOption result (fun_parts self.now ≡ None) (λ parts. fun_parts self.now ≡ Some (parts.0.now, parts.1.now)) }
    {
        if !self.shared.function {
            return None;
        }
        match &self.shared.node {
            TyNode::Var(_) => None,
            TyNode::App(_, args) => match args.as_slice() {
                [domain, range] => Some((domain, range)),
                _ => None,
            },
        }
    }

    /// Whether it is the type of truth values, `bool`. Each type keeps it, so this is at once.
    pub fn is_bool(&self) -> bool
        ensures { result ≡ is_bool self.now }
    {
        self.shared.truth
    }

    /// The size: the number of nodes, or 20,001 where there are more.
    ///
    /// Takes no memory. Each type keeps it, so this is at once.
    pub fn size(&self) -> u32
        ensures { result ≡ min (type_size self.now) 20001 }
    {
        self.shared.size
    }

    /// Whether the type variable may occur: where it does, the answer is `true`. So `false` says that it doesn't, and spares a walk.
    ///
    /// Takes no memory and no more time for a larger type: each type keeps 64 bits, of which each variable's name has one.
    #[tactic(auto, using(crate::proofs::Filters::occurs_filter))]
    pub fn may_have_var(&self, name: &Name) -> bool
        ensures { IsTrue (is_among (type_names self.now) name.now) → IsTrue result }
    {
        self.shared.filter.meets(NameFilter::of_name(name))
    }

    /// A set that has the names of its variables, and may have others. Each type keeps it, so this is at once.
    pub fn filter(&self) -> NameFilter
        ensures { result.bits ≡ type_filter self.now }
    {
        self.shared.filter
    }

    /// Whether all constructors of the type are the prelude's, with as many arguments as they take: so it is a type over every basis. Each
    /// type keeps it, so this is at once.
    pub fn is_basic(&self) -> bool
        ensures { result ≡ is_basic self.now }
    {
        self.shared.basic
    }

    /// The type in which each variable's place is taken by the type of the first pair with its name. A variable with no pair stays.
    ///
    /// A part in which `may_have_var` excludes each pair's name is kept, with its nodes. The others are walked, and a node that
    /// stands at many places is walked and made anew at each: so the nodes of this type, as `size` counts them, bound the walk. The
    /// pairs' types are shared, however large.
    #[tactic(auto, using(crate::proofs::Filters::kept_closed))]
    pub fn subst(&self, alloc: Global, pairs: &[(Ty, Name)]) -> Result<Ty, AllocError>
        ensures { IfOk result (λ ty. ty ≡ type_subst pairs.now self.now) }
    {
        if self.shared.filter.is_empty() {
            return self.copy();
        }
        self.replaced(alloc, pairs, NameFilter::of_pairs(pairs))
    }

    // The recursion of `subst`, where `names` are those of the pairs.
    #[tactic(auto, using(crate::proofs::Steps::subst_list, crate::proofs::Filters::kept_type))]
    fn replaced(
        &self,
        alloc: Global,
        pairs: &[(Ty, Name)],
        names: NameFilter,
    ) -> Result<Ty, AllocError>
        requires { names.bits ≡ pairs_filter pairs.now }
        ensures { IfOk result (λ ty. ty ≡ type_subst pairs.now self.now) }
    {
        if !self.shared.filter.meets(names) {
            return self.copy();
        }
        match &self.shared.node {
            TyNode::Var(name) => match type_in(pairs, name) {
                Some(ty) => ty.copy(),
                None => self.copy(),
            },
            TyNode::App(name, args) => {
                let mut new_args = Vec::with_capacity(alloc, args.len())?;
                for arg in args {
                    new_args.push(arg.replaced(alloc, pairs, names)?)?;
                }
                Ty::from_node(alloc, TyNode::App(name.copy()?, new_args))
            }
        }
    }

    /// Whether the two have one top node. Where they don't, they may still be equal.
    ///
    /// Takes no memory, and no more time for a larger type.
    pub fn same_node(&self, other: &Ty) -> bool
        ensures { IsTrue result → self.now ≡ other.now }
    {
        self.shared.mark.same(&other.shared.mark)
    }

    /// Whether the two types are equal.
    ///
    /// Takes no memory. Types of one top node are found equal at once, and those of different sizes, or that keep different bits of their
    /// variables, are told apart at once. Else both are walked up to the first difference, but for parts where both have one node.
    #[tactic(auto, using(crate::proofs::OrderLaws::type_cmp_decides, crate::proofs::OrderLaws::sizes_differ, crate::proofs::Filters::filters_differ))]
    pub fn same(&self, other: &Ty) -> bool
        ensures test { result ≡ type_eq self.now other.now }
        ensures equal { IsTrue result ↔ (self.now ≡ other.now) }
    {
        self.same_node(other)
            || (self.size() == other.size()
                && self.filter().same(other.filter())
                && self.order(other).is_eq())
    }

    /// The order of types: variables before applications, then by the bytes of the name, then by the arguments from the left.
    ///
    /// It is total (`laws::order_is_total`). Takes no memory. Both are walked up to the first difference, but for parts where both have
    /// one node or are `bool`.
    #[tactic(auto, using(crate::proofs::Steps::ends_less, crate::proofs::OrderLaws::type_cmp_same, crate::proofs::OrderLaws::truths_same))]
    pub fn order(&self, other: &Ty) -> Ordering
        ensures { result ≡ type_cmp self.now other.now }
    {
        if self.same_node(other) {
            return Ordering::Equal;
        }
        if self.is_bool() && other.is_bool() {
            return Ordering::Equal;
        }
        match (&self.shared.node, &other.shared.node) {
            (TyNode::Var(a), TyNode::Var(b)) => a.order(b),
            (TyNode::Var(_), TyNode::App(_, _)) => Ordering::Less,
            (TyNode::App(_, _), TyNode::Var(_)) => Ordering::Greater,
            (TyNode::App(c, ts), TyNode::App(d, us)) => match c.order(d) {
                Ordering::Equal => {
                    for (i, t) in ts.iter().enumerate() {
                        let Some(u) = us.get(i) else {
                            return Ordering::Greater;
                        };
                        match t.order(u) {
                            Ordering::Equal => {}
                            unequal => return unequal,
                        }
                    }
                    if ts.len() < us.len() {
                        Ordering::Less
                    } else {
                        Ordering::Equal
                    }
                }
                unequal => unequal,
            },
        }
    }

    /// The names of the type variables, each once, in order of bytes.
    ///
    /// Parts without variables are passed over. The others are walked at each place where they stand.
    #[tactic(auto, using(crate::proofs::Names::collected))]
    pub fn tyvars(&self, alloc: Global) -> Result<Vec<Name>, AllocError>
        ensures list { IfOk result (λ names. names.items ≡ tyvars self.now) }
        ensures ascending { IfOk result (λ names. IsAscending names.items) }
        ensures occurring { IfOk result (λ names. (a : List ℕ) → is_among names.items a ≡ is_among (type_names self.now) a) }
    {
        let mut names = Vec::new(alloc);
        self.add_names(&mut names)?;
        Ok(names)
    }

    // Puts the names of the variables in their places.
    #[tactic(auto, using(crate::proofs::Names::add_step, crate::proofs::Filters::no_names))]
    fn add_names(&self, names: &mut Vec<Name>) -> Result<(), AllocError>
        ensures { OnOk result (names.new.items ≡ insert_names names.old.items (type_names self.now)) }
    {
        if self.shared.filter.is_empty() {
            return Ok(());
        }
        match &self.shared.node {
            TyNode::Var(name) => insert_name(names, name),
            TyNode::App(_, args) => {
                for arg in args {
                    arg.add_names(names)?;
                }
                Ok(())
            }
        }
    }

    /// The pairs whose substitution gives the target, one for each name of `tyvars` in its order, and `None` exactly where no pairs
    /// give it.
    ///
    /// Parts without variables are compared as `same` does. The others are walked at each place where they stand.
    #[tactic(auto, using(crate::proofs::MatchLaws::matching))]
    pub fn match_to(
        &self,
        alloc: Global,
        target: &Ty,
    ) -> Result<Option<Vec<(Ty, Name)>>, AllocError>
        ensures some { IfOk result (λ found. IfSome found (λ pairs. IsMatchOf self.now target.now pairs.items)) }
        ensures none { IfOk result (λ found. IsNone found → HasNoMatch self.now target.now) }
    {
        let mut found = Vec::new(alloc);
        if !self.match_into(target, &mut found)? {
            return Ok(None);
        }
        let names = self.tyvars(alloc)?;
        let pairs = pairs_for(alloc, &found, &names)?;
        Ok(Some(pairs))
    }

    /// Whether some pairs give the target: what [`Ty::match_to`] finds, without its pairs.
    ///
    /// Parts without variables are compared as `same` does. The others are walked at each place where they stand.
    #[tactic(auto, using(crate::proofs::Steps::match_test))]
    pub fn matches(&self, alloc: Global, target: &Ty) -> Result<bool, AllocError>
        ensures { IfOk result (λ matched. matched ≡ is_some (match_type self.now [] target.now)) }
    {
        let mut found = Vec::new(alloc);
        self.match_into(target, &mut found)
    }

    // Whether the pattern matches the target beside the pairs found so far. Those that it needs more are put at their end.
    #[tactic(auto, using(crate::proofs::Steps::match_ends, crate::proofs::Filters::closed_match))]
    fn match_into(&self, target: &Ty, found: &mut Vec<(Ty, Name)>) -> Result<bool, AllocError>
        ensures { IfOk result (λ matched. match_type self.now found.old.items target.now ≡ (if matched then Some found.new.items else None)) }
    {
        if self.shared.filter.is_empty() {
            return Ok(self.same(target));
        }
        match (&self.shared.node, &target.shared.node) {
            (TyNode::Var(name), _) => match type_in(found, name) {
                Some(earlier) => Ok(earlier.same(target)),
                None => {
                    found.push((target.copy()?, name.copy()?))?;
                    Ok(true)
                }
            },
            (TyNode::App(_, _), TyNode::Var(_)) => Ok(false),
            (TyNode::App(c, ts), TyNode::App(d, us)) => {
                if !c.same(d) {
                    return Ok(false);
                }
                for (i, t) in ts.iter().enumerate() {
                    let Some(u) = us.get(i) else {
                        return Ok(false);
                    };
                    if !t.match_into(u, found)? {
                        return Ok(false);
                    }
                }
                Ok(us.len() <= ts.len())
            }
        }
    }
}

// The most that a size says.
const LARGEST_SIZE: u32 = 20_001;

impl TyNode {
    // The size of the type with this top node.
    fn size(&self) -> u32
        ensures { result ≡ min (type_size (tree_of self.now)) 20001 }
    {
        match self {
            TyNode::Var(_) => 1,
            TyNode::App(_, args) => {
                let mut count = 1;
                for arg in args {
                    count = (count + arg.size()).min(LARGEST_SIZE);
                }
                count
            }
        }
    }

    // The filter of the type with this top node.
    #[tactic(auto, using(crate::proofs::Filters::filter_step, crate::proofs::Filters::filter_all))]
    fn filter(&self) -> NameFilter
        ensures { result.bits ≡ type_filter (tree_of self.now) }
    {
        match self {
            TyNode::Var(name) => NameFilter::of_name(name),
            TyNode::App(_, args) => {
                let mut filter = NameFilter::empty();
                for arg in args {
                    filter = filter.union(arg.filter());
                }
                filter
            }
        }
    }

    // Whether all constructors of the type with this top node are the prelude's.
    #[tactic(auto, using(crate::proofs::Steps::is_basic_app, crate::proofs::Steps::basic_step, crate::proofs::Steps::basic_all))]
    fn is_basic(&self) -> bool
        ensures { result ≡ is_basic (tree_of self.now) }
    {
        match self {
            TyNode::Var(_) => true,
            TyNode::App(constructor, args) => {
                if !is_basic_constructor(constructor, args.len()) {
                    return false;
                }
                for arg in args {
                    if !arg.is_basic() {
                        return false;
                    }
                }
                true
            }
        }
    }

    // Whether the type with this top node is one of functions.
    #[tactic(auto, using(crate::proofs::Steps::function_app))]
    fn is_function(&self) -> bool
        ensures { result ≡ is_some (fun_parts (tree_of self.now)) }
    {
        match self {
            TyNode::Var(_) => false,
            TyNode::App(constructor, args) => constructor.is(KnownName::FunType) && args.len() == 2,
        }
    }

    // Whether the type with this top node is `bool`.
    #[tactic(auto, using(crate::proofs::Steps::truth_app))]
    fn is_bool(&self) -> bool
        ensures { result ≡ is_bool (tree_of self.now) }
    {
        match self {
            TyNode::Var(_) => false,
            TyNode::App(constructor, args) => {
                constructor.is(KnownName::BoolType) && args.is_empty()
            }
        }
    }
}

// The pairs in the order of the names.
fn pairs_for(
    alloc: Global,
    found: &[(Ty, Name)],
    names: &[Name],
) -> Result<Vec<(Ty, Name)>, AllocError>
    ensures { IfOk result (λ pairs. pairs.items ≡ pairs_for found.now names.now) }
{
    let mut pairs = Vec::with_capacity(alloc, names.len())?;
    for name in names {
        let ty = match type_in(found, name) {
            Some(ty) => ty.copy()?,
            None => Ty::var(alloc, name)?,
        };
        pairs.push((ty, name.copy()?))?;
    }
    Ok(pairs)
}
