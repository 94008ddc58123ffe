//! The definitions and axioms of the prelude, by name.

/// A definition or an axiom that stands in every basis (bool.ml, class.ml, nums.ml).
#[derive(Clone, Copy, Debug, PartialEq, Eq)]
pub enum Postulate {
    /// `T = ((\p:bool. p) = (\p. p))`.
    TDef,
    /// `(/\) = (\p q. (\f:bool->bool->bool. f p q) = (\f. f T T))`.
    AndDef,
    /// `(==>) = (\p q. p /\ q <=> p)`.
    ImpDef,
    /// `(!) = (\P:A->bool. P = (\x. T))`.
    ForallDef,
    /// `(?) = (\P:A->bool. !q. (!x. P x ==> q) ==> q)`.
    ExistsDef,
    /// `(\/) = (\p q. !r. (p ==> r) ==> (q ==> r) ==> r)`.
    OrDef,
    /// `F = (!p. p)`.
    FDef,
    /// `(~) = (\p. p ==> F)`.
    NotDef,
    /// `(?!) = (\P:A->bool. (?) P /\ (!x y. P x /\ P y ==> x = y))`.
    ExistsUniqueDef,
    /// `!t:A->B. (\x. t x) = t`.
    EtaAx,
    /// `!(P:A->bool) x. P x ==> P ((@) P)`.
    SelectAx,
    /// `ONE_ONE = (\f:A->B. !x1 x2. f x1 = f x2 ==> x1 = x2)`.
    OneOne,
    /// `ONTO = (\f:A->B. !y. ?x. y = f x)`.
    Onto,
    /// `?f:ind->ind. ONE_ONE f /\ ~ONTO f`.
    InfinityAx,
}
