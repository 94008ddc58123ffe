//! Laws of theories.
ghost use Rattle.std.specs.Prelude.{◌≡◌, ℕ, List, [], ◌∷◌, ◌++◌, false, Some, None};
ghost use Rattle.hol_types.specs.Tree.{TypeTree};
ghost use Rattle.hol_terms.specs.Nameless.{Nameless};
ghost use Rattle.hol_kernel.specs.Item.{declared_axiom};
ghost use Rattle.hol_kernel.specs.Items.{Items, Holds, IsSubset};
ghost use Rattle.hol_kernel.specs.Sequent.{no_hyps, sequent_of};
ghost use Rattle.hol_kernel.specs.Signature.{ItemKey, prelude_has};
ghost use Rattle.hol_kernel.specs.Legal.{IsNew, IsLegalSet};
ghost use Rattle.hol_kernel.specs.Extends.{Agree};
ghost use Rattle.hol_kernel.specs.Theorem.{Theorem};
ghost use Rattle.hol_theory.specs.Key.{KeyValue, theorem_key};
ghost use Rattle.hol_theory.specs.Entry.{EntryValue, ATheorem, Entries, IsTheoremEntry, EachIsEntry, entry_at};
ghost use Rattle.hol_theory.specs.Theory.{items_in, entry_key, StatesAxiom, IsTheory};
ghost use Rattle.hol_theory.specs.Adding.{CanFollow};
ghost use Rattle.hol_theory.specs.Making.{IsNewType, IsNewConstant, IsNewAxiom, IsNewDefinition, IsNewTypeDefinition, EachWithin};

/// In a theory a name under whose key nothing stands, and which is none of the prelude's, is new over its items; and sets of its items agree, so that they can be
/// joined.
#[tactic(auto, using(crate::proofs::Theories::free_name_is_new))]
pub fn free_keys_are_new_names()
    ensures new { (entries : Entries) (k : ItemKey) → IsTheory entries → entry_at (entry_key k) entries ≡ None → prelude_has k ≡ false → IsNew (items_in entries) k }
    ensures agree { (entries : Entries) (a b : Items) → IsTheory entries → IsSubset a (items_in entries) → IsSubset b (items_in entries) → Agree a b }
{}

/// Each axiom on which entries of a theory rest stands under its name, as a theorem that states it; so an entry that rests on an axiom of its own name states
/// that axiom.
pub fn axioms_are_stated()
    ensures stands { (entries : Entries) (name : List ℕ) (p : Nameless) → IsTheory entries → Holds (items_in entries) (declared_axiom name p) → StatesAxiom entries name p }
    ensures own { (entries : Entries) (name : List ℕ) (p : Nameless) (th : Theorem) → IsTheory entries → entry_at (theorem_key name) entries ≡ Some (ATheorem th)
        → Holds th.basis (declared_axiom name p) → th.sequent ≡ sequent_of no_hyps p }
{}

/// What is declared over a basis whose items a theory has can come after the theory, under a key where nothing stands.
pub fn declared_entries_follow()
    ensures types { (entries : Entries) (basis : Items) (name : List ℕ) (arity : ℕ) (entry : KeyValue × EntryValue) → IsLegalSet basis → IsSubset basis (items_in entries) → IsNewType basis name arity entry → CanFollow entries (entry ∷ []) }
    ensures constants { (entries : Entries) (basis : Items) (name : List ℕ) (ty : TypeTree) (entry : KeyValue × EntryValue) → IsLegalSet basis → IsSubset basis (items_in entries) → IsNewConstant basis name ty entry → CanFollow entries (entry ∷ []) }
    ensures axioms { (entries : Entries) (basis : Items) (name : List ℕ) (p : Nameless) (entry : KeyValue × EntryValue) → IsLegalSet basis → IsSubset basis (items_in entries) → IsNewAxiom basis name p entry → CanFollow entries (entry ∷ []) }
{}

/// What is defined over a basis whose items a theory has can come after the theory, under keys where nothing stands: a constant with any theorem on
/// its basis, and a type constructor with its constants and theorems.
pub fn defined_entries_follow()
    ensures constants { (entries made : Entries) (basis : Items) (name theorem : List ℕ) (r : Nameless) (definition th : Theorem)
        → IsSubset basis (items_in entries) → IsNewDefinition basis name r made definition → EachIsEntry made
        → IsTheoremEntry (theorem_key theorem) th → th.basis ≡ definition.basis → CanFollow entries (made ++ (theorem_key theorem, ATheorem th) ∷ []) }
    ensures types { (entries made : Entries) (basis : Items) (name abs rep first second : List ℕ) (member : Theorem)
        → IsSubset basis (items_in entries) → IsNewTypeDefinition basis name abs rep first second member made → EachIsEntry made → CanFollow entries made }
{}

/// Entries that rest on the items of a theory can come after it, as a theorem that was proved.
#[tactic(auto, using(crate::proofs::Defining::within_follow))]
pub fn theorems_follow()
    ensures { (entries more : Entries) → EachIsEntry more → EachWithin (items_in entries) more → CanFollow entries more }
{}
