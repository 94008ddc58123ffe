//! What makes a basis larger: each way once as it is taken, and once for each condition by which it is refused; and bases that are joined.
ghost use Rattle.std.specs.Prelude.{◌≡◌};

use crate::written::Written;
use hol_kernel::{Basis, KernelError, Thm};
use hol_terms::Term;
use hol_types::Name;
use std::alloc::Global;
use std::test::Fail;

// Steps between bars, over no items at first, and whether the last one is taken: a type's name and arity; a constant's name and a term of its type; an axiom's name and its
// statement, or its name alone where it is asked for; a constant's name and what defines it; a constant that is joined; and a type by REFL of a term, by its assumption or by the
// axiom A, with its constants.
const ROWS: &str = r"type list 1 is taken
type fun 2 is Refused(DeclareType)
type list 1 | type list 0 is Refused(DeclareType)
constant c x:bool is taken
constant T x:bool is Refused(DeclareConst)
constant c x:foo is Refused(DeclareConst)
type foo 0 | constant c x:foo is taken
constant c x:bool | constant c x:ind is Refused(DeclareConst)
axiom A p:bool is taken
axiom INFINITY_AX p:bool is Refused(DeclareAxiom)
axiom A x:ind is Refused(DeclareAxiom)
axiom A x:foo = x is Refused(DeclareAxiom)
axiom A p:bool | axiom A q:bool is Refused(DeclareAxiom)
axiom A p:bool | axiom_of A is taken
axiom A p:bool | axiom_of B is Refused(AxiomOf)
axiom_of INFINITY_AX is Refused(AxiomOf)
define c \x:A. x is taken
define T \x:A. x is Refused(Define)
define c \x:A. x | define c \x:A. x is Refused(Define)
define c \x:foo. x is Refused(Define)
define c x:bool is Refused(Define)
define c \x:bool. (\y:A. y) = (\y:A. y) is Refused(Define)
join c x:bool is taken
constant c x:bool | join c x:bool is taken
constant c x:bool | join c x:ind is Clash(c)
define c \x:A. x | join c f:A->A is Clash(c)
axiom c p:bool | join c x:bool is taken
REFL one abs rep \x:bool. x is taken
REFL bool abs rep \x:bool. x is Refused(TypeDefine)
REFL one T rep \x:bool. x is Refused(TypeDefine)
REFL one abs T \x:bool. x is Refused(TypeDefine)
REFL one abs abs \x:bool. x is Refused(TypeDefine)
REFL one abs rep x:bool is Refused(TypeDefine)
ASSUME one abs rep (\x:bool. x) p is Refused(TypeDefine)
axiom A (\x:bool. x) p | AXIOM one abs rep T is taken
axiom A p:bool | AXIOM one abs rep T is Refused(TypeDefine)
constant k x:bool | constant b x:bool | constant c x:bool | constant d x:bool | define e \x:A. x | define f \x:A. x | type g 0 | type h 0 | REFL one abs rep \x:bool. x | constant rep x:bool is Refused(DeclareConst)
constant k x:bool | constant b x:bool | constant c x:bool | constant d x:bool | define e \x:A. x | define f \x:A. x | type g 0 | type h 0 | REFL one abs rep \x:bool. x | define b \x:A. x is Refused(Define)
constant k x:bool | constant b x:bool | constant c x:bool | constant d x:bool | define e \x:A. x | define f \x:A. x | type g 0 | type h 0 | REFL one abs rep \x:bool. x | define a \x:one. (x:one) is taken";

type Made = Result<Basis, KernelError>;

// What a step says.
#[derive(Clone, Copy)]
struct Step<'a> {
    written: &'a Written,
    kind: &'a str,
    rest: &'a str,
}

fn joined(alloc: Global, basis: &Basis, constant: &Name, t: &Term) -> Made {
    let other = Basis::empty(alloc)?.declare_const(alloc, constant, t.type_of())?;
    Basis::join(alloc, basis, &other)
}

fn defined(alloc: Global, basis: &Basis, constant: &Name, right: &Term) -> Made {
    let (larger, _th) = basis.define(alloc, constant, right)?;
    Ok(larger)
}

fn with_axiom(basis: &Basis, name: &Name) -> Made {
    let th = Thm::axiom_of(basis, name)?;
    Ok(th.basis().copy()?)
}

fn with_term(alloc: Global, basis: &Basis, kind: &str, name: &Name, t: &Term) -> Made {
    match kind {
        "constant" => basis.declare_const(alloc, name, t.type_of()),
        "axiom" => basis.declare_axiom(alloc, name, t),
        "define" => defined(alloc, basis, name, t),
        _ => joined(alloc, basis, name, t),
    }
}

// The names of a type and of its two constants.
#[derive(Drop)]
struct Names {
    ty: Name,
    abs: Name,
    rep: Name,
}

#[tactic(auto, using(hol_kernel::proofs::Subsets::within))]
fn of_theorem(alloc: Global, basis: &Basis, names: &Names, th: &Thm) -> Made
    requires { th.now.basis ≡ basis.now }
{
    let made = basis.type_define(alloc, &names.ty, &names.abs, &names.rep, th)?;
    let copy = made.copy()?;
    Ok(copy.basis)
}

fn of_reflexivity(alloc: Global, basis: &Basis, names: &Names, t: &Term) -> Made {
    let th = Thm::refl(alloc, basis, t)?;
    of_theorem(alloc, basis, names, &th)
}

fn of_assumption(alloc: Global, basis: &Basis, names: &Names, t: &Term) -> Made {
    let th = Thm::assume(alloc, basis, t)?;
    of_theorem(alloc, basis, names, &th)
}

fn of_axiom(alloc: Global, basis: &Basis, names: &Names) -> Made {
    let th = Thm::axiom_of(basis, &Name::new(alloc, "A")?)?;
    of_theorem(alloc, basis, names, &th)
}

impl Step<'_> {
    // The next name, and what follows it.
    fn name(&self) -> (&str, &str) {
        self.rest.split_once(' ').unwrap_or((self.rest, ""))
    }

    fn type_of(&self, basis: &Basis, names: &Names, text: &str) -> Result<Made, Fail> {
        let alloc = self.written.alloc;
        let t = self.written.term(text)?;
        Ok(match self.kind {
            "REFL" => of_reflexivity(alloc, basis, names, &t),
            "ASSUME" => of_assumption(alloc, basis, names, &t),
            _ => of_axiom(alloc, basis, names),
        })
    }

    // The basis that is larger by a type with its constants.
    fn with_type(&self, basis: &Basis) -> Result<Made, Fail> {
        let alloc = self.written.alloc;
        let (ty, rest) = self.name();
        let (abs, rest) = rest.split_once(' ').unwrap_or((rest, ""));
        let (rep, text) = rest.split_once(' ').unwrap_or((rest, ""));
        let names = Names {
            ty: Name::new(alloc, ty)?,
            abs: Name::new(alloc, abs)?,
            rep: Name::new(alloc, rep)?,
        };
        self.type_of(basis, &names, text)
    }

    fn with_term(&self, basis: &Basis, name: &Name, text: &str) -> Result<Made, Fail> {
        let t = self.written.term(text)?;
        Ok(with_term(self.written.alloc, basis, self.kind, name, &t))
    }

    fn with_name(&self, basis: &Basis) -> Result<Made, Fail> {
        let alloc = self.written.alloc;
        let (name, text) = self.name();
        let name = Name::new(alloc, name)?;
        match self.kind {
            "type" => Ok(basis.declare_type(alloc, &name, text.parse()?)),
            "axiom_of" => Ok(with_axiom(basis, &name)),
            _ => self.with_term(basis, &name, text),
        }
    }

    // The basis that is larger by the step.
    fn taken(&self, basis: &Basis) -> Result<Made, Fail> {
        match self.kind {
            "REFL" | "ASSUME" | "AXIOM" => self.with_type(basis),
            _ => self.with_name(basis),
        }
    }
}

fn taken(written: &Written, basis: &Basis, step: &str) -> Result<Made, Fail> {
    let (kind, rest) = step.split_once(' ').unwrap_or((step, ""));
    let step = Step {
        written,
        kind,
        rest,
    };
    step.taken(basis)
}

// Whether the steps are taken, or the refusal of the first that isn't.
fn outcome(written: &Written, steps: &str) -> Result<String, Fail> {
    let mut basis = Basis::empty(written.alloc)?;
    for step in steps.split(" | ") {
        match taken(written, &basis, step)? {
            Ok(larger) => basis = larger,
            Err(refusal) => return Ok(format!(in written.alloc; "{refusal:?}")?),
        }
    }
    Ok(String::from_str(written.alloc, "taken")?)
}

// The first row that isn't met, or nothing.
fn unmet(written: &Written) -> Result<&'static str, Fail> {
    for row in ROWS.lines() {
        let (steps, wanted) = row.split_once(" is ").unwrap_or((row, ""));
        if outcome(written, steps)?.as_str() != wanted {
            return Ok(row);
        }
    }
    Ok("")
}

#[test]
fn bases_are_what_their_rows_say(rt: HostRuntime) -> Result<(), Fail> {
    let written = Written::new(rt.alloc())?;
    assert_eq!(rt; unmet(&written)?, "");
    Ok(())
}
