//! The names that the run of a command tested.
ghost use Rattle.std.specs.Prelude.{◌≡◌, ◌↔◌, IfOk, IsTrue, [], map};
ghost use Rattle.std.specs.List.{list_all};
ghost use Rattle.hol_goal.specs.Names.{stands};
ghost use Rattle.hol_exec.specs.Tested.{is_marked, marked, agrees};

use hol_goal::Names;
use hol_theory::Env;
use hol_types::Name;
use std::alloc::{AllocError, Global};
use std::marker::Model;

/// The names that the run of a command tested, in order, each with whether a constant had it.
#[derive(Drop)]
pub struct Tested {
    names: Vec<(Name, bool)>,
}

impl Model for Tested {
    ghost use Rattle.hol_exec.specs.Tested.{TestedValue};
    ghost use Rattle.hol_exec.specs.Codes.{coded_tested};

    ghost Value = { TestedValue };

    ghost coded = { coded_tested };

    ghost view = { λ t. t.names.items };
}

impl Tested {
    /// No names.
    pub fn none(alloc: Global) -> Tested
        ensures { result ≡ [] }
    {
        Tested {
            names: Vec::new(alloc),
        }
    }

    /// Whether there are no names.
    pub fn is_none(&self) -> bool
        ensures { IsTrue result ↔ (self.now ≡ []) }
    {
        self.names.is_empty()
    }

    /// These names, where constants have those.
    pub(crate) fn of(alloc: Global, tested: &[Name], names: &Names) -> Result<Tested, AllocError>
        ensures { IfOk result (λ t. t ≡ marked names.now tested.now) }
    {
        let mut marked = Vec::with_capacity(alloc, tested.len())?;
        for name in tested {
            marked.push((name.copy()?, names.has(name.as_str())))?;
        }
        Ok(Tested { names: marked })
    }
}

/// Whether each of the names is still that of a constant, or not, as it was. Takes no memory.
pub fn agrees(tested: &Tested, env: &Env) -> bool
    ensures { result ≡ agrees tested.now env.now }
{
    agree(&tested.names, env.names())
}

// The same of these names.
fn agree(tested: &[(Name, bool)], names: &Names) -> bool
    ensures { result ≡ list_all (is_marked names.now) tested.now }
{
    for entry in tested {
        if names.has(entry.0.as_str()) != entry.1 {
            return false;
        }
    }
    true
}
