//! Names of constants: which stand; and what a theory refuses.
use hol_formulas::bool_type;
use hol_goal::Names;
use hol_kernel::Basis;
use hol_theory::{Env, EnvError, Key, Kind, new_constant, new_type};
use hol_types::Name;
use std::alloc::{AllocError, Global};
use std::test::Fail;

// Of a list of names, those of the prelude's constants stand too.
fn are_listed(alloc: Global) -> Result<bool, AllocError> {
    let names = Names::new(alloc, &["c"])?;
    Ok(names.has("c") && !names.has("c'") && !names.has("") && names.has("T") && names.has("="))
}

#[test]
fn listed_names_stand(rt: HostRuntime) -> Result<(), Fail> {
    assert!(rt; are_listed(rt.alloc())?);
    Ok(())
}

// Adds a constant of this name, of type `bool`, to the theory.
fn declare(alloc: Global, env: &mut Env, name: &str) -> Result<(), Fail> {
    let name = Name::new(alloc, name)?;
    let (key, value) = new_constant(alloc, &Basis::empty(alloc)?, &name, &bool_type(alloc)?)?;
    env.add(&key, &value)?;
    Ok(())
}

// Adds a type constructor of this name and arity to the theory, or tells why not.
fn added_type(
    alloc: Global,
    env: &mut Env,
    name: &str,
    arity: u32,
) -> Result<Result<(), EnvError>, Fail> {
    let name = Name::new(alloc, name)?;
    let (key, value) = new_type(alloc, &Basis::empty(alloc)?, &name, arity)?;
    Ok(env.add(&key, &value))
}

// The same of a type constructor without arguments.
fn declare_type(alloc: Global, env: &mut Env, name: &str) -> Result<(), Fail> {
    added_type(alloc, env, name, 0)??;
    Ok(())
}

// The theory of a constant and a type constructor.
fn begun(alloc: Global) -> Result<Env, Fail> {
    let mut env = Env::new(alloc);
    declare(alloc, &mut env, "c")?;
    declare_type(alloc, &mut env, "t")?;
    Ok(env)
}

// Whether nothing is added under a key that has an entry.
fn is_taken(alloc: Global, env: &mut Env) -> Result<bool, Fail> {
    match added_type(alloc, env, "t", 1)? {
        Err(EnvError::Taken(key)) => {
            Ok(key == Key::new(alloc, Kind::Type, "t")? && env.len() == 2)
        }
        Err(EnvError::ImportClash(_)) => Ok(false),
        Err(EnvError::Memory) => Err(AllocError.into()),
        Ok(()) => Ok(false),
    }
}

// Whether no theory is imported that has another entry under a key.
fn is_clash(alloc: Global, env: &mut Env, other: &Env) -> Result<bool, Fail> {
    match env.import(other) {
        Err(EnvError::ImportClash(key)) => {
            Ok(key == Key::new(alloc, Kind::Type, "t")? && env.len() == 2)
        }
        Err(EnvError::Taken(_)) => Ok(false),
        Err(EnvError::Memory) => Err(AllocError.into()),
        Ok(()) => Ok(false),
    }
}

fn is_clash_met(alloc: Global, env: &mut Env) -> Result<bool, Fail> {
    let mut other = Env::new(alloc);
    declare_type(alloc, &mut other, "u")?;
    added_type(alloc, &mut other, "t", 1)??;
    is_clash(alloc, env, &other)
}

fn are_refused(alloc: Global) -> Result<bool, Fail> {
    let mut env = begun(alloc)?;
    Ok(is_taken(alloc, &mut env)? && is_clash_met(alloc, &mut env)?)
}

#[test]
fn other_entries_under_a_key_are_refused(rt: HostRuntime) -> Result<(), Fail> {
    assert!(rt; are_refused(rt.alloc())?);
    Ok(())
}
