//! The text of a term.
ghost use Rattle.std.specs.Prelude.{◌≡◌, ◌++◌, IfOk, OnOk, [], slice_get, string_bytes, unwrap_or};
ghost use Rattle.hol_terms.specs.Nameless.{base_of, nameless};
ghost use Rattle.hol_print.specs.BareView.{bare_of};
ghost use Rattle.hol_print.specs.ShapeView.{binder_syntax, site_place};
ghost use Rattle.hol_print.specs.ShowType.{in_parentheses};
ghost use Rattle.hol_print.specs.ShowTerm.{show, text, before, after, opening, syntax, Word, Infix, Negation, Apply, is_operator};

use crate::bare::Bare;
use crate::names::shown_name;
use crate::notation::is_operator;
use crate::room::put_name;
use crate::shape::Shape;
use crate::shown_names::ShownNames;
use crate::site::Site;
use hol_terms::{Scope, Term, Variable, base_name};
use std::alloc::{AllocError, Global};

// How strongly a binder, `~`, an application and a name bind.
const BINDER: u32 = 0;

const NEGATION: u32 = 14;

const APPLICATION: u32 = 15;

const WORD: u32 = 16;

/// The text of a term, which is a function of its nameless term.
pub fn show_term(alloc: Global, t: &Term) -> Result<String, AllocError>
    ensures { IfOk result (λ text. string_bytes text ≡ show (nameless [] t.now)) }
{
    let bare = Bare::new(alloc, t, &Scope::Outside)?;
    let mut shown = ShownNames::new(alloc);
    let mut out = String::new(alloc);
    write(alloc, &bare, Site::Within(0), &mut shown, &mut out)?;
    Ok(out)
}

// Puts the text of the term at the end.
#[cycle(write)]
fn write<'a>(
    alloc: Global,
    t: &Bare<'a>,
    site: Site,
    shown: &mut ShownNames<'a>,
    out: &mut String,
) -> Result<(), AllocError>
    ensures text { OnOk result (string_bytes out.new ≡ string_bytes out.old ++ text (site_place site.entry) (syntax shown.old (bare_of t.now))) }
    ensures shown { OnOk result (shown.new ≡ shown.old) }
{
    match Shape::new(t) {
        Shape::Free(name) => write_word(name.as_str(), site, out),
        Shape::Bound(i) => write_bound(shown, i, site, out),
        Shape::Constant(symbol) => write_constant(symbol, site, out),
        Shape::Binder(symbol, v, body) => write_binder(alloc, symbol, v, body, site, shown, out),
        Shape::Infix(number, symbol, left, right) => {
            write_infix(alloc, number, symbol, left, right, site, shown, out)
        }
        Shape::Negation(x) => write_negation(alloc, x, site, shown, out),
        Shape::Apply(f, x) => write_application(alloc, f, x, site, shown, out),
    }
}

// Puts the binder, its variable's name and its body at the end.
#[cycle(write)]
#[tactic(auto, using(crate::proofs::Primes::base_is_base))]
fn write_binder<'a>(
    alloc: Global,
    symbol: &str,
    v: &'a Variable,
    body: &Bare<'a>,
    site: Site,
    shown: &mut ShownNames<'a>,
    out: &mut String,
) -> Result<(), AllocError>
    ensures text { OnOk result (string_bytes out.new ≡ string_bytes out.old ++ text (site_place site.entry) (binder_syntax shown.old symbol.now (base_of v.now.0) (bare_of body.now))) }
    ensures shown { OnOk result (shown.new ≡ shown.old) }
{
    let name = shown_name(alloc, shown, base_name(v.name().as_str()), body)?;
    open_binder(symbol, site, out)?;
    name.put(out)?;
    shown.enter(name)?;
    write(alloc, body, Site::After(symbol), shown, out)?;
    shown.leave();
    close(BINDER, site, out)
}

// Puts an infix between its operands at the end.
#[cycle(write)]
fn write_infix<'a>(
    alloc: Global,
    number: u8,
    symbol: &str,
    left: &Bare<'a>,
    right: &Bare<'a>,
    site: Site,
    shown: &mut ShownNames<'a>,
    out: &mut String,
) -> Result<(), AllocError>
    ensures text { OnOk result (string_bytes out.new ≡ string_bytes out.old ++ text (site_place site.entry) (Infix number symbol.now (syntax shown.old (bare_of left.now)) (syntax shown.old (bare_of right.now)))) }
    ensures shown { OnOk result (shown.new ≡ shown.old) }
{
    let number = u32::from(number);
    open(number, site, out)?;
    write(alloc, left, Site::Within(number + 1), shown, out)?;
    out.push_str(" ")?;
    out.push_str(symbol)?;
    out.push_str(" ")?;
    write(alloc, right, Site::Within(number), shown, out)?;
    close(number, site, out)
}

// Puts a negation of the operand at the end.
#[cycle(write)]
fn write_negation<'a>(
    alloc: Global,
    x: &Bare<'a>,
    site: Site,
    shown: &mut ShownNames<'a>,
    out: &mut String,
) -> Result<(), AllocError>
    ensures text { OnOk result (string_bytes out.new ≡ string_bytes out.old ++ text (site_place site.entry) (Negation (syntax shown.old (bare_of x.now)))) }
    ensures shown { OnOk result (shown.new ≡ shown.old) }
{
    open(NEGATION, site, out)?;
    out.push_str("~")?;
    write(alloc, x, Site::Within(NEGATION), shown, out)?;
    close(NEGATION, site, out)
}

// Puts an application in no other notation at the end.
#[cycle(write)]
fn write_application<'a>(
    alloc: Global,
    f: &Bare<'a>,
    x: &Bare<'a>,
    site: Site,
    shown: &mut ShownNames<'a>,
    out: &mut String,
) -> Result<(), AllocError>
    ensures text { OnOk result (string_bytes out.new ≡ string_bytes out.old ++ text (site_place site.entry) (Apply (syntax shown.old (bare_of f.now)) (syntax shown.old (bare_of x.now)))) }
    ensures shown { OnOk result (shown.new ≡ shown.old) }
{
    open(APPLICATION, site, out)?;
    write(alloc, f, Site::Within(APPLICATION), shown, out)?;
    out.push_str(" ")?;
    write(alloc, x, Site::Within(WORD), shown, out)?;
    close(APPLICATION, site, out)
}

fn write_bound(
    shown: &ShownNames,
    index: usize,
    site: Site,
    out: &mut String,
) -> Result<(), AllocError>
    ensures { OnOk result (string_bytes out.new ≡ string_bytes out.old ++ text (site_place site.entry) (Word (unwrap_or (slice_get shown.now index) []))) }
{
    open(WORD, site, out)?;
    if let Some(binder) = shown.get(index) {
        binder.put(out)?;
    }
    close(WORD, site, out)
}

fn write_word(word: &str, site: Site, out: &mut String) -> Result<(), AllocError>
    ensures { OnOk result (string_bytes out.new ≡ string_bytes out.old ++ text (site_place site.entry) (Word word.now)) }
{
    open(WORD, site, out)?;
    put_name(out, word)?;
    close(WORD, site, out)
}

fn write_constant(symbol: &str, site: Site, out: &mut String) -> Result<(), AllocError>
    ensures { OnOk result (string_bytes out.new ≡ string_bytes out.old ++ text (site_place site.entry) (Word (in_parentheses (is_operator symbol.now) symbol.now))) }
{
    if !is_operator(symbol) {
        return write_word(symbol, site, out);
    }
    open(WORD, site, out)?;
    out.push_str("(")?;
    out.push_str(symbol)?;
    out.push_str(")")?;
    close(WORD, site, out)
}

// What stands before a term that binds with this strength.
fn open(strength: u32, site: Site, out: &mut String) -> Result<(), AllocError>
    ensures { OnOk result (string_bytes out.new ≡ string_bytes out.old ++ before (site_place site.entry) strength) }
{
    match site {
        Site::Within(least) => {
            if strength < least {
                return out.push_str("(");
            }
            Ok(())
        }
        Site::After(_) => out.push_str(". "),
    }
}

// What stands after it.
fn close(strength: u32, site: Site, out: &mut String) -> Result<(), AllocError>
    ensures { OnOk result (string_bytes out.new ≡ string_bytes out.old ++ after (site_place site.entry) strength) }
{
    match site {
        Site::Within(least) => {
            if strength < least {
                return out.push_str(")");
            }
            Ok(())
        }
        Site::After(_) => Ok(()),
    }
}

// What stands before the variable of a binder.
fn open_binder(symbol: &str, site: Site, out: &mut String) -> Result<(), AllocError>
    ensures { OnOk result (string_bytes out.new ≡ string_bytes out.old ++ opening (site_place site.entry) symbol.now) }
{
    if let Site::After(earlier) = site {
        if earlier == symbol {
            return out.push_str(" ");
        }
    }
    open(BINDER, site, out)?;
    out.push_str(symbol)
}
