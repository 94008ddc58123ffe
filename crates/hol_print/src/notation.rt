//! The operators that have a notation.
ghost use Rattle.std.specs.Prelude.{◌≡◌};
ghost use Rattle.hol_print.specs.ShowTerm.{symbol, infix_number, is_not, is_quantifier, is_operator};

use hol_formulas::is_bool;
use hol_types::{Name, Ty};

/// The text of a constant: `=` at bool is `<=>`.
pub(crate) fn symbol<'a>(name: &'a Name, ty: &Ty) -> &'a str
    ensures { result.now ≡ symbol name.now ty.now }
{
    if name.as_str() == "=" {
        if let Some((domain, _)) = ty.dest_fun() {
            if is_bool(domain) {
                return "<=>";
            }
        }
    }
    name.as_str()
}

/// How strongly an infix binds.
pub(crate) fn infix_number(symbol: &str) -> Option<u8>
    ensures { result ≡ infix_number symbol.now }
{
    if symbol == "<=>" {
        Some(2)
    } else if symbol == "==>" {
        Some(4)
    } else if symbol == "\\/" {
        Some(6)
    } else if symbol == "/\\" {
        Some(8)
    } else if symbol == "=" {
        Some(12)
    } else {
        None
    }
}

/// Whether the constant is negation.
pub(crate) fn is_not(symbol: &str) -> bool
    ensures { result ≡ is_not symbol.now }
{
    symbol == "~"
}

/// Whether the constant, applied to an abstraction, is written as a binder.
pub(crate) fn is_quantifier(symbol: &str) -> bool
    ensures { result ≡ is_quantifier symbol.now }
{
    (symbol == "!") | (symbol == "?") | (symbol == "?!") | (symbol == "@")
}

/// Whether the constant stands in parentheses where it is not written in its notation.
pub(crate) fn is_operator(symbol: &str) -> bool
    ensures { result ≡ is_operator symbol.now }
{
    infix_number(symbol).is_some() | is_not(symbol) | is_quantifier(symbol)
}
