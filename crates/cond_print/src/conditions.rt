//! Printing conditions. Each part is pushed at the end of one text, so that printing takes no longer than the text is
//! long.

ghost use Rattle.std.specs.Prelude.{◌≡◌, ◌++◌, IfOk, OnOk, string_bytes};
ghost use Rattle.gx_base.specs.declared.kinds.Kind.{Kind};
ghost use Rattle.gx_base.specs.Conditions.{condition_of};
ghost use Rattle.cond_syntax.specs.Tokens.{tokens_in};
ghost use Rattle.cond_syntax.specs.TableTexts.{Spells};
ghost use Rattle.cond_syntax.specs.Printing as printing;
ghost use Rattle.cond_syntax.specs.Printing.{condition_text, grouped};
ghost use Rattle.cond_syntax.specs.Printable.{IsPrintable};

use crate::terms::put_comparison;
use gx_base::{Cond, NoMemory};
use std::alloc::{AllocError, Global};

/// The text of a condition, in which a value past place 7 is `0`. What prints it recurses as deep as its tree.
pub fn print_cond(alloc: Global, cond: &Cond) -> Result<String, NoMemory>
    ensures text { IfOk result (λ text. string_bytes text ≡ condition_text (condition_of cond.now)) }
    ensures reads_back { IfOk result (λ text. (kind : Kind) → IsPrintable kind (condition_of cond.now) → Spells kind (tokens_in (string_bytes text)) (condition_of cond.now)) }
{
    let mut text = String::new(alloc);
    put_condition(&mut text, cond)?;
    Ok(text)
}

#[cycle(conditions)]
pub(crate) fn put_condition(text: &mut String, cond: &Cond) -> Result<(), AllocError>
    ensures { OnOk result (string_bytes text.new ≡ string_bytes text.old ++ condition_text (condition_of cond.now)) }
{
    match cond {
        Cond::True => text.push_str("true"),
        Cond::False => text.push_str("false"),
        Cond::Eq(x, y) => put_comparison(text, *x, " = ", *y),
        Cond::Ne(x, y) => put_comparison(text, *x, " != ", *y),
        Cond::Lt(x, y) => put_comparison(text, *x, " < ", *y),
        Cond::Le(x, y) => put_comparison(text, *x, " <= ", *y),
        Cond::And(x, y) => {
            put_grouped(text, is_or(x), x)?;
            text.push_str(" and ")?;
            put_grouped(text, is_and_or_or(y), y)
        }
        Cond::Or(x, y) => {
            put_condition(text, x)?;
            text.push_str(" or ")?;
            put_grouped(text, is_or(y), y)
        }
        Cond::Not(x) => {
            text.push_str("not ")?;
            put_grouped(text, is_and_or_or(x), x)
        }
    }
}

/// The condition in parentheses, or as it is.
#[cycle(conditions)]
fn put_grouped(text: &mut String, in_group: bool, cond: &Cond) -> Result<(), AllocError>
    ensures { OnOk result (string_bytes text.new ≡ string_bytes text.old ++ grouped in_group (condition_text (condition_of cond.now))) }
{
    if in_group {
        text.push_str("(")?;
        put_condition(text, cond)?;
        text.push_str(")")
    } else {
        put_condition(text, cond)
    }
}

fn is_or(cond: &Cond) -> bool
    ensures { result ≡ printing.is_or (condition_of cond.now) }
{
    match cond {
        Cond::Or(_, _) => true,
        _ => false,
    }
}

fn is_and_or_or(cond: &Cond) -> bool
    ensures { result ≡ printing.is_and_or_or (condition_of cond.now) }
{
    match cond {
        Cond::And(_, _) | Cond::Or(_, _) => true,
        _ => false,
    }
}
