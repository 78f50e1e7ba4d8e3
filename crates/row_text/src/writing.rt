// Numbers, literals, terms and rows as text.

ghost use Rattle.std.specs.Prelude.{◌≡◌, ◌++◌, ◌∷◌, [], OnOk, OnErr, decimal, flat_map};
ghost use Rattle.std.specs.Fmt.{signed_decimal};
ghost use Rattle.row_text.specs.Readings.{StaysInFront};
ghost use Rattle.row_text.specs.Rows.{literal_text, row_text, signed_text, term_text};

use hrt_base::{Lit, NoMemory, Term};
use itoa::Buffer;

/// Appends a number, with a sign only where it is negative.
pub fn push_number(n: i128, out: &mut Vec<u8>) -> Result<(), NoMemory>
    ensures ok { OnOk result (out.new.items ≡ out.old.items ++ signed_decimal n) }
    ensures err { OnErr result (out.new.items ≡ out.old.items) }
{
    let mut buffer = Buffer::new();
    out.extend_from_slice(buffer.format(n).as_bytes())?;
    Ok(())
}

/// Appends a number, with its sign.
fn push_signed(n: i128, out: &mut Vec<u8>) -> Result<(), NoMemory>
    ensures ok { OnOk result (out.new.items ≡ out.old.items ++ signed_text n) }
    ensures err { OnErr result (StaysInFront out.old.items out.new.items) }
{
    if n >= 0 {
        out.push(b'+')?;
    }
    push_number(n, out)
}

/// Appends a literal.
pub fn push_literal(lit: Lit, out: &mut Vec<u8>) -> Result<(), NoMemory>
    ensures ok { OnOk result (out.new.items ≡ out.old.items ++ literal_text lit) }
    ensures err { OnErr result (StaysInFront out.old.items out.new.items) }
{
    if lit.neg {
        out.push(b'~')?;
    }
    out.push(b'x')?;
    let mut buffer = Buffer::new();
    out.extend_from_slice(buffer.format(lit.var).as_bytes())?;
    Ok(())
}

/// Appends a term, with a space behind it.
#[tactic(auto, using(crate::proofs::Appended::stays_longer))]
pub fn push_term(term: Term, out: &mut Vec<u8>) -> Result<(), NoMemory>
    ensures ok { OnOk result (out.new.items ≡ out.old.items ++ term_text term) }
    ensures err { OnErr result (StaysInFront out.old.items out.new.items) }
{
    push_signed(term.coef, out)?;
    out.push(b' ')?;
    push_literal(term.lit, out)?;
    out.push(b' ')?;
    Ok(())
}

/// Appends terms, with a space behind each.
#[tactic(auto, using(crate::proofs::Appended::stays_longer))]
pub fn push_terms(terms: &[Term], out: &mut Vec<u8>) -> Result<(), NoMemory>
    ensures ok { OnOk result (out.new.items ≡ out.old.items ++ flat_map term_text terms.now) }
    ensures err { OnErr result (StaysInFront out.old.items out.new.items) }
{
    for term in terms {
        push_term(*term, out)?;
    }
    Ok(())
}

/// Appends a row: its terms, `>=`, its number and `;`.
#[tactic(auto, using(crate::proofs::Appended::stays_longer))]
pub fn push_row(terms: &[Term], at_least: i128, out: &mut Vec<u8>) -> Result<(), NoMemory>
    ensures ok { OnOk result (out.new.items ≡ out.old.items ++ row_text (record { terms = terms.now; at_least = at_least })) }
    ensures err { OnErr result (StaysInFront out.old.items out.new.items) }
{
    push_terms(terms, out)?;
    out.extend_from_slice(b">= ")?;
    push_number(at_least, out)?;
    out.extend_from_slice(b" ;")?;
    Ok(())
}
