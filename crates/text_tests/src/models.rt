// Texts of models that were worked out by hand, with ample memory.
use hrt_base::{Lit, Term};
use opb_text::{Formula, OpbRefusal, read_opb};
use std::alloc::Global;
use std::test::Fail;

const MOST_BYTES: usize = 10_000_000;

fn read(alloc: Global, text: &[u8]) -> Result<Formula, OpbRefusal> {
    if text.len() > MOST_BYTES {
        return Err(OpbRefusal::NoMemory);
    }
    read_opb(alloc, text)
}

// What the text is refused as.
fn refusal(alloc: Global, text: &[u8]) -> Option<OpbRefusal> {
    read(alloc, text).err()
}

fn term(coef: i128, var: u32, neg: bool) -> Term {
    Term {
        coef,
        lit: Lit { var, neg },
    }
}

#[test]
fn the_worked_model(rt: HostRuntime) -> Result<(), Fail> {
    let text =
        b"* #variable= 3 #constraint= 7\nmin: -1 x1 -1 x2 -1 x3 ;\n-1 x1 -1 x2 >= -1 ;\n-1 x3 >= -1 ;\n-1 x1 -1 x3 >= -1 ;\n-1 x2 >= -1 ;\n+2 x1 +1 x3 >= 1 ;\n+1 x1 +2 x2 >= 1 ;\n+1 x1 +2 x3 >= 1 ;\n";
    let formula = read(rt.alloc(), text)?;
    assert_eq!(rt; formula.vars, 3);
    assert_eq!(rt;
        formula.objective.as_slice(),
        [term(-1, 1, false), term(-1, 2, false), term(-1, 3, false)].as_slice()
    );
    let wanted: [(&[Term], i128); 7] = [
        (&[term(1, 1, true), term(1, 2, true)], 1),
        (&[term(1, 3, true)], 0),
        (&[term(1, 1, true), term(1, 3, true)], 1),
        (&[term(1, 2, true)], 0),
        (&[term(2, 1, false), term(1, 3, false)], 1),
        (&[term(1, 1, false), term(2, 2, false)], 1),
        (&[term(1, 1, false), term(2, 3, false)], 1),
    ];
    assert_eq!(rt; formula.rows.len(), wanted.len());
    for (row, (terms, degree)) in formula.rows.iter().zip(wanted.iter()) {
        assert_eq!(rt; row.terms(), *terms);
        assert_eq!(rt; row.degree(), *degree);
    }
    Ok(())
}

#[test]
fn an_objective_is_kept_as_written(rt: HostRuntime) -> Result<(), Fail> {
    let text =
        b"\r\n  * #variable= 1\n min:\t+2 x3 -1 ~x1 0 x9 007 x3;\r\n\n3 x2 -1 x2 +5 ~x4 >= -1;";
    let formula = read(rt.alloc(), text)?;
    assert_eq!(rt; formula.vars, 9);
    assert_eq!(rt;
        formula.objective.as_slice(),
        [
            term(2, 3, false),
            term(-1, 1, true),
            term(0, 9, false),
            term(7, 3, false)
        ]
        .as_slice()
    );
    assert_eq!(rt; formula.rows.len(), 1);
    for row in &formula.rows {
        assert_eq!(rt;
            row.terms(),
            [term(2, 2, false), term(5, 4, true)].as_slice()
        );
        assert_eq!(rt; row.degree(), 0);
    }
    Ok(())
}

#[test]
fn the_greatest_variable_counts_zero_terms(rt: HostRuntime) -> Result<(), Fail> {
    let cases: [(&[u8], u32); 6] = [
        (b"", 0),
        (b">= 1 ;\n", 0),
        (b"min: +0 x7 ;\n+1 x3 >= 0 ;\n", 7),
        (b"min: +1 x2 ;\n+0 x5 >= 0 ;\n", 5),
        (b"+1 x4 -1 x4 >= 0 ;\n", 4),
        (b"* #variable= 8\n+1 ~x100000 >= 0 ;\n", 100_000),
    ];
    for (text, vars) in cases.iter() {
        let formula = read(rt.alloc(), text)?;
        assert_eq!(rt; formula.vars, *vars);
    }
    Ok(())
}

#[test]
fn accepted_texts(rt: HostRuntime) {
    let texts: [&[u8]; 36] = [
        // blanks between tokens
        b"+1 x1 >= 1 ;\n",
        b"\t+1\tx1  >=\t 1 \t;\t \n",
        b"min:\t+1  x1\t ;\n",
        // comments
        b"* a comment ; >= \n",
        b" \t*min: x1 x2 ;\n",
        b"*\n**\n* \xFF\n",
        // blank lines
        b"",
        b"\n \t\n\n",
        b"\nmin: ;\n\n>= 0 ;\n\n",
        // a last line feed that is absent
        b"+1 x1 >= 1 ;",
        b"min: ;",
        b"* a comment",
        // a carriage return before a line feed or at the end
        b"min: ;\r\n>= 0 ;\r\n",
        b"+1 x1 >= 1 ;\r",
        b"\r\n\r",
        // `;` beside other tokens
        b"min:;\n",
        b"min: +1 x1;\n",
        b"+1 x1 >= 1;\n",
        // an objective before all rows, or none
        b"* a comment\n\nmin: +1 x1 ;\n* another\n",
        b">= 0 ;\n>= 1 ;\n",
        b"min: -1 x1 ;\n-1 x1 >= -1 ;\n",
        // numbers
        b"1 x1 >= -0 ;\n",
        b"-007 x1 >= +0 ;\n",
        b"+00000000000000000000000000000000000000000000 x1 >= 000 ;\n",
        // literals
        b"+1 ~x1 >= 1 ;\n",
        b"+1 x100000 >= 1 ;\n",
        b"min: +1 ~x10 ;\n",
        // terms that are absent, and variables that are repeated
        b">= 5 ;\n",
        b"+1 x1 +1 x1 -2 ~x1 >= 1 ;\n",
        b"min: +1 x1 +1 x1 ;\n",
        // sizes at their limit
        b"+1329227995784915872903807060280344576 x1 >= 0 ;\n",
        b"+664613997892457936451903530140172288 x1 -664613997892457936451903530140172287 ~x1 >= -1 ;\n",
        b">= -1329227995784915872903807060280344576 ;\n",
        b"min: +664613997892457936451903530140172288 x1 ;\n",
        b"min: +664613997892457936451903530140172287 x1 -1 x1 ;\n",
        b"min: -664613997892457936451903530140172288 ~x2 +0 x1 ;\n",
    ];
    for text in texts.iter() {
        assert_eq!(rt; refusal(rt.alloc(), text), None, "{text:?}");
    }
}

// Texts that are refused as `Syntax` in their last line.
#[test]
fn unspelled_lines(rt: HostRuntime) {
    let texts: [(&[u8], u32); 48] = [
        // tokens are parted by blanks
        (b"+1x1 >= 1 ;", 1),
        (b"+1 x1>= 1 ;", 1),
        (b"+1 x1 >=1 ;", 1),
        // a comment begins its line
        (b"+1 x1 >= 1 ; * a comment", 1),
        (b"min: ; *", 1),
        (b"x*", 1),
        // a statement is one line
        (b"\n+1 x1", 2),
        (b"min: +1 x1", 1),
        (b">= 0 ;\n\n>= 1", 3),
        // a carriage return anywhere else
        (b"+1 x1\r >= 1 ;\n", 1),
        (b"+1 x1 >= 1 ;\r\r\n", 1),
        (b"\r min: ;\n", 1),
        // `;` is the last token
        (b"+1 x1 >= 1 ;;", 1),
        (b"+1 x1 ; >= 1 ;", 1),
        (b"min: ; ;", 1),
        (b";", 1),
        // at most one objective, before all rows
        (b"min: ;\nmin: ;\n", 2),
        (b"min: +1 x1 ;\n\n* a comment\nmin: +1 x1 ;\n", 4),
        (b">= 0 ;\nmin: +1 x1 ;\n", 2),
        (b"min: ;\n>= 0 ;\nmin: ;\n", 3),
        // `min:` is a whole token
        (b"min:1 x1 ;", 1),
        (b"min : 1 x1 ;", 1),
        (b"min 1 x1 ;", 1),
        (b"max: ;", 1),
        // an objective has terms alone
        (b"* a comment\nmin: x1 x2 ;\n", 2),
        (b"min: +1 x1 >= 1 ;", 1),
        (b"min: +1 ;", 1),
        // a row has `>=` and a number
        (b"+1 x1 >= ;", 1),
        (b"+1 x1 ;", 1),
        (b"+1 x1 >= 1 2 ;", 1),
        (b"+1 x1 >= x2 ;", 1),
        (b"+1 x1 = 1 ;", 1),
        (b"+1 x1 <= 1 ;", 1),
        // a term is a number and a literal
        (b"x1 +1 >= 1 ;", 1),
        (b"x1 >= 1 ;", 1),
        (b"+1 x1 x2 >= 1 ;", 1),
        // numbers
        (b"+ 1 x1 >= 1 ;", 1),
        (b"+-1 x1 >= 1 ;", 1),
        (b"1.0 x1 >= 1 ;", 1),
        (b"+1 x1 >= - ;", 1),
        // literals
        (b"+1 x0 >= 1 ;", 1),
        (b"+1 x01 >= 1 ;", 1),
        (b"+1 x >= 1 ;", 1),
        (b"+1 ~ x1 >= 1 ;", 1),
        (b"+1 ~~x1 >= 1 ;", 1),
        (b"+1 X1 >= 1 ;", 1),
        // before all other kinds
        (b"+1329227995784915872903807060280344577 x1 x2 >= 1 ;", 1),
        (b">= 0 ;\nmin: +1 x100001 ;", 2),
    ];
    for (text, line) in texts.iter() {
        assert_eq!(rt;
            refusal(rt.alloc(), text),
            Some(OpbRefusal::Syntax(*line)),
            "{text:?}"
        );
    }
}

#[test]
fn lines_past_the_limits(rt: HostRuntime) {
    let texts: [(&[u8], OpbRefusal); 17] = [
        // the sizes of a row, with its right side, sum to more than 2^120
        (
            b"+1329227995784915872903807060280344576 x1 >= 1 ;",
            OpbRefusal::TooBig(1),
        ),
        (
            b"+1 x1 >= -1329227995784915872903807060280344576 ;",
            OpbRefusal::TooBig(1),
        ),
        (
            b"\n-664613997892457936451903530140172288 x1 +664613997892457936451903530140172288 x1 >= -1 ;",
            OpbRefusal::TooBig(2),
        ),
        (
            b"+1329227995784915872903807060280344577 x1 >= 0 ;",
            OpbRefusal::TooBig(1),
        ),
        (
            b">= 99999999999999999999999999999999999999999999999999 ;",
            OpbRefusal::TooBig(1),
        ),
        // those of the objective to more than 2^119
        (
            b"min: +664613997892457936451903530140172289 x1 ;",
            OpbRefusal::TooBig(1),
        ),
        (
            b"min: +664613997892457936451903530140172288 x1 -1 x2 ;",
            OpbRefusal::TooBig(1),
        ),
        (
            b"* a comment\nmin: -99999999999999999999999999999999999999999999999999 x1 +1 x2 ;\n",
            OpbRefusal::TooBig(2),
        ),
        // a variable above 100,000, of any length
        (b"+1 x100001 >= 1 ;", OpbRefusal::TooManyVariables(1)),
        (
            b"min: +1 x1 ;\n+0 ~x4294967297 >= 1 ;",
            OpbRefusal::TooManyVariables(2),
        ),
        (
            b"min: +0 x99999999999999999999999999999999999999999999999999 ;",
            OpbRefusal::TooManyVariables(1),
        ),
        // behind `TooBig` of the same line
        (
            b"+1 x100001 >= 1329227995784915872903807060280344576 ;",
            OpbRefusal::TooBig(1),
        ),
        (
            b"min: +664613997892457936451903530140172289 x100001 ;",
            OpbRefusal::TooBig(1),
        ),
        (
            b"99999999999999999999999999999999999999999999999999 x99999999999999999999 >= 1 ;",
            OpbRefusal::TooBig(1),
        ),
        // the first line that has one
        (
            b"+1 x100001 >= 1 ;\n+1 x1\n",
            OpbRefusal::TooManyVariables(1),
        ),
        (
            b"+1329227995784915872903807060280344577 x1 >= 0 ;\nmin: ;\n",
            OpbRefusal::TooBig(1),
        ),
        (
            b"+1 x1 >= 1 ;\n+1 x1\n+1 x100001 >= 1 ;\n",
            OpbRefusal::Syntax(2),
        ),
    ];
    for (text, wanted) in texts.iter() {
        assert_eq!(rt; refusal(rt.alloc(), text), Some(*wanted), "{text:?}");
    }
}

// A million rows, and then this text.
fn many_rows(alloc: Global, last: &[u8]) -> Result<Vec<u8>, Fail> {
    let mut text = Vec::new(alloc);
    for _ in 0..1_000_000 {
        text.extend_from_slice(b">= 0;\n")?;
    }
    text.extend_from_slice(last)?;
    Ok(text)
}

#[test]
fn one_row_more(rt: HostRuntime) -> Result<(), Fail> {
    let alloc = rt.alloc();
    let cases: [(&[u8], Option<OpbRefusal>); 2] = [
        (b"\n* a comment\n", None),
        (b">= 0 ;\n", Some(OpbRefusal::TooManyRows(1_000_001))),
    ];
    for (last, wanted) in cases.iter() {
        let text = many_rows(alloc, last)?;
        assert_eq!(rt; refusal(alloc, &text), *wanted);
    }
    Ok(())
}
