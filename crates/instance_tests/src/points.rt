//! All sets of pairs of small instances: an audit reports what the definition says, and the rows of the model hold exactly
//! where it finds the pairs weakly stable.
ghost use Rattle.std.specs.Prelude.{◌≤◌, length};

use crate::definition::{Chosen, chosen_of, instance_of, pairs_text};
use crate::instances::instance_in;
use crate::runs::run_over;
use hrt_base::{NoMemory, PairNo, Port};
use pb_rows::Row;
use rank_tables::Instance;
use stability_model::Model;
use std::alloc::Global;
use std::test::Fail;

fn rows_of(alloc: Global, inst: &Instance) -> Result<Vec<Row>, NoMemory> {
    let model = Model::of(alloc, inst)?;
    let mut rows = Vec::new(alloc);
    for k in 1..model.row_count() + 1 {
        rows.push(model.row(alloc, k)?)?;
    }
    Ok(rows)
}

// The point of the chosen pairs, by their numbers.
fn point_of(alloc: Global, inst: &Instance, chosen: &Chosen) -> Result<Vec<bool>, NoMemory> {
    let mut point = Vec::new(alloc);
    for p in 1..inst.pairs() + 1 {
        let r = inst.resident_of(PairNo(p)) as usize;
        let h = inst.hospital_of(PairNo(p)) as usize;
        point.push(r < 3 && h < 3 && chosen[r][h])?;
    }
    Ok(point)
}

// Whether all rows hold, or `None` where one has a variable that the point hasn't.
fn all_hold(rows: &[Row], point: &[bool]) -> Option<bool> {
    for row in rows {
        let is_covered = row
            .terms()
            .iter()
            .all(|t| 1 <= t.lit.var && t.lit.var as usize <= point.len());
        if !is_covered {
            return None;
        }
        if !row.holds(point) {
            return Some(false);
        }
    }
    Some(true)
}

// The terms of all rows.
fn terms_of(rows: &[Row]) -> u32 {
    let mut terms = 0u32;
    for row in rows {
        terms = terms.saturating_add(row.terms().len().min(1000) as u32);
    }
    terms
}

#[test]
fn audits_and_points_are_the_definition(rt: HostRuntime) -> Result<(), Fail> {
    let alloc = rt.alloc();
    for number in 0..200u32 {
        let small = instance_of(number);
        let text = small.text(alloc)?;
        let inst = instance_in(alloc, &text)?;
        let rows = rows_of(alloc, &inst)?;
        assert_eq!(rt; terms_of(&rows), inst.model_terms(), "{number}");
        for bits in 0..512u32 {
            if let Some(chosen) = chosen_of(&small, bits) {
                let pairs = pairs_text(alloc, &chosen)?;
                let ended = run_over(alloc, &["audit", "i", "q"], ("i", &text), ("q", &pairs))?;
                let report = small.report(alloc, &chosen)?;
                assert_eq!(rt;
                    ended.host.sent(Port::Report),
                    report.as_slice(),
                    "{number} {bits}"
                );
                let point = point_of(alloc, &inst, &chosen)?;
                assert_eq!(rt;
                    all_hold(&rows, &point),
                    Some(ended.code == 0),
                    "{number} {bits}"
                );
            }
        }
    }
    Ok(())
}

#[test]
fn terms_of_the_worked_instance(rt: HostRuntime) -> Result<(), Fail> {
    let inst = instance_in(
        rt.alloc(),
        b"hrt 1\nresident a: x y\nresident b: x\nhospital x 1: (a b)\nhospital y 1: a\nend\n",
    )?;
    assert_eq!(rt; inst.model_terms(), 12);
    Ok(())
}
