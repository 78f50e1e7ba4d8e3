//! Runs of `model`.
ghost use Rattle.std.specs.Prelude.{◌<◌};

use crate::runs::{Ended, WORKED, run_over, run_writing};
use hrt_base::{NoMemory, Port};
use hrt_reader::{ReadRefusal, read_instance};
use opb_text::{Formula, OpbRefusal, formula_of, read_opb};
use rank_tables::Instance;
use stability_model::Model;
use std::alloc::Global;
use std::test::Fail;

/// The model of the instance on which most tests run.
pub const WORKED_MODEL: &[u8] =
    b"* #variable= 3 #constraint= 7\nmin: -1 x1 -1 x2 -1 x3 ;\n-1 x1 -1 x2 >= -1 ;\n-1 x3 >= -1 ;\n-1 x1 -1 x3 >= -1 ;\n-1 x2 >= -1 ;\n+2 x1 +1 x3 >= 1 ;\n+1 x1 +2 x2 >= 1 ;\n+1 x1 +2 x3 >= 1 ;\n";

// A run of `model`, with calls that move at most so many bytes, of which this one fails.
fn model(alloc: Global, instance: &[u8], most: usize, failing: u64) -> Result<Ended, NoMemory>
    requires { 0 < most }
{
    run_writing(alloc, &["model", "i", "m"], instance, most, failing)
}

#[test]
fn worked_models(rt: HostRuntime) -> Result<(), Fail> {
    let alloc = rt.alloc();
    let cases: [(&[u8], u8, Option<&[u8]>, &[u8]); 6] = [
        (WORKED, 0, Some(WORKED_MODEL), b"variables 3\nrows 7\n"),
        (
            b"hrt 1\nresident a: x y\nresident b: x y\nhospital x 1: (a b)\nhospital y 1: a\nend\n",
            0,
            Some(WORKED_MODEL),
            b"variables 3\nrows 7\n",
        ),
        (
            b"hrt 1\nend\n",
            0,
            Some(b"* #variable= 0 #constraint= 0\nmin: ;\n"),
            b"variables 0\nrows 0\n",
        ),
        (
            b"hrt 1\nresident b:\nresident a: x y\nhospital y 20: a\nhospital x 0: a\nend\n",
            0,
            Some(
                b"* #variable= 2 #constraint= 5\nmin: -1 x1 -1 x2 ;\n-1 x1 -1 x2 >= -1 ;\n-1 x2 >= -20 ;\n-1 x1 >= 0 ;\n+1 x1 >= 0 ;\n+20 x1 +21 x2 >= 20 ;\n",
            ),
            b"variables 2\nrows 5\n",
        ),
        (
            b"hrt 1\nresident a: q\nend\n",
            3,
            None,
            b"instance refused line 2 UnknownName\n",
        ),
        (b"", 3, None, b"instance refused line 1 BadHeader\n"),
    ];
    for (instance, code, file, report) in cases.iter() {
        let ended = model(alloc, instance, 1_000, 1_000)?;
        assert_eq!(rt; ended.code, *code);
        assert_eq!(rt; ended.host.file("m"), *file);
        assert_eq!(rt; ended.host.sent(Port::Report), *report);
    }
    Ok(())
}

#[test]
fn words_of_the_model(rt: HostRuntime) -> Result<(), Fail> {
    let alloc = rt.alloc();
    let cases: [&[&str]; 4] = [
        &["model", "i"],
        &["model", "i", "i"],
        &["model", "i", "-m"],
        &["model", "i", "m", "p"],
    ];
    for texts in cases.iter() {
        let ended = run_over(alloc, texts, WORKED, b"")?;
        assert_eq!(rt; ended.code, 2);
        assert_eq!(rt; ended.host.file("m"), None);
    }
    Ok(())
}

// begin_read and reads; begin_write, writes and a seal; writes and a seal
#[test]
fn each_call_fails_in_turn(rt: HostRuntime) -> Result<(), Fail> {
    let alloc = rt.alloc();
    let report = b"variables 3\nrows 7\n".as_slice();
    for most in [1, 3, 16] {
        let mut statuses = [0u32; 3];
        for call in 1..500 {
            let ended = model(alloc, WORKED, most, call)?;
            let host = &ended.host;
            let sent = host.sent(Port::Model);
            let told = host.sent(Port::Report);
            assert!(rt; WORKED_MODEL.starts_with(sent));
            assert!(rt; report.starts_with(told));
            if ended.code == 4 {
                assert!(rt; sent.is_empty());
                statuses[0] = statuses[0].saturating_add(1);
            } else if ended.code == 5 {
                assert!(rt; told.is_empty() || host.file("m") == Some(WORKED_MODEL));
                statuses[1] = statuses[1].saturating_add(1);
            } else {
                assert_eq!(rt; ended.code, 0);
                assert_eq!(rt; host.file("m"), Some(WORKED_MODEL));
                assert_eq!(rt; told, report);
                statuses[2] = statuses[2].saturating_add(1);
            }
        }
        assert!(rt; statuses[0] > 2 && statuses[1] > 13 && statuses[2] > 0);
    }
    Ok(())
}

fn instance_in(alloc: Global, text: &[u8]) -> Result<Instance, ReadRefusal> {
    if text.len() > 1000 {
        return Err(ReadRefusal::NoMemory);
    }
    read_instance(alloc, text)
}

fn formula_in(alloc: Global, text: &[u8]) -> Result<Formula, OpbRefusal> {
    if text.len() > 1000 {
        return Err(OpbRefusal::NoMemory);
    }
    read_opb(alloc, text)
}

#[test]
fn a_written_model_is_read_back(rt: HostRuntime) -> Result<(), Fail> {
    let alloc = rt.alloc();
    let instances: [&[u8]; 3] = [
        WORKED,
        b"hrt 1\nend\n",
        b"hrt 1\nresident b:\nresident a: x y\nhospital y 20: a\nhospital x 0: a\nend\n",
    ];
    for text in instances.iter() {
        let ended = model(alloc, text, 7, 1_000)?;
        let read = formula_in(alloc, ended.host.file("m").unwrap_or(b""))?;
        let instance = instance_in(alloc, text)?;
        let made = formula_of(alloc, &Model::of(alloc, &instance)?)?;
        assert_eq!(rt; read.vars, made.vars);
        assert_eq!(rt; read.objective.as_slice(), made.objective.as_slice());
        assert_eq!(rt; read.rows.len(), made.rows.len());
        for (row, wanted) in read.rows.iter().zip(made.rows.iter()) {
            assert_eq!(rt; row.terms(), wanted.terms());
            assert_eq!(rt; row.degree(), wanted.degree());
        }
    }
    Ok(())
}
