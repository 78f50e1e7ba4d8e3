//! Runs over a host in memory.
ghost use Rattle.std.specs.Prelude.{◌≡◌, ◌<◌, IfOk, OnOk};
ghost use Rattle.hrt_base.specs.Calls.{AtStart};
ghost use Rattle.hrt_host.specs.Memory.{memory_world};

use hrt_base::{NoMemory, Port};
use hrt_cli::run;
use hrt_host::MemoryHost;
use std::alloc::Global;

/// The instance on which most tests run.
pub const WORKED: &[u8] =
    b"hrt 1\nresident a: x y\nresident b: x\nhospital x 1: (a b)\nhospital y 1: a\nend\n";

/// How a run ended.
#[derive(Drop)]
pub struct Ended {
    pub code: u8,
    pub host: MemoryHost,
}

/// A host with the files `i` and `q`, and room for a report.
pub fn host_with(alloc: Global, first: &[u8], second: &[u8]) -> Result<MemoryHost, NoMemory>
    ensures { IfOk result (λ host. AtStart (Unit {0}) (memory_world host)) }
{
    let mut host = MemoryHost::new(alloc);
    host.put_file("i", first)?;
    host.put_file("q", second)?;
    host.give_room(Port::Report, "", 10_000)?;
    Ok(host)
}

/// The words as the program is given them.
pub fn words(alloc: Global, texts: &[&str]) -> Result<Vec<String>, NoMemory> {
    let mut words = Vec::new(alloc);
    for text in texts {
        words.push(String::from_str(alloc, text)?)?;
    }
    Ok(words)
}

/// A run of these words over the files `i` and `q`.
pub fn run_over(
    alloc: Global,
    texts: &[&str],
    first: &[u8],
    second: &[u8],
) -> Result<Ended, NoMemory> {
    let mut host = host_with(alloc, first, second)?;
    let words = words(alloc, texts)?;
    let code = run(alloc, &words, &mut host);
    Ok(Ended { code, host })
}

/// A run of these words over the file `i`, with room for the files `m` and `p`. Its calls move at most so many bytes, and this one fails.
pub fn run_writing(
    alloc: Global,
    texts: &[&str],
    instance: &[u8],
    most: usize,
    failing: u64,
) -> Result<Ended, NoMemory>
    requires { 0 < most }
{
    let mut host = host_with(alloc, instance, b"")?;
    host.give_room(Port::Model, "m", 10_000)?;
    host.give_room(Port::Proof, "p", 10_000)?;
    host.piece(most);
    host.fail_at(failing)?;
    let words = words(alloc, texts)?;
    let code = run(alloc, &words, &mut host);
    Ok(Ended { code, host })
}

/// A run of `solve` over an instance.
pub fn solve(alloc: Global, instance: &[u8]) -> Result<Ended, NoMemory> {
    run_writing(alloc, &["solve", "i", "m", "p"], instance, 1_000, 1_000_000)
}

/// A run of `solve` over an instance, with this budget.
pub fn solve_within(alloc: Global, instance: &[u8], budget: &str) -> Result<Ended, NoMemory> {
    run_writing(
        alloc,
        &["solve", "i", "m", "p", "--conflicts", budget],
        instance,
        1_000,
        1_000_000,
    )
}

/// A run of `audit` over an instance and pairs.
pub fn audit(alloc: Global, instance: &[u8], pairs: &[u8]) -> Result<Ended, NoMemory> {
    run_over(alloc, &["audit", "i", "q"], instance, pairs)
}

/// A run of `verify` over an instance and a proof.
pub fn verify(alloc: Global, instance: &[u8], proof: &[u8]) -> Result<Ended, NoMemory> {
    run_over(alloc, &["verify", "i", "q"], instance, proof)
}

/// A run of `check` over a model and a proof.
pub fn check(alloc: Global, model: &[u8], proof: &[u8]) -> Result<Ended, NoMemory> {
    run_over(alloc, &["check", "i", "q"], model, proof)
}
