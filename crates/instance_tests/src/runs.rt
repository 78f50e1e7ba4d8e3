//! Runs over a host in memory.
use hrt_base::{NoMemory, Port};
use hrt_cli::run;
use hrt_host::MemoryHost;
use std::alloc::Global;

/// How a run ended.
#[derive(Drop)]
pub struct Ended {
    pub code: u8,
    pub host: MemoryHost,
}

/// A file by its name.
pub type File<'a> = (&'a str, &'a [u8]);

/// A run of these words over two files, with room for the report and for the files `m` and `p`.
pub fn run_over(
    alloc: Global,
    texts: &[&str],
    first: File,
    second: File,
) -> Result<Ended, NoMemory> {
    let mut host = MemoryHost::new(alloc);
    host.put_file(first.0, first.1)?;
    host.put_file(second.0, second.1)?;
    host.give_room(Port::Report, "", 10_000)?;
    host.give_room(Port::Model, "m", 10_000)?;
    host.give_room(Port::Proof, "p", 100_000)?;
    let mut words = Vec::new(alloc);
    for text in texts {
        words.push(String::from_str(alloc, text)?)?;
    }
    let code = run(alloc, &words, &mut host);
    Ok(Ended { code, host })
}
