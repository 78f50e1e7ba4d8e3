// The text of a report.
ghost use Rattle.std.specs.Prelude.{◌≡◌, ◌++◌, [], codes, OnOk};
ghost use Rattle.proof_lines.specs.Texts.{bound_text};
ghost use Rattle.hrt_cli.specs.Reports.{count_line, instance_lines, line, names_line, pair_line, place_line, value_line};
ghost use Rattle.rank_tables.specs.Tables.{IsPairNo};

use hrt_base::{NoMemory, PairNo};
use itoa::Buffer;
use rank_tables::{Instance, Name};
use std::alloc::Global;
use std::marker::Model;

/// The text of a report, line by line.
#[derive(Drop)]
pub struct Report {
    text: Vec<u8>,
}

impl Model for Report {
    ghost use Rattle.std.specs.Prelude.{List, ℕ};

    ghost Value = { List ℕ };

    ghost view = { λ r. r.text.items };
}

impl Report {
    /// No line.
    pub fn new(alloc: Global) -> Report
        ensures { result ≡ [] }
    {
        Report {
            text: Vec::new(alloc),
        }
    }

    /// The bytes so far.
    pub fn as_bytes(&self) -> &[u8]
        ensures { result.now ≡ self.now }
    {
        &self.text
    }

    /// Adds bytes.
    pub fn push(&mut self, bytes: &[u8]) -> Result<(), NoMemory>
        ensures { OnOk result (self.new ≡ self.old ++ bytes.now) }
    {
        self.text.extend_from_slice(bytes)?;
        Ok(())
    }

    /// Adds a line.
    pub fn push_line(&mut self, text: &str) -> Result<(), NoMemory>
        ensures { OnOk result (self.new ≡ self.old ++ line text.now) }
    {
        self.push(text.as_bytes())?;
        self.push(b"\n")
    }

    /// Adds a line of a word and what is said of it.
    pub fn push_value(&mut self, word: &str, value: &str) -> Result<(), NoMemory>
        ensures { OnOk result (self.new ≡ self.old ++ value_line word.now value.now) }
    {
        self.push(word.as_bytes())?;
        self.push(b" ")?;
        self.push_line(value)
    }

    /// Adds a line of a word and a number.
    pub fn push_count(&mut self, word: &str, number: u32) -> Result<(), NoMemory>
        ensures { OnOk result (self.new ≡ self.old ++ count_line word.now number) }
    {
        let mut buffer = Buffer::new();
        self.push_value(word, buffer.format(number))
    }

    /// Adds a line of a word and a number, or another word where there is no number.
    pub fn push_number(
        &mut self,
        word: &str,
        number: Option<i128>,
        other: &str,
    ) -> Result<(), NoMemory>
        ensures { OnOk result (self.new ≡ self.old ++ value_line word.now (bound_text other.now number)) }
    {
        let Some(number) = number else {
            return self.push_value(word, other);
        };
        let mut buffer = Buffer::new();
        self.push_value(word, buffer.format(number))
    }

    /// Adds a number and what is there, to the end of the line.
    pub fn push_place(&mut self, number: u64, what: &str) -> Result<(), NoMemory>
        ensures { OnOk result (self.new ≡ self.old ++ place_line number what.now) }
    {
        let mut buffer = Buffer::new();
        self.push_value(buffer.format(number), what)
    }

    /// Adds the line that names a pair.
    #[tactic(auto, using(hrt_reader::proofs::PairsBack::pair_pieces))]
    pub fn push_pair(&mut self, inst: &Instance, pair: PairNo) -> Result<(), NoMemory>
        requires { IsPairNo inst.now pair.0 }
        ensures { OnOk result (self.new ≡ self.old ++ pair_line inst.now pair.0) }
    {
        self.push(b"pair ")?;
        self.push_names(inst, pair)
    }

    /// Adds the names of a pair, to the end of the line.
    pub fn push_names(&mut self, inst: &Instance, pair: PairNo) -> Result<(), NoMemory>
        requires { IsPairNo inst.now pair.0 }
        ensures { OnOk result (self.new ≡ self.old ++ names_line inst.now pair.0) }
    {
        self.push(inst.resident_name(inst.resident_of(pair)).bytes())?;
        self.push(b" ")?;
        self.push(inst.hospital_name(inst.hospital_of(pair)).bytes())?;
        self.push(b"\n")
    }

    /// Adds the lines that count what an instance has.
    pub fn push_instance(&mut self, inst: &Instance) -> Result<(), NoMemory>
        ensures { OnOk result (self.new ≡ self.old ++ instance_lines inst.now) }
    {
        self.push_count("residents", inst.residents())?;
        self.push_count("hospitals", inst.hospitals())?;
        self.push_count("pairs", inst.pairs())?;
        self.push_count("one-sided", inst.one_sided())
    }

    /// Adds the lines for a weakly stable matching of this size.
    pub fn push_stable(&mut self, size: u32) -> Result<(), NoMemory>
        ensures { OnOk result (self.new ≡ self.old ++ (line (codes "stable") ++ count_line (codes "size") size)) }
    {
        self.push_line("stable")?;
        self.push_count("size", size)
    }

    /// Adds a line that ends in a name.
    pub fn push_name(&mut self, before: &str, name: &Name) -> Result<(), NoMemory>
        ensures { OnOk result (self.new ≡ self.old ++ (before.now ++ line name.now)) }
    {
        self.push(before.as_bytes())?;
        self.push(name.bytes())?;
        self.push(b"\n")
    }

    /// Adds the line for a pair that blocks.
    pub fn push_blocked(&mut self, inst: &Instance, pair: PairNo) -> Result<(), NoMemory>
        requires { IsPairNo inst.now pair.0 }
        ensures { OnOk result (self.new ≡ self.old ++ (codes "blocked " ++ names_line inst.now pair.0)) }
    {
        self.push("blocked ".as_bytes())?;
        self.push_names(inst, pair)
    }
}
