// A whole run.
ghost use Rattle.std.specs.Prelude.{◌≡◌, ◌⊎◌, ◌==◌, ℕ, List, true, IfOk, IfErr, OnOk, OnErr, Some, None};
ghost use Rattle.hrt_base.specs.declared.port.Port.{Port};
ghost use Rattle.hrt_base.specs.Calls.{AtStart, NoFault, Rose, SentPart};
ghost use Rattle.hrt_solve.specs.Writing.{SentWhole};
ghost use Rattle.hrt_cli.specs.Answers.{IsCutShort, LeavesFronts, SendsNothing, Serves};
ghost use Rattle.hrt_cli.specs.Ports.{KeepsOtherPorts, ReadsInputs, WritesOutputs};
ghost use Rattle.hrt_cli.specs.Requests.{asked_by, audit, bound, check, model, quick, request_of, solve, texts_of, verify};
ghost use Rattle.hrt_cli.specs.Runs.{EndsAs, Finishes, IsComplete, IsDecided, IsDue, KeepsFiles, KeepsOtherFiles, PrintsAudit, PrintsBest, PrintsBound, PrintsClaim, PrintsMet, PrintsOpen, PrintsSizes, PrintsSpent, Settles, WritesModel, has_report, is_code_of, keeps_files};

use crate::auditing::audit;
use crate::checking::check;
use crate::modeling::model;
use crate::proving::{bound, quick, solve};
use crate::verifying::verify;
use crate::{Answer, Command, Ended, Status, command_of, exit_code};
use hrt_base::{Begun, Failed, Host, Port, write_all};
use std::alloc::Global;

/// Does what the words ask for, and answers the code with which the program exits: 0 done, 2 words not understood,
/// 3 instance refused, 4 a read failed, 5 a write failed, 6 out of memory, 7 a limit passed, 8 model or proof refused, 9 not
/// weakly stable, 10 shorter than the ceiling, 12 pairs refused.
#[tactic(auto, using(crate::proofs::Codes::misused_code, crate::proofs::Codes::understood_code, crate::proofs::Codes::read_fault, crate::proofs::Codes::after_read_fault, crate::proofs::Codes::no_output_begun, crate::proofs::Codes::write_fault, crate::proofs::Codes::after_write_fault, crate::proofs::Codes::after_no_memory, crate::proofs::Codes::closed, crate::proofs::Codes::no_fault, crate::proofs::Codes::files_kept, crate::proofs::Codes::others_kept, crate::proofs::Codes::known))]
pub fn run<H: Host>(alloc: Global, words: &[String], host: &mut H) -> u8
    requires { AtStart H.told (H.world host.old) }
    ensures best { H.told → result ≡ 0 → (instance model proof : List ℕ) (budget : ℕ) → request_of (texts_of words.now) ≡ Some (solve instance model proof budget) → PrintsBest instance model proof budget (H.world host.old).content (H.world host.new).content }
    ensures spent { H.told → result ≡ 10 → (instance model proof : List ℕ) (budget : ℕ) → request_of (texts_of words.now) ≡ Some (solve instance model proof budget) → PrintsSpent instance model proof budget (H.world host.old).content (H.world host.new).content }
    ensures audited { H.told → (result ≡ 0) ⊎ (result ≡ 9) → (instance pairs : List ℕ) → request_of (texts_of words.now) ≡ Some (audit instance pairs) → PrintsAudit instance pairs (result == 0) (H.world host.old).content (H.world host.new).content }
    ensures model { H.told → result ≡ 0 → (instance file : List ℕ) → request_of (texts_of words.now) ≡ Some (model instance file) → WritesModel instance file (H.world host.old).content (H.world host.new).content }
    ensures sizes { H.told → result ≡ 0 → (instance proof : List ℕ) → request_of (texts_of words.now) ≡ Some (verify instance proof) → PrintsSizes instance (H.world host.old).content (H.world host.new).content }
    ensures claim { H.told → result ≡ 0 → (model proof : List ℕ) → request_of (texts_of words.now) ≡ Some (check model proof) → PrintsClaim model (H.world host.old).content (H.world host.new).content }
    ensures bound { H.told → result ≡ 0 → (instance model proof : List ℕ) → request_of (texts_of words.now) ≡ Some (bound instance model proof) → PrintsBound instance model proof (H.world host.old).content (H.world host.new).content }
    ensures met { H.told → result ≡ 0 → (instance model proof : List ℕ) → request_of (texts_of words.now) ≡ Some (quick instance model proof) → PrintsMet instance model proof (H.world host.old).content (H.world host.new).content }
    ensures bounded { H.told → result ≡ 10 → (instance model proof : List ℕ) → request_of (texts_of words.now) ≡ Some (quick instance model proof) → PrintsOpen instance model proof (H.world host.old).content (H.world host.new).content }
    ensures misused { result ≡ 2 → request_of (texts_of words.now) ≡ None }
    ensures understood { request_of (texts_of words.now) ≡ None → (result ≡ 2) ⊎ (result ≡ 5) }
    ensures decided { H.told → has_report result ≡ true → IsDecided (request_of (texts_of words.now)) result (H.world host.old) (H.world host.new) }
    ensures due { H.told → IsDue (request_of (texts_of words.now)) result (H.world host.old) (H.world host.new) }
    ensures complete { H.told → IsComplete (request_of (texts_of words.now)) result (H.world host.old) (H.world host.new) }
    ensures finishes { H.told → Finishes (request_of (texts_of words.now)) result (H.world host.old) (H.world host.new) }
    ensures settles { H.told → (instance model proof : List ℕ) (budget : ℕ) → request_of (texts_of words.now) ≡ Some (solve instance model proof budget) → Settles instance budget result (H.world host.old) (H.world host.new) }
    ensures read_fault { result ≡ 4 → Rose (H.world host.old).read_faults (H.world host.new).read_faults }
    ensures no_output_begun { result ≡ 4 → (port : Port) → (H.world host.new).begun port ≡ Begun.Writing → port ≡ Port.Report }
    ensures after_read_fault { H.told → result ≡ 4 → SendsNothing (H.world host.old).content (H.world host.new).content }
    ensures write_fault { result ≡ 5 → Rose (H.world host.old).write_faults (H.world host.new).write_faults }
    ensures after_write_fault { H.told → result ≡ 5 → IsCutShort (request_of (texts_of words.now)) (H.world host.old) (H.world host.new) }
    ensures after_no_memory { H.told → result ≡ 6 → LeavesFronts (request_of (texts_of words.now)) (H.world host.old).content (H.world host.new).content }
    ensures no_fault { has_report result ≡ true → NoFault (H.world host.old) (H.world host.new) }
    ensures closed { has_report result ≡ true → (port : Port) → (H.world host.new).begun port ≡ Begun.Writing → ⊥ }
    ensures inputs { ReadsInputs H.told (request_of (texts_of words.now)) (H.world host.old) (H.world host.new) }
    ensures outputs { WritesOutputs H.told (request_of (texts_of words.now)) (H.world host.old) (H.world host.new) }
    ensures others { KeepsOtherPorts H.told (request_of (texts_of words.now)) (H.world host.old) (H.world host.new) }
    ensures files { H.told → KeepsOtherFiles (request_of (texts_of words.now)) (H.world host.old).content (H.world host.new).content }
    ensures files_kept { H.told → keeps_files result ≡ true → KeepsFiles (H.world host.old).content (H.world host.new).content }
    ensures known { is_code_of (request_of (texts_of words.now)) result ≡ true }
{
    exit_code(carry_out(alloc, words, host))
}

// Does what the words ask for, and tells how it ended.
#[tactic(auto, using(crate::proofs::BegunPorts::at_start_reads, crate::proofs::BegunPorts::at_start_writes, crate::proofs::BegunPorts::sent_whole_reads, crate::proofs::BegunPorts::sent_whole_writes, crate::proofs::BegunPorts::sent_part_reads, crate::proofs::BegunPorts::sent_part_writes, crate::proofs::OtherPorts::nothing_done_keeps, crate::proofs::OtherPorts::report_sent_keeps, crate::proofs::OtherPorts::report_part_keeps))]
fn carry_out<H: Host>(alloc: Global, words: &[String], host: &mut H) -> Result<Status, Ended>
    requires { AtStart H.told (H.world host.old) }
    ensures ends { EndsAs H.told (request_of (texts_of words.now)) result (H.world host.old) (H.world host.new) }
    ensures inputs { ReadsInputs H.told (request_of (texts_of words.now)) (H.world host.old) (H.world host.new) }
    ensures outputs { WritesOutputs H.told (request_of (texts_of words.now)) (H.world host.old) (H.world host.new) }
    ensures others { KeepsOtherPorts H.told (request_of (texts_of words.now)) (H.world host.old) (H.world host.new) }
{
    let Some(command) = command_of(words) else {
        return match send(host, b"words not understood\n") {
            Ok(()) => Ok(Status::Misused),
            Err(Failed) => Err(Ended::WriteFault),
        };
    };
    match answer_to(alloc, host, command) {
        Ok(answer) => match send(host, answer.report.as_bytes()) {
            Ok(()) => Ok(answer.status),
            Err(Failed) => Err(Ended::WriteFault),
        },
        Err(why) => Err(why),
    }
}

// The answer to a command.
fn answer_to<H: Host>(alloc: Global, host: &mut H, command: Command) -> Result<Answer, Ended>
    requires { AtStart H.told (H.world host.old) }
    ensures { Serves H.told (Some (asked_by command.entry)) result (H.world host.old) (H.world host.new) }
{
    match command {
        Command::Solve(instance, model, proof, budget) => {
            solve(alloc, host, instance, model, proof, budget)
        }
        Command::Audit(instance, pairs) => audit(alloc, host, instance, pairs),
        Command::Model(instance, file) => model(alloc, host, instance, file),
        Command::Verify(instance, proof) => verify(alloc, host, instance, proof),
        Command::Check(model, proof) => check(alloc, host, model, proof),
        Command::Bound(instance, model, proof) => bound(alloc, host, instance, model, proof),
        Command::Quick(instance, model, proof) => quick(alloc, host, instance, model, proof),
    }
}

// Writes the report and seals it.
#[tactic(auto, using(hrt_base::proofs::Pieces::sent_failed))]
fn send<H: Host>(host: &mut H, text: &[u8]) -> Result<(), Failed>
    requires { (H.world host.old).begun Port.Report ≡ Begun.Writing }
    ensures sent { OnOk result (SentWhole H.told Port.Report text.now (H.world host.old) (H.world host.new)) }
    ensures failed { OnErr result (SentPart H.told Port.Report text.now (H.world host.old) (H.world host.new)) }
{
    write_all(host, Port::Report, text)?;
    host.seal(Port::Report)?;
    Ok(())
}
