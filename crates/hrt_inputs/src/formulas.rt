// Models from files.
ghost use Rattle.std.specs.Prelude.{◌≡◌, ◌≤◌, length, IfErr, IfOk, Ok};
ghost use Rattle.opb_text.specs.Limits.{IsWithinLimits};
ghost use Rattle.hrt_inputs.specs.declared.limit.Limit.TheVariants.{ModelBytes};
ghost use Rattle.hrt_inputs.specs.Inputs.{BeginsAtMost, IsAt, KeepsPorts};
ghost use Rattle.hrt_inputs.specs.Limits.{most};
ghost use Rattle.hrt_inputs.specs.Loading.{IsRead};
ghost use Rattle.hrt_inputs.specs.Formulas.{StopsModel, StopsModelText};
ghost use Rattle.hrt_inputs.specs.Taken.{formula_in};

use crate::input::{read_file, unread};
use crate::{Limit, Stop};
use hrt_base::{Begun, Host, Port};
use opb_text::{Formula, read_opb};
use std::alloc::Global;

/// The formula of the model in a file.
pub fn load_formula<H: Host>(alloc: Global, host: &mut H, name: &str) -> Result<Formula, Stop>
    requires { (H.world host.old).begun Port.Model ≡ Begun.Idle }
    ensures read { IfOk result (λ f. IsRead H.told Port.Model name.now formula_in f (H.world host.old) (H.world host.new)) }
    ensures within { IfOk result IsWithinLimits }
    ensures stopped { IfErr result (λ stop. StopsModel H.told name.now stop (H.world host.old) (H.world host.new)) }
    ensures begun { BeginsAtMost Port.Model (H.world host.old) (H.world host.new) }
    ensures others { KeepsPorts H.told (IsAt Port.Model) (H.world host.old) (H.world host.new) }
{
    match read_file(
        alloc,
        host,
        Port::Model,
        name,
        Limit::ModelBytes.most() as usize,
    ) {
        Ok(bytes) => formula_from(alloc, &bytes),
        Err(end) => Err(unread(end, Limit::ModelBytes)),
    }
}

// The formula that a text spells.
fn formula_from(alloc: Global, bytes: &[u8]) -> Result<Formula, Stop>
    requires { length bytes.now ≤ most ModelBytes }
    ensures formula { IfOk result (λ f. formula_in bytes.now ≡ Ok f) }
    ensures within { IfOk result IsWithinLimits }
    ensures stopped { IfErr result (StopsModelText (formula_in bytes.now)) }
{
    Ok(read_opb(alloc, bytes)?)
}
