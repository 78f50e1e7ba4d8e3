//! Writing an instance in its canonical spelling.

ghost use Rattle.std.specs.Prelude.{◌≡◌, ◌<◌, ◌++◌, ◌∷◌, [], IsTrue, codes, flat_map, length, OnOk, OnErr};
ghost use Rattle.std.specs.List.{concat, list_all};
ghost use Rattle.hrt_base.specs.Calls.{Sent, SentPart};
ghost use Rattle.rank_tables.specs.WellFormed.{IsWellFormed, names_of_hospitals, names_of_residents};
ghost use Rattle.hrt_reader.specs.Accepted.{Spells};
ghost use Rattle.hrt_reader.specs.Spelling.{group_text, hospital_text, items_text, name_at, resident_text, spelling};
ghost use Rattle.hrt_reader.specs.Written.{is_number, line_of_hospital, line_of_resident, names_of, spaced};

use crate::pieces::{Side, name_of, write_pieces};
use hrt_base::{Begun, Failed, Host, Port, write_all};
use itoa::Buffer;
use rank_tables::{Groups, Instance};

// Names, each after a space.
fn write_spaced<H: Host>(
    instance: &Instance,
    side: Side,
    numbers: &[u32],
    host: &mut H,
) -> Result<(), Failed>
    requires begun { (H.world host.old).begun Port.Instance ≡ Begun.Writing }
    requires numbers { IsTrue (list_all (is_number (names_of side instance.now)) numbers.now) }
    ensures sent { OnOk result (Sent H.told Port.Instance (flat_map (spaced (names_of side instance.now)) numbers.now) (H.world host.old) (H.world host.new)) }
    ensures failed { OnErr result (SentPart H.told Port.Instance (flat_map (spaced (names_of side instance.now)) numbers.now) (H.world host.old) (H.world host.new)) }
{
    for number in numbers {
        let name = name_of(instance, side, *number);
        write_pieces(host, Port::Instance, &[b" ".as_slice(), name])?;
    }
    Ok(())
}

// A group; one of several names has parentheses.
fn write_group<H: Host>(
    instance: &Instance,
    side: Side,
    group: &[u32],
    host: &mut H,
) -> Result<(), Failed>
    requires begun { (H.world host.old).begun Port.Instance ≡ Begun.Writing }
    requires numbers { IsTrue (list_all (is_number (names_of side instance.now)) group.now) }
    ensures sent { OnOk result (Sent H.told Port.Instance (group_text (names_of side instance.now) group.now) (H.world host.old) (H.world host.new)) }
    ensures failed { OnErr result (SentPart H.told Port.Instance (group_text (names_of side instance.now) group.now) (H.world host.old) (H.world host.new)) }
{
    match group {
        [] => Ok(()),
        [_] => write_spaced(instance, side, group, host),
        [first, others @ ..] => write_tie(instance, side, *first, others, host),
    }
}

// Several names in parentheses.
fn write_tie<H: Host>(
    instance: &Instance,
    side: Side,
    first: u32,
    others: &[u32],
    host: &mut H,
) -> Result<(), Failed>
    requires begun { (H.world host.old).begun Port.Instance ≡ Begun.Writing }
    requires first { first < length (names_of side instance.now) }
    requires others { IsTrue (list_all (is_number (names_of side instance.now)) others.now) }
    ensures sent { OnOk result (Sent H.told Port.Instance (codes " (" ++ (name_at (names_of side instance.now) first ++ (flat_map (spaced (names_of side instance.now)) others.now ++ codes ")"))) (H.world host.old) (H.world host.new)) }
    ensures failed { OnErr result (SentPart H.told Port.Instance (codes " (" ++ (name_at (names_of side instance.now) first ++ (flat_map (spaced (names_of side instance.now)) others.now ++ codes ")"))) (H.world host.old) (H.world host.new)) }
{
    let name = name_of(instance, side, first);
    write_pieces(host, Port::Instance, &[b" (".as_slice(), name])?;
    write_spaced(instance, side, others, host)?;
    write_all(host, Port::Instance, b")")
}

// A list.
fn write_items<H: Host>(
    instance: &Instance,
    side: Side,
    groups: &Groups,
    host: &mut H,
) -> Result<(), Failed>
    requires begun { (H.world host.old).begun Port.Instance ≡ Begun.Writing }
    requires numbers { IsTrue (list_all (is_number (names_of side instance.now)) (concat groups.now)) }
    ensures sent { OnOk result (Sent H.told Port.Instance (items_text (names_of side instance.now) groups.now) (H.world host.old) (H.world host.new)) }
    ensures failed { OnErr result (SentPart H.told Port.Instance (items_text (names_of side instance.now) groups.now) (H.world host.old) (H.world host.new)) }
{
    for k in 0..groups.count() {
        write_group(instance, side, groups.group(k), host)?;
    }
    Ok(())
}

// The line of resident r.
fn write_resident<H: Host>(instance: &Instance, r: u32, host: &mut H) -> Result<(), Failed>
    requires begun { (H.world host.old).begun Port.Instance ≡ Begun.Writing }
    requires declared { r < length instance.now.residents }
    requires well_formed { IsWellFormed instance.now }
    ensures sent { OnOk result (Sent H.told Port.Instance (line_of_resident instance.now r) (H.world host.old) (H.world host.new)) }
    ensures failed { OnErr result (SentPart H.told Port.Instance (line_of_resident instance.now r) (H.world host.old) (H.world host.new)) }
{
    let name = instance.resident_name(r).bytes();
    write_pieces(
        host,
        Port::Instance,
        &[b"resident ".as_slice(), name, b":".as_slice()],
    )?;
    write_items(instance, Side::Hospitals, instance.resident_list(r), host)?;
    write_all(host, Port::Instance, b"\n")
}

// The line of hospital h.
fn write_hospital<H: Host>(instance: &Instance, h: u32, host: &mut H) -> Result<(), Failed>
    requires begun { (H.world host.old).begun Port.Instance ≡ Begun.Writing }
    requires declared { h < length instance.now.hospitals }
    requires well_formed { IsWellFormed instance.now }
    ensures sent { OnOk result (Sent H.told Port.Instance (line_of_hospital instance.now h) (H.world host.old) (H.world host.new)) }
    ensures failed { OnErr result (SentPart H.told Port.Instance (line_of_hospital instance.now h) (H.world host.old) (H.world host.new)) }
{
    let name = instance.hospital_name(h).bytes();
    let mut buffer = Buffer::new();
    let capacity = buffer.format(instance.capacity(h)).as_bytes();
    write_pieces(
        host,
        Port::Instance,
        &[
            b"hospital ".as_slice(),
            name,
            b" ".as_slice(),
            capacity,
            b":".as_slice(),
        ],
    )?;
    write_items(instance, Side::Residents, instance.hospital_list(h), host)?;
    write_all(host, Port::Instance, b"\n")
}

// The lines of all residents.
fn write_residents<H: Host>(instance: &Instance, count: u32, host: &mut H) -> Result<(), Failed>
    requires begun { (H.world host.old).begun Port.Instance ≡ Begun.Writing }
    requires count { count ≡ length instance.now.residents }
    requires well_formed { IsWellFormed instance.now }
    ensures sent { OnOk result (Sent H.told Port.Instance (flat_map (λ r. resident_text (names_of_hospitals instance.now) r ++ 10 ∷ []) instance.now.residents) (H.world host.old) (H.world host.new)) }
    ensures failed { OnErr result (SentPart H.told Port.Instance (flat_map (λ r. resident_text (names_of_hospitals instance.now) r ++ 10 ∷ []) instance.now.residents) (H.world host.old) (H.world host.new)) }
{
    for r in 0..count {
        write_resident(instance, r, host)?;
    }
    Ok(())
}

// The lines of all hospitals.
fn write_hospitals<H: Host>(instance: &Instance, count: u32, host: &mut H) -> Result<(), Failed>
    requires begun { (H.world host.old).begun Port.Instance ≡ Begun.Writing }
    requires count { count ≡ length instance.now.hospitals }
    requires well_formed { IsWellFormed instance.now }
    ensures sent { OnOk result (Sent H.told Port.Instance (flat_map (λ h. hospital_text (names_of_residents instance.now) h ++ 10 ∷ []) instance.now.hospitals) (H.world host.old) (H.world host.new)) }
    ensures failed { OnErr result (SentPart H.told Port.Instance (flat_map (λ h. hospital_text (names_of_residents instance.now) h ++ 10 ∷ []) instance.now.hospitals) (H.world host.old) (H.world host.new)) }
{
    for h in 0..count {
        write_hospital(instance, h, host)?;
    }
    Ok(())
}

/// Writes the canonical spelling on `Port::Instance`. After `Failed` a prefix of it was sent.
pub fn write_instance<H: Host>(inst: &Instance, host: &mut H) -> Result<(), Failed>
    requires { (H.world host.old).begun Port.Instance ≡ Begun.Writing }
    ensures sent { OnOk result (Sent H.told Port.Instance (spelling inst.now) (H.world host.old) (H.world host.new)) }
    ensures failed { OnErr result (SentPart H.told Port.Instance (spelling inst.now) (H.world host.old) (H.world host.new)) }
    ensures read_back { Spells (spelling inst.now) inst.now }
{
    let residents = inst.residents();
    let hospitals = inst.hospitals();
    write_all(host, Port::Instance, b"hrt 1\n")?;
    write_residents(inst, residents, host)?;
    write_hospitals(inst, hospitals, host)?;
    write_all(host, Port::Instance, b"end\n")
}
