//! Loads at candidates of small instances.
ghost use Rattle.std.specs.Prelude.{◌≡◌, ◌<◌, length};

use crate::notes::{instance_in, last_note};
use crate::searches::{choose, first_engine, load_broken};
use derivation::Derivation;
use hrt_base::{PairNo, RowNo, Steps};
use lazy_stability::starts_hold_first;
use proof_lines::Note;
use stability_model::Model;
use std::alloc::Global;
use std::marker::Brand;
use std::process::Abort;
use std::sync::ledger::{Blank, Ledger};
use std::test::Fail;

// Loads at the candidate of the wanted pairs, as far as these can be taken: answers how many pairs are written, and the last note.
fn load_at<L: Ledger>(
    alloc: Global,
    blank: Blank,
    text: &[u8],
    wanted: &[u32],
    out: &mut [PairNo],
) -> Result<(usize, Option<Note>), Fail>
    requires name { blank.name ≡ L.name }
    requires parts { blank.parts ≡ L.parts }
    requires one { blank.parts ≡ 1 }
    requires room { 0 < length out.old }
{
    let inst = instance_in(alloc, text)?;
    if inst.pairs() == 0 {
        return Err(Fail::from("there are pairs"));
    }
    let mut steps = Steps::<L>::open(blank);
    let model = Model::of(alloc, &inst)?;
    let mut deriv = Derivation::new(alloc, &model)?;
    let mut engine = first_engine(alloc, &model, &deriv)?;
    if !choose(&mut engine, &mut steps, wanted) {
        return Err(Fail::from("the candidate stands"));
    }
    starts_hold_first();
    let count = load_broken(alloc, &model, &mut engine, &mut deriv, out)?;
    let note = last_note(alloc, &deriv)?;
    Ok((count, note))
}

// Pairs are 1 a x, 2 a y, 3 a z, 4 b x, 5 b y, 6 c x; rows are 1 to 3 of residents, 4 to 6 of hospitals, 7 to 12 of pairs.
const THREE: &[u8] =
    b"hrt 1\nresident a: (x y) z\nresident b: (x y)\nresident c: x\nhospital x 1: (a b) c\nhospital y 1: (a b)\nhospital z 1: a\nend\n";

// Five residents who like thirteen hospitals alike: 65 pairs.
const CROWD: &[u8] =
    b"hrt 1\nresident a: (A B C D E F G H I J K L M)\nresident b: (A B C D E F G H I J K L M)\nresident c: (A B C D E F G H I J K L M)\nresident d: (A B C D E F G H I J K L M)\nresident e: (A B C D E F G H I J K L M)\nhospital A 1: (a b c d e)\nhospital B 1: (a b c d e)\nhospital C 1: (a b c d e)\nhospital D 1: (a b c d e)\nhospital E 1: (a b c d e)\nhospital F 1: (a b c d e)\nhospital G 1: (a b c d e)\nhospital H 1: (a b c d e)\nhospital I 1: (a b c d e)\nhospital J 1: (a b c d e)\nhospital K 1: (a b c d e)\nhospital L 1: (a b c d e)\nhospital M 1: (a b c d e)\nend\n";

// Two residents and a hospital without posts, and another with one.
const CLOSED: &[u8] =
    b"hrt 1\nresident a: x y\nresident b: x\nhospital x 0: a b\nhospital y 1: a\nend\n";

// The note names these variables, and rows one after another from the first one on.
fn check_note(rt: &impl Abort, note: Option<Note>, trues: &[u32], first: u64, count: usize) {
    let Some(Note::Load { trues: read, rows }) = note else {
        assert!(rt; false, "there is a load note");
        return;
    };
    assert_eq!(rt; read.as_slice(), trues);
    assert_eq!(rt; rows.as_slice().len(), count);
    let mut number = first;
    for row in rows.as_slice() {
        assert_eq!(rt; *row, RowNo(number));
        number = number.saturating_add(1);
    }
}

#[test]
fn the_only_load_names_row_seven(rt: HostRuntime) -> Result<(), Fail> {
    let mut out = [PairNo(0); 64];
    let (count, note) = load_at::<Brand>(rt.alloc(), Blank::new(1), THREE, &[3, 5, 6], &mut out)?;
    assert_eq!(rt; count, 1);
    assert_eq!(rt; out[0], PairNo(1));
    check_note(&rt, note, &[3, 5, 6], 7, 1);
    Ok(())
}

#[test]
fn a_stable_matching_loads_nothing(rt: HostRuntime) -> Result<(), Fail> {
    let mut out = [PairNo(0); 64];
    let (count, note) = load_at::<Brand>(rt.alloc(), Blank::new(1), THREE, &[1, 5], &mut out)?;
    assert_eq!(rt; count, 0);
    assert!(rt; note.is_none());
    Ok(())
}

#[test]
fn the_least_that_fit_are_loaded(rt: HostRuntime) -> Result<(), Fail> {
    let mut out = [PairNo(0); 64];
    let (count, note) = load_at::<Brand>(rt.alloc(), Blank::new(1), CROWD, &[], &mut out)?;
    assert_eq!(rt; count, 64);
    assert_eq!(rt; out[0], PairNo(1));
    assert_eq!(rt; out[63], PairNo(64));
    check_note(&rt, note, &[], 19, 64);
    Ok(())
}

#[test]
fn with_room_all_are_loaded(rt: HostRuntime) -> Result<(), Fail> {
    let mut out = [PairNo(0); 66];
    let (count, note) = load_at::<Brand>(rt.alloc(), Blank::new(1), CROWD, &[], &mut out)?;
    assert_eq!(rt; count, 65);
    assert_eq!(rt; out[64], PairNo(65));
    assert_eq!(rt; out[65], PairNo(0));
    check_note(&rt, note, &[], 19, 65);
    Ok(())
}

#[test]
fn no_pair_of_a_hospital_without_posts_blocks(rt: HostRuntime) -> Result<(), Fail> {
    let mut out = [PairNo(0); 64];
    let (count, note) = load_at::<Brand>(rt.alloc(), Blank::new(1), CLOSED, &[], &mut out)?;
    assert_eq!(rt; count, 1);
    assert_eq!(rt; out[0], PairNo(2));
    check_note(&rt, note, &[], 6, 1);
    Ok(())
}
