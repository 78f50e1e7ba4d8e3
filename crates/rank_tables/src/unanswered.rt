// How many namings aren't answered.
ghost use Rattle.std.specs.Prelude.{◌≡◌, ◌*◌, ◌-◌, ◌^◌, ◌<◌, ◌≤◌, ℕ, length, sum_by, IsTrue};
ghost use Rattle.std.specs.List.{concat, list_all};
ghost use Rattle.rank_tables.specs.Numbers.{below};
ghost use Rattle.rank_tables.specs.WellFormed.{is_list, most_residents, most_hospitals};
ghost use Rattle.rank_tables.specs.Building.{row_at, resident_groups, hospital_groups};

use crate::{DraftHospital, DraftResident, Groups};
use hrt_base::PairNo;

// How many hospitals all residents name together.
pub fn named_hospitals(residents: &[DraftResident], hospitals: usize) -> usize
    requires few_residents { length residents.now ≤ most_residents }
    requires few_hospitals { hospitals ≤ most_hospitals }
    requires lists { IsTrue (list_all (λ resident. is_list hospitals resident.groups) residents.now) }
    ensures value { result ≡ sum_by (λ r. length (concat (resident_groups residents.now r))) (below (length residents.now)) }
    ensures few { result ≤ most_residents * most_hospitals }
{
    let mut count = 0;
    for resident in residents {
        count += named(&resident.groups);
    }
    count
}

// How many residents hospitals name without being named by them: those of each list that made no pair.
pub fn silent_residents(
    hospitals: &[DraftHospital],
    residents: usize,
    pairs: &[Vec<PairNo>],
) -> usize
    requires few_hospitals { length hospitals.now ≤ most_hospitals }
    requires few_residents { residents ≤ most_residents }
    requires lists { IsTrue (list_all (λ hospital. is_list residents hospital.groups) hospitals.now) }
    requires count { length pairs.now ≡ length hospitals.now }
    requires part { (h : ℕ) → h < length hospitals.now → length (row_at pairs.now h) ≤ length (concat (hospital_groups hospitals.now h)) }
    ensures value { result ≡ sum_by (λ h. length (concat (hospital_groups hospitals.now h)) - length (row_at pairs.now h)) (below (length hospitals.now)) }
    ensures few { result ≤ most_hospitals * most_residents }
{
    let mut count = 0;
    for (h, hospital) in hospitals.iter().enumerate() {
        count += named(&hospital.groups) - pairs[h].len();
    }
    count
}

// How many numbers a list holds.
fn named(groups: &Groups) -> usize
    requires { length (concat groups.now) < 2 ^ 32 }
    ensures { result ≡ length (concat groups.now) }
{
    let mut count = 0;
    for k in 0..groups.count() {
        count += groups.group(k).len();
    }
    count
}
