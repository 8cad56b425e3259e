// The held members, two tables: of their ids and of their bonds.
ghost use Rattle.std.specs.Prelude.{◌≡◌, ◌&&◌, eqb, ltb, leb, length, get_or};
ghost use Rattle.model.specs.Limits.{bond_limit};
ghost use Rattle.model.specs.Lists.{any_below, all_below, pair_below};

use model::MAX_BOND;

// Whether each of the bonds is at least 1 and at most the limit.
pub fn bonds_in_range(bonds: &[u64]) -> bool
    ensures { result
        ≡ all_below (length bonds.now) (λ i. ltb 0 (get_or bonds.now i 0) && leb (get_or bonds.now i 0) bond_limit) }
{
    bonds.iter().all(|bond| (0 < *bond) & (*bond <= MAX_BOND))
}

// Whether `id` is among the ids. Every id is looked at: many are then compared at once.
pub fn id_held(ids: &[u16], id: u16) -> bool
    ensures { result ≡ any_below (length ids.now) (λ i. eqb (get_or ids.now i 0) id) }
{
    let mut hit = false;
    for held in ids {
        hit |= *held == id;
    }
    hit
}

// Whether some id stands twice among the ids: each is looked for among those before it.
pub fn ids_twice(ids: &[u16]) -> bool
    ensures { result ≡ pair_below (length ids.now) (λ i j. eqb (get_or ids.now i 0) (get_or ids.now j 0)) }
{
    let mut hit = false;
    for (j, id) in ids.iter().enumerate() {
        hit |= id_held(&ids[..j], *id);
    }
    hit
}
