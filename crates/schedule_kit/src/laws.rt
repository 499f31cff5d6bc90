//! What is true of every lawful history of a world.
ghost use Rattle.std.specs.Prelude.{◌≡◌, ◌<◌, ℕ, Bool, true, List, length};
ghost use Rattle.attr_kit.specs.Exact.{IsExact};
ghost use Rattle.std.specs.Cmp.{IsTotalOrder};
ghost use Rattle.std.specs.FinMap.{IsAntisymmetric, get};
ghost use Rattle.std.specs.declared.cmp.Ordering.{Ordering};
ghost use Rattle.schedule_kit.specs.Deeds.{Deed, Holder, AreLawful, IsTold, TookSame};
ghost use Rattle.schedule_kit.specs.Mixed.{AreMixed};
ghost use Rattle.schedule_kit.specs.Rounds.{Rounding, IsSound, HasNoConflict, part_at, state};
ghost use Rattle.schedule_kit.specs.Rows.{IsAdded, rollup, recorded, values_fed, keys_fed};
ghost use Rattle.schedule_kit.specs.Taken.{taken_collections, newest, recorded_up_to, incarnations};
ghost use Rattle.schedule_kit.specs.Totals.{IsSum, total};

/// Gateways that took the same exports, in any order and with repeats, hold one state.
#[tactic(auto, using(crate::proofs::Headline::same_state))]
pub fn same_exports_give_one_state<N, K, I, X, P>()
    ensures same { (r : Rounding N K I X P) → IsSound r → (starts : List ℕ) (ds : List (Deed N)) (g h : Holder) → TookSame ds g h
        → state r (taken_collections starts ds g) ≡ state r (taken_collections starts ds h) }
{}

/// Where no two writers share an identity, no conflict stands at a gateway, and what stands of an incarnation is its
/// newest collection that the gateway took, or nothing.
#[tactic(auto, using(crate::proofs::Headline::no_conflict, crate::proofs::Headline::part_is_newest))]
pub fn parts_are_newest_collections<N, K, I, X, P>()
    ensures no_conflict { (r : Rounding N K I X P) → IsSound r → (fits : ℕ → List N → N → Bool) (starts : List ℕ) (gateways : ℕ)
        → IsTold r.who starts → (ds : List (Deed N)) → AreLawful fits starts gateways ds
        → (h : Holder) (k : K) → HasNoConflict (get (state r (taken_collections starts ds h)) k) }
    ensures part { (r : Rounding N K I X P) → IsSound r → (fits : ℕ → List N → N → Bool) (starts : List ℕ) (gateways : ℕ)
        → IsTold r.who starts → (ds : List (Deed N)) → AreLawful fits starts gateways ds
        → (h : Holder) (w start : ℕ) → w < length starts → (x : X)
        → get (state r (taken_collections starts ds h)) (r.key (r.who w) start x)
        ≡ part_at r (newest (taken_collections starts ds h) w start) x }
{}

/// Where no two writers share an identity, the roll-up of a gateway's state is that of what the writers recorded in each
/// incarnation up to its newest collection that the gateway took, each value added up by itself.
#[tactic(auto, using(crate::proofs::Headline::answers_recorded))]
pub fn roll_ups_are_recorded<N, K, I, X, P, V, G>()
    ensures exact { (r : Rounding N K I X P) → IsSound r → (fits : ℕ → List N → N → Bool) (starts : List ℕ) (gateways : ℕ)
        → IsTold r.who starts → (ds : List (Deed N)) → AreLawful fits starts gateways ds → (h : Holder)
        → (zero : V) (plus : V → V → V) (reads : P → V) (fed : ℕ → List N → List (X × V))
        → (Rg : G → G → Ordering) → IsTotalOrder Rg → IsAntisymmetric Rg
        → (asks : K → Bool) (group : K → G) → IsAdded r zero plus reads fed asks
        → rollup Rg zero plus asks group reads (state r (taken_collections starts ds h))
        ≡ recorded Rg zero plus asks group
        (values_fed r (recorded_up_to starts ds h) (incarnations starts ds) fed)
        (keys_fed r (recorded_up_to starts ds h) (incarnations starts ds)) }
{}

/// Lists with the same elements, each as often, come to the same totals, in whatever order they stand.
#[tactic(auto, using(crate::proofs::Mixed::totals_mixed))]
pub fn mixed_lists_add_up<A, V>()
    ensures totals { (eq : A → A → Bool) → IsExact eq → ((x : A) → eq x x ≡ true) → (zero : V) (plus : V → V → V) → IsSum zero plus
        → (f : A → V) (xs ys : List A) → AreMixed xs ys → total zero plus f xs ≡ total zero plus f ys }
{}
