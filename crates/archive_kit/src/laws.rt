//! What is true of states that do not show what their tombstones name, and of archives.
ghost use Rattle.std.specs.Prelude.{◌≡◌, ℕ, ◌+◌, ◌+ℤ◌, Bool, true, false, not, cond, pos, List, [], ◌∷◌, ◌++◌, filter, map, Option, Some};
ghost use Rattle.std.specs.List.{filter_map, list_any};
ghost use Rattle.std.specs.Cmp.{IsTotalOrder, IsEquivalence};
ghost use Rattle.std.specs.FinMap.{FinMap, IsAntisymmetric, get, retain_keys};
ghost use Rattle.std.specs.declared.cmp.Ordering.{Ordering};
ghost use Rattle.attr_kit.specs.Exact.{IsExact};
ghost use Rattle.attr_kit.specs.declared.attr_set.AttrSet.{AttrSet};
ghost use Rattle.gateway_kit.specs.Keys.{ItemKey};
ghost use Rattle.point_kit.specs.Exports.{Points, join_points};
ghost use Rattle.point_kit.specs.Join.{IsCommutative, IsAssociative, IsIdempotent};
ghost use Rattle.point_kit.specs.Payload as sound;
ghost use Rattle.point_kit.specs.States.{join_maps};
ghost use Rattle.point_kit.specs.declared.cell.Cell.{Cell};
ghost use Rattle.point_kit.specs.declared.key.Key.{Key};
ghost use Rattle.point_kit.specs.declared.payload.Payload.{Payload};
ghost use Rattle.point_kit.specs.declared.shape.Shape.{Shape};
ghost use Rattle.point_kit.specs.declared.stream.Stream.{Stream};
ghost use Rattle.point_kit.specs.declared.writer_id.WriterId.{WriterId};
ghost use Rattle.schedule_kit.specs.Deeds.{Deed, Holder, made, first, entries_at, AreLawful, IsTold};
ghost use Rattle.schedule_kit.specs.Members.{In, Once};
ghost use Rattle.schedule_kit.specs.Rounds.{Rounding, IsSound, state};
ghost use Rattle.schedule_kit.specs.Rows.{IsAdded, rollup, recorded, in_row, values_fed, keys_fed};
ghost use Rattle.schedule_kit.specs.Schedule.{Act, entries_of};
ghost use Rattle.schedule_kit.specs.Schedule as schedule;
ghost use Rattle.schedule_kit.specs.Taken.{taken_collections, recorded_up_to, incarnations};
ghost use Rattle.schedule_kit.specs.Totals.{total, total_where};
ghost use Rattle.archive_kit.specs.Adding.{add_payloads};
ghost use Rattle.archive_kit.specs.Adopting.{Archiving, Counted, AreTombstones, AreArchives, is_adopted, adoptees, counted};
ghost use Rattle.archive_kit.specs.Adopting.{values_counted, EachOnce, RefusesAgain, AdoptMade};
ghost use Rattle.archive_kit.specs.Archive.{ArchiveState, adopted, exported_points, fresh, points_held};
ghost use Rattle.archive_kit.specs.Archived.{Archivists, archived, archiving, archived_fed, AddAsRead, CanArchive};
ghost use Rattle.archive_kit.specs.Driving.{Adoption, Call, driven, AreAccepted, all_adopted, since_sealed};
ghost use Rattle.archive_kit.specs.Driving.Call.{Seal};
ghost use Rattle.archive_kit.specs.Driving.{tombstone, has_adding, WasExported};
ghost use Rattle.archive_kit.specs.Showing.{hides, shown, join_shown, IsShownBelow, NamesNoNamer};
ghost use Rattle.archive_kit.specs.Stories.{Story, SameTaken, taken, held, state_of_taken, IsHeard};
ghost use Rattle.archive_kit.specs.Telling.{bucket_told, count_told, sum_told, told_by};
ghost use Rattle.archive_kit.specs.Tombstones.{names_key};
ghost use Rattle.archive_kit.specs.Written.{our_archiving, AreKeyed, AreDriven, AreFed};

/// What states show, joined, shows what the states joined show, wherever what is named names nothing itself: so joining what
/// is shown is commutative, associative, and what comes again changes nothing. States that show the same may stand for one
/// another in a join. So it is of the points of gateways, whatever they hold.
#[tactic(auto, using(crate::proofs::Showing::shown_join, crate::proofs::Showing::shown_commute, crate::proofs::Showing::shown_associate, crate::proofs::Showing::shown_idempotent, crate::proofs::Showing::shown_twice, crate::proofs::Showing::shown_congruent))]
pub fn shown_states_join<K, V>()
    ensures joined { (R : K → K → Ordering) → IsTotalOrder R → IsAntisymmetric R → (names : K → K → Bool) → NamesNoNamer names
        → (join : V → V → V) (a b : FinMap R V) → join_shown names join (shown names a) (shown names b) ≡ join_shown names join a b }
    ensures commutative { (R : K → K → Ordering) → IsTotalOrder R → IsAntisymmetric R → (names : K → K → Bool) → NamesNoNamer names
        → (join : V → V → V) → IsCommutative join → IsCommutative (λ (a b : FinMap R V). join_shown names join a b) }
    ensures associative { (R : K → K → Ordering) → IsTotalOrder R → IsAntisymmetric R → (names : K → K → Bool) → NamesNoNamer names
        → (join : V → V → V) → IsAssociative join → IsAssociative (λ (a b : FinMap R V). join_shown names join a b) }
    ensures idempotent { (R : K → K → Ordering) → IsTotalOrder R → IsAntisymmetric R → (names : K → K → Bool) → NamesNoNamer names
        → (join : V → V → V) → IsIdempotent join → (a : FinMap R V) → join_shown names join a a ≡ shown names a }
    ensures again { (R : K → K → Ordering) → IsTotalOrder R → IsAntisymmetric R → (names : K → K → Bool) → NamesNoNamer names
        → (a : FinMap R V) → shown names (shown names a) ≡ shown names a }
    ensures congruent { (R : K → K → Ordering) → IsTotalOrder R → IsAntisymmetric R → (names : K → K → Bool) → NamesNoNamer names
        → (join : V → V → V) (a b c d : FinMap R V) → shown names a ≡ shown names c → shown names b ≡ shown names d
        → join_shown names join a b ≡ join_shown names join c d }
{}

/// What a state hides may come again, and changes nothing of what is shown: so it may be left out.
#[tactic(auto, using(crate::proofs::Showing::skipped))]
pub fn hidden_points_may_be_skipped<K, V>()
    ensures { (R : K → K → Ordering) → IsTotalOrder R → IsAntisymmetric R → (names : K → K → Bool) → NamesNoNamer names
        → (join : V → V → V) (a b : FinMap R V) → ((q : K) (v : V) → get b q ≡ Some v → hides names a q ≡ true)
        → join_shown names join a b ≡ shown names a }
{}

/// What a state hides may be forgotten, any of it, as all points of an incarnation: what is shown stays as it is.
#[tactic(auto, using(crate::proofs::Forgetting::forgotten))]
pub fn hidden_points_may_be_forgotten<K, V>()
    ensures { (R : K → K → Ordering) → IsTotalOrder R → IsAntisymmetric R → (names : K → K → Bool) → NamesNoNamer names
        → (gone : K → Bool) (m : FinMap R V) → ((q : K) (v : V) → get m q ≡ Some v → gone q ≡ true → hides names m q ≡ true)
        → shown names (retain_keys m (λ k. not (gone k))) ≡ shown names m }
{}

/// A delta that brings what its receiver once had to what its sender has, in what is shown, brings as much to a receiver
/// that shows all that it had then, whatever either forgot since.
#[tactic(auto, using(crate::proofs::Showing::delta_brings))]
pub fn deltas_bring<K, V>()
    ensures { (R : K → K → Ordering) → IsTotalOrder R → IsAntisymmetric R → (names : K → K → Bool) → NamesNoNamer names
        → (join : V → V → V) → IsAssociative join → (receiver once delta sender : FinMap R V)
        → join_shown names join receiver once ≡ shown names receiver
        → join_shown names join once delta ≡ join_shown names join once sender
        → join_shown names join receiver delta ≡ join_shown names join receiver sender }
{}

/// What is shown is ordered as states are, whatever was forgotten on either side: what is at or below what is at or below a
/// third is at or below it; what a state shows is at or below it; and what brings as much to a state brings as much to
/// a greater one.
#[tactic(auto, using(crate::proofs::Showing::shown_trans, crate::proofs::Showing::shown_forgets, crate::proofs::Showing::shown_part, crate::proofs::Showing::shown_brings_more))]
pub fn shown_states_are_ordered<K, V>()
    ensures through { (R : K → K → Ordering) → IsTotalOrder R → IsAntisymmetric R → (names : K → K → Bool) → NamesNoNamer names
        → (join : V → V → V) → IsAssociative join → (a b c : FinMap R V)
        → IsShownBelow names join a b → IsShownBelow names join b c → IsShownBelow names join a c }
    ensures forgets { (R : K → K → Ordering) → IsTotalOrder R → IsAntisymmetric R → (names : K → K → Bool) → NamesNoNamer names
        → (join : V → V → V) (a b : FinMap R V) → IsShownBelow names join a b → IsShownBelow names join (shown names a) (shown names b) }
    ensures part { (R : K → K → Ordering) → IsTotalOrder R → IsAntisymmetric R → (names : K → K → Bool) → NamesNoNamer names
        → (join : V → V → V) → IsIdempotent join → (a : FinMap R V) → IsShownBelow names join (shown names a) a }
    ensures brings { (R : K → K → Ordering) → IsTotalOrder R → IsAntisymmetric R → (names : K → K → Bool) → NamesNoNamer names
        → (join : V → V → V) → IsCommutative join → IsAssociative join → (r q c t : FinMap R V) → IsShownBelow names join r q
        → join_shown names join r c ≡ join_shown names join r t → join_shown names join q c ≡ join_shown names join q t }
{}

/// Gateways that took the same exports, by themselves, by merges or by mails, in any order and with repeats, and forgot at any
/// time what they hid, show the same: what the state of these exports shows. Each mail is to be as a node promises.
#[tactic(auto, using(crate::proofs::Stories::held_shows, crate::proofs::Stories::same_shown))]
pub fn same_exports_show_the_same<E, K, P>()
    ensures held { (R : K → K → Ordering) → IsTotalOrder R → IsAntisymmetric R → (eq : P → P → Bool) → IsEquivalence eq → IsExact eq
        → (names : K → K → Bool) → NamesNoNamer names → (points : E → List (K × (ℕ × P))) → (s : Story E (FinMap R (Cell P)))
        → IsHeard R eq names points s → shown names (held R eq names points s) ≡ shown names (state_of_taken R eq names points (taken s)) }
    ensures same { (R : K → K → Ordering) → IsTotalOrder R → IsAntisymmetric R → (eq : P → P → Bool) → IsEquivalence eq → IsExact eq
        → (names : K → K → Bool) → NamesNoNamer names → (points : E → List (K × (ℕ × P))) → (s t : Story E (FinMap R (Cell P)))
        → IsHeard R eq names points s → IsHeard R eq names points t → SameTaken s t
        → shown names (held R eq names points s) ≡ shown names (held R eq names points t) }
{}

/// A tombstone names the keys of the incarnation that its attributes tell, but no tombstone: so none names another.
#[tactic(auto, using(crate::proofs::Tombstones::names_no_tombstone))]
pub fn tombstones_name_no_tombstone()
    ensures { NamesNoNamer names_key }
{}

/// An archivist that takes no adoption of an incarnation that it adopted has each in its entries once.
#[tactic(auto, using(crate::proofs::Once::adopts_once))]
pub fn archivists_adopt_once<N>()
    ensures { (adopts : N → Option (Counted N)) (fits : List N → N → Bool) → RefusesAgain adopts fits → (first : ℕ)
        → (acts : List (Act N)) → schedule.AreAccepted fits first acts
        → (start : ℕ) → EachOnce (filter_map adopts (entries_of first acts start)) }
{}

/// Where archives are among the writers, the roll-up of what a gateway shows is that of recordings, each value added up by
/// itself: of each incarnation that an archive adopted, those up to its adopted collection; of each other that is no
/// archive's, those up to its newest collection that the gateway took. Where no two adoptions are of one incarnation, each
/// counts at most once.
#[tactic(auto, using(crate::proofs::Headline::shown_answers, crate::proofs::Headline::counted_once))]
pub fn roll_ups_count_adopted_once<N, K, I, X, P, V, G>()
    ensures exact { (r : Rounding N K I X P) → IsSound r → (fits : ℕ → List N → N → Bool) (starts : List ℕ) (gateways : ℕ)
        → IsTold r.who starts → (ds : List (Deed N)) → AreLawful fits starts gateways ds → (h : Holder)
        → (zero : V) (plus : V → V → V) (reads : P → V) (fed : ℕ → List N → List (X × V))
        → (Rg : G → G → Ordering) → IsTotalOrder Rg → IsAntisymmetric Rg
        → (asks : K → Bool) (group : K → G) → IsAdded r zero plus reads fed asks
        → (how : Archiving N K I X) → AreTombstones r how → AreArchives r how fed asks group
        → rollup Rg zero plus asks group reads (shown how.names (state r (taken_collections starts ds h)))
        ≡ recorded Rg zero plus asks group
        (values_counted r fed
        (counted r how (is_adopted r how (taken_collections starts ds h)) (recorded_up_to starts ds h) (incarnations starts ds)))
        (keys_fed r
        (λ i. cond (is_adopted r how (taken_collections starts ds h) (r.who i.0) i.1) [] (recorded_up_to starts ds h i))
        (incarnations starts ds)) }
    ensures once { (r : Rounding N K I X P) → IsSound r → (fits : ℕ → List N → N → Bool) (starts : List ℕ) (gateways : ℕ)
        → IsTold r.who starts → (ds : List (Deed N)) → AreLawful fits starts gateways ds → (h : Holder)
        → (how : Archiving N K I X) → AreTombstones r how
        → EachOnce (adoptees r how (recorded_up_to starts ds h) (incarnations starts ds))
        → EachOnce
        (counted r how (is_adopted r how (taken_collections starts ds h)) (recorded_up_to starts ds h) (incarnations starts ds)) }
{}

/// Where each adoption is of a made collection, what counts of what was adopted is what the incarnation recorded up to that
/// collection, and it is an incarnation of the history.
#[tactic(auto, using(crate::proofs::Headline::adopted_recorded, crate::proofs::Headline::adopted_there))]
pub fn adopted_are_recorded<N>()
    ensures recorded { (starts : List ℕ) (ds : List (Deed N)) (fits : ℕ → List N → N → Bool) (gateways : ℕ)
        → AreLawful fits starts gateways ds
        → (cs : List (Counted N)) → AdoptMade (made starts ds) cs → (c : Counted N) → In c cs
        → (n : ℕ) × (c.1 ≡ entries_at starts (first n ds) c.0.0 c.0.1) }
    ensures there { (starts : List ℕ) (ds : List (Deed N)) (fits : ℕ → List N → N → Bool) (gateways : ℕ)
        → AreLawful fits starts gateways ds
        → (cs : List (Counted N)) → AdoptMade (made starts ds) cs → (c : Counted N) → In c cs
        → In {A = ℕ × ℕ} c.0 (incarnations starts ds) }
{}

/// Where besides each adopted collection, and each newest one of an incarnation that was not adopted, has all that is to
/// count of its incarnation, the totals are those of a kit without archives.
#[tactic(auto, using(crate::proofs::Headline::none_changes))]
pub fn archives_change_no_total<N, K, I, X, P, V, G>()
    ensures { (r : Rounding N K I X P) → IsSound r → (fits : ℕ → List N → N → Bool) (starts : List ℕ) (gateways : ℕ)
        → IsTold r.who starts → (ds : List (Deed N)) → AreLawful fits starts gateways ds → (h : Holder)
        → (zero : V) (plus : V → V → V) (reads : P → V) (fed : ℕ → List N → List (X × V))
        → (Rg : G → G → Ordering) → (asks : K → Bool) (group : K → G) → IsAdded r zero plus reads fed asks
        → (how : Archiving N K I X) → AreTombstones r how → AreArchives r how fed asks group
        → (whole : ℕ × ℕ → List N)
        → EachOnce (adoptees r how (recorded_up_to starts ds h) (incarnations starts ds))
        → ((c : Counted N) → In c (adoptees r how (recorded_up_to starts ds h) (incarnations starts ds)) → In c.0 (incarnations starts ds))
        → ((i : ℕ × ℕ) → In i (incarnations starts ds) → how.is_archive (r.who i.0) ≡ false
        → is_adopted r how (taken_collections starts ds h) (r.who i.0) i.1 ≡ false → recorded_up_to starts ds h i ≡ whole i)
        → ((c : Counted N) → In c (adoptees r how (recorded_up_to starts ds h) (incarnations starts ds)) → c.1 ≡ whole c.0)
        → (g : G)
        → total_where zero plus (λ p. in_row Rg zero plus asks group g p.0) (λ p. p.1)
        (values_counted r fed
        (counted r how (is_adopted r how (taken_collections starts ds h)) (recorded_up_to starts ds h) (incarnations starts ds)))
        ≡ total_where zero plus (λ p. in_row Rg zero plus asks group g p.0) (λ p. p.1)
        (values_fed r whole (filter (λ i. not (how.is_archive (r.who i.0))) (incarnations starts ds)) fed) }
{}

/// An adoption adds to what an archive's totals tell just what the adopted points tell: totals, counts and how many values are in
/// each bucket, of whatever streams and sets are asked for.
#[tactic(auto, using(crate::proofs::Telling::sums_told, crate::proofs::Telling::counts_told))]
pub fn adoptions_add_up()
    ensures sums { (asks : Stream → AttrSet → Bool) (a : ArchiveState) (writer : WriterId) (start : ℕ) (cells : List (Key × Cell Payload))
        → told_by (pos 0) ◌+ℤ◌ sum_told asks (adopted a writer start cells).totals
        ≡ told_by (pos 0) ◌+ℤ◌ sum_told asks a.totals +ℤ told_by (pos 0) ◌+ℤ◌ sum_told asks (points_held cells) }
    ensures counts { (asks : Stream → AttrSet → Bool) (a : ArchiveState) (writer : WriterId) (start : ℕ) (cells : List (Key × Cell Payload))
        → told_by 0 ◌+◌ count_told asks (adopted a writer start cells).totals
        ≡ told_by 0 ◌+◌ count_told asks a.totals + told_by 0 ◌+◌ count_told asks (points_held cells) }
    ensures buckets { (place : ℕ)
        (asks : Stream → AttrSet → Bool) (a : ArchiveState) (writer : WriterId) (start : ℕ) (cells : List (Key × Cell Payload))
        → told_by 0 ◌+◌ (bucket_told place) asks (adopted a writer start cells).totals
        ≡ told_by 0 ◌+◌ (bucket_told place) asks a.totals + told_by 0 ◌+◌ (bucket_told place) asks (points_held cells) }
{}

/// Whatever calls an archive accepted since it began, an export of it has a tombstone for each incarnation that it adopted since
/// it was sealed last, in order, and totals that tell what the points held of these tell, added up: sums, counts and how many
/// values are in each bucket, of whatever streams and sets are asked for. Of a stream and set there is a total exactly where
/// one of these had a sum or a histogram of it.
#[tactic(auto)]
pub fn exports_tell_what_was_adopted()
    ensures points { (writer : WriterId) (start limit : ℕ) (calls : List Call)
        → exported_points (driven (fresh writer start limit) calls)
        ≡ (driven (fresh writer start limit) calls).totals ++ map tombstone (since_sealed calls) }
    ensures keys { (asks : Stream → AttrSet → Bool) (writer : WriterId) (start limit : ℕ) (calls : List Call)
        → list_any (λ p. asks p.stream p.attrs) (driven (fresh writer start limit) calls).totals
        ≡ list_any (λ c. has_adding asks (points_held c.1)) (since_sealed calls) }
    ensures sums { (asks : Stream → AttrSet → Bool) (writer : WriterId) (start limit : ℕ) (calls : List Call)
        → told_by (pos 0) ◌+ℤ◌ sum_told asks (driven (fresh writer start limit) calls).totals
        ≡ total (pos 0) ◌+ℤ◌ (λ c. told_by (pos 0) ◌+ℤ◌ sum_told asks (points_held c.1)) (since_sealed calls) }
    ensures counts { (asks : Stream → AttrSet → Bool) (writer : WriterId) (start limit : ℕ) (calls : List Call)
        → told_by 0 ◌+◌ count_told asks (driven (fresh writer start limit) calls).totals
        ≡ total 0 ◌+◌ (λ c. told_by 0 ◌+◌ count_told asks (points_held c.1)) (since_sealed calls) }
    ensures buckets { (place : ℕ) (asks : Stream → AttrSet → Bool) (writer : WriterId) (start limit : ℕ) (calls : List Call)
        → told_by 0 ◌+◌ (bucket_told place) asks (driven (fresh writer start limit) calls).totals
        ≡ total 0 ◌+◌ (λ c. told_by 0 ◌+◌ (bucket_told place) asks (points_held c.1)) (since_sealed calls) }
{}

/// Of whatever calls an archive accepted since it began, sealed or not: no two adopted one incarnation, so what it adopted before a
/// seal it adopts in no later incarnation of its own. And where it adopted nothing since its last export, each adopted incarnation's
/// tombstone stands in an export that it made.
#[tactic(auto)]
pub fn adoptions_are_exported()
    ensures once { (writer : WriterId) (start limit : ℕ) (calls : List Call) → AreAccepted (fresh writer start limit) calls
        → Once {A = WriterId × ℕ} (map (λ c. c.0) (all_adopted calls)) }
    ensures sealed { (writer : WriterId) (start limit again : ℕ) (calls later : List Call)
        → AreAccepted (fresh writer start limit) (later ++ Seal again ∷ calls) → (c d : Adoption)
        → In c (all_adopted calls) → In d (since_sealed (later ++ Seal again ∷ calls)) → c.0 ≡ d.0 → ⊥ }
    ensures told { (writer : WriterId) (start limit : ℕ) (calls : List Call) → AreAccepted (fresh writer start limit) calls
        → (driven (fresh writer start limit) calls).unexported ≡ false
        → (c : Adoption) → In c (all_adopted calls) → WasExported (fresh writer start limit) calls (tombstone c) }
{}

/// Where some of a kit's writers are archives and write what accepted calls made of one, they are archives as the laws above ask:
/// their tombstones are lawful, and under each name that is asked for they have what was fed to the incarnations that they adopted.
#[tactic(auto)]
pub fn driven_archives_are_lawful<N, V>()
    ensures tombstones { (r : Rounding N Key WriterId ItemKey Payload) → AreKeyed r
        → (is_archive : WriterId → Bool) (adoptions : ℕ → List N → List (Counted N)) (held : ℕ → Counted N → List (Key × Cell Payload))
        → AreDriven r (our_archiving is_archive adoptions) held
        → AreTombstones r (our_archiving is_archive adoptions) }
    ensures added { (r : Rounding N Key WriterId ItemKey Payload) → AreKeyed r → IsSound r
        → (is_archive : WriterId → Bool) (adoptions : ℕ → List N → List (Counted N)) (held : ℕ → Counted N → List (Key × Cell Payload))
        → AreDriven r (our_archiving is_archive adoptions) held
        → (zero : V) (plus : V → V → V) (reads : Payload → V) (fed : ℕ → List N → List (ItemKey × V)) (asks : Key → Bool)
        → AreFed r (our_archiving is_archive adoptions) held zero plus reads fed asks
        → IsAdded r zero plus reads fed asks }
{}

/// To the writers of any sound kit archives can be added that are as the laws above ask: so what they ask can be met.
#[tactic(auto)]
pub fn archives_can_be_added<N, K, I, X, P, V, G>()
    ensures sound { (r : Rounding N K I X P) → IsSound r → (by : Archivists K I X P) → IsSound (archived r by) }
    ensures added { (r : Rounding N K I X P) → IsSound r → (by : Archivists K I X P)
        → (zero : V) (plus : V → V → V) (reads : P → V) (fed : ℕ → List N → List (X × V)) (asks : K → Bool) (group : K → G)
        → IsAdded r zero plus reads fed asks → AddAsRead r by zero plus reads → CanArchive r by asks group
        → IsAdded (archived r by) zero plus reads (archived_fed r by fed) asks }
    ensures archives { (r : Rounding N K I X P) → IsSound r → (by : Archivists K I X P)
        → (zero : V) (plus : V → V → V) (reads : P → V) (fed : ℕ → List N → List (X × V)) (asks : K → Bool) (group : K → G)
        → IsAdded r zero plus reads fed asks → AddAsRead r by zero plus reads → CanArchive r by asks group
        → AreArchives (archived r by) (archiving r by) (archived_fed r by fed) asks group }
    ensures tombstones { (r : Rounding N K I X P) → IsSound r → (by : Archivists K I X P)
        → (zero : V) (plus : V → V → V) (reads : P → V) (fed : ℕ → List N → List (X × V)) (asks : K → Bool) (group : K → G)
        → IsAdded r zero plus reads fed asks → AddAsRead r by zero plus reads → CanArchive r by asks group
        → AreTombstones (archived r by) (archiving r by) }
{}

/// Payloads that are sound in a stream of sums or of histograms are sound there added up.
#[tactic(auto, using(crate::proofs::Payloads::both_sound))]
pub fn sums_are_sound()
    ensures { (shape : Shape) (p q : Payload) → sound.IsSound shape p → sound.IsSound shape q → sound.IsSound shape (add_payloads p q) }
{}
