//! What is true of every history of nodes that forget what they hide.
ghost use Rattle.std.specs.Prelude.{◌≡◌, ◌<◌, ℕ, ℤ, Bool, false, List, length, Option, Some};
ghost use Rattle.std.specs.declared.cmp.Ordering.{Ordering};
ghost use Rattle.std.specs.Cmp.{IsTotalOrder};
ghost use Rattle.std.specs.FinMap.{IsAntisymmetric, get};
ghost use Rattle.archive_kit.specs.Adding.{add_payloads};
ghost use Rattle.archive_kit.specs.Adopting.{AreArchives, AreTombstones, Counted, EachOnce, values_counted};
ghost use Rattle.archive_kit.specs.Showing.{hides, shown};
ghost use Rattle.archive_kit.specs.Tombstones.{names_key};
ghost use Rattle.archive_kit.specs.Written.{our_archiving, AreFed};
ghost use Rattle.archive_world_kit.specs.Adopted.{Archives, AreAsked, AreRead, HoldsJust, WereTaken, adopted_by, counted_at, counted_by, keys_at, keys_by, telling};
ghost use Rattle.archive_world_kit.specs.Alike.{HaveOneBounds, OnBoth};
ghost use Rattle.archive_world_kit.specs.Apart.{AdoptApart, AdoptOnce, IsSealedBefore};
ghost use Rattle.archive_world_kit.specs.Answers.{AreLast, Feeds, HasProperBounds, recordings_by, workers};
ghost use Rattle.archive_world_kit.specs.Steps.{History, HasIdentities, HasSoundRounds, HaveNoTombstones, deeds, held_by, rounding, shown_by, taken_by};
ghost use Rattle.gateway_kit.specs.Keys.{ItemKey, whole_key};
ghost use Rattle.page_kit.specs.Families.{Measured, shown_metrics};
ghost use Rattle.page_kit.specs.Metrics.{kind_of};
ghost use Rattle.page_kit.specs.Page.{asked_cells, left_in};
ghost use Rattle.page_kit.specs.Recorded.{IsRecorded, row_values};
ghost use Rattle.page_kit.specs.Rows.{row, rows};
ghost use Rattle.point_kit.specs.declared.key.Key.{Key};
ghost use Rattle.point_kit.specs.declared.payload.Payload.{Payload};
ghost use Rattle.point_kit.specs.declared.shape.Shape.{Shape};
ghost use Rattle.point_kit.specs.declared.writer_id.WriterId.{WriterId};
ghost use Rattle.point_kit.specs.Exports.{join_points};
ghost use Rattle.rollup_kit.specs.Asks.{asks, group};
ghost use Rattle.rollup_kit.specs.Parts.{plus_parts, parts_of};
ghost use Rattle.rollup_kit.specs.Rollups.{AddsUp, recorded_rows, rollup_rows};
ghost use Rattle.rollup_kit.specs.declared.ask.Ask.{Ask};
ghost use Rattle.schedule_kit.specs.Deeds.{Mail, TookSame, entries_at, first, mail_of};
ghost use Rattle.schedule_kit.specs.Deeds.Holder.{AtGateway, InMail};
ghost use Rattle.schedule_kit.specs.Rounds.{part_at};
ghost use Rattle.schedule_kit.specs.Rows.{IsAdded, recorded, rollup, values_fed};
ghost use Rattle.schedule_kit.specs.Taken.{entries_taken, incarnations, newest, taken_collections};
ghost use Rattle.schedule_kit.specs.Members.{In};

/// Whatever happened to nodes, in whatever order, with mails lost, doubled or late, and whenever they forgot what they hid: each
/// shows what the state of the exports shows that it took. A mail, joined into what its receiver holds now, shows what its sender had
/// taken, as it does joined with all of that. And where no writer writes tombstones each node holds the state of what it took, as
/// nodes do that never forget.
#[tactic(auto)]
pub fn nodes_show_what_they_took<N>()
    ensures shown { (h : History N) (g : ℕ) → shown_by h g ≡ shown names_key (taken_by h (AtGateway g)) }
    ensures mails { (h : History N) (k : ℕ) (mail : Mail) → mail_of (deeds h.steps) k ≡ Some mail
        → shown names_key (join_points (held_by h mail.to) (h.seen.mail k).points)
        ≡ shown names_key (join_points (held_by h mail.to) (taken_by h (InMail k))) }
    ensures plain { (h : History N) → HasSoundRounds h → HaveNoTombstones h.writing → (g : ℕ) → held_by h g ≡ taken_by h (AtGateway g) }
{}

/// Where no two writers share an identity, a node holds of an incarnation that it does not hide just the newest collection that
/// it took, or nothing: what an archive may adopt, whatever else the node forgot.
#[tactic(auto)]
pub fn nodes_hold_newest_collections<N>()
    ensures part { (h : History N) → HasSoundRounds h → HasIdentities h → (g w start : ℕ) → w < length h.starts → (x : ItemKey)
        → hides names_key (held_by h g) (whole_key (h.writing.who w, start) x) ≡ false
        → get (held_by h g) (whole_key (h.writing.who w, start) x)
        ≡ part_at (rounding h.writing) (newest (taken_collections h.starts (deeds h.steps) (AtGateway g)) w start) x }
    ensures just { (h : History N) → HasSoundRounds h → HasIdentities h → (g w start : ℕ) → w < length h.starts
        → ((x : ItemKey) → hides names_key (held_by h g) (whole_key (h.writing.who w, start) x) ≡ false)
        → HoldsJust h.writing ((w, start), entries_taken (taken_collections h.starts (deeds h.steps) (AtGateway g)) w start) (held_by h g) }
{}

/// The roll-up of what a node shows is that of recordings, each value added up by itself, whatever happened to nodes and whenever
/// they forgot what they hid: of each incarnation that an archive adopted, those up to its adopted collection; of each other that is
/// no archive's, those up to its newest collection that the node took.
#[tactic(auto)]
pub fn nodes_count_adopted_once<N, V, G>()
    ensures exact { (h : History N) → HasSoundRounds h → HasIdentities h → (g : ℕ)
        → (zero : V) (plus : V → V → V) (reads : Payload → V) (fed : ℕ → List N → List (ItemKey × V))
        → (Rg : G → G → Ordering) → IsTotalOrder Rg → IsAntisymmetric Rg
        → (asks : Key → Bool) (group : Key → G) → IsAdded (rounding h.writing) zero plus reads fed asks
        → (is_archive : WriterId → Bool) (adoptions : ℕ → List N → List (Counted N))
        → AreTombstones (rounding h.writing) (our_archiving is_archive adoptions)
        → AreArchives (rounding h.writing) (our_archiving is_archive adoptions) fed asks group
        → rollup Rg zero plus asks group reads (shown_by h g)
        ≡ recorded Rg zero plus asks group
        (values_counted (rounding h.writing) fed (counted_at h.writing (our_archiving is_archive adoptions) h.starts h.steps g))
        (keys_at h.writing (our_archiving is_archive adoptions) h.starts h.steps g) }
{}

/// What archives adopted tells what its incarnations fed, where it was held of collections, as nodes hold it. That is what
/// `driven_archives_are_lawful` of archive_kit asks of what was held.
#[tactic(auto)]
pub fn held_collections_tell_what_was_fed<N, V>()
    ensures fed { (h : History N) → HasSoundRounds h → (a : Archives h)
        → (zero : V) (plus : V → V → V) (reads : Payload → V) (fed : ℕ → List N → List (ItemKey × V)) (asks : Key → Bool)
        → AreRead h.writing (telling a) zero plus reads fed asks
        → AreFed (rounding h.writing) (telling a) a.held zero plus reads fed asks }
{}

/// Nodes that took the same exports, through whatever merges and mails, lost, doubled or late, and whenever they forgot what they
/// hid, show the same. Where archives write what accepted calls export, and adopted what was held, the roll-up of what a node shows
/// is that of recordings, each value added up by itself: of each adopted incarnation up to its adopted collection, of each other
/// that is no archive's up to its newest collection that the node took. Where none is adopted twice, each counts at most once. And
/// where an adoption has the newest collection that some node had taken then, it has what the incarnation recorded up to that.
#[tactic(auto)]
pub fn forgetting_loses_nothing<N, V, G>()
    ensures same { (h : History N) (g k : ℕ) → TookSame (deeds h.steps) (AtGateway g) (AtGateway k) → shown_by h g ≡ shown_by h k }
    ensures exact { (h : History N) → HasSoundRounds h → HasIdentities h → (a : Archives h) → (g : ℕ)
        → (zero : V) (plus : V → V → V) (reads : Payload → V) (fed : ℕ → List N → List (ItemKey × V))
        → (Rg : G → G → Ordering) → IsTotalOrder Rg → IsAntisymmetric Rg
        → (asks : Key → Bool) (group : Key → G) → AreAsked h.writing (telling a) asks group
        → AreRead h.writing (telling a) zero plus reads fed asks
        → rollup Rg zero plus asks group reads (shown_by h g)
        ≡ recorded Rg zero plus asks group (values_counted (rounding h.writing) fed (counted_by a g)) (keys_by a g) }
    ensures once { (h : History N) → HasSoundRounds h → HasIdentities h → (a : Archives h) → (g : ℕ)
        → EachOnce (adopted_by a g) → EachOnce (counted_by a g) }
    ensures there { (h : History N) (c : Counted N) → WereTaken h.starts h.steps c
        → In {A = ℕ × ℕ} c.0 (incarnations h.starts (deeds h.steps)) }
    ensures recorded { (h : History N) (c : Counted N) → WereTaken h.starts h.steps c
        → (n : ℕ) × (c.1 ≡ entries_at h.starts (first n (deeds h.steps)) c.0.0 c.0.1) }
{}

/// Two payloads added up read as both: sums, counts, buckets, and the range of both, which is unknown where one that has values does
/// not tell its own. A gauge adds nothing.
#[tactic(auto, using(crate::proofs::Reading::both_read))]
pub fn payloads_add_up()
    ensures { (p q : Payload) → parts_of (add_payloads p q) ≡ plus_parts (parts_of p) (parts_of q) }
{}

/// An archive adopts of its own service alone: so an ask counts an archive's key to the row to which it counts the same name of what
/// the archive adopted.
#[tactic(auto)]
pub fn archives_are_asked_as_adopted<N>()
    ensures { (h : History N) (a : Archives h) (ask : Ask) → AreAsked h.writing (telling a) (asks ask) (group ask) }
{}

/// Where no two writers share an identity, archives among them, the rows that a node answers of what it shows, of a sum or a
/// histogram, are those of recordings, ranges too, each value added up by itself: of each adopted incarnation those up to its adopted
/// collection, of each other that is no archive's those up to its newest collection that the node took. A row has as many points as
/// keys are shown. A keeper shows all that it holds, so they are the rows of a roll-up at it. Gauges are not adopted, and of these
/// nothing is said.
#[tactic(auto)]
pub fn rows_count_adopted_once<N>()
    ensures { (h : History N) → HasSoundRounds h → HasIdentities h → (a : Archives h) → (g : ℕ)
        → (ask : Ask) → AddsUp ask.stream.shape → (fed : ℕ → List N → List (ItemKey × ℤ)) → Feeds a fed
        → rollup_rows ask (shown_by h g)
        ≡ recorded_rows ask (values_counted (rounding h.writing) fed (counted_by a g)) (keys_by a g) }
{}

/// Where besides none is adopted twice, and each adopted collection, as each newest one of what was not adopted, is that incarnation's
/// last, roll-ups of what a node shows are those of all that the workers recorded up to their last collections: as at a gateway
/// without any archive, but that a row has as many points as keys are shown. So are the rows of asks.
#[tactic(auto)]
pub fn archives_change_no_answer<N, V, G>()
    ensures totals { (h : History N) → HasSoundRounds h → HasIdentities h → (a : Archives h) → (g : ℕ)
        → (zero : V) (plus : V → V → V) (reads : Payload → V) (fed : ℕ → List N → List (ItemKey × V))
        → (Rg : G → G → Ordering) → IsTotalOrder Rg → IsAntisymmetric Rg
        → (asks : Key → Bool) (group : Key → G) → AreAsked h.writing (telling a) asks group
        → AreRead h.writing (telling a) zero plus reads fed asks
        → (last : ℕ × ℕ → List N) → AreLast a g last
        → rollup Rg zero plus asks group reads (shown_by h g)
        ≡ recorded Rg zero plus asks group (values_fed (rounding h.writing) last (workers a) fed) (keys_by a g) }
    ensures rows { (h : History N) → HasSoundRounds h → HasIdentities h → (a : Archives h) → (g : ℕ)
        → (ask : Ask) → AddsUp ask.stream.shape → (fed : ℕ → List N → List (ItemKey × ℤ)) → Feeds a fed
        → (last : ℕ × ℕ → List N) → AreLast a g last
        → rollup_rows ask (shown_by h g)
        ≡ recorded_rows ask (values_fed (rounding h.writing) last (workers a) fed) (keys_by a g) }
{}

/// No incarnation is adopted twice where of every two incarnations of archives one was sealed before the other began, or both adopted
/// nothing in common, as where several archives each have instances or services of their own. So whoever has one archive, sealed or not,
/// owes nothing more: an archive adopts nothing again.
#[tactic(auto)]
pub fn incarnations_are_adopted_once<N>()
    ensures each { (h : History N) → HasIdentities h → (a : Archives h) → (g : ℕ) → AdoptOnce a g → EachOnce (adopted_by a g) }
    ensures sealed { (h : History N) (a : Archives h) (g : ℕ) (i j : ℕ × ℕ) → IsSealedBefore a g i j → AdoptApart a g i j }
{}

/// Where no two writers share an identity, archives among them, the numbers of each row of each family on the page of what a node shows,
/// whatever scope it leaves out, are those of recordings: of each incarnation that was not adopted those up to its newest collection that
/// the node took, and of an archive what it adopted. Every row is shown then. A keeper shows all that it holds, so this is its page.
/// Gauges are not adopted, and of these nothing is said.
#[tactic(auto)]
pub fn pages_count_adopted_once<N>()
    ensures { (h : History N) → HasSoundRounds h → HasIdentities h → (a : Archives h) → (g : ℕ)
        → (fed : ℕ → List N → List (ItemKey × ℤ)) → Feeds a fed → HasProperBounds a
        → (service but : Option (List ℕ)) (m : Measured) → In m (shown_metrics (left_in but (asked_cells service (shown_by h g))))
        → (w : _) → In w (rows m.1)
        → IsRecorded m w (row_values service but m.0 w.0 (recordings_by a fed g)) }
{}

/// Where besides none is adopted twice, and each adopted collection, as each newest one of what was not adopted, is that incarnation's
/// last, the numbers of each row on a node's page, whatever scope it leaves out, are those of all that the workers recorded up to their
/// last collections: as on the page of a gateway without any archive. A row that stands on the pages of two such nodes, one that heard of
/// archives and one that did not, has the same text on both, in either format. Of a histogram that asks that both show the same bounds of
/// it. Gauges are not adopted, and of these nothing is said; a tombstone is one.
#[tactic(auto)]
pub fn archives_change_no_page<N>()
    ensures numbers { (h : History N) → HasSoundRounds h → HasIdentities h → (a : Archives h) → (g : ℕ)
        → (fed : ℕ → List N → List (ItemKey × ℤ)) → Feeds a fed → HasProperBounds a
        → (last : ℕ × ℕ → List N) → AreLast a g last
        → (service but : Option (List ℕ)) (shape : Shape) (m : Measured) → m.0.kind ≡ kind_of shape
        → In m (shown_metrics (left_in but (asked_cells service (shown_by h g))))
        → (w : _) → In w (rows m.1)
        → IsRecorded m w (row_values service but m.0 w.0 (values_fed (rounding h.writing) last (workers a) fed)) }
    ensures text { (h : History N) → HasSoundRounds h → HasIdentities h → (a : Archives h) → (g k : ℕ)
        → (fed : ℕ → List N → List (ItemKey × ℤ)) → Feeds a fed → HasProperBounds a
        → (last : ℕ × ℕ → List N) → AreLast a g last → AreLast a k last
        → (service but : Option (List ℕ)) (shape : Shape) (m n : Measured) → OnBoth h g k service but shape m n
        → (w : _) → In w (rows m.1) → (v : _) → In v (rows n.1) → w.0 ≡ v.0 → HaveOneBounds shape m n w.1 v.1
        → (name : List ℕ) → row m.0.kind name m.1 w ≡ row n.0.kind name n.1 v }
{}
