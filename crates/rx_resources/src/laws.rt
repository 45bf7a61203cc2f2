// Laws of what is kept: it stands for the journal, and goes on to.
ghost use Rattle.std.specs.Prelude.{◌≡◌, ◌++◌, [], ◌∷◌, true, false, ℕ, ℤ, List, length, nat_eq};
ghost use Rattle.rx_base.specs.declared.cut.Cut.{Cut};
ghost use Rattle.rx_lane.specs.Lanes.{Lanes};
ghost use Rattle.rx_queue.specs.declared.entry.Standing.TheVariants.{Open};
ghost use Rattle.rx_queue.specs.Journal.{Journal, Posted, last_version as last_in, marked, next_version, resolved_now, resource, same_target, version_of};
ghost use Rattle.rx_resources.specs.Kept.{Kept, committed, last_version, opening, refreshed, resolved, value_of, version_at};
ghost use Rattle.rx_resources.specs.Stands.{AreOpenOrDone, IsKeptOf, asked_by};

/// What is kept tells the versions and values that the journal tells.
pub fn both_tell_the_same()
    ensures seen { (lanes : Lanes) (cut : Cut) (j : Journal) (r : ℕ) (k : Kept) → IsKeptOf j r k → AreOpenOrDone cut j r → version_at lanes cut k ≡ version_of lanes cut j r }
    ensures last { (j : Journal) (r : ℕ) (k : Kept) → IsKeptOf j r k → last_version k ≡ last_in j r }
    ensures next { (j : Journal) (r : ℕ) (k : Kept) → IsKeptOf j r k → length k.values ≡ next_version j r }
    ensures value { (j : Journal) (r v : ℕ) (k : Kept) → IsKeptOf j r k → value_of k v ≡ resolved_now j r v }
{}

/// A resource at the start stands for the empty journal, and what is kept goes on to stand for the journal when updates and
/// resolutions are accepted.
pub fn it_goes_on()
    ensures starts { (r : ℕ) → IsKeptOf (record { updates = []; resolutions = [] }) r opening }
    ensures refreshed { (j : Journal) (r : ℕ) (k : Kept) (u : Posted) → u.standing ≡ Open → same_target (resource r) u.target ≡ true → IsKeptOf j r k
        → IsKeptOf (record j { updates = j.updates ++ u ∷ [] }) r (refreshed (asked_by u) k) }
    ensures others { (j : Journal) (r : ℕ) (k : Kept) (u : Posted) → same_target (resource r) u.target ≡ false → IsKeptOf j r k
        → IsKeptOf (record j { updates = j.updates ++ u ∷ [] }) r k }
    ensures resolved { (j : Journal) (r : ℕ) (k : Kept) (x : ℤ) → IsKeptOf j r k
        → IsKeptOf (record j { resolutions = j.resolutions ++ (record { resource = r; value = x }) ∷ [] }) r (resolved x k) }
    ensures unresolved { (j : Journal) (r q : ℕ) (k : Kept) (x : ℤ) → nat_eq q r ≡ false → IsKeptOf j r k
        → IsKeptOf (record j { resolutions = j.resolutions ++ (record { resource = q; value = x }) ∷ [] }) r k }
{}

/// What is kept goes on to stand for the journal after a commit, and each refresh is still open, or done before each later cut.
pub fn a_commit_is_kept()
    ensures kept { (lanes : Lanes) (cut : Cut) (visible hidden : List ℕ) (j : Journal) (r : ℕ) (k : Kept) → IsKeptOf j r k → AreOpenOrDone cut j r
        → IsKeptOf (marked lanes cut visible hidden j) r (committed lanes cut k) }
    ensures open_or_done { (lanes : Lanes) (cut : Cut) (visible hidden : List ℕ) (j : Journal) (r : ℕ) → AreOpenOrDone cut j r
        → AreOpenOrDone cut (marked lanes cut visible hidden j) r }
{}
