// The islands of evaluators/rhythm.rs, `RhythmIsland`, and how often each was met, `IslandCount`.
ghost use Rattle.std.specs.Prelude.{◌≡◌, ℕ, true, ◌≤◌, ◌<◌, ltb, length, get_or, IfSome, position};
ghost use Rattle.std.specs.Option.{is_some, unwrap_or};
ghost use Rattle.std.specs.Int.Signed.{non_neg};
ghost use Rattle.eval_rhythm.specs.Island.{new_island, new_with_delta, settled_of, add_delta, similar_of, default_of, same_of, IslandOk};
ghost use Rattle.eval_rhythm.specs.Counts.{no_count, unmet_of, place_of, bumped_of, entry_of, CountOk};
ghost use Rattle.eval_rhythm.specs.Comparisons.{compared_of};

const MIN_DELTA_TIME: i32 = 25;

#[derive(Clone, Copy)]
pub struct RhythmIsland {
    pub delta_difference_eps: f64,
    pub delta: i32,
    pub delta_count: i32,
}

#[derive(Clone, Copy)]
pub struct IslandCount {
    pub island: RhythmIsland,
    pub count: u32,
}

// The delta that `add_delta` leaves.
#[tactic(auto, unfolding(crate::specs::Island::settled_of))]
pub fn settled(kept: i32, delta: i32) -> i32
    ensures { result ≡ settled_of kept delta }
{
    if kept == i32::MAX {
        delta.max(MIN_DELTA_TIME)
    } else {
        kept
    }
}

impl RhythmIsland {
    // An island of no delta.
    #[tactic(auto, unfolding(crate::specs::Island::new_island))]
    pub fn new(eps: f64) -> Self
        ensures { result ≡ new_island eps }
    {
        Self {
            delta_difference_eps: eps,
            delta: 0,
            delta_count: 0,
        }
    }

    // An island of one delta.
    #[tactic(auto, unfolding(crate::specs::Island::new_with_delta))]
    pub fn new_with_delta(delta: i32, eps: f64) -> Self
        ensures { result ≡ new_with_delta delta eps }
    {
        Self {
            delta_difference_eps: eps,
            delta: delta.max(MIN_DELTA_TIME),
            delta_count: 1,
        }
    }

    // One more delta.
    #[tactic(auto, unfolding(crate::specs::Island::add_delta))]
    pub fn add_delta(self, delta: i32) -> Self
        requires { IslandOk 31 self }
        ensures { result ≡ add_delta self delta }
    {
        Self {
            delta: settled(self.delta, delta),
            delta_count: self.delta_count + 1,
            ..self
        }
    }

    // Both have an even count of deltas, or both an odd one.
    #[tactic(auto, unfolding(crate::specs::Island::similar_of))]
    pub fn is_similar_polarity(self, other: RhythmIsland) -> bool
        requires { (non_neg self.delta_count ≡ true) × (non_neg other.delta_count ≡ true) }
        ensures { result ≡ similar_of self other }
    {
        self.delta_count % 2 == other.delta_count % 2
    }

    // It never holds, since `new` sets a delta of 0.
    #[tactic(auto, unfolding(crate::specs::Island::default_of))]
    pub fn is_default(self) -> bool
        ensures { result ≡ default_of self }
    {
        num_floats::abs(self.delta_difference_eps) < f64::EPSILON
            && self.delta == i32::MAX
            && self.delta_count == 0
    }

    // The Rust's `==`, by the tolerance of the left one. No `PartialEq`, which may not change to one: `same_of` is no equivalence.
    #[tactic(auto, unfolding(crate::specs::Island::same_of))]
    pub fn same(self, other: RhythmIsland) -> bool
        ensures { result ≡ same_of self other }
    {
        (self.delta.abs_diff(other.delta) as f64) < self.delta_difference_eps
            && self.delta_count == other.delta_count
    }
}

impl IslandCount {
    // An island of no delta, not met yet.
    pub fn new(eps: f64) -> Self
        ensures { result ≡ unmet_of eps }
    {
        let island = RhythmIsland::new(eps);
        Self { island, count: 0 }
    }
}

// The place of the first entry whose island equals this one.
fn first_same(counts: &[IslandCount], island: RhythmIsland) -> Option<usize>
    ensures { result ≡ position (λ e. same_of e.island island) counts.now }
{
    counts.iter().position(|e| e.island.same(island))
}

// The place of an island that is counted already, of the first n entries, and how many of these were compared: those up to the first
// match, or all of them. The default is not counted, whether it is found or not.
pub fn search(counts: &[IslandCount], n: usize, island: RhythmIsland) -> (Option<usize>, usize)
    requires { n ≤ length counts.now }
    ensures place { unwrap_or result.0 n ≡ place_of counts.now n island }
    ensures found { is_some result.0 ≡ ltb (place_of counts.now n island) n }
    ensures within { IfSome result.0 (λ at. at < n) }
    ensures compared { result.1 ≡ compared_of counts.now n island }
{
    match first_same(&counts[..n], island) {
        Some(at) if counts[at].island.is_default() => (None, at + 1),
        Some(at) => (Some(at), at + 1),
        None => (None, n),
    }
}

// Counted once more, where the island goes after an equal one.
#[tactic(auto, unfolding(crate::specs::Counts::bumped_of))]
pub fn bumped(e: IslandCount, more: bool) -> IslandCount
    requires { CountOk 31 e }
    ensures { result ≡ bumped_of e more }
{
    if more {
        IslandCount {
            count: e.count + 1,
            ..e
        }
    } else {
        e
    }
}

// What is to stand at an island's place: the entry there, of the first n, or a new one.
#[tactic(auto, unfolding(crate::specs::Counts::entry_of))]
pub fn entry_of(
    counts: &[IslandCount],
    n: usize,
    found: Option<usize>,
    island: RhythmIsland,
    prev: RhythmIsland,
) -> IslandCount
    requires { IfSome found (λ at. (at < n) × (at < length counts.now) × CountOk 31 (get_or counts.now at no_count)) }
    ensures { result ≡ entry_of counts.now n (unwrap_or found n) island prev }
{
    match found {
        Some(at) => bumped(counts[at], prev.same(island)),
        None => IslandCount { island, count: 1 },
    }
}
