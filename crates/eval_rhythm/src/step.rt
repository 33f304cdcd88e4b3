// A turn of the loop of evaluators/rhythm.rs.
ghost use Rattle.std.specs.Prelude.{◌≡◌, ℕ, false, cond, List, ◌+◌, ◌≤◌, ◌<◌, get_or, length, Float};
ghost use Rattle.eval_rhythm.specs.Island.{IslandOk};
ghost use Rattle.eval_rhythm.specs.Counts.{CountOk, no_count, place_of};
ghost use Rattle.eval_rhythm.specs.Step.{scaled_of, effective_of, decay_of, faster_twice, switch_ratio, factor_of, last_ratio};
ghost use Rattle.eval_rhythm.specs.Step.{progressed_of, began_of, switched_of, fresh_state, deltas_of};
ghost use Rattle.eval_rhythm.specs.Step.{switches_of, passes_of, ratio_of, walk_of, switch_step, step_by, step_of};
ghost use Rattle.eval_rhythm.specs.Comparisons.{compared_at, compared_in};
ghost use Rattle.eval_rhythm.specs.declared.island.IslandCount.{IslandCount};

use crate::island::{IslandCount, RhythmIsland};
use crate::{HISTORY_TIME_MAX, island};

const RHYTHM_RATIO_MULTIPLIER: f64 = 15.0;

// What a delta time is held to at least, so that it can be divided by.
const LEAST_DELTA: f64 = 0.0000001;

// What the turns of the loop carry beside the island counts, of which there are n.
#[derive(Clone, Copy)]
pub struct RhythmState {
    pub island: RhythmIsland,
    pub prev_island: RhythmIsland,
    pub first_delta_switch: bool,
    pub start_ratio: f64,
    pub sum: f64,
    pub n: usize,
}

// What a turn gives: the state after it, and how many entries were compared.
#[derive(Clone, Copy)]
pub struct Turn {
    pub state: RhythmState,
    pub compared: usize,
}

// What the evaluator reads of a record and its base object.
#[derive(Clone, Copy)]
pub struct Cell {
    pub start_time: f64,
    pub delta_time: f64,
    pub slider: bool,
    pub spinner: bool,
}

// The delta times of three records in a row.
#[derive(Clone, Copy)]
pub struct Deltas {
    pub curr: f64,
    pub prev: f64,
    pub last: f64,
}

impl Deltas {
    // Of three cells, each held to the least.
    pub fn new(curr: Cell, prev: Cell, last: Cell) -> Self
        ensures { result ≡ deltas_of curr prev last }
    {
        Self {
            curr: num_floats::max(curr.delta_time, LEAST_DELTA),
            prev: num_floats::max(prev.delta_time, LEAST_DELTA),
            last: num_floats::max(last.delta_time, LEAST_DELTA),
        }
    }
}

// x times k where b is set.
#[tactic(auto, unfolding(crate::specs::Step::scaled_of))]
pub fn scaled(x: f64, b: bool, k: f64) -> f64
    ensures { result ≡ scaled_of x b k }
{
    if b { x * k } else { x }
}

// How much the change of two delta times deserves a bonus.
#[tactic(auto, unfolding(crate::specs::Step::effective_of))]
pub fn effective(prev: f64, curr: f64, eps: f64) -> f64
    ensures { result ≡ effective_of prev curr eps }
{
    let difference = num_floats::max(prev, curr) / num_floats::min(prev, curr);
    let fraction = difference - num_whole::trunc(difference);
    let ratio = 1.0
        + RHYTHM_RATIO_MULTIPLIER
            * num_floats::min(
                num_util::difficulty::smoothstep_bell_curve(fraction, 0.5, 0.5),
                0.5,
            );
    let multiplier = num_floats::clamp(2.0 - difference / 8.0, 0.0, 1.0);
    let penalty = num_floats::min(
        num_floats::max(num_floats::abs(prev - curr) - eps, 0.0) / eps,
        1.0,
    );
    penalty * ratio * multiplier
}

// How much the record k places back counts, of hist that may.
#[tactic(auto, unfolding(crate::specs::Step::decay_of))]
pub fn decay(start: f64, other: f64, hist: usize, k: usize) -> f64
    requires { (k ≤ hist) × (hist ≤ 32) }
    ensures { result ≡ decay_of start other hist k }
{
    let time_decay = (HISTORY_TIME_MAX - (start - other)) / HISTORY_TIME_MAX;
    let note_decay = ((hist - k) as f64) / (hist as f64);
    num_floats::min(note_decay, time_decay)
}

// The previous increase of speed happened a note ago.
#[tactic(auto, unfolding(crate::specs::Step::faster_twice))]
pub fn faster_twice(d: Deltas, eps: f64) -> bool
    ensures { result ≡ faster_twice d eps }
{
    d.last > d.prev + eps && d.prev > d.curr + eps
}

// For an island that was counted so often.
#[tactic(auto, unfolding(crate::specs::Step::factor_of))]
pub fn factor(delta: i32, count: u32) -> f64
    ensures { result ≡ factor_of delta count }
{
    let power = num_util::difficulty::logistic(delta as f64, 58.33, 0.24, 2.75);
    let n = count as f64;
    num_floats::min(3.0 / n, num_elementary::power(1.0 / n, power))
}

// The ratio of a switch before the island counts.
#[tactic(auto, unfolding(crate::specs::Step::switch_ratio))]
pub fn switch_ratio(
    ratio: f64,
    curr_slider: bool,
    prev_slider: bool,
    similar: bool,
    faster: bool,
    equal: bool,
) -> f64
    ensures { result ≡ switch_ratio ratio curr_slider prev_slider similar faster equal }
{
    let r1 = scaled(ratio, curr_slider, 0.125);
    let r2 = scaled(r1, prev_slider, 0.3);
    let r3 = scaled(r2, similar, 0.5);
    let r4 = scaled(r3, faster, 0.125);
    scaled(r4, equal, 0.5)
}

// The ratio after the counts and the doubletap penalty.
#[tactic(auto, unfolding(crate::specs::Step::last_ratio))]
pub fn last_ratio(ratio: f64, repeated: bool, delta: i32, count: u32, tap: f64) -> f64
    ensures { result ≡ last_ratio ratio repeated delta count tap }
{
    if repeated {
        return ratio * factor(delta, count) * (1.0 - tap * 0.75);
    }
    ratio * (1.0 - tap * 0.75)
}

// How many entries there are after a switch.
pub fn entries_after(n: usize, repeated: bool) -> usize
    requires { n < 32 }
    ensures { result ≡ cond repeated n (n + 1) }
{
    if repeated { n } else { n + 1 }
}

impl RhythmState {
    // Before the first turn.
    #[tactic(auto, unfolding(crate::specs::Step::fresh_state))]
    pub fn new(eps: f64) -> Self
        ensures { result ≡ fresh_state eps }
    {
        Self {
            island: RhythmIsland::new(eps),
            prev_island: RhythmIsland::new(eps),
            first_delta_switch: false,
            start_ratio: 0.0,
            sum: 0.0,
            n: 0,
        }
    }

    // The island is still progressing.
    #[tactic(auto, unfolding(crate::specs::Step::progressed_of))]
    pub fn progressed(self, delta: i32) -> Self
        requires { IslandOk 31 self.island }
        ensures { result ≡ progressed_of self delta }
    {
        Self {
            island: self.island.add_delta(delta),
            ..self
        }
    }

    // Speeding up: an island begins.
    #[tactic(auto, unfolding(crate::specs::Step::began_of))]
    pub fn began(self, ratio: f64, delta: i32, eps: f64) -> Self
        ensures { result ≡ began_of self ratio delta eps }
    {
        Self {
            island: RhythmIsland::new_with_delta(delta, eps),
            first_delta_switch: true,
            start_ratio: ratio,
            ..self
        }
    }

    // A switch: the island ends, and another begins.
    #[tactic(auto, unfolding(crate::specs::Step::switched_of))]
    pub fn switched(
        self,
        ratio: f64,
        repeated: bool,
        on: bool,
        decay: f64,
        delta: i32,
        eps: f64,
    ) -> Self
        requires { self.n < 32 }
        ensures { result ≡ switched_of self ratio repeated on decay delta eps }
    {
        let root = num_roots::root(ratio * self.start_ratio);
        Self {
            island: RhythmIsland::new_with_delta(delta, eps),
            prev_island: self.island,
            first_delta_switch: on,
            start_ratio: ratio,
            sum: self.sum + root * decay,
            n: entries_after(self.n, repeated),
        }
    }

    // The delta changes while an island is counted.
    #[tactic(auto, unfolding(crate::specs::Step::switches_of))]
    pub fn switches(self, d: Deltas, eps: f64) -> bool
        ensures { result ≡ switches_of self d eps }
    {
        self.first_delta_switch && !(num_floats::abs(d.prev - d.curr) < eps)
    }

    // The search goes past i, where entry stands: it is one of the n, and not the island's.
    #[tactic(auto, unfolding(crate::specs::Step::passes_of))]
    pub fn passes(self, i: usize, entry: IslandCount) -> bool
        ensures { result ≡ passes_of self i entry }
    {
        i < self.n && !entry.island.same(self.island)
    }

    // The ratio of a switch before the island counts.
    #[tactic(auto, unfolding(crate::specs::Step::ratio_of))]
    pub fn ratio(self, d: Deltas, curr: Cell, prev: Cell, eps: f64) -> f64
        requires { (IslandOk 31 self.island) × (IslandOk 31 self.prev_island) }
        ensures { result ≡ ratio_of self (effective_of d.prev d.curr eps) d curr prev eps }
    {
        switch_ratio(
            effective(d.prev, d.curr, eps),
            curr.slider,
            prev.slider,
            self.island.is_similar_polarity(self.prev_island),
            faster_twice(d, eps),
            self.prev_island.delta_count == self.island.delta_count,
        )
    }

    // A switch: the island that ends is counted, and another begins.
    pub fn switch_step(
        self,
        counts: &mut [IslandCount],
        d: Deltas,
        curr: Cell,
        prev: Cell,
        decay: f64,
        window: f64,
        eps: f64,
    ) -> Turn
        requires { (self.n < 32) × (self.n < length counts.old) × (IslandOk 31 self.island) × (IslandOk 31 self.prev_island)
            × (let at = place_of counts.old self.n self.island in at < self.n → CountOk 31 (get_or counts.old at no_count)) }
        ensures turn { walk_of result.state counts.new
            ≡ switch_step (walk_of self counts.old) (effective_of d.prev d.curr eps) d curr prev decay window eps }
        ensures compared { result.compared ≡ compared_at (walk_of self counts.old) }
    {
        let n = self.n;
        let island = self.island;
        let (found, compared) = island::search(counts, n, island);
        let place = found.unwrap_or(n);
        let entry = island::entry_of(counts, n, found, island, self.prev_island);
        counts[place] = entry;
        let ratio = self.ratio(d, curr, prev, eps);
        let tap_window = osu_difficulty_object::window_of(prev.spinner, window);
        let tap = osu_difficulty_object::tapness(prev.delta_time, curr.delta_time, tap_window);
        let repeated = found.is_some();
        let last = last_ratio(ratio, repeated, island.delta, entry.count, tap);
        let on = !(d.prev + eps < d.curr);
        let state = self.switched(last, repeated, on, decay, num_whole::to_i32(d.curr), eps);
        Turn { state, compared }
    }

    // The state after a turn that does not switch: the island goes on, another begins, or nothing changes.
    pub fn other_step(self, d: Deltas, curr: Cell, prev: Cell, eps: f64) -> Self
        requires { (switches_of self d eps ≡ false) × (IslandOk 31 self.island) }
        ensures { (es : List IslandCount) (decay window : Float)
            → walk_of result es ≡ step_by (walk_of self es) d curr prev decay window eps }
    {
        if self.first_delta_switch {
            return self.progressed(num_whole::to_i32(d.curr));
        }
        if d.prev > d.curr + eps {
            let ratio = effective(d.prev, d.curr, eps);
            let r = scaled(scaled(ratio, curr.slider, 0.6), prev.slider, 0.6);
            return self.began(r, num_whole::to_i32(d.curr), eps);
        }
        self
    }

    // The turn of the record in `curr`, which two others precede.
    pub fn turn(
        self,
        counts: &mut [IslandCount; 32],
        curr: Cell,
        prev: Cell,
        last: Cell,
        decay: f64,
        window: f64,
        eps: f64,
    ) -> Turn
        requires { (self.n < 32) × (IslandOk 31 self.island) × (IslandOk 31 self.prev_island)
            × (let at = place_of counts.old self.n self.island in at < self.n → CountOk 31 (get_or counts.old at no_count)) }
        ensures turn { walk_of result.state counts.new ≡ step_of (walk_of self counts.old) curr prev last decay window eps }
        ensures compared { result.compared ≡ compared_in (walk_of self counts.old) curr prev last eps }
    {
        let d = Deltas::new(curr, prev, last);
        if self.switches(d, eps) {
            return self.switch_step(&mut counts[..], d, curr, prev, decay, window, eps);
        }
        Turn {
            state: self.other_step(d, curr, prev, eps),
            compared: 0,
        }
    }
}
