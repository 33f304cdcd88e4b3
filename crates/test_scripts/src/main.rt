// Replays the stored scripts of calls on a chart and its tables.
#![tactic(auto)]

fn main() {
    test_replays::replay();
}
