// Replays the stored scripts of calls for two players over one chart.
#![tactic(auto)]

fn main() {
    test_replays::replay();
}
