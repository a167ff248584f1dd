//! How many groups a run has, and how many runs there are.
ghost use Rattle.std.specs.Prelude.{◌≡◌, ℕ, ◌≤◌};
ghost use Rattle.ds2_schedule.specs.Runs.{run_length, run_count};

/// The number of groups of a run: a quarter of a worker's share, from 1 to 64.
pub(crate) fn length_of_runs(groups: u64, workers: u32) -> u64
    requires { (1 ≤ workers) × (workers ≤ 64) }
    ensures { result ≡ run_length groups workers }
{
    (groups / (4 * workers as u64)).min(64).max(1)
}

/// The number of runs of that length.
pub(crate) fn number_of_runs(groups: u64, length: u64) -> u64
    requires { 1 ≤ length }
    ensures { result ≡ run_count groups length }
{
    if groups == 0 {
        0
    } else {
        (groups - 1) / length + 1
    }
}
