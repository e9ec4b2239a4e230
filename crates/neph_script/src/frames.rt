// How many frames the starting domains need.
ghost use Rattle.std.specs.Prelude.{◌≡◌, ◌≤◌, ◌*◌, ◌∷◌, [], length};
ghost use Rattle.neph_model.specs.WellFormed.{frames_of_starts};
ghost use Rattle.neph_script.specs.Seen.{AreSized};

use neph_model::Start;

/// The frames that some starting domains need.
pub fn frames_of_starts(starts: &[Start]) -> u32
    requires sized { AreSized starts.now }
    requires few { length starts.now ≤ 16 }
    ensures value { result ≡ frames_of_starts starts.now }
    ensures small { result ≤ length starts.now * 1027 }
{
    let mut sum = 0;
    for start in starts {
        sum += frames_of_start(*start);
    }
    sum
}

/// The frames that a starting domain needs: one for each page, one for its root table, and its
/// leaf tables.
pub fn frames_of_start(start: Start) -> u32
    requires { start.pages ≤ 1024 }
    ensures value { result ≡ frames_of_starts (start ∷ []) }
    ensures small { result ≤ 1027 }
{
    let pages = u32::from(start.pages);
    pages + 1 + (pages + 511) / 512
}
