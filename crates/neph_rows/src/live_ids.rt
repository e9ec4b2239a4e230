// The live ids, as bits of a word.
ghost use Rattle.std.specs.Prelude.{◌≡◌, ◌≢◌, ◌<◌, ◌≤◌, ℕ, IfNone, IfSome, if◌then◌else◌, length};
ghost use Rattle.std.specs.Int.{bit_at};
ghost use Rattle.neph_rows.specs.Live.{AreLiveIds};

use neph_model::Life;

/// The live ids.
pub fn live_ids(lives: &[Option<Life>]) -> u64
    requires { length lives.now ≤ 64 }
    ensures { AreLiveIds result lives.now }
{
    let mut ids = 0;
    for (id, life) in lives.iter().enumerate() {
        ids = with_id(ids, id, life.is_some());
    }
    ids
}

/// These ids, with this one among them or not.
pub fn with_id(ids: u64, id: usize, is_in: bool) -> u64
    requires { id < 64 }
    ensures this { bit_at result id ≡ (if is_in then 1 else 0) }
    ensures others { (k : ℕ) → k < 64 → k ≢ id → bit_at result k ≡ bit_at ids k }
{
    if is_in {
        ids | (1 << id)
    } else {
        ids & !(1 << id)
    }
}

/// The first of these ids from one on.
pub fn first_from(ids: u64, from: u32) -> Option<u32>
    ensures within { IfSome result (λ id. id < 64) }
    ensures from { IfSome result (λ id. from ≤ id) }
    ensures found { IfSome result (λ id. bit_at ids id ≡ 1) }
    ensures first { IfSome result (λ id. (k : ℕ) → from ≤ k → k < id → bit_at ids k ≡ 0) }
    ensures none { IfNone result ((k : ℕ) → from ≤ k → k < 64 → bit_at ids k ≡ 0) }
{
    if from >= 64 {
        return None;
    }
    let left = ids >> from;
    if left == 0 {
        return None;
    }
    Some(from + left.trailing_zeros())
}
