// Whether a clone may begin.
ghost use Rattle.std.specs.Prelude.{◌≡◌, ◌<◌, ◌≤◌};
ghost use Rattle.neph_clone.specs.Admission.{admission, clone_need};

use neph_base::{DomId, IDS, MAX_PAGES, Refusal, TABLE_ENTRIES};

/// The most clones that a domain may be allowed.
pub const MAX_CLONES: usize = 62;

/// What is known of a domain that asks to be cloned, and of the machine.
#[derive(Clone, Copy, Debug, PartialEq, Eq)]
pub struct CloneFacts {
    /// How many clones the domain has begun.
    pub accepted: u8,
    /// How many it may begin.
    pub limit: u8,
    /// The id that the machine gives next; 64 after 63 was given.
    pub next: u8,
    /// Whether the domain has its network page to itself.
    pub exclusive: bool,
    /// Whether its 9P page holds an unanswered request.
    pub asked: bool,
    /// How many leaf tables it has.
    pub leaves: u32,
    /// How many of its pages are exposed.
    pub exposed: u32,
    /// How many frames of the machine are free.
    pub free: u32,
}

/// How many frames the clone needs: one for the root table, those of the leaf tables, one for the
/// identity page and those of the exposed pages.
fn clone_need(f: &CloneFacts) -> u32
    requires leaves { f.now.leaves ≤ TABLE_ENTRIES }
    requires exposed { f.now.exposed ≤ MAX_PAGES }
    ensures { result ≡ clone_need f.now }
{
    1 + f.leaves + 1 + f.exposed
}

/// The child's id, or why the clone is refused: the first of the domain's limit, the ids, the
/// policies of its network page and its 9P page, and the frames.
pub fn admit(f: &CloneFacts) -> Result<DomId, Refusal>
    requires given { 0 < f.now.next }
    requires next { f.now.next ≤ IDS }
    requires accepted { f.now.accepted ≤ MAX_CLONES }
    requires limit { f.now.limit ≤ MAX_CLONES }
    requires leaves { f.now.leaves ≤ TABLE_ENTRIES }
    requires exposed { f.now.exposed ≤ MAX_PAGES }
    ensures { result ≡ admission f.now }
{
    if f.accepted == f.limit {
        return Err(Refusal::Limit);
    }
    let Some(child) = DomId::new(u32::from(f.next)) else {
        return Err(Refusal::Ids);
    };
    if f.exclusive {
        return Err(Refusal::PolicyNet);
    }
    if f.asked {
        return Err(Refusal::PolicyP9);
    }
    let need = clone_need(f);
    if need > f.free {
        return Err(Refusal::Frames { need, free: f.free });
    }
    Ok(child)
}
