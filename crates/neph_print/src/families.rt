// The families of the domains.
ghost use Rattle.std.specs.Prelude.{◌≡◌, ◌<◌, length};
ghost use Rattle.neph_model.specs.Step.{actor, child_made};
ghost use Rattle.neph_model.specs.Transcript.{families_after, start_families};

use neph_base::{Entry, Reply};

/// At the start each domain is of the family with its own number.
pub fn start_families() -> [u8; 64]
    ensures { result ≡ start_families }
{
    let mut families = [0; 64];
    for id in 0..64u8 {
        families[id as usize] = id;
    }
    families
}

/// Whose entry it is, 0 for the daemon.
pub fn actor_of(entry: Entry) -> usize
    ensures value { result ≡ actor entry }
    ensures range { result < 64 }
{
    match entry {
        Entry::Line { dom, .. } | Entry::Commit { dom, .. } => dom.get() as usize,
        Entry::Daemon => 0,
    }
}

/// The child that a commit makes has the family of its parent.
pub fn note_child(families: &mut [u8; 64], entry: &Entry, reply: &Reply)
    ensures after { families.new ≡ families_after families.old (actor entry.now)
        (child_made entry.now reply.now) }
{
    let Entry::Commit { dom, .. } = entry else {
        return;
    };
    let Reply::Child(child) = reply else {
        return;
    };
    families[child.get() as usize] = families[dom.get() as usize];
}
