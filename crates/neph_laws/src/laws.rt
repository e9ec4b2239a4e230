// Laws of the definitions.
ghost use Rattle.neph_model.specs.Laws.{LocalAlone, LocalMoves, SharedReplays, WeavesLegally, TracksByCut, MovesOn, RefusesPlainly, StaysApart, StaysGranted, WritesFlatly, ReadsFlatly, WritesAlone, CopiesItsParent};

/// A local entry reads and changes its domain's own half alone.
pub fn local_alone()
    ensures { LocalAlone }
{}

/// A local entry may change places with any neighbouring entry of another actor but the commit that
/// makes its domain.
pub fn local_moves()
    ensures { LocalMoves }
{}

/// The shared half of a legal history is the replay of its journal.
pub fn shared_replays()
    ensures { SharedReplays }
{}

/// The weave of a replayed journal with the domains' logs is a legal history.
pub fn weaves_legally()
    ensures { WeavesLegally }
{}

/// What a worker knows by the journal cut to its domain, it knows by the whole journal.
pub fn tracks_by_cut()
    ensures { TracksByCut }
{}

/// A call moves its domain's line by one, or leaves it where a clone begins, and keeps its number
/// of pages.
pub fn moves_on()
    ensures { MovesOn }
{}

/// A refused line moves its domain on and marks it, and changes nothing else.
pub fn refuses_plainly()
    ensures { RefusesPlainly }
{}

/// An entry leaves each page of each domain in one half alone, where it was so.
pub fn stays_apart()
    ensures { StaysApart }
{}

/// An entry leaves each grant of each domain one of an exposed page of its own, where it was so.
pub fn grants_stay()
    ensures { StaysGranted }
{}

/// Whether a page is exposed shows in no `w`.
pub fn writes_flatly()
    ensures { WritesFlatly }
{}

/// Whether a page is exposed shows in no `r`.
pub fn reads_flatly()
    ensures { ReadsFlatly }
{}

/// A line of one domain leaves the own half of every other as it was.
pub fn writes_alone()
    ensures { WritesAlone }
{}

/// The child that a commit makes is its parent in all but the listed parts.
pub fn copies_its_parent()
    ensures { CopiesItsParent }
{}
