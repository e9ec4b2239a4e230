// What holds of the rules.
ghost use Rattle.std.specs.Prelude.{◌≡◌, ◌≢◌, ℕ};
ghost use Rattle.neph_p9msg.specs.declared.msg.Msg.{Msg};
ghost use Rattle.neph_p9srv.specs.Rules.{Server, after, fids_at};

/// A message of one domain leaves the fids of every other as they are.
pub fn others_stay()
    ensures { (s : Server) (d e : ℕ) (m : Msg) → e ≢ d → fids_at (after s d m) e ≡ fids_at s e }
{}
