// What is served.
ghost use Rattle.std.specs.Prelude.{◌≡◌, IfOk, OnOk, OnErr, replicate};
ghost use Rattle.std.specs.Option.{option_copied};
ghost use Rattle.std.specs.FinMap as fin;
ghost use Rattle.neph_p9msg.specs.Grammar.{IsMessage};
ghost use Rattle.neph_p9srv.specs.State.{AreItems, body_of, nodes_of};
ghost use Rattle.neph_p9srv.specs.Rules.{after, answer, bad_bytes, fids_at, with_fids_at};

use crate::error::P9Error;
use crate::fid_map::FidMap;
use crate::requests::handle;
use crate::tree::Tree;
use neph_base::{Bytes, DomId, IDS, Names, NoMemory};
use neph_p9msg::{Msg, NOTAG};
use std::alloc::Global;
use std::marker::Model;

/// A node of the served tree, as the lines of a script give them.
#[derive(Debug, Drop)]
pub struct FileItem {
    /// The names that lead to it from the root, its own last.
    pub path: Names,
    /// The bytes of a file, `None` for a directory.
    pub body: Option<Bytes>,
}

/// A tree of files that is served to the domains, and the fids of each. Contracts see the nodes,
/// the root first, and a finite map from fids for each domain.
#[derive(Drop)]
pub struct Served {
    tree: Tree,
    fids: Vec<FidMap>,
}

impl Model for Served {
    ghost use Rattle.std.specs.Prelude.{◌≡◌, length};
    ghost use Rattle.std.specs.FinMap as fin;
    ghost use Rattle.std.specs.Coded.{codes, coded_ℕ, coded_list};
    ghost use base.Stored.{coded×, coded_via};
    ghost use Rattle.neph_base.specs.declared.sizes.TheConstants.{IDS};
    ghost use Rattle.neph_p9srv.specs.Rules.{Server};

    ghost Value = { Server };

    ghost coded = { coded_via
        (coded× (Prim.hlevel codes) (coded_list (fin.code coded_ℕ (Prim.hlevel codes))))
        (λ s. (s.nodes, s.fids)) (λ s t e i. record { nodes = (e i).0; fids = (e i).1 }) };

    ghost view = { λ s. record { nodes = s.tree; fids = s.fids.items } };

    ghost invariant = { λ s. length s.fids.items ≡ IDS };
}

/// The answer to bytes that are no message.
pub fn bad_message(alloc: Global) -> Result<Msg, NoMemory>
    ensures value { IfOk result (λ r. r ≡ bad_bytes) }
    ensures message { IfOk result IsMessage }
{
    let body = P9Error::BadMessage.answer(alloc)?;
    Ok(Msg { tag: NOTAG, body })
}

impl Served {
    /// Serves these nodes. No domain holds a fid.
    pub fn new(alloc: Global, nodes: &[FileItem]) -> Result<Served, NoMemory>
        requires { AreItems nodes.now }
        ensures { IfOk result (λ s.
            s ≡ record { nodes = nodes_of nodes.now; fids = replicate IDS fin.empty }) }
    {
        let tree = Tree::new(alloc, nodes)?;
        let mut fids = Vec::new(alloc);
        for _ in 0..IDS {
            fids.push(FidMap::new(alloc))?;
        }
        Ok(Served { tree, fids })
    }

    /// Answers a message of a domain, with its tag. What any other domain holds stays, and after
    /// `NoMemory` all is as before.
    pub fn serve(&mut self, d: DomId, m: &Msg) -> Result<Msg, NoMemory>
        requires { IsMessage m.now }
        ensures answer { IfOk result (λ r. r ≡ answer self.old d m.now) }
        ensures after { OnOk result (self.new ≡ after self.old d m.now) }
        ensures err { OnErr result (self.new ≡ self.old) }
        ensures message { IfOk result IsMessage }
    {
        let alloc = *self.fids.allocator();
        let own = &mut self.fids[d.get() as usize];
        let body = handle(alloc, &mut self.tree, own, &m.body)?;
        Ok(Msg { tag: m.tag, body })
    }

    /// Gives the child a copy of each fid of its parent, in place of what it held.
    pub fn clone_fids(&mut self, parent: DomId, child: DomId) -> Result<(), NoMemory>
        ensures ok { OnOk result
            (self.new ≡ with_fids_at self.old child (fids_at self.old parent)) }
        ensures err { OnErr result (self.new ≡ self.old) }
    {
        let copy = self.fids[parent.get() as usize].try_clone()?;
        self.fids[child.get() as usize] = copy;
        Ok(())
    }

    /// Ends all fids of a domain.
    pub fn drop_domain(&mut self, d: DomId)
        ensures { self.new ≡ with_fids_at self.old d fin.empty }
    {
        let none = FidMap::new(*self.fids.allocator());
        self.fids[d.get() as usize] = none;
    }

    /// The bytes of the n-th node, counted from 1; `None` exactly where that is no file.
    pub fn file(&self, n: u8) -> Option<&[u8]>
        ensures { option_copied result ≡ body_of self.now.nodes n }
    {
        self.tree.body(u32::from(n))
    }
}
