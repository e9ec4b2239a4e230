// The nodes of a domain.
ghost use Rattle.std.specs.Prelude.{◌≡◌, OnOk, OnErr};
ghost use Rattle.neph_tree.specs.Nodes.{with_nodes};
ghost use Rattle.neph_xsclone.specs.Rewriting.{cloned_store, start_nodes, without_domain};

use crate::copies::copies;
use crate::start::start_nodes;
use neph_base::{DomId, NoMemory};
use neph_tree::{Place, Tree};
use std::alloc::Global;

/// Sets the nodes that a domain starts with, or none of them.
pub fn xs_start(alloc: Global, t: &mut Tree, d: DomId, name: &[u8]) -> Result<(), NoMemory>
    ensures ok { OnOk result (t.new ≡ with_nodes t.old (start_nodes d name.now)) }
    ensures err { OnErr result (t.new ≡ t.old) }
{
    match start_nodes(alloc, d, name) {
        Ok(nodes) => {
            prove!(d.get() < 64);
            t.put_nodes(nodes)
        }
        Err(error) => Err(error),
    }
}

/// Sets the copies of the parent's nodes that a clone has (Nephele's `xs_clone`), or none of them.
pub fn xs_clone(alloc: Global, t: &mut Tree, parent: DomId, child: DomId) -> Result<(), NoMemory>
    ensures ok { OnOk result (t.new ≡ cloned_store t.old parent child) }
    ensures err { OnErr result (t.new ≡ t.old) }
{
    match copies(alloc, t, parent, child) {
        Ok(nodes) => {
            prove!(child.get() < 64);
            t.put_nodes(nodes)
        }
        Err(error) => Err(error),
    }
}

/// Takes the nodes of a domain away.
pub fn xs_end(t: &mut Tree, d: DomId)
    ensures { t.new ≡ without_domain t.old d }
{
    t.cut(Place::home(d).bytes());
    t.cut(Place::new(b"/local/domain/0/backend/9pfs/", d).bytes());
    t.cut(Place::new(b"/local/domain/0/backend/console/", d).bytes());
    t.cut(Place::new(b"/local/domain/0/backend/vif/", d).bytes());
}
