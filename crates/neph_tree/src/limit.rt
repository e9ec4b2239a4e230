// Writes within a limit.
ghost use Rattle.std.specs.Prelude.{◌≡◌, false, IsTrue, IfErr, OnOk, OnErr};
ghost use Rattle.std.specs.FinMap.{contains_key};
ghost use Rattle.neph_base.specs.Path.{is_path};
ghost use Rattle.neph_tree.specs.Nodes.{IsTree, with_node};
ghost use Rattle.neph_tree.specs.Places.{home};
ghost use Rattle.neph_tree.specs.Refusals.{is_over, FailsWithin};

use crate::growth::{cut_front, make};
use crate::node_map::NodeMap;
use crate::refusals::{DOMAIN_NODES, WriteRefused};
use neph_base::DomId;

// Sets a node, where the domain's home doesn't come to more than `DOMAIN_NODES` nodes.
pub(crate) fn put_within(
    nodes: &mut NodeMap,
    me: DomId,
    path: &[u8],
    value: Vec<u8>,
) -> Result<(), WriteRefused>
    requires tree { IsTree nodes.old }
    requires path { IsTrue (is_path path.now) }
    ensures ok { OnOk result (nodes.new ≡ with_node nodes.old path.now value.items) }
    ensures allowed { OnOk result
        (is_over (with_node nodes.old path.now value.items) (home me) ≡ false) }
    ensures why { IfErr result (FailsWithin (with_node nodes.old path.now value.items) me) }
    ensures err { OnErr result (nodes.new ≡ nodes.old) }
{
    // A node that is there may get another value, unless the home is too large as it is.
    if is_over(nodes, me) && nodes.contains(path) {
        return Err(WriteRefused::NodeLimit);
    }
    match nodes.replace(path, value) {
        Some(value) => make_within(nodes, me, path, value),
        None => Ok(()),
    }
}

// The same of a node that isn't there: it is made, and taken back where it is too many.
fn make_within(
    nodes: &mut NodeMap,
    me: DomId,
    path: &[u8],
    value: Vec<u8>,
) -> Result<(), WriteRefused>
    requires tree { IsTree nodes.old }
    requires path { IsTrue (is_path path.now) }
    requires new { contains_key nodes.old path.now ≡ false }
    ensures ok { OnOk result (nodes.new ≡ with_node nodes.old path.now value.items) }
    ensures allowed { OnOk result
        (is_over (with_node nodes.old path.now value.items) (home me) ≡ false) }
    ensures why { IfErr result (FailsWithin (with_node nodes.old path.now value.items) me) }
    ensures err { OnErr result (nodes.new ≡ nodes.old) }
{
    match make(nodes, None, path, value) {
        Ok(made) => {
            if is_over(nodes, me) {
                cut_front(nodes, path, made.top);
                return Err(WriteRefused::NodeLimit);
            }
            Ok(())
        }
        Err(_) => Err(WriteRefused::NoMemory),
    }
}

fn is_over(nodes: &NodeMap, me: DomId) -> bool
    ensures { result ≡ is_over nodes.now (home me) }
{
    nodes.count_of(me) > DOMAIN_NODES
}
