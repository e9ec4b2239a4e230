// Nodes in the order of their paths.
ghost use Rattle.std.specs.Prelude.{◌≡◌, T, OnOk};
ghost use Rattle.std.specs.Ordering.{nat_cmp};
ghost use Rattle.std.specs.Cmp.Lexicographic.{slice_cmp};
ghost use Rattle.std.specs.FinMap.Entries.{is_sorted, put};
ghost use Rattle.neph_tree.specs.Entries.{lent};

use neph_base::NoMemory;
use std::cmp::Ordering;

// Puts a node in its place, which is mostly behind the last.
pub(crate) fn put_by_path<'t>(
    found: &mut Vec<(&'t [u8], &'t [u8])>,
    path: &'t [u8],
    value: &'t [u8],
) -> Result<(), NoMemory>
    requires { T (is_sorted (slice_cmp nat_cmp) (lent found.old.items)) }
    ensures { OnOk result (lent found.new.items
        ≡ put (slice_cmp nat_cmp) path.now value.now (lent found.old.items)) }
{
    let Some(last) = found.pop() else {
        found.push((path, value))?;
        return Ok(());
    };
    match path.cmp(last.0) {
        Ordering::Less => {
            put_by_path(found, path, value)?;
            found.push(last)?;
            Ok(())
        }
        Ordering::Equal => {
            found.push((last.0, value))?;
            Ok(())
        }
        Ordering::Greater => {
            found.push(last)?;
            found.push((path, value))?;
            Ok(())
        }
    }
}
