// Each call once, and the largest home.
use crate::refusals::{RemoveRefused, WriteRefused};
use crate::tree::Tree;
use neph_base::{DomId, NoMemory, Path};
use std::alloc::Global;
use std::test::Fail;

// Writes at the path, which is one.
fn written(
    alloc: Global,
    t: &mut Tree,
    me: DomId,
    text: &str,
) -> Result<Option<Result<(), WriteRefused>>, NoMemory> {
    match Path::new(alloc, text)? {
        Some(path) => Ok(Some(t.write(me, &path, b"1"))),
        None => Ok(None),
    }
}

// What a domain may write and remove.
#[test]
fn writes_and_removals(rt: HostRuntime) -> Result<(), Fail> {
    let alloc = rt.alloc();
    let mut t = Tree::new(alloc)?;
    let one = DomId::new(1).ok_or("id")?;
    for text in ["/local/domain/12/x", "/local/domain", "/"] {
        assert!(rt; written(alloc, &mut t, one, text)? == Some(Err(WriteRefused::NotYours)));
    }
    for text in ["/local/domain/1/a/b", "/local/domain/1/a-b"] {
        assert!(rt; written(alloc, &mut t, one, text)? == Some(Ok(())));
    }
    assert_eq!(rt; t.nodes(), 7);
    let path = Path::new(alloc, "/local/domain/1/a")?.ok_or("path")?;
    assert!(rt; t.read(&path) == Some(b"".as_slice()));
    assert!(rt; t.remove(one, &path) == Ok(()));
    assert!(rt; t.remove(one, &path) == Err(RemoveRefused::NoPath));
    assert_eq!(rt; t.nodes(), 5);
    Ok(())
}

// The calls that know no owner.
#[test]
fn nodes_in_order(rt: HostRuntime) -> Result<(), Fail> {
    let alloc = rt.alloc();
    let mut t = Tree::new(alloc)?;
    let path = Path::new(alloc, "/a/x")?.ok_or("path")?;
    t.put_node(path.bytes(), b"1")?;
    let (text, _) = t.node(1)?.ok_or("node")?;
    assert_eq!(rt; text.items().len(), 2);
    assert_eq!(rt; t.subtree(path.bytes())?.len(), 1);
    let root = Path::new(alloc, "/")?.ok_or("path")?;
    let names = t.list(&root)?.ok_or("names")?;
    assert_eq!(rt; names.items().len(), 1);
    t.cut(root.bytes());
    assert_eq!(rt; t.nodes(), 0);
    Ok(())
}

// 256 nodes and one more, and a value that is replaced in the full home.
#[test]
fn largest_home(rt: HostRuntime) -> Result<(), Fail> {
    let alloc = rt.alloc();
    let mut t = Tree::new(alloc)?;
    let one = DomId::new(1).ok_or("id")?;
    for i in 0..256u32 {
        let text = format!(in alloc; "/local/domain/1/n{i}")?;
        let answer = if i < 255 {
            Ok(())
        } else {
            Err(WriteRefused::NodeLimit)
        };
        assert!(rt; written(alloc, &mut t, one, &text)? == Some(answer));
    }
    let path = Path::new(alloc, "/local/domain/1/n7")?.ok_or("path")?;
    assert!(rt; t.write(one, &path, b"2") == Ok(()));
    assert!(rt; t.read(&path) == Some(b"2".as_slice()));
    assert_eq!(rt; t.nodes(), 259);
    Ok(())
}
