// Each call once, and values that are told by their form.
use crate::{xs_clone, xs_end, xs_start};
use neph_base::{DomId, NoMemory, Path};
use neph_tree::Tree;
use std::alloc::Global;
use std::test::Fail;

// Whether the node at this path has this value.
fn has(alloc: Global, t: &Tree, text: &str, value: &str) -> Result<bool, NoMemory> {
    match Path::new(alloc, text)? {
        Some(path) => Ok(t.read(&path) == Some(value.as_bytes())),
        None => Ok(false),
    }
}

// Whether a domain's write went through.
fn wrote(alloc: Global, t: &mut Tree, me: DomId, row: (&str, &str)) -> Result<bool, NoMemory> {
    match Path::new(alloc, row.0)? {
        Some(path) => Ok(t.write(me, &path, row.1.as_bytes()).is_ok()),
        None => Ok(false),
    }
}

// A web server that is cloned.
#[test]
fn clone_of_a_domain(rt: HostRuntime) -> Result<(), Fail> {
    let alloc = rt.alloc();
    let mut t = Tree::new(alloc)?;
    let one = DomId::new(1).ok_or("id")?;
    let two = DomId::new(2).ok_or("id")?;
    xs_start(alloc, &mut t, one, b"web")?;
    assert_eq!(rt; t.nodes(), 33);
    for row in [
        ("/local/domain/1/app/domid", "12"),
        ("/local/domain/1/size", "1"),
    ] {
        assert!(rt; wrote(alloc, &mut t, one, row)?);
    }
    xs_clone(alloc, &mut t, one, two)?;
    let reads = [
        ("/local/domain/2/app/domid", "12"),
        ("/local/domain/2/domid", "2"),
        ("/local/domain/2/size", "1"),
        (
            "/local/domain/2/device/vif/backend",
            "/local/domain/0/backend/vif/2",
        ),
        ("/local/domain/2/name", "web-2"),
        (
            "/local/domain/0/backend/vif/2/frontend",
            "/local/domain/2/device/vif",
        ),
        ("/local/domain/0/backend/vif/2/frontend-id", "2"),
        ("/local/domain/1/domid", "1"),
    ];
    for (text, value) in reads {
        assert!(rt; has(alloc, &t, text, value)?);
    }
    assert_eq!(rt; t.nodes(), 64);
    Ok(())
}

// A parent that took its name away.
#[test]
fn clone_without_a_name(rt: HostRuntime) -> Result<(), Fail> {
    let alloc = rt.alloc();
    let mut t = Tree::new(alloc)?;
    let one = DomId::new(1).ok_or("id")?;
    let two = DomId::new(2).ok_or("id")?;
    xs_start(alloc, &mut t, one, b"web")?;
    let name = Path::new(alloc, "/local/domain/1/name")?.ok_or("path")?;
    assert!(rt; t.remove(one, &name).is_ok());
    xs_clone(alloc, &mut t, one, two)?;
    let path = Path::new(alloc, "/local/domain/2/name")?.ok_or("path")?;
    assert!(rt; t.read(&path).is_none());
    assert!(rt; has(alloc, &t, "/local/domain/2/domid", "2")?);
    Ok(())
}

// An id that begins another, and values that have its digits and aren't it.
#[test]
fn ids_that_begin_alike(rt: HostRuntime) -> Result<(), Fail> {
    let alloc = rt.alloc();
    let mut t = Tree::new(alloc)?;
    let one = DomId::new(1).ok_or("id")?;
    let twelve = DomId::new(12).ok_or("id")?;
    let two = DomId::new(2).ok_or("id")?;
    xs_start(alloc, &mut t, one, b"p")?;
    xs_start(alloc, &mut t, twelve, b"q")?;
    let rows = [
        ("/local/domain/1/a/frontend", "/local/domain/12/y"),
        ("/local/domain/1/b/frontend", "/local/domain/1/y"),
        (
            "/local/domain/1/c/backend",
            "/local/domain/0/backend/zz/1/q",
        ),
        ("/local/domain/1/d/backend", "/local/domain/0/backend/z.z/1"),
        ("/local/domain/1/name", "r"),
    ];
    for row in rows {
        assert!(rt; wrote(alloc, &mut t, one, row)?);
    }
    xs_clone(alloc, &mut t, one, two)?;
    let reads = [
        ("/local/domain/2/a/frontend", "/local/domain/12/y"),
        ("/local/domain/2/b/frontend", "/local/domain/2/y"),
        (
            "/local/domain/2/c/backend",
            "/local/domain/0/backend/zz/2/q",
        ),
        ("/local/domain/2/d/backend", "/local/domain/0/backend/z.z/1"),
        ("/local/domain/2/name", "r-2"),
    ];
    for (text, value) in reads {
        assert!(rt; has(alloc, &t, text, value)?);
    }
    xs_end(&mut t, one);
    xs_end(&mut t, two);
    assert_eq!(rt; t.nodes(), 33);
    Ok(())
}
