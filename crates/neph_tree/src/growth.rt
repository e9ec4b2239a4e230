// Nodes that are made with those above them.
ghost use Rattle.std.specs.Prelude.{◌≡◌, ◌≤◌, true, not, None, IsTrue, IfOk, OnOk, OnErr, length};
ghost use Rattle.std.specs.Option.{ForSome, IsSomeAnd};
ghost use Rattle.std.specs.FinMap.{contains_key};
ghost use Rattle.neph_base.specs.Path.{is_path};
ghost use Rattle.neph_tree.specs.Places.{ancestors, is_within};
ghost use Rattle.neph_tree.specs.Nodes.{IsTree, with_missing, with_each_missing, with_nodes};
ghost use Rattle.neph_tree.specs.Entries.{shown};
ghost use Rattle.neph_tree.specs.Growth.{first_made, with_added, with_made, with_each_made, with_values, without_front, IsGrown, ArePaths, HasEach};

use crate::node_map::{NodeMap, copy_of};
use crate::places::{is_within, last_slash};
use neph_base::{NoMemory, SLASH};
use std::alloc::Global;

// What a call made.
#[derive(Clone, Copy)]
pub(crate) struct Made {
    // The length of the path of the first node that it made, if it made one.
    pub(crate) top: Option<usize>,
    // Whether it made the node itself.
    pub(crate) itself: bool,
}

// Makes the node, if it is missing, and those above it. `near` is the path of a node that is there:
// where it lies within the path above, all above are there.
pub(crate) fn make(
    nodes: &mut NodeMap,
    near: Option<&[u8]>,
    path: &[u8],
    value: Vec<u8>,
) -> Result<Made, NoMemory>
    requires tree { IsTree nodes.old }
    requires near { ForSome near (λ n. contains_key nodes.old n.now ≡ true) }
    requires path { IsTrue (is_path path.now) }
    ensures ok { OnOk result (nodes.new ≡ with_made nodes.old path.now value.items) }
    ensures grown { IfOk result (λ made.
        IsGrown nodes.old nodes.new path.now made.top (length path.now)) }
    ensures itself { IfOk result (λ made. made.itself ≡ not (contains_key nodes.old path.now)) }
    ensures err { OnErr result (nodes.new ≡ nodes.old) }
{
    let mut top = None;
    match grow_and_add(nodes, near, path, value, &mut top) {
        Ok(itself) => Ok(Made { top, itself }),
        Err(error) => {
            cut_front(nodes, path, top);
            Err(error)
        }
    }
}

// Takes away what lies within the front of this length.
pub(crate) fn cut_front(nodes: &mut NodeMap, path: &[u8], top: Option<usize>)
    requires { ForSome top (λ end. end ≤ length path.now) }
    ensures { nodes.new ≡ without_front nodes.old path.now top }
{
    if let Some(end) = top {
        nodes.cut(&path[..end]);
    }
}

// `make` without its last step: after want of memory some nodes are made.
fn grow_and_add(
    nodes: &mut NodeMap,
    near: Option<&[u8]>,
    path: &[u8],
    value: Vec<u8>,
    top: &mut Option<usize>,
) -> Result<bool, NoMemory>
    requires tree { IsTree nodes.old }
    requires near { ForSome near (λ n. contains_key nodes.old n.now ≡ true) }
    requires path { IsTrue (is_path path.now) }
    requires top { top.old ≡ None }
    ensures ok { OnOk result (nodes.new ≡ with_made nodes.old path.now value.items) }
    ensures itself { IfOk result (λ itself. itself ≡ not (contains_key nodes.old path.now)) }
    ensures grown { IsGrown nodes.old nodes.new path.now top.new (length path.now) }
{
    grow(nodes, near, path, top)?;
    add_last(nodes, path, value, top)
}

// Makes the nodes above it that are missing. `top` tells the length of the first that was made,
// also after want of memory.
fn grow(
    nodes: &mut NodeMap,
    near: Option<&[u8]>,
    path: &[u8],
    top: &mut Option<usize>,
) -> Result<(), NoMemory>
    requires tree { IsTree nodes.old }
    requires near { ForSome near (λ n. contains_key nodes.old n.now ≡ true) }
    requires path { IsTrue (is_path path.now) }
    requires top { top.old ≡ None }
    ensures ok { OnOk result (nodes.new ≡ with_each_missing nodes.old (ancestors path.now)) }
    ensures grown { IsGrown nodes.old nodes.new path.now top.new (length path.now) }
{
    if path.len() == 1 {
        return Ok(());
    }
    if has_above(nodes, near, path) {
        return Ok(());
    }
    make_front(nodes, &path[..1], top)?;
    let text = &path[1..];
    for (i, b) in text.iter().enumerate() {
        if *b == SLASH {
            make_front(nodes, &path[..i + 1], top)?;
        }
    }
    Ok(())
}

// Whether the path above it is there, where that isn't `/`: then all above it are.
fn has_above(nodes: &NodeMap, near: Option<&[u8]>, path: &[u8]) -> bool
    requires tree { IsTree nodes.now }
    requires near { ForSome near (λ n. contains_key nodes.now n.now ≡ true) }
    requires path { IsTrue (is_path path.now) }
    ensures { result ≡ true → with_each_missing nodes.now (ancestors path.now) ≡ nodes.now }
{
    match last_slash(path) {
        Some(end) if end > 0 => {
            let above = &path[..end];
            is_near(near, above) || nodes.contains(above)
        }
        _ => false,
    }
}

// Whether the node that is there is the one above, or lies below it.
fn is_near(near: Option<&[u8]>, above: &[u8]) -> bool
    ensures { result ≡ true → IsSomeAnd near.entry (λ n. is_within above.now n.now ≡ true) }
{
    match near {
        Some(path) => is_within(above, path),
        None => false,
    }
}

// Makes a node of empty value, if there is none.
fn make_front(nodes: &mut NodeMap, front: &[u8], top: &mut Option<usize>) -> Result<(), NoMemory>
    requires { IsTree (with_missing nodes.old front.now) }
    ensures ok { OnOk result (nodes.new ≡ with_missing nodes.old front.now) }
    ensures first { OnOk result (top.new ≡ first_made nodes.old front.now top.old) }
    ensures err { OnErr result (nodes.new ≡ nodes.old) }
    ensures err_first { OnErr result (top.new ≡ top.old) }
{
    if nodes.contains(front) {
        return Ok(());
    }
    nodes.add_empty(front)?;
    if top.is_none() {
        *top = Some(front.len());
    }
    Ok(())
}

// Makes the node itself, if it is missing.
fn add_last(
    nodes: &mut NodeMap,
    path: &[u8],
    value: Vec<u8>,
    top: &mut Option<usize>,
) -> Result<bool, NoMemory>
    requires { IsTree (with_added nodes.old path.now value.items) }
    ensures ok { OnOk result (nodes.new ≡ with_added nodes.old path.now value.items) }
    ensures itself { IfOk result (λ itself. itself ≡ not (contains_key nodes.old path.now)) }
    ensures first { OnOk result (top.new ≡ first_made nodes.old path.now top.old) }
    ensures err { OnErr result (nodes.new ≡ nodes.old) }
    ensures err_first { OnErr result (top.new ≡ top.old) }
{
    let itself = nodes.add(path, value)?;
    if itself && top.is_none() {
        *top = Some(path.len());
    }
    Ok(itself)
}

// Makes each of these nodes that is missing, or none. It tells whether all of them were.
pub(crate) fn make_all(
    alloc: Global,
    nodes: &mut NodeMap,
    near: Option<&[u8]>,
    list: &[(Vec<u8>, Vec<u8>)],
) -> Result<bool, NoMemory>
    requires tree { IsTree nodes.old }
    requires near { ForSome near (λ n. contains_key nodes.old n.now ≡ true) }
    requires paths { ArePaths (shown list.now) }
    ensures ok { OnOk result (nodes.new ≡ with_each_made nodes.old (shown list.now)) }
    ensures all { IfOk result (λ all.
        all ≡ true → nodes.new ≡ with_nodes nodes.old (shown list.now)) }
    ensures err { OnErr result (nodes.new ≡ nodes.old) }
{
    let Some((first, rest)) = list.split_first() else {
        return Ok(true);
    };
    let value = copy_of(alloc, &first.1)?;
    let made = make(nodes, near, &first.0, value)?;
    match make_all(alloc, nodes, Some(&first.0), rest) {
        Ok(all) => Ok(all && made.itself),
        Err(error) => {
            cut_front(nodes, &first.0, made.top);
            Err(error)
        }
    }
}

// Gives each of these nodes, which are there, its value.
pub(crate) fn fill(nodes: &mut NodeMap, list: Vec<(Vec<u8>, Vec<u8>)>)
    requires { HasEach nodes.old (shown list.items) }
    ensures { nodes.new ≡ with_values nodes.old (shown list.items) }
{
    for (path, value) in list {
        let _ = nodes.replace(&path, value);
    }
}
