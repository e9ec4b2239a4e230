// Where a path stands below another.
ghost use Rattle.std.specs.Prelude.{◌≡◌, ◌<◌, ◌==◌, ℕ, List, true, not, length, IfNone, IfSome};
ghost use Rattle.std.specs.Option.{option_copied};
ghost use Rattle.std.specs.List.{list_all};
ghost use Rattle.neph_base.specs.Path.{slash, is_path};
ghost use Rattle.neph_tree.specs.Places.{root, rest_below, is_within, IsChild, IsLastSlash};

use neph_base::SLASH;

// What stands behind `top` and a slash in a path below it.
pub(crate) fn rest_below<'p>(top: &[u8], path: &'p [u8]) -> Option<&'p [u8]>
    ensures { option_copied result ≡ rest_below top.now path.now }
{
    match path.strip_prefix(top) {
        Some(rest) if top.len() == 1 => Some(rest),
        Some(rest) => rest.strip_prefix(&[SLASH]),
        None => None,
    }
}

// Whether it is this path, or one below it.
pub(crate) fn is_within(top: &[u8], path: &[u8]) -> bool
    ensures { result ≡ is_within top.now path.now }
{
    path == top || rest_below(top, path).is_some()
}

// The place of the last slash.
pub(crate) fn last_slash(path: &[u8]) -> Option<usize>
    ensures some { IfSome result (λ end. IsLastSlash path.now end) }
    ensures none { IfNone result (list_all (λ b. not (b == slash)) path.now ≡ true) }
{
    let mut end = path.len();
    while end > 0 {
        end -= 1;
        if path[end] == SLASH {
            return Some(end);
        }
    }
    None
}

// The path above and the last component, `None` of `/` and of what has no slash.
pub(crate) fn parent_and_name<'p>(path: &'p [u8]) -> Option<(&'p [u8], &'p [u8])>
    ensures some { IfSome result (λ p.
        is_path path.now ≡ true → IsChild path.now p.0.now p.1.now) }
    ensures none { IfNone result (is_path path.now ≡ true → path.now ≡ root) }
    ensures shorter { IfSome result (λ p. length p.0.now < length path.now) }
{
    if path.len() == 1 {
        return None;
    }
    let end = last_slash(path)?;
    Some((&path[..end.max(1)], &path[end + 1..]))
}

// The last component of a path that isn't `/`.
pub(crate) fn last_name(path: &[u8]) -> &[u8]
    requires { is_path path.now ≡ true }
    ensures { (directory name : List ℕ) → IsChild path.now directory name → result.now ≡ name }
{
    match parent_and_name(path) {
        Some((_, name)) => name,
        None => path,
    }
}

// The path within which all nodes are that are within `top`: those within the empty text are
// within `/`.
pub(crate) fn top_of(top: &[u8]) -> &[u8]
    ensures same { (path : List ℕ) → is_path path ≡ true
        → is_within result.now path ≡ is_within top.now path }
    ensures some { 0 < length result.now }
{
    if top.is_empty() { b"/" } else { top }
}
