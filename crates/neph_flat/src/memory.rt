// What a command does to the memory of its domain, by itself.
ghost use Rattle.std.specs.Prelude.{◌≡◌, ◌+◌, ◌/◌, ◌%◌, ◌≤◌, ◌<◌, length, IfOk, OnOk, OnErr, ◌++◌, ◌∷◌, []};
ghost use Rattle.std.specs.FinMap as map;
ghost use Rattle.neph_model.specs.Own.{w_step, r_step, map_step, unmap_step, mapping_at};
ghost use Rattle.neph_flat.specs.Sound.{IsMapped};
ghost use Rattle.neph_flat.specs.Local.{RowDone, RowDoneOrLacks, MapTakes};

use neph_base::{Mode, NoMemory, Pfn, Piece, Refusal, Reply, TryClone, VAddr, Vpn};
use neph_model::{Leaves, Mapping, Own, Told};

/// What a command comes to by itself: nothing where the hypervisor has to be asked.
pub type Row = Option<Result<Reply, Refusal>>;

/// Writes bytes at an address.
pub fn write(o: &mut Own, told: Told, addr: VAddr, bytes: &Piece) -> Row
    requires fits { addr % 4096 + length bytes.now ≤ 4096 }
    requires mapped { IsMapped o.old }
    requires alone { length o.old.alone ≡ length o.old.pages }
    ensures line { o.new.line ≡ o.old.line }
    ensures did { RowDone o.old o.new result
        (w_step o.old told (addr % 4096) bytes.now (mapping_at o.old addr)) }
{
    let Some(to) = o.vmap.get(addr.vpn().get()) else {
        return Some(Err(Refusal::Unmapped));
    };
    let page = to.pfn.get() as usize;
    if o.pages.items()[page].is_none() {
        return None;
    }
    match (to.mode, told) {
        (Mode::Ro, _) => Some(Err(Refusal::ReadOnly)),
        (Mode::Rw, Told::Short) => None,
        (Mode::Rw, _) => {
            o.pages.write(page, addr.offset(), bytes.bytes());
            o.alone.set(page, true);
            Some(Ok(Reply::Done))
        }
    }
}

/// Reads bytes at an address.
pub fn read(o: &Own, addr: VAddr, len: u8) -> Row
    requires some { 0 < len }
    requires few { len ≤ 64 }
    requires fits { addr % 4096 + len ≤ 4096 }
    requires mapped { IsMapped o.now }
    ensures { RowDone o.now o.now result (r_step o.now (addr % 4096) len (mapping_at o.now addr)) }
{
    let Some(to) = o.vmap.get(addr.vpn().get()) else {
        return Some(Err(Refusal::Unmapped));
    };
    let Some(page) = &o.pages.items()[to.pfn.get() as usize] else {
        return None;
    };
    let from = addr.offset();
    let piece = Piece::new(&page.bytes()[from..from + len as usize]).unwrap();
    Some(Ok(Reply::Bytes(piece)))
}

/// Lets a virtual page map to a page, in place of what it mapped to. Only one that maps to nothing
/// or has no leaf table takes memory.
pub fn map(o: &mut Own, told: Told, vpn: Vpn, pfn: Pfn, mode: Mode) -> Result<Row, NoMemory>
    ensures line { o.new.line ≡ o.old.line }
    ensures did { RowDoneOrLacks (MapTakes o.old told vpn pfn mode) o.old o.new result
        (map_step o.old told vpn pfn mode) }
{
    if o.is_bad_pfn(pfn, mode) {
        return Ok(Some(Err(Refusal::BadPfn)));
    }
    let to = Mapping { pfn, mode };
    if o.has_leaf(vpn) {
        o.vmap.insert(vpn.get(), to)?;
        return Ok(Some(Ok(Reply::Done)));
    }
    if matches!(told, Told::Short) {
        return Ok(None);
    }
    let leaves = with_leaf(&o.leaves, (vpn.get() / 512) as u16)?;
    o.vmap.insert(vpn.get(), to)?;
    o.leaves = leaves;
    Ok(Some(Ok(Reply::Done)))
}

// These leaf tables and one more.
fn with_leaf(leaves: &Leaves, group: u16) -> Result<Leaves, NoMemory>
    ensures { IfOk result (λ more. more ≡ leaves.now ++ group ∷ []) }
{
    let mut more = leaves.try_clone()?;
    more.push(group)?;
    Ok(more)
}

/// Lets a virtual page map to nothing.
pub fn unmap(o: &mut Own, vpn: Vpn) -> Row
    ensures { RowDone o.old o.new result (unmap_step o.old vpn (map.get o.old.vmap vpn)) }
{
    if o.vmap.get(vpn.get()).is_none() {
        return Some(Err(Refusal::Unmapped));
    }
    o.vmap.remove(vpn.get());
    Some(Ok(Reply::Done))
}
