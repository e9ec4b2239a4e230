// What an id shares with others.
ghost use Rattle.std.specs.Prelude.{◌≡◌, true, IfOk, IfSome, IfNone, OnOk, OnErr, is_some};
ghost use Rattle.std.specs.Bool.{OnTrue, OnFalse};
ghost use Rattle.std.specs.FinMap as map;
ghost use Rattle.neph_grant.specs.Handles.{free_handle, maps_entry, with_mapping};
ghost use Rattle.neph_grant.specs.Table.{admit_answer, device_grants, end_answer, names_page};
ghost use Rattle.neph_rows.specs.Shares.{no_shares};

use neph_base::{DomId, GrantRef, Handle, Mode, NoMemory, Pfn};
use neph_grant::{EndFault, GrantEntry, GrantMapping, GrantTable, Handles, MapRefused};
use std::alloc::Global;
use std::marker::Model;

/// The grants of a domain, and its handles.
#[derive(Drop)]
pub struct SharedTables {
    /// The entries by which it lets others at its pages.
    pub grants: GrantTable,
    /// The entries of others that it has mapped.
    pub handles: Handles,
}

/// What an id shares with others. Only a domain's tables take memory.
#[derive(Drop)]
pub struct Sharing {
    tables: Option<Box<SharedTables>>,
}

impl Model for Sharing {
    ghost use Rattle.neph_rows.specs.Shares.{Shares, shares_of};
    ghost use Rattle.std.specs.Coded.{codes};
    ghost use Rattle.neph_grant.specs.contracts.handles.Handles as handles;
    ghost use Rattle.neph_grant.specs.contracts.table.GrantTable as table;

    ghost Value = { Shares };

    ghost coded = { Prim.hlevel (codes, table.the_row.coded, handles.the_row.coded) };

    ghost view = { λ a. shares_of a.tables };
}

impl Sharing {
    /// Nothing, of an id that has no domain.
    pub fn none() -> Self
        ensures { result ≡ no_shares }
    {
        Sharing { tables: None }
    }

    /// A starting domain's: it has granted its device pages to domain 0.
    pub fn start(alloc: Global) -> Result<Self, NoMemory>
        ensures { IfOk result (λ s. s
            ≡ record { grants = device_grants; handles = map.empty; room = true }) }
    {
        of(alloc, GrantTable::start())
    }

    /// A child's: its parent's grants, and no handles.
    pub fn child(&self, alloc: Global) -> Result<Self, NoMemory>
        ensures { IfOk result (λ s. s
            ≡ record { grants = self.now.grants; handles = map.empty; room = true }) }
    {
        match &self.tables {
            Some(tables) => of(alloc, tables.grants.copy()),
            None => of(alloc, GrantTable::new()),
        }
    }

    /// The entry of a reference, `None` exactly where it is free.
    pub fn entry(&self, r: GrantRef) -> Option<GrantEntry>
        ensures { result ≡ map.get self.now.grants r }
    {
        match &self.tables {
            Some(tables) => tables.grants.at(r),
            None => None,
        }
    }

    /// Whether an entry names a page.
    pub fn names(&self, p: Pfn) -> bool
        ensures { result ≡ names_page self.now.grants p }
    {
        match &self.tables {
            Some(tables) => tables.grants.names(p),
            None => false,
        }
    }

    /// Takes an entry away, and gives the page that it named. `mapped` tells whether a domain has
    /// the entry mapped.
    pub fn end(&mut self, r: GrantRef, mapped: bool) -> Result<Pfn, EndFault>
        ensures answer { result ≡ end_answer self.old.grants r mapped }
        ensures ok { OnOk result (self.new
            ≡ record self.old { grants = map.remove self.old.grants r }) }
        ensures err { OnErr result (self.new ≡ self.old) }
    {
        match &mut self.tables {
            Some(tables) => tables.grants.end(r, mapped),
            None => Err(EndFault::NoGrant),
        }
    }

    /// What the domain `me`, whose parent is `my_parent`, gets by mapping an entry of the granter,
    /// whose grants these are.
    pub fn admits(
        &self,
        r: GrantRef,
        me: DomId,
        my_parent: DomId,
        granter: DomId,
    ) -> Result<(Pfn, Mode), MapRefused>
        ensures { result ≡ admit_answer self.now.grants r me my_parent granter }
    {
        match &self.tables {
            Some(tables) => tables.grants.admits(r, me, my_parent, granter),
            None => Err(MapRefused::NoEntry),
        }
    }

    /// What a handle maps, `None` exactly where it isn't held.
    pub fn mapping(&self, h: Handle) -> Option<GrantMapping>
        ensures { result ≡ map.get self.now.handles h }
    {
        let Some(tables) = &self.tables else {
            return None;
        };
        let (granter, reference, mode) = tables.handles.at(h)?;
        Some(GrantMapping {
            granter,
            reference,
            mode,
        })
    }

    /// Whether a handle has this entry of the granter mapped.
    pub fn maps(&self, granter: DomId, r: GrantRef) -> bool
        ensures { result ≡ maps_entry self.now.handles granter r }
    {
        match &self.tables {
            Some(tables) => tables.handles.maps(granter, r),
            None => false,
        }
    }

    /// Maps an entry of the granter at the least free handle, `None` exactly where all are held.
    pub fn map(&mut self, granter: DomId, r: GrantRef, m: Mode) -> Option<Handle>
        requires { self.old.room ≡ true }
        ensures value { result ≡ free_handle self.old.handles }
        ensures put { IfSome result (λ h. self.new
            ≡ record self.old { handles = with_mapping self.old.handles h granter r m }) }
        ensures full { IfNone result (self.new ≡ self.old) }
    {
        match &mut self.tables {
            Some(tables) => tables.handles.put(granter, r, m),
            None => unreachable!(),
        }
    }

    /// Gives a handle up, false exactly where it isn't held.
    pub fn unmap(&mut self, h: Handle) -> bool
        ensures value { result ≡ is_some (map.get self.old.handles h) }
        ensures removed { OnTrue result (self.new
            ≡ record self.old { handles = map.remove self.old.handles h }) }
        ensures absent { OnFalse result (self.new ≡ self.old) }
    {
        match &mut self.tables {
            Some(tables) => tables.handles.remove(h),
            None => false,
        }
    }
}

// What a domain with these grants and no handles shares.
fn of(alloc: Global, grants: GrantTable) -> Result<Sharing, NoMemory>
    ensures { IfOk result (λ s. s ≡ record { grants = grants; handles = map.empty; room = true }) }
{
    let tables = Box::new(
        alloc,
        SharedTables {
            grants,
            handles: Handles::new(),
        },
    )?;
    Ok(Sharing {
        tables: Some(tables),
    })
}
