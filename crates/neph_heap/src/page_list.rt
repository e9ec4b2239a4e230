// A list of exposed pages that one can be taken off.
ghost use Rattle.std.specs.Prelude.{◌≡◌};
ghost use Rattle.neph_heap.specs.Lists.{pages_but};

use crate::exposed_frame::ExposedFrame;
use neph_base::Pfn;
use std::marker::Model;

/// The exposed pages of a domain, which contracts see as a list.
#[derive(Drop)]
pub struct PageList {
    pages: Vec<ExposedFrame>,
}

impl Model for PageList {
    ghost use Rattle.std.specs.Prelude.{List};
    ghost use Rattle.neph_heap.specs.declared.exposed_frame.ExposedFrame.{ExposedFrame};

    ghost Value = { List ExposedFrame };

    ghost view = { λ a. a.pages.items };
}

impl PageList {
    /// The list of these pages.
    pub fn of(pages: Vec<ExposedFrame>) -> Self
        ensures { result ≡ pages.items }
    {
        PageList { pages }
    }

    /// The pages.
    pub fn items(&self) -> &[ExposedFrame]
        ensures { result.now ≡ self.now }
    {
        &self.pages
    }

    /// Takes the page with this number off the list.
    pub fn remove(&mut self, pfn: Pfn)
        ensures { self.new ≡ pages_but pfn self.old }
    {
        self.pages.retain(|page| page.pfn != pfn);
    }
}
