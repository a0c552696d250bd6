//! Accesses of memory that are turns of their own.

ghost use Rattle.std.specs.Prelude.{◌≡◌, ◌+◌, nat_lt};
ghost use Rattle.machine_model.specs.Access.{access_of, conflicts, overlaps};
ghost use Rattle.run_types.specs.Site.{is_site};

use crate::pending::Pending;
use ir_types::Site;

/// A load or store at a watched site: of `len` bytes from the address `at` on.
#[derive(Clone, Copy, Debug, PartialEq, Eq)]
pub struct Access {
    pub site: Site,
    pub at: u64,
    pub len: u32,
    pub store: bool,
}

impl Access {
    /// The access that is pending, if it is one.
    pub fn of(pending: Pending) -> Option<Access>
        ensures { result ≡ access_of pending }
    {
        match pending {
            Pending::Access {
                site,
                at,
                len,
                store,
            } => Some(Access {
                site,
                at,
                len,
                store,
            }),
            _ => None,
        }
    }

    /// Whether the access is done at this site.
    pub fn is_at(&self, site: Site) -> bool
        ensures { result ≡ is_site self.now.site site }
    {
        self.site.function == site.function && self.site.inst == site.inst
    }

    /// Whether the range ends behind an address. Its end may be past the last address.
    fn ends_behind(&self, at: u64) -> bool
        ensures { result ≡ nat_lt at (self.now.at + self.now.len) }
    {
        at < self.at || at - self.at < u64::from(self.len)
    }

    /// Whether the ranges have a byte in common.
    pub fn overlaps(&self, other: &Access) -> bool
        ensures { result ≡ overlaps self.now other.now }
    {
        other.ends_behind(self.at) && self.ends_behind(other.at)
    }

    /// Whether the accesses conflict: they have a byte in common, and one of them is a store.
    pub fn conflicts(&self, other: &Access) -> bool
        ensures { result ≡ conflicts self.now other.now }
    {
        self.overlaps(other) && (self.store || other.store)
    }
}
