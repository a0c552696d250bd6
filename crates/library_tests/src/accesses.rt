//! Accesses of memory, worked out by hand.

use ir_types::Site;
use machine_model::{Access, Pending};
use std::test::Fail;

const SITE: Site = Site {
    function: 1,
    inst: 4,
};

const LOAD: Access = Access {
    site: SITE,
    at: 4096,
    len: 4,
    store: false,
};

/// A store of the same bytes.
const STORE: Access = Access {
    site: SITE,
    at: 4096,
    len: 4,
    store: true,
};

/// A store of the last of these bytes.
const LAST: Access = Access {
    site: SITE,
    at: 4099,
    len: 1,
    store: true,
};

/// A store of the byte behind them.
const BEHIND: Access = Access {
    site: SITE,
    at: 4100,
    len: 1,
    store: true,
};

/// Two accesses, whether they overlap, and whether they conflict.
static PAIRS: [(Access, Access, bool, bool); 5] = [
    (LOAD, LOAD, true, false),
    (LOAD, STORE, true, true),
    (STORE, STORE, true, true),
    (LOAD, LAST, true, true),
    (LOAD, BEHIND, false, false),
];

#[test]
fn accesses_conflict(rt: HostRuntime) -> Result<(), Fail> {
    for (index, (one, other, overlap, conflict)) in PAIRS.iter().enumerate() {
        assert_eq!(rt; one.overlaps(other), *overlap, "{index}");
        assert_eq!(rt; other.overlaps(one), *overlap, "{index}");
        assert_eq!(rt; one.conflicts(other), *conflict, "{index}");
        assert_eq!(rt; other.conflicts(one), *conflict, "{index}");
    }
    Ok(())
}

#[test]
fn pending_access_is_one(rt: HostRuntime) -> Result<(), Fail> {
    let pending = Pending::Access {
        site: SITE,
        at: 4096,
        len: 4,
        store: true,
    };
    assert_eq!(rt; Access::of(pending), Some(STORE));
    assert_eq!(rt; Access::of(Pending::Other), None);
    assert!(rt; STORE.is_at(SITE));
    let next = Site {
        function: 1,
        inst: 5,
    };
    assert!(rt; !STORE.is_at(next));
    Ok(())
}
