//! A ring of another thread ends a wait.

use crate::echo::ASK;
use net_links::NetBinder;
use outside::{Bell, Binder, Hint, Links};
use std::test::Fail;
use std::thread;
use std::time::Duration;

#[test]
fn a_ring_ends_a_wait(rt: HostRuntime) -> Result<(), Fail> {
    let mut binder = NetBinder::new(&rt);
    let mut links = binder.listen(rt.alloc(), 0, 1)?;
    for _ in 0..3 {
        let bell = links.bell(rt.alloc())?;
        let ringer = thread::spawn(&rt, move || {
            thread::sleep(&rt, Duration::from_millis(20));
            for _ in 0..100 {
                bell.ring(&rt);
            }
        })?;
        let hint = links.next(&rt, ASK);
        ringer.join(&rt);
        assert!(rt; matches!(hint, Ok(Hint::Woken)));
    }
    binder.take_back(links);
    Ok(())
}
