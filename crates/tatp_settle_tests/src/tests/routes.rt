//! Plans of moves over 130 subscribers in two partitions, and where calls go at first.

use std::test::Fail;
use tatp_move::{MoveRefusal, Plan, Routes};

#[test]
fn ranges_of_130_subscribers(rt: HostRuntime) -> Result<(), Fail> {
    let routes = Routes::open(rt.alloc(), 130, 2)?;
    let plan = Plan {
        first: 1,
        last: 2,
        from: 0,
        to: 1,
    };
    assert_eq!(rt; routes.move_range(60, 70, 0, 1), Ok(plan));
    assert_eq!(rt; routes.move_range(0, 5, 0, 1), Err(MoveRefusal::NoExtent));
    assert_eq!(rt; routes.move_range(5, 131, 0, 1), Err(MoveRefusal::NoExtent));
    assert_eq!(rt;
        routes.move_range(1, 1, 0, 2),
        Err(MoveRefusal::NoPartition)
    );
    assert_eq!(rt;
        routes.move_range(1, 1, 1, 1),
        Err(MoveRefusal::SamePartition)
    );
    assert_eq!(rt;
        (
            routes.route(Some(64)),
            routes.route(Some(65)),
            routes.route(Some(130)),
            routes.route(Some(131)),
            routes.route(None)
        ),
        (0, 1, 0, 0, 0)
    );
    Ok(())
}
