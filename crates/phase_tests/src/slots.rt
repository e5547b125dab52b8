//! Small gaps.
ghost use Rattle.std.specs.Prelude.{◌≢◌, ◌≤◌, ◌^◌, length};
ghost use Rattle.std.specs.List.{All};
ghost use Rattle.net_routes.specs.GapFree.{IsNet, AreHeights};

use net_routes::{Net, NetRoute, Pin, Slots};
use route_slots::{assign, assign_near, assign_uncrossed, assign_uncrossed_near};
use std::alloc::{AllocError, Global};
use std::test::Fail;

// A net from the left to the right.
fn net(left: u32, right: u32) -> Net
    ensures pins { IsNet result }
    ensures heights { AreHeights result }
{
    Net {
        a: Pin {
            on_left: true,
            height: i64::from(left),
        },
        b: Pin {
            on_left: false,
            height: i64::from(right),
        },
    }
}

// The slots of nets, of which nothing more is known.
fn assigned(alloc: Global, nets: &[Net]) -> Result<Slots, AllocError>
    requires few { length nets.now ≤ 2 ^ 24 }
    requires pins { All IsNet nets.now }
    requires heights { All AreHeights nets.now }
{
    assign(alloc, nets)
}

#[test]
fn pins_at_one_height_are_joined_straight(rt: HostRuntime) -> Result<(), Fail> {
    let slots = assigned(rt.alloc(), &[net(5, 5)])?;
    assert_eq!(rt; slots.count, 0);
    assert_eq!(rt; slots.routes.len(), 1);
    assert!(rt; matches!(slots.routes[0], NetRoute::Straight));
    Ok(())
}

#[test]
fn pieces_that_do_not_meet_share_a_slot(rt: HostRuntime) -> Result<(), Fail> {
    let slots = assigned(rt.alloc(), &[net(0, 10), net(20, 30)])?;
    assert_eq!(rt; slots.count, 1);
    assert_eq!(rt; slots.routes.len(), 2);
    assert!(rt; matches!(slots.routes[0], NetRoute::One { slot: 0 }));
    assert!(rt; matches!(slots.routes[1], NetRoute::One { slot: 0 }));
    Ok(())
}

#[test]
fn there_are_as_many_slots_as_pieces_meet(rt: HostRuntime) -> Result<(), Fail> {
    let slots = assigned(rt.alloc(), &[net(0, 10), net(5, 15), net(20, 30)])?;
    assert_eq!(rt; slots.count, 2);
    assert_eq!(rt; slots.routes.len(), 3);
    for route in &slots.routes {
        assert!(rt; matches!(route, NetRoute::One { .. }));
    }
    Ok(())
}

// The slot of a net that has one.
fn slot_of(route: &NetRoute) -> Option<u32> {
    match route {
        NetRoute::One { slot } => Some(*slot),
        _ => None,
    }
}

#[test]
fn a_chain_of_conflicts_is_not_cut(rt: HostRuntime) -> Result<(), Fail> {
    let slots = assigned(rt.alloc(), &[net(0, 10), net(10, 20)])?;
    assert_eq!(rt; slots.routes.len(), 2);
    let later = slot_of(&slots.routes[0]).ok_or("the first net is not in one slot")?;
    let slot = slot_of(&slots.routes[1]).ok_or("the second net is not in one slot")?;
    assert!(rt; slot <= later, "{slot} lies behind {later}");
    Ok(())
}

#[test]
fn a_cycle_of_conflicts_is_cut(rt: HostRuntime) -> Result<(), Fail> {
    let slots = assigned(rt.alloc(), &[net(1, 2), net(2, 1)])?;
    assert_eq!(rt; slots.routes.len(), 2);
    let mut split = false;
    for route in &slots.routes {
        if let NetRoute::Two { height, .. } = route {
            assert!(rt; *height != 1 && *height != 2);
            split = true;
        }
    }
    assert!(rt; split);
    Ok(())
}

#[test]
fn of_two_nets_that_exchange_heights_one_turns_between(rt: HostRuntime) -> Result<(), Fail> {
    let slots = assigned(rt.alloc(), &[net(0, 20), net(20, 0)])?;
    assert_eq!(rt; slots.count, 3);
    assert_eq!(rt; slots.routes.len(), 2);
    assert!(rt; matches!(slots.routes[0], NetRoute::One { slot: 1 }));
    assert!(rt;
        matches!(
            slots.routes[1],
            NetRoute::Two {
                first: 0,
                height: 10,
                second: 2
            }
        )
    );
    Ok(())
}

#[test]
fn of_three_nets_on_a_cycle_one_is_split(rt: HostRuntime) -> Result<(), Fail> {
    let slots = assigned(rt.alloc(), &[net(0, 10), net(10, 20), net(20, 0)])?;
    assert_eq!(rt; slots.count, 4);
    assert_eq!(rt; slots.routes.len(), 3);
    assert!(rt; matches!(slots.routes[0], NetRoute::One { slot: 2 }));
    assert!(rt; matches!(slots.routes[1], NetRoute::One { slot: 1 }));
    assert!(rt;
        matches!(
            slots.routes[2],
            NetRoute::Two {
                first: 0,
                height: 5,
                second: 3
            }
        )
    );
    Ok(())
}

#[test]
fn nets_of_a_hub_do_not_cross(rt: HostRuntime) -> Result<(), Fail> {
    let nets = [net(100, 1), net(102, 51), net(104, 151), net(106, 201)];
    let slots = assigned(rt.alloc(), &nets)?;
    assert_eq!(rt; slots.count, 2);
    assert_eq!(rt; slots.routes.len(), 4);
    assert!(rt; matches!(slots.routes[0], NetRoute::One { slot: 0 }));
    assert!(rt; matches!(slots.routes[1], NetRoute::One { slot: 1 }));
    assert!(rt; matches!(slots.routes[2], NetRoute::One { slot: 1 }));
    assert!(rt; matches!(slots.routes[3], NetRoute::One { slot: 0 }));
    Ok(())
}

// The slots of nets that cross no more often than they have to, of which nothing more is known.
fn uncrossed(alloc: Global, nets: &[Net]) -> Result<Slots, AllocError>
    requires few { length nets.now ≤ 2 ^ 24 }
    requires pins { All IsNet nets.now }
    requires heights { All AreHeights nets.now }
{
    assign_uncrossed(alloc, nets)
}

#[test]
fn nets_side_by_side_do_not_cross(rt: HostRuntime) -> Result<(), Fail> {
    let slots = uncrossed(rt.alloc(), &[net(0, 10), net(5, 15), net(12, 20)])?;
    assert_eq!(rt; slots.count, 3);
    assert_eq!(rt; slots.routes.len(), 3);
    assert!(rt; matches!(slots.routes[0], NetRoute::One { slot: 2 }));
    assert!(rt; matches!(slots.routes[1], NetRoute::One { slot: 1 }));
    assert!(rt; matches!(slots.routes[2], NetRoute::One { slot: 0 }));
    Ok(())
}

#[test]
fn nets_without_an_order_are_assigned(rt: HostRuntime) -> Result<(), Fail> {
    let slots = uncrossed(rt.alloc(), &[net(0, 20), net(20, 0), net(30, 30)])?;
    assert_eq!(rt; slots.count, 3);
    assert_eq!(rt; slots.routes.len(), 3);
    assert!(rt; matches!(slots.routes[0], NetRoute::One { slot: 1 }));
    assert!(rt; matches!(slots.routes[1], NetRoute::Two { .. }));
    assert!(rt; matches!(slots.routes[2], NetRoute::Straight));
    Ok(())
}

// A net with both pins on one side.
fn bent(on_left: bool, low: u32, high: u32) -> Net
    requires { low ≢ high }
    ensures pins { IsNet result }
    ensures heights { AreHeights result }
{
    Net {
        a: Pin {
            on_left,
            height: i64::from(low),
        },
        b: Pin {
            on_left,
            height: i64::from(high),
        },
    }
}

// The slot of a net that takes one.
fn slot_at(routes: &[NetRoute], number: usize) -> u32 {
    match routes.get(number) {
        None => u32::MAX,
        Some(route) => match route {
            NetRoute::One { slot } => *slot,
            _ => u32::MAX,
        },
    }
}

// Whether of two nets alone in a gap the first stands before the second.
fn stands_first(alloc: Global, first: Net, second: Net, near: i64) -> Result<bool, AllocError>
    requires first { IsNet first }
    requires second { IsNet second }
    requires low { AreHeights first }
    requires high { AreHeights second }
{
    let slots = assign_uncrossed_near(alloc, &[first, second], near)?;
    Ok(slot_at(slots.routes.as_slice(), 0) < slot_at(slots.routes.as_slice(), 1))
}

#[test]
fn of_two_nets_across_that_fall_the_lower_one_is_first(rt: HostRuntime) -> Result<(), Fail> {
    assert!(rt; !stands_first(rt.alloc(), net(0, 10), net(5, 15), 1)?);
    assert!(rt; stands_first(rt.alloc(), net(5, 15), net(0, 10), 1)?);
    Ok(())
}

#[test]
fn of_two_nets_across_that_rise_the_upper_one_is_first(rt: HostRuntime) -> Result<(), Fail> {
    assert!(rt; stands_first(rt.alloc(), net(10, 0), net(15, 5), 1)?);
    assert!(rt; !stands_first(rt.alloc(), net(15, 5), net(10, 0), 1)?);
    Ok(())
}

#[test]
fn of_two_nets_on_one_side_the_inner_is_nearer_to_it(rt: HostRuntime) -> Result<(), Fail> {
    assert!(rt; !stands_first(rt.alloc(), bent(true, 0, 10), bent(true, 4, 6), 1)?);
    assert!(rt; stands_first(rt.alloc(), bent(true, 4, 6), bent(true, 0, 10), 1)?);
    assert!(rt; stands_first(rt.alloc(), bent(false, 0, 10), bent(false, 4, 6), 1)?);
    assert!(rt; !stands_first(rt.alloc(), bent(false, 4, 6), bent(false, 0, 10), 1)?);
    Ok(())
}

#[test]
fn a_net_on_one_side_stands_inside_one_across(rt: HostRuntime) -> Result<(), Fail> {
    assert!(rt; stands_first(rt.alloc(), bent(true, 5, 10), net(0, 20), 1)?);
    assert!(rt; !stands_first(rt.alloc(), bent(false, 5, 10), net(0, 20), 1)?);
    Ok(())
}

#[test]
fn of_two_nets_from_one_pin_the_longer_is_first(rt: HostRuntime) -> Result<(), Fail> {
    assert!(rt; !stands_first(rt.alloc(), net(0, 10), net(0, 20), 1)?);
    assert!(rt; stands_first(rt.alloc(), net(0, 20), net(0, 10), 1)?);
    Ok(())
}

#[test]
fn lines_do_not_run_near_side_by_side(rt: HostRuntime) -> Result<(), Fail> {
    assert!(rt; !stands_first(rt.alloc(), net(0, 20), net(22, 9), 8)?);
    assert!(rt; stands_first(rt.alloc(), net(22, 9), net(0, 20), 8)?);
    Ok(())
}

#[test]
fn the_lightest_demand_of_a_cycle_is_dropped(rt: HostRuntime) -> Result<(), Fail> {
    let slots = uncrossed(rt.alloc(), &[net(0, 10), net(12, 0), net(5, 12)])?;
    assert_eq!(rt; slots.count, 3);
    assert_eq!(rt; slots.routes.len(), 3);
    assert!(rt; matches!(slots.routes[0], NetRoute::One { slot: 0 }));
    assert!(rt; matches!(slots.routes[1], NetRoute::One { slot: 1 }));
    assert!(rt; matches!(slots.routes[2], NetRoute::One { slot: 2 }));
    Ok(())
}

#[test]
fn nets_that_have_to_cross_stand_in_two_slots(rt: HostRuntime) -> Result<(), Fail> {
    let across = uncrossed(rt.alloc(), &[net(2, 18), net(17, 3)])?;
    let beside = uncrossed(rt.alloc(), &[bent(true, 0, 10), bent(true, 5, 15)])?;
    assert_eq!(rt; across.count, 2);
    assert_eq!(rt; beside.count, 2);
    Ok(())
}

// Whether the first of some nets stands before the second, in as few slots as there can be.
fn first_before_second(alloc: Global, nets: &[Net], near: i64) -> Result<bool, AllocError>
    requires few { length nets.now ≤ 2 ^ 24 }
    requires pins { All IsNet nets.now }
    requires heights { All AreHeights nets.now }
{
    let slots = assign_near(alloc, nets, near)?;
    Ok(slot_at(slots.routes.as_slice(), 0) < slot_at(slots.routes.as_slice(), 1))
}

// The line that comes to the right border at 20 runs near the one from the left border at 22, unless this turns off first.
#[test]
fn lines_do_not_run_near_in_the_fewest_slots(rt: HostRuntime) -> Result<(), Fail> {
    assert!(rt; !first_before_second(rt.alloc(), &[net(0, 20), net(22, 9)], 8)?);
    assert!(rt; first_before_second(rt.alloc(), &[net(22, 9), net(0, 20)], 8)?);
    Ok(())
}
