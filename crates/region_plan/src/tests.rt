// A plan of two regions, and where they lie.
use crate::RegionPlan;

#[test]
fn the_lowest_free_region_is_found_again(rt: HostRuntime) {
    let mut plan = RegionPlan::new(2);
    assert_eq!(rt; plan.lowest_free(), Some(0));
    plan.take(0);
    plan.take(1);
    assert_eq!(rt; plan.lowest_free(), None);
    plan.free(0);
    assert_eq!(rt; plan.lowest_free(), Some(0));
}

#[test]
fn regions_lie_one_after_another(rt: HostRuntime) {
    assert_eq!(rt; RegionPlan::start(1), 0x1_0010_0000);
    assert_eq!(rt; RegionPlan::distance(1, 0), -0x10_0000);
}
